//! Leaves and units. A cell of a resource holds one simple value at one leaf. A unit is a part of
//! a resource for which writing is allowed or denied as a whole.
ghost use Rattle.std.specs.Prelude.{◌≡◌};
ghost use Rattle.scim_schema.specs.Units as units;

use crate::characteristics::is_multi_valued;
use crate::{Attribute, Leaf, SubAttribute, Unit};

impl Leaf {
    /// The leaf of a simple attribute.
    pub fn simple(attribute: Attribute) -> Leaf
        ensures { result ≡ units.simple attribute }
    {
        Leaf {
            attribute,
            sub_attribute: None,
        }
    }

    /// The leaf of a sub-attribute of an attribute.
    pub fn of(attribute: Attribute, sub_attribute: SubAttribute) -> Leaf
        ensures { result ≡ units.leaf_at attribute sub_attribute }
    {
        Leaf {
            attribute,
            sub_attribute: Some(sub_attribute),
        }
    }
}

impl Unit {
    /// The unit of a whole attribute: a simple attribute, or all values of a multi-valued attribute.
    pub fn whole(attribute: Attribute) -> Unit
        ensures { result ≡ units.whole attribute }
    {
        Unit {
            attribute,
            sub_attribute: None,
        }
    }
}

/// The unit that contains the leaf: the whole attribute if it is multi-valued, otherwise the leaf alone.
pub fn unit_of(leaf: Leaf) -> Unit
    ensures { result ≡ units.unit_of leaf }
{
    Unit {
        attribute: leaf.attribute,
        sub_attribute: if is_multi_valued(leaf.attribute) {
            None
        } else {
            leaf.sub_attribute
        },
    }
}

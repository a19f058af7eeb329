//! Equality of parts and resources.
ghost use Rattle.std.specs.Prelude.{◌≡◌, ◌↔◌, IsTrue};

use crate::parts::Part;
use crate::resources::Resource;

/// Parts are equal if their kinds, their ids and their cells are equal.
impl PartialEq for Part {
    ghost use Rattle.std.specs.Cmp.{partial_equiv_from_equiv};
    ghost use Rattle.scim_value.specs.Equality.{is_same_part, is_same_part-IsEquivalence};

    ghost eq = { is_same_part };

    ghost laws = { partial_equiv_from_equiv is_same_part-IsEquivalence };

    fn eq(&self, other: &Part) -> bool
        ensures value { result ≡ is_same_part self.now other.now }
        ensures exact { IsTrue result ↔ (self.now ≡ other.now) }
    {
        self.kind() == other.kind() && self.id() == other.id() && self.rows() == other.rows()
    }
}

impl Eq for Part {
    ghost use Rattle.scim_value.specs.Equality.{is_same_part-IsEquivalence};

    ghost laws = { is_same_part-IsEquivalence };
}

/// Resources are equal if their kinds, their ids and their cells are equal.
impl PartialEq for Resource {
    ghost use Rattle.std.specs.Cmp.{partial_equiv_from_equiv};
    ghost use Rattle.scim_value.specs.Equality.{is_same_part, is_same_part-IsEquivalence};

    ghost eq = { is_same_part };

    ghost laws = { partial_equiv_from_equiv is_same_part-IsEquivalence };

    fn eq(&self, other: &Resource) -> bool
        ensures value { result ≡ is_same_part self.now other.now }
        ensures exact { IsTrue result ↔ (self.now ≡ other.now) }
    {
        self.part() == other.part()
    }
}

impl Eq for Resource {
    ghost use Rattle.scim_value.specs.Equality.{is_same_part-IsEquivalence};

    ghost laws = { is_same_part-IsEquivalence };
}

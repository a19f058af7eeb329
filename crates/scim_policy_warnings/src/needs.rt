//! The decisions of a policy that an operation needs, and those that are never allowed.
ghost use Rattle.std.specs.Prelude.{◌≡◌};
ghost use Rattle.scim_policy_warnings.specs.Needs as spec;

use crate::clients::Client;
use crate::possibilities::{Extent, may_allow};
use scim_policy::Rule;
use scim_schema::{Attribute, Kind, Leaf, Op, Unit, is_write_only, leaves, unit_of};

/// An operation that must be allowed at a leaf; reading, in all its values.
#[derive(Clone, Copy, PartialEq, Eq)]
pub struct Need {
    pub op: Op,
    pub leaf: Leaf,
}

/// Where the policy decides about a resource itself.
const ID: Leaf = Leaf {
    attribute: Attribute::Id,
    sub_attribute: None,
};

/// What the operation on any resource needs. A client changes or deletes only what it sees.
pub(crate) fn needed_at_all(op: Op) -> &'static [Need]
    ensures { result.now ≡ spec.needed_at_all op }
{
    match op {
        Op::Read | Op::Modify => &[Need {
            op: Op::Read,
            leaf: ID,
        }],
        Op::Create => &[Need {
            op: Op::Create,
            leaf: ID,
        }],
        Op::Delete => &[
            Need {
                op: Op::Read,
                leaf: ID,
            },
            Need {
                op: Op::Delete,
                leaf: ID,
            },
        ],
    }
}

/// The first of the needs that the rules never allow the client on resources of the kind.
pub(crate) fn missing(rules: &[Rule], client: &Client, kind: Kind, needs: &[Need]) -> Option<Need>
    ensures { result ≡ spec.missing rules.now client.now kind needs.now }
{
    for need in needs {
        if !may_allow(Extent::EachValue, rules, client, need.op, kind, need.leaf) {
            return Some(*need);
        }
    }
    None
}

/// The first need for writing the unit, beside that at `id`, that the rules never allow the client. `None` for
/// reading and deleting.
pub(crate) fn missing_to_write(
    rules: &[Rule],
    client: &Client,
    op: Op,
    kind: Kind,
    unit: Unit,
) -> Option<Need>
    ensures { result ≡ spec.missing rules.now client.now kind
        (spec.needed_to_write op kind unit) }
{
    for leaf in leaves(kind) {
        if unit_of(*leaf) == unit {
            let found = missing_at(rules, client, op, kind, *leaf);
            if found.is_some() {
                return found;
            }
        }
    }
    None
}

/// The first need for writing a unit at a leaf of it that the rules never allow the client.
fn missing_at(rules: &[Rule], client: &Client, op: Op, kind: Kind, leaf: Leaf) -> Option<Need>
    ensures { result ≡ spec.missing rules.now client.now kind (spec.needed_at op kind leaf) }
{
    let written = Need { op, leaf };
    let read = Need { op: Op::Read, leaf };
    match op {
        Op::Create => missing(rules, client, kind, &[written]),
        Op::Modify if is_write_only(kind, leaf) => missing(rules, client, kind, &[written]),
        Op::Modify => missing(rules, client, kind, &[written, read]),
        _ => None,
    }
}

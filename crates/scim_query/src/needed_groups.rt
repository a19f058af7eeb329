//! Whether only parts with a value of `groups` match a query, so that a caller can skip the others.
ghost use Rattle.std.specs.Prelude.{◌≡◌, true, Some};
ghost use Rattle.scim_filter_grammar.specs.Mentions.{mentioned_attribute};
ghost use Rattle.scim_filter_grammar.specs.Tree.{view};
ghost use Rattle.scim_query.specs.Needed as spec;

use crate::possible_matches::holds_of_none;
use crate::queries::Query;
use scim_filter_grammar::{Meant, Node};
use scim_schema::Attribute;

/// Whether a path names `groups` or one of its sub-attributes.
fn names_groups(meant: Meant) -> bool
    ensures { result ≡ true → mentioned_attribute meant ≡ Some Attribute.Groups }
{
    matches!(meant.mentioned_attribute(), Some(Attribute::Groups))
}

/// Whether only parts with a value of `groups` match the node. False for `not`, and for a comparison that is true of
/// an attribute without a value.
fn node_needs_groups(node: &Node) -> bool
    ensures { result ≡ true → spec.TreeNeedsGroups (view node.now) }
{
    match node {
        Node::Or(first, second) => node_needs_groups(first) && node_needs_groups(second),
        Node::And(first, second) => node_needs_groups(first) || node_needs_groups(second),
        Node::Not(_) => false,
        Node::Present(path) => names_groups(path.meant),
        Node::Compare(path, operator, literal) => {
            !holds_of_none(*operator, literal) && names_groups(path.meant)
        }
        Node::Values(path, _) => names_groups(path.meant),
    }
}

impl Query {
    /// Whether only parts with a value of `groups` can match. If false, it may still be that no other part matches.
    /// True if the filter asks for a value of `groups` by `pr`, by a value path, or by a comparison that isn't true of
    /// an attribute without a value: in one term of a conjunction, or in both of a disjunction. Doesn't allocate.
    pub fn needs_groups(&self) -> bool
        ensures { result ≡ true → spec.NeedsGroups self.now.filter }
    {
        match &self.filter {
            Some(filter) => node_needs_groups(filter.tree()),
            None => false,
        }
    }
}

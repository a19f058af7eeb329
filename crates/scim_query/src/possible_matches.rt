//! Whether any resource can match a filter, by the patterns of what the client may see.
ghost use Rattle.std.specs.Prelude.{◌≡◌, false, []};
ghost use Rattle.scim_cell.specs.Content.{Content, IsPart};
ghost use Rattle.scim_filter_grammar.specs.declared.tree.Meant.TheVariants.{Nothing};
ghost use Rattle.scim_filter_grammar.specs.Tree.{view};
ghost use Rattle.scim_filter.specs.Truth.{compares, truth};
ghost use Rattle.scim_policy.specs.PatternTable.{rules_in};
ghost use Rattle.scim_view.specs.View.{decision_in};
ghost use Rattle.scim_query.specs.PossibleMatches as spec;

use crate::queries::Query;
use scim_filter_grammar::{Literal, Meant, Node, Operator};
use scim_policy::Patterns;
use scim_schema::{Attribute, Kind, is_multi_valued};
use scim_view::shows_some;

/// Whether a comparison is true for an attribute without a value.
pub(crate) fn holds_of_none(operator: Operator, literal: &Literal) -> bool
    ensures { result ≡ compares Nothing operator literal.now [] }
{
    match (operator, literal) {
        (Operator::Eq, Literal::Null) => true,
        (Operator::Ne, Literal::Null) => false,
        (other, _) => other == Operator::Ne,
    }
}

/// Whether the filter in brackets of a value path is evaluated even if the attribute has no value.
/// This is so if the path names a single-valued attribute.
fn is_asked_of_none(meant: Meant) -> bool
    ensures { result ≡ spec.is_asked_of_none meant }
{
    match meant {
        Meant::Attribute(attribute) => !is_multi_valued(attribute),
        Meant::Nothing | Meant::SubAttribute(_, _) => false,
    }
}

/// Whether the client may see some cell of the attribute in a path, which may also name a sub-attribute.
/// Always true for `groups`, whose values are computed.
fn may_be_seen(meant: Meant, kind: Kind, patterns: &Patterns<'_>) -> bool
    ensures { result ≡ false → spec.StaysUnseen meant kind
        (decision_in (rules_in patterns.now)) }
{
    match meant.mentioned_attribute() {
        Some(attribute) => {
            attribute == Attribute::Groups || shows_some(patterns, kind, attribute)
        }
        None => false,
    }
}

/// Whether the filter can match the visible part of some resource of the kind. If false, the filter
/// matches none; if true, it may still match none.
fn may_hold(node: &Node, kind: Kind, patterns: &Patterns<'_>) -> bool
    ensures { result ≡ false → spec.NeverHolds (truth (view node.now)) kind
        (decision_in (rules_in patterns.now)) }
{
    match node {
        Node::Or(first, second) => {
            may_hold(first, kind, patterns) || may_hold(second, kind, patterns)
        }
        Node::And(first, second) => {
            may_hold(first, kind, patterns) && may_hold(second, kind, patterns)
        }
        Node::Not(_) => true,
        Node::Present(path) => may_be_seen(path.meant, kind, patterns),
        Node::Compare(path, operator, literal) => {
            holds_of_none(*operator, literal) || may_be_seen(path.meant, kind, patterns)
        }
        Node::Values(path, _) => {
            is_asked_of_none(path.meant) || may_be_seen(path.meant, kind, patterns)
        }
    }
}

impl Query {
    /// Whether any resource of the kind can match, as the client sees it.
    /// `patterns` must be those for reading any resource of the kind. If false, no resource matches; if true, it
    /// may still be that none matches. Doesn't allocate.
    pub fn may_match(&self, kind: Kind, patterns: &Patterns<'_>) -> bool
        ensures { result ≡ false → (c : Content) → IsPart c → c.kind ≡ kind
            → spec.NeverMatches self.now.filter (decision_in (rules_in patterns.now)) c }
    {
        match &self.filter {
            Some(filter) => may_hold(filter.tree(), kind, patterns),
            None => true,
        }
    }
}

//! Checks which values a filter may compare with which attributes (RFC 7644 section 3.4.2.2).
ghost use Rattle.std.specs.Prelude.{◌≡◌};
ghost use Rattle.scim_schema.specs.Table as table_spec;
ghost use Rattle.scim_filter_grammar.specs.Tree.{tree_of, view};
ghost use Rattle.scim_filter_grammar.specs.Types as spec;

use crate::bytes::is_keyword;
use crate::tree::{Filter, Literal, Meant, Node, Operator};
use scim_schema::{
    Attribute, AttributeType, Kind, Leaf, SubAttribute, characteristics_of, sub_attributes,
};

/// The type of a leaf, which is the same for both kinds.
fn type_of(leaf: Leaf) -> AttributeType
    ensures { result ≡ spec.type_of leaf }
{
    characteristics_of(Kind::User, leaf).attribute_type
}

/// The leaf that is compared if a filter names `attribute` without a sub-attribute. `None` for a complex
/// attribute without `value`.
fn leaf_for(attribute: Attribute) -> Option<Leaf>
    ensures { result ≡ spec.leaf_for attribute (table_spec.sub_attributes attribute) }
{
    let known = sub_attributes(attribute);
    if known.is_empty() {
        Some(Leaf::simple(attribute))
    } else if known.contains(&SubAttribute::Value) {
        Some(Leaf::of(attribute, SubAttribute::Value))
    } else {
        None
    }
}

impl Meant {
    /// The leaf whose cells a filter compares, or a search sorts by: a simple attribute, a sub-attribute, or
    /// the `value` of a complex attribute that is named alone (RFC 7644 sections 3.4.2.2 and 3.4.2.3).
    ///
    /// `None` if a complex attribute has no `value`, or if the kind doesn't have the name.
    pub fn compared_leaf(self) -> Option<Leaf>
        ensures { result ≡ spec.compared_leaf self }
    {
        match self {
            Meant::Nothing => None,
            Meant::Attribute(attribute) => leaf_for(attribute),
            Meant::SubAttribute(attribute, sub_attribute) => {
                Some(Leaf::of(attribute, sub_attribute))
            }
        }
    }
}

/// The boolean that a text spells, in any ASCII case. `None` if the text is neither `true` nor `false`.
pub fn truth_of(text: &str) -> Option<bool>
    ensures { result ≡ spec.truth_in text.now }
{
    if is_keyword(b"true", text.as_bytes()) {
        Some(true)
    } else if is_keyword(b"false", text.as_bytes()) {
        Some(false)
    } else {
        None
    }
}

/// Whether the operator is `eq` or `ne`.
fn is_equality(operator: Operator) -> bool
    ensures { result ≡ spec.is_equality operator }
{
    matches!(operator, Operator::Eq | Operator::Ne)
}

/// Whether the operator is `co`, `sw` or `ew`.
fn is_part_test(operator: Operator) -> bool
    ensures { result ≡ spec.is_part_test operator }
{
    matches!(operator, Operator::Co | Operator::Sw | Operator::Ew)
}

/// Whether the operator may compare cells of this type with this value.
fn suits(attribute_type: AttributeType, operator: Operator, literal: &Literal) -> bool
    ensures { result ≡ spec.suits attribute_type operator literal.now }
{
    match (attribute_type, literal) {
        (AttributeType::Boolean, Literal::Truth(_)) => is_equality(operator),
        (AttributeType::Boolean, Literal::Text(text)) => {
            is_equality(operator) && truth_of(text.as_str()).is_some()
        }
        (AttributeType::DateTime, Literal::Text(text)) => {
            !is_part_test(operator) && text.moment().is_some()
        }
        (AttributeType::Binary, Literal::Text(_)) => is_equality(operator),
        (AttributeType::String | AttributeType::Reference, Literal::Text(_)) => true,
        _ => false,
    }
}

/// Whether the operator may compare cells of this leaf with this value. False if there is no leaf.
fn suits_leaf(leaf: Option<Leaf>, operator: Operator, literal: &Literal) -> bool
    ensures { result ≡ spec.suits_leaf leaf operator literal.now }
{
    match leaf {
        None => false,
        Some(leaf) => suits(type_of(leaf), operator, literal),
    }
}

/// Whether a comparison suits the type of the named attribute or sub-attribute. null may only be compared by
/// `eq` and `ne`. Any other value may be compared with a name that the kind doesn't have.
fn fits_comparison(meant: Meant, operator: Operator, literal: &Literal) -> bool
    ensures { result ≡ spec.fits_comparison meant operator literal.now }
{
    match (literal, meant) {
        (Literal::Null, _) => is_equality(operator),
        (Literal::Text(_) | Literal::Number(_) | Literal::Truth(_), Meant::Nothing) => true,
        (
            Literal::Text(_) | Literal::Number(_) | Literal::Truth(_),
            Meant::Attribute(_) | Meant::SubAttribute(_, _),
        ) => suits_leaf(meant.compared_leaf(), operator, literal),
    }
}

/// Whether brackets with a filter may follow the name of this attribute or sub-attribute. False for a simple
/// attribute and for a sub-attribute, since they have no sub-attributes. True for an unknown name.
fn may_have_values(meant: Meant) -> bool
    ensures { result ≡ spec.may_have_values meant }
{
    match meant {
        Meant::Nothing => true,
        Meant::Attribute(attribute) => !sub_attributes(attribute).is_empty(),
        Meant::SubAttribute(_, _) => false,
    }
}

/// Whether each comparison in a tree suits the type of its attribute, and no value path is on an attribute
/// without sub-attributes.
pub(crate) fn fits(node: &Node) -> bool
    ensures { result ≡ spec.fits (view node.now) }
{
    match node {
        Node::Or(a, b) | Node::And(a, b) => fits(a) && fits(b),
        Node::Not(inner) => fits(inner),
        Node::Present(_) => true,
        Node::Compare(path, operator, literal) => fits_comparison(path.meant, *operator, literal),
        Node::Values(path, inner) => may_have_values(path.meant) && fits(inner),
    }
}

impl Filter {
    /// Whether each comparison suits the type of its attribute, and no value path is on an attribute without
    /// sub-attributes. True for all filters that `read_filter` returns.
    pub fn has_right_types(&self) -> bool
        ensures { result ≡ spec.fits (tree_of self.now) }
    {
        fits(self.tree())
    }
}

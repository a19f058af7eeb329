//! The value that a filter describes.
ghost use Rattle.std.specs.Prelude.{◌≡◌, IfOk, option_map, length, nat_le};
ghost use Rattle.std.specs.Option.{ForSome};
ghost use Rattle.std.specs.List.{list_any};
ghost use Rattle.scim_schema.specs.Units.{is_same_leaf};
ghost use Rattle.scim_filter_grammar.specs.Tree.{view, tree_of};
ghost use Rattle.scim_patch_values.specs.Described as spec;
ghost use Rattle.scim_patch_values.specs.code.Gathered.{Gathers};

use scim_cell::{Atom, Field, Text};
use scim_filter_grammar::{Filter, Literal, Meant, Node, Operator, StringLiteral, truth_of};
use scim_schema::{
    Attribute, AttributeType, LONGEST_VALUE, Leaf, SubAttribute, sub_attribute_characteristics,
    sub_attributes,
};
use scim_text::{NoMemory, push};
use std::alloc::Global;

/// Returns the text as an atom; `None` if it is longer than [`LONGEST_VALUE`] bytes.
fn text_atom(alloc: Global, text: &StringLiteral) -> Result<Option<Atom>, NoMemory>
    ensures { IfOk result (λ o. o ≡ spec.text_atom text.now) }
{
    if text.as_str().len() > LONGEST_VALUE {
        return Ok(None);
    }
    Ok(Some(Atom::Text(Text::copy_of(alloc, text.as_str())?)))
}

/// Returns the literal as an atom of the type; `None` if it isn't a valid value of that type.
/// A boolean may also be written as a text, such as `"true"`.
fn atom_for(
    alloc: Global,
    attribute_type: AttributeType,
    literal: &Literal,
) -> Result<Option<Atom>, NoMemory>
    ensures { IfOk result (λ o. o ≡ spec.atom_for attribute_type literal.now) }
{
    match (attribute_type, literal) {
        (AttributeType::Boolean, Literal::Truth(truth)) => Ok(Some(Atom::Truth(*truth))),
        (AttributeType::Boolean, Literal::Text(text)) => {
            Ok(truth_of(text.as_str()).map(Atom::Truth))
        }
        (
            AttributeType::String | AttributeType::Reference | AttributeType::Binary,
            Literal::Text(text),
        ) => text_atom(alloc, text),
        _ => Ok(None),
    }
}

/// Returns a field that has the literal as the value of the sub-attribute.
/// `None` if the attribute doesn't have the sub-attribute, or the literal isn't a valid value of the
/// sub-attribute's type.
fn field_for(
    alloc: Global,
    attribute: Attribute,
    sub_attribute: SubAttribute,
    literal: &Literal,
) -> Result<Option<Field>, NoMemory>
    ensures { IfOk result (λ o. o ≡ spec.field_for attribute sub_attribute literal.now) }
{
    if !sub_attributes(attribute).contains(&sub_attribute) {
        return Ok(None);
    }
    let known = sub_attribute_characteristics(attribute, sub_attribute);
    match atom_for(alloc, known.attribute_type, literal)? {
        None => Ok(None),
        Some(atom) => Ok(Some(Field {
            leaf: Leaf::of(attribute, sub_attribute),
            atom,
        })),
    }
}

/// Appends the field that an equality, such as `type eq "work"`, describes. Returns false if the equality
/// isn't on a sub-attribute of the attribute, or the literal isn't a valid value for it.
fn push_equality(
    alloc: Global,
    attribute: Attribute,
    meant: Meant,
    literal: &Literal,
    fields: &mut Vec<Field>,
) -> Result<bool, NoMemory>
    ensures { IfOk result (λ b. Gathers b fields.old.items fields.new.items
        (spec.equality attribute meant literal.now)) }
{
    let Meant::SubAttribute(_, sub_attribute) = meant else {
        return Ok(false);
    };
    match field_for(alloc, attribute, sub_attribute, literal)? {
        None => Ok(false),
        Some(field) => {
            push(fields, field)?;
            Ok(true)
        }
    }
}

/// Appends the fields that a conjunction of equalities describes. Returns false if the filter isn't such a
/// conjunction or one of the equalities describes no field; some fields may then have been appended.
fn push_equalities(
    alloc: Global,
    attribute: Attribute,
    node: &Node,
    fields: &mut Vec<Field>,
) -> Result<bool, NoMemory>
    ensures { IfOk result (λ b. Gathers b fields.old.items fields.new.items
        (spec.equalities attribute (view node.now))) }
{
    match node {
        Node::Compare(path, Operator::Eq, literal) => {
            push_equality(alloc, attribute, path.meant, literal, fields)
        }
        Node::And(a, b) => Ok(
            push_equalities(alloc, attribute, a, fields)?
                && push_equalities(alloc, attribute, b, fields)?,
        ),
        _ => Ok(false),
    }
}

/// Whether any of the fields belongs to the leaf.
fn has_leaf(fields: &[Field], leaf: Leaf) -> bool
    ensures { result ≡ list_any (λ f. is_same_leaf f.leaf leaf) fields.now }
{
    fields.iter().any(|field| field.leaf == leaf)
}

/// Whether no two fields belong to the same leaf.
fn is_each_once(fields: &[Field]) -> bool
    ensures { result ≡ spec.is_each_once fields.now }
{
    match fields {
        [] => true,
        [first, rest @ ..] => !has_leaf(rest, first.leaf) && is_each_once(rest),
    }
}

/// Returns the fields of the value that a value path describes. `None` if the filter in brackets isn't a
/// conjunction of equalities, each with a valid value for a different sub-attribute.
pub(crate) fn described(
    alloc: Global,
    attribute: Attribute,
    filter: &Filter,
) -> Result<Option<Vec<Field>>, NoMemory>
    ensures { IfOk result (λ o. option_map (λ v. v.items) o
        ≡ spec.described attribute (tree_of filter.now)) }
{
    let Node::Values(_, inner) = filter.tree() else {
        return Ok(None);
    };
    let mut fields = Vec::new(alloc);
    if push_equalities(alloc, attribute, inner, &mut fields)? && is_each_once(fields.as_slice()) {
        return Ok(Some(fields));
    }
    Ok(None)
}

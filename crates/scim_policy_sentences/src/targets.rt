//! Prints the targets of rules, in the syntax of policy files.
ghost use Rattle.std.specs.Prelude.{◌≡◌, ◌++◌, codes, IfOk, OnOk, string_bytes, if◌then◌else◌, []};
ghost use Rattle.serde_json.specs.Written.{compact_text};
ghost use Rattle.scim_filter_grammar.specs.Tree.{tree_of, view};
ghost use Rattle.scim_policy_sentences.specs.Targets as spec;

use scim_filter_grammar::{AttributePath, Filter, Literal, Node, Operator};
use scim_text::NoMemory;
use serde_json::{Number, Value};
use std::alloc::Global;

/// The keyword of an operator.
fn operator_word(operator: Operator) -> &'static str
    ensures { result.now ≡ spec.operator_word operator }
{
    match operator {
        Operator::Eq => "eq",
        Operator::Ne => "ne",
        Operator::Co => "co",
        Operator::Sw => "sw",
        Operator::Ew => "ew",
        Operator::Gt => "gt",
        Operator::Ge => "ge",
        Operator::Lt => "lt",
        Operator::Le => "le",
    }
}

/// A literal as JSON text.
fn literal_text(alloc: Global, literal: &Literal) -> Result<String, NoMemory>
    ensures { IfOk result (λ text. string_bytes text
        ≡ compact_text (spec.literal_data literal.now)) }
{
    let value = match literal {
        Literal::Text(text) => Value::String(String::from_str(alloc, text.as_str())?),
        Literal::Number(number) => Value::Number(Number::from(*number)),
        Literal::Truth(truth) => Value::Bool(*truth),
        Literal::Null => Value::Null,
    };
    Ok(value.to_string(alloc)?)
}

/// Appends a path as it was written. On an error `text` may have a part of the path.
fn push_path(path: &AttributePath, text: &mut String) -> Result<(), NoMemory>
    ensures { OnOk result (string_bytes text.new ≡ string_bytes text.old
        ++ spec.path_words path.now) }
{
    if let Some(urn) = &path.urn {
        text.push_str(urn.as_str())?;
        text.push(':')?;
    }
    text.push_str(path.name.as_str())?;
    if let Some(sub_name) = &path.sub_name {
        text.push('.')?;
        text.push_str(sub_name.as_str())?;
    }
    Ok(())
}

/// Appends a comparison, such as `userType eq "Contractor"`. On an error `text` may have a part of the
/// comparison.
fn push_comparison(
    alloc: Global,
    path: &AttributePath,
    operator: Operator,
    literal: &Literal,
    text: &mut String,
) -> Result<(), NoMemory>
    ensures { OnOk result (string_bytes text.new ≡ string_bytes text.old
        ++ (spec.path_words path.now ++ codes " " ++ spec.operator_word operator ++ codes " "
        ++ compact_text (spec.literal_data literal.now))) }
{
    let literal = literal_text(alloc, literal)?;
    push_path(path, text)?;
    text.push_str(" ")?;
    text.push_str(operator_word(operator))?;
    text.push_str(" ")?;
    text.push_str(literal.as_str())?;
    Ok(())
}

/// Whether the node is an `or`.
fn is_or(node: &Node) -> bool
    ensures { result ≡ spec.is_or (view node.now) }
{
    matches!(node, Node::Or(_, _))
}

/// Whether the node is an `or` or an `and`.
fn is_join(node: &Node) -> bool
    ensures { result ≡ spec.is_join (view node.now) }
{
    matches!(node, Node::Or(_, _) | Node::And(_, _))
}

/// Appends `mark` if `needs` is true.
fn push_if(needs: bool, mark: &str, text: &mut String) -> Result<(), NoMemory>
    ensures { OnOk result (string_bytes text.new ≡ string_bytes text.old
        ++ (if needs then mark.now else [])) }
{
    if needs {
        text.push_str(mark)?;
    }
    Ok(())
}

/// Appends a filter, with brackets where the nesting needs them. On an error `text` may have a part of the
/// filter.
fn push_tree(alloc: Global, node: &Node, text: &mut String) -> Result<(), NoMemory>
    ensures { OnOk result (string_bytes text.new ≡ string_bytes text.old
        ++ spec.tree_text (view node.now)) }
{
    match node {
        Node::Or(first, second) => {
            push_if(is_or(first), "(", text)?;
            push_tree(alloc, first, text)?;
            push_if(is_or(first), ")", text)?;
            text.push_str(" or ")?;
            push_tree(alloc, second, text)
        }
        Node::And(first, second) => {
            push_if(is_join(first), "(", text)?;
            push_tree(alloc, first, text)?;
            push_if(is_join(first), ")", text)?;
            text.push_str(" and ")?;
            push_if(is_or(second), "(", text)?;
            push_tree(alloc, second, text)?;
            push_if(is_or(second), ")", text)
        }
        Node::Not(inner) => {
            text.push_str("not (")?;
            push_tree(alloc, inner, text)?;
            push_if(true, ")", text)
        }
        Node::Present(path) => {
            push_path(path, text)?;
            push_if(true, " pr", text)
        }
        Node::Compare(path, operator, literal) => {
            push_comparison(alloc, path, *operator, literal, text)
        }
        Node::Values(path, inner) => {
            push_path(path, text)?;
            text.push_str("[")?;
            push_tree(alloc, inner, text)?;
            push_if(true, "]", text)
        }
    }
}

/// The text of a filter, with brackets where the nesting needs them.
pub(crate) fn filter_text(alloc: Global, filter: &Filter) -> Result<String, NoMemory>
    ensures { IfOk result (λ text. string_bytes text ≡ spec.tree_text (tree_of filter.now)) }
{
    let mut text = String::new(alloc);
    push_tree(alloc, filter.tree(), &mut text)?;
    Ok(text)
}

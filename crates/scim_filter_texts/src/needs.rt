//! The texts that a filter requires at leaves, by which a caller can look up the possible matches.
ghost use Rattle.std.specs.Prelude.{◌≡◌, true, List, IfOk, IfSome};
ghost use Rattle.scim_schema.specs.Characteristics.{is_case_exact as case_exact};
ghost use Rattle.scim_schema.specs.declared.Leaf.{Leaf};
ghost use Rattle.scim_cell.specs.Rows.{Row};
ghost use Rattle.scim_filter_grammar.specs.Tree.{Tree, And, Or, tree_of, view};
ghost use Rattle.scim_filter.specs.Relation.{cased};
ghost use Rattle.scim_filter.specs.Truth.{compares};
ghost use Rattle.scim_filter_texts.specs.Needed as spec;

use scim_filter_grammar::{Filter, Literal, Meant, Node, Operator, StringLiteral};
use scim_schema::{Leaf, is_case_exact};
use scim_text::{NoMemory, push};
use std::alloc::Global;

/// A text that a filter requires at a leaf. Texts compare as with `eq` (RFC 7644 section 3.4.2.2).
#[derive(Clone, Copy)]
pub struct NeededText<'f> {
    pub leaf: Leaf,
    pub text: &'f StringLiteral,
}

/// Returns the text as comparisons at the leaf use it: case-folded unless the leaf is caseExact (RFC 7643
/// section 2.2).
pub fn compared_text(leaf: Leaf, text: &StringLiteral) -> &str
    ensures { result.now ≡ cased (case_exact leaf) text.now }
{
    if is_case_exact(leaf) {
        text.as_str()
    } else {
        text.folded()
    }
}

/// Returns the text that a comparison requires at the leaf. `None` if the comparison isn't `leaf eq "text"`.
fn text_compared(
    meant: Meant,
    operator: Operator,
    literal: &Literal,
    leaf: Leaf,
) -> Option<&StringLiteral>
    ensures { IfSome result (λ text. (rs : List Row) → compares meant operator literal.now rs ≡ true
        → spec.has_text leaf text.now rs ≡ true) }
{
    match literal {
        Literal::Text(text) if operator == Operator::Eq && meant.compared_leaf() == Some(leaf) => {
            Some(text)
        }
        _ => None,
    }
}

/// Returns a text that the leaf must have for the node to match. `None` unless the node is `leaf eq "text"`, in the
/// brackets of a value path or not, or a conjunction with such a term.
fn text_needed(node: &Node, leaf: Leaf) -> Option<&StringLiteral>
    ensures { IfSome result (λ text. spec.NeedsText (view node.now) leaf text.now) }
{
    match node {
        Node::And(first, second) => match text_needed(first, leaf) {
            Some(text) => Some(text),
            None => text_needed(second, leaf),
        },
        Node::Compare(path, operator, literal) => {
            text_compared(path.meant, *operator, literal, leaf)
        }
        Node::Values(_, inner) => text_needed(inner, leaf),
        _ => None,
    }
}

/// Returns a text that every match has at the leaf. `None` unless the filter is `leaf eq "text"`, in the brackets
/// of a value path or not, or a conjunction with such a term.
pub fn needed_text(filter: &Filter, leaf: Leaf) -> Option<&StringLiteral>
    ensures { IfSome result (λ text. spec.NeedsText (tree_of filter.now) leaf text.now) }
{
    text_needed(filter.tree(), leaf)
}

/// Returns the text that a comparison requires at one of the leaves. `None` if the comparison isn't `leaf eq "text"`
/// with one of them.
fn text_at_some<'f>(
    meant: Meant,
    operator: Operator,
    literal: &'f Literal,
    leaves: &[Leaf],
) -> Option<NeededText<'f>>
    ensures needed { IfSome result (λ needed. (rs : List Row)
        → compares meant operator literal.now rs ≡ true
        → spec.has_text needed.leaf needed.text.now rs ≡ true) }
    ensures leaf { IfSome result (λ needed. spec.is_at leaves.now needed ≡ true) }
{
    for leaf in leaves {
        if let Some(text) = text_compared(meant, operator, literal, *leaf) {
            return Some(NeededText { leaf: *leaf, text });
        }
    }
    None
}

/// Returns the list of the text that a comparison requires at one of the leaves. `None` if it requires none there.
fn texts_compared<'f>(
    alloc: Global,
    meant: Meant,
    operator: Operator,
    literal: &'f Literal,
    leaves: &[Leaf],
) -> Result<Option<Vec<NeededText<'f>>>, NoMemory>
    ensures needed { IfOk result (λ o. IfSome o (λ texts. (rs : List Row)
        → compares meant operator literal.now rs ≡ true
        → spec.has_some_text texts.items rs ≡ true)) }
    ensures leaves { IfOk result (λ o. IfSome o (λ texts. spec.AreAt leaves.now texts.items)) }
{
    let Some(needed) = text_at_some(meant, operator, literal, leaves) else {
        return Ok(None);
    };
    let mut texts = Vec::new(alloc);
    push(&mut texts, needed)?;
    Ok(Some(texts))
}

/// Returns texts of which each match of a conjunction has one: the shorter of the lists that its sides require.
fn texts_of_both<'f>(
    first: Option<Vec<NeededText<'f>>>,
    second: Option<Vec<NeededText<'f>>>,
) -> Option<Vec<NeededText<'f>>>
    ensures needed { (a b : Tree) → IfSome first.entry (λ texts. spec.NeedsSome a texts.items)
        → IfSome second.entry (λ texts. spec.NeedsSome b texts.items)
        → IfSome result (λ texts. spec.NeedsSome (And a b) texts.items) }
    ensures leaves { (ls : List Leaf) → IfSome first.entry (λ texts. spec.AreAt ls texts.items)
        → IfSome second.entry (λ texts. spec.AreAt ls texts.items)
        → IfSome result (λ texts. spec.AreAt ls texts.items) }
{
    match (first, second) {
        (Some(first), Some(second)) => {
            if second.len() < first.len() {
                Some(second)
            } else {
                Some(first)
            }
        }
        (Some(first), None) => Some(first),
        (None, second) => second,
    }
}

/// Returns texts of which each match of a disjunction has one: those that its first side requires, and those that
/// its second side requires. `None` if the second side requires none.
fn texts_of_either<'f>(
    first: Vec<NeededText<'f>>,
    second: Option<Vec<NeededText<'f>>>,
) -> Result<Option<Vec<NeededText<'f>>>, NoMemory>
    ensures needed { IfOk result (λ o. (a b : Tree) → spec.NeedsSome a first.entry.items
        → IfSome second.entry (λ texts. spec.NeedsSome b texts.items)
        → IfSome o (λ texts. spec.NeedsSome (Or a b) texts.items)) }
    ensures leaves { IfOk result (λ o. (ls : List Leaf) → spec.AreAt ls first.entry.items
        → IfSome second.entry (λ texts. spec.AreAt ls texts.items)
        → IfSome o (λ texts. spec.AreAt ls texts.items)) }
{
    let Some(mut others) = second else {
        return Ok(None);
    };
    let mut texts = first;
    texts.append(&mut others)?;
    Ok(Some(texts))
}

/// Returns texts at these leaves of which the node requires one. `None` unless the node is `leaf eq "text"` with one
/// of the leaves, in the brackets of a value path or not, a conjunction with such a term, or a disjunction of such
/// terms.
fn texts_needed<'f>(
    alloc: Global,
    node: &'f Node,
    leaves: &[Leaf],
) -> Result<Option<Vec<NeededText<'f>>>, NoMemory>
    ensures needed { IfOk result (λ o. IfSome o (λ texts.
        spec.NeedsSome (view node.now) texts.items)) }
    ensures leaves { IfOk result (λ o. IfSome o (λ texts. spec.AreAt leaves.now texts.items)) }
{
    match node {
        Node::Or(first, second) => match texts_needed(alloc, first, leaves)? {
            Some(texts) => texts_of_either(texts, texts_needed(alloc, second, leaves)?),
            None => Ok(None),
        },
        Node::And(first, second) => {
            let texts = texts_needed(alloc, first, leaves)?;
            Ok(texts_of_both(texts, texts_needed(alloc, second, leaves)?))
        }
        Node::Compare(path, operator, literal) => {
            texts_compared(alloc, path.meant, *operator, literal, leaves)
        }
        Node::Values(_, inner) => texts_needed(alloc, inner, leaves),
        _ => Ok(None),
    }
}

/// Returns texts at these leaves of which every match has at least one. `None` unless the filter is
/// `leaf eq "text"` with one of the leaves, in the brackets of a value path or not, a conjunction with such a term,
/// or a disjunction of such terms.
pub fn needed_texts<'f>(
    alloc: Global,
    filter: &'f Filter,
    leaves: &[Leaf],
) -> Result<Option<Vec<NeededText<'f>>>, NoMemory>
    ensures needed { IfOk result (λ o. IfSome o (λ texts.
        spec.NeedsSome (tree_of filter.now) texts.items)) }
    ensures leaves { IfOk result (λ o. IfSome o (λ texts. spec.AreAt leaves.now texts.items)) }
{
    texts_needed(alloc, filter.tree(), leaves)
}

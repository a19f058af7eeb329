//! Reads filters by recursive descent, with a function for each rule of the grammar (RFC 7644 section
//! 3.4.2.2).
//!
//! Each function takes the remaining bytes, and returns a tree with the bytes after it. `depth` limits how
//! many more brackets may be opened.
ghost use Rattle.std.specs.Prelude.{◌≡◌, ◌⊎◌, Some, None, Ok, ℕ, IsErrOf, MatchResult, ◌<◌, ◌≤◌, true, false, length, IfOk};
ghost use Rattle.scim_text.specs.Failures.{IfFault};
ghost use Rattle.scim_text.specs.declared.memory.Failed.{Failed};
ghost use Rattle.scim_filter_grammar.specs.declared.faults.FilterFault.{FilterFault};
ghost use Rattle.scim_filter_grammar.specs.Brackets.{IsDeeper};
ghost use Rattle.scim_filter_grammar.specs.Grammar.{IsFilter};
ghost use Rattle.scim_filter_grammar.specs.Spelled.{filter_in};
ghost use Rattle.scim_filter_grammar.specs.Tree.{Tree, And, Or, view, tree_of};
ghost use Rattle.scim_filter_grammar.specs.Types.{fits};
ghost use Rattle.scim_filter_grammar.specs.Reading.{Gives, operator_of, relation_at, enclosed_at, listed_at, behind_path_at, worded_at, term_at, conjunction_at, disjunction_at, filter_at, all_of};

use crate::attribute_paths::path;
use crate::bytes::{is_keyword, skip_gap, skip_join, skip_spaces, split_word};
use crate::faults::{FilterFault, ReadError};
use crate::literals::literal;
use crate::tree::{AttributePath, Filter, Node, Operator, Scope};
use crate::types::fits;
use scim_schema::{Kind, LONGEST_FILTER};
use scim_text::Failed;
use std::alloc::Global;

/// Reads a word as a comparison operator.
///
/// Fails with `Syntax(left)` if it isn't one; `left` is the number of unread bytes.
#[tactic(auto, unfolding(crate::specs::Reading::operator_of))]
fn operator(word: &[u8], left: usize) -> Result<Operator, Failed<ReadError>>
    ensures { Gives (λ x. x) result (operator_of word.now) }
{
    if is_keyword(b"eq", word) {
        Ok(Operator::Eq)
    } else if is_keyword(b"ne", word) {
        Ok(Operator::Ne)
    } else if is_keyword(b"co", word) {
        Ok(Operator::Co)
    } else if is_keyword(b"sw", word) {
        Ok(Operator::Sw)
    } else if is_keyword(b"ew", word) {
        Ok(Operator::Ew)
    } else if is_keyword(b"gt", word) {
        Ok(Operator::Gt)
    } else if is_keyword(b"ge", word) {
        Ok(Operator::Ge)
    } else if is_keyword(b"lt", word) {
        Ok(Operator::Lt)
    } else if is_keyword(b"le", word) {
        Ok(Operator::Le)
    } else {
        Err(Failed::Because(ReadError::Syntax(left)))
    }
}

/// Reads what follows a path and a space: `pr`, or an operator and a literal.
#[tactic(auto, unfolding(crate::specs::Reading::relation_at))]
fn relation(
    alloc: Global,
    path: AttributePath,
    bytes: &[u8],
) -> Result<(Node, &[u8]), Failed<ReadError>>
    ensures gives { Gives (λ x. (view x.0, x.1.now)) result (relation_at path bytes.now) }
    ensures shorter { IfOk result (λ x. length x.1.now ≤ length bytes.now) }
{
    let (word, rest) = split_word(bytes);
    if is_keyword(b"pr", word) {
        return Ok((Node::Present(path), rest));
    }
    let op = operator(word, bytes.len())?;
    let Some(rest) = skip_gap(rest) else {
        return Err(Failed::Because(ReadError::Syntax(bytes.len())));
    };
    let (literal, rest) = literal(alloc, rest)?;
    Ok((Node::Compare(path, op, literal), rest))
}

/// Reads a filter after an opening bracket, up to and including the closing bracket `close`.
#[cycle(filter)]
#[tactic(auto, unfolding(crate::specs::Reading::enclosed_at))]
fn enclosed(
    alloc: Global,
    depth: u32,
    scope: Scope,
    close: u8,
    bytes: &[u8],
) -> Result<(Node, &[u8]), Failed<ReadError>>
    ensures gives { Gives (λ x. (view x.0, x.1.now)) result
        (enclosed_at close (filter_at depth scope) bytes.now) }
    ensures shorter { IfOk result (λ x. length x.1.now < length bytes.now) }
{
    let (node, rest) = filter(alloc, depth, scope, skip_spaces(bytes))?;
    match skip_spaces(rest) {
        [b, rest @ ..] if *b == close => Ok((node, rest)),
        _ => Err(Failed::Because(ReadError::Syntax(bytes.len()))),
    }
}

/// Reads the filter in the brackets of a value path, after the opening bracket.
///
/// Fails with `Syntax` within another value path, since brackets of value paths don't nest.
#[cycle(filter)]
#[tactic(auto, unfolding(crate::specs::Reading::listed_at))]
pub(crate) fn listed(
    alloc: Global,
    depth: u32,
    scope: Scope,
    path: AttributePath,
    bytes: &[u8],
) -> Result<(Node, &[u8]), Failed<ReadError>>
    ensures gives { Gives (λ x. (view x.0, x.1.now)) result
        (listed_at (filter_at depth) scope path bytes.now) }
    ensures shorter { IfOk result (λ x. length x.1.now < length bytes.now) }
{
    match scope {
        Scope::SubAttributes(_) => Err(Failed::Because(ReadError::Syntax(bytes.len()))),
        Scope::Attributes(_) => {
            let inner = Scope::SubAttributes(path.meant.attribute());
            let (node, rest) = enclosed(alloc, depth, inner, b']', bytes)?;
            Ok((Node::Values(path, Box::new(alloc, node)?), rest))
        }
    }
}

/// Reads what follows a path: a filter in brackets, or a space and a test.
#[cycle(filter)]
#[tactic(auto, unfolding(crate::specs::Reading::behind_path_at))]
fn behind_path(
    alloc: Global,
    depth: u32,
    scope: Scope,
    path: AttributePath,
    bytes: &[u8],
) -> Result<(Node, &[u8]), Failed<ReadError>>
    ensures gives { Gives (λ x. (view x.0, x.1.now)) result
        (behind_path_at (filter_at depth) scope path bytes.now) }
    ensures shorter { IfOk result (λ x. length x.1.now < length bytes.now) }
{
    if let [b'[', rest @ ..] = bytes {
        return listed(alloc, depth, scope, path, rest);
    }
    let Some(rest) = skip_gap(bytes) else {
        return Err(Failed::Because(ReadError::Syntax(bytes.len())));
    };
    relation(alloc, path, rest)
}

/// Reads a term that begins with a word: `not (..)`, or a path and its test.
#[cycle(filter)]
#[tactic(auto, unfolding(crate::specs::Reading::worded_at))]
fn worded(
    alloc: Global,
    depth: u32,
    scope: Scope,
    bytes: &[u8],
) -> Result<(Node, &[u8]), Failed<ReadError>>
    ensures gives { Gives (λ x. (view x.0, x.1.now)) result
        (worded_at (filter_at depth) scope bytes.now) }
    ensures shorter { IfOk result (λ x. length x.1.now < length bytes.now) }
{
    let (word, behind) = split_word(bytes);
    if is_keyword(b"not", word) {
        if let [b'(', rest @ ..] = skip_spaces(behind) {
            let (node, rest) = enclosed(alloc, depth, scope, b')', rest)?;
            return Ok((Node::Not(Box::new(alloc, node)?), rest));
        }
    }
    let path = path(alloc, scope, word, bytes.len())?;
    behind_path(alloc, depth, scope, path, behind)
}

/// Reads a term: a filter in brackets, or one that begins with a word.
#[cycle(filter)]
#[tactic(auto, unfolding(crate::specs::Reading::term_at))]
fn term(
    alloc: Global,
    depth: u32,
    scope: Scope,
    bytes: &[u8],
) -> Result<(Node, &[u8]), Failed<ReadError>>
    ensures gives { Gives (λ x. (view x.0, x.1.now)) result
        (term_at (filter_at depth) scope bytes.now) }
    ensures shorter { IfOk result (λ x. length x.1.now < length bytes.now) }
{
    match bytes {
        [b'(', rest @ ..] => enclosed(alloc, depth, scope, b')', rest),
        _ => worded(alloc, depth, scope, bytes),
    }
}

/// Joins two trees by `and`.
fn both(alloc: Global, first: Node, second: Node) -> Result<Node, Failed<ReadError>>
    ensures { Gives view result (Ok (And (view first) (view second))) }
{
    let first = Box::new(alloc, first)?;
    Ok(Node::And(first, Box::new(alloc, second)?))
}

/// Joins two trees by `or`.
fn either(alloc: Global, first: Node, second: Node) -> Result<Node, Failed<ReadError>>
    ensures { Gives view result (Ok (Or (view first) (view second))) }
{
    let first = Box::new(alloc, first)?;
    Ok(Node::Or(first, Box::new(alloc, second)?))
}

/// Reads terms joined by `and`.
#[cycle(filter)]
fn conjunction(
    alloc: Global,
    depth: u32,
    scope: Scope,
    bytes: &[u8],
) -> Result<(Node, &[u8]), Failed<ReadError>>
    ensures gives { Gives (λ x. (view x.0, x.1.now)) result
        (conjunction_at (filter_at depth) scope bytes.now) }
    ensures shorter { IfOk result (λ x. length x.1.now < length bytes.now) }
{
    let (first, rest) = term(alloc, depth, scope, bytes)?;
    match skip_join(b"and", rest) {
        None => Ok((first, rest)),
        Some(rest) => {
            let (second, rest) = conjunction(alloc, depth, scope, rest)?;
            Ok((both(alloc, first, second)?, rest))
        }
    }
}

/// Reads conjunctions joined by `or`.
#[cycle(filter)]
fn disjunction(
    alloc: Global,
    depth: u32,
    scope: Scope,
    bytes: &[u8],
) -> Result<(Node, &[u8]), Failed<ReadError>>
    ensures gives { Gives (λ x. (view x.0, x.1.now)) result
        (disjunction_at (filter_at depth) scope bytes.now) }
    ensures shorter { IfOk result (λ x. length x.1.now < length bytes.now) }
{
    let (first, rest) = conjunction(alloc, depth, scope, bytes)?;
    match skip_join(b"or", rest) {
        None => Ok((first, rest)),
        Some(rest) => {
            let (second, rest) = disjunction(alloc, depth, scope, rest)?;
            Ok((either(alloc, first, second)?, rest))
        }
    }
}

/// Reads a filter in which fewer than `depth` brackets are open at any place.
///
/// Fails with `TooDeep` if the reading reaches a place where `depth` or more are open.
#[cycle(filter)]
fn filter(
    alloc: Global,
    depth: u32,
    scope: Scope,
    bytes: &[u8],
) -> Result<(Node, &[u8]), Failed<ReadError>>
    ensures gives { Gives (λ x. (view x.0, x.1.now)) result (filter_at depth scope bytes.now) }
    ensures shorter { IfOk result (λ x. length x.1.now < length bytes.now) }
{
    if depth == 0 {
        return Err(Failed::Because(ReadError::TooDeep));
    }
    disjunction(alloc, depth - 1, scope, bytes)
}

/// Reads a whole filter, with only spaces around it.
#[tactic(auto, unfolding(crate::specs::Reading::all_of))]
fn all(alloc: Global, scope: Scope, bytes: &[u8]) -> Result<Node, Failed<ReadError>>
    ensures { Gives view result (all_of scope bytes.now) }
{
    let (node, rest) = filter(alloc, 33, scope, skip_spaces(bytes))?;
    if !skip_spaces(rest).is_empty() {
        return Err(Failed::Because(ReadError::Syntax(rest.len())));
    }
    Ok(node)
}

/// Reads a text as a filter on resources of `kind`, with at most 4,096 bytes and 32 open brackets (RFC 7644
/// section 3.4.2.2).
///
/// Fails with `Syntax` if the text isn't a filter, unless more than 32 open brackets are reached first; the
/// number in the error hints at where reading stopped and is at most the length of the text. Fails with
/// `WrongType` if a comparison doesn't suit the type of its attribute, or a value path is on an attribute
/// without sub-attributes. Fails with `TooDeep` above 32 open brackets, and with `TooLong` above 4,096 bytes.
#[tactic(auto, using(crate::proofs::NestingLemmas::all_deep))]
pub fn read_filter(alloc: Global, kind: Kind, text: &str) -> Result<Filter, Failed<FilterFault>>
    // The text spells the returned tree, and each comparison in the tree suits the type of its attribute.
    ensures found { IfOk result (λ f. (length text.now ≤ LONGEST_FILTER)
        × IsFilter kind 32 text.now (tree_of f) × (fits (tree_of f) ≡ true)) }
    // If the text spells a tree within the limits and with the right types, the result is that tree or
    // `NoMemory`.
    ensures only { (tree : Tree) → length text.now ≤ LONGEST_FILTER → IsFilter kind 32 text.now tree
        → fits tree ≡ true
        → MatchResult result (λ f. tree_of f ≡ tree) (λ e. e ≡ Failed.NoMemory) }
    // A fault is returned only if its condition is true.
    ensures syntax { IfFault result (λ e. (at : ℕ) → e ≡ FilterFault.Syntax at
        → (at ≤ length text.now) × ((n : ℕ) (tree : Tree) → ¬ (IsFilter kind n text.now tree))) }
    ensures wrong_type { IsErrOf result (Failed.Because FilterFault.WrongType) → (tree : Tree)
        × IsFilter kind 32 text.now tree × (fits tree ≡ false) }
    ensures too_deep { IsErrOf result (Failed.Because FilterFault.TooDeep) → (tree : Tree)
        → ¬ (IsFilter kind 32 text.now tree) }
    ensures nested { IsErrOf result (Failed.Because FilterFault.TooDeep) → IsDeeper 32 text.now }
    ensures too_long { IsErrOf result (Failed.Because FilterFault.TooLong)
        → LONGEST_FILTER < length text.now }
    // `filter_in` returns the filter that a text spells.
    ensures same { MatchResult result (λ f. filter_in kind text.now ≡ Some (tree_of f))
        (λ e. (e ≡ Failed.NoMemory) ⊎ (filter_in kind text.now ≡ None)) }
{
    let bytes = text.as_bytes();
    if bytes.len() > LONGEST_FILTER {
        return Err(Failed::Because(FilterFault::TooLong));
    }
    match all(alloc, Scope::Attributes(kind), bytes) {
        Ok(node) => {
            if fits(&node) {
                Ok(Filter::of(node))
            } else {
                Err(Failed::Because(FilterFault::WrongType))
            }
        }
        Err(Failed::NoMemory) => Err(Failed::NoMemory),
        Err(Failed::Because(ReadError::Syntax(left))) => {
            let at = bytes.len().saturating_sub(left);
            Err(Failed::Because(FilterFault::Syntax(at)))
        }
        Err(Failed::Because(ReadError::TooDeep)) => Err(Failed::Because(FilterFault::TooDeep)),
    }
}

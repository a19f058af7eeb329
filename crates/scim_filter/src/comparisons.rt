//! Compares a cell with a literal by an operator (RFC 7644 section 3.4.2.2, table 3).
ghost use Rattle.std.specs.Prelude.{◌≡◌, IfOk};
ghost use Rattle.scim_filter.specs.Relation as spec;

use scim_cell::{Atom, Text};
use scim_filter_grammar::{Literal, Operator, StringLiteral, truth_of};
use scim_text::{Moment, NoMemory, Reading, fold};
use std::alloc::Global;
use std::cmp::Ordering;

/// Whether `part` occurs in `text`.
fn contains(text: &str, part: &str) -> bool
    ensures { result ≡ spec.contains_text text.now part.now }
{
    text.contains(part)
}

/// Whether two values that compare as `order` satisfy the operator. False for `co`, `sw` and `ew`.
fn is_ordered(op: Operator, order: Ordering) -> bool
    ensures { result ≡ spec.is_ordered op order }
{
    match op {
        Operator::Eq => order.is_eq(),
        Operator::Ne => order.is_ne(),
        Operator::Gt => order.is_gt(),
        Operator::Ge => order.is_ge(),
        Operator::Lt => order.is_lt(),
        Operator::Le => order.is_le(),
        Operator::Co | Operator::Sw | Operator::Ew => false,
    }
}

/// Whether two texts satisfy the operator, compared by their bytes.
fn texts_stand(op: Operator, a: &str, b: &str) -> bool
    ensures { result ≡ spec.text_stands op a.now b.now }
{
    match op {
        Operator::Co => contains(a, b),
        Operator::Sw => a.as_bytes().starts_with(b.as_bytes()),
        Operator::Ew => a.as_bytes().ends_with(b.as_bytes()),
        _ => is_ordered(op, a.cmp(b)),
    }
}

/// Whether a cell's text satisfies the operator with a literal. The texts are compared as they are if
/// `exact`, else case-folded.
fn text_stands(
    alloc: Global,
    exact: bool,
    op: Operator,
    text: &Text,
    literal: &StringLiteral,
) -> Result<bool, NoMemory>
    ensures { IfOk result (λ b. b
        ≡ spec.text_stands op (spec.cased exact text.now) (spec.cased exact literal.now)) }
{
    if exact {
        return Ok(texts_stand(op, text.as_str(), literal.as_str()));
    }
    let folded = fold(alloc, text.as_str())?;
    Ok(texts_stand(op, folded.as_str(), literal.folded()))
}

/// Whether two booleans satisfy the operator. False if the second is `None`, or for operators other than `eq`
/// and `ne`.
fn truths_stand(op: Operator, a: bool, b: Option<bool>) -> bool
    ensures { result ≡ spec.truth_stands op a b }
{
    match (op, b) {
        (Operator::Eq, Some(b)) => a == b,
        (Operator::Ne, Some(b)) => a != b,
        _ => false,
    }
}

/// Compares a moment, in whole seconds, with the date and time in a literal. A literal in the same second is
/// later if it has a fraction of a second.
fn compare_moments(moment: Moment, reading: Reading) -> Ordering
    ensures { result ≡ spec.moment_cmp moment reading }
{
    (moment.seconds() as i64)
        .cmp(&reading.second)
        .then(false.cmp(&reading.later))
}

/// Whether a moment satisfies the operator with the date and time in a literal. False if the literal has
/// none.
fn moments_stand(op: Operator, moment: Moment, reading: Option<Reading>) -> bool
    ensures { result ≡ spec.moment_stands op moment reading }
{
    match reading {
        Some(reading) => is_ordered(op, compare_moments(moment, reading)),
        None => false,
    }
}

/// Whether a cell's atom satisfies the operator with a literal.
///
/// Texts are compared as they are if `exact`, else in full case folding. False if the literal doesn't suit
/// the atom's type.
pub(crate) fn atom_stands(
    alloc: Global,
    exact: bool,
    op: Operator,
    atom: &Atom,
    literal: &Literal,
) -> Result<bool, NoMemory>
    ensures { IfOk result (λ b. b ≡ spec.stands exact op atom.now literal.now) }
{
    match (atom, literal) {
        (Atom::Text(a), Literal::Text(b)) => text_stands(alloc, exact, op, a, b),
        (Atom::Truth(a), Literal::Truth(b)) => Ok(truths_stand(op, *a, Some(*b))),
        (Atom::Truth(a), Literal::Text(b)) => Ok(truths_stand(op, *a, truth_of(b.as_str()))),
        (Atom::Moment(a), Literal::Text(b)) => Ok(moments_stand(op, *a, b.moment())),
        _ => Ok(false),
    }
}

//! The work of a patch, counted before any of its steps is applied.
ghost use Rattle.std.specs.Prelude.{◌≡◌, ◌*◌, ℕ, map};
ghost use Rattle.std.specs.List.{sum_by};
ghost use Rattle.scim_cell.specs.Rows.{rows};
ghost use Rattle.scim_filter_grammar.specs.Tree.{tree_of, view};
ghost use Rattle.scim_patch_steps.specs.Changes.{change_of};
ghost use Rattle.scim_patch_steps.specs.Kept.{patch_of, step_of};
ghost use Rattle.scim_patch_steps.specs.Patch as patches;
ghost use Rattle.scim_patch_steps.specs.Work as spec;
ghost use Rattle.scim_patch_steps.specs.code.Capped.{capped};

use crate::changes::StepChange;
use crate::patches::{Patch, Step};
use scim_cell::{Atom, Field, Row};
use scim_filter_grammar::{Filter, Literal, Node};
use scim_schema::{Kind, Mutability, Unit, mutability_of};
use scim_value::Part;

/// The largest work of a patch: how often its steps look at a value of ordinary size. A look takes some 80
/// nanoseconds, so a patch takes at most about two seconds.
pub const MOST_WORK: usize = 25_000_000;

/// The number of bytes of a text that count as one more value. A filter reads them in about the time that it
/// takes for a short value.
const BLOCK: usize = 64;

/// The largest number of given values with which each value of a list is compared. For more of them the
/// values are looked up by key, which takes about as long as this number of comparisons.
const FEW: usize = 8;

/// The looks that it takes to set a field in a value.
const SET: usize = 3;

/// The looks that a step counts for all that it does beside looking at its unit's values, with room to spare.
const STEP: usize = 2_500;

/// The number of whole blocks in an atom. 0 unless it is a text.
fn atom_blocks(atom: &Atom) -> usize
    ensures { result ≡ spec.atom_blocks atom.now }
{
    match atom {
        Atom::Text(text) => text.as_str().len() / BLOCK,
        _ => 0,
    }
}

/// The number of blocks in the texts of the fields.
fn blocks(fields: &[Field]) -> usize
    ensures { result ≡ capped (spec.blocks fields.now) }
{
    let mut count: usize = 0;
    for field in fields {
        count = count.saturating_add(atom_blocks(&field.atom));
    }
    count
}

/// The size of a value: 1 and the number of blocks in its texts.
fn size(value: &Row) -> usize
    ensures { result ≡ capped (spec.size value.now) }
{
    blocks(value.fields()).saturating_add(1)
}

/// The sum of the sizes of the values.
fn size_of(values: &[Row]) -> usize
    ensures { result ≡ capped (spec.size_of values.now) }
{
    let mut sum: usize = 0;
    for value in values {
        sum = sum.saturating_add(size(value));
    }
    sum
}

/// The number of whole blocks in a literal. 0 unless it is a string.
fn literal_blocks(literal: &Literal) -> usize
    ensures { result ≡ spec.literal_blocks literal.now }
{
    match literal {
        Literal::Text(text) => text.as_str().len() / BLOCK,
        _ => 0,
    }
}

/// How often a filter looks at a value: once for each `not`, `pr` and comparison, and once for each block of a
/// literal.
fn tests(node: &Node) -> usize
    ensures { result ≡ capped (spec.tests (view node.now)) }
{
    match node {
        Node::Or(a, b) | Node::And(a, b) => tests(a).saturating_add(tests(b)),
        Node::Not(a) => tests(a).saturating_add(1),
        Node::Present(_) => 1,
        Node::Compare(_, _, literal) => literal_blocks(literal).saturating_add(1),
        Node::Values(_, inner) => tests(inner),
    }
}

/// How often a filter looks at a value if it is tested twice.
fn tests_twice(filter: &Filter) -> usize
    ensures { result ≡ capped (2 * spec.tests (tree_of filter.now)) }
{
    let tests = tests(filter.tree());
    tests.saturating_add(tests)
}

/// How often a change looks at each value of its unit.
fn looks(change: &StepChange) -> usize
    ensures { result ≡ capped (spec.looks (change_of change.now)) }
{
    match change {
        StepChange::Append(given) => given.len().min(FEW).saturating_add(1),
        StepChange::KeepMatches(filter)
        | StepChange::RemoveMatches(filter)
        | StepChange::ClearAtMatches(filter, _) => tests(filter.tree()).saturating_add(1),
        StepChange::RemoveListed(_) => 2,
        StepChange::AddToMatches(filter, fields) => {
            let set = fields.len().saturating_mul(SET);
            tests_twice(filter).saturating_add(set).saturating_add(1)
        }
        StepChange::ReplaceMatches(filter, _) => tests_twice(filter).saturating_add(1 + FEW),
        StepChange::AddAtMatches(filter, _) | StepChange::SetAtMatches(filter, _) => {
            tests_twice(filter).saturating_add(1 + SET)
        }
        StepChange::SetEverywhere(_) => 1 + SET,
        _ => 1,
    }
}

/// The size of the values that a change may add to its unit, without the fields that it sets.
fn given(change: &StepChange) -> usize
    ensures { result ≡ capped (spec.given (change_of change.now)) }
{
    match change {
        StepChange::Append(values) | StepChange::Replace(values) => size_of(values.as_slice()),
        StepChange::AddToMatches(filter, _) | StepChange::AddAtMatches(filter, _) => {
            tests(filter.tree()).saturating_add(1)
        }
        StepChange::SetEverywhere(_) => 1,
        _ => 0,
    }
}

/// The number of blocks in the texts that a change sets in values of its unit.
fn set_blocks(change: &StepChange) -> usize
    ensures { result ≡ capped (spec.set_blocks (change_of change.now)) }
{
    match change {
        StepChange::AddToMatches(_, fields) | StepChange::ReplaceMatches(_, fields) => {
            blocks(fields.as_slice())
        }
        StepChange::AddAtMatches(_, field)
        | StepChange::SetAtMatches(_, field)
        | StepChange::SetEverywhere(field) => atom_blocks(&field.atom),
        _ => 0,
    }
}

/// The size of the values that the steps may add, without the fields that they set.
fn all_given(steps: &[Step]) -> usize
    ensures { result ≡ capped (sum_by patches.given_in (map step_of steps.now)) }
{
    let mut sum: usize = 0;
    for step in steps {
        if let Step::Of(_, change) = step {
            sum = sum.saturating_add(given(change));
        }
    }
    sum
}

/// The number of blocks in the texts that the steps set in values.
fn all_set(steps: &[Step]) -> usize
    ensures { result ≡ capped (sum_by patches.set_in (map step_of steps.now)) }
{
    let mut sum: usize = 0;
    for step in steps {
        if let Step::Of(_, change) = step {
            sum = sum.saturating_add(set_blocks(change));
        }
    }
    sum
}

/// The size that these values of a unit may have during a patch that gives values of size `given` and sets
/// texts of `set` blocks.
fn size_during(given: usize, set: usize, values: &[Row]) -> usize
    ensures { (g s : ℕ) → given ≡ capped g → set ≡ capped s
        → result ≡ capped (patches.size_during g s values.now) }
{
    let grown = values.len().saturating_add(given).saturating_mul(set);
    size_of(values).saturating_add(given).saturating_add(grown)
}

/// The values of a unit that count for the work of a patch. Those of a writeOnly unit don't, since a patch that is
/// refused for its work would tell how long they are.
#[tactic(auto, unfolding(crate::specs::Patch::counted))]
fn counted(kind: Kind, part: &Part, unit: Unit) -> &[Row]
    ensures { result.now ≡ patches.counted kind (rows part.now) unit }
{
    if mutability_of(kind, unit) == Mutability::WriteOnly {
        return &[];
    }
    part.values(unit)
}

/// The work of a step in such a patch of `part`: its looks at the values of its unit, and a fixed number for
/// all else that it does.
fn step_work(kind: Kind, given: usize, set: usize, part: &Part, step: &Step) -> usize
    ensures { (g s : ℕ) → given ≡ capped g → set ≡ capped s
        → result ≡ capped (patches.step_work kind g s (rows part.now) (step_of step.now)) }
{
    match step {
        Step::Pathless => 0,
        Step::Of(unit, change) => {
            let size = size_during(given, set, counted(kind, part, *unit));
            looks(change).saturating_mul(size).saturating_add(STEP)
        }
    }
}

/// Whether the work of the patch on `part` is at most [`MOST_WORK`].
///
/// Stops to count where it is more, so it takes little time beside that work.
pub(crate) fn is_within_limit(patch: &Patch, part: &Part) -> bool
    ensures { result ≡ patches.is_within_limit (patch_of patch.now) (rows part.now) }
{
    let kind = patch.kind();
    let steps = patch.steps();
    let given = all_given(steps);
    let set = all_set(steps);
    let mut work: usize = 0;
    for step in steps {
        work = work.saturating_add(step_work(kind, given, set, part, step));
        if work > MOST_WORK {
            return false;
        }
    }
    true
}

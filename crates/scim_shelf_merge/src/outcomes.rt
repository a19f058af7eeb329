//! What merging makes of one resource.
ghost use Rattle.std.specs.Prelude.{◌≡◌, ℕ, List, None, IfOk, is_some, find};
ghost use Rattle.scim_cell.specs.Content.{Content};
ghost use Rattle.scim_json.specs.Stored.{IsResourceBelow};
ghost use Rattle.scim_shelf.specs.Shelves.{Counts, KeepsRound, OnlyReads};
ghost use Rattle.scim_shelf.specs.Stores.{Store, IsStore, is_at, is_taken, is_used, without};
ghost use Rattle.scim_shelf_merge.specs.Merging as spec;
ghost use Rattle.scim_shelf_merge.specs.Reads.{IsReadKeyed};

use crate::faults::Clash;
use crate::taken_names::has_taken_name;
use scim_audit::{AuditRow, Decided};
use scim_cell::{Id, Text};
use scim_schema::{Kind, Op};
use scim_shelf::{Change, Shelf, ShelfFault};
use scim_text::{Failed, Moment, NoMemory};
use scim_value::Resource;
use std::alloc::Global;

/// What merging makes of one resource.
#[derive(Clone, Copy, Debug, PartialEq, Eq)]
pub(crate) enum Outcome {
    /// No resource had its id: it is stored.
    Created,
    /// It takes the place of the resource of its kind and id.
    Replaced,
    /// It was stored as it is.
    Unchanged,
    /// It can't be merged.
    Clashes(Clash),
}

impl Outcome {
    /// The operation of the audit row; `None` if nothing is changed.
    fn op(self) -> Option<Op>
        ensures { result ≡ spec.op_of self }
    {
        match self {
            Outcome::Created => Some(Op::Create),
            Outcome::Replaced => Some(Op::Modify),
            Outcome::Unchanged | Outcome::Clashes(_) => None,
        }
    }
}

/// Returns the audit row of a change that a merge makes: it is allowed, and no rule decided it.
fn row_of(
    alloc: Global,
    now: Moment,
    client: &str,
    op: Op,
    resource: &Resource,
) -> Result<AuditRow, NoMemory>
    ensures { IfOk result (λ row. row ≡ spec.merge_row now client.now op resource.now) }
{
    Ok(AuditRow {
        moment: now,
        client: Text::copy_of(alloc, client)?,
        op,
        kind: resource.kind(),
        id: Some(resource.id()),
        decided: Decided::Allow,
        rule: None,
        leaf: None,
        refusal: None,
    })
}

/// Returns `outcome`, or the clash if another resource has one of the unique names of `resource`.
fn unless_taken<H: Shelf>(
    alloc: Global,
    shelf: &mut H,
    resource: &Resource,
    outcome: Outcome,
) -> Result<Outcome, Failed<ShelfFault>>
    ensures answer { IsReadKeyed H.stands H.is_honest shelf.old shelf.new result (λ cs found. found
        ≡ spec.unless_taken cs resource.now outcome) }
    ensures read { OnlyReads H.stands H.is_honest H.failures H.has_round shelf.old shelf.new result }
{
    if has_taken_name(alloc, shelf, resource)? {
        Ok(Outcome::Clashes(Clash::TakenName))
    } else {
        Ok(outcome)
    }
}

/// Whether a user or a group has the id.
fn is_used_id<H: Shelf>(alloc: Global, shelf: &mut H, id: Id) -> Result<bool, Failed<ShelfFault>>
    ensures answer { IsReadKeyed H.stands H.is_honest shelf.old shelf.new result (λ cs b. b
        ≡ is_used cs id) }
    ensures read { OnlyReads H.stands H.is_honest H.failures H.has_round shelf.old shelf.new result }
{
    let user = shelf.by_id(alloc, Kind::User, id)?;
    if user.is_some() {
        return Ok(true);
    }
    let group = shelf.by_id(alloc, Kind::Group, id)?;
    Ok(group.is_some())
}

/// Returns what merging makes of a resource whose kind and id no stored resource has.
fn outcome_of_new<H: Shelf>(
    alloc: Global,
    shelf: &mut H,
    resource: &Resource,
) -> Result<Outcome, Failed<ShelfFault>>
    ensures answer { IsReadKeyed H.stands H.is_honest shelf.old shelf.new result (λ cs found. found
        ≡ spec.outcome_over cs resource.now None) }
    ensures read { OnlyReads H.stands H.is_honest H.failures H.has_round shelf.old shelf.new result }
{
    if is_used_id(alloc, shelf, resource.id())? {
        return Ok(Outcome::Clashes(Clash::OtherKind));
    }
    unless_taken(alloc, shelf, resource, Outcome::Created)
}

/// Returns what merging makes of a resource. Only reads the shelf, and fails as [`Shelf::by_id`] does.
fn outcome_of<H: Shelf>(
    alloc: Global,
    shelf: &mut H,
    resource: &Resource,
) -> Result<Outcome, Failed<ShelfFault>>
    ensures answer { IsReadKeyed H.stands H.is_honest shelf.old shelf.new result (λ cs found. found
        ≡ spec.outcome cs resource.now) }
    ensures read { OnlyReads H.stands H.is_honest H.failures H.has_round shelf.old shelf.new result }
{
    let stored = shelf.by_id(alloc, resource.kind(), resource.id())?;
    let Some(stored) = stored else {
        return outcome_of_new(alloc, shelf, resource);
    };
    if stored == *resource {
        return Ok(Outcome::Unchanged);
    }
    unless_taken(alloc, shelf, resource, Outcome::Replaced)
}

/// Merges one resource into the shelf: commits the change that it makes, if any, with its audit row. `now` is
/// the moment of the row, and `client` the client that it names. Returns what became of the resource.
///
/// Fails as [`Shelf::by_id`] and [`Shelf::commit`] do. On an error nothing is changed.
pub(crate) fn merge_one<H: Shelf>(
    alloc: Global,
    shelf: &mut H,
    resource: &Resource,
    now: Moment,
    client: &str,
) -> Result<Outcome, Failed<ShelfFault>>
    ensures merged { IfOk result (λ outcome. (base : List ℕ) (store : Store)
        → H.stands shelf.old store → H.is_honest shelf.new
        → IsStore base store → IsResourceBelow base resource.now
        → (outcome ≡ spec.outcome store.resources resource.now)
        × H.stands shelf.new (spec.merged_one now client.now resource.now outcome store)
        × IsStore base (spec.merged_one now client.now resource.now outcome store)) }
    ensures round { KeepsRound H.has_round shelf.old shelf.new }
    ensures honest { H.is_honest shelf.new → H.is_honest shelf.old }
    ensures counts { Counts (H.failures shelf.old) (H.failures shelf.new) result }
{
    let outcome = outcome_of(alloc, shelf, resource)?;
    let Some(op) = outcome.op() else {
        return Ok(outcome);
    };
    let row = row_of(alloc, now, client, op, resource)?;
    let kept = Change::Keep(resource.try_copy(alloc)?);
    shelf.commit(alloc, kept, row)?;
    Ok(outcome)
}

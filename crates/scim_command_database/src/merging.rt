//! The command `import` with `--merge`: merges a users file into the store of a database.
ghost use Rattle.std.specs.Prelude.{◌≡◌, ◌≢◌, ◌⊎◌, ℕ, Err, IfOk, IfErr, OnOk, string_bytes};
ghost use Rattle.std.specs.Io.KnownBytes.{Appends};
ghost use Rattle.scim_command.specs.Options.{default_base};
ghost use Rattle.scim_command.specs.declared.faults.RunFault.{RunFault};
ghost use Rattle.scim_command_database.specs.Merges as spec;
ghost use Rattle.scim_json.specs.Documents.{IsDamagedAt};
ghost use Rattle.scim_shelf.specs.Shelves.{settled};
ghost use Rattle.scim_shelf.specs.Stores.{Store, IsStore};
ghost use Rattle.scim_shelf_merge.specs.Merged.{IsUnmerged};
ghost use Rattle.scim_wire.specs.Streams.{AppendsFront};

use crate::works::{DatabaseWork, of_run, open_cached};
use scim_command::{CommandFault, DEFAULT_BASE, DatabaseFault, RunFault, write_or_fault};
use scim_json::DamagedItem;
use scim_shelf::Shelf;
use scim_shelf_merge::{MergeCount, MergeFault, merge};
use scim_text::{Moment, NoMemory};
use sqlite::{Alter, Connection};
use std::alloc::Global;
use std::io::Write;

/// The client of the audit rows that a merge leaves. No client of a policy can have this name.
pub const MERGE_CLIENT: &str = "(import)";

/// The command `import` with `--merge`: merges a users file, given as its text, into the store of a database. The audit
/// rows have the moment `now`.
#[derive(Clone, Copy)]
pub struct Merging<'a> {
    pub users: &'a str,
    pub now: Moment,
}

impl DatabaseWork for Merging<'_> {
    fn over<S: Alter + Drop, W: Write>(
        self,
        alloc: Global,
        connection: Connection<S>,
        writer: &mut W,
    ) -> (Result<(), CommandFault>, Connection<S>) {
        match open_cached(alloc, connection, DEFAULT_BASE, true) {
            Ok(shelf) => {
                let mut shelf = shelf;
                let done = merge_users(alloc, &mut shelf, self.users, self.now, writer);
                (of_run(done), shelf.into_lower().into_connection())
            }
            Err((fault, connection)) => (Err(fault), connection),
        }
    }
}

/// Merges a users file into the shelf, in one round, and writes how many resources were created, replaced and found as
/// they are, on a line. See [`scim_shelf_merge::merge`].
///
/// Fails with `Users` at the first item that is invalid or can't be merged, with `NoMemory` if memory is short, and with
/// `Database` if the device fails; then nothing is put on the device and nothing is written. Fails with `Output` if the
/// write fails; then the file is merged, and a prefix of the line, which may be empty or all of it, has been written.
pub fn merge_users<H: Shelf, W: Write>(
    alloc: Global,
    shelf: &mut H,
    users: &str,
    now: Moment,
    writer: &mut W,
) -> Result<(), RunFault>
    ensures merged { OnOk result ((store : Store) → H.stands shelf.old store
        → H.is_honest shelf.new → IsStore default_base store → (count : MergeCount)
        × spec.HasMergedUsers H.stands users.now now store count shelf.new
        × Appends (W.contents writer.old) (W.contents writer.new) (spec.count_text count)) }
    ensures output { result ≡ Err RunFault.Output → (store : Store) → H.stands shelf.old store
        → H.is_honest shelf.new → IsStore default_base store → (count : MergeCount)
        × spec.HasMergedUsers H.stands users.now now store count shelf.new
        × AppendsFront (W.contents writer.old) (W.contents writer.new) (spec.count_text count) }
    ensures unmerged { IfErr result (λ f. f ≢ RunFault.Output → (store : Store)
        → H.stands shelf.old store → H.has_round shelf.old settled
        → IsUnmerged H.stands H.has_round store shelf.new) }
    ensures users { (n : ℕ) → result ≡ Err (RunFault.Users n) → (store : Store)
        → H.stands shelf.old store → H.is_honest shelf.new → IsStore default_base store
        → IsDamagedAt default_base users.now n ⊎ spec.IsClashAt users.now now store n }
    ensures silent { IfErr result (λ f. f ≢ RunFault.Output → writer.new ≡ writer.old) }
    ensures honest { H.is_honest shelf.new → H.is_honest shelf.old }
    ensures faults { IfErr result spec.IsMergeFault }
{
    match merge(alloc, shelf, DEFAULT_BASE, users, now, MERGE_CLIENT) {
        Ok(count) => write_count(alloc, count, writer),
        Err(fault) => Err(merge_fault(fault)),
    }
}

/// Writes the counts of a merge on a line. If memory runs out for it, writes nothing.
fn write_count<W: Write>(alloc: Global, count: MergeCount, writer: &mut W) -> Result<(), RunFault>
    ensures whole { OnOk result (Appends (W.contents writer.old) (W.contents writer.new)
        (spec.count_text count)) }
    ensures front { result ≡ Err RunFault.Output
        → AppendsFront (W.contents writer.old) (W.contents writer.new) (spec.count_text count) }
    ensures fault { IfErr result (λ f. f ≡ RunFault.Output) }
{
    match count_text(alloc, count) {
        Ok(text) => write_or_fault(text.as_str(), writer),
        Err(_) => Err(RunFault::Output),
    }
}

/// Returns the counts of a merge, on a line.
fn count_text(alloc: Global, count: MergeCount) -> Result<String, NoMemory>
    ensures { IfOk result (λ text. string_bytes text ≡ spec.count_text count) }
{
    let MergeCount {
        created,
        replaced,
        unchanged,
    } = count;
    Ok(format!(in alloc; "created: {created}, replaced: {replaced}, unchanged: {unchanged}\n")?)
}

/// Returns the error of a command for a failed merge. A round can't begin only where memory is short for the cache.
fn merge_fault(fault: MergeFault) -> RunFault
    ensures { result ≡ spec.of_merging fault }
{
    match fault {
        MergeFault::Users(DamagedItem(number)) => RunFault::Users(number),
        MergeFault::Clash(number, _) => RunFault::Users(number),
        MergeFault::Shelf(_) => RunFault::Database(DatabaseFault::Unusable),
        MergeFault::NoRound | MergeFault::NoMemory => RunFault::NoMemory,
    }
}

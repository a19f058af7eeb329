//! The command `audit`: prints rows of the audit, one per line.
ghost use Rattle.std.specs.Prelude.{◌≡◌, ◌≢◌, Err, IfOk, IfErr, OnOk, take, string_bytes};
ghost use Rattle.std.specs.Io.KnownBytes.{Appends};
ghost use Rattle.sqlite.specs.Held.{state};
ghost use Rattle.scim_audit_listing.specs.Listings.{fitting, lines, listed, take_last};
ghost use Rattle.scim_shelf.specs.Shelves.{Answers, KeepsStore};
ghost use Rattle.scim_shelf.specs.Stores.{Store};
ghost use Rattle.scim_store.specs.SqlShelves.{connection_of};
ghost use Rattle.scim_wire.specs.Streams.{AppendsFront};
ghost use Rattle.scim_command.specs.declared.faults.RunFault.{RunFault};
ghost use Rattle.scim_command_database.specs.Audit.{SparesStore};
ghost use Rattle.scim_command_database.specs.Faults.{IsDatabaseFault};
ghost use Rattle.scim_command_database.specs.code.Exits.{IsOfShelf};

use scim_audit_listing::{Listing, Portion, add_lines, start_of_last};
use scim_command::{RunFault, write_or_fault};
use scim_shelf::Shelf;
use scim_store::SqlShelf;
use sqlite::Alter;
use std::alloc::Global;
use std::io::Write;

/// How many rows are read at a time.
const BLOCK: u64 = 1000;

/// Writes the text of a listing of the audit: a line for each of its rows.
///
/// Reads the rows in blocks, and no more of them than the listing needs. Fails with `Database` if the store
/// can't be read. Fails with `Output` if a write fails; then a prefix of the text, which may be empty or all of
/// it, has been written. After any other error nothing is written.
pub fn print_audit<S: Alter, W: Write>(
    alloc: Global,
    shelf: &mut SqlShelf<S>,
    listing: &Listing<'_>,
    writer: &mut W,
) -> Result<(), RunFault>
    ensures told { OnOk result ((store : Store) → ⟦<SqlShelf<S> as Shelf>⟧.stands shelf.old store
        → ⟦<SqlShelf<S> as Shelf>⟧.is_honest shelf.new
        → Appends (W.contents writer.old) (W.contents writer.new)
        (listed listing.now store.audit)) }
    ensures output { result ≡ Err RunFault.Output → (store : Store)
        → ⟦<SqlShelf<S> as Shelf>⟧.stands shelf.old store
        → ⟦<SqlShelf<S> as Shelf>⟧.is_honest shelf.new
        → AppendsFront (W.contents writer.old) (W.contents writer.new)
        (listed listing.now store.audit) }
    ensures silent { IfErr result (λ f. f ≢ RunFault.Output → writer.new ≡ writer.old) }
    ensures store { KeepsStore ⟦<SqlShelf<S> as Shelf>⟧.stands shelf.old shelf.new }
    ensures honest { ⟦<SqlShelf<S> as Shelf>⟧.is_honest shelf.new
        → ⟦<SqlShelf<S> as Shelf>⟧.is_honest shelf.old }
    ensures spares { SparesStore (⟦<SqlShelf<S> as Shelf>⟧.stands shelf.old)
        (state S.Store (connection_of shelf.old)) (state S.Store (connection_of shelf.new)) }
    ensures faults { IfErr result IsDatabaseFault }
{
    let text = listed_text(alloc, shelf, listing)?;
    write_or_fault(text.as_str(), writer)
}

/// Returns the text of a listing. Fails with `Database` if the store can't be read.
fn listed_text<S: Alter>(
    alloc: Global,
    shelf: &mut SqlShelf<S>,
    listing: &Listing<'_>,
) -> Result<String, RunFault>
    ensures text { IfOk result (Answers ⟦<SqlShelf<S> as Shelf>⟧.stands
        ⟦<SqlShelf<S> as Shelf>⟧.is_honest shelf.old shelf.new
        (λ store text. string_bytes text ≡ listed listing.now store.audit)) }
    ensures store { KeepsStore ⟦<SqlShelf<S> as Shelf>⟧.stands shelf.old shelf.new }
    ensures honest { ⟦<SqlShelf<S> as Shelf>⟧.is_honest shelf.new
        → ⟦<SqlShelf<S> as Shelf>⟧.is_honest shelf.old }
    ensures spares { SparesStore (⟦<SqlShelf<S> as Shelf>⟧.stands shelf.old)
        (state S.Store (connection_of shelf.old)) (state S.Store (connection_of shelf.new)) }
    ensures fault { IfErr result IsOfShelf }
{
    match listing.portion {
        Portion::First(count) => first_lines(alloc, shelf, listing, listing.from, count),
        Portion::Last(count) => {
            let from = start_of_portion(alloc, shelf, listing, count)?;
            first_lines(alloc, shelf, listing, from, count)
        }
    }
}

/// Returns the lines of the first `count` rows from number `from` on that fit the listing's conditions. Fails
/// with `Database` if the store can't be read.
fn first_lines<S: Alter>(
    alloc: Global,
    shelf: &mut SqlShelf<S>,
    listing: &Listing<'_>,
    from: u64,
    count: u64,
) -> Result<String, RunFault>
    ensures text { IfOk result (Answers ⟦<SqlShelf<S> as Shelf>⟧.stands
        ⟦<SqlShelf<S> as Shelf>⟧.is_honest shelf.old shelf.new
        (λ store text. string_bytes text
        ≡ lines listing.now.format (take count (fitting listing.now.filter from store.audit)))) }
    ensures store { KeepsStore ⟦<SqlShelf<S> as Shelf>⟧.stands shelf.old shelf.new }
    ensures honest { ⟦<SqlShelf<S> as Shelf>⟧.is_honest shelf.new
        → ⟦<SqlShelf<S> as Shelf>⟧.is_honest shelf.old }
    ensures spares { SparesStore (⟦<SqlShelf<S> as Shelf>⟧.stands shelf.old)
        (state S.Store (connection_of shelf.old)) (state S.Store (connection_of shelf.new)) }
    ensures fault { IfErr result IsOfShelf }
{
    let last = shelf.audit_count();
    let mut text = String::new(alloc);
    let mut next = from.max(1);
    let mut left = count;
    while left > 0 && next <= last {
        let rows = shelf.audit_rows(alloc, next, BLOCK)?;
        let rows = rows.as_slice();
        let (filter, format) = (&listing.filter, listing.format);
        left -= add_lines(&mut text, alloc, filter, format, next, rows, left)?;
        next += BLOCK;
    }
    Ok(text)
}

/// Returns the number of the row from which the last `count` rows follow that fit the listing's conditions, of
/// the rows that may be listed. Fails with `Database` if the store can't be read.
fn start_of_portion<S: Alter>(
    alloc: Global,
    shelf: &mut SqlShelf<S>,
    listing: &Listing<'_>,
    count: u64,
) -> Result<u64, RunFault>
    ensures start { IfOk result (Answers ⟦<SqlShelf<S> as Shelf>⟧.stands
        ⟦<SqlShelf<S> as Shelf>⟧.is_honest shelf.old shelf.new
        (λ store start. fitting listing.now.filter start store.audit
        ≡ take_last count (fitting listing.now.filter listing.now.from store.audit))) }
    ensures same { OnOk result ((store : Store)
        → ⟦<SqlShelf<S> as Shelf>⟧.stands shelf.old store
        → ⟦<SqlShelf<S> as Shelf>⟧.is_honest shelf.new
        → (state S.Store (connection_of shelf.new)).now.schema
        ≡ (state S.Store (connection_of shelf.old)).now.schema) }
    ensures store { KeepsStore ⟦<SqlShelf<S> as Shelf>⟧.stands shelf.old shelf.new }
    ensures honest { ⟦<SqlShelf<S> as Shelf>⟧.is_honest shelf.new
        → ⟦<SqlShelf<S> as Shelf>⟧.is_honest shelf.old }
    ensures spares { SparesStore (⟦<SqlShelf<S> as Shelf>⟧.stands shelf.old)
        (state S.Store (connection_of shelf.old)) (state S.Store (connection_of shelf.new)) }
    ensures fault { IfErr result IsOfShelf }
{
    let first = listing.from.max(1);
    let mut end = shelf.audit_count();
    let mut left = count;
    while first <= end {
        let start = end.saturating_sub(BLOCK - 1).max(first);
        let rows = shelf.audit_rows(alloc, start, end - start + 1)?;
        let (index, found) = start_of_last(&listing.filter, rows.as_slice(), left);
        if found == left {
            return Ok(start.saturating_add(index as u64));
        }
        left -= found;
        end = start - 1;
    }
    Ok(first)
}

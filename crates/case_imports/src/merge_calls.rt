//! The calls of `scim_shelf_merge`, over a database in memory with a cache.
use crate::NOON;
use case_stores::{
    Audited, OverDatabase, StoreFault, base_of, cached, filled, over_new_database, told_or_fault,
};
use case_values::{Case, CaseFault, between, joined, push_rows_after, text_or_json, written_text};
use scim_command_database::export;
use scim_shelf::{BatchShelf, Shelf};
use scim_shelf_cache::CachedShelf;
use scim_shelf_merge::{MergeFault, merge};
use scim_text::Moment;
use sqlite::{Alter, Connection};
use std::alloc::Global;

/// Merges the users file `file` into a store with the resources of `users`. Returns the counts or the fault,
/// then the lines of the audit and the users file that the database has afterwards. With `unfilled` the cache is
/// empty, so that there can be no round.
pub(crate) fn merge_call(case: &Case<'_>) -> Result<String, CaseFault> {
    told_or_fault(case.alloc, over_new_database(case, &Merging))
}

/// Merges a users file.
struct Merging;

impl OverDatabase for Merging {
    fn over<S: Alter + Drop>(
        &self,
        case: &Case<'_>,
        connection: Connection<S>,
    ) -> Result<String, StoreFault> {
        let shelf = filled(case, "users", connection)?;
        if case.is_true("unfilled") {
            return merged(case, CachedShelf::over(shelf));
        }
        merged(case, cached(case.alloc, shelf)?)
    }
}

/// Merges the file into the store, which it closes, and returns what came of it.
fn merged<S: Audited + BatchShelf>(
    case: &Case<'_>,
    shelf: CachedShelf<S>,
) -> Result<String, StoreFault> {
    let mut shelf = shelf;
    let told = told_of_merge(case, &mut shelf);
    let mut lower = shelf.into_lower();
    let left = told_of_store(case.alloc, &mut lower);
    lower.close();
    let told = told?;
    Ok(joined(case.alloc, &[told.as_str(), left?.as_str()])?)
}

/// Merges the file into the store. Returns the counts or the fault.
fn told_of_merge<H: Shelf>(case: &Case<'_>, shelf: &mut H) -> Result<String, CaseFault> {
    let alloc = case.alloc;
    let file = text_or_json(case, "file", "[]")?;
    let Some(now) = Moment::new(NOON) else {
        return Err(CaseFault::Missing("a moment"));
    };
    match merge(alloc, shelf, base_of(case), file.as_str(), now, "(import)") {
        Ok(count) => {
            let (created, replaced, unchanged) = (count.created, count.replaced, count.unchanged);
            Ok(format!(in alloc; "created {created}, replaced {replaced}, unchanged {unchanged};")?)
        }
        Err(MergeFault::NoMemory) => Err(CaseFault::NoMemory),
        Err(fault) => between(alloc, "", &fault, ";"),
    }
}

/// Returns the lines of the audit, and the users file of the store.
fn told_of_store<S: Audited>(alloc: Global, shelf: &mut S) -> Result<String, StoreFault> {
    let rows = shelf.rows_after(alloc, 0)?;
    let mut text = String::new(alloc);
    push_rows_after(alloc, 0, rows.as_slice(), &mut text)?;
    let mut written = Vec::new(alloc);
    let done = export(alloc, shelf, &mut written);
    let users = written_text(alloc, written.as_slice(), done)?;
    Ok(joined(alloc, &[text.as_str(), users.as_str()])?)
}

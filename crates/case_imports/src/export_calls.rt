//! The calls of `scim_foreign_users`.
ghost use Rattle.std.specs.Prelude.{◌≡◌, IfOk, length};

use crate::NOON;
use case_stores::base_of;
use case_values::{Case, CaseFault, between, shown, text_or_json};
use scim_cell::Id;
use scim_foreign_users::{items_of_export, users_of_items};
use scim_text::{Failed, Moment, push};
use std::alloc::Global;

/// Returns the users file of the text `export`, or the fault. The fresh ids are
/// `00000000-0000-4000-8000-0000000000e1`, `..e2` and so on, one for each item.
pub(crate) fn users_of_export_call(case: &Case<'_>) -> Result<String, CaseFault> {
    let export = text_or_json(case, "export", "")?;
    match items_of_export(case.alloc, export.as_str()) {
        Ok(items) => users_of(case, items.as_slice()),
        Err(Failed::Because(fault)) => shown(case.alloc, &fault),
        Err(Failed::NoMemory) => Err(CaseFault::NoMemory),
    }
}

/// Returns the users file of the items, or the fault.
fn users_of(case: &Case<'_>, items: &[String]) -> Result<String, CaseFault> {
    let Some(now) = Moment::new(NOON) else {
        return Err(CaseFault::Missing("a moment"));
    };
    let ids = fresh_ids(case.alloc, items)?;
    match users_of_items(case.alloc, base_of(case), items, now, ids.as_slice()) {
        Ok(users) => Ok(users),
        Err(Failed::Because(refused)) => shown(case.alloc, &refused),
        Err(Failed::NoMemory) => Err(CaseFault::NoMemory),
    }
}

/// Returns a fresh id for each item. Fails with `Missing` if there are more than nine items.
fn fresh_ids(alloc: Global, items: &[String]) -> Result<Vec<Id>, CaseFault>
    ensures { IfOk result (λ ids. length ids.items ≡ length items.now) }
{
    let mut ids = Vec::new(alloc);
    for (index, _item) in items.iter().enumerate() {
        let number = index.saturating_add(1);
        let text = between(alloc, "00000000-0000-4000-8000-0000000000e", &number, "")?;
        let Some(id) = Id::read(text.as_str()) else {
            return Err(CaseFault::Missing("nine items at most"));
        };
        push(&mut ids, id)?;
    }
    Ok(ids)
}

//! Projects the items of a page to what a reply shows.
ghost use Rattle.std.specs.Prelude.{◌≡◌, IfOk, map};
ghost use Rattle.scim_view.specs.Shown.{shown};

use crate::queries::Page;
use scim_text::{NoMemory, push};
use scim_value::Part;
use scim_view::{Wanted, project};
use std::alloc::Global;

/// Returns the page with each item projected to what the client wants, as [`project`] does.
pub fn shown_page(alloc: Global, found: Page, wanted: &Wanted) -> Result<Page, NoMemory>
    ensures total { IfOk result (λ page. page.total ≡ found.total) }
    ensures start { IfOk result (λ page. page.start ≡ found.start) }
    ensures items { IfOk result (λ page. page.items.items
        ≡ map (shown wanted.now) found.items.items) }
{
    let Page {
        total,
        start,
        items,
    } = found;
    let items = shown_items(alloc, items, wanted)?;
    Ok(Page {
        total,
        start,
        items,
    })
}

/// Projects each part to what the client wants.
fn shown_items(alloc: Global, parts: Vec<Part>, wanted: &Wanted) -> Result<Vec<Part>, NoMemory>
    ensures { IfOk result (λ v. v.items ≡ map (shown wanted.now) parts.items) }
{
    let mut items = Vec::with_capacity(alloc, parts.len())?;
    for part in parts {
        push(&mut items, project(alloc, part, wanted)?)?;
    }
    Ok(items)
}

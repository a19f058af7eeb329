//! Finds the item of a users file whose id or unique name a later one repeats.
use json::Scratch;
use scim_cell::Id;
use scim_json::{DamagedItem, DocumentReader};
use scim_schema::Leaf;
use scim_text::{Failed, NoMemory};
use scim_value::{Resource, UniqueName, unique_names};
use std::alloc::Global;
use std::fmt;

/// What an item of a users file repeats.
#[derive(Clone, Copy)]
pub(crate) struct Repeat {
    /// The number, from 1, of the earlier item.
    item: usize,
    /// The leaf of the unique name, or `None` if it is the id.
    leaf: Option<Leaf>,
}

impl fmt::Display for Repeat {
    fn fmt<W: fmt::Write>(&self, f: &mut fmt::Formatter<W>) -> fmt::Result {
        let item = self.item;
        let name = match self.leaf {
            Some(leaf) => leaf.attribute.name(),
            None => "id",
        };
        write!(f, "\"{name}\" is that of item {item}")
    }
}

/// Returns what a resource, which is the item with this number from 1, repeats of the first earlier item of
/// which it repeats something.
pub(crate) fn find_repeat(
    alloc: Global,
    base: &str,
    text: &str,
    number: usize,
    resource: &Resource,
) -> Result<Option<Repeat>, NoMemory> {
    let names = unique_names(alloc, resource)?;
    match repeat_before(alloc, base, text, number, resource.id(), &names) {
        Ok(found) => Ok(found),
        Err(Failed::Because(_)) => Ok(None),
        Err(Failed::NoMemory) => Err(NoMemory),
    }
}

/// Finds what a resource with this id and these unique names repeats of the items before the one with this
/// number.
fn repeat_before(
    alloc: Global,
    base: &str,
    text: &str,
    number: usize,
    id: Id,
    names: &[UniqueName],
) -> Result<Option<Repeat>, Failed<DamagedItem>> {
    let mut scratch = Scratch::new(alloc);
    let mut documents = DocumentReader::new(alloc, base, text, &mut scratch)?;
    for item in 1..number {
        let Some(earlier) = documents.next(alloc)? else {
            return Ok(None);
        };
        let found = repeat_of(alloc, item, &earlier, id, names)?;
        if found.is_some() {
            return Ok(found);
        }
    }
    Ok(None)
}

/// Finds what a resource with this id and these unique names repeats of an earlier resource, the item with
/// this number.
fn repeat_of(
    alloc: Global,
    item: usize,
    earlier: &Resource,
    id: Id,
    names: &[UniqueName],
) -> Result<Option<Repeat>, NoMemory> {
    if earlier.id() == id {
        return Ok(Some(Repeat { item, leaf: None }));
    }
    let taken = unique_names(alloc, earlier)?;
    let name = names.iter().find(|name| taken.contains(name));
    Ok(name.map(|name| Repeat {
        item,
        leaf: Some(name.leaf),
    }))
}

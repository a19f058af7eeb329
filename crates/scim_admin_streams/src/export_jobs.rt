//! Writes all resources as a users file, piece by piece.
ghost use Rattle.std.specs.Prelude.{◌≡◌, ◌≢◌, ◌<◌, ◌≤◌, ◌++◌, [], List, true, false, None, Some, Err, IfOk, OnOk, find, length, string_bytes};
ghost use Rattle.scim_cell.specs.Content.{Content};
ghost use Rattle.scim_json.specs.Stored as json;
ghost use Rattle.scim_shelf_cache.specs.Caches.{HasKeyed};
ghost use Rattle.scim_shelf.specs.Shelves.{Answers, Counts};
ghost use Rattle.scim_shelf.specs.Stores.{Store, is_at};
ghost use Rattle.scim_command_database.specs.Exports.{export_text, users_and_groups};
ghost use Rattle.scim_admin_streams.specs.ExportJobs as spec;
ghost use Rattle.scim_admin_streams.specs.Shelves.{KeepsShelf};

use scim_cell::Id;
use scim_json::stored_text;
use scim_schema::Kind;
use scim_shelf::{Shelf, ShelfFault, Visitor};
use scim_text::{Failed, NoMemory, push};
use scim_value::Resource;
use std::alloc::{AllocError, Global};

/// How many resources are read at a time, at most.
const RESOURCES: usize = 64;

/// The length of a piece that needs no more resources, in bytes.
const PIECE: usize = 32_768;

/// A resource to be written: its kind and its id.
#[derive(Clone, Copy)]
struct Named {
    kind: Kind,
    id: Id,
}

/// A visitor that collects the kinds and ids of resources.
#[derive(Drop)]
struct Names {
    names: Vec<Named>,
}

impl Visitor for Names {
    ghost use Rattle.scim_admin_streams.specs.code.Names.{TakesName};

    ghost takes = { TakesName };

    fn take(&mut self, _alloc: Global, resource: &Resource) -> Result<(), NoMemory> {
        push(
            &mut self.names,
            Named {
                kind: resource.kind(),
                id: resource.id(),
            },
        )
    }
}

/// Why an export can't be carried on.
#[derive(Clone, Copy, Debug, PartialEq, Eq)]
pub enum ExportFault {
    /// A resource that was there when the export began is gone.
    Changed,
    /// The device failed.
    Device,
    /// An allocation failed.
    NoMemory,
}

impl From<NoMemory> for ExportFault {
    ghost use Rattle.scim_admin_streams.specs.declared.export_jobs.ExportFault.{ExportFault};

    ghost from_gives = { λ _ f. f ≡ ExportFault.NoMemory };

    fn from(_: NoMemory) -> ExportFault {
        ExportFault::NoMemory
    }
}

impl From<AllocError> for ExportFault {
    ghost use Rattle.scim_admin_streams.specs.declared.export_jobs.ExportFault.{ExportFault};

    ghost from_gives = { λ _ f. f ≡ ExportFault.NoMemory };

    fn from(_: AllocError) -> ExportFault {
        ExportFault::NoMemory
    }
}

impl From<Failed<ShelfFault>> for ExportFault {
    ghost use Rattle.scim_admin_streams.specs.Faults.{of_shelf};

    ghost from_gives = { λ e f. f ≡ of_shelf e };

    fn from(fault: Failed<ShelfFault>) -> ExportFault {
        match fault {
            Failed::Because(_) => ExportFault::Device,
            Failed::NoMemory => ExportFault::NoMemory,
        }
    }
}

/// The users file of the resources that a store had when the export began, piece by piece.
#[derive(Drop)]
pub struct ExportJob {
    /// The users, and then the groups.
    names: Vec<Named>,
    /// How many resources are written.
    at: usize,
    /// Whether the end of the file is written.
    is_done: bool,
}

impl ExportJob {
    /// Collects what is to be written: all users, and then all groups. Fails if the shelf can't be read.
    pub fn new<S: Shelf>(alloc: Global, shelf: &mut S) -> Result<ExportJob, Failed<ShelfFault>>
        ensures keeps { KeepsShelf S.stands S.is_honest S.has_round shelf.old shelf.new }
        ensures names { IfOk result (Answers S.stands S.is_honest shelf.old shelf.new (λ store job.
            spec.Exports store.resources job)) }
        ensures text { IfOk result (Answers S.stands S.is_honest shelf.old shelf.new (λ store job.
            spec.rest_of job store.resources ≡ export_text store.resources)) }
        ensures counts { Counts (S.failures shelf.old) (S.failures shelf.new) result }
        ensures not_full { result ≢ Err (Failed.Because ShelfFault.Full) }
    {
        let mut names = Names {
            names: Vec::new(alloc),
        };
        shelf.each(alloc, Kind::User, &mut names)?;
        shelf.each(alloc, Kind::Group, &mut names)?;
        let Names { names } = names;
        Ok(ExportJob {
            names,
            at: 0,
            is_done: false,
        })
    }

    /// Whether the whole file is written.
    pub fn is_done(&self) -> bool
        ensures value { result ≡ spec.is_done self.now }
        ensures end { result ≡ true → (cs : List Content) → spec.rest_of self.now cs ≡ [] }
    {
        self.is_done
    }

    /// Does the next part of the job, and returns the text that follows that of all earlier parts. A job that
    /// isn't done has less to do then.
    ///
    /// Fails with `Changed` if one of the next resources is gone, and with `Device` if the shelf can't be read.
    /// After an error the job can't be carried on.
    pub fn next<S: Shelf>(&mut self, alloc: Global, shelf: &mut S) -> Result<String, ExportFault>
        ensures keeps { KeepsShelf S.stands S.is_honest S.has_round shelf.old shelf.new }
        ensures piece { IfOk result (Answers (HasKeyed S.stands) S.is_honest shelf.old shelf.new
            (λ store text. spec.Exports store.resources self.old
            → spec.rest_of self.old store.resources
            ≡ string_bytes text ++ spec.rest_of self.new store.resources)) }
        ensures changed { result ≡ Err ExportFault.Changed
            → (store : Store) → HasKeyed S.stands shelf.old store → S.is_honest shelf.new
            → ¬ spec.Exports store.resources self.old }
        ensures shorter { OnOk result (spec.is_done self.old ≡ false
            → spec.IsShorter self.old self.new) }
        ensures same { spec.KeepsResources self.old self.new }
    {
        let mut text = String::new(alloc);
        if self.is_done {
            return Ok(text);
        }
        self.add_documents(alloc, shelf, &mut text)?;
        if self.at >= self.names.len() {
            text.push_str(self.end())?;
            self.is_done = true;
        }
        Ok(text)
    }

    /// Appends the documents of the next resources, each behind the text that separates it from those before it.
    fn add_documents<S: Shelf>(
        &mut self,
        alloc: Global,
        shelf: &mut S,
        text: &mut String,
    ) -> Result<(), ExportFault>
        ensures keeps { KeepsShelf S.stands S.is_honest S.has_round shelf.old shelf.new }
        ensures text { OnOk result ((store : Store) → HasKeyed S.stands shelf.old store
            → S.is_honest shelf.new → spec.Exports store.resources self.old
            → string_bytes text.old
            ++ spec.text_after self.old.at (users_and_groups store.resources)
            ≡ string_bytes text.new
            ++ spec.text_after self.new.at (users_and_groups store.resources)) }
        ensures changed { result ≡ Err ExportFault.Changed
            → (store : Store) → HasKeyed S.stands shelf.old store → S.is_honest shelf.new
            → ¬ spec.Exports store.resources self.old }
        ensures names { self.new.names ≡ self.old.names }
        ensures ending { self.new.is_done ≡ self.old.is_done }
        ensures above { self.old.at ≤ self.new.at }
        ensures more { OnOk result (string_bytes text.old ≡ []
            → self.old.at < length self.old.names.items → self.old.at < self.new.at) }
    {
        let end = self.at.saturating_add(RESOURCES).min(self.names.len());
        while self.at < end && text.len() < PIECE {
            let named = self.names[self.at];
            text.push_str(self.before())?;
            add_document(alloc, shelf, named, text)?;
            self.at += 1;
        }
        Ok(())
    }

    /// Returns the text before the next document.
    fn before(&self) -> &'static str
        ensures { result.now ≡ spec.text_before self.now.at }
    {
        if self.at == 0 { "[" } else { ",\n" }
    }

    /// Returns the text behind the last document, if all are written.
    fn end(&self) -> &'static str
        ensures { result.now ≡ spec.end_after self.now.at }
    {
        if self.at == 0 { "[]\n" } else { "]\n" }
    }
}

/// Appends the document of a resource. Fails with `Changed` if it isn't there.
fn add_document<S: Shelf>(
    alloc: Global,
    shelf: &mut S,
    named: Named,
    text: &mut String,
) -> Result<(), ExportFault>
    ensures keeps { KeepsShelf S.stands S.is_honest S.has_round shelf.old shelf.new }
    ensures document { OnOk result ((store : Store) → S.stands shelf.old store
        → S.is_honest shelf.new → (c : Content)
        × (find (is_at named.kind named.id) store.resources ≡ Some c)
        × (string_bytes text.new ≡ string_bytes text.old ++ json.stored_text c)) }
    ensures changed { result ≡ Err ExportFault.Changed → (store : Store)
        → S.stands shelf.old store → S.is_honest shelf.new
        → find (is_at named.kind named.id) store.resources ≡ None }
{
    let Some(resource) = shelf.by_id(alloc, named.kind, named.id)? else {
        return Err(ExportFault::Changed);
    };
    let document = stored_text(alloc, &resource)?;
    text.push_str(document.as_str())?;
    Ok(())
}

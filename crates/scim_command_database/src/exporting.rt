//! The command `export`: writes all resources as a users file.
ghost use Rattle.std.specs.Prelude.{◌≡◌, ◌≢◌, ◌++◌, Err, IfOk, IfErr, OnOk, codes, string_bytes};
ghost use Rattle.std.specs.List.{FoldsTo};
ghost use Rattle.std.specs.Io.KnownBytes.{Appends};
ghost use Rattle.scim_shelf.specs.Shelves.{Answers, KeepsStore};
ghost use Rattle.scim_shelf.specs.Stores.{Store};
ghost use Rattle.scim_wire.specs.Streams.{AppendsFront};
ghost use Rattle.scim_command.specs.declared.faults.RunFault.{RunFault};
ghost use Rattle.scim_command_database.specs.Exports as spec;
ghost use Rattle.scim_command_database.specs.Faults.{IsDatabaseFault};
ghost use Rattle.scim_command_database.specs.code.Exits.{IsOfShelf};

use scim_command::{RunFault, write_or_fault};
use scim_json::stored_text;
use scim_schema::Kind;
use scim_shelf::{Shelf, ShelfFault, Visitor};
use scim_text::{Failed, NoMemory};
use scim_value::Resource;
use std::alloc::Global;
use std::io::Write;

/// A visitor that collects the JSON documents of resources as one list.
#[derive(Drop)]
struct Documents {
    text: String,
    /// The text that is written before the next document: empty before the first document, and a comma and a
    /// line feed before each further document.
    separator: &'static str,
}

impl Documents {
    /// Returns a visitor that has collected no documents; its text is the opening bracket of the list.
    fn new(alloc: Global) -> Result<Documents, NoMemory>
        ensures { IfOk result (λ new. (string_bytes new.text ≡ codes "[")
            × (new.separator.now ≡ codes "")) }
    {
        Ok(Documents {
            text: String::from_str(alloc, "[")?,
            separator: "",
        })
    }

    /// Returns the whole list, with its closing bracket and a line feed.
    fn finish(self) -> Result<String, NoMemory>
        ensures { IfOk result (λ text. string_bytes text ≡ string_bytes self.text ++ codes "]\n") }
    {
        let Documents {
            mut text,
            separator: _,
        } = self;
        text.push_str("]\n")?;
        Ok(text)
    }
}

impl Visitor for Documents {
    ghost use Rattle.scim_command_database.specs.code.Documents.{Takes};

    ghost takes = { Takes };

    fn take(&mut self, alloc: Global, resource: &Resource) -> Result<(), NoMemory> {
        let document = stored_text(alloc, resource)?;
        self.text.push_str(self.separator)?;
        self.text.push_str(document.as_str())?;
        self.separator = ",\n";
        Ok(())
    }
}

/// Writes a users file with the resources of a store: the users, then the groups, both in order of id. The
/// command `import` can read this file.
///
/// Fails with `Database` if the store can't be read. Fails with `Output` if a write fails; then a prefix of
/// the file, which may be empty or all of it, has been written. After any other error nothing is written.
pub fn export<H: Shelf, W: Write>(
    alloc: Global,
    shelf: &mut H,
    writer: &mut W,
) -> Result<(), RunFault>
    ensures told { OnOk result ((store : Store) → H.stands shelf.old store → H.is_honest shelf.new
        → Appends (W.contents writer.old) (W.contents writer.new)
        (spec.export_text store.resources)) }
    ensures output { result ≡ Err RunFault.Output → (store : Store) → H.stands shelf.old store
        → H.is_honest shelf.new
        → AppendsFront (W.contents writer.old) (W.contents writer.new)
        (spec.export_text store.resources) }
    ensures silent { IfErr result (λ f. f ≢ RunFault.Output → writer.new ≡ writer.old) }
    ensures store { KeepsStore H.stands shelf.old shelf.new }
    ensures honest { H.is_honest shelf.new → H.is_honest shelf.old }
    ensures faults { IfErr result IsDatabaseFault }
{
    let text = export_text(alloc, shelf)?;
    write_or_fault(text.as_str(), writer)
}

/// Returns the text of the users file of a store. Fails with `Database` if the store can't be read.
pub(crate) fn export_text<H: Shelf>(alloc: Global, shelf: &mut H) -> Result<String, RunFault>
    ensures text { IfOk result (Answers H.stands H.is_honest shelf.old shelf.new (λ store text.
        string_bytes text ≡ spec.export_text store.resources)) }
    ensures store { KeepsStore H.stands shelf.old shelf.new }
    ensures honest { H.is_honest shelf.new → H.is_honest shelf.old }
    ensures fault { IfErr result IsOfShelf }
{
    let mut documents = Documents::new(alloc)?;
    show_all(alloc, shelf, &mut documents)?;
    Ok(documents.finish()?)
}

/// Passes all users and then all groups to the visitor. If [`Shelf::each`] fails, returns its error.
fn show_all<H: Shelf, V: Visitor>(
    alloc: Global,
    shelf: &mut H,
    visitor: &mut V,
) -> Result<(), Failed<ShelfFault>>
    ensures shown { OnOk result ((store : Store) → H.stands shelf.old store → H.is_honest shelf.new
        → FoldsTo V.takes visitor.old (spec.users_and_groups store.resources) visitor.new) }
    ensures store { KeepsStore H.stands shelf.old shelf.new }
    ensures honest { H.is_honest shelf.new → H.is_honest shelf.old }
{
    shelf.each(alloc, Kind::User, visitor)?;
    shelf.each(alloc, Kind::Group, visitor)
}

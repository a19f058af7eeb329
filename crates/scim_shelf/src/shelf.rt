//! The store of a service: where its resources and its audit rows are kept.
ghost use Rattle.std.specs.Prelude.{◌≡◌, ℕ, true, false, IfOk, OnOk, Err, find, filter, length};
ghost use Rattle.scim_text.specs.declared.memory.Failed.TheVariants.{Because};
ghost use Rattle.scim_shelf.specs.declared.faults.ShelfFault.TheVariants.{Device};
ghost use Rattle.std.specs.List.{FoldsTo};
ghost use Rattle.std.specs.Option.{option_copied};
ghost use Rattle.scim_cell.specs.Kinds.{of_kind};
ghost use Rattle.scim_value.specs.Uniqueness.{name_of};
ghost use Rattle.scim_shelf.specs.Stores.{Store, AreKeyed, CanKeep, IsOld, is_at, has_name, is_group_with, with_some_text, those_at, those_found, window, after};
ghost use Rattle.scim_shelf.specs.Shelves.{Answers, OnlyReads, ShowsPrefix, TookWindow, Commits, CommitsSome, KeepsStore, Round, since, settled, Settles};
ghost use Rattle.scim_shelf.specs.Commits.{CanKeepAll, AreOld, after_all};

use crate::changes::Change;
use crate::commits::Commit;
use crate::faults::ShelfFault;
use crate::leaf_texts::LeafText;
use crate::text_filters::TextFilter;
use crate::windows::Window;
use scim_audit::AuditRow;
use scim_cell::Id;
use scim_schema::Kind;
use scim_text::{Failed, NoMemory};
use scim_value::{Resource, UniqueName};
use std::alloc::Global;

/// A visitor, to which resources are passed one at a time.
pub trait Visitor {
    ghost use Rattle.scim_cell.specs.Content.{Content};

    /// The relation between the visitor before a successful `take`, the resource, and the visitor after the
    /// call.
    ghost takes: { Self → Content → Self → Type 0 };

    /// Takes one resource, and copies the parts that it keeps. After an error the visitor is unusable.
    fn take(&mut self, alloc: Global, resource: &Resource) -> Result<(), NoMemory>
        ensures { OnOk result (takes self.old resource.now self.new) };
}

/// A place where resources and audit rows are kept.
///
/// `stands` relates a shelf to the store that it represents. The store isn't computed by reading, so a shelf
/// still represents the store of its last commit if its device can't be read any more.
pub trait Shelf {
    /// The shelf represents this store.
    ghost stands: { Self → Store → Type 0 };

    /// Nobody else has written to the shelf's device, and the device returned what was written to it.
    ghost is_honest: { Self → Type 0 };

    /// How often the device failed, 2^64 - 1 at most.
    ghost failures: { Self → ℕ };

    /// The shelf has this round: `settled` if none is under way; `since store` if one is, and the shelf represents
    /// `store` again if the round fails. A shelf without rounds is settled.
    ghost has_round: { Self → Round → Type 0 } = { λ _ round. round ≡ settled };

    /// Returns the resource of this kind with this id; `None` if there isn't one (RFC 7644 section 3.4.1).
    ///
    /// Fails with `Device` if the device failed. An error leaves the stored resources and the audit
    /// unchanged.
    fn by_id(
        &mut self,
        alloc: Global,
        kind: Kind,
        id: Id,
    ) -> Result<Option<Resource>, Failed<ShelfFault>>
        ensures answer { IfOk result (Answers stands is_honest self.old self.new (λ store found.
            found ≡ find (is_at kind id) store.resources)) }
        ensures read { OnlyReads stands is_honest failures has_round self.old self.new result };

    /// Passes the resource of this kind with this id, if there is one, to the visitor (RFC 7644 section 3.4.1). A shelf
    /// in memory doesn't copy it.
    ///
    /// Fails as `by_id` does, and with `NoMemory` if the visitor can't allocate. After the error `Device` the
    /// visitor is unchanged; after `NoMemory` it is unusable.
    fn lend_by_id<V: Visitor>(
        &mut self,
        alloc: Global,
        kind: Kind,
        id: Id,
        visitor: &mut V,
    ) -> Result<(), Failed<ShelfFault>>
        ensures answer { OnOk result ((store : Store) → stands self.old store → is_honest self.new
            → FoldsTo V.takes visitor.old (those_at kind id store.resources) visitor.new) }
        ensures unchanged { result ≡ Err (Because Device) → visitor.new ≡ visitor.old }
        ensures read { OnlyReads stands is_honest failures has_round self.old self.new result }
    {
        let found = self.by_id(alloc, kind, id)?;
        Ok(show_found(alloc, found, visitor)?)
    }

    /// Returns the resource that has the unique name; `None` if no resource has it (RFC 7643 section 2.2,
    /// uniqueness).
    ///
    /// Fails as `by_id` does.
    fn name_owner(
        &mut self,
        alloc: Global,
        name: &UniqueName,
    ) -> Result<Option<Resource>, Failed<ShelfFault>>
        ensures answer { IfOk result (Answers stands is_honest self.old self.new (λ store found.
            found ≡ find (has_name (name_of name.now)) store.resources)) }
        ensures read { OnlyReads stands is_honest failures has_round self.old self.new result };

    /// Passes the groups that list the value among their members to the visitor, in order of id (RFC 7643
    /// section 4.2).
    ///
    /// Fails as `by_id` does, and with `NoMemory` if the visitor can't allocate. After the error `Device` the
    /// visitor has taken a prefix of these groups; after `NoMemory` the visitor is unusable.
    fn groups_with<V: Visitor>(
        &mut self,
        alloc: Global,
        value: &str,
        visitor: &mut V,
    ) -> Result<(), Failed<ShelfFault>>
        ensures answer { OnOk result ((store : Store) → stands self.old store → is_honest self.new
            → FoldsTo V.takes visitor.old
            (filter (is_group_with value.now) store.resources) visitor.new) }
        ensures prefix { ShowsPrefix stands is_honest self.old self.new result
            V.takes visitor.old (λ store. filter (is_group_with value.now) store.resources) visitor.new }
        ensures read { OnlyReads stands is_honest failures has_round self.old self.new result };

    /// Passes the resources of the kind to the visitor, in order of id.
    ///
    /// Fails as `by_id` does, and with `NoMemory` if the visitor can't allocate. After the error `Device` the
    /// visitor has taken a prefix of these resources; after `NoMemory` the visitor is unusable.
    fn each<V: Visitor>(
        &mut self,
        alloc: Global,
        kind: Kind,
        visitor: &mut V,
    ) -> Result<(), Failed<ShelfFault>>
        ensures answer { OnOk result ((store : Store) → stands self.old store → is_honest self.new
            → FoldsTo V.takes visitor.old (of_kind kind store.resources) visitor.new) }
        ensures prefix { ShowsPrefix stands is_honest self.old self.new result
            V.takes visitor.old (λ store. of_kind kind store.resources) visitor.new }
        ensures read { OnlyReads stands is_honest failures has_round self.old self.new result };

    /// Passes the resources of the kind that have one of the texts at its leaf to the visitor, in order of id, each
    /// once. The texts are compared as they are: the caller has folded those whose leaf isn't caseExact (RFC 7643
    /// section 2.2).
    ///
    /// Fails as `by_id` does, and with `NoMemory` if the visitor can't allocate. After the error `Device` the
    /// visitor has taken a prefix of these resources; after `NoMemory` the visitor is unusable.
    ///
    /// Without an index of texts this reads all resources of the kind, once.
    fn each_of<V: Visitor>(
        &mut self,
        alloc: Global,
        kind: Kind,
        texts: &[LeafText<'_>],
        visitor: &mut V,
    ) -> Result<(), Failed<ShelfFault>>
        ensures answer { OnOk result ((store : Store) → stands self.old store → is_honest self.new
            → FoldsTo V.takes visitor.old
            (with_some_text kind texts.now store.resources) visitor.new) }
        ensures prefix { ShowsPrefix stands is_honest self.old self.new result
            V.takes visitor.old (λ store. with_some_text kind texts.now store.resources)
            visitor.new }
        ensures read { OnlyReads stands is_honest failures has_round self.old self.new result }
    {
        let mut filter = TextFilter::new(texts, visitor);
        self.each(alloc, kind, &mut filter)
    }

    /// Passes at most `count` resources of the kind to the visitor, in order of id, after the first `skipped`, and
    /// returns the number of all resources of the kind.
    ///
    /// Fails as `by_id` does, and with `NoMemory` if the visitor can't allocate or if that number overflows
    /// `usize`. After the error `Device` the visitor has taken a prefix of these resources; after `NoMemory` the
    /// visitor is unusable.
    ///
    /// A shelf that doesn't count its resources reads all resources of the kind.
    fn each_from<V: Visitor>(
        &mut self,
        alloc: Global,
        kind: Kind,
        skipped: usize,
        count: usize,
        visitor: &mut V,
    ) -> Result<usize, Failed<ShelfFault>>
        ensures answer { IfOk result (Answers stands is_honest self.old self.new (λ store total.
            TookWindow V.takes visitor.old skipped count (of_kind kind store.resources)
            visitor.new total)) }
        ensures prefix { ShowsPrefix stands is_honest self.old self.new result
            V.takes visitor.old (λ store. window skipped count (of_kind kind store.resources))
            visitor.new }
        ensures read { OnlyReads stands is_honest failures has_round self.old self.new result }
    {
        let mut window = Window::new(skipped, count, visitor);
        self.each(alloc, kind, &mut window)?;
        Ok(window.shown())
    }

    /// Makes the change and appends the row to the audit. The first audit row has number 1, and each other
    /// row has the number after the previous row.
    ///
    /// For `Change::Keep` the caller guarantees, by `name_owner` and `by_id`, that no resource with another
    /// id shares a unique name with the new resource, and that no resource of the other kind has the id of
    /// the new resource.
    ///
    /// Fails with `Device` if the device failed, and with `Full` if the last audit number, 2^63 - 1, is in
    /// use. On any error nothing is changed and no row is added.
    fn commit(
        &mut self,
        alloc: Global,
        change: Change,
        row: AuditRow,
    ) -> Result<(), Failed<ShelfFault>>
        ensures ok { OnOk result ((store : Store) → stands self.old store → AreKeyed store.resources
            → CanKeep store change
            → stands self.new (after change row store)) }
        ensures commits { Commits stands is_honest failures has_round self.old self.new result };

    /// Like `commit`, but the caller passes as `old` the stored user or group that has the id of the change,
    /// if any, so that the shelf needn't read it again. `old` is ignored for `Change::Nothing`.
    ///
    /// The default copies the change and the row, and calls `commit`. It fails with `NoMemory` if memory runs
    /// out for the copies. A shelf that only reads them needs no copies.
    fn commit_over(
        &mut self,
        alloc: Global,
        old: Option<&Resource>,
        change: &Change,
        row: &AuditRow,
    ) -> Result<(), Failed<ShelfFault>>
        ensures ok { OnOk result ((store : Store) → stands self.old store → AreKeyed store.resources
            → CanKeep store change.now
            → (is_honest self.new → IsOld store.resources change.now (option_copied old.entry))
            → stands self.new (after change.now row.now store)) }
        ensures commits { Commits stands is_honest failures has_round self.old self.new result }
    {
        let _old = old;
        let change = change.try_copy(alloc)?;
        let row = row.try_copy(alloc)?;
        self.commit(alloc, change, row)
    }

    /// Begins a round: the commits that follow are shown by reads at once, and `settle` puts all of them on the
    /// device together.
    ///
    /// Returns false if the shelf has no rounds, if one is under way, or if it can't begin one now. Then nothing
    /// has changed, and each commit is put on the device by itself.
    fn begin_round(&mut self, alloc: Global) -> bool
        ensures begun { result ≡ true → (store : Store) → stands self.old store
            → has_round self.old settled → has_round self.new (since store) }
        ensures kept { KeepsStore stands self.old self.new }
        ensures refused { result ≡ false → self.new ≡ self.old }
        ensures honest { is_honest self.new → is_honest self.old }
        ensures failures { failures self.new ≡ failures self.old }
    {
        let _alloc = alloc;
        false
    }

    /// Ends the round that is under way, if there is one: puts its commits on the device together.
    ///
    /// Fails with `Device` if the device failed, with `Full` if fewer audit numbers than rows are left, and with
    /// `NoMemory`. On any error none of the changes of the round is made, and none of its rows is added.
    fn settle(&mut self, alloc: Global) -> Result<(), Failed<ShelfFault>>
        ensures { Settles stands is_honest failures has_round self.old self.new result };

    /// Returns how often the device failed, 2^64 - 1 at most.
    fn failures(&self) -> u64
        ensures { result ≡ failures self.now };
}

/// A shelf that commits several changes together.
pub trait BatchShelf: Shelf {
    /// Makes these changes and appends their rows to the audit, in order: all of them or none.
    ///
    /// The `old` of each commit is the user or group that has the id of its change just before it is made, if any;
    /// it is ignored for `Change::Nothing`. For each `Change::Keep` the caller guarantees what [`Shelf::commit`]
    /// asks, just before it is made.
    ///
    /// Fails with `Device` if the device failed, and with `Full` if fewer audit numbers than rows are left. On
    /// any error nothing is changed and no row is added.
    fn commit_all(
        &mut self,
        alloc: Global,
        commits: &[Commit<'_>],
    ) -> Result<(), Failed<ShelfFault>>
        ensures ok { OnOk result ((store : Store) → Self.stands self.old store
            → CanKeepAll commits.now store
            → (Self.is_honest self.new → AreOld commits.now store)
            → Self.stands self.new (after_all commits.now store)) }
        ensures commits { CommitsSome Self.stands Self.is_honest Self.failures Self.has_round
            (length commits.now) self.old self.new result };
}

/// Passes the resource that a look-up found to the visitor, if there is one. After an error the visitor is
/// unusable.
fn show_found<V: Visitor>(
    alloc: Global,
    found: Option<Resource>,
    visitor: &mut V,
) -> Result<(), NoMemory>
    ensures { OnOk result (FoldsTo V.takes visitor.old (those_found found) visitor.new) }
{
    match found {
        Some(resource) => visitor.take(alloc, &resource),
        None => Ok(()),
    }
}

/// Passes these resources to the visitor, in the order of the slice. After an error the visitor is unusable.
pub fn show_all<V: Visitor>(
    alloc: Global,
    resources: &[Resource],
    visitor: &mut V,
) -> Result<(), NoMemory>
    ensures { OnOk result (FoldsTo V.takes visitor.old resources.now visitor.new) }
{
    for resource in resources {
        visitor.take(alloc, resource)?;
    }
    Ok(())
}

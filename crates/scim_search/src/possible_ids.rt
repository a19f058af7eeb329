//! The ids of the resources that can match a query, found by texts that each match has.
ghost use Rattle.std.specs.Prelude.{◌≡◌, ◌||◌, ◌++◌, ◌∷◌, true, [], ℕ, List, IfOk, IfSome, OnOk};
ghost use Rattle.std.specs.List.{list_any};
ghost use Rattle.scim_schema.specs.declared.Kind.{Kind};
ghost use Rattle.scim_schema.specs.UniqueLeaves as unique;
ghost use Rattle.scim_schema.specs.Units.{is_same_leaf};
ghost use Rattle.scim_cell.specs.Ids.{IsId, id_text};
ghost use Rattle.scim_cell.specs.Rows.{rows};
ghost use Rattle.scim_filter_texts.specs.Needed.{AreAt, has_some_text, is_at};
ghost use Rattle.scim_query.specs.Needed.{NeedsSome};
ghost use Rattle.scim_shelf.specs.Members.{is_value_of};
ghost use Rattle.scim_shelf.specs.Shelves.{IsReadFrom, OnlyReads};
ghost use Rattle.scim_search.specs.PossibleIds as spec;
ghost use Rattle.scim_search.specs.Walks.{AreCompared};

use crate::lookups::known_name;
use scim_cell::{Id, Row};
use scim_filter_texts::{NeededText, compared_text};
use scim_query::Query;
use scim_schema::{Attribute, Kind, Leaf, SubAttribute, Unit, indexed_leaves, unique_leaves};
use scim_shelf::{LeafText, Shelf, ShelfFault, Visitor};
use scim_text::{Failed, NoMemory, push};
use scim_value::Resource;
use scim_view::member_id;
use std::alloc::Global;
use std::collections::BTreeSet;

/// A visitor that adds the ids of the resources to a set.
#[derive(Drop)]
struct IdGatherer {
    ids: BTreeSet<Id>,
}

impl Visitor for IdGatherer {
    ghost takes = { spec.TakesId };

    fn take(&mut self, _alloc: Global, resource: &Resource) -> Result<(), NoMemory> {
        self.ids.insert(resource.id())?;
        Ok(())
    }
}

/// A visitor that adds the ids of the members of the groups to a set.
#[derive(Drop)]
struct MemberGatherer {
    ids: BTreeSet<Id>,
}

impl Visitor for MemberGatherer {
    ghost takes = { spec.TakesMembers };

    fn take(&mut self, _alloc: Global, resource: &Resource) -> Result<(), NoMemory> {
        let members = resource.part().values(Unit::whole(Attribute::Members));
        add_members(members, &mut self.ids)
    }
}

/// Adds the ids of these members to the set. Members whose `value` isn't the text of an id are skipped.
fn add_members(members: &[Row], ids: &mut BTreeSet<Id>) -> Result<(), NoMemory>
    ensures { OnOk result ((id : List ℕ) → IsId id → spec.has_id ids.new id
        ≡ (spec.has_id ids.old id || is_value_of (id_text id) members.now)) }
{
    for member in members {
        if let Some(id) = member_id(member) {
            ids.insert(id)?;
        }
    }
    Ok(())
}

/// Adds the id with this text to the set, if it is the text of an id.
fn with_id_text(text: &str, ids: BTreeSet<Id>) -> Result<BTreeSet<Id>, NoMemory>
    ensures kept { IfOk result (spec.IsKept ids) }
    ensures own { IfOk result (λ new. (id : List ℕ) → IsId id → text.now ≡ id_text id
        → spec.has_id new id ≡ true) }
{
    let Some(id) = Id::read(text) else {
        return Ok(ids);
    };
    let mut ids = ids;
    ids.insert(id)?;
    Ok(ids)
}

/// Adds the id of the resource that was found, if any.
fn with_found(found: Option<Resource>, ids: BTreeSet<Id>) -> Result<BTreeSet<Id>, NoMemory>
    ensures kept { IfOk result (spec.IsKept ids) }
    ensures own { IfOk result (λ new. spec.HasFound new found) }
{
    let Some(resource) = found else {
        return Ok(ids);
    };
    let mut ids = ids;
    ids.insert(resource.id())?;
    Ok(ids)
}

/// Adds the ids of the members of the group whose id has this text, if there is one.
///
/// Fails with the errors of the shelf.
fn with_members<S: Shelf>(
    alloc: Global,
    shelf: &mut S,
    text: &str,
    ids: BTreeSet<Id>,
) -> Result<BTreeSet<Id>, Failed<ShelfFault>>
    ensures ids { IsReadFrom S.stands S.is_honest shelf.old shelf.new result (λ store new.
        spec.Gathers Kind.User store.resources spec.group_leaf text.now ids new) }
    ensures read { OnlyReads S.stands S.is_honest S.failures S.has_round shelf.old shelf.new result }
{
    let Some(group) = Id::read(text) else {
        return Ok(ids);
    };
    let mut members = MemberGatherer { ids };
    shelf.lend_by_id(alloc, Kind::Group, group, &mut members)?;
    Ok(members.ids)
}

/// Adds the id of the resource that has the text at the unique leaf, if there is one.
///
/// Fails with the errors of the shelf.
fn with_owner<S: Shelf>(
    alloc: Global,
    shelf: &mut S,
    kind: Kind,
    needed: NeededText<'_>,
    ids: BTreeSet<Id>,
) -> Result<BTreeSet<Id>, Failed<ShelfFault>>
    requires { is_at (unique.unique_leaves kind) needed ≡ true }
    ensures ids { IsReadFrom S.stands S.is_honest shelf.old shelf.new result (λ store new.
        spec.Gathers kind store.resources needed.entry.leaf needed.entry.text.now ids new) }
    ensures read { OnlyReads S.stands S.is_honest S.failures S.has_round shelf.old shelf.new result }
{
    let name = known_name(alloc, needed.leaf, needed.text)?;
    let owner = shelf.name_owner(alloc, &name)?;
    Ok(with_found(owner, ids)?)
}

/// Appends the text, as comparisons use it, if it is at an indexed leaf of the kind.
fn push_if_indexed<'t>(
    kind: Kind,
    needed: NeededText<'t>,
    indexed: &mut Vec<LeafText<'t>>,
) -> Result<(), NoMemory>
    ensures { OnOk result ((texts : List _) → AreCompared texts indexed.old.items
        → AreCompared (texts ++ spec.indexed_of kind (needed.entry ∷ [])) indexed.new.items) }
{
    if !is_among(needed.leaf, indexed_leaves(kind)) {
        return Ok(());
    }
    let leaf = needed.leaf;
    let text = compared_text(leaf, needed.text);
    push(indexed, LeafText { leaf, text })
}

/// Returns those of the texts that are at indexed leaves of the kind, as comparisons use them, in the same order.
fn indexed_texts<'t>(
    alloc: Global,
    kind: Kind,
    texts: &[NeededText<'t>],
) -> Result<Vec<LeafText<'t>>, NoMemory>
    ensures { IfOk result (λ indexed.
        AreCompared (spec.indexed_of kind texts.now) indexed.items) }
{
    let mut indexed = Vec::new(alloc);
    for needed in texts {
        push_if_indexed(kind, *needed, &mut indexed)?;
    }
    Ok(indexed)
}

/// Adds the ids of the resources of the kind that have one of the texts that are at indexed leaves. A shelf without an
/// index reads all resources of the kind for this, once, if there is such a text.
///
/// Fails with the errors of the shelf.
fn with_holders<S: Shelf>(
    alloc: Global,
    shelf: &mut S,
    kind: Kind,
    texts: &[NeededText<'_>],
    ids: BTreeSet<Id>,
) -> Result<BTreeSet<Id>, Failed<ShelfFault>>
    ensures ids { IsReadFrom S.stands S.is_honest shelf.old shelf.new result (λ store new.
        spec.GathersSome kind store.resources (spec.indexed_of kind texts.now) ids new) }
    ensures read { OnlyReads S.stands S.is_honest S.failures S.has_round shelf.old shelf.new result }
{
    let own = indexed_texts(alloc, kind, texts)?;
    let indexed = own.as_slice();
    if indexed.is_empty() {
        return Ok(ids);
    }
    let mut holders = IdGatherer { ids };
    shelf.each_of(alloc, kind, indexed, &mut holders)?;
    Ok(holders.ids)
}

/// Whether the leaf is among these.
fn is_among(leaf: Leaf, leaves: &[Leaf]) -> bool
    ensures { result ≡ list_any (is_same_leaf leaf) leaves.now }
{
    leaves.contains(&leaf)
}

/// Adds the ids of the resources of the kind in which a client may see the text at its leaf, unless this is an indexed
/// leaf.
///
/// Fails with the errors of the shelf.
fn with_text<S: Shelf>(
    alloc: Global,
    shelf: &mut S,
    kind: Kind,
    needed: NeededText<'_>,
    ids: BTreeSet<Id>,
) -> Result<BTreeSet<Id>, Failed<ShelfFault>>
    requires { is_at (spec.possible_leaves kind) needed ≡ true }
    ensures ids { IsReadFrom S.stands S.is_honest shelf.old shelf.new result (λ store new.
        spec.GathersSome kind store.resources
        (spec.others_of kind (needed.entry ∷ [])) ids new) }
    ensures read { OnlyReads S.stands S.is_honest S.failures S.has_round shelf.old shelf.new result }
{
    if is_among(needed.leaf, indexed_leaves(kind)) {
        return Ok(ids);
    }
    if needed.leaf == Leaf::simple(Attribute::Id) {
        return Ok(with_id_text(needed.text.as_str(), ids)?);
    }
    if is_among(needed.leaf, unique_leaves(kind)) {
        return with_owner(alloc, shelf, kind, needed, ids);
    }
    with_members(alloc, shelf, needed.text.as_str(), ids)
}

/// Adds the ids of the resources of the kind in which a client may see one of the texts that aren't at indexed leaves.
/// Recurses once per text, so at most some hundred times: a filter has at most 4,096 bytes.
///
/// Fails with the errors of the shelf.
fn with_texts<S: Shelf>(
    alloc: Global,
    shelf: &mut S,
    kind: Kind,
    texts: &[NeededText<'_>],
    ids: BTreeSet<Id>,
) -> Result<BTreeSet<Id>, Failed<ShelfFault>>
    requires { AreAt (spec.possible_leaves kind) texts.now }
    ensures ids { IsReadFrom S.stands S.is_honest shelf.old shelf.new result (λ store new.
        spec.GathersSome kind store.resources (spec.others_of kind texts.now) ids new) }
    ensures read { OnlyReads S.stands S.is_honest S.failures S.has_round shelf.old shelf.new result }
{
    match texts {
        [] => Ok(ids),
        [needed, rest @ ..] => {
            let more = with_text(alloc, shelf, kind, *needed, ids)?;
            with_texts(alloc, shelf, kind, rest, more)
        }
    }
}

/// Returns the ids of all resources of the kind in which a client may see one of the texts at its leaf; there may be
/// others among them. Reads no resources but those that have one of the texts, and the groups whose ids are among
/// the texts.
///
/// Fails with the errors of the shelf.
pub(crate) fn possible_ids<S: Shelf>(
    alloc: Global,
    shelf: &mut S,
    kind: Kind,
    texts: &[NeededText<'_>],
) -> Result<BTreeSet<Id>, Failed<ShelfFault>>
    requires { AreAt (spec.possible_leaves kind) texts.now }
    ensures ids { IsReadFrom S.stands S.is_honest shelf.old shelf.new result (λ store ids.
        spec.HasAll kind store.resources (λ p. has_some_text texts.now (rows p)) ids) }
    ensures read { OnlyReads S.stands S.is_honest S.failures S.has_round shelf.old shelf.new result }
{
    let ids = with_texts(alloc, shelf, kind, texts, BTreeSet::new(alloc))?;
    with_holders(alloc, shelf, kind, texts, ids)
}

/// Appends the leaves.
fn push_leaves(leaves: &mut Vec<Leaf>, others: &[Leaf]) -> Result<(), NoMemory>
    ensures { OnOk result (leaves.new.items ≡ leaves.old.items ++ others.now) }
{
    for leaf in others {
        push(leaves, *leaf)?;
    }
    Ok(())
}

/// Returns `id`, the unique leaves and the indexed leaves of the kind.
fn own_leaves(alloc: Global, kind: Kind) -> Result<Vec<Leaf>, NoMemory>
    ensures { IfOk result (λ leaves. leaves.items ≡ spec.own_leaves kind) }
{
    let mut leaves = Vec::new(alloc);
    push(&mut leaves, Leaf::simple(Attribute::Id))?;
    push_leaves(&mut leaves, unique_leaves(kind))?;
    push_leaves(&mut leaves, indexed_leaves(kind))?;
    Ok(leaves)
}

/// Returns `groups.value` for users, and then the leaves of [`own_leaves`].
fn possible_leaves(alloc: Global, kind: Kind) -> Result<Vec<Leaf>, NoMemory>
    ensures { IfOk result (λ leaves. leaves.items ≡ spec.possible_leaves kind) }
{
    let own = own_leaves(alloc, kind)?;
    match kind {
        Kind::User => {
            let mut leaves = Vec::new(alloc);
            push(
                &mut leaves,
                Leaf::of(Attribute::Groups, SubAttribute::Value),
            )?;
            push_leaves(&mut leaves, own.as_slice())?;
            Ok(leaves)
        }
        Kind::Group => Ok(own),
    }
}

/// Returns texts of which each match of the kind must have one, each at a leaf by whose texts resources are looked
/// up; `None` if the query requires no such texts. Ids of groups are returned only if no other texts are required,
/// since a group may have many members.
pub(crate) fn possible_texts(
    alloc: Global,
    kind: Kind,
    query: &Query,
) -> Result<Option<Vec<NeededText<'_>>>, NoMemory>
    ensures needed { IfOk result (λ o. IfSome o (λ texts.
        NeedsSome query.now.filter texts.items)) }
    ensures leaves { IfOk result (λ o. IfSome o (λ texts.
        AreAt (spec.possible_leaves kind) texts.items)) }
{
    if query.filter.is_none() {
        return Ok(None);
    }
    let own = own_leaves(alloc, kind)?;
    if let Some(texts) = query.needed_texts(alloc, own.as_slice())? {
        return Ok(Some(texts));
    }
    let all = possible_leaves(alloc, kind)?;
    query.needed_texts(alloc, all.as_slice())
}

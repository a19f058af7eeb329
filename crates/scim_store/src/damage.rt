//! Tests whether the tables of a version have exactly the rows of valid resources, and finds the least damaged
//! id.

ghost use Rattle.std.specs.Prelude.{◌≡◌, ◌↔◌, ◌||◌, [], ◌∷◌, ℕ, List, true, false, map, IfOk, IfSome, Option, None, IsTrue, All, AllPairs, IsPermutation, IsUtf8};
ghost use Rattle.std.specs.Ordering.{nat_cmp};
ghost use Rattle.std.specs.Cmp.Lexicographic.{slice_cmp};
ghost use Rattle.std.specs.BTreeSet.{contains};
ghost use Rattle.std.specs.List.Sorted.{IsStrictlySortedBy};
ghost use Rattle.std.specs.Option.{option_copied};
ghost use Rattle.sqlite.specs.declared.types.Value.TheVariants as sql_value;
ghost use Rattle.sqlite.specs.Order.{column};
ghost use Rattle.scim_cell.specs.Content.{Content};
ghost use Rattle.scim_cell.specs.Ids.{IsId, id_text};
ghost use Rattle.scim_value.specs.Members.{lists_value};
ghost use Rattle.scim_value.specs.Uniqueness.{name_of};
ghost use Rattle.scim_store_rows.specs.Audit.{kind_number as spec_number};
ghost use Rattle.scim_store_rows.specs.AuditBack.{ReadsBack};
ghost use Rattle.scim_store_rows.specs.Stands.{is_among, MayHave};
ghost use Rattle.std.specs.List.{IsDistinct};
ghost use Rattle.scim_store_tables.specs.declared.versions.Version as declared;
ghost use Rattle.scim_store.specs.Owners.{is_owner};
ghost use Rattle.scim_store.specs.Damage as spec;
ghost use Rattle.scim_store.specs.code.Damage as code;

use crate::changes::values_of;
use crate::row_owners::{has_text, have_owners, note_owners, rows_of, value_in};
use scim_cell::{Atom, Id, Text};
use scim_json::{door_code_of, has_extension, read_kept};
use scim_schema::{Schema, unique_leaves_by_name};
use scim_store_rows::kind_number;
use scim_store_tables::Version;
use scim_text::{Failed, NoMemory, push};
use scim_value::{Resource, UniqueName, known_text};
use sqlite::Row;
use sqlite::types::ValueRef;
use std::alloc::Global;
use std::collections::BTreeSet;
use std::marker::Model;

/// The result of testing the rows of resources.
#[derive(Clone, Copy, PartialEq, Eq)]
pub(crate) enum Judged {
    /// The rows are exactly the rows of valid resources.
    Sound,
    /// The rows aren't valid: this is the least id that has rows, but not exactly the rows of one valid
    /// resource.
    Damaged(Id),
    /// The rows aren't valid, although the rows of each id are valid: some row belongs to no id, or two
    /// resources share a unique name.
    Foreign,
}

/// The rows of `resource`, `taken`, `member` and `secret`, as `read_tables` of `scim_store_tables` returns them.
/// Version 1 has no rows of `secret`.
#[derive(Drop)]
pub(crate) struct ResourceRows {
    /// The columns id, kind and document of each resource.
    pub resources: Vec<Row>,
    /// The columns owner, attribute and text of each unique name.
    pub names: Vec<Row>,
    /// The columns group and value of each member.
    pub members: Vec<Row>,
    /// The columns id and door code of each user that has one.
    pub secrets: Vec<Row>,
}

impl Model for ResourceRows {
    ghost use Rattle.scim_store.specs.Damage.{Tables};

    ghost Value = { Tables };

    ghost view = { λ t. record { resources = t.resources.items; names = t.names.items; members = t.members.items; secrets = t.secrets.items } };
}

/// Whether a row is exactly these two texts.
fn is_pair(row: &Row, first: &str, second: &str) -> bool
    ensures { result ≡ code.is_pair first.now second.now row.now }
{
    row.column_count() == 2 && has_text(row, 0, first) && has_text(row, 1, second)
}

/// Whether a row is exactly these three texts.
fn is_triple(row: &Row, first: &str, second: &str, third: &str) -> bool
    ensures { result ≡ code.is_triple first.now second.now third.now row.now }
{
    row.column_count() == 3
        && has_text(row, 0, first)
        && has_text(row, 1, second)
        && has_text(row, 2, third)
}

/// Returns the unique names of a resource, in byte order of the names of their attributes.
pub(crate) fn ordered_names(alloc: Global, resource: &Resource) -> Result<Vec<UniqueName>, NoMemory>
    ensures { IfOk result (λ v. map name_of v.items ≡ code.ordered_names resource.now) }
{
    let mut names = Vec::new(alloc);
    for leaf in unique_leaves_by_name(resource.kind()) {
        if let Some(Atom::Text(text)) = resource.get(*leaf, 0) {
            let text = known_text(alloc, resource.kind(), *leaf, text.as_str())?;
            push(&mut names, UniqueName { leaf: *leaf, text })?;
        }
    }
    Ok(names)
}

/// Whether these are the rows of the unique names `names` of the resource with the id, in the same order.
pub(crate) fn are_names(rows: &[Row], id: &str, names: &[UniqueName]) -> bool
    ensures { result ≡ true ↔ rows.now ≡ map (code.owned_name id.now) (map name_of names.now) }
{
    if rows.len() != names.len() {
        return false;
    }
    for at in 0..names.len() {
        let name = &names[at];
        if !is_triple(
            &rows[at],
            id,
            name.leaf.attribute.name(),
            name.text.as_str(),
        ) {
            return false;
        }
    }
    true
}

/// Whether these are the rows of the member values `values` of the group with the id, in the same order.
pub(crate) fn are_members(rows: &[Row], id: &str, values: &[Text]) -> bool
    ensures { result ≡ true ↔ rows.now ≡ map (code.owned_member id.now) values.now }
{
    if rows.len() != values.len() {
        return false;
    }
    for at in 0..values.len() {
        if !is_pair(&rows[at], id, values[at].as_str()) {
            return false;
        }
    }
    true
}

/// Whether these are the rows of the door code of the user with the id: one row, or none if there is no code.
pub(crate) fn are_secrets(rows: &[Row], id: &str, door_code: Option<&str>) -> bool
    ensures { result ≡ true ↔ rows.now ≡ code.owned_code id.now (option_copied door_code.entry) }
{
    match door_code {
        Some(text) => {
            if rows.len() != 1 {
                return false;
            }
            is_pair(&rows[0], id, text)
        }
        None => rows.is_empty(),
    }
}

/// Returns the values that a resource lists among its members, sorted, each once.
pub(crate) fn listed_values(alloc: Global, resource: &Resource) -> Result<Vec<Text>, NoMemory>
    ensures listed { IfOk result (λ values. (v : List ℕ)
        → is_among v values.items ≡ lists_value v resource.now) }
    ensures rising { IfOk result (λ values. IsStrictlySortedBy (slice_cmp nat_cmp) values.items) }
{
    let values = values_of(alloc, resource)?;
    let mut listed = Vec::new(alloc);
    for value in &values {
        push(&mut listed, Text::copy_of(alloc, value)?)?;
    }
    Ok(listed)
}

/// Whether the value at a place of a row is the number.
fn has_number(row: &Row, place: usize, number: u32) -> bool
    ensures { result ≡ code.is_number number (column row.now place) }
{
    match value_in(row, place) {
        ValueRef::Int(value) => value == i64::from(number),
        ValueRef::Null => false,
        ValueRef::Real(_) => false,
        ValueRef::Text(_) => false,
        ValueRef::Blob(_) => false,
    }
}

/// Whether a row of `resource` belongs to the resource and has this document.
fn is_row_of(row: &Row, resource: &Resource, document: &str) -> bool
    ensures { result ≡ code.is_row (id_text resource.now.id)
        (spec_number resource.now.kind) document.now row.now }
{
    let mut buffer = [0; Id::TEXT_LENGTH];
    row.column_count() == 3
        && has_text(row, 0, resource.id().write(&mut buffer))
        && has_number(row, 1, kind_number(resource.kind()))
        && has_text(row, 2, document)
}

/// Returns the text in the column at `place`; `None` if that column isn't a text in UTF-8.
pub(crate) fn str_at(row: &Row, place: usize) -> Option<&str>
    ensures { ReadsBack IsUtf8 sql_value.Text (column row.now place) (option_copied result) }
{
    match value_in(row, place) {
        ValueRef::Text(bytes) => str::from_utf8(bytes).ok(),
        ValueRef::Null => None,
        ValueRef::Int(_) => None,
        ValueRef::Real(_) => None,
        ValueRef::Blob(_) => None,
    }
}

/// Whether the tables of a version may have the resource. Version 1 has no values of the site extension.
fn may_have(version: Version, resource: &Resource) -> bool
    ensures { result ≡ true ↔ MayHave version resource.now }
{
    match version {
        Version::One => !has_extension(resource.part(), Schema::SiteUser),
        Version::Two => true,
    }
}

/// Reads a resource from its row and its door code, if any. Returns `None` if the row isn't the row of a valid
/// resource with this door code and a location below the base URI, or the tables of the version can't have it.
pub(crate) fn read_resource(
    alloc: Global,
    version: Version,
    base: &str,
    row: &Row,
    door_code: Option<&str>,
) -> Result<Option<Resource>, NoMemory>
    ensures some { IfOk result (λ found. IfSome found
        (code.IsRowOf version base.now row.now (option_copied door_code.entry))) }
    ensures none { IfOk result (λ found. found ≡ None → (c : Content)
        → code.IsRowOf version base.now row.now (option_copied door_code.entry) c → ⊥) }
{
    let Some(document) = str_at(row, 2) else {
        return Ok(None);
    };
    let resource = match read_kept(alloc, base, document, door_code) {
        Ok(resource) => resource,
        Err(Failed::Because(_)) => return Ok(None),
        Err(Failed::NoMemory) => return Err(NoMemory),
    };
    if !is_row_of(row, &resource, document) {
        return Ok(None);
    }
    if may_have(version, &resource) {
        Ok(Some(resource))
    } else {
        Ok(None)
    }
}

/// Whether `names`, `members` and `secrets` are exactly the rows of the unique names, of the member values and
/// of the door code of the resource: names in byte order of attribute, members in byte order of value.
fn has_rows(
    alloc: Global,
    resource: &Resource,
    names: &[Row],
    members: &[Row],
    secrets: &[Row],
) -> Result<bool, NoMemory>
    ensures yes { IfOk result (λ has. has ≡ true
        → code.HasRows resource.now names.now members.now secrets.now) }
    ensures no { IfOk result (λ has. has ≡ false
        → code.HasRows resource.now names.now members.now secrets.now → ⊥) }
{
    let mut buffer = [0; Id::TEXT_LENGTH];
    let id = resource.id().write(&mut buffer);
    let unique = ordered_names(alloc, resource)?;
    let values = listed_values(alloc, resource)?;
    if !are_names(names, id, unique.as_slice()) {
        return Ok(false);
    }
    if !are_members(members, id, values.as_slice()) {
        return Ok(false);
    }
    Ok(are_secrets(secrets, id, door_code_of(resource)))
}

/// Returns the door code in these rows of one id, if any. Returns the outer `None` if there is more than one
/// row, or the door code isn't a text in UTF-8.
fn code_in(secrets: &[Row]) -> Option<Option<&str>>
    ensures some { IfSome result (λ found. code.HasCode secrets.now (option_copied found)) }
    ensures none { result ≡ None → (found : Option (List ℕ)) → code.HasCode secrets.now found → ⊥ }
{
    if secrets.is_empty() {
        return Some(None);
    }
    if secrets.len() > 1 {
        return None;
    }
    match str_at(&secrets[0], 1) {
        Some(text) => Some(Some(text)),
        None => None,
    }
}

/// Whether there are no rows, or exactly the rows of one valid resource with a location below the base URI, in
/// the tables of a version.
fn are_of_one(
    alloc: Global,
    version: Version,
    base: &str,
    resources: &[Row],
    names: &[Row],
    members: &[Row],
    secrets: &[Row],
) -> Result<bool, NoMemory>
    ensures yes { IfOk result (λ holds. holds ≡ true
        → code.AreOfOne version base.now resources.now names.now members.now secrets.now) }
    ensures no { IfOk result (λ holds. holds ≡ false
        → code.AreOfOne version base.now resources.now names.now members.now secrets.now → ⊥) }
{
    match resources {
        [] => Ok(names.is_empty() && members.is_empty() && secrets.is_empty()),
        [row] => {
            let Some(door_code) = code_in(secrets) else {
                return Ok(false);
            };
            match read_resource(alloc, version, base, row, door_code)? {
                Some(resource) => has_rows(alloc, &resource, names, members, secrets),
                None => Ok(false),
            }
        }
        _ => Ok(false),
    }
}

/// For each table, the index after the rows of the id that was looked up last.
#[derive(Clone, Copy)]
struct Places {
    resources: usize,
    names: usize,
    members: usize,
    secrets: usize,
}

/// Whether an id has no rows, or exactly the rows of one valid resource with a location below the base URI, in
/// the tables of a version. Sets `places` after the rows of the id.
fn holds_at(
    alloc: Global,
    version: Version,
    base: &str,
    tables: &ResourceRows,
    id: Id,
    places: &mut Places,
) -> Result<bool, NoMemory>
    ensures id { IsId id }
    ensures yes { spec.AreOrdered tables.now
        → IfOk result (λ holds. holds ≡ true → spec.HoldsAt version base.now tables.now id) }
    ensures no { spec.AreOrdered tables.now
        → IfOk result (λ holds. holds ≡ false
        → spec.HoldsAt version base.now tables.now id → ⊥) }
{
    let mut buffer = [0; Id::TEXT_LENGTH];
    let text = id.write(&mut buffer);
    let resources = rows_of(tables.resources.as_slice(), text, &mut places.resources);
    let names = rows_of(tables.names.as_slice(), text, &mut places.names);
    let members = rows_of(tables.members.as_slice(), text, &mut places.members);
    let secrets = rows_of(tables.secrets.as_slice(), text, &mut places.secrets);
    are_of_one(alloc, version, base, resources, names, members, secrets)
}

/// Returns the least id that has rows, but not exactly the rows of one valid resource; `None` if there isn't
/// one. Tests only the ids in `ids`: every other id must have no rows, or valid rows.
fn first_damage(
    alloc: Global,
    version: Version,
    base: &str,
    tables: &ResourceRows,
    ids: &BTreeSet<Id>,
) -> Result<Option<Id>, NoMemory>
    requires others { (id : List ℕ) → IsId id → contains (slice_cmp nat_cmp) ids.now id ≡ false
        → spec.HoldsAt version base.now tables.now id }
    ensures some { spec.AreOrdered tables.now
        → IfOk result (λ found. IfSome found (spec.IsLeastDamage version base.now tables.now)) }
    ensures none { spec.AreOrdered tables.now
        → IfOk result (λ found. found ≡ None → (id : List ℕ) → IsId id
        → spec.HoldsAt version base.now tables.now id) }
    ensures ids { IfOk result (λ found. found ≡ None → All IsId ids.now.keys) }
    ensures rising { IsStrictlySortedBy (slice_cmp nat_cmp) ids.now.keys }
{
    let mut places = Places {
        resources: 0,
        names: 0,
        members: 0,
        secrets: 0,
    };
    for id in ids {
        if !holds_at(alloc, version, base, tables, *id, &mut places)? {
            return Ok(Some(*id));
        }
    }
    Ok(None)
}

/// Returns the ids in the first columns of the rows of the tables.
fn owners(alloc: Global, tables: &ResourceRows) -> Result<BTreeSet<Id>, NoMemory>
    ensures { IfOk result (λ ids. (id : List ℕ) → IsId id → contains (slice_cmp nat_cmp) ids id
        ≡ (((is_owner tables.now.resources id || is_owner tables.now.names id)
        || is_owner tables.now.members id) || is_owner tables.now.secrets id)) }
{
    let mut ids = BTreeSet::new(alloc);
    note_owners(tables.resources.as_slice(), &mut ids)?;
    note_owners(tables.names.as_slice(), &mut ids)?;
    note_owners(tables.members.as_slice(), &mut ids)?;
    note_owners(tables.secrets.as_slice(), &mut ids)?;
    Ok(ids)
}

/// Returns the text in the column at `place`; `None` if that column isn't a text.
fn text_at(row: &Row, place: usize) -> Option<&[u8]>
    ensures { option_copied result ≡ code.text_in (column row.now place) }
{
    match value_in(row, place) {
        ValueRef::Text(text) => Some(text),
        ValueRef::Null => None,
        ValueRef::Int(_) => None,
        ValueRef::Real(_) => None,
        ValueRef::Blob(_) => None,
    }
}

/// Whether each row of a unique name has an attribute and a text, and no two rows have both the same. The set
/// is ordered, so no choice of names makes a look-up slow.
pub(crate) fn are_apart(alloc: Global, names: &[Row]) -> Result<bool, NoMemory>
    ensures yes { IfOk result (λ apart. apart ≡ true → IsDistinct spec.is_shared names.now) }
    ensures no { IfOk result (λ apart. apart ≡ false → All code.HasName names.now
        → IsDistinct spec.is_shared names.now → ⊥) }
{
    let mut known = BTreeSet::new(alloc);
    for name in names {
        let Some(attribute) = text_at(name, 1) else {
            return Ok(false);
        };
        let Some(text) = text_at(name, 2) else {
            return Ok(false);
        };
        if !known.insert((attribute, text))? {
            return Ok(false);
        }
    }
    Ok(true)
}

/// Whether each row has an id in its first column.
fn are_owned(tables: &ResourceRows) -> bool
    ensures { result ≡ true ↔ code.AreAllOwned tables.now }
{
    if !have_owners(tables.resources.as_slice()) {
        return false;
    }
    if !have_owners(tables.names.as_slice()) {
        return false;
    }
    if !have_owners(tables.members.as_slice()) {
        return false;
    }
    have_owners(tables.secrets.as_slice())
}

/// Whether the rows are exactly the rows of valid resources. The rows of each id must be valid.
fn are_sound(alloc: Global, tables: &ResourceRows) -> Result<bool, NoMemory>
    ensures owned { IfOk result (λ sound. sound ≡ true → code.AreAllOwned tables.now) }
    ensures apart { IfOk result (λ sound. sound ≡ true
        → IsDistinct spec.is_shared tables.now.names) }
    ensures no { IfOk result (λ sound. sound ≡ false → (version : declared.Version)
        (base : List ℕ) → spec.AreSound version base tables.now → ⊥) }
{
    if !are_owned(tables) {
        return Ok(false);
    }
    are_apart(alloc, tables.names.as_slice())
}

/// Tests whether the rows of the tables of a version are exactly the rows of valid resources with locations
/// below the base URI. The rows must be sorted: resources by id; names by owner, attribute and text; members by
/// group and value; door codes by id.
pub(crate) fn judge(
    alloc: Global,
    version: Version,
    base: &str,
    tables: &ResourceRows,
) -> Result<Judged, NoMemory>
    ensures judged { spec.AreOrdered tables.now
        → IfOk result (spec.Judges version base.now tables.now) }
{
    let ids = owners(alloc, tables)?;
    if let Some(id) = first_damage(alloc, version, base, tables, &ids)? {
        return Ok(Judged::Damaged(id));
    }
    if are_sound(alloc, tables)? {
        Ok(Judged::Sound)
    } else {
        Ok(Judged::Foreign)
    }
}

/// Law: if the rows are exactly the rows of valid resources, each id has no rows, or exactly the rows of one
/// valid resource. So if an id is damaged, the rows aren't the rows of valid resources.
pub fn sound_rows_hold()
    ensures { spec.SoundRowsHold }
{}

/// Law: if each row belongs to an id, the rows of each id are valid and no two rows have the same unique
/// name, then the rows are exactly the rows of valid resources.
pub fn holding_rows_are_sound()
    ensures { spec.HoldingRowsAreSound }
{}

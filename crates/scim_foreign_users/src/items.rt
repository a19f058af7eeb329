//! What an item of an export says of itself: its kind, its id, and its moments.
ghost use Rattle.std.specs.Prelude.{◌≡◌, option_map, codes};
ghost use Rattle.scim_body.specs.View.{view, items_view, members_view};
ghost use Rattle.scim_cell.specs.Ids.{IsId};
ghost use Rattle.scim_foreign_users.specs.Items as spec;
ghost use Rattle.scim_foreign_users.specs.Items.{TakesId};

use scim_body::{Member, Tree, value_named};
use scim_cell::Id;
use scim_schema::{Kind, core_schema};
use scim_text::{Moment, read_moment, same_name};

/// The text under the first key that is `name` in any case; `None` if there is no such key, or its value isn't
/// a text.
fn text_named<'a>(members: &[Member<'a>], name: &str) -> Option<&'a str>
    ensures { option_map (λ t. t.now) result ≡ spec.text_named name.now (members_view members.now) }
{
    value_named(members, name)?.as_str()
}

/// The text of a sub-attribute of `meta`, if there is one.
fn meta_text<'a>(members: &[Member<'a>], name: &str) -> Option<&'a str>
    ensures { option_map (λ t. t.now) result ≡ spec.meta_text name.now (members_view members.now) }
{
    text_named(value_named(members, "meta")?.as_object()?, name)
}

/// Whether the value is the URN, in any case.
fn is_urn(value: &Tree<'_>, urn: &str) -> bool
    ensures { result ≡ spec.is_urn urn.now (view value.now) }
{
    match value.as_str() {
        Some(text) => same_name(urn, text),
        None => false,
    }
}

/// Whether one of the values is the URN.
fn has_urn(values: &[Tree<'_>], urn: &str) -> bool
    ensures { result ≡ spec.has_urn urn.now (items_view values.now) }
{
    for value in values {
        if is_urn(value, urn) {
            return true;
        }
    }
    false
}

/// Whether `schemas` lists the core schema of the kind (RFC 7643 section 3).
fn has_schema(members: &[Member<'_>], kind: Kind) -> bool
    ensures { result ≡ spec.has_schema kind (members_view members.now) }
{
    match value_named(members, "schemas") {
        Some(value) => match value.as_array() {
            Some(schemas) => has_urn(schemas, core_schema(kind).urn()),
            None => false,
        },
        None => false,
    }
}

/// The kind that `schemas` names; `None` if it names neither kind.
fn kind_of_schemas(members: &[Member<'_>]) -> Option<Kind>
    ensures { result ≡ spec.kind_of_schemas (members_view members.now) }
{
    if has_schema(members, Kind::Group) {
        Some(Kind::Group)
    } else if has_schema(members, Kind::User) {
        Some(Kind::User)
    } else {
        None
    }
}

/// The kind of an item: the one that `meta.resourceType` names, or else the one that `schemas` names (RFC 7643
/// sections 3 and 3.1); `None` if there is none.
pub(crate) fn kind_of(members: &[Member<'_>]) -> Option<Kind>
    ensures { result ≡ spec.kind_of (members_view members.now) }
{
    if let Some(name) = meta_text(members, "resourceType")
        && let Some(kind) = Kind::named(name)
    {
        return Some(kind);
    }
    kind_of_schemas(members)
}

/// The id of the resource that is made of an item: the item's own, if it has the form of an id, or `fresh`.
pub(crate) fn id_of(members: &[Member<'_>], fresh: Id) -> Id
    ensures id { TakesId (spec.text_named (codes "id") (members_view members.now)) fresh result }
    ensures valid { IsId result }
{
    match text_named(members, "id") {
        Some(text) => Id::read(text).unwrap_or(fresh),
        None => fresh,
    }
}

/// The moment that a text denotes, in whole seconds; `None` if it denotes none from 1970 on.
fn moment_in(text: &str) -> Option<Moment>
    ensures { result ≡ spec.moment_in text.now }
{
    Moment::new(read_moment(text).ok()?.second)
}

/// The moment under `name` in `meta`, without its fraction of a second; `now` if there is none from 1970 on.
pub(crate) fn moment_named(members: &[Member<'_>], name: &str, now: Moment) -> Moment
    ensures { result ≡ spec.moment_named name.now now (members_view members.now) }
{
    match meta_text(members, name) {
        Some(text) => moment_in(text).unwrap_or(now),
        None => now,
    }
}

//! Reads searches from request bodies (RFC 7644 section 3.4.3).
ghost use Rattle.std.specs.Prelude.{◌≡◌, codes, IfOk, OnOk, None, Some, ok_or, option_and_then};
ghost use Rattle.std.specs.Option.{option_copied};
ghost use Rattle.serde_json.specs.Find.{as_array, as_object, as_str};
ghost use Rattle.serde_json.specs.Read.{read};
ghost use Rattle.scim_body.specs.View.{view, items_view, members_view};
ghost use Rattle.scim_text.specs.Failures.{UnlessMemory};
ghost use Rattle.scim_body.specs.BodyNames.{items_list, listed};
ghost use Rattle.scim_body.specs.BodyValues.{collected, given_named};
ghost use Rattle.scim_body.specs.Given.{after};
ghost use Rattle.scim_exchange.specs.Refused.{Tells};
ghost use Rattle.scim_exchange.specs.Searches.{IsQuery, sought, sought_of};
ghost use Rattle.scim_exchange.specs.SearchBodies as spec;
ghost use Rattle.scim_exchange.specs.code.Views.{texts_in, lists_in, settings_in, IsWrong};

use crate::attribute_lists::AttributeLists;
use crate::paging::{Arrangement, arranged};
use crate::searches::{Settings, filter_of, query_of};
use json::Scratch;
use scim_audit::Refusal;
use scim_body::{Member, NotJson, Tree, given_named, is_absent, is_twice};
use scim_query::Query;
use scim_schema::Kind;
use scim_text::{Failed, push};
use std::alloc::Global;
use std::slice;

/// Whether a key of a search occurs twice, in any spelling.
#[tactic(auto, unfolding(crate::specs::SearchBodies::keys_clash))]
fn keys_clash(members: &[Member<'_>]) -> bool
    ensures { result ≡ spec.keys_clash (members_view members.now) }
{
    is_twice(members, "attributes")
        || is_twice(members, "excludedAttributes")
        || is_twice(members, "filter")
        || is_twice(members, "sortBy")
        || is_twice(members, "sortOrder")
        || is_twice(members, "startIndex")
        || is_twice(members, "count")
}

/// Returns the text under a key, if given. Fails with `MessageValue` if the value isn't a text.
#[tactic(auto, unfolding(crate::specs::SearchBodies::text_given))]
fn text_given<'r>(members: &[Member<'r>], name: &str) -> Result<Option<&'r str>, Refusal>
    ensures { Tells (λ due text. option_copied text ≡ due)
        (spec.text_given (given_named name.now (members_view members.now))) result }
{
    let Some(value) = given_named(members, name) else {
        return Ok(None);
    };
    match value.as_str() {
        Some(text) => Ok(Some(text)),
        None => Err(Refusal::MessageValue),
    }
}

/// Returns the number under a key, if given. Fails with `MessageValue` if it isn't a signed 64-bit integer.
#[tactic(auto, unfolding(crate::specs::SearchBodies::integer_given))]
fn integer_given(members: &[Member<'_>], name: &str) -> Result<Option<i64>, Refusal>
    ensures { result ≡ spec.integer_given (given_named name.now (members_view members.now)) }
{
    let Some(value) = given_named(members, name) else {
        return Ok(None);
    };
    match value.as_i64() {
        Some(number) => Ok(Some(number)),
        None => Err(Refusal::MessageValue),
    }
}

/// Appends the text of a list's item; null and `[]` append nothing.
///
/// Fails with `MessageValue` if the item is neither a text nor null nor `[]`. After an error `texts` is
/// unchanged.
fn add_item<'r>(value: &Tree<'r>, texts: &mut Vec<&'r str>) -> Result<(), Failed<Refusal>>
    ensures given { OnOk result (after (texts_in texts.old) (spec.text_item (view value.now))
        ≡ Some (texts_in texts.new)) }
    ensures wrong { IsWrong (spec.text_item (view value.now)) result }
{
    if is_absent(value) {
        return Ok(());
    }
    match value.as_str() {
        Some(text) => {
            push(texts, text)?;
            Ok(())
        }
        None => Err(Failed::Because(Refusal::MessageValue)),
    }
}

/// Returns the texts of a list's items, without the items that are null or `[]`.
///
/// Fails with `MessageValue` if an item is neither a text nor null nor `[]`.
fn texts_of<'r>(alloc: Global, items: &[Tree<'r>]) -> Result<Vec<&'r str>, Failed<Refusal>>
    ensures given { IfOk result (λ v. collected spec.text_item (items_list (items_view items.now))
        ≡ Some (texts_in v)) }
    ensures wrong { IsWrong (collected spec.text_item (items_list (items_view items.now))) result }
{
    let mut texts = Vec::new(alloc);
    for item in items {
        add_item(item, &mut texts)?;
    }
    Ok(texts)
}

/// Returns the texts of a value, which is a list of texts or a single text; null and `[]` add no text.
///
/// Fails with `MessageValue` if the value is none of these, or if an item of the list is neither a text nor
/// null nor `[]`.
fn texts_in_value<'r>(alloc: Global, value: &Tree<'r>) -> Result<Vec<&'r str>, Failed<Refusal>>
    ensures given { IfOk result
        (λ v. collected spec.text_item (listed (as_array (view value.now)) (view value.now))
        ≡ Some (texts_in v)) }
    ensures wrong { IsWrong (collected spec.text_item
        (listed (as_array (view value.now)) (view value.now))) result }
{
    match value.as_array() {
        Some(items) => texts_of(alloc, items),
        None => texts_of(alloc, slice::from_ref(value)),
    }
}

/// Returns the texts under a key; empty if the key isn't given.
///
/// Fails with `MessageValue` if the value is neither a text nor a list of texts.
#[tactic(auto, unfolding(crate::specs::SearchBodies::texts_given))]
fn texts_given<'r>(
    alloc: Global,
    members: &[Member<'r>],
    name: &str,
) -> Result<Vec<&'r str>, Failed<Refusal>>
    ensures { UnlessMemory (Tells (λ due v. texts_in v ≡ due)
        (spec.texts_given (given_named name.now (members_view members.now)))) result }
{
    match given_named(members, name) {
        Some(value) => texts_in_value(alloc, value),
        None => Ok(Vec::new(alloc)),
    }
}

/// Returns the sorting and paging of the search. Fails with `MessageValue` if a value isn't allowed for its
/// key.
#[tactic(auto, unfolding(crate::specs::SearchBodies::arrangement_in))]
fn arrangement_in(kind: Kind, members: &[Member<'_>]) -> Result<Arrangement, Refusal>
    ensures { result ≡ spec.arrangement_in kind (members_view members.now) }
{
    let sort_by = text_given(members, "sortBy")?;
    let sort_order = text_given(members, "sortOrder")?;
    let start_index = integer_given(members, "startIndex")?;
    let count = integer_given(members, "count")?;
    arranged(kind, sort_by, sort_order, start_index, count)
}

/// Returns the attribute lists of the search.
///
/// Fails with `MessageValue` if the value of an attribute list is neither a text nor a list of texts.
#[tactic(auto, unfolding(crate::specs::SearchBodies::lists_in))]
fn lists_in<'r>(
    alloc: Global,
    members: &[Member<'r>],
) -> Result<AttributeLists<'r>, Failed<Refusal>>
    ensures { UnlessMemory (Tells (λ due lists. lists_in lists ≡ due)
        (spec.lists_in (members_view members.now))) result }
{
    let attributes = texts_given(alloc, members, "attributes")?;
    let excluded = texts_given(alloc, members, "excludedAttributes")?;
    Ok(AttributeLists {
        attributes,
        excluded,
    })
}

/// Returns the sorting and paging of the search, after a check that its filter, if given, is a text.
///
/// Fails with `MessageValue` if the filter isn't a text or another value isn't allowed for its key.
#[tactic(auto, unfolding(crate::specs::SearchBodies::words_in))]
fn words_in(kind: Kind, members: &[Member<'_>]) -> Result<Arrangement, Refusal>
    ensures { result ≡ spec.words_in kind (members_view members.now) }
{
    text_given(members, "filter")?;
    arrangement_in(kind, members)
}

/// Returns the settings of the search: its attribute lists, sorting and paging.
///
/// Fails with `MessageValue` if a value isn't allowed for its key.
#[tactic(auto, unfolding(crate::specs::SearchBodies::settings_in))]
fn settings_in<'r>(
    alloc: Global,
    kind: Kind,
    members: &[Member<'r>],
) -> Result<Settings<'r>, Failed<Refusal>>
    ensures { UnlessMemory (Tells (λ due settings. settings_in settings ≡ due)
        (spec.settings_in kind (members_view members.now))) result }
{
    match words_in(kind, members) {
        Ok(arrangement) => {
            let lists = lists_in(alloc, members)?;
            Ok(Settings { lists, arrangement })
        }
        Err(refusal) => Err(Failed::Because(refusal)),
    }
}

/// Returns the text of the filter; `None` if the filter isn't given or isn't a text.
fn filter_text<'r>(members: &[Member<'r>]) -> Option<&'r str>
    ensures { option_copied result
        ≡ option_and_then as_str (given_named (codes "filter") (members_view members.now)) }
{
    given_named(members, "filter")?.as_str()
}

/// Returns the query that the members of a search ask for. No key of a search may occur twice in them.
///
/// Fails with `Filter` if the filter is invalid. Otherwise fails with `MessageValue` if another value isn't
/// allowed for its key, or if both attribute lists are given.
fn search_in(alloc: Global, kind: Kind, members: &[Member<'_>]) -> Result<Query, Failed<Refusal>>
    ensures { UnlessMemory (Tells (IsQuery kind)
        (sought kind (spec.search_in kind (members_view members.now)))) result }
{
    let filter = filter_of(alloc, kind, filter_text(members))?;
    let settings = settings_in(alloc, kind, members)?;
    query_of(alloc, kind, filter, &settings)
}

/// Returns the query that a JSON value asks for.
///
/// Fails with `Syntax` if the value isn't an object, or if a key of a search occurs twice. Otherwise fails
/// with `Filter` if the filter is invalid. Otherwise fails with `MessageValue` if another value isn't allowed
/// for its key, or if both attribute lists are given.
fn search_of(alloc: Global, kind: Kind, value: &Tree<'_>) -> Result<Query, Failed<Refusal>>
    ensures { UnlessMemory (Tells (IsQuery kind)
        (sought_of kind (spec.search_of_members kind (as_object (view value.now))))) result }
{
    let Some(members) = value.as_object() else {
        return Err(Failed::Because(Refusal::Syntax));
    };
    if keys_clash(members) {
        return Err(Failed::Because(Refusal::Syntax));
    }
    search_in(alloc, kind, members)
}

/// Parses a JSON text.
///
/// Fails with `Syntax` if the text isn't JSON.
fn tree_of<'a>(
    alloc: Global,
    text: &'a str,
    scratch: &'a mut Scratch,
) -> Result<Tree<'a>, Failed<Refusal>>
    ensures { UnlessMemory (Tells (λ due tree. view tree ≡ due)
        (ok_or (read text.now) Refusal.Syntax)) result }
{
    match Tree::read(alloc, text, scratch) {
        Ok(tree) => Ok(tree),
        Err(Failed::Because(NotJson)) => Err(Failed::Because(Refusal::Syntax)),
        Err(Failed::NoMemory) => Err(Failed::NoMemory),
    }
}

/// Parses the JSON text of a body. Fails with `Syntax` if the body isn't UTF-8 or isn't JSON.
fn parse<'a>(
    alloc: Global,
    body: &'a [u8],
    scratch: &'a mut Scratch,
) -> Result<Tree<'a>, Failed<Refusal>>
    ensures { UnlessMemory (Tells (λ due tree. view tree ≡ due) (spec.value_in body.now)) result }
{
    match str::from_utf8(body) {
        Ok(text) => tree_of(alloc, text, scratch),
        Err(_) => Err(Failed::Because(Refusal::Syntax)),
    }
}

/// Returns the query that a search's body asks for.
///
/// Fails with `Syntax` if the body isn't a JSON object in UTF-8, or if a key of a search occurs twice, in any
/// spelling. Otherwise fails with `Filter` if the filter is invalid. Otherwise fails with `MessageValue` if
/// another value isn't allowed for its key, or if both attribute lists are given.
#[tactic(auto, unfolding(crate::specs::SearchBodies::search_of_body))]
pub(crate) fn search_by_body(
    alloc: Global,
    kind: Kind,
    body: &[u8],
) -> Result<Query, Failed<Refusal>>
    ensures { UnlessMemory (Tells (IsQuery kind)
        (sought_of kind (spec.search_of_body kind body.now))) result }
{
    let mut scratch = Scratch::new(alloc);
    let tree = parse(alloc, body, &mut scratch)?;
    search_of(alloc, kind, &tree)
}

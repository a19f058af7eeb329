//! Reads the names in a filter, and looks them up in the attribute table.
ghost use Rattle.std.specs.Prelude.{◌≡◌, option_map, ok_or, IfOk};
ghost use Rattle.std.specs.Result.{result_ok};
ghost use Rattle.std.specs.List.{list_all};
ghost use Rattle.scim_filter_grammar.specs.Names.{is_letter, is_name_byte, is_plain_name, is_name, is_urn_byte, is_urn, fits_scope, attribute_by, sub_meant, meant_in, meant_by};
ghost use Rattle.scim_filter_grammar.specs.declared.tree.AttributePath.{AttributePath};
ghost use Rattle.scim_schema.specs.Lookup.{sub_attribute_named};
ghost use Rattle.scim_filter_grammar.specs.Reading.{Gives, Syntax, urn_of, name_of, sub_of, path_for, path_of};

use crate::bytes::{before_colon, is_keyword, skip_urn, split_name, urn_before};
use crate::faults::ReadError;
use crate::tree::{AttributePath, Meant, Scope};
use scim_cell::Text;
use scim_schema::{
    Attribute, Kind, Schema, attribute_named, attribute_named_in, sub_attribute_named,
};
use scim_text::{Failed, NoMemory};
use std::alloc::Global;
use std::str;

/// Whether the byte is an ASCII letter.
fn is_letter_at(b: u8) -> bool
    ensures { result ≡ is_letter b }
{
    matches!(b, b'A'..=b'Z' | b'a'..=b'z')
}

/// Whether the byte may be part of a name.
fn is_name_byte_at(b: u8) -> bool
    ensures { result ≡ is_name_byte b }
{
    is_letter_at(b) || matches!(b, b'0'..=b'9' | b'$' | b'-' | b'_')
}

/// Whether all bytes may be part of a name.
fn are_name_bytes(bytes: &[u8]) -> bool
    ensures { result ≡ list_all is_name_byte bytes.now }
{
    bytes.iter().all(|b| is_name_byte_at(*b))
}

/// Whether a word is a name by RFC 7643 section 2.1.
fn is_plain_name_at(word: &[u8]) -> bool
    ensures { result ≡ is_plain_name word.now }
{
    match word {
        [] => false,
        [first, others @ ..] => is_letter_at(*first) && are_name_bytes(others),
    }
}

/// Whether a word is a name, or `$ref`.
fn is_name_at(word: &[u8]) -> bool
    ensures { result ≡ is_name word.now }
{
    is_plain_name_at(word) || is_keyword(b"$ref", word)
}

/// Whether the byte may be part of a URN.
fn is_urn_byte_at(b: u8) -> bool
    ensures { result ≡ is_urn_byte b }
{
    is_name_byte_at(b) || matches!(b, b'.' | b':')
}

/// Whether all bytes may be part of a URN.
fn are_urn_bytes(bytes: &[u8]) -> bool
    ensures { result ≡ list_all is_urn_byte bytes.now }
{
    bytes.iter().all(|b| is_urn_byte_at(*b))
}

/// Whether a text is a URN.
fn is_urn_at(text: &[u8]) -> bool
    ensures { result ≡ is_urn text.now }
{
    is_keyword(b"urn", before_colon(text)) && are_urn_bytes(text)
}

/// The word as a name. `None` if it isn't one.
#[tactic(auto, unfolding(crate::specs::Reading::name_of))]
pub(crate) fn name(word: &[u8]) -> Option<&str>
    ensures { ok_or (option_map (λ t. t.now) result) Syntax ≡ name_of word.now }
{
    if !is_name_at(word) {
        return None;
    }
    match str::from_utf8(word) {
        Ok(name) => Some(name),
        Err(_) => None,
    }
}

/// Returns the bytes `before` a word's last colon as a URN. Returns `Some(None)` if the word has no colon,
/// and `None` if the bytes aren't a URN.
#[tactic(auto, unfolding(crate::specs::Reading::urn_of))]
fn urn(before: Option<&[u8]>) -> Option<Option<&str>>
    ensures { ok_or (option_map (λ o. option_map (λ t. t.now) o) result) Syntax
        ≡ urn_of (option_map (λ t. t.now) before.entry) }
{
    let Some(before) = before else {
        return Some(None);
    };
    if !is_urn_at(before) {
        return None;
    }
    match str::from_utf8(before) {
        Ok(urn) => Some(Some(urn)),
        Err(_) => None,
    }
}

/// Returns the name in `behind`, which is empty or begins with a dot. Returns `Some(None)` if `behind` is
/// empty, and `None` if the bytes after the dot aren't a name.
#[tactic(auto, unfolding(crate::specs::Reading::sub_of))]
fn sub_name(behind: &[u8]) -> Option<Option<&str>>
    ensures { ok_or (option_map (λ o. option_map (λ t. t.now) o) result) Syntax
        ≡ sub_of behind.now }
{
    match behind {
        [] => Some(None),
        [_, sub @ ..] => Some(Some(name(sub)?)),
    }
}

/// Whether a path in `scope` may have this URN and this sub-attribute. In the brackets of a value path, it
/// may have neither.
fn may_stand(scope: Scope, urn: Option<&str>, sub: Option<&str>) -> bool
    ensures { result ≡ fits_scope scope (option_map (λ t. t.now) urn.entry)
        (option_map (λ t. t.now) sub.entry) }
{
    match scope {
        Scope::Attributes(_) => true,
        Scope::SubAttributes(_) => urn.is_none() && sub.is_none(),
    }
}

/// The attribute of `kind` with this name, in the schema with this URN if one is given. `None` if `kind` has
/// no such attribute.
fn attribute_of(kind: Kind, urn: Option<&str>, name: &str) -> Option<Attribute>
    ensures { result ≡ attribute_by kind (option_map (λ t. t.now) urn.entry) name.now }
{
    match urn {
        None => attribute_named(kind, name),
        Some(urn) => attribute_named_in(kind, Schema::named(urn)?, name),
    }
}

/// The sub-attribute of `attribute` with this name. `Nothing` if there is none.
fn sub_attribute_of(attribute: Attribute, name: &str) -> Meant
    ensures { result ≡ sub_meant attribute (sub_attribute_named attribute name.now) }
{
    match sub_attribute_named(attribute, name) {
        None => Meant::Nothing,
        Some(sub_attribute) => Meant::SubAttribute(attribute, sub_attribute),
    }
}

/// Returns the attribute, or its sub-attribute named `sub` if a name is given. `Nothing` if the attribute or
/// the sub-attribute doesn't exist.
fn named_in(attribute: Option<Attribute>, sub: Option<&str>) -> Meant
    ensures { result ≡ meant_in attribute (option_map (λ t. t.now) sub.entry) }
{
    match (attribute, sub) {
        (None, _) => Meant::Nothing,
        (Some(attribute), None) => Meant::Attribute(attribute),
        (Some(attribute), Some(sub)) => sub_attribute_of(attribute, sub),
    }
}

/// Returns the attribute or sub-attribute that the names of a path refer to in `scope`. `Nothing` if a name
/// is unknown.
fn named(scope: Scope, urn: Option<&str>, name: &str, sub: Option<&str>) -> Meant
    ensures { result ≡ meant_by scope (option_map (λ t. t.now) urn.entry) name.now
        (option_map (λ t. t.now) sub.entry) }
{
    match scope {
        Scope::Attributes(kind) => named_in(attribute_of(kind, urn, name), sub),
        Scope::SubAttributes(attribute) => named_in(attribute, Some(name)),
    }
}

/// Copies the text, if there is one.
fn copy_of(alloc: Global, text: Option<&str>) -> Result<Option<Text>, NoMemory>
    ensures { IfOk result (λ t. t ≡ option_map (λ t. t.now) text.entry) }
{
    match text {
        None => Ok(None),
        Some(text) => Ok(Some(Text::copy_of(alloc, text)?)),
    }
}

/// Splits a whole word into the URN, the name and the sub-attribute's name of a path. `None` if it isn't a
/// path.
#[tactic(auto, unfolding(crate::specs::Reading::path_of))]
fn parts(scope: Scope, word: &[u8]) -> Option<(Option<&str>, &str, Option<&str>)>
    ensures { ok_or (option_map (λ x.
        path_for scope (option_map (λ t. t.now) x.0) x.1.now (option_map (λ t. t.now) x.2)) result)
        Syntax ≡ path_of scope word.now }
{
    let (name_text, behind) = split_name(skip_urn(word));
    let urn = urn(urn_before(word))?;
    let name = name(name_text)?;
    let sub = sub_name(behind)?;
    may_stand(scope, urn, sub).then_some((urn, name, sub))
}

/// Returns the attribute or sub-attribute that `word` names as a path. `None` if `word` isn't a path.
pub(crate) fn meant(scope: Scope, word: &[u8]) -> Option<Meant>
    ensures { result ≡ option_map (λ (path : AttributePath). path.meant)
        (result_ok (path_of scope word.now)) }
{
    let (urn, name, sub) = parts(scope, word)?;
    Some(named(scope, urn, name, sub))
}

/// Reads a whole word as a path.
///
/// Fails with `Syntax(left)` if `word` isn't a path; `left` is the number of unread bytes.
pub(crate) fn path(
    alloc: Global,
    scope: Scope,
    word: &[u8],
    left: usize,
) -> Result<AttributePath, Failed<ReadError>>
    ensures { Gives (λ x. x) result (path_of scope word.now) }
{
    let Some((urn, name, sub)) = parts(scope, word) else {
        return Err(Failed::Because(ReadError::Syntax(left)));
    };
    let meant = named(scope, urn, name, sub);
    Ok(AttributePath {
        urn: copy_of(alloc, urn)?,
        name: Text::copy_of(alloc, name)?,
        sub_name: copy_of(alloc, sub)?,
        meant,
    })
}

//! What is wrong with the keys of a policy file or of a rule, and with the types of their values.
ghost use Rattle.std.specs.Prelude.{◌≡◌, Some, None, codes, map, is_ok, is_some, is_none, option_and_then, IfOk, OnErr};
ghost use Rattle.std.specs.List.{list_any};
ghost use Rattle.json.specs.Find.{get, as_str};
ghost use Rattle.json.specs.Value.{value_view, members_view};
ghost use Rattle.scim_policy_file.specs.File as spec;
ghost use Rattle.scim_policy_file.specs.Lists.{each};
ghost use Rattle.scim_fault_details.specs.code.Borrowed.{text_at};

use crate::json_lists::items_in;
use crate::nearest::{Suggestion, is_among, nearest};
use crate::one_line::Short;
use json::Value;
use scim_text::NoMemory;
use std::alloc::Global;
use std::fmt;

/// The keys of a policy file.
static FILE_KEYS: [&str; 2] = ["version", "rules"];

/// The keys of a rule.
static RULE_KEYS: [&str; 6] = ["allow", "clients", "ops", "types", "target", "paths"];

/// What is wrong with the shape of a policy file or of a rule.
#[derive(Clone, Copy)]
pub(crate) enum ShapeDetail<'t> {
    /// It isn't a JSON object.
    NoObject,
    /// It has an unknown key. The nearest known one stands beside it.
    UnknownKey(&'t str, Option<&'static str>),
    /// It has no such key.
    Missing(&'static str),
    /// The value at the key has another type.
    OtherType(&'static str, Form),
    /// The list at the key is empty.
    Empty(&'static str),
    /// The list at the key has an item that is no string; its number, from 1.
    Item(&'static str, usize),
}

/// The type of a value in a policy file.
#[derive(Clone, Copy)]
pub(crate) enum Form {
    Integer,
    Boolean,
    Text,
    List,
}

impl Form {
    /// The name of the type.
    fn name(self) -> &'static str {
        match self {
            Form::Integer => "integer",
            Form::Boolean => "boolean",
            Form::Text => "string",
            Form::List => "list",
        }
    }
}

impl fmt::Display for ShapeDetail<'_> {
    fn fmt<W: fmt::Write>(&self, f: &mut fmt::Formatter<W>) -> fmt::Result {
        match self {
            ShapeDetail::NoObject => f.write_str("no JSON object"),
            ShapeDetail::UnknownKey(key, near) => write!(
                f,
                "the key \"{}\" is unknown{}",
                Short(key),
                Suggestion(near)
            ),
            ShapeDetail::Missing(key) => write!(f, "the key \"{key}\" is missing"),
            ShapeDetail::OtherType(key, form) => write!(f, "\"{key}\" is no {}", form.name()),
            ShapeDetail::Empty(key) => write!(f, "\"{key}\" is an empty list"),
            ShapeDetail::Item(key, number) => {
                write!(f, "item {number} of \"{key}\" is no string")
            }
        }
    }
}

/// Returns what is wrong with the keys of a policy file and the types of their values. `None` if nothing is.
pub(crate) fn find_file_shape<'t>(
    alloc: Global,
    file: &Value<'t>,
) -> Result<Option<ShapeDetail<'t>>, NoMemory>
    ensures { IfOk result (λ found. is_none found
        ≡ is_some (spec.file_parts (value_view file.now))) }
{
    match check_file(file) {
        Ok(()) => Ok(None),
        Err(detail) => Ok(Some(with_nearest(alloc, detail, &FILE_KEYS)?)),
    }
}

/// Returns what is wrong with the keys of a rule and the types of their values. `None` if nothing is.
pub(crate) fn find_rule_shape<'t>(
    alloc: Global,
    rule: &Value<'t>,
) -> Result<Option<ShapeDetail<'t>>, NoMemory>
    ensures { IfOk result (λ found. is_none found
        ≡ is_some (spec.rule_texts (value_view rule.now))) }
{
    match check_rule(rule) {
        Ok(()) => Ok(None),
        Err(detail) => Ok(Some(with_nearest(alloc, detail, &RULE_KEYS)?)),
    }
}

/// Adds the nearest of the known keys to an unknown one.
fn with_nearest<'t>(
    alloc: Global,
    detail: ShapeDetail<'t>,
    keys: &[&'static str],
) -> Result<ShapeDetail<'t>, NoMemory> {
    match detail {
        ShapeDetail::UnknownKey(key, _) => {
            Ok(ShapeDetail::UnknownKey(key, nearest(alloc, key, keys)?))
        }
        other => Ok(other),
    }
}

/// Checks the keys of a policy file and the types of their values. Fails with the first thing that is wrong.
#[tactic(auto, using(crate::proofs::ShapeLemmas::file_shape))]
fn check_file<'t>(file: &Value<'t>) -> Result<(), ShapeDetail<'t>>
    ensures { is_ok result ≡ is_some (spec.file_parts (value_view file.now)) }
{
    check_keys(file, &FILE_KEYS)?;
    check_version(file)?;
    check_list(file, "rules")?;
    Ok(())
}

/// Checks the keys of a rule and the types of their values. Fails with the first thing that is wrong.
#[tactic(auto, using(crate::proofs::ShapeLemmas::rule_shape))]
fn check_rule<'t>(rule: &Value<'t>) -> Result<(), ShapeDetail<'t>>
    ensures { is_ok result ≡ is_some (spec.rule_texts (value_view rule.now)) }
{
    check_keys(rule, &RULE_KEYS)?;
    check_allow(rule)?;
    check_texts(rule, "clients")?;
    check_texts(rule, "ops")?;
    check_texts(rule, "types")?;
    check_target(rule)?;
    check_texts(rule, "paths")
}

/// Checks that the value is an object in which each key is one of these.
fn check_keys<'t>(value: &Value<'t>, keys: &[&'static str]) -> Result<(), ShapeDetail<'t>>
    ensures { is_ok result ≡ is_some
        (spec.object_of_only (map text_at keys.now) (value_view value.now)) }
{
    match value {
        Value::Object(members) => check_members(members, keys),
        _ => Err(ShapeDetail::NoObject),
    }
}

/// Checks that each key is one of these.
fn check_members<'t>(
    members: &[(&'t str, Value<'t>)],
    keys: &[&'static str],
) -> Result<(), ShapeDetail<'t>>
    ensures { is_ok result ≡ spec.has_only (map text_at keys.now) (members_view members.now) }
{
    for member in members {
        if !is_among(member.0, keys) {
            return Err(ShapeDetail::UnknownKey(member.0, None));
        }
    }
    Ok(())
}

/// The value at a key. Fails with `Missing` if there is none.
fn value_at<'v, 't>(
    value: &'v Value<'t>,
    key: &'static str,
) -> Result<&'v Value<'t>, ShapeDetail<'t>>
    ensures found { IfOk result (λ v. get key.now (value_view value.now)
        ≡ Some (value_view v.now)) }
    ensures missing { OnErr result (get key.now (value_view value.now) ≡ None) }
{
    match value.get(key) {
        Some(found) => Ok(found),
        None => Err(ShapeDetail::Missing(key)),
    }
}

/// Checks that `version` is there and an integer.
fn check_version<'t>(file: &Value<'t>) -> Result<(), ShapeDetail<'t>>
    ensures { is_ok result ≡ is_some
        (option_and_then spec.integer_in (get (codes "version") (value_view file.now))) }
{
    match value_at(file, "version")?.as_number() {
        Some(number) if is_integer(number) => Ok(()),
        _ => Err(ShapeDetail::OtherType("version", Form::Integer)),
    }
}

/// Whether a number's text has neither a fraction nor an exponent.
fn is_integer(number: &str) -> bool
    ensures { result ≡ spec.is_integer number.now }
{
    !has_part(number)
}

/// Whether a number's text has a fraction or an exponent.
fn has_part(number: &str) -> bool
    ensures { result ≡ list_any spec.begins_part number.now }
{
    number.as_bytes().iter().any(|byte| begins_part(*byte))
}

/// Whether the byte begins the fraction or the exponent of a number.
fn begins_part(byte: u8) -> bool
    ensures { result ≡ spec.begins_part byte }
{
    byte == b'.' || byte == b'e' || byte == b'E'
}

/// Checks that `allow` is there and a boolean.
fn check_allow<'t>(rule: &Value<'t>) -> Result<(), ShapeDetail<'t>>
    ensures { is_ok result ≡ is_some (spec.allow_in (value_view rule.now)) }
{
    match value_at(rule, "allow")?.as_bool() {
        Some(_) => Ok(()),
        None => Err(ShapeDetail::OtherType("allow", Form::Boolean)),
    }
}

/// Checks that `target`, if it is there, is a string.
fn check_target<'t>(rule: &Value<'t>) -> Result<(), ShapeDetail<'t>>
    ensures { is_ok result ≡ is_some (spec.target_in (value_view rule.now)) }
{
    match rule.get("target") {
        Some(target) => check_text(target, "target"),
        None => Ok(()),
    }
}

/// Checks that the value at a key is a string.
fn check_text<'t>(value: &Value<'t>, key: &'static str) -> Result<(), ShapeDetail<'t>>
    ensures { is_ok result ≡ is_some (as_str (value_view value.now)) }
{
    match value.as_str() {
        Some(_) => Ok(()),
        None => Err(ShapeDetail::OtherType(key, Form::Text)),
    }
}

/// The items at a key, which must be there and a list that isn't empty.
fn check_list<'v, 't>(
    value: &'v Value<'t>,
    key: &'static str,
) -> Result<&'v [Value<'t>], ShapeDetail<'t>>
    ensures items { IfOk result (λ vs. option_and_then spec.items_in
        (get key.now (value_view value.now)) ≡ Some (map value_view vs.now)) }
    ensures faulty { OnErr result (option_and_then spec.items_in
        (get key.now (value_view value.now)) ≡ None) }
{
    let found = value_at(value, key)?;
    let Some(items) = items_in(found) else {
        return Err(ShapeDetail::OtherType(key, Form::List));
    };
    if items.is_empty() {
        return Err(ShapeDetail::Empty(key));
    }
    Ok(items)
}

/// Checks that there is a list at a key, that it isn't empty, and that its items are strings.
fn check_texts<'t>(rule: &Value<'t>, key: &'static str) -> Result<(), ShapeDetail<'t>>
    ensures { is_ok result ≡ is_some (spec.texts_at key.now (value_view rule.now)) }
{
    let items = check_list(rule, key)?;
    match first_other(items) {
        Some(number) => Err(ShapeDetail::Item(key, number)),
        None => Ok(()),
    }
}

/// The number, from 1, of the first item that isn't a string.
fn first_other(items: &[Value<'_>]) -> Option<usize>
    ensures { is_none result ≡ is_some (each as_str (map value_view items.now)) }
{
    for (index, item) in items.iter().enumerate() {
        if item.as_str().is_none() {
            return Some(index + 1);
        }
    }
    None
}

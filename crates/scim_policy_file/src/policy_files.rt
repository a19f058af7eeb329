//! Reads policy files.
ghost use Rattle.std.specs.Prelude.{◌≡◌, ◌≤◌, ℕ, length, map, Some, Ok, Err, IfOk, IfErr, option_map};
ghost use Rattle.std.specs.List.{list_any};
ghost use Rattle.json.specs.Json.{document};
ghost use Rattle.json.specs.Find.{as_str, as_array, as_object};
ghost use Rattle.json.specs.Value.{value_view, items_view, members_view};
ghost use Rattle.scim_schema.specs.Lookup.{is_same_text, kind_named, operation_named};
ghost use Rattle.scim_text.specs.Failures.{UnlessMemory, IfFault};
ghost use Rattle.scim_policy_file.specs.File as spec;
ghost use Rattle.scim_policy_file.specs.Lists.{each};
ghost use Rattle.scim_policy_file.specs.Paths.{client_named};
ghost use Rattle.scim_policy_file.specs.code.Written.{Gives, text_at, texts_view, rule_view, parts_view};

use crate::client_names::client_named;
use crate::faults::{Cause, PolicyFault};
use crate::rule_paths::paths_named;
use crate::rule_targets::targets_for;
use crate::versions::{FileVersion, version_named};
use json::{Error, Scratch, Value};
use scim_policy::{ClientName, Policy, Rule};
use scim_schema::{Kind, MOST_RULES, Op};
use scim_text::{Failed, NoMemory, push};
use std::alloc::Global;

/// The error for an invalid name.
const NO_NAME: Failed<Cause> = Failed::Because(Cause::Name);

/// The parts of a policy file: the text of its version, and its rules as JSON.
#[derive(Clone, Copy)]
struct FileParts<'v, 't> {
    version: &'t str,
    rules: &'v [Value<'t>],
}

/// The version of a policy file, and its rules as JSON.
#[derive(Clone, Copy)]
struct FileRules<'v, 't> {
    version: FileVersion,
    rules: &'v [Value<'t>],
}

/// A rule as it is written in the file.
#[derive(Drop)]
struct WrittenRule<'v> {
    allow: bool,
    clients: Vec<&'v str>,
    ops: Vec<&'v str>,
    types: Vec<&'v str>,
    target: Option<&'v str>,
    paths: Vec<&'v str>,
}

/// Reads a policy file: a JSON object with `version`, 1 or 2, and `rules`, a list of at most 1,000 rules.
///
/// A rule is an object with `allow` (a boolean), `clients` (names, or `*` for everyone), `ops` (`read`,
/// `create`, `modify`, `delete`), `types` (`User`, `Group`) and `paths` (`*`, an attribute, or
/// `attribute.subAttribute`, with or without a URN before it and spaces around it; names match in any ASCII
/// case). These keys are required, and no list may be empty. The optional key `target` is a filter on each
/// of the types; other keys are faults. Each name in a target must be an attribute of at least one of the
/// types, and must not be `groups`, `password`, `meta` or `doorCode`. On a type without that attribute, the name
/// has no value.
///
/// In version 2 a path may be a value path too, `attribute[filter]` or `attribute[filter].subAttribute`, as in
/// a PATCH operation (RFC 7644 section 3.5.2), if the rule's only operation is `read`; but not on `groups`.
///
/// Fails with the first fault. Faults of the file (rule 0) come first, in the order of [`Cause`], then the
/// faults of each rule in turn. Within a rule the order is: `Shape`; `Name` for the clients, the operations
/// and the types; `Target`, `Name`, `TargetNames` and `TargetNamesDoorCode` for the target; and `Name` or
/// `ValueFilter` for the first faulty path.
#[tactic(auto, unfolding(crate::specs::File::policy_of))]
pub fn read_policy(alloc: Global, text: &str) -> Result<Policy, Failed<PolicyFault>>
    ensures { UnlessMemory (λ r. spec.policy_of text.now ≡ r) result }
{
    let mut scratch = Scratch::new(alloc);
    let value = parse(alloc, text, &mut scratch)?;
    match file_rules(&value) {
        Ok(file) => Ok(Policy::of(read_rules(alloc, file.version, file.rules)?)),
        Err(cause) => Err(Failed::Because(PolicyFault { rule: 0, cause })),
    }
}

/// Parses the text of a policy file as JSON.
///
/// Fails with `Json` for rule 0 if the text isn't JSON.
#[tactic(auto, unfolding(crate::specs::File::policy_of))]
fn parse<'t>(
    alloc: Global,
    text: &'t str,
    scratch: &'t mut Scratch,
) -> Result<Value<'t>, Failed<PolicyFault>>
    ensures value { IfOk result (λ v. document text.now ≡ Some (value_view v)) }
    ensures faulty { IfFault result (λ fault. spec.policy_of text.now ≡ Err fault) }
{
    match Value::parse(alloc, text, scratch) {
        Ok(value) => Ok(value),
        Err(Error::OutOfMemory) => Err(Failed::NoMemory),
        Err(_) => Err(Failed::Because(PolicyFault {
            rule: 0,
            cause: Cause::Json,
        })),
    }
}

/// The version of a file and its rules as JSON, at most 1,000.
///
/// Fails with `Shape` if the file has the wrong keys or types or no rules, else with `Version` if the version
/// is neither 1 nor 2, else with `TooManyRules` if there are more than 1,000 rules.
fn file_rules<'v, 't>(value: &'v Value<'t>) -> Result<FileRules<'v, 't>, Cause>
    ensures rules { IfOk result (λ f. spec.policy_in (value_view value.now)
        ≡ spec.rules_from f.version 1 (map value_view f.rules.now)) }
    ensures few { IfOk result (λ f. length f.rules.now ≤ MOST_RULES) }
    ensures faulty { IfErr result
        (λ cause. spec.policy_in (value_view value.now)
        ≡ Err (record { rule = 0; cause = cause })) }
{
    let Some(parts) = file_parts(value) else {
        return Err(Cause::Shape);
    };
    let Some(version) = version_named(parts.version) else {
        return Err(Cause::Version);
    };
    if parts.rules.len() > MOST_RULES {
        return Err(Cause::TooManyRules);
    }
    Ok(FileRules {
        version,
        rules: parts.rules,
    })
}

/// The version and the rules of a file. `None` if the value isn't an object, a key is missing or unknown, the
/// version isn't an integer, or the rules aren't a non-empty list.
#[tactic(auto, unfolding(crate::specs::File::file_parts))]
fn file_parts<'v, 't>(value: &'v Value<'t>) -> Option<FileParts<'v, 't>>
    ensures { option_map parts_view result ≡ spec.file_parts (value_view value.now) }
{
    if !has_only_file_keys(members_in(value)?) {
        return None;
    }
    let version = integer_in(value.get("version")?)?;
    let rules = items_in(value.get("rules")?)?;
    Some(FileParts { version, rules })
}

/// The members of an object. `None` if the value isn't an object.
fn members_in<'v, 't>(value: &'v Value<'t>) -> Option<&'v [(&'t str, Value<'t>)]>
    ensures { option_map (λ ms. members_view ms.now) result ≡ as_object (value_view value.now) }
{
    match value {
        Value::Object(members) => Some(members.as_slice()),
        _ => None,
    }
}

/// Whether all keys are keys of a policy file.
fn has_only_file_keys(members: &[(&str, Value<'_>)]) -> bool
    ensures { result ≡ spec.has_only spec.file_keys (members_view members.now) }
{
    for member in members {
        if !is_file_key(member.0) {
            return false;
        }
    }
    true
}

/// Whether the key is a key of a policy file.
fn is_file_key(key: &str) -> bool
    ensures { result ≡ list_any (is_same_text key.now) spec.file_keys }
{
    key == "version" || key == "rules"
}

/// The text of an integer. `None` if the value isn't an integer.
fn integer_in<'t>(value: &Value<'t>) -> Option<&'t str>
    ensures { option_map text_at result ≡ spec.integer_in (value_view value.now) }
{
    let number = value.as_number()?;
    if is_integer(number) {
        Some(number)
    } else {
        None
    }
}

/// Whether a number's text has neither a fraction nor an exponent.
fn is_integer(number: &str) -> bool
    ensures { result ≡ spec.is_integer number.now }
{
    !has_part(number)
}

/// Whether a number's text has a fraction or an exponent.
fn has_part(number: &str) -> bool
    ensures { result ≡ list_any spec.begins_part number.now }
{
    number.as_bytes().iter().any(|byte| begins_part(*byte))
}

/// Whether the byte begins a fraction or an exponent.
fn begins_part(byte: u8) -> bool
    ensures { result ≡ spec.begins_part byte }
{
    byte == b'.' || byte == b'e' || byte == b'E'
}

/// The items of an array. `None` if the value isn't an array.
fn array_in<'v, 't>(value: &'v Value<'t>) -> Option<&'v [Value<'t>]>
    ensures { option_map (λ vs. items_view vs.now) result ≡ as_array (value_view value.now) }
{
    match value {
        Value::Array(items) => Some(items.as_slice()),
        _ => None,
    }
}

/// The items of a non-empty array. `None` if the value is anything else.
fn items_in<'v, 't>(value: &'v Value<'t>) -> Option<&'v [Value<'t>]>
    ensures { option_map (λ vs. map value_view vs.now) result
        ≡ spec.items_in (value_view value.now) }
{
    let items = array_in(value)?;
    if items.is_empty() {
        return None;
    }
    Some(items)
}

/// Reads all rules of a file of this version, numbered from 1.
///
/// Fails with the first fault of the first faulty rule.
fn read_rules(
    alloc: Global,
    version: FileVersion,
    values: &[Value<'_>],
) -> Result<Vec<Rule>, Failed<PolicyFault>>
    requires { length values.now ≤ MOST_RULES }
    ensures rules { IfOk result (λ v. spec.rules_from version 1 (map value_view values.now)
        ≡ Ok v.items) }
    ensures count { IfOk result (λ v. length v.items ≡ length values.now) }
    ensures faulty { IfFault result (λ fault. spec.rules_from version 1 (map value_view values.now)
        ≡ Err fault) }
{
    let mut rules = Vec::new(alloc);
    let mut number = 0;
    for value in values {
        number += 1;
        push(&mut rules, read_rule(alloc, version, value, number)?)?;
    }
    Ok(rules)
}

/// Reads the rule with this number.
///
/// Fails with the first fault of the rule.
fn read_rule(
    alloc: Global,
    version: FileVersion,
    value: &Value<'_>,
    number: u32,
) -> Result<Rule, Failed<PolicyFault>>
    ensures rule { IfOk result (λ r. spec.rule_of version number (value_view value.now) ≡ Ok r) }
    ensures faulty { IfFault result (λ fault. spec.rule_of version number (value_view value.now)
        ≡ Err fault) }
{
    let Some(written) = written_rule(alloc, value)? else {
        return Err(Failed::Because(PolicyFault {
            rule: number,
            cause: Cause::Shape,
        }));
    };
    match rule_named(alloc, version, &written) {
        Ok(rule) => Ok(rule),
        Err(Failed::Because(cause)) => Err(Failed::Because(PolicyFault {
            rule: number,
            cause,
        })),
        Err(Failed::NoMemory) => Err(Failed::NoMemory),
    }
}

/// The rule as it is written in the file. `None` if a key other than `target` is missing, a key is unknown,
/// or a value has the wrong type.
#[tactic(auto, unfolding(crate::specs::File::rule_texts))]
fn written_rule<'t>(alloc: Global, value: &Value<'t>) -> Result<Option<WrittenRule<'t>>, NoMemory>
    ensures { IfOk result (λ o. option_map rule_view o ≡ spec.rule_texts (value_view value.now)) }
{
    match members_in(value) {
        Some(members) if has_only_rule_keys(members) => rule_fields(alloc, value),
        _ => Ok(None),
    }
}

/// Whether all keys are keys of a rule.
fn has_only_rule_keys(members: &[(&str, Value<'_>)]) -> bool
    ensures { result ≡ spec.has_only spec.rule_keys (members_view members.now) }
{
    for member in members {
        if !is_rule_key(member.0) {
            return false;
        }
    }
    true
}

/// Whether the key is a key of a rule.
fn is_rule_key(key: &str) -> bool
    ensures { result ≡ list_any (is_same_text key.now) spec.rule_keys }
{
    key == "allow"
        || key == "clients"
        || key == "ops"
        || key == "types"
        || key == "target"
        || key == "paths"
}

/// The rule as it is written in the file, without a check for unknown keys. `None` if a key other than
/// `target` is missing, or a value has the wrong type.
fn rule_fields<'t>(alloc: Global, value: &Value<'t>) -> Result<Option<WrittenRule<'t>>, NoMemory>
    ensures { IfOk result (λ o. option_map rule_view o ≡ spec.rule_fields (value_view value.now)) }
{
    let Some(allow) = allow_in(value) else {
        return Ok(None);
    };
    let Some(clients) = texts_at(alloc, value, "clients")? else {
        return Ok(None);
    };
    let Some(ops) = texts_at(alloc, value, "ops")? else {
        return Ok(None);
    };
    let Some(types) = texts_at(alloc, value, "types")? else {
        return Ok(None);
    };
    let Some(target) = target_in(value) else {
        return Ok(None);
    };
    let Some(paths) = texts_at(alloc, value, "paths")? else {
        return Ok(None);
    };
    Ok(Some(WrittenRule {
        allow,
        clients,
        ops,
        types,
        target,
        paths,
    }))
}

/// The value of `allow` in a rule. `None` if the key is missing or its value isn't a boolean.
fn allow_in(value: &Value<'_>) -> Option<bool>
    ensures { result ≡ spec.allow_in (value_view value.now) }
{
    value.get("allow")?.as_bool()
}

/// The text of a rule's target, or `Some(None)` if the rule has no target. `None` if the target isn't a
/// string.
fn target_in<'t>(value: &Value<'t>) -> Option<Option<&'t str>>
    ensures { option_map (λ o. option_map text_at o) result
        ≡ spec.target_in (value_view value.now) }
{
    match value.get("target") {
        Some(found) => Some(Some(found.as_str()?)),
        None => Some(None),
    }
}

/// The strings of the non-empty array at this key. `None` if the key is missing or its value isn't a
/// non-empty array of strings.
fn texts_at<'t>(
    alloc: Global,
    value: &Value<'t>,
    key: &str,
) -> Result<Option<Vec<&'t str>>, NoMemory>
    ensures { IfOk result (λ o. option_map texts_view o
        ≡ spec.texts_at key.now (value_view value.now)) }
{
    match value.get(key) {
        Some(found) => texts_in(alloc, found),
        None => Ok(None),
    }
}

/// The strings of a non-empty array of strings. `None` if the value is anything else.
fn texts_in<'t>(alloc: Global, value: &Value<'t>) -> Result<Option<Vec<&'t str>>, NoMemory>
    ensures { IfOk result (λ o. option_map texts_view o ≡ spec.texts_in (value_view value.now)) }
{
    match items_in(value) {
        Some(items) => texts_of(alloc, items),
        None => Ok(None),
    }
}

/// The text of each of the values. `None` if a value isn't a string.
fn texts_of<'t>(alloc: Global, items: &[Value<'t>]) -> Result<Option<Vec<&'t str>>, NoMemory>
    ensures { IfOk result (λ o. option_map texts_view o ≡ each as_str (map value_view items.now)) }
{
    let mut texts = Vec::new(alloc);
    for item in items {
        let Some(text) = item.as_str() else {
            return Ok(None);
        };
        push(&mut texts, text)?;
    }
    Ok(Some(texts))
}

/// Reads the parts of a written rule in this order: clients, operations, types, target, paths.
///
/// Fails with the cause of the first fault in that order.
#[tactic(auto, unfolding(crate::specs::File::rule_named))]
fn rule_named(
    alloc: Global,
    version: FileVersion,
    written: &WrittenRule<'_>,
) -> Result<Rule, Failed<Cause>>
    ensures { Gives (λ r. r) result (spec.rule_named version (rule_view written.now)) }
{
    let Some(clients) = clients_named(alloc, &written.clients)? else {
        return Err(NO_NAME);
    };
    let Some(ops) = ops_named(alloc, &written.ops)? else {
        return Err(NO_NAME);
    };
    let Some(kinds) = kinds_named(alloc, &written.types)? else {
        return Err(NO_NAME);
    };
    let targets = targets_for(alloc, &kinds, written.target)?;
    let paths = paths_named(alloc, version, &ops, &kinds, &written.paths)?;
    Ok(Rule::new(written.allow, clients, ops, kinds, targets, paths))
}

/// Reads the clients of a rule. `None` if a text is neither `*` nor a valid client name.
fn clients_named(alloc: Global, texts: &[&str]) -> Result<Option<Vec<ClientName>>, NoMemory>
    ensures { IfOk result (λ o. option_map (λ v. v.items) o
        ≡ each client_named (map text_at texts.now)) }
{
    let mut clients = Vec::new(alloc);
    for text in texts {
        let Some(client) = client_named(alloc, text)? else {
            return Ok(None);
        };
        push(&mut clients, client)?;
    }
    Ok(Some(clients))
}

/// Reads the operations of a rule. `None` if an operation is unknown.
fn ops_named(alloc: Global, texts: &[&str]) -> Result<Option<Vec<Op>>, NoMemory>
    ensures { IfOk result (λ o. option_map (λ v. v.items) o
        ≡ each operation_named (map text_at texts.now)) }
{
    let mut ops = Vec::new(alloc);
    for text in texts {
        let Some(op) = Op::named(text) else {
            return Ok(None);
        };
        push(&mut ops, op)?;
    }
    Ok(Some(ops))
}

/// Reads the types of a rule. `None` if a type is unknown.
fn kinds_named(alloc: Global, texts: &[&str]) -> Result<Option<Vec<Kind>>, NoMemory>
    ensures { IfOk result (λ o. option_map (λ v. v.items) o
        ≡ each kind_named (map text_at texts.now)) }
{
    let mut kinds = Vec::new(alloc);
    for text in texts {
        let Some(kind) = Kind::named(text) else {
            return Ok(None);
        };
        push(&mut kinds, kind)?;
    }
    Ok(Some(kinds))
}

//! What is wrong with a policy file.
use crate::json_lists::{items_under, texts_under};
use crate::json_places::parse;
use crate::one_line::Short;
use crate::path_details::{PathDetail, PathScope, find_barred_filter, find_unnamed_path};
use crate::rule_words::{WordDetail, find_word_detail};
use crate::shape_details::{ShapeDetail, find_file_shape, find_rule_shape};
use crate::target_details::{TargetDetail, find_target_detail};
use json::{Error, Scratch, Value};
use scim_policy_file::{Cause, PolicyFault};
use scim_schema::{Kind, MOST_RULES};
use scim_text::{Failed, NoMemory};
use std::alloc::Global;
use std::fmt;

/// What is wrong with a policy file.
#[derive(Drop)]
enum PolicyDetail<'t> {
    /// The shape of the file.
    File(ShapeDetail<'t>),
    /// The number that is the version.
    Version(&'t str),
    /// The number of rules.
    TooManyRules(usize),
    /// The shape of a rule.
    Rule(ShapeDetail<'t>),
    /// A client, an operation or a type.
    Word(WordDetail<'t>),
    /// The target of a rule.
    Target(TargetDetail),
    /// An entry of `paths`.
    Path(PathDetail<'t>),
}

impl fmt::Display for PolicyDetail<'_> {
    fn fmt<W: fmt::Write>(&self, f: &mut fmt::Formatter<W>) -> fmt::Result {
        match self {
            PolicyDetail::File(ShapeDetail::NoObject) => f.write_str("the file is no JSON object"),
            PolicyDetail::Rule(ShapeDetail::NoObject) => f.write_str("the rule is no JSON object"),
            PolicyDetail::File(shape) | PolicyDetail::Rule(shape) => write!(f, "{shape}"),
            PolicyDetail::Version(number) => {
                write!(
                    f,
                    "\"version\" is {}, and only 1 and 2 are known",
                    Short(number)
                )
            }
            PolicyDetail::TooManyRules(count) => {
                write!(f, "{count} rules, and at most {MOST_RULES} are allowed")
            }
            PolicyDetail::Word(word) => write!(f, "{word}"),
            PolicyDetail::Target(target) => write!(f, "{target}"),
            PolicyDetail::Path(path) => write!(f, "{path}"),
        }
    }
}

/// Returns what is wrong with a policy file, whose fault `read_policy` found, in a line of text such as
/// `paths: "phoneNumber" is no attribute of User (did you mean "phoneNumbers"?)`.
///
/// Returns `None` if the file doesn't have the fault.
pub fn policy_detail(
    alloc: Global,
    text: &str,
    fault: PolicyFault,
) -> Result<Option<String>, NoMemory> {
    if fault.cause == Cause::Json {
        return json_detail(alloc, text);
    }
    let mut scratch = Scratch::new(alloc);
    match Value::parse(alloc, text, &mut scratch) {
        Ok(file) => detail_text(alloc, &file, fault),
        Err(Error::OutOfMemory) => Err(NoMemory),
        Err(_) => Ok(None),
    }
}

/// Returns where the text stops being JSON, or `None` if it is JSON.
fn json_detail(alloc: Global, text: &str) -> Result<Option<String>, NoMemory> {
    match parse(alloc, text) {
        Ok(_) => Ok(None),
        Err(Failed::Because(place)) => Ok(Some(place.to_string(alloc)?)),
        Err(Failed::NoMemory) => Err(NoMemory),
    }
}

/// Returns what is wrong with a policy file with this JSON, as a text.
fn detail_text(
    alloc: Global,
    file: &Value<'_>,
    fault: PolicyFault,
) -> Result<Option<String>, NoMemory> {
    match find_detail(alloc, file, fault)? {
        Some(detail) => Ok(Some(detail.to_string(alloc)?)),
        None => Ok(None),
    }
}

/// Returns what is wrong with a policy file, or with the rule whose number the fault has.
fn find_detail<'t>(
    alloc: Global,
    file: &Value<'t>,
    fault: PolicyFault,
) -> Result<Option<PolicyDetail<'t>>, NoMemory> {
    if fault.rule == 0 {
        return find_file_detail(alloc, file, fault.cause);
    }
    let index = fault.rule as usize - 1;
    match rule_at(file, index) {
        Some(rule) => find_rule_detail(alloc, has_filters(file), rule, fault.cause),
        None => Ok(None),
    }
}

/// The rule at an index of a file.
fn rule_at<'v, 't>(file: &'v Value<'t>, index: usize) -> Option<&'v Value<'t>> {
    items_under(file, "rules")?.get(index)
}

/// Whether the file has version 2, in which paths may have value filters.
fn has_filters(file: &Value<'_>) -> bool {
    version_in(file) == Some("2")
}

/// The text of the number at `version`.
fn version_in<'t>(file: &Value<'t>) -> Option<&'t str> {
    file.get("version")?.as_number()
}

/// Returns what is wrong with the file itself.
fn find_file_detail<'t>(
    alloc: Global,
    file: &Value<'t>,
    cause: Cause,
) -> Result<Option<PolicyDetail<'t>>, NoMemory> {
    match cause {
        Cause::Shape => Ok(find_file_shape(alloc, file)?.map(PolicyDetail::File)),
        Cause::Version => Ok(version_in(file).map(PolicyDetail::Version)),
        Cause::TooManyRules => match items_under(file, "rules") {
            Some(rules) => Ok(Some(PolicyDetail::TooManyRules(rules.len()))),
            None => Ok(None),
        },
        _ => Ok(None),
    }
}

/// Returns what is wrong with a rule.
fn find_rule_detail<'t>(
    alloc: Global,
    has_filters: bool,
    rule: &Value<'t>,
    cause: Cause,
) -> Result<Option<PolicyDetail<'t>>, NoMemory> {
    let types = texts_under(alloc, rule, "types")?;
    let kinds = kinds_among(&types);
    match cause {
        Cause::Shape => Ok(find_rule_shape(alloc, rule)?.map(PolicyDetail::Rule)),
        Cause::Name => find_name_detail(alloc, PathScope { has_filters, kinds }, rule),
        Cause::Target | Cause::TargetNames | Cause::TargetNamesDoorCode => {
            match find_target_of(alloc, kinds, rule)? {
                Some(detail) => Ok(Some(PolicyDetail::Target(detail))),
                None => Ok(None),
            }
        }
        Cause::ValueFilter => {
            let ops = texts_under(alloc, rule, "ops")?;
            let paths = texts_under(alloc, rule, "paths")?;
            let detail = find_barred_filter(alloc, kinds, &ops, &paths)?;
            Ok(detail.map(PolicyDetail::Path))
        }
        _ => Ok(None),
    }
}

/// The kinds that the texts name, each once.
fn kinds_among(texts: &[&str]) -> &'static [Kind] {
    let has_users = texts.contains(&Kind::User.name());
    let has_groups = texts.contains(&Kind::Group.name());
    match (has_users, has_groups) {
        (true, true) => Kind::all(),
        (true, false) => &[Kind::User],
        (false, true) => &[Kind::Group],
        (false, false) => &[],
    }
}

/// Returns the first name in a rule that names nothing: a client, an operation, a type, a name in the target,
/// or an entry of `paths`.
fn find_name_detail<'t>(
    alloc: Global,
    scope: PathScope,
    rule: &Value<'t>,
) -> Result<Option<PolicyDetail<'t>>, NoMemory> {
    if let Some(word) = find_word_detail(alloc, rule)? {
        return Ok(Some(PolicyDetail::Word(word)));
    }
    if let Some(target) = find_target_of(alloc, scope.kinds, rule)? {
        return Ok(Some(PolicyDetail::Target(target)));
    }
    let paths = texts_under(alloc, rule, "paths")?;
    let detail = find_unnamed_path(alloc, scope, &paths)?;
    Ok(detail.map(PolicyDetail::Path))
}

/// Returns what is wrong with the target of a rule, if it has one.
fn find_target_of(
    alloc: Global,
    kinds: &'static [Kind],
    rule: &Value<'_>,
) -> Result<Option<TargetDetail>, NoMemory> {
    match rule.get("target") {
        Some(Value::String(text)) => find_target_detail(alloc, kinds, text),
        _ => Ok(None),
    }
}

//! The clients, operations and types of a rule: the first word that names nothing.
ghost use Rattle.std.specs.Prelude.{◌≡◌, find, is_none, is_some, option_map, IfOk};
ghost use Rattle.json.specs.Value.{value_view};
ghost use Rattle.scim_schema.specs.Lookup.{kind_named, operation_named};
ghost use Rattle.scim_policy_file.specs.Paths.{client_named};
ghost use Rattle.scim_fault_details.specs.RuleWords as spec;
ghost use Rattle.scim_fault_details.specs.code.Borrowed.{text_at};

use crate::json_lists::texts_under;
use crate::nearest::{Suggestion, nearest};
use crate::one_line::Short;
use json::Value;
use scim_policy_file::is_client_name;
use scim_schema::{Kind, Op};
use scim_text::NoMemory;
use std::alloc::Global;
use std::fmt;

/// What the name of a client is.
pub(crate) const CLIENT_NAMES: &str = "1 to 64 ASCII letters, digits, \"-\", \"_\" and \".\"";

/// The names of the operations.
static OPERATIONS: [&str; 4] = ["read", "create", "modify", "delete"];

/// The names of the types.
static KINDS: [&str; 2] = ["User", "Group"];

/// A word of a rule that names nothing.
#[derive(Clone, Copy)]
pub(crate) enum WordDetail<'t> {
    /// An entry of `clients` that is neither `*` nor a client's name.
    Client(&'t str),
    /// An entry of `ops` that is no operation, and the nearest one.
    Operation(&'t str, Option<&'static str>),
    /// An entry of `types` that is no type, and the nearest one.
    Kind(&'t str, Option<&'static str>),
}

impl fmt::Display for WordDetail<'_> {
    fn fmt<W: fmt::Write>(&self, f: &mut fmt::Formatter<W>) -> fmt::Result {
        match self {
            WordDetail::Client(word) => write!(
                f,
                "clients: \"{}\" is no client name ({CLIENT_NAMES})",
                Short(word)
            ),
            WordDetail::Operation(word, None) => write!(
                f,
                "ops: \"{}\" is no operation (read, create, modify, delete)",
                Short(word)
            ),
            WordDetail::Operation(word, near) => write!(
                f,
                "ops: \"{}\" is no operation{}",
                Short(word),
                Suggestion(near)
            ),
            WordDetail::Kind(word, None) => {
                write!(f, "types: \"{}\" is no type (User, Group)", Short(word))
            }
            WordDetail::Kind(word, near) => write!(
                f,
                "types: \"{}\" is no type{}",
                Short(word),
                Suggestion(near)
            ),
        }
    }
}

/// Returns the first word of a rule that names nothing, looked for among the clients, then the operations, then
/// the types. `None` if each names something.
pub(crate) fn find_word_detail<'t>(
    alloc: Global,
    rule: &Value<'t>,
) -> Result<Option<WordDetail<'t>>, NoMemory>
    ensures { IfOk result (spec.IsFirstUnnamed (value_view rule.now)) }
{
    if let Some(word) = unnamed_client(alloc, rule)? {
        return Ok(Some(WordDetail::Client(word)));
    }
    if let Some(word) = unnamed_operation(alloc, rule)? {
        let near = nearest(alloc, word, &OPERATIONS)?;
        return Ok(Some(WordDetail::Operation(word, near)));
    }
    if let Some(word) = unnamed_kind(alloc, rule)? {
        let near = nearest(alloc, word, &KINDS)?;
        return Ok(Some(WordDetail::Kind(word, near)));
    }
    Ok(None)
}

/// Returns the first client of a rule that is neither `*` nor a client's name.
fn unnamed_client<'t>(alloc: Global, rule: &Value<'t>) -> Result<Option<&'t str>, NoMemory>
    ensures { IfOk result (λ word. option_map text_at word
        ≡ spec.unnamed_client (value_view rule.now)) }
{
    let clients = texts_under(alloc, rule, "clients")?;
    Ok(first_unnamed_client(&clients))
}

/// Returns the first operation of a rule that there isn't.
fn unnamed_operation<'t>(alloc: Global, rule: &Value<'t>) -> Result<Option<&'t str>, NoMemory>
    ensures { IfOk result (λ word. option_map text_at word
        ≡ spec.unnamed_operation (value_view rule.now)) }
{
    let ops = texts_under(alloc, rule, "ops")?;
    Ok(first_unnamed_operation(&ops))
}

/// Returns the first type of a rule that there isn't.
fn unnamed_kind<'t>(alloc: Global, rule: &Value<'t>) -> Result<Option<&'t str>, NoMemory>
    ensures { IfOk result (λ word. option_map text_at word
        ≡ spec.unnamed_type (value_view rule.now)) }
{
    let kinds = texts_under(alloc, rule, "types")?;
    Ok(first_unnamed_kind(&kinds))
}

/// The first text that is neither `*` nor a client's name.
fn first_unnamed_client<'t>(texts: &[&'t str]) -> Option<&'t str>
    ensures { result ≡ find (λ t. is_none (client_named t.now)) texts.now }
{
    texts.iter().copied().find(|text| !is_client(text))
}

/// Whether a text is `*` or a client's name.
fn is_client(text: &str) -> bool
    ensures { result ≡ is_some (client_named text.now) }
{
    text == "*" || is_client_name(text)
}

/// The first text that isn't the name of an operation.
fn first_unnamed_operation<'t>(texts: &[&'t str]) -> Option<&'t str>
    ensures { result ≡ find (λ t. is_none (operation_named t.now)) texts.now }
{
    texts.iter().copied().find(|text| Op::named(text).is_none())
}

/// The first text that isn't the name of a type.
fn first_unnamed_kind<'t>(texts: &[&'t str]) -> Option<&'t str>
    ensures { result ≡ find (λ t. is_none (kind_named t.now)) texts.now }
{
    texts
        .iter()
        .copied()
        .find(|text| Kind::named(text).is_none())
}

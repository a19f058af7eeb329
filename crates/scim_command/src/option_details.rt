//! Says which option makes a command line invalid.
ghost use Rattle.std.specs.Prelude.{◌≡◌, false, IfOk, IfSome};
ghost use Rattle.scim_command.specs.OptionDetails as spec;

use crate::command_faults::OneLine;
use crate::event_lines::number_in;
use clap::ArgMatches;
use scim_audit_listing::refusal_named;
use scim_base_url::is_base_url;
use scim_cell::Id;
use scim_explain_paths::path_named;
use scim_policy_file::is_client_name;
use scim_schema::{Kind, Op};
use scim_text::{NoMemory, read_printed_moment};
use std::alloc::Global;
use std::fmt;

/// The form that the value of an option must have.
#[derive(Clone, Copy)]
pub enum ValueForm {
    /// A name of a client.
    Client,
    /// A base URL.
    BaseUrl,
    /// A moment as the server prints it.
    Moment,
    /// An id as the server prints it.
    Id,
    /// A number of 64 bits.
    Number,
    /// A port.
    Port,
    /// An operation of the policy.
    Operation,
    /// A type of resources.
    Kind,
    /// An attribute or sub-attribute of the type that another option names.
    Path,
    /// A refusal of the audit.
    Refusal,
}

impl fmt::Display for ValueForm {
    fn fmt<W: fmt::Write>(&self, f: &mut fmt::Formatter<W>) -> fmt::Result {
        f.write_str(match self {
            ValueForm::Client => "no name of a client (1 to 64 letters, digits, '-', '_' and '.')",
            ValueForm::BaseUrl => {
                "no base URL (http:// or https:// and a host, without a query, a fragment or a slash at the end)"
            }
            ValueForm::Moment => "no moment (as 2024-06-01T12:00:00Z)",
            ValueForm::Id => "no id (as 00000000-0000-4000-8000-00000000000a)",
            ValueForm::Number => "no number (0 to 18446744073709551615)",
            ValueForm::Port => "no port (0 to 65535)",
            ValueForm::Operation => "no operation (read, create, modify or delete)",
            ValueForm::Kind => "no type (User or Group)",
            ValueForm::Path => "no attribute of this type (as emails or emails.value)",
            ValueForm::Refusal => "no refusal (F1 to F21)",
        })
    }
}

/// The options whose values have a form. All commands have the same form for an option of one name.
const FORMS: [(&str, ValueForm); 21] = [
    ("client", ValueForm::Client),
    ("base", ValueForm::BaseUrl),
    ("at", ValueForm::Moment),
    ("since", ValueForm::Moment),
    ("first", ValueForm::Id),
    ("id", ValueForm::Id),
    ("op", ValueForm::Operation),
    ("kind", ValueForm::Kind),
    ("path", ValueForm::Path),
    ("refusal", ValueForm::Refusal),
    ("port", ValueForm::Port),
    ("admin-port", ValueForm::Port),
    ("connections", ValueForm::Number),
    ("idle-seconds", ValueForm::Number),
    ("head-seconds", ValueForm::Number),
    ("message-seconds", ValueForm::Number),
    ("reply-rate", ValueForm::Number),
    ("memory", ValueForm::Number),
    ("from", ValueForm::Number),
    ("count", ValueForm::Number),
    ("last", ValueForm::Number),
];

/// The pairs of options of which neither is given without the other.
const TOGETHER: [(&str, &str); 1] = [("admin-port", "admin-tokens")];

/// The pairs of options that aren't both given.
const APART: [(&str, &str); 1] = [("count", "last")];

/// A reason why the options of a command are invalid.
#[derive(Clone, Copy)]
pub enum OptionDetail<'a> {
    /// The value of this option doesn't have its form.
    Value {
        option: &'static str,
        value: &'a str,
        form: ValueForm,
    },
    /// The first option is given without the second.
    Alone(&'static str, &'static str),
    /// Both options are given.
    Both(&'static str, &'static str),
}

impl fmt::Display for OptionDetail<'_> {
    fn fmt<W: fmt::Write>(&self, f: &mut fmt::Formatter<W>) -> fmt::Result {
        match self {
            OptionDetail::Value {
                option,
                value,
                form,
            } => write!(f, "--{option}: \"{}\" is {form}", OneLine(value)),
            OptionDetail::Alone(option, other) => write!(f, "--{option} needs --{other}"),
            OptionDetail::Both(option, other) => {
                write!(f, "--{option} and --{other} aren't given together")
            }
        }
    }
}

/// Returns a reason why the options of a command are invalid: the first option whose value doesn't have its form, or else
/// two options that don't go together. Returns `None` if there is none.
pub fn option_detail<'a>(
    alloc: Global,
    matches: &ArgMatches<'a>,
) -> Result<Option<OptionDetail<'a>>, NoMemory>
    ensures { IfOk result (λ found. IfSome found (spec.IsReason matches.now)) }
{
    for (option, form) in FORMS {
        if let Some(value) = matches.get_str(option)
            && !has_form(alloc, matches, form, value)?
        {
            return Ok(Some(OptionDetail::Value {
                option,
                value,
                form,
            }));
        }
    }
    Ok(pair_detail(matches))
}

/// Returns a pair of options that don't go together; `None` if there is none.
fn pair_detail<'a>(matches: &ArgMatches<'a>) -> Option<OptionDetail<'a>>
    ensures { IfSome result (spec.IsReason matches.now) }
{
    for (one, other) in TOGETHER {
        match (matches.contains_id(one), matches.contains_id(other)) {
            (true, false) => return Some(OptionDetail::Alone(one, other)),
            (false, true) => return Some(OptionDetail::Alone(other, one)),
            _ => {}
        }
    }
    for (one, other) in APART {
        if matches.contains_id(one) && matches.contains_id(other) {
            return Some(OptionDetail::Both(one, other));
        }
    }
    None
}

/// Whether the value of an option has this form.
fn has_form(
    alloc: Global,
    matches: &ArgMatches<'_>,
    form: ValueForm,
    value: &str,
) -> Result<bool, NoMemory>
    ensures { IfOk result (λ found. found ≡ false → spec.Rejects matches.now form value.now) }
{
    Ok(match form {
        ValueForm::Client => is_client_name(value),
        ValueForm::BaseUrl => is_base_url(alloc, value)?,
        ValueForm::Moment => read_printed_moment(alloc, value)?.is_some(),
        ValueForm::Id => Id::read(value).is_some(),
        ValueForm::Number => number_in(value).is_some(),
        ValueForm::Port => is_port(value),
        ValueForm::Operation => Op::named(value).is_some(),
        ValueForm::Kind => Kind::named(value).is_some(),
        ValueForm::Path => is_path(matches, value),
        ValueForm::Refusal => refusal_named(value).is_some(),
    })
}

/// Whether the text is a port.
fn is_port(text: &str) -> bool
    ensures { result ≡ false → spec.IsNoPort text.now }
{
    match number_in(text) {
        Some(number) => number <= u16::MAX as u64,
        None => false,
    }
}

/// Whether the text is a path of the type that the option `kind` names; true if it names none.
fn is_path(matches: &ArgMatches<'_>, text: &str) -> bool
    ensures { result ≡ false → spec.IsNoPath matches.now text.now }
{
    match matches.get_str("kind") {
        Some(kind) => match Kind::named(kind) {
            Some(kind) => path_named(kind, text).is_some(),
            None => true,
        },
        None => true,
    }
}

//! The options of the command `explain`.
ghost use Rattle.std.specs.Prelude.{IfOk, IfErr, ◌≡◌};
ghost use Rattle.scim_command.specs.Options.{AreOfExplain, IsPathGiven};
ghost use Rattle.scim_command.specs.declared.command_faults.CommandFault.{CommandFault};

use crate::command_faults::CommandFault;
use crate::options::{client_of, text_of};
use clap::ArgMatches;
use scim_cell::Id;
use scim_explain_paths::path_named;
use scim_filter_grammar::Meant;
use scim_schema::{Kind, Op};

/// The options of `explain`.
#[derive(Clone, Copy)]
pub struct ExplainOptions<'a> {
    /// The path of the policy file.
    pub policy: &'a str,
    /// The path of the database.
    pub database: &'a str,
    /// The name of the client whose rights are explained.
    pub client: &'a str,
    /// The operation of the client.
    pub op: Op,
    /// The kind of the resource.
    pub kind: Kind,
    /// The id of the resource.
    pub id: Id,
    /// The attribute or sub-attribute to explain; `None` for all leaves of the resource.
    pub path: Option<Meant>,
}

impl<'a> ExplainOptions<'a> {
    /// Reads the options of `explain`.
    ///
    /// Fails with `BadOption` if the client's name isn't valid, if there is no such operation or kind, if the
    /// id doesn't have the form in which the server prints ids, or if the kind has no attribute or sub-attribute with
    /// the name in the path.
    pub fn of(matches: &ArgMatches<'a>) -> Result<ExplainOptions<'a>, CommandFault>
        ensures options { IfOk result (AreOfExplain matches.now) }
        ensures fault { IfErr result (λ f. f ≡ CommandFault.BadOption) }
    {
        let client = client_of(matches)?;
        let Some(op) = Op::named(text_of(matches, "op")?) else {
            return Err(CommandFault::BadOption);
        };
        let Some(kind) = Kind::named(text_of(matches, "kind")?) else {
            return Err(CommandFault::BadOption);
        };
        let Some(id) = Id::read(text_of(matches, "id")?) else {
            return Err(CommandFault::BadOption);
        };
        Ok(ExplainOptions {
            policy: text_of(matches, "policy")?,
            database: text_of(matches, "db")?,
            client,
            op,
            kind,
            id,
            path: path_given(matches, kind)?,
        })
    }
}

/// Returns the path that the option `path` names; `None` if the option isn't given. Fails with `BadOption` if the kind
/// has no attribute or sub-attribute with this name.
fn path_given(matches: &ArgMatches<'_>, kind: Kind) -> Result<Option<Meant>, CommandFault>
    ensures path { IfOk result (IsPathGiven matches.now kind) }
    ensures fault { IfErr result (λ f. f ≡ CommandFault.BadOption) }
{
    match matches.get_str("path") {
        Some(text) => match path_named(kind, text) {
            Some(path) => Ok(Some(path)),
            None => Err(CommandFault::BadOption),
        },
        None => Ok(None),
    }
}

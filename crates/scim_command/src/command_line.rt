//! The command line: the commands and their options.
ghost use Rattle.std.specs.Prelude.{◌≡◌};
ghost use Rattle.scim_command.specs.Commands.{command_name, command_named, commands};

use crate::option_defaults::{DEFAULT_AT, DEFAULT_BASE, DEFAULT_FIRST, DEFAULT_FROM, DEFAULT_PORT};
use clap::{Arg, ArgAction, Command};
use std::alloc::{AllocError, Global};

/// The version of the program.
pub const VERSION: &str = "0.1.0";

/// A command of the program.
#[derive(Clone, Copy)]
pub enum CommandName {
    /// Answers one request.
    Once,
    /// Validates a policy file.
    Check,
    /// Serves a database.
    Serve,
    /// Answers the events of a file.
    Replay,
    /// Explains a decision of the policy.
    Explain,
    /// Imports a users file into a database.
    Import,
    /// Exports the users file of a database.
    Export,
    /// Prints rows of the audit.
    Audit,
    /// Archives a database with its audit, and goes on with an empty audit.
    Archive,
    /// Makes a new token.
    Token,
}

impl CommandName {
    /// Returns all commands.
    fn all() -> &'static [CommandName]
        ensures { result.now ≡ commands }
    {
        &[
            CommandName::Once,
            CommandName::Check,
            CommandName::Serve,
            CommandName::Replay,
            CommandName::Explain,
            CommandName::Import,
            CommandName::Export,
            CommandName::Audit,
            CommandName::Archive,
            CommandName::Token,
        ]
    }

    /// Returns the name of the command.
    fn name(self) -> &'static str
        ensures { result.now ≡ command_name self }
    {
        match self {
            CommandName::Once => "once",
            CommandName::Check => "check",
            CommandName::Serve => "serve",
            CommandName::Replay => "replay",
            CommandName::Explain => "explain",
            CommandName::Import => "import",
            CommandName::Export => "export",
            CommandName::Audit => "audit",
            CommandName::Archive => "archive",
            CommandName::Token => "token",
        }
    }

    /// Returns the command with this name, if any.
    pub fn named(name: &str) -> Option<CommandName>
        ensures { result ≡ command_named name.now }
    {
        CommandName::all()
            .iter()
            .copied()
            .find(|command| name == command.name())
    }
}

/// A command with its help text and options.
#[derive(Clone, Copy)]
struct CommandText {
    command: CommandName,
    about: &'static str,
    options: &'static [OptionText],
}

/// An option of a command with its name, form and help text.
#[derive(Clone, Copy)]
struct OptionText {
    name: &'static str,
    form: OptionForm,
    help: &'static str,
}

/// The form of an option. The first text of a variant is the name of the option's value in the help.
#[derive(Clone, Copy)]
enum OptionForm {
    /// The option must be given with a value.
    Required(&'static str),
    /// The option may be given with a value.
    Optional(&'static str),
    /// The option has a value. If it isn't given, the value is the second text.
    WithDefault(&'static str, &'static str),
    /// The option has no value; it is either given or not.
    Flag,
}

const POLICY: OptionText = OptionText {
    name: "policy",
    form: OptionForm::Required("FILE"),
    help: "Policy file in JSON; the first rule that fits decides",
};

const USERS: OptionText = OptionText {
    name: "users",
    form: OptionForm::Required("FILE"),
    help: "Users file in JSON: a list of stored resources",
};

const TOKENS: OptionText = OptionText {
    name: "tokens",
    form: OptionForm::Required("FILE"),
    help: "File of bearer tokens, one per line: client and SHA-256 digest in hex",
};

const DATABASE: OptionText = OptionText {
    name: "db",
    form: OptionForm::Required("FILE"),
    help: "SQLite database file",
};

const CLIENT: OptionText = OptionText {
    name: "client",
    form: OptionForm::Required("NAME"),
    help: "Name of the client in the policy",
};

const BASE: OptionText = OptionText {
    name: "base",
    form: OptionForm::WithDefault("URL", DEFAULT_BASE),
    help: "Base URL of the resources",
};

const COMMANDS: [CommandText; 10] = [
    CommandText {
        command: CommandName::Once,
        about: "Answer one HTTP request from standard input over a users file",
        options: &[
            POLICY,
            USERS,
            CLIENT,
            BASE,
            OptionText {
                name: "at",
                form: OptionForm::WithDefault("MOMENT", DEFAULT_AT),
                help: "Time of the request",
            },
            OptionText {
                name: "first",
                form: OptionForm::WithDefault("UUID", DEFAULT_FIRST),
                help: "Id of the resource that the request creates",
            },
        ],
    },
    CommandText {
        command: CommandName::Check,
        about: "Check a policy file",
        options: &[
            POLICY,
            OptionText {
                name: "tokens",
                form: OptionForm::Optional("FILE"),
                help: "File of bearer tokens; also print which clients have no token, and which have no rule",
            },
            OptionText {
                name: "verbose",
                form: OptionForm::Flag,
                help: "Also print each rule as a sentence, and warn of rules that don't give what they seem to",
            },
        ],
    },
    CommandText {
        command: CommandName::Serve,
        about: "Serve a database over HTTP on 127.0.0.1",
        options: &[
            POLICY,
            TOKENS,
            DATABASE,
            OptionText {
                name: "port",
                form: OptionForm::WithDefault("N", DEFAULT_PORT),
                help: "Port to listen on; 0 picks a free port",
            },
            BASE,
            OptionText {
                name: "connections",
                form: OptionForm::Optional("N"),
                help: "Exit after this many connections (default: run until stopped)",
            },
            OptionText {
                name: "idle-seconds",
                form: OptionForm::WithDefault("N", "60"),
                help: "Close a connection that is silent for longer",
            },
            OptionText {
                name: "head-seconds",
                form: OptionForm::WithDefault("N", "30"),
                help: "Close a connection whose head takes longer from its first byte",
            },
            OptionText {
                name: "message-seconds",
                form: OptionForm::WithDefault("N", "120"),
                help: "Close a connection whose message takes longer from its first byte",
            },
            OptionText {
                name: "reply-rate",
                form: OptionForm::WithDefault("N", "1024"),
                help: "Close a connection that takes fewer bytes of a reply per second, after its first minute",
            },
            OptionText {
                name: "memory",
                form: OptionForm::WithDefault("MIB", "256"),
                help: "Hold at most this many MiB of unfinished messages and waiting replies",
            },
            OptionText {
                name: "no-cache",
                form: OptionForm::Flag,
                help: "Read resources from the database instead of caching them in memory",
            },
            OptionText {
                name: "admin-port",
                form: OptionForm::Optional("N"),
                help: "Port for administrators; 0 picks a free port (default: no such port)",
            },
            OptionText {
                name: "admin-tokens",
                form: OptionForm::Optional("FILE"),
                help: "File of the administrators' bearer tokens, in the form of --tokens; given with --admin-port",
            },
            OptionText {
                name: "audit-log",
                form: OptionForm::Optional("FILE"),
                help: "File to which the line of each row of the audit is appended",
            },
        ],
    },
    CommandText {
        command: CommandName::Replay,
        about: "Replay recorded connection events over a users file and print the output to each connection",
        options: &[
            POLICY,
            TOKENS,
            USERS,
            OptionText {
                name: "events",
                form: OptionForm::Required("FILE"),
                help: "Events file, one event per line: MOMENT FIRST joined N, MOMENT FIRST piece N HEX or MOMENT FIRST left N",
            },
            BASE,
        ],
    },
    CommandText {
        command: CommandName::Explain,
        about: "Explain why the policy allows or denies an operation on a stored resource",
        options: &[
            POLICY,
            DATABASE,
            CLIENT,
            OptionText {
                name: "op",
                form: OptionForm::Required("OP"),
                help: "Operation: read, create, modify or delete",
            },
            OptionText {
                name: "kind",
                form: OptionForm::Required("KIND"),
                help: "Resource type: User or Group",
            },
            OptionText {
                name: "id",
                form: OptionForm::Required("ID"),
                help: "Id of the resource",
            },
            OptionText {
                name: "path",
                form: OptionForm::Optional("PATH"),
                help: "Attribute or sub-attribute as in a policy, such as emails.value (default: all)",
            },
        ],
    },
    CommandText {
        command: CommandName::Import,
        about: "Import a users file into an empty or new database",
        options: &[
            DATABASE,
            USERS,
            OptionText {
                name: "foreign",
                form: OptionForm::Flag,
                help: "The users file is what another SCIM server exports: a list reply, or a list of resources",
            },
            OptionText {
                name: "merge",
                form: OptionForm::Flag,
                help: "Add to what the database has: create the resources whose ids it doesn't have, replace the others",
            },
        ],
    },
    CommandText {
        command: CommandName::Export,
        about: "Export the resources of a database as a users file",
        options: &[DATABASE],
    },
    CommandText {
        command: CommandName::Audit,
        about: "Print rows of the audit, one per line",
        options: &[
            DATABASE,
            OptionText {
                name: "from",
                form: OptionForm::WithDefault("N", DEFAULT_FROM),
                help: "Number of the first row that may be printed",
            },
            OptionText {
                name: "count",
                form: OptionForm::Optional("N"),
                help: "Print at most this many rows, the first that fit (default: 100)",
            },
            OptionText {
                name: "last",
                form: OptionForm::Optional("N"),
                help: "Print at most this many rows, the last that fit; not together with --count",
            },
            OptionText {
                name: "client",
                form: OptionForm::Optional("NAME"),
                help: "Only rows of this client",
            },
            OptionText {
                name: "since",
                form: OptionForm::Optional("MOMENT"),
                help: "Only rows from this moment on, such as 2024-06-01T12:00:00Z",
            },
            OptionText {
                name: "refusal",
                form: OptionForm::Optional("F"),
                help: "Only rows with this refusal: F1 to F21",
            },
            OptionText {
                name: "json",
                form: OptionForm::Flag,
                help: "Print each row as a JSON object",
            },
        ],
    },
    CommandText {
        command: CommandName::Archive,
        about: "Move a database with its audit to an archive, and go on with its resources and an empty audit",
        options: &[
            DATABASE,
            OptionText {
                name: "to",
                form: OptionForm::Required("FILE"),
                help: "File of the archive, which must not exist",
            },
        ],
    },
    CommandText {
        command: CommandName::Token,
        about: "Print a new random token, and its line for the token file",
        options: &[CLIENT],
    },
];

/// Builds the parser of the command line.
pub fn command<'a>(alloc: Global) -> Result<Command<'a>, AllocError> {
    let mut root = Command::new(alloc, "scimd")
        .version(VERSION)
        .about("A SCIM 2.0 service provider that is proved to enforce its access policy")
        .subcommand_required(true)
        .arg_required_else_help(true);
    for text in COMMANDS {
        root = with(root, command_of(alloc, text))?;
    }
    Ok(root)
}

/// Adds a command to the command line. If the command couldn't be built, returns its error.
fn with<'a>(
    root: Command<'a>,
    command: Result<Command<'a>, AllocError>,
) -> Result<Command<'a>, AllocError> {
    match command {
        Ok(command) => root.subcommand(command),
        Err(error) => Err(error),
    }
}

/// Builds a command with its options.
fn command_of<'a>(alloc: Global, text: CommandText) -> Result<Command<'a>, AllocError> {
    let mut command = Command::new(alloc, text.command.name()).about(text.about);
    for option in text.options {
        command = command.arg(option_of(alloc, *option))?;
    }
    Ok(command)
}

/// Builds an option, which is given as two hyphens and its name.
fn option_of<'a>(alloc: Global, text: OptionText) -> Arg<'a> {
    let option = Arg::new(alloc, text.name).long(text.name).help(text.help);
    match text.form {
        OptionForm::Required(value) => option.value_name(value).required(true),
        OptionForm::Optional(value) => option.value_name(value),
        OptionForm::WithDefault(value, default) => {
            option.value_name(value).default_value(default)
        }
        OptionForm::Flag => option.action(ArgAction::SetTrue),
    }
}

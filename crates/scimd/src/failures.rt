//! The failures of commands.
use scim_command::CommandFault;

/// The failure of a command: its error, and a second line that says more, if the command has one.
#[derive(Drop)]
pub(crate) struct Failure {
    pub(crate) fault: CommandFault,
    pub(crate) detail: Option<String>,
}

impl From<CommandFault> for Failure {
    fn from(fault: CommandFault) -> Failure {
        Failure {
            fault,
            detail: None,
        }
    }
}

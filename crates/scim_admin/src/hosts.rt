//! What the administrator's port needs of the system.
ghost use Rattle.std.specs.Prelude.{IfOk};
ghost use Rattle.scim_admin.specs.Reloads.{HasKnownTokens};

use scim_policy::Policy;
use scim_token::Tokens;
use std::alloc::Global;

/// The settings that can change while a server runs.
#[derive(Drop)]
pub struct Setting {
    /// The policy.
    pub policy: Policy,
    /// The clients' tokens.
    pub tokens: Tokens,
    /// The administrators' tokens.
    pub admin_tokens: Tokens,
    /// How many rules and tokens these are, for people, such as `5 rules, 3 tokens`.
    pub summary: String,
}

/// What the administrator's port needs of the system.
pub trait Host {
    ghost use Rattle.std.specs.Prelude.{⊤};
    ghost use Rattle.scim_admin.specs.declared.hosts.Setting.{Setting};

    /// `reload` of the host may return the setting. By default it says nothing.
    ghost gives: { Self → Setting → Type 0 } = { λ _ _. ⊤ };

    /// Returns the nanoseconds since some moment in the past. The clock never goes back.
    fn nanos(&mut self) -> u64;

    /// Whether the files of the database are still those that were opened.
    fn has_files(&mut self) -> bool;

    /// Appends a line, given without a line feed, to the log of the audit, if there is one.
    fn append(&mut self, line: &str);

    /// Writes a line, given without a line feed, for the operator.
    fn log(&mut self, line: &str);

    /// Reads the policy and both token files, and returns what they say if all are valid and no token of a
    /// client is one of an administrator. Otherwise returns one line that describes the first fault.
    fn reload(&mut self, alloc: Global) -> Result<Setting, String>
        ensures known { IfOk result HasKnownTokens }
        ensures given { IfOk result (gives self.old) };
}

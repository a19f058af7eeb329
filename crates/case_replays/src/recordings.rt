//! The recording of a case: the texts of its files and of its events.
use case_values::{Case, CaseFault, policy_text, said, text_or_json};
use scim_command::Recording;
use scim_samples::{BASE, USERS};

/// The default token file. The token of the client `hr` is `abc`, and the token of the client `mail` is
/// `hello`.
const TOKENS: &str =
    "hr ba7816bf8f01cfea414140de5dae2223b00361a396177a9cb410ff61f20015ad\nmail 2cf24dba5fb0a30e26e83b2ac5b9e29e1b161e5c1fa7425e73043362938b9824\n";

/// The texts of a recording.
pub(crate) struct Texts {
    policy: String,
    tokens: String,
    users: String,
    base: String,
    events: String,
}

impl Drop for Texts {
    fn drop(self) {
        let Texts {
            policy: _policy,
            tokens: _tokens,
            users: _users,
            base: _base,
            events: _events,
        } = self;
    }
}

impl Texts {
    /// Returns the texts with these events, and with the policy, tokens, users and base of a case. By default
    /// the tokens are [`TOKENS`], and the policy, users and base are the samples.
    pub(crate) fn of(case: &Case<'_>, events: String) -> Result<Texts, CaseFault> {
        Texts::over(case, "users", events)
    }

    /// Returns the texts as [`Texts::of`] does, with the users in the argument `users` of the case.
    pub(crate) fn over(
        case: &Case<'_>,
        users: &'static str,
        events: String,
    ) -> Result<Texts, CaseFault> {
        Ok(Texts {
            policy: policy_text(case)?,
            tokens: said(case.alloc, case.text_or("tokens", TOKENS))?,
            users: text_or_json(case, users, USERS)?,
            base: said(case.alloc, case.text_or("base", BASE))?,
            events,
        })
    }

    /// Returns the recording with these texts.
    pub(crate) fn recording(&self) -> Recording<'_> {
        Recording {
            policy: self.policy.as_str(),
            tokens: self.tokens.as_str(),
            users: self.users.as_str(),
            events: self.events.as_str(),
            base: self.base.as_str(),
        }
    }
}

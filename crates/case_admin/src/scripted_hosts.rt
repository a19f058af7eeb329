//! A system whose clock and files are given by a case.
ghost use Rattle.std.specs.Prelude.{IfOk};
ghost use Rattle.case_admin.specs.Hosts.{KnowsSome};
ghost use Rattle.scim_admin.specs.Reloads.{HasKnownTokens};

use case_values::{Case, CaseFault, policy_text, push_all, said, shown, text_or_json};
use scim_admin::{Host, Setting};
use scim_command::RunFault;
use scim_policy::Policy;
use scim_policy_file::read_policy;
use scim_text::{Failed, NoMemory};
use scim_token::{TokenFault, Tokens};
use std::alloc::Global;

/// The nanoseconds between two readings of the clock: a millisecond.
const STEP: u64 = 1_000_000;

/// The texts of the policy file and of both token files.
#[derive(Drop)]
pub(crate) struct Texts {
    pub(crate) policy: String,
    pub(crate) tokens: String,
    pub(crate) admin_tokens: String,
}

/// The default token file. The token of the client `hr` is `abc`, and the token of the client `mail` is
/// `hello`.
const TOKENS: &str =
    "hr ba7816bf8f01cfea414140de5dae2223b00361a396177a9cb410ff61f20015ad\nmail 2cf24dba5fb0a30e26e83b2ac5b9e29e1b161e5c1fa7425e73043362938b9824\n";

/// The default token file of the administrators. The token of the administrator `ops` is `open`.
const ADMIN_TOKENS: &str = "ops 2348f998744212575d85959674f9607ab26f67708a917157472832386337c904\n";

impl Texts {
    /// Returns the texts in the arguments `policy`, `tokens` and `admin_tokens` of a case.
    pub(crate) fn of(case: &Case<'_>) -> Result<Texts, CaseFault> {
        Ok(Texts {
            policy: policy_text(case)?,
            tokens: said(case.alloc, case.text_or("tokens", TOKENS))?,
            admin_tokens: said(case.alloc, case.text_or("admin_tokens", ADMIN_TOKENS))?,
        })
    }

    /// Returns the texts in the arguments `then_policy`, `then_tokens` and `then_admin_tokens` of a case, by
    /// default those of [`Texts::of`].
    pub(crate) fn then(case: &Case<'_>) -> Result<Texts, CaseFault> {
        let Texts {
            policy,
            tokens,
            admin_tokens,
        } = Texts::of(case)?;
        Ok(Texts {
            policy: text_or_json(case, "then_policy", policy.as_str())?,
            tokens: text_or_json(case, "then_tokens", tokens.as_str())?,
            admin_tokens: text_or_json(case, "then_admin_tokens", admin_tokens.as_str())?,
        })
    }

    /// Returns what the files say. Fails with the fault of the first one that isn't valid.
    pub(crate) fn read(&self, alloc: Global) -> Result<Files, RunFault>
        ensures known { IfOk result (λ files.
            KnowsSome files.tokens × KnowsSome files.admin_tokens) }
    {
        let policy = read_policy(alloc, self.policy.as_str())?;
        let tokens = read_tokens(alloc, self.tokens.as_str())?;
        let admin_tokens = read_admin_tokens(alloc, self.admin_tokens.as_str(), &tokens)?;
        Ok(Files {
            policy,
            tokens,
            admin_tokens,
        })
    }

    /// Returns the setting that the files say. Fails likewise.
    fn setting(&self, alloc: Global) -> Result<Setting, RunFault>
        ensures known { IfOk result HasKnownTokens }
    {
        let Files {
            policy,
            tokens,
            admin_tokens,
        } = self.read(alloc)?;
        let summary = summary_of(alloc, &policy, &tokens, &admin_tokens)?;
        Ok(Setting {
            policy,
            tokens,
            admin_tokens,
            summary,
        })
    }
}

/// What the policy file and both token files say.
#[derive(Drop)]
pub(crate) struct Files {
    pub(crate) policy: Policy,
    pub(crate) tokens: Tokens,
    pub(crate) admin_tokens: Tokens,
}

/// Returns how many rules and tokens there are.
fn summary_of(
    alloc: Global,
    policy: &Policy,
    tokens: &Tokens,
    admin_tokens: &Tokens,
) -> Result<String, NoMemory> {
    let rules = policy.rules();
    let tokens = tokens.count();
    let admin_tokens = admin_tokens.count();
    Ok(format!(in alloc; "rules: {rules}, tokens: {tokens}, admin tokens: {admin_tokens}")?)
}

/// Reads the tokens of the clients.
fn read_tokens(alloc: Global, text: &str) -> Result<Tokens, RunFault>
    ensures known { IfOk result KnowsSome }
{
    match Tokens::read(alloc, text) {
        Ok(tokens) => Ok(tokens),
        Err(Failed::Because(TokenFault { line, .. })) => Err(RunFault::Tokens(line)),
        Err(Failed::NoMemory) => Err(RunFault::NoMemory),
    }
}

/// Reads the tokens of the administrators. Fails with `SharedToken` if one of them is a client's.
fn read_admin_tokens(alloc: Global, text: &str, clients: &Tokens) -> Result<Tokens, RunFault>
    ensures known { IfOk result KnowsSome }
{
    if let Some(line) = clients.first_shared(text) {
        return Err(RunFault::SharedToken(line));
    }
    match Tokens::read(alloc, text) {
        Ok(tokens) => Ok(tokens),
        Err(Failed::Because(TokenFault { line, .. })) => Err(RunFault::AdminTokens(line)),
        Err(Failed::NoMemory) => Err(RunFault::NoMemory),
    }
}

/// The system of a case.
#[derive(Drop)]
pub(crate) struct ScriptedHost {
    alloc: Global,
    /// The last reading of the clock.
    nanos: u64,
    /// How often the files of the database are found.
    files: usize,
    /// What is read when the setting is read again.
    texts: Texts,
    /// The lines for the operator, and those of the log of the audit, each with a word before it.
    log: String,
    audit_log: String,
}

impl ScriptedHost {
    /// Returns a system where the files of the database are found `files` times, and these texts are read when
    /// the setting is read again.
    pub(crate) fn new(alloc: Global, files: usize, texts: Texts) -> ScriptedHost {
        ScriptedHost {
            alloc,
            nanos: 0,
            files,
            texts,
            log: String::new(alloc),
            audit_log: String::new(alloc),
        }
    }

    /// Returns the lines for the operator, with `log` before each.
    pub(crate) fn log(&self) -> &str {
        self.log.as_str()
    }

    /// Returns the lines of the log of the audit, with `row` before each.
    pub(crate) fn audit_log(&self) -> &str {
        self.audit_log.as_str()
    }
}

impl Host for ScriptedHost {
    fn nanos(&mut self) -> u64 {
        self.nanos = self.nanos.saturating_add(STEP);
        self.nanos
    }

    fn has_files(&mut self) -> bool {
        let is_found = self.files > 0;
        self.files = self.files.saturating_sub(1);
        is_found
    }

    fn append(&mut self, line: &str) {
        // If the line is lost, the case fails.
        let _kept = push_all(&mut self.audit_log, &["row ", line, "\n"]);
    }

    fn log(&mut self, line: &str) {
        let _kept = push_all(&mut self.log, &["log ", line, "\n"]);
    }

    fn reload(&mut self, alloc: Global) -> Result<Setting, String> {
        match self.texts.setting(alloc) {
            Ok(setting) => Ok(setting),
            Err(fault) => Err(text_of(alloc, &fault)),
        }
    }
}

/// Returns the text of a fault, or an empty text if memory runs out.
fn text_of(alloc: Global, fault: &RunFault) -> String {
    match shown(alloc, fault) {
        Ok(text) => text,
        Err(_) => String::new(alloc),
    }
}

//! The command `check`: validates a policy file and, on demand, describes its rules and warns of mistakes.
ghost use Rattle.std.specs.Prelude.{◌≡◌, ◌≢◌, ℕ, List, Err, IfOk, IfErr, OnOk, string_bytes};
ghost use Rattle.std.specs.Io.KnownBytes.{Appends};
ghost use Rattle.std.specs.Option.{option_copied};
ghost use Rattle.scim_policy_file.specs.File.{policy_of};
ghost use Rattle.scim_policy_file.specs.declared.faults.Cause.{Cause};
ghost use Rattle.scim_wire.specs.Streams.{AppendsFront};
ghost use Rattle.scim_command.specs.Check as spec;
ghost use Rattle.scim_command.specs.declared.faults.RunFault.{RunFault};
ghost use Rattle.scim_command.specs.code.Exits.{IsOfChecked};
ghost use Rattle.scim_command.specs.code.ReplayExits.{IsOfTokens};

use crate::faults::RunFault;
use crate::token_files::read_tokens;
use crate::writing::write_or_fault;
use scim_explain::{idle_rules, print_idle_rules};
use scim_policy::Policy;
use scim_policy_file::read_policy;
use scim_policy_sentences::rule_sentences;
use scim_policy_warnings::{print_warnings, token_warnings, warnings};
use scim_text::NoMemory;
use std::alloc::Global;
use std::io::Write;

/// Validates a policy file and, if it is given, a token file, and writes a line with the number of rules. If `verbose`
/// is true, also writes each rule as a sentence, then the rules that can never decide, then warnings of rules that allow
/// something in vain. With a token file, also writes a line for each client that has no token or no rule.
///
/// Fails with `Policy` or `Tokens` if a file is invalid. Fails with `Output` if a write fails; then a prefix of the
/// lines' text, which may be empty or all of it, has been written. After any other error nothing is written.
pub fn check<W: Write>(
    alloc: Global,
    policy: &str,
    tokens: Option<&str>,
    verbose: bool,
    writer: &mut W,
) -> Result<(), RunFault>
    ensures told { OnOk result ((text : List ℕ)
        × spec.IsCheckText policy.now (option_copied tokens.entry) verbose text
        × Appends (W.contents writer.old) (W.contents writer.new) text) }
    ensures policy { (rule : ℕ) (cause : Cause) → result ≡ Err (RunFault.Policy rule cause)
        → policy_of policy.now ≡ Err (record { rule = rule; cause = cause }) }
    ensures output { result ≡ Err RunFault.Output → (text : List ℕ)
        × spec.IsCheckText policy.now (option_copied tokens.entry) verbose text
        × AppendsFront (W.contents writer.old) (W.contents writer.new) text }
    ensures silent { IfErr result (λ f. f ≢ RunFault.Output → writer.new ≡ writer.old) }
    ensures faults { IfErr result spec.IsCheckFault }
{
    let text = check_text(alloc, policy, tokens, verbose)?;
    write_or_fault(text.as_str(), writer)
}

/// Returns the text that `check` writes for a policy file and a token file.
///
/// Fails with `Policy` or `Tokens` if a file is invalid.
fn check_text(
    alloc: Global,
    policy: &str,
    tokens: Option<&str>,
    verbose: bool,
) -> Result<String, RunFault>
    ensures text { IfOk result (λ text.
        spec.IsCheckText policy.now (option_copied tokens.entry) verbose (string_bytes text)) }
    ensures policy { (rule : ℕ) (cause : Cause) → result ≡ Err (RunFault.Policy rule cause)
        → policy_of policy.now ≡ Err (record { rule = rule; cause = cause }) }
    ensures fault { IfErr result IsOfChecked }
{
    let policy = read_policy(alloc, policy)?;
    let lines = token_lines(alloc, &policy, tokens)?;
    Ok(report(alloc, &policy, verbose, lines.as_str())?)
}

/// Returns the lines about the clients that have no token or no rule; no text without a token file.
///
/// Fails with `Tokens` if the token file is invalid.
fn token_lines(alloc: Global, policy: &Policy, tokens: Option<&str>) -> Result<String, RunFault>
    ensures lines { IfOk result (λ text.
        spec.AreTokenLines policy.now (option_copied tokens.entry) (string_bytes text)) }
    ensures fault { IfErr result IsOfTokens }
{
    let Some(tokens) = tokens else {
        return Ok(String::new(alloc));
    };
    let _valid = read_tokens(alloc, tokens)?;
    Ok(token_warnings(alloc, policy, tokens)?)
}

/// Returns the number of rules, their description if `verbose` is true, and then these lines.
fn report(alloc: Global, policy: &Policy, verbose: bool, lines: &str) -> Result<String, NoMemory>
    ensures { IfOk result (λ text. string_bytes text
        ≡ spec.report verbose policy.now lines.now) }
{
    let count = policy.rules();
    let description = description(alloc, policy, verbose)?;
    Ok(format!(in alloc; "ok, {count} rules\n{description}{lines}")?)
}

/// If `verbose` is true, returns each rule as a sentence, then the rules that can never decide, then the warnings.
/// Otherwise returns the empty text.
fn description(alloc: Global, policy: &Policy, verbose: bool) -> Result<String, NoMemory>
    ensures { IfOk result (λ text. string_bytes text ≡ spec.description verbose policy.now) }
{
    if !verbose {
        return Ok(String::new(alloc));
    }
    let sentences = rule_sentences(alloc, policy)?;
    let idle = idle_rules(alloc, policy)?;
    let idle = print_idle_rules(alloc, idle.as_slice())?;
    let found = warnings(alloc, policy)?;
    let warnings = print_warnings(alloc, found.as_slice())?;
    Ok(format!(in alloc; "{sentences}{idle}{warnings}")?)
}

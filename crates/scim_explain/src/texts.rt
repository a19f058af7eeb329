//! Prints explanations.
ghost use Rattle.std.specs.Prelude.{◌≡◌, IfOk, string_bytes};
ghost use Rattle.scim_explain.specs.Texts as spec;

use crate::explanations::{Earlier, Explanation};
use scim_policy::Misfit;
use scim_text::NoMemory;
use std::alloc::Global;

/// The word for the part of a rule that doesn't fit, such as `client` or `path`.
fn misfit_word(misfit: Misfit) -> &'static str
    ensures { result.now ≡ spec.misfit_word misfit }
{
    match misfit {
        Misfit::Client => "client",
        Misfit::Op => "op",
        Misfit::Kind => "type",
        Misfit::Path => "path",
        Misfit::Target => "target",
    }
}

/// Returns `allow` or `deny`.
pub fn effect_word(allow: bool) -> &'static str
    ensures { result.now ≡ spec.effect_word allow }
{
    if allow { "allow" } else { "deny" }
}

/// The line `rule N: WORD` with a line feed at its end. `word` is a word or sentence about the rule.
pub fn rule_line(alloc: Global, number: usize, word: &str) -> Result<String, NoMemory>
    ensures { IfOk result (λ line. string_bytes line ≡ spec.rule_line number word.now) }
{
    Ok(format!(in alloc; "rule {number}: {word}\n")?)
}

/// What is said of a rule before the deciding one: the part of it that doesn't fit, or `allow in part` or
/// `deny in part`.
fn entry_word(entry: Earlier) -> &'static str
    ensures { result.now ≡ spec.entry_word entry }
{
    match entry {
        Earlier::Misfit(misfit) => misfit_word(misfit),
        Earlier::InPart(true) => "allow in part",
        Earlier::InPart(false) => "deny in part",
    }
}

/// Prints a line for each entry. The first entry is of rule 1, the second of rule 2, and so on.
fn entry_lines(alloc: Global, entries: &[Earlier]) -> Result<String, NoMemory>
    ensures { IfOk result (λ text. string_bytes text ≡ spec.entry_lines 1 entries.now) }
{
    let mut text = String::new(alloc);
    for (index, entry) in entries.iter().enumerate() {
        let line = rule_line(alloc, index + 1, entry_word(*entry))?;
        text.push_str(line.as_str())?;
    }
    Ok(text)
}

/// Prints an explanation, each entry on a line.
///
/// Each rule before the one that decided, or each rule if none decided, has a line with `rule N: ` and the
/// part that doesn't fit: `client`, `op`, `type`, `path` or `target`; or, if it fits but covers the leaf at
/// some values only, `allow in part` or `deny in part`. The last line has `rule N: ` with the number of the
/// rule that decided, or 0, and `allow` or `deny`.
pub fn print(alloc: Global, explanation: &Explanation) -> Result<String, NoMemory>
    ensures { IfOk result (λ text. string_bytes text ≡ spec.explanation_text explanation.now) }
{
    let mut text = entry_lines(alloc, explanation.entries())?;
    let decision = explanation.decision();
    let line = rule_line(alloc, decision.rule as usize, effect_word(decision.allow))?;
    text.push_str(line.as_str())?;
    Ok(text)
}

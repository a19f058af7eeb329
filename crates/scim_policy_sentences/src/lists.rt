//! Lists of words in a sentence.
ghost use Rattle.std.specs.Prelude.{◌≡◌, ◌==◌, ◌++◌, ◌<◌, ◌+◌, IfOk, OnOk, map, string_bytes, if◌then◌else◌};
ghost use Rattle.scim_policy_sentences.specs.Lists as spec;

use scim_text::NoMemory;
use std::alloc::Global;

/// Joins words as in a sentence: `a`, `a and b`, `a, b and c`, or `nothing` if there are no words.
pub(crate) fn listed(alloc: Global, words: &[String]) -> Result<String, NoMemory>
    ensures { IfOk result (λ text. string_bytes text ≡ spec.listed (map string_bytes words.now)) }
{
    joined(alloc, words, ", ", " and ")
}

/// Joins words with separators: `last` before the last word, and `mark` between the other words. Returns
/// `nothing` if there are no words.
pub(crate) fn joined(
    alloc: Global,
    words: &[String],
    mark: &str,
    last: &str,
) -> Result<String, NoMemory>
    ensures { IfOk result (λ text. string_bytes text
        ≡ spec.joined mark.now last.now (map string_bytes words.now)) }
{
    if words.is_empty() {
        return Ok(String::from_str(alloc, "nothing")?);
    }
    let mut text = String::from_str(alloc, words[0].as_str())?;
    push_further(&mut text, &words[1..], mark, last)?;
    Ok(text)
}

/// Appends all words except the first, each after its separator: `last` before the last word, `mark` before
/// each other word. On an error `text` may have some of the words.
fn push_further(text: &mut String, words: &[String], mark: &str, last: &str) -> Result<(), NoMemory>
    ensures { OnOk result (string_bytes text.new
        ≡ string_bytes text.old ++ spec.further mark.now last.now (map string_bytes words.now)) }
{
    for (index, word) in words.iter().enumerate() {
        text.push_str(mark_before(index, words.len(), mark, last))?;
        text.push_str(word.as_str())?;
    }
    Ok(())
}

/// The separator before the word at `index`: `last` if it is the last of `count` words, `mark` otherwise.
fn mark_before<'m>(index: usize, count: usize, mark: &'m str, last: &'m str) -> &'m str
    requires { index < count }
    ensures { result.now ≡ (if index + 1 == count then last.entry.now else mark.entry.now) }
{
    if index + 1 == count { last } else { mark }
}

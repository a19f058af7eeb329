//! Finds the name that a misspelled word may stand for.
ghost use Rattle.std.specs.Prelude.{◌≡◌, ◌++◌, ◌∷◌, ℕ, List, [], map, option_map, IfOk};
ghost use Rattle.std.specs.List.{list_any};
ghost use Rattle.scim_text.specs.Names.{folded};
ghost use Rattle.scim_schema.specs.Lookup.{is_same_text};
ghost use Rattle.scim_fault_details.specs.Nearest as spec;
ghost use Rattle.scim_fault_details.specs.code.BestName.{IsBest};
ghost use Rattle.scim_fault_details.specs.code.Borrowed.{text_at};

use scim_text::{NoMemory, fold};
use std::alloc::Global;
use std::fmt;
use strsim::levenshtein;

/// The largest length, in bytes, of a word for which a name is looked for.
const LONGEST_WORD: usize = 60;

/// The least length, in bytes, of a word that may be the beginning of a name.
const SHORTEST_BEGINNING: usize = 3;

/// The most edits that lead from a word to a name near it: a third of the word's length, but 1 or 2.
fn most_edits(word: &str) -> usize
    ensures { result ≡ spec.most_edits word.now }
{
    (word.len() / 3).clamp(1, 2)
}

/// Whether the word is the beginning of the name, and has three bytes or more.
fn is_beginning(word: &str, name: &str) -> bool
    ensures { result ≡ spec.is_beginning word.now name.now }
{
    SHORTEST_BEGINNING <= word.len() && name.as_bytes().starts_with(word.as_bytes())
}

/// The number of edits that lead from one text to another: characters inserted, removed or replaced. They
/// count as 1 at most if the first text is the beginning of the second.
fn distance(alloc: Global, word: &str, name: &str) -> Result<usize, NoMemory>
    ensures { IfOk result (λ d. d ≡ spec.distance word.now name.now) }
{
    let edits = levenshtein(alloc, word, name)?;
    if is_beginning(word, name) {
        Ok(edits.min(1))
    } else {
        Ok(edits)
    }
}

/// Whether the word is one of the names.
pub(crate) fn is_among(word: &str, names: &[&'static str]) -> bool
    ensures { result ≡ list_any (is_same_text word.now) (map text_at names.now) }
{
    names.iter().any(|name| word == *name)
}

/// The nearest of the names that were compared with a word.
#[derive(Clone, Copy)]
struct Best {
    /// `None` if no name is near the word.
    name: Option<&'static str>,
    /// A name that is nearer has fewer edits.
    bound: usize,
}

/// The nearest name, after one more name is compared, which has this number of edits.
fn nearer(best: Best, name: &'static str, edits: usize) -> Best
    ensures { (word : List ℕ) (names : List (List ℕ))
        → edits ≡ spec.distance word (folded name.now) → IsBest word names best
        → IsBest word (names ++ name.now ∷ []) result }
{
    if edits < best.bound {
        Best {
            name: Some(name),
            bound: edits,
        }
    } else {
        best
    }
}

/// Returns the name nearest to the word, ignoring case: the first of those with the least distance. Returns
/// `None` if no name is near, or the word has more than 60 bytes.
pub(crate) fn nearest(
    alloc: Global,
    word: &str,
    names: &[&'static str],
) -> Result<Option<&'static str>, NoMemory>
    ensures { IfOk result (λ found. spec.IsNearestOf word.now (map text_at names.now)
        (option_map text_at found)) }
{
    if word.len() > LONGEST_WORD {
        return Ok(None);
    }
    let word = fold(alloc, word)?;
    nearest_folded(alloc, word.as_str(), names)
}

/// Returns the name nearest to a folded word: the first of those with the least distance. Returns `None` if
/// no name is near.
fn nearest_folded(
    alloc: Global,
    word: &str,
    names: &[&'static str],
) -> Result<Option<&'static str>, NoMemory>
    ensures { IfOk result (λ found. spec.IsNearestFolded word.now (map text_at names.now)
        (option_map text_at found)) }
{
    let mut best = Best {
        name: None,
        bound: most_edits(word) + 1,
    };
    for name in names {
        let folded = fold(alloc, name)?;
        best = nearer(best, name, distance(alloc, word, folded.as_str())?);
    }
    Ok(best.name)
}

/// What stands behind a misspelled word: the nearest name, if there is one.
#[derive(Clone, Copy)]
pub(crate) struct Suggestion<'a, T>(pub(crate) &'a Option<T>);

impl<T: fmt::Display> fmt::Display for Suggestion<'_, T> {
    fn fmt<W: fmt::Write>(&self, f: &mut fmt::Formatter<W>) -> fmt::Result {
        match self.0 {
            Some(name) => write!(f, " (did you mean \"{name}\"?)"),
            None => Ok(()),
        }
    }
}

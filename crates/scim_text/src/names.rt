//! The comparison of names, and the folding of texts, without regard to case.
ghost use Rattle.std.specs.Prelude.{◌≡◌, IfOk, string_bytes};
ghost use Rattle.scim_text.specs.Names.{is_same_name, folded};

use crate::memory::NoMemory;
use caseless::default_case_fold_str;
use std::alloc::Global;

/// Whether two names are equal without regard to ASCII case, as the names of attributes and schemas
/// are compared (RFC 7643 section 2.1).
pub fn same_name(a: &str, b: &str) -> bool
    ensures { result ≡ is_same_name a.now b.now }
{
    a.eq_ignore_ascii_case(b)
}

/// Returns the text in full Unicode case folding. Texts that differ only in case have the same
/// folding. The server compares and looks up values by their folding if their attribute isn't
/// `caseExact` (RFC 7643 section 2.2).
#[tactic(auto, unfolding(crate::specs::Names::folded))]
pub fn fold(alloc: Global, text: &str) -> Result<String, NoMemory>
    ensures { IfOk result (λ t. string_bytes t ≡ folded text.now) }
{
    Ok(default_case_fold_str(alloc, text)?)
}

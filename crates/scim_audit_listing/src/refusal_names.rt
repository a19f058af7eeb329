//! The texts that name refusals.
ghost use Rattle.std.specs.Prelude.{◌≡◌};
ghost use Rattle.scim_audit_listing.specs.RefusalNames.{FindsRefusal, without_mark};

/// Returns the number of the refusal that a text names: its digits, after `F` or `f` or alone. Returns `None`
/// if the text names no refusal.
pub fn refusal_named(text: &str) -> Option<u8>
    ensures { FindsRefusal text.now result }
{
    let digits = without_mark(text);
    if matches!(digits.as_bytes(), [b'+', ..]) {
        return None;
    }
    match digits.parse::<u8>() {
        Ok(number) if 1 <= number && number <= 21 => Some(number),
        _ => None,
    }
}

/// Returns the text without an `F` or `f` at its start.
fn without_mark(text: &str) -> &str
    ensures { result.now ≡ without_mark text.now }
{
    match text.strip_prefix('F') {
        Some(rest) => rest,
        None => text.strip_prefix('f').unwrap_or(text),
    }
}

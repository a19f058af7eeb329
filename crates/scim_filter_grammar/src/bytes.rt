//! Splits spaces, words and names off the start of a byte slice.

ghost use Rattle.std.specs.Prelude.{◌≡◌, ◌↔◌, IsTrue, Bool, ℕ, map, option_map, IfSome, length, ◌<◌, ◌≤◌};
ghost use Rattle.std.specs.Prelude.{drop};
ghost use Rattle.scim_filter_grammar.specs.Bytes.{is_space, is_word_byte, is_no_colon, front, behind, is_word, past_quote};
ghost use Rattle.scim_filter_grammar.specs.code.Cuts.{is_no_dot, past_gap, past_join, names_in, urn_in};

/// Whether the byte may be part of a word: any byte except a space, a quote or a bracket.
fn is_word_byte_at(byte: u8) -> bool
    ensures { result ≡ is_word_byte byte }
{
    !matches!(byte, b' ' | b'"' | b'(' | b')' | b'[' | b']')
}

/// The bytes after leading spaces.
pub fn skip_spaces(bytes: &[u8]) -> &[u8]
    ensures rest { result.now ≡ behind is_space bytes.now }
    ensures shorter { length result.now ≤ length bytes.now }
{
    let mut rest = bytes;
    while let [b' ', others @ ..] = rest {
        rest = others;
    }
    rest
}

/// Splits off the longest word at the start. Returns the word and the bytes after it.
pub fn split_word(bytes: &[u8]) -> (&[u8], &[u8])
    ensures word { result.0.now ≡ front is_word_byte bytes.now }
    ensures rest { result.1.now ≡ behind is_word_byte bytes.now }
    ensures shorter { length result.1.now ≤ length bytes.now }
{
    let mut end = 0;
    while end < bytes.len() && is_word_byte_at(bytes[end]) {
        end += 1;
    }
    bytes.split_at(end)
}

/// Splits before the first dot. The second part begins with the dot, or is empty if there is no dot.
pub fn split_name(bytes: &[u8]) -> (&[u8], &[u8])
    ensures name { result.0.now ≡ front is_no_dot bytes.now }
    ensures rest { result.1.now ≡ behind is_no_dot bytes.now }
{
    let mut end = 0;
    while end < bytes.len() && bytes[end] != b'.' {
        end += 1;
    }
    bytes.split_at(end)
}

/// Whether `text` is the keyword, in any ASCII case.
pub fn is_keyword(keyword: &[u8], text: &[u8]) -> bool
    ensures { result ≡ is_word keyword.now text.now }
{
    text.eq_ignore_ascii_case(keyword)
}

/// The bytes before the first colon, or all bytes if there is none.
pub fn before_colon(bytes: &[u8]) -> &[u8]
    ensures { result.now ≡ front is_no_colon bytes.now }
{
    let mut end = 0;
    while end < bytes.len() && bytes[end] != b':' {
        end += 1;
    }
    bytes.split_at(end).0
}

/// The bytes after the last colon, or the whole word if there is none.
pub fn skip_urn(word: &[u8]) -> &[u8]
    ensures { result.now ≡ names_in word.now }
{
    let mut names = word;
    let mut rest = word;
    while let [first, others @ ..] = rest {
        if *first == b':' {
            names = others;
        }
        rest = others;
    }
    names
}

/// The bytes before the last colon. `None` if there is no colon.
pub fn urn_before(word: &[u8]) -> Option<&[u8]>
    ensures { option_map (λ u. u.now) result ≡ urn_in word.now }
{
    let names = skip_urn(word);
    if names.len() < word.len() {
        Some(&word[..word.len() - names.len() - 1])
    } else {
        None
    }
}

/// The bytes without the first one. An empty slice stays empty.
pub fn skip_one(bytes: &[u8]) -> &[u8]
    ensures rest { result.now ≡ drop 1 bytes.now }
    ensures shorter { length result.now ≤ length bytes.now }
{
    match bytes {
        [] => bytes,
        [_, behind @ ..] => behind,
    }
}

/// The bytes after the closing quote of a string whose opening quote is already skipped.
///
/// `None` if the string isn't closed. A backslash escapes the next byte.
pub fn skip_string(bytes: &[u8]) -> Option<&[u8]>
    ensures rest { option_map (λ r. r.now) result ≡ past_quote bytes.now }
    ensures shorter { IfSome result (λ r. length r.now ≤ length bytes.now) }
{
    let mut rest = bytes;
    while let [first, behind @ ..] = rest {
        if *first == b'"' {
            return Some(behind);
        }
        rest = if *first == b'\\' {
            skip_one(behind)
        } else {
            behind
        };
    }
    None
}

/// The bytes after one or more leading spaces. `None` if there is no space.
pub fn skip_gap(bytes: &[u8]) -> Option<&[u8]>
    ensures rest { option_map (λ r. r.now) result ≡ past_gap bytes.now }
    ensures shorter { IfSome result (λ r. length r.now < length bytes.now) }
{
    match bytes {
        [b' ', rest @ ..] => Some(skip_spaces(rest)),
        _ => None,
    }
}

/// The bytes after the keyword and the spaces around it. `None` unless `bytes` begins with one or more
/// spaces, the keyword, and one or more spaces.
pub fn skip_join<'a>(keyword: &[u8], bytes: &'a [u8]) -> Option<&'a [u8]>
    ensures rest { option_map (λ r. r.now) result ≡ past_join keyword.now bytes.now }
    ensures shorter { IfSome result (λ r. length r.now < length bytes.now) }
{
    let rest = skip_gap(bytes)?;
    let (word, rest) = split_word(rest);
    if is_keyword(keyword, word) {
        skip_gap(rest)
    } else {
        None
    }
}

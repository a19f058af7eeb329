//! Finds the token of a request.

/// The name of the header that has the token, in lower case and with its colon.
const NAME: &[u8] = b"authorization:";

/// Returns the value of the first header `Authorization` in a part of a stream, as far as it is in there.
/// Bodies may have such lines too: the value decides only whose share of time a request uses.
pub(crate) fn authorization(bytes: &[u8]) -> Option<&[u8]> {
    for line in bytes.split(|byte| *byte == b'\n') {
        if let Some((name, value)) = line.split_at_checked(NAME.len()) {
            if is_name(name) {
                return Some(value);
            }
        }
    }
    None
}

/// Whether the bytes are the name of the header with its colon, in upper or lower case.
fn is_name(bytes: &[u8]) -> bool {
    bytes
        .iter()
        .zip(NAME)
        .all(|(byte, wanted)| byte.to_ascii_lowercase() == *wanted)
}

//! Texts of files, printed on one line.
use std::fmt;

/// The largest number of characters of a word that is printed.
const LONGEST_WORD: usize = 60;

/// A text printed on one line: control characters such as a line feed are escaped as in a Rust string.
#[derive(Clone, Copy)]
pub struct OneLine<'a>(pub &'a str);

/// A text printed on one line, and no more of it than its first 60 characters; three dots stand for the rest.
#[derive(Clone, Copy)]
pub(crate) struct Short<'a>(pub(crate) &'a str);

/// Writes a character. A control character is escaped.
fn write_escaped<W: fmt::Write>(f: &mut fmt::Formatter<W>, character: char) -> fmt::Result {
    if character.is_control() {
        write!(f, "{}", character.escape_default())
    } else {
        write!(f, "{character}")
    }
}

impl fmt::Display for OneLine<'_> {
    fn fmt<W: fmt::Write>(&self, f: &mut fmt::Formatter<W>) -> fmt::Result {
        for character in self.0.chars() {
            write_escaped(f, character)?;
        }
        Ok(())
    }
}

impl fmt::Display for Short<'_> {
    fn fmt<W: fmt::Write>(&self, f: &mut fmt::Formatter<W>) -> fmt::Result {
        for character in self.0.chars().take(LONGEST_WORD) {
            write_escaped(f, character)?;
        }
        if self.0.chars().nth(LONGEST_WORD).is_some() {
            f.write_str("...")?;
        }
        Ok(())
    }
}

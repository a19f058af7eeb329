//! Atoms: the single values in the cells of a resource (RFC 7643 section 2.3).
ghost use Rattle.std.specs.Prelude.{◌≡◌, ◌↔◌, IfOk, IsTrue, string_bytes};

use scim_text::{Moment, NoMemory};
use std::alloc::Global;
use std::marker::Model;

/// An owned text. In contracts, a text is the list of its bytes.
pub struct Text {
    text: String,
}

impl Drop for Text {
    fn drop(self) {
        let Text { text: _text } = self;
    }
}

impl Model for Text {
    ghost use Rattle.std.specs.Prelude.{List, ℕ, string_bytes};

    ghost Value = { List ℕ };

    ghost view = { λ t. string_bytes t.text };
}

impl Text {
    /// Converts a string into a text.
    pub fn new(text: String) -> Text
        ensures { result ≡ string_bytes text }
    {
        Text { text }
    }

    /// Copies a text.
    pub fn copy_of(alloc: Global, text: &str) -> Result<Text, NoMemory>
        ensures { IfOk result (λ t. t ≡ text.now) }
    {
        Ok(Text::new(String::from_str(alloc, text)?))
    }

    /// The text as a slice.
    pub fn as_str(&self) -> &str
        ensures { result.now ≡ self.now }
    {
        self.text.as_str()
    }

    /// The text as a string.
    pub fn into_string(self) -> String
        ensures { string_bytes result ≡ self }
    {
        let Text { text } = self;
        text
    }

    /// Copies this text.
    pub fn try_copy(&self, alloc: Global) -> Result<Text, NoMemory>
        ensures { IfOk result (λ t. t ≡ self.now) }
    {
        Text::copy_of(alloc, self.as_str())
    }
}

/// Texts are equal if their bytes are equal.
impl PartialEq for Text {
    ghost use Rattle.std.specs.Prelude.{nat_eq};
    ghost use Rattle.std.specs.Cmp.{partial_equiv_from_equiv};
    ghost use Rattle.std.specs.Cmp.Lexicographic.{pointwise, nat_list_eq_equiv};

    ghost eq = { pointwise nat_eq };

    ghost laws = { partial_equiv_from_equiv nat_list_eq_equiv };

    fn eq(&self, other: &Text) -> bool
        ensures value { result ≡ pointwise nat_eq self.now other.now }
        ensures exact { IsTrue result ↔ (self.now ≡ other.now) }
    {
        self.as_str() == other.as_str()
    }
}

impl Eq for Text {
    ghost use Rattle.std.specs.Cmp.Lexicographic.{nat_list_eq_equiv};

    ghost laws = { nat_list_eq_equiv };
}

/// The value of a cell.
pub enum Atom {
    /// A string, a binary value or a reference (RFC 7643 sections 2.3.1, 2.3.6 and 2.3.7).
    Text(Text),
    /// A Boolean (RFC 7643 section 2.3.2).
    Truth(bool),
    /// A DateTime (RFC 7643 section 2.3.5).
    Moment(Moment),
}

impl Drop for Atom {
    fn drop(self) {
        match self {
            Atom::Text(_held) => (),
            Atom::Truth(_held) => (),
            Atom::Moment(_held) => (),
        }
    }
}

impl Atom {
    /// Copies this atom.
    pub fn try_copy(&self, alloc: Global) -> Result<Atom, NoMemory>
        ensures { IfOk result (λ a. a ≡ self.now) }
    {
        match self {
            Atom::Text(text) => Ok(Atom::Text(text.try_copy(alloc)?)),
            Atom::Truth(truth) => Ok(Atom::Truth(*truth)),
            Atom::Moment(moment) => Ok(Atom::Moment(*moment)),
        }
    }
}

/// Atoms are equal if they are of the same variant and their values are equal.
impl PartialEq for Atom {
    ghost use Rattle.std.specs.Cmp.{partial_equiv_from_equiv};
    ghost use Rattle.scim_cell.specs.Atoms.{is_same_atom, is_same_atom-IsEquivalence};

    ghost eq = { is_same_atom };

    ghost laws = { partial_equiv_from_equiv is_same_atom-IsEquivalence };

    fn eq(&self, other: &Atom) -> bool
        ensures value { result ≡ is_same_atom self.now other.now }
        ensures exact { IsTrue result ↔ (self.now ≡ other.now) }
    {
        match (self, other) {
            (Atom::Text(a), Atom::Text(b)) => a == b,
            (Atom::Truth(a), Atom::Truth(b)) => a == b,
            (Atom::Moment(a), Atom::Moment(b)) => a == b,
            _ => false,
        }
    }
}

impl Eq for Atom {
    ghost use Rattle.scim_cell.specs.Atoms.{is_same_atom-IsEquivalence};

    ghost laws = { is_same_atom-IsEquivalence };
}

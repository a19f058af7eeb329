//! The strings in a filter.
ghost use Rattle.std.specs.Prelude.{◌≡◌, IfOk, IfOk};
ghost use Rattle.scim_text.specs.Names.{folded};
ghost use Rattle.scim_text.specs.MomentIn.{moment_in};

use scim_cell::Text;
use scim_text::{NoMemory, Reading, fold, read_moment};
use std::alloc::Global;
use std::marker::Model;

/// A string literal. The folded text, and the date and time that the text may spell, are computed once for
/// all comparisons. Contracts represent the literal by its text.
pub struct StringLiteral {
    text: Text,
    folded: Text,
    moment: Option<Reading>,
}

impl Drop for StringLiteral {
    fn drop(self) {
        let StringLiteral {
            text: _text,
            folded: _folded,
            moment: _moment,
        } = self;
    }
}

impl Model for StringLiteral {
    ghost use Rattle.std.specs.Prelude.{List, ℕ};
    ghost use Rattle.scim_filter_grammar.specs.code.Inside.{IsSoundLiteral};

    ghost Value = { List ℕ };

    ghost view = { λ s. s.text };

    ghost invariant = { IsSoundLiteral };
}

/// The date and time that a text spells. `None` if it spells none.
fn moment_of(text: &str) -> Option<Reading>
    ensures { result ≡ moment_in text.now }
{
    read_moment(text).ok()
}

impl StringLiteral {
    /// Makes a string literal with a copy of `text`.
    pub fn copy_of(alloc: Global, text: &str) -> Result<StringLiteral, NoMemory>
        ensures { IfOk result (λ s. s ≡ text.now) }
    {
        let folded = Text::new(fold(alloc, text)?);
        let moment = moment_of(text);
        Ok(StringLiteral {
            text: Text::copy_of(alloc, text)?,
            folded,
            moment,
        })
    }

    /// The decoded text of the string.
    pub fn as_str(&self) -> &str
        ensures { result.now ≡ self.now }
    {
        self.text.as_str()
    }

    /// The text after full case folding, for comparisons with attributes that aren't `caseExact` (RFC 7643
    /// section 2.2).
    pub fn folded(&self) -> &str
        ensures { result.now ≡ folded self.now }
    {
        self.folded.as_str()
    }

    /// The date and time that the text spells (RFC 7643 section 2.3.5). `None` if it spells none.
    pub fn moment(&self) -> Option<Reading>
        ensures { result ≡ moment_in self.now }
    {
        self.moment
    }
}

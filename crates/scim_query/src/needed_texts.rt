//! The texts that a query requires at leaves, by which a caller can look up the possible matches.
ghost use Rattle.std.specs.Prelude.{IfOk, IfSome};
ghost use Rattle.scim_filter_texts.specs.Needed.{AreAt};
ghost use Rattle.scim_query.specs.Needed as spec;

use crate::queries::Query;
use scim_filter_grammar::StringLiteral;
use scim_filter_texts::{NeededText, needed_text, needed_texts};
use scim_schema::Leaf;
use scim_text::NoMemory;
use std::alloc::Global;

impl Query {
    /// Returns a text that every matching part has at the leaf.
    /// Texts compare as with `eq` (RFC 7644 section 3.4.2.2). `None` unless the filter is
    /// `leaf eq "text"`, in the brackets of a value path or not, or a conjunction with such a term.
    pub fn needed_text(&self, leaf: Leaf) -> Option<&StringLiteral>
        ensures { IfSome result (λ text. spec.NeedsText self.now.filter leaf text.now) }
    {
        match &self.filter {
            Some(filter) => needed_text(filter, leaf),
            None => None,
        }
    }

    /// Returns texts at these leaves of which every matching part has at least one.
    /// Texts compare as with `eq` (RFC 7644 section 3.4.2.2). `None` unless the filter is
    /// `leaf eq "text"` with one of the leaves, in the brackets of a value path or not, a conjunction with such a
    /// term, or a disjunction of such terms.
    pub fn needed_texts(
        &self,
        alloc: Global,
        leaves: &[Leaf],
    ) -> Result<Option<Vec<NeededText<'_>>>, NoMemory>
        ensures needed { IfOk result (λ o. IfSome o (λ texts.
            spec.NeedsSome self.now.filter texts.items)) }
        ensures leaves { IfOk result (λ o. IfSome o (λ texts. AreAt leaves.now texts.items)) }
    {
        match &self.filter {
            Some(filter) => needed_texts(alloc, filter, leaves),
            None => Ok(None),
        }
    }
}

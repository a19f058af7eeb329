//! Restricts which fields of a part a filter may see.
ghost use Rattle.std.specs.Prelude.{◌≡◌, ◌&&◌, Bool, true};
ghost use Rattle.std.specs.List.{list_any};
ghost use Rattle.scim_cell.specs.declared.rows.Field.{Field};
ghost use Rattle.scim_filter.specs.code.Looks.{admitted, stays};

use scim_cell::{Field, Row, RowTest};
use scim_schema::Leaf;

/// The fields that a filter may see.
#[derive(Drop)]
pub(crate) enum Look<'a, T> {
    /// All fields.
    Everything,
    /// The fields that the test admits. A row without an admitted field counts as absent.
    Admitted(&'a T),
}

/// Fills the type parameter of `Look::Everything`; its test is never called.
pub(crate) struct NoTest;

impl RowTest for NoTest {
    ghost use Rattle.std.specs.Prelude.{true};

    ghost keeps = { λ self row leaf. true };

    fn is_kept(&self, _row: &Row, _leaf: Leaf) -> bool {
        true
    }
}

impl<T: RowTest> Look<'_, T> {
    /// Whether the filter may see the row's field of this leaf.
    #[tactic(auto, unfolding(crate::specs::code::Looks::admitted))]
    pub(crate) fn admits(&self, row: &Row, leaf: Leaf) -> bool
        ensures { result ≡ admitted T.keeps self.now row.now leaf }
    {
        match self {
            Look::Everything => true,
            Look::Admitted(test) => test.is_kept(row, leaf),
        }
    }

    /// The fields of a row that must be checked one by one: no fields if the test rules out the whole row,
    /// else all fields.
    ///
    /// An empty slice for a hidden row saves reading the row's fields from memory.
    pub(crate) fn fields<'r>(&self, row: &'r Row) -> &'r [Field]
        ensures { (passes : Field → Bool)
            → list_any (λ f. admitted T.keeps self.now row.now f.leaf && passes f) result.now
            ≡ list_any (λ f. admitted T.keeps self.now row.now f.leaf && passes f) row.now.fields }
    {
        match self {
            Look::Admitted(test) if !test.may_keep(row) => &[],
            Look::Everything | Look::Admitted(_) => row.fields(),
        }
    }

    /// Whether the filter may see any field of the row.
    pub(crate) fn has_field(&self, row: &Row) -> bool
        ensures { result ≡ list_any (λ f. admitted T.keeps self.now row.now f.leaf
            && true) row.now.fields }
    {
        for field in self.fields(row) {
            if self.admits(row, field.leaf) {
                return true;
            }
        }
        false
    }

    /// Whether the row counts as present. With a test, a row counts only if it has an admitted field.
    #[tactic(auto, unfolding(crate::specs::code::Looks::stays))]
    pub(crate) fn stays(&self, row: &Row) -> bool
        ensures { result ≡ stays T.keeps self.now row.now }
    {
        match self {
            Look::Everything => true,
            Look::Admitted(_) => self.has_field(row),
        }
    }
}

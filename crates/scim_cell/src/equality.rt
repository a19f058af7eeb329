//! Equality of fields and rows.
ghost use Rattle.std.specs.Prelude.{◌≡◌, ◌↔◌, IsTrue};

use crate::rows::{Field, Row};

/// Fields are equal if their leaves and their atoms are equal.
impl PartialEq for Field {
    ghost use Rattle.std.specs.Cmp.{partial_equiv_from_equiv};
    ghost use Rattle.scim_cell.specs.Equality.{is_same_field, is_same_field-IsEquivalence};

    ghost eq = { is_same_field };

    ghost laws = { partial_equiv_from_equiv is_same_field-IsEquivalence };

    fn eq(&self, other: &Field) -> bool
        ensures value { result ≡ is_same_field self.now other.now }
        ensures exact { IsTrue result ↔ (self.now ≡ other.now) }
    {
        self.leaf == other.leaf && self.atom == other.atom
    }
}

impl Eq for Field {
    ghost use Rattle.scim_cell.specs.Equality.{is_same_field-IsEquivalence};

    ghost laws = { is_same_field-IsEquivalence };
}

/// Rows are equal if their units and their fields are equal.
impl PartialEq for Row {
    ghost use Rattle.std.specs.Cmp.{partial_equiv_from_equiv};
    ghost use Rattle.scim_cell.specs.Equality.{is_same_row, is_same_row-IsEquivalence};

    ghost eq = { is_same_row };

    ghost laws = { partial_equiv_from_equiv is_same_row-IsEquivalence };

    fn eq(&self, other: &Row) -> bool
        ensures value { result ≡ is_same_row self.now other.now }
        ensures exact { IsTrue result ↔ (self.now ≡ other.now) }
    {
        self.unit() == other.unit() && self.fields() == other.fields()
    }
}

impl Eq for Row {
    ghost use Rattle.scim_cell.specs.Equality.{is_same_row-IsEquivalence};

    ghost laws = { is_same_row-IsEquivalence };
}

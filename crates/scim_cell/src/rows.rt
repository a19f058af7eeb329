//! Rows: the values of units.
ghost use Rattle.std.specs.Prelude.{◌≡◌, false, IfOk, filter, map};
ghost use Rattle.scim_schema.specs.declared.Leaf.{Leaf};
ghost use Rattle.std.specs.Option.{option_copied};
ghost use Rattle.scim_cell.specs.Rows as spec;

use crate::atoms::Atom;
use scim_schema::{Leaf, SubAttribute, Unit};
use scim_text::{NoMemory, push};
use std::alloc::Global;
use std::marker::Model;

/// One leaf of a value, and the atom at that leaf.
pub struct Field {
    pub leaf: Leaf,
    pub atom: Atom,
}

impl Drop for Field {
    fn drop(self) {
        let Field {
            leaf: _leaf,
            atom: _atom,
        } = self;
    }
}

/// One value of a unit. A value of a multi-valued attribute has one field for each sub-attribute that is
/// present, in order of sub-attribute. A value of any other unit has one field.
pub struct Row {
    unit: Unit,
    fields: Vec<Field>,
}

impl Drop for Row {
    fn drop(self) {
        let Row {
            unit: _unit,
            fields: _fields,
        } = self;
    }
}

impl Model for Row {
    ghost use Rattle.std.specs.Coded.{codes};
    ghost use Rattle.scim_cell.specs.contracts.rows.Field as field;
    ghost use Rattle.scim_schema.specs.contracts.Unit as written;
    ghost use Rattle.scim_cell.specs.Rows.{Row};

    ghost Value = { Row };

    ghost coded = { Prim.hlevel (codes, field.the_row.coded, written.the_row.coded) };

    ghost use Rattle.scim_cell.specs.code.Inside.{row_of};

    ghost view = { row_of };
}

/// A test that decides from the row and the leaf of a field whether `Part::restrict` keeps the field.
pub trait RowTest {
    /// The function that [`RowTest::is_kept`] computes, for use in contracts.
    ghost keeps: { Self → spec.Test };

    /// Whether the row's field at the leaf is kept.
    fn is_kept(&self, row: &Row, leaf: Leaf) -> bool
        ensures { result ≡ keeps self.now row.now leaf };

    /// Returns false only if no field of the row is kept. In that case callers don't read the fields,
    /// which saves a memory access for most rows.
    fn may_keep(&self, row: &Row) -> bool
        ensures { result ≡ false → (leaf : Leaf) → keeps self.now row.now leaf ≡ false }
    {
        true
    }
}

/// A judge that decides from the row and the leaf of a field whether `Part::restrict_by` keeps the field,
/// where deciding may want memory.
pub trait RowJudge {
    /// The function that [`RowJudge::kept`] computes, for use in contracts.
    ghost keeps: { Self → spec.Test };

    /// Returns for each field of the row, in the order of the fields, whether it is kept.
    fn kept(&self, alloc: Global, row: &Row) -> Result<Vec<bool>, NoMemory>
        ensures { IfOk result (λ v. v.items
            ≡ map (λ f. keeps self.now row.now f.leaf) row.now.fields) };
}

impl Field {
    /// Copies the field.
    pub fn try_copy(&self, alloc: Global) -> Result<Field, NoMemory>
        ensures { IfOk result (λ f. f ≡ self.now) }
    {
        let atom = self.atom.try_copy(alloc)?;
        Ok(Field {
            leaf: self.leaf,
            atom,
        })
    }
}

impl Row {
    /// Returns a row with these fields, unchecked. [`crate::are_values`] checks whether rows are valid.
    pub fn new(unit: Unit, fields: Vec<Field>) -> Row
        ensures unit { result.unit ≡ unit }
        ensures fields { result.fields ≡ fields.items }
    {
        Row { unit, fields }
    }

    /// The unit of the value.
    pub fn unit(&self) -> Unit
        ensures { result ≡ self.now.unit }
    {
        self.unit
    }

    /// The fields, in order of sub-attribute.
    pub fn fields(&self) -> &[Field]
        ensures { result.now ≡ self.now.fields }
    {
        self.fields.as_slice()
    }

    /// Converts the row into its fields.
    pub fn into_fields(self) -> Vec<Field>
        ensures { result.items ≡ self.fields }
    {
        let Row { unit: _, fields } = self;
        fields
    }

    /// The atom at a leaf, or `None` if the value has no field there.
    pub fn get(&self, leaf: Leaf) -> Option<&Atom>
        ensures { option_copied result ≡ spec.atom_in leaf self.now.fields }
    {
        for field in self.fields() {
            if field.leaf == leaf {
                return Some(&field.atom);
            }
        }
        None
    }

    /// Whether the value is marked as the primary one (RFC 7643 section 2.4).
    pub fn is_primary(&self) -> bool
        ensures { result ≡ spec.is_primary self.now }
    {
        match self.get(Leaf::of(self.unit.attribute, SubAttribute::Primary)) {
            Some(Atom::Truth(primary)) => *primary,
            _ => false,
        }
    }

    /// Copies the row.
    pub fn try_copy(&self, alloc: Global) -> Result<Row, NoMemory>
        ensures { IfOk result (λ r. r ≡ self.now) }
    {
        let fields = copy_fields(alloc, self.fields())?;
        Ok(Row {
            unit: self.unit(),
            fields,
        })
    }

    /// Returns a copy with only the fields that the test keeps. The copy may have no fields.
    pub fn restrict<T: RowTest>(&self, alloc: Global, test: &T) -> Result<Row, NoMemory>
        ensures { IfOk result (λ r. r ≡ spec.restricted_row (T.keeps test.now) self.now) }
    {
        let fields = kept_fields(alloc, self, test)?;
        Ok(Row {
            unit: self.unit(),
            fields,
        })
    }

    /// Returns a copy with only the fields that the judge keeps. The copy may have no fields.
    pub fn restrict_by<J: RowJudge>(&self, alloc: Global, judge: &J) -> Result<Row, NoMemory>
        ensures { IfOk result (λ r. r ≡ spec.restricted_row (J.keeps judge.now) self.now) }
    {
        let fields = judged_fields(alloc, self, judge)?;
        Ok(Row {
            unit: self.unit(),
            fields,
        })
    }
}

/// Copies the fields.
fn copy_fields(alloc: Global, fields: &[Field]) -> Result<Vec<Field>, NoMemory>
    ensures { IfOk result (λ v. v.items ≡ fields.now) }
{
    let mut copies = Vec::with_capacity(alloc, fields.len())?;
    for field in fields {
        push(&mut copies, field.try_copy(alloc)?)?;
    }
    Ok(copies)
}

/// Copies the fields of the row that the test keeps.
fn kept_fields<T: RowTest>(alloc: Global, row: &Row, test: &T) -> Result<Vec<Field>, NoMemory>
    ensures { IfOk result (λ v. v.items
        ≡ filter (λ f. T.keeps test.now row.now f.leaf) row.now.fields) }
{
    if !test.may_keep(row) {
        return Ok(Vec::new(alloc));
    }
    let mut copies = Vec::new(alloc);
    for field in row.fields() {
        if test.is_kept(row, field.leaf) {
            push(&mut copies, field.try_copy(alloc)?)?;
        }
    }
    Ok(copies)
}

/// Copies the fields of the row that the judge keeps.
fn judged_fields<J: RowJudge>(alloc: Global, row: &Row, judge: &J) -> Result<Vec<Field>, NoMemory>
    ensures { IfOk result (λ v. v.items
        ≡ filter (λ f. J.keeps judge.now row.now f.leaf) row.now.fields) }
{
    let kept = judge.kept(alloc, row)?;
    let mut copies = Vec::new(alloc);
    for (index, field) in row.fields().iter().enumerate() {
        if kept[index] {
            push(&mut copies, field.try_copy(alloc)?)?;
        }
    }
    Ok(copies)
}

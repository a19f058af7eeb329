//! Parts: a kind, an id, and all or some of the cells of a resource.
ghost use Rattle.std.specs.Prelude.{◌≡◌, ◌++◌, IfOk, filter, take};
ghost use Rattle.std.specs.List.{list_any};
ghost use denote.Enum.Bare.{sameb};
ghost use Rattle.scim_schema.specs.contracts.Attribute.{the_type as the_attribute};
ghost use Rattle.std.specs.Ordering.{is_lt, is_eq, is_gt};
ghost use Rattle.std.specs.Option.{option_copied};
ghost use Rattle.std.specs.FinMap.{get, entries};
ghost use Rattle.scim_schema.specs.Units.{unit_of};
ghost use Rattle.scim_cell.specs.Place.{place_at, unit_cmp};
ghost use Rattle.scim_cell.specs.Content.{entries_of, IsPart, AreSortedPartCells};
ghost use Rattle.scim_cell.specs.Rows as spec;
ghost use Rattle.scim_cell.specs.Rows.{AreSound, AreValues};
ghost use Rattle.scim_value.specs.Changes.{restricted_part, with_values};
ghost use Rattle.scim_value.specs.Positions.{HasPositions};

use crate::row_lists::{copy_rows, judged_rows, kept_rows};
use crate::row_splits::split_rows;
use scim_cell::{Atom, Id, Row, RowJudge, RowTest};
use scim_schema::{Attribute, Kind, Leaf, Unit, is_multi_valued, unit_of};
use scim_text::NoMemory;
use std::alloc::Global;
use std::marker::Model;

/// A kind, an id, and all cells of a resource or some of them, such as the cells that a client may see.
/// The positions of an attribute run from 0 without a gap.
///
/// A part stores its cells grouped by value, as rows. In contracts, the cells of a part are a finite map
/// from leaf and position to atom; `rows` returns the rows of that map.
pub struct Part {
    kind: Kind,
    id: Id,
    rows: Vec<Row>,
}

impl Drop for Part {
    fn drop(self) {
        let Part {
            kind: _kind,
            id: _id,
            rows: _rows,
        } = self;
    }
}

impl Model for Part {
    ghost use Rattle.std.specs.Coded.{codes};
    ghost use Rattle.std.specs.FinMap as map;
    ghost use Rattle.scim_cell.specs.contracts.places.Place as place;
    ghost use Rattle.scim_cell.specs.Place.{place_cmp};
    ghost use Rattle.scim_cell.specs.contracts.atoms.Atom as atom;
    ghost use Rattle.scim_cell.specs.Content.{Content};

    ghost Value = { Content };

    ghost coded = { Prim.hlevel (codes, map.code {R = place_cmp} place.the_row.coded atom.the_row.coded) };

    ghost use Rattle.scim_value.specs.code.Inside.{content_of, IsSoundPart};

    ghost view = { content_of };

    ghost invariant = { IsSoundPart };
}

impl Part {
    /// Returns the part with these rows. Each row must be valid for the kind and have a field. The rows
    /// must be in order of unit, with at most one row for each unit that isn't multi-valued.
    pub fn of_rows(kind: Kind, id: Id, rows: Vec<Row>) -> Part
        requires { AreSound kind rows.items }
        ensures whole { result ≡ spec.content kind id rows.items }
        ensures kind { result.kind ≡ kind }
        ensures id { result.id ≡ id }
        ensures rows { spec.rows result ≡ rows.items }
        ensures valid { IsPart result }
    {
        Part { kind, id, rows }
    }

    /// The kind of resource.
    pub fn kind(&self) -> Kind
        ensures { result ≡ self.now.kind }
    {
        self.kind
    }

    /// The id of the resource.
    pub fn id(&self) -> Id
        ensures { result ≡ self.now.id }
    {
        self.id
    }

    /// The rows, in order of unit.
    pub fn rows(&self) -> &[Row]
        ensures rows { result.now ≡ spec.rows self.now }
        ensures valid { IsPart self.now }
    {
        self.rows.as_slice()
    }

    /// Converts the part into its kind, its id and its rows.
    pub fn into_parts(self) -> (Kind, Id, Vec<Row>)
        ensures kind { result.0 ≡ self.kind }
        ensures id { result.1 ≡ self.id }
        ensures rows { result.2.items ≡ spec.rows self }
        ensures valid { IsPart self }
    {
        let Part { kind, id, rows } = self;
        (kind, id, rows)
    }

    /// Splits the rows into the rows of earlier units, the rows of this unit and the rows of later
    /// units.
    fn split(&self, unit: Unit) -> (&[Row], &[Row], &[Row])
        ensures before { result.0.now ≡ filter (λ r. is_lt (unit_cmp r.unit unit))
            (spec.rows self.now) }
        ensures own { result.1.now ≡ spec.values unit (spec.rows self.now) }
        ensures after { result.2.now ≡ filter (λ r. is_gt (unit_cmp r.unit unit))
            (spec.rows self.now) }
        ensures whole { spec.rows self.now ≡ result.0.now ++ (result.1.now ++ result.2.now) }
        ensures valid { IsPart self.now }
    {
        split_rows(self.rows(), unit)
    }

    /// The values of a unit, in order of position.
    pub fn values(&self, unit: Unit) -> &[Row]
        ensures rows { result.now ≡ spec.values unit (spec.rows self.now) }
        ensures valid { IsPart self.now }
    {
        self.split(unit).1
    }

    /// The rows of an attribute, in order of unit: the values of a multi-valued attribute, or one
    /// row for each leaf of a single-valued attribute that has a cell.
    ///
    /// Makes one binary search if the attribute has no rows, otherwise two.
    pub fn attribute_rows(&self, attribute: Attribute) -> &[Row]
        ensures rows { result.now ≡ spec.attribute_rows attribute (spec.rows self.now) }
        ensures valid { IsPart self.now }
    {
        let rows = self.rows();
        let start = rows.partition_point(|row| (row.unit().attribute as u8) < attribute as u8);
        let (_, rest) = rows.split_at(start);
        if !begins_with(rest, attribute) {
            return &[];
        }
        let end = rest.partition_point(|row| row.unit().attribute as u8 <= attribute as u8);
        rest.split_at(end).0
    }

    /// Returns the part with the values of the unit replaced by `values`.
    ///
    /// The values must be valid for the unit, which [`scim_cell::are_values`] checks. The rows of
    /// other units are moved, not copied.
    pub fn put(self, unit: Unit, mut values: Vec<Row>) -> Result<Part, NoMemory>
        requires { AreValues self.kind unit values.items }
        ensures whole { IfOk result (λ p. p ≡ with_values unit values.items self) }
        ensures valid { IfOk result IsPart }
        ensures kind { IfOk result (λ p. p.kind ≡ self.kind) }
        ensures id { IfOk result (λ p. p.id ≡ self.id) }
        ensures rows { IfOk result (λ p. spec.rows p
            ≡ spec.put_values unit values.items (spec.rows self)) }
    {
        let (before, own, _) = self.split(unit);
        let start = before.len();
        let end = start + own.len();
        let (kind, id, mut rows) = self.into_parts();
        let mut after = rows.split_off(end)?;
        rows.truncate(start);
        rows.append(&mut values)?;
        rows.append(&mut after)?;
        Ok(Part::of_rows(kind, id, rows))
    }

    /// The atom at a position of a leaf, counted from 0, or `None` if there is no cell.
    pub fn get(&self, leaf: Leaf, position: usize) -> Option<&Atom>
        ensures { option_copied result ≡ get self.now.cells (place_at leaf position) }
    {
        atom_at(self.values(unit_of(leaf)), leaf, position)
    }

    /// The number of values of a multi-valued attribute. For a single-valued attribute, 1 if it has a
    /// cell, otherwise 0.
    #[tactic(auto, using(crate::proofs::PositionLemmas::number_filled))]
    pub fn positions(&self, attribute: Attribute) -> usize
        ensures rows { result ≡ spec.positions attribute (spec.rows self.now) }
        ensures filled { HasPositions self.now attribute result }
    {
        if is_multi_valued(attribute) {
            self.values(Unit::whole(attribute)).len()
        } else if has_attribute(self.rows(), attribute) {
            1
        } else {
            0
        }
    }

    /// Copies the part.
    pub fn try_copy(&self, alloc: Global) -> Result<Part, NoMemory>
        ensures { IfOk result (λ p. p ≡ self.now) }
    {
        let rows = copy_rows(alloc, self.rows())?;
        Ok(Part::of_rows(self.kind(), self.id(), rows))
    }

    /// Returns a copy with only the fields that the test keeps. Values that lose all fields are
    /// removed, so that positions have no gaps.
    pub fn restrict<T: RowTest>(&self, alloc: Global, test: &T) -> Result<Part, NoMemory>
        ensures whole { IfOk result (λ p. p ≡ restricted_part (T.keeps test.now) self.now) }
        ensures valid { IfOk result IsPart }
        ensures kind { IfOk result (λ p. p.kind ≡ self.now.kind) }
        ensures id { IfOk result (λ p. p.id ≡ self.now.id) }
        ensures rows { IfOk result (λ p. spec.rows p
            ≡ spec.restricted (T.keeps test.now) (spec.rows self.now)) }
    {
        let rows = kept_rows(alloc, self.rows(), test)?;
        Ok(Part::of_rows(self.kind(), self.id(), rows))
    }

    /// Returns a copy with only the fields that the judge keeps. Values that lose all fields are removed,
    /// so that positions have no gaps.
    pub fn restrict_by<J: RowJudge>(&self, alloc: Global, judge: &J) -> Result<Part, NoMemory>
        ensures whole { IfOk result (λ p. p ≡ restricted_part (J.keeps judge.now) self.now) }
        ensures valid { IfOk result IsPart }
        ensures kind { IfOk result (λ p. p.kind ≡ self.now.kind) }
        ensures id { IfOk result (λ p. p.id ≡ self.now.id) }
        ensures rows { IfOk result (λ p. spec.rows p
            ≡ spec.restricted (J.keeps judge.now) (spec.rows self.now)) }
    {
        let rows = judged_rows(alloc, self.rows(), judge)?;
        Ok(Part::of_rows(self.kind(), self.id(), rows))
    }
}

/// Whether the first row exists and belongs to the attribute.
fn begins_with(rows: &[Row], attribute: Attribute) -> bool
    ensures { result ≡ list_any (λ r. sameb the_attribute r.unit.attribute attribute)
        (take 1 rows.now) }
{
    match rows {
        [first, ..] => first.unit().attribute == attribute,
        [] => false,
    }
}

/// The atom of a leaf in the row at this index, or `None` if there is no such row or atom.
fn atom_at(own: &[Row], leaf: Leaf, position: usize) -> Option<&Atom>
    ensures { option_copied result ≡ spec.atom_at leaf position own.now }
{
    if position < own.len() {
        own[position].get(leaf)
    } else {
        None
    }
}

/// Whether one of the rows belongs to the attribute.
fn has_attribute(own: &[Row], attribute: Attribute) -> bool
    ensures { result ≡ list_any (λ r. sameb the_attribute r.unit.attribute attribute) own.now }
{
    own.iter().any(|row| row.unit().attribute == attribute)
}

//! The list of cells of a part, and parts with one cell changed.
ghost use Rattle.std.specs.Prelude.{◌≡◌, ◌+◌, ◌^◌, ◌<◌, ◌++◌, filter, map, not, true, IfOk, OnOk, Err, None, length};
ghost use Rattle.std.specs.Option.{ForSome};
ghost use Rattle.std.specs.Ordering.{is_eq};
ghost use Rattle.std.specs.List.Sorted.{IsBinarySearchResult, IsSearchInRange};
ghost use Rattle.std.specs.FinMap.{entries, put, is_sorted};
ghost use Rattle.scim_text.specs.Failures.{OnFault};
ghost use Rattle.scim_cell.specs.Place.{place_cmp, place_at};
ghost use Rattle.scim_cell.specs.Content.{place_of, entries_of, IsPart};
ghost use Rattle.scim_value.specs.Changes.{with_cell, without_cell};
ghost use Rattle.scim_cell.specs.Rows as spec;

use crate::faults::Invalid;
use crate::part_of_cells::rows_from;
use crate::parts::Part;
use scim_cell::{Atom, Cell, Field, Place, Row};
use scim_schema::{Leaf, Unit, is_multi_valued};
use scim_text::{Failed, NoMemory, push};
use std::alloc::Global;

impl Part {
    /// Returns copies of the cells, in order of place.
    pub fn cells(&self, alloc: Global) -> Result<Vec<Cell>, NoMemory>
        ensures cells { IfOk result (λ v. entries_of v.items ≡ entries self.now.cells) }
        ensures valid { IsPart self.now }
    {
        cells_of(alloc, self.rows())
    }

    /// Returns the part with this cell added. The new cell replaces a cell at the same place, if any.
    ///
    /// Fails with `Invalid` if the result isn't a valid part: the leaf doesn't belong to the kind, the atom
    /// doesn't have the type of the leaf, there is no value at the previous position, or the attribute is
    /// single-valued and the position isn't 0.
    pub fn with(
        &self,
        alloc: Global,
        leaf: Leaf,
        position: usize,
        atom: Atom,
    ) -> Result<Part, Failed<Invalid>>
        ensures ok { IfOk result (λ p. p ≡ with_cell leaf position atom self.now) }
        ensures invalid { OnFault result (¬ IsPart (with_cell leaf position atom self.now)) }
    {
        let mut cells = self.cells(alloc)?;
        let cell = Cell {
            leaf,
            position,
            atom,
        };
        put_cell(&mut cells, cell)?;
        Part::of_sorted(alloc, self.kind(), self.id(), cells)
    }

    /// Returns the part without the cell at a position of a leaf, if there is one. A value that
    /// loses its last cell is removed, and each later value moves down by one position.
    pub fn without(&self, alloc: Global, leaf: Leaf, position: usize) -> Result<Part, NoMemory>
        ensures { IfOk result (λ p. p ≡ without_cell leaf position self.now) }
    {
        let mut cells = self.cells(alloc)?;
        let place = Place {
            attribute: leaf.attribute,
            position,
            sub_attribute: leaf.sub_attribute,
        };
        remove_cell(&mut cells, place);
        let rows = rows_from(alloc, cells)?;
        Ok(Part::of_rows(self.kind(), self.id(), rows))
    }
}

/// The position of a row of `unit`. `last` is the unit and the position of the previous row, or `None` if the
/// row is the first.
fn next_position(last: Option<(Unit, usize)>, unit: Unit) -> usize
    requires { ForSome last (λ l. l.1 + 1 < 2 ^ 64) }
    ensures { result ≡ spec.next_position last unit }
{
    match last {
        Some((before, position))
            if before.attribute == unit.attribute && is_multi_valued(unit.attribute) => position
            + 1,
        _ => 0,
    }
}

/// Appends copies of the fields as cells at `position`. If memory runs out, some cells may have been
/// appended.
fn append_fields(
    alloc: Global,
    cells: &mut Vec<Cell>,
    fields: &[Field],
    position: usize,
) -> Result<(), NoMemory>
    ensures { OnOk result (entries_of cells.new.items ≡ entries_of cells.old.items
        ++ map (λ f. (place_at f.leaf position, f.atom)) fields.now) }
{
    for field in fields {
        let atom = field.atom.try_copy(alloc)?;
        let cell = Cell {
            leaf: field.leaf,
            position,
            atom,
        };
        push(cells, cell)?;
    }
    Ok(())
}

/// Copies the cells of the rows, in order of place.
fn cells_of(alloc: Global, rows: &[Row]) -> Result<Vec<Cell>, NoMemory>
    ensures { IfOk result (λ v. entries_of v.items ≡ spec.numbered None rows.now) }
{
    let mut cells = Vec::new(alloc);
    let mut last = None;
    for row in rows {
        let position = next_position(last, row.unit());
        append_fields(alloc, &mut cells, row.fields(), position)?;
        last = Some((row.unit(), position));
    }
    Ok(cells)
}

/// Returns the index of the cell at the place or, as the error, the index at which to insert a new cell.
fn place_in(cells: &[Cell], place: Place) -> Result<usize, usize>
    ensures range { IsSearchInRange result (length cells.now) }
    ensures searched { IsBinarySearchResult (λ c. place_cmp (place_of c) place) cells.now result }
{
    cells.binary_search_by(|cell| cell.place().compare(place))
}

/// Inserts a cell at its place, or replaces the cell that is there.
fn put_cell(cells: &mut Vec<Cell>, cell: Cell) -> Result<(), NoMemory>
    requires { is_sorted place_cmp (entries_of cells.old.items) ≡ true }
    ensures { OnOk result (entries_of cells.new.items
        ≡ put place_cmp (place_of cell) cell.atom (entries_of cells.old.items)) }
{
    match place_in(cells.as_slice(), cell.place()) {
        Ok(index) => cells[index] = cell,
        Err(index) => cells.insert(index, cell)?,
    }
    Ok(())
}

/// Removes the cell at a place, if there is one.
fn remove_cell(cells: &mut Vec<Cell>, place: Place)
    ensures { cells.new.items ≡ filter (λ c.
        not (is_eq (place_cmp (place_of c) place))) cells.old.items }
{
    cells.retain(|cell| !cell.place().compare(place).is_eq());
}

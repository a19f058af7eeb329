//! Parts made from cells.
ghost use Rattle.std.specs.Prelude.{◌≡◌, IfOk, OnOk, OnErr, None, Err};
ghost use Rattle.std.specs.List.Sorted.{IsPermutation};
ghost use Rattle.std.specs.FinMap.{entries};
ghost use Rattle.scim_text.specs.Failures.{OnFault};
ghost use Rattle.scim_cell.specs.Content.{entry_of, entries_of, AreSortedPartCells, AreCellsOfAPart};
ghost use Rattle.scim_cell.specs.Rows.{rows_of, goes_with};
ghost use Rattle.scim_value.specs.code.Grouping.{grouped, joins};

use crate::cell_checks::are_sorted_part_cells;
use crate::faults::Invalid;
use crate::parts::Part;
use scim_cell::{Cell, Field, Id, Place, Row};
use scim_schema::{Kind, is_multi_valued, unit_of};
use scim_text::{Failed, NoMemory, push};
use std::alloc::Global;

impl Part {
    /// Returns the part with these cells, which may be in any order.
    ///
    /// Fails with `Invalid` if no part of the kind has these cells: a leaf doesn't belong to the kind, an
    /// atom doesn't have the type of its leaf, two cells have the same place, the positions of an attribute
    /// have a gap, or a single-valued attribute has a position other than 0.
    pub fn of(
        alloc: Global,
        kind: Kind,
        id: Id,
        mut cells: Vec<Cell>,
    ) -> Result<Part, Failed<Invalid>>
        ensures kind { IfOk result (λ p. p.kind ≡ kind) }
        ensures id { IfOk result (λ p. p.id ≡ id) }
        ensures cells { IfOk result (λ p. IsPermutation (entries_of cells.items)
            (entries p.cells)) }
        ensures valid { OnOk result (AreCellsOfAPart kind (entries_of cells.items)) }
        ensures invalid { OnFault result (¬ AreCellsOfAPart kind (entries_of cells.items)) }
    {
        cells.sort_unstable_by(|a, b| a.place().compare(b.place()));
        Part::of_sorted(alloc, kind, id, cells)
    }

    /// Returns the part with these cells, which must be in order of place: by attribute in the order of
    /// the enum, then by position, then by sub-attribute.
    ///
    /// Fails with `Invalid` if the cells aren't in this order, or if [`Part::of`] rejects these cells.
    pub fn of_sorted(
        alloc: Global,
        kind: Kind,
        id: Id,
        cells: Vec<Cell>,
    ) -> Result<Part, Failed<Invalid>>
        ensures kind { IfOk result (λ p. p.kind ≡ kind) }
        ensures id { IfOk result (λ p. p.id ≡ id) }
        ensures cells { IfOk result (λ p. entries p.cells ≡ entries_of cells.items) }
        ensures valid { OnOk result (AreSortedPartCells kind (entries_of cells.items)) }
        ensures invalid { OnFault result (¬ AreSortedPartCells kind (entries_of cells.items)) }
    {
        if !are_sorted_part_cells(kind, cells.as_slice()) {
            return Err(Failed::Because(Invalid));
        }
        let rows = rows_from(alloc, cells)?;
        Ok(Part::of_rows(kind, id, rows))
    }
}

/// Whether two cells belong to the same value of a multi-valued attribute.
#[tactic(auto, unfolding(scim_cell::specs::Rows::goes_with))]
fn go_together(a: Place, b: Place) -> bool
    ensures { result ≡ goes_with a b }
{
    is_multi_valued(a.attribute) && a.attribute == b.attribute && a.position == b.position
}

/// Whether a cell belongs to the same value as the cell before it, if there is one.
fn joins_last(before: Option<Place>, place: Place) -> bool
    ensures { result ≡ joins before place }
{
    match before {
        Some(last) => go_together(last, place),
        None => false,
    }
}

/// Adds the cell to the last row if `is_joined` is true and there is a row, otherwise as a new row. If
/// memory runs out, the last row may have been removed.
fn group_cell(
    alloc: Global,
    rows: &mut Vec<Row>,
    is_joined: bool,
    cell: Cell,
) -> Result<(), NoMemory>
    ensures { OnOk result (rows.new.items ≡ grouped is_joined (entry_of cell) rows.old.items) }
{
    let Cell {
        leaf,
        position: _,
        atom,
    } = cell;
    let field = Field { leaf, atom };
    if is_joined {
        if let Some(last) = rows.pop() {
            let unit = last.unit();
            let mut fields = last.into_fields();
            push(&mut fields, field)?;
            push(rows, Row::new(unit, fields))?;
            return Ok(());
        }
    }
    let mut fields = Vec::new(alloc);
    push(&mut fields, field)?;
    push(rows, Row::new(unit_of(leaf), fields))?;
    Ok(())
}

/// Groups cells that are in order of place into rows.
pub(crate) fn rows_from(alloc: Global, cells: Vec<Cell>) -> Result<Vec<Row>, NoMemory>
    ensures { IfOk result (λ v. v.items ≡ rows_of (entries_of cells.items)) }
{
    let mut rows = Vec::new(alloc);
    let mut before = None;
    for cell in cells {
        let place = cell.place();
        group_cell(alloc, &mut rows, joins_last(before, place), cell)?;
        before = Some(place);
    }
    Ok(rows)
}

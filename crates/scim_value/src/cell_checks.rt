//! Checks whether cells are the cells of a part.
ghost use Rattle.std.specs.Prelude.{◌≡◌, ◌↔◌, IsTrue, None};
ghost use Rattle.scim_cell.specs.Content.{entry_of, entries_of, IsOfKind, AreSortedPartCells};
ghost use Rattle.scim_value.specs.code.Chain.{Follows, GoesOn, IsChain};

use scim_cell::{Cell, Place, has_type};
use scim_schema::{Kind, characteristics_of, has_leaf, is_multi_valued};

/// Whether the cell's leaf belongs to the kind, and its atom has the type of the leaf.
fn is_of_kind(kind: Kind, cell: &Cell) -> bool
    ensures { IsTrue result ↔ IsOfKind kind (entry_of cell.now) }
{
    has_leaf(kind, cell.leaf)
        && has_type(
            characteristics_of(kind, cell.leaf).attribute_type,
            &cell.atom,
        )
}

/// Whether a cell at `place` may come right after a cell at `before`, or first if `before` is `None`.
fn follows(before: Option<Place>, place: Place) -> bool
    ensures { IsTrue result ↔ Follows before place }
{
    match before {
        None => place.position == 0,
        Some(last) => last.compare(place).is_lt() && (place.position == 0 || goes_on(last, place)),
    }
}

/// Whether both places are in the same multi-valued attribute, and the position of `place` is at most
/// one above the position of `last`.
fn goes_on(last: Place, place: Place) -> bool
    ensures { IsTrue result ↔ GoesOn last place }
{
    is_multi_valued(place.attribute)
        && last.attribute == place.attribute
        && (place.position <= last.position || place.position - last.position == 1)
}

/// Whether each cell is valid for the kind and may come right after the previous cell.
fn is_chain(kind: Kind, cells: &[Cell]) -> bool
    ensures { IsTrue result ↔ IsChain kind None (entries_of cells.now) }
{
    let mut before = None;
    for cell in cells {
        if !(is_of_kind(kind, cell) && follows(before, cell.place())) {
            return false;
        }
        before = Some(cell.place());
    }
    true
}

/// Whether the cells are exactly the cells of some part of the kind, in order of place.
pub(crate) fn are_sorted_part_cells(kind: Kind, cells: &[Cell]) -> bool
    ensures { IsTrue result ↔ AreSortedPartCells kind (entries_of cells.now) }
{
    is_chain(kind, cells)
}

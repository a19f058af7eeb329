//! Lemmas about all parts: the map of cells and the list of rows determine each other.
ghost use Rattle.scim_value.specs.Laws.{PartsHaveSoundRows, SoundRowsMakeAPart, RowsDetermineCells, CellsStandInRows};
ghost use Rattle.scim_value.specs.Listing.{CellsAreListed};

/// Lemma: the rows of each part are valid, and a part that is made from valid rows has exactly those rows.
pub fn parts_are_sound_rows()
    ensures sound { PartsHaveSoundRows }
    ensures made { SoundRowsMakeAPart }
{}

/// Lemma: the rows determine the cells. Parts with the same kind, id and rows are equal.
pub fn rows_determine_cells()
    ensures { RowsDetermineCells }
{}

/// Lemma: the atom at position k of a leaf is in the row with index k among the rows of the leaf's
/// unit.
pub fn cells_stand_in_rows()
    ensures { CellsStandInRows }
{}

/// Lemma: in order of place, the cells of a part are listed attribute by attribute, in the order of
/// [`scim_schema::attributes`]. The cells of a multi-valued attribute are ordered by value and then by
/// sub-attribute; the cells of a single-valued complex attribute are ordered by sub-attribute.
pub fn cells_are_listed()
    ensures { CellsAreListed }
{}

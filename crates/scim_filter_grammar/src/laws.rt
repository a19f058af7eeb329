//! Laws about all texts of filters and paths.
ghost use Rattle.scim_filter_grammar.specs.Spelled.{FiltersAreSpelled, PathsAreSpelled, OnePathIsSpelled};

/// The function `filter_in` returns a tree exactly if the text spells it by the grammar, within the limits on
/// bytes and brackets, and the tree has the right types.
///
/// So [`crate::read_filter`] returns the only filter that the text spells.
pub fn filters_are_spelled()
    ensures { FiltersAreSpelled }
{}

/// The function `path_in` returns a path exactly if the text spells it by the grammar, within 4,096 bytes.
pub fn paths_are_spelled()
    ensures { PathsAreSpelled }
{}

/// A text spells at most one path of a PATCH operation, including value paths.
///
/// So [`crate::written_path`] returns the only path that the text spells.
pub fn one_path_is_spelled()
    ensures { OnePathIsSpelled }
{}

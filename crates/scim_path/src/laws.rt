//! Laws about all texts of paths.
ghost use Rattle.scim_path.specs.Paths.{TextsNameOneThing};
ghost use Rattle.scim_path.specs.Targets.{TargetsAreNamed};

use scim_filter_grammar::one_path_is_spelled;

/// For each kind, a text has only one possible result when it is read as a path: a target or a fault.
///
/// So if [`crate::read_path`] returns a fault, other than for lack of memory, the text names no target and
/// has no other fault.
pub fn texts_name_one_thing()
    ensures { TextsNameOneThing }
{
    one_path_is_spelled();
}

/// For every text, the reader of paths returns the target or the fault that the grammar of paths defines for
/// this text.
pub fn targets_are_named()
    ensures { TargetsAreNamed }
{}

//! A theorem about patches.
ghost use Rattle.scim_patch_steps.specs.Laws.{PatchingRestsOnItsUnits};

/// The outcome of a patch depends only on the values of the units that its steps name and that aren't writeOnly.
/// If two resources of the patch's kind have equal values of these, the patch fails for both with the same
/// fault or for neither, and changes both or neither. After the patch both have equal values of the units that
/// its steps name; of a writeOnly unit each may keep its own value instead. Each resource keeps its values of
/// all other units, except that `meta.lastModified` becomes the moment of the patch if something changed.
pub fn patching_rests_on_its_units()
    ensures { PatchingRestsOnItsUnits }
{}

//! A theorem about replacing.
ghost use Rattle.scim_change.specs.Laws.{ReplacingRestsOnItsUnits};

/// The outcome of replacing some units of a resource depends only on the values of those units that aren't
/// writeOnly. If two resources of the draft's kind have equal values at these, the replacement changes both or
/// neither, and fails for both or neither. Afterwards both have equal values at the units; at a writeOnly unit
/// each may keep its own value instead. Each keeps all its other values, except that `meta.lastModified`
/// becomes the moment of the change if something changed.
pub fn replacing_rests_on_its_units()
    ensures { ReplacingRestsOnItsUnits }
{}

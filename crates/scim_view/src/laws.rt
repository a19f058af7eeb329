//! Laws about the views of clients.
ghost use Rattle.scim_view.specs.Laws.{AllowedLeavesAreSeen, DeniedAttributesAreUnseen};
ghost use Rattle.scim_view.specs.Laws.{DeniedLeavesAreUnseen, NothingComesIntoView};

/// A change that doesn't widen a client's access brings no unchanged values into the client's view.
/// If the client sees a cell after the change, and the attribute had the same values before, then the client saw
/// the cell before the change.
pub fn nothing_comes_into_view()
    ensures { NothingComesIntoView }
{}

/// A leaf is seen in no value if no rule of its pattern allows. No value is seen of an attribute if this is so of
/// each of its leaves that isn't writeOnly.
pub fn denied_values_are_unseen()
    ensures leaves { DeniedLeavesAreUnseen }
    ensures attributes { DeniedAttributesAreUnseen }
{}

/// A leaf that may be read in all values, and isn't writeOnly, is seen in each value.
pub fn allowed_leaves_are_seen()
    ensures { AllowedLeavesAreSeen }
{}

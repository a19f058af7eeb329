//! Noninterference: if two stores are alike for a client, the client's requests get equal replies from both
//! stores, and the stores stay alike, as long as the changes that other clients make in between are quiet for
//! this client. `IsAlike` defines which stores are alike, and `IsQuiet` which changes are quiet.
//!
//! The laws are about the definitions `plan` and `next_store` of `scim_service`. Unless it fails,
//! `Service::answer` replies and changes the store as these definitions say. `docs/NONINTERFERENCE.md`
//! explains in words what the laws promise and what they don't.
#![tactic(auto)]

ghost use Rattle.scim_noninterference.specs.Laws.{OneRequest, TwoLists, QuietOthers, TurnsLeaveStores, HiddenCellsAreQuiet};
ghost use Rattle.scim_noninterference.specs.Names.{NamesAfterTurns, NamesRestOnControl, ControlRestsOnUnits};

/// Law: if two stores are alike for a client, a request of the client gets equal replies from both stores,
/// and the stores are alike afterwards. The law covers every policy, client and request. The id for a
/// resource that the request may create must be unused in both stores.
pub fn one_request()
    ensures { OneRequest }
{}

/// Law: two lists of requests are run on two stores that are alike for a client, one list on each store. If
/// both lists have the same requests of this client in the same order, the client gets equal replies, and the
/// final stores are alike for it. The requests of other clients may differ, but before, between and after the
/// client's requests they must leave the two stores alike.
pub fn two_lists()
    ensures { TwoLists }
{}

/// Law: if all changes by other clients are quiet for a client, the client gets the replies that it would get
/// without the requests of other clients.
pub fn quiet_others()
    ensures { QuietOthers }
{}

/// Law: if a store is valid before a valid request, it is valid after the request.
pub fn turns_leave_stores()
    ensures { TurnsLeaveStores }
{}

/// Law: a change of a resource is quiet for a client if each changed cell meets four conditions: the client
/// may not read the cell's leaf in the old resource, no target of the policy names the cell's attribute, no
/// value filter of the policy is on the attribute, and the values of the attribute needn't be unique.
pub fn hidden_cells_are_quiet()
    ensures { HiddenCellsAreQuiet }
{}

/// Law: the unique names in use after a request are the names in use before it, without the names of the
/// resource that the request replaces or removes, and with the names of the resource that the request stores.
pub fn names_after_turns()
    ensures { NamesAfterTurns }
{}

/// Law: two resources of one kind have the same unique names if they have the same control. The control of a
/// resource consists of the values that the policy's targets name or that must be unique.
pub fn names_rest_on_control()
    ensures { NamesRestOnControl }
{}

/// Law: if two resources of one kind have the same control before a change, they have the same control after
/// the change. The control of a resource consists of the values that the policy's targets name or that must
/// be unique. The change must give both resources equal values of the units that it writes, set
/// `meta.lastModified` to the same moment in both or leave it unchanged in both, and leave all other values
/// unchanged. A PUT or a PATCH is such a change if the resources had equal values before of those of its units
/// that aren't writeOnly.
pub fn control_rests_on_units()
    ensures { ControlRestsOnUnits }
{}

//! Laws about warnings.
ghost use Rattle.scim_policy_warnings.specs.Laws as law;

/// What the rules of a policy may not allow a client in each value, the policy denies to it on each resource.
pub fn denies_what_it_may_not_allow()
    ensures { law.DeniesWhatItMayNotAllow }
{}

/// Each warning of a policy is certain, for its client and on each resource of its kind: the policy denies the decision
/// that the warning names, and the client can't do what the warning says.
///
/// It sees no resource, creates none, changes none or deletes none; or no change, or no new resource, has a value of
/// its own in the unit.
pub fn warnings_are_certain()
    ensures missing { law.DeniesWhatIsMissing }
    ensures lost { law.LetsNothingOfALoss }
{}

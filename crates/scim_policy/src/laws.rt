//! Laws about the decisions of a policy.
ghost use Rattle.scim_policy.specs.Control.{DecisionsRestOnControl};
ghost use Rattle.scim_policy.specs.PatternLaws.{PatternsRestOnControl, PlainPoliciesDecideOnce};
ghost use Rattle.scim_policy.specs.PatternLaws.{PositionsAreDecidedByValue, WholesAllowEachValue};

/// If two resources of one kind have equal values of the attributes that a policy's targets name, and of the
/// attributes that must be unique, then the policy makes the same decisions on both resources.
pub fn decisions_rest_on_control()
    ensures { DecisionsRestOnControl }
{}

/// On two such resources, the pattern of each leaf has the same rules, with the same value filters.
pub fn patterns_rest_on_control()
    ensures { PatternsRestOnControl }
{}

/// In a policy without value filters, the pattern of a leaf is the decision of the policy, which decides at each
/// position.
pub fn plain_policies_decide_once()
    ensures { PlainPoliciesDecideOnce }
{}

/// The decision at a position is the decision in the value there.
pub fn positions_are_decided_by_value()
    ensures { PositionsAreDecidedByValue }
{}

/// Reading a leaf is allowed as a whole exactly if each rule of its pattern allows. Then it is allowed at each
/// position, and in each value.
pub fn wholes_allow_each_value()
    ensures { WholesAllowEachValue }
{}

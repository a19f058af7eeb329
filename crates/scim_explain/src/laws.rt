//! Laws about explanations, tables and idle rules.
ghost use Rattle.scim_explain.specs.Laws as law;
ghost use Rattle.scim_explain.specs.TableLaws as tables;

/// An explanation has exactly one entry for each rule before the one that decided, or for each rule if
/// none decided.
///
/// Each entry is the first part of its rule that doesn't fit, or, if the rule fits, what it decides in part.
/// None of these rules fits and covers the leaf at all values.
pub fn each_earlier_rule_has_its_entry()
    ensures as_many { law.TellsOfEachEarlierRule }
    ensures own { law.TellsTheEntryOfEach }
    ensures unfit { law.NoEarlierRuleFitsWholly }
{}

/// For reading, the entries in part, with their numbers, and the decision are the pattern of the leaf: they
/// name the rules that decide on some value, in order. For any other operation no entry is in part.
pub fn explanations_tell_the_pattern()
    ensures reading { law.TellsThePattern }
    ensures others { law.DecidesNothingElseInPart }
{}

/// A table says what the server does: a line ends in `allow` exactly where the operation is granted, which is where
/// the service asks for nothing more.
///
/// A client that sees the resource reads what it may read and what isn't writeOnly; it modifies the units that aren't
/// readOnly and that [`scim_policy::Policy::may_write`] lets it write; and it deletes the resource if it may delete at
/// `id`. A body creates a resource with a unit if the client may create at `id` and at each leaf of the unit.
pub fn tables_tell_what_is_done()
    ensures read { tables.TellsWhatIsRead }
    ensures modify { tables.TellsWhatIsModified }
    ensures create { tables.TellsWhatIsCreated }
    ensures delete { tables.TellsWhatIsDeleted }
{}

/// A rule that `idle_rules` returns never decides, for any client, operation, resource and leaf: neither on
/// the leaf at all values nor, for reading, at any value.
///
/// Wherever the idle rule fits, the earlier rule that covers it fits and covers the leaf at all values.
pub fn idle_rules_never_decide()
    ensures covered { law.CoveringRulesFit }
    ensures never { law.IdleRulesNeverDecide }
    ensures pattern { law.IdleRulesAreInNoPattern }
    ensures values { law.IdleRulesDecideNoValue }
{}

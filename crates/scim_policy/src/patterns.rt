//! Decides on reading the values of a resource: for each leaf, the rules that decide on some values, and the
//! rule that decides on all others.
ghost use Rattle.std.specs.Prelude.{◌≡◌, ◌∷◌, ◌++◌, [], true, None, IfNone, IfOk, IfSome, OnOk, is_some, map};
ghost use Rattle.std.specs.List.{list_any};
ghost use denote.Enum.Bare.{sameb};
ghost use Rattle.scim_schema.specs.declared.Leaf.{Leaf};
ghost use Rattle.scim_schema.specs.contracts.Attribute.{the_type as the_attribute};
ghost use Rattle.scim_schema.specs.contracts.Op.{the_type as the_op};
ghost use Rattle.scim_cell.specs.Rows.{rows};
ghost use Rattle.scim_filter.specs.Truth.{truth_at, truth_in_value};
ghost use Rattle.scim_cell.specs.Content.{Content};
ghost use Rattle.scim_policy.specs.Fits.{covers_in_part, has_target_for};
ghost use Rattle.scim_policy.specs.Patterns as spec;
ghost use Rattle.scim_policy.specs.PatternTable as table;
ghost use Rattle.scim_policy.specs.PatternTable.{rules_in};
ghost use Rattle.scim_policy.specs.Table.{decided};
ghost use Rattle.scim_policy.specs.code.PatternWalk.{AddsIf, AddsRule};
ghost use Rattle.scim_policy.specs.code.ValueWalk as values;
ghost use Rattle.scim_policy.specs.code.ValueWalk.{matching, matching_paths};

use crate::decisions::Decisions;
use crate::rule_fit::{covers_some, is_op};
use crate::rules::{Decision, FilteredPath, Policy, Rule};
use scim_cell::{Field, Row};
use scim_filter::{holds_at, holds_of};
use scim_schema::{Attribute, Kind, Leaf, Op};
use scim_text::{NoMemory, push};
use scim_value::Resource;
use std::alloc::Global;

/// The patterns of all leaves of a resource, for a client's reading.
///
/// They are computed in one pass over the rules, which evaluates each rule's target at most once. Value
/// filters are evaluated only when the reading of a value is decided.
pub struct Patterns<'p> {
    last: Decisions,
    partial: Vec<PartialRule<'p>>,
}

impl Drop for Patterns<'_> {
    fn drop(self) {
        let Patterns {
            last: _last,
            partial: _partial,
        } = self;
    }
}

/// A rule that has paths with a value filter for the resource's kind: its decision, and these paths.
#[derive(Clone, Copy)]
struct PartialRule<'p> {
    decision: Decision,
    filtered: &'p [FilteredPath],
}

/// A rule with the paths whose value filter a value matches.
#[derive(Drop)]
struct MatchingRule<'p> {
    decision: Decision,
    matched: Vec<&'p FilteredPath>,
}

impl Policy {
    /// Computes the patterns of the client's reading of the resource.
    pub fn patterns(
        &self,
        alloc: Global,
        client: &str,
        resource: &Resource,
    ) -> Result<Patterns<'_>, NoMemory>
        ensures { IfOk result (λ ps. (l : Leaf)
            → rules_in ps l ≡ spec.pattern_rules self.now client.now resource.now l) }
    {
        let mut patterns = Patterns::none(alloc);
        let mut number = 0;
        for rule in self.listed() {
            number += 1;
            if rule.speaks_of(alloc, client, Op::Read, resource)? {
                patterns.add_rule(alloc, rule, resource.kind(), number)?;
                if patterns.is_complete() {
                    return Ok(patterns);
                }
            }
        }
        Ok(patterns)
    }

    /// Computes the patterns of the client's reading on all resources of the kind, if they don't depend on the
    /// resource. Value filters don't make them depend on it: they are part of a pattern.
    ///
    /// `None` if a rule for the client, reading and the kind has a target, and no earlier rule for these covers
    /// every leaf at all values.
    pub fn patterns_on_all(
        &self,
        alloc: Global,
        client: &str,
        kind: Kind,
    ) -> Result<Option<Patterns<'_>>, NoMemory>
        ensures same { IfOk result (λ o. IfSome o (λ ps. (c : Content) → c.kind ≡ kind → (l : Leaf)
            → rules_in ps l ≡ spec.pattern_rules self.now client.now c l)) }
        ensures none { IfOk result (λ o. IfNone o
            (list_any (has_target_for client.now Op.Read kind) self.now ≡ true)) }
    {
        let mut patterns = Patterns::none(alloc);
        let mut number = 0;
        for rule in self.listed() {
            number += 1;
            if rule.is_about(client, Op::Read, kind) {
                if !rule.targets().is_empty() {
                    return Ok(None);
                }
                patterns.add_rule(alloc, rule, kind, number)?;
                if patterns.is_complete() {
                    return Ok(Some(patterns));
                }
            }
        }
        Ok(Some(patterns))
    }

    /// Returns the pattern of the leaf for the client's reading: the decisions of the rules that fit, in order,
    /// up to and with the first that covers the leaf at all values. If there is none, the last is the denial by
    /// rule 0. For several leaves, call [`Policy::patterns`] once.
    pub fn pattern(
        &self,
        alloc: Global,
        client: &str,
        resource: &Resource,
        leaf: Leaf,
    ) -> Result<Vec<Decision>, NoMemory>
        ensures { IfOk result (λ ds. ds.items
            ≡ spec.pattern self.now client.now resource.now leaf) }
    {
        self.patterns(alloc, client, resource)?.pattern(alloc, leaf)
    }

    /// Decides whether the client may read the leaf at `position`, counted from 0: the first rule of the pattern
    /// that is for the value there decides. For several, call [`Policy::patterns`] once.
    #[tactic(auto, unfolding(crate::specs::Patterns::decide_at))]
    pub fn decide_at(
        &self,
        alloc: Global,
        client: &str,
        resource: &Resource,
        leaf: Leaf,
        position: usize,
    ) -> Result<Decision, NoMemory>
        ensures { IfOk result (λ d. d
            ≡ spec.decide_at self.now client.now resource.now leaf position) }
    {
        let patterns = self.patterns(alloc, client, resource)?;
        patterns.decide_at(alloc, resource, leaf, position)
    }
}

impl<'p> Patterns<'p> {
    /// Patterns to which no rule was added yet.
    pub(crate) fn none(alloc: Global) -> Patterns<'p>
        ensures last { (l : Leaf) → decided result.last l ≡ None }
        ensures partial { result.partial.items ≡ [] }
    {
        Patterns {
            last: Decisions::none(alloc),
            partial: Vec::new(alloc),
        }
    }

    /// Whether a rule covers every leaf at all values. Then no later rule changes a pattern.
    pub(crate) fn is_complete(&self) -> bool
        ensures { result ≡ is_some self.now.last.rest }
    {
        self.last.has_rest()
    }

    /// Adds what `rule` decides on resources of `kind`. Leaves that an earlier rule covers at all values keep
    /// their patterns.
    pub(crate) fn add_rule(
        &mut self,
        alloc: Global,
        rule: &'p Rule,
        kind: Kind,
        number: u32,
    ) -> Result<(), NoMemory>
        ensures { OnOk result (AddsRule kind rule.now
            (record { rule = number; allow = rule.now.allow }) self.old self.new) }
    {
        self.last.add_rule(alloc, rule, kind, number)?;
        let filtered = rule.filtered_on(kind);
        if !filtered.is_empty() {
            let decision = Decision {
                rule: number,
                allow: rule.allows(),
            };
            push(&mut self.partial, PartialRule { decision, filtered })?;
        }
        Ok(())
    }

    /// Adds what `rule` decides on resources of `kind`, if the rule is for reading. Leaves that an earlier rule
    /// covers at all values keep their patterns.
    pub(crate) fn add_rule_for_reading(
        &mut self,
        alloc: Global,
        rule: &'p Rule,
        kind: Kind,
        number: u32,
    ) -> Result<(), NoMemory>
        ensures { OnOk result (AddsIf (list_any (sameb the_op Op.Read) rule.now.ops) kind
            rule.now (record { rule = number; allow = rule.now.allow }) self.old self.new) }
    {
        if is_op(rule.ops(), Op::Read) {
            self.add_rule(alloc, rule, kind, number)?;
        }
        Ok(())
    }
}

impl Patterns<'_> {
    /// Returns the decisions of the rules of the leaf's pattern, in order.
    #[tactic(auto, unfolding(crate::specs::PatternTable::rules_in, crate::specs::Table::decision))]
    pub fn pattern(&self, alloc: Global, leaf: Leaf) -> Result<Vec<Decision>, NoMemory>
        ensures { IfOk result (λ ds. ds.items ≡ spec.decisions_of (rules_in self.now leaf)) }
    {
        let whole = self.last.decided(leaf);
        let mut decisions = Vec::new(alloc);
        for rule in &self.partial {
            if rule.counts(leaf, whole) {
                push(&mut decisions, rule.decision)?;
            }
        }
        push(&mut decisions, self.last.of(leaf))?;
        Ok(decisions)
    }

    /// The decision on the leaf as a whole: the first rule of its pattern that denies; if all allow, the first.
    #[tactic(auto, unfolding(crate::specs::PatternTable::rules_in, crate::specs::Table::decision))]
    pub fn whole(&self, leaf: Leaf) -> Decision
        ensures { result ≡ spec.whole_decision (spec.decisions_of (rules_in self.now leaf)) }
    {
        let whole = self.last.decided(leaf);
        let mut first = None;
        for rule in &self.partial {
            if rule.counts(leaf, whole) {
                if !rule.decision.allow {
                    return rule.decision;
                }
                if first.is_none() {
                    first = Some(rule.decision);
                }
            }
        }
        let last = self.last.of(leaf);
        match first {
            Some(first) if last.allow => first,
            _ => last,
        }
    }

    /// Whether the pattern of each leaf has one rule, as in a policy without value filters. False may be said of
    /// such patterns too.
    #[tactic(auto, unfolding(crate::specs::PatternTable::rules_in, crate::specs::PatternTable::last_decision))]
    pub fn is_plain(&self) -> bool
        ensures { result ≡ true → (l : Leaf) → rules_in self.now l
            ≡ record { decision = table.last_decision self.now l; filters = None } ∷ [] }
    {
        self.partial.is_empty()
    }

    /// Whether the pattern of each leaf of these attributes has one rule, since no rule has a path with a value
    /// filter on one of them. False may be said of such patterns too: if the rule comes behind one that covers
    /// the leaf at all values, or if its path is on another sub-attribute.
    ///
    /// Where it is true, the visible part of a resource can be told by leaf, without a copy.
    pub fn is_plain_on(&self, attributes: &[Attribute]) -> bool
        ensures { result ≡ true → (l : Leaf)
            → list_any (sameb the_attribute l.attribute) attributes.now ≡ true
            → rules_in self.now l
            ≡ record { decision = table.last_decision self.now l; filters = None } ∷ [] }
    {
        !self.has_rule_on(attributes)
    }

    /// Whether some rule has a path with a value filter on one of the attributes.
    fn has_rule_on(&self, attributes: &[Attribute]) -> bool
        ensures { result ≡ list_any (λ r. list_any (table.is_on attributes.now) r.filtered.now)
            self.now.partial.items }
    {
        self.partial.iter().any(|rule| rule.is_on(attributes))
    }

    /// The decision of the last rule of the leaf's pattern.
    #[tactic(auto, unfolding(crate::specs::PatternTable::last_decision, crate::specs::Table::decision))]
    pub fn last(&self, leaf: Leaf) -> Decision
        ensures { result ≡ table.last_decision self.now leaf }
    {
        self.last.of(leaf)
    }

    /// Whether some rule of the leaf's pattern allows.
    #[tactic(auto, unfolding(crate::specs::PatternTable::rules_in, crate::specs::Table::decision))]
    pub fn allows_some(&self, leaf: Leaf) -> bool
        ensures { result ≡ list_any (λ d. d.allow) (spec.decisions_of (rules_in self.now leaf)) }
    {
        let whole = self.last.decided(leaf);
        for rule in &self.partial {
            if rule.counts(leaf, whole) && rule.decision.allow {
                return true;
            }
        }
        self.last.of(leaf).allow
    }

    /// Whether each field of a value may be read, in the order of the fields. The value must be a stored one,
    /// with all its fields.
    ///
    /// Each value filter is evaluated at most once.
    pub fn allowed(&self, alloc: Global, value: &Row) -> Result<Vec<bool>, NoMemory>
        ensures { IfOk result (λ v. v.items ≡ map (λ f. (spec.decided_for
            (λ t. truth_in_value t value.now) (rules_in self.now f.leaf)).allow) value.now.fields) }
    {
        let matching = matching_rules(alloc, self.partial.as_slice(), value)?;
        let mut allowed = Vec::new(alloc);
        for field in value.fields() {
            push(&mut allowed, self.allows(matching.as_slice(), field.leaf))?;
        }
        Ok(allowed)
    }

    /// Whether the first of the rules that covers the leaf allows, or the last rule of the leaf's pattern if none
    /// does.
    #[tactic(auto, unfolding(crate::specs::Table::decision))]
    fn allows(&self, matching: &[MatchingRule<'_>], leaf: Leaf) -> bool
        ensures { result ≡ (spec.first_or_denied (spec.decisions_of
            (table.partial_rules leaf (decided self.now.last leaf) (map matching_paths matching.now)
            ++ table.last_rule (decided self.now.last leaf) ∷ []))).allow }
    {
        let whole = self.last.decided(leaf);
        for rule in matching {
            if rule.counts(leaf, whole) {
                return rule.decision.allow;
            }
        }
        self.last.of(leaf).allow
    }

    /// The decision on the leaf at `position` of the resource, counted from 0: that of the first rule of the
    /// pattern that is for the value there.
    ///
    /// The resource must be the one that the patterns were computed for. A filter sees no cells at a position
    /// past the last value.
    #[tactic(auto, unfolding(crate::specs::PatternTable::rules_in, crate::specs::Table::decision))]
    pub fn decide_at(
        &self,
        alloc: Global,
        resource: &Resource,
        leaf: Leaf,
        position: usize,
    ) -> Result<Decision, NoMemory>
        ensures { IfOk result (λ d. d ≡ spec.decided_for
            (λ t. truth_at t position (rows resource.now)) (rules_in self.now leaf)) }
    {
        let whole = self.last.decided(leaf);
        for rule in &self.partial {
            if rule.counts(leaf, whole) && rule.is_for(alloc, resource, leaf, position)? {
                return Ok(rule.decision);
            }
        }
        Ok(self.last.of(leaf))
    }

    /// The decision on the leaf in a value: that of the first rule of the pattern that is for the value. The value
    /// must be a stored one, with all its fields. For all fields of a value, call [`Patterns::allowed`].
    #[tactic(auto, unfolding(crate::specs::PatternTable::rules_in, crate::specs::Table::decision))]
    pub fn decide_in(&self, alloc: Global, leaf: Leaf, value: &Row) -> Result<Decision, NoMemory>
        ensures { IfOk result (λ d. d ≡ spec.decided_for
            (λ t. truth_in_value t value.now) (rules_in self.now leaf)) }
    {
        let whole = self.last.decided(leaf);
        for rule in &self.partial {
            if rule.counts(leaf, whole) && rule.is_for_value(alloc, leaf, value)? {
                return Ok(rule.decision);
            }
        }
        Ok(self.last.of(leaf))
    }
}

impl PartialRule<'_> {
    /// Whether one of the rule's paths is on one of the attributes.
    fn is_on(&self, attributes: &[Attribute]) -> bool
        ensures { result ≡ list_any (table.is_on attributes.now) self.now.filtered.now }
    {
        self.filtered.iter().any(|path| path.is_on(attributes))
    }

    /// Whether the rule covers the leaf at some values, and comes before the first that covers it at all values:
    /// the one that decided `whole`.
    fn counts(&self, leaf: Leaf, whole: Option<Decision>) -> bool
        ensures { result ≡ table.counts leaf whole (table.partial_paths self.now) }
    {
        is_before(self.decision, whole) && covers_some(self.filtered, leaf)
    }

    /// Whether one of the rule's filters for the leaf matches the value at `position`.
    fn is_for(
        &self,
        alloc: Global,
        resource: &Resource,
        leaf: Leaf,
        position: usize,
    ) -> Result<bool, NoMemory>
        ensures { IfOk result (λ b. b
            ≡ list_any (λ t. truth_at t position (rows resource.now))
            (spec.filters_on leaf self.now.filtered.now)) }
    {
        for path in self.filtered {
            if path.covers(leaf) && holds_at(alloc, path.filter(), resource.part(), position)? {
                return Ok(true);
            }
        }
        Ok(false)
    }

    /// Whether one of the rule's filters for the leaf matches the value.
    fn is_for_value(&self, alloc: Global, leaf: Leaf, value: &Row) -> Result<bool, NoMemory>
        ensures { IfOk result (λ b. b ≡ list_any (λ t. truth_in_value t value.now)
            (spec.filters_on leaf self.now.filtered.now)) }
    {
        for path in self.filtered {
            if path.covers(leaf) && holds_of(alloc, path.filter(), value)? {
                return Ok(true);
            }
        }
        Ok(false)
    }
}

impl FilteredPath {
    /// Whether the attribute before the path's brackets is one of these.
    fn is_on(&self, attributes: &[Attribute]) -> bool
        ensures { result ≡ table.is_on attributes.now self.now }
    {
        let own = self.attribute();
        attributes.iter().any(|attribute| own == Some(*attribute))
    }
}

impl MatchingRule<'_> {
    /// Whether one of the paths covers the leaf, and the rule comes before the first that covers the leaf at all
    /// values: the one that decided `whole`.
    fn counts(&self, leaf: Leaf, whole: Option<Decision>) -> bool
        ensures { result ≡ table.counts leaf whole (matching_paths self.now) }
    {
        is_before(self.decision, whole) && covers_one(self.matched.as_slice(), leaf)
    }
}

/// Whether the rule of the decision has a lower number than the rule that decided `whole`. True if none did.
fn is_before(decision: Decision, whole: Option<Decision>) -> bool
    ensures { result ≡ table.is_before decision.rule whole }
{
    match whole {
        Some(whole) => decision.rule < whole.rule,
        None => true,
    }
}

/// Returns the rules with only their paths that cover a field of the value and whose filter the value matches.
fn matching_rules<'p>(
    alloc: Global,
    rules: &[PartialRule<'p>],
    value: &Row,
) -> Result<Vec<MatchingRule<'p>>, NoMemory>
    ensures { IfOk result (λ v. map matching_paths v.items
        ≡ map (matching value.now) (map table.partial_paths rules.now)) }
{
    let mut found = Vec::new(alloc);
    for rule in rules {
        let matched = matched_in(alloc, rule.filtered, value)?;
        let decision = rule.decision;
        push(&mut found, MatchingRule { decision, matched })?;
    }
    Ok(found)
}

/// Returns the paths that cover a field of the value and whose filter the value matches.
fn matched_in<'p>(
    alloc: Global,
    paths: &'p [FilteredPath],
    value: &Row,
) -> Result<Vec<&'p FilteredPath>, NoMemory>
    ensures { IfOk result (λ v. map (λ p. p.now) v.items ≡ values.matched_in value.now paths.now) }
{
    let mut matched = Vec::new(alloc);
    for path in paths {
        if covers_field(path, value.fields()) && holds_of(alloc, path.filter(), value)? {
            push(&mut matched, path)?;
        }
    }
    Ok(matched)
}

/// Whether one of the paths covers the leaf at some values.
fn covers_one(paths: &[&FilteredPath], leaf: Leaf) -> bool
    ensures { result ≡ list_any (covers_in_part leaf) (map (λ p. p.now) paths.now) }
{
    for path in paths {
        if path.covers(leaf) {
            return true;
        }
    }
    false
}

/// Whether the path covers one of the fields at some values.
fn covers_field(path: &FilteredPath, fields: &[Field]) -> bool
    ensures { result ≡ values.covers_field fields.now path.now }
{
    fields.iter().any(|field| path.covers(field.leaf))
}

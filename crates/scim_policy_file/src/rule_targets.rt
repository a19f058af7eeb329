//! Reads the target of a rule.
ghost use Rattle.std.specs.Prelude.{◌≡◌, IfOk, map, option_map};
ghost use Rattle.std.specs.List.{list_any};
ghost use denote.Enum.Bare.{sameb};
ghost use Rattle.scim_schema.specs.contracts.Attribute.{the_type as the_attribute};
ghost use Rattle.scim_policy_file.specs.Lists.{each};
ghost use Rattle.scim_policy_file.specs.Targets as spec;
ghost use Rattle.scim_policy_file.specs.code.Written.{Gives, text_at};

use crate::faults::Cause;
use scim_filter_grammar::{Named, mentioned_names, read_filter};
use scim_policy::Target;
use scim_schema::{Attribute, Kind};
use scim_text::{Failed, NoMemory, push};
use std::alloc::Global;

/// Reads the optional target of a rule, as a filter on each of the kinds. Returns no filters if `text` is
/// `None`.
///
/// Fails with `Target` if the text isn't a filter on each kind, else with `Name` if the text names an
/// attribute that none of the kinds has, else with `TargetNames` if the text names `groups`, `password` or
/// `meta`, else with `TargetNamesDoorCode` if the text names `doorCode`.
pub(crate) fn targets_for(
    alloc: Global,
    kinds: &[Kind],
    text: Option<&str>,
) -> Result<Vec<Target>, Failed<Cause>>
    ensures { Gives (λ v. v.items) result
        (spec.targets_for kinds.now (option_map text_at text.entry)) }
{
    match text {
        None => Ok(Vec::new(alloc)),
        Some(text) => targets_in(alloc, kinds, text),
    }
}

/// Reads the target of a rule, as a filter on each of the kinds.
///
/// Fails with `Target` if the text isn't a filter on each kind, else with `Name` if the text names an
/// attribute that none of the kinds has, else with `TargetNames` if the text names `groups`, `password` or
/// `meta`, else with `TargetNamesDoorCode` if the text names `doorCode`.
#[tactic(auto, unfolding(crate::specs::Targets::targets_in))]
fn targets_in(alloc: Global, kinds: &[Kind], text: &str) -> Result<Vec<Target>, Failed<Cause>>
    ensures { Gives (λ v. v.items) result (spec.targets_in kinds.now text.now) }
{
    let Some(targets) = targets_on(alloc, kinds, text)? else {
        return Err(Failed::Because(Cause::Target));
    };
    let lists = names_of(alloc, &targets)?;
    if !are_known(&lists) {
        return Err(Failed::Because(Cause::Name));
    }
    if names_one_of(
        &lists,
        &[Attribute::Groups, Attribute::Password, Attribute::Meta],
    ) {
        return Err(Failed::Because(Cause::TargetNames));
    }
    if names_one_of(&lists, &[Attribute::DoorCode]) {
        return Err(Failed::Because(Cause::TargetNamesDoorCode));
    }
    Ok(targets)
}

/// Reads the text as a filter on each of the kinds. `None` if it isn't a filter on every kind.
fn targets_on(alloc: Global, kinds: &[Kind], text: &str) -> Result<Option<Vec<Target>>, NoMemory>
    ensures { IfOk result (λ o. option_map (λ v. v.items) o
        ≡ each (spec.target_on text.now) kinds.now) }
{
    let mut targets = Vec::new(alloc);
    for kind in kinds {
        let Some(target) = target_on(alloc, *kind, text)? else {
            return Ok(None);
        };
        push(&mut targets, target)?;
    }
    Ok(Some(targets))
}

/// Reads the text as a filter on resources of a kind. `None` if it isn't a valid filter.
fn target_on(alloc: Global, kind: Kind, text: &str) -> Result<Option<Target>, NoMemory>
    ensures { IfOk result (λ o. o ≡ spec.target_on text.now kind) }
{
    match read_filter(alloc, kind, text) {
        Ok(filter) => Ok(Some(Target::new(kind, filter))),
        Err(Failed::NoMemory) => Err(NoMemory),
        Err(_) => Ok(None),
    }
}

/// The attribute names in each of the targets, one list for each target.
fn names_of(alloc: Global, targets: &[Target]) -> Result<Vec<Vec<Named>>, NoMemory>
    ensures { IfOk result (λ v. map (λ ns. ns.items) v.items ≡ spec.names_of targets.now) }
{
    let mut lists = Vec::new(alloc);
    for target in targets {
        push(&mut lists, mentioned_names(alloc, target.filter())?)?;
    }
    Ok(lists)
}

/// Whether each name refers to an attribute of at least one of the kinds. Each list has all names of the
/// target, in order, as read for one of the kinds.
fn are_known(lists: &[Vec<Named>]) -> bool
    ensures { result ≡ spec.are_known (map (λ ns. ns.items) lists.now) }
{
    match lists {
        [] => true,
        [first, ..] => are_all_known(lists, first),
    }
}

/// Whether, for each index of `names`, at least one of the lists has a name at that index that refers to an
/// attribute.
fn are_all_known(lists: &[Vec<Named>], names: &[Named]) -> bool
    ensures { result ≡ spec.are_known_from 0 (map (λ ns. ns.items) lists.now) names.now }
{
    let mut place = 0;
    for _name in names {
        if !is_known(lists, place) {
            return false;
        }
        place += 1;
    }
    true
}

/// Whether at least one of the lists has a name at index `place` that refers to an attribute.
fn is_known(lists: &[Vec<Named>], place: usize) -> bool
    ensures { result ≡ list_any (spec.is_known_at place) (map (λ ns. ns.items) lists.now) }
{
    for names in lists {
        if is_known_at(names, place) {
            return true;
        }
    }
    false
}

/// Whether there is a name at index `place` and it refers to an attribute.
fn is_known_at(names: &[Named], place: usize) -> bool
    ensures { result ≡ spec.is_known_at place names.now }
{
    match names.get(place) {
        Some(name) => name.attribute.is_some(),
        None => false,
    }
}

/// Whether a name in one of the lists refers to one of these attributes.
fn names_one_of(lists: &[Vec<Named>], attributes: &[Attribute]) -> bool
    ensures { result
        ≡ list_any (spec.name_one_of attributes.now) (map (λ ns. ns.items) lists.now) }
{
    for names in lists {
        if has_one_of(names, attributes) {
            return true;
        }
    }
    false
}

/// Whether one of the names refers to one of these attributes.
fn has_one_of(names: &[Named], attributes: &[Attribute]) -> bool
    ensures { result ≡ spec.name_one_of attributes.now names.now }
{
    names
        .iter()
        .any(|name| is_one_of(name.attribute, attributes))
}

/// Whether there is an attribute, and it is one of these.
fn is_one_of(attribute: Option<Attribute>, attributes: &[Attribute]) -> bool
    ensures { result ≡ spec.is_one_of attributes.now attribute }
{
    match attribute {
        Some(attribute) => is_in(attribute, attributes),
        None => false,
    }
}

/// Whether the attribute is one of these.
fn is_in(attribute: Attribute, attributes: &[Attribute]) -> bool
    ensures { result ≡ list_any (sameb the_attribute attribute) attributes.now }
{
    attributes.iter().any(|other| attribute == *other)
}

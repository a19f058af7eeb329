//! What is wrong with the target of a rule.
use crate::filter_names::first_unknown_on_all;
use crate::one_line::Short;
use crate::unknown_names::UnknownName;
use scim_cell::Text;
use scim_filter_grammar::{Filter, FilterFault, Named, mentioned_names, read_filter};
use scim_schema::{Attribute, Kind};
use scim_text::{Failed, NoMemory, push};
use std::alloc::Global;
use std::fmt;

/// The attributes that no target may name, except for `doorCode`, whose fault has a line of its own.
static COMPUTED_OR_DROPPED: [Attribute; 3] = [
    Attribute::Groups,
    Attribute::Password,
    Attribute::Meta,
];

/// What is wrong with the target of a rule.
#[derive(Drop)]
pub(crate) enum TargetDetail {
    /// It isn't a valid filter on this type.
    NoFilter(Kind, FilterFault),
    /// It has a name that none of the rule's types has.
    Unknown(UnknownName),
    /// It has this name, which no target may have.
    Forbidden(Text),
}

impl fmt::Display for TargetDetail {
    fn fmt<W: fmt::Write>(&self, f: &mut fmt::Formatter<W>) -> fmt::Result {
        match self {
            TargetDetail::NoFilter(kind, fault) => {
                write!(f, "target, read for {}: {fault}", kind.name())
            }
            TargetDetail::Unknown(name) => write!(f, "target: {name}"),
            TargetDetail::Forbidden(name) => write!(
                f,
                "target: \"{}\" may not be named in a target",
                Short(name.as_str())
            ),
        }
    }
}

/// Reads a target as a filter on each of the kinds. Fails with the fault on the first kind on which it is
/// none.
fn filters_on(
    alloc: Global,
    kinds: &[Kind],
    text: &str,
) -> Result<Vec<Filter>, Failed<TargetDetail>> {
    let mut filters = Vec::new(alloc);
    for kind in kinds {
        push(&mut filters, filter_on(alloc, *kind, text)?)?;
    }
    Ok(filters)
}

/// Reads a target as a filter on a kind.
fn filter_on(alloc: Global, kind: Kind, text: &str) -> Result<Filter, Failed<TargetDetail>> {
    match read_filter(alloc, kind, text) {
        Ok(filter) => Ok(filter),
        Err(Failed::Because(fault)) => Err(Failed::Because(TargetDetail::NoFilter(kind, fault))),
        Err(Failed::NoMemory) => Err(Failed::NoMemory),
    }
}

/// Returns what is wrong with a target: the fault on the first kind on which it is no filter; else the first
/// name that no kind has; else the first name that no target may have.
pub(crate) fn find_target_detail(
    alloc: Global,
    kinds: &'static [Kind],
    text: &str,
) -> Result<Option<TargetDetail>, NoMemory> {
    match filters_on(alloc, kinds, text) {
        Ok(filters) => find_name_detail(alloc, kinds, &filters),
        Err(Failed::Because(detail)) => Ok(Some(detail)),
        Err(Failed::NoMemory) => Err(NoMemory),
    }
}

/// Returns the first name in a target that no kind has; else the first that no target may have.
fn find_name_detail(
    alloc: Global,
    kinds: &'static [Kind],
    filters: &[Filter],
) -> Result<Option<TargetDetail>, NoMemory> {
    if let Some(name) = first_unknown_on_all(alloc, kinds, filters)? {
        return Ok(Some(TargetDetail::Unknown(name)));
    }
    if let Some(name) = first_of(alloc, filters, &COMPUTED_OR_DROPPED)? {
        return Ok(Some(TargetDetail::Forbidden(name)));
    }
    let door_code = first_of(alloc, filters, &[Attribute::DoorCode])?;
    Ok(door_code.map(TargetDetail::Forbidden))
}

/// Returns the first name that refers to one of these attributes, in the first filter that has one.
fn first_of(
    alloc: Global,
    filters: &[Filter],
    attributes: &[Attribute],
) -> Result<Option<Text>, NoMemory> {
    for filter in filters {
        let names = mentioned_names(alloc, filter)?;
        if let Some(name) = first_among(names, attributes) {
            return Ok(Some(name));
        }
    }
    Ok(None)
}

/// The first of the names that refers to one of these attributes.
fn first_among(names: Vec<Named>, attributes: &[Attribute]) -> Option<Text> {
    let named = names.into_iter().find(|name| name
        .attribute
        .is_some_and(|attribute| attributes.contains(&attribute)))?;
    Some(named.text)
}

//! Names of attributes that no type of a rule has, and the names that they may stand for.
use crate::nearest::{Suggestion, nearest};
use crate::one_line::Short;
use scim_filter_grammar::AttributePath;
use scim_schema::{
    Attribute, Kind, Leaf, SubAttribute, attribute_named, attributes, leaves, sub_attribute_named,
    sub_attributes,
};
use scim_text::{NoMemory, push, same_name};
use std::alloc::Global;
use std::fmt;

/// A name that the types of a rule, or an attribute, don't have.
#[derive(Drop)]
pub(crate) struct UnknownName {
    /// The name as it is written.
    word: String,
    owner: NameOwner,
    nearest: Option<NearName>,
}

/// What doesn't have a name.
#[derive(Clone, Copy)]
enum NameOwner {
    /// Each of these types, which are all those of a rule.
    Types(&'static [Kind]),
    /// An attribute, which has no such sub-attribute.
    Attribute(Attribute),
}

/// The name that an unknown one may stand for.
#[derive(Clone, Copy)]
pub(crate) enum NearName {
    Attribute(Attribute),
    /// A sub-attribute, named without its attribute.
    SubAttribute(SubAttribute),
    /// A path with a dot.
    Path(Attribute, SubAttribute),
}

impl fmt::Display for NearName {
    fn fmt<W: fmt::Write>(&self, f: &mut fmt::Formatter<W>) -> fmt::Result {
        match self {
            NearName::Attribute(attribute) => f.write_str(attribute.name()),
            NearName::SubAttribute(sub_attribute) => f.write_str(sub_attribute.name()),
            NearName::Path(attribute, sub_attribute) => {
                write!(f, "{}.{}", attribute.name(), sub_attribute.name())
            }
        }
    }
}

impl fmt::Display for NameOwner {
    fn fmt<W: fmt::Write>(&self, f: &mut fmt::Formatter<W>) -> fmt::Result {
        match self {
            NameOwner::Types([Kind::User]) => f.write_str("attribute of User"),
            NameOwner::Types([Kind::Group]) => f.write_str("attribute of Group"),
            NameOwner::Types(_) => f.write_str("attribute of User or Group"),
            NameOwner::Attribute(attribute) => {
                write!(f, "sub-attribute of {}", attribute.name())
            }
        }
    }
}

impl fmt::Display for UnknownName {
    fn fmt<W: fmt::Write>(&self, f: &mut fmt::Formatter<W>) -> fmt::Result {
        let word = Short(self.word.as_str());
        let owner = self.owner;
        write!(f, "\"{word}\" is no {owner}{}", Suggestion(&self.nearest))
    }
}

/// Describes a path that no type of a rule has.
pub(crate) fn unknown_path(
    alloc: Global,
    kinds: &'static [Kind],
    path: &AttributePath,
) -> Result<UnknownName, NoMemory> {
    Ok(UnknownName {
        word: written(alloc, path)?,
        owner: owner_of(kinds, path),
        nearest: nearest_path(alloc, kinds, path)?,
    })
}

/// Describes a name that isn't one of the attribute's sub-attributes.
pub(crate) fn unknown_sub_name(
    alloc: Global,
    attribute: Attribute,
    name: &str,
) -> Result<UnknownName, NoMemory> {
    let near = nearest_sub_attribute(alloc, attribute, name)?;
    Ok(UnknownName {
        word: String::from_str(alloc, name)?,
        owner: NameOwner::Attribute(attribute),
        nearest: near.map(NearName::SubAttribute),
    })
}

/// The path as it is written.
fn written(alloc: Global, path: &AttributePath) -> Result<String, NoMemory> {
    let mut text = String::new(alloc);
    if let Some(urn) = &path.urn {
        text.push_str(urn.as_str())?;
        text.push(':')?;
    }
    text.push_str(path.name.as_str())?;
    if let Some(sub_name) = &path.sub_name {
        text.push('.')?;
        text.push_str(sub_name.as_str())?;
    }
    Ok(text)
}

/// What doesn't have the path: the attribute that it names, if it names one and a sub-attribute of it; else
/// the types.
fn owner_of(kinds: &'static [Kind], path: &AttributePath) -> NameOwner {
    match attribute_of(kinds, path.name.as_str()) {
        Some(attribute) if path.urn.is_none() => NameOwner::Attribute(attribute),
        _ => NameOwner::Types(kinds),
    }
}

/// The attribute with this name of the first of the kinds that has one.
fn attribute_of(kinds: &[Kind], name: &str) -> Option<Attribute> {
    kinds.iter().find_map(|kind| attribute_named(*kind, name))
}

/// Returns the path of an attribute, or of a sub-attribute, that is nearest to an unknown path.
fn nearest_path(
    alloc: Global,
    kinds: &[Kind],
    path: &AttributePath,
) -> Result<Option<NearName>, NoMemory> {
    let name = path.name.as_str();
    match (nearest_attribute(alloc, kinds, name)?, &path.sub_name) {
        (Some(attribute), None) => Ok(Some(NearName::Attribute(attribute))),
        (Some(attribute), Some(sub_name)) => {
            let near = nearest_sub_attribute(alloc, attribute, sub_name.as_str())?;
            Ok(near.map(|sub_attribute| NearName::Path(attribute, sub_attribute)))
        }
        (None, None) => Ok(only_path(kinds, name)),
        (None, Some(_)) => Ok(None),
    }
}

/// Returns the attribute of the kinds whose name is nearest to this one.
fn nearest_attribute(
    alloc: Global,
    kinds: &[Kind],
    name: &str,
) -> Result<Option<Attribute>, NoMemory> {
    let mut names = Vec::new(alloc);
    for kind in kinds {
        push_names(*kind, &mut names)?;
    }
    match nearest(alloc, name, &names)? {
        Some(near) => Ok(attribute_of(kinds, near)),
        None => Ok(None),
    }
}

/// Appends the names of the attributes of a kind.
fn push_names(kind: Kind, names: &mut Vec<&'static str>) -> Result<(), NoMemory> {
    for attribute in attributes(kind) {
        push(names, attribute.name())?;
    }
    Ok(())
}

/// Returns the sub-attribute of the attribute whose name is nearest to this one.
fn nearest_sub_attribute(
    alloc: Global,
    attribute: Attribute,
    name: &str,
) -> Result<Option<SubAttribute>, NoMemory> {
    let mut names = Vec::new(alloc);
    for sub_attribute in sub_attributes(attribute) {
        push(&mut names, sub_attribute.name())?;
    }
    match nearest(alloc, name, &names)? {
        Some(near) => Ok(sub_attribute_named(attribute, near)),
        None => Ok(None),
    }
}

/// The path of the sub-attribute with this name, if one attribute of a kind has it and no other does.
fn only_path(kinds: &[Kind], name: &str) -> Option<NearName> {
    kinds.iter().find_map(|kind| only_path_on(*kind, name))
}

/// The path of the sub-attribute with this name, if one attribute of the kind has it and no other does.
fn only_path_on(kind: Kind, name: &str) -> Option<NearName> {
    let mut holders = leaves(kind).iter().filter(|leaf| ends_in(**leaf, name));
    let leaf = holders.next()?;
    match (leaf.sub_attribute, holders.next()) {
        (Some(sub_attribute), None) => Some(NearName::Path(leaf.attribute, sub_attribute)),
        _ => None,
    }
}

/// Whether the leaf is a sub-attribute with this name.
fn ends_in(leaf: Leaf, name: &str) -> bool {
    match leaf.sub_attribute {
        Some(sub_attribute) => same_name(sub_attribute.name(), name),
        None => false,
    }
}

//! The reasons why an export can't be made a users file.
use scim_body::BodyFault;
use std::error::Error as StdError;
use std::fmt;
use thiserror::Error;

/// The text isn't JSON, or is neither a list nor an object whose `Resources` is one.
#[derive(Clone, Copy, Debug, PartialEq, Eq, Error)]
#[error("not a JSON list of resources")]
pub struct NotAnExport;

/// A reason why an item of an export can't be made a resource.
#[derive(Clone, Copy, Debug, PartialEq, Eq)]
pub enum ItemFault {
    /// The item isn't a JSON object.
    NotAnObject,
    /// Neither `meta.resourceType` nor `schemas` says that the item is a user or a group.
    NoKind,
    /// The item, as the body of a create, is refused.
    Body(BodyFault),
    /// What is made of the item isn't valid as a resource.
    Invalid,
}

/// The first item of an export that can't be made a resource: its number, from 1, and the reason.
#[derive(Clone, Copy, Debug, PartialEq, Eq)]
pub struct RefusedItem {
    pub number: usize,
    pub fault: ItemFault,
}

// Not derived, because a fault of the body is told by its own text.
impl fmt::Display for ItemFault {
    fn fmt<W: fmt::Write>(&self, f: &mut fmt::Formatter<W>) -> fmt::Result {
        match self {
            ItemFault::NotAnObject => write!(f, "not a JSON object"),
            ItemFault::NoKind => write!(f, "neither a user nor a group"),
            ItemFault::Body(fault) => fault.fmt(f),
            ItemFault::Invalid => write!(f, "no valid resource"),
        }
    }
}

// Not derived, because the number stands before the text of the fault.
impl fmt::Display for RefusedItem {
    fn fmt<W: fmt::Write>(&self, f: &mut fmt::Formatter<W>) -> fmt::Result {
        write!(f, "item {}: {}", self.number, self.fault)
    }
}

impl StdError for ItemFault {}

impl StdError for RefusedItem {}

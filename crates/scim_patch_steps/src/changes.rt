//! The changes that a step can make to the values of its unit.
use scim_cell::{Field, Row, Text};
use scim_filter_grammar::Filter;
use scim_schema::SubAttribute;

/// A change of the values of a unit. The variants combine an operation with a form of path (RFC 7644 section
/// 3.5.2). A match is a value that matches the filter of the path.
#[derive(Drop)]
pub enum StepChange {
    /// No change, such as by an `add` of null or an empty list.
    /// The step is still refused if its unit is readOnly.
    Keep,
    /// No change of the matches, by an `add` of null or an empty list. The step is still refused if its unit
    /// is readOnly or a match is an existing member of a group.
    KeepMatches(Filter),
    /// No change of a sub-attribute of a multi-valued attribute, such as by an `add` of null or an empty
    /// list. The step is still refused if its unit is readOnly, or the sub-attribute is immutable or
    /// readOnly.
    KeepSubAttribute(SubAttribute),
    /// An `add` to a multi-valued attribute: appends each value that the attribute doesn't have yet.
    Append(Vec<Row>),
    /// A `replace` of a whole unit, or an `add` to a single-valued unit: replaces all values of the unit by
    /// these values, without duplicates.
    Replace(Vec<Row>),
    /// A `remove` of a whole unit, or a `replace` by null or an empty list: removes all values of the unit.
    Clear,
    /// A `remove` of values from a multi-valued attribute: removes each value whose `value` is one of these
    /// texts.
    RemoveListed(Vec<Text>),
    /// An `add` to the matches: sets these sub-attributes in each match.
    /// If there is no match, appends a value with the sub-attributes that the filter describes, overridden by
    /// these sub-attributes; fails with `NoTarget` if the filter describes no value.
    AddToMatches(Filter, Vec<Field>),
    /// A `replace` of the matches: replaces each match by a value with these sub-attributes, and drops
    /// duplicates. Fails with `NoTarget` if there is no match.
    ReplaceMatches(Filter, Vec<Field>),
    /// A `remove` of the matches: removes each match.
    RemoveMatches(Filter),
    /// An `add` to a sub-attribute of the matches: sets the sub-attribute in each match.
    /// If there is no match, appends a value with the sub-attributes that the filter describes, overridden by
    /// this one; fails with `NoTarget` if the filter describes no value.
    AddAtMatches(Filter, Field),
    /// A `replace` of a sub-attribute of the matches: sets the sub-attribute in each match. Fails with
    /// `NoTarget` if there is no match.
    SetAtMatches(Filter, Field),
    /// A `remove` of a sub-attribute of the matches: removes the sub-attribute from each match.
    ClearAtMatches(Filter, SubAttribute),
    /// An `add` to or a `replace` of a sub-attribute of a multi-valued attribute: sets the sub-attribute in
    /// each value. If there is no value, appends a value with this sub-attribute.
    SetEverywhere(Field),
    /// A `remove` of a sub-attribute of a multi-valued attribute: removes the sub-attribute from each value.
    ClearEverywhere(SubAttribute),
}

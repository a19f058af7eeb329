//! The calls of `scim_value`, and the call of `scim_samples` that prints a part.
use crate::arguments::{beside, joined, push_all, said, shown, truth};
use crate::case::Case;
use crate::cell_calls::{cell, of_sub_attribute, rows};
use crate::faults::CaseFault;
use crate::row_tests::{WithAtom, WithAtomOr};
use crate::tables::named;
use scim_cell::{Atom, Cell, Id, Row, Text, are_values};
use scim_samples::{ALICE, BASE, atom_text, leaf_text, part, part_text, read_cells, row_text};
use scim_schema::{Attribute, Kind, Leaf, SubAttribute, Unit, unique_leaves, unit_of};
use scim_text::Failed;
use scim_value::{
    Invalid, Part, Resource, UniqueName, is_resource, known_text, location, unique_names,
};
use std::alloc::Global;

/// A call of `scim_value`, or the call of `scim_samples` that prints a part.
#[derive(Clone, Copy)]
enum ValueCall {
    Part,
    SortedPart,
    TakenApart,
    With,
    Without,
    Put,
    OnPart(OfPart),
    Location,
    UniqueLeaves,
    KnownText,
    Fault,
    Resource,
    ResourceWith,
    ResourceWithout,
    ResourceFarAway,
    OnResource(OfResource),
}

/// A call on a part.
#[derive(Clone, Copy)]
enum OfPart {
    Rows,
    AttributeRows,
    Values,
    Restricted,
    RestrictedByAtom,
    RestrictedByJudge,
    RestrictedPositions,
    Text,
    Atom,
    Positions,
    Same,
    Copied,
    IsResource,
}

/// A call on a resource.
#[derive(Clone, Copy)]
enum OfResource {
    Copied,
    Told,
    UniqueNames,
}

static CALLS: [(&str, ValueCall); 30] = [
    ("part", ValueCall::Part),
    ("sorted_part", ValueCall::SortedPart),
    ("taken_apart", ValueCall::TakenApart),
    ("with", ValueCall::With),
    ("without", ValueCall::Without),
    ("put", ValueCall::Put),
    ("rows", ValueCall::OnPart(OfPart::Rows)),
    ("attribute_rows", ValueCall::OnPart(OfPart::AttributeRows)),
    ("values", ValueCall::OnPart(OfPart::Values)),
    ("restrict", ValueCall::OnPart(OfPart::Restricted)),
    (
        "restrict_by_atom",
        ValueCall::OnPart(OfPart::RestrictedByAtom),
    ),
    (
        "restrict_by_judge",
        ValueCall::OnPart(OfPart::RestrictedByJudge),
    ),
    (
        "restricted_positions",
        ValueCall::OnPart(OfPart::RestrictedPositions),
    ),
    ("part_text", ValueCall::OnPart(OfPart::Text)),
    ("atom", ValueCall::OnPart(OfPart::Atom)),
    ("positions", ValueCall::OnPart(OfPart::Positions)),
    ("same_part", ValueCall::OnPart(OfPart::Same)),
    ("copied_part", ValueCall::OnPart(OfPart::Copied)),
    ("is_resource", ValueCall::OnPart(OfPart::IsResource)),
    ("location", ValueCall::Location),
    ("unique_leaves", ValueCall::UniqueLeaves),
    ("known_text", ValueCall::KnownText),
    ("fault", ValueCall::Fault),
    ("resource", ValueCall::Resource),
    ("resource_with", ValueCall::ResourceWith),
    ("resource_without", ValueCall::ResourceWithout),
    ("resource_far_away", ValueCall::ResourceFarAway),
    ("copied_resource", ValueCall::OnResource(OfResource::Copied)),
    ("told_of_resource", ValueCall::OnResource(OfResource::Told)),
    (
        "unique_names",
        ValueCall::OnResource(OfResource::UniqueNames),
    ),
];

/// Returns the result of the case's call, or `None` if it isn't a call of `scim_value`.
pub fn answer(case: &Case<'_>, call: &str) -> Option<Result<String, CaseFault>> {
    let call = named(&CALLS, call)?;
    Some(match call {
        ValueCall::Part => part_call(case),
        ValueCall::SortedPart => sorted_part_call(case),
        ValueCall::TakenApart => taken_apart(case),
        ValueCall::With => with_call(case),
        ValueCall::Without => without_call(case),
        ValueCall::Put => put_call(case),
        ValueCall::OnPart(told) => part_told(case, told),
        ValueCall::Location => location_call(case),
        ValueCall::UniqueLeaves => unique_leaves_call(case),
        ValueCall::KnownText => known_text_call(case),
        ValueCall::Fault => fault_call(case),
        ValueCall::Resource => resource_call(case),
        ValueCall::ResourceWith => resource_with(case),
        ValueCall::ResourceWithout => resource_without(case),
        ValueCall::ResourceFarAway => resource_far_away(case),
        ValueCall::OnResource(told) => resource_told(case, told),
    })
}

/// Returns the cells of a part, or the text `Invalid` if `made` is the error `Invalid`.
fn made_text(alloc: Global, made: Result<Part, Failed<Invalid>>) -> Result<String, CaseFault> {
    match made {
        Ok(part) => cells_text(alloc, &part),
        Err(Failed::Because(Invalid)) => said(alloc, "Invalid"),
        Err(Failed::NoMemory) => Err(CaseFault::NoMemory),
    }
}

/// Makes a part from cells in any order. Returns its cells, or `Invalid` if they don't form a part.
fn part_call(case: &Case<'_>) -> Result<String, CaseFault> {
    let Some(id) = Id::read(case.text_or("id", ALICE)) else {
        return Err(CaseFault::Missing("id"));
    };
    let cells = read_cells(case.alloc, case.text("cells")?)?;
    made_text(case.alloc, Part::of(case.alloc, case.kind(), id, cells))
}

/// Makes a part from cells in order of place. Returns its cells, or `Invalid` if they don't form a part.
fn sorted_part_call(case: &Case<'_>) -> Result<String, CaseFault> {
    let Some(id) = Id::read(case.text_or("id", ALICE)) else {
        return Err(CaseFault::Missing("id"));
    };
    let cells = read_cells(case.alloc, case.text("cells")?)?;
    made_text(
        case.alloc,
        Part::of_sorted(case.alloc, case.kind(), id, cells),
    )
}

/// Returns the argument `position`, by default 0.
fn position(case: &Case<'_>) -> usize {
    case.count("position").unwrap_or(0)
}

/// Returns the result of a call on the part in the argument `part`.
fn part_told(case: &Case<'_>, told: OfPart) -> Result<String, CaseFault> {
    let part = case.part()?;
    told_of_part(case, told, &part)
}

fn told_of_part(case: &Case<'_>, told: OfPart, part: &Part) -> Result<String, CaseFault> {
    match told {
        OfPart::Rows => rows_text(case.alloc, part.rows()),
        OfPart::AttributeRows => attribute_rows_text(case, part),
        OfPart::Values => values_text(case, part),
        OfPart::Restricted => restricted_text(case, part),
        OfPart::RestrictedByAtom => restrict_by_atom(case, part),
        OfPart::RestrictedByJudge => restrict_by_judge(case, part),
        OfPart::RestrictedPositions => restricted_positions(case, part),
        OfPart::Text => cells_text(case.alloc, part),
        OfPart::Atom => atom_told(case, part),
        OfPart::Positions => positions_text(case, part),
        OfPart::Same => same_part(case, part),
        OfPart::Copied => part_copy_text(case.alloc, part),
        OfPart::IsResource => truth(case.alloc, is_resource(part)),
    }
}

fn part_copy_text(alloc: Global, part: &Part) -> Result<String, CaseFault> {
    let copy = part.try_copy(alloc)?;
    cells_text(alloc, &copy)
}

/// Returns those rows of the part that belong to the attribute of the argument `leaf`.
fn attribute_rows_text(case: &Case<'_>, part: &Part) -> Result<String, CaseFault> {
    let leaf = case.leaf("leaf")?;
    rows_text(case.alloc, part.attribute_rows(leaf.attribute))
}

/// Returns those rows of the part that belong to the unit of the argument `leaf`.
fn values_text(case: &Case<'_>, part: &Part) -> Result<String, CaseFault> {
    let unit = unit_of(case.leaf("leaf")?);
    rows_text(case.alloc, part.values(unit))
}

fn cells_text(alloc: Global, part: &Part) -> Result<String, CaseFault> {
    Ok(part_text(alloc, part)?)
}

/// Returns the rows as text, separated by ` | `.
fn rows_text(alloc: Global, rows: &[Row]) -> Result<String, CaseFault> {
    let mut text = String::new(alloc);
    for row in rows {
        push_row(alloc, row, &mut text)?;
    }
    Ok(text)
}

fn push_row(alloc: Global, row: &Row, text: &mut String) -> Result<(), CaseFault> {
    if !text.is_empty() {
        text.push_str(" | ")?;
    }
    let cells = row_text(alloc, row)?;
    Ok(text.push_str(cells.as_str())?)
}

/// Returns the part's atom at the arguments `leaf` and `position`, or `none` if the part has no atom there.
fn atom_told(case: &Case<'_>, part: &Part) -> Result<String, CaseFault> {
    let atom = part.get(case.leaf("leaf")?, position(case));
    Ok(atom_text(case.alloc, atom)?)
}

/// Returns how many positions the attribute of the argument `leaf` has in the part.
fn positions_text(case: &Case<'_>, part: &Part) -> Result<String, CaseFault> {
    let positions = part.positions(case.leaf("leaf")?.attribute);
    shown(case.alloc, &positions)
}

/// Whether the part equals the part of a user with the id of Alice and the cells in the argument `other`.
fn same_part(case: &Case<'_>, one: &Part) -> Result<String, CaseFault> {
    let other = part(case.alloc, Kind::User, ALICE, case.text("other")?)?;
    truth(case.alloc, *one == other)
}

/// Returns the kind and the rows of the part, taken out by `into_parts`.
fn taken_apart(case: &Case<'_>) -> Result<String, CaseFault> {
    let (kind, _, rows) = case.part()?.into_parts();
    kind_and_rows(case.alloc, kind, rows.as_slice())
}

fn kind_and_rows(alloc: Global, kind: Kind, rows: &[Row]) -> Result<String, CaseFault> {
    let rows = rows_text(alloc, rows)?;
    beside(alloc, kind.name(), rows.as_str())
}

fn with_call(case: &Case<'_>) -> Result<String, CaseFault> {
    let Cell {
        leaf,
        position,
        atom,
    } = cell(case, "cell")?;
    let part = case.part()?;
    made_text(case.alloc, part.with(case.alloc, leaf, position, atom))
}

fn without_call(case: &Case<'_>) -> Result<String, CaseFault> {
    let leaf = case.leaf("leaf")?;
    let left = case.part()?.without(case.alloc, leaf, position(case))?;
    cells_text(case.alloc, &left)
}

/// Replaces the values of the unit of the argument `leaf` in the part by the rows in the list `rows`. Returns
/// the cells of the new part, or `no values` if the rows aren't values of the unit.
fn put_call(case: &Case<'_>) -> Result<String, CaseFault> {
    let unit = unit_of(case.leaf("leaf")?);
    let values = rows(case)?;
    let part = case.part()?;
    put_text(case.alloc, part, unit, values)
}

fn put_text(alloc: Global, part: Part, unit: Unit, values: Vec<Row>) -> Result<String, CaseFault> {
    if !are_values(part.kind(), unit, values.as_slice()) {
        return said(alloc, "no values");
    }
    let changed = part.put(unit, values)?;
    cells_text(alloc, &changed)
}

/// Returns the cells of the part restricted to the sub-attribute of the leaf in the argument `keep`.
fn restricted_text(case: &Case<'_>, part: &Part) -> Result<String, CaseFault> {
    let rest = restricted(case, part)?;
    cells_text(case.alloc, &rest)
}

/// Restricts the part to the sub-attribute of the leaf in the argument `keep`. Returns how many positions the
/// attribute of the argument `leaf` has in the restricted part.
fn restricted_positions(case: &Case<'_>, part: &Part) -> Result<String, CaseFault> {
    let rest = restricted(case, part)?;
    positions_text(case, &rest)
}

/// Returns the part restricted to the sub-attribute of the leaf in the argument `keep`.
fn restricted(case: &Case<'_>, part: &Part) -> Result<Part, CaseFault> {
    let test = of_sub_attribute(case)?;
    Ok(part.restrict(case.alloc, &test)?)
}

/// Returns the cells of those values of the part that have the leaf and the atom of the argument `cell`.
fn restrict_by_atom(case: &Case<'_>, part: &Part) -> Result<String, CaseFault> {
    let Cell { leaf, atom, .. } = cell(case, "cell")?;
    let rest = part.restrict(case.alloc, &WithAtom { leaf, atom })?;
    cells_text(case.alloc, &rest)
}

/// Returns the cells of those values of the part that have the leaf and the atom of the argument `cell`. Of
/// other values, returns the cells of the sub-attribute of the leaf in the argument `keep`.
fn restrict_by_judge(case: &Case<'_>, part: &Part) -> Result<String, CaseFault> {
    let other = of_sub_attribute(case)?;
    let Cell { leaf, atom, .. } = cell(case, "cell")?;
    let whole = WithAtom { leaf, atom };
    let rest = part.restrict_by(case.alloc, &WithAtomOr { whole, other })?;
    cells_text(case.alloc, &rest)
}

/// Returns `ok` if the part is a resource located below the argument `base`, by default the base URL of the
/// samples. Returns `Invalid` otherwise.
fn resource_call(case: &Case<'_>) -> Result<String, CaseFault> {
    match Resource::of(case.part()?, case.text_or("base", BASE)) {
        Ok(_) => said(case.alloc, "ok"),
        Err(Invalid) => said(case.alloc, "Invalid"),
    }
}

/// Returns the cells of a resource, or the text `Invalid` if `made` is the error `Invalid`.
fn resource_text(
    alloc: Global,
    made: Result<Resource, Failed<Invalid>>,
) -> Result<String, CaseFault> {
    match made {
        Ok(resource) => cells_text(alloc, resource.part()),
        Err(Failed::Because(Invalid)) => said(alloc, "Invalid"),
        Err(Failed::NoMemory) => Err(CaseFault::NoMemory),
    }
}

fn resource_with(case: &Case<'_>) -> Result<String, CaseFault> {
    let Cell {
        leaf,
        position,
        atom,
    } = cell(case, "cell")?;
    let resource = case.resource()?;
    resource_text(case.alloc, resource.with(case.alloc, leaf, position, atom))
}

fn resource_without(case: &Case<'_>) -> Result<String, CaseFault> {
    let leaf = case.leaf("leaf")?;
    let resource = case.resource()?;
    resource_text(
        case.alloc,
        resource.without(case.alloc, leaf, position(case)),
    )
}

/// Returns `ok` if a resource may have a location below a base of `length` letters `x`, or `refused` if it
/// may not.
fn resource_far_away(case: &Case<'_>) -> Result<String, CaseFault> {
    let resource = case.resource()?;
    let place = far_location(case, &resource)?;
    let leaf = Leaf::of(Attribute::Meta, SubAttribute::Location);
    match resource.with(case.alloc, leaf, 0, Atom::Text(place)) {
        Ok(_) => said(case.alloc, "ok"),
        Err(_) => said(case.alloc, "refused"),
    }
}

/// Returns the location of a resource below a base of `length` letters `x`.
fn far_location(case: &Case<'_>, resource: &Resource) -> Result<Text, CaseFault> {
    let mut base = String::new(case.alloc);
    for _ in 0..case.number("length")? {
        base.push('x')?;
    }
    Ok(location(case.alloc, base.as_str(), resource.kind(), resource.id())?)
}

/// Returns the result of a call on the resource in the argument `resource`.
fn resource_told(case: &Case<'_>, told: OfResource) -> Result<String, CaseFault> {
    let resource = case.resource()?;
    match told {
        OfResource::Copied => copy_text(case.alloc, &resource),
        OfResource::Told => told_of_resource(case, &resource),
        OfResource::UniqueNames => unique_names_text(case.alloc, &resource),
    }
}

/// Returns the cells of a copy of the resource, or `another resource` if the copy differs from the resource.
fn copy_text(alloc: Global, resource: &Resource) -> Result<String, CaseFault> {
    let copy = resource.try_copy(alloc)?;
    if copy != *resource {
        return said(alloc, "another resource");
    }
    cells_text(alloc, &copy.into_part())
}

/// Returns the kind and the id of the resource, the number of positions of the attribute of the argument
/// `leaf` in it, and its atom at this leaf and position 0.
fn told_of_resource(case: &Case<'_>, resource: &Resource) -> Result<String, CaseFault> {
    let id = resource.id().text(case.alloc)?;
    let rest = told_of_leaf(case, resource)?;
    let words = beside(case.alloc, id.as_str(), rest.as_str())?;
    beside(case.alloc, resource.kind().name(), words.as_str())
}

fn told_of_leaf(case: &Case<'_>, resource: &Resource) -> Result<String, CaseFault> {
    let leaf = case.leaf("leaf")?;
    let positions = shown(case.alloc, &resource.positions(leaf.attribute))?;
    let atom = atom_text(case.alloc, resource.get(leaf, 0))?;
    beside(case.alloc, positions.as_str(), atom.as_str())
}

/// Returns the unique names of a resource, each as `LEAF=TEXT` with a space after it.
fn unique_names_text(alloc: Global, resource: &Resource) -> Result<String, CaseFault> {
    let names = unique_names(alloc, resource)?;
    let mut text = String::new(alloc);
    for name in &names {
        push_unique_name(alloc, name, &mut text)?;
    }
    Ok(text)
}

fn push_unique_name(alloc: Global, name: &UniqueName, text: &mut String) -> Result<(), CaseFault> {
    let leaf = leaf_text(alloc, name.leaf)?;
    push_all(text, &[leaf.as_str(), "=", name.text.as_str(), " "])
}

fn location_call(case: &Case<'_>) -> Result<String, CaseFault> {
    let Some(id) = Id::read(case.text_or("id", ALICE)) else {
        return Err(CaseFault::Missing("id"));
    };
    let base = case.text_or("base", BASE);
    let place: Text = location(case.alloc, base, case.kind(), id)?;
    Ok(place.into_string())
}

/// Returns the leaves whose values are unique names in the kind, with a space after each.
fn unique_leaves_call(case: &Case<'_>) -> Result<String, CaseFault> {
    let mut text = String::new(case.alloc);
    for leaf in unique_leaves(case.kind()) {
        push_leaf(case.alloc, *leaf, &mut text)?;
    }
    Ok(text)
}

fn push_leaf(alloc: Global, leaf: Leaf, text: &mut String) -> Result<(), CaseFault> {
    let path = leaf_text(alloc, leaf)?;
    push_all(text, &[path.as_str(), " "])
}

fn known_text_call(case: &Case<'_>) -> Result<String, CaseFault> {
    let leaf = case.leaf("leaf")?;
    Ok(known_text(case.alloc, case.kind(), leaf, case.text("text")?)?)
}

/// Returns the text of the error `Invalid` if the argument `name` is `Invalid`, or else of the error
/// `NoMemory`.
fn fault_call(case: &Case<'_>) -> Result<String, CaseFault> {
    let fault = match case.text("name")? {
        "Invalid" => Failed::Because(Invalid),
        _ => Failed::NoMemory,
    };
    shown(case.alloc, &fault)
}

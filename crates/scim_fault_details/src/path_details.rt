//! What is wrong with the paths of a rule.
ghost use Rattle.std.specs.Prelude.{◌≡◌, map, is_some, false, option_and_then, IfOk, IsSome};
ghost use Rattle.std.specs.List.{list_all};
ghost use Rattle.std.specs.Result.{result_ok};
ghost use Rattle.scim_path.specs.Targets.{target_in};
ghost use Rattle.scim_policy_file.specs.Paths.{path_on, path_to};
ghost use Rattle.scim_fault_details.specs.PathEntries as spec;
ghost use Rattle.scim_fault_details.specs.code.Borrowed.{text_at};

use crate::filter_names::first_unknown;
use crate::one_line::Short;
use crate::unknown_names::{UnknownName, unknown_path, unknown_sub_name};
use scim_cell::Text;
use scim_filter_grammar::{Filter, Meant, Node, WrittenPath, attribute_path, written_path};
use scim_path::{Path, extension_named, read_path};
use scim_schema::{Attribute, Kind, Op, is_multi_valued, sub_attribute_named};
use scim_text::{Failed, NoMemory};
use std::alloc::Global;
use std::fmt;

/// What is wrong with an entry of `paths`.
#[derive(Drop)]
pub(crate) enum PathDetail<'t> {
    /// It isn't a path.
    NoPath(&'t str),
    /// It is the URN of an extension alone.
    Extension(&'t str),
    /// It has a name that none of the rule's types has.
    Unknown(UnknownName),
    /// It has a value filter, and the file has version 1.
    InVersion1(&'t str),
    /// It has a value filter behind something else than a multi-valued attribute.
    BehindNoList(&'t str),
    /// It has a value filter with a value of another type than that of its attribute.
    WrongType(&'t str),
    /// It has a value filter on `groups`.
    OnGroups(&'t str),
    /// It has a value filter, and the rule has this operation, which isn't `read`.
    Besides(&'t str, &'t str),
}

impl fmt::Display for PathDetail<'_> {
    fn fmt<W: fmt::Write>(&self, f: &mut fmt::Formatter<W>) -> fmt::Result {
        f.write_str("paths: ")?;
        match self {
            PathDetail::NoPath(entry) => write!(f, "\"{}\" is no path", Short(entry)),
            PathDetail::Extension(entry) => {
                write!(f, "\"{}\" is an extension and no attribute", Short(entry))
            }
            PathDetail::Unknown(name) => write!(f, "{name}"),
            PathDetail::InVersion1(entry) => write!(
                f,
                "\"{}\" has a value filter, which needs version 2",
                Short(entry)
            ),
            PathDetail::BehindNoList(entry) => write!(
                f,
                "\"{}\" has a value filter behind no multi-valued attribute",
                Short(entry)
            ),
            PathDetail::WrongType(entry) => write!(
                f,
                "\"{}\" compares an attribute with a value of another type",
                Short(entry)
            ),
            PathDetail::OnGroups(entry) => {
                write!(f, "\"{}\" has a value filter on groups", Short(entry))
            }
            PathDetail::Besides(entry, op) => write!(
                f,
                "\"{}\" has a value filter, but \"ops\" has {op}",
                Short(entry)
            ),
        }
    }
}

/// The rule around an entry of `paths`.
#[derive(Clone, Copy)]
pub(crate) struct PathScope {
    /// Whether paths may have value filters, as in version 2.
    pub(crate) has_filters: bool,
    /// The types of the rule.
    pub(crate) kinds: &'static [Kind],
}

/// Returns what is wrong with the first entry that names nothing on any of the rule's types.
pub(crate) fn find_unnamed_path<'t>(
    alloc: Global,
    scope: PathScope,
    entries: &[&'t str],
) -> Result<Option<PathDetail<'t>>, NoMemory>
    ensures { IfOk result (λ found. IsSome found
        → list_all (spec.is_named scope) (map text_at entries.now) ≡ false) }
{
    for entry in entries {
        if !is_named(alloc, scope, entry)? {
            return unnamed_detail(alloc, scope, entry);
        }
    }
    Ok(None)
}

/// Whether an entry names something on one of the rule's types.
fn is_named(alloc: Global, scope: PathScope, entry: &str) -> Result<bool, NoMemory>
    ensures { IfOk result (λ named. named ≡ spec.is_named scope entry.now) }
{
    for kind in scope.kinds {
        if is_named_on(alloc, scope.has_filters, entry, *kind)? {
            return Ok(true);
        }
    }
    Ok(false)
}

/// Whether an entry names something on resources of a kind.
fn is_named_on(alloc: Global, has_filters: bool, entry: &str, kind: Kind) -> Result<bool, NoMemory>
    ensures { IfOk result (λ named. named ≡ spec.is_named_on has_filters entry.now kind) }
{
    if entry == "*" {
        Ok(true)
    } else if has_filters {
        is_target(alloc, entry, kind)
    } else {
        Ok(is_attribute_path(entry, kind))
    }
}

/// Whether an entry is the path of an attribute or a sub-attribute of a kind.
fn is_attribute_path(entry: &str, kind: Kind) -> bool
    ensures { result ≡ is_some (path_on entry.now kind) }
{
    match attribute_path(kind, entry) {
        Some(Meant::Attribute(_) | Meant::SubAttribute(_, _)) => true,
        Some(Meant::Nothing) | None => false,
    }
}

/// Whether an entry is a path of a PATCH operation on resources of a kind, and not an extension alone.
fn is_target(alloc: Global, entry: &str, kind: Kind) -> Result<bool, NoMemory>
    ensures { IfOk result (λ named. named
        ≡ is_some (option_and_then path_to (result_ok (target_in kind entry.now)))) }
{
    match read_path(alloc, kind, entry) {
        Ok(Path::Extension(_)) => Ok(false),
        Ok(Path::Attribute(_) | Path::SubAttribute(_, _) | Path::Values(_)) => Ok(true),
        Err(Failed::Because(_)) => Ok(false),
        Err(Failed::NoMemory) => Err(NoMemory),
    }
}

/// Returns what is wrong with an entry that names nothing on any of the rule's types.
fn unnamed_detail<'t>(
    alloc: Global,
    scope: PathScope,
    entry: &'t str,
) -> Result<Option<PathDetail<'t>>, NoMemory> {
    if is_extension(scope.kinds, entry) {
        return Ok(Some(PathDetail::Extension(entry)));
    }
    let reading = best_reading(alloc, scope.kinds, entry)?;
    match &reading {
        Some(path) => written_detail(alloc, scope, entry, path),
        None => Ok(Some(PathDetail::NoPath(entry))),
    }
}

/// Whether an entry is the URN of an extension of one of the kinds.
fn is_extension(kinds: &[Kind], entry: &str) -> bool {
    kinds
        .iter()
        .any(|kind| extension_named(*kind, entry).is_some())
}

/// Returns what is wrong with an entry that is this path and names nothing.
fn written_detail<'t>(
    alloc: Global,
    scope: PathScope,
    entry: &'t str,
    path: &WrittenPath,
) -> Result<Option<PathDetail<'t>>, NoMemory> {
    match path {
        WrittenPath::Plain(path) => {
            let name = unknown_path(alloc, scope.kinds, path)?;
            Ok(Some(PathDetail::Unknown(name)))
        }
        WrittenPath::Filtered(filter, sub_name) => {
            if scope.has_filters {
                filtered_detail(alloc, scope.kinds, entry, filter, sub_name.as_ref())
            } else {
                Ok(Some(PathDetail::InVersion1(entry)))
            }
        }
    }
}

/// Reads an entry as a path on the first of the kinds that has the name before the brackets, if there is one,
/// else on the last. Returns `None` if the entry isn't a path.
fn best_reading(
    alloc: Global,
    kinds: &[Kind],
    entry: &str,
) -> Result<Option<WrittenPath>, NoMemory> {
    let mut reading = None;
    for kind in kinds {
        reading = written_path(alloc, *kind, entry)?;
        if has_known_list(&reading) {
            return Ok(reading);
        }
    }
    Ok(reading)
}

/// Whether the path has a value filter, and a known name before its brackets.
fn has_known_list(path: &Option<WrittenPath>) -> bool {
    match path {
        Some(WrittenPath::Filtered(filter, _)) => match filter.tree() {
            Node::Values(path, _) => path.meant != Meant::Nothing,
            _ => false,
        },
        _ => false,
    }
}

/// Returns what is wrong with an entry that has a value filter and names nothing. `sub_name` is the name
/// behind the brackets, if there is one.
fn filtered_detail<'t>(
    alloc: Global,
    kinds: &'static [Kind],
    entry: &'t str,
    filter: &Filter,
    sub_name: Option<&Text>,
) -> Result<Option<PathDetail<'t>>, NoMemory> {
    let Node::Values(path, _) = filter.tree() else {
        return Ok(None);
    };
    match path.meant {
        Meant::Nothing => {
            let name = unknown_path(alloc, kinds, path)?;
            Ok(Some(PathDetail::Unknown(name)))
        }
        Meant::Attribute(attribute) if is_multi_valued(attribute) => {
            if !filter.has_right_types() {
                return Ok(Some(PathDetail::WrongType(entry)));
            }
            match unknown_in_list(alloc, kinds, attribute, filter, sub_name)? {
                Some(name) => Ok(Some(PathDetail::Unknown(name))),
                None => Ok(None),
            }
        }
        Meant::Attribute(_) | Meant::SubAttribute(_, _) => Ok(Some(PathDetail::BehindNoList(
            entry,
        ))),
    }
}

/// Returns the first name in a value filter that isn't a sub-attribute of the attribute before the brackets,
/// else the name behind the brackets if it is none.
fn unknown_in_list(
    alloc: Global,
    kinds: &'static [Kind],
    attribute: Attribute,
    filter: &Filter,
    sub_name: Option<&Text>,
) -> Result<Option<UnknownName>, NoMemory> {
    if let Some(name) = first_unknown(alloc, kinds, filter)? {
        return Ok(Some(name));
    }
    match sub_name {
        Some(name) if sub_attribute_named(attribute, name.as_str()).is_none() => {
            Ok(Some(unknown_sub_name(alloc, attribute, name.as_str())?))
        }
        _ => Ok(None),
    }
}

/// Returns the first entry that has a value filter and may not: one on `groups`, or in a rule with another
/// operation than `read`.
pub(crate) fn find_barred_filter<'t>(
    alloc: Global,
    kinds: &[Kind],
    ops: &[&'t str],
    entries: &[&'t str],
) -> Result<Option<PathDetail<'t>>, NoMemory> {
    let other = ops.iter().copied().find(|op| *op != Op::Read.name());
    for entry in entries {
        let detail = barred_detail(alloc, kinds, other, entry)?;
        if detail.is_some() {
            return Ok(detail);
        }
    }
    Ok(None)
}

/// Returns why an entry may not have a value filter, if it has one and may not. `other` is an operation of
/// the rule other than `read`, if there is one.
fn barred_detail<'t>(
    alloc: Global,
    kinds: &[Kind],
    other: Option<&'t str>,
    entry: &'t str,
) -> Result<Option<PathDetail<'t>>, NoMemory> {
    for kind in kinds {
        match (filtered_attribute(alloc, *kind, entry)?, other) {
            (Some(Attribute::Groups), _) => return Ok(Some(PathDetail::OnGroups(entry))),
            (Some(_), Some(op)) => return Ok(Some(PathDetail::Besides(entry, op))),
            _ => {}
        }
    }
    Ok(None)
}

/// Returns the attribute of a path with a value filter; `None` if the text is no such path on the kind.
fn filtered_attribute(
    alloc: Global,
    kind: Kind,
    entry: &str,
) -> Result<Option<Attribute>, NoMemory> {
    match read_path(alloc, kind, entry) {
        Ok(Path::Values(values)) => Ok(Some(values.attribute)),
        Ok(_) | Err(Failed::Because(_)) => Ok(None),
        Err(Failed::NoMemory) => Err(NoMemory),
    }
}

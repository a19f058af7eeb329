//! Reads the paths in a policy file.
ghost use Rattle.std.specs.Prelude.{◌≡◌, ◌++◌, IfOk, map, slice_get, option_and_then};
ghost use Rattle.std.specs.Result.{result_ok};
ghost use Rattle.scim_path.specs.Paths.{path_target};
ghost use Rattle.scim_path.specs.Targets.{target_in};
ghost use Rattle.scim_policy_file.specs.Paths as spec;
ghost use Rattle.scim_policy_file.specs.code.Written.{Gives, text_at};
ghost use Rattle.scim_policy_file.specs.code.Standings.{standing_of, standings_on, columns_on, fault_at, faults_from, first_of, plain_in, filtered_in};

use crate::faults::Cause;
use crate::versions::FileVersion;
use scim_filter_grammar::{Meant, attribute_path};
use scim_path::{Path, ValuePath, read_path};
use scim_policy::{FilteredPath, KindPaths, PolicyPath};
use scim_schema::{Attribute, Kind, Op};
use scim_text::{Failed, NoMemory, push};
use std::alloc::Global;

/// A path of a rule on resources of one kind.
#[derive(Drop)]
pub(crate) enum RulePath {
    /// A path without a value filter.
    Plain(PolicyPath),
    /// A path with a value filter on this attribute.
    Filtered(Attribute, FilteredPath),
}

/// What an entry of `paths` is on one of the rule's kinds.
#[derive(Clone, Copy)]
enum Standing {
    /// It names nothing on the kind.
    Unknown,
    /// The rule may have the path.
    Allowed,
    /// The path has a value filter that the rule may not have.
    Refused,
}

/// The policy path for the attribute or sub-attribute that a path means. `None` for `Meant::Nothing`.
fn covered_by(meant: Meant) -> Option<PolicyPath>
    ensures { result ≡ spec.covered_by meant }
{
    match meant {
        Meant::Nothing => None,
        Meant::Attribute(attribute) => Some(PolicyPath::Attribute(attribute)),
        Meant::SubAttribute(attribute, sub_attribute) => {
            Some(PolicyPath::SubAttribute(attribute, sub_attribute))
        }
    }
}

/// Reads the text as an attribute path on resources of a kind. `None` if the text isn't the path of an
/// attribute or sub-attribute of the kind.
fn path_on(text: &str, kind: Kind) -> Option<PolicyPath>
    ensures { result ≡ spec.path_on text.now kind }
{
    covered_by(attribute_path(kind, text)?)
}

/// The path of a rule with this target. `None` for all attributes of an extension.
fn path_to(target: Path) -> Option<RulePath>
    ensures { result ≡ spec.path_to (path_target target) }
{
    match target {
        Path::Extension(_) => None,
        Path::Attribute(attribute) => Some(RulePath::Plain(PolicyPath::Attribute(attribute))),
        Path::SubAttribute(attribute, sub_attribute) => Some(RulePath::Plain(
            PolicyPath::SubAttribute(attribute, sub_attribute),
        )),
        Path::Values(values) => {
            let ValuePath {
                attribute,
                filter,
                sub_attribute,
            } = values;
            Some(RulePath::Filtered(attribute, FilteredPath::new(filter, sub_attribute)))
        }
    }
}

/// Reads the text as a path of a PATCH operation on resources of a kind. `None` if it isn't one, or names all
/// attributes of an extension.
fn target_on(alloc: Global, text: &str, kind: Kind) -> Result<Option<RulePath>, NoMemory>
    ensures { IfOk result (λ o. o
        ≡ option_and_then spec.path_to (result_ok (target_in kind text.now))) }
{
    match read_path(alloc, kind, text) {
        Ok(target) => Ok(path_to(target)),
        Err(Failed::NoMemory) => Err(NoMemory),
        Err(_) => Ok(None),
    }
}

/// Reads the text by the grammar of the version, on resources of a kind. `None` if it names nothing there.
fn path_in_version(
    alloc: Global,
    version: FileVersion,
    text: &str,
    kind: Kind,
) -> Result<Option<RulePath>, NoMemory>
    ensures { IfOk result (λ o. o ≡ spec.path_in_version version text.now kind) }
{
    match version {
        FileVersion::One => Ok(path_on(text, kind).map(RulePath::Plain)),
        FileVersion::Two => target_on(alloc, text, kind),
    }
}

/// Reads an entry of `paths` for resources of a kind: `*`, or a path by the grammar of the version. `None` if
/// it names nothing there.
fn path_named(
    alloc: Global,
    version: FileVersion,
    text: &str,
    kind: Kind,
) -> Result<Option<RulePath>, NoMemory>
    ensures { IfOk result (λ o. o ≡ spec.path_named version text.now kind) }
{
    if text == "*" {
        Ok(Some(RulePath::Plain(PolicyPath::Everything)))
    } else {
        path_in_version(alloc, version, text, kind)
    }
}

/// Whether reading is the only operation.
fn is_reading_alone(ops: &[Op]) -> bool
    ensures { result ≡ spec.is_reading_alone ops.now }
{
    ops.iter().all(|op| *op == Op::Read)
}

/// Whether a rule for these operations may have the path.
fn is_allowed(ops: &[Op], path: &RulePath) -> bool
    ensures { result ≡ spec.is_allowed ops.now path.now }
{
    match path {
        RulePath::Plain(_) => true,
        RulePath::Filtered(attribute, _) => {
            *attribute != Attribute::Groups && is_reading_alone(ops)
        }
    }
}

/// What an entry is in a rule for these operations, from what it names on a kind.
fn standing_of(ops: &[Op], path: &Option<RulePath>) -> Standing
    ensures { result ≡ standing_of ops.now path.now }
{
    match path {
        None => Standing::Unknown,
        Some(path) if is_allowed(ops, path) => Standing::Allowed,
        Some(_) => Standing::Refused,
    }
}

/// Appends a path to those without a value filter, or to those with one.
fn push_path(
    path: Option<RulePath>,
    plain: &mut Vec<PolicyPath>,
    filtered: &mut Vec<FilteredPath>,
) -> Result<(), NoMemory>
    ensures plain { IfOk result (λ _. plain.new.items ≡ plain.old.items ++ plain_in path) }
    ensures filtered { IfOk result (λ _. filtered.new.items
        ≡ filtered.old.items ++ filtered_in path) }
{
    match path {
        None => Ok(()),
        Some(RulePath::Plain(path)) => push(plain, path),
        Some(RulePath::Filtered(_, path)) => push(filtered, path),
    }
}

/// Reads all entries of `paths` for resources of a kind, and appends to `standings` what each of them is
/// there. Entries that name nothing on the kind are skipped.
fn paths_for(
    alloc: Global,
    version: FileVersion,
    ops: &[Op],
    texts: &[&str],
    kind: Kind,
    standings: &mut Vec<Standing>,
) -> Result<KindPaths, NoMemory>
    ensures paths { IfOk result (λ p. p ≡ spec.paths_for version (map text_at texts.now) kind) }
    ensures standings { IfOk result (λ _. standings.new.items ≡ standings.old.items
        ++ standings_on version ops.now (map text_at texts.now) kind) }
{
    let mut plain = Vec::new(alloc);
    let mut filtered = Vec::new(alloc);
    for text in texts {
        let path = path_named(alloc, version, text, kind)?;
        let standing = standing_of(ops, &path);
        push_path(path, &mut plain, &mut filtered)?;
        push(standings, standing)?;
    }
    Ok(KindPaths::new(kind, plain, filtered))
}

/// Reads all entries of `paths` for each of the kinds, and appends to `columns`, for each kind, what each entry
/// is there.
fn paths_on_kinds(
    alloc: Global,
    version: FileVersion,
    ops: &[Op],
    kinds: &[Kind],
    texts: &[&str],
    columns: &mut Vec<Vec<Standing>>,
) -> Result<Vec<KindPaths>, NoMemory>
    ensures paths { IfOk result (λ v. v.items
        ≡ map (spec.paths_for version (map text_at texts.now)) kinds.now) }
    ensures columns { IfOk result (λ _. map (λ c. c.items) columns.new.items
        ≡ map (λ c. c.items) columns.old.items
        ++ columns_on version ops.now kinds.now (map text_at texts.now)) }
{
    let mut paths = Vec::new(alloc);
    for kind in kinds {
        let mut column = Vec::new(alloc);
        let on_kind = paths_for(alloc, version, ops, texts, *kind, &mut column)?;
        push(&mut paths, on_kind)?;
        push(columns, column)?;
    }
    Ok(paths)
}

/// What the entry at an index is on a kind, from what all entries are there. `None` if there is no such entry.
fn standing_at(column: &[Standing], place: usize) -> Option<Standing>
    ensures { result ≡ slice_get column.now place }
{
    column.get(place).copied()
}

/// The fault of the entry at an index, from what it is on each of the kinds.
fn fault_at(columns: &[Vec<Standing>], place: usize) -> Option<Cause>
    ensures { result ≡ fault_at place (map (λ c. c.items) columns.now) }
{
    let mut fault = Some(Cause::Name);
    for column in columns {
        match standing_at(column, place) {
            Some(Standing::Refused) => return Some(Cause::ValueFilter),
            Some(Standing::Allowed) => fault = None,
            Some(Standing::Unknown) => {}
            None => {}
        }
    }
    fault
}

/// The fault of the first faulty entry, from what each entry is on each of the kinds.
fn first_fault(columns: &[Vec<Standing>], texts: &[&str]) -> Option<Cause>
    ensures { result ≡ first_of (faults_from 0 (map (λ c. c.items) columns.now)
        (map text_at texts.now)) }
{
    let mut place = 0;
    for _text in texts {
        let fault = fault_at(columns, place);
        if fault.is_some() {
            return fault;
        }
        place += 1;
    }
    None
}

/// Reads the entries of `paths` of a rule for each of its kinds.
///
/// Fails with the fault of the first faulty entry: `Name` if it names nothing on any of the kinds, else
/// `ValueFilter` if it has a value filter, and the rule has another operation than read or the filter is on
/// `groups`.
pub(crate) fn paths_named(
    alloc: Global,
    version: FileVersion,
    ops: &[Op],
    kinds: &[Kind],
    texts: &[&str],
) -> Result<Vec<KindPaths>, Failed<Cause>>
    ensures { Gives (λ v. v.items) result
        (spec.paths_named version ops.now kinds.now (map text_at texts.now)) }
{
    let mut columns = Vec::new(alloc);
    let paths = paths_on_kinds(alloc, version, ops, kinds, texts, &mut columns)?;
    match first_fault(&columns, texts) {
        Some(cause) => Err(Failed::Because(cause)),
        None => Ok(paths),
    }
}

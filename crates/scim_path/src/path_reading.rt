//! Reads paths.
ghost use Rattle.std.specs.Prelude.{◌≡◌, ℕ, List, Option, option_map};
ghost use Rattle.scim_text.specs.Failures.{UnlessMemory};
ghost use Rattle.scim_filter_grammar.specs.Tree.{Tree, tree_of};
ghost use Rattle.scim_filter_grammar.specs.WrittenPaths.{Filtered, written_of};
ghost use Rattle.scim_path.specs.Paths as spec;
ghost use Rattle.scim_path.specs.Results.{target_read, values_read, chosen_read, filtered_read, parts_read};
ghost use Rattle.scim_path.specs.Targets.{target_in};

use crate::faults::PathFault;
use crate::laws::texts_name_one_thing;
use crate::paths::{Path, ValuePath};
use scim_cell::Text;
use scim_filter_grammar::{Filter, Meant, Node, WrittenPath, knows_names, lone_word, written_path};
use scim_schema::{
    Attribute, Kind, LONGEST_FILTER, Schema, SubAttribute, extensions, is_multi_valued,
    sub_attribute_named,
};
use scim_text::Failed;
use std::alloc::Global;

/// The extension of `kind` whose URN is the whole text, in any ASCII case and with or without spaces around
/// it.
///
/// The URN alone names all attributes of the extension (RFC 7644 section 3.5.2). `None` for any other text,
/// and for a text of more than 4,096 bytes.
pub fn extension_named(kind: Kind, text: &str) -> Option<Schema>
    ensures { result ≡ spec.extension_named kind text.now }
{
    if text.len() > LONGEST_FILTER {
        return None;
    }
    let word = lone_word(text)?;
    extensions(kind)
        .iter()
        .copied()
        .find(|s| word.eq_ignore_ascii_case(s.urn().as_bytes()))
}

/// The target of a path without a filter.
///
/// Fails with `Unknown` if the kind doesn't have the attribute or sub-attribute.
fn path_of_names(meant: Meant) -> Result<Path, PathFault>
    ensures { target_read result ≡ spec.names_target meant }
{
    match meant {
        Meant::Nothing => Err(PathFault::Unknown),
        Meant::Attribute(attribute) => Ok(Path::Attribute(attribute)),
        Meant::SubAttribute(attribute, sub_attribute) => {
            Ok(Path::SubAttribute(attribute, sub_attribute))
        }
    }
}

/// The sub-attribute named after the brackets. `None` if there is no name.
///
/// Fails with `Unknown` if `attribute` doesn't have the sub-attribute.
fn chosen(attribute: Attribute, sub_name: Option<&Text>) -> Result<Option<SubAttribute>, PathFault>
    ensures { (tree : Tree) → values_read tree attribute result
        ≡ spec.chosen attribute tree (option_map (λ t. t.now) sub_name.entry) }
{
    match sub_name {
        None => Ok(None),
        Some(name) => match sub_attribute_named(attribute, name.as_str()) {
            None => Err(PathFault::Unknown),
            found => Ok(found),
        },
    }
}

/// The attribute before the brackets, after checking that the filter may select its values.
///
/// Fails with `Unknown` if the name before the brackets is unknown. Else fails with `Syntax` if it isn't the
/// name of a multi-valued attribute, or if a comparison in the filter doesn't suit its attribute's type. Else
/// fails with `Unknown` if a name in the filter is unknown.
fn filtered_attribute(meant: Meant, filter: &Filter) -> Result<Attribute, PathFault>
    ensures { (sub : Option (List ℕ))
        → chosen_read (tree_of filter.now) sub result
        ≡ spec.filtered_target meant (tree_of filter.now) sub }
{
    let attribute = match meant {
        Meant::Nothing => return Err(PathFault::Unknown),
        Meant::SubAttribute(_, _) => return Err(PathFault::Syntax),
        Meant::Attribute(attribute) => attribute,
    };
    if !is_multi_valued(attribute) || !filter.has_right_types() {
        return Err(PathFault::Syntax);
    }
    if !knows_names(filter.tree()) {
        return Err(PathFault::Unknown);
    }
    Ok(attribute)
}

/// The attribute or sub-attribute that the path before the brackets names. `None` if the filter isn't a value
/// path.
fn meant_before(filter: &Filter) -> Option<Meant>
    ensures { (sub : Option (List ℕ))
        → filtered_read (tree_of filter.now) sub result
        ≡ spec.written_target (Filtered (tree_of filter.now) sub) }
{
    match filter.tree() {
        Node::Values(path, _) => Some(path.meant),
        _ => None,
    }
}

/// The attribute before the brackets of a value path, and the sub-attribute after them, if one is named.
fn parts_of(
    filter: &Filter,
    sub_name: Option<&Text>,
) -> Result<(Attribute, Option<SubAttribute>), PathFault>
    ensures { parts_read (tree_of filter.now) result
        ≡ spec.written_target (Filtered (tree_of filter.now)
        (option_map (λ t. t.now) sub_name.entry)) }
{
    let meant = meant_before(filter).ok_or(PathFault::Syntax)?;
    let attribute = filtered_attribute(meant, filter)?;
    let sub_attribute = chosen(attribute, sub_name)?;
    Ok((attribute, sub_attribute))
}

/// The target of a value path. `sub_name` is the name of the sub-attribute after the brackets, if there is
/// one.
fn filtered(filter: Filter, sub_name: Option<&Text>) -> Result<Path, PathFault>
    ensures { target_read result ≡ spec.written_target
        (Filtered (tree_of filter) (option_map (λ t. t.now) sub_name.entry)) }
{
    match parts_of(&filter, sub_name) {
        Ok((attribute, sub_attribute)) => Ok(Path::Values(ValuePath {
            attribute,
            filter,
            sub_attribute,
        })),
        Err(fault) => Err(fault),
    }
}

/// Looks up the target that a path names.
fn written(path: WrittenPath) -> Result<Path, PathFault>
    ensures { target_read result ≡ spec.written_target (written_of path) }
{
    match path {
        WrittenPath::Plain(path) => path_of_names(path.meant),
        WrittenPath::Filtered(filter, sub_name) => filtered(filter, sub_name.as_ref()),
    }
}

/// Reads a path, without saying yet which function of the text it is.
fn path_named(alloc: Global, kind: Kind, text: &str) -> Result<Path, Failed<PathFault>>
    ensures { UnlessMemory (λ r. spec.Names kind text.now (target_read r)) result }
{
    if let Some(schema) = extension_named(kind, text) {
        return Ok(Path::Extension(schema));
    }
    match written_path(alloc, kind, text)? {
        Some(path) => match written(path) {
            Ok(found) => Ok(found),
            Err(fault) => Err(Failed::Because(fault)),
        },
        None => Err(Failed::Because(PathFault::Syntax)),
    }
}

/// Reads a path of a PATCH operation (RFC 7644 section 3.5.2): `attribute`, `attribute.subAttribute`,
/// `attribute[filter]` or `attribute[filter].subAttribute`, each with or without a URN and a colon before it,
/// or the URN of an extension alone.
///
/// Spaces around the text are allowed, and names match in any ASCII case.
///
/// Fails with `Syntax` if the text isn't a path, has more than 4,096 bytes or more than 32 open brackets, has
/// a filter after anything but a multi-valued attribute, or has a comparison that doesn't suit the type of
/// its attribute. Fails with `Unknown` if the kind doesn't have an attribute or sub-attribute that the path
/// names.
pub fn read_path(alloc: Global, kind: Kind, text: &str) -> Result<Path, Failed<PathFault>>
    ensures named { UnlessMemory (λ r. spec.Names kind text.now (target_read r)) result }
    ensures target { UnlessMemory (λ r. target_in kind text.now ≡ target_read r) result }
{
    texts_name_one_thing();
    path_named(alloc, kind, text)
}

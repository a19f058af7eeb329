//! Lists the names that a filter mentions.
ghost use Rattle.std.specs.Prelude.{◌≡◌, ◌++◌, ◌∷◌, [], IfOk, OnOk};
ghost use Rattle.std.specs.List.{list_all};
ghost use Rattle.scim_filter_grammar.specs.Mentions as spec;
ghost use Rattle.scim_filter_grammar.specs.Names.{names_text, path_text};
ghost use Rattle.scim_filter_grammar.specs.Tree.{tree_of, view};

use crate::tree::{AttributePath, Filter, Meant, Node};
use scim_cell::Text;
use scim_schema::Attribute;
use scim_text::{NoMemory, push};
use std::alloc::Global;

/// A name in a filter, with the attribute that it refers to.
#[derive(Drop)]
pub struct Named {
    /// The name as written, with its URN and sub-attribute if it has them.
    pub text: Text,
    /// The named attribute, or the attribute of the named sub-attribute. `None` if the kind doesn't have the
    /// name.
    pub attribute: Option<Attribute>,
}

impl Meant {
    /// The named attribute, or the attribute of the named sub-attribute. `None` if the kind doesn't have the
    /// name.
    pub fn mentioned_attribute(self) -> Option<Attribute>
        ensures { result ≡ spec.mentioned_attribute self }
    {
        match self {
            Meant::Nothing => None,
            Meant::Attribute(attribute) | Meant::SubAttribute(attribute, _) => Some(attribute),
        }
    }
}

/// The path as written.
fn text_of(alloc: Global, path: &AttributePath) -> Result<Text, NoMemory>
    ensures { IfOk result (λ t. t
        ≡ path_text path.now.urn (names_text path.now.name path.now.sub_name)) }
{
    let mut text = String::new(alloc);
    if let Some(urn) = &path.urn {
        text.push_str(urn.as_str())?;
        text.push(':')?;
    }
    text.push_str(path.name.as_str())?;
    if let Some(sub_name) = &path.sub_name {
        text.push('.')?;
        text.push_str(sub_name.as_str())?;
    }
    Ok(Text::new(text))
}

/// Appends the name of a path to `names`.
fn add_name(alloc: Global, path: &AttributePath, names: &mut Vec<Named>) -> Result<(), NoMemory>
    ensures { OnOk result (names.new.items ≡ names.old.items ++ (spec.named path.now ∷ [])) }
{
    let named = Named {
        text: text_of(alloc, path)?,
        attribute: path.meant.mentioned_attribute(),
    };
    push(names, named)?;
    Ok(())
}

/// Appends the names in a tree to `names`, in the order of the text.
fn add_names(alloc: Global, node: &Node, names: &mut Vec<Named>) -> Result<(), NoMemory>
    ensures { OnOk result (names.new.items ≡ names.old.items
        ++ spec.mentioned_names (view node.now)) }
{
    match node {
        Node::Or(a, b) | Node::And(a, b) => {
            add_names(alloc, a, names)?;
            add_names(alloc, b, names)
        }
        Node::Not(a) => add_names(alloc, a, names),
        Node::Present(path) | Node::Compare(path, _, _) => add_name(alloc, path, names),
        Node::Values(path, inner) => {
            add_name(alloc, path, names)?;
            add_names(alloc, inner, names)
        }
    }
}

/// Lists the names in a filter in the order of its text, including those in the brackets of value paths.
pub fn mentioned_names(alloc: Global, filter: &Filter) -> Result<Vec<Named>, NoMemory>
    ensures { IfOk result (λ v. v.items ≡ spec.mentioned_names (tree_of filter.now)) }
{
    let mut found = Vec::new(alloc);
    add_names(alloc, filter.tree(), &mut found)?;
    Ok(found)
}

/// Whether the kind has every attribute and sub-attribute that a filter names.
pub fn knows_names(node: &Node) -> bool
    ensures { result ≡ list_all spec.is_known (spec.mentioned_names (view node.now)) }
{
    match node {
        Node::Or(a, b) | Node::And(a, b) => knows_names(a) && knows_names(b),
        Node::Not(a) => knows_names(a),
        Node::Present(path) | Node::Compare(path, _, _) => path
            .meant
            .mentioned_attribute()
            .is_some(),
        Node::Values(path, inner) => path.meant.mentioned_attribute().is_some()
            && knows_names(inner),
    }
}

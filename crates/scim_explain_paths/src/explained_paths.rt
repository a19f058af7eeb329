//! The paths of `explain`, and the text for each.
ghost use Rattle.std.specs.Prelude.{◌≡◌, IfOk, string_bytes, filter};
ghost use Rattle.std.specs.List.{flat_map, list_any};
ghost use Rattle.scim_explain_paths.specs.Paths as spec;
ghost use Rattle.scim_explain_paths.specs.code.Asked.{explanation_of, leaf_text_of};

use scim_audit::leaf_path;
use scim_explain::{explain, print};
use scim_filter_grammar::{Meant, attribute_path};
use scim_policy::Policy;
use scim_schema::{Kind, Leaf, Op, leaves};
use scim_text::{NoMemory, push};
use scim_value::Resource;
use std::alloc::Global;

/// Returns the path of the kind with this text, as in a policy file: an attribute or a sub-attribute. Returns `None`
/// if the kind has none with this name.
pub fn path_named(kind: Kind, text: &str) -> Option<Meant>
    ensures { result ≡ spec.path_named kind text.now }
{
    let path = attribute_path(kind, text)?;
    covers_any(path, leaves(kind)).then_some(path)
}

/// Whether the path covers one of `leaves`.
fn covers_any(path: Meant, leaves: &[Leaf]) -> bool
    ensures { result ≡ list_any (spec.covers path) leaves.now }
{
    leaves.iter().any(|leaf| covers(path, *leaf))
}

/// Whether the path names the leaf's attribute or the leaf itself.
fn covers(path: Meant, leaf: Leaf) -> bool
    ensures { result ≡ spec.covers path leaf }
{
    match path {
        Meant::Nothing => false,
        Meant::Attribute(attribute) => leaf.attribute == attribute,
        Meant::SubAttribute(attribute, sub_attribute) => {
            leaf == Leaf::of(attribute, sub_attribute)
        }
    }
}

/// Returns the explanation of the policy's decision on each leaf that the path covers, in table order. If there are
/// several leaves, the leaf's path and a colon stand on a line before its explanation.
pub fn explain_path(
    alloc: Global,
    policy: &Policy,
    client: &str,
    op: Op,
    resource: &Resource,
    path: Meant,
) -> Result<String, NoMemory>
    ensures { IfOk result (λ text. string_bytes text
        ≡ spec.path_text policy.now client.now op resource.now path) }
{
    let covered = covered(alloc, path, leaves(resource.kind()))?;
    let asked = Asked {
        policy,
        client,
        op,
        resource,
        headed: covered.len() > 1,
    };
    asked.texts(alloc, covered.as_slice())
}

/// Returns those of `leaves` that the path covers.
fn covered(alloc: Global, path: Meant, leaves: &[Leaf]) -> Result<Vec<Leaf>, NoMemory>
    ensures { IfOk result (λ found. found.items ≡ filter (spec.covers path) leaves.now) }
{
    let mut covered = Vec::new(alloc);
    for leaf in leaves {
        if covers(path, *leaf) {
            push(&mut covered, *leaf)?;
        }
    }
    Ok(covered)
}

/// A client's operation on a resource, and whether a line before each explanation names the leaf.
#[derive(Clone, Copy)]
struct Asked<'a> {
    policy: &'a Policy,
    client: &'a str,
    op: Op,
    resource: &'a Resource,
    headed: bool,
}

impl Asked<'_> {
    /// Returns the explanations of the decisions on these leaves.
    fn texts(&self, alloc: Global, leaves: &[Leaf]) -> Result<String, NoMemory>
        ensures { IfOk result (λ text. string_bytes text
            ≡ flat_map (leaf_text_of self.now) leaves.now) }
    {
        let mut text = String::new(alloc);
        for leaf in leaves {
            let part = self.text(alloc, *leaf)?;
            text.push_str(part.as_str())?;
        }
        Ok(text)
    }

    /// Returns the explanation of the decision on a leaf, behind its heading if there is one.
    fn text(&self, alloc: Global, leaf: Leaf) -> Result<String, NoMemory>
        ensures { IfOk result (λ text. string_bytes text ≡ leaf_text_of self.now leaf) }
    {
        let mut text = heading(alloc, self.headed, leaf)?;
        let explanation = self.explanation(alloc, leaf)?;
        text.push_str(explanation.as_str())?;
        Ok(text)
    }

    /// Returns the explanation of the decision on a leaf.
    fn explanation(&self, alloc: Global, leaf: Leaf) -> Result<String, NoMemory>
        ensures { IfOk result (λ text. string_bytes text ≡ explanation_of self.now leaf) }
    {
        let (client, op) = (self.client, self.op);
        let explanation = explain(alloc, self.policy, client, op, self.resource, leaf)?;
        print(alloc, &explanation)
    }
}

/// Returns the line with the path of the leaf and a colon if `headed` is true, and no text otherwise.
fn heading(alloc: Global, headed: bool, leaf: Leaf) -> Result<String, NoMemory>
    ensures { IfOk result (λ text. string_bytes text ≡ spec.heading headed leaf) }
{
    if !headed {
        return Ok(String::new(alloc));
    }
    let path = leaf_path(alloc, leaf)?;
    Ok(format!(in alloc; "{path}:\n")?)
}

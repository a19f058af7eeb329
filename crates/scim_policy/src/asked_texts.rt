//! The texts of a resource at the leaves that targets ask, to tell which targets it doesn't meet.
ghost use Rattle.std.specs.Prelude.{◌≡◌, ◌++◌, IfOk, IfSome, OnOk};
ghost use Rattle.scim_cell.specs.Rows as of_rows;
ghost use Rattle.scim_policy.specs.code.Asked as spec;

use scim_cell::{Atom, Field, Row, Text};
use scim_filter_texts::{NeededText, compared_text};
use scim_schema::{Attribute, Kind, Leaf, is_case_exact};
use scim_text::{NoMemory, fold, push};
use scim_value::Resource;
use std::alloc::Global;

/// The texts of a resource at the leaves that targets ask.
#[derive(Drop)]
pub(crate) struct AskedTexts<'l> {
    leaves: &'l [Leaf],
    texts: Vec<AskedText>,
}

/// A text of a resource as comparisons use it: case-folded unless the leaf is caseExact. `None` for a value that
/// isn't a text.
#[derive(Drop)]
struct AskedText {
    leaf: Leaf,
    text: Option<Text>,
}

impl<'l> AskedTexts<'l> {
    /// Collects the texts of a resource at the leaves. `None` if the resource isn't of the kind or no leaf is
    /// asked; then nothing is allocated.
    pub(crate) fn of(
        alloc: Global,
        kind: Kind,
        leaves: &'l [Leaf],
        resource: &Resource,
    ) -> Result<Option<AskedTexts<'l>>, NoMemory>
        ensures { IfOk result (λ o. IfSome o (λ asked. (resource.now.kind ≡ kind)
            × spec.TellOf (of_rows.rows resource.now) asked)) }
    {
        if leaves.is_empty() || resource.kind() != kind {
            return Ok(None);
        }
        let texts = asked_among(alloc, leaves, resource.part().rows())?;
        Ok(Some(AskedTexts { leaves, texts }))
    }

    /// Whether the resource may have one of the texts. True if a text's leaf isn't asked.
    pub(crate) fn may_have_some(&self, needed: &[NeededText<'_>]) -> bool
        ensures { result ≡ spec.may_have_some self.now needed.now }
    {
        for text in needed {
            if self.may_have(text) {
                return true;
            }
        }
        false
    }

    /// Whether the resource may have the text. True if its leaf isn't asked.
    fn may_have(&self, needed: &NeededText<'_>) -> bool
        ensures { result ≡ spec.may_have self.now needed.now }
    {
        let leaf = needed.leaf;
        has_equal(
            self.texts.as_slice(),
            leaf,
            compared_text(leaf, needed.text),
        ) || !is_asked(self.leaves, leaf)
    }
}

impl AskedText {
    /// Returns the text of a field, folded unless its leaf is caseExact.
    fn of(alloc: Global, field: &Field) -> Result<AskedText, NoMemory>
        ensures { IfOk result (λ asked. asked ≡ spec.asked_text field.now) }
    {
        let leaf = field.leaf;
        let text = compared_atom(alloc, is_case_exact(leaf), &field.atom)?;
        Ok(AskedText { leaf, text })
    }
}

/// Returns the text of an atom as comparisons use it: folded unless `exact`. `None` if it isn't a text.
fn compared_atom(alloc: Global, exact: bool, atom: &Atom) -> Result<Option<Text>, NoMemory>
    ensures { IfOk result (λ o. o ≡ spec.compared_atom exact atom.now) }
{
    match atom {
        Atom::Text(text) if exact => Ok(Some(text.try_copy(alloc)?)),
        Atom::Text(text) => Ok(Some(Text::new(fold(alloc, text.as_str())?))),
        _ => Ok(None),
    }
}

/// Whether the atom may equal the text: one that isn't a text may.
fn may_equal(own: &Option<Text>, text: &str) -> bool
    ensures { result ≡ spec.may_equal own.now text.now }
{
    match own {
        Some(own) => own.as_str() == text,
        None => true,
    }
}

/// Whether one of the texts at the leaf may equal the text.
fn has_equal(texts: &[AskedText], leaf: Leaf, text: &str) -> bool
    ensures { result ≡ spec.has_equal texts.now leaf text.now }
{
    for own in texts {
        if own.leaf == leaf && may_equal(&own.text, text) {
            return true;
        }
    }
    false
}

/// Whether the leaf is one of these.
pub(crate) fn is_asked(leaves: &[Leaf], leaf: Leaf) -> bool
    ensures { result ≡ spec.is_asked leaves.now leaf }
{
    leaves.iter().any(|asked| leaf == *asked)
}

/// Whether one of the leaves belongs to the attribute.
fn asks_of(leaves: &[Leaf], attribute: Attribute) -> bool
    ensures { result ≡ spec.asks_of leaves.now attribute }
{
    leaves.iter().any(|asked| asked.attribute == attribute)
}

/// Collects the texts of the rows at the leaves.
fn asked_among(alloc: Global, leaves: &[Leaf], rows: &[Row]) -> Result<Vec<AskedText>, NoMemory>
    ensures { IfOk result (λ texts. texts.items ≡ spec.asked_among leaves.now rows.now) }
{
    let mut texts = Vec::new(alloc);
    for row in rows {
        if asks_of(leaves, row.unit().attribute) {
            add_row(alloc, &mut texts, leaves, row.fields())?;
        }
    }
    Ok(texts)
}

/// Adds the texts of the fields of a row at the leaves.
fn add_row(
    alloc: Global,
    texts: &mut Vec<AskedText>,
    leaves: &[Leaf],
    fields: &[Field],
) -> Result<(), NoMemory>
    ensures { OnOk result (texts.new.items
        ≡ texts.old.items ++ spec.asked_in leaves.now fields.now) }
{
    for field in fields {
        if is_asked(leaves, field.leaf) {
            let asked = AskedText::of(alloc, field)?;
            push(texts, asked)?;
        }
    }
    Ok(())
}

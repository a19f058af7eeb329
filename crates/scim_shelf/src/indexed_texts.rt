//! The texts under which a resource is indexed.
ghost use Rattle.std.specs.Prelude.{◌≡◌, ◌&&◌, ◌||◌, not, nat_eq, ℕ, ◌≤◌, ◌-◌, List, true, length, take, drop, Some, string_bytes, IfOk, OnOk};
ghost use Rattle.std.specs.Option.{option_copied};
ghost use Rattle.std.specs.Cmp.Lexicographic.{pointwise};
ghost use Rattle.std.specs.BTreeSet.{contains_text};
ghost use Rattle.scim_schema.specs.Units.{is_same_leaf};
ghost use Rattle.scim_cell.specs.Rows.{atom_in};
ghost use Rattle.scim_value.specs.declared.uniqueness.UniqueName.{UniqueName as SpecName};
ghost use Rattle.scim_shelf.specs.Stores.{compared_text, has_text_in, is_compared};
ghost use Rattle.scim_shelf.specs.Owners.{is_among};
ghost use Rattle.scim_shelf.specs.IndexedTexts as spec;
ghost use Rattle.scim_shelf.specs.IndexedTexts.{is_found, is_under, is_under_at};

use scim_cell::{Atom, Row};
use scim_schema::{Kind, Leaf, indexed_leaves, is_case_exact, unit_of};
use scim_text::{NoMemory, fold, push};
use scim_value::{Resource, UniqueName};
use std::alloc::Global;
use std::collections::BTreeSet;

/// Whether the texts at a leaf of the resources of a kind are indexed.
pub(crate) fn is_indexed(kind: Kind, leaf: Leaf) -> bool
    ensures { result ≡ spec.is_indexed kind leaf }
{
    indexed_leaves(kind).contains(&leaf)
}

/// Returns the form of the text that comparisons at the leaf use: unchanged if the leaf is caseExact, otherwise
/// folded (RFC 7643 section 2.2).
pub(crate) fn compared(alloc: Global, leaf: Leaf, text: &str) -> Result<String, NoMemory>
    ensures { IfOk result (λ t. string_bytes t ≡ compared_text leaf text.now) }
{
    if is_case_exact(leaf) {
        Ok(String::from_str(alloc, text)?)
    } else {
        fold(alloc, text)
    }
}

/// Returns the text of a value at the leaf; `None` if the value has no text there.
pub(crate) fn text_at(leaf: Leaf, value: &Row) -> Option<&str>
    ensures { (t : List ℕ) → is_compared leaf t (atom_in leaf value.now.fields)
        ≡ is_found leaf t (option_copied result) }
{
    match value.get(leaf) {
        Some(Atom::Text(text)) => Some(text.as_str()),
        _ => None,
    }
}

/// Returns the values of the resource whose texts at the leaf are indexed: none if the leaf isn't indexed for the
/// kind of the resource.
pub(crate) fn indexed_values(leaf: Leaf, resource: &Resource) -> &[Row]
    ensures { (t : List ℕ) → has_text_in leaf t result.now ≡ is_under_at leaf t resource.now }
{
    if is_indexed(resource.kind(), leaf) {
        resource.part().values(unit_of(leaf))
    } else {
        &[]
    }
}

/// Whether two values have the same text at the leaf; false if neither has one.
fn has_same_text(leaf: Leaf, one: &Row, other: &Row) -> bool
    ensures { result ≡ true → (t : List ℕ)
        → is_compared leaf t (atom_in leaf one.now.fields)
        ≡ is_compared leaf t (atom_in leaf other.now.fields) }
{
    match text_at(leaf, one) {
        Some(text) => has_text(leaf, text, other),
        None => false,
    }
}

/// Whether a value has exactly this text at the leaf, without folding.
fn has_text(leaf: Leaf, text: &str, value: &Row) -> bool
    ensures { result ≡ true → (t : List ℕ)
        → is_compared leaf t (atom_in leaf value.now.fields)
        ≡ pointwise nat_eq t (compared_text leaf text.now) }
{
    match text_at(leaf, value) {
        Some(own) => own == text,
        None => false,
    }
}

/// Returns the length of the longest common prefix of two lists of values, compared by their texts at the leaf.
fn shared_values(leaf: Leaf, some: &[Row], others: &[Row]) -> usize
    ensures inside { result ≤ length some.now × result ≤ length others.now }
    ensures same { (t : List ℕ) → has_text_in leaf t (take result some.now)
        ≡ has_text_in leaf t (take result others.now) }
{
    let mut shared = 0;
    while shared < some.len()
        && shared < others.len()
        && has_same_text(leaf, &some[shared], &others[shared])
    {
        shared += 1;
    }
    shared
}

/// Returns the length of the longest common suffix of two lists of values, compared by their texts at the leaf.
fn shared_at_end(leaf: Leaf, some: &[Row], others: &[Row]) -> usize
    ensures inside { result ≤ length some.now × result ≤ length others.now }
    ensures same { (t : List ℕ) → has_text_in leaf t (drop (length some.now - result) some.now)
        ≡ has_text_in leaf t (drop (length others.now - result) others.now) }
{
    let mut shared = 0;
    while shared < some.len()
        && shared < others.len()
        && has_same_text(
            leaf,
            &some[some.len() - 1 - shared],
            &others[others.len() - 1 - shared],
        )
    {
        shared += 1;
    }
    shared
}

/// Returns the values between the prefix and the suffix that `values` shares with `others`. Only these can have
/// texts at the leaf that `others` doesn't have. They are few if one list is the other with a few values added,
/// removed or replaced in one place.
pub fn unshared_values<'a>(leaf: Leaf, others: &[Row], values: &'a [Row]) -> &'a [Row]
    ensures { (t : List ℕ) → (has_text_in leaf t result.now || has_text_in leaf t others.now)
        ≡ (has_text_in leaf t values.now || has_text_in leaf t others.now) }
{
    let first = shared_values(leaf, others, values);
    let rest = &values[first..];
    let last = shared_at_end(leaf, &others[first..], rest);
    &rest[..rest.len() - last]
}

/// Returns the indexed values of `resource` between the prefix and the suffix that it shares with `other`. Only
/// these can have texts that `other` doesn't have.
pub(crate) fn values_beyond<'a>(leaf: Leaf, other: &Resource, resource: &'a Resource) -> &'a [Row]
    ensures { (t : List ℕ) → (has_text_in leaf t result.now || is_under_at leaf t other.now)
        ≡ (is_under_at leaf t resource.now || is_under_at leaf t other.now) }
{
    unshared_values(
        leaf,
        indexed_values(leaf, other),
        indexed_values(leaf, resource),
    )
}

/// Returns the texts of the values at the leaf, each once, as comparisons use them.
fn texts_of(alloc: Global, leaf: Leaf, values: &[Row]) -> Result<BTreeSet<String>, NoMemory>
    ensures { IfOk result (λ texts. (t : List ℕ)
        → contains_text texts t ≡ has_text_in leaf t values.now) }
{
    let mut texts = BTreeSet::new(alloc);
    for value in values {
        if let Some(text) = text_at(leaf, value) {
            texts.insert(compared(alloc, leaf, text)?)?;
        }
    }
    Ok(texts)
}

/// Removes from the set the text that comparisons at the leaf use for this text.
fn remove_text(
    alloc: Global,
    leaf: Leaf,
    text: &str,
    texts: &mut BTreeSet<String>,
) -> Result<(), NoMemory>
    ensures { OnOk result ((t : List ℕ) → contains_text texts.new t
        ≡ (contains_text texts.old t && not (is_found leaf t (Some text.now)))) }
{
    if is_case_exact(leaf) {
        texts.remove(text);
    } else {
        texts.remove(fold(alloc, text)?.as_str());
    }
    Ok(())
}

/// Removes from the set the texts of these values at the leaf. Stops as soon as the set is empty.
fn remove_texts(
    alloc: Global,
    leaf: Leaf,
    values: &[Row],
    texts: &mut BTreeSet<String>,
) -> Result<(), NoMemory>
    ensures { OnOk result ((t : List ℕ) → contains_text texts.new t
        ≡ (contains_text texts.old t && not (has_text_in leaf t values.now))) }
{
    for value in values {
        if texts.is_empty() {
            return Ok(());
        }
        if let Some(text) = text_at(leaf, value) {
            remove_text(alloc, leaf, text, texts)?;
        }
    }
    Ok(())
}

/// Appends the texts of the set, which are at the leaf, to `names`.
fn push_all(
    leaf: Leaf,
    texts: BTreeSet<String>,
    names: &mut Vec<UniqueName>,
) -> Result<(), NoMemory>
    ensures { OnOk result ((q : SpecName) → is_among q names.new.items
        ≡ (is_among q names.old.items
        || (is_same_leaf leaf q.leaf && contains_text texts (string_bytes q.text)))) }
{
    for text in texts {
        push(names, UniqueName { leaf, text })?;
    }
    Ok(())
}

/// Appends to `gone` the texts of these values at the leaf, without those under which `new` is indexed. Makes a
/// set of the texts of these values, and passes over the values of `new` once.
fn push_missing(
    alloc: Global,
    leaf: Leaf,
    values: &[Row],
    new: &Resource,
    gone: &mut Vec<UniqueName>,
) -> Result<(), NoMemory>
    ensures { OnOk result ((q : SpecName) → is_among q gone.new.items
        ≡ (is_among q gone.old.items || (is_same_leaf leaf q.leaf
        && (has_text_in leaf (string_bytes q.text) values.now && not (is_under q new.now))))) }
{
    let mut missing = texts_of(alloc, leaf, values)?;
    remove_texts(alloc, leaf, indexed_values(leaf, new), &mut missing)?;
    push_all(leaf, missing, gone)
}

/// Appends to `gone` the texts at the leaf under which `old` is indexed and `new` isn't. Allocates only if `old`
/// has values at the leaf beside those that begin or end both lists.
fn push_beyond(
    alloc: Global,
    leaf: Leaf,
    old: &Resource,
    new: &Resource,
    gone: &mut Vec<UniqueName>,
) -> Result<(), NoMemory>
    ensures { OnOk result ((q : SpecName) → is_among q gone.new.items
        ≡ (is_among q gone.old.items || (is_same_leaf leaf q.leaf
        && (is_under q old.now && not (is_under q new.now))))) }
{
    let values = values_beyond(leaf, new, old);
    if values.is_empty() {
        return Ok(());
    }
    push_missing(alloc, leaf, values, new, gone)
}

/// Returns the texts under which `old` is indexed and `new` isn't.
pub(crate) fn texts_beyond(
    alloc: Global,
    old: &Resource,
    new: &Resource,
) -> Result<Vec<UniqueName>, NoMemory>
    ensures { IfOk result (λ gone. (q : SpecName)
        → is_among q gone.items ≡ (is_under q old.now && not (is_under q new.now))) }
{
    let mut gone = Vec::new(alloc);
    for leaf in indexed_leaves(old.kind()) {
        push_beyond(alloc, *leaf, old, new, &mut gone)?;
    }
    Ok(gone)
}

/// Appends the texts of these values at the leaf to `texts`.
fn push_texts(
    alloc: Global,
    leaf: Leaf,
    values: &[Row],
    texts: &mut Vec<UniqueName>,
) -> Result<(), NoMemory>
    ensures { OnOk result ((q : SpecName) → is_among q texts.new.items
        ≡ (is_among q texts.old.items
        || (is_same_leaf leaf q.leaf && has_text_in leaf (string_bytes q.text) values.now))) }
{
    for value in values {
        if let Some(text) = text_at(leaf, value) {
            let text = compared(alloc, leaf, text)?;
            push(texts, UniqueName { leaf, text })?;
        }
    }
    Ok(())
}

/// Returns the texts under which the resource is indexed.
pub(crate) fn texts_indexed(alloc: Global, resource: &Resource) -> Result<Vec<UniqueName>, NoMemory>
    ensures { IfOk result (λ texts. (q : SpecName)
        → is_among q texts.items ≡ is_under q resource.now) }
{
    let mut texts = Vec::new(alloc);
    for leaf in indexed_leaves(resource.kind()) {
        push_texts(alloc, *leaf, indexed_values(*leaf, resource), &mut texts)?;
    }
    Ok(texts)
}

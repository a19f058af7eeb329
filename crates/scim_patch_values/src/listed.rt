//! Removes the values whose `value` is in a list.
ghost use Rattle.std.specs.Prelude.{◌≡◌, ℕ, List, IfOk, filter, not};
ghost use Rattle.scim_patch_values.specs.Matches as spec;
ghost use Rattle.scim_patch_values.specs.code.Listed.{HoldsTexts};

use scim_cell::{Atom, Row, Text};
use scim_schema::{Leaf, SubAttribute};
use scim_text::{NoMemory, push};
use std::alloc::Global;
use std::collections::BTreeSet;

/// Collects the texts in a set, for fast look-ups.
fn set_of(alloc: Global, texts: &[Text]) -> Result<BTreeSet<String>, NoMemory>
    ensures { IfOk result (λ set. HoldsTexts set texts.now) }
{
    let mut set = BTreeSet::new(alloc);
    for text in texts {
        let _ = set.insert(String::from_str(alloc, text.as_str())?)?;
    }
    Ok(set)
}

/// Whether the sub-attribute `value` of the value is one of the texts in the set.
fn is_listed(set: &BTreeSet<String>, value: &Row) -> bool
    ensures { (texts : List (List ℕ)) → HoldsTexts set.now texts
        → result ≡ spec.is_listed texts value.now }
{
    match value.get(Leaf::of(value.unit().attribute, SubAttribute::Value)) {
        Some(Atom::Text(text)) => set.contains(text.as_str()),
        _ => false,
    }
}

/// Removes the values whose sub-attribute `value` is one of the texts, compared case-sensitively. The other
/// values keep their order.
pub fn remove_listed(alloc: Global, texts: &[Text], values: Vec<Row>) -> Result<Vec<Row>, NoMemory>
    ensures { IfOk result (λ v. v.items
        ≡ filter (λ value. not (spec.is_listed texts.now value)) values.items) }
{
    let set = set_of(alloc, texts)?;
    let mut left = Vec::new(alloc);
    for value in values {
        if !is_listed(&set, &value) {
            push(&mut left, value)?;
        }
    }
    Ok(left)
}

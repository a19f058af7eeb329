//! The attributes that a query's filter and sort key name.
ghost use Rattle.std.specs.Prelude.{◌≡◌, IfOk};
ghost use Rattle.scim_query.specs.NamedAttributes as spec;

use crate::queries::Query;
use scim_filter_grammar::{Filter, Named, mentioned_names};
use scim_schema::Attribute;
use scim_text::{NoMemory, push};
use std::alloc::Global;

/// Returns the attributes that the names refer to. Names that the kind doesn't have are skipped.
fn attributes_in(alloc: Global, names: &[Named]) -> Result<Vec<Attribute>, NoMemory>
    ensures { IfOk result (λ v. v.items ≡ spec.attributes_in names.now) }
{
    Ok(
        names
            .iter()
            .filter_map(|name| name.attribute)
            .collect(alloc)?,
    )
}

/// Returns the attributes that a filter names, in the order of its text.
fn attributes_named(alloc: Global, filter: &Filter) -> Result<Vec<Attribute>, NoMemory>
    ensures { IfOk result (λ v. v.items ≡ spec.attributes_named filter.now) }
{
    let names = mentioned_names(alloc, filter)?;
    attributes_in(alloc, names.as_slice())
}

/// Returns the attributes that the filter names, in the order of its text; empty if there is no filter.
fn filter_attributes(alloc: Global, filter: &Option<Filter>) -> Result<Vec<Attribute>, NoMemory>
    ensures { IfOk result (λ v. v.items ≡ spec.filter_attributes filter.now) }
{
    match filter {
        Some(filter) => attributes_named(alloc, filter),
        None => Ok(Vec::new(alloc)),
    }
}

impl Query {
    /// Returns the attributes that the filter names, in the order of its text, then the attribute of the
    /// sort key. If `groups` isn't among these attributes, then dropping the cells of all other attributes
    /// from a visible part changes neither whether the part matches nor its sort key.
    pub fn attributes(&self, alloc: Global) -> Result<Vec<Attribute>, NoMemory>
        ensures { IfOk result (λ v. v.items ≡ spec.attributes_of self.now) }
    {
        let mut attributes = filter_attributes(alloc, &self.filter)?;
        if let Some(leaf) = self.sort_by {
            push(&mut attributes, leaf.attribute)?;
        }
        Ok(attributes)
    }
}

//! The parameters in the query of a target.
ghost use Rattle.std.specs.Prelude.{◌≡◌, ◌<◌, length, map, IfOk, IsTrue, Some};
ghost use Rattle.std.specs.Option.{option_copied};
ghost use Rattle.scim_route.specs.Parameters.{decoded_text, pairs_of};
ghost use Rattle.scim_admin_text.specs.Parameters as spec;
ghost use Rattle.scim_admin_text.specs.Parameters.{parameter_pairs};

use form_urlencoded::{decode, raw_pairs};
use scim_cell::Text;
use scim_text::{NoMemory, push};
use std::alloc::Global;

/// A parameter: its name and its value, both decoded.
#[derive(Drop)]
struct Parameter {
    name: Text,
    value: Text,
}

/// The parameters of a query, in order.
#[derive(Drop)]
pub(crate) struct Parameters {
    list: Vec<Parameter>,
}

/// Decodes a form-encoded name or value. Bytes that aren't UTF-8 become U+FFFD.
fn decoded_text(alloc: Global, bytes: &[u8]) -> Result<Text, NoMemory>
    ensures { IfOk result (λ text. text ≡ decoded_text bytes.now) }
{
    Ok(Text::new(decode(alloc, bytes)?.into_owned(alloc)?))
}

impl Parameters {
    /// Reads the parameters of a query.
    pub(crate) fn read(alloc: Global, query: &[u8]) -> Result<Parameters, NoMemory>
        ensures { IfOk result (λ p. parameter_pairs p ≡ pairs_of (Some query.now)) }
    {
        let mut list = Vec::new(alloc);
        for (name, value) in raw_pairs(query) {
            let name = decoded_text(alloc, name)?;
            let value = decoded_text(alloc, value)?;
            push(&mut list, Parameter { name, value })?;
        }
        Ok(Parameters { list })
    }

    /// Returns the value of the first parameter with this name; `None` if there is none.
    pub(crate) fn value(&self, name: &str) -> Option<&str>
        ensures { option_copied result ≡ spec.value_of name.now (parameter_pairs self.now) }
    {
        for parameter in &self.list {
            if parameter.name.as_str() == name {
                return Some(parameter.value.as_str());
            }
        }
        None
    }

    /// Whether each parameter has one of these names.
    pub(crate) fn are_among(&self, names: &[&str]) -> bool
        ensures { result ≡ spec.are_among (map (λ n. n.now) names.now) (parameter_pairs self.now) }
    {
        for parameter in &self.list {
            if !is_among(parameter.name.as_str(), names) {
                return false;
            }
        }
        true
    }
}

/// Whether the name is one of these.
fn is_among(name: &str, names: &[&str]) -> bool
    ensures { result ≡ spec.is_among (map (λ n. n.now) names.now) name.now }
{
    for other in names {
        if *other == name {
            return true;
        }
    }
    false
}

//! The parameters of query strings (RFC 7644 section 3.4.2).
ghost use Rattle.std.specs.Prelude.{◌≡◌, IfOk, OnOk, []};
ghost use Rattle.std.specs.Option.{option_copied};
ghost use Rattle.scim_route.specs.Parameters as spec;
ghost use Rattle.scim_route.specs.code.Taken.{taken, with_pair};

use form_urlencoded::{decode, raw_pairs};
use scim_cell::Text;
use scim_text::{NoMemory, same_name};
use std::alloc::Global;

/// The query parameters that SCIM defines (RFC 7644 sections 3.4.2 and 3.9). Each field has the parameter's
/// first value in the query string, or `None` if the query string doesn't have the parameter.
pub struct Parameters {
    /// `attributes`
    pub attributes: Option<Text>,
    /// `excludedAttributes`
    pub excluded_attributes: Option<Text>,
    /// `filter`
    pub filter: Option<Text>,
    /// `sortBy`
    pub sort_by: Option<Text>,
    /// `sortOrder`
    pub sort_order: Option<Text>,
    /// `startIndex`
    pub start_index: Option<Text>,
    /// `count`
    pub count: Option<Text>,
}

impl Drop for Parameters {
    fn drop(self) {
        let Parameters {
            attributes: _attributes,
            excluded_attributes: _excluded_attributes,
            filter: _filter,
            sort_by: _sort_by,
            sort_order: _sort_order,
            start_index: _start_index,
            count: _count,
        } = self;
    }
}

/// Decodes a form-encoded name or value. Bytes that aren't UTF-8 become U+FFFD.
fn decoded_text(alloc: Global, bytes: &[u8]) -> Result<Text, NoMemory>
    ensures { IfOk result (λ text. text ≡ spec.decoded_text bytes.now) }
{
    Ok(Text::new(decode(alloc, bytes)?.into_owned(alloc)?))
}

/// Stores the decoded value in `held` if `held` has no value yet and `name` equals `parameter`, ignoring
/// ASCII case.
fn take(
    alloc: Global,
    held: &mut Option<Text>,
    parameter: &str,
    name: &Text,
    value: &[u8],
) -> Result<(), NoMemory>
    ensures { OnOk result (held.new
        ≡ taken parameter.now (name.now, spec.decoded_text value.now) held.old) }
{
    if held.is_none() && same_name(name.as_str(), parameter) {
        *held = Some(decoded_text(alloc, value)?);
    }
    Ok(())
}

impl Parameters {
    /// Returns the parameters of an empty query string.
    fn none() -> Parameters
        ensures { result ≡ spec.parameters_in [] }
    {
        Parameters {
            attributes: None,
            excluded_attributes: None,
            filter: None,
            sort_by: None,
            sort_order: None,
            start_index: None,
            count: None,
        }
    }

    /// Decodes a name and a value. Stores the value if the name is that of a parameter without a value.
    /// Ignores all other names. On an error, no value is stored.
    fn take_pair(&mut self, alloc: Global, name: &[u8], value: &[u8]) -> Result<(), NoMemory>
        ensures { OnOk result (self.new
            ≡ with_pair (spec.decoded_pair (name.now, value.now)) self.old) }
    {
        let name = decoded_text(alloc, name)?;
        take(alloc, &mut self.attributes, "attributes", &name, value)?;
        let excluded = &mut self.excluded_attributes;
        take(alloc, excluded, "excludedAttributes", &name, value)?;
        take(alloc, &mut self.filter, "filter", &name, value)?;
        take(alloc, &mut self.sort_by, "sortBy", &name, value)?;
        take(alloc, &mut self.sort_order, "sortOrder", &name, value)?;
        take(alloc, &mut self.start_index, "startIndex", &name, value)?;
        take(alloc, &mut self.count, "count", &name, value)
    }

    /// Reads the parameters of a query string; without a query string they are all `None`. Names are
    /// compared without regard to ASCII case. If a name occurs several times, its first value counts.
    /// Unknown names are ignored. Bytes that aren't UTF-8 become U+FFFD.
    pub fn read(alloc: Global, query: Option<&[u8]>) -> Result<Parameters, NoMemory>
        ensures { IfOk result (λ parameters. parameters
            ≡ spec.parameters_of (option_copied query.entry)) }
    {
        let mut parameters = Parameters::none();
        for (name, value) in raw_pairs(query.unwrap_or(&[])) {
            parameters.take_pair(alloc, name, value)?;
        }
        Ok(parameters)
    }
}

//! Lists of resource types or schemas, in the form of a reply to a search (RFC 7644 sections 3.4.2 and 4).
ghost use Rattle.std.specs.Prelude.{◌≡◌, IfOk, map};
ghost use Rattle.serde_json.specs.View.{view};
ghost use Rattle.scim_discovery.specs.Lists as spec;

use scim_text::NoMemory;
use serde_json::{Value, json};
use std::alloc::Global;

/// Returns the list response with these resources, all on one page.
#[tactic(auto, unfolding(crate::specs::Lists::list_data))]
pub(crate) fn list_value(alloc: Global, resources: Vec<Value>) -> Result<Value, NoMemory>
    ensures { IfOk result (λ v. view v ≡ spec.list_data (map view resources.items)) }
{
    let count = resources.len();
    Ok(json!(in alloc; {
        "Resources": resources,
        "itemsPerPage": count,
        "schemas": ["urn:ietf:params:scim:api:messages:2.0:ListResponse"],
        "startIndex": 1u64,
        "totalResults": count
    })?)
}

//! The parameters `attributes` and `excludedAttributes` (RFC 7644 section 3.9).
ghost use Rattle.std.specs.Prelude.{◌≡◌, IfOk};
ghost use Rattle.scim_text.specs.Failures.{UnlessMemory};
ghost use Rattle.scim_exchange.specs.Refused.{Tells};
ghost use Rattle.scim_exchange.specs.AttributeLists.{AreNames, Wants, is_given, one_of};
ghost use Rattle.scim_exchange.specs.code.Views.{texts_in, lists_in};

use scim_audit::Refusal;
use scim_schema::Kind;
use scim_text::{Failed, NoMemory};
use scim_view::{Names, Wanted};
use std::alloc::Global;

/// The attribute lists of a request. A list that isn't given is empty.
#[derive(Drop)]
pub(crate) struct AttributeLists<'r> {
    pub(crate) attributes: Vec<&'r str>,
    pub(crate) excluded: Vec<&'r str>,
}

/// Returns the names of the kind's leaves that the texts name.
fn names_of(alloc: Global, kind: Kind, texts: &Vec<&str>) -> Result<Names, NoMemory>
    ensures { IfOk result (AreNames kind (texts_in texts.now)) }
{
    Names::of(alloc, kind, texts.as_slice())
}

/// Returns the attributes that the lists select.
///
/// Fails with `MessageValue` if both lists are given.
pub(crate) fn wanted_by(
    alloc: Global,
    kind: Kind,
    lists: &AttributeLists<'_>,
) -> Result<Wanted, Failed<Refusal>>
    ensures { UnlessMemory (Tells (Wants kind) (one_of (lists_in lists.now))) result }
{
    if lists.attributes.is_empty() {
        if lists.excluded.is_empty() {
            return Ok(Wanted::Default);
        }
        return Ok(Wanted::Without(names_of(alloc, kind, &lists.excluded)?));
    }
    if lists.excluded.is_empty() {
        return Ok(Wanted::Only(names_of(alloc, kind, &lists.attributes)?));
    }
    Err(Failed::Because(Refusal::MessageValue))
}

//! Finds the endpoint that a request's method and target name (RFC 7644 section 3.2).
ghost use Rattle.std.specs.Prelude.{◌≡◌, ℕ, List, Option};
ghost use Rattle.std.specs.Option.{option_copied};
ghost use Rattle.scim_text.specs.Failures.{UnlessMemory};
ghost use Rattle.scim_route.specs.Targets.{query_of};
ghost use Rattle.scim_route.specs.Routes as spec;
ghost use Rattle.scim_route.specs.Routes.{IsIdOf, Finds, Says};
ghost use Rattle.scim_route.specs.code.Places.{place_at};

use crate::endpoints::{DiscoveryPage, Endpoint, endpoint_of};
use crate::request_targets::{decoded, read_target};
use crate::route_table::Routes;
use scim_audit::{Methods, Refusal};
use scim_cell::Id;
use scim_schema::{Kind, Op};
use scim_text::Failed;
use std::alloc::Global;

/// A form of request to the resources of a kind, or to one of them.
#[derive(Clone, Copy, Debug, PartialEq, Eq)]
pub enum Form {
    /// Get one resource (RFC 7644 section 3.4.1).
    Get,
    /// Search by a query string (RFC 7644 section 3.4.2).
    ListGet,
    /// Search by a body (RFC 7644 section 3.4.3).
    SearchPost,
    /// Create a resource (RFC 7644 section 3.3).
    Create,
    /// Replace a resource (RFC 7644 section 3.5.1).
    Replace,
    /// Change a resource by PATCH (RFC 7644 section 3.5.2).
    Patch,
    /// Delete a resource (RFC 7644 section 3.6).
    Remove,
}

impl Form {
    /// Returns the operation on which the policy decides for a request of this form.
    pub fn op(self) -> Op
        ensures { result ≡ spec.op_of self }
    {
        match self {
            Form::Get | Form::ListGet | Form::SearchPost => Op::Read,
            Form::Create => Op::Create,
            Form::Replace | Form::Patch => Op::Modify,
            Form::Remove => Op::Delete,
        }
    }
}

/// A request to the resources of a kind, or to one of them.
#[derive(Clone, Copy, PartialEq, Eq)]
pub struct Route<'t> {
    /// The form of the request.
    pub form: Form,
    /// The operation on which the policy decides.
    pub op: Op,
    /// The kind of the resources.
    pub kind: Kind,
    /// The id of the resource; `None` if the path names no resource, or names it by a text that isn't an id.
    pub id: Option<Id>,
    /// The part of the target after the first `?`; `None` if there is no `?`.
    pub query: Option<&'t [u8]>,
}

/// What a request is for, according to its method and target.
#[derive(Clone, Copy, PartialEq, Eq)]
pub enum Found<'t> {
    /// A page about the server itself (RFC 7644 section 4), and the part of the target after the
    /// first `?`, or `None` if there is no `?`.
    Discovery(DiscoveryPage, Option<&'t [u8]>),
    /// A request to the resources of a kind, or to one of them.
    Resource(Route<'t>),
}

/// Returns the route with these values. The operation is the one for `form`.
fn route_of(form: Form, kind: Kind, id: Option<Id>, query: Option<&[u8]>) -> Route<'_>
    ensures { (text : Option (List ℕ)) → IsIdOf text id
        → Says form kind text (option_copied query.entry) result }
{
    let op = form.op();
    Route {
        form,
        op,
        kind,
        id,
        query,
    }
}

/// Returns the form of a request with `method` to an endpoint that allows `methods`; `None` if the endpoint
/// doesn't allow `method`.
fn form_of(methods: Methods, method: &[u8]) -> Option<Form>
    ensures { result ≡ spec.form_of methods method.now }
{
    match methods {
        Methods::Collection => match method {
            b"GET" => Some(Form::ListGet),
            b"POST" => Some(Form::Create),
            _ => None,
        },
        Methods::Search => match method {
            b"POST" => Some(Form::SearchPost),
            _ => None,
        },
        Methods::Resource => match method {
            b"GET" => Some(Form::Get),
            b"PUT" => Some(Form::Replace),
            b"PATCH" => Some(Form::Patch),
            b"DELETE" => Some(Form::Remove),
            _ => None,
        },
        Methods::Discovery => match method {
            b"GET" => Some(Form::Get),
            _ => None,
        },
    }
}

/// Returns the form of a request with `method` to an endpoint that allows `methods`. Fails with `BadMethod`
/// if the endpoint doesn't allow `method`.
fn asked(methods: Methods, method: &[u8]) -> Result<Form, Refusal>
    ensures { result ≡ spec.asked methods method.now }
{
    form_of(methods, method).ok_or(Refusal::BadMethod(methods))
}

/// Returns the request that a method makes to an endpoint. Fails with `NotSupported` if this server doesn't
/// support the endpoint, and with `BadMethod` if the endpoint doesn't allow the method.
fn found_at<'t>(
    method: &[u8],
    endpoint: Endpoint<'_>,
    query: Option<&'t [u8]>,
) -> Result<Found<'t>, Refusal>
    ensures { Finds (spec.named_at method.now (place_at endpoint.entry))
        (option_copied query.entry) result }
{
    match endpoint {
        Endpoint::Unsupported => Err(Refusal::NotSupported),
        Endpoint::Discovery(page) => {
            asked(Methods::Discovery, method)?;
            Ok(Found::Discovery(page, query))
        }
        Endpoint::Collection(kind) => {
            let form = asked(Methods::Collection, method)?;
            Ok(Found::Resource(route_of(form, kind, None, query)))
        }
        Endpoint::Search(kind) => {
            let form = asked(Methods::Search, method)?;
            Ok(Found::Resource(route_of(form, kind, None, query)))
        }
        Endpoint::Resource(kind, text) => {
            let form = asked(Methods::Resource, method)?;
            Ok(Found::Resource(route_of(form, kind, Id::read(text), query)))
        }
    }
}

impl Routes {
    /// Finds the endpoint of SCIM that a request's method and target name (RFC 7644 section 3.2).
    ///
    /// The target is in origin form, or in absolute form with `http://`. Its path ends before the first `?`.
    /// The percent-encoding of the path is decoded, and then one slash at its end is ignored. If the text in
    /// the path where an id belongs isn't an id in hyphenated form and lower case, the id of the route is
    /// `None`.
    ///
    /// Fails with `NoRoute` if there is no such endpoint. Fails with `NotSupported` for an endpoint of SCIM
    /// that this server doesn't support (RFC 7644 sections 3.4.3, 3.7 and 3.11). Fails with `BadMethod` if
    /// the endpoint doesn't allow the method; the error has the methods that it allows.
    pub fn find<'t>(
        &self,
        alloc: Global,
        method: &[u8],
        target: &'t [u8],
    ) -> Result<Found<'t>, Failed<Refusal>>
        ensures { UnlessMemory (Finds (spec.named method.now target.now) (query_of target.now))
            result }
    {
        let target = read_target(target);
        let path = decoded(alloc, target.path)?;
        let Some(endpoint) = endpoint_of(self, path.as_str()) else {
            return Err(Failed::Because(Refusal::NoRoute));
        };
        match found_at(method, endpoint, target.query) {
            Ok(found) => Ok(found),
            Err(refusal) => Err(Failed::Because(refusal)),
        }
    }
}

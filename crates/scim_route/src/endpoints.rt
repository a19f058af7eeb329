//! The endpoints of SCIM, and the look-up of an endpoint by path (RFC 7644 section 3.2).
ghost use Rattle.std.specs.Prelude.{◌≡◌, Some, None, option_map};
ghost use Rattle.scim_route.specs.Endpoints as spec;
ghost use Rattle.std.specs.List.{after_first};
ghost use Rattle.scim_route.specs.Targets.{is_slash};
ghost use Rattle.scim_route.specs.code.Places.{place_at, led};

use crate::request_targets::without_last_slash;
use crate::route_table::{Leads, Routes};
use scim_schema::{Kind, Schema};

/// A page about the server itself (RFC 7644 section 4).
#[derive(Clone, Copy, Debug, PartialEq, Eq)]
pub enum DiscoveryPage {
    /// `/ServiceProviderConfig`
    ServiceProviderConfig,
    /// `/ResourceTypes`
    ResourceTypes,
    /// `/ResourceTypes/User`, `/ResourceTypes/Group`
    ResourceType(Kind),
    /// `/Schemas`
    Schemas,
    /// `/Schemas/` and the URN of a schema
    Schema(Schema),
}

/// The endpoint that a path names.
#[derive(Clone, Copy)]
pub(crate) enum Endpoint<'p> {
    /// A SCIM endpoint that this server doesn't support.
    Unsupported,
    /// A page about the server itself.
    Discovery(DiscoveryPage),
    /// The resources of a kind.
    Collection(Kind),
    /// The search of the resources of a kind: `/Users/.search` or `/Groups/.search`.
    Search(Kind),
    /// One resource of a kind, and the text after `/Users/` or `/Groups/`, which should be its id.
    Resource(Kind, &'p str),
}

/// Returns the endpoint that a route leads to. `text` is the part of the path after the first segment and its
/// slash. On some routes it names a resource type, a schema or a resource. `None` if it should name a
/// resource type or a schema, but doesn't.
fn endpoint_at(leads: Leads, text: &str) -> Option<Endpoint<'_>>
    ensures { option_map place_at result ≡ led leads text.now }
{
    match leads {
        Leads::Unsupported => Some(Endpoint::Unsupported),
        Leads::Page(page) => Some(Endpoint::Discovery(page)),
        Leads::ResourceType => Some(Endpoint::Discovery(DiscoveryPage::ResourceType(Kind::named(
            text,
        )?))),
        Leads::Schema => Some(Endpoint::Discovery(DiscoveryPage::Schema(Schema::named(text)?))),
        Leads::Collection(kind) => Some(Endpoint::Collection(kind)),
        Leads::Search(kind) => Some(Endpoint::Search(kind)),
        Leads::Resource(kind) => Some(Endpoint::Resource(kind, text)),
    }
}

/// Returns the text after the first slash, or an empty text if there is no slash.
fn behind_slash(text: &str) -> &str
    ensures { result.now ≡ after_first is_slash text.now }
{
    match text.split_once('/') {
        Some((_, behind)) => behind,
        None => "",
    }
}

/// Returns the endpoint of a path; `None` if there is no endpoint. The path is given without its leading
/// slash.
fn in_segments<'p>(routes: &Routes, segments: &'p str) -> Option<Endpoint<'p>>
    ensures { option_map place_at result ≡ spec.in_segments segments.now }
{
    let leads = routes.leads(segments)?;
    endpoint_at(leads, behind_slash(segments))
}

/// Returns the endpoint of a path; `None` if there is no endpoint. One slash at the end is ignored.
pub(crate) fn endpoint_of<'p>(routes: &Routes, path: &'p str) -> Option<Endpoint<'p>>
    ensures { option_map place_at result ≡ spec.place_of path.now }
{
    let rest = path.strip_prefix('/')?;
    in_segments(routes, without_last_slash(rest))
}

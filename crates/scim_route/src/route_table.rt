//! The table of routes of SCIM's endpoints, and the look-up of a path in it (RFC 7644 section 3.2).
ghost use Rattle.std.specs.Prelude.{◌≡◌, ℕ, List, [], IfOk, OnOk, map};
ghost use Rattle.matchit.specs.Seek.{first};
ghost use Rattle.matchit.specs.Router.{rename};
ghost use Rattle.scim_route.specs.code.Table as spec;

use crate::endpoints::DiscoveryPage;
use matchit::Router;
use scim_schema::Kind;
use scim_text::NoMemory;
use std::alloc::Global;

/// The endpoint, or the kind of endpoint, that a route leads to.
#[derive(Clone, Copy)]
pub(crate) enum Leads {
    /// A SCIM endpoint that this server doesn't support.
    Unsupported,
    /// A page about the server itself.
    Page(DiscoveryPage),
    /// The page of the resource type that the last segment names.
    ResourceType,
    /// The page of the schema that the last segment names.
    Schema,
    /// The resources of a kind.
    Collection(Kind),
    /// The search of the resources of a kind.
    Search(Kind),
    /// One resource of a kind. The last segment is its id.
    Resource(Kind),
}

/// The routes, each with its path without the leading slash and what it leads to.
static ROUTES: [(&str, Leads); 16] = [
    ("", Leads::Unsupported),
    (".search", Leads::Unsupported),
    ("Bulk", Leads::Unsupported),
    ("Me", Leads::Unsupported),
    ("Me/{id}", Leads::Unsupported),
    (
        "ServiceProviderConfig",
        Leads::Page(DiscoveryPage::ServiceProviderConfig),
    ),
    ("ResourceTypes", Leads::Page(DiscoveryPage::ResourceTypes)),
    ("ResourceTypes/{name}", Leads::ResourceType),
    ("Schemas", Leads::Page(DiscoveryPage::Schemas)),
    ("Schemas/{urn}", Leads::Schema),
    ("Users", Leads::Collection(Kind::User)),
    ("Users/.search", Leads::Search(Kind::User)),
    ("Users/{id}", Leads::Resource(Kind::User)),
    ("Groups", Leads::Collection(Kind::Group)),
    ("Groups/.search", Leads::Search(Kind::Group)),
    ("Groups/{id}", Leads::Resource(Kind::Group)),
];

/// The table of routes of SCIM's endpoints, made once and used for all requests.
pub struct Routes {
    router: Router<Leads>,
    ghost whole: { rename (λ r. r.value) router ≡ spec.routes },
}

impl Drop for Routes {
    fn drop(self) {
        let Routes { router: _router } = self;
    }
}

/// Adds a route to the router. Reports every error as `NoMemory`: the routes in `ROUTES` are valid and differ
/// from each other, so nothing else can fail.
fn enter(router: &mut Router<Leads>, path: &str, leads: Leads) -> Result<(), NoMemory>
    ensures { OnOk result (rename (λ r. r.value) router.new
        ≡ spec.with_path path.now leads (rename (λ r. r.value) router.old)) }
{
    if router.insert(path, leads).is_err() {
        return Err(NoMemory);
    }
    Ok(())
}

/// Makes a router with these routes.
fn router_of(alloc: Global, routes: &[(&str, Leads)]) -> Result<Router<Leads>, NoMemory>
    ensures { IfOk result (λ router. rename (λ r. r.value) router
        ≡ spec.with_paths (map (λ r. (r.0.now, r.1)) routes.now) []) }
{
    let mut router = Router::new(alloc);
    for (path, leads) in routes {
        enter(&mut router, path, *leads)?;
    }
    Ok(router)
}

impl Routes {
    /// Makes the table of routes.
    pub fn new(alloc: Global) -> Result<Routes, NoMemory> {
        Ok(Routes {
            router: router_of(alloc, &ROUTES)?,
        })
    }

    /// Finds the route that matches the path, and returns what this route leads to; `None` if no route
    /// matches. The path has no leading slash.
    pub(crate) fn leads(&self, path: &str) -> Option<Leads>
        ensures { result ≡ first spec.routes path.now }
    {
        match self.router.at(path) {
            Ok(found) => Some(*found.value),
            Err(_) => None,
        }
    }
}

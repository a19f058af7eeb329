//! The methods of endpoints (RFC 7644 section 3.2).
ghost use Rattle.std.specs.Prelude.{◌≡◌};
ghost use Rattle.scim_audit.specs.Methods as spec;

/// A set of HTTP methods, named for the endpoints that allow them.
#[derive(Clone, Copy, Debug, PartialEq, Eq)]
pub enum Methods {
    /// For the resources of a kind, such as `/Users`.
    Collection,
    /// For a search by POST, such as `/Users/.search` (RFC 7644 section 3.4.3).
    Search,
    /// For one resource, such as `/Users/{id}`.
    Resource,
    /// For a page about the server, such as `/Schemas` (RFC 7644 section 4).
    Discovery,
}

impl Methods {
    /// The methods as the header `Allow` lists them (RFC 9110 section 10.2.1).
    pub fn allow(self) -> &'static str
        ensures { result.now ≡ spec.allow_text self }
    {
        match self {
            Methods::Collection => "GET, POST",
            Methods::Search => "POST",
            Methods::Resource => "GET, PUT, PATCH, DELETE",
            Methods::Discovery => "GET",
        }
    }
}

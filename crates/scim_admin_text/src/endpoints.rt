//! The endpoints of the administrator's port.
ghost use Rattle.std.specs.Prelude.{◌≡◌, find};
ghost use Rattle.std.specs.Option.{option_copied};
ghost use Rattle.scim_admin_text.specs.Endpoints as spec;

/// An endpoint of the administrator's port.
#[derive(Clone, Copy, Debug, PartialEq, Eq)]
pub enum Endpoint {
    /// Whether the server serves its clients.
    Health,
    /// The figures of the server.
    Metrics,
    /// Rows of the audit.
    Audit,
    /// Why a decision falls.
    Explain,
    /// All resources.
    Export,
    /// Reads the policy and the token files again.
    Reload,
    /// Ends the server.
    Stop,
}

impl Endpoint {
    /// Returns all endpoints.
    pub fn all() -> &'static [Endpoint]
        ensures { result.now ≡ spec.endpoints }
    {
        &[
            Endpoint::Health,
            Endpoint::Metrics,
            Endpoint::Audit,
            Endpoint::Explain,
            Endpoint::Export,
            Endpoint::Reload,
            Endpoint::Stop,
        ]
    }

    /// Returns the path of the endpoint.
    pub fn path(self) -> &'static str
        ensures { result.now ≡ spec.path_of self }
    {
        match self {
            Endpoint::Health => "/health",
            Endpoint::Metrics => "/metrics",
            Endpoint::Audit => "/audit",
            Endpoint::Explain => "/explain",
            Endpoint::Export => "/export",
            Endpoint::Reload => "/reload",
            Endpoint::Stop => "/stop",
        }
    }

    /// Returns the one method that the endpoint allows: `POST` if it changes the server, and `GET` otherwise.
    pub fn method(self) -> &'static str
        ensures { result.now ≡ spec.method_of self }
    {
        match self {
            Endpoint::Reload | Endpoint::Stop => "POST",
            _ => "GET",
        }
    }

    /// Returns the endpoint with this path; `None` if there is none.
    pub fn at(path: &[u8]) -> Option<Endpoint>
        ensures { result ≡ spec.endpoint_at path.now }
    {
        Endpoint::all()
            .iter()
            .copied()
            .find(|endpoint| endpoint.path().as_bytes() == path)
    }
}

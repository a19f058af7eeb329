//! The versions of policy files.
ghost use Rattle.std.specs.Prelude.{◌≡◌};
ghost use Rattle.scim_policy_file.specs.File as spec;

/// A version of policy files.
#[derive(Clone, Copy)]
pub(crate) enum FileVersion {
    /// Paths name attributes and sub-attributes.
    One,
    /// Paths may have value filters too.
    Two,
}

/// The version with this number. `None` for any other text than `1` and `2`.
pub(crate) fn version_named(text: &str) -> Option<FileVersion>
    ensures { result ≡ spec.version_named text.now }
{
    match text {
        "1" => Some(FileVersion::One),
        "2" => Some(FileVersion::Two),
        _ => None,
    }
}

//! The operations of a PATCH.
ghost use Rattle.std.specs.Prelude.{◌≡◌};
ghost use Rattle.scim_patch_message.specs.Messages as spec;

use scim_text::same_name;

/// The kind of an operation in a PATCH message (RFC 7644 section 3.5.2).
#[derive(Clone, Copy, PartialEq, Eq)]
pub enum Operation {
    Add,
    Replace,
    Remove,
}

impl Operation {
    /// Returns the operation with this name, in any ASCII case. `None` if no operation has this name.
    pub(crate) fn named(name: &str) -> Option<Operation>
        ensures { result ≡ spec.operation_named name.now }
    {
        if same_name("add", name) {
            return Some(Operation::Add);
        }
        if same_name("replace", name) {
            return Some(Operation::Replace);
        }
        if same_name("remove", name) {
            return Some(Operation::Remove);
        }
        None
    }
}

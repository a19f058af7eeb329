//! The client for whom resources are viewed.
ghost use Rattle.std.specs.Prelude.{◌≡◌, true, IfOk, IfSome, IfNone};
ghost use Rattle.std.specs.List.{list_any};
ghost use Rattle.scim_schema.specs.declared.Leaf.{Leaf};
ghost use Rattle.scim_cell.specs.Content.{Content};
ghost use Rattle.scim_policy.specs.Fits.{has_target_for};
ghost use Rattle.scim_policy.specs.PatternTable.{rules_in};
ghost use Rattle.scim_view.specs.View as spec;

use scim_policy::{Patterns, Policy};
use scim_schema::{Kind, Op};
use scim_text::NoMemory;
use scim_value::Resource;
use std::alloc::Global;

/// The client for whom a resource is viewed, with the policy that decides what it may read.
#[derive(Clone, Copy)]
pub struct Viewer<'a> {
    /// The policy that decides which cells the client may read.
    pub policy: &'a Policy,
    /// The name of the client.
    pub client: &'a str,
    /// The base URL of all locations, such as `http://127.0.0.1:8080`.
    pub base: &'a str,
}

impl<'a> Viewer<'a> {
    /// Returns the patterns of the client's reading of the resource.
    /// The client sees that the resource exists if it may read `id`.
    pub fn patterns(&self, alloc: Global, resource: &Resource) -> Result<Patterns<'a>, NoMemory>
        ensures { IfOk result (λ patterns. (l : Leaf)
            → rules_in patterns l ≡ spec.read_rules (spec.viewer_of self.now) resource.now l) }
    {
        self.policy.patterns(alloc, self.client, resource)
    }

    /// Returns the patterns that [`Viewer::patterns`] returns for every resource of the kind.
    /// `None` if a rule that may decide has a target, so that the patterns depend on the resource.
    pub fn patterns_on_all(
        &self,
        alloc: Global,
        kind: Kind,
    ) -> Result<Option<Patterns<'a>>, NoMemory>
        ensures same { IfOk result (λ o. IfSome o (λ patterns. (c : Content) → c.kind ≡ kind
            → (l : Leaf)
            → rules_in patterns l ≡ spec.read_rules (spec.viewer_of self.now) c l)) }
        ensures none { IfOk result (λ o. IfNone o
            (list_any (has_target_for self.now.client.now Op.Read kind) self.now.policy.now
            ≡ true)) }
    {
        self.policy.patterns_on_all(alloc, self.client, kind)
    }
}

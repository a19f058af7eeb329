//! The service: answers clients' requests and commits their changes to a shelf.
ghost use Rattle.std.specs.Prelude.{◌≡◌, ◌≢◌, ◌≤◌, ℕ, List, IfOk, OnErr, Err, length};
ghost use Rattle.scim_text.specs.declared.memory.Failed.{Failed};
ghost use Rattle.scim_view.specs.View.{viewer_of};
ghost use Rattle.scim_shelf.specs.declared.faults.ShelfFault.{ShelfFault};
ghost use Rattle.scim_shelf.specs.Shelves.{Counts, KeepsRound, KeepsStore, Answers};
ghost use Rattle.scim_shelf.specs.Stores.{Store, IsStore, after, last_number};
ghost use Rattle.scim_service.specs.Step as spec;
ghost use Rattle.scim_service.specs.Answers.{IsCause, Answered, Runs};
ghost use Rattle.scim_service.specs.Setting.{service_base, service_policy, service_shelf, with_policy, with_shelf, KeepsSetting};
ghost use Rattle.std.specs.Borrow.{Lends, sem};
ghost use Rattle.scim_service.specs.contracts.answering_turns.Service.{the_row};

use crate::plans::planned;
use crate::replies::Reply;
use crate::requests::{Turn, is_unread, turn_is_sound};
use scim_audit::Refusal;
use scim_cell::Text;
use scim_policy::Policy;
use scim_shelf::{Shelf, ShelfFault};
use scim_text::{Failed, NoMemory, push};
use scim_view::Viewer;
use std::alloc::Global;

/// Answers clients' requests about the resources in a shelf, as far as a policy allows them.
///
/// For each request, the service first plans the reply, the change and the audit row, and only reads the
/// shelf. Then it commits the change together with the audit row, so the reply is complete before anything
/// changes.
pub struct Service<S> {
    policy: Policy,
    base: Text,
    shelf: S,
}

impl<S: Drop> Drop for Service<S> {
    fn drop(self) {
        let Service {
            policy: _policy,
            base: _base,
            shelf: _shelf,
        } = self;
    }
}

/// Plans the reply to a request, commits the change to the store together with the audit row, and returns the
/// reply. On an error, the store is unchanged.
fn answer_or_fault<S: Shelf>(
    alloc: Global,
    viewer: &Viewer<'_>,
    shelf: &mut S,
    turn: &Turn,
) -> Result<Reply, Failed<ShelfFault>>
    ensures done { IfOk result (Answers S.stands S.is_honest shelf.old shelf.new (λ store reply.
        IsStore viewer.now.base.now store
        → (reply ≡ (spec.request_plan
        (viewer_of viewer.now) turn.now store.resources turn.now.request.ask).reply)
        × S.stands shelf.new
        (after (spec.request_plan (viewer_of viewer.now) turn.now store.resources
        turn.now.request.ask).change
        (spec.request_plan (viewer_of viewer.now) turn.now store.resources turn.now.request.ask).row
        store)
        × IsStore viewer.now.base.now
        (after (spec.request_plan (viewer_of viewer.now) turn.now store.resources
        turn.now.request.ask).change
        (spec.request_plan (viewer_of viewer.now) turn.now store.resources turn.now.request.ask).row
        store))) }
    ensures err { OnErr result (KeepsStore S.stands shelf.old shelf.new) }
    ensures round { KeepsRound S.has_round shelf.old shelf.new }
    ensures honest { S.is_honest shelf.new → S.is_honest shelf.old }
    ensures counts { Counts (S.failures shelf.old) (S.failures shelf.new) result }
    ensures full { result ≡ Err (Failed.Because ShelfFault.Full) → (store : Store)
        → S.stands shelf.old store → length store.audit ≡ last_number }
{
    turn_is_sound(turn);
    let plan = planned(alloc, viewer, shelf, turn)?;
    let (reply, change, row) = plan.into_parts();
    shelf.commit(alloc, change, row)?;
    Ok(reply)
}

impl<S: Shelf> Service<S> {
    /// Returns a service with this policy, shelf and base URI. The location of each resource begins with the
    /// base URI, such as `http://127.0.0.1:8080`. Doesn't allocate.
    pub fn new(policy: Policy, shelf: S, base: Text) -> Service<S>
        ensures policy { service_policy result ≡ policy }
        ensures base { service_base result ≡ base }
        ensures shelf { service_shelf result ≡ shelf }
    {
        Service {
            policy,
            base,
            shelf,
        }
    }

    /// Answers one request. If the shelf fails or memory runs out, the reply is [`Reply::Failed`]; then
    /// nothing is changed and no audit row is added.
    ///
    /// If memory ran out before the request could be read (its `ask` is the error [`Refusal::Store`]), the
    /// reply is that refusal, and no audit row is added.
    pub fn answer(&mut self, alloc: Global, turn: &Turn) -> Reply
        ensures keeps { KeepsSetting self.old self.new }
        ensures answered { (store : Store) → S.stands (service_shelf self.old) store
            → S.is_honest (service_shelf self.new) → IsStore (service_base self.old) store
            → (next : Store) × S.stands (service_shelf self.new) next
            × IsStore (service_base self.old) next
            × Answered (service_policy self.old) (service_base self.old)
            (IsCause (S.failures (service_shelf self.old))
            (S.failures (service_shelf self.new)) store) turn.now store
            result next }
        ensures round { KeepsRound S.has_round (service_shelf self.old) (service_shelf self.new) }
        ensures honest { S.is_honest (service_shelf self.new)
            → S.is_honest (service_shelf self.old) }
        ensures grown { S.failures (service_shelf self.old) ≤ S.failures (service_shelf self.new) }
    {
        if is_unread(&turn.request) {
            return Reply::Refused(Refusal::Store);
        }
        let viewer = Viewer {
            policy: &self.policy,
            client: turn.request.client.as_str(),
            base: self.base.as_str(),
        };
        match answer_or_fault(alloc, &viewer, &mut self.shelf, turn) {
            Ok(reply) => reply,
            Err(fault) => Reply::Failed(fault),
        }
    }

    /// Answers the requests in order with [`Service::answer`], and returns one reply for each. Fails only if
    /// there is no memory for the list of replies; then no request was answered.
    pub fn run(&mut self, alloc: Global, turns: &[Turn]) -> Result<Vec<Reply>, NoMemory>
        ensures keeps { KeepsSetting self.old self.new }
        ensures each { IfOk result (λ replies. length replies.items ≡ length turns.now) }
        ensures ran { IfOk result (λ replies. (store : Store)
            → S.stands (service_shelf self.old) store
            → S.is_honest (service_shelf self.new) → IsStore (service_base self.old) store
            → (next : Store) × S.stands (service_shelf self.new) next
            × IsStore (service_base self.old) next
            × Runs (service_policy self.old) (service_base self.old)
            (S.failures (service_shelf self.old)) store turns.now
            replies.items (S.failures (service_shelf self.new)) next) }
        ensures round { KeepsRound S.has_round (service_shelf self.old) (service_shelf self.new) }
        ensures honest { S.is_honest (service_shelf self.new)
            → S.is_honest (service_shelf self.old) }
        ensures grown { S.failures (service_shelf self.old) ≤ S.failures (service_shelf self.new) }
        ensures nothing { OnErr result (self.new ≡ self.old) }
    {
        let mut replies = reserved(alloc, turns.len())?;
        let mut at = 0;
        for turn in turns {
            let reply = self.answer(alloc, turn);
            replies[at] = reply;
            at += 1;
        }
        Ok(replies)
    }

    /// Returns the policy.
    pub fn policy(&self) -> &Policy
        ensures { result.now ≡ service_policy self.now }
    {
        &self.policy
    }

    /// Replaces the policy. The requests that come next are answered by the new one.
    pub fn set_policy(&mut self, policy: Policy)
        ensures { self.new ≡ with_policy self.old policy }
    {
        self.policy = policy;
    }

    /// Returns the shelf.
    pub fn shelf(&self) -> &S
        ensures { result.now ≡ service_shelf self.now }
    {
        &self.shelf
    }

    /// Returns the shelf, to read what no request tells, such as audit rows. A change that is made through
    /// this reference is made without the policy and without an audit row.
    pub fn shelf_mut(&mut self) -> &mut S
        ensures* writes_back { sem 𝓛
            (Lends (the_row S.row) S.row self.entry result (λ shelf. with_shelf self.old shelf)) }
        ensures shows { result.now ≡ service_shelf self.old }
    {
        &mut self.shelf
    }

    /// Consumes the service and returns the shelf.
    pub fn into_shelf(self) -> S
        ensures { result ≡ service_shelf self }
    {
        let Service {
            policy: _policy,
            base: _base,
            shelf,
        } = self;
        shelf
    }
}

/// Returns a list of `count` placeholder replies.
fn reserved(alloc: Global, count: usize) -> Result<Vec<Reply>, NoMemory>
    ensures { IfOk result (λ placeholders. length placeholders.items ≡ count) }
{
    let mut placeholders = Vec::with_capacity(alloc, count)?;
    for _ in 0..count {
        push(&mut placeholders, Reply::Done)?;
    }
    Ok(placeholders)
}

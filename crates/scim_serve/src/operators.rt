//! What a server does besides serving its clients.
ghost use Rattle.std.specs.Prelude.{◌≡◌, Bool, true, false, IsTrue, List};
ghost use Rattle.scim_shelf.specs.Shelves.{KeepsRound};
ghost use Rattle.scim_token.specs.TokenFile.{Entry};
ghost use Rattle.scim_token.specs.Tokens.{Knows};
ghost use Rattle.scim_hub.specs.Events.{HubState};
ghost use Rattle.scim_hub.specs.HubSetting.{hub_base, hub_shelf, hub_tokens, KeepsHubSetting};
ghost use Rattle.scim_hub.specs.HubStates.{IsHubState};
ghost use Rattle.scim_serve.specs.Operators.{says_end};
ghost use Rattle.scim_serve.specs.Peers.{KeepsClients};

use crate::peers::{AdminEvent, Peers};
use scim_hub::Hub;
use scim_shelf::Shelf;
use std::alloc::Global;

/// What interrupts the serving of clients.
pub enum Pause {
    /// An event of a connection of the administrator.
    Admin(AdminEvent),
    /// About a second has passed since the last pause of this kind.
    Tick,
}

impl Drop for Pause {
    fn drop(self) {
        match self {
            Pause::Admin(_event) => (),
            Pause::Tick => (),
        }
    }
}

/// Whether a server goes on.
#[derive(Clone, Copy, Debug, PartialEq, Eq)]
pub enum Then {
    /// The server goes on.
    GoOn,
    /// The server ends, and closes no connection.
    End,
}

/// What a server does besides serving its clients.
pub trait Operator<S: Shelf> {
    /// Whether the operator may replace the hub's policy or its tokens.
    ghost may_reload: { Bool } = { true };

    /// Whether the last call of `handle` returned `Then::End`.
    ghost has_ended: { Self → Bool };

    /// Handles what interrupts the serving of clients, and returns whether the server goes on.
    ///
    /// May replace the hub's policy and its tokens, read its shelf, and serve the administrator's
    /// connections. Leaves the clients' connections and the stored resources as they are.
    fn handle<P: Peers>(
        &mut self,
        alloc: Global,
        peers: &mut P,
        hub: &mut Hub<S>,
        pause: Pause,
    ) -> Then
        ensures clients { IsTrue P.is_known → KeepsClients P.seen P.written P.takes_all P.is_closed
            peers.old peers.new }
        ensures base { hub_base hub.new ≡ hub_base hub.old }
        ensures state { (state : HubState) → IsHubState S.stands hub.old state
            → IsHubState S.stands hub.new state }
        ensures tokens { (entries : List Entry) → Knows entries (hub_tokens hub.old)
            → (next : List Entry) × Knows next (hub_tokens hub.new) }
        ensures keeps { may_reload ≡ false → KeepsHubSetting hub.old hub.new }
        ensures round { KeepsRound S.has_round (hub_shelf hub.old) (hub_shelf hub.new) }
        ensures honest { S.is_honest (hub_shelf hub.new) → S.is_honest (hub_shelf hub.old) }
        ensures ended { has_ended self.new ≡ says_end result };
}

/// An operator that does nothing.
#[derive(Clone, Copy, Debug, PartialEq, Eq)]
pub struct NoOperator;

impl<S: Shelf> Operator<S> for NoOperator {
    ghost use Rattle.std.specs.Prelude.{false};

    ghost may_reload = { false };

    ghost has_ended = { λ _. false };

    fn handle<P: Peers>(
        &mut self,
        _alloc: Global,
        _peers: &mut P,
        _hub: &mut Hub<S>,
        _pause: Pause,
    ) -> Then {
        Then::GoOn
    }
}

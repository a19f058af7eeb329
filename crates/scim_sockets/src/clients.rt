//! The clients, and how much of the server's time each has used.
use std::alloc::{AllocError, Global};
use std::time::Duration;

/// The place of connections that have sent no token.
pub(crate) const NOBODY: usize = 0;

/// The length of the longest token that is told from another one in full.
const LONGEST_NAME: usize = 256;

/// The most by which a client may be ahead of the others, in milliseconds.
const LEAD: u64 = 100;

/// The share of the server's time that a client has used.
#[derive(Clone, Copy)]
pub(crate) struct Account {
    used: Duration,
}

impl Account {
    /// Returns the account of a client that has used no time.
    pub(crate) fn new() -> Account {
        Account {
            used: Duration::from_secs(0),
        }
    }

    /// Returns the share of the client, where `now` is the share of the one that was served last.
    pub(crate) fn share(self, now: Duration) -> Duration {
        self.used.max(now).min(latest(now))
    }

    /// Adds the time that a request of the client took, which was served at the share `now`.
    pub(crate) fn charge(&mut self, now: Duration, cost: Duration) {
        self.used = self.used.max(now).saturating_add(cost).min(latest(now));
    }
}

/// A client, which is what connections with the same token have in common.
#[derive(Drop)]
struct Client {
    // The first bytes of the token; empty at a free place.
    name: Vec<u8>,
    // The number of its connections.
    connections: u64,
    account: Account,
}

impl Client {
    /// Returns a client with a name that has no connection and has used no time.
    fn new(name: Vec<u8>) -> Client {
        Client {
            name,
            connections: 0,
            account: Account::new(),
        }
    }
}

/// The clients, and the share of the server's time that each has used.
///
/// A client that used less than the client that was served last has used as much as that one: nobody saves up
/// time. A client is never more than a tenth of a second ahead. What a client with the least share asks is
/// answered first. So a client with many connections or with dear requests delays another one by little more
/// than the round in hand.
#[derive(Drop)]
pub(crate) struct Clients {
    places: Vec<Client>,
    alloc: Global,
}

impl Clients {
    /// Allocates places for this many clients, and [`NOBODY`]. All are free.
    pub(crate) fn new(alloc: Global, count: usize) -> Result<Clients, AllocError> {
        let mut places = Vec::with_capacity(alloc, count.saturating_add(1))?;
        for _ in 0..count.saturating_add(1) {
            if places.push(Client::new(Vec::new(alloc))).is_err() {
                return Err(AllocError);
            }
        }
        Ok(Clients { places, alloc })
    }

    /// Whether the client at a place has this token.
    pub(crate) fn has_name(&self, place: usize, token: &[u8]) -> bool {
        match self.places.get(place) {
            Some(client) => client.name.as_slice() == name_of(token),
            None => false,
        }
    }

    /// Adds a connection to the client with a token, and returns its place. Returns [`NOBODY`] if all places
    /// are taken or memory runs out.
    pub(crate) fn enter(&mut self, token: &[u8]) -> usize {
        let name = name_of(token);
        let place = match self.named(name) {
            Some(place) => place,
            None => self.rename(self.stalest(), name),
        };
        if let Some(client) = self.places.get_mut(place) {
            client.connections = client.connections.saturating_add(1);
        }
        place
    }

    /// Removes a connection from the client at a place. What the client has used is kept until another client
    /// needs the place.
    pub(crate) fn leave(&mut self, place: usize) {
        if let Some(client) = self.places.get_mut(place) {
            client.connections = client.connections.saturating_sub(1);
        }
    }

    /// Returns the place of the client with a name, if there is one.
    fn named(&self, name: &[u8]) -> Option<usize> {
        self.places
            .iter()
            .position(|client| client.name.as_slice() == name)
    }

    /// Returns the place that has no connection and has used the least; [`NOBODY`] if each has a connection.
    fn stalest(&self) -> usize {
        let mut stalest = NOBODY;
        let mut least = Duration::MAX;
        for (place, client) in self.places.iter().enumerate() {
            if place != NOBODY && client.connections == 0 && client.account.used < least {
                stalest = place;
                least = client.account.used;
            }
        }
        stalest
    }

    /// Gives a place to a client with a name, and returns the place; [`NOBODY`] if memory runs out.
    fn rename(&mut self, place: usize, name: &[u8]) -> usize {
        if place == NOBODY {
            return NOBODY;
        }
        let Ok(name) = Vec::from_slice(self.alloc, name) else {
            return NOBODY;
        };
        match self.places.get_mut(place) {
            Some(client) => {
                client.name = name;
                client.account = Account::new();
                place
            }
            None => NOBODY,
        }
    }

    /// Returns the share of the client at a place, where `now` is the share of the one that was served last.
    pub(crate) fn share(&self, place: usize, now: Duration) -> Duration {
        match self.places.get(place) {
            Some(client) => client.account.share(now),
            None => now,
        }
    }

    /// Adds the time that a request of the client at a place took, which was served at the share `now`.
    pub(crate) fn charge(&mut self, place: usize, now: Duration, cost: Duration) {
        if let Some(client) = self.places.get_mut(place) {
            client.account.charge(now, cost);
        }
    }
}

/// Returns the greatest share of a client while the one that was served last has the share `now`.
fn latest(now: Duration) -> Duration {
    now.saturating_add(Duration::from_millis(LEAD))
}

/// Returns the part of a token that tells it from other tokens.
fn name_of(token: &[u8]) -> &[u8] {
    &token[..token.len().min(LONGEST_NAME)]
}

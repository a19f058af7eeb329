//! The tokens by which the system's reports name sockets.
ghost use Rattle.std.specs.Prelude.{◌≡◌, ◌+◌, ◌*◌, ◌/◌, ◌%◌};
ghost use Rattle.scim_sockets.specs.PollTokens.{IsShort, number_of, bit_of};

use mio::Token;

/// The number that stands for the listener of a port.
const DOOR: u64 = (1 << 63) - 1;

/// Whom the connections of a port serve.
#[derive(Clone, Copy, PartialEq, Eq)]
pub(crate) enum Role {
    /// The clients.
    Client,
    /// The administrator.
    Admin,
}

/// The listener or a connection of a port.
#[derive(Clone, Copy, PartialEq, Eq, PartialOrd, Ord)]
pub(crate) enum Place {
    /// The listener, which accepts a connection.
    Door,
    /// The connection with this number.
    Connection(u64),
}

/// Returns the token of a listener or a connection: even for clients, odd for the administrator.
pub(crate) fn token_of(role: Role, place: Place) -> Token
    requires { IsShort place }
    ensures { result.0 ≡ 2 * number_of place + bit_of role }
{
    let number = match place {
        Place::Door => DOOR,
        Place::Connection(number) => number,
    };
    let bit = match role {
        Role::Client => 0,
        Role::Admin => 1,
    };
    Token((2 * number + bit) as usize)
}

/// Returns what a token was made of.
pub(crate) fn place_of(token: Token) -> (Role, Place)
    ensures number { number_of result.1 ≡ token.0 / 2 }
    ensures role { bit_of result.0 ≡ token.0 % 2 }
    ensures short { IsShort result.1 }
{
    let number = (token.0 / 2) as u64;
    let role = if token.0 % 2 == 0 {
        Role::Client
    } else {
        Role::Admin
    };
    if number == DOOR {
        (role, Place::Door)
    } else {
        (role, Place::Connection(number))
    }
}

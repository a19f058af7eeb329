//! Runs a server over scripted connections and over a socket.
use crate::served::{REPLIES, REQUESTS, hub};
use case_peers::{ScriptedEvent, ScriptedPeers};
use case_values::{Case, CaseFault, truth};
use scim_hub::Hub;
use scim_serve::{NoOperator, serve};
use scim_shelf::MemoryShelf;
use scim_sockets::Sockets;
use std::alloc::{AllocError, Global};
use std::io;
use std::io::{Read, Write};
use std::net::{Ipv4Addr, Shutdown, SocketAddr, TcpStream};

/// The events of two connections, in order. Connection 0 sends [`REQUESTS`] in three pieces, and connection 1
/// sends bytes that aren't HTTP in two pieces. Both first join.
const HAPPENINGS: [ScriptedEvent<'static>; 7] = [
    ScriptedEvent::Joins(0),
    ScriptedEvent::Joins(1),
    ScriptedEvent::Sends(0, "GET /Me HTTP/1.1\r\n\r\nGET /M"),
    ScriptedEvent::Sends(1, "noth"),
    ScriptedEvent::Sends(0, "e HTTP/1.1\r\n\r"),
    ScriptedEvent::Sends(1, "ing\r\n\r\n"),
    ScriptedEvent::Sends(0, "\n"),
];

/// The reply to bytes that aren't HTTP.
const REFUSAL: &str =
    "HTTP/1.1 400 Bad Request\r\nContent-Type: application/scim+json\r\nContent-Length: 109\r\nConnection: close\r\n\r\n{\"detail\":\"Malformed request head.\",\"schemas\":[\"urn:ietf:params:scim:api:messages:2.0:Error\"],\"status\":\"400\"}";

/// Returns connections with [`HAPPENINGS`], which take `step` bytes at a call. If `in_rounds` is true, pieces that
/// follow one another are ready at the same time.
fn peers(alloc: Global, step: usize, in_rounds: bool) -> Result<ScriptedPeers, AllocError> {
    if in_rounds {
        ScriptedPeers::in_rounds(alloc, step, &HAPPENINGS)
    } else {
        ScriptedPeers::new(alloc, step, &HAPPENINGS)
    }
}

/// Whether each connection receives all its replies if it takes `step` bytes at a call, and the server closes
/// only the connection that sent invalid HTTP.
fn answers_each(alloc: Global, step: usize, in_rounds: bool) -> bool {
    let (Some(mut hub), Ok(mut peers)) = (hub(alloc), peers(alloc, step, in_rounds)) else {
        return false;
    };
    serve(alloc, &mut peers, &mut hub, &mut NoOperator).is_ok()
        && peers.first.taken.as_slice() == REPLIES.as_bytes()
        && peers.second.taken.as_slice() == REFUSAL.as_bytes()
        && !peers.first.is_closed
        && peers.second.is_closed
}

/// Whether a client receives its replies over a socket. The client sends [`REQUESTS`] and closes its sending
/// side before the server runs.
fn answers_client(
    rt: &HostRuntime,
    sockets: &mut Sockets<'_, HostRuntime>,
    hub: &mut Hub<MemoryShelf>,
) -> io::Result<bool> {
    let address = SocketAddr::from((Ipv4Addr::LOCALHOST, sockets.port()));
    let mut client = TcpStream::connect(rt, address)?;
    client.write_all(REQUESTS.as_bytes())?;
    client.shutdown(Shutdown::Write)?;
    if serve(rt.alloc(), sockets, hub, &mut NoOperator).is_err() {
        return Ok(false);
    }
    let mut replies = Vec::new(rt.alloc());
    client.read_to_end(&mut replies)?;
    Ok(replies.as_slice() == REPLIES.as_bytes())
}

/// Whether a client receives its replies over a socket. Returns true without a test if the program can't
/// listen on a socket, for example because the machine has no loopback interface.
fn answers_over_socket(rt: &HostRuntime) -> bool {
    let Some(mut hub) = hub(rt.alloc()) else {
        return false;
    };
    match Sockets::listen(rt, rt.alloc(), 0, None, Some(1)) {
        Ok(sockets) => {
            let mut sockets = sockets;
            matches!(answers_client(rt, &mut sockets, &mut hub), Ok(true))
        }
        Err(_) => true,
    }
}

/// Whether each scripted connection receives all its replies if it takes `step` bytes at a call.
pub(crate) fn peers_call(case: &Case<'_>) -> Result<String, CaseFault> {
    let in_rounds = case.is_true("rounds");
    truth(
        case.alloc,
        answers_each(case.alloc, case.count("step")?, in_rounds),
    )
}

/// Whether a client receives its replies over a socket, or the program can't listen on a socket.
pub(crate) fn socket_call(rt: &HostRuntime, case: &Case<'_>) -> Result<String, CaseFault> {
    truth(case.alloc, answers_over_socket(rt))
}

// The requests of a connection, one after the other.
ghost use Rattle.std.specs.Prelude.{◌≡◌, ◌≤◌, ◌<◌, length};
ghost use Rattle.jmap_http.specs.Connections.{asks_to_end, is_bodiless, Serves};
ghost use Rattle.jmap_http.specs.Endings.{IsAnswered, ServesNext};
ghost use Rattle.jmap_http.specs.Steps.{steps_of};
ghost use Rattle.jmap_http.specs.Views.{asked};

use crate::answer::respond;
use crate::authorization::KnownUsers;
use crate::limits::MAX_REQUESTS_PER_CONNECTION;
use crate::refusals::{end_without_memory, refuse, send};
use crate::served::Served;
use crate::user_port::UserPort;
use http_parts::Unread;
use http_wire::{HttpRequest, read_request};
use jm_base::READ_BUFFER_BYTES;
use jm_edge::{Clock, Gate, Link};
use server_users::Users;
use std::alloc::Global;

// Returns whether the answer to a request has no body (RFC 9110, section 9.3.2).
fn is_bodiless(request: &HttpRequest) -> bool
    ensures { result ≡ is_bodiless request.now.method }
{
    request.method.as_str() == "HEAD"
}

// Answers a complete request. Returns how the connection ends after it, if it does.
fn answer_whole<L: Link, P: UserPort, C: Clock>(
    alloc: Global,
    users: &Users,
    port: &mut P,
    link: &mut L,
    clock: &mut C,
    request: HttpRequest,
    at_limit: bool,
) -> Option<Served>
    ensures answered { IsAnswered (steps_of P.answers P.stops P.steps) users.now.users port.old
        port.new (C.times clock.old) (C.times clock.new) (asked request) request.last at_limit
        (L.held link.old) (L.held link.new) (L.put_faults link.old) (L.put_faults link.new) result }
    ensures left { L.left link.new ≡ L.left link.old }
    ensures read_faults { L.read_faults link.new ≡ L.read_faults link.old }
    ensures later { L.put_faults link.old ≤ L.put_faults link.new }
{
    let asks = request.last;
    let bodiless = is_bodiless(&request);
    let time = clock.now();
    match respond(alloc, users, port, request, time) {
        Ok(response) => send(alloc, link, &response, bodiless, asks, at_limit),
        Err(_) => Some(end_without_memory(link)),
    }
}

// Serves the next request of a connection. Returns how the connection ends, if it does.
fn serve_next<L: Link, P: UserPort, C: Clock>(
    alloc: Global,
    users: &Users,
    port: &mut P,
    link: &mut L,
    room: &mut [u8],
    early: &mut Unread,
    clock: &mut C,
    number: u64,
) -> Option<Served>
    requires { 0 < length room.old }
    ensures served { ServesNext (steps_of P.answers P.stops P.steps) users.now.users asks_to_end
        number port.old port.new (C.times clock.old) (C.times clock.new) early.old early.new
        (L.left link.old) (L.left link.new) (L.held link.old) (L.held link.new) (L.read_faults
        link.old) (L.read_faults link.new) (L.put_faults link.old) (L.put_faults link.new) result }
    ensures room { length room.new ≡ length room.old }
    ensures reads_later { L.read_faults link.old ≤ L.read_faults link.new }
    ensures puts_later { L.put_faults link.old ≤ L.put_faults link.new }
{
    let at_limit = number == MAX_REQUESTS_PER_CONNECTION;
    let known = KnownUsers { users };
    match read_request(alloc, link, room, early, &known) {
        Ok(request) => { answer_whole(alloc, users, port, link, clock, request, at_limit) }
        Err(fault) => Some(refuse(alloc, link, fault)),
    }
}

// Serves the requests of a connection, with room for reading.
fn serve_all<L: Link, P: UserPort, C: Clock, G: Gate>(
    alloc: Global,
    users: &Users,
    port: &mut P,
    link: &mut L,
    clock: &mut C,
    gate: &G,
    room: &mut [u8],
) -> Served
    requires { 0 < length room.old }
    ensures { Serves (steps_of P.answers P.stops P.steps) users.now.users asks_to_end port.old
        port.new (C.times clock.old) (C.times clock.new) (L.left link.old) (L.left link.new)
        (L.held link.old) (L.held link.new) (L.read_faults link.old) (L.read_faults link.new)
        (L.put_faults link.old) (L.put_faults link.new) result }
{
    let mut early = Unread::new(alloc);
    let mut number = 0u64;
    'request: loop {
        number += 1;
        gate.pass(number);
        match serve_next(alloc, users, port, link, room, &mut early, clock, number) {
            Some(served) => return served,
            None => {}
        }
    }
}

/// Serves the requests of a connection in order, at most [`MAX_REQUESTS_PER_CONNECTION`], over a
/// port that answers for the users. Each response is written before the next request is read. The
/// clock is read once for each complete request, and the gate is passed before each request with
/// its number, from 1. Of a request without the token of a user no body is kept.
///
/// What is written is a function of the bytes that are read, of what the port answers and of what
/// the clock shows, however the bytes come in pieces.
pub fn serve_requests<L: Link, P: UserPort, C: Clock, G: Gate>(
    alloc: Global,
    users: &Users,
    port: &mut P,
    link: &mut L,
    clock: &mut C,
    gate: &G,
) -> Served
    ensures { Serves (steps_of P.answers P.stops P.steps) users.now.users asks_to_end port.old
        port.new (C.times clock.old) (C.times clock.new) (L.left link.old) (L.left link.new)
        (L.held link.old) (L.held link.new) (L.read_faults link.old) (L.read_faults link.new)
        (L.put_faults link.old) (L.put_faults link.new) result }
{
    match vec![in alloc; 0u8; READ_BUFFER_BYTES] {
        Ok(mut room) => { serve_all(alloc, users, port, link, clock, gate, room.as_mut_slice()) }
        Err(_) => end_without_memory(link),
    }
}

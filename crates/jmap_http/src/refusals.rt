// What is written where no request can be read, or memory runs out.
ghost use Rattle.std.specs.Prelude.{◌≡◌, ◌≤◌, ◌||◌, length, IfErr, IfOk, OnOk};
ghost use Rattle.std.specs.Io.KnownBytes.{Appends};
ghost use Rattle.http_wire.specs.Responses.{response_head};
ghost use Rattle.jmap_http.specs.Connections.{answer_bytes, refusal_of, sent_bytes};
ghost use Rattle.jmap_http.specs.Endings.{end_of, IsRefusalSent, IsRefusedAs, IsSent, IsUnavailablePut, IsUnsent};
ghost use Rattle.jmap_http.specs.Responses.{blank_response};

use crate::response::{Response, write_blank, write_limit};
use crate::served::Served;
use http_parts::WireFault;
use http_wire::{write_response, write_response_head};
use jm_base::{MAX_UPLOAD_BYTES, NoMemory};
use jm_edge::{Link, put_to_link};
use std::alloc::Global;

// The response that is written if memory runs out. It takes no memory.
const UNAVAILABLE: &str = "HTTP/1.1 503 Service Unavailable\r\n\
    Content-Type: application/problem+json\r\n\
    Content-Length: 35\r\n\
    Cache-Control: no-store\r\n\
    Connection: close\r\n\r\n\
    {\"status\":503,\"type\":\"about:blank\"}";

/// Writes that memory ran out, or a prefix of that if the link fails.
pub(crate) fn end_without_memory<L: Link>(link: &mut L) -> Served
    ensures is { result ≡ Served.NoMemory }
    ensures put { IsUnavailablePut (L.held link.old) (L.held link.new) (L.put_faults link.old)
        (L.put_faults link.new) }
    ensures left { L.left link.new ≡ L.left link.old }
    ensures read_faults { L.read_faults link.new ≡ L.read_faults link.old }
    ensures later { L.put_faults link.old ≤ L.put_faults link.new }
{
    match put_to_link(link, UNAVAILABLE.as_bytes()) {
        Ok(()) => Served::NoMemory,
        Err(_) => Served::NoMemory,
    }
}

// Returns how the connection ends after a response was written.
fn find_end(asks: bool, at_limit: bool) -> Option<Served>
    ensures { result ≡ end_of asks at_limit }
{
    if asks {
        return Some(Served::End);
    }
    if at_limit {
        return Some(Served::Limit);
    }
    None
}

// Returns whether the connection ends with a response.
fn is_last(asks: bool, at_limit: bool) -> bool
    ensures { result ≡ (asks || at_limit) }
{
    asks || at_limit
}

// Ends a connection to which not all of a response was written.
fn end_unsent<L: Link>(link: &mut L, fault: WireFault) -> Served
    ensures cut { fault ≡ WireFault.WriteFault → (result ≡ Served.WriteFault)
        × (L.held link.new ≡ L.held link.old) }
    ensures unwritten { fault ≡ WireFault.NoMemory → (result ≡ Served.NoMemory)
        × IsUnavailablePut (L.held link.old) (L.held link.new) (L.put_faults link.old)
        (L.put_faults link.new) }
    ensures left { L.left link.new ≡ L.left link.old }
    ensures read_faults { L.read_faults link.new ≡ L.read_faults link.old }
    ensures later { L.put_faults link.old ≤ L.put_faults link.new }
{
    if fault == WireFault::WriteFault {
        return Served::WriteFault;
    }
    end_without_memory(link)
}

// Writes a response. Fails with how the connection ends if not all of it was written.
fn put_response<L: Link>(
    alloc: Global,
    link: &mut L,
    response: &Response,
    last: bool,
) -> Result<(), Served>
    ensures ok { OnOk result
        (Appends (L.held link.old) (L.held link.new) (sent_bytes response.now last)) }
    ensures err { IfErr result (IsUnsent (sent_bytes response.now last) (L.held link.old)
        (L.held link.new) (L.put_faults link.old) (L.put_faults link.new)) }
    ensures left { L.left link.new ≡ L.left link.old }
    ensures read_faults { L.read_faults link.new ≡ L.read_faults link.old }
    ensures later { L.put_faults link.old ≤ L.put_faults link.new }
{
    let media = response.media.as_slice();
    let body = response.body.as_slice();
    match write_response(alloc, link, response.status, media, body, last) {
        Ok(()) => Ok(()),
        Err(fault) => Err(end_unsent(link, fault)),
    }
}

// Writes the head of a response, which says how long its body would be. Fails with how the
// connection ends if not all of it was written.
fn put_response_head<L: Link>(
    alloc: Global,
    link: &mut L,
    response: &Response,
    last: bool,
) -> Result<(), Served>
    ensures ok { OnOk result (Appends (L.held link.old) (L.held link.new)
        (response_head response.now.status response.now.media (length response.now.body) last)) }
    ensures err { IfErr result (IsUnsent
        (response_head response.now.status response.now.media (length response.now.body) last)
        (L.held link.old) (L.held link.new) (L.put_faults link.old) (L.put_faults link.new)) }
    ensures left { L.left link.new ≡ L.left link.old }
    ensures read_faults { L.read_faults link.new ≡ L.read_faults link.old }
    ensures later { L.put_faults link.old ≤ L.put_faults link.new }
{
    let media = response.media.as_slice();
    let size = response.body.len();
    match write_response_head(alloc, link, response.status, media, size, last) {
        Ok(()) => Ok(()),
        Err(fault) => Err(end_unsent(link, fault)),
    }
}

// Writes the answer to a request, with its body or not. Fails with how the connection ends if not
// all of it was written.
fn put_answer<L: Link>(
    alloc: Global,
    link: &mut L,
    response: &Response,
    bodiless: bool,
    last: bool,
) -> Result<(), Served>
    ensures ok { OnOk result
        (Appends (L.held link.old) (L.held link.new) (answer_bytes bodiless response.now last)) }
    ensures err { IfErr result (IsUnsent (answer_bytes bodiless response.now last)
        (L.held link.old) (L.held link.new) (L.put_faults link.old) (L.put_faults link.new)) }
    ensures left { L.left link.new ≡ L.left link.old }
    ensures read_faults { L.read_faults link.new ≡ L.read_faults link.old }
    ensures later { L.put_faults link.old ≤ L.put_faults link.new }
{
    if bodiless {
        return put_response_head(alloc, link, response, last);
    }
    put_response(alloc, link, response, last)
}

/// Writes the answer to a request, without the body of the response if it is to have none. Returns
/// how the connection ends after it: with `End` if the request asks for that, else with `Limit` if
/// it is the last one.
pub(crate) fn send<L: Link>(
    alloc: Global,
    link: &mut L,
    response: &Response,
    bodiless: bool,
    asks: bool,
    at_limit: bool,
) -> Option<Served>
    ensures sent { IsSent bodiless asks at_limit response.now (L.held link.old) (L.held link.new)
        (L.put_faults link.old) (L.put_faults link.new) result }
    ensures left { L.left link.new ≡ L.left link.old }
    ensures read_faults { L.read_faults link.new ≡ L.read_faults link.old }
    ensures later { L.put_faults link.old ≤ L.put_faults link.new }
{
    match put_answer(alloc, link, response, bodiless, is_last(asks, at_limit)) {
        Ok(()) => find_end(asks, at_limit),
        Err(served) => Some(served),
    }
}

// Writes the response that refuses a message.
fn send_refusal<L: Link>(alloc: Global, link: &mut L, response: &Response) -> Served
    ensures sent { IsRefusalSent response.now response.now.status (L.held link.old)
        (L.held link.new) (L.put_faults link.old) (L.put_faults link.new) result }
    ensures left { L.left link.new ≡ L.left link.old }
    ensures read_faults { L.read_faults link.new ≡ L.read_faults link.old }
    ensures later { L.put_faults link.old ≤ L.put_faults link.new }
{
    match put_response(alloc, link, response, true) {
        Ok(()) => Served::Refused(response.status),
        Err(served) => served,
    }
}

// Returns the response that refuses a body longer than a limit.
fn write_too_long(alloc: Global, limit: u64) -> Result<Response, NoMemory>
    ensures { IfOk result (λ r. r ≡ refusal_of limit) }
{
    if limit == MAX_UPLOAD_BYTES as u64 {
        return write_limit(alloc, "maxSizeUpload");
    }
    write_limit(alloc, "maxSizeRequest")
}

// Refuses a message by a status alone.
fn refuse_by_status<L: Link>(alloc: Global, link: &mut L, status: u16) -> Served
    ensures sent { IsRefusalSent (blank_response status) status (L.held link.old)
        (L.held link.new) (L.put_faults link.old) (L.put_faults link.new) result }
    ensures left { L.left link.new ≡ L.left link.old }
    ensures read_faults { L.read_faults link.new ≡ L.read_faults link.old }
    ensures later { L.put_faults link.old ≤ L.put_faults link.new }
{
    match write_blank(alloc, status) {
        Ok(response) => send_refusal(alloc, link, &response),
        Err(_) => end_without_memory(link),
    }
}

// Refuses a message whose body is longer than a limit.
fn refuse_length<L: Link>(alloc: Global, link: &mut L, limit: u64) -> Served
    ensures sent { IsRefusalSent (refusal_of limit) 413 (L.held link.old) (L.held link.new)
        (L.put_faults link.old) (L.put_faults link.new) result }
    ensures left { L.left link.new ≡ L.left link.old }
    ensures read_faults { L.read_faults link.new ≡ L.read_faults link.old }
    ensures later { L.put_faults link.old ≤ L.put_faults link.new }
{
    match write_too_long(alloc, limit) {
        Ok(response) => send_refusal(alloc, link, &response),
        Err(_) => end_without_memory(link),
    }
}

/// Ends a connection of which no request was read: a message that is refused is answered.
pub(crate) fn refuse<L: Link>(alloc: Global, link: &mut L, fault: WireFault) -> Served
    ensures refused { IsRefusedAs fault (L.held link.old) (L.held link.new)
        (L.put_faults link.old) (L.put_faults link.new) result }
    ensures left { L.left link.new ≡ L.left link.old }
    ensures read_faults { L.read_faults link.new ≡ L.read_faults link.old }
    ensures later { L.put_faults link.old ≤ L.put_faults link.new }
{
    match fault {
        WireFault::End => Served::End,
        WireFault::CutOff(count) => Served::CutOff(count),
        WireFault::ReadFault => Served::ReadFault,
        WireFault::WriteFault => Served::WriteFault,
        WireFault::BadHead => refuse_by_status(alloc, link, 400),
        WireFault::HeadTooLong => refuse_by_status(alloc, link, 431),
        WireFault::BodyTooLong(limit) => refuse_length(alloc, link, limit),
        WireFault::NoMemory => end_without_memory(link),
    }
}

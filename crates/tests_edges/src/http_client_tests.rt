// The requests that a client writes, and the responses that it reads. The bytes are written by hand
// from RFC 9112, and what is counted is counted by hand.
use http_parts::{Unread, WireFault};
use http_wire::{HttpResponse, read_response, write_request};
use jm_edge::MemoryLink;
use std::alloc::Global;
use std::test::Fail;

const REQUESTS: &[(Option<&[u8]>, &[u8])] = &[
    (
        None,
        b"GET /p HTTP/1.1\r\nHost: h\r\nAuthorization: Bearer t\r\n\r\n",
    ),
    (
        Some(b"{}"),
        b"POST /p HTTP/1.1\r\nHost: h\r\nAuthorization: Bearer t\r\nContent-Type: application/json\r\nContent-Length: 2\r\n\r\n{}",
    ),
];

#[test]
fn requests_of_a_client_are_written(rt: HostRuntime) -> Result<(), Fail> {
    for (body, bytes) in REQUESTS {
        let mut link = MemoryLink::from_vec(rt.alloc(), Vec::new(rt.alloc()));
        let written = write_request(rt.alloc(), &mut link, b"h", b"t", b"/p", *body);
        assert!(rt; written.is_ok());
        assert_eq!(rt; link.bytes(), *bytes);
    }
    Ok(())
}

const RESPONSES: &[(&[u8], u16, &[u8], bool)] = &[
    (
        b"HTTP/1.1 200 OK\r\nContent-Type: application/json\r\nContent-Length: 41\r\nCache-Control: no-store\r\n\r\n{\"methodResponses\":[],\"sessionState\":\"0\"}",
        200,
        b"{\"methodResponses\":[],\"sessionState\":\"0\"}",
        false,
    ),
    (
        b"HTTP/1.1 201 Created\r\nTransfer-Encoding: chunked\r\n\r\n3;x\r\nabc\r\n2\r\nde\r\n0\r\nA: b\r\n\r\n",
        201,
        b"abcde",
        false,
    ),
    (
        b"HTTP/1.1 200 OK\r\n\r\nabcdefghijklmnopqrst",
        200,
        b"abcdefghijklmnopqrst",
        true,
    ),
    (b"\r\nHTTP/1.1 200\r\n\r\n", 200, b"", true),
    (
        b"HTTP/1.0 200 OK\r\nContent-Length: 1\r\n\r\na",
        200,
        b"a",
        true,
    ),
    (
        b"HTTP/1.1 404 \r\nConnection: x, Close\r\nContent-Length: 0\r\n\r\n",
        404,
        b"",
        true,
    ),
    (b"HTTP/1.1 204 No Content\r\n\r\n", 204, b"", false),
    (
        b"HTTP/1.1 304 Not Modified\r\nContent-Length: 5\r\n\r\n",
        304,
        b"",
        false,
    ),
];

fn read_next(
    alloc: Global,
    link: &mut MemoryLink,
    early: &mut Unread,
) -> Result<HttpResponse, WireFault> {
    let mut room = [0u8; 16];
    read_response(alloc, link, &mut room, early)
}

fn is_response(
    found: Result<HttpResponse, WireFault>,
    status: u16,
    body: &[u8],
    last: bool,
) -> bool {
    match found {
        Ok(response) => {
            response.status == status && response.body.as_slice() == body && response.last == last
        }
        Err(_) => false,
    }
}

#[test]
fn responses_are_read(rt: HostRuntime) -> Result<(), Fail> {
    for (text, status, body, last) in RESPONSES {
        let mut link = MemoryLink::from_vec(rt.alloc(), text.to_vec(rt.alloc())?);
        let mut early = Unread::new(rt.alloc());
        let found = read_next(rt.alloc(), &mut link, &mut early);
        assert!(rt; is_response(found, *status, *body, *last));
    }
    Ok(())
}

const TWO: &[u8] =
    b"HTTP/1.1 200 OK\r\nContent-Length: 1\r\n\r\naHTTP/1.1 503 X\r\nContent-Length: 2\r\n\r\nbc";

#[test]
fn responses_are_read_in_turn(rt: HostRuntime) -> Result<(), Fail> {
    let mut link = MemoryLink::from_vec(rt.alloc(), TWO.to_vec(rt.alloc())?);
    let mut early = Unread::new(rt.alloc());
    let first = read_next(rt.alloc(), &mut link, &mut early);
    assert!(rt; is_response(first, 200, b"a", false));
    let second = read_next(rt.alloc(), &mut link, &mut early);
    assert!(rt; is_response(second, 503, b"bc", false));
    Ok(())
}

const FAULTS: &[(&[u8], WireFault)] = &[
    (b"", WireFault::End),
    (b"\r\n", WireFault::End),
    (b"\r\nHTTP/1.1 2", WireFault::CutOff(10)),
    (
        b"HTTP/1.1 200 OK\r\nContent-Length: 5\r\n\r\nhell",
        WireFault::CutOff(42),
    ),
    (
        b"HTTP/1.1 200 OK\r\nTransfer-Encoding: chunked\r\n\r\n5\r\nab",
        WireFault::CutOff(52),
    ),
    (b"HTTP/1.1 199 X\r\n\r\n", WireFault::BadHead),
    (
        b"HTTP/1.1 101 Switching Protocols\r\n\r\n",
        WireFault::BadHead,
    ),
    (b"HTTP/2 200 OK\r\n\r\n", WireFault::BadHead),
    (
        b"HTTP/1.1 200 OK\r\nContent-Length: +1\r\n\r\na",
        WireFault::BadHead,
    ),
    (
        b"HTTP/1.1 200 OK\r\nContent-Length: 1\r\nContent-Length: 1\r\n\r\na",
        WireFault::BadHead,
    ),
    (
        b"HTTP/1.1 200 OK\r\nContent-Length: 1\r\nTransfer-Encoding: chunked\r\n\r\na",
        WireFault::BadHead,
    ),
    (
        b"HTTP/1.1 200 OK\r\nTransfer-Encoding: gzip\r\n\r\na",
        WireFault::BadHead,
    ),
    (
        b"HTTP/1.1 200 OK\r\nTransfer-Encoding: chunked\r\n\r\nx\r\n",
        WireFault::BadHead,
    ),
    (
        b"HTTP/1.1 200 OK\r\nContent-Length: 134217729\r\n\r\n",
        WireFault::BodyTooLong(134_217_728),
    ),
    (
        b"HTTP/1.1 200 OK\r\nTransfer-Encoding: chunked\r\n\r\n8000001\r\n",
        WireFault::BodyTooLong(134_217_728),
    ),
];

fn find_response_fault(alloc: Global, mut link: MemoryLink) -> Option<WireFault> {
    let mut early = Unread::new(alloc);
    match read_next(alloc, &mut link, &mut early) {
        Ok(_) => None,
        Err(fault) => Some(fault),
    }
}

#[test]
fn malformed_responses_are_refused(rt: HostRuntime) -> Result<(), Fail> {
    for (text, fault) in FAULTS {
        let link = MemoryLink::from_vec(rt.alloc(), text.to_vec(rt.alloc())?);
        assert_eq!(rt; find_response_fault(rt.alloc(), link), Some(*fault));
    }
    Ok(())
}

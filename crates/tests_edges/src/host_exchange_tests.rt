// Requests over TCP to a server of this process, which takes exactly the bytes that are written
// here by hand and answers with bytes that are written here too.
use host_edges::TcpExchange;
use jm_base::NoMemory;
use jm_edge::{EdgeFault, Exchange};
use std::alloc::Global;
use std::io::{self, Read, Write};
use std::net::{Ipv4Addr, TcpListener, TcpStream};
use std::test::Fail;
use std::thread::join;

// A request, of which the server's address is left out, and what is answered.
type Turn = (&'static str, &'static str, &'static [u8]);

// The turns of each connection. After the last one the server closes it.
const CONNECTIONS: &[&[Turn]] = &[
    &[
        (
            "GET /a HTTP/1.1\r\nHost: [127.0.0.1]:",
            "\r\nAuthorization: Bearer t\r\n\r\n",
            b"HTTP/1.1 200 OK\r\nContent-Length: 3\r\n\r\nabc",
        ),
        (
            "POST /b HTTP/1.1\r\nHost: [127.0.0.1]:",
            "\r\nAuthorization: Bearer t\r\nContent-Type: application/json\r\nContent-Length: 2\r\n\r\n{}",
            b"HTTP/1.1 201 Created\r\nTransfer-Encoding: chunked\r\n\r\n2\r\nde\r\n1\r\nf\r\n0\r\n\r\n",
        ),
    ],
    &[(
        "GET /d HTTP/1.1\r\nHost: [127.0.0.1]:",
        "\r\nAuthorization: Bearer t\r\n\r\n",
        b"HTTP/1.1 200 OK\r\nContent-Length: 1\r\nConnection: close\r\n\r\ng",
    )],
    &[(
        "GET /e HTTP/1.1\r\nHost: [127.0.0.1]:",
        "\r\nAuthorization: Bearer t\r\n\r\n",
        b"HTTP/1.1 500 Internal Server Error\r\nConnection: close\r\n\r\nhi",
    )],
    &[(
        "GET /f HTTP/1.1\r\nHost: [127.0.0.1]:",
        "\r\nAuthorization: Bearer t\r\n\r\n",
        b"HTTP/1.1 200 OK\r\nContent-Length: 5\r\n\r\nhell",
    )],
    &[(
        "GET /g HTTP/1.1\r\nHost: [127.0.0.1]:",
        "\r\nAuthorization: Bearer t\r\n\r\n",
        b"HTTP/1.1 100 Continue\r\n\r\nHTTP/1.1 200 OK\r\nContent-Length: 1\r\n\r\na",
    )],
    &[(
        "GET /h HTTP/1.1\r\nHost: [127.0.0.1]:",
        "\r\nAuthorization: Bearer t\r\n\r\n",
        b"HTTP/1.1 200 OK\r\nContent-Length: 1\r\n\r\naHTTP/1.1 200 OK\r\nContent-Length: 1\r\n\r\nb",
    )],
    &[(
        "GET /i HTTP/1.1\r\nHost: [127.0.0.1]:",
        "\r\nAuthorization: Bearer t\r\n\r\n",
        b"HTTP/1.1 204 No Content\r\n\r\n",
    )],
];

// What is asked, and the status and body of the answer; none where asking fails.
const ASKED: &[(&[u8], Option<&[u8]>, Option<(u16, &[u8])>)] = &[
    (b"/a", None, Some((200, b"abc"))),
    (b"/b", Some(b"{}"), Some((201, b"def"))),
    (b"/c", None, None),
    (b"/d", None, Some((200, b"g"))),
    (b"/e", None, Some((500, b"hi"))),
    (b"/f", None, None),
    (b"/g", None, None),
    (b"/h", None, Some((200, b"a"))),
    (b"/i", None, Some((204, b""))),
];

// Whether the next bytes of the connection are exactly these.
fn takes(alloc: Global, stream: &mut TcpStream, bytes: &[u8]) -> io::Result<bool> {
    let mut room = bytes.to_vec(alloc)?;
    room.as_mut_slice().fill(0);
    stream.read_exact(&mut room)?;
    Ok(room.as_slice() == bytes)
}

fn serve_turn(alloc: Global, stream: &mut TcpStream, port: u16, turn: &Turn) -> io::Result<bool> {
    let (front, rest, answer) = *turn;
    let request = format!(in alloc; "{front}{port}{rest}")?;
    if !takes(alloc, stream, request.as_bytes())? {
        return Ok(false);
    }
    stream.write_all(answer)?;
    Ok(true)
}

// Serves the connections, and returns whether each request was the expected one.
fn serve(alloc: Global, listener: &TcpListener, port: u16) -> io::Result<bool> {
    for turns in CONNECTIONS {
        let (mut stream, _) = listener.accept()?;
        for turn in *turns {
            if !serve_turn(alloc, &mut stream, port, turn)? {
                return Ok(false);
            }
        }
    }
    Ok(true)
}

fn is_asked(
    alloc: Global,
    exchange: &mut TcpExchange,
    path: &[u8],
    body: Option<&[u8]>,
    wanted: Option<(u16, &[u8])>,
) -> bool {
    match (exchange.ask(alloc, path, body), wanted) {
        (Ok(answer), Some((status, body))) => {
            answer.status == status && answer.body.as_slice() == body
        }
        (Err(EdgeFault::Failed), None) => true,
        _ => false,
    }
}

// Asks everything, and returns whether it was answered as it should be, and each fault counted.
fn ask_all(rt: &HostRuntime, alloc: Global, port: u16) -> Result<bool, NoMemory> {
    let mut exchange = TcpExchange::new(rt, alloc, "[127.0.0.1]", port, "t")?;
    for (path, body, wanted) in ASKED {
        if !is_asked(alloc, &mut exchange, path, *body, *wanted) {
            return Ok(false);
        }
    }
    Ok(exchange.count_faults() == 3)
}

#[test]
fn requests_go_over_connections(rt: HostRuntime) -> Result<(), Fail> {
    let alloc = rt.alloc();
    let listener = TcpListener::bind(&rt, (Ipv4Addr::LOCALHOST, 0))?;
    let port = listener.local_addr()?.port();
    let (served, asked) = join(
        &rt,
        || serve(alloc, &listener, port),
        || ask_all(&rt, alloc, port),
    );
    assert!(rt; asked?);
    assert!(rt; served?);
    Ok(())
}

#[test]
fn a_server_that_is_not_there_is_not_reached(rt: HostRuntime) -> Result<(), Fail> {
    let alloc = rt.alloc();
    let listener = TcpListener::bind(&rt, (Ipv4Addr::LOCALHOST, 0))?;
    let port = listener.local_addr()?.port();
    drop(listener);
    for host in ["127.0.0.1", "no-such-name.invalid"] {
        let mut exchange = TcpExchange::new(&rt, alloc, host, port, "t")?;
        assert!(rt; is_asked(alloc, &mut exchange, b"/", None, None));
    }
    Ok(())
}

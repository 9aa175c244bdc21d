use jm_base::{Bytes, NoMemory, Numbers};
use jm_edge::{
    Answer, Arrival, Clock, CountingGate, EdgeFault, Exchange, Failed, Gate, Link, MemoryClock,
    MemoryExchange, MemoryLink, MemoryShelf, MemorySink, MemorySocket, MemorySource, MessageLink,
    NoGate, Script, Sent, Shelf, Source, put_all, put_to_link,
};
use std::alloc::Global;
use std::collections::VecDeque;
use std::test::Fail;

#[test]
fn reads_in_pieces_and_fails_once(rt: HostRuntime) -> Result<(), Fail> {
    let mut fails = Numbers::new(rt.alloc());
    fails.push(2)?;
    let mut source = MemorySource::build_in_pieces(b"abcde".to_vec(rt.alloc())?, 3, fails);
    let mut room = [0u8; 8];
    assert_eq!(rt; source.read(&mut room), Ok(3));
    assert_eq!(rt; source.read(&mut room), Err(Failed));
    assert_eq!(rt; source.read(&mut room), Ok(2));
    assert_eq!(rt; &room[..3], b"dec".as_slice());
    assert_eq!(rt; source.read(&mut room), Ok(0));
    Ok(())
}

#[test]
fn writes_all_until_a_fault(rt: HostRuntime) -> Result<(), Fail> {
    let mut fails = Numbers::new(rt.alloc());
    fails.push(2)?;
    let mut sink = MemorySink::build_failing(rt.alloc(), fails);
    assert_eq!(rt; put_all(&mut sink, b"ab"), Ok(()));
    assert_eq!(rt; put_all(&mut sink, b"cd"), Err(Failed));
    assert_eq!(rt; put_all(&mut sink, b"ef"), Ok(()));
    assert_eq!(rt; sink.bytes(), b"abef".as_slice());
    Ok(())
}

#[test]
fn a_link_reads_and_writes_apart(rt: HostRuntime) -> Result<(), Fail> {
    let alloc = rt.alloc();
    let (mut sizes, mut reads, mut writes) = (
        Numbers::new(alloc),
        Numbers::new(alloc),
        Numbers::new(alloc),
    );
    sizes.push(1)?;
    sizes.push(0)?;
    reads.push(3)?;
    writes.push(2)?;
    let input = MemorySource::build_in_sizes(b"abcdef".to_vec(alloc)?, sizes, 3, reads);
    let mut link = MemoryLink::new(input, MemorySink::build_failing(alloc, writes));
    let mut room = [0u8; 8];
    // calls of one byte, of one (a size of 0 counts as 1), one that fails, and of three
    for read in [Ok(1), Ok(1), Err(Failed), Ok(3), Ok(1), Ok(0)] {
        assert_eq!(rt; link.read(&mut room), read);
    }
    assert_eq!(rt; put_to_link(&mut link, b"ab"), Ok(()));
    assert_eq!(rt; put_to_link(&mut link, b"cd"), Err(Failed));
    assert_eq!(rt; put_to_link(&mut link, b"ef"), Ok(()));
    assert_eq!(rt; link.bytes(), b"abef".as_slice());
    Ok(())
}

// The first call takes two bytes, the second one (a size of 0 counts as 1), and the third fails.
#[test]
fn a_put_that_fails_cuts_a_piece(rt: HostRuntime) -> Result<(), Fail> {
    let alloc = rt.alloc();
    let (mut sizes, mut fails) = (Numbers::new(alloc), Numbers::new(alloc));
    sizes.push(2)?;
    sizes.push(0)?;
    fails.push(3)?;
    let input = MemorySource::new(alloc, Vec::new(alloc));
    let output = MemorySink::build_in_sizes(alloc, sizes, 3, fails);
    let mut link = MemoryLink::new(input, output);
    assert_eq!(rt; put_to_link(&mut link, b"abcdef"), Err(Failed));
    assert_eq!(rt; link.bytes(), b"abc".as_slice());
    assert_eq!(rt; link.put(b"defgh"), Ok(3));
    assert_eq!(rt; link.bytes(), b"abcdef".as_slice());
    Ok(())
}

#[test]
fn a_clock_shows_its_times(rt: HostRuntime) -> Result<(), Fail> {
    let mut times = Numbers::new(rt.alloc());
    times.push(7)?;
    times.push(u64::MAX)?;
    let mut clock = MemoryClock::new(times, 9);
    for time in [7, 253_402_300_799, 9, 9] {
        assert_eq!(rt; clock.now(), time);
    }
    Ok(())
}

#[test]
fn a_gate_is_counted(rt: HostRuntime) -> Result<(), Fail> {
    let gate = CountingGate::new();
    gate.pass(1);
    gate.pass(2);
    NoGate.pass(3);
    assert_eq!(rt; gate.count(), 2);
    Ok(())
}

// A socket of a link to which "a" was written, with the early bytes "e". A text, a quiet look and a
// binary message are to come; the second look and the second call that sends fail.
fn make_socket(alloc: Global) -> Result<MemorySocket, NoMemory> {
    let (mut look_fails, mut send_fails) = (Numbers::new(alloc), Numbers::new(alloc));
    look_fails.push(2)?;
    send_fails.push(2)?;
    let mut coming = VecDeque::new(alloc);
    coming.push_back(Arrival::Text(Bytes::from_slice(alloc, b"t")?))?;
    coming.push_back(Arrival::Quiet)?;
    coming.push_back(Arrival::Binary)?;
    let script = Script {
        coming,
        look_fails,
        send_fails,
    };
    let input = MemorySource::new(alloc, Vec::new(alloc));
    let mut link = MemoryLink::with_script(input, MemorySink::new(alloc), script);
    if put_to_link(&mut link, b"a").is_err() {
        return Err(NoMemory);
    }
    link.upgrade(alloc, Bytes::from_slice(alloc, b"e")?)
}

// The name of what a look found.
fn name_of(found: &Result<Arrival, EdgeFault>) -> &'static str {
    match found {
        Ok(Arrival::Text(text)) => if text.as_slice() == b"t".as_slice() {
            "text t"
        } else {
            "text"
        },
        Ok(Arrival::Binary) => "binary",
        Ok(Arrival::Closed) => "closed",
        Ok(Arrival::Quiet) => "quiet",
        Err(EdgeFault::Failed) => "failed",
        Err(EdgeFault::NoMemory) => "no memory",
    }
}

#[test]
fn a_socket_shows_what_is_to_come(rt: HostRuntime) -> Result<(), Fail> {
    let mut socket = make_socket(rt.alloc())?;
    for found in ["text t", "failed", "quiet", "binary", "closed", "closed"] {
        assert_eq!(rt; name_of(&socket.next(rt.alloc())), found);
    }
    assert_eq!(rt; socket.link_bytes(), b"a".as_slice());
    assert_eq!(rt; socket.early(), b"e".as_slice());
    Ok(())
}

// The code of a close, the first byte of a text.
fn code_of(sent: &Sent) -> u16 {
    match sent {
        Sent::Text(text) => text.as_slice().first().map_or(0, |b| *b as u16),
        Sent::Close(code) => *code,
    }
}

#[test]
fn a_socket_keeps_what_is_sent(rt: HostRuntime) -> Result<(), Fail> {
    let mut socket = make_socket(rt.alloc())?;
    assert_eq!(rt; socket.send(rt.alloc(), b"x"), Ok(()));
    assert_eq!(rt; socket.send(rt.alloc(), b"y"), Err(EdgeFault::Failed));
    assert_eq!(rt; socket.close(rt.alloc(), 1003), Ok(()));
    assert_eq!(rt; socket.sent().len(), 2);
    for (i, sent) in socket.sent().iter().enumerate() {
        assert_eq!(rt; code_of(sent), [120, 1003][i.min(1)]);
    }
    Ok(())
}

// An exchange that answers 200 with "a", then 404, and of which the second call fails.
fn make_exchange(alloc: Global) -> Result<MemoryExchange, NoMemory> {
    let mut coming = VecDeque::new(alloc);
    coming.push_back(Answer {
        status: 200,
        body: Bytes::from_slice(alloc, b"a")?,
    })?;
    coming.push_back(Answer {
        status: 404,
        body: Bytes::new(alloc),
    })?;
    let mut fails = Numbers::new(alloc);
    fails.push(2)?;
    Ok(MemoryExchange::build_failing(alloc, coming, fails))
}

// The status that was answered, or 0 for a fault.
fn status_of(answered: &Result<Answer, EdgeFault>) -> u16 {
    match answered {
        Ok(answer) => answer.status,
        Err(_) => 0,
    }
}

#[test]
fn an_exchange_answers_by_its_script(rt: HostRuntime) -> Result<(), Fail> {
    let mut exchange = make_exchange(rt.alloc())?;
    for status in [200, 0, 404, 503, 503] {
        assert_eq!(rt;
            status_of(&exchange.ask(rt.alloc(), b"/p", Some(b"{}"))),
            status
        );
    }
    assert_eq!(rt; exchange.asked().len(), 4);
    assert_eq!(rt;
        (exchange.calls().made(), exchange.calls().faults()),
        (5, 1)
    );
    for (i, asked) in exchange.asked().iter().enumerate() {
        assert_eq!(rt; asked.path.as_slice(), b"/p".as_slice());
        assert_eq!(rt; asked.answer.status, [200, 404, 503, 503][i.min(3)]);
    }
    Ok(())
}

#[test]
fn an_exchange_keeps_what_it_was_asked(rt: HostRuntime) -> Result<(), Fail> {
    let mut exchange = make_exchange(rt.alloc())?;
    let _ = exchange.ask(rt.alloc(), b"/get", None);
    let asked = exchange.asked().first();
    assert!(rt; asked.is_some_and(|a| a.body.is_none()));
    assert!(rt; asked.is_some_and(|a| a.answer.body.as_slice() == b"a".as_slice()));
    Ok(())
}

// Saves and loads, one by one; the first save and the second load fail.
#[test]
fn a_shelf_holds_what_was_saved(rt: HostRuntime) -> Result<(), Fail> {
    let alloc = rt.alloc();
    let (mut loads, mut saves) = (Numbers::new(alloc), Numbers::new(alloc));
    loads.push(2)?;
    saves.push(1)?;
    let mut shelf = MemoryShelf::build_failing(None, loads, saves);
    assert_eq!(rt; shelf.save(alloc, b"a"), Err(EdgeFault::Failed));
    assert!(rt; matches!(shelf.load(alloc), Ok(None)));
    assert_eq!(rt; shelf.save(alloc, b"b"), Ok(()));
    assert!(rt; matches!(shelf.load(alloc), Err(EdgeFault::Failed)));
    assert_eq!(rt; shelf.content(), Some(b"b".as_slice()));
    assert_eq!(rt; (shelf.loads().faults(), shelf.saves().faults()), (1, 1));
    Ok(())
}

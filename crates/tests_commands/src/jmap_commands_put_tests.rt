// When replies are put.
use crate::no_client::NoClient;
use crate::no_world::NoWorld;
use jm_edge::{Failed, MemorySink, MemorySource, Sink, Source};
use jmap_commands::{Status, Worlds, run};
use std::alloc::Global;
use std::cell::Cell;
use std::test::Fail;

// A source of two lines, and a sink that notes how often the source had been read when a reply came.
#[derive(Drop)]
struct Lines<'a> {
    reads: &'a Cell<u64>,
}

impl Source for Lines<'_> {
    ghost use Rattle.std.specs.Prelude.{None};

    ghost left = { λ s. None };

    ghost faults = { λ s. 0 };

    fn read(&mut self, room: &mut [u8]) -> Result<usize, Failed> {
        let reads = self.reads.get().saturating_add(1);
        self.reads.set(reads);
        if reads > 2 || room.len() < 2 {
            return Ok(0);
        }
        room[0] = b'x';
        room[1] = b'\n';
        Ok(2)
    }
}

#[derive(Drop)]
struct Noted<'a> {
    reads: &'a Cell<u64>,
    seen: Vec<u64>,
}

impl Sink for Noted<'_> {
    ghost use Rattle.std.specs.Prelude.{None};

    ghost held = { λ s. None };

    ghost faults = { λ s. 0 };

    fn put(&mut self, piece: &[u8]) -> Result<usize, Failed> {
        let _ = self.seen.push(self.reads.get());
        Ok(piece.len())
    }
}

#[test]
fn puts_each_reply_before_it_reads_on(rt: HostRuntime) -> Result<(), Fail> {
    let reads = Cell::new(0u64);
    let mut out = Noted {
        reads: &reads,
        seen: Vec::new(rt.alloc()),
    };
    let words = vec![in rt.alloc(); String::from_str(rt.alloc(), "batch")?]?;
    let status = run(
        &rt,
        rt.alloc(),
        words.as_slice(),
        &mut Lines { reads: &reads },
        &mut out,
        &mut MemorySink::new(rt.alloc()),
        &mut Worlds {
            server: NoWorld { alloc: rt.alloc() },
            client: NoClient,
        },
    );
    assert_eq!(rt; status, Status(0));
    assert_eq!(rt; out.seen.as_slice(), [1, 2].as_slice());
    Ok(())
}

// A sink that notes its longest piece, and counts the bytes of all.
#[derive(Drop)]
struct Longest {
    piece: usize,
    all: usize,
}

impl Sink for Longest {
    ghost use Rattle.std.specs.Prelude.{None};

    ghost held = { λ s. None };

    ghost faults = { λ s. 0 };

    fn put(&mut self, piece: &[u8]) -> Result<usize, Failed> {
        self.piece = self.piece.max(piece.len());
        self.all = self.all.saturating_add(piece.len());
        Ok(piece.len())
    }
}

const NOT_JSON: &str = "{\"status\":400,\"type\":\"urn:ietf:params:jmap:error:notJSON\"}\n";

const LINES: usize = 32_768;

// Lines that are no JSON, as many bytes as one read takes.
fn write_lines(alloc: Global) -> Result<Vec<u8>, Fail> {
    let mut bytes = Vec::new(alloc);
    for _ in 0..LINES {
        bytes.extend_from_slice(b"x\n")?;
    }
    Ok(bytes)
}

#[test]
fn at_most_64_kib_of_replies_wait(rt: HostRuntime) -> Result<(), Fail> {
    let lines = write_lines(rt.alloc())?;
    let mut out = Longest { piece: 0, all: 0 };
    let words = vec![in rt.alloc(); String::from_str(rt.alloc(), "batch")?]?;
    let status = run(
        &rt,
        rt.alloc(),
        words.as_slice(),
        &mut MemorySource::new(rt.alloc(), lines),
        &mut out,
        &mut MemorySink::new(rt.alloc()),
        &mut Worlds {
            server: NoWorld { alloc: rt.alloc() },
            client: NoClient,
        },
    );
    assert_eq!(rt; status, Status(0));
    assert_eq!(rt; out.all, LINES * NOT_JSON.len());
    assert!(rt; out.piece < 65_536 + NOT_JSON.len());
    Ok(())
}

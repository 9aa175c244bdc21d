// Inputs and lines at their longest.
use crate::no_client::NoClient;
use crate::no_world::NoWorld;
use crate::running::Ran;
use jm_base::Bytes;
use jm_edge::{Failed, MemorySink, Source};
use jmap_commands::{Status, Worlds, run};
use std::alloc::Global;
use std::sync::Wait;
use std::test::Fail;
use std::thread::Threads;

// A source that gives a byte over and over, to a count, and then ends. A byte of 0 is left as it is
// in the room.
#[derive(Drop)]
struct Repeated {
    byte: u8,
    left: u64,
}

impl Source for Repeated {
    ghost use Rattle.std.specs.Prelude.{None};

    ghost left = { λ s. None };

    ghost faults = { λ s. 0 };

    fn read(&mut self, room: &mut [u8]) -> Result<usize, Failed> {
        let count = (room.len() as u64).min(self.left);
        self.left -= count;
        let count = count as usize;
        if self.byte != 0 {
            for place in room[..count].iter_mut() {
                *place = self.byte;
            }
        }
        Ok(count)
    }
}

fn repeats(
    rt: &(impl Threads + Wait + Sync),
    alloc: Global,
    word: &str,
    byte: u8,
    left: u64,
) -> Result<Ran, Fail> {
    let mut out = MemorySink::new(alloc);
    let mut err = MemorySink::new(alloc);
    let words = vec![in alloc; String::from_str(alloc, word)?]?;
    let status = run(
        rt,
        alloc,
        words.as_slice(),
        &mut Repeated { byte, left },
        &mut out,
        &mut err,
        &mut Worlds {
            server: NoWorld { alloc: alloc },
            client: NoClient,
        },
    );
    Ok(Ran {
        status,
        out: Bytes::from_slice(alloc, out.bytes())?,
        err: Bytes::from_slice(alloc, err.bytes())?,
    })
}

const NOT_JSON: &str = "{\"status\":400,\"type\":\"urn:ietf:params:jmap:error:notJSON\"}\n";

const TOO_LARGE: &str =
    "{\"limit\":\"maxSizeRequest\",\"status\":413,\"type\":\"urn:ietf:params:jmap:error:limit\"}\n";

const NOT_REQUEST: &str = "{\"status\":400,\"type\":\"urn:ietf:params:jmap:error:notRequest\"}\n";

const LONG_BLOB: &str =
    "{\"accountId\":\"A1\",\"blobId\":\"b1\",\"size\":7500000,\"type\":\"application/octet-stream\"}\n";

const UPLOAD_TOO_LARGE: &str =
    "{\"limit\":\"maxSizeUpload\",\"status\":413,\"type\":\"urn:ietf:params:jmap:error:limit\"}\n";

// The arguments, the byte, how often it comes, the status, and the output. A byte of 0 is left as it is in
// the room.
const ROWS: &[(&str, u8, u64, u8, &str)] = &[
    ("batch", 0, 1073741825, 14, ""),
    ("read", 0, 50000001, 14, ""),
    ("batch", b' ', 10000000, 0, NOT_JSON),
    ("batch", b' ', 10000001, 0, TOO_LARGE),
    // The `+` of an upload, and more of them as base64: four of these characters are three bytes.
    ("batch", b'+', 10000001, 0, LONG_BLOB),
    ("batch", b'+', 66666668, 0, NOT_REQUEST),
    ("batch", b'+', 66666669, 0, UPLOAD_TOO_LARGE),
    ("batch", b'+', 66666670, 0, UPLOAD_TOO_LARGE),
];

#[test]
fn ends_past_the_limits(rt: HostRuntime) -> Result<(), Fail> {
    for (arguments, byte, left, status, out) in ROWS {
        let ran = repeats(&rt, rt.alloc(), arguments, *byte, *left)?;
        assert_eq!(rt; ran.status, Status(*status));
        assert_eq!(rt; ran.out.as_slice(), out.as_bytes());
    }
    Ok(())
}

#[test]
fn takes_the_longest_input(rt: HostRuntime) -> Result<(), Fail> {
    let ran = repeats(&rt, rt.alloc(), "batch", 0, 1073741824)?;
    assert_eq!(rt; ran.status, Status(0));
    assert_eq!(rt; ran.out.as_slice(), TOO_LARGE.as_bytes());
    Ok(())
}

// Uploads of the greatest size, until there is no room for another one (RFC 8620, section 6.1).
use crate::no_client::NoClient;
use crate::no_world::NoWorld;
use crate::running::Ran;
use jm_base::Bytes;
use jm_edge::{Failed, MemorySink, Source};
use jmap_commands::{Status, Worlds, run};
use std::alloc::Global;
use std::sync::Wait;
use std::test::Fail;
use std::thread::Threads;

// `+` and 66,666,668 characters of base64, which are 50,000,000 bytes, and a line feed.
const LINE_BYTES: u64 = 66666670;

// The byte at this offset of such a line.
fn byte_at(offset: u64) -> u8 {
    match offset {
        0 => b'+',
        66666668 => b'=',
        66666669 => b'\n',
        _ => b'A',
    }
}

// A source of such lines, which has given so many bytes and has so many left.
#[derive(Drop)]
struct Uploads {
    given: u64,
    left: u64,
}

impl Source for Uploads {
    ghost use Rattle.std.specs.Prelude.{None};

    ghost left = { λ s. None };

    ghost faults = { λ s. 0 };

    fn read(&mut self, room: &mut [u8]) -> Result<usize, Failed> {
        let count = (room.len() as u64).min(self.left);
        self.left -= count;
        let count = count as usize;
        for place in room[..count].iter_mut() {
            *place = byte_at(self.given % LINE_BYTES);
            self.given = self.given.saturating_add(1);
        }
        Ok(count)
    }
}

fn run_uploads(rt: &(impl Threads + Wait + Sync), alloc: Global, lines: u64) -> Result<Ran, Fail> {
    let mut out = MemorySink::new(alloc);
    let mut err = MemorySink::new(alloc);
    let words = vec![in alloc; String::from_str(alloc, "batch")?]?;
    let left = lines.saturating_mul(LINE_BYTES);
    let status = run(
        rt,
        alloc,
        words.as_slice(),
        &mut Uploads { given: 0, left },
        &mut out,
        &mut err,
        &mut Worlds {
            server: NoWorld { alloc: alloc },
            client: NoClient,
        },
    );
    Ok(Ran {
        status,
        out: Bytes::from_slice(alloc, out.bytes())?,
        err: Bytes::from_slice(alloc, err.bytes())?,
    })
}

const REPLIES: &str =
    "{\"accountId\":\"A1\",\"blobId\":\"b1\",\"size\":50000000,\"type\":\"application/octet-stream\"}\n{\"accountId\":\"A1\",\"blobId\":\"b2\",\"size\":50000000,\"type\":\"application/octet-stream\"}\n{\"limit\":\"maxSizeBlobs\",\"status\":413,\"type\":\"urn:ietf:params:jmap:error:limit\"}\n";

// The third one would take the blobs past 134,217,728 bytes in all.
#[test]
fn refuses_an_upload_past_the_blobs_of_an_account(rt: HostRuntime) -> Result<(), Fail> {
    let ran = run_uploads(&rt, rt.alloc(), 3)?;
    assert_eq!(rt; ran.status, Status(0));
    assert_eq!(rt; ran.out.as_slice(), REPLIES.as_bytes());
    Ok(())
}

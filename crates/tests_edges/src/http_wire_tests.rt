// How many bytes of a request a link gave before it ended. Empty lines before the request line are
// not counted (docs/rules/http.md); what is counted is counted by hand.
use http_parts::{Unread, WireFault};
use http_wire::{KeepAll, read_request};
use jm_edge::MemoryLink;
use std::alloc::Global;
use std::test::Fail;

const ENDS: &[(&[u8], WireFault)] = &[
    (b"", WireFault::End),
    (b"\r\n\n", WireFault::End),
    (b"\nGET / HT", WireFault::CutOff(8)),
    (b"\r\nGET / HTTP/1.1\r\n", WireFault::CutOff(16)),
    (
        b"\r\nPOST / HTTP/1.1\r\nHost: h\r\nContent-Length: 5\r\n\r\nhell",
        WireFault::CutOff(51),
    ),
];

fn find_fault(alloc: Global, mut link: MemoryLink) -> Option<WireFault> {
    let mut room = [0u8; 64];
    let mut early = Unread::new(alloc);
    match read_request(alloc, &mut link, &mut room, &mut early, &KeepAll) {
        Ok(_) => None,
        Err(fault) => Some(fault),
    }
}

#[test]
fn requests_that_end_early_are_counted(rt: HostRuntime) -> Result<(), Fail> {
    for (text, fault) in ENDS {
        let link = MemoryLink::from_vec(rt.alloc(), text.to_vec(rt.alloc())?);
        assert_eq!(rt; find_fault(rt.alloc(), link), Some(*fault));
    }
    Ok(())
}

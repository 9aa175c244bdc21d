// Reading the bytes of a link up to the end of a head.
ghost use Rattle.std.specs.Prelude.{◌≡◌, ◌<◌, ◌≤◌, ◌⊎◌, ℕ, ◌++◌, ◌==◌, if◌then◌else◌, length, IfOk, IfErr, OnOk};
ghost use Rattle.jm_edge.specs.Causes.{Rose};
ghost use Rattle.http_parts.specs.declared.limits.TheConstants.{MAX_HEAD_BYTES};
ghost use Rattle.http_parts.specs.Views.{IsHeadAt};
ghost use Rattle.http_parts.specs.Pieces.{Receives, Gained, Stops};
ghost use Rattle.http_parts.specs.Heads.{begun_bytes};

use crate::WireFault;
use crate::heads::{HeadSearch, HeadSpan, Start, count_empty, find_head};
use crate::unread::Unread;
use jm_edge::Link;

// Reads the next piece into the room, and appends it to the bytes. Returns how many bytes came:
// none at the end of the link.
pub(crate) fn read_piece<L: Link>(
    link: &mut L,
    room: &mut [u8],
    bytes: &mut Unread,
) -> Result<usize, WireFault>
    requires { 0 < length room.old }
    ensures received { Receives bytes.old bytes.new (L.left link.old) (L.left link.new) result }
    ensures room { length room.new ≡ length room.old }
    ensures later { L.read_faults link.old ≤ L.read_faults link.new }
    ensures cause { IfErr result (λ e. (e ≡ WireFault.ReadFault × Rose (L.read_faults link.old)
        (L.read_faults link.new)) ⊎ (e ≡ WireFault.NoMemory)) }
    ensures held { L.held link.new ≡ L.held link.old }
    ensures put_faults { L.put_faults link.new ≡ L.put_faults link.old }
{
    let count = match link.read(room) {
        Ok(count) => count,
        Err(_) => return Err(WireFault::ReadFault),
    };
    match bytes.append(&room[..count]) {
        Ok(()) => Ok(count),
        Err(_) => Err(WireFault::NoMemory),
    }
}

// Returns why reading ends where the bytes end before a head does.
fn find_cut(bytes: &[u8]) -> WireFault
    ensures { result ≡ (if begun_bytes bytes.now == 0 then WireFault.End else WireFault.CutOff
        (begun_bytes bytes.now)) }
{
    let count = bytes.len() - count_empty(bytes);
    if count == 0 {
        return WireFault::End;
    }
    WireFault::CutOff(count as u64)
}

/// Reads from the link until the bytes hold the whole head of a message, and returns where the head
/// is. `bytes` has the bytes of the link that were read before and not yet used; what is read is
/// appended to them. `room` is where one read of the link puts its bytes. Each byte is looked at
/// once, however they come in pieces.
///
/// Fails with `HeadTooLong` if the head is too long (RFC 9112, 2), with `End` or `CutOff` if the
/// link ends before the head does, with `ReadFault` only if the link fails, and with `NoMemory` if
/// an allocation fails.
pub fn read_head<L: Link>(
    link: &mut L,
    room: &mut [u8],
    bytes: &mut Unread,
) -> Result<HeadSpan, WireFault>
    requires { 0 < length room.old }
    ensures head { IfOk result (IsHeadAt bytes.new) }
    ensures small { IfOk result (λ at. at.end ≤ MAX_HEAD_BYTES) }
    ensures gained { OnOk result (Gained bytes.old bytes.new (L.left link.old) (L.left link.new)) }
    ensures stops { IfErr result (λ e. Stops e bytes.old (L.left link.old) (L.left link.new)
        (L.read_faults link.old) (L.read_faults link.new)) }
    ensures room { length room.new ≡ length room.old }
    ensures later { L.read_faults link.old ≤ L.read_faults link.new }
    ensures held { L.held link.new ≡ L.held link.old }
    ensures put_faults { L.put_faults link.new ≡ L.put_faults link.old }
{
    let mut search = HeadSearch::new();
    'turn: loop {
        match find_head(bytes.as_slice(), &mut search) {
            Start::TooLong => return Err(WireFault::HeadTooLong),
            Start::Ended(at) => return Ok(at),
            Start::Unfinished => {}
        }
        let count = match read_piece(link, room, bytes) {
            Ok(count) => count,
            Err(fault) => return Err(fault),
        };
        if count == 0 {
            return Err(find_cut(bytes.as_slice()));
        }
    }
}

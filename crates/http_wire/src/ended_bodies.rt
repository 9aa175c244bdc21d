// Reading a body that goes to the end of a link.
ghost use Rattle.std.specs.Prelude.{◌≡◌, ◌<◌, ◌≤◌, ◌++◌, length, true, IfOk, IfErr, OnOk};
ghost use Rattle.std.specs.Io.KnownBytes.{IsAtEnd};
ghost use Rattle.http_parts.specs.Bodies.{Whole};
ghost use Rattle.http_parts.specs.Parts.{Took, IsCountBelow};
ghost use Rattle.http_parts.specs.declared.limits.TheConstants.{SEEN_BYTES_LIMIT};
ghost use Rattle.http_wire.specs.FramedResponses.{FailsAt};
ghost use Rattle.http_wire.specs.ReadResponses.{body_to_end};
ghost use Rattle.http_wire.specs.declared.limits.TheConstants.{MAX_RESPONSE_BYTES};

use crate::limits::MAX_RESPONSE_BYTES;
use http_parts::{BodyFault, Unread};
use jm_edge::Link;
use std::alloc::Global;

// Appends the rest of the link to the body, which may come to have as many bytes as that of a
// response.
#[tactic(auto, using(crate::proofs::ToEnd::more_came, crate::proofs::ToEnd::came_to_end, crate::proofs::ToEnd::came_over, crate::proofs::ToEnd::came_to_fault, crate::proofs::ToEnd::out_of_room))]
fn append_to_end<L: Link>(
    link: &mut L,
    room: &mut [u8],
    body: &mut Vec<u8>,
) -> Result<(), BodyFault>
    requires room { 0 < length room.old }
    requires inside { length body.old.items ≤ MAX_RESPONSE_BYTES }
    ensures ok { OnOk result (Took (L.left link.old) (L.left link.new)
        (λ t. (body.new.items ≡ body.old.items ++ t)
        × (length body.new.items ≤ MAX_RESPONSE_BYTES) × IsAtEnd (L.left link.new))) }
    ensures err { IfErr result (λ e. Took (L.left link.old) (L.left link.new)
        (λ t. FailsAt e (λ ended. body_to_end MAX_RESPONSE_BYTES ended (body.old.items ++ t))
        (length (body.old.items ++ t)) (L.left link.new) (L.read_faults link.old)
        (L.read_faults link.new))) }
    ensures below { IfErr result (IsCountBelow SEEN_BYTES_LIMIT) }
    ensures room { length room.new ≡ length room.old }
    ensures later { L.read_faults link.old ≤ L.read_faults link.new }
    ensures held { L.held link.new ≡ L.held link.old }
    ensures put_faults { L.put_faults link.new ≡ L.put_faults link.old }
{
    'turn: loop {
        let count = match link.read(room) {
            Ok(count) => count,
            Err(_) => return Err(BodyFault::ReadFault),
        };
        if count == 0 {
            return Ok(());
        }
        if count > MAX_RESPONSE_BYTES - body.len() {
            return Err(BodyFault::TooLong);
        }
        match body.extend_from_slice(&room[..count]) {
            Ok(()) => {}
            Err(_) => return Err(BodyFault::NoMemory),
        }
    }
}

// Reads a body that goes to the end of the link, as that of a response whose fields say no length
// does (RFC 9112, 6.3). It begins with the early bytes, of which none are left.
#[tactic(auto, using(crate::proofs::ToEnd::whole_to_end, crate::proofs::ToEnd::over_before, crate::proofs::ToEnd::no_room))]
pub(crate) fn read_to_end<L: Link>(
    alloc: Global,
    link: &mut L,
    room: &mut [u8],
    early: &mut Unread,
) -> Result<Vec<u8>, BodyFault>
    requires { 0 < length room.old }
    ensures ok { IfOk result (λ b. Took (L.left link.old) (L.left link.new)
        (λ t. (body_to_end MAX_RESPONSE_BYTES true (early.old ++ t) ≡ Whole b.items early.new)
        × IsAtEnd (L.left link.new))) }
    ensures err { IfErr result (λ e. Took (L.left link.old) (L.left link.new)
        (λ t. FailsAt e (λ ended. body_to_end MAX_RESPONSE_BYTES ended (early.old ++ t))
        (length (early.old ++ t)) (L.left link.new) (L.read_faults link.old)
        (L.read_faults link.new))) }
    ensures below { IfErr result (IsCountBelow SEEN_BYTES_LIMIT) }
    ensures room { length room.new ≡ length room.old }
    ensures later { L.read_faults link.old ≤ L.read_faults link.new }
    ensures held { L.held link.new ≡ L.held link.old }
    ensures put_faults { L.put_faults link.new ≡ L.put_faults link.old }
{
    let count = early.len();
    if count > MAX_RESPONSE_BYTES {
        return Err(BodyFault::TooLong);
    }
    let mut body = match Vec::from_slice(alloc, early.as_slice()) {
        Ok(body) => body,
        Err(_) => return Err(BodyFault::NoMemory),
    };
    early.skip(count);
    match append_to_end(link, room, &mut body) {
        Ok(()) => Ok(body),
        Err(fault) => Err(fault),
    }
}

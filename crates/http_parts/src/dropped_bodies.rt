// Reading bytes of a link that nobody needs: they are counted and dropped.
ghost use Rattle.std.specs.Prelude.{◌≡◌, ◌<◌, ◌≤◌, ◌++◌, length, IfOk, IfErr, OnOk, []};
ghost use Rattle.std.specs.Io.KnownBytes.{Consumes, IsAtEnd};
ghost use Rattle.jm_edge.specs.Causes.{Rose};
ghost use Rattle.http_parts.specs.Parts.{Took, Halts, Passes, IsCountBelow};
ghost use Rattle.http_parts.specs.declared.limits.TheConstants.{BUFFER_BYTES_LIMIT};
ghost use Rattle.http_parts.specs.declared.body_fault.BodyFault.TheVariants as body_fault;

use crate::body_fault::BodyFault;
use crate::unread::Unread;
use jm_edge::Link;

// Reads once, at most so many bytes, into the room. Returns how many came: none at the end of the
// link.
fn read_at_most<L: Link>(link: &mut L, room: &mut [u8], most: usize) -> Result<usize, BodyFault>
    requires room { 0 < length room.old }
    requires some { 0 < most }
    ensures ok { IfOk result (λ n. Took (L.left link.old) (L.left link.new)
        (λ t. (length t ≡ n) × (n ≤ most) × (n ≡ 0 → IsAtEnd (L.left link.new)))) }
    ensures err { IfErr result (λ e. (e ≡ body_fault.ReadFault)
        × Rose (L.read_faults link.old) (L.read_faults link.new)
        × Consumes (L.left link.old) (L.left link.new) []) }
    ensures room { length room.new ≡ length room.old }
    ensures later { L.read_faults link.old ≤ L.read_faults link.new }
    ensures held { L.held link.new ≡ L.held link.old }
    ensures put_faults { L.put_faults link.new ≡ L.put_faults link.old }
{
    let size = most.min(room.len());
    let (part, _) = room.split_at_mut(size);
    match link.read(part) {
        Ok(count) => Ok(count),
        Err(_) => Err(BodyFault::ReadFault),
    }
}

// Reads so many bytes of the link, and drops them.
#[tactic(auto, using(crate::proofs::Dropped::gone_none, crate::proofs::Dropped::gone_on, crate::proofs::Dropped::gone_ended, crate::proofs::Dropped::gone_failed))]
fn drop_bytes<L: Link>(link: &mut L, room: &mut [u8], count: usize) -> Result<(), BodyFault>
    requires { 0 < length room.old }
    ensures ok { OnOk result (Took (L.left link.old) (L.left link.new) (λ t. length t ≡ count)) }
    ensures err { IfErr result (λ e. Took (L.left link.old) (L.left link.new)
        (λ t. Halts e ⊥ ⊥ (length t < count) (length t) (L.left link.new)
        (L.read_faults link.old) (L.read_faults link.new))) }
    ensures below { IfErr result (IsCountBelow count) }
    ensures room { length room.new ≡ length room.old }
    ensures later { L.read_faults link.old ≤ L.read_faults link.new }
    ensures held { L.held link.new ≡ L.held link.old }
    ensures put_faults { L.put_faults link.new ≡ L.put_faults link.old }
{
    let mut at = 0;
    'turn: while at < count {
        let more = match read_at_most(link, room, count - at) {
            Ok(more) => more,
            Err(fault) => return Err(fault),
        };
        if more == 0 {
            return Err(BodyFault::Ended(at));
        }
        at += more;
    }
    Ok(())
}

// Drops so many unread bytes. `link` is where the rest of them is read.
pub(crate) fn drop_sized<L: Link>(
    link: &mut L,
    room: &mut [u8],
    bytes: &mut Unread,
    size: usize,
) -> Result<(), BodyFault>
    requires room { 0 < length room.old }
    requires small { size < BUFFER_BYTES_LIMIT }
    ensures ok { OnOk result
        (Took (L.left link.old) (L.left link.new) (Passes size bytes.old bytes.new)) }
    ensures err { IfErr result (λ e. Took (L.left link.old) (L.left link.new)
        (λ t. Halts e ⊥ ⊥ (length (bytes.old ++ t) < size) (length (bytes.old ++ t))
        (L.left link.new) (L.read_faults link.old) (L.read_faults link.new))) }
    ensures below { IfErr result (IsCountBelow size) }
    ensures room { length room.new ≡ length room.old }
    ensures later { L.read_faults link.old ≤ L.read_faults link.new }
    ensures held { L.held link.new ≡ L.held link.old }
    ensures put_faults { L.put_faults link.new ≡ L.put_faults link.old }
{
    let count = size.min(bytes.len());
    bytes.skip(count);
    match drop_bytes(link, room, size - count) {
        Ok(()) => Ok(()),
        Err(fault) => Err(fault.add_bytes_before(count)),
    }
}

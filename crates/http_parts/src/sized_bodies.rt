// Reading so many bytes of a link straight into the buffer that is handed on.
ghost use Rattle.std.specs.Prelude.{◌≡◌, ◌<◌, ◌≤◌, ◌+◌, ◌-◌, ◌++◌, length, take, IfOk, ◌⊎◌, IfErr, OnOk, OnErr, ℕ, []};
ghost use Rattle.std.specs.Io.KnownBytes.{Consumes};
ghost use Rattle.jm_edge.specs.Causes.{Rose};
ghost use Rattle.http_parts.specs.Parts.{Took, Halts, Fills, Moves, IsCountBelow};
ghost use Rattle.http_parts.specs.declared.limits.TheConstants.{BUFFER_BYTES_LIMIT};
ghost use Rattle.http_parts.specs.declared.body_fault.BodyFault.TheVariants as body_fault;

use crate::body_fault::BodyFault;
use crate::unread::Unread;
use jm_base::NoMemory;
use jm_edge::Link;

// How many bytes a buffer grows by, beyond as many as it has.
const GROWTH_BYTES: usize = 4096;

// Lets the buffer grow, up to this size, if it ends at this place.
fn make_room(buffer: &mut Vec<u8>, at: usize, size: usize) -> Result<(), NoMemory>
    requires inside { at ≤ length buffer.old.items }
    requires more { at < size }
    requires most { length buffer.old.items ≤ size }
    requires small { size < BUFFER_BYTES_LIMIT }
    ensures room { OnOk result (at < length buffer.new.items) }
    ensures most { OnOk result (length buffer.new.items ≤ size) }
    ensures same { OnOk result (take at buffer.new.items ≡ take at buffer.old.items) }
{
    if at < buffer.len() {
        return Ok(());
    }
    let next = size.min(at * 2 + GROWTH_BYTES);
    buffer.resize(next, 0)?;
    Ok(())
}

// Reads once into the buffer, from this place on.
fn read_into<L: Link>(link: &mut L, buffer: &mut [u8], at: usize) -> Result<usize, BodyFault>
    requires { at < length buffer.old }
    ensures len { length buffer.new ≡ length buffer.old }
    ensures ok { IfOk result (Fills buffer.old buffer.new at (L.left link.old) (L.left link.new)) }
    ensures err { IfErr result (λ e. (e ≡ body_fault.ReadFault) × Rose (L.read_faults link.old)
        (L.read_faults link.new) × Consumes (L.left link.old) (L.left link.new) []) }
    ensures later { L.read_faults link.old ≤ L.read_faults link.new }
    ensures held { L.held link.new ≡ L.held link.old }
    ensures put_faults { L.put_faults link.new ≡ L.put_faults link.old }
{
    let (_, room) = buffer.split_at_mut(at);
    match link.read(room) {
        Ok(count) => Ok(count),
        Err(_) => Err(BodyFault::ReadFault),
    }
}

// Reads once into the buffer, from this place on, which is before the size. The buffer grows as its
// content does.
fn read_next<L: Link>(
    link: &mut L,
    buffer: &mut Vec<u8>,
    at: usize,
    size: usize,
) -> Result<usize, BodyFault>
    requires inside { at ≤ length buffer.old.items }
    requires more { at < size }
    requires most { length buffer.old.items ≤ size }
    requires small { size < BUFFER_BYTES_LIMIT }
    ensures ok { IfOk result (Fills buffer.old.items buffer.new.items at (L.left link.old) (L.left
        link.new)) }
    ensures most { OnOk result (length buffer.new.items ≤ size) }
    ensures err { IfErr result (λ e. ((e ≡ body_fault.ReadFault) × Rose (L.read_faults link.old)
        (L.read_faults link.new)) ⊎ (e ≡ body_fault.NoMemory)) }
    ensures none { OnErr result (Consumes (L.left link.old) (L.left link.new) []) }
    ensures later { L.read_faults link.old ≤ L.read_faults link.new }
    ensures held { L.held link.new ≡ L.held link.old }
    ensures put_faults { L.put_faults link.new ≡ L.put_faults link.old }
{
    match make_room(buffer, at, size) {
        Ok(()) => read_into(link, buffer.as_mut_slice(), at),
        Err(_) => Err(BodyFault::NoMemory),
    }
}

// Reads so many bytes of the link to the end of the buffer.
fn fill<L: Link>(link: &mut L, buffer: &mut Vec<u8>, count: usize) -> Result<(), BodyFault>
    requires { length buffer.old.items + count < BUFFER_BYTES_LIMIT }
    ensures ok { OnOk result (Took (L.left link.old) (L.left link.new) (λ t. (length t ≡ count) ×
        (buffer.new.items ≡ buffer.old.items ++ t))) }
    ensures err { IfErr result (λ e. Took (L.left link.old) (L.left link.new) (λ t. Halts e ⊥ ⊥
        (length t < count) (length t) (L.left link.new) (L.read_faults link.old) (L.read_faults
        link.new))) }
    ensures below { IfErr result (IsCountBelow count) }
    ensures later { L.read_faults link.old ≤ L.read_faults link.new }
    ensures held { L.held link.new ≡ L.held link.old }
    ensures put_faults { L.put_faults link.new ≡ L.put_faults link.old }
{
    let start = buffer.len();
    let end = start + count;
    let mut at = start;
    'turn: while at < end {
        let more = match read_next(link, buffer, at, end) {
            Ok(more) => more,
            Err(fault) => return Err(fault),
        };
        if more == 0 {
            return Err(BodyFault::Ended(at - start));
        }
        at += more;
    }
    Ok(())
}

// Moves so many unread bytes to the end of the buffer. `link` is where the rest of them is read.
pub(crate) fn read_sized<L: Link>(
    link: &mut L,
    buffer: &mut Vec<u8>,
    bytes: &mut Unread,
    size: usize,
) -> Result<(), BodyFault>
    requires { length buffer.old.items + size < BUFFER_BYTES_LIMIT }
    ensures ok { OnOk result (Took (L.left link.old) (L.left link.new) (Moves size buffer.old.items
        buffer.new.items bytes.old bytes.new)) }
    ensures err { IfErr result (λ e. Took (L.left link.old) (L.left link.new) (λ t. Halts e ⊥ ⊥
        (length (bytes.old ++ t) < size) (length (bytes.old ++ t)) (L.left link.new) (L.read_faults
        link.old) (L.read_faults link.new))) }
    ensures below { IfErr result (IsCountBelow size) }
    ensures later { L.read_faults link.old ≤ L.read_faults link.new }
    ensures held { L.held link.new ≡ L.held link.old }
    ensures put_faults { L.put_faults link.new ≡ L.put_faults link.old }
{
    let count = size.min(bytes.len());
    match buffer.extend_from_slice(&bytes.as_slice()[..count]) {
        Ok(()) => bytes.skip(count),
        Err(_) => return Err(BodyFault::NoMemory),
    }
    if count == size {
        return Ok(());
    }
    match fill(link, buffer, size - count) {
        Ok(()) => Ok(()),
        Err(fault) => Err(fault.add_bytes_before(count)),
    }
}

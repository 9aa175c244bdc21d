// The command `read`: what a message is shown as, on one line.
ghost use Rattle.std.specs.Prelude.{◌≡◌, ◌≤◌, ◌<◌, ◌^◌, ℕ, List, [], ◌++◌, length, IfOk, IfErr, OnErr};
ghost use Rattle.std.specs.Io.KnownBytes.{Consumes, IsAtEnd};
ghost use Rattle.batch_lines.specs.Input.{seen};
ghost use Rattle.jmap_commands.specs.Read.{read_out};
ghost use Rattle.jmap_commands.specs.Run.{HasBegun};
ghost use Rattle.jmap_commands.specs.Endings.{Explains, Unread, Written};

use crate::arguments::Command;
use crate::ending::Ending;
use crate::message_line::build_message_line;
use jm_base::{Bytes, READ_BUFFER_BYTES};
use jm_edge::{Sink, Source, put_all};
use std::alloc::Global;

// The most bytes that a message may have.
const MAX_MESSAGE_BYTES: u64 = 50000000;

/// Reads a message to its end, and writes the line of what it is shown as.
pub(crate) fn read_message<S: Source, O: Sink>(alloc: Global, source: &mut S, out: &mut O) -> Ending
    ensures cause { Explains Command.Read result
        (seen S.left S.faults source.old source.new O.held O.faults out.old out.new) }
    ensures begun { HasBegun Command.Read
        (seen S.left S.faults source.old source.new O.held O.faults out.old out.new) }
{
    match take_message(alloc, source) {
        Ok(message) => write_message(alloc, message, out),
        Err(ending) => ending,
    }
}

// Writes the line of a message, or a prefix of it.
fn write_message<O: Sink>(alloc: Global, message: Bytes, out: &mut O) -> Ending
    ensures { Written result (O.held out.old) (O.held out.new) (O.faults out.old)
        (O.faults out.new) (read_out message) }
{
    match build_message_line(alloc, message) {
        Ok(line) => write_line(line.as_slice(), out),
        Err(_) => Ending::NoMemory,
    }
}

fn write_line<O: Sink>(line: &[u8], out: &mut O) -> Ending
    ensures { Written result (O.held out.old) (O.held out.new) (O.faults out.old)
        (O.faults out.new) line.now }
{
    match put_all(out, line) {
        Ok(()) => Ending::Done,
        Err(_) => Ending::WriteFault,
    }
}

// Returns the bytes of the input, which is read to its end.
fn take_message<S: Source>(alloc: Global, source: &mut S) -> Result<Bytes, Ending>
    ensures ok { IfOk result (λ b. Consumes (S.left source.old) (S.left source.new) b
        × (length b ≤ MAX_MESSAGE_BYTES) × IsAtEnd (S.left source.new)) }
    ensures taken { OnErr result
        ((b : List ℕ) × Consumes (S.left source.old) (S.left source.new) b) }
    ensures reason { IfErr result (λ e. Unread e (S.left source.old) (S.left source.new)
        (S.faults source.old) (S.faults source.new)) }
{
    match vec![in alloc; 0u8; READ_BUFFER_BYTES] {
        Ok(mut room) => take_reads(alloc, source, room.as_mut_slice()),
        Err(_) => Err(Ending::NoMemory),
    }
}

fn take_reads<S: Source>(alloc: Global, source: &mut S, room: &mut [u8]) -> Result<Bytes, Ending>
    requires { 0 < length room.old }
    ensures ok { IfOk result (λ b. Consumes (S.left source.old) (S.left source.new) b
        × (length b ≤ MAX_MESSAGE_BYTES) × IsAtEnd (S.left source.new)) }
    ensures taken { OnErr result
        ((b : List ℕ) × Consumes (S.left source.old) (S.left source.new) b) }
    ensures reason { IfErr result (λ e. Unread e (S.left source.old) (S.left source.new)
        (S.faults source.old) (S.faults source.new)) }
{
    let mut message = Bytes::new(alloc);
    'turns: for _turn in 0..MAX_MESSAGE_BYTES + 2 {
        let count = match source.read(room) {
            Ok(count) => count,
            Err(_) => return Err(Ending::ReadFault),
        };
        if count == 0 {
            return Ok(message);
        }
        if count as u64 > MAX_MESSAGE_BYTES - message.len() as u64 {
            return Err(Ending::TooLong);
        }
        match message.append(&room[..count]) {
            Ok(()) => {}
            Err(_) => return Err(Ending::NoMemory),
        }
    }
    Err(Ending::TooLong)
}

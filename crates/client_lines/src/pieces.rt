// Lines that wait to be written.
ghost use Rattle.std.specs.Prelude.{◌≡◌, OnErr, OnOk, string_bytes};
ghost use Rattle.std.specs.Io.KnownBytes.{Appends};
ghost use Rattle.jm_edge.specs.Causes.{HasCause};
ghost use Rattle.client_lines.specs.Pieces.{HasBegun, HasPut};

use crate::fault::PrintFault;
use crate::limits::PRINT_BUFFER_BYTES;
use jm_edge::{Sink, put_all};

/// Writes the lines that wait. Fails with `WriteFault` if the sink fails; then a prefix was
/// written.
pub(crate) fn put_waiting<O: Sink>(waiting: &str, out: &mut O) -> Result<(), PrintFault>
    ensures ok { OnOk result (Appends (O.held out.old) (O.held out.new) waiting.now) }
    ensures err { OnErr result (HasBegun waiting.now (O.held out.old) (O.held out.new)) }
    ensures cause { HasCause (O.faults out.old) (O.faults out.new) result }
    ensures ok_count { OnOk result (O.faults out.new ≡ O.faults out.old) }
{
    match put_all(out, waiting.as_bytes()) {
        Ok(()) => Ok(()),
        Err(_) => Err(PrintFault::WriteFault),
    }
}

/// Writes the lines that wait if they are as many as the buffer is to hold. Fails with `WriteFault`
/// if the sink fails; then a prefix was written.
pub(crate) fn put_if_full<O: Sink>(waiting: &mut String, out: &mut O) -> Result<(), PrintFault>
    ensures ok { OnOk result (HasPut (string_bytes waiting.old) (string_bytes waiting.new)
        (O.held out.old) (O.held out.new)) }
    ensures err { OnErr result (HasBegun (string_bytes waiting.old) (O.held out.old)
        (O.held out.new)) }
    ensures cause { HasCause (O.faults out.old) (O.faults out.new) result }
    ensures ok_count { OnOk result (O.faults out.new ≡ O.faults out.old) }
{
    if waiting.len() < PRINT_BUFFER_BYTES {
        return Ok(());
    }
    match put_waiting(waiting.as_str(), out) {
        Ok(()) => {
            waiting.clear();
            Ok(())
        }
        Err(fault) => Err(fault),
    }
}

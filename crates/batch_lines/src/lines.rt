// The lines of an input, each answered by a line.
ghost use Rattle.std.specs.Prelude.{◌≡◌, ◌≤◌, ◌<◌, ℕ, List, [], ◌++◌, length, Ok, OnOk, OnErr, IfErr};
ghost use Rattle.std.specs.Io.KnownBytes.{Appends};
ghost use Rattle.batch_lines.specs.Pieces.{HasTakenPiece, HasBegunPiece, HasPut, HasAnsweredAndPut, HasStoppedAndPut};
ghost use Rattle.batch_lines.specs.Input.{seen, HasAnsweredInput, HasBegunInput};
ghost use Rattle.batch_lines.specs.Faults.{ExplainsFault, StopsFor};

use crate::fault::LinesFault;
use crate::limits::{MAX_INPUT_BYTES, REPLY_BUFFER_BYTES};
use crate::line::{cut_line, end_line, hold};
use crate::upload::UploadPort;
use jm_base::{Bytes, NoMemory, READ_BUFFER_BYTES};
use jm_edge::{Sink, Source, put_all};
use std::alloc::Global;

/// Answers the lines of an input until its end, over a port: each with a line, except empty ones,
/// which have none. The replies to all lines that were read are written before the next read.
///
/// If reading or writing fails, memory runs out or the input goes past `MAX_INPUT_BYTES`, the first
/// lines are answered, and what is written is a prefix of the replies.
pub fn answer_lines<P: UploadPort, S: Source, O: Sink>(
    alloc: Global,
    port: &mut P,
    source: &mut S,
    out: &mut O,
) -> Result<(), LinesFault>
    ensures ok { OnOk result (HasAnsweredInput P.answers P.uploads port.old port.new
        (seen S.left S.faults source.old source.new O.held O.faults out.old out.new)) }
    ensures cause { IfErr result (λ f. ExplainsFault P.answers P.uploads port.old port.new f
        (seen S.left S.faults source.old source.new O.held O.faults out.old out.new)) }
    ensures begun { HasBegunInput P.answers P.uploads P.stops P.halts port.old port.new
        (seen S.left S.faults source.old source.new O.held O.faults out.old out.new) }
{
    match vec![in alloc; 0u8; READ_BUFFER_BYTES] {
        Ok(mut room) => answer_reads(alloc, port, source, room.as_mut_slice(), out),
        Err(_) => Err(LinesFault::NoMemory),
    }
}

// Answers the input that is read, piece by piece. All replies to a piece are written before the
// next read. Of a piece that goes past the limit, the part within it is answered.
fn answer_reads<P: UploadPort, S: Source, O: Sink>(
    alloc: Global,
    port: &mut P,
    source: &mut S,
    room: &mut [u8],
    out: &mut O,
) -> Result<(), LinesFault>
    requires { 0 < length room.old }
    ensures ok { OnOk result (HasAnsweredInput P.answers P.uploads port.old port.new
        (seen S.left S.faults source.old source.new O.held O.faults out.old out.new)) }
    ensures cause { IfErr result (λ f. ExplainsFault P.answers P.uploads port.old port.new f
        (seen S.left S.faults source.old source.new O.held O.faults out.old out.new)) }
    ensures begun { HasBegunInput P.answers P.uploads P.stops P.halts port.old port.new
        (seen S.left S.faults source.old source.new O.held O.faults out.old out.new) }
{
    let mut line = Bytes::new(alloc);
    let mut replies = Bytes::new(alloc);
    let mut total = 0u64;
    'turns: for _turn in 0..MAX_INPUT_BYTES + 2 {
        let count = match source.read(room) {
            Ok(count) => count,
            Err(_) => return Err(LinesFault::ReadFault),
        };
        if count == 0 {
            match answer_last_line(alloc, port, &mut line, &mut replies, out) {
                Ok(()) => return Ok(()),
                Err(fault) => return Err(fault),
            }
        }
        let allowed = MAX_INPUT_BYTES - total;
        if count as u64 > allowed {
            match answer_piece(
                alloc,
                port,
                &mut line,
                &room[..allowed as usize],
                &mut replies,
                out,
            ) {
                Ok(()) => return Err(LinesFault::TooLong),
                Err(fault) => return Err(fault),
            }
        }
        total += count as u64;
        match answer_piece(alloc, port, &mut line, &room[..count], &mut replies, out) {
            Ok(()) => {}
            Err(fault) => return Err(fault),
        }
    }
    Err(LinesFault::TooLong)
}

// Answers the lines that end in a piece, and writes their replies.
fn answer_piece<P: UploadPort, O: Sink>(
    alloc: Global,
    port: &mut P,
    line: &mut Bytes,
    piece: &[u8],
    replies: &mut Bytes,
    out: &mut O,
) -> Result<(), LinesFault>
    ensures ok { OnOk result (HasTakenPiece P.answers
        P.uploads port.old port.new line.old line.new piece.now (O.held out.old) (O.held out.new)) }
    ensures err { OnErr result (HasBegunPiece P.answers P.uploads P.stops
        P.halts port.old port.new line.old piece.now (O.held out.old) (O.held out.new)) }
    ensures later { O.faults out.old ≤ O.faults out.new }
    ensures reason { IfErr result (λ e. StopsFor e (O.faults out.old) (O.faults out.new)) }
{
    replies.clear();
    let mut rest = piece;
    'lines: while let Some(cut) = cut_line(rest) {
        match answer_ended_line(alloc, port, line, cut.line, replies, out) {
            Ok(()) => rest = cut.rest,
            Err(fault) => return Err(fault),
        }
    }
    let held = hold(line, rest);
    settle(held, replies, out)
}

// Answers the line that is held and ends with these bytes. Its reply waits, until enough of them
// do.
fn answer_ended_line<P: UploadPort, O: Sink>(
    alloc: Global,
    port: &mut P,
    line: &mut Bytes,
    last: &[u8],
    replies: &mut Bytes,
    out: &mut O,
) -> Result<(), LinesFault>
    ensures ok { OnOk result (HasAnsweredAndPut P.answers
        P.uploads port.old port.new (line.old ++ last.now) replies.old replies.new
        (O.held out.old) (O.held out.new)) }
    ensures begun { OnOk result (line.new ≡ []) }
    ensures err { OnErr result (HasStoppedAndPut P.answers P.uploads P.stops
        P.halts port.old port.new (line.old ++ last.now) replies.old
        (O.held out.old) (O.held out.new)) }
    ensures later { O.faults out.old ≤ O.faults out.new }
    ensures reason { IfErr result (λ e. StopsFor e (O.faults out.old) (O.faults out.new)) }
{
    match end_line(alloc, port, line, last, replies) {
        Ok(()) => put_if_full(replies, out),
        Err(refused) => settle(Err(refused), replies, out),
    }
}

// Answers the line that the input's end ends, and writes its reply.
fn answer_last_line<P: UploadPort, O: Sink>(
    alloc: Global,
    port: &mut P,
    line: &mut Bytes,
    replies: &mut Bytes,
    out: &mut O,
) -> Result<(), LinesFault>
    ensures ok { OnOk result (HasAnsweredAndPut P.answers
        P.uploads port.old port.new line.old [] [] (O.held out.old) (O.held out.new)) }
    ensures err { OnErr result (HasStoppedAndPut P.answers P.uploads P.stops
        P.halts port.old port.new line.old [] (O.held out.old) (O.held out.new)) }
    ensures later { O.faults out.old ≤ O.faults out.new }
    ensures reason { IfErr result (λ e. StopsFor e (O.faults out.old) (O.faults out.new)) }
{
    replies.clear();
    let ended = end_line(alloc, port, line, &[], replies);
    settle(ended, replies, out)
}

// Writes the replies that wait, once they are as many as the buffer is to hold.
fn put_if_full<O: Sink>(replies: &mut Bytes, out: &mut O) -> Result<(), LinesFault>
    ensures ok { OnOk result (HasPut replies.old replies.new (O.held out.old) (O.held out.new)) }
    ensures few { OnOk result (length replies.new < REPLY_BUFFER_BYTES) }
    ensures err { OnErr result ((lost : List ℕ)
        × HasPut replies.old lost (O.held out.old) (O.held out.new)) }
    ensures later { O.faults out.old ≤ O.faults out.new }
    ensures reason { IfErr result (λ e. StopsFor e (O.faults out.old) (O.faults out.new)) }
{
    if replies.len() < REPLY_BUFFER_BYTES {
        return Ok(());
    }
    match put_all(out, replies.as_slice()) {
        Ok(()) => {
            replies.clear();
            Ok(())
        }
        Err(_) => Err(LinesFault::WriteFault),
    }
}

// Writes the replies that wait, also those before memory ran out.
fn settle<O: Sink>(
    fed: Result<(), NoMemory>,
    replies: &Bytes,
    out: &mut O,
) -> Result<(), LinesFault>
    ensures ok { OnOk result ((fed ≡ Ok tt)
        × Appends (O.held out.old) (O.held out.new) replies.now) }
    ensures err { OnErr result ((lost : List ℕ)
        × HasPut replies.now lost (O.held out.old) (O.held out.new)) }
    ensures later { O.faults out.old ≤ O.faults out.new }
    ensures reason { IfErr result (λ e. StopsFor e (O.faults out.old) (O.faults out.new)) }
{
    match put_all(out, replies.as_slice()) {
        Ok(()) => match fed {
            Ok(()) => Ok(()),
            Err(_) => Err(LinesFault::NoMemory),
        },
        Err(_) => Err(LinesFault::WriteFault),
    }
}

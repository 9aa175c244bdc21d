// Readers and writers of std as sources and sinks. A file, a terminal or a pipe does not expose its
// content to contracts.
ghost use Rattle.std.specs.Prelude.{◌≡◌};
ghost use Rattle.std.specs.Io.{ReadsAtMost, WritesAtMost};
ghost use Rattle.std.specs.Io.KnownBytes.{ReadConsumes, WriteAppends};

use jm_edge::{Failed, Sink, Source};
use std::io::{ErrorKind, Read, Write};

// Reads the next bytes. If a signal ends the call before any came, it reads again.
fn read_again<R: Read>(inner: &mut R, room: &mut [u8]) -> Result<usize, Failed>
    ensures bound { ReadsAtMost result room.new }
    ensures bytes { ReadConsumes (R.remaining inner.old) (R.remaining inner.new) result room.new }
{
    'read: for _ in 0..u64::MAX {
        match inner.read(room) {
            Ok(count) => return Ok(count),
            Err(error) => {
                if error.kind() != ErrorKind::Interrupted {
                    return Err(Failed);
                }
            }
        }
    }
    Err(Failed)
}

// Writes a prefix of the piece. If a signal ends the call before any byte was taken, it writes
// again.
fn write_again<W: Write>(inner: &mut W, piece: &[u8]) -> Result<usize, Failed>
    ensures bound { WritesAtMost result piece.now }
    ensures bytes { WriteAppends (W.contents inner.old) (W.contents inner.new) result piece.now }
{
    'write: for _ in 0..u64::MAX {
        match inner.write(piece) {
            Ok(count) => return Ok(count),
            Err(error) => {
                if error.kind() != ErrorKind::Interrupted {
                    return Err(Failed);
                }
            }
        }
    }
    Err(Failed)
}

/// A reader of std, with its faults counted.
#[derive(Drop)]
pub struct Reading<R: Drop> {
    inner: R,
    faults: u64,
}

impl<R: Read + Drop> Reading<R> {
    /// Returns the reader as a source that has not failed yet.
    pub fn new(inner: R) -> Reading<R>
        ensures reader { result.inner ≡ inner }
        ensures faults { result.faults ≡ 0 }
    {
        Reading { inner, faults: 0 }
    }
}

impl<R: Read + Drop> Source for Reading<R> {
    ghost left = { λ s. R.remaining s.inner };

    ghost faults = { λ s. s.faults };

    fn read(&mut self, room: &mut [u8]) -> Result<usize, Failed> {
        match read_again(&mut self.inner, room) {
            Ok(count) => Ok(count),
            Err(_) => {
                self.faults = self.faults.saturating_add(1);
                Err(Failed)
            }
        }
    }
}

/// A writer of std, with its faults counted. A writer that takes nothing of a piece that is not
/// empty has failed.
#[derive(Drop)]
pub struct Writing<W: Drop> {
    inner: W,
    faults: u64,
}

impl<W: Write + Drop> Writing<W> {
    /// Returns the writer as a sink that has not failed yet.
    pub fn new(inner: W) -> Writing<W>
        ensures writer { result.inner ≡ inner }
        ensures faults { result.faults ≡ 0 }
    {
        Writing { inner, faults: 0 }
    }
}

impl<W: Write + Drop> Sink for Writing<W> {
    ghost held = { λ s. W.contents s.inner };

    ghost faults = { λ s. s.faults };

    fn put(&mut self, piece: &[u8]) -> Result<usize, Failed> {
        match write_again(&mut self.inner, piece) {
            Ok(count) => {
                if count == 0 && !piece.is_empty() {
                    self.faults = self.faults.saturating_add(1);
                    return Err(Failed);
                }
                Ok(count)
            }
            Err(_) => {
                self.faults = self.faults.saturating_add(1);
                Err(Failed)
            }
        }
    }
}

// Calls that fail in a run.
use crate::expand::read_number;
use crate::lines::split_at_byte;
use jm_base::{NoMemory, Numbers};
use std::alloc::Global;

/// The calls that fail in a run, each counted from 1 among those of its kind, and 0 where none does:
/// reads of the input, writes of the output that is compared, writes of standard output of `serve`
/// and of the error output, loads of each account, and listening.
#[derive(Clone, Copy, Debug)]
pub(crate) struct Fails {
    pub(crate) read: u64,
    pub(crate) write: u64,
    pub(crate) out: u64,
    pub(crate) error: u64,
    pub(crate) load: u64,
    pub(crate) listen: u64,
}

/// No call fails.
pub(crate) const NO_FAILS: Fails = Fails {
    read: 0,
    write: 0,
    out: 0,
    error: 0,
    load: 0,
    listen: 0,
};

impl Fails {
    /// Sets that the call of this kind and number fails. Returns whether there is such a kind.
    pub(crate) fn set(&mut self, text: &[u8]) -> bool {
        let (kind, digits) = split_at_byte(text, b' ');
        let Some(number) = read_number(digits) else {
            return false;
        };
        self.set_stream(kind, number) || self.set_of_world(kind, number)
    }

    fn set_stream(&mut self, kind: &[u8], number: u64) -> bool {
        if kind == b"read".as_slice() {
            self.read = number;
            return true;
        }
        if kind == b"write".as_slice() {
            self.write = number;
            return true;
        }
        if kind == b"error".as_slice() {
            self.error = number;
            return true;
        }
        false
    }

    fn set_of_world(&mut self, kind: &[u8], number: u64) -> bool {
        if kind == b"out".as_slice() {
            self.out = number;
            return true;
        }
        if kind == b"load".as_slice() {
            self.load = number;
            return true;
        }
        if kind == b"listen".as_slice() {
            self.listen = number;
            return number == 1;
        }
        false
    }
}

/// Returns the list of the one call of this number, or of none where it is 0.
pub(crate) fn list_call(alloc: Global, number: u64) -> Result<Numbers, NoMemory> {
    let mut calls = Numbers::new(alloc);
    if number > 0 {
        calls.push(number)?;
    }
    Ok(calls)
}

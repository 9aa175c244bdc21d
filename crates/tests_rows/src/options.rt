// How a row is run, and how its run is to end.
use crate::expand::{expand, read_number};
use crate::fails::{Fails, NO_FAILS};
use crate::fault::Fault;
use crate::kept_rows::{KeptRow, read_codes};
use crate::lines::{Line, split_at_byte};
use crate::requests::Kind;
use jm_base::{Bytes, NoMemory};
use std::alloc::Global;

// A configuration of one user with one account.
const CONFIG: &str =
    "{\"users\":[{\"accounts\":[{\"id\":\"A1\",\"name\":\"Mail\",\"readOnly\":false}],\"name\":\"ann\",\"token\":\"t\"}]}";

/// The command line, the status and the texts that are wanted, the configuration, the timestamp that
/// the clock shows, the rows that keepers hold before the run and those that they are to hold after it, which calls fail, how many
/// bytes a read gets at most, and whether the row is run with its input cut and shortened too. What is not said
/// has its default.
#[derive(Drop)]
pub(crate) struct Options {
    kind: Kind,
    pub(crate) arguments: Bytes,
    pub(crate) status: u8,
    pub(crate) error: Bytes,
    pub(crate) out: Bytes,
    pub(crate) config: Bytes,
    pub(crate) clock: u64,
    pub(crate) kept: Vec<KeptRow>,
    pub(crate) left: Vec<KeptRow>,
    pub(crate) fails: Fails,
    pub(crate) piece: usize,
    pub(crate) is_cut: bool,
    pub(crate) is_shortened: bool,
    says_out: bool,
}

// Replaces a text.
fn set_text(text: &mut Bytes, value: &[u8]) -> Result<(), NoMemory> {
    text.clear();
    text.append(value)
}

// Replaces a text by a line.
fn set_line(text: &mut Bytes, value: &[u8]) -> Result<(), NoMemory> {
    set_text(text, value)?;
    text.append(b"\n")
}

fn read_status(number: u64, value: &[u8]) -> Result<u8, Fault> {
    match read_number(value) {
        Some(status) => match u8::try_from(status) {
            Ok(status) => Ok(status),
            Err(_) => Err(Fault::Line(number, "no exit status")),
        },
        None => Err(Fault::Line(number, "no exit status")),
    }
}

fn read_timestamp(number: u64, value: &[u8]) -> Result<u64, Fault> {
    match read_number(value) {
        Some(time) => Ok(time),
        None => Err(Fault::Line(number, "no timestamp")),
    }
}

fn read_piece(number: u64, value: &[u8]) -> Result<usize, Fault> {
    match read_number(value) {
        Some(size) => match usize::try_from(size) {
            Ok(size) => Ok(size),
            Err(_) => Err(Fault::Line(number, "no size")),
        },
        None => Err(Fault::Line(number, "no size")),
    }
}

fn read_kept(alloc: Global, number: u64, value: &[u8]) -> Result<KeptRow, Fault> {
    let (account, codes) = split_at_byte(value, b' ');
    match read_codes(alloc, codes)? {
        Some(row) => Ok(KeptRow {
            account: Bytes::from_slice(alloc, account)?,
            row,
        }),
        None => Err(Fault::Line(number, "no bytes of the format")),
    }
}

impl Options {
    /// Returns the defaults.
    pub(crate) fn build(alloc: Global, kind: Kind) -> Result<Options, NoMemory> {
        let mut options = Options {
            kind,
            arguments: Bytes::new(alloc),
            status: 0,
            error: Bytes::new(alloc),
            out: Bytes::new(alloc),
            config: Bytes::new(alloc),
            clock: 0,
            kept: Vec::new(alloc),
            left: Vec::new(alloc),
            fails: NO_FAILS,
            piece: usize::MAX,
            is_cut: false,
            is_shortened: false,
            says_out: false,
        };
        set_text(&mut options.arguments, kind.default_arguments().as_bytes())?;
        set_text(&mut options.config, CONFIG.as_bytes())?;
        Ok(options)
    }

    // Sets what only a row over a world has. Returns whether there is such an option.
    fn set_for_world(
        &mut self,
        alloc: Global,
        number: u64,
        name: &[u8],
        value: &[u8],
    ) -> Result<bool, Fault> {
        if self.kind != Kind::Connection {
            return Ok(false);
        }
        if name == b"config".as_slice() {
            set_text(&mut self.config, value)?;
            return Ok(true);
        }
        if name == b"clock".as_slice() {
            self.clock = read_timestamp(number, value)?;
            return Ok(true);
        }
        if name == b"short".as_slice() {
            self.is_shortened = true;
            return Ok(value.is_empty());
        }
        if name == b"out".as_slice() {
            set_line(&mut self.out, value)?;
            self.says_out = true;
            return Ok(true);
        }
        if name == b"kept".as_slice() {
            self.kept.push(read_kept(alloc, number, value)?)?;
            return Ok(true);
        }
        if name == b"leaves".as_slice() {
            self.left.push(read_kept(alloc, number, value)?)?;
            return Ok(true);
        }
        Ok(false)
    }

    // Sets how the input comes. Returns whether there is such an option.
    fn set_input(&mut self, number: u64, name: &[u8], value: &[u8]) -> Result<bool, Fault> {
        if name == b"cut".as_slice() {
            self.is_cut = true;
            return Ok(value.is_empty());
        }
        if name == b"pieces".as_slice() {
            self.piece = read_piece(number, value)?;
            return Ok(true);
        }
        Ok(false)
    }

    // Sets an option. Returns whether there is such a one.
    fn set(
        &mut self,
        alloc: Global,
        number: u64,
        name: &[u8],
        value: &[u8],
    ) -> Result<bool, Fault> {
        if name == b"arguments".as_slice() {
            set_text(&mut self.arguments, value)?;
            return Ok(true);
        }
        if name == b"status".as_slice() {
            self.status = read_status(number, value)?;
            return Ok(true);
        }
        if name == b"error".as_slice() {
            set_line(&mut self.error, value)?;
            return Ok(true);
        }
        if name == b"fails".as_slice() {
            return Ok(self.fails.set(value));
        }
        if self.set_input(number, name, value)? {
            return Ok(true);
        }
        self.set_for_world(alloc, number, name, value)
    }

    /// Takes what a line sets.
    pub(crate) fn add(&mut self, alloc: Global, line: &Line<'_>) -> Result<(), Fault> {
        let (name, rest) = split_at_byte(line.text, b' ');
        let value = expand(alloc, line.number, rest)?;
        if self.set(alloc, line.number, name, value.as_slice())? {
            Ok(())
        } else {
            Err(Fault::Line(line.number, "no setting of the format"))
        }
    }

    /// Ends the settings: the output of a row over a world that says none is that one connection
    /// was served, if the status is 0.
    pub(crate) fn finish(&mut self) -> Result<(), NoMemory> {
        if self.kind == Kind::Connection && !self.says_out && self.status == 0 {
            return set_line(&mut self.out, b"served 1");
        }
        Ok(())
    }
}

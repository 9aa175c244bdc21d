// A world in memory: one configuration, one connection, and keepers that begin with given rows.
ghost use Rattle.std.specs.Prelude.{◌≡◌, IfOk};

use crate::fails::{Fails, list_call};
use crate::kept_rows::KeptRow;
use jm_base::{Bytes, NoMemory, Numbers, Rows, Text};
use jm_edge::{EdgeFault, MemoryClock, MemoryLink, MemorySink, MemorySource, NoGate};
use jmap_server::{Finished, World};
use keep_port::{Keeper, Kept, MemoryKeeper};
use std::alloc::Global;

// A keeper in memory that counts how often its `load` has failed. Contracts don't know what it
// keeps.
#[derive(Drop)]
pub(crate) struct RowKeeper {
    memory: MemoryKeeper,
    pub(crate) load_faults: u64,
}

impl RowKeeper {
    // Returns a keeper of these rows whose load of this number fails, or none where it is 0.
    fn new(alloc: Global, rows: Rows, load: u64) -> Result<RowKeeper, NoMemory>
        ensures { IfOk result (λ k. k.load_faults ≡ 0) }
    {
        let loads = list_call(alloc, load)?;
        let kept = Kept { base: None, rows };
        let none = Numbers::new(alloc);
        Ok(RowKeeper {
            memory: MemoryKeeper::build_failing(alloc, kept, loads, none, Numbers::new(alloc)),
            load_faults: 0,
        })
    }
}

impl Keeper for RowKeeper {
    ghost use Rattle.std.specs.Prelude.{None};

    ghost kept = { λ _. None };

    ghost image = { λ _ _. ⊥ };

    ghost load_faults = { λ k. k.load_faults };

    ghost append_faults = { λ k. k.memory.appends.faults };

    ghost replace_faults = { λ k. k.memory.replaces.faults };

    fn load(&mut self, alloc: Global) -> Result<Kept, EdgeFault> {
        match self.memory.load(alloc) {
            Ok(kept) => Ok(kept),
            Err(EdgeFault::Failed) => {
                self.load_faults = self.load_faults.saturating_add(1);
                Err(EdgeFault::Failed)
            }
            Err(EdgeFault::NoMemory) => Err(EdgeFault::NoMemory),
        }
    }

    fn append(&mut self, alloc: Global, row: &[u8]) -> Result<(), EdgeFault> {
        self.memory.append(alloc, row)
    }

    fn replace(&mut self, alloc: Global, whole: &Kept) -> Result<(), EdgeFault> {
        self.memory.replace(alloc, whole)
    }
}

/// An input: its bytes, how many of them the first read gets at most, and each other one.
#[derive(Clone, Copy)]
pub(crate) struct Input<'a> {
    pub(crate) bytes: &'a [u8],
    pub(crate) first: usize,
    pub(crate) most: usize,
}

/// The input without a byte.
pub(crate) const NOTHING: Input<'static> = Input {
    bytes: b"",
    first: 1,
    most: 1,
};

/// Returns these bytes as an input that one read may get whole.
pub(crate) fn whole(bytes: &[u8]) -> Input<'_> {
    Input {
        bytes,
        first: usize::MAX,
        most: usize::MAX,
    }
}

/// What a world in memory gives: the configuration, the timestamp that its clocks show, the rows that keepers begin with, the input of
/// the connection, and which calls fail.
#[derive(Clone, Copy)]
pub(crate) struct Setting<'a> {
    pub(crate) config: &'a [u8],
    pub(crate) clock: u64,
    pub(crate) kept: &'a [KeptRow],
    pub(crate) input: Input<'a>,
    pub(crate) fails: Fails,
}

/// A world of this setting, what was written to the connection and what keepers hold, once they came
/// back, and how often it failed itself and keepers failed to load.
#[derive(Drop)]
pub(crate) struct RowWorld<'a> {
    alloc: Global,
    setting: Setting<'a>,
    written: Bytes,
    left: Vec<KeptRow>,
    faults: u64,
    load_faults: u64,
}

impl<'a> RowWorld<'a> {
    pub(crate) fn new(alloc: Global, setting: Setting<'a>) -> RowWorld<'a> {
        RowWorld {
            alloc,
            setting,
            written: Bytes::new(alloc),
            left: Vec::new(alloc),
            faults: 0,
            load_faults: 0,
        }
    }

    /// Returns what was written to the connection, and what keepers hold.
    pub(crate) fn into_parts(self) -> (Bytes, Vec<KeptRow>) {
        let RowWorld { written, left, .. } = self;
        (written, left)
    }
}

/// Returns a source of this input whose read of this number fails, or none where it is 0.
pub(crate) fn build_source(
    alloc: Global,
    input: Input<'_>,
    read: u64,
) -> Result<MemorySource, NoMemory> {
    let mut sizes = Numbers::new(alloc);
    sizes.push(input.first as u64)?;
    let bytes = Bytes::from_slice(alloc, input.bytes)?;
    let fails = list_call(alloc, read)?;
    Ok(MemorySource::build_in_sizes(bytes.into_vec(), sizes, input.most, fails))
}

// Returns the rows of an account.
fn collect_rows(alloc: Global, kept: &[KeptRow], account: &[u8]) -> Result<Rows, NoMemory> {
    let mut rows = Rows::new(alloc);
    for one in kept {
        if one.account.as_slice() == account {
            rows.push(Bytes::from_slice(alloc, one.row.as_slice())?)?;
        }
    }
    Ok(rows)
}

// Adds copies of the rows of an account. Where memory runs out, rows are missing.
fn add_rows(
    alloc: Global,
    out: &mut Vec<KeptRow>,
    account: &[u8],
    rows: &[Bytes],
) -> Result<(), NoMemory> {
    for row in rows {
        out.push(KeptRow {
            account: Bytes::from_slice(alloc, account)?,
            row: Bytes::from_slice(alloc, row.as_slice())?,
        })?;
    }
    Ok(())
}

impl<'a> World for RowWorld<'a> {
    ghost use Rattle.std.specs.Prelude.{None, ◌≡◌, ◌∷◌, []};
    ghost use Rattle.jmap_server.specs.Deeds.{GotLine, IsTold};

    type Keep = RowKeeper;

    type Line = MemoryLink;

    type Time = MemoryClock;

    type Hold = NoGate;

    ghost told = { λ _. None };

    ghost faults = { λ w. w.faults };

    ghost load_faults = { λ w. w.load_faults };

    fn text(&mut self, alloc: Global, _name: &Text) -> Result<Bytes, EdgeFault> {
        Ok(Bytes::from_slice(alloc, self.setting.config)?)
    }

    fn keeper(
        &mut self,
        alloc: Global,
        _folder: &Text,
        account: &Text,
    ) -> Result<RowKeeper, EdgeFault> {
        let rows = collect_rows(alloc, self.setting.kept, account.as_bytes())?;
        Ok(RowKeeper::new(alloc, rows, self.setting.fails.load)?)
    }

    fn listen(&mut self, _alloc: Global, _port: u16) -> Result<(), EdgeFault> {
        if self.setting.fails.listen == 0 {
            return Ok(());
        }
        self.faults = self.faults.saturating_add(1);
        Err(EdgeFault::Failed)
    }

    fn line(&mut self, alloc: Global) -> Result<MemoryLink, EdgeFault> {
        let fails = self.setting.fails;
        let source = build_source(alloc, self.setting.input, fails.read)?;
        let sink = MemorySink::build_failing(alloc, list_call(alloc, fails.write)?);
        Ok(MemoryLink::new(source, sink))
    }

    fn clock(&mut self) -> MemoryClock {
        MemoryClock::new(Numbers::new(self.alloc), self.setting.clock)
    }

    fn gate(&mut self) -> NoGate {
        NoGate
    }

    fn return_line(&mut self, finished: Finished<MemoryLink>)
        ensures told { IsTold {K = Unit {0}} {C = Unit {0}} None None (GotLine finished ∷ []) }
        ensures count { self.new.faults ≡ self.old.faults }
        ensures load_count { self.new.load_faults ≡ self.old.load_faults }
    {
        let _ = self.written.append(finished.line.bytes());
    }

    fn return_keeper(&mut self, account: &Text, keeper: RowKeeper) {
        self.load_faults = self.load_faults.saturating_add(keeper.load_faults);
        let _ = add_rows(
            self.alloc,
            &mut self.left,
            account.as_bytes(),
            keeper.memory.kept().rows.as_slice(),
        );
    }
}

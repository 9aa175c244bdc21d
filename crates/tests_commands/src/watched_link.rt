// A link in memory that gives a sign when it is finished: nothing more is written to it.
use crate::waiting_gate::Signs;
use jm_base::{Bytes, NoMemory};
use jm_edge::{Failed, Link, MemoryLink, MemorySocket};
use std::alloc::Global;

#[derive(Drop)]
pub(crate) struct WatchedLink<'a> {
    pub(crate) memory: MemoryLink,
    pub(crate) signs: &'a Signs,
}

impl Link for WatchedLink<'_> {
    ghost use Rattle.std.specs.Prelude.{Some};

    type Socket = MemorySocket;

    ghost left = { λ l. Some l.memory.input.left };

    ghost held = { λ l. Some l.memory.output.held };

    ghost read_faults = { λ l. l.memory.input.calls.faults };

    ghost put_faults = { λ l. l.memory.output.calls.faults };

    fn read(&mut self, room: &mut [u8]) -> Result<usize, Failed> {
        self.memory.read(room)
    }

    fn put(&mut self, piece: &[u8]) -> Result<usize, Failed> {
        self.memory.put(piece)
    }

    fn finish(&mut self) {
        self.memory.finish();
        self.signs.finish();
    }

    fn upgrade(self, alloc: Global, early: Bytes) -> Result<MemorySocket, NoMemory> {
        let WatchedLink { memory, signs: _ } = self;
        memory.upgrade(alloc, early)
    }
}

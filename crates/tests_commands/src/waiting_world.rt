// A world in memory with two connections, of which the first one waits until the second one was
// answered.
use crate::memory_world::{CONFIG, RowKeeper};
use crate::waiting_gate::{Signs, WaitingGate};
use crate::watched_link::WatchedLink;
use jm_base::{Bytes, Numbers, Text};
use jm_edge::{EdgeFault, MemoryClock, MemoryLink};
use jmap_server::{Finished, World};
use std::alloc::Global;

// A request without method calls, and its response.
const REQUEST: &str =
    "POST /jmap/api HTTP/1.1\r\nHost: h\r\nAuthorization: Bearer t\r\nContent-Length: 29\r\n\r\n{\"using\":[],\"methodCalls\":[]}";

const RESPONSE: &str =
    "HTTP/1.1 200 OK\r\nContent-Type: application/json\r\nContent-Length: 41\r\nCache-Control: no-store\r\n\r\n{\"methodResponses\":[],\"sessionState\":\"0\"}";

// Each connection asks the request. The gate of the first one waits until another connection was
// finished, and the other gates let all pass.
#[derive(Drop)]
pub(crate) struct WaitingWorld<'a> {
    alloc: Global,
    signs: &'a Signs,
    gates: u64,
    answered: u64,
    load_faults: u64,
}

impl<'a> WaitingWorld<'a> {
    pub(crate) fn new(alloc: Global, signs: &'a Signs) -> WaitingWorld<'a> {
        WaitingWorld {
            alloc,
            signs,
            gates: 0,
            answered: 0,
            load_faults: 0,
        }
    }

    // Returns how many connections came back with the response.
    pub(crate) fn answered(&self) -> u64 {
        self.answered
    }
}

impl<'a> World for WaitingWorld<'a> {
    ghost use Rattle.std.specs.Prelude.{None, ◌≡◌, ◌∷◌, [], ℕ};
    ghost use Rattle.jmap_server.specs.Deeds.{GotLine, IsTold};

    type Keep = RowKeeper;

    type Line = WatchedLink<'a>;

    type Time = MemoryClock;

    type Hold = WaitingGate<'a>;

    ghost told = { λ _. None };

    ghost faults = { λ _. 0 };

    ghost load_faults = { λ w. w.load_faults };

    fn text(&mut self, alloc: Global, _name: &Text) -> Result<Bytes, EdgeFault> {
        Ok(Bytes::from_slice(alloc, CONFIG.as_bytes())?)
    }

    fn keeper(
        &mut self,
        alloc: Global,
        _folder: &Text,
        _account: &Text,
    ) -> Result<RowKeeper, EdgeFault> {
        Ok(RowKeeper::new(alloc))
    }

    fn listen(&mut self, _alloc: Global, _port: u16) -> Result<(), EdgeFault> {
        Ok(())
    }

    fn line(&mut self, alloc: Global) -> Result<WatchedLink<'a>, EdgeFault> {
        let bytes = Bytes::from_slice(alloc, REQUEST.as_bytes())?;
        Ok(WatchedLink {
            memory: MemoryLink::from_vec(alloc, bytes.into_vec()),
            signs: self.signs,
        })
    }

    fn clock(&mut self) -> MemoryClock {
        MemoryClock::new(Numbers::new(self.alloc), 0)
    }

    fn gate(&mut self) -> WaitingGate<'a> {
        let count = if self.gates == 0 { 1 } else { 0 };
        self.gates = self.gates.saturating_add(1);
        WaitingGate {
            signs: self.signs,
            count,
        }
    }

    fn return_line(&mut self, finished: Finished<WatchedLink<'a>>)
        ensures told { IsTold {K = Unit {0}} {C = Unit {0}} None None (GotLine finished.entry ∷ []) }
        ensures count { ◌≡◌ {A = ℕ} 0 0 }
        ensures load_count { self.new.load_faults ≡ self.old.load_faults }
    {
        if finished.line.memory.bytes() == RESPONSE.as_bytes() {
            self.answered = self.answered.saturating_add(1);
        }
    }

    fn return_keeper(&mut self, _account: &Text, keeper: RowKeeper) {
        self.load_faults = self.load_faults.saturating_add(keeper.load_faults);
    }
}

// The outside of a client on a host: requests by HTTP over TCP, and files. Its content is not
// exposed to contracts.
ghost use Rattle.std.specs.Prelude.{◌≡◌, ◌≤◌, ◌+◌, ◌-◌, ◌^◌, min};

use crate::HostWorld;
use crate::databases::MakesKeepers;
use host_edges::{FileShelf, TcpExchange};
use jm_base::Text;
use jm_edge::EdgeFault;
use jmap_client::ClientWorld;
use std::alloc::Global;

/// How often the exchanges and the shelves that came back have failed, and whether the shelves lock
/// their files.
#[derive(Drop)]
pub(crate) struct ClientDesk {
    pub(crate) talk_faults: u64,
    pub(crate) store_faults: u64,
    pub(crate) locks: bool,
}

impl ClientDesk {
    /// Returns counts of 0. No shelf locks its file.
    pub(crate) fn new() -> ClientDesk
        ensures talks { result.talk_faults ≡ 0 }
        ensures stores { result.store_faults ≡ 0 }
    {
        ClientDesk {
            talk_faults: 0,
            store_faults: 0,
            locks: false,
        }
    }

    // Counts the faults of an exchange that came back.
    fn add_talk(&mut self, faults: u64)
        ensures talks { self.new.talk_faults ≡ min (self.old.talk_faults + faults) (2 ^ 64 - 1) }
        ensures later { self.old.talk_faults ≤ self.new.talk_faults }
        ensures stores { self.new.store_faults ≡ self.old.store_faults }
    {
        self.talk_faults = self.talk_faults.saturating_add(faults);
    }

    // Counts the faults of a shelf that came back.
    fn add_store(&mut self, loads: u64, saves: u64)
        ensures talks { self.new.talk_faults ≡ self.old.talk_faults }
        ensures stores { self.new.store_faults
            ≡ min (self.old.store_faults + (loads + saves)) (2 ^ 64 - 1) }
        ensures later { self.old.store_faults ≤ self.new.store_faults }
    {
        self.store_faults = self
            .store_faults
            .saturating_add(loads)
            .saturating_add(saves);
    }
}

impl<M: MakesKeepers> ClientWorld for HostWorld<M> {
    ghost use Rattle.std.specs.Prelude.{None};

    type Talk = TcpExchange;

    type Store = FileShelf;

    ghost told = { λ _. None };

    ghost faults = { λ w. w.desk.faults };

    ghost talk_faults = { λ w. w.client.talk_faults };

    ghost store_faults = { λ w. w.client.store_faults };

    fn talk(
        &mut self,
        alloc: Global,
        host: &Text,
        port: u16,
        token: &Text,
    ) -> Result<TcpExchange, EdgeFault> {
        match TcpExchange::new(&self.rt, alloc, host.as_str(), port, token.as_str()) {
            Ok(talk) => Ok(talk),
            Err(_) => Err(EdgeFault::NoMemory),
        }
    }

    fn store(&mut self, alloc: Global, name: &Text) -> Result<FileShelf, EdgeFault> {
        match FileShelf::new(&self.rt, alloc, name.as_str(), self.client.locks) {
            Ok(store) => Ok(store),
            Err(_) => Err(EdgeFault::NoMemory),
        }
    }

    fn return_talk(&mut self, talk: TcpExchange) {
        self.client.add_talk(talk.count_faults());
    }

    /// Takes back a shelf, and counts how often it failed. A lock that it held is given up.
    fn return_store(&mut self, _name: &Text, store: FileShelf) {
        self.client
            .add_store(store.count_load_faults(), store.count_save_faults());
    }
}

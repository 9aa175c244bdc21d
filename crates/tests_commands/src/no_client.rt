// A client's world that gives nothing, for the commands that need none.
use jm_base::{Bytes, Text};
use jm_edge::{Answer, EdgeFault, Exchange, Shelf};
use jmap_client::ClientWorld;
use std::alloc::Global;

// An exchange that answers nothing, of which none is made.
#[derive(Drop)]
pub(crate) struct NoExchange;

impl Exchange for NoExchange {
    ghost use Rattle.std.specs.Prelude.{None};

    ghost told = { λ _. None };

    ghost faults = { λ _. 0 };

    fn ask(
        &mut self,
        _alloc: Global,
        _path: &[u8],
        _body: Option<&[u8]>,
    ) -> Result<Answer, EdgeFault> {
        Err(EdgeFault::NoMemory)
    }
}

// A shelf that keeps nothing, of which none is made.
#[derive(Drop)]
pub(crate) struct NoShelf;

impl Shelf for NoShelf {
    ghost use Rattle.std.specs.Prelude.{None};

    ghost kept = { λ _. None };

    ghost load_faults = { λ _. 0 };

    ghost save_faults = { λ _. 0 };

    fn load(&mut self, _alloc: Global) -> Result<Option<Bytes>, EdgeFault> {
        Err(EdgeFault::NoMemory)
    }

    fn save(&mut self, _alloc: Global, _bytes: &[u8]) -> Result<(), EdgeFault> {
        Err(EdgeFault::NoMemory)
    }
}

#[derive(Drop)]
pub(crate) struct NoClient;

impl ClientWorld for NoClient {
    ghost use Rattle.std.specs.Prelude.{None};

    type Talk = NoExchange;

    type Store = NoShelf;

    ghost told = { λ _. None };

    ghost faults = { λ _. 0 };

    ghost talk_faults = { λ _. 0 };

    ghost store_faults = { λ _. 0 };

    fn talk(
        &mut self,
        _alloc: Global,
        _host: &Text,
        _port: u16,
        _token: &Text,
    ) -> Result<NoExchange, EdgeFault> {
        Err(EdgeFault::NoMemory)
    }

    fn store(&mut self, _alloc: Global, _name: &Text) -> Result<NoShelf, EdgeFault> {
        Err(EdgeFault::NoMemory)
    }

    fn return_talk(&mut self, talk: NoExchange) {
        drop(talk);
    }

    fn return_store(&mut self, _name: &Text, store: NoShelf) {
        drop(store);
    }
}

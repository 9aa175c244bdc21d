// A client's world in memory, of which parts fail.
use jm_base::{Bytes, NoMemory, Numbers, Text};
use jm_edge::{Answer, EdgeFault, MemoryExchange, MemoryShelf};
use jmap_client::ClientWorld;
use std::alloc::Global;
use std::collections::VecDeque;

// The content of the file, or none if it is empty; the bodies of the answers; whether the world
// fails; and the numbers of the calls of the exchange and of saving that fail, or 0.
#[derive(Clone, Copy)]
pub(crate) struct ClientSetting {
    pub(crate) file: &'static str,
    pub(crate) answers: &'static [&'static str],
    pub(crate) refuses: bool,
    pub(crate) asking: u64,
    pub(crate) saving: u64,
}

// A world that gives the exchange and the shelf of a setting, and counts what it gave and took back.
#[derive(Drop)]
pub(crate) struct MemoryClient {
    setting: ClientSetting,
    pub(crate) given: u64,
    pub(crate) back: u64,
    faults: u64,
    talks: u64,
    stores: u64,
}

impl MemoryClient {
    // Returns the world of a setting.
    pub(crate) fn new(setting: ClientSetting) -> MemoryClient {
        MemoryClient {
            setting,
            given: 0,
            back: 0,
            faults: 0,
            talks: 0,
            stores: 0,
        }
    }
}

// Returns the number, or none where it is 0.
pub(crate) fn make_numbers(alloc: Global, number: u64) -> Result<Numbers, NoMemory> {
    let mut numbers = Numbers::new(alloc);
    if number > 0 {
        numbers.push(number)?;
    }
    Ok(numbers)
}

fn make_file(alloc: Global, file: &str) -> Result<Option<Bytes>, NoMemory> {
    if file.is_empty() {
        return Ok(None);
    }
    Ok(Some(Bytes::from_slice(alloc, file.as_bytes())?))
}

fn make_answers(alloc: Global, answers: &[&str]) -> Result<VecDeque<Answer>, NoMemory> {
    let mut coming = VecDeque::new(alloc);
    for body in answers {
        coming.push_back(Answer {
            status: 200,
            body: Bytes::from_slice(alloc, body.as_bytes())?,
        })?;
    }
    Ok(coming)
}

impl ClientWorld for MemoryClient {
    ghost use Rattle.std.specs.Prelude.{None};

    type Talk = MemoryExchange;

    type Store = MemoryShelf;

    ghost told = { λ _. None };

    ghost faults = { λ w. w.faults };

    ghost talk_faults = { λ w. w.talks };

    ghost store_faults = { λ w. w.stores };

    fn talk(
        &mut self,
        alloc: Global,
        _host: &Text,
        _port: u16,
        _token: &Text,
    ) -> Result<MemoryExchange, EdgeFault> {
        let coming = make_answers(alloc, self.setting.answers)?;
        let fails = make_numbers(alloc, self.setting.asking)?;
        self.given = self.given.saturating_add(1);
        Ok(MemoryExchange::build_failing(alloc, coming, fails))
    }

    fn store(&mut self, alloc: Global, _name: &Text) -> Result<MemoryShelf, EdgeFault> {
        if self.setting.refuses {
            self.faults = self.faults.saturating_add(1);
            return Err(EdgeFault::Failed);
        }
        let file = make_file(alloc, self.setting.file)?;
        let loads = Numbers::new(alloc);
        let saves = make_numbers(alloc, self.setting.saving)?;
        self.given = self.given.saturating_add(1);
        Ok(MemoryShelf::build_failing(file, loads, saves))
    }

    fn return_talk(&mut self, talk: MemoryExchange) {
        self.talks = self.talks.saturating_add(talk.calls().faults());
        self.back = self.back.saturating_add(1);
    }

    fn return_store(&mut self, _name: &Text, store: MemoryShelf) {
        let faults = store
            .loads()
            .faults()
            .saturating_add(store.saves().faults());
        self.stores = self.stores.saturating_add(faults);
        self.back = self.back.saturating_add(1);
    }
}

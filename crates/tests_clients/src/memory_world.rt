// A client's world in memory, of which parts fail.
use jm_base::{Bytes, NoMemory, Numbers, Text};
use jm_edge::{Answer, EdgeFault, MemoryExchange, MemoryShelf};
use jmap_client::ClientWorld;
use std::alloc::Global;
use std::collections::VecDeque;

/// The content of the file, or none if it is empty; the bodies of the answers; which call of the
/// world fails: 1 that for the shelf, 2 that for the exchange; and the numbers of the calls of the
/// exchange, of loading and of saving that fail, or 0.
#[derive(Clone, Copy)]
pub(crate) struct Setting {
    pub(crate) file: &'static str,
    pub(crate) answers: &'static [&'static str],
    pub(crate) refuses: u64,
    pub(crate) asking: u64,
    pub(crate) loading: u64,
    pub(crate) saving: u64,
}

/// A world that gives the exchange and the shelf of a setting, and says what it gave and took back.
/// The file of every name is the one that came back last.
#[derive(Drop)]
pub(crate) struct ClientDesk {
    alloc: Global,
    setting: Setting,
    file: Option<Bytes>,
    deeds: String,
    faults: u64,
    talks: u64,
    stores: u64,
}

/// Returns the number, or none where it is 0.
pub(crate) fn make_numbers(alloc: Global, number: u64) -> Result<Numbers, NoMemory> {
    let mut numbers = Numbers::new(alloc);
    if number > 0 {
        numbers.push(number)?;
    }
    Ok(numbers)
}

fn make_file(alloc: Global, file: &str) -> Result<Option<Bytes>, NoMemory> {
    if file.is_empty() {
        return Ok(None);
    }
    Ok(Some(Bytes::from_slice(alloc, file.as_bytes())?))
}

// Returns a copy of a file. Where memory runs out, there is none.
fn copy_file(alloc: Global, file: Option<&[u8]>) -> Option<Bytes> {
    match file {
        Some(bytes) => Bytes::from_slice(alloc, bytes).ok(),
        None => None,
    }
}

fn make_answers(alloc: Global, answers: &[&str]) -> Result<VecDeque<Answer>, NoMemory> {
    let mut coming = VecDeque::new(alloc);
    for body in answers {
        coming.push_back(Answer {
            status: 200,
            body: Bytes::from_slice(alloc, body.as_bytes())?,
        })?;
    }
    Ok(coming)
}

impl ClientDesk {
    /// Returns the world of a setting.
    pub(crate) fn new(alloc: Global, setting: Setting) -> Result<ClientDesk, NoMemory> {
        Ok(ClientDesk {
            alloc,
            setting,
            file: make_file(alloc, setting.file)?,
            deeds: String::new(alloc),
            faults: 0,
            talks: 0,
            stores: 0,
        })
    }

    /// Lends what it gave and took back, a line each.
    pub(crate) fn deeds(&self) -> &str {
        self.deeds.as_str()
    }

    /// Returns how often the exchanges that came back had failed.
    pub(crate) fn talks(&self) -> u64 {
        self.talks
    }

    /// Returns how often the shelves that came back had failed.
    pub(crate) fn stores(&self) -> u64 {
        self.stores
    }
}

// Adds a line. Where memory runs out, it is missing.
fn add_line(alloc: Global, deeds: &mut String, deed: &str, name: &str) {
    if let Ok(line) = format!(in alloc; "{deed} {name}\n") {
        let _ = deeds.push_str(line.as_str());
    }
}

// Adds the line of an exchange that is given. Where memory runs out, it is missing.
fn add_talk(alloc: Global, deeds: &mut String, host: &str, port: u16, token: &str) {
    if let Ok(line) = format!(in alloc; "gave {host}:{port} {token}\n") {
        let _ = deeds.push_str(line.as_str());
    }
}

impl ClientWorld for ClientDesk {
    ghost use Rattle.std.specs.Prelude.{None};

    type Talk = MemoryExchange;

    type Store = MemoryShelf;

    ghost told = { λ _. None };

    ghost faults = { λ w. w.faults };

    ghost talk_faults = { λ w. w.talks };

    ghost store_faults = { λ w. w.stores };

    fn talk(
        &mut self,
        alloc: Global,
        host: &Text,
        port: u16,
        token: &Text,
    ) -> Result<MemoryExchange, EdgeFault> {
        if self.setting.refuses == 2 {
            self.faults = self.faults.saturating_add(1);
            return Err(EdgeFault::Failed);
        }
        let coming = make_answers(alloc, self.setting.answers)?;
        let fails = make_numbers(alloc, self.setting.asking)?;
        add_talk(alloc, &mut self.deeds, host.as_str(), port, token.as_str());
        Ok(MemoryExchange::build_failing(alloc, coming, fails))
    }

    fn store(&mut self, alloc: Global, name: &Text) -> Result<MemoryShelf, EdgeFault> {
        if self.setting.refuses == 1 {
            self.faults = self.faults.saturating_add(1);
            return Err(EdgeFault::Failed);
        }
        let loads = make_numbers(alloc, self.setting.loading)?;
        let saves = make_numbers(alloc, self.setting.saving)?;
        add_line(alloc, &mut self.deeds, "gave", name.as_str());
        Ok(MemoryShelf::build_failing(self.file.take(), loads, saves))
    }

    fn return_talk(&mut self, talk: MemoryExchange) {
        let faults = talk.calls().faults();
        self.talks = self.talks.saturating_add(faults);
        add_line(self.alloc, &mut self.deeds, "got", "talk");
    }

    fn return_store(&mut self, name: &Text, store: MemoryShelf) {
        let loads = store.loads().faults();
        let faults = loads.saturating_add(store.saves().faults());
        self.stores = self.stores.saturating_add(faults);
        self.file = copy_file(self.alloc, store.content());
        add_line(self.alloc, &mut self.deeds, "got", name.as_str());
    }
}

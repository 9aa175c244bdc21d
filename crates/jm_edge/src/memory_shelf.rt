// A shelf in memory, with lists of the calls that fail.
ghost use Rattle.std.specs.Prelude.{◌≡◌, [], Some, IfOk, option_map};
ghost use Rattle.jm_edge.specs.Causes.{IsCounted};
ghost use Rattle.jm_edge.specs.Contents.{IsContent, IsUnknownOr, content_after, content_loaded};

use crate::{Calls, EdgeFault, Shelf};
use jm_base::{Bytes, NoMemory, Numbers};
use std::alloc::Global;

/// Keeps the bytes of one file in memory, which may not exist. Its content is always known. The
/// listed calls fail, counted from 1 separately for `load` and `save`. A call that runs out of
/// memory changes nothing and is not counted.
#[derive(Drop)]
pub struct MemoryShelf {
    content: Option<Bytes>,
    loads: Calls,
    saves: Calls,
}

impl MemoryShelf {
    ghost use Rattle.jm_edge.specs.MemoryShelves.{filled};

    /// Returns a shelf of this content that never fails: of the bytes, or of none where the file
    /// does not exist.
    pub fn new(alloc: Global, content: Option<Bytes>) -> MemoryShelf
        ensures { result ≡ filled content [] [] }
    {
        MemoryShelf::build_failing(content, Numbers::new(alloc), Numbers::new(alloc))
    }

    /// Returns a shelf of this content that fails at the listed calls of `load` and `save`.
    pub fn build_failing(content: Option<Bytes>, loads: Numbers, saves: Numbers) -> MemoryShelf
        ensures { result ≡ filled content loads saves }
    {
        MemoryShelf {
            content,
            loads: Calls::new(loads),
            saves: Calls::new(saves),
        }
    }

    /// Lends the bytes, or returns none where the file does not exist.
    pub fn content(&self) -> Option<&[u8]>
        ensures { option_map (λ b. b.now) result ≡ self.now.content }
    {
        match &self.content {
            Some(bytes) => Some(bytes.as_slice()),
            None => None,
        }
    }

    /// Lends the counts of the calls of `load`.
    pub fn loads(&self) -> &Calls
        ensures { result.now ≡ self.now.loads }
    {
        &self.loads
    }

    /// Lends the counts of the calls of `save`.
    pub fn saves(&self) -> &Calls
        ensures { result.now ≡ self.now.saves }
    {
        &self.saves
    }
}

fn copy_content(alloc: Global, content: &Option<Bytes>) -> Result<Option<Bytes>, NoMemory>
    ensures { IfOk result (λ c. c ≡ content.now) }
{
    match content {
        Some(bytes) => Ok(Some(Bytes::from_slice(alloc, bytes.as_slice())?)),
        None => Ok(None),
    }
}

impl Shelf for MemoryShelf {
    ghost use Rattle.std.specs.Prelude.{Some};
    ghost use Rattle.jm_edge.specs.MemoryShelves.{Loads, Saves};

    ghost kept = { λ s. Some s.content };

    ghost load_faults = { λ s. s.loads.faults };

    ghost save_faults = { λ s. s.saves.faults };

    fn load(&mut self, alloc: Global) -> Result<Option<Bytes>, EdgeFault>
        ensures does { Loads self.old self.new result }
        ensures loaded { IfOk result (IsContent (Some self.new.content)) }
        ensures kept { IsUnknownOr (content_loaded result (Some self.old.content))
            (Some self.new.content) }
        ensures cause { IsCounted self.old.loads.faults self.new.loads.faults result }
        ensures save_count { self.new.saves.faults ≡ self.old.saves.faults }
    {
        if self.loads.fails_next() {
            self.loads.fail();
            return Err(EdgeFault::Failed);
        }
        let Ok(copy) = copy_content(alloc, &self.content) else {
            return Err(EdgeFault::NoMemory);
        };
        self.loads.pass();
        Ok(copy)
    }

    fn save(&mut self, alloc: Global, bytes: &[u8]) -> Result<(), EdgeFault>
        ensures does { Saves bytes.now self.old self.new result }
        ensures kept { IsUnknownOr (content_after result (Some (Some bytes.now))
            (Some self.old.content)) (Some self.new.content) }
        ensures cause { IsCounted self.old.saves.faults self.new.saves.faults result }
        ensures load_count { self.new.loads.faults ≡ self.old.loads.faults }
    {
        if self.saves.fails_next() {
            self.saves.fail();
            return Err(EdgeFault::Failed);
        }
        let Ok(copy) = Bytes::from_slice(alloc, bytes) else {
            return Err(EdgeFault::NoMemory);
        };
        self.content = Some(copy);
        self.saves.pass();
        Ok(())
    }
}

// What a set reports of its objects (RFC 8620, section 5.3).
ghost use Rattle.std.specs.Prelude.{◌≡◌, OnOk};
ghost use Rattle.set_parts.specs.SetErrors.{error_tree};
ghost use Rattle.set_parts.specs.Steps.{note_destroyed, note_not_destroyed, note_not_updated, note_updated, nothing_reported};

use crate::set_errors::{SetError, build_error};
use jm_base::{NoMemory, Text};
use jm_json::{Items, Json, Members};
use std::alloc::Global;

/// What is reported of the objects of a set, each by its creation id or its id.
#[derive(Drop)]
pub struct Reported {
    pub created: Members,
    pub destroyed: Items,
    pub not_created: Members,
    pub not_destroyed: Members,
    pub not_updated: Members,
    pub updated: Members,
}

/// Returns an empty report. It takes no memory.
pub fn start_report(alloc: Global) -> Reported
    ensures { result ≡ nothing_reported }
{
    Reported {
        created: Members::new(alloc),
        destroyed: Items::new(alloc),
        not_created: Members::new(alloc),
        not_destroyed: Members::new(alloc),
        not_updated: Members::new(alloc),
        updated: Members::new(alloc),
    }
}

impl Reported {
    /// Reports an update that is done.
    pub fn note_updated(&mut self, alloc: Global, id: &str) -> Result<(), NoMemory>
        ensures { OnOk result (self.new ≡ note_updated id.now self.old) }
    {
        self.updated.set(alloc, id, Json::Null)
    }

    /// Reports an update that is rejected.
    pub fn note_not_updated(
        &mut self,
        alloc: Global,
        id: &str,
        error: SetError,
    ) -> Result<(), NoMemory>
        ensures { OnOk result (self.new ≡ note_not_updated id.now (error_tree error) self.old) }
    {
        let error = build_error(alloc, error)?;
        self.not_updated.set(alloc, id, error)
    }

    /// Reports a destroy that is done.
    pub fn note_destroyed(&mut self, alloc: Global, id: &str) -> Result<(), NoMemory>
        ensures { OnOk result (self.new ≡ note_destroyed id.now self.old) }
    {
        self.destroyed.push(Json::Text(Text::from_str(alloc, id)?))
    }

    /// Reports a destroy that is rejected.
    pub fn note_not_destroyed(
        &mut self,
        alloc: Global,
        id: &str,
        error: SetError,
    ) -> Result<(), NoMemory>
        ensures { OnOk result (self.new ≡ note_not_destroyed id.now (error_tree error) self.old) }
    {
        let error = build_error(alloc, error)?;
        self.not_destroyed.set(alloc, id, error)
    }
}

// What opens a database.
ghost use Rattle.std.specs.Prelude.{◌≡◌};

use crate::opening::{CANNOT_OPEN, open_file};
use jm_base::Text;
use sqlite::{Alter, Connection, Error, File, FileStore};

/// Opens a database over a store.
pub trait Opens<S: Alter + Drop>: Drop {
    /// Opens the database, or creates it. A value that opens none fails each time.
    fn open(&self) -> Result<Connection<S>, Error>;
}

/// Opens the file at a path.
#[derive(Drop)]
pub struct AtPath {
    rt: HostRuntime,
    path: Text,
}

impl AtPath {
    /// Returns what opens the file at this path.
    pub fn new(rt: &HostRuntime, path: Text) -> AtPath
        ensures { result ≡ record { rt = rt.now; path = path } }
    {
        AtPath { rt: *rt, path }
    }
}

impl Opens<FileStore<File>> for AtPath {
    fn open(&self) -> Result<Connection<FileStore<File>>, Error> {
        open_file(&self.rt, self.path.as_str())
    }
}

/// Opens none: the connection was adopted.
#[derive(Drop)]
pub struct Adopted;

impl<S: Alter + Drop> Opens<S> for Adopted {
    fn open(&self) -> Result<Connection<S>, Error> {
        Err(CANNOT_OPEN)
    }
}

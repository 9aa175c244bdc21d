// The databases of accounts, as files of a folder, that their owner alone may read.

use jm_base::Text;
use keep_sqlite::{AtPath, Opens, SqliteKeeper};
use sha2::{Digest, Sha256};
use sqlite::{Alter, File, FileStore, Unknown};
use sqlite_std_file::OpenError;
use std::alloc::{AllocError, Global};
use std::fs::{DirBuilder, OpenOptions};
use std::io::Write;
use std::os::unix::fs::{DirBuilderExt, OpenOptionsExt};

/// The most bytes of an account's identifier that names its file. The file of a longer one has the
/// identifier's SHA-256 as its name.
pub const MAX_NAMING_ID_BYTES: usize = 200;

// The permissions of a file: its owner alone may read and write it.
const FILE_MODE: u32 = 0o600;

// The permissions of a folder: its owner alone may look into it and change it.
const FOLDER_MODE: u32 = 0o700;

/// Makes the keeper of an account that is kept in the database of a file.
pub trait MakesKeepers: Drop {
    /// What the databases are kept in.
    type Store: Alter + Drop + Send;

    /// What opens a database.
    type Opener: Opens<Self::Store> + Send;

    /// Creates the folder and the file at a path without a byte, if they are missing, so that their
    /// owner alone may read them. It is no fault if that fails: the keeper then can't open the
    /// file.
    fn prepare(&self, folder: &Text, path: &Text);

    /// Returns the keeper of the database at a path. It opens nothing.
    fn make(&self, path: Text) -> SqliteKeeper<Self::Store, Self::Opener>;

    /// Says on the standard error output why the database of an account at a path, which no keeper
    /// has open, can't be opened or read.
    fn say_why(&self, account: &Text, path: &Text);
}

/// Makes keepers of the files of the host.
#[derive(Drop)]
pub struct HostFiles {
    /// The host.
    pub rt: HostRuntime,
}

impl MakesKeepers for HostFiles {
    type Store = FileStore<File>;

    type Opener = AtPath;

    fn prepare(&self, folder: &Text, path: &Text) {
        let _ = DirBuilder::new()
            .mode(FOLDER_MODE)
            .create(&self.rt, folder.as_str());
        let _ = OpenOptions::new()
            .write(true)
            .create_new(true)
            .mode(FILE_MODE)
            .open(&self.rt, path.as_str());
    }

    fn make(&self, path: Text) -> SqliteKeeper<FileStore<File>, AtPath> {
        SqliteKeeper::open_later(&self.rt, path)
    }

    fn say_why(&self, account: &Text, path: &Text) {
        let mut err = self.rt.stderr();
        let (id, file) = (account.as_str(), path.as_str());
        let _ = match sqlite_std_file::open(&self.rt, file, Unknown) {
            Ok(_) => writeln!(
                err,
                "cannot open {id}: {file}: it is no database of an account"
            ),
            Err(OpenError::Busy) => writeln!(
                err,
                "cannot open {id}: {file}: locked by another process"
            ),
            Err(reason) => writeln!(err, "cannot open {id}: {file}: {reason}"),
        };
    }
}

// Returns the path of the database of an account in a folder.
fn build_database_path(alloc: Global, folder: &str, account: &str) -> Result<Text, AllocError> {
    if account.len() <= MAX_NAMING_ID_BYTES {
        return Ok(Text::from_string(format!(in alloc; "{folder}/{account}.sqlite")?));
    }
    let hash = hex::encode(alloc, Sha256::digest(account))?;
    let name = hash.as_str();
    Ok(Text::from_string(format!(in alloc; "{folder}/{name}.long.sqlite")?))
}

/// Returns the path of the database of an account in a folder, twice.
pub(crate) fn build_database_paths(
    alloc: Global,
    folder: &str,
    account: &str,
) -> Result<(Text, Text), AllocError> {
    let path = build_database_path(alloc, folder, account)?;
    let copy = build_database_path(alloc, folder, account)?;
    Ok((path, copy))
}

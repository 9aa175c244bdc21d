// A file of the host as a shelf. Its content is not exposed to contracts.
ghost use Rattle.std.specs.Prelude.{◌≡◌, IfOk};

use jm_base::{Bytes, NoMemory, Text};
use jm_edge::{EdgeFault, Shelf};
use std::alloc::Global;
use std::fmt::{Display, Formatter};
use std::fs::{File, OpenOptions, TryLockError};
use std::io::{ErrorKind, Write};
use std::os::unix::fs::OpenOptionsExt;
use std::time::Duration;
use std::{fmt, fs, io, thread};

/// How often a lock that another process holds is asked for, before loading has failed.
pub const MAX_LOCK_TRIES: u64 = 100;

// For how many milliseconds a lock that another process holds is waited for.
const PAUSE_MILLISECONDS: u64 = 100;

// The permissions of a file: its owner alone may read and write it.
const FILE_MODE: u32 = 0o600;

// Why the file can't be loaded or saved.
#[derive(Drop)]
enum FileFault {
    // Another process holds the lock.
    InUse,
    Unlocked(io::Error),
    Unread(io::Error),
    Unwritten(io::Error),
}

// The names of the files.
#[derive(Drop)]
struct Names {
    // The file.
    name: Text,
    // Where the new content is written first.
    new: Text,
    // What the lock is held on.
    lock: Text,
}

// A fault, and the files whose fault it is.
#[derive(Drop)]
struct Said<'a> {
    fault: &'a FileFault,
    names: &'a Names,
}

impl Display for Said<'_> {
    fn fmt<W: fmt::Write>(&self, f: &mut Formatter<W>) -> fmt::Result {
        let (name, lock) = (self.names.name.as_str(), self.names.lock.as_str());
        match self.fault {
            FileFault::InUse => write!(f, "{name} is in use"),
            FileFault::Unlocked(reason) => write!(f, "cannot lock {lock}: {reason}"),
            FileFault::Unread(reason) => write!(f, "cannot read {name}: {reason}"),
            FileFault::Unwritten(reason) => write!(f, "cannot write {name}: {reason}"),
        }
    }
}

// Returns the error of the system, if there is one.
fn find_reason(fault: &FileFault) -> Option<&io::Error> {
    match fault {
        FileFault::InUse => None,
        FileFault::Unlocked(reason) => Some(reason),
        FileFault::Unread(reason) => Some(reason),
        FileFault::Unwritten(reason) => Some(reason),
    }
}

// Returns whether memory ran out.
fn is_memory(fault: &FileFault) -> bool {
    match find_reason(fault) {
        Some(reason) => reason.kind() == ErrorKind::OutOfMemory,
        None => false,
    }
}

// Returns the folder of a file, as a path.
fn find_folder(name: &str) -> &str {
    match name.rsplit_once('/') {
        Some(("", _)) => "/",
        Some((folder, _)) => folder,
        None => ".",
    }
}

// Waits until the folder's entries are on the disk. It is no fault if that fails: the new content
// is in place.
fn sync_folder(rt: &HostRuntime, name: &str) {
    if let Ok(folder) = File::open(rt, find_folder(name)) {
        let _ = folder.sync_all();
    }
}

// Writes the bytes to a new file of this name, and waits until they are on the disk. One that a
// crash left is removed before.
fn write_new(rt: &HostRuntime, name: &str, bytes: &[u8]) -> io::Result<()> {
    let _ = fs::remove_file(rt, name);
    let mut file = OpenOptions::new()
        .write(true)
        .create_new(true)
        .mode(FILE_MODE)
        .open(rt, name)?;
    file.write_all(bytes)?;
    file.sync_all()
}

// Puts the bytes in place of the file's content. A crash leaves the old content or the new one.
fn replace(rt: &HostRuntime, names: &Names, bytes: &[u8]) -> io::Result<()> {
    let (name, new) = (names.name.as_str(), names.new.as_str());
    write_new(rt, new, bytes)?;
    fs::rename(rt, new, name)?;
    sync_folder(rt, name);
    Ok(())
}

// Replaces the file's content. After a fault nothing is left beside it.
fn save_file(rt: &HostRuntime, names: &Names, bytes: &[u8]) -> Result<(), FileFault> {
    match replace(rt, names, bytes) {
        Ok(()) => Ok(()),
        Err(reason) => {
            let _ = fs::remove_file(rt, names.new.as_str());
            Err(FileFault::Unwritten(reason))
        }
    }
}

// Opens the file that the lock is held on, and creates it if it is missing.
fn open_lock(rt: &HostRuntime, name: &str) -> io::Result<File> {
    OpenOptions::new()
        .write(true)
        .create(true)
        .mode(FILE_MODE)
        .open(rt, name)
}

// Waits for the lock.
fn wait_for_lock(rt: &HostRuntime, file: &File) -> Result<(), FileFault> {
    for _ in 0..MAX_LOCK_TRIES {
        match file.try_lock() {
            Ok(()) => return Ok(()),
            Err(TryLockError::WouldBlock) => {
                thread::sleep(rt, Duration::from_millis(PAUSE_MILLISECONDS));
            }
            Err(TryLockError::Error(reason)) => return Err(FileFault::Unlocked(reason)),
        }
    }
    Err(FileFault::InUse)
}

// Returns the file that the lock is held on, after the lock was taken.
fn take_lock(rt: &HostRuntime, names: &Names) -> Result<File, FileFault> {
    match open_lock(rt, names.lock.as_str()) {
        Ok(file) => {
            wait_for_lock(rt, &file)?;
            Ok(file)
        }
        Err(reason) => Err(FileFault::Unlocked(reason)),
    }
}

// Reads the file, if it exists.
fn read_file(rt: &HostRuntime, names: &Names) -> Result<Option<Bytes>, FileFault> {
    match fs::read(rt, names.name.as_str()) {
        Ok(bytes) => Ok(Some(Bytes::from_vec(bytes))),
        Err(reason) => {
            if reason.kind() == ErrorKind::NotFound {
                return Ok(None);
            }
            Err(FileFault::Unread(reason))
        }
    }
}

// Says what failed. It is no fault if that fails.
fn say_why(rt: &HostRuntime, names: &Names, fault: &FileFault) {
    let said = Said { fault, names };
    let _ = writeln!(rt.stderr(), "{said}");
}

/// A file as a shelf, with its faults counted. Of each fault it says the reason on the standard
/// error output.
///
/// New content is written to a new file beside it, `NAME.new`, that its owner alone may read. That
/// is brought to the disk and takes the file's place, so that a crash leaves the old content or the
/// new one.
///
/// A shelf that locks holds an exclusive lock on `NAME.lock` from its first load until it is
/// dropped. It creates that file and leaves it there. A lock that another process holds is asked
/// for [`MAX_LOCK_TRIES`] times within ten seconds; then loading has failed.
#[derive(Drop)]
pub struct FileShelf {
    rt: HostRuntime,
    names: Names,
    locks: bool,
    held: Option<File>,
    load_faults: u64,
    save_faults: u64,
}

impl FileShelf {
    /// Returns the shelf of the file of this name, which has not failed yet and opens nothing.
    /// `locks` says whether it locks the file. Fails if memory runs out.
    pub fn new(
        rt: &HostRuntime,
        alloc: Global,
        name: &str,
        locks: bool,
    ) -> Result<FileShelf, NoMemory>
        ensures loads { IfOk result (λ s. s.load_faults ≡ 0) }
        ensures saves { IfOk result (λ s. s.save_faults ≡ 0) }
    {
        let names = Names {
            name: Text::from_str(alloc, name)?,
            new: Text::from_string(format!(in alloc; "{name}.new")?),
            lock: Text::from_string(format!(in alloc; "{name}.lock")?),
        };
        Ok(FileShelf {
            rt: *rt,
            names,
            locks,
            held: None,
            load_faults: 0,
            save_faults: 0,
        })
    }

    /// Returns how often loading has failed.
    pub fn count_load_faults(&self) -> u64
        ensures { result ≡ self.now.load_faults }
    {
        self.load_faults
    }

    /// Returns how often saving has failed.
    pub fn count_save_faults(&self) -> u64
        ensures { result ≡ self.now.save_faults }
    {
        self.save_faults
    }
}

// Takes the lock, if it is to be held and is not, and reads the file, if it exists.
fn load_file(
    rt: &HostRuntime,
    names: &Names,
    locks: bool,
    held: &mut Option<File>,
) -> Result<Option<Bytes>, FileFault> {
    if locks && held.is_none() {
        *held = Some(take_lock(rt, names)?);
    }
    read_file(rt, names)
}

impl Shelf for FileShelf {
    ghost use Rattle.std.specs.Prelude.{None};

    ghost kept = { λ _. None };

    ghost load_faults = { λ s. s.load_faults };

    ghost save_faults = { λ s. s.save_faults };

    fn load(&mut self, _alloc: Global) -> Result<Option<Bytes>, EdgeFault> {
        match load_file(&self.rt, &self.names, self.locks, &mut self.held) {
            Ok(found) => Ok(found),
            Err(fault) => {
                if is_memory(&fault) {
                    return Err(EdgeFault::NoMemory);
                }
                say_why(&self.rt, &self.names, &fault);
                self.load_faults = self.load_faults.saturating_add(1);
                Err(EdgeFault::Failed)
            }
        }
    }

    fn save(&mut self, _alloc: Global, bytes: &[u8]) -> Result<(), EdgeFault> {
        match save_file(&self.rt, &self.names, bytes) {
            Ok(()) => Ok(()),
            Err(fault) => {
                if is_memory(&fault) {
                    return Err(EdgeFault::NoMemory);
                }
                say_why(&self.rt, &self.names, &fault);
                self.save_faults = self.save_faults.saturating_add(1);
                Err(EdgeFault::Failed)
            }
        }
    }
}

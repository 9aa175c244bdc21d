// A file is opened with a cache of as many pages as it has: to open it each page is checked, and
// then each row, before the rows are loaded.
ghost use Rattle.std.specs.Prelude.{IsTrue, IfOk};
ghost use Rattle.sqlite_std_file.specs.File.{file_is_usable};

use crate::creation::{NEW_PAGE_BYTES, create_if_blank};
use sqlite::{
    Connection, Error, ErrorCode, File, FileFrom, FileStore, Files, Options, Start, Unknown,
};
use sqlite_std_file::OpenError;
use std::fs;
use std::hash::{BuildHasher, RandomState};
use std::io::{self, ErrorKind, Read};

/// No database can be opened at the path.
pub const CANNOT_OPEN: Error = Error::SqliteFailure(ErrorCode::CannotOpen);

const NO_MEMORY: Error = Error::SqliteFailure(ErrorCode::OutOfMemory);

// The most bytes of pages that are kept in memory once they were read.
const MAX_CACHE_BYTES: u64 = 134_217_728;

// How many bytes of pages a log may have that are not in the file yet.
const LOG_BYTES: u64 = 4_194_304;

// The fewest bytes that a page of a database may have.
const LEAST_PAGE_BYTES: u64 = 512;

/// Opens the file at this path, or creates it. What it reads is kept in memory, up to 128 MiB.
pub fn open_file(rt: &HostRuntime, path: &str) -> Result<Connection<FileStore<File>>, Error> {
    if path == ":memory:" || path.starts_with("file:") {
        return Err(CANNOT_OPEN);
    }
    if may_be_blank(rt, path) {
        let options = choose_options(rt, path)?;
        create_if_blank(rt.alloc(), open_pair(rt, path, Unknown)?, options)?;
    }
    let options = choose_options(rt, path)?;
    match Connection::open_files(rt.alloc(), open_pair(rt, path, Unknown)?, options) {
        Ok(connection) => Ok(connection),
        Err((error, _)) => Err(error),
    }
}

// Returns whether the file is missing or has at most one page. What is no file is not opened.
fn may_be_blank(rt: &HostRuntime, path: &str) -> bool {
    match fs::metadata(rt, path) {
        Ok(found) => found.is_file() && found.len() <= NEW_PAGE_BYTES as u64,
        Err(error) => error.kind() == ErrorKind::NotFound,
    }
}

// Opens the file and its log, and creates those that are missing, without a byte.
// `start` stands for what they hold.
fn open_pair<S: Start>(rt: &HostRuntime, path: &str, start: S) -> Result<Files<FileFrom<S>>, Error>
    ensures log { IfOk result (λ files. IsTrue (file_is_usable S.Start files.log)) }
    ensures db { IfOk result (λ files. IsTrue (file_is_usable S.Start files.db)) }
{
    match sqlite_std_file::open(rt, path, start) {
        Ok(files) => Ok(files),
        Err(fault) => Err(convert_open_error(fault)),
    }
}

fn convert_open_error(fault: OpenError) -> Error {
    match fault {
        OpenError::OutOfMemory => NO_MEMORY,
        OpenError::Io(error) if error.kind() == ErrorKind::OutOfMemory => NO_MEMORY,
        _ => CANNOT_OPEN,
    }
}

fn choose_options(rt: &HostRuntime, path: &str) -> Result<Options, Error> {
    let Ok(state) = RandomState::new(rt) else {
        return Err(CANNOT_OPEN);
    };
    let mut options = Options::new(state.hash_one(&0u8));
    let page_bytes = read_page_bytes(rt, path).unwrap_or(NEW_PAGE_BYTES as u64);
    let cache_bytes = count_cache_bytes(rt, path).unwrap_or(0);
    options.cache_pages = options
        .cache_pages
        .max(count_pages(cache_bytes, page_bytes));
    options.checkpoint_frames = count_pages(LOG_BYTES, page_bytes);
    Ok(options)
}

// Returns how many bytes the file at this path and its log may have, as far as they are to be kept
// in memory. What is no file is not opened.
fn count_cache_bytes(rt: &HostRuntime, path: &str) -> io::Result<u64> {
    let found = fs::metadata(rt, path)?;
    if !found.is_file() {
        return Ok(0);
    }
    Ok(found.len().saturating_add(LOG_BYTES).min(MAX_CACHE_BYTES))
}

// Returns how many pages so many bytes are.
fn count_pages(bytes: u64, page_bytes: u64) -> usize {
    let pages = bytes.checked_div(page_bytes).unwrap_or(0);
    usize::try_from(pages).unwrap_or(0)
}

// Returns how many bytes a page of the file has, as its header says. What is no file is not opened.
fn read_page_bytes(rt: &HostRuntime, path: &str) -> io::Result<u64> {
    if !fs::metadata(rt, path)?.is_file() {
        return Ok(NEW_PAGE_BYTES as u64);
    }
    let mut head = [0u8; 18];
    let count = fs::open(rt, path)?.read(&mut head)?;
    Ok(parse_page_bytes(count, head[16], head[17]))
}

// Returns how many bytes a page has, as these two bytes of the header say if so many are there. A
// header that says too few is damaged.
fn parse_page_bytes(count: usize, high: u8, low: u8) -> u64 {
    if count < 18 {
        return NEW_PAGE_BYTES as u64;
    }
    match u64::from(high) * 256 + u64::from(low) {
        1 => 65_536,
        bytes if bytes >= LEAST_PAGE_BYTES => bytes,
        _ => NEW_PAGE_BYTES as u64,
    }
}

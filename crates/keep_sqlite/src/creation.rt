// What is no database yet is created here, with small pages: a connection would give it pages of
// 4,096 bytes, and each commit sums and writes whole pages.
ghost use Rattle.std.specs.Prelude.{IsTrue};

use sqlite::{Error, ErrorCode};
use sqlite_disk::{Disk, Files};
use sqlite_pager::{Options, Pager};
use sqlite_pool::probe_blank;
use sqlite_store::{OpenError, Unopened};
use sqlite_wal::PageSize;
use std::alloc::Global;

/// How many bytes a page of a new file has.
pub const NEW_PAGE_BYTES: usize = 1_024;

const NO_MEMORY: Error = Error::SqliteFailure(ErrorCode::OutOfMemory);

/// The disk failed, or the file met a limit of its format.
const CANNOT_CREATE: Error = Error::SqliteFailure(ErrorCode::CannotOpen);

/// Creates a database without tables in these files, if they hold none, and closes them.
pub fn create_if_blank<D: Disk + Drop>(
    alloc: Global,
    mut files: Files<D>,
    options: Options,
) -> Result<(), Error>
    requires log { IsTrue (D.Disk.is_usable files.log) }
    requires db { IsTrue (D.Disk.is_usable files.db) }
{
    let Some(size) = PageSize::new(NEW_PAGE_BYTES) else {
        return Err(CANNOT_CREATE);
    };
    match probe_blank(alloc, &mut files, size, false) {
        Ok(true) => create(alloc, files, size, options),
        Ok(false) => Ok(()),
        Err(sqlite_wal::Error::OutOfMemory) => Err(NO_MEMORY),
        Err(_) => Err(CANNOT_CREATE),
    }
}

fn create<D: Disk + Drop>(
    alloc: Global,
    files: Files<D>,
    size: PageSize,
    options: Options,
) -> Result<(), Error>
    requires log { IsTrue (D.Disk.is_usable files.log) }
    requires db { IsTrue (D.Disk.is_usable files.db) }
{
    let Ok(pager) = Pager::new(alloc, files, size, options) else {
        return Err(NO_MEMORY);
    };
    let Ok(unopened) = Unopened::new(alloc, pager, &[]) else {
        return Err(NO_MEMORY);
    };
    match unopened.create() {
        Ok(_store) => Ok(()),
        Err((error, _unopened)) => Err(convert_create_error(error)),
    }
}

fn convert_create_error(error: OpenError) -> Error {
    match error {
        OpenError::OutOfMemory => NO_MEMORY,
        _ => CANNOT_CREATE,
    }
}

// A file of the host as a shelf. What is left on the disk is looked at by std.
use host_edges::FileShelf;
use jm_base::Bytes;
use jm_edge::{EdgeFault, Shelf};
use std::alloc::Global;
use std::fs;
use std::os::unix::fs::MetadataExt;
use std::test::Fail;

const FOLDER: &str = "tests_edges_shelf";

const FILE: &str = "tests_edges_shelf/cache";

const NEW: &str = "tests_edges_shelf/cache.new";

const LOCK: &str = "tests_edges_shelf/cache.lock";

fn is_loaded(found: Result<Option<Bytes>, EdgeFault>, bytes: &[u8]) -> bool {
    match found {
        Ok(Some(found)) => found.as_slice() == bytes,
        _ => false,
    }
}

fn is_missing(found: Result<Option<Bytes>, EdgeFault>) -> bool {
    matches!(found, Ok(None))
}

fn is_refused(found: Result<Option<Bytes>, EdgeFault>) -> bool {
    matches!(found, Err(EdgeFault::Failed))
}

fn open(rt: &HostRuntime, alloc: Global, name: &str, locks: bool) -> Result<FileShelf, Fail> {
    Ok(FileShelf::new(rt, alloc, name, locks)?)
}

#[test]
fn a_shelf_keeps_a_file(rt: HostRuntime) -> Result<(), Fail> {
    let alloc = rt.alloc();
    let _ = fs::remove_dir_all(&rt, FOLDER);
    fs::create_dir(&rt, FOLDER)?;
    let mut shelf = open(&rt, alloc, FILE, false)?;
    assert!(rt; is_missing(shelf.load(alloc)));
    fs::write(&rt, NEW, b"what a crash left")?;
    assert_eq!(rt; shelf.save(alloc, b"one"), Ok(()));
    assert!(rt; is_loaded(shelf.load(alloc), b"one"));
    assert_eq!(rt; shelf.save(alloc, b"2"), Ok(()));
    assert!(rt; is_loaded(open(&rt, alloc, FILE, false)?.load(alloc), b"2"));
    assert_eq!(rt; fs::metadata(&rt, FILE)?.mode() & 0o777, 0o600);
    assert!(rt; !fs::exists(&rt, NEW)?);
    assert!(rt; !fs::exists(&rt, LOCK)?);
    fs::remove_dir_all(&rt, FOLDER)?;
    Ok(())
}

#[test]
fn a_shelf_in_no_folder_fails(rt: HostRuntime) -> Result<(), Fail> {
    let alloc = rt.alloc();
    let name = "tests_edges_nowhere/cache";
    let mut shelf = open(&rt, alloc, name, false)?;
    assert!(rt; is_missing(shelf.load(alloc)));
    assert_eq!(rt; shelf.save(alloc, b"one"), Err(EdgeFault::Failed));
    assert_eq!(rt;
        (shelf.count_load_faults(), shelf.count_save_faults()),
        (0, 1)
    );
    assert!(rt; is_refused(open(&rt, alloc, name, true)?.load(alloc)));
    assert!(rt; is_refused(open(&rt, alloc, "/", false)?.load(alloc)));
    Ok(())
}

const LOCKED_FOLDER: &str = "tests_edges_locked";

const LOCKED: &str = "tests_edges_locked/cache";

#[test]
fn a_shelf_that_locks_excludes_another_one(rt: HostRuntime) -> Result<(), Fail> {
    let alloc = rt.alloc();
    let _ = fs::remove_dir_all(&rt, LOCKED_FOLDER);
    fs::create_dir(&rt, LOCKED_FOLDER)?;
    let mut first = open(&rt, alloc, LOCKED, true)?;
    let mut second = open(&rt, alloc, LOCKED, true)?;
    let mut reader = open(&rt, alloc, LOCKED, false)?;
    assert!(rt; is_missing(first.load(alloc)));
    assert_eq!(rt; first.save(alloc, b"one"), Ok(()));
    assert!(rt; is_refused(second.load(alloc)));
    assert_eq!(rt;
        (second.count_load_faults(), second.count_save_faults()),
        (1, 0)
    );
    assert!(rt; is_loaded(reader.load(alloc), b"one"));
    assert!(rt; is_loaded(first.load(alloc), b"one"));
    drop(first);
    assert!(rt; is_loaded(second.load(alloc), b"one"));
    fs::remove_dir_all(&rt, LOCKED_FOLDER)?;
    Ok(())
}

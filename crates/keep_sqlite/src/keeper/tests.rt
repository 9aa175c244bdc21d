use super::SqliteKeeper;
use crate::{Adopted, AtPath, Opens};
use jm_base::{Bytes, NoMemory, Text};
use jm_edge::EdgeFault;
use keep_port::{Keeper, Kept};
use sqlite::{Alter, Connection, Error, File, FileStore, MemStore};
use std::alloc::Global;
use std::test::Fail;
use std::{fs, io};

const FORMAT_1: &str =
    "CREATE TABLE about (item INTEGER PRIMARY KEY, value INTEGER NOT NULL); CREATE TABLE commits (place INTEGER PRIMARY KEY, bytes BLOB NOT NULL); INSERT INTO about VALUES (1, 1);";

// each after the tables of format 1
const OTHER_FORMS: [&str; 12] = [
    "UPDATE about SET value = 2",
    "UPDATE about SET item = 2",
    "INSERT INTO about VALUES (2, 1)",
    "DELETE FROM about",
    "DROP TABLE about",
    "DROP TABLE about; CREATE TABLE about (item INTEGER, value INTEGER); INSERT INTO about VALUES (1, 1)",
    "DROP TABLE commits",
    "DROP TABLE commits; CREATE TABLE commits (place INTEGER, bytes BLOB)",
    "DROP TABLE commits; CREATE VIEW commits AS SELECT item AS place, x'61' AS bytes FROM about",
    "INSERT INTO commits VALUES (0, x'61')",
    "INSERT INTO commits VALUES (1, x'61'), (3, x'62')",
    "INSERT INTO commits VALUES (1, 'a')",
];

// each after the tables of format 1, in a file
const FORMS_IN_FILES: [&str; 4] = [
    "UPDATE about SET value = 2",
    "DROP TABLE commits; CREATE TABLE commits (place INTEGER, bytes BLOB)",
    "DROP TABLE commits; CREATE VIEW commits AS SELECT item AS place, x'61' AS bytes FROM about",
    "INSERT INTO commits VALUES (1, x'61'), (3, x'62')",
];

// each after the tables of format 1 with the rows `a` and `b`, and what takes it back
const CHANGES: [(&str, &str); 10] = [
    ("UPDATE about SET value = 2", "UPDATE about SET value = 1"),
    ("UPDATE about SET item = 2", "UPDATE about SET item = 1"),
    (
        "INSERT INTO about VALUES (2, 1)",
        "DELETE FROM about WHERE item = 2",
    ),
    ("DELETE FROM about", "INSERT INTO about VALUES (1, 1)"),
    (
        "DROP TABLE commits",
        "CREATE TABLE commits (place INTEGER PRIMARY KEY, bytes BLOB NOT NULL); INSERT INTO commits VALUES (1, x'61'), (2, x'62')",
    ),
    (
        "INSERT INTO commits VALUES (0, x'61')",
        "DELETE FROM commits WHERE place = 0",
    ),
    (
        "DELETE FROM commits WHERE place = 1",
        "INSERT INTO commits VALUES (1, x'61')",
    ),
    (
        "UPDATE commits SET place = 4 WHERE place = 2",
        "UPDATE commits SET place = 2 WHERE place = 4",
    ),
    (
        "UPDATE commits SET bytes = 'a' WHERE place = 1",
        "UPDATE commits SET bytes = x'61' WHERE place = 1",
    ),
    ("BEGIN; INSERT INTO commits VALUES (3, x'63')", "ROLLBACK"),
];

fn run<S: Alter + Drop>(mut connection: Connection<S>, text: &str) -> Result<Connection<S>, Error> {
    connection.execute_batch(text)?;
    Ok(connection)
}

// in memory, after the tables of format 1 were made and this was run
fn memory(alloc: Global, more: &str) -> Result<SqliteKeeper<MemStore, Adopted>, Error> {
    let made = run(Connection::open_in_memory(alloc)?, FORMAT_1)?;
    Ok(SqliteKeeper::adopt(run(made, more)?))
}

fn at(rt: &HostRuntime, path: &str) -> Result<SqliteKeeper<FileStore<File>, AtPath>, NoMemory> {
    Ok(SqliteKeeper::open_later(rt, Text::from_str(rt.alloc(), path)?))
}

// an empty folder
fn folder(rt: &HostRuntime, name: &str) -> io::Result<()> {
    let _ = fs::remove_dir_all(rt, name);
    fs::create_dir(rt, name)
}

fn whole(alloc: Global, rows: &[&[u8]]) -> Result<Kept, NoMemory> {
    let mut kept = Kept::new(alloc);
    for row in rows {
        kept.rows.push(Bytes::from_slice(alloc, row)?)?;
    }
    Ok(kept)
}

fn are_same(found: &[Bytes], rows: &[&[u8]]) -> bool {
    found.len() == rows.len()
        && found
            .iter()
            .zip(rows.iter())
            .all(|(one, other)| one.as_slice() == *other)
}

// whether `load` gives these rows and no base
fn holds<K: Keeper>(alloc: Global, keeper: &mut K, rows: &[&[u8]]) -> bool {
    match keeper.load(alloc) {
        Ok(kept) => kept.base.is_none() && are_same(kept.rows.as_slice(), rows),
        Err(_) => false,
    }
}

// a call and what is to come of it, or a folder that is made between calls
#[derive(Clone, Copy, Debug)]
enum Step {
    Append(&'static [u8]),
    RefusedAppend(&'static [u8]),
    Replace(&'static [&'static [u8]]),
    RefusedReplace(&'static [&'static [u8]]),
    RefusedBase(&'static [&'static [u8]]),
    Load(&'static [&'static [u8]]),
    RefusedLoad,
    Folder(&'static str),
}

use Step::{
    Append, Folder, Load, RefusedAppend, RefusedBase, RefusedLoad, RefusedReplace, Replace,
};

const REFUSED: [Step; 3] = [RefusedLoad, RefusedAppend(b"a"), RefusedReplace(&[b"a"])];

fn replaced<K: Keeper>(
    alloc: Global,
    keeper: &mut K,
    rows: &[&[u8]],
    base: Option<Bytes>,
) -> Result<(), EdgeFault> {
    let mut kept = whole(alloc, rows)?;
    kept.base = base;
    keeper.replace(alloc, &kept)
}

fn comes_of<K: Keeper>(rt: &HostRuntime, keeper: &mut K, step: Step) -> bool {
    let alloc = rt.alloc();
    match step {
        Append(row) => keeper.append(alloc, row).is_ok(),
        RefusedAppend(row) => keeper.append(alloc, row) == Err(EdgeFault::Failed),
        Replace(rows) => replaced(alloc, keeper, rows, None).is_ok(),
        RefusedReplace(rows) => replaced(alloc, keeper, rows, None) == Err(EdgeFault::Failed),
        RefusedBase(rows) => {
            replaced(alloc, keeper, rows, Some(Bytes::new(alloc))) == Err(EdgeFault::Failed)
        }
        Load(rows) => holds(alloc, keeper, rows),
        RefusedLoad => matches!(keeper.load(alloc), Err(EdgeFault::Failed)),
        Folder(name) => fs::create_dir(rt, name).is_ok(),
    }
}

fn all_come<K: Keeper>(rt: &HostRuntime, keeper: &mut K, steps: &[Step]) -> bool {
    for step in steps {
        if !comes_of(rt, keeper, *step) {
            return false;
        }
    }
    true
}

fn counts<S: Alter + Drop, O: Opens<S>>(keeper: &SqliteKeeper<S, O>) -> [u64; 3] {
    [
        keeper.load_faults,
        keeper.append_faults,
        keeper.replace_faults,
    ]
}

// whether each step comes as it says, and so many calls of `load`, `append` and `replace` were
// refused; it is closed then
fn goes<S: Alter + Drop + Send, O: Opens<S> + Send>(
    rt: &HostRuntime,
    mut keeper: SqliteKeeper<S, O>,
    steps: &[Step],
    faults: [u64; 3],
) -> bool {
    all_come(rt, &mut keeper, steps) && counts(&keeper) == faults
}

// statements that are run in the database, and the calls after them
type Turn = (&'static str, &'static [Step]);

fn all_turns_come<S: Alter + Drop + Send, O: Opens<S> + Send>(
    rt: &HostRuntime,
    keeper: &mut SqliteKeeper<S, O>,
    turns: &[Turn],
) -> bool {
    for (text, steps) in turns {
        if !keeper.database.run(text) || !all_come(rt, keeper, steps) {
            return false;
        }
    }
    true
}

fn goes_at(
    rt: &HostRuntime,
    path: &str,
    steps: &[Step],
    faults: [u64; 3],
) -> Result<bool, NoMemory> {
    let keeper = at(rt, path)?;
    Ok(goes(rt, keeper, steps, faults))
}

// over a connection that is adopted
fn goes_over<S: Alter + Drop + Send>(
    rt: &HostRuntime,
    connection: Connection<S>,
    steps: &[Step],
    faults: [u64; 3],
) -> bool {
    goes(rt, SqliteKeeper::adopt(connection), steps, faults)
}

// of a file in which `more` was run
fn goes_adopted(
    rt: &HostRuntime,
    path: &str,
    more: &str,
    steps: &[Step],
    faults: [u64; 3],
) -> Result<bool, Error> {
    let connection = run(Connection::open(rt, path)?, more)?;
    Ok(goes_over(rt, connection, steps, faults))
}

// in memory, after the tables of format 1 were made and `more` was run
fn goes_in_memory(
    rt: &HostRuntime,
    more: &str,
    steps: &[Step],
    faults: [u64; 3],
) -> Result<bool, Error> {
    let keeper = memory(rt.alloc(), more)?;
    Ok(goes(rt, keeper, steps, faults))
}

// in memory, after the tables of format 1 were made
fn goes_by_turns(rt: &HostRuntime, turns: &[Turn], faults: [u64; 3]) -> Result<bool, Error> {
    let mut keeper = memory(rt.alloc(), "")?;
    Ok(all_turns_come(rt, &mut keeper, turns) && counts(&keeper) == faults)
}

#[test]
fn two_rows_are_loaded_after_the_file_was_closed(rt: HostRuntime) -> Result<(), Fail> {
    folder(&rt, "keep_sqlite_two")?;
    let path = "keep_sqlite_two/a.sqlite";
    assert!(rt; goes_at(&rt, path, &[Append(b"first"), Append(b"")], [0; 3])?);
    assert!(rt; goes_at(&rt, path, &[Load(&[b"first", b""])], [0; 3])?);
    Ok(())
}

#[test]
fn an_empty_file_is_a_new_database(rt: HostRuntime) -> Result<(), Fail> {
    folder(&rt, "keep_sqlite_empty")?;
    fs::write(&rt, "keep_sqlite_empty/a.sqlite", b"")?;
    let steps = [Load(&[]), Append(b"a"), Load(&[b"a"])];
    assert!(rt; goes_at(&rt, "keep_sqlite_empty/a.sqlite", &steps, [0; 3])?);
    Ok(())
}

// the two bytes of a file's header that say how large its pages are
fn page_size(rt: &HostRuntime, path: &str) -> io::Result<Option<(u8, u8)>> {
    let file = fs::read(rt, path)?;
    match (file.get(16), file.get(17)) {
        (Some(high), Some(low)) => Ok(Some((*high, *low))),
        _ => Ok(None),
    }
}

#[test]
fn a_new_file_has_pages_of_1024_bytes_and_another_keeps_its_size(
    rt: HostRuntime,
) -> Result<(), Fail> {
    folder(&rt, "keep_sqlite_pages")?;
    make(
        &rt,
        "keep_sqlite_pages/old.sqlite",
        "INSERT INTO commits VALUES (1, x'61')",
    )?;
    let steps = [Load(&[b"a"]), Append(b"b"), Load(&[b"a", b"b"])];
    assert!(rt; goes_at(&rt, "keep_sqlite_pages/old.sqlite", &steps, [0; 3])?);
    assert!(rt; page_size(&rt, "keep_sqlite_pages/old.sqlite")? == Some((16, 0)));
    assert!(rt; goes_at(&rt, "keep_sqlite_pages/new.sqlite", &[Append(b"a")], [0; 3])?);
    assert!(rt; page_size(&rt, "keep_sqlite_pages/new.sqlite")? == Some((4, 0)));
    Ok(())
}

#[test]
fn two_rows_are_loaded_by_adopt(rt: HostRuntime) -> Result<(), Fail> {
    folder(&rt, "keep_sqlite_adopt")?;
    let path = "keep_sqlite_adopt/a.sqlite";
    assert!(rt;
        goes_adopted(
            &rt,
            path,
            "",
            &[Append(b"first"), Append(b"second")],
            [0; 3]
        )?
    );
    assert!(rt; goes_adopted(&rt, path, "", &[Load(&[b"first", b"second"])], [0; 3])?);
    Ok(())
}

#[test]
fn other_forms_are_refused_and_counted(rt: HostRuntime) -> Result<(), Fail> {
    for more in OTHER_FORMS {
        assert!(rt;
            goes_in_memory(&rt, more, &REFUSED, [1; 3])?,
            "after {more}"
        );
    }
    Ok(())
}

// makes a file with the tables of format 1, runs this in it, and closes it
fn make(rt: &HostRuntime, path: &str, more: &str) -> Result<(), Error> {
    let made = run(Connection::open(rt, path)?, FORMAT_1)?;
    run(made, more)?;
    Ok(())
}

// the bytes of the file in the folder of other forms, and of the log next to it
fn files_of_forms(rt: &HostRuntime) -> io::Result<(Vec<u8>, Vec<u8>)> {
    let file = fs::read(rt, "keep_sqlite_forms/a.sqlite")?;
    let log = fs::read(rt, "keep_sqlite_forms/a.sqlite-wal")?;
    Ok((file, log))
}

#[test]
fn files_of_other_forms_are_left_alone(rt: HostRuntime) -> Result<(), Fail> {
    for more in FORMS_IN_FILES {
        folder(&rt, "keep_sqlite_forms")?;
        make(&rt, "keep_sqlite_forms/a.sqlite", more)?;
        let (file, log) = files_of_forms(&rt)?;
        assert!(rt;
            goes_at(&rt, "keep_sqlite_forms/a.sqlite", &REFUSED, [1; 3])?,
            "after {more}"
        );
        let (file_after, log_after) = files_of_forms(&rt)?;
        assert!(rt; file.as_slice() == file_after.as_slice(), "after {more}");
        assert!(rt; log.as_slice() == log_after.as_slice(), "after {more}");
    }
    Ok(())
}

// what was loaded before counts for nothing then
#[test]
fn a_form_that_changed_is_refused_until_it_is_back(rt: HostRuntime) -> Result<(), Fail> {
    for (change, back) in CHANGES {
        let turns: [Turn; 3] = [
            ("", &[Append(b"a"), Append(b"b"), Load(&[b"a", b"b"])]),
            (change, &REFUSED),
            (
                back,
                &[Load(&[b"a", b"b"]), Append(b"c"), Load(&[b"a", b"b", b"c"])],
            ),
        ];
        assert!(rt; goes_by_turns(&rt, &turns, [1; 3])?, "after {change}");
    }
    Ok(())
}

#[test]
fn a_transaction_that_is_not_ended_is_left_alone(rt: HostRuntime) -> Result<(), Fail> {
    let turns: [Turn; 2] = [
        ("BEGIN; INSERT INTO commits VALUES (1, x'61')", &REFUSED),
        ("COMMIT", &[Load(&[b"a"])]),
    ];
    assert!(rt; goes_by_turns(&rt, &turns, [1; 3])?);
    Ok(())
}

#[test]
fn what_is_no_database_is_refused_and_left_alone(rt: HostRuntime) -> Result<(), Fail> {
    folder(&rt, "keep_sqlite_none")?;
    fs::write(&rt, "keep_sqlite_none/a.txt", b"no database")?;
    assert!(rt; goes_at(&rt, "keep_sqlite_none/a.txt", &REFUSED, [1; 3])?);
    assert!(rt; fs::read(&rt, "keep_sqlite_none/a.txt")?.as_slice() == b"no database".as_slice());
    // An open that is refused may leave an empty log.
    let log = fs::read(&rt, "keep_sqlite_none/a.txt-wal").unwrap_or(Vec::new(rt.alloc()));
    assert!(rt; log.is_empty());
    Ok(())
}

#[test]
fn a_path_in_no_folder_is_refused_until_there_is_one(rt: HostRuntime) -> Result<(), Fail> {
    let _ = fs::remove_dir_all(&rt, "keep_sqlite_later");
    let steps = [
        RefusedLoad,
        RefusedAppend(b"a"),
        RefusedReplace(&[b"a"]),
        Folder("keep_sqlite_later"),
        Append(b"b"),
        Load(&[b"b"]),
    ];
    assert!(rt; goes_at(&rt, "keep_sqlite_later/a.sqlite", &steps, [1; 3])?);
    Ok(())
}

fn note<S: Alter + Drop>(mut connection: Connection<S>) -> Result<i64, Error> {
    connection.query_row("SELECT n FROM note", &[])?.get(0)
}

#[test]
fn another_table_is_left_alone(rt: HostRuntime) -> Result<(), Fail> {
    folder(&rt, "keep_sqlite_other")?;
    let path = "keep_sqlite_other/a.sqlite";
    let made = "CREATE TABLE note (n INTEGER); INSERT INTO note VALUES (7)";
    assert!(rt; goes_adopted(&rt, path, made, &[Append(b"a"), Replace(&[b"b"])], [0; 3])?);
    assert!(rt; note(Connection::open(&rt, path)?)? == 7);
    Ok(())
}

#[test]
fn a_base_is_refused_and_counted(rt: HostRuntime) -> Result<(), Fail> {
    let steps = [
        Replace(&[b"a", b"b"]),
        RefusedBase(&[b"c"]),
        Append(b"d"),
        Load(&[b"a", b"b", b"d"]),
    ];
    assert!(rt; goes_in_memory(&rt, "", &steps, [0, 0, 1])?);
    Ok(())
}

// an index that takes no row twice refuses in the middle of a call
#[test]
fn a_refused_call_changes_nothing(rt: HostRuntime) -> Result<(), Fail> {
    let more = "INSERT INTO commits VALUES (1, x'61'); CREATE UNIQUE INDEX once ON commits (bytes)";
    let steps = [
        RefusedAppend(b"a"),
        RefusedReplace(&[b"b", b"c", b"b"]),
        Load(&[b"a"]),
        Append(b"b"),
        Load(&[b"a", b"b"]),
    ];
    assert!(rt; goes_in_memory(&rt, more, &steps, [0, 1, 1])?);
    Ok(())
}

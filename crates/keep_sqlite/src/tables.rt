// The two tables, created, read and written, each call in transactions of its own. A transaction
// that fails is rolled back when it is dropped.
ghost use Rattle.std.specs.Prelude.{◌≡◌, true, suc, pos, [], map, length, IsTrue, IfOk, OnOk, OnErr, IsPermutation};
ghost use Rattle.sqlite_value.specs.Order.{column};
ghost use Rattle.sqlite_value.specs.declared.value.Value.TheVariants.{Int, Blob};
ghost use Rattle.keep_sqlite.specs.Format.{our_schema, no_schema, names_format, kept_rows, shown, AreNumbered, ShowsFormat};
ghost use Rattle.sqlite.specs.Held.{state};
ghost use Rattle.sqlite.specs.State.{HasCleanDisk, IsLive, IsUnchanged, KeepsCommit, Survives};
ghost use Rattle.keep_port.specs.Keeping.{with_row};
ghost use Rattle.keep_port.specs.declared.kept.Kept.{Kept};
ghost use Rattle.keep_sqlite.specs.Telling.{Shows, Keeps, Leaves, Changes, StaysShut, IsInside, Stages, HasAbout, HasTables, AreFound, IsRead};

use crate::schema::{Form, find_form, is_ours};
use jm_base::{Bytes, Rows};
use sqlite::types::ValueRef;
use sqlite::{Alter, Connection, Error, ErrorCode, Row, Transaction};
use std::alloc::Global;
use std::collections::VecDeque;

/// The tables or their rows are not of this format.
pub const OTHER_FORM: Error = Error::SqliteFailure(ErrorCode::NotADatabase);

/// A transaction of the connection is not ended.
const BUSY: Error = Error::SqliteFailure(ErrorCode::TransactionState);

const MAKE_ABOUT: &str = "CREATE TABLE about (item INTEGER PRIMARY KEY, value INTEGER NOT NULL)";

const MAKE_COMMITS: &str = "CREATE TABLE commits (place INTEGER PRIMARY KEY, bytes BLOB NOT NULL)";

const NAME_FORMAT: &str = "INSERT INTO about (item, value) VALUES (1, 1)";

const ABOUT: &str = "SELECT item, value FROM about ORDER BY item";

const COMMITS: &str = "SELECT place, bytes FROM commits ORDER BY place";

const INSERT: &str = "INSERT INTO commits (place, bytes) VALUES (?1, ?2)";

const DELETE: &str = "DELETE FROM commits";

/// Returns the rows in the order of their numbers, the column `place`, and whether the database has
/// the two tables alone. It creates them if neither is there, and fails if any is not of this
/// format. If the database has them alone, they tell the rows.
pub fn load<S: Alter>(alloc: Global, connection: &mut Connection<S>) -> Result<(Rows, bool), Error>
    ensures found { HasCleanDisk (state S.Store connection.new)
        → IfOk result (λ it. IsTrue it.1
        → Keeps (state S.Store connection.new) (kept_rows it.0)) }
    ensures still { HasCleanDisk (state S.Store connection.new) → (k : Kept)
        → Keeps (state S.Store connection.old) k
        → IfOk result (λ it. IsTrue it.1 × (k ≡ kept_rows it.0)) }
    ensures refused { HasCleanDisk (state S.Store connection.new) → (k : Kept)
        → Keeps (state S.Store connection.old) k
        → OnErr result (IsTrue (state S.Store connection.new).is_open
        → Keeps (state S.Store connection.new) k) }
    ensures shut { StaysShut (state S.Store connection.old) (state S.Store connection.new) }
    ensures crash { Survives (state S.Store connection.old) (state S.Store connection.new)
        (λ db. IsTrue (state S.Store connection.old).is_open × ((k : Kept)
        → Keeps (state S.Store connection.old) k → Leaves db k)) }
    ensures blank { HasCleanDisk (state S.Store connection.new)
        → connection.old.schema ≡ no_schema → IfOk result (λ it. IsTrue it.1 × (it.0 ≡ [])) }
{
    let ours = prepare(connection)?;
    let found = read(connection)?;
    let rows = copy_all(alloc, found)?;
    Ok((Rows::from_vec(rows), ours))
}

// Creates the tables if neither is there, and returns whether the database has them alone. Fails if
// one is not of this format.
fn prepare<S: Alter>(connection: &mut Connection<S>) -> Result<bool, Error>
    ensures ours { IfOk result (λ ours. IsTrue ours
        → (connection.new.schema ≡ our_schema) × IsLive (state S.Store connection.new)) }
    ensures same { connection.old.schema ≡ our_schema
        → (result ≡ Ok true) × (connection.new ≡ connection.old) }
    ensures made { HasCleanDisk (state S.Store connection.new)
        → connection.old.schema ≡ no_schema → IfOk result (λ ours. IsTrue ours
        × Keeps (state S.Store connection.new) (kept_rows [])) }
    ensures refused { HasCleanDisk (state S.Store connection.new)
        → connection.old.schema ≡ no_schema → OnErr result
        (IsTrue (state S.Store connection.new).is_open
        → (state S.Store connection.new).now ≡ (state S.Store connection.old).now) }
    ensures shut { StaysShut (state S.Store connection.old) (state S.Store connection.new) }
    ensures crash { Survives (state S.Store connection.old) (state S.Store connection.new)
        (λ db. IsTrue (state S.Store connection.old).is_open
        × (connection.old.schema ≡ our_schema → ⊥)
        × (connection.old.schema ≡ no_schema → Leaves db (kept_rows []))) }
{
    match find_form(connection.schema()) {
        Form::Missing => {
            make(connection)?;
            Ok(is_ours(connection.schema()))
        }
        Form::Made => Ok(is_ours(connection.schema())),
        Form::Other => Err(OTHER_FORM),
    }
}

/// Adds a row with this number, which is to be the next one. What the tables told before, they tell
/// after an error.
pub fn append<S: Alter>(
    connection: &mut Connection<S>,
    number: u64,
    row: &[u8],
) -> Result<(), Error>
    ensures told { HasCleanDisk (state S.Store connection.new) → (k : Kept)
        → Keeps (state S.Store connection.old) k → number ≡ suc (length k.rows)
        → OnOk result (Keeps (state S.Store connection.new) (with_row row.now k)) }
    ensures refused { HasCleanDisk (state S.Store connection.new) → (k : Kept)
        → Keeps (state S.Store connection.old) k
        → OnErr result (IsTrue (state S.Store connection.new).is_open
        → Keeps (state S.Store connection.new) k) }
    ensures opened { HasCleanDisk (state S.Store connection.new)
        → OnOk result (IsTrue (state S.Store connection.old).is_open) }
    ensures shut { StaysShut (state S.Store connection.old) (state S.Store connection.new) }
    ensures crash { Survives (state S.Store connection.old) (state S.Store connection.new)
        (λ db. IsTrue (state S.Store connection.old).is_open × ((k : Kept)
        → Keeps (state S.Store connection.old) k → number ≡ suc (length k.rows)
        → Leaves db (with_row row.now k))) }
{
    if !connection.is_autocommit() {
        return Err(BUSY);
    }
    let mut tx = connection.transaction();
    insert(&mut tx, number, row)?;
    tx.commit()
}

/// Removes all rows, adds these with the numbers from 1 on, and returns the last number. What the
/// tables told before, they tell after an error.
pub fn replace<S: Alter>(connection: &mut Connection<S>, rows: &[Bytes]) -> Result<u64, Error>
    ensures count { IfOk result (λ last. last ≡ length rows.now) }
    ensures told { HasCleanDisk (state S.Store connection.new) → (k : Kept)
        → Keeps (state S.Store connection.old) k → IfOk result (λ last. (last ≡ length rows.now)
        × Keeps (state S.Store connection.new) (kept_rows rows.now)) }
    ensures refused { HasCleanDisk (state S.Store connection.new) → (k : Kept)
        → Keeps (state S.Store connection.old) k
        → OnErr result (IsTrue (state S.Store connection.new).is_open
        → Keeps (state S.Store connection.new) k) }
    ensures opened { HasCleanDisk (state S.Store connection.new)
        → OnOk result (IsTrue (state S.Store connection.old).is_open) }
    ensures shut { StaysShut (state S.Store connection.old) (state S.Store connection.new) }
    ensures crash { Survives (state S.Store connection.old) (state S.Store connection.new)
        (λ db. IsTrue (state S.Store connection.old).is_open × ((k : Kept)
        → Keeps (state S.Store connection.old) k → Leaves db (kept_rows rows.now))) }
{
    if !connection.is_autocommit() {
        return Err(BUSY);
    }
    let mut tx = connection.transaction();
    delete_all(&mut tx)?;
    let last = insert_all(&mut tx, rows)?;
    tx.commit()?;
    Ok(last)
}

// Removes all rows.
fn delete_all<S: Alter>(tx: &mut Transaction<'_, S>) -> Result<(), Error>
    ensures same_reference { tx.new.conn.ghost_name ≡ tx.old.conn.ghost_name }
    ensures told { HasCleanDisk (state S.Store tx.new.conn.now)
        → IsTrue tx.old.conn.now.in_transaction → (k : Kept)
        → Shows (state S.Store tx.old.conn.now) k
        → OnOk result (Changes (state S.Store tx.old.conn.now) (state S.Store tx.new.conn.now)
        (kept_rows [])) }
    ensures keeps { HasCleanDisk (state S.Store tx.new.conn.now)
        → IsTrue tx.old.conn.now.in_transaction
        → KeepsCommit (state S.Store tx.old.conn.now) (state S.Store tx.new.conn.now) }
    ensures inside { HasCleanDisk (state S.Store tx.new.conn.now)
        → IsTrue tx.old.conn.now.in_transaction
        → OnOk result (IsInside (state S.Store tx.old.conn.now)
        (state S.Store tx.new.conn.now)) }
    ensures crash { Survives (state S.Store tx.old.conn.now) (state S.Store tx.new.conn.now)
        (λ _. ⊥) }
{
    tx.execute(DELETE, &[])?;
    Ok(())
}

// Creates the tables, without a row.
fn make<S: Alter>(connection: &mut Connection<S>) -> Result<(), Error>
    ensures made { HasCleanDisk (state S.Store connection.new)
        → connection.old.schema ≡ no_schema
        → OnOk result (Keeps (state S.Store connection.new) (kept_rows [])) }
    ensures refused { HasCleanDisk (state S.Store connection.new)
        → connection.old.schema ≡ no_schema → OnErr result
        (IsTrue (state S.Store connection.new).is_open
        → (state S.Store connection.new).now ≡ (state S.Store connection.old).now) }
    ensures shut { StaysShut (state S.Store connection.old) (state S.Store connection.new) }
    ensures crash { Survives (state S.Store connection.old) (state S.Store connection.new)
        (λ db. IsTrue (state S.Store connection.old).is_open
        × (connection.old.schema ≡ no_schema → Leaves db (kept_rows []))) }
{
    if !connection.is_autocommit() {
        return Err(BUSY);
    }
    let mut tx = connection.transaction();
    create_about(&mut tx)?;
    create_commits(&mut tx)?;
    name_format(&mut tx)?;
    tx.commit()
}

// Creates the table `about` in a database without tables.
fn create_about<S: Alter>(tx: &mut Transaction<'_, S>) -> Result<(), Error>
    ensures same_reference { tx.new.conn.ghost_name ≡ tx.old.conn.ghost_name }
    ensures staged { HasCleanDisk (state S.Store tx.new.conn.now)
        → IsTrue tx.old.conn.now.in_transaction → tx.old.conn.now.schema ≡ no_schema
        → OnOk result (Stages (state S.Store tx.old.conn.now) (state S.Store tx.new.conn.now)
        HasAbout) }
    ensures keeps { HasCleanDisk (state S.Store tx.new.conn.now)
        → IsTrue tx.old.conn.now.in_transaction
        → KeepsCommit (state S.Store tx.old.conn.now) (state S.Store tx.new.conn.now) }
    ensures inside { HasCleanDisk (state S.Store tx.new.conn.now)
        → IsTrue tx.old.conn.now.in_transaction
        → OnOk result (IsInside (state S.Store tx.old.conn.now)
        (state S.Store tx.new.conn.now)) }
    ensures crash { Survives (state S.Store tx.old.conn.now) (state S.Store tx.new.conn.now)
        (λ _. ⊥) }
{
    tx.execute(MAKE_ABOUT, &[])?;
    Ok(())
}

// Creates the table `commits` in a database that has the table `about` alone.
fn create_commits<S: Alter>(tx: &mut Transaction<'_, S>) -> Result<(), Error>
    ensures same_reference { tx.new.conn.ghost_name ≡ tx.old.conn.ghost_name }
    ensures staged { HasCleanDisk (state S.Store tx.new.conn.now)
        → IsTrue tx.old.conn.now.in_transaction → HasAbout (state S.Store tx.old.conn.now).now
        → OnOk result (Stages (state S.Store tx.old.conn.now) (state S.Store tx.new.conn.now)
        HasTables) }
    ensures keeps { HasCleanDisk (state S.Store tx.new.conn.now)
        → IsTrue tx.old.conn.now.in_transaction
        → KeepsCommit (state S.Store tx.old.conn.now) (state S.Store tx.new.conn.now) }
    ensures inside { HasCleanDisk (state S.Store tx.new.conn.now)
        → IsTrue tx.old.conn.now.in_transaction
        → OnOk result (IsInside (state S.Store tx.old.conn.now)
        (state S.Store tx.new.conn.now)) }
    ensures crash { Survives (state S.Store tx.old.conn.now) (state S.Store tx.new.conn.now)
        (λ _. ⊥) }
{
    tx.execute(MAKE_COMMITS, &[])?;
    Ok(())
}

// Puts the row (1, 1) into the table `about`, if neither table has a row.
fn name_format<S: Alter>(tx: &mut Transaction<'_, S>) -> Result<(), Error>
    ensures same_reference { tx.new.conn.ghost_name ≡ tx.old.conn.ghost_name }
    ensures told { HasCleanDisk (state S.Store tx.new.conn.now)
        → IsTrue tx.old.conn.now.in_transaction → HasTables (state S.Store tx.old.conn.now).now
        → OnOk result (Changes (state S.Store tx.old.conn.now) (state S.Store tx.new.conn.now)
        (kept_rows [])) }
    ensures keeps { HasCleanDisk (state S.Store tx.new.conn.now)
        → IsTrue tx.old.conn.now.in_transaction
        → KeepsCommit (state S.Store tx.old.conn.now) (state S.Store tx.new.conn.now) }
    ensures inside { HasCleanDisk (state S.Store tx.new.conn.now)
        → IsTrue tx.old.conn.now.in_transaction
        → OnOk result (IsInside (state S.Store tx.old.conn.now)
        (state S.Store tx.new.conn.now)) }
    ensures crash { Survives (state S.Store tx.old.conn.now) (state S.Store tx.new.conn.now)
        (λ _. ⊥) }
{
    tx.execute(NAME_FORMAT, &[])?;
    Ok(())
}

// Returns what the table `commits` has, if the table `about` names this format.
fn read<S: Alter>(connection: &mut Connection<S>) -> Result<Vec<Row>, Error>
    ensures found { HasCleanDisk (state S.Store connection.new)
        → connection.old.schema ≡ our_schema
        → IfOk result (λ rows. AreFound (state S.Store connection.old).now.trees rows.items
        × IsRead (state S.Store connection.old) (state S.Store connection.new)) }
    ensures refused { HasCleanDisk (state S.Store connection.new) → (k : Kept)
        → Keeps (state S.Store connection.old) k
        → OnErr result (IsTrue (state S.Store connection.new).is_open
        → Keeps (state S.Store connection.new) k) }
    ensures shut { StaysShut (state S.Store connection.old) (state S.Store connection.new) }
    ensures crash { Survives (state S.Store connection.old) (state S.Store connection.new)
        (λ db. IsTrue (state S.Store connection.old).is_open
        × (connection.old.schema ≡ our_schema
        → db ≡ (state S.Store connection.old).now.trees)) }
{
    if !connection.is_autocommit() {
        return Err(BUSY);
    }
    let mut tx = connection.transaction();
    query_about(&mut tx)?;
    let found = query_commits(&mut tx)?;
    tx.commit()?;
    Ok(found)
}

// Fails unless the table `about` names this format.
fn query_about<S: Alter>(tx: &mut Transaction<'_, S>) -> Result<(), Error>
    ensures same_reference { tx.new.conn.ghost_name ≡ tx.old.conn.ghost_name }
    ensures found { HasCleanDisk (state S.Store tx.new.conn.now)
        → tx.old.conn.now.schema ≡ our_schema
        → OnOk result (IsTrue (names_format ((state S.Store tx.old.conn.now).now.trees 0))
        × IsUnchanged (state S.Store tx.old.conn.now) (state S.Store tx.new.conn.now)) }
    ensures keeps { HasCleanDisk (state S.Store tx.new.conn.now)
        → tx.old.conn.now.schema ≡ our_schema
        → OnErr result (KeepsCommit (state S.Store tx.old.conn.now)
        (state S.Store tx.new.conn.now)) }
    ensures opened { HasCleanDisk (state S.Store tx.new.conn.now)
        → OnOk result (IsTrue (state S.Store tx.old.conn.now).is_open) }
    ensures shut { StaysShut (state S.Store tx.old.conn.now) (state S.Store tx.new.conn.now) }
    ensures crash { Survives (state S.Store tx.old.conn.now) (state S.Store tx.new.conn.now)
        (λ _. ⊥) }
{
    let about = tx.query_all(ABOUT, &[])?;
    check_about(about.as_slice())
}

fn query_commits<S: Alter>(tx: &mut Transaction<'_, S>) -> Result<Vec<Row>, Error>
    ensures same_reference { tx.new.conn.ghost_name ≡ tx.old.conn.ghost_name }
    ensures found { HasCleanDisk (state S.Store tx.new.conn.now)
        → tx.old.conn.now.schema ≡ our_schema
        → IfOk result (λ rows.
        IsPermutation (map shown ((state S.Store tx.old.conn.now).now.trees 1)) rows.items
        × IsUnchanged (state S.Store tx.old.conn.now) (state S.Store tx.new.conn.now)) }
    ensures keeps { HasCleanDisk (state S.Store tx.new.conn.now)
        → tx.old.conn.now.schema ≡ our_schema
        → OnErr result (KeepsCommit (state S.Store tx.old.conn.now)
        (state S.Store tx.new.conn.now)) }
    ensures opened { HasCleanDisk (state S.Store tx.new.conn.now)
        → OnOk result (IsTrue (state S.Store tx.old.conn.now).is_open) }
    ensures shut { StaysShut (state S.Store tx.old.conn.now) (state S.Store tx.new.conn.now) }
    ensures crash { Survives (state S.Store tx.old.conn.now) (state S.Store tx.new.conn.now)
        (λ _. ⊥) }
{
    tx.query_all(COMMITS, &[])
}

fn check_about(about: &[Row]) -> Result<(), Error>
    ensures { OnOk result (ShowsFormat about.now) }
{
    match about {
        [row] => check_format(row),
        _ => Err(OTHER_FORM),
    }
}

fn check_format(row: &Row) -> Result<(), Error>
    ensures { OnOk result ((column row.now 0 ≡ Int (pos 1)) × (column row.now 1 ≡ Int (pos 1))) }
{
    let item: u64 = row.get(0)?;
    let value: u64 = row.get(1)?;
    if item == 1 && value == 1 {
        Ok(())
    } else {
        Err(OTHER_FORM)
    }
}

// Returns the bytes of the rows, whose numbers are to go from 1 on. Each row is given back to
// memory once its bytes were copied.
fn copy_all(alloc: Global, found: Vec<Row>) -> Result<Vec<Bytes>, Error>
    ensures { IfOk result (λ rows. AreNumbered 1 found.items rows.items) }
{
    let mut rows = Vec::new(alloc);
    let mut rest = VecDeque::from_vec(found);
    let mut last = 0u64;
    while let Some(row) = rest.pop_front() {
        last = find_next(last)?;
        rows.push(copy_row(&row, last)?)?;
    }
    Ok(rows)
}

fn copy_row(row: &Row, number: u64) -> Result<Bytes, Error>
    ensures { IfOk result (λ bytes. (column row.now 0 ≡ Int (pos number))
        × (column row.now 1 ≡ Blob bytes)) }
{
    let found: u64 = row.get(0)?;
    if found != number {
        return Err(OTHER_FORM);
    }
    let bytes: Vec<u8> = row.get(1)?;
    Ok(Bytes::from_vec(bytes))
}

/// Returns the number after the last one.
pub fn find_next(last: u64) -> Result<u64, Error>
    ensures { IfOk result (λ n. n ≡ suc last) }
{
    match last.checked_add(1) {
        Some(number) => Ok(number),
        None => Err(OTHER_FORM),
    }
}

// Adds a row with this number. What the tables told before, they tell with that row after it, if
// the number is the next one.
fn insert<S: Alter>(tx: &mut Transaction<'_, S>, number: u64, row: &[u8]) -> Result<(), Error>
    ensures same_reference { tx.new.conn.ghost_name ≡ tx.old.conn.ghost_name }
    ensures told { HasCleanDisk (state S.Store tx.new.conn.now)
        → IsTrue tx.old.conn.now.in_transaction → (k : Kept)
        → Shows (state S.Store tx.old.conn.now) k → number ≡ suc (length k.rows)
        → OnOk result (Changes (state S.Store tx.old.conn.now) (state S.Store tx.new.conn.now)
        (with_row row.now k)) }
    ensures keeps { HasCleanDisk (state S.Store tx.new.conn.now)
        → IsTrue tx.old.conn.now.in_transaction
        → KeepsCommit (state S.Store tx.old.conn.now) (state S.Store tx.new.conn.now) }
    ensures inside { HasCleanDisk (state S.Store tx.new.conn.now)
        → IsTrue tx.old.conn.now.in_transaction
        → OnOk result (IsInside (state S.Store tx.old.conn.now)
        (state S.Store tx.new.conn.now)) }
    ensures crash { Survives (state S.Store tx.old.conn.now) (state S.Store tx.new.conn.now)
        (λ _. ⊥) }
{
    let Ok(place) = i64::try_from(number) else {
        return Err(OTHER_FORM);
    };
    tx.execute(INSERT, &[ValueRef::Int(place), ValueRef::Blob(row)])?;
    Ok(())
}

// Adds rows with the numbers from 1 on where there are none, and returns the last number.
fn insert_all<S: Alter>(tx: &mut Transaction<'_, S>, rows: &[Bytes]) -> Result<u64, Error>
    ensures same_reference { tx.new.conn.ghost_name ≡ tx.old.conn.ghost_name }
    ensures count { IfOk result (λ last. last ≡ length rows.now) }
    ensures told { HasCleanDisk (state S.Store tx.new.conn.now)
        → IsTrue tx.old.conn.now.in_transaction
        → Shows (state S.Store tx.old.conn.now) (kept_rows [])
        → IfOk result (λ last. (last ≡ length rows.now)
        × Changes (state S.Store tx.old.conn.now) (state S.Store tx.new.conn.now)
        (kept_rows rows.now)) }
    ensures keeps { HasCleanDisk (state S.Store tx.new.conn.now)
        → IsTrue tx.old.conn.now.in_transaction
        → KeepsCommit (state S.Store tx.old.conn.now) (state S.Store tx.new.conn.now) }
    ensures inside { HasCleanDisk (state S.Store tx.new.conn.now)
        → IsTrue tx.old.conn.now.in_transaction
        → OnOk result (IsTrue tx.new.conn.now.in_transaction) }
    ensures crash { Survives (state S.Store tx.old.conn.now) (state S.Store tx.new.conn.now)
        (λ _. ⊥) }
{
    let mut last = 0u64;
    for row in rows {
        last = find_next(last)?;
        insert(tx, last, row.as_slice())?;
    }
    Ok(last)
}

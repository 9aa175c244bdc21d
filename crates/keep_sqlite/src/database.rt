// The database of a keeper, which the first call opens. It is the one layer between the keeper and
// its connection.
ghost use Rattle.std.specs.Prelude.{◌≡◌, ℕ, false, suc, length, Some, None, IfOk, IfErr, OnOk, IsSome, IsTrue, MatchResult};
ghost use Rattle.sqlite.specs.State.{HasCleanDisk};
ghost use Rattle.sqlite.specs.Held.{Held, state};
ghost use Rattle.keep_port.specs.Keeping.{with_row, with_row_if};
ghost use Rattle.keep_port.specs.declared.kept.Kept.{Kept};
ghost use Rattle.keep_sqlite.specs.Format.{kept_rows};
ghost use Rattle.keep_sqlite.specs.Telling.{Keeps, Fetches, Writes};
ghost use Rattle.keep_sqlite.specs.Knowing.{IsLastOf, IsOpenIn, Fetched, Loaded, Changed, content_of};

use crate::opening::CANNOT_OPEN;
use crate::opens::Opens;
use crate::tables;
use jm_base::{Bytes, Rows};
use sqlite::{Alter, Connection, Error};
use std::alloc::Global;
use std::marker::Model;

/// A database; the number of its last row, if its tables were created or checked; whether it had
/// the two tables and nothing else then; and whether its content is known.
///
/// While it has the two tables alone and the disk has had no fault, the tables tell a content, the
/// number is that of its last row, and whatever a crash leaves tells a content too.
#[derive(Drop)]
pub struct Database<S: Alter + Drop, O: Opens<S>> {
    opener: O,
    connection: Option<Connection<S>>,
    last: Option<u64>,
    ours: bool,
    known: bool,
}

impl<S: Alter + Drop, O: Opens<S>> Model for Database<S, O> {
    ghost use Rattle.keep_sqlite.specs.Knowing.{DatabaseView, IsSound, database_code};

    ghost Value = { DatabaseView S O };

    ghost coded = { database_code S.code O.code };

    ghost view = { λ d. record {
      opener = d.opener;
      connection = d.connection;
      last = d.last;
      ours = d.ours;
      known = d.known;
    } };

    ghost invariant = { λ d. IsSound S.Store d.connection d.last d.ours d.known };
}

impl<S: Alter + Drop, O: Opens<S>> Database<S, O> {
    /// Returns the database of this connection, or of what this opens if there is none. Its tables
    /// are neither created nor checked yet.
    pub fn new(opener: O, connection: Option<Connection<S>>) -> Database<S, O>
        ensures { result ≡ record {
          opener = opener;
          connection = connection;
          last = None;
          ours = false;
          known = false;
        } }
    {
        Database {
            opener,
            connection,
            last: None,
            ours: false,
            known: false,
        }
    }

    /// Returns the rows in the order of their numbers, and creates the tables where there are none.
    /// After an error the next call checks the tables again.
    pub fn load(&mut self, alloc: Global) -> Result<Rows, Error>
        ensures forgets { IfErr result (λ _. self.new.last ≡ None) }
        ensures count { IfOk result (λ rows. self.new.last ≡ Some (length rows)) }
        ensures told { (new : Held S) → self.new.connection ≡ Some new
            → HasCleanDisk (state S.Store new) → IfOk result (λ rows. IsTrue self.new.known
            → Keeps (state S.Store new) (kept_rows rows)) }
        ensures fetches { (old : Held S) → self.old.connection ≡ Some old
            → Fetches S.Store old self.new.connection self.new.ours result }
        ensures learns { OnOk result (self.new.known ≡ self.new.ours) }
        ensures loaded { Loaded S.Store self.old self.new result }
    {
        let rows = self.fetch(alloc)?;
        self.known = self.ours;
        Ok(rows)
    }

    // Loads the rows. It is not taken for known what the content is.
    fn fetch(&mut self, alloc: Global) -> Result<Rows, Error>
        ensures forgets { IfErr result (λ _. self.new.last ≡ None) }
        ensures count { IfOk result (λ rows. self.new.last ≡ Some (length rows)) }
        ensures there { OnOk result (IsSome self.new.connection) }
        ensures told { (new : Held S) → self.new.connection ≡ Some new
            → HasCleanDisk (state S.Store new) → IfOk result (λ rows. IsTrue self.new.ours
            → Keeps (state S.Store new) (kept_rows rows)) }
        ensures fetches { (old : Held S) → self.old.connection ≡ Some old
            → Fetches S.Store old self.new.connection self.new.ours result }
        ensures fetched { Fetched S.Store self.old self.new }
    {
        self.last = None;
        self.open()?;
        let Some(connection) = &mut self.connection else {
            return Err(CANNOT_OPEN);
        };
        let (rows, ours) = tables::load(alloc, connection)?;
        self.last = Some(rows.len() as u64);
        self.ours = ours;
        self.known = self.known && ours;
        Ok(rows)
    }

    // Opens the database unless it is open.
    fn open(&mut self) -> Result<(), Error>
        ensures opener { self.new.opener ≡ self.old.opener }
        ensures last { self.new.last ≡ self.old.last }
        ensures ours { self.new.ours ≡ self.old.ours }
        ensures known { self.new.known ≡ self.old.known }
        ensures same { (old : Held S) → self.old.connection ≡ Some old
            → self.new.connection ≡ Some old }
    {
        if self.connection.is_none() {
            self.connection = Some(self.opener.open()?);
        }
        Ok(())
    }

    /// Adds a row after the others. Loads them first if the number of the last one is not known.
    pub fn append(&mut self, alloc: Global, row: &[u8]) -> Result<(), Error>
        ensures last { (n : ℕ) → self.old.last ≡ Some n
            → MatchResult result (λ _. self.new.last ≡ Some (suc n))
            (λ _. self.new.last ≡ Some n) }
        ensures writes { (old : Held S) → self.old.connection ≡ Some old
            → Writes S.Store (IsLastOf self.old.last) (with_row row.now) old self.new.connection
            result }
        ensures first { self.old.last ≡ None → (new : Held S) → self.new.connection ≡ Some new
            → HasCleanDisk (state S.Store new) → OnOk result (IsTrue self.new.ours
            → (k : Kept) × Keeps (state S.Store new) (with_row row.now k)) }
        ensures changed { Changed S.Store (with_row_if row.now (content_of S.Store self.old))
            self.old self.new result }
    {
        if self.last.is_none() {
            return self.fetch_and_append(alloc, row);
        }
        self.append_next(row)
    }

    // Loads the rows and adds one after them.
    fn fetch_and_append(&mut self, alloc: Global, row: &[u8]) -> Result<(), Error>
        ensures writes { (old : Held S) → self.old.connection ≡ Some old
            → Writes S.Store (IsLastOf None) (with_row row.now) old self.new.connection result }
        ensures first { (new : Held S) → self.new.connection ≡ Some new
            → HasCleanDisk (state S.Store new) → OnOk result (IsTrue self.new.ours
            → (k : Kept) × Keeps (state S.Store new) (with_row row.now k)) }
        ensures changed { Changed S.Store (with_row_if row.now (content_of S.Store self.old))
            self.old self.new result }
    {
        let _rows = self.fetch(alloc)?;
        self.append_next(row)
    }

    // Adds a row after the last one.
    fn append_next(&mut self, row: &[u8]) -> Result<(), Error>
        ensures last { (n : ℕ) → self.old.last ≡ Some n
            → MatchResult result (λ _. self.new.last ≡ Some (suc n))
            (λ _. self.new.last ≡ Some n) }
        ensures ours { self.new.ours ≡ self.old.ours }
        ensures shut { IsOpenIn S.Store self.new → IsOpenIn S.Store self.old }
        ensures writes { (old : Held S) → self.old.connection ≡ Some old
            → Writes S.Store (IsLastOf self.old.last) (with_row row.now) old self.new.connection
            result }
        ensures changed { Changed S.Store (with_row_if row.now (content_of S.Store self.old))
            self.old self.new result }
    {
        let Some(last) = self.last else {
            return Err(CANNOT_OPEN);
        };
        let Some(connection) = &mut self.connection else {
            return Err(CANNOT_OPEN);
        };
        let number = tables::find_next(last)?;
        tables::append(connection, number, row)?;
        self.last = Some(number);
        Ok(())
    }

    /// Replaces the rows by these. Loads the rows first if the number of the last one is not known.
    pub fn replace(&mut self, alloc: Global, rows: &[Bytes]) -> Result<(), Error>
        ensures last { OnOk result (self.new.last ≡ Some (length rows.now)) }
        ensures learns { OnOk result (self.new.known ≡ self.new.ours) }
        ensures writes { (old : Held S) → self.old.connection ≡ Some old
            → Writes S.Store (IsLastOf self.old.last) (λ _. kept_rows rows.now) old
            self.new.connection result }
        ensures changed { Changed S.Store (Some (kept_rows rows.now)) self.old self.new result }
    {
        if self.last.is_none() {
            return self.fetch_and_replace(alloc, rows);
        }
        self.replace_all(rows)
    }

    // Loads the rows and replaces them by these.
    fn fetch_and_replace(&mut self, alloc: Global, rows: &[Bytes]) -> Result<(), Error>
        ensures last { OnOk result (self.new.last ≡ Some (length rows.now)) }
        ensures learns { OnOk result (self.new.known ≡ self.new.ours) }
        ensures writes { (old : Held S) → self.old.connection ≡ Some old
            → Writes S.Store (IsLastOf None) (λ _. kept_rows rows.now) old self.new.connection
            result }
        ensures changed { Changed S.Store (Some (kept_rows rows.now)) self.old self.new result }
    {
        let _rows = self.fetch(alloc)?;
        self.replace_all(rows)
    }

    // Replaces the rows by these.
    fn replace_all(&mut self, rows: &[Bytes]) -> Result<(), Error>
        ensures last { OnOk result (self.new.last ≡ Some (length rows.now)) }
        ensures learns { OnOk result (self.new.known ≡ self.new.ours) }
        ensures shut { IsOpenIn S.Store self.new → IsOpenIn S.Store self.old }
        ensures writes { (old : Held S) → self.old.connection ≡ Some old
            → Writes S.Store (IsLastOf self.old.last) (λ _. kept_rows rows.now) old
            self.new.connection result }
        ensures changed { Changed S.Store (Some (kept_rows rows.now)) self.old self.new result }
    {
        let Some(connection) = &mut self.connection else {
            return Err(CANNOT_OPEN);
        };
        self.last = Some(tables::replace(connection, rows)?);
        self.known = self.ours;
        Ok(())
    }

    /// Runs statements on the connection, and returns whether one is open and ran them. What is
    /// known of the database is forgotten.
    #[cfg(test)]
    pub fn run(&mut self, text: &str) -> bool {
        self.ours = false;
        self.known = false;
        match &mut self.connection {
            Some(connection) => connection.execute_batch(text).is_ok(),
            None => false,
        }
    }
}

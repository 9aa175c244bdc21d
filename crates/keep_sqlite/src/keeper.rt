// A keeper of rows in a database, which counts its faults. Contracts know its content and what a
// crash may leave of it, once the content was loaded or replaced and while the disk has no fault.
ghost use Rattle.std.specs.Prelude.{◌≡◌, ◌⊎◌, ℕ, suc, [], length, None, Some, IsSome, IsTrue, IfOk, IfErr, OnOk, MatchResult};
ghost use Rattle.sqlite.specs.State.{HasCleanDisk};
ghost use Rattle.sqlite.specs.Held.{Held, state};
ghost use Rattle.jm_edge.specs.Causes.{IsCounted};
ghost use Rattle.keep_port.specs.Keeping.{IsContent, IsUnknownOr, content_after, content_loaded, with_row, with_row_if, MayLeave};
ghost use Rattle.keep_port.specs.declared.kept.Kept.{Kept};
ghost use Rattle.keep_sqlite.specs.Answers.{Answers};
ghost use Rattle.keep_sqlite.specs.Format.{no_schema, kept_rows};
ghost use Rattle.keep_sqlite.specs.Telling.{Keeps, Writes};
ghost use Rattle.keep_sqlite.specs.Knowing.{IsLastOf, IsOpenIn, LeavesTold, MayTell, Changed, content_of};

use crate::database::Database;
use crate::opens::{Adopted, AtPath, Opens};
use jm_base::Text;
use jm_edge::EdgeFault;
use keep_port::{Keeper, Kept};
use sqlite::{Alter, Connection, Error, ErrorCode, File, FileStore};
use std::alloc::Global;

#[cfg(test)]
mod tests;

// There is no format with a base yet.
const BASE: Error = Error::SqliteFailure(ErrorCode::NotADatabase);

/// Keeps rows in a database over a store: a file that the first call opens, or a connection that
/// was adopted.
///
/// What a call writes it writes in one transaction; tables that are missing it creates in another
/// before. An error changes no row, and raises the count of its call by one unless memory ran out.
/// After the store has shut the database because of a fault of the disk, each later call fails.
///
/// The content is what the tables tell. It is known from the first `load` or `replace` that returns
/// `Ok`, if the database has the two tables alone, and while the disk has no fault. What a crash
/// may leave is known then too, also after a fault that shut the database: whatever is left of the
/// database tells a content. What an `append` makes of tables that were not loaded is a clause of
/// its own.
#[derive(Drop)]
pub struct SqliteKeeper<S: Alter + Drop, O: Opens<S>> {
    database: Database<S, O>,
    load_faults: u64,
    append_faults: u64,
    replace_faults: u64,
}

impl SqliteKeeper<FileStore<File>, AtPath> {
    /// Returns a keeper of the file at this path. It opens nothing: the first call opens or creates
    /// the file. A call that can't open it fails, and the next one tries again.
    pub fn open_later(rt: &HostRuntime, path: Text) -> SqliteKeeper<FileStore<File>, AtPath>
        ensures opener { result.database.opener ≡ record { rt = rt.now; path = path } }
        ensures unopened { result.database.connection ≡ None }
        ensures loads { result.load_faults ≡ 0 }
        ensures appends { result.append_faults ≡ 0 }
        ensures replaces { result.replace_faults ≡ 0 }
    {
        SqliteKeeper::new(Database::new(AtPath::new(rt, path), None))
    }
}

impl<S: Alter + Drop> SqliteKeeper<S, Adopted> {
    /// Returns a keeper of the database that this connection is open to. While a transaction of the
    /// connection has not ended, each call fails.
    pub fn adopt(connection: Connection<S>) -> SqliteKeeper<S, Adopted>
        ensures adopted { result.database.connection ≡ Some connection }
        ensures loads { result.load_faults ≡ 0 }
        ensures appends { result.append_faults ≡ 0 }
        ensures replaces { result.replace_faults ≡ 0 }
    {
        SqliteKeeper::new(Database::new(Adopted, Some(connection)))
    }
}

impl<S: Alter + Drop, O: Opens<S>> SqliteKeeper<S, O> {
    fn new(database: Database<S, O>) -> SqliteKeeper<S, O>
        ensures database { result.database ≡ database }
        ensures loads { result.load_faults ≡ 0 }
        ensures appends { result.append_faults ≡ 0 }
        ensures replaces { result.replace_faults ≡ 0 }
    {
        SqliteKeeper {
            database,
            load_faults: 0,
            append_faults: 0,
            replace_faults: 0,
        }
    }
}

// Returns what a call of the keeper returns for the result of the database, and counts a fault.
fn answer<T: Drop>(faults: &mut u64, done: Result<T, Error>) -> Result<T, EdgeFault>
    ensures { Answers done faults.old faults.new result }
{
    match done {
        Ok(value) => Ok(value),
        Err(Error::SqliteFailure(ErrorCode::OutOfMemory)) => Err(EdgeFault::NoMemory),
        Err(_) => {
            *faults = faults.saturating_add(1);
            Err(EdgeFault::Failed)
        }
    }
}

impl<S: Alter + Drop + Send, O: Opens<S> + Send> Keeper for SqliteKeeper<S, O> {
    ghost kept = { λ k. content_of S.Store k.database };

    ghost image = { λ k. MayTell S.Store k.database };

    ghost load_faults = { λ k. k.load_faults };

    ghost append_faults = { λ k. k.append_faults };

    ghost replace_faults = { λ k. k.replace_faults };

    /// Returns the rows, which the tables tell. There is no base. Tables that are missing are
    /// created.
    fn load(&mut self, alloc: Global) -> Result<Kept, EdgeFault>
        ensures base { IfOk result (λ k. k.base ≡ None) }
        ensures loaded { IfOk result (IsContent (content_of S.Store self.new.database)) }
        ensures kept { IsUnknownOr (content_loaded result (content_of S.Store self.old.database))
            (content_of S.Store self.new.database) }
        ensures image { (k : Kept) → MayTell S.Store self.new.database k
            → MayTell S.Store self.old.database k
            ⊎ (content_of S.Store self.new.database ≡ Some k) }
        ensures cause { IsCounted self.old.load_faults self.new.load_faults result }
        ensures append_count { self.new.append_faults ≡ self.old.append_faults }
        ensures replace_count { self.new.replace_faults ≡ self.old.replace_faults }
        ensures forgets { IfErr result (λ _. self.new.database.last ≡ None) }
        ensures count { IfOk result (λ k. self.new.database.last ≡ Some (length k.rows)) }
        ensures told { (new : Held S) → self.new.database.connection ≡ Some new
            → HasCleanDisk (state S.Store new) → IfOk result (λ k. IsTrue self.new.database.known
            → Keeps (state S.Store new) k) }
        ensures blank { (old new : Held S) → self.old.database.connection ≡ Some old
            → old.schema ≡ no_schema → self.new.database.connection ≡ Some new
            → HasCleanDisk (state S.Store new) → IfOk result (λ k. IsTrue self.new.database.known
            × (k.rows ≡ [])) }
        ensures stays { IsOpenIn S.Store self.new.database → (k : Kept)
            → content_of S.Store self.old.database ≡ Some k
            → content_of S.Store self.new.database ≡ Some k }
        ensures leaves { LeavesTold S.Store self.new.database }
    {
        let rows = answer(&mut self.load_faults, self.database.load(alloc))?;
        Ok(Kept { base: None, rows })
    }

    /// Adds a row after those of the tables, and loads them first if the last call that did failed
    /// or there was none. After `Ok` the tables tell that row after the others, and so does what a
    /// crash leaves; after an error they tell what they told, unless the disk had a fault.
    fn append(&mut self, alloc: Global, row: &[u8]) -> Result<(), EdgeFault>
        ensures kept { IsUnknownOr (content_after result (with_row_if row.now
            (content_of S.Store self.old.database)) (content_of S.Store self.old.database))
            (content_of S.Store self.new.database) }
        ensures image { MayLeave result (with_row_if row.now
            (content_of S.Store self.old.database)) (MayTell S.Store self.old.database)
            (MayTell S.Store self.new.database) }
        ensures cause { IsCounted self.old.append_faults self.new.append_faults result }
        ensures load_count { self.new.load_faults ≡ self.old.load_faults }
        ensures replace_count { self.new.replace_faults ≡ self.old.replace_faults }
        ensures changed { Changed S.Store (with_row_if row.now
            (content_of S.Store self.old.database)) self.old.database self.new.database result }
        ensures writes { (old : Held S) → self.old.database.connection ≡ Some old
            → Writes S.Store (IsLastOf self.old.database.last) (with_row row.now) old
            self.new.database.connection result }
        ensures first { self.old.database.last ≡ None → (new : Held S)
            → self.new.database.connection ≡ Some new → HasCleanDisk (state S.Store new)
            → OnOk result (IsTrue self.new.database.ours
            → (k : Kept) × Keeps (state S.Store new) (with_row row.now k)) }
        ensures last { (n : ℕ) → self.old.database.last ≡ Some n
            → MatchResult result (λ _. self.new.database.last ≡ Some (suc n))
            (λ _. self.new.database.last ≡ Some n) }
    {
        answer(&mut self.append_faults, self.database.append(alloc, row))
    }

    /// Replaces the rows by these, in one transaction. Fails if there is a base, and then asks
    /// nothing of the database.
    fn replace(&mut self, alloc: Global, whole: &Kept) -> Result<(), EdgeFault>
        ensures base { IsSome whole.now.base → result ≡ Err EdgeFault.Failed }
        ensures untouched { IsSome whole.now.base → self.new.database ≡ self.old.database }
        ensures kept { IsUnknownOr (content_after result (Some whole.now)
            (content_of S.Store self.old.database)) (content_of S.Store self.new.database) }
        ensures image { MayLeave result (Some whole.now) (MayTell S.Store self.old.database)
            (MayTell S.Store self.new.database) }
        ensures cause { IsCounted self.old.replace_faults self.new.replace_faults result }
        ensures load_count { self.new.load_faults ≡ self.old.load_faults }
        ensures append_count { self.new.append_faults ≡ self.old.append_faults }
        ensures changed { whole.now.base ≡ None → Changed S.Store (Some whole.now)
            self.old.database self.new.database result }
        ensures writes { whole.now.base ≡ None → (old : Held S)
            → self.old.database.connection ≡ Some old
            → Writes S.Store (IsLastOf self.old.database.last) (λ _. whole.now) old
            self.new.database.connection result }
        ensures last { OnOk result (self.new.database.last ≡ Some (length whole.now.rows)) }
        ensures learns { OnOk result (self.new.database.known ≡ self.new.database.ours) }
    {
        if whole.base.is_some() {
            return answer(&mut self.replace_faults, Err(BASE));
        }
        let done = self.database.replace(alloc, whole.rows.as_slice());
        answer(&mut self.replace_faults, done)
    }
}

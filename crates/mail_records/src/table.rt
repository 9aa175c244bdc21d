// A finite map from numbers to records: the records in number order in a vector, with room that may
// be ready for more.
ghost use Rattle.std.specs.Prelude.{◌≡◌, ◌+◌, ◌<◌, ◌≤◌, not, ℕ, [], Some, None, OnOk, IfOk, IfSome, MatchOption, take, insert, remove, slice_set, vec_len, vec_capacity};
ghost use Rattle.std.specs.List.{AllByRecursion};
ghost use Rattle.mail_records.specs.Tables.{IsFrom, IsPlace, IsTable, lookup, put, without, without_all};
ghost use Rattle.std.specs.List.Sorted.{IsStrictlyIncreasing};
ghost use Rattle.jm_base.specs.Splices.{has};

use crate::dropped::is_among;
use jm_base::NoMemory;
use std::alloc::Global;
use std::marker::Model;

/// A record of a table: it has a number, and can be copied.
pub trait Record: Drop {
    ghost number: { Self → ℕ };

    /// Returns the number of the record.
    fn number(&self) -> u64
        ensures { result ≡ number self.now };

    /// Returns a copy of the record, in memory of its own.
    fn copy(&self, alloc: Global) -> Result<Self, NoMemory>
        ensures { IfOk result (λ r. r ≡ self.now) };
}

// Returns the index of the first record whose number is not below this one, of records of which
// those before `low` have lower numbers, and those from `high` on don't.
fn find_place_between<R: Record>(rows: &[R], low: usize, high: usize, number: u64) -> usize
    requires table { IsTable R.number rows.now }
    requires order { low ≤ high }
    requires high { IsFrom R.number number rows.now high }
    requires low { AllByRecursion (λ r. R.number r < number) (take low rows.now) }
    ensures { IsPlace R.number number rows.now result }
{
    low + rows[low..high].partition_point(|row| row.number() < number)
}

// Returns an index that is not after that of any record from this number on: numbers rise, so the
// record at an index has at least this number.
fn bound_place<R: Record>(rows: &[R], number: u64) -> usize
    requires { IsTable R.number rows.now }
    ensures { IsFrom R.number number rows.now result }
{
    if number < rows.len() as u64 {
        number as usize
    } else {
        rows.len()
    }
}

// Returns the index of the first record whose number is not below this one. It looks back from the
// greatest such index that there may be, by steps of which each is twice as wide as the one before,
// and halves the last step.
fn place_of<R: Record>(rows: &[R], number: u64) -> usize
    requires { IsTable R.number rows.now }
    ensures { IsPlace R.number number rows.now result }
{
    let mut high = bound_place(rows, number);
    let mut step: usize = 1;
    while step <= high {
        let low = high - step;
        if rows[low].number() < number {
            return find_place_between(rows, low, high, number);
        }
        high = low;
        step = step.saturating_add(step);
    }
    find_place_between(rows, 0, high, number)
}

// Lends the record of a number if it has the index that it has while no record was dropped.
fn find_dense<R: Record>(rows: &[R], number: u64) -> Option<&R>
    requires { IsTable R.number rows.now }
    ensures { IfSome result (λ r. lookup R.number number rows.now ≡ Some r.now) }
{
    let place = number.wrapping_sub(1) as usize;
    if place >= rows.len() {
        return None;
    }
    let row = &rows[place];
    if row.number() == number {
        Some(row)
    } else {
        None
    }
}

// Lends the record of a number.
fn find<R: Record>(rows: &[R], number: u64) -> Option<&R>
    requires { IsTable R.number rows.now }
    ensures { MatchOption result (lookup R.number number rows.now ≡ None)
        (λ r. lookup R.number number rows.now ≡ Some r.now) }
{
    if let Some(row) = find_dense(rows, number) {
        return Some(row);
    }
    let place = place_of(rows, number);
    if place == rows.len() {
        return None;
    }
    let row = &rows[place];
    if row.number() == number {
        Some(row)
    } else {
        None
    }
}

/// Inserts an item for which room is ready.
pub(crate) fn insert_ready<R: Drop>(rows: &mut Vec<R>, place: usize, item: R)
    requires place { place ≤ vec_len rows.old }
    requires room { vec_len rows.old < vec_capacity rows.old }
    ensures items { rows.new.items ≡ insert rows.old.items place item }
    ensures len { vec_len rows.new ≡ vec_len rows.old + 1 }
    ensures capacity { vec_capacity rows.new ≡ vec_capacity rows.old }
{
    match rows.insert(place, item) {
        Ok(()) => {}
        Err(_) => unreachable!(),
    }
}

// Replaces the record at an index.
fn replace<R: Drop>(rows: &mut Vec<R>, place: usize, item: R)
    requires { place < vec_len rows.old }
    ensures items { rows.new.items ≡ slice_set rows.old.items place item }
    ensures len { vec_len rows.new ≡ vec_len rows.old }
    ensures capacity { vec_capacity rows.new ≡ vec_capacity rows.old }
{
    rows[place] = item;
}

// Puts a record at the index of its number, for which room is reserved.
fn put_ready<R: Record>(rows: &mut Vec<R>, item: R)
    requires table { IsTable R.number rows.old.items }
    requires room { vec_len rows.old < vec_capacity rows.old }
    ensures items { rows.new.items ≡ put R.number item rows.old.items }
    ensures len { vec_len rows.new ≤ vec_len rows.old + 1 }
    ensures capacity { vec_capacity rows.new ≡ vec_capacity rows.old }
{
    let number = item.number();
    let place = place_of(rows, number);
    if place == rows.len() {
        insert_ready(rows, place, item);
        return;
    }
    if rows[place].number() != number {
        insert_ready(rows, place, item);
        return;
    }
    replace(rows, place, item);
}

// Takes the record of a number out.
fn take_out<R: Record>(rows: &mut Vec<R>, number: u64)
    requires { IsTable R.number rows.old.items }
    ensures items { rows.new.items ≡ without R.number number rows.old.items }
    ensures len { vec_len rows.new ≤ vec_len rows.old }
    ensures capacity { vec_capacity rows.new ≡ vec_capacity rows.old }
{
    let place = place_of(rows, number);
    if place == rows.len() {
        return;
    }
    if rows[place].number() == number {
        let _gone = rows.remove(place);
    }
}

// Takes the records of these numbers out, which rise.
fn take_out_all<R: Record>(rows: &mut Vec<R>, numbers: &[u64])
    requires { IsStrictlyIncreasing numbers.now }
    ensures items { rows.new.items ≡ without_all R.number numbers.now rows.old.items }
    ensures len { vec_len rows.new ≤ vec_len rows.old }
    ensures capacity { vec_capacity rows.new ≡ vec_capacity rows.old }
{
    rows.retain(
        |row|
            ensures { IsStrictlyIncreasing numbers.entry.now → result
                ≡ not (has numbers.entry.now (R.number row.now)) }
        { !is_among(numbers, row.number()) },
    );
}

// Returns a copy of the records, in memory of its own.
fn collect_row_copies<R: Record>(alloc: Global, rows: &[R]) -> Result<Vec<R>, NoMemory>
    ensures { IfOk result (λ v. v.items ≡ rows.now) }
{
    let mut all = Vec::with_capacity(alloc, rows.len())?;
    for row in rows {
        all.push(row.copy(alloc)?)?;
    }
    Ok(all)
}

/// A finite map from numbers to records.
#[derive(Drop)]
pub struct Table<R: Record> {
    rows: Vec<R>,
}

impl<R: Record> Model for Table<R> {
    ghost use Rattle.std.specs.Prelude.{ℕ, ◌-◌, vec_len, vec_capacity};
    ghost use Rattle.mail_records.specs.Tables.{IsTable, Rows};

    ghost Value = { Rows R };

    ghost view = { λ t. record {
      rows = t.rows.items;
      spare = vec_capacity t.rows - vec_len t.rows;
    } };

    ghost invariant = { λ t. IsTable R.number t.rows.items };
}

impl<R: Record> Table<R> {
    /// Returns a table without records. Allocates nothing.
    pub fn new(alloc: Global) -> Table<R>
        ensures { result.rows ≡ [] }
    {
        Table {
            rows: Vec::new(alloc),
        }
    }

    /// Returns the table of these records, which are in number order.
    pub fn from_rows(rows: Vec<R>) -> Table<R>
        requires { IsTable R.number rows.items }
        ensures { result.rows ≡ rows.items }
    {
        Table { rows }
    }

    /// Returns a copy of the table, in memory of its own.
    pub fn copy(&self, alloc: Global) -> Result<Table<R>, NoMemory>
        ensures { IfOk result (λ t. t.rows ≡ self.now.rows) }
    {
        Ok(Table {
            rows: collect_row_copies(alloc, &self.rows)?,
        })
    }

    /// Lends the records, in number order.
    pub fn as_slice(&self) -> &[R]
        ensures rows { result.now ≡ self.now.rows }
        ensures table { IsTable R.number result.now }
    {
        self.rows.as_slice()
    }

    /// Lends the record of a number.
    pub fn get(&self, number: u64) -> Option<&R>
        ensures { MatchOption result (lookup R.number number self.now.rows ≡ None)
            (λ r. lookup R.number number self.now.rows ≡ Some r.now) }
    {
        find(&self.rows, number)
    }

    /// Makes room for so many more records.
    pub fn reserve(&mut self, more: usize) -> Result<(), NoMemory>
        ensures rows { self.new.rows ≡ self.old.rows }
        ensures spare { OnOk result (more ≤ self.new.spare) }
        ensures no_less { self.old.spare ≤ self.new.spare }
    {
        self.rows.reserve(more)?;
        Ok(())
    }

    /// Puts a record at the index of its number, for which room is reserved.
    pub fn put_ready(&mut self, item: R)
        requires { 1 ≤ self.old.spare }
        ensures rows { self.new.rows ≡ put R.number item self.old.rows }
        ensures spare { self.old.spare ≤ self.new.spare + 1 }
    {
        put_ready(&mut self.rows, item);
    }

    /// Takes the record of a number out, if it is there.
    pub fn take_out(&mut self, number: u64)
        ensures rows { self.new.rows ≡ without R.number number self.old.rows }
        ensures spare { self.old.spare ≤ self.new.spare }
    {
        take_out(&mut self.rows, number);
    }

    /// Takes the records of these numbers out, which rise, in one pass.
    pub fn take_out_all(&mut self, numbers: &[u64])
        requires { IsStrictlyIncreasing numbers.now }
        ensures rows { self.new.rows ≡ without_all R.number numbers.now self.old.rows }
        ensures spare { self.old.spare ≤ self.new.spare }
    {
        take_out_all(&mut self.rows, numbers);
    }
}

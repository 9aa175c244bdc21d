// Orders made anew: the entries of all records of a table, sorted by their keys.
ghost use Rattle.std.specs.Prelude.{◌≡◌, ◌++◌, ◌≤◌, List, Some, IfOk, OnOk, vec_len, vec_capacity};
ghost use Rattle.std.specs.List.{flat_map};
ghost use Rattle.std.specs.List.Sorted.{IsPermutation, IsSorted};
ghost use Rattle.std.specs.Ordering.{is_eq};
ghost use Rattle.mail_records.specs.Tables.{IsTable, lookup};
ghost use Rattle.mail_records.specs.Orders.{AreKeys, Key, KeysRise, any_key, has_key, key_of, keys_of};
ghost use Rattle.mail_records.specs.OrderSteps.{compare_by};

use crate::orders::{Entry, compare};
use crate::table::{Record, Table};
use jm_base::NoMemory;
use std::alloc::Global;
use std::cmp::Ordering;

// Puts the entries of a record at the end.
fn push_entries<R: Record, E: Entry<R>>(entries: &mut Vec<E>, row: &R) -> Result<(), NoMemory>
    ensures { OnOk result ((rows : List R) → lookup R.number (R.number row.now) rows ≡ Some row.now
        → keys_of R.number E.owner E.key rows entries.new.items
        ≡ keys_of R.number E.owner E.key rows entries.old.items ++ E.keys row.now) }
{
    for index in 0..E::count(row) {
        entries.push(E::entry_of(row, index))?;
    }
    Ok(())
}

// Returns the entries of all records, in the order of the records.
fn collect_entries<R: Record, E: Entry<R>>(alloc: Global, rows: &[R]) -> Result<Vec<E>, NoMemory>
    requires { IsTable R.number rows.now }
    ensures { IfOk result (λ es. keys_of R.number E.owner E.key rows.now es.items
        ≡ flat_map E.keys rows.now) }
{
    let mut entries = Vec::new(alloc);
    for row in rows {
        push_entries(&mut entries, row)?;
    }
    Ok(entries)
}

// Compares two entries by their keys.
fn compare_entries<R: Record, E: Entry<R>>(table: &Table<R>, one: &E, other: &E) -> Ordering
    ensures { result ≡ compare_by (key_of R.number E.owner E.key table.now.rows)
        one.now other.now }
{
    compare(&one.key_in(table), &other.key_in(table))
}

// Returns whether two entries have the same key.
fn is_same_entry<R: Record, E: Entry<R>>(table: &Table<R>, one: &E, other: &E) -> bool
    ensures { result ≡ is_eq (compare_by (key_of R.number E.owner E.key table.now.rows)
        one.now other.now) }
{
    compare_entries(table, one, other) == Ordering::Equal
}

// Sorts entries by their keys. Where memory runs out, it takes a way that is slower and needs none.
fn sort_by_keys<R: Record, E: Entry<R>>(table: &Table<R>, entries: &mut Vec<E>)
    ensures permutation { IsPermutation entries.old.items entries.new.items }
    ensures sorted { IsSorted (compare_by (key_of R.number E.owner E.key table.now.rows))
        entries.new.items }
    ensures len { vec_len entries.new ≡ vec_len entries.old }
    ensures capacity { vec_capacity entries.new ≡ vec_capacity entries.old }
{
    match entries.sort_by(|one, other| compare_entries(table, one, other)) {
        Ok(()) => {}
        Err(_) => entries.sort_unstable_by(|one, other| compare_entries(table, one, other)),
    }
}

/// Sorts entries by their keys, and leaves one of those with the same key.
pub(crate) fn sort_entries<R: Record, E: Entry<R>>(table: &Table<R>, entries: &mut Vec<E>)
    ensures rise { KeysRise (keys_of R.number E.owner E.key table.now.rows entries.new.items) }
    ensures same { (k : Key) → has_key k
        (keys_of R.number E.owner E.key table.now.rows entries.new.items)
        ≡ has_key k (keys_of R.number E.owner E.key table.now.rows entries.old.items) }
    ensures len { vec_len entries.new ≤ vec_len entries.old }
    ensures capacity { vec_capacity entries.new ≡ vec_capacity entries.old }
{
    sort_by_keys(table, entries);
    entries.dedup_by(|one, other| is_same_entry(table, one, other));
}

/// Returns the entries of all records of a table, in the order of their keys. It sorts once.
pub(crate) fn fill<R: Record, E: Entry<R>>(
    alloc: Global,
    table: &Table<R>,
) -> Result<Vec<E>, NoMemory>
    ensures { IfOk result (λ es. AreKeys any_key R.number E.keys table.now.rows
        (keys_of R.number E.owner E.key table.now.rows es.items)) }
{
    let mut entries = collect_entries(alloc, table.as_slice())?;
    sort_entries(table, &mut entries);
    Ok(entries)
}

// Orders: vectors of entries next to a table, sorted by the key that each entry has through its
// record.
ghost use Rattle.std.specs.Prelude.{◌≡◌, ◌↔◌, ◌+◌, ◌-◌, ◌<◌, ◌≤◌, ℕ, List, Option, Some, None, true, not, length, ◌&&◌, vec_len, vec_capacity, slice_index_or, IfOk};
ghost use Rattle.std.specs.List.{AllByRecursion};
ghost use Rattle.std.specs.Ordering.{is_lt, is_eq, is_gt, nat_cmp};
ghost use Rattle.std.specs.Option.{option_cmp};
ghost use Rattle.mail_records.specs.Tables.{lookup, without, put};
ghost use Rattle.mail_records.specs.Orders.{AreKeys, Key, KeysRise, any_key, has_text, is_in_group, key_cmp, key_of, keys_of};
ghost use Rattle.mail_records.specs.OrderSteps.{IsPlaceBy, prefix_cmp, put_all_in, put_in, rest_cmp, rows_besides, take_all_out, take_out};

use crate::table::{Record, Table, insert_ready};
use jm_base::NoMemory;
use std::alloc::Global;
use std::cmp::Ordering;
use std::marker::Model;

/// The key of an entry, whose text is lent by the entry's record.
#[derive(Drop)]
pub(crate) struct SortKey<'a> {
    pub group: Option<u64>,
    pub text: &'a [u8],
    pub received: i64,
    pub number: u64,
    pub place: u64,
}

impl<'a> Model for SortKey<'a> {
    ghost use Rattle.mail_records.specs.Orders.{Key};

    ghost Value = { Key };

    ghost view = { λ k. record {
      group = k.group;
      text = k.text.now;
      received = k.received;
      number = k.number;
      place = k.place;
    } };
}

/// An entry of an order: it has a key by its record, and says which entries a record has.
pub(crate) trait Entry<R: Record>: Copy {
    ghost owner: { Self → ℕ };

    ghost key: { Option R → Self → Key };

    ghost keys: { R → List Key };

    /// Returns the number of the entry's record.
    fn owner(&self) -> u64
        ensures { result ≡ owner self.now };

    /// Returns the key of the entry, whose record is looked up in the table where the key needs it.
    fn key_in<'a>(&self, table: &'a Table<R>) -> SortKey<'a>
        ensures { result ≡ key (lookup R.number (owner self.now) table.now.rows) self.now };

    /// Returns the number of entries that a record has.
    fn count(row: &R) -> usize
        ensures { result ≡ length (keys row.now) };

    /// Returns the entry of a record at an index.
    fn entry_of(row: &R, index: usize) -> Self
        requires { index < length (keys row.now) }
        ensures owner { owner result ≡ R.number row.now }
        ensures key { (d : Key) → key (Some row.now) result ≡ slice_index_or
            (keys row.now) index d };

    /// Returns true only if two records of one number have the same entries with the same keys.
    fn has_same_keys(old: &R, new: &R) -> bool
        requires { R.number old.now ≡ R.number new.now }
        ensures keys { result ≡ true → keys old.now ≡ keys new.now }
        ensures key { (e : Self) → result ≡ true → key (Some old.now) e ≡ key (Some new.now) e };

    ghost key_number: { (o : Option R) (e : Self) → (key o e).number ≡ owner e };

    ghost keys_number: { (r : R) → AllByRecursion (λ k. k.number ≡ R.number r) (keys r) };
}

/// Compares two keys.
pub(crate) fn compare(one: &SortKey, other: &SortKey) -> Ordering
    ensures { result ≡ key_cmp one.now other.now }
{
    match compare_prefix(one, other.group, other.text) {
        Ordering::Equal => compare_rest(one, other),
        decided => decided,
    }
}

// Compares the group and the text of a key.
fn compare_prefix(key: &SortKey, group: Option<u64>, text: &[u8]) -> Ordering
    ensures { result ≡ prefix_cmp group text.now key.now }
{
    match key.group.cmp(&group) {
        Ordering::Equal => key.text.cmp(text),
        decided => decided,
    }
}

// Compares the group of a key.
fn compare_group(key: &SortKey, group: Option<u64>) -> Ordering
    ensures { result ≡ option_cmp nat_cmp key.now.group group }
{
    key.group.cmp(&group)
}

// Compares what keys have after group and text.
fn compare_rest(one: &SortKey, other: &SortKey) -> Ordering
    ensures { result ≡ rest_cmp one.now other.now }
{
    match one.received.cmp(&other.received) {
        Ordering::Equal => one
            .number
            .cmp(&other.number)
            .then(one.place.cmp(&other.place)),
        decided => decided,
    }
}

// Returns whether a key is below another.
fn is_below(one: &SortKey, other: &SortKey) -> bool
    ensures { result ≡ is_lt (key_cmp one.now other.now) }
{
    compare(one, other) == Ordering::Less
}

// Returns whether two keys are the same.
fn is_same(one: &SortKey, other: &SortKey) -> bool
    ensures { result ≡ is_eq (key_cmp one.now other.now) }
{
    compare(one, other) == Ordering::Equal
}

// Returns the index of the first entry whose key is not below this one.
fn place_of<R: Record, E: Entry<R>>(table: &Table<R>, entries: &[E], key: &SortKey) -> usize
    requires { KeysRise (keys_of R.number E.owner E.key table.now.rows entries.now) }
    ensures { IsPlaceBy key_cmp
        (key_of R.number E.owner E.key table.now.rows) key.now entries.now result }
{
    entries.partition_point(|entry| is_below(&entry.key_in(table), key))
}

// Puts an entry at its index, for which room is ready.
fn put_entry<R: Record, E: Entry<R>>(table: &Table<R>, entries: &mut Vec<E>, entry: E)
    requires rise { KeysRise (keys_of R.number E.owner E.key table.now.rows entries.old.items) }
    requires room { vec_len entries.old < vec_capacity entries.old }
    ensures keys { keys_of R.number E.owner E.key table.now.rows entries.new.items
        ≡ put_in key_cmp (key_of R.number E.owner E.key table.now.rows entry)
        (keys_of R.number E.owner E.key table.now.rows entries.old.items) }
    ensures len { vec_len entries.new ≤ vec_len entries.old + 1 }
    ensures capacity { vec_capacity entries.new ≡ vec_capacity entries.old }
{
    let key = entry.key_in(table);
    let place = place_of(table, entries, &key);
    if place == entries.len() {
        insert_ready(entries, place, entry);
        return;
    }
    if is_same(&entries[place].key_in(table), &key) {
        return;
    }
    insert_ready(entries, place, entry);
}

// Takes the entry of a key out, if it is there.
fn drop_entry<R: Record, E: Entry<R>>(table: &Table<R>, entries: &mut Vec<E>, key: &SortKey)
    requires rise { KeysRise (keys_of R.number E.owner E.key table.now.rows entries.old.items) }
    ensures keys { keys_of R.number E.owner E.key table.now.rows entries.new.items
        ≡ take_out key_cmp key.now
        (keys_of R.number E.owner E.key table.now.rows entries.old.items) }
    ensures len { vec_len entries.new ≤ vec_len entries.old }
    ensures capacity { vec_capacity entries.new ≡ vec_capacity entries.old }
{
    let place = place_of(table, entries, key);
    if place == entries.len() {
        return;
    }
    if is_same(&entries[place].key_in(table), key) {
        let _gone = entries.remove(place);
    }
}

// Puts the entries of a record of the table at their indices, for which room is ready.
fn put_entries<R: Record, E: Entry<R>>(table: &Table<R>, entries: &mut Vec<E>, row: &R)
    requires rise { KeysRise (keys_of R.number E.owner E.key table.now.rows entries.old.items) }
    requires there { lookup R.number (R.number row.now) table.now.rows ≡ Some row.now }
    requires room { length (E.keys row.now) ≤ vec_capacity entries.old - vec_len entries.old }
    ensures keys { keys_of R.number E.owner E.key table.now.rows entries.new.items
        ≡ put_all_in key_cmp (E.keys row.now)
        (keys_of R.number E.owner E.key table.now.rows entries.old.items) }
    ensures len { vec_len entries.new ≤ vec_len entries.old + length (E.keys row.now) }
    ensures capacity { vec_capacity entries.new ≡ vec_capacity entries.old }
{
    for index in 0..E::count(row) {
        put_entry(table, entries, E::entry_of(row, index));
    }
}

// Takes the entries of a record of the table out.
fn drop_entries<R: Record, E: Entry<R>>(table: &Table<R>, entries: &mut Vec<E>, row: &R)
    requires rise { KeysRise (keys_of R.number E.owner E.key table.now.rows entries.old.items) }
    requires there { lookup R.number (R.number row.now) table.now.rows ≡ Some row.now }
    ensures keys { keys_of R.number E.owner E.key table.now.rows entries.new.items
        ≡ take_all_out key_cmp (E.keys row.now)
        (keys_of R.number E.owner E.key table.now.rows entries.old.items) }
    ensures len { vec_len entries.new ≤ vec_len entries.old }
    ensures capacity { vec_capacity entries.new ≡ vec_capacity entries.old }
{
    for index in 0..E::count(row) {
        let entry: E = E::entry_of(row, index);
        drop_entry(table, entries, &entry.key_in(table));
    }
}

/// Takes the entries of the record of this one's number out, unless they stay as they are. Returns
/// whether the entries of this record are to be put in. It is called before the record is put into
/// the table.
pub(crate) fn leave<R: Record, E: Entry<R>>(
    table: &Table<R>,
    entries: &mut Vec<E>,
    item: &R,
) -> bool
    requires exact { AreKeys any_key R.number E.keys table.now.rows
        (keys_of R.number E.owner E.key table.now.rows entries.old.items) }
    ensures exact { AreKeys any_key R.number E.keys (rows_besides result R.number
        (R.number item.now) (put R.number item.now table.now.rows))
        (keys_of R.number E.owner E.key
        (rows_besides result R.number (R.number item.now)
        (put R.number item.now table.now.rows)) entries.new.items) }
    ensures len { vec_len entries.new ≤ vec_len entries.old }
    ensures capacity { vec_capacity entries.new ≡ vec_capacity entries.old }
{
    match table.get(item.number()) {
        None => true,
        Some(old) => leave_for(table, entries, old, item),
    }
}

// Does what `leave` does, for a number that has a record.
fn leave_for<R: Record, E: Entry<R>>(
    table: &Table<R>,
    entries: &mut Vec<E>,
    old: &R,
    item: &R,
) -> bool
    requires exact { AreKeys any_key R.number E.keys table.now.rows
        (keys_of R.number E.owner E.key table.now.rows entries.old.items) }
    requires there { lookup R.number (R.number item.now) table.now.rows ≡ Some old.now }
    requires number { R.number old.now ≡ R.number item.now }
    ensures exact { AreKeys any_key R.number E.keys (rows_besides result R.number
        (R.number item.now) (put R.number item.now table.now.rows))
        (keys_of R.number E.owner E.key
        (rows_besides result R.number (R.number item.now)
        (put R.number item.now table.now.rows)) entries.new.items) }
    ensures len { vec_len entries.new ≤ vec_len entries.old }
    ensures capacity { vec_capacity entries.new ≡ vec_capacity entries.old }
{
    if E::has_same_keys(old, item) {
        return false;
    }
    drop_entries(table, entries, old);
    true
}

/// Puts the entries of a record in, for which room is ready, if they are to be. It is called after
/// the record was put into the table.
pub(crate) fn settle<R: Record, E: Entry<R>>(
    table: &Table<R>,
    entries: &mut Vec<E>,
    number: u64,
    moved: bool,
)
    requires exact { AreKeys any_key R.number E.keys
        (rows_besides moved R.number number table.now.rows) (keys_of R.number E.owner E.key
        (rows_besides moved R.number number table.now.rows) entries.old.items) }
    requires room { (r : R) → lookup R.number number table.now.rows ≡ Some r → length (E.keys r)
        ≤ vec_capacity entries.old - vec_len entries.old }
    ensures exact { AreKeys any_key R.number E.keys table.now.rows
        (keys_of R.number E.owner E.key table.now.rows entries.new.items) }
    ensures len { (r : R) → lookup R.number number table.now.rows ≡ Some r → vec_len entries.new
        ≤ vec_len entries.old + length (E.keys r) }
    ensures capacity { vec_capacity entries.new ≡ vec_capacity entries.old }
{
    if !moved {
        return;
    }
    match table.get(number) {
        None => {}
        Some(row) => put_entries(table, entries, row),
    }
}

/// Takes the entries of the record of a number out. It is called before the record is taken out of
/// the table.
pub(crate) fn forget<R: Record, E: Entry<R>>(table: &Table<R>, entries: &mut Vec<E>, number: u64)
    requires exact { AreKeys any_key R.number E.keys table.now.rows
        (keys_of R.number E.owner E.key table.now.rows entries.old.items) }
    ensures exact { AreKeys any_key R.number E.keys (without R.number number table.now.rows)
        (keys_of R.number E.owner E.key
        (without R.number number table.now.rows) entries.new.items) }
    ensures len { vec_len entries.new ≤ vec_len entries.old }
    ensures capacity { vec_capacity entries.new ≡ vec_capacity entries.old }
{
    match table.get(number) {
        None => {}
        Some(row) => drop_entries(table, entries, row),
    }
}

// Returns whether the group of a key is before this one.
fn is_before_group(key: &SortKey, group: Option<u64>) -> bool
    ensures { result ≡ is_lt (option_cmp nat_cmp key.now.group group) }
{
    compare_group(key, group) == Ordering::Less
}

// Returns whether the group of a key is not after this one.
fn is_upto_group(key: &SortKey, group: Option<u64>) -> bool
    ensures { result ≡ not (is_gt (option_cmp nat_cmp key.now.group group)) }
{
    compare_group(key, group) != Ordering::Greater
}

// Returns whether the group and text of a key are before these.
fn is_before_prefix(key: &SortKey, group: Option<u64>, text: &[u8]) -> bool
    ensures { result ≡ is_lt (prefix_cmp group text.now key.now) }
{
    compare_prefix(key, group, text) == Ordering::Less
}

// Returns whether the group and text of a key are not after these.
fn is_upto_prefix(key: &SortKey, group: Option<u64>, text: &[u8]) -> bool
    ensures { result ≡ not (is_gt (prefix_cmp group text.now key.now)) }
{
    compare_prefix(key, group, text) != Ordering::Greater
}

/// Lends the entries of a group.
pub(crate) fn find_group_entries<'a, R: Record, E: Entry<R>>(
    table: &Table<R>,
    entries: &'a [E],
    group: Option<u64>,
) -> &'a [E]
    requires exact { AreKeys any_key R.number E.keys table.now.rows
        (keys_of R.number E.owner E.key table.now.rows entries.now) }
    ensures exact { AreKeys (is_in_group group) R.number E.keys table.now.rows
        (keys_of R.number E.owner E.key table.now.rows result.now) }
{
    let from = entries.partition_point(|entry| { is_before_group(&entry.key_in(table), group) });
    let (_, rest) = entries.split_at(from);
    let upto = rest.partition_point(|entry| { is_upto_group(&entry.key_in(table), group) });
    let (part, _) = rest.split_at(upto);
    part
}

/// Lends the entries of a group with this text.
pub(crate) fn with_text<'a, R: Record, E: Entry<R>>(
    table: &Table<R>,
    entries: &'a [E],
    group: Option<u64>,
    text: &[u8],
) -> &'a [E]
    requires exact { AreKeys any_key R.number E.keys table.now.rows
        (keys_of R.number E.owner E.key table.now.rows entries.now) }
    ensures exact { AreKeys (λ k. is_in_group group k
        && has_text text.now k) R.number E.keys table.now.rows
        (keys_of R.number E.owner E.key table.now.rows result.now) }
{
    let from = entries.partition_point(|entry| {
        is_before_prefix(&entry.key_in(table), group, text)
    });
    let (_, rest) = entries.split_at(from);
    let upto = rest.partition_point(|entry| { is_upto_prefix(&entry.key_in(table), group, text) });
    let (part, _) = rest.split_at(upto);
    part
}

/// Copies entries into memory of their own.
pub(crate) fn copy_entries<E: Copy>(alloc: Global, entries: &[E]) -> Result<Vec<E>, NoMemory>
    ensures { IfOk result (λ v. v.items ≡ entries.now) }
{
    Ok(Vec::from_slice(alloc, entries)?)
}

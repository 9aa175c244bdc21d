// What a client keeps of a kind of record.
ghost use Rattle.std.specs.Prelude.{◌≡◌, ◌≤◌, ◌<◌, ◌+◌, [], ◌∷◌, map, length, not, vec_capacity, is_some, IfOk, IfSome, IsTrue, MatchOption, OnOk};
ghost use Rattle.std.specs.List.Sorted.{IsStrictlyIncreasing};
ghost use Rattle.jm_base.specs.Splices.{has};
ghost use Rattle.jm_json.specs.FirstMembers.{first_order};
ghost use Rattle.jm_json.specs.Json.{member_of};
ghost use Rattle.jm_json.specs.Order.{KeysRise, put_all};
ghost use Rattle.client_cache.specs.Records.{is_among, records_but};

use crate::ids::read_number;
use jm_base::{Kind, NoMemory};
use jm_json::{Member, Members};
use std::alloc::Global;
use std::cmp::Ordering;
use std::collections::VecDeque;
use std::marker::Model;

/// The objects of records under their identifiers, in byte order of these. Contracts see them as
/// the list of pairs of identifier and tree.
#[derive(Drop)]
pub(crate) struct Records {
    rows: Vec<Member>,
}

impl Model for Records {
    ghost use Rattle.std.specs.Prelude.{List, ℕ, map};
    ghost use Rattle.jm_json.specs.Json.{member_of};
    ghost use Rattle.jm_json.specs.Order.{KeysRise};
    ghost use Rattle.jm_json.specs.Tree.{Tree};

    ghost Value = { List (List ℕ × Tree) };

    ghost use Rattle.client_cache.specs.Codes.{records_code};

    ghost coded = { records_code };

    ghost view = { λ a. map member_of a.rows.items };

    ghost invariant = { λ a. KeysRise (map member_of a.rows.items) };
}

impl Records {
    /// Returns no records. It takes no memory.
    pub(crate) fn new(alloc: Global) -> Records
        ensures { result ≡ [] }
    {
        Records::of_members(Members::new(alloc))
    }

    /// Returns the members of an object as records. It takes no memory.
    pub(crate) fn of_members(members: Members) -> Records
        ensures { result ≡ members }
    {
        Records {
            rows: members.into_vec(),
        }
    }

    /// Lends the records.
    pub(crate) fn as_slice(&self) -> &[Member]
        ensures value { map member_of result.now ≡ self.now }
        ensures order { KeysRise (map member_of result.now) }
    {
        self.rows.as_slice()
    }

    /// Returns how many records there are.
    pub(crate) fn len(&self) -> usize
        ensures { result ≡ length self.now }
    {
        self.rows.len()
    }

    /// Returns room for the records of both.
    pub(crate) fn make_room(
        alloc: Global,
        one: &Records,
        other: &Records,
    ) -> Result<Vec<Member>, NoMemory>
        ensures empty { IfOk result (λ v. v.items ≡ []) }
        ensures room { IfOk result (λ v. length one.now + length other.now ≤ vec_capacity v) }
    {
        make_rows(alloc, one.len().checked_add(other.len()))
    }

    /// Returns room for the records of all three.
    pub(crate) fn make_room_for_three(
        alloc: Global,
        one: &Records,
        other: &Records,
        third: &Records,
    ) -> Result<Vec<Member>, NoMemory>
        ensures empty { IfOk result (λ v. v.items ≡ []) }
        ensures room { IfOk result (λ v. length one.now + (length other.now + length third.now)
            ≤ vec_capacity v) }
    {
        match other.len().checked_add(third.len()) {
            Some(count) => make_rows(alloc, one.len().checked_add(count)),
            None => Err(NoMemory),
        }
    }

    /// Removes the records of a kind that have these numbers, which ascend.
    pub(crate) fn remove(&mut self, kind: Kind, numbers: &[u64])
        requires { IsStrictlyIncreasing numbers.now }
        ensures { self.new ≡ records_but kind numbers.now self.old }
    {
        remove_rows(&mut self.rows, kind, numbers);
    }

    /// Returns the records of both, in one pass over both. Of two with one identifier it is that of
    /// the second. There is room for them, so that it takes no memory.
    pub(crate) fn merge(room: Vec<Member>, older: Records, newer: Records) -> Records
        requires empty { room.items ≡ [] }
        requires room { length older + length newer ≤ vec_capacity room }
        ensures { result ≡ put_all newer older }
    {
        let Records { rows: older } = older;
        let Records { rows: newer } = newer;
        Records {
            rows: merge_rows(room, older, newer),
        }
    }
}

// Returns room for so many rows. Fails also if the count is none that a machine can have.
fn make_rows(alloc: Global, count: Option<usize>) -> Result<Vec<Member>, NoMemory>
    ensures empty { IfOk result (λ v. v.items ≡ []) }
    ensures room { IfOk result (λ v. IfSome count (λ n. n ≤ vec_capacity v)) }
    ensures count { OnOk result (IsTrue (is_some count)) }
{
    match count {
        Some(count) => Ok(Vec::with_capacity(alloc, count)?),
        None => Err(NoMemory),
    }
}

// Returns whether numbers that ascend have this one.
fn has_number(sorted: &[u64], number: u64) -> bool
    ensures { IsStrictlyIncreasing sorted.now → result ≡ has sorted.now number }
{
    sorted.binary_search(&number).is_ok()
}

fn is_among(kind: Kind, numbers: &[u64], row: &Member) -> bool
    ensures { IsStrictlyIncreasing numbers.now
        → result ≡ is_among kind numbers.now (member_of row.now) }
{
    match read_number(kind, row.name.as_bytes()) {
        Some(number) => has_number(numbers, number),
        None => false,
    }
}

fn remove_rows(rows: &mut Vec<Member>, kind: Kind, numbers: &[u64])
    requires order { KeysRise (map member_of rows.old.items) }
    requires numbers { IsStrictlyIncreasing numbers.now }
    ensures value { map member_of rows.new.items
        ≡ records_but kind numbers.now (map member_of rows.old.items) }
    ensures order { KeysRise (map member_of rows.new.items) }
{
    rows.retain(
        |row|
            ensures { IsStrictlyIncreasing numbers.entry.now → result
                ≡ not (is_among kind numbers.entry.now (member_of row.now)) }
        { !is_among(kind, numbers, row) },
    );
}

fn merge_rows(room: Vec<Member>, older: Vec<Member>, newer: Vec<Member>) -> Vec<Member>
    requires empty { room.items ≡ [] }
    requires room { length older.items + length newer.items ≤ vec_capacity room }
    requires older { KeysRise (map member_of older.items) }
    requires newer { KeysRise (map member_of newer.items) }
    ensures value { map member_of result.items
        ≡ put_all (map member_of newer.items) (map member_of older.items) }
    ensures order { KeysRise (map member_of result.items) }
{
    let mut merged = room;
    let mut lower = VecDeque::from_vec(older);
    let mut upper = VecDeque::from_vec(newer);
    while let Some(member) = take_first(&mut lower, &mut upper) {
        merged.push_reserved(member);
    }
    merged
}

// Takes the first of the members that two lists make together. Of two with one key the first is
// dropped.
fn take_first(lower: &mut VecDeque<Member>, upper: &mut VecDeque<Member>) -> Option<Member>
    requires lower { KeysRise (map member_of lower.old.items) }
    requires upper { KeysRise (map member_of upper.old.items) }
    ensures first { MatchOption result
        (put_all (map member_of upper.old.items) (map member_of lower.old.items) ≡ [])
        (λ m. put_all (map member_of upper.old.items) (map member_of lower.old.items)
        ≡ member_of m
        ∷ put_all (map member_of upper.new.items) (map member_of lower.new.items)) }
    ensures lower { KeysRise (map member_of lower.new.items) }
    ensures upper { KeysRise (map member_of upper.new.items) }
    ensures fewer { IfSome result (λ _. length lower.new.items + length upper.new.items
        < length lower.old.items + length upper.old.items) }
{
    match compare_first_keys(lower, upper) {
        Some(Ordering::Less) => upper.pop_front(),
        Some(Ordering::Equal) => {
            drop(lower.pop_front());
            upper.pop_front()
        }
        Some(Ordering::Greater) => lower.pop_front(),
        None => None,
    }
}

// Returns how the first key of the second list compares with the first key of the first list. A
// list without members comes last.
fn compare_first_keys(lower: &VecDeque<Member>, upper: &VecDeque<Member>) -> Option<Ordering>
    ensures { result ≡ first_order (map member_of lower.now.items) (map member_of upper.now.items) }
{
    match upper.front() {
        Some(second) => match lower.front() {
            Some(first) => Some(second.name.as_bytes().cmp(first.name.as_bytes())),
            None => Some(Ordering::Less),
        },
        None => match lower.front() {
            Some(_) => Some(Ordering::Greater),
            None => None,
        },
    }
}

/// What is kept of a kind: its records, and the state that it had, if that is known.
#[derive(Drop)]
pub(crate) struct CachedKind {
    pub records: Records,
    pub state: Option<u64>,
}

// The members of an object, put one after another in runs of rising keys, which are merged.
ghost use Rattle.std.specs.Prelude.{◌≡◌, ◌<◌, ◌+◌, [], ◌∷◌, map, length, IfOk, IfSome, MatchOption};
ghost use Rattle.jm_json.specs.Json.{tree_of, member_of};
ghost use Rattle.jm_json.specs.Order.{KeysRise, put, put_all};
ghost use Rattle.jm_json.specs.KeyIndices.{AllBelow};
ghost use Rattle.jm_json.specs.FirstMembers.{first_order};

use crate::tree::{Json, Member, Members};
use jm_base::{NoMemory, Text};
use std::alloc::Global;
use std::cmp::Ordering;
use std::collections::VecDeque;
use std::marker::Model;

/// Members that are put one after another. Contracts see them as the members of the object that
/// they make.
///
/// A member whose key comes after those of the run is added to it. Any other begins a new run, and
/// the run before it is merged into what was put earlier. So members that come in a few runs of
/// rising keys are put in time proportional to their count.
#[derive(Drop)]
pub struct MemberRuns {
    merged: Members,
    run: Members,
}

impl Model for MemberRuns {
    ghost use Rattle.std.specs.Prelude.{List, ℕ};
    ghost use Rattle.std.specs.Coded.{coded_list, coded×, coded_ℕ};
    ghost use Rattle.jm_json.specs.Tree.{Tree};
    ghost use Rattle.jm_json.specs.TreeCodes.{tree_code};

    ghost Value = { List (List ℕ × Tree) };

    ghost coded = { coded_list (coded× (coded_list coded_ℕ) tree_code) };

    ghost use Rattle.jm_json.specs.Order.{put_all};

    ghost view = { λ a. put_all a.run a.merged };
}

impl MemberRuns {
    /// Returns no members. It takes no memory.
    pub fn new(alloc: Global) -> MemberRuns
        ensures { result ≡ [] }
    {
        MemberRuns {
            merged: Members::new(alloc),
            run: Members::new(alloc),
        }
    }

    /// Sets the value at a key: in place of the one that was put before, else as a new member at
    /// its index in the order.
    pub fn put(self, alloc: Global, name: Text, value: Json) -> Result<MemberRuns, NoMemory>
        ensures { IfOk result (λ ms. ms ≡ put name (tree_of value) self) }
    {
        let MemberRuns { merged, run } = self;
        if run.is_past(name.as_str()) {
            return MemberRuns::extend_run(merged, run, name, value);
        }
        let merged = merge(alloc, merged, run)?;
        MemberRuns::extend_run(merged, Members::new(alloc), name, value)
    }

    // Returns the members with one more at the end of the run.
    fn extend_run(
        merged: Members,
        run: Members,
        name: Text,
        value: Json,
    ) -> Result<MemberRuns, NoMemory>
        requires rise { KeysRise run }
        requires past { AllBelow name run }
        ensures { IfOk result (λ ms. ms ≡ put name (tree_of value) (put_all run merged)) }
    {
        let mut run = run;
        run.push(name, value)?;
        Ok(MemberRuns { merged, run })
    }

    /// Returns the members as those of one object.
    pub fn into_members(self, alloc: Global) -> Result<Members, NoMemory>
        ensures { IfOk result (λ ms. ms ≡ self) }
    {
        let MemberRuns { merged, run } = self;
        merge(alloc, merged, run)
    }
}

// Returns the members of both objects, in one pass over both. Of two members with one key it is
// that of the second.
fn merge(alloc: Global, older: Members, newer: Members) -> Result<Members, NoMemory>
    ensures { IfOk result (λ ms. ms ≡ put_all newer older) }
{
    let mut merged = Vec::new(alloc);
    let mut lower = VecDeque::from_vec(older.into_vec());
    let mut upper = VecDeque::from_vec(newer.into_vec());
    while let Some(member) = take_first(&mut lower, &mut upper) {
        merged.push(member)?;
    }
    Ok(Members::from_rising(merged))
}

// Takes the first of the members that two lists make together. Of two with one key the first is
// dropped.
fn take_first(lower: &mut VecDeque<Member>, upper: &mut VecDeque<Member>) -> Option<Member>
    requires lower { KeysRise (map member_of lower.old.items) }
    requires upper { KeysRise (map member_of upper.old.items) }
    ensures first { MatchOption result
        (put_all (map member_of upper.old.items) (map member_of lower.old.items) ≡ [])
        (λ m. put_all (map member_of upper.old.items) (map member_of lower.old.items)
        ≡ member_of m
        ∷ put_all (map member_of upper.new.items) (map member_of lower.new.items)) }
    ensures lower { KeysRise (map member_of lower.new.items) }
    ensures upper { KeysRise (map member_of upper.new.items) }
    ensures fewer { IfSome result (λ _. length lower.new.items + length upper.new.items
        < length lower.old.items + length upper.old.items) }
{
    match compare_first_keys(lower, upper) {
        Some(Ordering::Less) => upper.pop_front(),
        Some(Ordering::Equal) => {
            drop(lower.pop_front());
            upper.pop_front()
        }
        Some(Ordering::Greater) => lower.pop_front(),
        None => None,
    }
}

// Returns how the first key of the second list compares with the first key of the first list. A
// list without members comes last.
fn compare_first_keys(lower: &VecDeque<Member>, upper: &VecDeque<Member>) -> Option<Ordering>
    ensures { result ≡ first_order (map member_of lower.now.items) (map member_of upper.now.items) }
{
    match upper.front() {
        Some(second) => match lower.front() {
            Some(first) => Some(second.name.as_bytes().cmp(first.name.as_bytes())),
            None => Some(Ordering::Less),
        },
        None => match lower.front() {
            Some(_) => Some(Ordering::Greater),
            None => None,
        },
    }
}

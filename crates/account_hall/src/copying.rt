// Copies of a session from one account to another.
ghost use Rattle.std.specs.Prelude.{◌≡◌, ◌≢◌, ◌+◌, ◌<◌, ◌≤◌, IfOk, OnErr, length, map, vec_capacity, vec_len};
ghost use Rattle.account_book.specs.Plans.{last_moment};
ghost use Rattle.account_hall.specs.Copies.{HasBegunCopy, IsCopy};
ghost use Rattle.account_hall.specs.Halls.{AreOf, room_view};
ghost use Rattle.account_hall.specs.Sessions.{IsSession, session_of};

use crate::copies::{CopyCall, Originals};
use crate::hall::{Hall, Room};
use crate::held_accounts::copy_held;
use crate::passes::Passes;
use crate::taking::{give_both, take_both};
use account_book::{Out, Point, Rules};
use account_lock::Pass;
use jm_base::NoMemory;
use keep_port::Keeper;
use std::alloc::Global;
use std::sync::Wait;

// Takes both accounts of a copy, performs its calls, and gives the accounts back. The trail has
// room for three points.
fn copy_between<W: Wait, K: Keeper, R: Rules, O: Originals>(
    rt: &W,
    alloc: Global,
    rooms: &Vec<Room<K, R>>,
    list: &mut Vec<Pass>,
    trail: &mut Vec<Point>,
    originals: &O,
    copy: CopyCall,
    moment: u64,
) -> Result<Out, NoMemory>
    requires hall { AreOf (map room_view rooms.now.items) list.old.items }
    requires session { IsSession (session_of list.old.items trail.old.items) }
    requires from { copy.from < length rooms.now.items }
    requires to { copy.to < length rooms.now.items }
    requires apart { copy.from ≢ copy.to }
    requires moment { moment ≤ last_moment }
    requires room { vec_len trail.old + 3 ≤ vec_capacity trail.old }
    ensures copied { IfOk result (λ out. IsCopy R.plan_of O.set_of copy moment
        (session_of list.old.items trail.old.items) (session_of list.new.items trail.new.items)
        out) }
    ensures begun { OnErr result (HasBegunCopy R.plan_of O.set_of copy moment
        (session_of list.old.items trail.old.items)
        (session_of list.new.items trail.new.items)) }
    ensures session { IsSession (session_of list.new.items trail.new.items) }
    ensures hall { AreOf (map room_view rooms.now.items) list.new.items }
{
    let (mut from, mut to) = take_both(rt, rooms, list, copy.from, copy.to);
    let copied = copy_held(alloc, &mut from, &mut to, trail, originals, copy, moment);
    give_both(rooms, list, from, to);
    copied
}

impl<K: Keeper, R: Rules> Hall<K, R> {
    /// Copies from one account to another, at a timestamp in seconds since the beginning of 1970.
    /// It may wait for other sessions that use them: it takes both accounts, the one with the lower
    /// number first, and gives them back at the end, that one last. Meanwhile no other session uses
    /// either: it has one turn at each, and the one at the higher number within the other.
    ///
    /// The account of the originals is asked for what is copied. If it carries something, the other
    /// account is asked to place that. Then `originals` says whether a set of the originals follows
    /// the response. If so, their account is asked to perform it, and its first response follows in
    /// the answer; for a user who may only read that account it is the error `accountReadOnly`, and
    /// nothing is asked. The trail gains a point for each account that was asked, in order.
    ///
    /// Fails only if memory runs out. Then what was performed before is kept, and the trail has its
    /// points; the session may have seen more of both accounts.
    pub fn copy<W: Wait, O: Originals>(
        &self,
        rt: &W,
        alloc: Global,
        passes: &mut Passes,
        originals: &O,
        copy: CopyCall,
        moment: u64,
    ) -> Result<Out, NoMemory>
        requires hall { AreOf self.now passes.old.passes }
        requires from { copy.from < length self.now }
        requires to { copy.to < length self.now }
        requires apart { copy.from ≢ copy.to }
        requires moment { moment ≤ last_moment }
        ensures copied { IfOk result (λ out. IsCopy R.plan_of O.set_of copy moment passes.old
            passes.new out) }
        ensures begun { OnErr result (HasBegunCopy R.plan_of O.set_of copy moment passes.old
            passes.new) }
        ensures hall { AreOf self.now passes.new.passes }
    {
        passes.trail.reserve(3)?;
        copy_between(
            rt,
            alloc,
            &self.rooms,
            &mut passes.list,
            &mut passes.trail,
            originals,
            copy,
            moment,
        )
    }
}

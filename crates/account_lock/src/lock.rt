// The lock and its passes.
ghost use Rattle.std.specs.Prelude.{◌≡◌, ◌<◌, ◌^◌, ◌+◌, ◌∷◌, [], true, false, IfOk, IfErr, Some, None, Ok, length, ◌≤◌};
ghost use Rattle.account_lock.specs.Entries.{under, StartsWith, ExtendsUnder};
ghost use Rattle.account_lock.specs.Passes.{KeepsEnded, IsLast, HasEndedAll, HasNoOthers, root_of, split_off, taken_in};
ghost use Rattle.account_lock.specs.Views.{begun_within, ended_within, going_turn};

use crate::account_view::AccountView;
use crate::limits::MAX_NAMES;
use crate::pass_turn::Noted;
use crate::rule::{Naming, Turns};
use crate::steps::{await_turn, draw_ticket, lay_back, lift, look_back};
use crate::view::PassView;
use atomic_table::{Badge, Refused, Table};
use jm_base::NoMemory;
use std::alloc::{AllocFailed, Global};
use std::marker::Model;
use std::mem;
use std::snapshot::Snapshot;
use std::sync::Wait;

/// A lock around the value of one account. Contracts see which lock it is, and the value that it
/// was built around.
///
/// Nothing is promised about waiting: not that a turn comes, nor that a parked thread wakes. A pass
/// that is dropped while its holder has the value keeps the turn forever, and every other `take`
/// waits forever.
#[derive(Drop)]
pub struct AccountLock<B: AccountView> {
    pub(crate) table: Table<Option<Box<B>>, PassView, Snapshot<Box<B>>, Turns<B>, Global>,
}

impl<B: AccountView> Model for AccountLock<B> {
    ghost use Rattle.account_lock.specs.Views.{LockFacts};
    ghost use Rattle.account_lock.specs.Steps.{IsLockTable};

    ghost Value = { LockFacts B };

    ghost view = { λ l. record {
      id = l.table.shared.table_id;
      built = l.table.shared.key.value.value;
    } };

    ghost invariant = { λ l. IsLockTable l.table.shared.table_id };
}

/// The right to take turns at one lock, under a name. Contracts see its lock, its name, what its
/// holder has seen, the entries that were given under it, and the names that ended with it, each
/// with its entries. They also see its last turn: how many it has had, and the turns of other
/// passes in which it began and ended, where that was said ([`AccountLock::take_within`],
/// [`AccountLock::give_within`]).
///
/// The first pass of a lock is its root. It takes no turns: it gives the names, and at the end it
/// closes the lock.
#[derive(Drop)]
pub struct Pass {
    name: u64,
    given: u64,
    badge: Badge<PassView>,
    began: Noted,
    ended: Noted,
}

impl Model for Pass {
    ghost use Rattle.account_lock.specs.Views.{PassFacts, facts, IsSettled};

    ghost Value = { PassFacts };

    ghost view = { λ p. facts p.badge.table_id p.began p.ended p.badge.views };

    ghost invariant = { λ p. IsSettled p.name p.given p.badge.views };
}

// Returns a list of one slot with the value in it, or the value if memory runs out.
fn build_slot<B: AccountView>(alloc: Global, value: Box<B>) -> Result<Vec<Option<Box<B>>>, Box<B>>
    ensures ok { IfOk result (λ v. v.items ≡ Some value ∷ []) }
    ensures err { IfErr result (λ b. b ≡ value) }
{
    let mut slots = Vec::new(alloc);
    match slots.push(Some(value)) {
        Ok(()) => Ok(slots),
        Err(failed) => {
            let AllocFailed { value } = failed;
            Err(value.unwrap())
        }
    }
}

impl<B: AccountView> AccountLock<B> {
    /// Returns the lock and its root. The value has no entry since its start. If memory runs out,
    /// the value comes back.
    pub fn build(alloc: Global, value: Box<B>) -> Result<(AccountLock<B>, Pass), Box<B>>
        requires { B.entries value.value ≡ [] }
        ensures built { IfOk result (λ r. r.0.built ≡ value.value) }
        ensures root { IfOk result (λ r. r.1 ≡ root_of r.0.id (B.before value.value)
            (B.opening value.value)) }
        ensures err { IfErr result (λ b. b ≡ value) }
    {
        let about = Snapshot::of(&value);
        let slots = build_slot(alloc, value)?;
        match Table::new(alloc, &[0, 0, 0], slots, &about) {
            Ok((table, seat)) => Ok((
                AccountLock { table },
                Pass {
                    name: 0,
                    given: 0,
                    badge: seat.into_badge(),
                    began: Noted::note_nothing(),
                    ended: Noted::note_nothing(),
                },
            )),
            Err(refused) => {
                let Refused { mut slots } = refused;
                Err(slots.pop().unwrap().unwrap())
            }
        }
    }

    /// Waits for the turn, and returns the value. Its entries begin with those that the pass has
    /// seen. Under the pass's own name they are exactly those that were given under it, and under
    /// each ended name exactly those kept with that name.
    pub fn take<R: Wait>(&self, rt: &R, pass: &mut Pass) -> Box<B>
        requires lock { pass.old.lock ≡ self.now.id }
        requires free { (pass.old.root ≡ false) × (pass.old.holds ≡ false) }
        ensures pass { pass.new ≡ record pass.old {
          holds = true;
          last = begun_within None pass.old.last;
          seen = B.entries result.value;
        } }
        ensures seen { StartsWith (B.entries result.value) pass.old.seen }
        ensures own { under pass.old.name (B.entries result.value) ≡ pass.old.own }
        ensures ended { KeepsEnded pass.old (B.entries result.value) }
        ensures before { B.before result.value ≡ pass.old.before }
        ensures opening { B.opening result.value ≡ pass.old.opening }
    {
        let words = &self.table.shared;
        let mut seat = mem::replace(&mut pass.badge, Badge::blank()).into_seat::<Option<Box<B>>>();
        let ticket = draw_ticket(rt, words, &mut seat);
        await_turn(rt, words, &mut seat, ticket);
        let value = lift(words, &mut seat);
        pass.badge = seat.into_badge();
        pass.began = Noted::note_nothing();
        pass.ended = Noted::note_nothing();
        value
    }

    /// Does what [`AccountLock::take`] does, while another pass, which may be of another lock, has
    /// its turn. Contracts then see in which turn of the other pass this turn began.
    pub fn take_within<R: Wait>(&self, rt: &R, pass: &mut Pass, other: &Pass) -> Box<B>
        requires lock { pass.old.lock ≡ self.now.id }
        requires free { (pass.old.root ≡ false) × (pass.old.holds ≡ false) }
        requires other { other.now.holds ≡ true }
        ensures pass { pass.new ≡ record pass.old {
          holds = true;
          last = begun_within (going_turn other.now) pass.old.last;
          seen = B.entries result.value;
        } }
        ensures seen { StartsWith (B.entries result.value) pass.old.seen }
        ensures own { under pass.old.name (B.entries result.value) ≡ pass.old.own }
        ensures ended { KeepsEnded pass.old (B.entries result.value) }
        ensures before { B.before result.value ≡ pass.old.before }
        ensures opening { B.opening result.value ≡ pass.old.opening }
    {
        let value = self.take(rt, pass);
        pass.began = other.note_turn();
        value
    }

    /// Gives the value back, and passes the turn on. Its entries are those that were taken, and
    /// after them entries under this pass's name alone.
    pub fn give(&self, pass: &mut Pass, value: Box<B>)
        requires lock { pass.old.lock ≡ self.now.id }
        requires holds { pass.old.holds ≡ true }
        requires entries { ExtendsUnder pass.old.name pass.old.seen (B.entries value.value) }
        requires before { B.before value.value ≡ pass.old.before }
        requires opening { B.opening value.value ≡ pass.old.opening }
        ensures { pass.new ≡ record pass.old {
          holds = false;
          last = ended_within None pass.old.last;
          seen = B.entries value.value;
          own = under pass.old.name (B.entries value.value);
        } }
    {
        let words = &self.table.shared;
        let mut seat = mem::replace(&mut pass.badge, Badge::blank()).into_seat::<Option<Box<B>>>();
        lay_back(words, &mut seat, value);
        pass.badge = seat.into_badge();
        pass.ended = Noted::note_nothing();
    }

    /// Does what [`AccountLock::give`] does, while another pass, which may be of another lock, has
    /// its turn. Contracts then see in which turn of the other pass this turn ended.
    pub fn give_within(&self, pass: &mut Pass, value: Box<B>, other: &Pass)
        requires lock { pass.old.lock ≡ self.now.id }
        requires holds { pass.old.holds ≡ true }
        requires other { other.now.holds ≡ true }
        requires entries { ExtendsUnder pass.old.name pass.old.seen (B.entries value.value) }
        requires before { B.before value.value ≡ pass.old.before }
        requires opening { B.opening value.value ≡ pass.old.opening }
        ensures { pass.new ≡ record pass.old {
          holds = false;
          last = ended_within (going_turn other.now) pass.old.last;
          seen = B.entries value.value;
          own = under pass.old.name (B.entries value.value);
        } }
    {
        self.give(pass, value);
        pass.ended = other.note_turn();
    }

    /// Returns a pass with the next name, which has seen what the root has seen. It takes no memory
    /// and never fails.
    pub fn split(&self, pass: &mut Pass) -> Result<Pass, NoMemory>
        requires lock { pass.old.lock ≡ self.now.id }
        requires root { (pass.old.root ≡ true) × (pass.old.given < MAX_NAMES) }
        ensures root { pass.new ≡ record pass.old { given = pass.old.given + 1 } }
        ensures new { result ≡ Ok (split_off pass.old) }
    {
        let words = &self.table.shared;
        let mut seat = mem::replace(&mut pass.badge, Badge::blank()).into_seat::<Option<Box<B>>>();
        let new = words.split_seat::<Naming>(&mut seat);
        pass.given += 1;
        pass.badge = seat.into_badge();
        Ok(Pass {
            name: pass.given,
            given: 0,
            badge: new.into_badge(),
            began: Noted::note_nothing(),
            ended: Noted::note_nothing(),
        })
    }

    /// Ends `other`, and adds its name with its entries, and its ended names, to the ended names of
    /// `pass`. The pass has then seen the longer of what the two have seen. If its holder has the
    /// value, that is what it had seen, so the value can be given as before.
    pub fn join(&self, pass: &mut Pass, other: Pass)
        requires lock { (pass.old.lock ≡ self.now.id) × (other.lock ≡ self.now.id) }
        requires other { (other.root ≡ false) × (other.holds ≡ false) }
        ensures pass { pass.new ≡ taken_in pass.old other }
        ensures seen { StartsWith pass.new.seen pass.old.seen }
        ensures heard { StartsWith pass.new.seen other.seen }
        ensures held { pass.old.holds ≡ true → pass.new.seen ≡ pass.old.seen }
        ensures count { pass.old.root ≡ true → length pass.new.ended ≤ pass.new.given }
    {
        let words = &self.table.shared;
        let Pass { badge, .. } = other;
        let mut seat = mem::replace(&mut pass.badge, Badge::blank()).into_seat::<Option<Box<B>>>();
        words.join_seat::<Naming>(&mut seat, badge.into_seat::<Option<Box<B>>>());
        look_back(words, &mut seat);
        pass.badge = seat.into_badge();
    }

    /// Returns the value, after each pass that the root split off was joined with the root, or with
    /// one that was. So each name that was given has ended. Each entry of the value is under an
    /// ended name, and under each ended name are exactly the entries kept with it. If no name was
    /// given, it is the value that the lock was built around.
    pub fn close(self, pass: Pass) -> Box<B>
        requires lock { pass.lock ≡ self.id }
        requires root { (pass.root ≡ true) × IsLast pass }
        ensures seen { StartsWith (B.entries result.value) pass.seen }
        ensures ended { KeepsEnded pass (B.entries result.value) }
        ensures all { HasEndedAll pass }
        ensures names { HasNoOthers pass (B.entries result.value) }
        ensures before { B.before result.value ≡ pass.before }
        ensures opening { B.opening result.value ≡ pass.opening }
        ensures built { pass.given ≡ 0 → result.value ≡ self.built }
    {
        let AccountLock { table } = self;
        let Pass { badge, .. } = pass;
        let mut closed = table.close_with(badge.into_seat::<Option<Box<B>>>());
        let value = closed.take(0);
        closed.free();
        value.unwrap()
    }
}

impl Pass {
    /// Returns its name in the lock, which is 0 for the root.
    pub fn name(&self) -> u64
        ensures { result ≡ self.now.name }
    {
        self.name
    }

    // Notes the turn that it has, if it has one.
    fn note_turn(&self) -> Noted
        ensures { result ≡ going_turn self.now }
    {
        Noted::of(&self.badge)
    }
}

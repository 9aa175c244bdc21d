// A hall's front, which lets sessions in and out.
ghost use Rattle.std.specs.Prelude.{◌≡◌, ◌↔◌, ◌+◌, ◌-◌, ◌<◌, ◌≤◌, [], true, map, IfOk, IfErr, OnErr, vec_len, vec_capacity};
ghost use Rattle.std.specs.List.{AllByRecursion};
ghost use Rattle.account_lock.specs.Passes.{split_off};
ghost use Rattle.account_lock.specs.declared.limits.TheConstants.{MAX_NAMES as TheMaxNames};
ghost use Rattle.account_hall.specs.Halls.{AreOf, IsFrontPass, all_taken_in, HaveHeard, one_given, room_view};
ghost use Rattle.account_hall.specs.Sessions.{IsFree};
ghost use Rattle.account_hall.specs.declared.front.AdmitFault.TheVariants as TheFault;
ghost use Rattle.jm_base.specs.declared.limits.TheConstants.{MAX_SESSIONS as TheMaxSessions};

use crate::hall::{Hall, Room};
use crate::passes::{Passes, Trail};
use account_book::Rules;
use account_lock::{AccountLock, AccountView, Pass};
use jm_base::{MAX_SESSIONS, Sequence};
use keep_port::Keeper;
use std::alloc::Global;
use std::collections::VecDeque;
use std::marker::Model;

/// Why a session is not admitted.
#[derive(Clone, Copy, Debug, PartialEq, Eq)]
pub enum AdmitFault {
    /// As many sessions are in as a hall has at most.
    Full,
    /// Memory ran out.
    NoMemory,
}

/// Lets sessions into a hall and out. It has the root of each account's lock. Contracts see what
/// the roots have seen, how many sessions are in, and how many were admitted up to now.
#[derive(Drop)]
pub struct Front {
    pub(crate) roots: Vec<Pass>,
    pub(crate) inside: u64,
    pub(crate) admitted: u64,
}

impl Model for Front {
    ghost use Rattle.account_hall.specs.Halls.{FrontView, IsFront};

    ghost Value = { FrontView };

    ghost view = { λ f. record {
      roots = f.roots.items;
      inside = f.inside;
      admitted = f.admitted;
    } };

    ghost invariant = { λ f. IsFront (record {
      roots = f.roots.items;
      inside = f.inside;
      admitted = f.admitted;
    }) };
}

// Splits a pass off a root. It never fails.
fn split_one<B: AccountView>(lock: &AccountLock<B>, root: &mut Pass) -> Pass
    requires lock { root.old.lock ≡ lock.now.id }
    requires root { (root.old.root ≡ true) × (root.old.given < TheMaxNames) }
    ensures root { root.new ≡ one_given root.old }
    ensures new { result ≡ split_off root.old }
{
    match lock.split(root) {
        Ok(pass) => pass,
        Err(_) => unreachable!(),
    }
}

// Splits a pass off each root, for which there is room in the list.
fn split_all<K: Keeper, R: Rules>(
    rooms: &Vec<Room<K, R>>,
    roots: &mut Vec<Pass>,
    list: &mut Vec<Pass>,
    inside: u64,
    admitted: u64,
)
    requires hall { AreOf (map room_view rooms.now.items) roots.old.items }
    requires roots { AllByRecursion (IsFrontPass inside admitted) roots.old.items }
    requires names { admitted < TheMaxNames }
    requires list { list.old.items ≡ [] }
    requires room { vec_len rooms.now ≤ vec_capacity list.old }
    ensures roots { roots.new.items ≡ map one_given roots.old.items }
    ensures list { list.new.items ≡ map split_off roots.old.items }
{
    let _counts = (inside, admitted);
    for i in 0..rooms.len() {
        let pass = split_one(&rooms[i].lock, &mut roots[i]);
        list.push_reserved(pass);
    }
}

// Joins each pass with its root.
fn join_all<K: Keeper, R: Rules>(
    rooms: &Vec<Room<K, R>>,
    roots: &mut Vec<Pass>,
    list: Vec<Pass>,
    inside: u64,
    admitted: u64,
)
    requires hall { AreOf (map room_view rooms.now.items) roots.old.items }
    requires session { AreOf (map room_view rooms.now.items) list.items }
    requires free { AllByRecursion IsFree list.items }
    requires roots { AllByRecursion (IsFrontPass inside admitted) roots.old.items }
    ensures roots { roots.new.items ≡ all_taken_in roots.old.items list.items }
    ensures heard { HaveHeard roots.new.items roots.old.items list.items }
    ensures front { AllByRecursion (IsFrontPass (inside - 1) admitted) roots.new.items }
{
    let _counts = (inside, admitted);
    let mut rest = VecDeque::from_vec(list);
    let mut i = 0usize;
    while let Some(pass) = rest.pop_front() {
        rooms[i].lock.join(&mut roots[i], pass);
        i += 1;
    }
}

impl Front {
    /// Lets a session in. It has seen of each account what the front has seen, and its trail is
    /// empty.
    ///
    /// Fails with `Full` if and only if `MAX_SESSIONS` sessions are in, and with `NoMemory` if
    /// memory runs out. Then the front stays as it was.
    pub fn admit<K: Keeper, R: Rules>(
        &mut self,
        alloc: Global,
        hall: &Hall<K, R>,
    ) -> Result<Passes, AdmitFault>
        requires hall { AreOf hall.now self.old.roots }
        requires names { self.old.admitted < TheMaxNames }
        ensures passes { IfOk result (λ p. (p.passes ≡ map split_off self.old.roots)
            × (p.trail ≡ [])) }
        ensures roots { IfOk result (λ _. self.new ≡ record {
          roots = map one_given self.old.roots;
          inside = self.old.inside + 1;
          admitted = self.old.admitted + 1;
        }) }
        ensures room { IfOk result (λ _. self.old.inside < TheMaxSessions) }
        ensures session { IfOk result (λ p. AreOf hall.now p.passes) }
        ensures front { AreOf hall.now self.new.roots }
        ensures full { IfErr result (λ e. (e ≡ TheFault.Full)
            ↔ (self.old.inside ≡ TheMaxSessions)) }
        ensures same { OnErr result (self.new ≡ self.old) }
    {
        if self.inside >= MAX_SESSIONS {
            return Err(AdmitFault::Full);
        }
        let Ok(mut list) = Vec::with_capacity(alloc, hall.rooms.len()) else {
            return Err(AdmitFault::NoMemory);
        };
        split_all(
            &hall.rooms,
            &mut self.roots,
            &mut list,
            self.inside,
            self.admitted,
        );
        self.inside += 1;
        self.admitted += 1;
        Ok(Passes {
            list,
            trail: Vec::new(alloc),
        })
    }

    /// Lets a session out, and returns its trail. The front has then seen of each account the
    /// longer of what the two had seen, and keeps the session's entries under its name.
    pub fn leave<K: Keeper, R: Rules>(&mut self, hall: &Hall<K, R>, passes: Passes) -> Trail
        requires hall { AreOf hall.now self.old.roots }
        requires session { AreOf hall.now passes.passes }
        ensures roots { self.new.roots ≡ all_taken_in self.old.roots passes.passes }
        ensures heard { HaveHeard self.new.roots self.old.roots passes.passes }
        ensures inside { self.new.inside ≡ self.old.inside - 1 }
        ensures admitted { self.new.admitted ≡ self.old.admitted }
        ensures front { AreOf hall.now self.new.roots }
        ensures trail { result ≡ passes.trail }
    {
        let Passes { list, trail } = passes;
        join_all(
            &hall.rooms,
            &mut self.roots,
            list,
            self.inside,
            self.admitted,
        );
        self.inside = self.inside.saturating_sub(1);
        Sequence::from_vec(trail)
    }
}

// What performs calls on the accounts of a hall.
ghost use Rattle.std.specs.Prelude.{◌≡◌, ◌≢◌, ◌<◌, ◌≤◌, ℕ, List, length, IfOk, OnErr};
ghost use Rattle.jm_base.specs.declared.utc_dates.TheConstants.{LAST_TIMESTAMP};
ghost use Rattle.account_hall.specs.Halls.{AreOf, RoomView};
ghost use Rattle.account_hall.specs.Sessions.{IsLook};
ghost use Rattle.hall_port.specs.Steps.{Calls};

use account_book::{Call, Out, Rules};
use account_hall::{CopyCall, Hall, Passes};
use jm_base::NoMemory;
use keep_port::Keeper;
use std::alloc::Global;

/// Performs calls of sessions on the accounts of a hall, and copies between these, perhaps by
/// waiting for other sessions.
pub trait Asks: Drop {
    /// The value may perform calls.
    ghost can_ask: { Self → Type 0 };

    /// The accounts of the hall, by number.
    ghost rooms: { Self → List RoomView };

    /// What a session's next call, or copy, may be.
    ghost calls: { Calls };

    /// Performs a call on an account, at a timestamp in seconds since the beginning of 1970. Fails
    /// only if memory runs out. Then the session may have seen more of the account.
    fn ask(
        &self,
        alloc: Global,
        passes: &mut Passes,
        account: u64,
        call: &Call,
        time: u64,
    ) -> Result<Out, NoMemory>
        requires ready { can_ask self.now }
        requires hall { AreOf (rooms self.now) passes.old.passes }
        requires account { account < length (rooms self.now) }
        requires in_range { time ≤ LAST_TIMESTAMP }
        ensures asked { IfOk result
            (λ out. calls.calls account call.now time passes.old passes.new out) }
        ensures stopped { OnErr result (IsLook account passes.old passes.new) }
        ensures hall { AreOf (rooms self.now) passes.new.passes };

    /// Performs a copy from an account to another, at a timestamp in seconds since the beginning of
    /// 1970. Fails only if memory runs out. Then what was performed before that is kept.
    fn copy(
        &self,
        alloc: Global,
        passes: &mut Passes,
        copy: CopyCall,
        time: u64,
    ) -> Result<Out, NoMemory>
        requires ready { can_ask self.now }
        requires hall { AreOf (rooms self.now) passes.old.passes }
        requires from { copy.from < length (rooms self.now) }
        requires to { copy.to < length (rooms self.now) }
        requires apart { copy.from ≢ copy.to }
        requires in_range { time ≤ LAST_TIMESTAMP }
        ensures copied { IfOk result (λ out. calls.copies copy time passes.old passes.new out) }
        ensures stopped { OnErr result (calls.copy_stops copy time passes.old passes.new) }
        ensures hall { AreOf (rooms self.now) passes.new.passes };
}

/// A hall, and function values that perform calls on its accounts and copies between them. The
/// values are made by a function that has the bounds of the hall's parameters: an `impl` can't hand
/// bounds of traits with `Send` on to the functions that it calls.
#[derive(Drop)]
pub(crate) struct Asker<'a, K: Keeper, R: Rules, F, G> {
    pub(crate) hall: &'a Hall<K, R>,
    pub(crate) call: F,
    pub(crate) copy: G,
}

impl<
    'a,
    K: Keeper,
    R: Rules,
    F: Fn(Global, &mut Passes, u64, &Call, u64) -> Result<Out, NoMemory> + Drop,
    G: Fn(Global, &mut Passes, CopyCall, u64) -> Result<Out, NoMemory> + Drop,
> Asks for Asker<'a, K, R, F, G> {
    ghost use Rattle.hall_port.specs.Asking.{AsksHall, CopiesHall};
    ghost use Rattle.hall_port.specs.Steps.{calls_by};

    ghost can_ask = { λ a. AsksHall (calls_by R.plan_of) a.hall.now (F.pre a.call)
        (F.post a.call) × CopiesHall (calls_by R.plan_of) a.hall.now (G.pre a.copy)
        (G.post a.copy) };

    ghost rooms = { λ a. a.hall.now };

    ghost calls = { calls_by R.plan_of };

    fn ask(
        &self,
        alloc: Global,
        passes: &mut Passes,
        account: u64,
        call: &Call,
        time: u64,
    ) -> Result<Out, NoMemory> {
        (self.call)(alloc, passes, account, call, time)
    }

    fn copy(
        &self,
        alloc: Global,
        passes: &mut Passes,
        copy: CopyCall,
        time: u64,
    ) -> Result<Out, NoMemory> {
        (self.copy)(alloc, passes, copy, time)
    }
}

// Calls of a session on an account.
ghost use Rattle.std.specs.Prelude.{◌≡◌, ◌≤◌, ◌<◌, false, length, IfOk, None, OnErr, OnOk};
ghost use Rattle.account_book.specs.Plans.{last_moment};
ghost use Rattle.account_hall.specs.Calls.{HasLooked, IsCalled, IsPerformed};
ghost use Rattle.account_hall.specs.Halls.{AreOf, entries_of};
ghost use Rattle.account_hall.specs.Sessions.{HasHadTurn, IsCall, IsLook};
ghost use Rattle.account_lock.specs.Entries.{ExtendsUnder};
ghost use Rattle.account_lock.specs.Views.{begun_within};

use crate::hall::Hall;
use crate::passes::Passes;
use account_book::{Book, Call, Done, Out, Point, Rules};
use account_lock::{AccountLock, Pass};
use jm_base::NoMemory;
use keep_port::Keeper;
use mail_records::Stamp;
use std::alloc::Global;
use std::sync::Wait;

// Performs a call on a book, under the pass of this number.
pub(crate) fn perform_under<K: Keeper, R: Rules>(
    alloc: Global,
    book: &mut Box<Book<K, R>>,
    number: u64,
    serial: u64,
    call: &Call,
    moment: u64,
) -> Result<Done, NoMemory>
    requires moment { moment ≤ last_moment }
    ensures done { IfOk result (λ done. IsPerformed (R.plan_of book.old.value.rules)
        book.old.value.opened (entries_of book.old.value) (entries_of book.new.value) number serial
        call.now moment done.before done.after done.out) }
    ensures extends { ExtendsUnder number (entries_of book.old.value)
        (entries_of book.new.value) }
    ensures none { OnErr result (entries_of book.new.value ≡ entries_of book.old.value) }
    ensures opened { book.new.value.opened ≡ book.old.value.opened }
    ensures before { book.new.value.before ≡ book.old.value.before }
{
    book.keeps();
    let stamp = Stamp {
        pass: book.pass_of(number),
        serial,
    };
    let done = book.perform(alloc, call, stamp, moment);
    book.keeps();
    done
}

// Performs a call on the account that a lock guards. The serial is that of its entry, if it makes
// one.
fn call_at<K: Keeper, R: Rules, W: Wait>(
    rt: &W,
    alloc: Global,
    lock: &AccountLock<Book<K, R>>,
    pass: &mut Pass,
    serial: u64,
    call: &Call,
    moment: u64,
) -> Result<Done, NoMemory>
    requires lock { pass.old.lock ≡ lock.now.id }
    requires free { (pass.old.root ≡ false) × (pass.old.holds ≡ false) }
    requires moment { moment ≤ last_moment }
    ensures called { IfOk result (λ done. (rules : R) × IsCalled (R.plan_of rules) pass.old pass.new
        serial call.now moment done.before done.after done.out) }
    ensures looked { OnErr result (HasLooked pass.old pass.new) }
    ensures turn { pass.new.last ≡ begun_within None pass.old.last }
{
    let mut book = lock.take(rt, pass);
    let number = pass.name();
    let done = perform_under(alloc, &mut book, number, serial, call, moment);
    lock.give(pass, book);
    done
}

impl<K: Keeper, R: Rules> Hall<K, R> {
    /// Performs a call on an account, at a timestamp in seconds since the beginning of 1970. It may
    /// wait for other sessions that use the account. The session has one turn at it, and the trail
    /// gains the point of the call.
    ///
    /// Fails only if memory runs out. Then the trail and the session's entries are as before, and
    /// the session may have seen more of the account.
    pub fn call<W: Wait>(
        &self,
        rt: &W,
        alloc: Global,
        passes: &mut Passes,
        account: u64,
        call: &Call,
        moment: u64,
    ) -> Result<Out, NoMemory>
        requires hall { AreOf self.now passes.old.passes }
        requires account { account < length self.now }
        requires moment { moment ≤ last_moment }
        ensures called { IfOk result (λ out. (rules : R) × IsCall (R.plan_of rules) account call.now
            moment passes.old passes.new out) }
        ensures looked { OnErr result (IsLook account passes.old passes.new) }
        ensures turn { OnOk result (HasHadTurn account passes.old passes.new) }
        ensures hall { AreOf self.now passes.new.passes }
    {
        passes.trail.reserve(1)?;
        let serial = passes.trail.len() as u64 + 1;
        let index = account as usize;
        let room = &self.rooms[index];
        let pass = &mut passes.list[index];
        match call_at(rt, alloc, &room.lock, pass, serial, call, moment) {
            Ok(done) => {
                let Done { out, before, after } = done;
                passes.trail.push_reserved(Point {
                    account,
                    before,
                    after,
                    moment,
                });
                Ok(out)
            }
            Err(refused) => Err(refused),
        }
    }
}

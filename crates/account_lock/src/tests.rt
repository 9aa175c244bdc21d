// Threads that take turns at a small value, a waiter that parks, and passes that are joined.
ghost use Rattle.std.specs.Prelude.{◌≡◌, ◌+◌, ◌<◌, ◌^◌, [], true, false, length, IfOk, IfSome, OnOk, Some, ◌++◌, ◌∷◌};
ghost use Rattle.account_lock.specs.Views.{turn_of};

mod diary;

use crate::steps::{PARKED, SERVING, TICKET};
use crate::{AccountLock, Pass};
use diary::{Diary, enter_in_turn};
use jm_base::NoMemory;
use mail_records::Stamp;
use std::alloc::Global;
use std::sync::Wait;
use std::sync::atomic::{AtomicBool, Ordering};
use std::test::*;
use std::thread::{Threads, join, sleep};
use std::time::{Clock, Duration};

// How many turns each of the four threads takes.
const TURNS: u64 = 10_000;

// How many milliseconds a thread looks for another before it continues without it.
const LOOKS: u64 = 10_000;

fn turns<R: Wait>(
    rt: &R,
    lock: &AccountLock<Diary>,
    mut pass: Pass,
    count: u64,
) -> Result<Pass, NoMemory>
    requires lock { pass.lock ≡ lock.now.id }
    requires free { (pass.root ≡ false) × (pass.holds ≡ false) }
    ensures { IfOk result (λ p. p ≡ record pass { last = p.last; seen = p.seen; own = p.own }) }
{
    for serial in 0..count {
        enter_in_turn(rt, lock, &mut pass, serial)?;
    }
    Ok(pass)
}

// Two threads take their turns. Their passes are then as before, but for what they have seen and
// gave.
fn two_at_once<R: Threads + Wait + Sync>(
    rt: &R,
    lock: &AccountLock<Diary>,
    first: Pass,
    second: Pass,
) -> Result<(Pass, Pass), NoMemory>
    requires lock { (first.lock ≡ lock.now.id) × (second.lock ≡ lock.now.id) }
    requires free { (first.root ≡ false) × (first.holds ≡ false) × (second.root ≡ false)
        × (second.holds ≡ false) }
    ensures first { IfOk result (λ r. r.0
        ≡ record first { last = r.0.last; seen = r.0.seen; own = r.0.own }) }
    ensures second { IfOk result (λ r. r.1
        ≡ record second { last = r.1.last; seen = r.1.seen; own = r.1.own }) }
{
    let (a, b) = join(
        rt,
        || -> Result<Pass, NoMemory>
            requires { (first.lock ≡ lock.now.id) × (first.root ≡ false) × (first.holds ≡ false) }
            ensures { IfOk result (λ p. p
                ≡ record first { last = p.last; seen = p.seen; own = p.own }) }
        { turns(rt, lock, first, TURNS) },
        || -> Result<Pass, NoMemory>
            requires { (second.lock ≡ lock.now.id) × (second.root ≡ false)
                × (second.holds ≡ false) }
            ensures { IfOk result (λ p. p
                ≡ record second { last = p.last; seen = p.seen; own = p.own }) }
        { turns(rt, lock, second, TURNS) },
    );
    Ok((a?, b?))
}

// Joins a pass with which no other name ended.
fn end(lock: &AccountLock<Diary>, root: &mut Pass, other: Pass)
    requires lock { (root.old.lock ≡ lock.now.id) × (other.lock ≡ lock.now.id) }
    requires other { (other.root ≡ false) × (other.holds ≡ false) × (other.ended ≡ []) }
    ensures root { root.new ≡ record root.old { seen = root.new.seen; ended = root.new.ended } }
    ensures ended { length root.new.ended ≡ length root.old.ended + 1 }
{
    lock.join(root, other);
}

// Four threads take their turns, and then the diary comes out of the lock.
fn by_four<R: Threads + Wait + Sync>(
    rt: &R,
    lock: AccountLock<Diary>,
    mut root: Pass,
) -> Result<Box<Diary>, NoMemory>
    requires lock { root.lock ≡ lock.id }
    requires root { (root.root ≡ true) × (root.given ≡ 0) × (root.ended ≡ []) }
{
    let (Ok(a), Ok(b), Ok(c), Ok(d)) = (
        lock.split(&mut root),
        lock.split(&mut root),
        lock.split(&mut root),
        lock.split(&mut root),
    ) else {
        return Err(NoMemory);
    };
    let (low, high) = join(
        rt,
        || -> Result<(Pass, Pass), NoMemory>
            requires { (a.lock ≡ lock.id) × (a.root ≡ false) × (a.holds ≡ false)
                × (b.lock ≡ lock.id) × (b.root ≡ false) × (b.holds ≡ false) }
            ensures { IfOk result (λ r.
                (r.0 ≡ record a { last = r.0.last; seen = r.0.seen; own = r.0.own })
                × (r.1 ≡ record b { last = r.1.last; seen = r.1.seen; own = r.1.own })) }
        { two_at_once(rt, &lock, a, b) },
        || -> Result<(Pass, Pass), NoMemory>
            requires { (c.lock ≡ lock.id) × (c.root ≡ false) × (c.holds ≡ false)
                × (d.lock ≡ lock.id) × (d.root ≡ false) × (d.holds ≡ false) }
            ensures { IfOk result (λ r.
                (r.0 ≡ record c { last = r.0.last; seen = r.0.seen; own = r.0.own })
                × (r.1 ≡ record d { last = r.1.last; seen = r.1.seen; own = r.1.own })) }
        { two_at_once(rt, &lock, c, d) },
    );
    let (a, b) = low?;
    let (c, d) = high?;
    end(&lock, &mut root, a);
    end(&lock, &mut root, b);
    end(&lock, &mut root, c);
    end(&lock, &mut root, d);
    Ok(lock.close(root))
}

#[test]
fn four_threads_enter_each_stamp_once_and_in_order(rt: HostRuntime) -> Result<(), Fail> {
    let alloc = rt.alloc();
    let diary = Box::new(alloc, Diary::new(alloc))?;
    let Ok((lock, root)) = AccountLock::build(alloc, diary) else {
        return Err(Fail::from(std::alloc::AllocError));
    };
    let diary = by_four(&rt, lock, root)?;
    let mut next = [0u64; 5];
    for stamp in diary.stamps() {
        let Some(serial) = next.get_mut(stamp.pass as usize) else {
            return Err("an entry under a name that was never given")?;
        };
        assert_eq!(rt; stamp.serial, *serial);
        *serial = serial.wrapping_add(1);
    }
    assert_eq!(rt; next, [0, TURNS, TURNS, TURNS, TURNS]);
    Ok(())
}

// Looks each millisecond whether a flag is set, and gives up after many looks.
fn look_for<R: Clock>(rt: &R, flag: &AtomicBool) -> bool {
    for _ in 0..LOOKS {
        if flag.load(Ordering::SeqCst) {
            return true;
        }
        sleep(rt, Duration::from_millis(1));
    }
    false
}

// Looks each millisecond whether a thread is counted as parked, and then lets it fall asleep. Gives
// up after many looks.
fn look_for_parked<R: Clock>(rt: &R, lock: &AccountLock<Diary>) -> bool {
    for _ in 0..LOOKS {
        if lock.table.shared.peek(PARKED) > 0 {
            sleep(rt, Duration::from_millis(50));
            return true;
        }
        sleep(rt, Duration::from_millis(1));
    }
    false
}

// Wakes who sleeps each millisecond until the other thread has drawn a ticket, and then lets that
// one fall asleep with it. Gives up after many looks.
fn look_for_ticket<R: Clock>(rt: &R, lock: &AccountLock<Diary>) -> bool {
    for _ in 0..LOOKS {
        if lock.table.shared.peek(TICKET) == 2 {
            sleep(rt, Duration::from_millis(50));
            return true;
        }
        lock.table.shared.wake_all(SERVING);
        sleep(rt, Duration::from_millis(1));
    }
    false
}

// Takes the turn, keeps it until the other thread is parked, with a ticket or without one, and
// looks whether that one then has its turn. At last it wakes who still sleeps, so that the test
// ends if nobody else did.
fn hold<R: Wait + Clock>(
    rt: &R,
    lock: &AccountLock<Diary>,
    mut pass: Pass,
    with_ticket: bool,
    held: &AtomicBool,
    done: &AtomicBool,
) -> Option<Pass>
    requires lock { pass.lock ≡ lock.now.id }
    requires free { (pass.root ≡ false) × (pass.holds ≡ false) }
    ensures { IfSome result (λ p. p ≡ record pass { last = p.last; seen = p.seen; own = p.own }) }
{
    let diary = lock.take(rt, &mut pass);
    held.store(true, Ordering::SeqCst);
    let parked = if with_ticket {
        look_for_ticket(rt, lock)
    } else {
        look_for_parked(rt, lock)
    };
    lock.give(&mut pass, diary);
    let woken = look_for(rt, done);
    lock.table.shared.wake_all(SERVING);
    if parked && woken {
        return Some(pass);
    }
    None
}

// Comes once the turn is taken, and enters a stamp in the next one.
fn come<R: Wait + Clock>(
    rt: &R,
    lock: &AccountLock<Diary>,
    mut pass: Pass,
    held: &AtomicBool,
    done: &AtomicBool,
) -> Option<Pass>
    requires lock { pass.lock ≡ lock.now.id }
    requires free { (pass.root ≡ false) × (pass.holds ≡ false) }
    ensures { IfSome result (λ p. p ≡ record pass { last = p.last; seen = p.seen; own = p.own }) }
{
    let found = look_for(rt, held);
    let entered = enter_in_turn(rt, lock, &mut pass, 7);
    done.store(true, Ordering::SeqCst);
    if found && entered.is_ok() {
        return Some(pass);
    }
    None
}

// One thread holds the diary while the other parks. Returns the diary if the other one did, and was
// woken.
fn hold_and_come<R: Threads + Wait + Clock + Sync>(
    rt: &R,
    lock: AccountLock<Diary>,
    mut root: Pass,
    with_ticket: bool,
) -> Option<Box<Diary>>
    requires lock { root.lock ≡ lock.id }
    requires root { (root.root ≡ true) × (root.given ≡ 0) × (root.ended ≡ []) }
{
    let (Ok(first), Ok(second)) = (lock.split(&mut root), lock.split(&mut root)) else {
        return None;
    };
    let held = AtomicBool::new(false);
    let done = AtomicBool::new(false);
    let (one, two) = join(
        rt,
        || -> Option<Pass>
            requires { (first.lock ≡ lock.id) × (first.root ≡ false) × (first.holds ≡ false) }
            ensures { IfSome result (λ p. p
                ≡ record first { last = p.last; seen = p.seen; own = p.own }) }
        { hold(rt, &lock, first, with_ticket, &held, &done) },
        || -> Option<Pass>
            requires { (second.lock ≡ lock.id) × (second.root ≡ false) × (second.holds ≡ false) }
            ensures { IfSome result (λ p. p
                ≡ record second { last = p.last; seen = p.seen; own = p.own }) }
        { come(rt, &lock, second, &held, &done) },
    );
    end(&lock, &mut root, one?);
    end(&lock, &mut root, two?);
    Some(lock.close(root))
}

// Returns the diary after one thread parked while the other had it, and was woken.
fn parked_diary<R: Threads + Wait + Clock + Sync>(
    rt: &R,
    alloc: Global,
    with_ticket: bool,
) -> Result<Option<Box<Diary>>, Fail> {
    let diary = Box::new(alloc, Diary::new(alloc))?;
    let Ok((lock, root)) = AccountLock::build(alloc, diary) else {
        return Err(Fail::from(std::alloc::AllocError));
    };
    Ok(hold_and_come(rt, lock, root, with_ticket))
}

#[test]
fn a_waiter_that_parks_is_woken(rt: HostRuntime) -> Result<(), Fail> {
    let stamp = Stamp { pass: 2, serial: 7 };
    let Some(diary) = parked_diary(&rt, rt.alloc(), false)? else {
        return Err("the waiter didn't park, or wasn't woken")?;
    };
    assert_eq!(rt; diary.stamps(), [stamp].as_slice());
    Ok(())
}

#[test]
fn a_waiter_that_parks_with_its_ticket_is_woken(rt: HostRuntime) -> Result<(), Fail> {
    let stamp = Stamp { pass: 2, serial: 7 };
    let Some(diary) = parked_diary(&rt, rt.alloc(), true)? else {
        return Err("the waiter drew no ticket, or wasn't woken")?;
    };
    assert_eq!(rt; diary.stamps(), [stamp].as_slice());
    Ok(())
}

// A pass takes the diary, joins another while it has it, and gives it back.
fn join_in_turn<R: Wait>(rt: &R, lock: &AccountLock<Diary>, pass: &mut Pass, other: Pass)
    requires lock { (pass.old.lock ≡ lock.now.id) × (other.lock ≡ lock.now.id) }
    requires free { (pass.old.root ≡ false) × (pass.old.holds ≡ false) }
    requires other { (other.root ≡ false) × (other.holds ≡ false) × (other.ended ≡ []) }
    ensures pass { pass.new ≡ record pass.old {
      last = pass.new.last;
      seen = pass.new.seen;
      own = pass.new.own;
      ended = pass.new.ended;
    } }
    ensures ended { length pass.new.ended ≡ length pass.old.ended + 1 }
{
    let diary = lock.take(rt, pass);
    lock.join(pass, other);
    lock.give(pass, diary);
}

// The second pass ends with the first, and the first with the root. Answers the diary with an entry
// of the second and two of the first.
fn one_through_another<R: Wait>(
    rt: &R,
    lock: AccountLock<Diary>,
    mut root: Pass,
) -> Result<Box<Diary>, NoMemory>
    requires lock { root.lock ≡ lock.id }
    requires root { (root.root ≡ true) × (root.given ≡ 0) × (root.ended ≡ []) }
{
    let mut first = lock.split(&mut root)?;
    let mut second = lock.split(&mut root)?;
    enter_in_turn(rt, &lock, &mut first, 5)?;
    enter_in_turn(rt, &lock, &mut second, 6)?;
    join_in_turn(rt, &lock, &mut first, second);
    enter_in_turn(rt, &lock, &mut first, 7)?;
    lock.join(&mut root, first);
    Ok(lock.close(root))
}

#[test]
fn a_pass_ends_through_another(rt: HostRuntime) -> Result<(), Fail> {
    let alloc = rt.alloc();
    let diary = Box::new(alloc, Diary::new(alloc))?;
    let Ok((lock, root)) = AccountLock::build(alloc, diary) else {
        return Err(Fail::from(std::alloc::AllocError));
    };
    let diary = one_through_another(&rt, lock, root)?;
    let wanted = [
        Stamp { pass: 1, serial: 5 },
        Stamp { pass: 2, serial: 6 },
        Stamp { pass: 1, serial: 7 },
    ];
    assert_eq!(rt; diary.stamps(), wanted.as_slice());
    Ok(())
}

// A pass of each of two locks has a turn, the second within that of the first.
fn one_within_another<R: Wait>(
    rt: &R,
    locks: (&AccountLock<Diary>, &AccountLock<Diary>),
    first: &mut Pass,
    second: &mut Pass,
)
    requires locks { (first.old.lock ≡ locks.0.now.id) × (second.old.lock ≡ locks.1.now.id) }
    requires free { (first.old.root ≡ false) × (first.old.holds ≡ false)
        × (second.old.root ≡ false) × (second.old.holds ≡ false) }
    ensures first { first.new ≡ record first.old {
      last = first.new.last;
      seen = first.new.seen;
      own = first.new.own;
    } }
    ensures second { second.new ≡ record second.old {
      last = second.new.last;
      seen = second.new.seen;
      own = second.new.own;
    } }
    ensures once { first.new.last.number ≡ first.old.last.number + 1 }
    ensures within { second.new.last ≡ record {
      number = second.old.last.number + 1;
      began_in = Some (turn_of first.new);
      ended_in = Some (turn_of first.new);
    } }
{
    let diary = locks.0.take(rt, first);
    let other = locks.1.take_within(rt, second, first);
    locks.1.give_within(second, other, first);
    locks.0.give(first, diary);
}

// A stamp is entered in each of two diaries after a turn at both. Answers both.
fn after_both<R: Wait>(
    rt: &R,
    one: (AccountLock<Diary>, Pass),
    two: (AccountLock<Diary>, Pass),
) -> Result<(Box<Diary>, Box<Diary>), NoMemory>
    requires locks { (one.1.lock ≡ one.0.id) × (two.1.lock ≡ two.0.id) }
    requires one { (one.1.root ≡ true) × (one.1.given ≡ 0) × (one.1.ended ≡ []) }
    requires two { (two.1.root ≡ true) × (two.1.given ≡ 0) × (two.1.ended ≡ []) }
{
    let (lock, mut root) = one;
    let (other_lock, mut other_root) = two;
    let mut first = lock.split(&mut root)?;
    let mut second = other_lock.split(&mut other_root)?;
    one_within_another(rt, (&lock, &other_lock), &mut first, &mut second);
    enter_in_turn(rt, &lock, &mut first, 3)?;
    enter_in_turn(rt, &other_lock, &mut second, 4)?;
    end(&lock, &mut root, first);
    end(&other_lock, &mut other_root, second);
    Ok((lock.close(root), other_lock.close(other_root)))
}

#[test]
fn a_turn_lies_within_one_of_another_lock(rt: HostRuntime) -> Result<(), Fail> {
    let alloc = rt.alloc();
    let diary = Box::new(alloc, Diary::new(alloc))?;
    let other = Box::new(alloc, Diary::new(alloc))?;
    let (Ok(one), Ok(two)) = (
        AccountLock::build(alloc, diary),
        AccountLock::build(alloc, other),
    ) else {
        return Err(Fail::from(std::alloc::AllocError));
    };
    let (diary, other) = after_both(&rt, one, two)?;
    assert_eq!(rt; diary.stamps(), [Stamp { pass: 1, serial: 3 }].as_slice());
    assert_eq!(rt; other.stamps(), [Stamp { pass: 1, serial: 4 }].as_slice());
    Ok(())
}

// Closes a lock of which no name was given, and returns the value that it was built around.
fn close_unused(lock: AccountLock<Diary>, root: Pass) -> Box<Diary>
    requires lock { root.lock ≡ lock.id }
    requires root { (root.root ≡ true) × (root.given ≡ 0) × (root.ended ≡ []) }
    ensures { result.value ≡ lock.built }
{
    lock.close(root)
}

#[test]
fn a_lock_without_names_gives_back_what_was_built(rt: HostRuntime) -> Result<(), Fail> {
    let alloc = rt.alloc();
    let diary = Box::new(alloc, Diary::new(alloc))?;
    let Ok((lock, root)) = AccountLock::build(alloc, diary) else {
        return Err(Fail::from(std::alloc::AllocError));
    };
    assert!(rt; close_unused(lock, root).stamps().is_empty());
    Ok(())
}

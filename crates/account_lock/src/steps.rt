// The steps of a turn on the words and the slot.
ghost use Rattle.std.specs.Prelude.{◌≡◌, ◌%◌, ◌^◌, ◌<◌, ◌∷◌, true, false, [], Some, length, ◌≤◌};
ghost use Rattle.account_lock.specs.Entries.{StartsWith, ExtendsUnder, under};
ghost use Rattle.account_lock.specs.Steps.{IsLockTable, Got, drew};

use crate::account_view::AccountView;
use crate::rule::{
    DrawTicket, LeaveEmpty, LockSeat, LookBack, MarkParked, PassTurn, TakeEmpty, TryTicket,
    WatchServing, Words,
};
use std::hint;
use std::sync::Wait;

// The word that counts the tickets drawn.
pub(crate) const TICKET: usize = 0;

// The word that shows the ticket which is served.
pub(crate) const SERVING: usize = 1;

// The word that shows one more than the last turn over which a thread parked.
pub(crate) const PARKED: usize = 2;

// How often a waiter looks at the words before it parks.
const LOOKS_BEFORE_PARKING: u32 = 40;

// How often the number of pauses between two looks doubles.
const DOUBLINGS: u32 = 6;

// How often it looks before it draws a ticket though the lock isn't free. It has then parked three
// times.
const LOOKS_BEFORE_DRAWING: u32 = 3 * (LOOKS_BEFORE_PARKING + 1);

// Draws a ticket, and returns what the ticket word showed. It is drawn while the lock looks free,
// so that threads that don't run mostly hold none, and those that run needn't wait for them. A
// thread that has parked some times without finding the lock free draws in any case, and so has its
// turn in the order of tickets.
pub(crate) fn draw_ticket<B: AccountView, R: Wait>(
    rt: &R,
    words: &Words<B>,
    seat: &mut LockSeat<B>,
) -> u64
    requires table { (seat.old.table_id ≡ words.now.table_id) × IsLockTable words.now.table_id }
    requires ready { (seat.old.me.0.waits ≡ false) × (0 < seat.old.me.0.name) }
    ensures table { seat.new.table_id ≡ seat.old.table_id }
    ensures ticket { drew seat.old.me result seat.new.me }
{
    let mut looks = 0;
    for _ in 0..LOOKS_BEFORE_DRAWING {
        let found = words.peek(SERVING);
        if words.peek(TICKET) == found && try_ticket(words, seat, found) {
            return found;
        }
        looks = look_again(rt, words, seat, found, looks);
    }
    words.fetch_add::<DrawTicket<B>>(seat, TICKET, 1)
}

// Draws the ticket with this number if the ticket word still shows it, and returns whether it did.
fn try_ticket<B: AccountView>(words: &Words<B>, seat: &mut LockSeat<B>, found: u64) -> bool
    requires table { (seat.old.table_id ≡ words.now.table_id) × IsLockTable words.now.table_id }
    requires ready { (seat.old.me.0.waits ≡ false) × (0 < seat.old.me.0.name) }
    ensures table { seat.new.table_id ≡ seat.old.table_id }
    ensures drawn { result ≡ true → drew seat.old.me found seat.new.me }
    ensures not { result ≡ false → seat.new.me ≡ seat.old.me }
{
    let next = found.wrapping_add(1);
    words.compare_exchange::<TryTicket<B>>(seat, TICKET, found, next) == found
}

// Waits until the ticket is served. The thread then has the slot, with the value in it.
pub(crate) fn await_turn<B: AccountView, R: Wait>(
    rt: &R,
    words: &Words<B>,
    seat: &mut LockSeat<B>,
    ticket: u64,
)
    requires table { (seat.old.table_id ≡ words.now.table_id) × IsLockTable words.now.table_id }
    requires ready { (seat.old.me.0.waits ≡ true) × (seat.old.me.0.turn ≡ false)
        × (ticket ≡ seat.old.me.0.ticket % 2 ^ 64) }
    ensures table { seat.new.table_id ≡ seat.old.table_id }
    ensures got { Got (λ b. B.entries b.value) (λ b. record {
      before = B.before b.value;
      opening = B.opening b.value;
    }) seat.old.me seat.new.me }
{
    let mut looks = 0;
    for _ in rt.forever() {
        let found = words.load::<WatchServing<B>>(seat, SERVING);
        if found == ticket {
            return;
        }
        looks = look_again(rt, words, seat, found, looks);
    }
    unreachable!()
}

// Proceeds to the next look, and returns how many there were. A waiter looks some times, since most
// turns are short, and then parks until somebody passes a turn on.
fn look_again<B: AccountView, R: Wait>(
    rt: &R,
    words: &Words<B>,
    seat: &mut LockSeat<B>,
    found: u64,
    looks: u32,
) -> u32
    requires table { (seat.old.table_id ≡ words.now.table_id) × IsLockTable words.now.table_id }
    ensures { (seat.new.table_id ≡ seat.old.table_id) × (seat.new.me ≡ seat.old.me) }
{
    if looks < LOOKS_BEFORE_PARKING {
        pause(looks);
        return looks + 1;
    }
    park(rt, words, seat, found);
    0
}

// Pauses after so many looks: once at first, then twice as often each time, up to 64 times. A look
// takes the words from the processor of the thread whose turn it is, and so slows that thread.
fn pause(looks: u32) {
    for _ in 0..1u32 << looks.min(DOUBLINGS) {
        hint::spin_loop();
    }
}

// Parks while the serving word is as it was found, until somebody passes that turn on. It first
// writes over which turn it parks into the parked word. Whoever passes that turn on finds it there,
// or else passed the turn on before, and then the thread doesn't park.
fn park<B: AccountView, R: Wait>(rt: &R, words: &Words<B>, seat: &mut LockSeat<B>, found: u64)
    requires table { (seat.old.table_id ≡ words.now.table_id) × IsLockTable words.now.table_id }
    ensures { (seat.new.table_id ≡ seat.old.table_id) × (seat.new.me ≡ seat.old.me) }
{
    words.fetch_max::<MarkParked>(seat, PARKED, found.wrapping_add(1));
    words.park(rt, SERVING, (found % (1 << 32)) as u32);
}

// Takes the value out of the slot, once the turn has come.
pub(crate) fn lift<B: AccountView>(words: &Words<B>, seat: &mut LockSeat<B>) -> Box<B>
    requires table { (seat.old.table_id ≡ words.now.table_id) × IsLockTable words.now.table_id }
    requires ready { (seat.old.me.0.turn ≡ true) × ((y : _) × (seat.old.me.1 ≡ (0, Some y) ∷ [])) }
    ensures table { seat.new.table_id ≡ seat.old.table_id }
    ensures value { seat.old.me.1 ≡ (0, Some result) ∷ [] }
    ensures view { seat.new.me ≡ (record seat.old.me.0 { away = true }, []) }
{
    let value = words.exchange(seat, 0, None).unwrap();
    // This load only gives the empty slot back to the table, as the rule asks: a pass has no slot
    // between its calls.
    words.load::<LeaveEmpty<B>>(seat, SERVING);
    value
}

// Puts the value back into the slot, and passes the turn on. All parked threads are woken, since
// only one has the next ticket.
pub(crate) fn lay_back<B: AccountView>(words: &Words<B>, seat: &mut LockSeat<B>, value: Box<B>)
    requires table { (seat.old.table_id ≡ words.now.table_id) × IsLockTable words.now.table_id }
    requires ready { (seat.old.me.0.away ≡ true) × (seat.old.me.0.turn ≡ true)
        × (seat.old.me.1 ≡ []) }
    requires value { ExtendsUnder seat.old.me.0.name seat.old.me.0.seen (B.entries value.value) }
    requires origin { record {
      before = B.before value.value;
      opening = B.opening value.value;
    } ≡ seat.old.me.0.origin }
    ensures table { seat.new.table_id ≡ seat.old.table_id }
    ensures view { seat.new.me ≡ (
      record seat.old.me.0 {
        away = false;
        waits = false;
        turn = false;
        seen = B.entries value.value;
        own = under seat.old.me.0.name (B.entries value.value);
      },
      [],
    ) }
{
    // This load only takes the empty slot from the table again.
    words.load::<TakeEmpty<B>>(seat, SERVING);
    let empty = words.exchange(seat, 0, Some(value));
    match empty {
        None => {}
        Some(_) => unreachable!(),
    }
    let served = words.fetch_add::<PassTurn<B>>(seat, SERVING, 1);
    if words.peek(PARKED) > served {
        words.wake_all(SERVING);
    }
}

// Loads a word after a pass was joined, to learn what the rule says then.
pub(crate) fn look_back<B: AccountView>(words: &Words<B>, seat: &mut LockSeat<B>)
    requires table { (seat.old.table_id ≡ words.now.table_id) × IsLockTable words.now.table_id }
    ensures seat { (seat.new.table_id ≡ seat.old.table_id) × (seat.new.me ≡ seat.old.me) }
    ensures heard { StartsWith seat.old.me.0.seen seat.old.me.0.heard }
    ensures count { seat.old.me.0.root ≡ true → length seat.old.me.0.ended ≤ seat.old.me.0.given }
{
    // The number isn't used: the rule holds at the load, and that is what is learnt.
    words.load::<LookBack>(seat, SERVING);
}

// The rule of the table under a lock, and what each of its steps shows the thread that makes it.
//
// The rule is a fact about the words, the slot and the views of all passes. The table keeps it
// between any two steps, and each step is proved to keep it. So a thread can rely on it whatever
// the others do.
use crate::account_view::AccountView;
use crate::view::PassView;
use atomic_table::{Join, Play, Seat, Shared, Split, TableRule};
use std::marker::PhantomData;
use std::snapshot::Snapshot;

/// The rule of a lock around a `B`. No value of it is made.
pub struct Turns<B> {
    of: PhantomData<B>,
}

impl<B: AccountView> TableRule<Option<Box<B>>, PassView, Snapshot<Box<B>>> for Turns<B> {
    ghost use Rattle.account_lock.specs.Rule.{IsKept};
    ghost use Rattle.account_lock.specs.Views.{rooted};

    ghost holds = { λ key. IsKept (λ b. B.entries b.value)
        (λ b. record { before = B.before b.value; opening = B.opening b.value }) key.value };

    ghost first = { λ key. rooted record {
      before = B.before key.value.value;
      opening = B.opening key.value.value;
    } };
}

/// The words and the slot of a lock, as threads share them.
pub(crate) type Words<B> = Shared<Option<Box<B>>, PassView, Snapshot<Box<B>>, Turns<B>>;

/// What one thread makes its steps with: its view, and the slot while that is in its hands.
pub(crate) type LockSeat<B> = Seat<Option<Box<B>>, PassView>;

// A ticket is drawn.
pub(crate) struct DrawTicket<B> {
    of: PhantomData<B>,
}

impl<B: AccountView> Play<Option<Box<B>>, PassView> for DrawTicket<B> {
    ghost use Rattle.account_lock.specs.Steps.{drew};

    ghost then = { λ _. drew };
}

// A ticket is drawn if the ticket word shows the number that was expected.
pub(crate) struct TryTicket<B> {
    of: PhantomData<B>,
}

impl<B: AccountView> Play<Option<Box<B>>, PassView> for TryTicket<B> {
    ghost use Rattle.account_lock.specs.Steps.{tried};

    ghost then = { λ s. tried s.first };
}

// The serving word is watched. If it shows the ticket, the turn has come and the thread has the
// slot.
pub(crate) struct WatchServing<B> {
    of: PhantomData<B>,
}

impl<B: AccountView> Play<Option<Box<B>>, PassView> for WatchServing<B> {
    ghost use Rattle.account_lock.specs.Steps.{watched};

    ghost then = { λ _. watched (λ b. B.entries b.value) (λ b. record {
      before = B.before b.value;
      opening = B.opening b.value;
    }) };
}

// The slot is given back to the table empty, while the caller has the value.
pub(crate) struct LeaveEmpty<B> {
    of: PhantomData<B>,
}

impl<B: AccountView> Play<Option<Box<B>>, PassView> for LeaveEmpty<B> {
    ghost use Rattle.account_lock.specs.Steps.{left_empty};

    ghost then = { λ _. left_empty };
}

// The empty slot is taken again, so that the value can be put into it.
pub(crate) struct TakeEmpty<B> {
    of: PhantomData<B>,
}

impl<B: AccountView> Play<Option<Box<B>>, PassView> for TakeEmpty<B> {
    ghost use Rattle.account_lock.specs.Steps.{took_empty};

    ghost then = { λ _. took_empty };
}

// The value is given back to the table, and the turn passes to the next ticket.
pub(crate) struct PassTurn<B> {
    of: PhantomData<B>,
}

impl<B: AccountView> Play<Option<Box<B>>, PassView> for PassTurn<B> {
    ghost use Rattle.account_lock.specs.Steps.{passed_on};

    ghost then = { λ _. passed_on (λ b. B.entries b.value) };
}

// The parked word is raised to the turn over which a thread parks, and nothing else changes.
pub(crate) struct MarkParked;

impl<B: AccountView> Play<Option<Box<B>>, PassView> for MarkParked {
    ghost use Rattle.account_lock.specs.Steps.{unchanged};

    ghost then = { λ _. unchanged };
}

// Nothing changes. The step shows what follows from the rule once a pass was joined.
pub(crate) struct LookBack;

impl<B: AccountView> Play<Option<Box<B>>, PassView> for LookBack {
    ghost use Rattle.account_lock.specs.Steps.{looked_back};

    ghost then = { λ _. looked_back };
}

// How a root gives a name, and how a pass takes in those of another.
pub(crate) struct Naming;

impl Split<PassView> for Naming {
    ghost use Rattle.account_lock.specs.Views.{one_given, newcomer};

    ghost left = { one_given };

    ghost right = { newcomer };
}

impl Join<PassView> for Naming {
    ghost use Rattle.account_lock.specs.Views.{joined, spent};

    ghost both = { joined };

    ghost spent = { spent };
}

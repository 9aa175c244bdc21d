// Serving a connection over a hall.
ghost use Rattle.std.specs.Prelude.{◌≡◌, ◌<◌, ◌≤◌, IfOk, OnErr, length};
ghost use Rattle.account_hall.specs.Copies.{HasBegunCopy, IsCopy};
ghost use Rattle.account_hall.specs.Halls.{AreOf};
ghost use Rattle.account_hall.specs.Sessions.{IsLook};
ghost use Rattle.copy_calls.specs.Originals.{originals_call};
ghost use Rattle.hall_port.specs.Asking.{MayAsk, MayCopy};
ghost use Rattle.hall_port.specs.Serving.{ServesHall};
ghost use Rattle.hall_port.specs.Steps.{calls_by};

use crate::asking::{Asker, Asks};
use crate::hall_port::HallPort;
use crate::originals::MailOriginals;
use account_book::{Call, Out, Rules};
use account_hall::{CopyCall, Hall, Passes};
use jm_base::NoMemory;
use jm_edge::{Clock, Gate, Link};
use jmap_http::{Served, serve_requests};
use keep_port::Keeper;
use server_users::Users;
use std::alloc::Global;
use std::sync::Wait;

// Serves the requests of a connection over what asks the accounts.
fn serve_by<A: Asks, L: Link, C: Clock, G: Gate>(
    asker: A,
    alloc: Global,
    users: &Users,
    passes: Passes,
    link: &mut L,
    clock: &mut C,
    gate: &G,
) -> (Served, Passes)
    requires ready { A.can_ask asker }
    requires hall { AreOf (A.rooms asker) passes.passes }
    requires accounts { length users.now.account_ids ≤ length (A.rooms asker) }
    ensures served { ServesHall A.calls (A.rooms asker) users.now passes result.1
        (C.times clock.old) (C.times clock.new) (L.left link.old) (L.left link.new)
        (L.held link.old) (L.held link.new) (L.read_faults link.old) (L.read_faults link.new)
        (L.put_faults link.old) (L.put_faults link.new) result.0 }
    ensures hall { AreOf (A.rooms asker) result.1.passes }
{
    let mut port = HallPort::over(asker, users, passes);
    let served = serve_requests(alloc, users, &mut port, link, clock, gate);
    (served, port.into_passes())
}

/// Serves the requests of a connection in order, as `serve_requests` does, over a hall that has
/// each account of the server, with a session of the hall. It may wait for other sessions that use
/// an account. Returns how the connection ended, and the session.
pub fn serve_connection<W: Wait, K: Keeper, R: Rules, L: Link, C: Clock, G: Gate>(
    rt: &W,
    alloc: Global,
    hall: &Hall<K, R>,
    users: &Users,
    passes: Passes,
    link: &mut L,
    clock: &mut C,
    gate: &G,
) -> (Served, Passes)
    requires hall { AreOf hall.now passes.passes }
    requires accounts { length users.now.account_ids ≤ length hall.now }
    ensures served { ServesHall (calls_by R.plan_of) hall.now users.now passes result.1
        (C.times clock.old) (C.times clock.new) (L.left link.old) (L.left link.new)
        (L.held link.old) (L.held link.new) (L.read_faults link.old) (L.read_faults link.new)
        (L.put_faults link.old) (L.put_faults link.new) result.0 }
    ensures hall { AreOf hall.now result.1.passes }
{
    let call = |alloc: Global, passes: &mut Passes, account: u64, call: &Call, time: u64| -> Result<
        Out,
        NoMemory,
    >
        requires { MayAsk hall.now passes.old account time }
        ensures asked { IfOk result (λ out. (calls_by R.plan_of).calls account call.now time
            passes.old passes.new out) }
        ensures stopped { OnErr result (IsLook account passes.old passes.new) }
        ensures hall { AreOf hall.entry.now passes.new.passes }
    { hall.call(rt, alloc, passes, account, call, time) };
    let copy = |alloc: Global, passes: &mut Passes, copy: CopyCall, time: u64| -> Result<
        Out,
        NoMemory,
    >
        requires { MayCopy hall.now passes.old copy time }
        ensures copied { IfOk result (λ out. IsCopy R.plan_of originals_call copy time passes.old
            passes.new out) }
        ensures stopped { OnErr result (HasBegunCopy R.plan_of originals_call copy time passes.old
            passes.new) }
        ensures hall { AreOf hall.entry.now passes.new.passes }
    { hall.copy(rt, alloc, passes, &MailOriginals, copy, time) };
    serve_by(
        Asker { hall, call, copy },
        alloc,
        users,
        passes,
        link,
        clock,
        gate,
    )
}

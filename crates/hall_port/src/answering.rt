// Answering lines over a hall.
ghost use Rattle.std.specs.Prelude.{◌≡◌, ◌<◌, ◌≤◌, IfOk, OnErr, length};
ghost use Rattle.account_hall.specs.Copies.{HasBegunCopy, IsCopy};
ghost use Rattle.account_hall.specs.Halls.{AreOf};
ghost use Rattle.account_hall.specs.Sessions.{IsLook};
ghost use Rattle.batch_lines.specs.Input.{seen};
ghost use Rattle.copy_calls.specs.Originals.{originals_call};
ghost use Rattle.hall_port.specs.Asking.{MayAsk, MayCopy};
ghost use Rattle.hall_port.specs.Lines.{AnswersLines};
ghost use Rattle.hall_port.specs.Steps.{calls_by};

use crate::asking::{Asker, Asks};
use crate::hall_port::HallPort;
use crate::originals::MailOriginals;
use account_book::{Call, Out, Rules};
use account_hall::{CopyCall, Hall, Passes};
use batch_lines::{LinesFault, answer_lines};
use jm_base::NoMemory;
use jm_edge::{Sink, Source};
use keep_port::Keeper;
use server_users::Users;
use std::alloc::Global;
use std::sync::Wait;

// Answers the lines of an input over what asks the accounts.
fn answer_by<A: Asks, S: Source, O: Sink>(
    asker: A,
    alloc: Global,
    users: &Users,
    passes: Passes,
    source: &mut S,
    out: &mut O,
) -> (Result<(), LinesFault>, Passes)
    requires ready { A.can_ask asker }
    requires hall { AreOf (A.rooms asker) passes.passes }
    requires accounts { length users.now.account_ids ≤ length (A.rooms asker) }
    ensures answered { AnswersLines A.calls (A.rooms asker) users.now passes result.1 result.0
        (seen S.left S.faults source.old source.new O.held O.faults out.old out.new) }
    ensures hall { AreOf (A.rooms asker) result.1.passes }
{
    let mut port = HallPort::over(asker, users, passes);
    let answered = answer_lines(alloc, &mut port, source, out);
    (answered, port.into_passes())
}

/// Answers the lines of an input until its end, as `answer_lines` does, over a hall that has each
/// account of the server, with a session of the hall, for the first user at the timestamp 0. It may
/// wait for other sessions that use an account. Returns what `answer_lines` does, and the session.
pub fn answer_hall_lines<W: Wait, K: Keeper, R: Rules, S: Source, O: Sink>(
    rt: &W,
    alloc: Global,
    hall: &Hall<K, R>,
    users: &Users,
    passes: Passes,
    source: &mut S,
    out: &mut O,
) -> (Result<(), LinesFault>, Passes)
    requires hall { AreOf hall.now passes.passes }
    requires accounts { length users.now.account_ids ≤ length hall.now }
    ensures answered { AnswersLines (calls_by R.plan_of) hall.now users.now passes result.1 result.0
        (seen S.left S.faults source.old source.new O.held O.faults out.old out.new) }
    ensures hall { AreOf hall.now result.1.passes }
{
    let call = |alloc: Global, passes: &mut Passes, account: u64, call: &Call, time: u64| -> Result<
        Out,
        NoMemory,
    >
        requires { MayAsk hall.now passes.old account time }
        ensures asked { IfOk result (λ out. (calls_by R.plan_of).calls account call.now time
            passes.old passes.new out) }
        ensures stopped { OnErr result (IsLook account passes.old passes.new) }
        ensures hall { AreOf hall.entry.now passes.new.passes }
    { hall.call(rt, alloc, passes, account, call, time) };
    let copy = |alloc: Global, passes: &mut Passes, copy: CopyCall, time: u64| -> Result<
        Out,
        NoMemory,
    >
        requires { MayCopy hall.now passes.old copy time }
        ensures copied { IfOk result (λ out. IsCopy R.plan_of originals_call copy time passes.old
            passes.new out) }
        ensures stopped { OnErr result (HasBegunCopy R.plan_of originals_call copy time passes.old
            passes.new) }
        ensures hall { AreOf hall.entry.now passes.new.passes }
    { hall.copy(rt, alloc, passes, &MailOriginals, copy, time) };
    answer_by(
        Asker { hall, call, copy },
        alloc,
        users,
        passes,
        source,
        out,
    )
}

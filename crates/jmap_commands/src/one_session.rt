// Lines are answered with the only session of a hall of one account.
ghost use Rattle.std.specs.Prelude.{◌≡◌, ◌∷◌, ◌≤◌, [], IfOk, length};
ghost use Rattle.account_hall.specs.Building.{IsParted};
ghost use Rattle.account_hall.specs.Halls.{AreOf, RoomView, entries_of};
ghost use Rattle.account_lock.specs.Passes.{root_of};
ghost use Rattle.batch_lines.specs.Input.{seen};
ghost use Rattle.jmap_commands.specs.OneSession.{AnswersAlone, HasOneIn, IsFirst, WasAlone};

use account_book::{Book, Rules};
use account_hall::{Front, Hall, Named, Passes, build_hall};
use batch_lines::LinesFault;
use hall_port::answer_hall_lines;
use jm_base::{NoMemory, Text};
use jm_edge::{Sink, Source};
use keep_port::Keeper;
use server_users::Users;
use std::alloc::Global;
use std::sync::Wait;

// Builds a hall of one account.
fn build_one<K: Keeper, R: Rules>(
    alloc: Global,
    name: Text,
    book: Book<K, R>,
) -> Result<(Hall<K, R>, Front), NoMemory>
    requires fresh { book.since ≡ [] }
    ensures built { IfOk result (λ r. (room : RoomView) × (r.0 ≡ room ∷ [])
        × (r.1.roots ≡ root_of room.lock book.before book.opened ∷ [])) }
    ensures front { IfOk result (λ r. AreOf r.0 r.1.roots) }
    ensures inside { IfOk result (λ r. (r.1.inside ≡ 0) × (r.1.admitted ≡ 0)) }
{
    let mut accounts = Vec::with_capacity(alloc, 1)?;
    accounts.push_reserved(Named { name, book });
    match build_hall(alloc, accounts) {
        Ok(built) => Ok(built),
        Err(_) => Err(NoMemory),
    }
}

/// Builds a hall of one account, which has no entry since its book was opened, and lets the one
/// session in. Fails only if memory runs out.
pub(crate) fn open_hall<K: Keeper, R: Rules>(
    alloc: Global,
    name: Text,
    book: Book<K, R>,
) -> Result<(Hall<K, R>, Front, Passes), NoMemory>
    requires fresh { book.since ≡ [] }
    ensures one { IfOk result (λ r. HasOneIn r.0 r.1) }
    ensures first { IfOk result (λ r. IsFirst book.before book.opened r.2) }
    ensures front { IfOk result (λ r. AreOf r.0 r.1.roots) }
    ensures session { IfOk result (λ r. AreOf r.0 r.2.passes) }
{
    let (hall, mut front) = build_one(alloc, name, book)?;
    match front.admit(alloc, &hall) {
        Ok(passes) => Ok((hall, front, passes)),
        Err(_) => Err(NoMemory),
    }
}

// Takes the one account out of the hall.
fn take_one<K: Keeper, R: Rules>(hall: &mut Hall<K, R>, front: &mut Front) -> Named<K, R>
    requires one { (room : RoomView) × (hall.old ≡ room ∷ []) }
    requires hall { AreOf hall.old front.old.roots }
    requires none_in { front.old.inside ≡ 0 }
    ensures { IsParted hall.old hall.new front.old.roots front.new.roots result }
{
    match hall.part(front) {
        Some(account) => account,
        None => unreachable!(),
    }
}

// Lets the one session out, and takes the account out of the hall.
fn let_out<K: Keeper, R: Rules>(hall: Hall<K, R>, front: Front, passes: Passes) -> Book<K, R>
    requires one { HasOneIn hall front }
    requires front { AreOf hall front.roots }
    requires session { AreOf hall passes.passes }
    ensures { WasAlone passes (entries_of result) }
{
    passes.is_in_order();
    let mut hall = hall;
    let mut front = front;
    let _trail = front.leave(&hall, passes);
    let account = take_one(&mut hall, &mut front);
    let Named { book, .. } = account;
    book
}

/// Answers the lines of an input until its end, as `answer_lines` does, over a hall with one
/// account and one session. It may wait.
pub(crate) fn answer_alone<W: Wait, K: Keeper, R: Rules, S: Source, O: Sink>(
    rt: &W,
    alloc: Global,
    users: &Users,
    hall: Hall<K, R>,
    front: Front,
    passes: Passes,
    source: &mut S,
    out: &mut O,
) -> Result<(), LinesFault>
    requires one { HasOneIn hall front }
    requires front { AreOf hall front.roots }
    requires session { AreOf hall passes.passes }
    requires accounts { length users.now.account_ids ≤ length hall }
    ensures { AnswersAlone K.append_faults R.plan_of hall users.now passes result
        (seen S.left S.faults source.old source.new O.held O.faults out.old out.new) }
{
    let (answered, passes) = answer_hall_lines(rt, alloc, &hall, users, passes, source, out);
    let book = let_out(hall, front, passes);
    book.keeps();
    answered
}

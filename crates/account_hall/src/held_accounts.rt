// Accounts that a session holds, and the calls of a copy on two of them.
ghost use Rattle.std.specs.Prelude.{◌≡◌, ◌+◌, ◌≤◌, ◌++◌, ◌∷◌, [], IfOk, List, OnErr, Some, map, option_and_then, option_map, take, vec_capacity, vec_len};
ghost use Rattle.jm_json.specs.Call.{error_of};
ghost use Rattle.jm_json.specs.Invocations.{call_of};
ghost use Rattle.jm_json.specs.declared.invocation.Invocation.{Invocation as TheInvocation};
ghost use Rattle.mail_records.specs.Histories.{Entry};
ghost use Rattle.account_book.specs.Plans.{last_moment};
ghost use Rattle.account_book.specs.declared.asks.Carried.{Carried as TheCarried};
ghost use Rattle.account_book.specs.declared.asks.Ask.TheVariants.{Fetch as TheFetch, Place as ThePlace};
ghost use Rattle.account_hall.specs.Copies.{HasBegun, IsCopied, IsFetchedSo, IsFollowed, IsPlaced, IsPlacedSo, SetOf, carried_in, first_of, first_response, joined, replied_in};
ghost use Rattle.account_hall.specs.HeldAccounts.{HasAskedSet, HasGained, IsStep, MayHaveFollowed, MayHavePlaced, Side, entries_in, held_copy, held_steps, side_of, state_from, state_of};

use crate::calls::perform_under;
use crate::copies::{CopyCall, Originals};
use account_book::{Ask, Book, Call, Carried, Done, Out, Point, Rules};
use jm_base::{NoMemory, Text};
use jm_json::{Invocation, Invocations, Made, Replied};
use keep_port::Keeper;
use std::alloc::Global;
use std::collections::VecDeque;

/// An account that a session holds: its number, the number of the session's pass there, and its
/// book.
#[derive(Drop)]
pub(crate) struct Held<K: Keeper, R: Rules> {
    pub(crate) account: u64,
    pub(crate) number: u64,
    pub(crate) book: Box<Book<K, R>>,
}

/// What a copy asks: its call, what the request has made up to here, whether the user may only read
/// the account of the originals, and the timestamp of its calls.
#[derive(Drop)]
struct Asked {
    read_only: bool,
    call: Invocation,
    made: Made,
    moment: u64,
}

// Performs a call on a held account. The trail, which has room for it, gains the point.
fn perform_held<K: Keeper, R: Rules>(
    alloc: Global,
    held: &mut Held<K, R>,
    trail: &mut Vec<Point>,
    call: &Call,
    moment: u64,
) -> Result<Out, NoMemory>
    requires moment { moment ≤ last_moment }
    requires room { vec_len trail.old + 1 ≤ vec_capacity trail.old }
    ensures step { IfOk result (λ out. IsStep R.plan_of (side_of held.old) moment call.now
        (entries_in held.old) (entries_in held.new) trail.old.items trail.new.items out) }
    ensures gained { HasGained held.old held.new }
    ensures none { OnErr result ((entries_in held.new ≡ entries_in held.old)
        × (trail.new.items ≡ trail.old.items)) }
    ensures len { vec_len trail.new ≤ vec_len trail.old + 1 }
    ensures capacity { vec_capacity trail.new ≡ vec_capacity trail.old }
{
    let serial = trail.len() as u64 + 1;
    let account = held.account;
    match perform_under(alloc, &mut held.book, held.number, serial, call, moment) {
        Ok(done) => {
            let Done { out, before, after } = done;
            trail.push_reserved(Point {
                account,
                before,
                after,
                moment,
            });
            Ok(out)
        }
        Err(refused) => Err(refused),
    }
}

// Returns what an answer carries, or the answer itself.
fn take_carried(out: Out) -> Result<Carried, Out>
    ensures { result ≡ carried_in out }
{
    match out {
        Out::Carried(carried) => Ok(carried),
        Out::Replies(replied) => Err(Out::Replies(replied)),
        Out::Uploaded(number) => Err(Out::Uploaded(number)),
        Out::Full => Err(Out::Full),
        Out::Failed => Err(Out::Failed),
        Out::Blob(bytes) => Err(Out::Blob(bytes)),
        Out::States {
            mailbox,
            email,
            thread,
        } => Err(Out::States {
            mailbox,
            email,
            thread,
        }),
    }
}

// Returns what an answer replies, or the answer itself.
fn take_replied(out: Out) -> Result<Replied, Out>
    ensures { result ≡ replied_in out }
{
    match out {
        Out::Replies(replied) => Ok(replied),
        Out::Carried(carried) => Err(Out::Carried(carried)),
        Out::Uploaded(number) => Err(Out::Uploaded(number)),
        Out::Full => Err(Out::Full),
        Out::Failed => Err(Out::Failed),
        Out::Blob(bytes) => Err(Out::Blob(bytes)),
        Out::States {
            mailbox,
            email,
            thread,
        } => Err(Out::States {
            mailbox,
            email,
            thread,
        }),
    }
}

// Returns the call of a side of a copy.
fn copy_asked(ask: Ask) -> Option<Invocation>
    ensures fetch { (c : TheInvocation) → ask ≡ TheFetch c → result ≡ Some c }
    ensures place { (c : TheInvocation) (carried : TheCarried) → ask ≡ ThePlace c carried
        → result ≡ Some c }
{
    match ask {
        Ask::Fetch(call) => Some(call),
        Ask::Place(call, _) => Some(call),
        Ask::Method(_) | Ask::Upload(_) | Ask::Blob(_) | Ask::States => None,
    }
}

// Adds the first response of a reply to these, which have room for it.
fn push_first_of(responses: &mut Vec<Invocation>, replied: Replied)
    requires { vec_len responses.old + 1 ≤ vec_capacity responses.old }
    ensures { map call_of responses.new.items
        ≡ map call_of responses.old.items ++ take 1 replied.responses }
{
    let mut rest = VecDeque::from_vec(replied.responses.into_vec());
    match rest.pop_front() {
        Some(first) => responses.push_reserved(first),
        None => {}
    }
}

// Adds the first response of an answer to these, which have room for it.
fn push_first(responses: &mut Vec<Invocation>, answer: Out)
    requires { vec_len responses.old + 1 ≤ vec_capacity responses.old }
    ensures { map call_of responses.new.items
        ≡ map call_of responses.old.items ++ first_response answer }
{
    match take_replied(answer) {
        Ok(replied) => push_first_of(responses, replied),
        Err(_) => {}
    }
}

// Asks the account of the originals to perform the set that follows a copy. `placed` is the reply
// to the copy.
fn ask_set<K: Keeper, R: Rules>(
    alloc: Global,
    from: &mut Held<K, R>,
    trail: &mut Vec<Point>,
    set: Invocation,
    made: Made,
    placed: Replied,
    moment: u64,
) -> Result<Out, NoMemory>
    requires moment { moment ≤ last_moment }
    requires room { vec_len trail.old + 1 ≤ vec_capacity trail.old }
    ensures asked { IfOk result (λ out. HasAskedSet R.plan_of (side_of from.old) moment set made
        placed (entries_in from.old) (entries_in from.new) trail.old.items trail.new.items out) }
    ensures gained { HasGained from.old from.new }
    ensures none { OnErr result ((entries_in from.new ≡ entries_in from.old)
        × (trail.new.items ≡ trail.old.items)) }
{
    let Replied {
        responses,
        made: created,
    } = placed;
    let mut responses = responses.into_vec();
    responses.reserve(1)?;
    let call = Call {
        ask: Ask::Method(set),
        made,
        read_only: false,
    };
    match perform_held(alloc, from, trail, &call, moment) {
        Ok(answer) => {
            push_first(&mut responses, answer);
            Ok(Out::Replies(Replied {
                responses: Invocations::from_vec(responses),
                made: created,
            }))
        }
        Err(refused) => Err(refused),
    }
}

// Returns what was replied, with an error of this type after it.
fn with_error(alloc: Global, kind: &str, id: &Text, mut placed: Replied) -> Result<Out, NoMemory>
    ensures { IfOk result (λ out. out ≡ joined placed (error_of kind.now id.now ∷ [])) }
{
    let told = Invocation::build_error_response(alloc, kind, id.copy()?)?;
    placed.responses.push(told)?;
    Ok(Out::Replies(placed))
}

// Builds the set of the originals that follows a copy with this reply, if one does.
fn find_set<O: Originals>(
    alloc: Global,
    originals: &O,
    copy: &Invocation,
    placed: &Replied,
) -> Result<Option<Invocation>, NoMemory>
    ensures { IfOk result (λ o. option_map call_of o
        ≡ option_and_then (O.set_of (call_of copy.now)) (first_of placed.now.responses)) }
{
    match placed.responses.as_slice().first() {
        Some(response) => originals.build_set(alloc, copy, response),
        None => Ok(None),
    }
}

// Does what follows a copy on the account of the originals: this set, if there is one.
fn follow_copy<K: Keeper, R: Rules>(
    alloc: Global,
    from: &mut Held<K, R>,
    trail: &mut Vec<Point>,
    asked: Asked,
    placed: Replied,
    set: Option<Invocation>,
) -> Result<Out, NoMemory>
    requires moment { asked.moment ≤ last_moment }
    requires room { vec_len trail.old + 1 ≤ vec_capacity trail.old }
    ensures followed { (to : Side) (es : List Entry) (set_of : SetOf) → IfOk result
        (λ out. IsFollowed (held_steps R.plan_of set_of (side_of from.old) to asked.read_only
        asked.call asked.made asked.moment) placed (option_map call_of set)
        (state_from from.old es trail.old.items)
        (state_from from.new es trail.new.items) out) }
    ensures gained { HasGained from.old from.new }
    ensures none { OnErr result ((entries_in from.new ≡ entries_in from.old)
        × (trail.new.items ≡ trail.old.items)) }
{
    match set {
        None => Ok(Out::Replies(placed)),
        Some(set) => {
            let Asked {
                read_only,
                call: copy,
                made,
                moment,
            } = asked;
            if read_only {
                return with_error(alloc, "accountReadOnly", &copy.id, placed);
            }
            ask_set(alloc, from, trail, set, made, placed, moment)
        }
    }
}

// Does what follows this answer of the account of the copies.
fn follow_placed<K: Keeper, R: Rules, O: Originals>(
    alloc: Global,
    from: &mut Held<K, R>,
    trail: &mut Vec<Point>,
    originals: &O,
    asked: Asked,
    placed: Out,
) -> Result<Out, NoMemory>
    requires moment { asked.moment ≤ last_moment }
    requires room { vec_len trail.old + 1 ≤ vec_capacity trail.old }
    ensures followed { (to : Side) (es : List Entry) → IfOk result
        (λ out. IsPlacedSo (held_steps R.plan_of O.set_of (side_of from.old) to asked.read_only
        asked.call asked.made asked.moment) (replied_in placed)
        (state_from from.old es trail.old.items)
        (state_from from.new es trail.new.items) out) }
    ensures gained { HasGained from.old from.new }
    ensures none { OnErr result ((entries_in from.new ≡ entries_in from.old)
        × (trail.new.items ≡ trail.old.items)) }
{
    match take_replied(placed) {
        Err(other) => Ok(other),
        Ok(placed) => match find_set(alloc, originals, &asked.call, &placed) {
            Ok(set) => follow_copy(alloc, from, trail, asked, placed, set),
            Err(refused) => Err(refused),
        },
    }
}

// Places what the account of the originals gave, and does what follows.
fn place_held<K: Keeper, R: Rules, O: Originals>(
    alloc: Global,
    from: &mut Held<K, R>,
    to: &mut Held<K, R>,
    trail: &mut Vec<Point>,
    originals: &O,
    asked: Asked,
    carried: Carried,
) -> Result<Out, NoMemory>
    requires moment { asked.moment ≤ last_moment }
    requires room { vec_len trail.old + 2 ≤ vec_capacity trail.old }
    ensures placed { IfOk result (λ out. IsPlaced (held_steps R.plan_of O.set_of (side_of from.old)
        (side_of to.old) asked.read_only asked.call asked.made asked.moment) carried
        (state_of from.old to.old trail.old.items) (state_of from.new to.new trail.new.items)
        out) }
    ensures begun { OnErr result (MayHavePlaced (held_steps R.plan_of O.set_of (side_of from.old)
        (side_of to.old) asked.read_only asked.call asked.made asked.moment) carried
        (state_of from.old to.old trail.old.items)
        (state_of from.new to.new trail.new.items)) }
    ensures gained { HasGained from.old from.new × HasGained to.old to.new }
{
    let Asked {
        read_only,
        call: copy,
        made,
        moment,
    } = asked;
    let place = Call {
        ask: Ask::Place(copy, carried),
        made,
        read_only: false,
    };
    match perform_held(alloc, to, trail, &place, moment) {
        Ok(placed) => {
            let Call { ask, made, .. } = place;
            let copy = copy_asked(ask).unwrap();
            let asked = Asked {
                read_only,
                call: copy,
                made,
                moment,
            };
            follow_placed(alloc, from, trail, originals, asked, placed)
        }
        Err(refused) => Err(refused),
    }
}

// Does what follows this answer of the account of the originals.
fn follow_fetched<K: Keeper, R: Rules, O: Originals>(
    alloc: Global,
    from: &mut Held<K, R>,
    to: &mut Held<K, R>,
    trail: &mut Vec<Point>,
    originals: &O,
    asked: Asked,
    fetched: Out,
) -> Result<Out, NoMemory>
    requires moment { asked.moment ≤ last_moment }
    requires room { vec_len trail.old + 2 ≤ vec_capacity trail.old }
    ensures followed { IfOk result (λ out. IsFetchedSo (held_steps R.plan_of O.set_of
        (side_of from.old) (side_of to.old) asked.read_only asked.call asked.made asked.moment)
        (carried_in fetched)
        (state_of from.old to.old trail.old.items) (state_of from.new to.new trail.new.items)
        out) }
    ensures begun { OnErr result (MayHaveFollowed (held_steps R.plan_of O.set_of
        (side_of from.old) (side_of to.old) asked.read_only asked.call asked.made asked.moment)
        fetched
        (state_of from.old to.old trail.old.items)
        (state_of from.new to.new trail.new.items)) }
    ensures gained { HasGained from.old from.new × HasGained to.old to.new }
{
    match take_carried(fetched) {
        Err(other) => Ok(other),
        Ok(carried) => place_held(alloc, from, to, trail, originals, asked, carried),
    }
}

/// Performs the calls of a copy between two held accounts. The trail has room for three points.
pub(crate) fn copy_held<K: Keeper, R: Rules, O: Originals>(
    alloc: Global,
    from: &mut Held<K, R>,
    to: &mut Held<K, R>,
    trail: &mut Vec<Point>,
    originals: &O,
    copy: CopyCall,
    moment: u64,
) -> Result<Out, NoMemory>
    requires moment { moment ≤ last_moment }
    requires room { vec_len trail.old + 3 ≤ vec_capacity trail.old }
    ensures copied { IfOk result (λ out. IsCopied (held_copy R.plan_of O.set_of (side_of from.old)
        (side_of to.old) copy moment) (state_of from.old to.old trail.old.items)
        (state_of from.new to.new trail.new.items) out) }
    ensures begun { OnErr result (HasBegun (held_copy R.plan_of O.set_of (side_of from.old)
        (side_of to.old) copy moment) (state_of from.old to.old trail.old.items)
        (state_of from.new to.new trail.new.items)) }
    ensures gained { HasGained from.old from.new × HasGained to.old to.new }
{
    let CopyCall {
        from_read_only,
        call,
        made,
        ..
    } = copy;
    let fetch = Call {
        ask: Ask::Fetch(call),
        made,
        read_only: false,
    };
    match perform_held(alloc, from, trail, &fetch, moment) {
        Ok(fetched) => {
            let Call { ask, made, .. } = fetch;
            let call = copy_asked(ask).unwrap();
            let asked = Asked {
                read_only: from_read_only,
                call,
                made,
                moment,
            };
            follow_fetched(alloc, from, to, trail, originals, asked, fetched)
        }
        Err(refused) => Err(refused),
    }
}

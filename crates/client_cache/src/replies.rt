// The reply to the next request of a round, taken.
ghost use Rattle.std.specs.Prelude.{◌≡◌, ◌<◌, ◌+◌, [], ◌∷◌, IfErr, IfOk, OnErr, OnOk, None, codes, option_and_then, option_map};
ghost use Rattle.jm_json.specs.Calls.{calls_in_response};
ghost use Rattle.jm_json.specs.Find.{find};
ghost use Rattle.jm_json.specs.Invocations.{call_of};
ghost use Rattle.jm_json.specs.Json.{tree_of};
ghost use Rattle.jm_json.specs.LeastPlaces.{least_from};
ghost use Rattle.jm_json.specs.Reading.{reading_of};
ghost use Rattle.client_cache.specs.Progress.{IsSame, Makes, by_answer, by_call, by_reading, by_session, by_tree, only_call};
ghost use Rattle.client_cache.specs.ReplyForms.{reply_places, tree_places};
ghost use Rattle.client_cache.specs.RoundViews.{round_of, step_of};
ghost use Rattle.client_cache.specs.Rounds.{at_session};
ghost use Rattle.client_cache.specs.Sessions.{path_of_tree};
ghost use Rattle.client_cache.specs.Taking.{Explains, IsAnswer, IsPlace, IsTaken};
ghost use Rattle.client_cache.specs.declared.limits.TheConstants.{MAX_REPLIES};

use crate::cache::Cache;
use crate::kind_steps::{first_step, go_to};
use crate::limits::{MAX_MOVED_REPLIES, MAX_REPLIES};
use crate::reply_fault::{MovedStates, ReplyFault};
use crate::reply_places::{find_bad_place_in_answer, is_error};
use crate::responses::{take_arguments, take_error};
use crate::rounds::{Round, Step};
use crate::session::{copy_account, find_bad_place_in_session, find_path_of};
use jm_base::{Bytes, Kind, NoMemory, Text};
use jm_json::{Invocation, Invocations, Json, Members, ReadFault, read, read_responses};
use std::alloc::Global;
use std::collections::VecDeque;

// ---- the answer

fn take_call(
    alloc: Global,
    cache: &mut Cache,
    round: &mut Round,
    call: Invocation,
) -> Result<Option<MovedStates>, NoMemory>
    ensures ok { IfOk result (Makes (by_call cache.old (round_of round.old) (call_of call))
        cache.new (round_of round.new)) }
    ensures err { OnErr result
        (IsSame cache.old (round_of round.old) cache.new (round_of round.new)) }
{
    let Invocation { name, args, .. } = call;
    let step = round.step;
    if is_error(name.as_bytes()) {
        take_error(alloc, cache, round, step);
        return Ok(None);
    }
    take_arguments(alloc, cache, round, step, args)
}

fn take_only(calls: Invocations) -> Option<Invocation>
    ensures { option_map call_of result ≡ only_call calls }
{
    let mut rest = VecDeque::from_vec(calls.into_vec());
    let Some(call) = rest.pop_front() else {
        return None;
    };
    if !rest.is_empty() {
        return None;
    }
    Some(call)
}

fn read_only_call(alloc: Global, tree: Json) -> Result<Option<Invocation>, NoMemory>
    ensures { IfOk result (λ o. option_map call_of o
        ≡ option_and_then only_call (calls_in_response (tree_of tree))) }
{
    match read_responses(alloc, tree)? {
        Some(calls) => Ok(take_only(calls)),
        None => Ok(None),
    }
}

fn take_answer(
    alloc: Global,
    cache: &mut Cache,
    round: &mut Round,
    tree: Json,
) -> Result<Option<MovedStates>, NoMemory>
    ensures ok { IfOk result (Makes (by_answer cache.old (round_of round.old) (tree_of tree))
        cache.new (round_of round.new)) }
    ensures err { OnErr result
        (IsSame cache.old (round_of round.old) cache.new (round_of round.new)) }
{
    match read_only_call(alloc, tree)? {
        Some(call) => take_call(alloc, cache, round, call),
        None => Err(NoMemory),
    }
}

// ---- the Session

fn copy_path(alloc: Global, session: &Members) -> Result<Option<Bytes>, NoMemory>
    ensures { IfOk result
        (λ o. o ≡ option_and_then path_of_tree (find (codes "apiUrl") session.now)) }
{
    match session.get("apiUrl") {
        Some(url) => match find_path_of(url) {
            Some(path) => Ok(Some(Bytes::from_slice(alloc, path)?)),
            None => Ok(None),
        },
        None => Ok(None),
    }
}

fn take_session(
    alloc: Global,
    cache: &mut Cache,
    round: &mut Round,
    session: &Members,
) -> Result<Option<MovedStates>, NoMemory>
    ensures ok { IfOk result (Makes (by_session cache.old (round_of round.old) session.now)
        cache.new (round_of round.new)) }
    ensures err { OnErr result
        (IsSame cache.old (round_of round.old) cache.new (round_of round.new)) }
{
    let Some(path) = copy_path(alloc, session)? else {
        return Err(NoMemory);
    };
    cache.account = copy_account(&cache.account, session)?;
    round.path = path;
    go_to(alloc, round, first_step(Kind::Mailbox, cache));
    Ok(None)
}

fn take_session_tree(
    alloc: Global,
    cache: &mut Cache,
    round: &mut Round,
    tree: &Json,
) -> Result<Option<MovedStates>, NoMemory>
    ensures ok { IfOk result (Makes (by_tree cache.old (round_of round.old) at_session
        (tree_of tree.now)) cache.new (round_of round.new)) }
    ensures err { OnErr result
        (IsSame cache.old (round_of round.old) cache.new (round_of round.new)) }
{
    match tree.as_object() {
        Some(session) => take_session(alloc, cache, round, session),
        None => Err(NoMemory),
    }
}

// ---- the reply

fn find_bad_place(
    alloc: Global,
    cache: &Cache,
    round: &Round,
    step: Step,
    tree: &Json,
) -> Result<Option<Text>, NoMemory>
    ensures { IfOk result (λ o. o ≡ least_from None (tree_places cache.now (round_of round.now)
        (step_of step) (tree_of tree.now))) }
{
    match step {
        Step::Session => find_bad_place_in_session(alloc, &cache.account, tree),
        Step::Changes(_, _)
        | Step::Changed(_, _)
        | Step::Results(_, _)
        | Step::Records(_, _)
        | Step::ThreadState
        | Step::EmailState(_)
        | Step::Threads(_)
        | Step::ListChanges(_, _)
        | Step::ListResults(_, _) => find_bad_place_in_answer(alloc, cache, round, tree),
        Step::Done => Ok(Some(Text::from_str(alloc, "")?)),
    }
}

// Takes a tree that is of its form.
fn take_valid(
    alloc: Global,
    cache: &mut Cache,
    round: &mut Round,
    step: Step,
    tree: Json,
) -> Result<Option<MovedStates>, NoMemory>
    ensures ok { IfOk result (Makes (by_tree cache.old (round_of round.old) (step_of step)
        (tree_of tree)) cache.new (round_of round.new)) }
    ensures err { OnErr result
        (IsSame cache.old (round_of round.old) cache.new (round_of round.new)) }
{
    match step {
        Step::Session => take_session_tree(alloc, cache, round, &tree),
        Step::Changes(_, _)
        | Step::Changed(_, _)
        | Step::Results(_, _)
        | Step::Records(_, _)
        | Step::ThreadState
        | Step::EmailState(_)
        | Step::Threads(_)
        | Step::ListChanges(_, _)
        | Step::ListResults(_, _) => take_answer(alloc, cache, round, tree),
        Step::Done => Err(NoMemory),
    }
}

fn take_tree(
    alloc: Global,
    cache: &mut Cache,
    round: &mut Round,
    tree: Json,
) -> Result<Option<MovedStates>, ReplyFault>
    ensures form { OnOk result (tree_places cache.old (round_of round.old)
        (round_of round.old).step (tree_of tree) ≡ []) }
    ensures ok { IfOk result (Makes (by_tree cache.old (round_of round.old)
        (round_of round.old).step (tree_of tree)) cache.new (round_of round.new)) }
    ensures err { OnErr result
        (IsSame cache.old (round_of round.old) cache.new (round_of round.new)) }
    ensures fault { IfErr result (λ e. IsPlace e (tree_places cache.old (round_of round.old)
        (round_of round.old).step (tree_of tree))) }
{
    let step = round.step;
    match find_bad_place(alloc, cache, round, step, &tree)? {
        Some(place) => Err(ReplyFault::BadReply(place)),
        None => Ok(take_valid(alloc, cache, round, step, tree)?),
    }
}

// Returns the fault of bytes that are bad as a whole.
fn find_whole_fault(alloc: Global) -> ReplyFault
    ensures { IsPlace result ([] ∷ []) }
{
    match Text::from_str(alloc, "") {
        Ok(place) => ReplyFault::BadReply(place),
        Err(_) => ReplyFault::NoMemory,
    }
}

// Returns the fault of bytes in which this place alone is bad.
fn name_place(place: Text) -> ReplyFault
    ensures { IsPlace result (place ∷ []) }
{
    ReplyFault::BadReply(place)
}

fn take_bytes(
    alloc: Global,
    cache: &mut Cache,
    round: &mut Round,
    reply: &[u8],
) -> Result<Option<MovedStates>, ReplyFault>
    ensures form { OnOk result (reply_places cache.old (round_of round.old) reply.now ≡ []) }
    ensures ok { IfOk result (Makes (by_reading cache.old (round_of round.old)
        (reading_of reply.now)) cache.new (round_of round.new)) }
    ensures err { OnErr result
        (IsSame cache.old (round_of round.old) cache.new (round_of round.new)) }
    ensures fault { IfErr result
        (λ e. IsPlace e (reply_places cache.old (round_of round.old) reply.now)) }
{
    match read(alloc, reply) {
        Ok(tree) => take_tree(alloc, cache, round, tree),
        Err(ReadFault::NotJson) => Err(find_whole_fault(alloc)),
        Err(ReadFault::NotWhole(place)) => Err(name_place(place)),
        Err(ReadFault::NoMemory) => Err(ReplyFault::NoMemory),
    }
}

// Answers a reply after which a round has so many that moved.
fn answer(moved: Option<MovedStates>, count: u64) -> Result<(), ReplyFault>
    ensures { IsAnswer moved count result }
{
    match moved {
        Some(MovedStates { had, shown }) => {
            if count >= MAX_MOVED_REPLIES {
                return Err(ReplyFault::Moved { had, shown });
            }
            Ok(())
        }
        None => Ok(()),
    }
}

/// Takes the reply to the next request of a round: what it makes of the cache and the round is in
/// `specs/Progress.antt`.
///
/// Fails with `BadReply` if the reply is not of its form, or says another error than
/// `cannotCalculateChanges`; with `Moved` if it is the eighth reply of the round that shows another
/// state than it should; with `TooLong` if the round has taken 100,000 replies; and with `NoMemory`
/// if an allocation fails, or the text has more objects and lists than `jm_json` reads. After
/// `Moved` the reply was taken; after any other error the cache and the round are unchanged.
pub fn take_reply(
    alloc: Global,
    cache: &mut Cache,
    round: &mut Round,
    reply: &[u8],
) -> Result<(), ReplyFault>
    ensures few { OnOk result ((round_of round.old).replies < MAX_REPLIES) }
    ensures form { OnOk result (reply_places cache.old (round_of round.old) reply.now ≡ []) }
    ensures ok { OnOk result (IsTaken cache.old (round_of round.old) reply.now cache.new
        (round_of round.new)) }
    ensures count { OnOk result ((round_of round.new).replies
        ≡ (round_of round.old).replies + 1) }
    ensures fault { IfErr result (Explains cache.old (round_of round.old) reply.now cache.new
        (round_of round.new)) }
{
    if round.replies >= MAX_REPLIES {
        return Err(ReplyFault::TooLong);
    }
    let moved = take_bytes(alloc, cache, round, reply)?;
    round.replies += 1;
    answer(moved, round.moved)
}

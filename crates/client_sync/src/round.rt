// A client's round over an exchange: each next request is asked, and its answer taken.
ghost use Rattle.std.specs.Prelude.{◌≡◌, ◌<◌, ◌+◌, [], IfErr, IfOk, OnErr, OnOk, List, None, Some, option_map};
ghost use Rattle.jm_edge.specs.Exchanges.{told_with};
ghost use Rattle.jm_edge.specs.declared.answer.Asked.{Asked};
ghost use Rattle.client_cache.specs.ReplyForms.{reply_places};
ghost use Rattle.client_cache.specs.Requests.{next_request};
ghost use Rattle.client_cache.specs.RoundViews.{round_of};
ghost use Rattle.client_cache.specs.Taking.{IsTaken};
ghost use Rattle.client_cache.specs.declared.limits.TheConstants.{MAX_REPLIES};
ghost use Rattle.client_sync.specs.Syncing.{Goes, IsAskFault, IsRefused, IsWholeFault, Steps, Stops, StopsAt, body_of, told_all};

use crate::fault::SyncFault;
use client_cache::{Cache, ReplyFault, Round, next_request, path, take_reply};
use jm_base::Text;
use jm_edge::{Answer, EdgeFault, Exchange};
use std::alloc::Global;

// The status of an answer that is taken (RFC 9110, section 15.3.1).
const STATUS_OK: u16 = 200;

// Lends the body of a request. That for the Session has none.
fn find_body(request: &[u8]) -> Option<&[u8]>
    ensures { option_map (λ b. b.now) result ≡ body_of request.now }
{
    match request.split_first() {
        Some(_) => Some(request),
        None => None,
    }
}

// Asks a request of a round.
fn ask<X: Exchange>(
    alloc: Global,
    exchange: &mut X,
    round: &Round,
    request: &[u8],
) -> Result<Answer, SyncFault>
    ensures told { IfOk result (λ a. X.told exchange.new ≡ told_with (X.told exchange.old) record {
      path = (round_of round.now).path;
      body = body_of request.now;
      answer = a;
    }) }
    ensures untold { OnErr result (X.told exchange.new ≡ X.told exchange.old) }
    ensures count { OnOk result (X.faults exchange.new ≡ X.faults exchange.old) }
    ensures fault { IfErr result (IsAskFault (X.faults exchange.old) (X.faults exchange.new)) }
{
    match exchange.ask(alloc, path(round), find_body(request)) {
        Ok(answer) => Ok(answer),
        Err(EdgeFault::Failed) => Err(SyncFault::ExchangeFault),
        Err(EdgeFault::NoMemory) => Err(SyncFault::NoMemory),
    }
}

// Returns the fault of an answer of another status.
fn find_status_fault(alloc: Global) -> SyncFault
    ensures { IsWholeFault result }
{
    match Text::from_str(alloc, "") {
        Ok(place) => SyncFault::BadReply(place),
        Err(_) => SyncFault::NoMemory,
    }
}

// Takes an answer to the next request of a round.
fn take(
    alloc: Global,
    cache: &mut Cache,
    round: &mut Round,
    answer: &Answer,
) -> Result<(), SyncFault>
    ensures status { OnOk result (answer.now.status ≡ 200) }
    ensures form { OnOk result
        (reply_places cache.old (round_of round.old) answer.now.body ≡ []) }
    ensures ok { OnOk result (IsTaken cache.old (round_of round.old) answer.now.body cache.new
        (round_of round.new)) }
    ensures few { OnOk result ((round_of round.old).replies < MAX_REPLIES) }
    ensures count { OnOk result ((round_of round.new).replies
        ≡ (round_of round.old).replies + 1) }
    ensures fault { IfErr result (IsRefused cache.old (round_of round.old) answer.now cache.new
        (round_of round.new)) }
{
    if answer.status != STATUS_OK {
        return Err(find_status_fault(alloc));
    }
    match take_reply(alloc, cache, round, answer.body.as_slice()) {
        Ok(()) => Ok(()),
        Err(ReplyFault::BadReply(place)) => Err(SyncFault::BadReply(place)),
        Err(ReplyFault::Moved { had, shown }) => Err(SyncFault::Moved { had, shown }),
        Err(ReplyFault::TooLong) => Err(SyncFault::TooLong),
        Err(ReplyFault::NoMemory) => Err(SyncFault::NoMemory),
    }
}

// Asks a request of a round, and takes its answer.
fn go_on<X: Exchange>(
    alloc: Global,
    exchange: &mut X,
    cache: &mut Cache,
    round: &mut Round,
    request: &[u8],
) -> Result<(), SyncFault>
    requires { next_request cache.old (round_of round.old) ≡ Some request.now }
    ensures ok { OnOk result ((a : Asked)
        × (X.told exchange.new ≡ told_with (X.told exchange.old) a)
        × Steps cache.old (round_of round.old) a cache.new (round_of round.new)) }
    ensures faults { OnOk result (X.faults exchange.new ≡ X.faults exchange.old) }
    ensures few { OnOk result ((round_of round.old).replies < MAX_REPLIES) }
    ensures count { OnOk result ((round_of round.new).replies
        ≡ (round_of round.old).replies + 1) }
    ensures fault { IfErr result (StopsAt (X.told exchange.old) (X.told exchange.new)
        (X.faults exchange.old) (X.faults exchange.new) cache.old (round_of round.old)
        cache.new) }
{
    let answer = ask(alloc, exchange, round, request)?;
    take(alloc, cache, round, &answer)
}

/// Brings a cache up to date by what an exchange answers to the requests of a round, from where the
/// round is to its end. Fails as [`SyncFault`] says, but with no fault of a file.
pub(crate) fn finish_round<X: Exchange>(
    alloc: Global,
    exchange: &mut X,
    cache: &mut Cache,
    round: &mut Round,
) -> Result<(), SyncFault>
    ensures ok { OnOk result ((asked : List Asked)
        × (X.told exchange.new ≡ told_all (X.told exchange.old) asked)
        × Goes cache.old (round_of round.old) asked cache.new (round_of round.new)) }
    ensures done { OnOk result (next_request cache.new (round_of round.new) ≡ None) }
    ensures count { OnOk result (X.faults exchange.new ≡ X.faults exchange.old) }
    ensures fault { IfErr result (Stops (X.told exchange.old) (X.told exchange.new)
        (X.faults exchange.old) (X.faults exchange.new) cache.old (round_of round.old)
        cache.new) }
{
    'request: while let Some(request) = next_request(alloc, cache, round)? {
        go_on(alloc, exchange, cache, round, request.as_slice())?;
    }
    Ok(())
}

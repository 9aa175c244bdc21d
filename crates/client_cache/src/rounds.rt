// A client's round: what it holds between two replies.
ghost use Rattle.std.specs.Prelude.{◌≡◌, IfOk};
ghost use Rattle.client_cache.specs.RoundViews.{round_of};
ghost use Rattle.client_cache.specs.Rounds.{new_round};

use crate::cache::Cache;
use crate::kinds::Records;
use jm_base::{Bytes, Kind, NoMemory, Numbers};
use std::alloc::Global;

/// What the next request of a round is for.
#[derive(Clone, Copy)]
pub(crate) enum Step {
    /// The Session (RFC 8620, section 2).
    Session,
    /// The changes of a kind since a state (section 5.2).
    Changes(Kind, u64),
    /// A get of what they named, which must show this state (section 5.1).
    Changed(Kind, u64),
    /// A load: the results of a query of all records of a kind, from the second page on at this
    /// state (section 5.5).
    Results(Kind, Option<u64>),
    /// A get of these records at this state.
    Records(Kind, u64),
    /// A load of threads: their state.
    ThreadState,
    /// The state of emails, which must be the one that is kept; the threads were at this state.
    EmailState(u64),
    /// A get of the threads of these emails at this state.
    Threads(u64),
    /// The changes of the query of the list with an index, since a state (section 5.6).
    ListChanges(usize, u64),
    /// A load of a list: the results of its query, from the second page on at this state.
    ListResults(usize, Option<u64>),
    /// Nothing is left.
    Done,
}

/// A round of a client: the requests by which it brings what it keeps up to date, and what it holds
/// between two replies. Contracts see it as a `Round`, by `round_of`.
#[derive(Drop)]
pub struct Round {
    pub(crate) step: Step,
    pub(crate) path: Bytes,
    pub(crate) asked: Numbers,
    pub(crate) got: Records,
    pub(crate) dropped: Numbers,
    pub(crate) results: Numbers,
    pub(crate) replies: u64,
    pub(crate) moved: u64,
}

const SESSION_PATH: &str = "/.well-known/jmap";

/// Begins a round, which first asks for the Session (RFC 8620, section 2.2).
pub fn begin(alloc: Global, _cache: &Cache) -> Result<Round, NoMemory>
    ensures { IfOk result (λ r. round_of r ≡ new_round) }
{
    let path = Bytes::from_slice(alloc, SESSION_PATH.as_bytes())?;
    Ok(Round {
        step: Step::Session,
        path,
        asked: Numbers::new(alloc),
        got: Records::new(alloc),
        dropped: Numbers::new(alloc),
        results: Numbers::new(alloc),
        replies: 0,
        moved: 0,
    })
}

/// Lends the path to which the next request of a round goes.
pub fn path(round: &Round) -> &[u8]
    ensures { result.now ≡ (round_of round.now).path }
{
    round.path.as_slice()
}

// How the result list of a query changed since a state (RFC 8620, section 5.6).
ghost use Rattle.std.specs.Prelude.{◌≡◌, ◌≤◌, IfErr, IfOk};
ghost use Rattle.mail_records.specs.Histories.{History};
ghost use Rattle.state_log.specs.Logs.{log_end};
ghost use Rattle.change_calls.specs.Changes.{is_within};
ghost use Rattle.query_changes.specs.Deltas.{AreOf, DeltaFails, IsShown, answer_of, answer_within, answered, delta_of, shown};

use crate::delta::{Added, Delta, DeltaFault};
use crate::touched::{find_touched, place_touched};
use change_calls::find_state;
use filter_terms::Texts2;
use jm_base::{NoMemory, Numbers};
use mail_records::Content;
use query_engine::{Query, run_query};
use state_log::Log;
use std::alloc::Global;

// Returns the changes since a position that the log reaches. The total may be any number, unless it
// is counted: then no query is run if nothing is touched.
fn make_delta<T: Texts2>(
    alloc: Global,
    log: &Log,
    content: &Content,
    texts: &T,
    query: &Query,
    from: u64,
    counted: bool,
) -> Result<Delta, NoMemory>
    requires { from ≤ log_end log.now }
    ensures { IfOk result (λ delta. (h : History) → AreOf h log.now content.now.content
        → shown counted delta ≡ shown counted (delta_of h query.now (T.texts texts.now) from)) }
{
    let touched = Numbers::from_vec(find_touched(alloc, log, content, query, from)?);
    let new_state = log.state_of(query.kind());
    if !counted && touched.is_empty() {
        return Ok(Delta {
            removed: touched,
            added: Added::from_vec(Vec::new(alloc)),
            new_state,
            total: 0,
        });
    }
    let list = run_query(alloc, content, texts, query)?;
    let added = place_touched(alloc, touched.as_slice(), list.as_slice())?;
    Ok(Delta {
        removed: touched,
        added,
        new_state,
        total: list.len() as u64,
    })
}

fn is_within(max: Option<u64>, count: u64) -> bool
    ensures { result ≡ is_within max count }
{
    match max {
        Some(max) => count <= max,
        None => true,
    }
}

// Returns the changes, or how many they are if they are more than the maximum.
fn keep_within(delta: Delta, max: Option<u64>) -> Result<Delta, DeltaFault>
    ensures delta { IfOk result (λ kept. answer_within max delta ≡ answered kept) }
    ensures fault { IfErr result (λ fault. DeltaFails fault (answer_within max delta)) }
{
    let count = delta.removed.len() as u64 + delta.added.len() as u64;
    if is_within(max, count) {
        return Ok(delta);
    }
    Err(DeltaFault::TooMany(count))
}

/// Returns the changes of a query's result list since a state, as a response with the total or
/// without it shows them. Without it their total may be any number, and no query is run if nothing
/// is touched.
pub(crate) fn find_changes<T: Texts2>(
    alloc: Global,
    log: &Log,
    content: &Content,
    texts: &T,
    query: &Query,
    since: &[u8],
    max: Option<u64>,
    counted: bool,
) -> Result<Delta, DeltaFault>
    ensures delta { IfOk result (λ delta. (h : History) → AreOf h log.now content.now.content
        → IsShown counted delta (answer_of h query.now (T.texts texts.now) since.now max)) }
    ensures fault { IfErr result (λ fault. (h : History) → AreOf h log.now content.now.content
        → DeltaFails fault (answer_of h query.now (T.texts texts.now) since.now max)) }
{
    match find_state(log, query.kind(), since) {
        Some(from) => keep_within(
            make_delta(alloc, log, content, texts, query, from, counted)?,
            max,
        ),
        None => Err(DeltaFault::CannotCalculate),
    }
}

/// Returns how the result list of a query changed since a state, over an account with this log and
/// this content, whose messages contain what `texts` says (RFC 8620, section 5.6). `since` is the
/// text of the state, and `max` the greatest number of changes. The answer is exact for every
/// history of which log and content are.
///
/// Fails with `CannotCalculate` if the text is not that of a state from which all edits of the kind
/// are known, else with `TooMany` if `removed` and `added` together have more items than the
/// maximum, or with `NoMemory` if an allocation fails.
///
/// It costs what the query costs, and what the edits since the state cost.
pub fn query_changes<T: Texts2>(
    alloc: Global,
    log: &Log,
    content: &Content,
    texts: &T,
    query: &Query,
    since: &[u8],
    max: Option<u64>,
) -> Result<Delta, DeltaFault>
    ensures delta { IfOk result (λ delta. (h : History) → AreOf h log.now content.now.content
        → answer_of h query.now (T.texts texts.now) since.now max ≡ answered delta) }
    ensures fault { IfErr result (λ fault. (h : History) → AreOf h log.now content.now.content
        → DeltaFails fault (answer_of h query.now (T.texts texts.now) since.now max)) }
{
    find_changes(alloc, log, content, texts, query, since, max, true)
}

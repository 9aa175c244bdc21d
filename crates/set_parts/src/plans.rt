// The plan of a set (RFC 8620, section 5.3).
ghost use Rattle.std.specs.Prelude.{◌≡◌, ◌≤◌, IfOk};
ghost use Rattle.mail_records.specs.Histories.{max_position};
ghost use Rattle.set_parts.specs.Creates.{Creating};
ghost use Rattle.set_parts.specs.CreatesViews.{KeepUp};
ghost use Rattle.set_parts.specs.Outcomes.{ground_of, plan_of};
ghost use Rattle.set_parts.specs.Plans.{plan_after};
ghost use Rattle.set_parts.specs.Steps.{Progress};
ghost use Rattle.state_log.specs.Logs.{log_end};

use crate::creates::Creates;
use crate::reported::Reported;
use crate::responses::{build_set_response, find_new_state};
use jm_base::{Kind, NoMemory};
use mail_counts::{SetPlan, derived};
use mail_records::{Content, Edits};
use state_log::Log;
use std::alloc::Global;

/// Returns the plan of a set of records of a kind, over a content and a log of one history: what
/// its creates have come to, and the report and the edits of the updates and destroys after them.
/// The edits of threads and counts that follow from all these are added.
pub fn finish_plan<'a>(
    alloc: Global,
    kind: Kind,
    account: &str,
    content: &Content,
    log: &Log,
    creates: Creates<'a>,
    reported: Reported,
    edits: Edits,
) -> Result<SetPlan, NoMemory>
    requires last { log_end log.now ≤ max_position }
    ensures { IfOk result
        (λ x. (p : Creating) (s : Progress) → KeepUp creates.entry p → reported ≡ s.reported
        → edits ≡ s.edits → plan_of x
        ≡ plan_after kind (ground_of content.now.content log.now) account.now p s) }
{
    let Creates {
        ids: _ids,
        fresh,
        edits: first,
        blobs,
        created,
        not_created,
    } = creates;
    let mut reported = reported;
    reported.created = created;
    reported.not_created = not_created;
    let mut all = first;
    all.append(edits)?;
    let following = derived(alloc, content, all.as_slice())?;
    all.append(following)?;
    let before = log.state_of(kind);
    let after = find_new_state(log, kind, all.as_slice());
    let reply = build_set_response(alloc, account, before, after, reported)?;
    Ok(SetPlan {
        reply,
        edits: all,
        made: fresh,
        blobs,
    })
}

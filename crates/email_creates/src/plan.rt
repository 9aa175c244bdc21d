// The plan of a call of creates of emails (RFC 8620, sections 5.3 and 5.4).
ghost use Rattle.std.specs.Prelude.{◌≡◌, ◌≤◌, IfOk, option_map};
ghost use Rattle.mail_records.specs.Histories.{max_position};
ghost use Rattle.set_parts.specs.Outcomes.{ground_of, plan_of};
ghost use Rattle.state_log.specs.Logs.{log_end};
ghost use Rattle.email_creates.specs.Emails.{Progress};
ghost use Rattle.email_creates.specs.Plans.{plan_after};
ghost use Rattle.email_creates.specs.Views.{Follows};

use crate::planner::Planner;
use crate::response::{Accounts, build_response};
use jm_base::{Kind, NoMemory};
use mail_counts::{SetPlan, derived};
use mail_records::Content;
use set_parts::{Creates, find_new_state};
use state_log::Log;
use std::alloc::Global;

/// Returns the plan that creates have come to, over an account with this content and log. The edits
/// of threads and counts that follow from those of emails are added.
pub fn finish_plan<'a>(
    alloc: Global,
    accounts: Accounts,
    content: &Content,
    log: &Log,
    planner: Planner<'a>,
) -> Result<SetPlan, NoMemory>
    requires last { log_end log.now ≤ max_position }
    ensures { IfOk result
        (λ p. (s : Progress) → Follows content.now.content planner.entry s → plan_of p
        ≡ plan_after (ground_of content.now.content log.now) accounts.entry.to.now
        (option_map (λ s. s.now) accounts.entry.from) s) }
{
    let Planner {
        next_email: _,
        next_thread: _,
        new_emails,
        creates,
        blob_bytes: _,
    } = planner;
    drop(new_emails);
    let Creates {
        ids: _ids,
        fresh,
        mut edits,
        blobs,
        created,
        not_created,
    } = creates;
    let more = derived(alloc, content, edits.as_slice())?;
    edits.append(more)?;
    let before = log.state_of(Kind::Email);
    let after = find_new_state(log, Kind::Email, edits.as_slice());
    let reply = build_response(alloc, accounts, before, after, created, not_created)?;
    Ok(SetPlan {
        reply,
        edits,
        made: fresh,
        blobs,
    })
}

// The response to a set (RFC 8620, section 5.3).
ghost use Rattle.std.specs.Prelude.{◌≡◌, ◌+◌, ◌<◌, ◌^◌, IfOk, length};
ghost use Rattle.jm_json.specs.Json.{tree_of};
ghost use Rattle.jm_json.specs.Tree.{fields_of, object};
ghost use Rattle.mail_records.specs.Contents.{Content};
ghost use Rattle.mail_counts.specs.Plans.{state_after};
ghost use Rattle.set_parts.specs.Outcomes.{ground_of};
ghost use Rattle.set_parts.specs.Responses.{reply_members};
ghost use Rattle.state_log.specs.Logs.{log_end};

use crate::reported::Reported;
use jm_base::{Kind, NoMemory, Text, state_text};
use jm_json::{Json, Members};
use mail_counts::find_state_after;
use mail_records::Edit;
use method_args::{wrap_list, wrap_object};
use state_log::Log;
use std::alloc::Global;

/// Returns the state of a kind of record after these edits, which follow the last position of the
/// log (RFC 8620, section 5.3: `newState`).
pub fn find_new_state(log: &Log, kind: Kind, edits: &[Edit]) -> u64
    requires room { log_end log.now + length edits.now < 2 ^ 64 }
    ensures { (c : Content) → result ≡ state_after kind (ground_of c log.now) edits.now }
{
    let before = log.state_of(kind);
    find_state_after(kind, before, log.end(), edits)
}

/// Builds the arguments of the response: the account, the states before and after, and what is
/// reported of the objects.
pub fn build_set_response(
    alloc: Global,
    account: &str,
    before: u64,
    after: u64,
    reported: Reported,
) -> Result<Json, NoMemory>
    ensures { IfOk result
        (λ j. tree_of j
        ≡ object (fields_of (reply_members account.now before after reported))) }
{
    let Reported {
        created,
        destroyed,
        not_created,
        not_destroyed,
        not_updated,
        updated,
    } = reported;
    let account = Text::from_str(alloc, account)?;
    let before = state_text(alloc, before)?;
    let after = state_text(alloc, after)?;
    let mut reply = Members::with_room(alloc, 9)?;
    reply.set(alloc, "accountId", Json::Text(account))?;
    reply.set(alloc, "created", wrap_object(created))?;
    reply.set(alloc, "destroyed", wrap_list(destroyed))?;
    reply.set(alloc, "newState", Json::Text(after))?;
    reply.set(alloc, "notCreated", wrap_object(not_created))?;
    reply.set(alloc, "notDestroyed", wrap_object(not_destroyed))?;
    reply.set(alloc, "notUpdated", wrap_object(not_updated))?;
    reply.set(alloc, "oldState", Json::Text(before))?;
    reply.set(alloc, "updated", wrap_object(updated))?;
    Ok(Json::Object(reply))
}

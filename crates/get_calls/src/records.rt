// The records that a get finds (RFC 8620, section 5.1).
ghost use Rattle.std.specs.Prelude.{◌≡◌, ◌≢◌, ℕ, IfOk};
ghost use Rattle.jm_json.specs.Json.{tree_of};
ghost use Rattle.mail_view.specs.Gets.{reply_tree};

use jm_base::{NoMemory, Text, state_text};
use jm_json::{Items, Json, Members};
use std::alloc::Global;

/// The objects of a response, and the ids that name no record.
#[derive(Drop)]
pub(crate) struct FoundRecords {
    pub objects: Items,
    pub unknown: Items,
}

/// Returns the arguments of a response with these objects and unknown ids, in this state.
pub(crate) fn write_response(
    alloc: Global,
    account: &str,
    found: FoundRecords,
    state: u64,
) -> Result<Json, NoMemory>
    ensures { IfOk result (λ t.
        tree_of t ≡ reply_tree account.now found.objects found.unknown state) }
{
    let FoundRecords { objects, unknown } = found;
    let mut response = Members::with_room(alloc, 4)?;
    let account = Text::from_str(alloc, account)?;
    response.set(alloc, "accountId", Json::Text(account))?;
    response.set(alloc, "list", Json::List(objects))?;
    response.set(alloc, "notFound", Json::List(unknown))?;
    response.set(alloc, "state", Json::Text(state_text(alloc, state)?))?;
    Ok(Json::Object(response))
}

// The properties of a copy (RFC 8620, section 5.4; RFC 8621, section 4.7).
ghost use Rattle.std.specs.Prelude.{◌≡◌, ◌<◌, ◌^◌, IfOk, List, codes};
ghost use Rattle.jm_json.specs.Find.{find};
ghost use Rattle.jm_json.specs.Json.{tree_of};
ghost use Rattle.jm_json.specs.declared.invocation.Created.{Created as TheCreated};
ghost use Rattle.set_parts.specs.Views.{HoldIds};
ghost use Rattle.mail_copies.specs.Carried.{carried_keywords};
ghost use Rattle.mail_copies.specs.Copies.{keywords_or, properties_in, received_or};

use crate::carried::{read_carried_date, read_carried_keywords};
use email_creates::{Sent, read_received};
use jm_base::{NoMemory, Texts, UtcDate};
use jm_json::{Json, Members};
use mail_records::Content;
use set_parts::{CreatedIds, read_keywords, read_mailboxes};
use std::alloc::Global;

// Reads the keywords: those that are sent, else those of the original with this item.
fn read_keywords_or(
    alloc: Global,
    members: &Members,
    item: &Json,
) -> Result<Option<Texts>, NoMemory>
    ensures { IfOk result (λ o. o
        ≡ keywords_or (carried_keywords (tree_of item.now)) (find (codes "keywords") members.now)) }
{
    match members.get("keywords") {
        Some(_) => read_keywords(alloc, members),
        None => Ok(Some(read_carried_keywords(alloc, item)?)),
    }
}

// Reads the date of receipt: the one that is sent, else that of the original.
fn read_received_or(members: &Members, original: UtcDate) -> Option<Option<UtcDate>>
    ensures { result ≡ received_or original (find (codes "receivedAt") members.now) }
{
    match members.get("receivedAt") {
        Some(_) => read_received(members),
        None => Some(Some(original)),
    }
}

/// Reads the properties of the copy of an original with this item into an account with this
/// content.
pub fn read_properties<'a>(
    alloc: Global,
    content: &Content,
    ids: &CreatedIds<'a>,
    moment: u64,
    members: &Members,
    item: &Json,
) -> Result<Sent, NoMemory>
    requires { moment < 2 ^ 63 }
    ensures { IfOk result (λ a. (made : List TheCreated) → HoldIds ids.now made
        → a ≡ properties_in content.now.content made moment members.now (tree_of item.now)) }
{
    let keywords = read_keywords_or(alloc, members, item)?;
    let mailboxes = read_mailboxes(alloc, content, ids, members)?;
    let original = read_carried_date(alloc, item, moment)?;
    Ok(Sent {
        keywords,
        mailboxes,
        received: read_received_or(members, original),
    })
}

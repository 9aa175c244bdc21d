// What the create of an email sends besides its message (RFC 8621, sections 4.7 and 4.8).
ghost use Rattle.std.specs.Prelude.{◌≡◌, IfOk, IfSome, List, Some, codes};
ghost use Rattle.jm_base.specs.UtcDates.{IsUtcDate};
ghost use Rattle.jm_json.specs.Find.{find};
ghost use Rattle.jm_json.specs.Json.{tree_of};
ghost use Rattle.jm_json.specs.declared.invocation.Created.{Created as TheCreated};
ghost use Rattle.set_parts.specs.Views.{HoldIds};
ghost use Rattle.email_creates.specs.Properties.{date_named, received_in, sent_in};

use jm_base::{NoMemory, Numbers, Texts, UtcDate, read_utc};
use jm_json::{Json, Members};
use mail_records::Content;
use set_parts::{CreatedIds, read_keywords, read_mailboxes};
use std::alloc::Global;

/// A blob of the account: its number and its bytes.
#[derive(Clone, Copy)]
pub struct NamedBlob<'a> {
    pub number: u64,
    pub bytes: &'a [u8],
}

/// The properties that the create of an email sends besides its message. None means a value that is
/// invalid.
#[derive(Drop)]
pub struct Sent {
    pub keywords: Option<Texts>,
    pub mailboxes: Option<Numbers>,
    /// No date if none is sent.
    pub received: Option<Option<UtcDate>>,
}

/// Returns the date that a string is (RFC 8620, section 1.4: UTCDate).
pub fn read_date(text: &[u8]) -> Option<UtcDate>
    ensures date { result ≡ date_named text.now }
    ensures range { IfSome result IsUtcDate }
{
    match read_utc(text) {
        Ok(date) => Some(date),
        Err(_) => None,
    }
}

fn parse_received(tree: &Json) -> Option<Option<UtcDate>>
    ensures { result ≡ received_in (Some (tree_of tree.now)) }
{
    let date = read_date(tree.as_text()?.as_bytes())?;
    Some(Some(date))
}

/// Reads the date of receipt in `receivedAt`: no date if nothing is sent.
pub fn read_received(members: &Members) -> Option<Option<UtcDate>>
    ensures { result ≡ received_in (find (codes "receivedAt") members.now) }
{
    match members.get("receivedAt") {
        Some(tree) => parse_received(tree),
        None => Some(None),
    }
}

/// Reads the properties that a create sends, for an account with this content.
pub fn read_sent<'a>(
    alloc: Global,
    content: &Content,
    ids: &CreatedIds<'a>,
    members: &Members,
) -> Result<Sent, NoMemory>
    ensures { IfOk result (λ a. (made : List TheCreated) → HoldIds ids.now made
        → a ≡ sent_in content.now.content made members.now) }
{
    let keywords = read_keywords(alloc, members)?;
    let mailboxes = read_mailboxes(alloc, content, ids, members)?;
    Ok(Sent {
        keywords,
        mailboxes,
        received: read_received(members),
    })
}

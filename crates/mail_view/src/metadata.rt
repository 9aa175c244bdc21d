// The metadata properties of an email (RFC 8621, section 4.1.1).
ghost use Rattle.std.specs.Prelude.{◌≡◌, [], ◌∷◌, IfOk, true, map};
ghost use Rattle.jm_json.specs.Json.{tree_of as json_of};
ghost use Rattle.jm_json.specs.Tree.{boolean};
ghost use Rattle.mail_view.specs.Objects.{put_all};
ghost use Rattle.mail_view.specs.View.{date_tree, id_tree, identifier, keywords_tree, known_of, known_tree, mailboxes_tree, received_tree, thread_tree};
ghost use Rattle.mail_view.specs.Views.{email_of};

use get_args::MetadataProperty;
use jm_base::{
    FIRST_TIMESTAMP, Id, Kind, LAST_TIMESTAMP, NoMemory, Text, UtcDate, id_text, utc_text,
};
use jm_json::{Json, Members};
use mail_records::Email;
use std::alloc::Global;

fn write_id(alloc: Global, kind: Kind, number: u64) -> Result<Text, NoMemory>
    ensures { IfOk result (λ t. t ≡ identifier kind number) }
{
    id_text(alloc, &Id { kind, number })
}

fn write_email_id(alloc: Global, email: Option<&Email>) -> Result<Json, NoMemory>
    ensures { IfOk result (λ t. json_of t ≡ known_of id_tree (email_of email.entry)) }
{
    match email {
        Some(email) => Ok(Json::Text(write_id(alloc, Kind::Email, email.number)?)),
        None => Ok(Json::Null),
    }
}

fn write_thread_id(alloc: Global, email: Option<&Email>) -> Result<Json, NoMemory>
    ensures { IfOk result (λ t. json_of t ≡ known_of thread_tree (email_of email.entry)) }
{
    match email {
        Some(email) => Ok(Json::Text(write_id(alloc, Kind::Thread, email.thread)?)),
        None => Ok(Json::Null),
    }
}

fn write_mailbox_set(alloc: Global, numbers: &[u64]) -> Result<Members, NoMemory>
    ensures { IfOk result (λ ms. ms
        ≡ put_all (map (λ k. (k, boolean true)) (map (identifier Kind.Mailbox) numbers.now)) []) }
{
    let mut set = Members::with_room(alloc, numbers.len())?;
    for number in numbers {
        set.put(write_id(alloc, Kind::Mailbox, *number)?, Json::Bool(true))?;
    }
    Ok(set)
}

fn write_mailbox_ids(alloc: Global, email: Option<&Email>) -> Result<Json, NoMemory>
    ensures { IfOk result (λ t. json_of t ≡ known_of mailboxes_tree (email_of email.entry)) }
{
    match email {
        Some(email) => {
            let set = write_mailbox_set(alloc, email.mailboxes.as_slice())?;
            Ok(Json::Object(set))
        }
        None => Ok(Json::Null),
    }
}

/// Returns the `keywords` of an email with these keywords: an object that has `true` at each.
pub fn write_keyword_set(alloc: Global, texts: &[Text]) -> Result<Members, NoMemory>
    ensures { IfOk result (λ ms. ms ≡ put_all (map (λ k. (k, boolean true)) texts.now) []) }
{
    let mut set = Members::with_room(alloc, texts.len())?;
    for text in texts {
        set.put(text.copy()?, Json::Bool(true))?;
    }
    Ok(set)
}

fn write_keywords(alloc: Global, email: Option<&Email>) -> Result<Json, NoMemory>
    ensures { IfOk result (λ t. json_of t ≡ known_of keywords_tree (email_of email.entry)) }
{
    match email {
        Some(email) => {
            let set = write_keyword_set(alloc, email.keywords.as_slice())?;
            Ok(Json::Object(set))
        }
        None => Ok(Json::Null),
    }
}

/// Returns the text of a date (RFC 3339), or null if it is not of the years 0001 to 9999.
pub fn write_date(alloc: Global, date: &UtcDate) -> Result<Json, NoMemory>
    ensures { IfOk result (λ t. json_of t ≡ date_tree date.now) }
{
    if date.seconds < FIRST_TIMESTAMP || date.seconds > LAST_TIMESTAMP as i64 {
        return Ok(Json::Null);
    }
    Ok(Json::Text(utc_text(alloc, date)?))
}

fn write_received_at(alloc: Global, email: Option<&Email>) -> Result<Json, NoMemory>
    ensures { IfOk result (λ t. json_of t ≡ known_of received_tree (email_of email.entry)) }
{
    match email {
        Some(email) => write_date(alloc, &email.received),
        None => Ok(Json::Null),
    }
}

/// Returns a metadata property of a message with these bytes and this blob id, and of the email
/// that it is, if it is one.
pub(crate) fn write_metadata(
    alloc: Global,
    bytes: &[u8],
    blob: &str,
    email: Option<&Email>,
    property: MetadataProperty,
) -> Result<Json, NoMemory>
    ensures { IfOk result (λ t.
        json_of t ≡ known_tree bytes.now blob.now (email_of email.entry) property) }
{
    match property {
        MetadataProperty::Id => write_email_id(alloc, email),
        MetadataProperty::BlobId => Ok(Json::Text(Text::from_str(alloc, blob)?)),
        MetadataProperty::ThreadId => write_thread_id(alloc, email),
        MetadataProperty::MailboxIds => write_mailbox_ids(alloc, email),
        MetadataProperty::Keywords => write_keywords(alloc, email),
        MetadataProperty::Size => Ok(Json::Int(bytes.len() as i64)),
        MetadataProperty::ReceivedAt => write_received_at(alloc, email),
    }
}

// The response to a call of creates of emails (RFC 8620, section 5.4; RFC 8621, section 4.8).
ghost use Rattle.std.specs.Prelude.{◌≡◌, ◌<◌, ◌^◌, IfOk, None, option_map};
ghost use Rattle.jm_json.specs.Json.{tree_of};
ghost use Rattle.jm_json.specs.Tree.{fields_of, object};
ghost use Rattle.email_creates.specs.Emails.{created_members, email_id, new_record, thread_id};
ghost use Rattle.email_creates.specs.Plans.{reply_members};

use blob_ids::{BlobId, write_blob_id};
use jm_base::{Bytes, Id, Kind, NoMemory, Text, id_text, state_text};
use jm_json::{Json, Members};
use mail_records::{Edit, Edits, Email};
use method_args::wrap_object;
use set_parts::NewRecord;
use std::alloc::Global;

/// The account of a call, and the one that it copies from, by their ids.
#[derive(Clone, Copy)]
pub struct Accounts<'a> {
    pub to: &'a str,
    pub from: Option<&'a str>,
}

// Builds the arguments of the response but for the account that is copied from.
fn collect_reply(
    alloc: Global,
    account: &str,
    before: u64,
    after: u64,
    created: Members,
    not_created: Members,
) -> Result<Members, NoMemory>
    ensures { IfOk result
        (λ ms. ms ≡ reply_members account.now None before after created not_created) }
{
    let account = Text::from_str(alloc, account)?;
    let before = state_text(alloc, before)?;
    let after = state_text(alloc, after)?;
    let mut reply = Members::with_room(alloc, 6)?;
    reply.set(alloc, "accountId", Json::Text(account))?;
    reply.set(alloc, "created", wrap_object(created))?;
    reply.set(alloc, "newState", Json::Text(after))?;
    reply.set(alloc, "notCreated", wrap_object(not_created))?;
    reply.set(alloc, "oldState", Json::Text(before))?;
    Ok(reply)
}

/// Builds the arguments of the response: the account and the one that is copied from, the states
/// before and after, what was created, and what was not.
pub fn build_response(
    alloc: Global,
    accounts: Accounts,
    before: u64,
    after: u64,
    created: Members,
    not_created: Members,
) -> Result<Json, NoMemory>
    ensures { IfOk result
        (λ j. tree_of j ≡ object (fields_of
        (reply_members accounts.entry.to.now (option_map (λ s. s.now) accounts.entry.from) before
        after created not_created))) }
{
    let mut reply = collect_reply(alloc, accounts.to, before, after, created, not_created)?;
    match accounts.from {
        Some(from) => {
            let from = Text::from_str(alloc, from)?;
            reply.set(alloc, "fromAccountId", Json::Text(from))?;
            Ok(Json::Object(reply))
        }
        None => Ok(Json::Object(reply)),
    }
}

fn build_email_id(alloc: Global, number: u64) -> Result<Text, NoMemory>
    ensures { IfOk result (λ t. t ≡ email_id number) }
{
    let kind = Kind::Email;
    id_text(alloc, &Id { kind, number })
}

fn build_thread_id(alloc: Global, number: u64) -> Result<Text, NoMemory>
    ensures { IfOk result (λ t. t ≡ thread_id number) }
{
    let kind = Kind::Thread;
    id_text(alloc, &Id { kind, number })
}

// Builds what is reported of a new email.
fn collect_created_members(alloc: Global, email: &Email) -> Result<Members, NoMemory>
    requires { email.now.size < 2 ^ 63 }
    ensures { IfOk result (λ ms. ms ≡ created_members email.now) }
{
    let blob = email.blob;
    let blob_id = write_blob_id(alloc, BlobId { blob, leaf: None })?;
    let id = build_email_id(alloc, email.number)?;
    let thread_id = build_thread_id(alloc, email.thread)?;
    let mut object = Members::with_room(alloc, 4)?;
    object.set(alloc, "blobId", Json::Text(blob_id))?;
    object.set(alloc, "id", Json::Text(id))?;
    object.set(alloc, "size", Json::Int(email.size as i64))?;
    object.set(alloc, "threadId", Json::Text(thread_id))?;
    Ok(object)
}

/// Builds what the create of an email makes, which brings a blob or none.
pub fn build_record(
    alloc: Global,
    item: Email,
    brought: Option<Bytes>,
) -> Result<NewRecord, NoMemory>
    requires { item.size < 2 ^ 63 }
    ensures { IfOk result (λ x. x ≡ new_record item brought) }
{
    let id = build_email_id(alloc, item.number)?;
    let members = collect_created_members(alloc, &item)?;
    let mut edits = Edits::new(alloc);
    edits.push(Edit::PutEmail { item, was: false })?;
    Ok(NewRecord {
        id,
        members,
        edits,
        blob: brought,
    })
}

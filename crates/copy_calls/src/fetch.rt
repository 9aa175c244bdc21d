// What an Email/copy fetches from the account of the originals (RFC 8620, section 5.4; RFC 8621,
// section 4.7).
ghost use Rattle.std.specs.Prelude.{◌≡◌, ◌∷◌, ◌++◌, [], IfErr, IfOk, None, OnOk, Some, map, option_map};
ghost use Rattle.jm_json.specs.Find.{as_object};
ghost use Rattle.jm_json.specs.Json.{tree_of};
ghost use Rattle.mail_records.specs.States.{state_of};
ghost use Rattle.set_parts.specs.Outcomes.{ExplainsRejection};
ghost use Rattle.set_parts.specs.Views.{create_of};
ghost use Rattle.copy_calls.specs.Fetches.{carried_by, carried_of, fetch_rejection, fetched_in, item_of, messages_of, original_named, originals_in, rejection_by};

use account_book::{Account, Carried};
use blob_store::BlobList;
use get_calls::{find_blob, find_email};
use jm_base::{Blobs, Bytes, Kind, NoMemory, Text};
use jm_json::{Items, Json, Members};
use mail_copies::check_fetch;
use mail_counts::SetFault;
use mail_records::{Content, Email};
use mail_view::{write_date, write_keyword_set};
use method_args::read_text;
use set_parts::{SentCreate, read_creates};
use std::alloc::Global;

// Returns the original that a create names.
fn find_original<'a>(content: &'a Content, create: &SentCreate) -> Option<&'a Email>
    ensures { option_map (λ e. e.now) result
        ≡ original_named content.now.content.emails (create_of create.now) }
{
    match read_text(create.members, "id") {
        Some(id) => find_email(content, id.as_str()),
        None => None,
    }
}

// Builds the item of an original.
fn build_item(alloc: Global, email: &Email) -> Result<Json, NoMemory>
    ensures { IfOk result (λ t. tree_of t ≡ item_of (Some email.now)) }
{
    let keywords = write_keyword_set(alloc, email.keywords.as_slice())?;
    let received = write_date(alloc, &email.received)?;
    let mut item = Members::with_room(alloc, 2)?;
    item.set(alloc, "keywords", Json::Object(keywords))?;
    item.set(alloc, "receivedAt", received)?;
    Ok(Json::Object(item))
}

// Adds an original to what is carried, or null if there is none.
fn carry_original(
    alloc: Global,
    blobs: &BlobList,
    carried: &mut Carried,
    original: Option<&Email>,
) -> Result<(), NoMemory>
    ensures emails { OnOk result (carried.new.emails
        ≡ carried.old.emails ++ item_of (option_map (λ e. e.now) original.entry) ∷ []) }
    ensures blobs { OnOk result (carried.new.blobs ≡ carried.old.blobs
        ++ messages_of blobs.now.blobs (option_map (λ e. e.now) original.entry ∷ [])) }
{
    match original {
        Some(email) => {
            let bytes = Bytes::from_slice(alloc, find_blob(blobs, email.blob))?;
            carried.emails.push(build_item(alloc, email)?)?;
            carried.blobs.push(bytes)
        }
        None => carried.emails.push(Json::Null),
    }
}

// Returns what is carried of the originals of these creates.
fn carry_originals(
    alloc: Global,
    content: &Content,
    blobs: &BlobList,
    creates: &[SentCreate],
) -> Result<Carried, NoMemory>
    ensures { IfOk result (λ c. c ≡ carried_of blobs.now.blobs
        (map (original_named content.now.content.emails) (map create_of creates.now))) }
{
    let mut carried = Carried {
        emails: Items::with_room(alloc, creates.len())?,
        blobs: Blobs::new(alloc),
    };
    for create in creates {
        let original = find_original(content, create);
        carry_original(alloc, blobs, &mut carried, original)?;
    }
    Ok(carried)
}

fn fetch_members(
    alloc: Global,
    content: &Content,
    blobs: &BlobList,
    state: u64,
    members: &Members,
) -> Result<Carried, SetFault>
    ensures fetched { IfOk result (λ c. (rejection_by state (Some members.now) ≡ None)
        × (c ≡ carried_of blobs.now.blobs (originals_in content.now.content.emails members.now))) }
    ensures fault { IfErr result
        (λ e. ExplainsRejection e (rejection_by state (Some members.now))) }
{
    let creates = read_creates(alloc, members, "create")?;
    check_fetch(alloc, members, creates.len(), state)?;
    Ok(carry_originals(alloc, content, blobs, creates.as_slice())?)
}

/// Returns what is fetched as [`fetch_originals`] does, over the content of an account, its blobs
/// and the state of its emails.
pub fn fetch_originals_from(
    alloc: Global,
    content: &Content,
    blobs: &BlobList,
    state: u64,
    args: &Json,
) -> Result<Carried, SetFault>
    ensures fetched { IfOk result
        (λ c. (rejection_by state (as_object (tree_of args.now)) ≡ None)
        × (c ≡ carried_by content.now.content blobs.now.blobs (as_object (tree_of args.now)))) }
    ensures fault { IfErr result
        (λ e. ExplainsRejection e (rejection_by state (as_object (tree_of args.now)))) }
{
    match args.as_object() {
        Some(members) => fetch_members(alloc, content, blobs, state, members),
        None => Err(SetFault::Invalid(Text::from_str(alloc, "")?)),
    }
}

// Returns the state of an account's emails.
fn find_state(account: &Account) -> u64
    ensures { result ≡ state_of account.now.history Kind.Email }
{
    account.log().state_of(Kind::Email)
}

/// Returns what an Email/copy with these arguments fetches from the account of the originals: an
/// item for each create in byte order of the creation ids, and the message of each original.
///
/// An item is null if the `id` of the create names no email, and else has the email's `keywords`
/// and `receivedAt` as Email/get gives them. Fails with `Invalid` and the name of the first
/// argument in byte order that is missing or does not have its form (the empty name if `args` is no
/// object), with `TooLarge` if there are more than [`MAX_OBJECTS_PER_CALL`] creates, and with
/// `StateMismatch` if `ifFromInState` is not the text of the state of the account's emails. The
/// first fault in this order is returned.
///
/// [`MAX_OBJECTS_PER_CALL`]: method_args::MAX_OBJECTS_PER_CALL
pub fn fetch_originals(alloc: Global, account: &Account, args: &Json) -> Result<Carried, SetFault>
    ensures fetched { IfOk result
        (λ c. (fetch_rejection account.now.history (tree_of args.now) ≡ None)
        × (c ≡ fetched_in account.now.history (tree_of args.now))) }
    ensures fault { IfErr result
        (λ e. ExplainsRejection e (fetch_rejection account.now.history (tree_of args.now))) }
{
    let state = find_state(account);
    fetch_originals_from(alloc, account.content(), account.blobs(), state, args)
}

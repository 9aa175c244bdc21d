// What a Blob/copy fetches from the account of the blobs (RFC 8620, section 6.3).
ghost use Rattle.std.specs.Prelude.{◌≡◌, ◌∷◌, ◌++◌, [], IfErr, IfOk, MatchResult, None, OnOk, Some, filter_map, length, map, option_map};
ghost use Rattle.jm_json.specs.Find.{as_object};
ghost use Rattle.jm_json.specs.Json.{tree_of};
ghost use Rattle.method_args.specs.Arguments.{find_invalid};
ghost use Rattle.set_parts.specs.Outcomes.{ExplainsRejection};
ghost use Rattle.copy_calls.specs.BlobCopies.{blob_forms, blob_ids_in, blob_item, blob_rejection, blob_rejection_by, blobs_carried, blobs_carried_by, blobs_fetched_in, too_many};

use account_book::{Account, Carried};
use blob_store::BlobList;
use jm_base::{Blobs, Bytes, NoMemory, Text};
use jm_json::{Items, Json, Members};
use mail_counts::SetFault;
use mail_view::read_named_bytes;
use method_args::{Argument, MAX_OBJECTS_PER_CALL, Presence, Shape, find_invalid, read_strings};
use std::alloc::Global;

// Returns the name of the first argument in byte order that does not have its form.
fn find_invalid_argument(members: &Members) -> Option<&'static str>
    ensures { option_map (λ s. s.now) result ≡ find_invalid blob_forms members.now }
{
    find_invalid(
        members,
        &[
            Argument {
                name: "accountId",
                presence: Presence::Required,
                shape: Shape::String,
            },
            Argument {
                name: "blobIds",
                presence: Presence::Required,
                shape: Shape::Strings,
            },
            Argument {
                name: "fromAccountId",
                presence: Presence::Required,
                shape: Shape::String,
            },
        ],
    )
}

fn check_count(ids: usize) -> Result<(), SetFault>
    ensures { MatchResult result (λ _. too_many ids ≡ None)
        (λ e. ExplainsRejection e (too_many ids)) }
{
    if ids > MAX_OBJECTS_PER_CALL {
        return Err(SetFault::TooLarge);
    }
    Ok(())
}

/// Returns Ok if a Blob/copy of so many ids with these arguments is not rejected as a whole. Fails
/// with `Invalid` and the name of the first argument that does not have its form, and with
/// `TooLarge` if there are more than [`MAX_OBJECTS_PER_CALL`] ids; the first fault in this order is
/// returned.
pub fn check_blob_copy(alloc: Global, members: &Members, ids: usize) -> Result<(), SetFault>
    requires { ids ≡ length (blob_ids_in members.now) }
    ensures { MatchResult result (λ _. blob_rejection_by (Some members.now) ≡ None)
        (λ e. ExplainsRejection e (blob_rejection_by (Some members.now))) }
{
    match find_invalid_argument(members) {
        Some(name) => Err(SetFault::Invalid(Text::from_str(alloc, name)?)),
        None => check_count(ids),
    }
}

/// Returns the ids of the blobs, repeated ones too.
pub fn read_blob_ids<'a>(alloc: Global, members: &'a Members) -> Result<Vec<&'a str>, NoMemory>
    ensures { IfOk result (λ v. map (λ s. s.now) v.items ≡ blob_ids_in members.now) }
{
    match read_strings(alloc, members, "blobIds")? {
        Some(ids) => Ok(ids),
        None => Ok(Vec::new(alloc)),
    }
}

// Adds bytes to what is carried, or null if there are none.
fn carry_bytes(alloc: Global, carried: &mut Carried, bytes: Option<Bytes>) -> Result<(), NoMemory>
    ensures emails { OnOk result
        (carried.new.emails ≡ carried.old.emails ++ blob_item bytes ∷ []) }
    ensures blobs { OnOk result
        (carried.new.blobs ≡ carried.old.blobs ++ filter_map (λ o. o) (bytes ∷ [])) }
{
    match bytes {
        Some(bytes) => {
            carried.emails.push(Json::Object(Members::new(alloc)))?;
            carried.blobs.push(bytes)
        }
        None => carried.emails.push(Json::Null),
    }
}

// Returns what is carried for these ids.
fn carry_blobs(alloc: Global, blobs: &BlobList, ids: &[&str]) -> Result<Carried, NoMemory>
    ensures { IfOk result
        (λ c. c ≡ blobs_carried blobs.now.blobs (map (λ s. s.now) ids.now)) }
{
    let mut carried = Carried {
        emails: Items::with_room(alloc, ids.len())?,
        blobs: Blobs::new(alloc),
    };
    for id in ids {
        let bytes = read_named_bytes(alloc, blobs, id)?;
        carry_bytes(alloc, &mut carried, bytes)?;
    }
    Ok(carried)
}

fn fetch_members(alloc: Global, blobs: &BlobList, members: &Members) -> Result<Carried, SetFault>
    ensures fetched { IfOk result (λ c. (blob_rejection_by (Some members.now) ≡ None)
        × (c ≡ blobs_carried blobs.now.blobs (blob_ids_in members.now))) }
    ensures fault { IfErr result
        (λ e. ExplainsRejection e (blob_rejection_by (Some members.now))) }
{
    let ids = read_blob_ids(alloc, members)?;
    check_blob_copy(alloc, members, ids.len())?;
    Ok(carry_blobs(alloc, blobs, ids.as_slice())?)
}

/// Returns what is fetched as [`fetch_blobs`] does, over the blobs of an account.
pub fn fetch_blobs_from(alloc: Global, blobs: &BlobList, args: &Json) -> Result<Carried, SetFault>
    ensures fetched { IfOk result (λ c. (blob_rejection (tree_of args.now) ≡ None)
        × (c ≡ blobs_carried_by blobs.now.blobs (as_object (tree_of args.now)))) }
    ensures fault { IfErr result (λ e. ExplainsRejection e (blob_rejection (tree_of args.now))) }
{
    match args.as_object() {
        Some(members) => fetch_members(alloc, blobs, members),
        None => Err(SetFault::Invalid(Text::from_str(alloc, "")?)),
    }
}

/// Returns what a Blob/copy with these arguments fetches from the account of the blobs: an item for
/// each of `blobIds`, in order, and the bytes of each that is found.
///
/// An item is null if the id names neither a blob nor a part of a message, and else an object
/// without members. Fails with `Invalid` and the name of the first argument in byte order that is
/// missing or does not have its form (the empty name if `args` is no object), and with `TooLarge`
/// if there are more than [`MAX_OBJECTS_PER_CALL`] ids. The first fault in this order is returned.
pub fn fetch_blobs(alloc: Global, account: &Account, args: &Json) -> Result<Carried, SetFault>
    ensures fetched { IfOk result (λ c. (blob_rejection (tree_of args.now) ≡ None)
        × (c ≡ blobs_fetched_in account.now.history (tree_of args.now))) }
    ensures fault { IfErr result (λ e. ExplainsRejection e (blob_rejection (tree_of args.now))) }
{
    fetch_blobs_from(alloc, account.blobs(), args)
}

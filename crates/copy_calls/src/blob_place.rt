// The plan of the account to which a Blob/copy copies blobs (RFC 8620, section 6.3).
ghost use Rattle.std.specs.Prelude.{◌≡◌, ◌+◌, ◌≤◌, ◌++◌, IfErr, IfOk, None, OnOk, Some, length, map, option_map, true};
ghost use Rattle.jm_json.specs.Find.{as_object};
ghost use Rattle.jm_json.specs.Json.{tree_of};
ghost use Rattle.jm_json.specs.Order.{put};
ghost use Rattle.jm_json.specs.Tree.{fields_of, object};
ghost use Rattle.blob_store.specs.Blobs.{AreBlobsFew, has_room};
ghost use Rattle.blob_store.specs.declared.limits.TheConstants.{MAX_BLOB_BYTES_PER_ACCOUNT as most_bytes};
ghost use Rattle.mail_records.specs.Histories.{blobs_of};
ghost use Rattle.mail_view.specs.Records.{first_mentions};
ghost use Rattle.set_parts.specs.Outcomes.{ExplainsRejection};
ghost use Rattle.set_parts.specs.SetErrors.{error_tree};
ghost use Rattle.copy_calls.specs.BlobCopies.{BlobCopying, after_blob, after_blobs, after_bytes, blob_plan, blob_plan_by, blob_plan_in, blob_rejection, blob_rejection_by, blob_reply_members, delivered_for, next_blob_tree, no_blobs};
ghost use Rattle.copy_calls.specs.Views.{AreCounted, FollowsBlobs, blob_plan_of};
ghost use Rattle.mail_copies.specs.Views.{delivery_of};

use crate::blob_fetch::{check_blob_copy, read_blob_ids};
use account_book::{Account, Carried};
use blob_ids::{BlobId, write_blob_id};
use blob_store::BlobList;
use email_creates::has_room;
use jm_base::{Blobs, Bytes, NoMemory, Text};
use jm_json::{Json, Members};
use mail_copies::{Delivery, collect_deliveries, pick_delivery, read_from_account};
use mail_counts::SetFault;
use method_args::wrap_object;
use set_parts::{SetError, build_error, read_account_id};
use std::alloc::Global;
use std::collections::HashSet;

/// The plan of the account to which blobs are copied: the arguments of its response, and the blobs
/// that it brings. It has no edits.
#[derive(Drop)]
pub struct BlobPlan {
    pub reply: Json,
    pub blobs: Blobs,
}

/// How far a Blob/copy has come: the blobs that it brought and their bytes, and what is reported of
/// each id.
#[derive(Drop)]
pub struct BlobPlanner {
    pub blobs: Vec<Bytes>,
    pub blob_bytes: u64,
    pub copied: Members,
    pub not_copied: Members,
}

fn build_blob_id(alloc: Global, blobs: &BlobList, brought: &[Bytes]) -> Result<Json, NoMemory>
    ensures { IfOk result
        (λ j. tree_of j ≡ next_blob_tree (blobs.now.blobs ++ brought.now)) }
{
    let count = blobs.all().len() as u64 + brought.len() as u64;
    let blob = count + 1;
    Ok(Json::Text(write_blob_id(alloc, BlobId { blob, leaf: None })?))
}

fn reject_blob(
    alloc: Global,
    planner: &mut BlobPlanner,
    id: &str,
    error: SetError,
) -> Result<(), NoMemory>
    ensures follows { OnOk result
        ((s : BlobCopying) → FollowsBlobs planner.old s → FollowsBlobs planner.new
        (record s { not_copied = put id.now (error_tree error) s.not_copied })) }
    ensures counted { OnOk result (AreCounted planner.old → AreCounted planner.new) }
{
    let told = build_error(alloc, error)?;
    planner.not_copied.set(alloc, id, told)
}

// Brings bytes as a blob, for which there is room.
fn bring_blob(
    alloc: Global,
    blobs: &BlobList,
    planner: &mut BlobPlanner,
    id: &str,
    bytes: &[u8],
) -> Result<(), NoMemory>
    requires room { planner.old.blob_bytes + length bytes.now ≤ most_bytes }
    ensures follows { OnOk result
        ((s : BlobCopying) → FollowsBlobs planner.old s → FollowsBlobs planner.new
        (after_bytes blobs.now.blobs s id.now bytes.now true)) }
    ensures counted { OnOk result (AreCounted planner.old → AreCounted planner.new) }
{
    let told = build_blob_id(alloc, blobs, planner.blobs.as_slice())?;
    planner.copied.set(alloc, id, told)?;
    planner.blobs.push(Bytes::from_slice(alloc, bytes)?)?;
    planner.blob_bytes = planner.blob_bytes + bytes.len() as u64;
    Ok(())
}

fn copy_bytes(
    alloc: Global,
    blobs: &BlobList,
    planner: &mut BlobPlanner,
    id: &str,
    bytes: &[u8],
) -> Result<(), NoMemory>
    requires counted { AreCounted planner.old }
    ensures follows { OnOk result
        ((s : BlobCopying) → FollowsBlobs planner.old s → FollowsBlobs planner.new
        (after_bytes blobs.now.blobs s id.now bytes.now
        (has_room (length bytes.now) (blobs.now.blobs ++ s.brought)))) }
    ensures counted { OnOk result (AreCounted planner.new) }
{
    let size = bytes.len() as u64;
    let brought = planner.blobs.as_slice();
    if has_room(blobs, brought, planner.blob_bytes, size) {
        bring_blob(alloc, blobs, planner, id, bytes)
    } else {
        reject_blob(alloc, planner, id, SetError::OverQuota)
    }
}

// Copies what is delivered for an id.
fn copy_blob<'a>(
    alloc: Global,
    blobs: &BlobList,
    planner: &mut BlobPlanner,
    id: &str,
    delivery: Option<Delivery<'a>>,
) -> Result<(), NoMemory>
    requires counted { AreCounted planner.old }
    ensures follows { OnOk result
        ((s : BlobCopying) → FollowsBlobs planner.old s → FollowsBlobs planner.new
        (after_blob blobs.now.blobs s id.now (option_map delivery_of delivery.entry))) }
    ensures counted { OnOk result (AreCounted planner.new) }
{
    match delivery {
        Some(delivery) => copy_bytes(alloc, blobs, planner, id, delivery.bytes),
        None => reject_blob(alloc, planner, id, SetError::NotFound),
    }
}

// Copies what is delivered for these ids, each at its first place.
fn copy_all<'a>(
    alloc: Global,
    blobs: &BlobList,
    ids: &[&str],
    deliveries: &[Option<Delivery<'a>>],
) -> Result<BlobPlanner, NoMemory>
    ensures { IfOk result (λ p. FollowsBlobs p
        (after_blobs blobs.now.blobs
        (delivered_for (map (λ s. s.now) ids.now)
        (map (λ d. option_map delivery_of d) deliveries.now)) no_blobs
        (first_mentions (map (λ s. s.now) ids.now)))) }
{
    let mut planner = BlobPlanner {
        blobs: Vec::new(alloc),
        blob_bytes: 0,
        copied: Members::new(alloc),
        not_copied: Members::new(alloc),
    };
    let mut seen = HashSet::new(alloc);
    for i in 0..ids.len() {
        if !seen.insert(ids[i])? {
            continue;
        }
        copy_blob(
            alloc,
            blobs,
            &mut planner,
            ids[i],
            pick_delivery(deliveries, i),
        )?;
    }
    Ok(planner)
}

// Builds the arguments of the response.
fn build_blob_response(
    alloc: Global,
    members: &Members,
    copied: Members,
    not_copied: Members,
) -> Result<Json, NoMemory>
    ensures { IfOk result (λ j. (s : BlobCopying) → copied ≡ s.copied → not_copied ≡ s.not_copied
        → tree_of j ≡ object (fields_of (blob_reply_members members.now s))) }
{
    let to = Text::from_str(alloc, read_account_id(members))?;
    let from = Text::from_str(alloc, read_from_account(members))?;
    let mut reply = Members::with_room(alloc, 4)?;
    reply.set(alloc, "accountId", Json::Text(to))?;
    reply.set(alloc, "copied", wrap_object(copied))?;
    reply.set(alloc, "fromAccountId", Json::Text(from))?;
    reply.set(alloc, "notCopied", wrap_object(not_copied))?;
    Ok(Json::Object(reply))
}

fn finish_blobs(
    alloc: Global,
    members: &Members,
    planner: BlobPlanner,
) -> Result<BlobPlan, NoMemory>
    ensures { IfOk result (λ p. (s : BlobCopying) → FollowsBlobs planner s
        → blob_plan_of p ≡ blob_plan members.now s) }
{
    let BlobPlanner {
        blobs,
        blob_bytes: _,
        copied,
        not_copied,
    } = planner;
    let reply = build_blob_response(alloc, members, copied, not_copied)?;
    Ok(BlobPlan {
        reply,
        blobs: Blobs::from_vec(blobs),
    })
}

fn plan_blob_members(
    alloc: Global,
    blobs: &BlobList,
    members: &Members,
    carried: &Carried,
) -> Result<BlobPlan, SetFault>
    ensures plan { IfOk result (λ p. (blob_rejection_by (Some members.now) ≡ None)
        × (blob_plan_of p ≡ blob_plan_by blobs.now.blobs carried.now (Some members.now))) }
    ensures fault { IfErr result
        (λ e. ExplainsRejection e (blob_rejection_by (Some members.now))) }
{
    let ids = read_blob_ids(alloc, members)?;
    check_blob_copy(alloc, members, ids.len())?;
    let deliveries = collect_deliveries(
        alloc,
        carried.emails.as_slice(),
        carried.blobs.as_slice(),
    )?;
    let planner = copy_all(alloc, blobs, ids.as_slice(), deliveries.as_slice())?;
    Ok(finish_blobs(alloc, members, planner)?)
}

/// Returns the plan of a Blob/copy as [`plan_blob_copy`] does, over the blobs of the account.
pub fn place_blobs(
    alloc: Global,
    blobs: &BlobList,
    args: &Json,
    carried: &Carried,
) -> Result<BlobPlan, SetFault>
    ensures plan { IfOk result (λ p. (blob_rejection (tree_of args.now) ≡ None)
        × (blob_plan_of p
        ≡ blob_plan_by blobs.now.blobs carried.now (as_object (tree_of args.now)))) }
    ensures fault { IfErr result (λ e. ExplainsRejection e (blob_rejection (tree_of args.now))) }
{
    match args.as_object() {
        Some(members) => plan_blob_members(alloc, blobs, members, carried),
        None => Err(SetFault::Invalid(Text::from_str(alloc, "")?)),
    }
}

fn place_over(
    alloc: Global,
    account: &Account,
    args: &Json,
    carried: &Carried,
) -> Result<BlobPlan, SetFault>
    ensures plan { IfOk result (λ p. (blob_rejection (tree_of args.now) ≡ None)
        × (blob_plan_of p ≡ blob_plan_in account.now.history (tree_of args.now) carried.now)) }
    ensures fault { IfErr result (λ e. ExplainsRejection e (blob_rejection (tree_of args.now))) }
    ensures few { AreBlobsFew (blobs_of account.now.history) }
{
    place_blobs(alloc, account.blobs(), args, carried)
}

/// Returns the plan of the account to which a Blob/copy with these arguments copies blobs, for a
/// user who may write the account. `carried` is what the account of the blobs gave, or anything
/// else.
///
/// Fails as [`fetch_blobs`] does. Each id of `blobIds` is copied once, at its first place; its
/// later items count for nothing. It is reported in `copied` with the identifier of its new blob,
/// or in `notCopied` with `notFound` if nothing is carried for it, and with `overQuota` if the
/// blobs of the account would pass a limit. The plan has no edits, and its blobs stay within the
/// limits.
///
/// [`fetch_blobs`]: crate::fetch_blobs
pub fn plan_blob_copy(
    alloc: Global,
    account: &Account,
    args: &Json,
    carried: &Carried,
) -> Result<BlobPlan, SetFault>
    ensures plan { IfOk result (λ p. (blob_rejection (tree_of args.now) ≡ None)
        × (blob_plan_of p ≡ blob_plan_in account.now.history (tree_of args.now) carried.now)) }
    ensures fault { IfErr result (λ e. ExplainsRejection e (blob_rejection (tree_of args.now))) }
    ensures few { IfOk result (λ p. AreBlobsFew (blobs_of account.now.history ++ p.blobs)) }
{
    place_over(alloc, account, args, carried)
}

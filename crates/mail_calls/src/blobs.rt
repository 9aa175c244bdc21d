// Plans of uploads, and the bytes that identifiers name (RFC 8620, sections 6.1 and 6.2).
ghost use Rattle.std.specs.Prelude.{◌≡◌, ◌+◌, IfOk};
ghost use Rattle.mail_view.specs.NamedBytes.{bytes_named};
ghost use Rattle.mail_records.specs.Histories.{blobs_of};
ghost use Rattle.mail_records.specs.States.{state_of};
ghost use Rattle.jm_base.specs.declared.identifiers.Kind.TheVariants as kind;
ghost use Rattle.blob_store.specs.Blobs.{has_room};
ghost use Rattle.mail_calls.specs.BlobPlans.{upload_if, upload_plan, uploaded};
ghost use Rattle.mail_calls.specs.Plans.{reading};

use account_book::{Account, Out, Plan};
use blob_store::BlobList;
use jm_base::{Blobs, Bytes, Kind, NoMemory};
use mail_records::Edits;
use mail_view::read_named_bytes;
use std::alloc::Global;

/// Returns the plan that answers this and changes nothing.
pub(crate) fn plan_reading(alloc: Global, out: Out) -> Plan
    ensures { result ≡ reading out }
{
    Plan {
        out,
        blobs: Blobs::new(alloc),
        edits: Edits::new(alloc),
    }
}

/// Returns whether one more blob of this many bytes is within the limits of an account.
#[tactic(auto, using(crate::proofs::Rooms::room_is))]
pub(crate) fn has_room(blobs: &BlobList, size: u64) -> bool
    ensures { result ≡ has_room size blobs.now.blobs }
{
    !blobs.is_full_for(size)
}

// Returns the plan that brings bytes as the blob of this number.
fn plan_blob(alloc: Global, number: u64, bytes: &[u8]) -> Result<Plan, NoMemory>
    ensures { IfOk result (λ p. p ≡ uploaded number bytes.now) }
{
    let mut blobs = Blobs::new(alloc);
    blobs.push(Bytes::from_slice(alloc, bytes)?)?;
    Ok(Plan {
        out: Out::Uploaded(number),
        blobs,
        edits: Edits::new(alloc),
    })
}

// Returns the plan of an upload, if there is room for it as the blob of this number.
fn plan_upload_if(alloc: Global, room: bool, number: u64, bytes: &[u8]) -> Result<Plan, NoMemory>
    ensures { IfOk result (λ p. p ≡ upload_if room number bytes.now) }
{
    if room {
        return plan_blob(alloc, number, bytes);
    }
    Ok(plan_reading(alloc, Out::Full))
}

/// Returns the plan of an upload of these bytes: the blob with the next number, or nothing if there
/// is no room for it.
#[tactic(auto, using(crate::proofs::Rooms::upload_is))]
pub(crate) fn plan_upload(alloc: Global, account: &Account, bytes: &[u8]) -> Result<Plan, NoMemory>
    ensures { IfOk result (λ p. p ≡ upload_plan account.now.history bytes.now) }
{
    let blobs = account.blobs();
    let room = has_room(blobs, bytes.len() as u64);
    plan_upload_if(alloc, room, blobs.all().len() as u64 + 1, bytes)
}

/// Returns the plan that answers the bytes which a string names: those of a blob, or the decoded
/// bytes of a leaf of the message that a blob holds (RFC 8620, section 6.2; RFC 8621, section
/// 4.1.4).
#[tactic(auto, using(crate::proofs::Rooms::bytes_are))]
pub(crate) fn plan_bytes(alloc: Global, account: &Account, name: &str) -> Result<Plan, NoMemory>
    ensures { IfOk result
        (λ p. p ≡ reading (Out.Blob (bytes_named (blobs_of account.now.history) name.now))) }
{
    let bytes = read_named_bytes(alloc, account.blobs(), name)?;
    Ok(plan_reading(alloc, Out::Blob(bytes)))
}

/// Returns the state of a kind of record.
pub(crate) fn find_state(account: &Account, kind: Kind) -> u64
    ensures { result ≡ state_of account.now.history kind }
{
    account.log().state_of(kind)
}

/// Returns the plan that answers the state of each kind of record (RFC 8620, section 5.1).
pub(crate) fn plan_states(alloc: Global, account: &Account) -> Plan
    ensures { result ≡ reading (Out.States (state_of account.now.history kind.Mailbox)
        (state_of account.now.history kind.Email) (state_of account.now.history kind.Thread)) }
{
    let mailbox = find_state(account, Kind::Mailbox);
    let email = find_state(account, Kind::Email);
    let thread = find_state(account, Kind::Thread);
    plan_reading(
        alloc,
        Out::States {
            mailbox,
            email,
            thread,
        },
    )
}

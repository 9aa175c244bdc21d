// What comes of the creates of a call (RFC 8620, sections 5.3 and 5.4; RFC 8621, section 4.8).
ghost use Rattle.std.specs.Prelude.{◌≡◌, ◌++◌, [], IfOk, OnOk};
ghost use Rattle.mail_records.specs.Contents.{Content};
ghost use Rattle.set_parts.specs.Creates.{Creating, after_create, before_creates, blobs_brought, blobs_of};
ghost use Rattle.set_parts.specs.CreatesViews.{KeepUp};

use crate::creation_ids::{CreatedIds, collect_ids, note_id, read_mailbox_number};
use crate::set_errors::{SetError, build_error};
use jm_base::{Blobs, Bytes, NoMemory, Text};
use jm_json::{Created, Json, Made, Members};
use mail_records::Edits;
use std::alloc::Global;

/// A record that a create makes.
#[derive(Drop)]
pub struct NewRecord {
    /// Its id.
    pub id: Text,
    /// The members of the object that reports it in `created`.
    pub members: Members,
    /// The edits that put it, in order.
    pub edits: Edits,
    /// The bytes of the blob that it brings, if it brings one.
    pub blob: Option<Bytes>,
}

/// What comes of the create, the import or the copy of one record.
#[derive(Drop)]
pub enum CreateStep {
    /// It is rejected, and changes nothing.
    Rejected(SetError),
    /// It is done, and makes this record.
    Done(NewRecord),
}

/// What the creates of a call have come to: what creation ids mean, the records that the call has
/// created, its edits, the bytes of the blobs that it brings, and what is reported of each create.
#[derive(Drop)]
pub struct Creates<'a> {
    pub ids: CreatedIds<'a>,
    pub fresh: Made,
    pub edits: Edits,
    pub blobs: Blobs,
    pub created: Members,
    pub not_created: Members,
}

/// Returns what there is before the first create of a call, in a request that has created this.
pub fn start_creates<'a>(alloc: Global, made: &'a [Created]) -> Result<Creates<'a>, NoMemory>
    ensures { IfOk result (λ p. (c : Content) → KeepUp p (before_creates c made.now)) }
{
    let ids = collect_ids(alloc, made)?;
    Ok(Creates {
        ids,
        fresh: Made::new(alloc),
        edits: Edits::new(alloc),
        blobs: Blobs::new(alloc),
        created: Members::new(alloc),
        not_created: Members::new(alloc),
    })
}

fn push_blob(blobs: &mut Blobs, blob: Option<Bytes>) -> Result<(), NoMemory>
    ensures { OnOk result (blobs.new ≡ blobs.old ++ blobs_brought blob) }
{
    match blob {
        Some(bytes) => blobs.push(bytes),
        None => Ok(()),
    }
}

fn enter_record<'a>(
    creates: &mut Creates<'a>,
    creation: &'a Text,
    item: NewRecord,
) -> Result<(), NoMemory>
    ensures follows { OnOk result
        ((s : Creating) → KeepUp creates.old s
        → KeepUp creates.new (after_create creation.now s (CreateStep.Done item))) }
    ensures blobs { OnOk result
        (creates.new.blobs ≡ creates.old.blobs ++ blobs_brought item.blob) }
{
    let NewRecord {
        id,
        members,
        edits,
        blob,
    } = item;
    note_id(
        &mut creates.ids,
        creation.as_bytes(),
        read_mailbox_number(id.as_bytes()),
    )?;
    push_blob(&mut creates.blobs, blob)?;
    creates.edits.append(edits)?;
    creates
        .created
        .put(creation.copy()?, Json::Object(members))?;
    let creation = creation.copy()?;
    creates.fresh.push(Created { creation, id })?;
    Ok(())
}

fn enter_error<'a>(
    alloc: Global,
    creates: &mut Creates<'a>,
    creation: &'a Text,
    error: SetError,
) -> Result<(), NoMemory>
    ensures follows { OnOk result
        ((s : Creating) → KeepUp creates.old s
        → KeepUp creates.new (after_create creation.now s (CreateStep.Rejected error))) }
    ensures blobs { OnOk result (creates.new.blobs ≡ creates.old.blobs ++ []) }
{
    let error = build_error(alloc, error)?;
    creates.not_created.put(creation.copy()?, error)?;
    Ok(())
}

/// Enters what comes of a create under this creation id.
pub fn enter_create<'a>(
    alloc: Global,
    creates: &mut Creates<'a>,
    creation: &'a Text,
    step: CreateStep,
) -> Result<(), NoMemory>
    ensures follows { OnOk result
        ((s : Creating) → KeepUp creates.old s
        → KeepUp creates.new (after_create creation.now s step)) }
    ensures blobs { OnOk result (creates.new.blobs ≡ creates.old.blobs ++ blobs_of step) }
{
    match step {
        CreateStep::Rejected(error) => enter_error(alloc, creates, creation, error),
        CreateStep::Done(item) => enter_record(creates, creation, item),
    }
}

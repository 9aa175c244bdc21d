// What an EmailImport object sends (RFC 8621, section 4.8).
ghost use Rattle.std.specs.Prelude.{◌≡◌, IfOk, List, codes, option_map};
ghost use Rattle.jm_json.specs.Find.{find};
ghost use Rattle.jm_json.specs.declared.invocation.Created.{Created as TheCreated};
ghost use Rattle.set_parts.specs.Views.{HoldIds};
ghost use Rattle.email_creates.specs.Views.{blob_of};
ghost use Rattle.mail_import.specs.Imports.{invalid_names};
ghost use Rattle.mail_import.specs.Properties.{blob_in, email_import_in, whole_blob};
ghost use Rattle.mail_import.specs.Views.{import_of};

use blob_ids::{BlobId, read_blob_id};
use blob_store::BlobList;
use email_creates::{NamedBlob, Sent, push_invalid, push_name, read_sent};
use jm_base::{NoMemory, Texts};
use jm_json::Members;
use mail_records::Content;
use set_parts::CreatedIds;
use std::alloc::Global;

/// What an import sends: the blob that is its message, and the properties of the email. None of the
/// blob means a value that names none.
#[derive(Drop)]
pub struct Import<'a> {
    pub blob: Option<NamedBlob<'a>>,
    pub sent: Sent,
}

// Returns the blob that an identifier names; that of a part of a message names none.
fn find_whole_blob<'a>(blobs: &'a BlobList, id: BlobId) -> Option<NamedBlob<'a>>
    ensures { option_map blob_of result ≡ whole_blob blobs.now.blobs id.blob id.leaf }
{
    match id.leaf {
        Some(_) => None,
        None => match blobs.get(id.blob) {
            Ok(bytes) => Some(NamedBlob {
                number: id.blob,
                bytes,
            }),
            Err(_) => None,
        },
    }
}

// Returns the blob that `blobId` names.
fn read_blob<'a>(blobs: &'a BlobList, members: &Members) -> Option<NamedBlob<'a>>
    ensures { option_map blob_of result
        ≡ blob_in blobs.now.blobs (find (codes "blobId") members.now) }
{
    let name = members.get("blobId")?.as_text()?;
    find_whole_blob(blobs, read_blob_id(name.as_bytes())?)
}

/// Reads what an import sends, for an account with these blobs and this content.
pub fn read_import<'a>(
    alloc: Global,
    blobs: &'a BlobList,
    content: &Content,
    ids: &CreatedIds<'a>,
    members: &'a Members,
) -> Result<Import<'a>, NoMemory>
    ensures { IfOk result (λ a. (made : List TheCreated) → HoldIds ids.now made
        → import_of a ≡ email_import_in blobs.now.blobs content.now.content made members.now) }
{
    Ok(Import {
        blob: read_blob(blobs, members),
        sent: read_sent(alloc, content, ids, members)?,
    })
}

/// Collects the names of the invalid properties, in byte order.
pub fn collect_invalid(alloc: Global, import: &Import) -> Result<Texts, NoMemory>
    ensures { IfOk result (λ names. names ≡ invalid_names (import_of import.now)) }
{
    let mut names = Texts::new(alloc);
    push_name(alloc, &mut names, import.blob.is_none(), "blobId")?;
    push_invalid(alloc, &mut names, &import.sent)?;
    Ok(names)
}

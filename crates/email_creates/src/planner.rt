// How far the creates of a call have come, and where they begin.
ghost use Rattle.std.specs.Prelude.{◌<◌, ◌+◌, IfOk, ℕ};
ghost use Rattle.jm_base.specs.declared.identifiers.TheConstants.{NUMBER_LIMIT};
ghost use Rattle.mail_records.specs.Contents.{AreNumbered};
ghost use Rattle.email_creates.specs.Plans.{beginning};
ghost use Rattle.email_creates.specs.Views.{CountsBlobs, Follows, HasNumbersFor};

use blob_store::BlobList;
use jm_base::{Kind, NoMemory};
use jm_json::Created;
use mail_records::Content;
use set_parts::{Creates, start_creates};
use std::alloc::Global;

/// What creates are performed on: the content of the account before the call, its blobs, and the
/// timestamp of the call in Unix seconds.
#[derive(Clone, Copy)]
pub struct Setting<'a> {
    pub content: &'a Content,
    pub blobs: &'a BlobList,
    pub moment: u64,
}

/// How far the creates of a call have come: the next numbers of an email and of a thread, the
/// emails that were created, by their links, what the creates have come to, and how many bytes the
/// blobs have that they bring.
#[derive(Drop)]
pub struct Planner<'a> {
    pub next_email: u64,
    pub next_thread: u64,
    pub new_emails: Content,
    pub creates: Creates<'a>,
    pub blob_bytes: u64,
}

/// Returns a planner before the first create.
pub fn start_planner<'a>(
    alloc: Global,
    content: &Content,
    made: &'a [Created],
) -> Result<Planner<'a>, NoMemory>
    requires numbered { AreNumbered content.now.content }
    ensures follows { IfOk result
        (λ p. Follows content.now.content p (beginning content.now.content made.now)) }
    ensures numbers { IfOk result
        (λ p. (n : ℕ) → content.now.content.next_email + n < NUMBER_LIMIT
        → content.now.content.next_thread + n < NUMBER_LIMIT → HasNumbersFor n p) }
    ensures counted { IfOk result CountsBlobs }
{
    let creates = start_creates(alloc, made)?;
    Ok(Planner {
        next_email: content.next(Kind::Email),
        next_thread: content.next(Kind::Thread),
        new_emails: Content::new(alloc),
        creates,
        blob_bytes: 0,
    })
}

// More edits, which are applied to a content and noted in a log.
ghost use Rattle.std.specs.Prelude.{◌≡◌, ◌↔◌, ◌+◌, ◌<◌, ◌^◌, ◌++◌, ◌∷◌, [], IfOk, IsTrue, MatchOption, length, map, ⊤};
ghost use Rattle.mail_records.specs.Edits.{AllFit, AllKeepThread, HasNumbers, after_edits};
ghost use Rattle.record_codec.specs.Sizes.{capped, edit_bytes};
ghost use Rattle.blob_store.specs.Blobs.{AreBlobsFew};
ghost use Rattle.account_book.specs.Growing.{IsGrown};
ghost use Rattle.state_log.specs.Logs.{log_end, note_of};

use crate::Entry;
use crate::blobs::push_all;
use blob_store::BlobList;
use jm_base::{Blobs, Kind, NoMemory};
use mail_records::{Applied, Content, Edit, apply_fitting};
use record_codec::count_edit_bytes;
use state_log::{Log, note_all_ready};
use std::alloc::Global;

// Returns whether there are 64-bit numbers for so many more edits. Edits in memory are far too few
// for the numbers to run out.
fn has_numbers(content: &Content, end: u64, count: usize) -> bool
    ensures numbers { IsTrue result → HasNumbers count content.now.content }
    ensures end { IsTrue result → end + count < 2 ^ 64 }
{
    let count = count as u64;
    let mailbox = content.next(Kind::Mailbox).checked_add(count).is_some();
    let email = content.next(Kind::Email).checked_add(count).is_some();
    let thread = content.next(Kind::Thread).checked_add(count).is_some();
    mailbox && email && thread && end.checked_add(count).is_some()
}

/// Applies edits to the content at a last position, or answers None where they don't fit. If memory
/// runs out, the content is lost.
pub(crate) fn apply_more(
    alloc: Global,
    content: Content,
    end: u64,
    edits: &[Edit],
) -> Result<Option<Applied>, NoMemory>
    ensures fits { IfOk result (λ o. MatchOption o (¬ AllFit content.content edits.now)
        (λ a. AllFit content.content edits.now)) }
    ensures content { IfOk result (λ o. MatchOption o ⊤ (λ a. a.content.content
        ≡ after_edits content.content edits.now)) }
    ensures threads { IfOk result (λ o. MatchOption o ⊤ (λ a.
        IsTrue a.keeps_threads ↔ AllKeepThread content.content edits.now)) }
    ensures end { IfOk result (λ o. end + length edits.now < 2 ^ 64) }
{
    if !has_numbers(&content, end, edits.len()) {
        return Err(NoMemory);
    }
    apply_fitting(alloc, content, edits)
}

/// The result of more edits and blobs, over a content and blobs.
#[derive(Drop)]
pub enum Grown {
    /// The edits don't fit.
    Misfit,
    /// The content with the edits. The blobs are past the limits.
    Overfull(Content),
    /// The content with the edits, and the blobs.
    Fitting(Applied, BlobList),
}

/// Applies edits to a content at a last position, and puts blobs after others. If memory runs out,
/// both are lost.
pub(crate) fn grow(
    alloc: Global,
    content: Content,
    end: u64,
    edits: &[Edit],
    blobs: BlobList,
    more: Blobs,
) -> Result<Grown, NoMemory>
    requires few { AreBlobsFew blobs.blobs }
    ensures { IfOk result (IsGrown content.content end edits.now blobs.blobs more) }
{
    let Some(applied) = apply_more(alloc, content, end, edits)? else {
        return Ok(Grown::Misfit);
    };
    let mut all = blobs;
    let few = push_all(&mut all, more)?;
    if !few {
        return Ok(Grown::Overfull(applied.content));
    }
    Ok(Grown::Fitting(applied, all))
}

/// The log, the entries and the count of bytes of edits of an account.
#[derive(Drop)]
pub(crate) struct Noted {
    pub(crate) log: Log,
    pub(crate) entries: Vec<Entry>,
    pub(crate) bytes: u64,
}

/// Notes the edits of an entry, counts their bytes, and puts the entry at the end.
pub(crate) fn note_more(noted: Noted, entry: Entry) -> Result<Noted, NoMemory>
    requires { log_end noted.log + length entry.edits < 2 ^ 64 }
    ensures log { IfOk result (λ n. n.log ≡ record noted.log {
      notes = noted.log.notes ++ map
          note_of entry.edits;
      spare = n.log.spare;
    }) }
    ensures entries { IfOk result (λ n. n.entries.items ≡ noted.entries.items ++ entry ∷ []) }
    ensures bytes { IfOk result (λ n. n.bytes ≡ capped (noted.bytes + capped
        (edit_bytes entry.edits))) }
{
    let Noted {
        mut log,
        mut entries,
        bytes,
    } = noted;
    log.reserve(entry.edits.as_slice())?;
    note_all_ready(&mut log, entry.edits.as_slice());
    let bytes = bytes.saturating_add(count_edit_bytes(entry.edits.as_slice()));
    entries.push(entry)?;
    Ok(Noted {
        log,
        entries,
        bytes,
    })
}

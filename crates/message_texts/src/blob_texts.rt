// The texts of the messages that are kept as blobs.
ghost use Rattle.std.specs.Prelude.{◌≡◌, ℕ, IfOk, IfSome, option_map};
ghost use Rattle.text_column.specs.Columns.{mark_of};
ghost use Rattle.blob_store.specs.Authors.{IsSearched};
ghost use Rattle.mail_view.specs.Emails.{blob_bytes};
ghost use Rattle.filter_terms.specs.Texts.{Agrees, has_text};
ghost use Rattle.filter_terms.specs.declared.texts.Place.TheVariants as at;
ghost use Rattle.message_texts.specs.Texts.{texts_of_blobs};

use crate::blob_message::{BlobMessage, open_message};
use blob_store::BlobList;
use filter_terms::{Place, Texts2};
use jm_base::NoMemory;
use std::alloc::Global;
use text_column::Mark;

/// The texts of the messages in the blobs of an account, by the numbers of the blobs. A message is
/// read when a filter opens it, and is kept as long as the filter asks about it.
#[derive(Clone, Copy)]
pub struct BlobTexts<'a> {
    /// Where the decoded texts are allocated.
    pub alloc: Global,
    /// The blobs of the account.
    pub blobs: &'a BlobList,
}

// Returns the bytes of a blob; an unknown number means an empty message.
fn read_bytes(blobs: &BlobList, number: u64) -> &[u8]
    ensures { result.now ≡ blob_bytes blobs.now.blobs number }
{
    match blobs.get(number) {
        Ok(bytes) => bytes,
        Err(_) => &[],
    }
}

// Returns the text by which the message in a blob is found in a search for its author, if it is
// kept.
fn find_author(blobs: &BlobList, number: u64) -> Option<&[u8]>
    ensures { IsSearched (blob_bytes blobs.now.blobs number) (option_map (λ t. t.now) result) }
{
    if number == 0 {
        return None;
    }
    blobs.authors().get((number - 1) as usize)
}

// Returns for each blob whether a field From of its message contains the needle, by one search in
// the authors' texts. They look alike of a message without a field From and of one where it is
// empty, so there is no answer for the empty needle.
fn mark_authors(
    alloc: Global,
    blobs: &BlobList,
    needle: &[u8],
) -> Result<Option<Vec<Mark>>, NoMemory>
    ensures { IfOk result (λ o. IfSome o (λ marks. (blob : ℕ) → Agrees
        (mark_of marks.items blob)
        (has_text (texts_of_blobs blobs.now.blobs blob) at.From needle.now))) }
{
    if needle.is_empty() {
        return Ok(None);
    }
    let lowered = needle.to_ascii_lowercase(alloc)?;
    let marks = blobs.authors().find_marks(alloc, lowered.as_slice())?;
    Ok(Some(marks))
}

impl<'a> Texts2 for BlobTexts<'a> {
    type Message = BlobMessage<'a>;

    ghost use Rattle.message_texts.specs.Texts.{texts_of_blobs};

    ghost texts = { λ t blob. texts_of_blobs t.blobs.now.blobs blob };

    fn open(&self, blob: u64) -> Result<BlobMessage<'a>, NoMemory> {
        let from = find_author(self.blobs, blob);
        Ok(open_message(self.alloc, read_bytes(self.blobs, blob), from))
    }

    fn find_marks(&self, place: Place, needle: &[u8]) -> Result<Option<Vec<Mark>>, NoMemory> {
        if place == Place::From {
            return mark_authors(self.alloc, self.blobs, needle);
        }
        Ok(None)
    }
}

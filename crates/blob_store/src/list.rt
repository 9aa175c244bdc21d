// A list of blobs, with their bytes counted and with room that may be reserved.
ghost use Rattle.std.specs.Prelude.{◌≡◌, ◌≢◌, ◌↔◌, ◌⊎◌, ◌+◌, ◌≤◌, ◌<◌, [], ◌∷◌, ◌++◌, length, Some, None, Err, IsTrue, IfOk, IfErr, OnOk, OnErr};
ghost use Rattle.blob_store.specs.Authors.{AreSearched};
ghost use Rattle.blob_store.specs.Blobs.{AreBlobsFew, HasRoomFor, blob_numbered};
ghost use Rattle.blob_store.specs.declared.faults.BlobFault.TheVariants as fault;

use crate::authors::catch_up;
use crate::{BlobFault, MAX_BLOB_BYTES_PER_ACCOUNT, MAX_BLOBS_PER_ACCOUNT};
use jm_base::{Bytes, NoMemory};
use std::alloc::Global;
use std::marker::Model;
use text_column::TextColumn;

/// The blobs of one account, oldest first. They are always within the limits of an account.
#[derive(Drop)]
pub struct BlobList {
    blobs: Vec<Bytes>,
    total_bytes: u64,
    // The authors' texts of the first blobs, or of all.
    authors: TextColumn,
}

impl Model for BlobList {
    ghost use Rattle.std.specs.Prelude.{◌≡◌, ◌-◌, vec_len, vec_capacity};
    ghost use Rattle.blob_store.specs.Views.{BlobRows};
    ghost use Rattle.blob_store.specs.Authors.{AreSearched};
    ghost use Rattle.blob_store.specs.Blobs.{AreBlobsFew, byte_count};

    ghost Value = { BlobRows };

    ghost view = { λ b. record {
      blobs = b.blobs.items;
      spare = vec_capacity b.blobs - vec_len b.blobs;
    } };

    ghost invariant = { λ b. (b.total_bytes ≡ byte_count b.blobs.items)
        × AreBlobsFew b.blobs.items
        × AreSearched b.authors b.blobs.items };
}

impl BlobList {
    /// Returns the empty list. It takes no memory.
    pub fn new(alloc: Global) -> BlobList
        ensures { result.blobs ≡ [] }
    {
        BlobList {
            blobs: Vec::new(alloc),
            total_bytes: 0,
            authors: TextColumn::new(alloc),
        }
    }

    /// Lends all blobs, oldest first.
    pub fn all(&self) -> &[Bytes]
        ensures { result.now ≡ self.now.blobs }
    {
        self.blobs.as_slice()
    }

    /// Lends the texts by which messages are found in a search for an author, in the order of the
    /// blobs: of each blob the Text form of its one field From in lower case, or the empty text if
    /// it has no such field. A text is left out where a blob has two such fields or is too large.
    /// The last blobs may have no text yet.
    pub fn authors(&self) -> &TextColumn
        ensures { AreSearched result.now self.now.blobs }
    {
        &self.authors
    }

    // Adds the authors' texts of those blobs that have none, as far as there is memory.
    fn add_authors(&mut self)
        ensures blobs { self.new.blobs ≡ self.old.blobs }
        ensures spare { self.new.spare ≡ self.old.spare }
    {
        let alloc = *self.blobs.allocator();
        let _lags = catch_up(alloc, self.blobs.as_slice(), &mut self.authors);
    }

    /// Lends the blob with this number. The oldest has number 1. Fails with `NoSuchBlob` if and
    /// only if no blob has the number.
    pub fn get(&self, number: u64) -> Result<&[u8], BlobFault>
        ensures found { IfOk result (λ b. blob_numbered number self.now.blobs ≡ Some b.now) }
        ensures missing { IfErr result (λ e. (e ≡ fault.NoSuchBlob)
            × (blob_numbered number self.now.blobs ≡ None)) }
    {
        if number == 0 {
            return Err(BlobFault::NoSuchBlob);
        }
        match self.blobs.get((number - 1) as usize) {
            Some(blob) => Ok(blob.as_slice()),
            None => Err(BlobFault::NoSuchBlob),
        }
    }

    /// Returns whether one more blob of this many bytes would pass a limit of an account.
    pub fn is_full_for(&self, size: u64) -> bool
        ensures { IsTrue result ↔ ¬ (HasRoomFor size self.now.blobs) }
    {
        let count = self.blobs.len() as u64;
        count >= MAX_BLOBS_PER_ACCOUNT || size > MAX_BLOB_BYTES_PER_ACCOUNT - self.total_bytes
    }

    /// Adds a blob and returns its number.
    ///
    /// Fails with `BlobsFull` if and only if the blob would pass a limit of an account, and with
    /// `NoMemory` if memory runs out. The blobs are then as before.
    pub fn push(&mut self, blob: Bytes) -> Result<u64, BlobFault>
        ensures blobs { OnOk result (self.new.blobs ≡ self.old.blobs ++ blob ∷ []) }
        ensures number { IfOk result (λ n. n ≡ length self.new.blobs) }
        ensures full { (result ≡ Err fault.BlobsFull)
            ↔ ¬ (AreBlobsFew (self.old.blobs ++ blob ∷ [])) }
        ensures no_search { result ≢ Err fault.NoSuchBlob }
        ensures same { OnErr result (self.new.blobs ≡ self.old.blobs) }
    {
        if self.is_full_for(blob.len() as u64) {
            return Err(BlobFault::BlobsFull);
        }
        if self.blobs.reserve(1).is_err() {
            return Err(BlobFault::NoMemory);
        }
        let number = self.push_ready(blob);
        self.add_authors();
        Ok(number)
    }

    /// Makes room for these blobs, so that as many can be added by
    /// [`push_ready`](BlobList::push_ready). Fails if memory runs out. The blobs are as before, and
    /// there is no less room than there was.
    pub fn reserve(&mut self, blobs: &[Bytes]) -> Result<(), NoMemory>
        ensures blobs { self.new.blobs ≡ self.old.blobs }
        ensures spare { OnOk result (length blobs.now ≤ self.new.spare) }
        ensures no_less { self.old.spare ≤ self.new.spare }
    {
        self.add_authors();
        self.blobs.reserve(blobs.len())?;
        Ok(())
    }

    /// Adds a blob for which there is room, and returns its number. It takes no memory.
    pub fn push_ready(&mut self, blob: Bytes) -> u64
        requires room { 1 ≤ self.old.spare }
        requires few { AreBlobsFew (self.old.blobs ++ blob ∷ []) }
        ensures blobs { self.new.blobs ≡ self.old.blobs ++ blob ∷ [] }
        ensures number { result ≡ length self.new.blobs }
        ensures spare { self.old.spare ≤ self.new.spare + 1 }
    {
        self.total_bytes += blob.len() as u64;
        self.blobs.push_reserved(blob);
        self.blobs.len() as u64
    }
}

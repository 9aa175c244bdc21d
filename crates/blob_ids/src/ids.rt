// Reading and writing the identifiers of blobs.
ghost use Rattle.std.specs.Prelude.{◌≡◌, ◌==◌, ◌∷◌, ◌++◌, false, IfOk, MatchOption};
ghost use Rattle.std.specs.List.{AllByRecursion};
ghost use Rattle.blob_ids.specs.BlobIds.{blob_id_in, blob_id_text, leaf_with, number_in, numbers_in};

use jm_base::{NoMemory, Text, read_state};
use std::alloc::Global;

/// The identifier of a blob, or of a leaf of the message that the blob holds.
#[derive(Clone, Copy, Debug, PartialEq, Eq)]
pub struct BlobId {
    /// The number of the blob among those of its account. The first has number 1.
    pub blob: u64,
    /// The number of the leaf among those of the message. The first has number 1.
    pub leaf: Option<u64>,
}

// A text without its first dash: what is before the dash, and what follows it.
#[derive(Clone, Copy)]
struct Cut<'a> {
    front: &'a [u8],
    rest: &'a [u8],
}

// Cuts a text at its first dash.
fn cut_at_dash(text: &[u8]) -> Option<Cut<'_>>
    ensures { MatchOption result (AllByRecursion (λ x. (x == 45) ≡ false) text.now)
        (λ c. (text.now ≡ c.front.now ++ 45 ∷ c.rest.now)
        × AllByRecursion (λ x. (x == 45) ≡ false) c.front.now) }
{
    match memchr::memchr(b'-', text) {
        Some(at) => {
            let (front, more) = text.split_at(at);
            Some(Cut {
                front,
                rest: &more[1..],
            })
        }
        None => None,
    }
}

// Returns the number below `NUMBER_LIMIT` whose decimal a string is.
fn read_number(text: &[u8]) -> Option<u64>
    ensures { result ≡ number_in text.now }
{
    match read_state(text) {
        Ok(number) => Some(number),
        Err(_) => None,
    }
}

fn read_leaf(blob: &[u8], leaf: &[u8]) -> Option<BlobId>
    ensures { result ≡ leaf_with (number_in blob.now) (number_in leaf.now) }
{
    match read_number(blob) {
        Some(blob) => match read_number(leaf) {
            Some(leaf) => Some(BlobId {
                blob,
                leaf: Some(leaf),
            }),
            None => None,
        },
        None => None,
    }
}

// Returns the identifier of which a text is what follows the letter.
fn read_numbers(text: &[u8]) -> Option<BlobId>
    ensures { result ≡ numbers_in text.now }
{
    match cut_at_dash(text) {
        Some(cut) => read_leaf(cut.front, cut.rest),
        None => match read_number(text) {
            Some(blob) => Some(BlobId { blob, leaf: None }),
            None => None,
        },
    }
}

/// Returns the identifier that a text is, or None if it is none: `b` and the blob's number in
/// decimal, and for a leaf a dash and
/// the leaf's number in decimal. The numbers are below `NUMBER_LIMIT` and have no leading zero.
pub fn read_blob_id(text: &[u8]) -> Option<BlobId>
    ensures { result ≡ blob_id_in text.now }
{
    match text.split_first() {
        Some((letter, rest)) => {
            if *letter != b'b' {
                return None;
            }
            read_numbers(rest)
        }
        None => None,
    }
}

/// Returns the text of an identifier.
pub fn write_blob_id(alloc: Global, id: BlobId) -> Result<Text, NoMemory>
    ensures { IfOk result (λ text. text ≡ blob_id_text id) }
{
    let blob = id.blob;
    let text = match id.leaf {
        Some(leaf) => format!(in alloc; "b{blob}-{leaf}")?,
        None => format!(in alloc; "b{blob}")?,
    };
    Ok(Text::from_string(text))
}

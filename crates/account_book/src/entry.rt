// What an account keeps of one call that changed it, or was to.
use mail_records::{Edits, Stamp};

/// An entry of an account: a commit, or the mark of a change that was refused. The blobs of a
/// commit are in the account's list of blobs, each once.
#[derive(Drop)]
pub struct Entry {
    /// Under which pass it was made, and as which one there.
    pub stamp: Stamp,
    /// The commit's edits; a refusal has none.
    pub edits: Edits,
    /// How many blobs the commit brought; a refusal has none.
    pub blobs: u64,
    /// Whether it is a refusal.
    pub refused: bool,
}

// Candidates: emails whose thread a new email may join.

/// An email whose thread a new email may join.
#[derive(Clone, Copy)]
pub(crate) struct Candidate {
    /// The number of the email.
    pub number: u64,
    /// The number of its thread.
    pub thread: u64,
}

// Why a book is not opened.

/// Why what a keeper keeps is no valid account.
#[derive(Clone, Copy, Debug, PartialEq, Eq)]
pub enum Reason {
    /// The row is no commit's encoding. The number is the byte offset of the first byte at which no
    /// commit's encoding continues as the row does. A base counts as such a row, at offset 0.
    NotACommit(u64),
    /// The row is a commit, but its edits don't fit the content before it.
    DoesNotFit,
    /// Each row is a commit that fits, but the account that they make is not valid.
    NotWhole,
}

/// Why a book is not opened.
#[derive(Clone, Copy, Debug, PartialEq, Eq)]
pub enum StartFault {
    /// The keeper could not load what it keeps.
    KeeperFault,
    /// What is kept is damaged. A base is row 0, and the rows are counted from 1. The row is the
    /// first one at fault. If only the account that all rows make is at fault, it is the last row.
    Damaged { row: u64, reason: Reason },
    /// Memory ran out.
    NoMemory,
}

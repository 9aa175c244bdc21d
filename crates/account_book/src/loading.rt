// Rows of a keeper, which are read one after the other.
ghost use Rattle.std.specs.Prelude.{◌≡◌, Err, IfOk, IfErr, Some};
ghost use Rattle.mail_records.specs.Commits.{IsFormed};
ghost use Rattle.mail_records.specs.Histories.{History};
ghost use Rattle.account_book.specs.Opening.{AreLoaded, IsCommitRefused, IsLoadFault, IsLoading, IsRowRefused, IsTaken, TakesRow};

use crate::growing::apply_more;
use crate::{Account, Reason, StartFault};
use jm_base::{NoMemory, Rows};
use mail_records::{Commit, Content};
use record_codec::{CodecFault, decode};
use std::alloc::Global;
use std::collections::VecDeque;

/// What is made of the rows that were read.
#[derive(Drop)]
pub enum Loading {
    /// The account that they make.
    Fitting(Account),
    /// The content that they make. Their blobs are past the limits of an account.
    Overfull(Content),
}

#[tactic(auto, using(crate::proofs::Taking::not_taken, crate::proofs::Taking::taken_over_more))]
// Takes a commit after others whose blobs are past the limits.
fn apply_commit(
    alloc: Global,
    content: Content,
    commit: Commit,
) -> Result<Option<Loading>, NoMemory>
    ensures { IfOk result (λ o. (h : History) → IsLoading (Loading.Overfull content) h
        → IsTaken h commit o) }
{
    let Commit { edits, .. } = commit;
    match apply_more(alloc, content, 0, edits.as_slice())? {
        Some(applied) => Ok(Some(Loading::Overfull(applied.content))),
        None => Ok(None),
    }
}

#[tactic(auto, using(crate::proofs::Taking::taken_at))]
// Takes a commit, or answers None where its edits don't fit.
fn load_commit(alloc: Global, loading: Loading, commit: Commit) -> Result<Option<Loading>, NoMemory>
    requires { IsFormed commit }
    ensures { IfOk result (λ o. (h : History) → IsLoading loading h → IsTaken h commit o) }
{
    match loading {
        Loading::Fitting(account) => account.with_commit(alloc, commit),
        Loading::Overfull(content) => apply_commit(alloc, content, commit),
    }
}

// Takes the commit of this row.
fn take_commit(
    alloc: Global,
    loading: Loading,
    commit: Commit,
    row: u64,
) -> Result<Loading, StartFault>
    requires { IsFormed commit }
    ensures ok { IfOk result (λ l. (h : History) → IsLoading loading h
        → IsTaken h commit (Some l)) }
    ensures err { IfErr result (λ e. (h : History) → IsLoading loading h
        → IsCommitRefused commit row h e) }
{
    match load_commit(alloc, loading, commit) {
        Ok(Some(next)) => Ok(next),
        Ok(None) => Err(StartFault::Damaged {
            row,
            reason: Reason::DoesNotFit,
        }),
        Err(_) => Err(StartFault::NoMemory),
    }
}

// Drops what is loaded, and returns why it is no valid account.
fn stop(loading: Loading, fault: StartFault) -> Result<Loading, StartFault>
    ensures { result ≡ Err fault }
{
    drop(loading);
    Err(fault)
}

// Takes this row.
fn take_row(alloc: Global, loading: Loading, bytes: &[u8], row: u64) -> Result<Loading, StartFault>
    ensures ok { IfOk result (λ l. (h : History) → IsLoading loading h → TakesRow bytes.now h l) }
    ensures err { IfErr result (λ e. (h : History) → IsLoading loading h
        → IsRowRefused bytes.now row h e) }
{
    match decode(alloc, bytes) {
        Ok(commit) => take_commit(alloc, loading, commit, row),
        Err(CodecFault::NotACommit(place)) => {
            let reason = Reason::NotACommit(place);
            stop(loading, StartFault::Damaged { row, reason })
        }
        Err(CodecFault::NoMemory) => stop(loading, StartFault::NoMemory),
    }
}

#[tactic(auto, using(crate::proofs::Starting::loaded_first, crate::proofs::Starting::loaded_all))]
/// Takes all rows, each once. The memory of a row is freed once it is read.
pub(crate) fn load_rows(alloc: Global, rows: Rows) -> Result<Loading, StartFault>
    ensures ok { IfOk result (AreLoaded rows) }
    ensures err { IfErr result (IsLoadFault rows) }
{
    let _count = rows.len() as u64;
    let mut loading = Loading::Fitting(Account::new(alloc));
    let mut rest = VecDeque::from_vec(rows.into_vec());
    let mut taken = 0u64;
    while let Some(bytes) = rest.pop_front() {
        let row = taken + 1;
        match take_row(alloc, loading, bytes.as_slice(), row) {
            Ok(next) => loading = next,
            Err(fault) => return Err(fault),
        }
        taken = row;
    }
    Ok(loading)
}

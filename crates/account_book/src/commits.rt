// A commit is kept, and then entered.
ghost use Rattle.std.specs.Prelude.{◌≡◌, ◌+◌, ◌++◌};
ghost use Rattle.std.specs.List.{AllByRecursion};
ghost use Rattle.blob_store.specs.Blobs.{AreBlobsFew};
ghost use Rattle.mail_records.specs.Commits.{IsFormed};
ghost use Rattle.mail_records.specs.Edits.{AllFit, IsSmall};
ghost use Rattle.mail_records.specs.Histories.{Committed, IsSound, blobs_of, content_of, edits_of, grown};
ghost use Rattle.record_codec.specs.Sizes.{edit_bytes};
ghost use Rattle.account_book.specs.Accounts.{IsBounded};
ghost use Rattle.account_book.specs.Keeping.{IsLeftBy, KnowsHistory, LeavesHistory};
ghost use Rattle.account_book.specs.Books.{IsEntered, IsFaultCounted};
ghost use Rattle.account_book.specs.Replies.{IsWithin};

use crate::{Account, Rules};
use jm_base::NoMemory;
use jm_edge::EdgeFault;
use keep_port::Keeper;
use mail_records::{Commit, copy_edits};
use record_codec::encode;
use std::alloc::Global;

#[tactic(auto, using(crate::proofs::KeptHistories::left_idle))]
/// Appends a commit to a keeper, and enters it in the account if the keeper takes it. If the keeper
/// refuses it, the mark of that is entered. With the commit the edits take so many bytes. All
/// memory is taken before the keeper is asked; that of the encoded commit is freed.
pub(crate) fn keep_commit<K: Keeper, R: Rules>(
    alloc: Global,
    keeper: &mut K,
    rules: &R,
    account: &mut Account,
    commit: Commit,
    bytes: u64,
) -> Result<bool, NoMemory>
    requires fits { AllFit (content_of account.old.history) commit.edits }
    requires small { AllByRecursion IsSmall commit.edits }
    requires formed { IsFormed commit }
    requires bounded { IsBounded account.old.history }
    requires within { IsWithin edit_bytes account.old.history commit.edits }
    requires bytes { bytes ≡ edit_bytes (edits_of account.old.history) + edit_bytes commit.edits }
    requires few { AreBlobsFew (blobs_of account.old.history ++ commit.blobs) }
    requires sound { IsSound (grown account.old.history (Committed commit)) }
    requires valid { R.is_whole rules.now account.old.history }
    requires keeps { R.is_whole rules.now (grown account.old.history (Committed commit)) }
    requires content { KnowsHistory (K.kept keeper.old) account.old.history }
    ensures entered { IsEntered result account.old.history account.new.history commit }
    ensures valid { R.is_whole rules.now account.new.history }
    ensures content { KnowsHistory (K.kept keeper.new) account.new.history }
    ensures left { LeavesHistory (R.is_whole rules.now) (K.image keeper.old)
        account.old.history → LeavesHistory (R.is_whole rules.now)
        (K.image keeper.new) account.new.history }
    ensures left_by { IsLeftBy (K.image keeper.old) (K.image keeper.new) account.old.history
        account.new.history commit }
    ensures cause { IsFaultCounted result (K.append_faults keeper.old)
        (K.append_faults keeper.new) }
    ensures load_count { K.load_faults keeper.new ≡ K.load_faults keeper.old }
    ensures replace_count { K.replace_faults keeper.new ≡ K.replace_faults keeper.old }
{
    let _rules = rules;
    let copy = copy_edits(alloc, commit.edits.as_slice())?;
    let row = encode(alloc, &commit)?;
    account.reserve(commit.edits.as_slice(), commit.blobs.as_slice())?;
    match keeper.append(alloc, row.as_slice()) {
        Ok(()) => {
            account.commit_ready(commit, copy, bytes);
            Ok(true)
        }
        Err(EdgeFault::Failed) => {
            account.refuse_ready(alloc, commit.stamp);
            Ok(false)
        }
        Err(EdgeFault::NoMemory) => Err(NoMemory),
    }
}

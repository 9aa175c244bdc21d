// The rules of an account: what its calls plan, and when it is valid.
ghost use Rattle.std.specs.Prelude.{◌≡◌, ◌≤◌, ◌↔◌, ◌^◌, ℕ, IfOk, IsTrue};
ghost use Rattle.std.specs.List.{AllByRecursion};
ghost use Rattle.mail_records.specs.Commits.{IsFormed};
ghost use Rattle.mail_records.specs.Edits.{AllFit, IsSmall};
ghost use Rattle.mail_records.specs.Histories.{History, Committed, IsFounded, IsSound, blobs_of, content_of, edits_of, empty_history, end_after, grown, max_floor};
ghost use Rattle.mail_records.specs.declared.edits.Stamp.{Stamp};
ghost use Rattle.mail_records.specs.FloorMoves.{moved_up};
ghost use Rattle.record_codec.specs.Sizes.{edit_bytes};
ghost use Rattle.blob_store.specs.Blobs.{AreBlobsFew};
ghost use Rattle.account_book.specs.Accounts.{IsBounded, without_refusals};
ghost use Rattle.account_book.specs.Plans.{IsPlanFor, last_moment};
ghost use Rattle.account_book.specs.Replies.{IsWithin, commit_of};
ghost use Rattle.account_book.specs.declared.limits.TheConstants.{MAX_EDIT_BYTES};
ghost use Rattle.account_book.specs.declared.asks.Call.{Call as TheCall};
ghost use Rattle.account_book.specs.declared.plans.Plan.{Plan as ThePlan};

use crate::{Account, Call, Plan};
use jm_base::NoMemory;
use std::alloc::Global;

/// The rules of an account. Their meaning is what each call plans over a history at a timestamp,
/// and which histories are valid.
///
/// What they promise holds of calls at timestamps up to the end of the year 9999.
pub trait Rules: Drop + Send + Sync {
    /// What a call plans, over the history of the account at a timestamp.
    ghost plan_of: { Self → History → TheCall → ℕ → ThePlan };

    /// Whether an account with this history is valid: founded, sound, and as the rules require of
    /// its records.
    ghost is_whole: { Self → History → Type 0 };

    /// Returns the plan of a call over an account at a timestamp. The account needn't be valid: the
    /// promises below are of plans from valid ones.
    fn plan(
        &self,
        alloc: Global,
        account: &Account,
        call: &Call,
        moment: u64,
    ) -> Result<Plan, NoMemory>
        requires bounded { IsBounded account.now.history }
        requires moment { moment ≤ last_moment }
        ensures { IfOk result (λ p. p ≡ plan_of self.now account.now.history call.now moment) };

    /// Returns whether an account is valid. It is asked once for each account that is opened.
    fn whole(&self, alloc: Global, account: &Account) -> Result<bool, NoMemory>
        ensures { IfOk result (λ b. IsTrue b ↔ is_whole self.now account.now.history) };

    /// From a valid account the edits of a plan fit, one after the other.
    ghost fits: { (r : Self) (h : History) (call : TheCall) (moment : ℕ) → moment ≤ last_moment
        → is_whole r h → AllFit (content_of h) (plan_of r h call moment).edits };

    /// Each email that they put has at most `MAX_MAILBOXES_PER_EMAIL` mailboxes and
    /// `MAX_LINKS_PER_EMAIL` links.
    ghost small: { (r : Self) (h : History) (call : TheCall) (moment : ℕ) → moment ≤ last_moment
        → is_whole r h → AllByRecursion IsSmall (plan_of r h call moment).edits };

    /// The plan can be kept as a commit.
    ghost formed: { (r : Self) (h : History) (call : TheCall) (moment : ℕ) (stamp : Stamp) → moment
        ≤ last_moment → is_whole r h → IsFormed (commit_of (plan_of r h call moment) stamp) };

    /// The plan's commit leaves the account valid, if it is within the limit of edits.
    ghost keeps: { (r : Self) (h : History) (call : TheCall) (moment : ℕ) (stamp : Stamp) → moment
        ≤ last_moment → is_whole r h → IsWithin edit_bytes h (plan_of r h call moment).edits
        → is_whole r (grown h (Committed (commit_of (plan_of r h call moment) stamp))) };

    /// What only reads changes nothing, and an upload has no edits.
    ghost reads: { (r : Self) (h : History) (call : TheCall) (moment : ℕ) → moment ≤ last_moment
        → is_whole r h → IsPlanFor call.ask (plan_of r h call moment) };

    /// The history of a valid account is sound.
    ghost sound: { (r : Self) (h : History) → is_whole r h → IsSound h };

    /// A valid account is founded: its floor is at most 2^52, and its base is in number order, with
    /// each number below its kind's next one and each next number at most the floor plus 1.
    ghost founded: { (r : Self) (h : History) → is_whole r h → IsFounded h };

    /// The edits of a valid account are within the limit.
    ghost limits: { (r : Self) (h : History) → is_whole r h → edit_bytes (edits_of h)
        ≤ MAX_EDIT_BYTES };

    /// The blobs of a valid account are within the limits of their count and bytes.
    ghost blobs: { (r : Self) (h : History) → is_whole r h → AreBlobsFew (blobs_of h) };

    /// Refusals have no part in what is valid.
    ghost ignores: { (r : Self) (h : History) → is_whole r (without_refusals h) ↔ is_whole r h };

    /// A valid account stays valid if its floor moves up to the end of some of its entries.
    ghost moves: { (r : Self) (h : History) (c : ℕ) → end_after h c ≤ max_floor → is_whole r h
        → is_whole r (moved_up h c) };

    /// An account in which nothing has been yet is valid.
    ghost empty: { (r : Self) → is_whole r empty_history };
}

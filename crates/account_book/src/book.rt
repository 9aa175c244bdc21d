// The book of an account: its rules, its keeper and its history.
ghost use Rattle.std.specs.Prelude.{◌≡◌, ◌≤◌, ◌+◌, ◌++◌, ◌⊎◌, if◌then◌else◌, [], ℕ, Some, IfOk, IfErr, OnErr, drop, length};
ghost use Rattle.std.specs.List.{AllByRecursion};
ghost use Rattle.blob_store.specs.Blobs.{AreBlobsFew};
ghost use Rattle.jm_edge.specs.Causes.{Rose};
ghost use Rattle.keep_port.specs.Keeping.{IsContent};
ghost use Rattle.keep_port.specs.declared.kept.Kept.{Kept as TheKept};
ghost use Rattle.mail_records.specs.Commits.{IsFormed};
ghost use Rattle.mail_records.specs.Edits.{AllFit, IsSmall};
ghost use Rattle.mail_records.specs.Histories.{Committed, IsSound, Refused, account_after, blobs_of, content_of, edits_of, grown, grown_by};
ghost use Rattle.mail_records.specs.declared.edits.Stamp.{Stamp as TheStamp};
ghost use Rattle.record_codec.specs.Sizes.{edit_bytes};
ghost use Rattle.account_book.specs.Accounts.{IsBounded};
ghost use Rattle.account_book.specs.Books.{IsEntered, IsFaultCounted, IsValidFrom, RoseBy, refusals_in};
ghost use Rattle.account_book.specs.Keeping.{IsKept, IsLeftBy, IsReady};
ghost use Rattle.account_book.specs.Opening.{IsAsBefore, IsContentFault, IsLeftBefore, IsOpened, IsReadyLoaded, IsStartFault, MakesHistory};
ghost use Rattle.account_book.specs.Passes.{greatest_pass, named_since, numbered_since, pass_from};
ghost use Rattle.account_book.specs.Plans.{last_moment};
ghost use Rattle.account_book.specs.Replies.{IsReply, IsWithin, NoneRefused, commit_of};

use crate::commits::keep_commit;
use crate::passes::find_greatest_pass;
use crate::plans::build_refusal;
use crate::start::load_content;
use crate::{Account, Call, Done, Out, Plan, Rules, StartFault};
use account_lock::AccountView;
use jm_base::NoMemory;
use jm_edge::EdgeFault;
use keep_port::{Keeper, Kept};
use mail_records::{Commit, Stamp};
use std::alloc::Global;
use std::marker::Model;
use std::snapshot::Snapshot;

/// The book of an account, which performs its calls by rules and keeps what they change. Contracts
/// see the rules, the keeper, the account's history, and of it what the book was opened with and
/// the entries since.
///
/// The account is always valid by the rules, at the end of each entry. If the keeper was ready when
/// the book was opened, whatever a crash leaves of it holds every commit of the account, complete
/// and in order, and at most one commit more, with which the account is valid too
/// ([`Book::keeps`]). Once a commit was entered, the one more is that of a call after it whose
/// commit the keeper refused
/// ([`crashes_leave_one_asked_commit`](crate::crashes_leave_one_asked_commit)). Whoever received
/// the acknowledgement of a change can rely on it: right after a commit is entered, a crash leaves
/// the account and nothing more ([`Book::perform`]).
#[derive(Drop)]
pub struct Book<K: Keeper, R: Rules> {
    rules: R,
    keeper: K,
    // The keeper as it was once it was loaded. Only contracts see it.
    opened_over: Snapshot<K>,
    account: Account,
    // How many entries the account had when the book was opened.
    before: u64,
    // The greatest pass of those entries.
    greatest: u64,
}

impl<K: Keeper, R: Rules> Model for Book<K, R> {
    ghost use Rattle.std.specs.Prelude.{drop};
    ghost use Rattle.mail_records.specs.Histories.{account_after};
    ghost use Rattle.account_book.specs.Books.{BookView, IsBook};

    ghost Value = { BookView K R };

    ghost view = { λ b. record {
      rules = b.rules;
      keeper = b.keeper;
      opened_over = b.opened_over.value;
      history = b.account.history;
      opened = account_after b.account.history b.before;
      before = b.before;
      since = drop b.before b.account.history.entries;
    } };

    ghost invariant = { λ b. IsBook (R.is_whole b.rules) (K.kept b.opened_over.value)
        (K.image b.opened_over.value) (K.append_faults b.opened_over.value)
        (K.kept b.keeper) (K.image b.keeper) (K.append_faults b.keeper) b.before b.greatest
        b.account.history };
}

impl<K: Keeper, R: Rules> AccountView for Book<K, R> {
    ghost use Rattle.account_book.specs.Passes.{numbered_since};

    ghost entries = { λ b. numbered_since b.opened b.since };

    ghost before = { λ b. b.before };

    ghost opening = { λ b. b.opened };
}

// Returns the answer to a change, by whether it was kept.
fn answer_of(kept: bool, out: Out, refused: Out) -> Out
    ensures { result ≡ (if kept then out else refused) }
{
    if kept { out } else { refused }
}

impl<K: Keeper, R: Rules> Book<K, R> {
    /// Opens an account over its keeper, which is loaded once and never written.
    ///
    /// Fails with `KeeperFault` only if the keeper's count of faults of `load` rose, and with
    /// `Damaged` if and only if what was loaded is no valid account: the row is the first one,
    /// counted from 1, that is no commit or doesn't fit; if there is none, the last row. A base
    /// would be row 0. Fails with `NoMemory` if memory runs out. The keeper comes back with what it
    /// keeps.
    ///
    /// What the book promises of a crash, it promises if the keeper is ready once it is loaded. So
    /// it is if it was ready before, and did not lose its knowledge of its content (`ready`).
    pub fn start(alloc: Global, mut keeper: K, rules: R) -> Result<Book<K, R>, (StartFault, K)>
        ensures rules { IfOk result (λ b. b.rules ≡ rules) }
        ensures opened { IfOk result (λ b. IsOpened (K.kept keeper) (K.kept b.keeper) b.history) }
        ensures opened_over { IfOk result (λ b. b.opened_over ≡ b.keeper) }
        ensures ready { IfOk result (λ b. IsReadyLoaded (R.is_whole rules)
            (K.kept keeper) (K.image keeper) (K.kept b.keeper) (K.image b.keeper)) }
        ensures left { IfOk result (λ b. IsLeftBefore (K.image keeper) (K.kept b.keeper)
            (K.image b.keeper)) }
        ensures all { IfOk result (λ b. b.opened ≡ b.history) }
        ensures since { IfOk result (λ b. b.since ≡ []) }
        ensures no_faults { IfOk result (λ b. (K.load_faults b.keeper ≡ K.load_faults keeper)
            × (K.append_faults b.keeper ≡ K.append_faults keeper)
            × (K.replace_faults b.keeper ≡ K.replace_faults keeper)) }
        ensures cause { IfErr result (λ e. IsStartFault (R.is_whole rules) (K.kept keeper)
            (K.kept e.1) (K.load_faults keeper) (K.load_faults e.1) e.0) }
        ensures same { IfErr result (λ e. IsAsBefore (K.kept keeper) (K.kept e.1)) }
        ensures image { IfErr result (λ e. IsLeftBefore (K.image keeper) (K.kept e.1)
            (K.image e.1)) }
        ensures counts { IfErr result (λ e. (K.append_faults e.1 ≡ K.append_faults keeper)
            × (K.replace_faults e.1 ≡ K.replace_faults keeper)) }
    {
        match keeper.load(alloc) {
            Ok(content) => Book::over(alloc, keeper, rules, content),
            Err(EdgeFault::Failed) => Err((StartFault::KeeperFault, keeper)),
            Err(EdgeFault::NoMemory) => Err((StartFault::NoMemory, keeper)),
        }
    }

    // Opens an account over a keeper whose content was loaded.
    fn over(
        alloc: Global,
        keeper: K,
        rules: R,
        content: Kept,
    ) -> Result<Book<K, R>, (StartFault, K)>
        requires known { IsContent (K.kept keeper) content }
        ensures rules { IfOk result (λ b. b.rules ≡ rules) }
        ensures keeper { IfOk result (λ b. b.keeper ≡ keeper) }
        ensures opened_over { IfOk result (λ b. b.opened_over ≡ keeper) }
        ensures makes { IfOk result (λ b. MakesHistory content b.history) }
        ensures all { IfOk result (λ b. b.opened ≡ b.history) }
        ensures since { IfOk result (λ b. b.since ≡ []) }
        ensures fault { IfErr result (λ e. IsContentFault (R.is_whole rules) content e.0) }
        ensures same { IfErr result (λ e. e.1 ≡ keeper) }
    {
        match load_content(alloc, &rules, content) {
            Ok(account) => {
                let before = account.count();
                let greatest = find_greatest_pass(&account);
                let book = Book {
                    rules,
                    opened_over: Snapshot::of(&keeper),
                    keeper,
                    account,
                    before,
                    greatest,
                };
                Ok(book)
            }
            Err(fault) => Err((fault, keeper)),
        }
    }

    /// Closes the book, and returns its keeper, which keeps the account's history. The refusals
    /// since the book was opened are at most the faults of its `append`, which rose by as many
    /// since. If the keeper was ready when the book was opened and knows its content now, it is
    /// ready again.
    pub fn end(self) -> K
        ensures keeper { result ≡ self.keeper }
        ensures valid { R.is_whole self.rules self.history }
        ensures always { IsValidFrom (R.is_whole self.rules) self.before self.history }
        ensures kept { IsKept (R.is_whole self.rules) (K.kept self.opened_over)
            (K.image self.opened_over) (K.kept result) (K.image result) self.history }
        ensures ready { IsReady (R.is_whole self.rules) (K.kept self.opened_over)
            (K.image self.opened_over) → (k : TheKept) → K.kept result ≡ Some k
            → IsReady (R.is_whole self.rules) (K.kept result) (K.image result) }
        ensures refusals { refusals_in self.since ≤ K.append_faults result }
        ensures rise { RoseBy (refusals_in self.since) (K.append_faults self.opened_over)
            (K.append_faults result) }
    {
        let Book { keeper, .. } = self;
        keeper
    }

    /// Does nothing. Its clauses say what holds of each book.
    pub fn keeps(&self)
        ensures valid { R.is_whole self.now.rules self.now.history }
        ensures always { IsValidFrom (R.is_whole self.now.rules) self.now.before
            self.now.history }
        ensures kept { IsKept (R.is_whole self.now.rules)
            (K.kept self.now.opened_over) (K.image self.now.opened_over) (K.kept self.now.keeper)
            (K.image self.now.keeper) self.now.history }
        ensures parts { self.now.history ≡ grown_by self.now.opened self.now.since }
        ensures before { self.now.before ≡ length self.now.opened.entries }
        ensures passes { named_since self.now.opened (numbered_since self.now.opened
            self.now.since) ≡ self.now.since }
        ensures refusals { refusals_in self.now.since ≤ K.append_faults self.now.keeper }
        ensures rise { RoseBy (refusals_in self.now.since) (K.append_faults
            self.now.opened_over) (K.append_faults self.now.keeper) }
    {
        let _greatest = self.greatest;
    }

    /// Returns the pass for the stamps of whoever shares the book under this number: the number
    /// counted from the greatest pass of the entries that the book was opened with.
    pub fn pass_of(&self, number: u64) -> u64
        ensures { result ≡ pass_from (greatest_pass self.now.opened.entries) number }
    {
        self.greatest.wrapping_add(number)
    }

    /// Lends the account, which is valid.
    pub fn account(&self) -> &Account
        ensures history { result.now.history ≡ self.now.history }
        ensures whole { R.is_whole self.now.rules result.now.history }
        ensures bounded { IsBounded result.now.history }
    {
        self.account.is_bounded();
        &self.account
    }

    /// Performs a call at a timestamp, in seconds since the beginning of 1970. The call is answered
    /// as its plan says, or, if the plan's edits would pass `MAX_EDIT_BYTES`, with
    /// `serverUnavailable`. A plan that changes something and is within the limit is kept first, as
    /// a commit under the stamp, and then entered. If the keeper refuses it, the call is answered
    /// with `serverFail`, or an upload with `Failed`: the mark of a refusal is then entered under
    /// the stamp, and content and states are as before. The history grows by nothing else.
    ///
    /// If the commit is entered, a crash now leaves the account and nothing more. If the keeper
    /// refused it, or memory ran out, this commit and no other may be there after a crash, as one
    /// more than those of the account, besides what a crash might have left before the call
    /// (`left`; [`crashes_leave_one_asked_commit`](crate::crashes_leave_one_asked_commit) says what
    /// follows over many calls). If memory runs out, the history stays as it was. A call that
    /// enters nothing leaves the keeper alone, and the count of faults of `append` rises only with
    /// a refusal that is entered.
    #[tactic(auto, using(crate::proofs::Parts::since_idle, crate::proofs::Parts::cause_idle, crate::proofs::KeptHistories::left_idle))]
    pub fn perform(
        &mut self,
        alloc: Global,
        call: &Call,
        stamp: Stamp,
        moment: u64,
    ) -> Result<Done, NoMemory>
        requires moment { moment ≤ last_moment }
        ensures rules { self.new.rules ≡ self.old.rules }
        ensures opened { self.new.opened ≡ self.old.opened }
        ensures opened_over { self.new.opened_over ≡ self.old.opened_over }
        ensures reply { IfOk result (λ done. (account : ℕ)
            → IsReply (R.plan_of self.old.rules) edit_bytes self.new.history
            (record {
              account = account;
              before = done.before;
              after = done.after;
              moment = moment;
            }) call.now stamp done.out) }
        ensures before { IfOk result (λ done. done.before ≡ length self.old.history.entries) }
        ensures after { IfOk result (λ done. done.after ≡ length self.new.history.entries) }
        ensures begins { IfOk result (λ done. account_after self.new.history done.before
            ≡ self.old.history) }
        ensures since { self.new.since ≡ self.old.since ++ drop
            (length self.old.history.entries) self.new.history.entries }
        ensures kept { IfOk result (λ _. NoneRefused self.old.history self.new.history
            ⊎ Rose (K.append_faults self.old.keeper) (K.append_faults self.new.keeper)) }
        ensures cause { self.new.history ≡ grown self.old.history (Refused stamp)
            → Rose (K.append_faults self.old.keeper) (K.append_faults self.new.keeper) }
        ensures left { IsLeftBy (K.image self.old.keeper) (K.image self.new.keeper)
            self.old.history self.new.history (commit_of (R.plan_of self.old.rules
            self.old.history call.now moment) stamp) }
        ensures load_count { K.load_faults self.new.keeper ≡ K.load_faults self.old.keeper }
        ensures replace_count { K.replace_faults self.new.keeper
            ≡ K.replace_faults self.old.keeper }
        ensures untouched { IfOk result (λ _. self.new.history ≡ self.old.history
            → self.new.keeper ≡ self.old.keeper) }
        ensures append_count { IfOk result (λ _. NoneRefused self.old.history self.new.history
            → K.append_faults self.new.keeper ≡ K.append_faults self.old.keeper) }
        ensures no_memory { OnErr result (self.new.history ≡ self.old.history) }
        ensures no_fault { OnErr result (K.append_faults self.new.keeper
            ≡ K.append_faults self.old.keeper) }
    {
        let before = self.account.count();
        let plan = self.plan_call(alloc, call, moment)?;
        if plan.is_idle() {
            return Ok(Done {
                out: plan.out,
                before,
                after: before,
            });
        }
        let Some(bytes) = self.account.count_edit_bytes_with(plan.edits.as_slice()) else {
            return Ok(Done {
                out: build_refusal(alloc, "serverUnavailable", &call.ask)?,
                before,
                after: before,
            });
        };
        // After the keeper was asked, memory may run out for this answer.
        let refused = build_refusal(alloc, "serverFail", &call.ask)?;
        let Plan { out, blobs, edits } = plan;
        let commit = Commit {
            blobs,
            edits,
            stamp,
        };
        let kept = self.enter(alloc, commit, bytes)?;
        Ok(Done {
            out: answer_of(kept, out, refused),
            before,
            after: self.account.count(),
        })
    }

    // Returns the plan of a call. Its clauses are what the rules promise of it.
    fn plan_call(&self, alloc: Global, call: &Call, moment: u64) -> Result<Plan, NoMemory>
        requires moment { moment ≤ last_moment }
        ensures plan { IfOk result (λ p. p ≡ R.plan_of self.now.rules self.now.history call.now
            moment) }
        ensures fits { IfOk result (λ p. AllFit (content_of self.now.history) p.edits) }
        ensures small { IfOk result (λ p. AllByRecursion IsSmall p.edits) }
        ensures formed { IfOk result (λ p. (stamp : TheStamp) → IsFormed (commit_of p stamp)) }
        ensures bounded { IsBounded self.now.history }
        ensures few { IfOk result (λ p. IsWithin edit_bytes self.now.history p.edits
            → AreBlobsFew (blobs_of self.now.history ++ p.blobs)) }
        ensures keeps { IfOk result (λ p. IsWithin edit_bytes self.now.history p.edits
            → (stamp : TheStamp) → R.is_whole self.now.rules (grown self.now.history (Committed
            (commit_of p stamp)))) }
        ensures sound { IfOk result (λ p. IsWithin edit_bytes self.now.history p.edits
            → (stamp : TheStamp) → IsSound (grown self.now.history (Committed
            (commit_of p stamp)))) }
    {
        self.rules.plan(alloc, self.account(), call, moment)
    }

    // Keeps a commit, with which the edits take so many bytes, and enters it; or enters the mark of
    // its refusal.
    fn enter(&mut self, alloc: Global, commit: Commit, bytes: u64) -> Result<bool, NoMemory>
        requires fits { AllFit (content_of self.old.history) commit.edits }
        requires small { AllByRecursion IsSmall commit.edits }
        requires formed { IsFormed commit }
        requires bounded { IsBounded self.old.history }
        requires within { IsWithin edit_bytes self.old.history commit.edits }
        requires bytes { bytes ≡ edit_bytes (edits_of self.old.history) + edit_bytes commit.edits }
        requires few { AreBlobsFew (blobs_of self.old.history ++ commit.blobs) }
        requires sound { IsSound (grown self.old.history (Committed commit)) }
        requires keeps { R.is_whole self.old.rules (grown self.old.history (Committed commit)) }
        ensures rules { self.new.rules ≡ self.old.rules }
        ensures opened_over { self.new.opened_over ≡ self.old.opened_over }
        ensures entered { IsEntered result self.old.history self.new.history commit }
        ensures opened { self.new.opened ≡ self.old.opened }
        ensures since { self.new.since ≡ self.old.since ++ drop
            (length self.old.history.entries) self.new.history.entries }
        ensures cause { IsFaultCounted result (K.append_faults self.old.keeper)
            (K.append_faults self.new.keeper) }
        ensures left { IsLeftBy (K.image self.old.keeper) (K.image self.new.keeper)
            self.old.history self.new.history commit }
        ensures load_count { K.load_faults self.new.keeper ≡ K.load_faults self.old.keeper }
        ensures replace_count { K.replace_faults self.new.keeper
            ≡ K.replace_faults self.old.keeper }
    {
        let _pass = commit.stamp.pass;
        let kept = keep_commit(
            alloc,
            &mut self.keeper,
            &self.rules,
            &mut self.account,
            commit,
            bytes,
        );
        let _count = self.account.count();
        kept
    }
}

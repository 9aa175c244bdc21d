// What holds of every account, whatever its rules.
ghost use Rattle.std.specs.Prelude.{◌≡◌, ◌+◌, ◌<◌, ◌≤◌, ◌^◌, ◌⊎◌, ℕ, List, Some, length};
ghost use Rattle.std.specs.List.{AllByRecursion};
ghost use Rattle.mail_records.specs.Histories.{History, Entry, IsFounded, IsSound, account_after, blobs_of, content_at, content_of, end_after, end_of, grown_by, max_floor};
ghost use Rattle.mail_records.specs.FloorMoves.{moved_up};
ghost use Rattle.mail_records.specs.States.{state_at, state_of};
ghost use Rattle.mail_records.specs.declared.edits.Commit.{Commit as TheCommit};
ghost use Rattle.mail_records.specs.declared.edits.Edit.{Edit};
ghost use Rattle.mail_records.specs.declared.edits.Stamp.{Stamp};
ghost use Rattle.jm_base.specs.declared.identifiers.Kind.{Kind};
ghost use Rattle.keep_port.specs.declared.kept.Kept.{Kept};
ghost use Rattle.account_book.specs.Accounts.{without_refusals};
ghost use Rattle.account_book.specs.Keeping.{IsLeftAfter, IsLeftBy, IsOneMore, IsReady, KeepsHistory};
ghost use Rattle.account_book.specs.Opening.{IsDamaged, MakesHistory};
ghost use Rattle.account_book.specs.Replies.{IsReply};
ghost use Rattle.account_book.specs.Runs.{AreKeptValid, Event, IsEntryOfReply, IsTimely, after_event};
ghost use Rattle.record_codec.specs.Sizes.{edit_bytes};
ghost use Rattle.account_book.specs.declared.faults.Reason.{Reason};
ghost use Rattle.account_book.specs.declared.asks.Call.{Call};
ghost use Rattle.account_book.specs.declared.plans.Out.{Out};
ghost use Rattle.account_book.specs.declared.plans.Plan.{Plan};
ghost use Rattle.account_book.specs.declared.plans.Point.{Point};

use crate::Rules;
use keep_port::Keeper;

/// A reply to a call at a point of a history is a reply to the call at that point of each history
/// that the history grows to.
pub fn reply_lasts()
    ensures { (plan : History → Call → ℕ → Plan) (bytes : List Edit → ℕ) (h : History)
        (more : List Entry) (point : Point) (call : Call) (stamp : Stamp) (out : Out) → point.before
        ≤ length h.entries → point.after ≤ length h.entries
        → IsReply plan bytes h point call stamp out
        → IsReply plan bytes (grown_by h more) point call stamp out }
{}

/// From valid accounts, whatever events are performed on them, one after the other, and whichever
/// commits the keepers refuse: each history stays sound and each account is valid at the end of
/// each entry, each answer is the written reply at its point of the history that its account has in
/// the end, and the state of a kind changes exactly with an edit of the kind. An event changes no
/// account but its own.
pub fn events_keep_accounts_valid<R: Rules>(rules: &R)
    ensures kept { (accounts : ℕ → History) (events : List Event)
        → ((account : ℕ) → R.is_whole rules.now (accounts account))
        → AllByRecursion IsTimely events → AreKeptValid (R.plan_of rules.now) edit_bytes
        (R.is_whole rules.now) accounts events }
    ensures others { (accounts : ℕ → History) (e : Event) (account : ℕ) → ¬ (account ≡ e.account)
        → after_event (R.plan_of rules.now) edit_bytes accounts e account ≡ accounts account }
{
    let _rules = rules;
}

/// An account that was valid after its first entries is valid after each later one, if each later
/// entry comes of a call that was answered with the written reply.
pub fn replies_keep_accounts_valid<R: Rules>(rules: &R)
    ensures { (h : History) (first : ℕ) → R.is_whole rules.now (account_after h first)
        → ((index : ℕ) → first ≤ index → index < length h.entries
        → IsEntryOfReply (R.plan_of rules.now) edit_bytes h index)
        → (count : ℕ) → first ≤ count → R.is_whole rules.now (account_after h count) }
{
    let _rules = rules;
}

/// A history whose floor moves up to the end of its first `c` entries keeps its content, blobs and
/// last position, and, from the new floor on, the content and the states at each position. If it
/// was founded and sound and the new floor is at most 2^52, it still is.
pub fn history_outlasts_floor()
    ensures content { (h : History) (c : ℕ) → content_of (moved_up h c) ≡ content_of h }
    ensures blobs { (h : History) (c : ℕ) → blobs_of (moved_up h c) ≡ blobs_of h }
    ensures end { (h : History) (c : ℕ) → end_of (moved_up h c) ≡ end_of h }
    ensures content_at { (h : History) (c k : ℕ) → end_after h c ≤ k → content_at (moved_up h c) k
        ≡ content_at h k }
    ensures state_at { (h : History) (kind : Kind) (c k : ℕ) → end_after h c ≤ k
        → state_at (moved_up h c) kind k ≡ state_at h kind k }
    ensures state_of { (h : History) (kind : Kind) (c : ℕ) → state_of (moved_up h c) kind
        ≡ state_of h kind }
    ensures founded { (h : History) (c : ℕ) → end_after h c ≤ max_floor → IsFounded h → IsSound h
        → IsFounded (moved_up h c) }
    ensures sound { (h : History) (c : ℕ) → IsSound h → IsSound (moved_up h c) }
{}

/// Of calls on an account, one after the other, each of which would enter its commit, as
/// [`crate::Book::perform`] says of the commit that it plans: whatever a crash leaves after them
/// keeps every commit that was entered, complete and in order, and at most one commit more. That is
/// the commit of one of these calls, which was not entered, and since that call none was. Only if
/// none of these calls entered its commit, a crash may leave what it might have left before them.
pub fn crashes_leave_one_asked_commit<K: Keeper>(keeper: &K)
    ensures { (keepers : ℕ → K) (histories : ℕ → History) (commits : ℕ → TheCommit) (count : ℕ)
        → ((index : ℕ) → index < count → IsLeftBy (K.image (keepers index))
        (K.image (keepers (index + 1))) (histories index) (histories (index + 1)) (commits index))
        → (k : Kept) → K.image (keepers count) k
        → IsLeftAfter (K.image (keepers 0)) histories commits count k }
{
    let _keeper = keeper;
}

/// What a valid account is kept as is not damaged, whichever row and reason are named, and neither
/// is it with one commit more, with which the account is valid. So nothing that a crash may leave
/// of a book is damaged. What is opened over what an account is kept as is the account without its
/// refusals, which are not kept.
pub fn kept_accounts_open_again<R: Rules>(rules: &R)
    ensures undamaged { (k : Kept) (h : History) (row : ℕ) (why : Reason)
        → R.is_whole rules.now h → KeepsHistory k h
        ⊎ IsOneMore (R.is_whole rules.now) k h
        → ¬ IsDamaged (R.is_whole rules.now) k row why }
    ensures same { (k : Kept) (h g : History) → KeepsHistory k h → MakesHistory k g
        → g ≡ without_refusals h }
{
    let _rules = rules;
}

/// A keeper of which a crash leaves nothing but its content is ready for every account. So is a
/// keeper right after an `append` or a `replace` that returned Ok, if it knows its content then,
/// and a [`keep_port::MemoryKeeper`] that was just made.
pub fn clean_keepers_are_ready<K: Keeper, R: Rules>(keeper: &K, rules: &R)
    ensures { ((k : Kept) → K.image keeper.now k → K.kept keeper.now ≡ Some k)
        → IsReady (R.is_whole rules.now) (K.kept keeper.now)
        (K.image keeper.now) }
{
    let _keeper = keeper;
    let _rules = rules;
}

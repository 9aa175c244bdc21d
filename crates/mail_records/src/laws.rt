// What holds of all histories: laws of the definitions, each as the contract of a function that
// does nothing.
ghost use Rattle.std.specs.Prelude.{◌≡◌, ◌+◌, ◌++◌, ◌<◌, ◌≤◌, ◌↔◌, Bool, ℕ, List, [], drop, length};
ghost use Rattle.std.specs.List.{AllByRecursion};
ghost use Rattle.jm_base.specs.declared.identifiers.Kind.{Kind};
ghost use Rattle.mail_records.specs.Contents.{AreNumbered, AreTables, NextAtMost, SameRecords, email_number, mailbox_number};
ghost use Rattle.mail_records.specs.Orders.{AreKeys, Key};
ghost use Rattle.mail_records.specs.declared.records.Email.{Email};
ghost use Rattle.mail_records.specs.declared.records.Mailbox.{Mailbox};
ghost use Rattle.mail_records.specs.Commits.{IsFormedEdit, IsFormedEmail};
ghost use Rattle.mail_records.specs.Edits.{AllFit, AllKeepThread, after_edits};
ghost use Rattle.mail_records.specs.FloorMoves.{moved_up};
ghost use Rattle.mail_records.specs.Histories.{Committed, Entry, FloorsAtMost, History, IsFormedHistory, IsFounded, IsNamedBelow, IsSound, Refused, account_after, blobs_of, content_at, content_of, edits_between, edits_in, edits_of, empty_history, end_after, end_of, entry_blobs, entry_edits, grown, grown_by, ids_of};
ghost use Rattle.mail_records.specs.States.{Reaches, edits_of_kind, ids_between, state_at, state_of};
ghost use Rattle.mail_records.specs.declared.edits.Commit.{Commit};
ghost use Rattle.mail_records.specs.declared.edits.Stamp.{Stamp};

/// A history is founded from its beginning on: the empty one is, and entries keep it so. Where its
/// edits fit, the content at its end is in number order, each number is below its kind's next one,
/// and each next number is at most the last position plus 1.
pub fn histories_are_founded()
    ensures empty { IsFounded empty_history }
    ensures grown { (h : History) (more : List Entry) → IsFounded h → IsFounded (grown_by h more) }
    ensures before { (h : History) (count : ℕ) → IsFounded h → IsFounded (account_after h count) }
    ensures tables { (h : History) → IsFounded h → AreTables (content_of h) }
    ensures numbered { (h : History) → IsFounded h → AllFit h.base (edits_of h) → AreNumbered
        (content_of h) }
    ensures next { (h : History) → IsFounded h → AllFit h.base (edits_of h) → NextAtMost
        (end_of h + 1) (content_of h) }
{}

/// A founded history is sound if and only if its edits fit and keep the thread of each email, one
/// after the other. The empty history is sound; a commit whose edits fit and keep threads, and a
/// refusal, keep it sound; and it was sound after each of its entries.
pub fn histories_are_sound()
    ensures empty { IsSound empty_history }
    ensures steps { (h : History) → IsFounded h → AllFit h.base (edits_of h)
        → AllKeepThread h.base (edits_of h) → IsSound h }
    ensures kept { (h : History) → IsSound h → AllKeepThread h.base (edits_of h) }
    ensures committed { (h : History) (c : Commit) → IsFounded h → IsSound h → AllFit
        (content_of h) c.edits → AllKeepThread (content_of h) c.edits → IsSound (grown h
        (Committed c)) }
    ensures refused { (h : History) (s : Stamp) → IsSound h → IsSound (grown h (Refused s)) }
    ensures before { (h : History) (count : ℕ) → IsSound h → IsSound (account_after h count) }
{}

/// An entry adds its edits and blobs at the end, and the content at a position stays as the history
/// grows.
pub fn histories_grow()
    ensures edits { (h : History) (e : Entry) → edits_of (grown h e) ≡ edits_of h ++ entry_edits e }
    ensures blobs { (h : History) (e : Entry) → blobs_of (grown h e) ≡ blobs_of h ++ entry_blobs e }
    ensures end { (h : History) (e : Entry) → end_of (grown h e) ≡ end_of h + length
        (entry_edits e) }
    ensures content { (h : History) (e : Entry) → content_of (grown h e) ≡ after_edits
        (content_of h) (entry_edits e) }
    ensures at { (h : History) (more : List Entry) (k : ℕ) → k ≤ end_of h → content_at
        (grown_by h more) k ≡ content_at h k }
    ensures after { (h : History) (count : ℕ) → content_at h (end_after h count) ≡ content_of
        (account_after h count) }
    ensures account { (h : History) (more : List Entry) (count : ℕ) → count ≤ length h.entries
        → account_after (grown_by h more) count ≡ account_after h count }
{}

/// The state of a kind is a position from the kind's floor position to the end, and at most the
/// position that it is asked at; the state at a state is that state. If a kind has the same state
/// at two positions, its records are the same there (RFC 8620, section 5.1).
pub fn states_tell_records()
    ensures reached_at { (h : History) (kind : Kind) (k : ℕ) → FloorsAtMost h.floors h.floor
        → Reaches h kind (state_at h kind k) }
    ensures reached { (h : History) (kind : Kind) → FloorsAtMost h.floors h.floor → Reaches h kind
        (state_of h kind) }
    ensures most { (h : History) (kind : Kind) (k : ℕ) → FloorsAtMost h.floors h.floor → h.floor
        ≤ k → state_at h kind k ≤ k }
    ensures end { (h : History) (kind : Kind) → state_at h kind (end_of h) ≡ state_of h kind }
    ensures after { (h : History) (kind : Kind) (count : ℕ) → state_at h kind (end_after h count)
        ≡ state_of (account_after h count) kind }
    ensures again { (h : History) (kind : Kind) (k : ℕ) → FloorsAtMost h.floors h.floor
        → state_at h kind (state_at h kind k) ≡ state_at h kind k }
    ensures same { (h : History) (kind : Kind) (j k : ℕ) → FloorsAtMost h.floors h.floor → j ≤ k
        → state_at h kind j ≡ state_at h kind k → SameRecords kind (content_at h k)
        (content_at h j) }
{}

/// The states of the account after some of its entries are those of the whole account, up to the
/// end of these entries, and so are its edits. States don't fall as positions grow, and with the
/// other entries the account is the whole one again.
pub fn points_are_of_one_history()
    ensures rises { (h : History) (kind : Kind) (j k : ℕ) → FloorsAtMost h.floors h.floor → j ≤ k
        → state_at h kind j ≤ state_at h kind k }
    ensures state { (h : History) (kind : Kind) (c k : ℕ) → k ≤ end_after h c
        → state_at (account_after h c) kind k ≡ state_at h kind k }
    ensures edits { (h : History) (c from upto : ℕ) → upto ≤ end_after h c
        → edits_between (account_after h c) from upto ≡ edits_between h from upto }
    ensures ids { (h : History) (c from upto : ℕ) → upto ≤ end_after h c
        → ids_between h.floor from upto (ids_of (account_after h c))
        ≡ ids_between h.floor from upto (ids_of h) }
    ensures whole { (h : History) (c : ℕ) → grown_by (account_after h c) (drop c h.entries) ≡ h }
{}

/// The state of a kind of records is as before after entries without an edit of the kind, as after
/// refusals, and is a later one after entries with such an edit (RFC 8620, section 5.1).
pub fn states_change_at_edits_of_their_kind()
    ensures unchanged { (h : History) (kind : Kind) (more : List Entry)
        → edits_of_kind kind (edits_in more) ≡ []
        → state_of (grown_by h more) kind ≡ state_of h kind }
    ensures later { (h : History) (kind : Kind) (more : List Entry)
        → FloorsAtMost h.floors h.floor → ¬ (edits_of_kind kind (edits_in more) ≡ [])
        → state_of h kind < state_of (grown_by h more) kind }
{}

/// If the floor of a history moves up to the end of its first entries, the records of a kind are
/// the same as before at each position from the kind's new floor position up to the new floor.
pub fn records_stay_below_a_floor_that_moved_up()
    ensures { (h : History) (kind : Kind) (c k : ℕ) → FloorsAtMost h.floors h.floor
        → state_at h kind (end_after h c) ≤ k → k ≤ end_after h c
        → SameRecords kind (content_at (moved_up h c) k) (content_at h k) }
{}

/// If the floor of a history moves up to the end of its first entries, the states of a kind are as
/// before from the kind's new floor position on, and so are its edits after each such position. So
/// what was touched since a state that is still reached is the same.
pub fn edits_and_states_outlast_a_floor()
    ensures edits { (h : History) (kind : Kind) (c from upto : ℕ)
        → state_at h kind (end_after h c) ≤ from
        → edits_of_kind kind (edits_between (moved_up h c) from upto)
        ≡ edits_of_kind kind (edits_between h from upto) }
    ensures state { (h : History) (kind : Kind) (c k : ℕ) → FloorsAtMost h.floors h.floor
        → state_at h kind (end_after h c) ≤ k
        → state_at (moved_up h c) kind k ≡ state_at h kind k }
    ensures reached { (h : History) (kind : Kind) (c s : ℕ) → Reaches (moved_up h c) kind s
        ↔ (state_at h kind (end_after h c) ≤ s) × (s ≤ end_of h) }
{}

/// Each record that an edit of a history names has a number from 1 and below its kind's next one.
pub fn edits_name_numbers_below_the_next()
    ensures { (h : History) → IsFounded h → AllFit h.base (edits_of h)
        → AllByRecursion (IsNamedBelow (content_of h)) (ids_of h) }
{}

/// A history whose base and commits are formed has formed emails at each position. The empty
/// history is formed, it stays so with entries whose edits are formed, and it was so after each
/// entry.
pub fn histories_stay_formed()
    ensures empty { IsFormedHistory empty_history }
    ensures grown { (h : History) (more : List Entry) → IsFormedHistory h
        → AllByRecursion IsFormedEdit (edits_in more) → IsFormedHistory (grown_by h more) }
    ensures before { (h : History) (count : ℕ) → IsFormedHistory h
        → IsFormedHistory (account_after h count) }
    ensures emails { (h : History) (k : ℕ) → IsFormedHistory h
        → AllByRecursion IsFormedEmail (content_at h k).emails }
{}

/// The keys of a part of an order are one list: two lists that rise and have exactly the same keys
/// of the records are equal. So a list that is shown to be in this order, with these keys, is what
/// a content lends.
pub fn keys_tell_lists()
    ensures mailboxes { (test : Key → Bool) (keys : Mailbox → List Key) (rows : List Mailbox)
        (xs ys : List Key) → AreKeys test mailbox_number keys rows xs
        → AreKeys test mailbox_number keys rows ys → xs ≡ ys }
    ensures emails { (test : Key → Bool) (keys : Email → List Key) (rows : List Email)
        (xs ys : List Key) → AreKeys test email_number keys rows xs
        → AreKeys test email_number keys rows ys → xs ≡ ys }
{}

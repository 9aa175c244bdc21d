// What holds of pages of changes: laws of the definitions, each as the contract of a function that
// does nothing.
ghost use Rattle.std.specs.Prelude.{◌≡◌, ◌≢◌, ◌==◌, ◌||◌, ◌<◌, ◌≤◌, ℕ, ℤ, None, Option, Some, List, min, not, true};
ghost use Rattle.jm_base.specs.Ids.{state_text};
ghost use Rattle.jm_base.specs.declared.identifiers.TheConstants.{NUMBER_LIMIT};
ghost use Rattle.jm_base.specs.declared.identifiers.Kind.{Kind};
ghost use Rattle.mail_records.specs.FloorMoves.{moved_up};
ghost use Rattle.mail_records.specs.Histories.{FloorsAtMost, History, account_after, end_after, end_of};
ghost use Rattle.mail_records.specs.States.{AreTouched, Reaches, state_at};
ghost use Rattle.change_calls.specs.Changes.{answer_of, is_within, page_end, page_of, reached_state, touched};
ghost use Rattle.change_calls.specs.Pages.{BringsUpToDate, GoesOn, IsPage, has};

/// A page is exact (RFC 8620, section 5.2). `touched` are exactly the records that the edits
/// between two positions name; a page ends at the greatest position up to which they are at most
/// the maximum, and without a maximum at the last position. The text of a state is read as that
/// state if and only if the history reaches it.
pub fn pages_are_exact()
    ensures touched { (h : History) (kind : Kind) (from upto : ℕ) → AreTouched h kind from upto
        (touched h kind from upto) }
    ensures ends { (h : History) (kind : Kind) (max : Option ℕ) (from : ℕ) → from ≤ end_of h
        → IsPage h kind max from (page_end h kind max from) }
    ensures all { (h : History) (kind : Kind) (from : ℕ) → from ≤ end_of h
        → page_end h kind None from ≡ end_of h }
    ensures read { (h : History) (kind : Kind) (s : ℕ) → Reaches h kind s → s < NUMBER_LIMIT
        → reached_state h kind (state_text s) ≡ Some s }
    ensures named { (h : History) (kind : Kind) (text : List ℕ) (s : ℕ)
        → reached_state h kind text ≡ Some s
        → Reaches h kind s × (s < NUMBER_LIMIT) × (text ≡ state_text s) }
{}

/// A client that takes the destroyed records out, and takes the created and the updated ones as
/// they are where the page ends, has the records of the kind there. The next page begins at the
/// new state of the one before, and pages one after the other name the records that one page over
/// all of them names. A page that is not the last one has a later new state, so that a client comes
/// to the end (RFC 8620, section 5.2).
pub fn pages_bring_up_to_date()
    ensures brings { (h : History) (from upto : ℕ) → from ≤ upto → BringsUpToDate h from upto }
    ensures goes_on { (h : History) (kind : Kind) (p : ℕ) → FloorsAtMost h.floors h.floor
        → h.floor ≤ p → p ≤ end_of h → GoesOn h kind (state_at h kind p) p }
    ensures past_floor { (h : History) (kind : Kind) (max : Option ℕ) (from : ℕ) → from ≤ end_of h
        → h.floor ≤ page_end h kind max from }
    ensures together { (h : History) (kind : Kind) (from p q n : ℕ) → from ≤ p → p ≤ q
        → p ≤ end_of h
        → has (touched h kind from q) n
        ≡ (has (touched h kind from p) n || has (touched h kind p q) n) }
    ensures moves { (h : History) (kind : Kind) (max : Option ℕ) (from : ℕ)
        → FloorsAtMost h.floors h.floor → from ≤ end_of h → is_within max 1 ≡ true
        → page_end h kind max from ≢ end_of h
        → from < state_at h kind (page_end h kind max from) }
{}

/// A page of the account after its first entries is the page of the whole account between the same
/// positions, but that the whole account may have more. It ends where the page of the whole account
/// ends, or at the end of these entries if that is before. A state that the account reached then is
/// the same state of the whole account.
pub fn pages_are_of_one_history()
    ensures page { (h : History) (kind : Kind) (c from p : ℕ) → from ≤ end_after h c
        → p ≤ end_after h c
        → page_of (account_after h c) kind from p
        ≡ record (page_of h kind from p) { more = not (p == end_after h c) } }
    ensures ends { (h : History) (kind : Kind) (max : Option ℕ) (c from : ℕ)
        → from ≤ end_after h c
        → page_end (account_after h c) kind max from
        ≡ min (page_end h kind max from) (end_after h c) }
    ensures read { (h : History) (kind : Kind) (c : ℕ) (text : List ℕ) (s : ℕ)
        → reached_state (account_after h c) kind text ≡ Some s
        → reached_state h kind text ≡ Some s }
{}

/// If the floor of a history moves up to the end of its first entries, a call for changes from a
/// state that is reached still, one from the kind's new floor position on, is answered as before.
pub fn pages_outlast_a_floor()
    ensures page { (h : History) (kind : Kind) (c from p : ℕ) → FloorsAtMost h.floors h.floor
        → state_at h kind (end_after h c) ≤ from → from ≤ p
        → page_of (moved_up h c) kind from p ≡ page_of h kind from p }
    ensures ends { (h : History) (kind : Kind) (max : Option ℕ) (c from : ℕ)
        → state_at h kind (end_after h c) ≤ from
        → page_end (moved_up h c) kind max from ≡ page_end h kind max from }
    ensures read { (h : History) (kind : Kind) (c : ℕ) (text : List ℕ) (s : ℕ)
        → FloorsAtMost h.floors h.floor → reached_state (moved_up h c) kind text ≡ Some s
        → (reached_state h kind text ≡ Some s) × (state_at h kind (end_after h c) ≤ s) }
    ensures kept { (h : History) (kind : Kind) (c : ℕ) (text : List ℕ) (s : ℕ)
        → reached_state h kind text ≡ Some s → state_at h kind (end_after h c) ≤ s
        → reached_state (moved_up h c) kind text ≡ Some s }
    ensures answer { (h : History) (kind : Kind) (c : ℕ) (text : List ℕ) (max : Option ℤ) (s : ℕ)
        → FloorsAtMost h.floors h.floor → reached_state (moved_up h c) kind text ≡ Some s
        → answer_of (moved_up h c) kind text max ≡ answer_of h kind text max }
{}

// What holds of the log of a history: laws of the definitions, each as the contract of a function
// that does nothing.
ghost use Rattle.std.specs.Prelude.{◌≡◌, ◌++◌, ◌+◌, ◌-◌, ◌<◌, ◌≤◌, [], ℕ, List, length, map, take};
ghost use Rattle.std.specs.List.{All};
ghost use Rattle.jm_base.specs.declared.identifiers.Kind.{Kind};
ghost use Rattle.mail_records.specs.Histories.{Entry, History, Refused, empty_history, end_of, entry_edits, floor_of, grown};
ghost use Rattle.mail_records.specs.States.{AreNamed, AreTouched, Reaches, ids_between, last_position, state_at, state_of};
ghost use Rattle.mail_records.specs.declared.edits.Stamp.{Stamp};
ghost use Rattle.state_log.specs.Logs.{IsLogOf, Notes, ids_in, log_end, note_of, numbers_named};
ghost use Rattle.state_log.specs.Positions.{number_at, positions_of};

/// A log stays that of its history: one without notes is that of a history without entries which
/// begins where it does, and with a note of each edit of an entry it is that of the history with
/// the entry. A refusal and more room change nothing.
pub fn logs_follow_histories()
    ensures begun { (h : History) (l : Notes) → h.entries ≡ [] → l.floor ≡ h.floor → l.floors
        ≡ h.floors → l.notes ≡ [] → IsLogOf h l }
    ensures empty { (l : Notes) → l.floor ≡ 0 → l.floors
        ≡ record { mailbox = 0; email = 0; thread = 0 } → l.notes ≡ [] → IsLogOf empty_history l }
    ensures grown { (h : History) (l m : Notes) (e : Entry) → IsLogOf h l → m
        ≡ record l { notes = l.notes ++ map note_of (entry_edits e); spare = m.spare }
        → IsLogOf (grown h e) m }
    ensures refused { (h : History) (l : Notes) (s : Stamp) → IsLogOf h l
        → IsLogOf (grown h (Refused s)) l }
    ensures reserved { (h : History) (l m : Notes) → IsLogOf h l → m ≡ record l { spare = m.spare }
        → IsLogOf h m }
{}

/// What the log of a history says is what the history says: its end, the states, which states are
/// reached, and the numbers that were touched (RFC 8620, sections 5.1, 5.2 and 5.6).
pub fn logs_tell_histories()
    ensures end { (h : History) (l : Notes) → IsLogOf h l → log_end l ≡ end_of h }
    ensures state { (h : History) (l : Notes) (kind : Kind) → IsLogOf h l
        → last_position kind l.floor l.floors (ids_in l.notes) ≡ state_of h kind }
    ensures state_at { (h : History) (l : Notes) (kind : Kind) (k : ℕ) → IsLogOf h l
        → last_position kind l.floor l.floors (take (k - l.floor) (ids_in l.notes))
        ≡ state_at h kind k }
    ensures reaches { (h : History) (l : Notes) (kind : Kind) (s : ℕ) → IsLogOf h l
        → (floor_of l.floors kind ≤ s) × (s ≤ log_end l) → Reaches h kind s }
    ensures reached { (h : History) (l : Notes) (kind : Kind) (s : ℕ) → IsLogOf h l
        → Reaches h kind s → (floor_of l.floors kind ≤ s) × (s ≤ log_end l) }
    ensures touched { (h : History) (l : Notes) (kind : Kind) (from upto : ℕ) (numbers : List ℕ)
        → IsLogOf h l → AreNamed kind (ids_between l.floor from upto (ids_in l.notes)) numbers
        → AreTouched h kind from upto numbers }
{}

/// The positions of a kind between two positions are positions of notes, and the numbers that the
/// notes there name are those that the edits of the kind between the two positions name, in order.
pub fn positions_name_numbers()
    ensures noted { (l : Notes) (kind : Kind) (from upto : ℕ) → from ≤ upto → upto ≤ log_end l
        → All (λ p. (l.floor < p) × (p ≤ l.floor + length l.notes))
        (positions_of kind (l.floor + (from - l.floor))
        (ids_between l.floor from upto (ids_in l.notes))) }
    ensures numbers { (l : Notes) (kind : Kind) (from upto : ℕ)
        → map (number_at l.floor (ids_in l.notes))
        (positions_of kind (l.floor + (from - l.floor))
        (ids_between l.floor from upto (ids_in l.notes)))
        ≡ numbers_named kind (ids_between l.floor from upto (ids_in l.notes)) }
{}

// The log: a note of each edit after the floor, and the state of each kind.
ghost use Rattle.std.specs.Prelude.{◌≡◌, ◌↔◌, ◌+◌, ◌-◌, ◌++◌, ◌∷◌, [], ℕ, ◌<◌, ◌≤◌, ◌^◌, IsTrue, OnOk, OnErr, IfOk, length, map, take, drop, slice_index_or};
ghost use Rattle.jm_base.specs.declared.identifiers.Kind.TheVariants.{Mailbox as OfMailbox, Email as OfEmail, Thread as OfThread};
ghost use Rattle.mail_records.specs.FloorMoves.{moved_up};
ghost use Rattle.mail_records.specs.Histories.{History, end_after, floor_of};
ghost use Rattle.mail_records.specs.States.{AreNamed, ids_between, last_position};
ghost use Rattle.state_log.specs.Logs.{IsLogOf, edit_before, ids_in, log_end, note_of, threads_named};
ghost use Rattle.state_log.specs.Positions.{positions_of};
ghost use Rattle.state_log.specs.declared.notes.Note.{Note as TheNote};

use crate::Note;
use crate::kind_positions::{KindPositions, cut_front, last_or};
use crate::notes::note_of;
use crate::touched::{collect_numbers_at, find_last_naming};
use jm_base::{Kind, NoMemory, Numbers, put_in_order};
use mail_records::Edit;
use std::alloc::Global;
use std::marker::Model;

// A position of each kind of record.
#[derive(Clone, Copy)]
struct Positions {
    mailbox: u64,
    email: u64,
    thread: u64,
}

/// The log of an account. Contracts see its floor, each kind's position there, the notes of the
/// edits since, and `spare`: for how many more notes room is reserved.
#[derive(Drop)]
pub struct Log {
    floor: u64,
    floors: Positions,
    notes: Vec<Note>,
    places: KindPositions,
}

impl Model for Log {
    ghost use Rattle.std.specs.Prelude.{◌-◌, min, vec_len, vec_capacity};
    ghost use Rattle.state_log.specs.Logs.{Notes, Keeps};

    ghost Value = { Notes };

    ghost view = { λ l. record {
      floor = l.floor;
      floors = record {
        mailbox = l.floors.mailbox;
        email = l.floors.email;
        thread = l.floors.thread;
      };
      notes = l.notes.items;
      spare = min (vec_capacity l.notes - vec_len l.notes) l.places.spare;
    } };

    ghost invariant = { λ l. Keeps l.floor
        (record { mailbox = l.floors.mailbox; email = l.floors.email; thread = l.floors.thread })
        l.notes.items
        l.places };
}

// Returns the position of a kind.
fn find_kind_position(positions: &Positions, kind: Kind) -> u64
    ensures { result ≡ floor_of (record {
      mailbox = positions.now.mailbox;
      email = positions.now.email;
      thread = positions.now.thread;
    }) kind }
{
    match kind {
        Kind::Mailbox => positions.mailbox,
        Kind::Email => positions.email,
        Kind::Thread => positions.thread,
    }
}

impl Log {
    /// Returns a log without notes that begins at this floor, with the positions of the kinds
    /// there. Allocates nothing.
    pub fn new(alloc: Global, floor: u64, mailbox: u64, email: u64, thread: u64) -> Log
        requires { (mailbox ≤ floor) × (email ≤ floor) × (thread ≤ floor) }
        ensures floor { result.floor ≡ floor }
        ensures floors { result.floors ≡ record
            { mailbox = mailbox; email = email; thread = thread } }
        ensures notes { result.notes ≡ [] }
    {
        let floors = Positions {
            mailbox,
            email,
            thread,
        };
        Log {
            floor,
            floors,
            notes: Vec::new(alloc),
            places: KindPositions::new(alloc),
        }
    }

    /// Returns the last position.
    pub fn end(&self) -> u64
        ensures { result ≡ log_end self.now }
    {
        self.floor + self.notes.len() as u64
    }

    /// Returns the state of a kind: the position of its last edit, else its position at the floor.
    pub fn state_of(&self, kind: Kind) -> u64
        ensures state { result ≡ last_position kind self.now.floor self.now.floors
            (ids_in self.now.notes) }
        ensures reached { (floor_of self.now.floors kind ≤ result) × (result ≤ log_end self.now) }
    {
        last_or(
            self.places.of_kind(kind),
            find_kind_position(&self.floors, kind),
        )
    }

    /// Returns the state of a kind at a position: the position of its last edit up to there, else
    /// its position at the floor.
    pub fn state_at(&self, kind: Kind, position: u64) -> u64
        ensures state { result ≡ last_position kind self.now.floor self.now.floors
            (take (position - self.now.floor) (ids_in self.now.notes)) }
        ensures reached { (floor_of self.now.floors kind ≤ result) × (result ≤ log_end self.now) }
    {
        let floor = find_kind_position(&self.floors, kind);
        self.places.find_last_upto(kind, position, floor)
    }

    // Lends the notes of the edits up to a position.
    fn find_notes_upto(&self, position: u64) -> &[Note]
        ensures { result.now ≡ take (position - self.now.floor) self.now.notes }
    {
        let count = position.saturating_sub(self.floor);
        if count >= self.notes.len() as u64 {
            return self.notes.as_slice();
        }
        &self.notes[..count as usize]
    }

    /// Returns whether all edits of a kind after a position are known: the position is from the
    /// kind's position at the floor to the end.
    pub fn reaches(&self, kind: Kind, position: u64) -> bool
        ensures { IsTrue result ↔ ((floor_of self.now.floors kind ≤ position)
            × (position ≤ log_end self.now)) }
    {
        find_kind_position(&self.floors, kind) <= position && position <= self.end()
    }

    /// Returns the numbers that the edits of a kind after one position, and up to another, name, in
    /// number order.
    pub fn touched(
        &self,
        alloc: Global,
        kind: Kind,
        from: u64,
        upto: u64,
    ) -> Result<Numbers, NoMemory>
        requires order { from ≤ upto }
        requires within { upto ≤ log_end self.now }
        ensures { IfOk result (AreNamed kind (ids_between self.now.floor from upto
            (ids_in self.now.notes))) }
    {
        let positions = self.positions_between(kind, from, upto);
        let mut numbers = collect_numbers_at(alloc, &self.notes, self.floor, positions)?;
        put_in_order(&mut numbers);
        Ok(Numbers::from_vec(numbers))
    }

    /// Lends the positions of the edits of a kind after one position, up to another, in order.
    pub fn positions_between(&self, kind: Kind, from: u64, upto: u64) -> &[u64]
        requires order { from ≤ upto }
        requires within { upto ≤ log_end self.now }
        ensures { result.now ≡ positions_of kind
            (self.now.floor + (from - self.now.floor))
            (ids_between self.now.floor from upto (ids_in self.now.notes)) }
    {
        self.places.positions_between(kind, from, upto)
    }

    /// Lends the threads of the emails that the edits after one position, up to another, name, in
    /// the order of the edits.
    pub fn threads_between(&self, from: u64, upto: u64) -> &[u64]
        requires order { from ≤ upto }
        requires within { upto ≤ log_end self.now }
        ensures { result.now ≡ threads_named (drop (from - self.now.floor)
            (take (upto - self.now.floor) self.now.notes)) }
    {
        self.places.threads_between(from, upto)
    }

    /// Lends the notes of the edits after one position, up to another, in order.
    pub fn find_notes_between(&self, from: u64, upto: u64) -> &[Note]
        requires order { from ≤ upto }
        requires within { upto ≤ log_end self.now }
        ensures { result.now ≡ drop (from - self.now.floor)
            (take (upto - self.now.floor) self.now.notes) }
    {
        let first = from.saturating_sub(self.floor) as usize;
        let notes = self.find_notes_upto(upto);
        &notes[first..]
    }

    /// Returns the note of the edit at a position above the floor.
    pub fn note(&self, position: u64) -> Note
        requires above { self.now.floor < position }
        requires within { position ≤ log_end self.now }
        ensures { (d : TheNote) → result ≡ slice_index_or self.now.notes
            (position - self.now.floor - 1) d }
    {
        self.notes[(position - self.floor - 1) as usize]
    }

    /// Returns the position of the last edit before the one at a position that names the same
    /// record, or 0 if none after the floor does. It looks back over the edits of the kind.
    pub fn find_edit_before(&self, position: u64) -> u64
        requires above { self.now.floor < position }
        requires within { position ≤ log_end self.now }
        ensures { (d : TheNote) → result ≡ edit_before self.now
            (slice_index_or self.now.notes (position - self.now.floor - 1) d) position }
    {
        let note = self.note(position);
        let positions = self.positions_between(note.kind, self.floor, position - 1);
        find_last_naming(&self.notes, self.floor, positions, note.number)
    }

    /// Makes room for notes of these edits. If an allocation fails, all but the room is
    /// as before.
    pub fn reserve(&mut self, edits: &[Edit]) -> Result<(), NoMemory>
        ensures same { self.new ≡ record self.old { spare = self.new.spare } }
        ensures spare { OnOk result (length edits.now ≤ self.new.spare) }
        ensures no_less { self.old.spare ≤ self.new.spare }
    {
        self.notes.reserve(edits.len())?;
        self.places.reserve(edits.len())?;
        Ok(())
    }

    /// Adds a note of an edit. If an allocation fails, all but the room is as before.
    pub fn push(&mut self, edit: &Edit) -> Result<(), NoMemory>
        requires { log_end self.old + 1 < 2 ^ 64 }
        ensures ok { OnOk result (self.new ≡ record self.old
            { notes = self.old.notes ++ note_of edit.now ∷ []; spare = self.new.spare }) }
        ensures err { OnErr result (self.new ≡ record self.old { spare = self.new.spare }) }
    {
        self.notes.reserve(1)?;
        self.places.reserve(1)?;
        self.note_ready(edit);
        Ok(())
    }

    /// Adds a note of an edit, for which room is reserved. Allocates nothing.
    pub fn push_ready(&mut self, edit: Edit)
        requires room { 1 ≤ self.old.spare }
        requires short { log_end self.old + 1 < 2 ^ 64 }
        ensures pushed { self.new ≡ record self.old
            { notes = self.old.notes ++ note_of edit ∷ []; spare = self.new.spare } }
        ensures spare { self.old.spare ≤ self.new.spare + 1 }
    {
        self.note_ready(&edit);
    }

    /// Adds a note of an edit that is lent, for which room is reserved. Allocates nothing.
    pub fn note_ready(&mut self, edit: &Edit)
        requires room { 1 ≤ self.old.spare }
        requires short { log_end self.old + 1 < 2 ^ 64 }
        ensures pushed { self.new ≡ record self.old
            { notes = self.old.notes ++ note_of edit.now ∷ []; spare = self.new.spare } }
        ensures spare { self.old.spare ≤ self.new.spare + 1 }
    {
        let note = note_of(edit);
        let position = self.floor + self.notes.len() as u64 + 1;
        self.places.push_ready(&note, position);
        self.notes.push_reserved(note);
    }

    /// Moves the floor up to a position: what was up to there is forgotten, but for the position of
    /// each kind there. Allocates nothing.
    pub fn move_floor(&mut self, floor: u64)
        requires later { self.old.floor ≤ floor }
        requires within { floor ≤ log_end self.old }
        ensures moved { self.new ≡ record {
          floor = floor;
          floors = record {
            mailbox = last_position OfMailbox self.old.floor self.old.floors
                (take (floor - self.old.floor) (ids_in self.old.notes));
            email = last_position OfEmail self.old.floor self.old.floors
                (take (floor - self.old.floor) (ids_in self.old.notes));
            thread = last_position OfThread self.old.floor self.old.floors
                (take (floor - self.old.floor) (ids_in self.old.notes));
          };
          notes = drop (floor - self.old.floor) self.old.notes;
          spare = self.new.spare;
        } }
        ensures spare { self.old.spare ≤ self.new.spare }
        ensures history { (h : History) (c : ℕ) → IsLogOf h self.old → floor ≡ end_after h c
            → IsLogOf (moved_up h c) self.new }
    {
        let floors = Positions {
            mailbox: self.state_at(Kind::Mailbox, floor),
            email: self.state_at(Kind::Email, floor),
            thread: self.state_at(Kind::Thread, floor),
        };
        let count = (floor - self.floor) as usize;
        self.floors = floors;
        self.floor = floor;
        self.places.drop_upto(floor);
        cut_front(&mut self.notes, count);
    }
}

/// Adds notes of edits in order, for which room is reserved. Allocates nothing.
pub fn note_all_ready(log: &mut Log, edits: &[Edit])
    requires room { length edits.now ≤ log.old.spare }
    requires short { log_end log.old + length edits.now < 2 ^ 64 }
    ensures noted { log.new ≡ record log.old {
      notes = log.old.notes ++ map note_of edits.now;
      spare = log.new.spare;
    } }
    ensures spare { log.old.spare ≤ log.new.spare + length edits.now }
{
    for edit in edits {
        log.note_ready(edit);
    }
}

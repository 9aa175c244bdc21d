// What a log keeps of an edit.
ghost use Rattle.std.specs.Prelude.{◌≡◌, false, true};
ghost use Rattle.mail_records.specs.States.{is_kind};
ghost use Rattle.state_log.specs.Logs.{HasThread, note_of};

use jm_base::Kind;
use mail_records::Edit;

/// What an edit names, and how.
#[derive(Clone, Copy, Debug, PartialEq, Eq)]
pub struct Note {
    /// The kind of the record that the edit puts or drops.
    pub kind: Kind,
    /// That record's number.
    pub number: u64,
    /// The thread that the edit names, if the record is an email.
    pub thread: Option<u64>,
    /// Whether the edit puts the record.
    pub put: bool,
    /// Whether the record was there before, as it is before a drop.
    pub was: bool,
    /// Whether the edit changes only the counts of a mailbox.
    pub counts: bool,
}

// Returns the note of an edit that puts a record.
fn put_note(kind: Kind, number: u64, thread: Option<u64>, was: bool, counts: bool) -> Note
    ensures { result ≡ record {
      kind = kind;
      number = number;
      thread = thread;
      put = true;
      was = was;
      counts = counts;
    } }
{
    Note {
        kind,
        number,
        thread,
        put: true,
        was,
        counts,
    }
}

// Returns the note of an edit that drops a record.
fn drop_note(kind: Kind, number: u64, thread: Option<u64>) -> Note
    ensures { result ≡ record {
      kind = kind;
      number = number;
      thread = thread;
      put = false;
      was = true;
      counts = false;
    } }
{
    Note {
        kind,
        number,
        thread,
        put: false,
        was: true,
        counts: false,
    }
}

/// Returns the note of an edit.
pub fn note_of(edit: &Edit) -> Note
    ensures value { result ≡ note_of edit.now }
    ensures named { HasThread result }
{
    match edit {
        Edit::PutMailbox { item, was, counts } => {
            put_note(Kind::Mailbox, item.number, None, *was, *counts)
        }
        Edit::DropMailbox { number } => drop_note(Kind::Mailbox, *number, None),
        Edit::PutEmail { item, was } => {
            put_note(Kind::Email, item.number, Some(item.thread), *was, false)
        }
        Edit::DropEmail { number, thread } => drop_note(Kind::Email, *number, Some(*thread)),
        Edit::PutThread { item, was } => put_note(Kind::Thread, item.number, None, *was, false),
        Edit::DropThread { number } => drop_note(Kind::Thread, *number, None),
    }
}

/// Returns whether a note is of a kind.
pub fn is_of(note: &Note, kind: Kind) -> bool
    ensures { result ≡ is_kind kind note.now.kind }
{
    note.kind == kind
}

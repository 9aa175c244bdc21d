// The simplest value with a history, and one turn at it: the value that the tests lock.
ghost use Rattle.std.specs.Prelude.{◌≡◌, ◌++◌, ◌∷◌, [], false, OnOk, OnErr, map};
ghost use Rattle.mail_records.specs.Histories.{Refused};
ghost use Rattle.account_lock.specs.Entries.{StartsWith};

use crate::{AccountLock, AccountView, Pass};
use jm_base::NoMemory;
use mail_records::Stamp;
use std::alloc::Global;
use std::marker::Model;
use std::sync::Wait;

/// A list of stamps, each of which is the entry of a refused change. It has no entries before its
/// start.
#[derive(Drop)]
pub struct Diary {
    stamps: Vec<Stamp>,
}

impl Model for Diary {
    ghost use Rattle.std.specs.Prelude.{List, map};
    ghost use Rattle.mail_records.specs.Histories.{Entry, Refused};

    ghost Value = { List Entry };

    ghost view = { λ d. map Refused d.stamps.items };
}

impl AccountView for Diary {
    ghost use Rattle.mail_records.specs.Histories.{empty_history};

    ghost entries = { λ d. d };

    ghost before = { λ d. 0 };

    ghost opening = { λ d. empty_history };
}

impl Diary {
    /// Returns a diary with no entry.
    pub fn new(alloc: Global) -> Diary
        ensures { result ≡ [] }
    {
        Diary {
            stamps: Vec::new(alloc),
        }
    }

    /// Lends its stamps, oldest first.
    pub fn stamps(&self) -> &[Stamp]
        ensures { map Refused result.now ≡ self.now }
    {
        self.stamps.as_slice()
    }

    // Adds an entry with this stamp.
    fn enter(&mut self, stamp: Stamp) -> Result<(), NoMemory>
        ensures ok { OnOk result (self.new ≡ self.old ++ Refused stamp ∷ []) }
        ensures err { OnErr result (self.new ≡ self.old) }
    {
        self.stamps.reserve(1)?;
        self.stamps.push_reserved(stamp);
        Ok(())
    }
}

/// Waits for the diary, enters a stamp of the pass's name with this serial number, and gives the
/// diary back. If memory runs out, no stamp is entered.
pub fn enter_in_turn<R: Wait>(
    rt: &R,
    lock: &AccountLock<Diary>,
    pass: &mut Pass,
    serial: u64,
) -> Result<(), NoMemory>
    requires lock { pass.old.lock ≡ lock.now.id }
    requires free { (pass.old.root ≡ false) × (pass.old.holds ≡ false) }
    ensures same { pass.new ≡ record pass.old {
      last = pass.new.last;
      seen = pass.new.seen;
      own = pass.new.own;
    } }
    ensures seen { StartsWith pass.new.seen pass.old.seen }
    ensures ok { OnOk result (pass.new.own ≡ pass.old.own ++ Refused record { pass = pass.old.name; serial = serial } ∷ []) }
    ensures err { OnErr result (pass.new.own ≡ pass.old.own) }
{
    let mut diary = lock.take(rt, pass);
    let name = pass.name();
    let entered = diary.enter(Stamp { pass: name, serial });
    lock.give(pass, diary);
    entered
}

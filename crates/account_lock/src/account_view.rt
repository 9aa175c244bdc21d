// What contracts see of the value that a lock guards.

/// What contracts see of a value with a history. The trait has no calls: the lock only moves the
/// value, and its contracts speak of these members.
pub trait AccountView: Drop {
    ghost use Rattle.std.specs.Prelude.{List, ℕ};
    ghost use Rattle.mail_records.specs.Histories.{Entry, History};

    /// The entries since the value's start, in order. The pass in an entry's stamp is the name of a
    /// pass of the lock.
    ghost entries: { Self → List Entry };

    /// How many entries there were before its start.
    ghost before: { Self → ℕ };

    /// What the value opened with, which its holders never change.
    ghost opening: { Self → History };
}

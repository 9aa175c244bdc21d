// The outside of a server.
ghost use Rattle.std.specs.Prelude.{◌≡◌, ◌≤◌, ◌+◌, ◌-◌, ◌^◌, [], ◌∷◌, min, List, ℕ, Option, IfOk};
ghost use Rattle.jm_edge.specs.Causes.{IsCounted};
ghost use Rattle.jmap_server.specs.Deeds.{Deed, GaveClock, GaveGate, GaveKeeper, GaveLine, GotKeeper, GotLine, IsTold, Listened, ReadText, deed_if, lent_for};

use crate::finished::Finished;
use jm_base::{Bytes, Text};
use jm_edge::{Clock, EdgeFault, Gate, Link};
use keep_port::Keeper;
use std::alloc::Global;

/// The outside of a server: the files that it reads, the keepers of its accounts, the lines on
/// which it is asked, clocks and gates.
///
/// A call returns `Failed` only if the world's count of faults rose in that call. Contracts see
/// what a world gave, as it was then, and what came back, if the world exposes it.
pub trait World: Drop {
    type Keep: Keeper;

    type Line: Link;

    type Time: Clock;

    type Hold: Gate;

    /// What the world gave and took back, oldest first, if it exposes that.
    ghost told: { Self → Option (List (Deed Self.Keep Self.Line Self.Time)) };

    /// How often the world itself has failed. It never falls.
    ghost faults: { Self → ℕ };

    /// How often `load` has failed of the keepers that came back. It never falls.
    ghost load_faults: { Self → ℕ };

    /// Returns the bytes of the file with a name.
    fn text(&mut self, alloc: Global, name: &Text) -> Result<Bytes, EdgeFault>
        ensures told { IsTold (told self.old) (told self.new)
            (deed_if result (λ bytes. ReadText name.now bytes)) }
        ensures cause { IsCounted (faults self.old) (faults self.new) result }
        ensures later { faults self.old ≤ faults self.new }
        ensures load_count { load_faults self.new ≡ load_faults self.old };

    /// Returns the keeper of an account in a folder. Its counts of faults are 0.
    fn keeper(
        &mut self,
        alloc: Global,
        folder: &Text,
        account: &Text,
    ) -> Result<Self::Keep, EdgeFault>
        ensures told { IsTold (told self.old) (told self.new)
            (deed_if result (λ k. GaveKeeper folder.now (lent_for account.now k))) }
        ensures unfailed { IfOk result (λ k. Self.Keep.load_faults k ≡ 0) }
        ensures cause { IsCounted (faults self.old) (faults self.new) result }
        ensures later { faults self.old ≤ faults self.new }
        ensures load_count { load_faults self.new ≡ load_faults self.old };

    /// Begins to listen on a port of TCP.
    fn listen(&mut self, alloc: Global, port: u16) -> Result<(), EdgeFault>
        ensures told { IsTold (told self.old) (told self.new)
            (deed_if result (λ _. Listened port)) }
        ensures cause { IsCounted (faults self.old) (faults self.new) result }
        ensures later { faults self.old ≤ faults self.new }
        ensures load_count { load_faults self.new ≡ load_faults self.old };

    /// Waits for a connection, and returns it.
    fn line(&mut self, alloc: Global) -> Result<Self::Line, EdgeFault>
        ensures told { IsTold (told self.old) (told self.new)
            (deed_if result (λ line. GaveLine line)) }
        ensures cause { IsCounted (faults self.old) (faults self.new) result }
        ensures later { faults self.old ≤ faults self.new }
        ensures load_count { load_faults self.new ≡ load_faults self.old };

    /// Returns a clock.
    fn clock(&mut self) -> Self::Time
        ensures told { IsTold (told self.old) (told self.new) (GaveClock result ∷ []) }
        ensures count { faults self.new ≡ faults self.old }
        ensures load_count { load_faults self.new ≡ load_faults self.old };

    /// Returns a gate.
    fn gate(&mut self) -> Self::Hold
        ensures told { IsTold (told self.old) (told self.new) (GaveGate ∷ []) }
        ensures count { faults self.new ≡ faults self.old }
        ensures load_count { load_faults self.new ≡ load_faults self.old };

    /// Takes back a line that was served.
    fn return_line(&mut self, finished: Finished<Self::Line>)
        ensures told { IsTold (told self.old) (told self.new) (GotLine finished ∷ []) }
        ensures count { faults self.new ≡ faults self.old }
        ensures load_count { load_faults self.new ≡ load_faults self.old };

    /// Takes back the keeper of an account, and counts how often its `load` failed.
    fn return_keeper(&mut self, account: &Text, keeper: Self::Keep)
        ensures told { IsTold (told self.old) (told self.new)
            (GotKeeper (lent_for account.now keeper) ∷ []) }
        ensures count { faults self.new ≡ faults self.old }
        ensures later { load_faults self.old ≤ load_faults self.new }
        ensures load_count { load_faults self.new
            ≡ min (load_faults self.old + Self.Keep.load_faults keeper) (2 ^ 64 - 1) };
}

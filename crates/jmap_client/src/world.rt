// The outside of a client.
ghost use Rattle.std.specs.Prelude.{◌≡◌, ◌≤◌, ◌+◌, ◌-◌, ◌^◌, [], ◌∷◌, min, List, ℕ, Option, IfOk};
ghost use Rattle.jm_edge.specs.Causes.{IsCounted};
ghost use Rattle.jmap_client.specs.ClientDeeds.{ClientDeed, GaveStore, GaveTalk, GotStore, GotTalk, IsTold, deed_if};

use jm_base::Text;
use jm_edge::{EdgeFault, Exchange, Shelf};
use std::alloc::Global;

/// The outside of a client: the exchanges by which it asks servers, and the shelves of its files.
///
/// A call returns `Failed` only if the world's count of faults rose in that call. Contracts see
/// what a world gave, as it was then, and what came back, if the world exposes it.
pub trait ClientWorld: Drop {
    type Talk: Exchange;

    type Store: Shelf;

    /// What the world gave and took back, oldest first, if it exposes that.
    ghost told: { Self → Option (List (ClientDeed Self.Talk Self.Store)) };

    /// How often the world itself has failed. It never falls.
    ghost faults: { Self → ℕ };

    /// How often `ask` has failed of the exchanges that came back. It never falls.
    ghost talk_faults: { Self → ℕ };

    /// How often `load` and `save` have failed of the shelves that came back. It never falls.
    ghost store_faults: { Self → ℕ };

    /// Returns an exchange with the server at a port of a host, which is asked with the token as
    /// its bearer (RFC 6750, section 2.1). Its count of faults is 0.
    fn talk(
        &mut self,
        alloc: Global,
        host: &Text,
        port: u16,
        token: &Text,
    ) -> Result<Self::Talk, EdgeFault>
        ensures told { IsTold (told self.old) (told self.new)
            (deed_if result (λ x. GaveTalk host.now port token.now x)) }
        ensures unfailed { IfOk result (λ x. Self.Talk.faults x ≡ 0) }
        ensures cause { IsCounted (faults self.old) (faults self.new) result }
        ensures later { faults self.old ≤ faults self.new }
        ensures talk_count { talk_faults self.new ≡ talk_faults self.old }
        ensures store_count { store_faults self.new ≡ store_faults self.old };

    /// Returns the shelf of the file of a name. Its counts of faults are 0.
    fn store(&mut self, alloc: Global, name: &Text) -> Result<Self::Store, EdgeFault>
        ensures told { IsTold (told self.old) (told self.new)
            (deed_if result (λ f. GaveStore name.now f)) }
        ensures unfailed_load { IfOk result (λ f. Self.Store.load_faults f ≡ 0) }
        ensures unfailed_save { IfOk result (λ f. Self.Store.save_faults f ≡ 0) }
        ensures cause { IsCounted (faults self.old) (faults self.new) result }
        ensures later { faults self.old ≤ faults self.new }
        ensures talk_count { talk_faults self.new ≡ talk_faults self.old }
        ensures store_count { store_faults self.new ≡ store_faults self.old };

    /// Takes back an exchange, and counts how often it failed.
    fn return_talk(&mut self, talk: Self::Talk)
        ensures told { IsTold (told self.old) (told self.new) (GotTalk talk ∷ []) }
        ensures count { faults self.new ≡ faults self.old }
        ensures later { talk_faults self.old ≤ talk_faults self.new }
        ensures talk_count { talk_faults self.new
            ≡ min (talk_faults self.old + Self.Talk.faults talk) (2 ^ 64 - 1) }
        ensures store_count { store_faults self.new ≡ store_faults self.old };

    /// Takes back the shelf of the file of a name, and counts how often it failed.
    fn return_store(&mut self, name: &Text, store: Self::Store)
        ensures told { IsTold (told self.old) (told self.new) (GotStore name.now store ∷ []) }
        ensures count { faults self.new ≡ faults self.old }
        ensures talk_count { talk_faults self.new ≡ talk_faults self.old }
        ensures later { store_faults self.old ≤ store_faults self.new }
        ensures store_count { store_faults self.new ≡ min (store_faults self.old
            + (Self.Store.load_faults store + Self.Store.save_faults store)) (2 ^ 64 - 1) };
}

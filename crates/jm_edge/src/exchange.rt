// What a client asks a server by.
ghost use Rattle.std.specs.Prelude.{List, ℕ, Option, option_map};
ghost use Rattle.jm_edge.specs.Causes.{IsCounted};
ghost use Rattle.jm_edge.specs.Exchanges.{Tells};
ghost use Rattle.jm_edge.specs.declared.answer.Asked.{Asked};

use crate::{Answer, EdgeFault};
use std::alloc::Global;

/// Requests of a client to one server, each answered before the next one. A call returns `Failed`
/// only if the count of faults rose in that call; `Ok` and `NoMemory` raise no count.
pub trait Exchange: Drop {
    /// What was asked and answered, in order, if the exchange exposes it.
    ghost told: { Self → Option (List Asked) };

    /// How often `ask` has failed. The count never falls.
    ghost faults: { Self → ℕ };

    /// Makes a request to this path, and returns what was answered: a GET if there is no body, and
    /// a POST if there is one, of JSON (RFC 9110, section 9.3). After an error nothing counts as
    /// asked, though the server may have performed the request.
    fn ask(&mut self, alloc: Global, path: &[u8], body: Option<&[u8]>) -> Result<Answer, EdgeFault>
        ensures told { Tells (told self.old) (told self.new) path.now
            (option_map (λ b. b.now) body.entry) result }
        ensures cause { IsCounted (faults self.old) (faults self.new) result };
}

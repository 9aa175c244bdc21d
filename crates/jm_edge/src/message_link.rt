// A WebSocket connection: messages that arrive, and messages that are sent (RFC 6455).
ghost use Rattle.std.specs.Prelude.{◌≡◌, List, ℕ, Option, MatchResult};
ghost use Rattle.jm_edge.specs.declared.arrival.Arrival.{Arrival};
ghost use Rattle.jm_edge.specs.declared.arrival.Sent.{Sent};
ghost use Rattle.jm_edge.specs.declared.arrival.Sent.TheVariants.{Text as text_sent, Close as close_sent};
ghost use Rattle.jm_edge.specs.Causes.{IsCounted};
ghost use Rattle.jm_edge.specs.Sockets.{Origin, Arrives, Sends};

use crate::{Arrival, EdgeFault};
use std::alloc::Global;

/// A WebSocket connection. Looking and sending have counts of faults of their own, and neither
/// changes what is known of the other. Each call returns `Failed` only if its count rose in that
/// call; `Ok` and `NoMemory` raise no count.
pub trait MessageLink: Drop + Send {
    /// What is still to arrive, where the socket exposes it.
    ghost coming: { Self → Option (List Arrival) };

    /// What was sent, where the socket exposes it.
    ghost sent: { Self → Option (List Sent) };

    /// The bytes of the link that the socket was made from, where that link exposed them.
    ghost origin: { Self → Option Origin };

    /// How often `next` has failed. The count never falls.
    ghost read_faults: { Self → ℕ };

    /// How often `send` or `close` has failed. The count never falls.
    ghost send_faults: { Self → ℕ };

    /// Looks for a message, and returns what arrived: the first of what is still to arrive, and
    /// `Closed` if nothing is. `Quiet` comes only if no complete message was there at this look.
    /// After an error nothing has arrived.
    fn next(&mut self, alloc: Global) -> Result<Arrival, EdgeFault>
        ensures arrival { MatchResult result (λ a. Arrives (coming self.old) (coming self.new) a)
            (λ _. coming self.new ≡ coming self.old) }
        ensures cause { IsCounted (read_faults self.old) (read_faults self.new) result }
        ensures sent { sent self.new ≡ sent self.old }
        ensures send_faults { send_faults self.new ≡ send_faults self.old }
        ensures origin { origin self.new ≡ origin self.old };

    /// Sends a text message. After an error it does not count as sent. Text that is not UTF-8
    /// cannot be sent over a real socket (RFC 6455, section 5.6).
    fn send(&mut self, alloc: Global, text: &[u8]) -> Result<(), EdgeFault>
        ensures sent { Sends (sent self.old) (sent self.new) (text_sent text.now) result }
        ensures cause { IsCounted (send_faults self.old) (send_faults self.new) result }
        ensures coming { coming self.new ≡ coming self.old }
        ensures read_faults { read_faults self.new ≡ read_faults self.old }
        ensures origin { origin self.new ≡ origin self.old };

    /// Closes the connection with this status code (RFC 6455, section 7.4). After an error the
    /// close does not count as sent.
    fn close(&mut self, alloc: Global, code: u16) -> Result<(), EdgeFault>
        ensures sent { Sends (sent self.old) (sent self.new) (close_sent code) result }
        ensures cause { IsCounted (send_faults self.old) (send_faults self.new) result }
        ensures coming { coming self.new ≡ coming self.old }
        ensures read_faults { read_faults self.new ≡ read_faults self.old }
        ensures origin { origin self.new ≡ origin self.old };

    /// Tells the other side that nothing more will be sent, so that what was sent arrives before
    /// the connection is dropped. What contracts see of the socket stays as it is, and a fault is
    /// not counted.
    fn finish(&mut self)
        ensures coming { coming self.new ≡ coming self.old }
        ensures sent { sent self.new ≡ sent self.old }
        ensures origin { origin self.new ≡ origin self.old }
        ensures read_faults { read_faults self.new ≡ read_faults self.old }
        ensures send_faults { send_faults self.new ≡ send_faults self.old }
    {}
}

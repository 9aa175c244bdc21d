// What answers for the users of a server.
ghost use Rattle.std.specs.Prelude.{◌≡◌, ◌≤◌, IfOk, OnErr};
ghost use Rattle.jm_base.specs.declared.utc_dates.TheConstants.{LAST_TIMESTAMP};
ghost use Rattle.jmap_http.specs.Steps.{OwnSteps};

use crate::port::{AccountStates, Stored};
use jm_base::{Bytes, NoMemory};
use method_batch::Port;
use std::alloc::Global;

/// What answers for the users of a server: their calls, as a [`Port`], and their uploads and
/// downloads. It answers for one user at a time, the one whose request began last. Its meaning is
/// relations between states, as that of a port is.
pub trait UserPort: Port {
    /// The steps of the port beside its calls: from the first state that may be done, which leaves
    /// the second state.
    ghost steps: { OwnSteps Self };

    /// Begins a request of a user, by the user's index in the configuration, at a timestamp.
    fn begin(&mut self, user: u64, time: u64)
        requires in_range { time ≤ LAST_TIMESTAMP }
        ensures begun { steps.begins self.old user time self.new };

    /// Uploads bytes to the account with a number. If that ends out of memory, the port is in a
    /// state in which `upload_stops` allows an upload to leave it.
    fn upload(&mut self, alloc: Global, account: u64, bytes: Bytes) -> Result<Stored, NoMemory>
        ensures answer { IfOk result
            (λ stored. steps.uploads self.old account bytes stored self.new) }
        ensures stopped { OnErr result (steps.upload_stops self.old account bytes self.new) };

    /// Returns the bytes that an identifier of a blob or of a leaf names in the account with a
    /// number. If that ends out of memory, the port is in a state in which `read_stops` allows a
    /// reading to leave it.
    fn read_blob(
        &mut self,
        alloc: Global,
        account: u64,
        blob: &[u8],
    ) -> Result<Option<Bytes>, NoMemory>
        ensures answer { IfOk result (λ o. steps.reads self.old account blob.now o self.new) }
        ensures stopped { OnErr result (steps.read_stops self.old account blob.now self.new) };

    /// Returns the states of the account with a number, or None if it doesn't tell them. If that
    /// ends out of memory, the port is in a state in which `look_stops` allows it to leave it.
    fn read_states(
        &mut self,
        alloc: Global,
        account: u64,
    ) -> Result<Option<AccountStates>, NoMemory>
        ensures answer { IfOk result (λ o. steps.looks self.old account o self.new) }
        ensures stopped { OnErr result (steps.look_stops self.old account self.new) };
}

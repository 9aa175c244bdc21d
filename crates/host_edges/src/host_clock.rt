// The system's clock. Its timestamps are not exposed to contracts.
use jm_base::LAST_TIMESTAMP;
use jm_edge::Clock;
use std::time::{SystemTime, UNIX_EPOCH};

/// The clock of the host. Where it can't be read, or is set before 1970, it shows 0.
#[derive(Drop)]
pub struct HostClock {
    rt: HostRuntime,
}

impl HostClock {
    /// Returns the clock of this host.
    pub fn new(rt: &HostRuntime) -> HostClock {
        HostClock { rt: *rt }
    }
}

impl Clock for HostClock {
    ghost use Rattle.std.specs.Prelude.{None};

    ghost times = { λ _. None };

    fn now(&mut self) -> u64 {
        match SystemTime::now(&self.rt) {
            Ok(time) => match time.duration_since(UNIX_EPOCH) {
                Ok(since) => since.as_secs().min(LAST_TIMESTAMP),
                Err(_) => 0,
            },
            Err(_) => 0,
        }
    }
}

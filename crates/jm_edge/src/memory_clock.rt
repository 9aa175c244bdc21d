// A clock in memory.
ghost use Rattle.std.specs.Prelude.{◌≡◌, ◌≤◌, [], Some, map, drop};
ghost use Rattle.jm_base.specs.declared.utc_dates.TheConstants.{LAST_TIMESTAMP};
ghost use Rattle.jm_edge.specs.Clocks.{Shows};
ghost use Rattle.jm_edge.specs.Memory.{in_range, time_of};

use crate::Clock;
use jm_base::{LAST_TIMESTAMP, Numbers};
use std::marker::Model;

/// A clock that shows listed timestamps, one a call, and after these always the same one.
#[derive(Drop)]
pub struct MemoryClock {
    times: Numbers,
    at: usize,
    rest: u64,
}

impl Model for MemoryClock {
    ghost use Rattle.std.specs.Prelude.{◌≤◌, drop, length};
    ghost use Rattle.jm_edge.specs.Memory.{Timetable};

    ghost Value = { Timetable };

    ghost view = { λ c. record { next = drop c.at c.times; rest = c.rest } };

    ghost invariant = { λ c. c.at ≤ length c.times };
}

impl MemoryClock {
    /// Returns a clock that shows these timestamps, in seconds since the beginning of 1970, and
    /// after them always `rest`. A timestamp past the year 9999 counts as that year's last second.
    pub fn new(times: Numbers, rest: u64) -> MemoryClock
        ensures { result ≡ record { next = times; rest = rest } }
    {
        MemoryClock { times, at: 0, rest }
    }
}

impl Clock for MemoryClock {
    ghost use Rattle.std.specs.Prelude.{Some, map};
    ghost use Rattle.jm_edge.specs.Memory.{in_range};

    ghost times = { λ c. Some (map in_range c.next) };

    fn now(&mut self) -> u64
        ensures range { result ≤ LAST_TIMESTAMP }
        ensures shown { Shows (Some (map in_range self.old.next))
            (Some (map in_range self.new.next)) result }
        ensures time { result ≡ in_range (time_of self.old) }
        ensures next { self.new.next ≡ drop 1 self.old.next }
        ensures rest { self.new.rest ≡ self.old.rest }
    {
        let times = self.times.as_slice();
        if self.at >= times.len() {
            return self.rest.min(LAST_TIMESTAMP);
        }
        let time = times[self.at];
        self.at += 1;
        time.min(LAST_TIMESTAMP)
    }
}

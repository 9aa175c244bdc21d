// What the time is read from.
ghost use Rattle.std.specs.Prelude.{◌≡◌, ◌≤◌, List, ℕ, Option};
ghost use Rattle.jm_base.specs.declared.utc_dates.TheConstants.{LAST_TIMESTAMP};
ghost use Rattle.jm_edge.specs.Clocks.{Shows};

/// A clock.
pub trait Clock: Drop + Send {
    /// The timestamps that the clock is going to show, if the clock exposes them.
    ghost times: { Self → Option (List ℕ) };

    /// Returns the timestamp: the seconds since the beginning of 1970 in UTC, of the years 1970 to
    /// 9999.
    fn now(&mut self) -> u64
        ensures range { result ≤ LAST_TIMESTAMP }
        ensures shown { Shows (times self.old) (times self.new) result };
}

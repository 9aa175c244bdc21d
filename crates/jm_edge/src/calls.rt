// The calls of one kind on something in memory, and which of them fail.
ghost use Rattle.std.specs.Prelude.{◌≡◌, ◌≤◌, []};
ghost use Rattle.jm_edge.specs.Causes.{Rose};

use jm_base::Numbers;
use std::alloc::Global;

/// How many calls there were, how many of them failed, and which calls fail, counted from 1.
#[derive(Drop)]
pub struct Calls {
    made: u64,
    faults: u64,
    fails: Numbers,
}

impl Calls {
    ghost use Rattle.jm_edge.specs.Schedules.{one_on, not_called, fails_next, passed, failed};

    /// Returns the counts before the first call.
    pub fn new(fails: Numbers) -> Calls
        ensures { result ≡ not_called fails }
    {
        Calls {
            made: 0,
            faults: 0,
            fails,
        }
    }

    /// Returns the counts before the first call, where none is to fail.
    pub fn unfailing(alloc: Global) -> Calls
        ensures { result ≡ not_called [] }
    {
        Calls::new(Numbers::new(alloc))
    }

    /// Returns how many calls there were. A count of 64 bits stays at its end.
    pub fn made(&self) -> u64
        ensures { result ≡ self.now.made }
    {
        self.made
    }

    /// Returns how many of the calls failed.
    pub fn faults(&self) -> u64
        ensures { result ≡ self.now.faults }
    {
        self.faults
    }

    /// Returns the number of the next call. A count of 64 bits stays at its end.
    pub fn next(&self) -> u64
        ensures { result ≡ one_on self.now.made }
    {
        self.made.saturating_add(1)
    }

    /// Returns whether the next call is one of those that fail.
    pub fn fails_next(&self) -> bool
        ensures { result ≡ fails_next self.now }
    {
        let next = self.next();
        self.fails.as_slice().contains(&next)
    }

    /// Counts a call that did not fail.
    pub fn pass(&mut self)
        ensures { self.new ≡ passed self.old }
    {
        self.made = self.made.saturating_add(1);
    }

    /// Counts a call that failed.
    pub fn fail(&mut self)
        ensures count { self.new ≡ failed self.old }
        ensures rose { Rose self.old.faults self.new.faults }
        ensures later { self.old.faults ≤ self.new.faults }
    {
        self.made = self.made.saturating_add(1);
        self.faults = self.faults.saturating_add(1);
    }
}

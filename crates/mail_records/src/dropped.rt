// Numbers of records that are still to be dropped.
ghost use Rattle.std.specs.Prelude.{◌≡◌, ◌++◌, ◌∷◌, [], true, false};
ghost use Rattle.std.specs.List.Sorted.{IsStrictlyIncreasing};
ghost use Rattle.jm_base.specs.Splices.{has};

use std::alloc::Global;
use std::marker::Model;
use std::mem;

/// Returns whether a number is one of these, if they rise.
pub(crate) fn is_among(numbers: &[u64], number: u64) -> bool
    ensures { IsStrictlyIncreasing numbers.now → result ≡ has numbers.now number }
{
    numbers.binary_search(&number).is_ok()
}

/// Numbers of records, and a number that none of them is above.
#[derive(Drop)]
pub(crate) struct Dropped {
    numbers: Vec<u64>,
    bound: u64,
}

impl Model for Dropped {
    ghost use Rattle.std.specs.Prelude.{◌≤◌, List, ℕ};
    ghost use Rattle.std.specs.List.{AllByRecursion};

    ghost Value = { List ℕ };

    ghost view = { λ d. d.numbers.items };

    ghost invariant = { λ d. AllByRecursion (λ n. n ≤ d.bound) d.numbers.items };
}

impl Dropped {
    /// Returns no numbers. Allocates nothing.
    pub(crate) fn new(alloc: Global) -> Dropped
        ensures { result ≡ [] }
    {
        Dropped {
            numbers: Vec::new(alloc),
            bound: 0,
        }
    }

    /// Returns true only if a number is none of these. It is, where the numbers were noted in
    /// ascending order and this one is above them.
    pub(crate) fn is_past(&self, number: u64) -> bool
        ensures { result ≡ true → has self.now number ≡ false }
    {
        if self.numbers.is_empty() {
            return true;
        }
        self.bound < number
    }

    /// Puts a number at the end, if there is memory. Returns whether it did.
    pub(crate) fn note(&mut self, number: u64) -> bool
        ensures noted { result ≡ true → self.new ≡ self.old ++ number ∷ [] }
        ensures same { result ≡ false → self.new ≡ self.old }
    {
        self.bound = self.bound.max(number);
        match self.numbers.push(number) {
            Ok(()) => true,
            Err(_) => false,
        }
    }

    /// Takes the numbers away.
    pub(crate) fn take_all(&mut self) -> Vec<u64>
        ensures numbers { result.items ≡ self.old }
        ensures rest { self.new ≡ [] }
    {
        let alloc = *self.numbers.allocator();
        mem::replace(&mut self.numbers, Vec::new(alloc))
    }
}

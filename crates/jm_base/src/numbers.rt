// Numbers in order.
ghost use Rattle.std.specs.Prelude.{◌≡◌, ℕ};
ghost use Rattle.std.specs.List.Sorted.{IsStrictlyIncreasing};
ghost use Rattle.jm_base.specs.Splices.{has};

/// Sorts numbers in ascending order, and leaves each once.
pub fn put_in_order(numbers: &mut Vec<u64>)
    ensures rise { IsStrictlyIncreasing numbers.new.items }
    ensures same { (n : ℕ) → has numbers.new.items n ≡ has numbers.old.items n }
{
    numbers.sort_unstable();
    numbers.dedup();
}

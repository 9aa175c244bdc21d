// The records that edits at some positions name.
ghost use Rattle.std.specs.Prelude.{◌≡◌, ◌==◌, ◌+◌, ◌<◌, ◌≤◌, IfOk, filter, length, map};
ghost use Rattle.std.specs.List.{All};
ghost use Rattle.state_log.specs.Logs.{ids_in};
ghost use Rattle.state_log.specs.Positions.{last_or, number_at};

use crate::Note;
use jm_base::NoMemory;
use std::alloc::Global;

/// Returns the numbers that notes name at these positions, in the order of the positions. The first
/// note has the position after the floor.
pub(crate) fn collect_numbers_at(
    alloc: Global,
    notes: &[Note],
    floor: u64,
    positions: &[u64],
) -> Result<Vec<u64>, NoMemory>
    requires { All (λ p. (floor < p) × (p ≤ floor + length notes.now)) positions.now }
    ensures { IfOk result (λ v. v.items ≡ map (number_at floor (ids_in notes.now)) positions.now) }
{
    let mut numbers = Vec::new(alloc);
    for position in positions {
        numbers.push(notes[(*position - floor - 1) as usize].number)?;
    }
    Ok(numbers)
}

/// Returns the last one of positions at which notes name a number, or 0 if none does. The first
/// note has the position after the floor.
pub(crate) fn find_last_naming(notes: &[Note], floor: u64, positions: &[u64], number: u64) -> u64
    requires { All (λ p. (floor < p) × (p ≤ floor + length notes.now)) positions.now }
    ensures { result ≡ last_or
        (filter (λ p. number_at floor (ids_in notes.now) p == number) positions.now) 0 }
{
    let mut left = positions;
    while let Some((last, before)) = left.split_last() {
        if notes[(*last - floor - 1) as usize].number == number {
            return *last;
        }
        left = before;
    }
    0
}

// The list that results from a change to a list (RFC 8620, section 5.6).
ghost use Rattle.std.specs.Prelude.{◌≡◌, ◌≤◌, ◌⊎◌, ℕ, ◌++◌, drop, insert, length, Ok, Err, IfOk, OnOk, OnErr};
ghost use Rattle.std.specs.List.Sorted.{IsSorted};
ghost use Rattle.std.specs.Ordering.{nat_cmp};
ghost use Rattle.jm_base.specs.Splices.{has, without, insert_all, splice};

use crate::{AddedItem, NoMemory, SpliceFault};
use std::alloc::Global;

impl From<NoMemory> for SpliceFault {
    ghost use Rattle.std.specs.Prelude.{◌≡◌};
    ghost use Rattle.jm_base.specs.declared.identifiers.SpliceFault.TheVariants as splice_fault;

    ghost from_gives = { λ _ e. e ≡ splice_fault.NoMemory };

    fn from(_refused: NoMemory) -> SpliceFault {
        SpliceFault::NoMemory
    }
}

// Returns the numbers in ascending order.
fn sort_numbers(alloc: Global, numbers: &[u64]) -> Result<Vec<u64>, NoMemory>
    ensures sorted { IfOk result (λ v. IsSorted nat_cmp v.items) }
    ensures same { IfOk result (λ v. (n : ℕ) → has v.items n ≡ has numbers.now n) }
{
    let mut sorted = Vec::new(alloc);
    sorted.extend_from_slice(numbers)?;
    sorted.sort_unstable();
    Ok(sorted)
}

// Returns whether numbers in ascending order have this one.
fn has_number(sorted: &[u64], number: u64) -> bool
    requires { IsSorted nat_cmp sorted.now }
    ensures { result ≡ has sorted.now number }
{
    sorted.binary_search(&number).is_ok()
}

// Returns the list without the removed numbers.
fn keep_others(alloc: Global, list: &[u64], removed: &[u64]) -> Result<Vec<u64>, NoMemory>
    ensures { IfOk result (λ v. v.items ≡ without list.now removed.now) }
{
    let removed = sort_numbers(alloc, removed)?;
    let mut kept = Vec::with_capacity(alloc, list.len())?;
    for number in list {
        if !has_number(&removed, *number) {
            kept.push(*number)?;
        }
    }
    Ok(kept)
}

// Moves numbers from the rest of a list to the end of its prefix until the prefix has this length,
// or no number is left. Returns how many were moved.
fn extend_front(front: &mut Vec<u64>, rest: &[u64], wanted: usize) -> Result<usize, NoMemory>
    ensures bound { IfOk result (λ count. count ≤ length rest.now) }
    ensures moved { IfOk result (λ n. front.new.items ++ drop n rest.now ≡ front.old.items
        ++ rest.now) }
    ensures reached { IfOk result (λ n. n ≡ length rest.now ⊎ wanted ≤ length front.new.items) }
{
    let count = rest.len().min(wanted.saturating_sub(front.len()));
    front.extend_from_slice(&rest[..count])?;
    Ok(count)
}

// Inserts an item at its index.
fn insert_item(front: &mut Vec<u64>, item: &AddedItem) -> Result<(), NoMemory>
    requires { item.now.index ≤ length front.old.items }
    ensures { OnOk result (front.new.items
        ≡ insert front.old.items item.now.index item.now.number) }
{
    front.insert(item.index as usize, item.number)?;
    Ok(())
}

// Returns the list with the items inserted in order, in one pass while the indices rise.
fn insert_all(alloc: Global, list: &[u64], added: &[AddedItem]) -> Result<Vec<u64>, SpliceFault>
    ensures ok { IfOk result (λ v. insert_all 0 list.now added.now ≡ Ok v.items) }
    ensures bad_index { (i : ℕ) → result ≡ Err (SpliceFault.BadIndex i)
        → insert_all 0 list.now added.now ≡ Err i }
{
    let mut front = Vec::new(alloc);
    let mut rest = list;
    let mut place = 0;
    for item in added {
        let count = extend_front(&mut front, rest, item.index as usize)?;
        let (_, after) = rest.split_at(count);
        rest = after;
        if item.index as usize > front.len() {
            return Err(SpliceFault::BadIndex(place));
        }
        insert_item(&mut front, item)?;
        place += 1;
    }
    extend_front(&mut front, rest, usize::MAX)?;
    Ok(front)
}

/// Removes from a list all numbers of `removed`, then inserts the items of `added` in order, each
/// at its index (RFC 8620, section 5.6). While the indices rise, this takes one pass over the list.
///
/// Fails with `BadIndex` if an item's index is past the end of the list at its turn; the number is
/// the index in `added` of the first such item. After an error the list is unchanged.
pub fn splice(
    alloc: Global,
    list: &mut Vec<u64>,
    removed: &[u64],
    added: &[AddedItem],
) -> Result<(), SpliceFault>
    ensures ok { OnOk result (splice list.old.items removed.now added.now ≡ Ok list.new.items) }
    ensures bad_index { (i : ℕ) → result ≡ Err (SpliceFault.BadIndex i)
        → splice list.old.items removed.now added.now ≡ Err i }
    ensures err { OnErr result (list.new.items ≡ list.old.items) }
{
    let kept = keep_others(alloc, list, removed)?;
    *list = insert_all(alloc, &kept, added)?;
    Ok(())
}

#[cfg(test)]
mod tests {
    use super::*;
    use std::test::Fail;

    #[derive(Drop)]
    struct Row {
        removed: &'static [u64],
        added: &'static [AddedItem],
        result: &'static [u64],
    }

    // Changes to the list 1, 2, 3, 4. The first row is the example of RFC 8620, section 5.6,
    // without its gaps; the other rows were worked out by the rule there.
    const ROWS: [Row; 6] = [
        Row {
            removed: &[2, 31],
            added: &[AddedItem {
                number: 5,
                index: 0,
            }],
            result: &[5, 1, 3, 4],
        },
        Row {
            removed: &[],
            added: &[],
            result: &[1, 2, 3, 4],
        },
        Row {
            removed: &[4, 3, 2, 1],
            added: &[],
            result: &[],
        },
        // rising indices, up to the end of the list
        Row {
            removed: &[1, 3],
            added: &[
                AddedItem {
                    number: 3,
                    index: 0,
                },
                AddedItem {
                    number: 7,
                    index: 2,
                },
                AddedItem {
                    number: 8,
                    index: 4,
                },
            ],
            result: &[3, 2, 7, 4, 8],
        },
        // falling and equal indices
        Row {
            removed: &[3],
            added: &[
                AddedItem {
                    number: 7,
                    index: 3,
                },
                AddedItem {
                    number: 8,
                    index: 1,
                },
                AddedItem {
                    number: 9,
                    index: 1,
                },
            ],
            result: &[1, 9, 8, 2, 4, 7],
        },
        // a number that is removed may be added twice
        Row {
            removed: &[1],
            added: &[
                AddedItem {
                    number: 1,
                    index: 3,
                },
                AddedItem {
                    number: 1,
                    index: 4,
                },
            ],
            result: &[2, 3, 4, 1, 1],
        },
    ];

    #[test]
    fn a_change_gives_its_list(rt: HostRuntime) -> Result<(), Fail> {
        for row in ROWS {
            let mut list = Vec::from_array(rt.alloc(), [1u64, 2, 3, 4])?;
            assert_eq!(rt;
                splice(rt.alloc(), &mut list, row.removed, row.added),
                Ok(())
            );
            assert_eq!(rt; list.as_slice(), row.result);
        }
        Ok(())
    }

    #[test]
    fn an_index_past_the_end_changes_nothing(rt: HostRuntime) -> Result<(), Fail> {
        let mut list = Vec::from_array(rt.alloc(), [1u64, 2])?;
        let added = [
            AddedItem {
                number: 3,
                index: 1,
            },
            AddedItem {
                number: 4,
                index: 3,
            },
            AddedItem {
                number: 5,
                index: u64::MAX,
            },
        ];
        let result = splice(rt.alloc(), &mut list, &[1], &added);
        assert_eq!(rt; result, Err(SpliceFault::BadIndex(1)));
        assert_eq!(rt; list.as_slice(), [1u64, 2].as_slice());
        list.clear();
        let result = splice(rt.alloc(), &mut list, &[], &added);
        assert_eq!(rt; result, Err(SpliceFault::BadIndex(0)));
        Ok(())
    }
}

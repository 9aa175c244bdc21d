// Entries of many records that leave an order in one pass.
ghost use Rattle.std.specs.Prelude.{◌≡◌, ◌≤◌, not, vec_len, vec_capacity};
ghost use Rattle.std.specs.List.Sorted.{IsStrictlyIncreasing};
ghost use Rattle.jm_base.specs.Splices.{has};
ghost use Rattle.mail_records.specs.Tables.{without_all};
ghost use Rattle.mail_records.specs.Orders.{AreKeys, any_key, keys_of};

use crate::dropped::is_among;
use crate::orders::Entry;
use crate::table::{Record, Table};

/// Takes the entries of the records of these numbers out. It is called before the records are
/// taken out of the table.
pub(crate) fn forget_all<R: Record, E: Entry<R>>(
    table: &Table<R>,
    entries: &mut Vec<E>,
    numbers: &[u64],
)
    requires rise { IsStrictlyIncreasing numbers.now }
    requires exact { AreKeys any_key R.number E.keys table.now.rows
        (keys_of R.number E.owner E.key table.now.rows entries.old.items) }
    ensures exact { AreKeys any_key R.number E.keys
        (without_all R.number numbers.now table.now.rows)
        (keys_of R.number E.owner E.key
        (without_all R.number numbers.now table.now.rows) entries.new.items) }
    ensures len { vec_len entries.new ≤ vec_len entries.old }
    ensures capacity { vec_capacity entries.new ≡ vec_capacity entries.old }
{
    entries.retain(
        |entry|
            ensures { IsStrictlyIncreasing numbers.entry.now → result
                ≡ not (has numbers.entry.now (E.owner entry.now)) }
        { !is_among(numbers, entry.owner()) },
    );
}

// The passes of an account's entries.
ghost use Rattle.std.specs.Prelude.{◌≡◌};
ghost use Rattle.account_book.specs.Passes.{greatest_pass};

use crate::Account;

/// Returns the greatest pass of an account's entries, or 0 if there is none.
pub(crate) fn find_greatest_pass(account: &Account) -> u64
    ensures { result ≡ greatest_pass account.now.history.entries }
{
    let mut greatest = 0u64;
    for entry in account.entries() {
        greatest = greatest.max(entry.stamp.pass);
    }
    greatest
}

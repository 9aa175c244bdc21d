// The numbers of records.
ghost use Rattle.std.specs.Prelude.{◌≡◌};
ghost use Rattle.tidy_check.specs.Checks.{has_nexts, is_in_use};

use jm_base::Kind;
use mail_records::Content;

/// Returns whether a record's number is from 1 and below its kind's next one.
pub(crate) fn is_in_use(next: u64, number: u64) -> bool
    ensures { result ≡ is_in_use next number }
{
    1 <= number && number < next
}

/// Returns whether the next number of each kind is from 1.
pub(crate) fn has_nexts(content: &Content) -> bool
    ensures { result ≡ has_nexts content.now.content }
{
    1 <= content.next(Kind::Mailbox)
        && 1 <= content.next(Kind::Email)
        && 1 <= content.next(Kind::Thread)
}

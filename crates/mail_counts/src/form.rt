// The forms of a mailbox's name, role and sort order (RFC 8621, section 2).
ghost use Rattle.std.specs.Prelude.{◌≡◌};
ghost use Rattle.std.specs.List.{list_all};
ghost use Rattle.mail_counts.specs.Forms.{is_plain_byte, is_name, is_role, is_sort_order};

use crate::limits::SORT_ORDER_LIMIT;
use jm_base::MAX_MAILBOX_NAME_BYTES;

fn is_plain_byte(byte: u8) -> bool
    ensures { result ≡ is_plain_byte byte }
{
    byte >= 32 && byte != 127
}

fn are_plain(bytes: &[u8]) -> bool
    ensures { result ≡ list_all is_plain_byte bytes.now }
{
    bytes.iter().all(|byte| is_plain_byte(*byte))
}

/// Returns whether a string is a mailbox's name: 1 to [`MAX_MAILBOX_NAME_BYTES`] bytes, with no
/// control character.
pub fn is_name(text: &str) -> bool
    ensures { result ≡ is_name text.now }
{
    if text.is_empty() || text.len() > MAX_MAILBOX_NAME_BYTES {
        return false;
    }
    are_plain(text.as_bytes())
}

/// Returns whether a string is a role of mailboxes.
pub fn is_role(text: &str) -> bool
    ensures { result ≡ is_role text.now }
{
    text == "inbox"
        || text == "archive"
        || text == "drafts"
        || text == "sent"
        || text == "junk"
        || text == "trash"
        || text == "all"
        || text == "flagged"
        || text == "important"
}

/// Returns whether a number is a mailbox's sort order: it is below [`SORT_ORDER_LIMIT`].
pub fn is_sort_order(number: u64) -> bool
    ensures { result ≡ is_sort_order number }
{
    number < SORT_ORDER_LIMIT
}

// The values of conditions: dates, identifiers of mailboxes, and tests of header fields.
ghost use Rattle.std.specs.Prelude.{◌≡◌, ℕ, ◌==◌};
ghost use Rattle.jm_json.specs.Find.{as_text};
ghost use Rattle.jm_json.specs.Json.{tree_of};
ghost use Rattle.method_args.specs.Arguments.{as_count, as_flag, passes};
ghost use Rattle.filter_terms.specs.EmailTerms.{is_mailbox_id};
ghost use Rattle.filter_terms.specs.Values.{as_date};

use jm_base::{Kind, read_id, read_utc_seconds};
use jm_json::Json;
use method_args::check_unsigned;

/// Returns the date of a value in Unix seconds, without its fraction of a second, or `None` if the
/// value is no UTCDate.
pub(crate) fn as_date(value: &Json) -> Option<i64>
    ensures { result ≡ as_date (tree_of value.now) }
{
    match value.as_text() {
        Some(text) => read_utc_seconds(text.as_bytes()),
        None => None,
    }
}

/// Returns the integer from 0 on that a value is, or `None` if it is none.
pub(crate) fn as_count(value: &Json) -> Option<u64>
    ensures { result ≡ as_count (tree_of value.now) }
{
    match value {
        Json::Int(number) => check_unsigned(*number),
        Json::Null | Json::Bool(_) | Json::Text(_) | Json::List(_) | Json::Object(_) => None,
    }
}

/// Returns the boolean that a value is, or `None` if it is none.
pub(crate) fn as_flag(value: &Json) -> Option<bool>
    ensures { result ≡ as_flag (tree_of value.now) }
{
    match value {
        Json::Bool(flag) => Some(*flag),
        Json::Null | Json::Int(_) | Json::Text(_) | Json::List(_) | Json::Object(_) => None,
    }
}

/// Returns the number of the mailbox whose id the text is, or `None` if the text is no such id.
#[tactic(auto, using(crate::proofs::MailboxIds::by_ids))]
pub(crate) fn read_mailbox_id(id: &[u8]) -> Option<u64>
    ensures { (m : ℕ) → is_mailbox_id id.now m ≡ passes (λ n. n == m) result }
{
    match read_id(id) {
        Ok(id) => match id.kind {
            Kind::Mailbox => Some(id.number),
            Kind::Email | Kind::Thread => None,
        },
        Err(_) => None,
    }
}

// Emails: their mailboxes, keywords, dates and threads (RFC 8621, section 4).
ghost use Rattle.std.specs.Prelude.{◌≡◌};
ghost use Rattle.std.specs.List.{list_all};
ghost use Rattle.tidy_check.specs.Checks.{are_mailboxes, has_dates, has_thread, is_filed, is_mailbox, is_utc_date};

use crate::keywords::are_keywords;
use crate::mailboxes::is_mailbox;
use crate::numbers::is_in_use;
use crate::rising::are_numbers_rising;
use jm_base::{FIRST_TIMESTAMP, Kind, LAST_TIMESTAMP, MAX_MAILBOXES_PER_EMAIL, UtcDate};
use mail_records::{Content, Email};

fn has_only_mailboxes(content: &Content, numbers: &[u64]) -> bool
    ensures { result ≡ list_all (is_mailbox content.now.content) numbers.now }
{
    for number in numbers {
        if !is_mailbox(content, *number) {
            return false;
        }
    }
    true
}

fn are_mailboxes(content: &Content, numbers: &[u64]) -> bool
    ensures { result ≡ are_mailboxes content.now.content numbers.now }
{
    if !has_only_mailboxes(content, numbers) {
        return false;
    }
    let count = numbers.len() as u64;
    1 <= count && count <= MAX_MAILBOXES_PER_EMAIL && are_numbers_rising(numbers)
}

// Returns whether a date is of the years 0001 to 9999.
fn is_utc_date(date: UtcDate) -> bool
    ensures { result ≡ is_utc_date date }
{
    FIRST_TIMESTAMP <= date.seconds && date.seconds <= LAST_TIMESTAMP as i64
}

fn has_dates(email: &Email) -> bool
    ensures { result ≡ has_dates email.now }
{
    if !is_utc_date(email.received) {
        return false;
    }
    match email.summary.sent {
        Some(sent) => is_utc_date(sent),
        None => true,
    }
}

// Returns whether the thread of an email is there.
fn has_thread(content: &Content, email: &Email) -> bool
    ensures { result ≡ has_thread content.now.content email.now }
{
    content.thread(email.thread).is_some()
}

fn is_filed(content: &Content, email: &Email) -> bool
    ensures { result ≡ is_filed content.now.content email.now }
{
    is_in_use(content.next(Kind::Email), email.number)
        && are_mailboxes(content, email.mailboxes.as_slice())
        && are_keywords(email.keywords.as_slice())
        && has_dates(email)
        && has_thread(content, email)
}

/// Returns whether each of these emails passes in the content.
pub(crate) fn are_filed(content: &Content, emails: &[Email]) -> bool
    ensures { result ≡ list_all (is_filed content.now.content) emails.now }
{
    for email in emails {
        if !is_filed(content, email) {
            return false;
        }
    }
    true
}

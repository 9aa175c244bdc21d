// How comparators compare two emails or two mailboxes (RFC 8621, sections 2.3 and 4.4.2).
ghost use Rattle.std.specs.Prelude.{◌≡◌, ℕ, List, ◌∷◌, MatchResult, option_map};
ghost use Rattle.std.specs.Option.{option_cmp};
ghost use Rattle.std.specs.Ordering.{int_cmp};
ghost use Rattle.filter_terms.specs.Targets.{email_in_thread};
ghost use Rattle.sort_terms.specs.Comparators.{directed, email_property_cmp, emails_cmp, mailbox_property_cmp, mailboxes_cmp, sent_seconds, text_cmp};

use crate::comparators::Comparator;
use crate::properties::Property;
use filter_terms::{has_all_in_thread, has_keyword, has_some_in_thread};
use jm_base::UtcDate;
use mail_records::{Content, Email, Mailbox};
use std::cmp::Ordering;

// Returns the text after its first byte if that is this byte, with ASCII letters raised to upper
// case, else how a text that begins with this byte compares to the text.
fn compare_first<'a>(byte: u8, text: &'a [u8]) -> Result<&'a [u8], Ordering>
    ensures { MatchResult result
        (λ rest. (bs : List ℕ) → text_cmp (byte ∷ bs) text.now ≡ text_cmp bs rest.now)
        (λ decided. (bs : List ℕ) → text_cmp (byte ∷ bs) text.now ≡ decided) }
{
    match text.split_first() {
        None => Err(Ordering::Greater),
        Some((other, rest)) => {
            match byte.to_ascii_uppercase().cmp(&other.to_ascii_uppercase()) {
                Ordering::Equal => Ok(rest),
                decided => Err(decided),
            }
        }
    }
}

// Compares two texts by bytes, with ASCII letters raised to upper case.
fn compare_texts(left: &[u8], right: &[u8]) -> Ordering
    ensures { result ≡ text_cmp left.now right.now }
{
    let mut rest = right;
    for byte in left {
        match compare_first(*byte, rest) {
            Ok(after) => rest = after,
            Err(decided) => return decided,
        }
    }
    if rest.is_empty() {
        Ordering::Equal
    } else {
        Ordering::Less
    }
}

fn find_date_seconds(date: Option<UtcDate>) -> Option<i64>
    ensures { result ≡ option_map (λ d. d.seconds) date }
{
    match date {
        Some(date) => Some(date.seconds),
        None => None,
    }
}

fn compare_sent(left: &Email, right: &Email, content: &Content) -> Ordering
    ensures { result ≡ option_cmp int_cmp
        (sent_seconds (email_in_thread content.now.content.emails left.now))
        (sent_seconds (email_in_thread content.now.content.emails right.now)) }
{
    find_date_seconds(left.summary.sent).cmp(&find_date_seconds(right.summary.sent))
}

// Compares two emails of a content by a property that is of one of its own fields or its thread.
fn compare_by(
    property: Property,
    keyword: &str,
    content: &Content,
    left: &Email,
    right: &Email,
) -> Ordering
    ensures { result ≡ email_property_cmp property keyword.now
        (email_in_thread content.now.content.emails left.now)
        (email_in_thread content.now.content.emails right.now) }
{
    match property {
        Property::ReceivedAt => left.received.seconds.cmp(&right.received.seconds),
        Property::Size => left.size.cmp(&right.size),
        Property::From => {
            compare_texts(left.summary.from.as_bytes(), right.summary.from.as_bytes())
        }
        Property::To => compare_texts(left.summary.to.as_bytes(), right.summary.to.as_bytes()),
        Property::Subject => compare_texts(
            left.summary.subject.as_bytes(),
            right.summary.subject.as_bytes(),
        ),
        Property::SentAt => compare_sent(left, right, content),
        Property::HasKeyword => has_keyword(keyword, left).cmp(&has_keyword(keyword, right)),
        Property::AllInThread => has_all_in_thread(keyword, content, left.thread).cmp(
            &has_all_in_thread(keyword, content, right.thread),
        ),
        Property::SomeInThread => has_some_in_thread(keyword, content, left.thread).cmp(
            &has_some_in_thread(keyword, content, right.thread),
        ),
        Property::SortOrder | Property::Name => Ordering::Equal,
    }
}

fn compare_directed(
    comparator: &Comparator,
    content: &Content,
    left: &Email,
    right: &Email,
) -> Ordering
    ensures { result ≡ directed comparator.now.ascending
        (email_property_cmp comparator.now.property comparator.now.keyword)
        (email_in_thread content.now.content.emails left.now)
        (email_in_thread content.now.content.emails right.now) }
{
    let property = comparator.property;
    let keyword = comparator.keyword.as_str();
    if comparator.ascending {
        compare_by(property, keyword, content, left, right)
    } else {
        compare_by(property, keyword, content, right, left)
    }
}

/// Compares two emails of a content by comparators.
pub(crate) fn compare_emails(
    comparators: &[Comparator],
    content: &Content,
    left: &Email,
    right: &Email,
) -> Ordering
    ensures { result ≡ emails_cmp comparators.now
        (email_in_thread content.now.content.emails left.now)
        (email_in_thread content.now.content.emails right.now) }
{
    for comparator in comparators {
        match compare_directed(comparator, content, left, right) {
            Ordering::Equal => {}
            decided => return decided,
        }
    }
    Ordering::Equal
}

fn compare_mailboxes_by(property: Property, left: &Mailbox, right: &Mailbox) -> Ordering
    ensures { result ≡ mailbox_property_cmp property left.now right.now }
{
    match property {
        Property::SortOrder => left.sort_order.cmp(&right.sort_order),
        Property::Name => compare_texts(left.name.as_bytes(), right.name.as_bytes()),
        Property::ReceivedAt
        | Property::Size
        | Property::From
        | Property::To
        | Property::Subject
        | Property::SentAt
        | Property::HasKeyword
        | Property::AllInThread
        | Property::SomeInThread => Ordering::Equal,
    }
}

fn compare_mailboxes_directed(comparator: &Comparator, left: &Mailbox, right: &Mailbox) -> Ordering
    ensures { result ≡ directed comparator.now.ascending
        (mailbox_property_cmp comparator.now.property) left.now right.now }
{
    if comparator.ascending {
        compare_mailboxes_by(comparator.property, left, right)
    } else {
        compare_mailboxes_by(comparator.property, right, left)
    }
}

/// Compares two mailboxes by comparators.
pub(crate) fn compare_mailboxes(
    comparators: &[Comparator],
    left: &Mailbox,
    right: &Mailbox,
) -> Ordering
    ensures { result ≡ mailboxes_cmp comparators.now left.now right.now }
{
    for comparator in comparators {
        match compare_mailboxes_directed(comparator, left, right) {
            Ordering::Equal => {}
            decided => return decided,
        }
    }
    Ordering::Equal
}

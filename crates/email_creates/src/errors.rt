// Why the create of an email is rejected (RFC 8620, section 5.3; RFC 8621, sections 4.6 to 4.8).
ghost use Rattle.std.specs.Prelude.{◌≡◌, ◌++◌, OnOk, [], length, unwrap_or};
ghost use Rattle.email_creates.specs.Errors.{error_of, first_error, form_tests, name_if, room_tests, with_invalid};

use crate::properties::Sent;
use jm_base::{MAX_MAILBOXES_PER_EMAIL, NoMemory, Numbers, Text, Texts};
use mail_counts::{MAX_EMAILS_PER_ACCOUNT, MAX_KEYWORDS_PER_EMAIL};
use set_parts::SetError;
use std::alloc::Global;

fn count_keywords(keywords: &Option<Texts>) -> usize
    ensures { result ≡ length (unwrap_or keywords.now []) }
{
    match keywords {
        Some(keywords) => keywords.len(),
        None => 0,
    }
}

fn count_mailboxes(mailboxes: &Option<Numbers>) -> u64
    ensures { result ≡ length (unwrap_or mailboxes.now []) }
{
    match mailboxes {
        Some(mailboxes) => mailboxes.len() as u64,
        None => 0,
    }
}

/// Adds the name of a property, if it is invalid.
pub fn push_name(
    alloc: Global,
    names: &mut Texts,
    invalid: bool,
    name: &str,
) -> Result<(), NoMemory>
    ensures { OnOk result (names.new ≡ names.old ++ name_if invalid name.now) }
{
    if invalid {
        names.push(Text::from_str(alloc, name)?)?;
    }
    Ok(())
}

/// Adds the names of those of the properties that are invalid, in byte order.
pub fn push_invalid(alloc: Global, names: &mut Texts, sent: &Sent) -> Result<(), NoMemory>
    ensures { OnOk result (names.new ≡ with_invalid names.old sent.now) }
{
    push_name(alloc, names, sent.keywords.is_none(), "keywords")?;
    push_name(alloc, names, sent.mailboxes.is_none(), "mailboxIds")?;
    push_name(alloc, names, sent.received.is_none(), "receivedAt")?;
    Ok(())
}

/// Returns the first error of what a create sends: `invalidProperties` with the names of those that
/// are invalid, `tooManyKeywords`, `tooManyMailboxes`. None if it has none of these.
pub fn find_form_error(invalid: Texts, sent: &Sent) -> Option<SetError>
    ensures { result ≡ first_error (form_tests invalid sent.now) }
{
    if !invalid.is_empty() {
        return Some(SetError::InvalidProperties(invalid));
    }
    if count_keywords(&sent.keywords) > MAX_KEYWORDS_PER_EMAIL {
        return Some(SetError::TooManyKeywords);
    }
    if count_mailboxes(&sent.mailboxes) > MAX_MAILBOXES_PER_EMAIL {
        return Some(SetError::TooManyMailboxes);
    }
    None
}

/// Returns `overQuota` if an account with so many emails has no room for one more, or if there is
/// no room for its message among the blobs.
pub fn find_room_error(emails: usize, room: bool) -> Option<SetError>
    ensures { result ≡ first_error (room_tests emails room) }
{
    if emails >= MAX_EMAILS_PER_ACCOUNT {
        return Some(SetError::OverQuota);
    }
    if room {
        None
    } else {
        Some(SetError::OverQuota)
    }
}

/// Returns the error of a create that has no tests of its own: that of [`find_form_error`], else
/// that of [`find_room_error`]. None if it has none.
pub fn find_error(invalid: Texts, sent: &Sent, emails: usize, room: bool) -> Option<SetError>
    ensures { result ≡ error_of invalid sent.now emails room }
{
    match find_form_error(invalid, sent) {
        Some(error) => Some(error),
        None => find_room_error(emails, room),
    }
}

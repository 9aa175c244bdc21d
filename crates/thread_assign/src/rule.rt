// The rule, over a list of emails.
ghost use Rattle.std.specs.Prelude.{◌≡◌};
ghost use Rattle.mail_records.specs.Contents.{email_number};
ghost use Rattle.mail_records.specs.Tables.{IsTable};
ghost use Rattle.thread_assign.specs.Threads.{has_subject, is_related, joined_thread, share_link};

use jm_base::Text;
use mail_records::{Email, Summary};

// Returns whether the lists of links have one in common.
fn share_a_link(links: &[Text], others: &[Text]) -> bool
    ensures { result ≡ share_link links.now others.now }
{
    for link in links {
        if others.contains(link) {
            return true;
        }
    }
    false
}

// Returns whether the email has the subject.
pub(crate) fn is_on_subject(email: &Email, subject: &Text) -> bool
    ensures { result ≡ has_subject subject.now email.now }
{
    email.summary.subject == *subject
}

// Returns whether a new email with this summary shares a link with the email and has its subject.
fn is_related_to(email: &Email, summary: &Summary) -> bool
    ensures { result ≡ is_related summary.now email.now }
{
    is_on_subject(email, &summary.subject)
        && share_a_link(summary.links.as_slice(), email.summary.links.as_slice())
}

/// Returns the thread that a new email with this summary joins: that of the least numbered email
/// that shares a link with it and has the same subject (RFC 8621, section 3). It is `None` if and
/// only if there is no such email.
pub fn thread_of(emails: &[Email], summary: &Summary) -> Option<u64>
    requires table { IsTable email_number emails.now }
    ensures { result ≡ joined_thread emails.now summary.now }
{
    for email in emails {
        if is_related_to(email, summary) {
            return Some(email.thread);
        }
    }
    None
}

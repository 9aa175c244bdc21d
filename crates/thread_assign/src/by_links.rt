// The rule over a content, whose order by link leads to the emails that share one.
ghost use Rattle.std.specs.Prelude.{◌≡◌, option_and_then};
ghost use Rattle.mail_records.specs.Contents.{email_at, email_number};
ghost use Rattle.mail_records.specs.Tables.{IsTable};
ghost use Rattle.thread_assign.specs.Threads.{joined_thread};
ghost use Rattle.thread_assign.specs.Candidates.{first_candidate, first_entry, has_both, if_has_subject, lesser};

use crate::candidates::Candidate;
use crate::rule::is_on_subject;
use jm_base::Text;
use mail_records::{Content, Linked, Summary};

// Returns the candidate of the lesser number, of those that there are.
fn choose_lesser(one: Option<Candidate>, other: Option<Candidate>) -> Option<Candidate>
    ensures { result ≡ lesser one other }
{
    let Some(first) = one else { return other };
    let Some(second) = other else { return one };
    if second.number < first.number {
        other
    } else {
        one
    }
}

// Returns the email of a number, if it has the subject.
fn find_candidate(content: &Content, number: u64, subject: &Text) -> Option<Candidate>
    ensures { result ≡ option_and_then
        (if_has_subject subject.now) (email_at content.now.content number) }
{
    match content.email(number) {
        None => None,
        Some(email) => {
            if is_on_subject(email, subject) {
                Some(Candidate {
                    number: email.number,
                    thread: email.thread,
                })
            } else {
                None
            }
        }
    }
}

// Returns the first of the entries' emails that has the subject.
fn find_first_on_subject(content: &Content, entries: &[Linked], subject: &Text) -> Option<Candidate>
    ensures { result ≡ first_entry subject.now content.now.content.emails entries.now }
{
    for entry in entries {
        let found = find_candidate(content, entry.email, subject);
        if found.is_some() {
            return found;
        }
    }
    None
}

// Returns the least numbered email that has the link and the subject.
fn find_first_with_link(content: &Content, link: &Text, subject: &Text) -> Option<Candidate>
    requires table { IsTable email_number content.now.content.emails }
    ensures { result ≡ first_candidate (has_both link.now subject.now) content.now.content.emails }
{
    find_first_on_subject(content, content.with_link(link.as_bytes()), subject)
}

/// Returns the thread that a new email with this summary joins, as [`thread_of`] does for the
/// emails of the content (RFC 8621, section 3). It looks only at emails that share a link, and
/// takes no memory.
///
/// [`thread_of`]: crate::thread_of
pub fn thread_in(content: &Content, summary: &Summary) -> Option<u64>
    ensures { result ≡ joined_thread content.now.content.emails summary.now }
{
    let _emails = content.emails();
    let links = summary.links.as_slice();
    let mut best: Option<Candidate> = None;
    for link in links {
        best = choose_lesser(best, find_first_with_link(content, link, &summary.subject));
    }
    match best {
        None => None,
        Some(candidate) => Some(candidate.thread),
    }
}

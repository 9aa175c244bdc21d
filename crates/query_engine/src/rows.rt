// Emails in an order by the time received, from the first on or from the last time on.
ghost use Rattle.std.specs.Prelude.{◌≡◌, OnOk, length, map, true};
ghost use Rattle.jm_base.specs.declared.identifiers.Kind.TheVariants.{Email as OfEmails};
ghost use Rattle.mail_records.specs.Contents.{email_at};
ghost use Rattle.filter_terms.specs.Filters.{holds};
ghost use Rattle.filter_terms.specs.Targets.{AnEmail, email_in_thread};
ghost use Rattle.query_engine.specs.Walks.{Follows, IsRunStart, RowsAscend, directed_rows, descending, is_match, matching};
ghost use Rattle.std.specs.Prelude.{◌∷◌, [], Some, if◌then◌else◌};

use crate::page::{Page, has_thread, is_full, put_number};
use crate::query::Query;
use filter_terms::{Texts2, matches_email};
use jm_base::NoMemory;
use mail_records::{Content, Dated, Email, Placed};

/// An entry of an order of emails by the time received, then number.
pub(crate) trait Candidate: Copy {
    ghost use Rattle.query_engine.specs.Walks.{Row};

    ghost timed: { Self → Row };

    /// Returns when the email was received, in Unix seconds.
    fn received(&self) -> i64
        ensures { result ≡ (timed self.now).received };

    /// Returns the number of the email.
    fn number(&self) -> u64
        ensures { result ≡ (timed self.now).number };
}

impl Candidate for Dated {
    ghost timed = { λ d. record { received = d.received; number = d.email } };

    fn received(&self) -> i64 {
        self.received
    }

    fn number(&self) -> u64 {
        self.email
    }
}

impl Candidate for Placed {
    ghost timed = { λ p. record { received = p.received; number = p.email } };

    fn received(&self) -> i64 {
        self.received
    }

    fn number(&self) -> u64 {
        self.email
    }
}

/// Puts an email on the page if the filter matches it, and if no email of its thread is there where
/// threads are collapsed.
pub(crate) fn visit_email<T: Texts2>(
    page: &mut Page,
    query: &Query,
    content: &Content,
    texts: &T,
    email: &Email,
) -> Result<(), NoMemory>
    requires emails { query.now.kind ≡ OfEmails }
    requires there { email_at content.now.content email.now.number ≡ Some email.now }
    ensures { OnOk result (Follows content.now.content page.old page.new
        (if holds query.now.kind
        (AnEmail (T.texts texts.now) (email_in_thread content.now.content.emails email.now))
        query.now.filter then email.now.number ∷ [] else [])) }
{
    if has_thread(page, email.thread) {
        return Ok(());
    }
    if !matches_email(query.filter(), content, texts, email)? {
        return Ok(());
    }
    put_number(page, email.thread, email.number)
}

// Puts the email of a number on the page, as above.
fn visit<T: Texts2>(
    page: &mut Page,
    query: &Query,
    content: &Content,
    texts: &T,
    number: u64,
) -> Result<(), NoMemory>
    requires { query.now.kind ≡ OfEmails }
    ensures { OnOk result (Follows content.now.content page.old page.new
        (if is_match query.now content.now.content (T.texts texts.now) number
        then number ∷ [] else [])) }
{
    match content.email(number) {
        Some(email) => visit_email(page, query, content, texts, email),
        None => Ok(()),
    }
}

/// Puts the emails of entries on the page, in their order, until it is full.
fn walk_ascending<E: Candidate, T: Texts2>(
    page: &mut Page,
    query: &Query,
    content: &Content,
    texts: &T,
    entries: &[E],
) -> Result<(), NoMemory>
    requires { query.now.kind ≡ OfEmails }
    ensures { OnOk result (Follows content.now.content page.old page.new
        (matching query.now content.now.content (T.texts texts.now) (map E.timed entries.now))) }
{
    for entry in entries {
        if is_full(page) {
            return Ok(());
        }
        visit(page, query, content, texts, entry.number())?;
    }
    Ok(())
}

// Returns true only if all entries are before a time: looks at the last one alone.
fn is_before<E: Candidate>(entries: &[E], time: i64) -> bool
    requires { RowsAscend (map E.timed entries.now) }
    ensures { result ≡ true → IsRunStart (map E.timed entries.now) (length entries.now) time }
{
    match entries.split_last() {
        Some((last, _)) => last.received() < time,
        None => false,
    }
}

// Returns the index at which the entries begin that are not before a time. Nearly each time has one
// email alone, so the last entry is looked at first.
fn run_start<E: Candidate>(entries: &[E], time: i64) -> usize
    requires { RowsAscend (map E.timed entries.now) }
    ensures { IsRunStart (map E.timed entries.now) result time }
{
    if is_before(entries, time) {
        return entries.len();
    }
    entries.partition_point(|entry| entry.received() < time)
}

// Puts the emails of entries on the page, latest first, until it is full.
fn walk_descending<E: Candidate, T: Texts2>(
    page: &mut Page,
    query: &Query,
    content: &Content,
    texts: &T,
    entries: &[E],
) -> Result<(), NoMemory>
    requires emails { query.now.kind ≡ OfEmails }
    requires rise { RowsAscend (map E.timed entries.now) }
    ensures { OnOk result (Follows content.now.content page.old page.new
        (matching query.now content.now.content (T.texts texts.now)
        (descending (map E.timed entries.now)))) }
{
    let mut left = entries;
    while let Some((last, others)) = left.split_last() {
        if is_full(page) {
            return Ok(());
        }
        let (before, run) = left.split_at(run_start(others, last.received()));
        walk_ascending(page, query, content, texts, run)?;
        left = before;
    }
    Ok(())
}

/// Puts the emails of entries on the page, earliest or latest first, until it is full. It looks at
/// no more entries than it needs.
pub(crate) fn walk<E: Candidate, T: Texts2>(
    page: &mut Page,
    query: &Query,
    content: &Content,
    texts: &T,
    entries: &[E],
    ascending: bool,
) -> Result<(), NoMemory>
    requires emails { query.now.kind ≡ OfEmails }
    requires rise { RowsAscend (map E.timed entries.now) }
    ensures { OnOk result (Follows content.now.content page.old page.new
        (matching query.now content.now.content (T.texts texts.now)
        (directed_rows ascending (map E.timed entries.now)))) }
{
    if ascending {
        walk_ascending(page, query, content, texts, entries)
    } else {
        walk_descending(page, query, content, texts, entries)
    }
}

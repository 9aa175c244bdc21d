// The emails that match, sorted by the time received, where all of them are wanted.
ghost use Rattle.std.specs.Prelude.{◌≡◌, map, IfOk, OnOk};
ghost use Rattle.std.specs.List.Sorted.{IsPermutation, IsSorted};
ghost use Rattle.jm_base.specs.declared.identifiers.Kind.TheVariants.{Email as OfEmails};
ghost use Rattle.mail_records.specs.Contents.{email_number};
ghost use Rattle.mail_records.specs.Orders.{dated_owner};
ghost use Rattle.mail_records.specs.Tables.{IsTable};
ghost use Rattle.query_engine.specs.Walks.{Follows, IsSortedByReceived, dated_cmp, kept_dated, matches_list};

use crate::narrowed::{collect_narrowed_dated, narrow};
use crate::page::Page;
use crate::query::Query;
use crate::run::put_numbers;
use filter_terms::{Texts2, matches_email};
use jm_base::NoMemory;
use mail_records::{Content, Dated};
use std::alloc::Global;
use std::cmp::Ordering;

// Returns the emails that the filter matches with the times received, in number order, by a look at
// each.
fn collect_each_dated<T: Texts2>(
    alloc: Global,
    query: &Query,
    content: &Content,
    texts: &T,
) -> Result<Vec<Dated>, NoMemory>
    requires { query.now.kind ≡ OfEmails }
    ensures entries { IfOk result (λ v. v.items ≡ kept_dated query.now content.now.content
        (T.texts texts.now) content.now.content.emails) }
    ensures table { IsTable email_number content.now.content.emails }
{
    let emails = content.emails();
    let mut all = Vec::new(alloc);
    for email in emails {
        if matches_email(query.filter(), content, texts, email)? {
            all.push(Dated {
                received: email.received.seconds,
                email: email.number,
            })?;
        }
    }
    Ok(all)
}

// Returns the emails that the filter matches with the times received, in number order.
fn collect_dated<T: Texts2>(
    alloc: Global,
    query: &Query,
    content: &Content,
    texts: &T,
) -> Result<Vec<Dated>, NoMemory>
    requires { query.now.kind ≡ OfEmails }
    ensures entries { IfOk result (λ v. v.items ≡ kept_dated query.now content.now.content
        (T.texts texts.now) content.now.content.emails) }
    ensures table { IsTable email_number content.now.content.emails }
{
    let _emails = content.emails();
    match narrow(query, texts)? {
        Some(narrowed) => collect_narrowed_dated(alloc, &narrowed, query, content, texts),
        None => collect_each_dated(alloc, query, content, texts),
    }
}

// Compares two emails by the time received, ascending or descending, then by number, ascending.
fn compare_dated(ascending: bool, one: &Dated, other: &Dated) -> Ordering
    ensures { result ≡ dated_cmp ascending one.now other.now }
{
    if ascending {
        return one
            .received
            .cmp(&other.received)
            .then(one.email.cmp(&other.email));
    }
    other
        .received
        .cmp(&one.received)
        .then(one.email.cmp(&other.email))
}

fn sort_dated(ascending: bool, all: &mut Vec<Dated>)
    ensures same { IsPermutation all.old.items all.new.items }
    ensures sorted { IsSorted (dated_cmp ascending) all.new.items }
{
    all.sort_unstable_by(|a, b| compare_dated(ascending, a, b));
}

fn collect_numbers(alloc: Global, all: &[Dated]) -> Result<Vec<u64>, NoMemory>
    ensures { IfOk result (λ v. v.items ≡ map dated_owner all.now) }
{
    let mut numbers = Vec::with_capacity(alloc, all.len())?;
    for dated in all {
        numbers.push(dated.email)?;
    }
    Ok(numbers)
}

// Returns the numbers of the emails that the filter matches, by the time received.
fn collect_by_time<T: Texts2>(
    alloc: Global,
    query: &Query,
    content: &Content,
    texts: &T,
    ascending: bool,
) -> Result<Vec<u64>, NoMemory>
    requires emails { query.now.kind ≡ OfEmails }
    requires order { IsSortedByReceived query.now.order ascending }
    ensures { IfOk result (λ v. v.items
        ≡ matches_list query.now content.now.content (T.texts texts.now)) }
{
    let _mailboxes = content.mailboxes();
    let mut all = collect_dated(alloc, query, content, texts)?;
    sort_dated(ascending, &mut all);
    collect_numbers(alloc, &all)
}

/// Puts all emails that the filter matches on the page, by the time received.
pub(crate) fn put_emails_by_time<T: Texts2>(
    alloc: Global,
    page: &mut Page,
    query: &Query,
    content: &Content,
    texts: &T,
    ascending: bool,
) -> Result<(), NoMemory>
    requires emails { query.now.kind ≡ OfEmails }
    requires order { IsSortedByReceived query.now.order ascending }
    ensures { OnOk result (Follows content.now.content page.old page.new
        (matches_list query.now content.now.content (T.texts texts.now))) }
{
    let numbers = collect_by_time(alloc, query, content, texts, ascending)?;
    put_numbers(page, content, &numbers)
}

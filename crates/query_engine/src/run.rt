// The result list of a query.
ghost use Rattle.std.specs.Prelude.{◌≡◌, filter, true, IfOk, OnOk};
ghost use Rattle.mail_records.specs.Contents.{email_number, mailbox_number};
ghost use Rattle.mail_records.specs.Tables.{IsTable};
ghost use Rattle.std.specs.List.Sorted.{IsPermutation, IsSorted};
ghost use Rattle.jm_base.specs.declared.identifiers.Kind.TheVariants.{Email as OfEmails, Mailbox as OfMailboxes};
ghost use Rattle.sort_terms.specs.Orders.{numbers_cmp};
ghost use Rattle.query_engine.specs.Queries.{numbers_of, result_list};
ghost use Rattle.query_engine.specs.Walks.{Follows, at_most, collapses, is_match, kept_emails, kept_mailboxes, matches_list, IsSortedByReceived};
ghost use Rattle.query_engine.specs.Threads.{thread_of};

use crate::by_number::put_by_number;
use crate::by_time::put_emails_by_time;
use crate::narrowed::{collect_narrowed_numbers, narrow};
use crate::page::{Page, finish, is_full, new_page, put_number};
use crate::query::Query;
use crate::rows::walk;
use crate::sorted_in_mailbox::put_sorted_in_mailbox;
use crate::walks::Walk;
use filter_terms::{Texts2, matches_email, matches_mailbox};
use jm_base::{Kind, NoMemory, Numbers};
use mail_records::Content;
use sort_terms::{Order, compare_numbers, is_by_number};
use std::alloc::Global;

// Returns the numbers of the emails that the filter matches, in number order, by a look at each.
fn collect_each_email<T: Texts2>(
    alloc: Global,
    query: &Query,
    content: &Content,
    texts: &T,
) -> Result<Vec<u64>, NoMemory>
    requires { query.now.kind ≡ OfEmails }
    ensures numbers { IfOk result (λ v. v.items ≡ kept_emails query.now content.now.content
        (T.texts texts.now) content.now.content.emails) }
    ensures table { IsTable email_number content.now.content.emails }
{
    let emails = content.emails();
    let mut numbers = Vec::new(alloc);
    for email in emails {
        if matches_email(query.filter(), content, texts, email)? {
            numbers.push(email.number)?;
        }
    }
    Ok(numbers)
}

// Returns the numbers of the emails that the filter matches, in number order.
fn collect_matching_emails<T: Texts2>(
    alloc: Global,
    query: &Query,
    content: &Content,
    texts: &T,
) -> Result<Vec<u64>, NoMemory>
    requires { query.now.kind ≡ OfEmails }
    ensures numbers { IfOk result (λ v. v.items ≡ kept_emails query.now content.now.content
        (T.texts texts.now) content.now.content.emails) }
    ensures table { IsTable email_number content.now.content.emails }
{
    let _emails = content.emails();
    match narrow(query, texts)? {
        Some(narrowed) => collect_narrowed_numbers(alloc, &narrowed, query, content, texts),
        None => collect_each_email(alloc, query, content, texts),
    }
}

// Returns the numbers of the mailboxes that the filter matches, in number order.
fn collect_matching_mailboxes(
    alloc: Global,
    query: &Query,
    content: &Content,
) -> Result<Vec<u64>, NoMemory>
    requires { query.now.kind ≡ OfMailboxes }
    ensures numbers { IfOk result (λ v. v.items ≡ kept_mailboxes query.now
        content.now.content.mailboxes) }
    ensures table { IsTable mailbox_number content.now.content.mailboxes }
{
    let mailboxes = content.mailboxes();
    let mut numbers = Vec::new(alloc);
    for mailbox in mailboxes {
        if matches_mailbox(query.filter(), mailbox) {
            numbers.push(mailbox.number)?;
        }
    }
    Ok(numbers)
}

// Returns the numbers of the records that the filter matches, in number order.
fn collect_matching_numbers<T: Texts2>(
    alloc: Global,
    query: &Query,
    content: &Content,
    texts: &T,
) -> Result<Vec<u64>, NoMemory>
    ensures { IfOk result (λ v. v.items ≡ filter
        (λ n. is_match query.now content.now.content (T.texts texts.now) n)
        (numbers_of query.now.kind content.now.content)) }
{
    match query.kind() {
        Kind::Email => collect_matching_emails(alloc, query, content, texts),
        Kind::Mailbox => collect_matching_mailboxes(alloc, query, content),
        Kind::Thread => Ok(Vec::new(alloc)),
    }
}

/// Sorts numbers of records by an order.
pub(crate) fn sort_by_comparators(order: &Order, content: &Content, numbers: &mut Vec<u64>)
    ensures same { IsPermutation numbers.old.items numbers.new.items }
    ensures sorted { IsSorted (numbers_cmp order.now.kind order.now.tree content.now.content)
        numbers.new.items }
{
    numbers.sort_unstable_by(|a, b| compare_numbers(order, content, *a, *b));
}

pub(crate) fn find_thread_number(content: &Content, number: u64) -> u64
    ensures { result ≡ thread_of content.now.content number }
{
    match content.email(number) {
        Some(email) => email.thread,
        None => 0,
    }
}

// Returns the thread of an email, if a page collapses threads.
pub(crate) fn find_thread_for(page: &Page, content: &Content, number: u64) -> u64
    ensures { page.now.collapse ≡ true → thread_of content.now.content number ≡ result }
{
    if !page.collapse {
        return 0;
    }
    find_thread_number(content, number)
}

pub(crate) fn put_numbers(
    page: &mut Page,
    content: &Content,
    numbers: &[u64],
) -> Result<(), NoMemory>
    ensures { OnOk result (Follows content.now.content page.old page.new numbers.now) }
{
    for number in numbers {
        if is_full(page) {
            return Ok(());
        }
        put_number(page, find_thread_for(page, content, *number), *number)?;
    }
    Ok(())
}

// Puts what the filter matches on the page, sorted. Without a comparator the records are looked at
// in number order, until the page is full.
fn walk_sorted<T: Texts2>(
    alloc: Global,
    page: &mut Page,
    query: &Query,
    content: &Content,
    texts: &T,
) -> Result<(), NoMemory>
    ensures { OnOk result (Follows content.now.content page.old page.new
        (matches_list query.now content.now.content (T.texts texts.now))) }
{
    let _mailboxes = content.mailboxes();
    let _emails = content.emails();
    if is_by_number(query.order()) {
        return put_by_number(alloc, page, query, content, texts);
    }
    let mut numbers = collect_matching_numbers(alloc, query, content, texts)?;
    sort_by_comparators(query.order(), content, &mut numbers);
    put_numbers(page, content, &numbers)
}

// Puts the emails that the filter matches on the page, by the time received. If only some are
// wanted, they are looked at in that order. If all are, they are looked at in number order, in
// which they are in memory, and those that match are sorted.
fn walk_emails<T: Texts2>(
    alloc: Global,
    page: &mut Page,
    query: &Query,
    content: &Content,
    texts: &T,
    ascending: bool,
) -> Result<(), NoMemory>
    requires emails { query.now.kind ≡ OfEmails }
    requires order { IsSortedByReceived query.now.order ascending }
    ensures { OnOk result (Follows content.now.content page.old page.new
        (matches_list query.now content.now.content (T.texts texts.now))) }
{
    if page.max.is_none() {
        return put_emails_by_time(alloc, page, query, content, texts, ascending);
    }
    walk(
        page,
        query,
        content,
        texts,
        content.by_received(),
        ascending,
    )
}

// Puts what the filter matches on the page, in the order of the query.
fn walk_query<T: Texts2>(
    alloc: Global,
    page: &mut Page,
    query: &Query,
    content: &Content,
    texts: &T,
) -> Result<(), NoMemory>
    ensures { OnOk result (Follows content.now.content page.old page.new
        (matches_list query.now content.now.content (T.texts texts.now))) }
{
    match query.walk() {
        Walk::Sorted => walk_sorted(alloc, page, query, content, texts),
        Walk::SortedInMailbox(mailbox) => {
            put_sorted_in_mailbox(alloc, page, query, content, texts, mailbox)
        }
        Walk::ByReceived(ascending) => {
            walk_emails(alloc, page, query, content, texts, ascending)
        }
        Walk::InMailbox(mailbox, ascending) => walk(
            page,
            query,
            content,
            texts,
            content.in_mailbox(mailbox),
            ascending,
        ),
    }
}

// Returns whether threads are collapsed, which is of emails alone.
fn collapses_emails(query: &Query) -> bool
    ensures { result ≡ collapses query.now }
{
    query.collapse() && query.kind() == Kind::Email
}

/// Returns the first numbers of the result list of a query over a content, whose messages contain
/// what `texts` says: at most `max` numbers, or all of them.
pub fn run_query_upto<T: Texts2>(
    alloc: Global,
    content: &Content,
    texts: &T,
    query: &Query,
    max: Option<u64>,
) -> Result<Numbers, NoMemory>
    ensures { IfOk result (λ ids. ids
        ≡ at_most max (result_list query.now content.now.content (T.texts texts.now))) }
{
    let _emails = content.emails();
    let mut page = new_page(alloc, collapses_emails(query), max);
    walk_query(alloc, &mut page, query, content, texts)?;
    Ok(finish(page))
}

/// Returns the result list of a query over a content, whose messages contain what `texts` says: the
/// numbers of the records that it shows, in its order (RFC 8620, section 5.5).
pub fn run_query<T: Texts2>(
    alloc: Global,
    content: &Content,
    texts: &T,
    query: &Query,
) -> Result<Numbers, NoMemory>
    ensures { IfOk result (λ ids. ids
        ≡ result_list query.now content.now.content (T.texts texts.now)) }
{
    run_query_upto(alloc, content, texts, query, None)
}

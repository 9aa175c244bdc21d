// The records that match, in number order, which is the order of a query without a sort.
ghost use Rattle.std.specs.Prelude.{◌≡◌, OnOk, true};
ghost use Rattle.jm_base.specs.declared.identifiers.Kind.TheVariants.{Email as OfEmails, Mailbox as OfMailboxes};
ghost use Rattle.mail_records.specs.Contents.{email_number, mailbox_number};
ghost use Rattle.mail_records.specs.Tables.{IsTable};
ghost use Rattle.sort_terms.specs.Orders.{is_by_number};
ghost use Rattle.query_engine.specs.Walks.{Follows, kept_emails, kept_mailboxes, matches_list};

use crate::narrowed::{collect_narrowed_numbers, narrow};
use crate::page::{Page, is_full, put_number};
use crate::query::Query;
use crate::rows::visit_email;
use crate::run::{find_thread_for, put_numbers};
use filter_terms::{Texts2, matches_mailbox};
use jm_base::{Kind, NoMemory};
use mail_records::Content;
use std::alloc::Global;

// Puts the emails that the filter matches on the page, by a look at each until the page is full.
fn put_each_email<T: Texts2>(
    page: &mut Page,
    query: &Query,
    content: &Content,
    texts: &T,
) -> Result<(), NoMemory>
    requires { query.now.kind ≡ OfEmails }
    ensures follows { OnOk result (Follows content.now.content page.old page.new
        (kept_emails query.now content.now.content (T.texts texts.now)
        content.now.content.emails)) }
    ensures table { IsTable email_number content.now.content.emails }
{
    let emails = content.emails();
    for email in emails {
        if is_full(page) {
            return Ok(());
        }
        visit_email(page, query, content, texts, email)?;
    }
    Ok(())
}

// Puts the emails that the filter matches on the page, in number order.
fn put_emails_by_number<T: Texts2>(
    alloc: Global,
    page: &mut Page,
    query: &Query,
    content: &Content,
    texts: &T,
) -> Result<(), NoMemory>
    requires { query.now.kind ≡ OfEmails }
    ensures follows { OnOk result (Follows content.now.content page.old page.new
        (kept_emails query.now content.now.content (T.texts texts.now)
        content.now.content.emails)) }
    ensures table { IsTable email_number content.now.content.emails }
{
    let _emails = content.emails();
    match narrow(query, texts)? {
        Some(narrowed) => {
            let numbers = collect_narrowed_numbers(alloc, &narrowed, query, content, texts)?;
            put_numbers(page, content, &numbers)
        }
        None => put_each_email(page, query, content, texts),
    }
}

// Puts the mailboxes that the filter matches on the page, by a look at each until it is full.
fn put_each_mailbox(page: &mut Page, query: &Query, content: &Content) -> Result<(), NoMemory>
    requires { query.now.kind ≡ OfMailboxes }
    ensures follows { OnOk result (Follows content.now.content page.old page.new
        (kept_mailboxes query.now content.now.content.mailboxes)) }
    ensures table { IsTable mailbox_number content.now.content.mailboxes }
{
    let mailboxes = content.mailboxes();
    for mailbox in mailboxes {
        if is_full(page) {
            return Ok(());
        }
        if !matches_mailbox(query.filter(), mailbox) {
            continue;
        }
        let thread = find_thread_for(page, content, mailbox.number);
        put_number(page, thread, mailbox.number)?;
    }
    Ok(())
}

/// Puts what the filter of a query without a sort matches on the page. It looks at no more records
/// than the page needs, unless one search for a text in all messages decides for most emails.
pub(crate) fn put_by_number<T: Texts2>(
    alloc: Global,
    page: &mut Page,
    query: &Query,
    content: &Content,
    texts: &T,
) -> Result<(), NoMemory>
    requires { is_by_number query.now.kind query.now.order ≡ true }
    ensures { OnOk result (Follows content.now.content page.old page.new
        (matches_list query.now content.now.content (T.texts texts.now))) }
{
    let _mailboxes = content.mailboxes();
    let _emails = content.emails();
    match query.kind() {
        Kind::Email => put_emails_by_number(alloc, page, query, content, texts),
        Kind::Mailbox => put_each_mailbox(page, query, content),
        Kind::Thread => Ok(()),
    }
}

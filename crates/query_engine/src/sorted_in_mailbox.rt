// The emails in a mailbox that match, sorted by the comparators of a query.
ghost use Rattle.std.specs.Prelude.{◌≡◌, IfOk, OnOk, map};
ghost use Rattle.jm_base.specs.declared.identifiers.Kind.TheVariants.{Email as OfEmails};
ghost use Rattle.query_engine.specs.Walks.{Follows, IsInMailbox, matches_list, matching, placed_row};

use crate::page::Page;
use crate::query::Query;
use crate::run::{put_numbers, sort_by_comparators};
use filter_terms::{Texts2, matches};
use jm_base::NoMemory;
use mail_records::{Content, Placed};
use std::alloc::Global;

// Returns the numbers of the emails of these entries that the filter matches, in their order.
fn collect_matching_entries<T: Texts2>(
    alloc: Global,
    query: &Query,
    content: &Content,
    texts: &T,
    entries: &[Placed],
) -> Result<Vec<u64>, NoMemory>
    ensures { IfOk result (λ v. v.items ≡ matching query.now content.now.content
        (T.texts texts.now) (map placed_row entries.now)) }
{
    let mut numbers = Vec::new(alloc);
    for entry in entries {
        if matches(query.filter(), content, texts, entry.email)? {
            numbers.push(entry.email)?;
        }
    }
    Ok(numbers)
}

/// Puts the emails in a mailbox that the filter matches on the page, sorted. The filter matches no
/// other email.
pub(crate) fn put_sorted_in_mailbox<T: Texts2>(
    alloc: Global,
    page: &mut Page,
    query: &Query,
    content: &Content,
    texts: &T,
    mailbox: u64,
) -> Result<(), NoMemory>
    requires emails { query.now.kind ≡ OfEmails }
    requires within { IsInMailbox query.now.filter mailbox }
    ensures { OnOk result (Follows content.now.content page.old page.new
        (matches_list query.now content.now.content (T.texts texts.now))) }
{
    let entries = content.in_mailbox(mailbox);
    let mut numbers = collect_matching_entries(alloc, query, content, texts, entries)?;
    sort_by_comparators(query.order(), content, &mut numbers);
    put_numbers(page, content, &numbers)
}

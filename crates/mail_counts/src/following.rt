// The edits that follow from others: of threads whose emails changed, and of mailboxes whose counts
// did.
ghost use Rattle.std.specs.Prelude.{◌≡◌, ◌++◌, [], ℕ, IfOk, OnOk, map, option_map};
ghost use Rattle.std.specs.List.{AllByRecursion, flat_map};
ghost use Rattle.mail_records.specs.Commits.{NumbersRise};
ghost use Rattle.mail_records.specs.Contents.{email_number, mailbox_number};
ghost use Rattle.mail_records.specs.Edits.{AllFit, IsSmall, after_edits};
ghost use Rattle.mail_records.specs.Tables.{IsTable};
ghost use Rattle.mail_counts.specs.CountsFlag.{AreCountsFlagsRight};
ghost use Rattle.mail_counts.specs.Derived.{AllKeepCounts, AreCounted, IsOfMailbox, LeavesEmails};
ghost use Rattle.mail_counts.specs.DerivedEdits.{are_equal_counts, count_after, count_edits, counts_after, derived_edits, edits_of_thread, own_counts, put_counts, same_numbers, with_counts};
ghost use Rattle.mail_counts.specs.Members.{member_cmp, member_group, member_number, of_group, thread_members};
ghost use Rattle.mail_counts.specs.Overlay.{all_listed, emails_among, if_of_threads, listed_at};
ghost use Rattle.mail_counts.specs.Steps.{counted_edits, listed_edits};
ghost use Rattle.mail_counts.specs.Tidy.{AreThreadsTidy, IsTidy};
ghost use Rattle.mail_counts.specs.TidyBut.{LeaveTidyButThreadsAndCounts};
ghost use Rattle.mail_counts.specs.Touched.{rising, sorted_once};

use crate::MailboxCounts;
use crate::members::{Member, Members};
use crate::overlay::Overlaid;
use crate::tally::Tally;
use crate::touched::{collect_touched_emails, collect_touched_threads, is_one_of, put_in_order};
use jm_base::{NoMemory, Numbers};
use mail_records::{Content, Edit, Edits, Email, Mailbox, Record, Thread};
use std::alloc::Global;

// Adds an email, if there is one and it is of one of these threads.
fn add_if_of<'a>(
    emails: &mut Vec<&'a Email>,
    found: Option<&'a Email>,
    threads: &[u64],
) -> Result<(), NoMemory>
    requires rise { NumbersRise threads.now }
    ensures { OnOk result (map (λ r. r.now) emails.new.items ≡ map (λ r. r.now) emails.old.items
        ++ listed_at (if_of_threads threads.now) (option_map (λ r. r.now) found.entry)) }
{
    let Some(email) = found else {
        return Ok(());
    };
    if is_one_of(threads, email.thread) {
        emails.push(email)?;
        return Ok(());
    }
    Ok(())
}

// Returns the emails of these numbers that are of these threads.
fn collect_emails_of_threads<'a>(
    alloc: Global,
    content: &Overlaid<'a>,
    numbers: &[u64],
    threads: &[u64],
) -> Result<Vec<&'a Email>, NoMemory>
    requires rise { NumbersRise threads.now }
    ensures { IfOk result (λ v. map (λ r. r.now) v.items
        ≡ emails_among threads.now content.now.emails numbers.now) }
{
    let mut emails = Vec::new(alloc);
    for number in numbers {
        add_if_of(&mut emails, content.email(*number), threads)?;
    }
    Ok(emails)
}

/// Returns emails as the members of their threads.
pub(crate) fn collect_thread_members(
    alloc: Global,
    emails: &[&Email],
) -> Result<Vec<Member>, NoMemory>
    ensures { IfOk result (λ v. v.items ≡ thread_members (map (λ r. r.now) emails.now)) }
{
    let mut members = Vec::new(alloc);
    for email in emails {
        members.push(Member {
            group: email.thread,
            received: email.received.seconds,
            number: email.number,
        })?;
    }
    Ok(members)
}

/// Returns the numbers of members.
pub(crate) fn collect_numbers(alloc: Global, members: &[Member]) -> Result<Vec<u64>, NoMemory>
    ensures { IfOk result (λ v. v.items ≡ map member_number members.now) }
{
    let mut numbers = Vec::new(alloc);
    for member in members {
        numbers.push(member.number)?;
    }
    Ok(numbers)
}

/// Returns whether two lists of numbers are the same.
pub(crate) fn are_same_numbers(one: &[u64], other: &[u64]) -> bool
    ensures { result ≡ same_numbers one.now other.now }
{
    one == other
}

// Adds the edits of a thread that lists these emails now.
fn add_edits_of_thread(
    edits: &mut Vec<Edit>,
    number: u64,
    emails: Vec<u64>,
    old: Option<&Thread>,
) -> Result<(), NoMemory>
    ensures { OnOk result (edits.new.items ≡ edits.old.items
        ++ edits_of_thread number emails.items (option_map (λ r. r.now) old.entry)) }
{
    let is_empty = emails.is_empty();
    let was = old.is_some();
    if let Some(old) = old {
        if !is_empty && are_same_numbers(old.emails.as_slice(), &emails) {
            return Ok(());
        }
    }
    if !is_empty || !was {
        let emails = Numbers::from_vec(emails);
        let item = Thread { number, emails };
        edits.push(Edit::PutThread { item, was })?;
    }
    if is_empty {
        edits.push(Edit::DropThread { number })?;
    }
    Ok(())
}

// Adds the edits of these threads, of which these are the emails.
fn add_thread_edits(
    alloc: Global,
    edits: &mut Vec<Edit>,
    content: &Overlaid,
    members: &Members,
    threads: &[u64],
) -> Result<(), NoMemory>
    ensures { OnOk result (edits.new.items ≡ edits.old.items
        ++ flat_map (listed_edits content.now members.now) threads.now) }
{
    for thread in threads {
        let emails = collect_numbers(alloc, members.of_group(*thread))?;
        add_edits_of_thread(edits, *thread, emails, content.thread(*thread))?;
    }
    Ok(())
}

// Returns a count with what is added and without what is taken.
fn count_after(own: u64, added: u64, taken: u64) -> u64
    ensures { result ≡ count_after own added taken }
{
    if added <= taken {
        own.saturating_sub(taken - added)
    } else {
        own.saturating_add(added - taken)
    }
}

// Returns a mailbox's counts with what is added and without what is taken.
fn compute_counts_after(
    own: &MailboxCounts,
    added: &MailboxCounts,
    taken: &MailboxCounts,
) -> MailboxCounts
    ensures { result ≡ counts_after own.now added.now taken.now }
{
    MailboxCounts {
        total_emails: count_after(own.total_emails, added.total_emails, taken.total_emails),
        unread_emails: count_after(own.unread_emails, added.unread_emails, taken.unread_emails),
        total_threads: count_after(own.total_threads, added.total_threads, taken.total_threads),
        unread_threads: count_after(
            own.unread_threads,
            added.unread_threads,
            taken.unread_threads,
        ),
    }
}

/// Returns the counts that a mailbox has.
pub(crate) fn copy_counts(mailbox: &Mailbox) -> MailboxCounts
    ensures { result ≡ own_counts mailbox.now }
{
    MailboxCounts {
        total_emails: mailbox.total_emails,
        unread_emails: mailbox.unread_emails,
        total_threads: mailbox.total_threads,
        unread_threads: mailbox.unread_threads,
    }
}

/// Returns whether the four counts are the same.
pub(crate) fn are_equal_counts(one: &MailboxCounts, other: &MailboxCounts) -> bool
    ensures { result ≡ are_equal_counts one.now other.now }
{
    one.total_emails == other.total_emails
        && one.unread_emails == other.unread_emails
        && one.total_threads == other.total_threads
        && one.unread_threads == other.unread_threads
}

// Returns a copy of a mailbox with these counts.
fn with_counts(
    alloc: Global,
    mailbox: &Mailbox,
    counts: &MailboxCounts,
) -> Result<Mailbox, NoMemory>
    ensures { IfOk result (λ m. m ≡ with_counts counts.now mailbox.now) }
{
    let mut item = mailbox.copy(alloc)?;
    item.total_emails = counts.total_emails;
    item.unread_emails = counts.unread_emails;
    item.total_threads = counts.total_threads;
    item.unread_threads = counts.unread_threads;
    Ok(item)
}

// Adds the put of a mailbox with these counts, if it has others.
fn add_put_of_counts(
    alloc: Global,
    edits: &mut Vec<Edit>,
    mailbox: &Mailbox,
    counts: &MailboxCounts,
) -> Result<(), NoMemory>
    ensures { OnOk result (edits.new.items ≡ edits.old.items
        ++ put_counts counts.now mailbox.now) }
{
    if are_equal_counts(&copy_counts(mailbox), counts) {
        return Ok(());
    }
    let item = with_counts(alloc, mailbox, counts)?;
    let was = true;
    let counts = true;
    edits.push(Edit::PutMailbox { item, was, counts })?;
    Ok(())
}

// Adds the put of a mailbox, if there is one and its counts change.
fn add_count_edit(
    alloc: Global,
    edits: &mut Vec<Edit>,
    found: Option<&Mailbox>,
    were: &Tally,
    are: &Tally,
) -> Result<(), NoMemory>
    ensures { OnOk result (edits.new.items ≡ edits.old.items
        ++ listed_at (counted_edits were.now are.now) (option_map (λ r. r.now) found.entry)) }
{
    let Some(mailbox) = found else {
        return Ok(());
    };
    let added = are.counts(mailbox.number);
    let taken = were.counts(mailbox.number);
    let counts = compute_counts_after(&copy_counts(mailbox), &added, &taken);
    add_put_of_counts(alloc, edits, mailbox, &counts)?;
    Ok(())
}

// Adds the puts of those of these mailboxes whose counts change.
fn add_count_edits(
    alloc: Global,
    edits: &mut Vec<Edit>,
    content: &Overlaid,
    were: &Tally,
    are: &Tally,
    numbers: &[u64],
) -> Result<(), NoMemory>
    ensures { OnOk result (edits.new.items ≡ edits.old.items
        ++ all_listed mailbox_number (counted_edits were.now are.now) content.now.mailboxes
        numbers.now) }
{
    for number in numbers {
        add_count_edit(alloc, edits, content.mailbox(*number), were, are)?;
    }
    Ok(())
}

// Returns the numbers of the mailboxes whose counts may change.
fn collect_counted_mailboxes(alloc: Global, were: &Tally, are: &Tally) -> Result<Vec<u64>, NoMemory>
    ensures is { IfOk result (λ v. v.items ≡ rising (map member_group were.now.total_emails
        ++ map member_group are.now.total_emails)) }
    ensures rise { IfOk result (λ v. NumbersRise v.items) }
{
    let mut numbers = Vec::new(alloc);
    were.add_mailboxes(&mut numbers)?;
    are.add_mailboxes(&mut numbers)?;
    put_in_order(&mut numbers);
    Ok(numbers)
}

// Adds the edits of these threads, of which these are the emails.
fn add_listed_edits(
    alloc: Global,
    edits: &mut Vec<Edit>,
    content: &Overlaid,
    emails: &[&Email],
    threads: &[u64],
) -> Result<(), NoMemory>
    ensures { OnOk result (edits.new.items ≡ edits.old.items
        ++ flat_map (listed_edits content.now (sorted_once member_cmp
        (thread_members (map (λ r. r.now) emails.now)))) threads.now) }
{
    let members = Members::new(collect_thread_members(alloc, emails)?);
    add_thread_edits(alloc, edits, content, &members, threads)?;
    Ok(())
}

// Adds the puts of the mailboxes whose counts change from one tally to another.
fn add_counted_edits(
    alloc: Global,
    edits: &mut Vec<Edit>,
    content: &Overlaid,
    were: &Tally,
    are: &Tally,
) -> Result<(), NoMemory>
    ensures { OnOk result (edits.new.items ≡ edits.old.items
        ++ all_listed mailbox_number (counted_edits were.now are.now) content.now.mailboxes
        (rising (map member_group were.now.total_emails
        ++ map member_group are.now.total_emails))) }
{
    let mailboxes = collect_counted_mailboxes(alloc, were, are)?;
    add_count_edits(alloc, edits, content, were, are, &mailboxes)
}

// Adds the puts of the mailboxes whose counts change as some emails became others.
fn add_recounted(
    alloc: Global,
    edits: &mut Vec<Edit>,
    content: &Overlaid,
    were: &[&Email],
    are: &[&Email],
) -> Result<(), NoMemory>
    requires before { IsTable email_number (map (λ r. r.now) were.now) }
    requires after { IsTable email_number (map (λ r. r.now) are.now) }
    requires mailboxes { IsTable mailbox_number content.now.mailboxes }
    ensures { OnOk result (edits.new.items ≡ edits.old.items
        ++ flat_map (count_edits (map (λ r. r.now) were.now) (map (λ r. r.now) are.now))
        content.now.mailboxes) }
{
    let were = Tally::new(alloc, were)?;
    let are = Tally::new(alloc, are)?;
    add_counted_edits(alloc, edits, content, &were, &are)
}

// Returns the edits that follow from edits of a content.
fn build_derived_edits(
    alloc: Global,
    before: &Content,
    edits: &[Edit],
) -> Result<Vec<Edit>, NoMemory>
    ensures { IfOk result (λ v. v.items ≡ derived_edits before.now.content edits.now) }
{
    let threads = collect_touched_threads(alloc, edits)?;
    let numbers = collect_touched_emails(alloc, before, edits, &threads)?;
    let old = Overlaid::new(alloc, before, &[])?;
    let new = Overlaid::new(alloc, before, edits)?;
    let emails_before = collect_emails_of_threads(alloc, &old, &numbers, &threads)?;
    let emails_after = collect_emails_of_threads(alloc, &new, &numbers, &threads)?;
    let mut all = Vec::new(alloc);
    add_listed_edits(alloc, &mut all, &new, &emails_after, &threads)?;
    add_recounted(alloc, &mut all, &new, &emails_before, &emails_after)?;
    Ok(all)
}

/// Returns the edits that follow from edits of a content: those of the threads that edits of emails
/// name, so that each lists its emails, and then those of the mailboxes whose counts change, each
/// in number order (RFC 8621, sections 2 and 3). It goes over the emails of these threads alone.
///
/// A count is the mailbox's own with what the emails of these threads add to it and without what
/// they took before. A thread without emails is dropped, and a new one that has none is put first.
///
/// After edits that leave emails, mailboxes of a tidy content still have their counts where new
/// ones were put with counts 0 and the others with those that they had; and where all edits are of
/// mailboxes, the threads are still those of the emails.
pub fn derived(alloc: Global, before: &Content, edits: &[Edit]) -> Result<Edits, NoMemory>
    ensures more { IfOk result (λ more. more ≡ derived_edits before.now.content edits.now) }
    ensures tidy { IfOk result (λ more. IsTidy before.now.content
        → LeaveTidyButThreadsAndCounts before.now.content edits.now
        → IsTidy (after_edits before.now.content (edits.now ++ more))) }
    ensures fit { IfOk result (λ more. IsTidy before.now.content
        → LeaveTidyButThreadsAndCounts before.now.content edits.now
        → AllFit before.now.content (edits.now ++ more)) }
    ensures small { IfOk result (AllByRecursion IsSmall) }
    ensures emails { IfOk result (AllByRecursion LeavesEmails) }
    ensures flags { IfOk result (AreCountsFlagsRight (after_edits before.now.content edits.now)) }
    ensures none { IfOk result (λ more. AllByRecursion LeavesEmails edits.now → more ≡ []) }
    ensures counts { IfOk result (λ more. AllFit before.now.content edits.now
        → AllByRecursion LeavesEmails edits.now
        → IsTidy before.now.content
        → AllKeepCounts before.now.content edits.now
        → AreCounted (after_edits before.now.content (edits.now ++ more))) }
    ensures threads { IfOk result (λ more. AllByRecursion IsOfMailbox edits.now
        → AreThreadsTidy before.now.content
        → AreThreadsTidy (after_edits before.now.content (edits.now ++ more))) }
{
    let _mailboxes = before.mailboxes();
    let _emails = before.emails();
    let _threads = before.threads();
    let more = build_derived_edits(alloc, before, edits)?;
    Ok(Edits::from_vec(more))
}

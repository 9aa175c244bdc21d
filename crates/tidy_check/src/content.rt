// Whether a content is tidy.
ghost use Rattle.std.specs.Prelude.{◌≡◌, ◌↔◌, ◌++◌, IfOk, IsTrue, map};
ghost use Rattle.mail_counts.specs.Tidy.{IsTidy};
ghost use Rattle.tidy_check.specs.Checks.{passes};

use crate::emails::are_filed;
use crate::mailboxes::are_placed;
use crate::numbers::has_nexts;
use crate::roots::are_rooted;
use crate::threads::are_listed;
use jm_base::NoMemory;
use mail_counts::{MAX_EMAILS_PER_ACCOUNT, Tally, ThreadLists};
use mail_records::{Content, Email};
use std::alloc::Global;

// Returns references to emails.
fn borrow_all<'a>(alloc: Global, emails: &'a [Email]) -> Result<Vec<&'a Email>, NoMemory>
    ensures { IfOk result (λ v. map (λ r. r.now) v.items ≡ emails.now) }
{
    let mut borrowed = Vec::new(alloc);
    for email in emails {
        borrowed.push(email)?;
    }
    Ok(borrowed)
}

// Returns whether the records pass all tests.
fn passes(alloc: Global, content: &Content) -> Result<bool, NoMemory>
    ensures { IfOk result (λ b. b ≡ passes content.now.content) }
{
    if !has_nexts(content) {
        return Ok(false);
    }
    if content.emails().len() > MAX_EMAILS_PER_ACCOUNT {
        return Ok(false);
    }
    if !are_filed(content, content.emails()) {
        return Ok(false);
    }
    if !are_rooted(alloc, content, content.mailboxes())? {
        return Ok(false);
    }
    let emails = borrow_all(alloc, content.emails())?;
    let tally = Tally::new(alloc, &emails)?;
    if !are_placed(content, &tally, content.mailboxes()) {
        return Ok(false);
    }
    let lists = ThreadLists::new(alloc, &emails)?;
    are_listed(alloc, content, &lists, content.threads())
}

/// Returns whether a content is tidy: names, roles, parents and counts of its mailboxes, mailboxes,
/// keywords and dates of its emails, and the emails that its threads list are as RFC 8621 (sections
/// 2 to 4) has them, and each number is from 1 and below its kind's next one. Takes time linear in
/// the records, but for sorting. Fails if an allocation fails.
pub fn is_tidy(alloc: Global, content: &Content) -> Result<bool, NoMemory>
    ensures { IfOk result (λ b. IsTrue b ↔ IsTidy content.now.content) }
{
    let _mailboxes = content.mailboxes();
    let _emails = content.emails();
    let _threads = content.threads();
    passes(alloc, content)
}

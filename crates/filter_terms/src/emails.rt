// Whether a condition matches an email (RFC 8621, section 4.4.1).
ghost use Rattle.std.specs.Prelude.{◌≡◌, ◌==◌};
ghost use Rattle.std.specs.List.{list_all, list_any};
ghost use Rattle.mail_counts.specs.Counts.{has_keyword, is_in};
ghost use Rattle.mail_records.specs.Contents.{email_at};
ghost use Rattle.method_args.specs.Arguments.{passes};
ghost use Rattle.filter_terms.specs.EmailTerms.{keyword_holds};
ghost use Rattle.filter_terms.specs.Compiled.{email_matches, is_other_than};
ghost use Rattle.filter_terms.specs.Targets.{of_thread, email_in_thread};

use crate::conditions::EmailCondition;
use crate::terms::KeywordTest;
use mail_records::{Content, Email, Threaded};

/// Returns whether an email has the keyword, which is in lower case.
pub fn has_keyword(keyword: &str, email: &Email) -> bool
    ensures { result ≡ has_keyword keyword.now email.now }
{
    for own in email.keywords.as_slice() {
        if own.as_str() == keyword {
            return true;
        }
    }
    false
}

fn is_in(mailbox: u64, email: &Email) -> bool
    ensures { result ≡ is_in mailbox email.now }
{
    for own in email.mailboxes.as_slice() {
        if *own == mailbox {
            return true;
        }
    }
    false
}

fn is_other_than(numbers: &[u64], mailbox: u64) -> bool
    ensures { result ≡ is_other_than numbers.now mailbox }
{
    for number in numbers {
        if *number == mailbox {
            return false;
        }
    }
    true
}

fn is_in_other_than(numbers: &[u64], email: &Email) -> bool
    ensures { result ≡ list_any (λ m. is_other_than numbers.now m) email.now.mailboxes }
{
    for own in email.mailboxes.as_slice() {
        if is_other_than(numbers, *own) {
            return true;
        }
    }
    false
}

// Returns whether the email of an entry has the keyword.
fn has_keyword_in_entry(keyword: &str, content: &Content, entry: &Threaded) -> bool
    ensures { result ≡ passes (λ e. has_keyword keyword.now e)
        (email_at content.now.content entry.now.email) }
{
    match content.email(entry.email) {
        Some(email) => has_keyword(keyword, email),
        None => false,
    }
}

fn has_keyword_in_some_entry(keyword: &str, content: &Content, entries: &[Threaded]) -> bool
    ensures { result ≡ list_any (λ t. passes (λ e. has_keyword keyword.now e)
        (email_at content.now.content t.email)) entries.now }
{
    for entry in entries {
        if has_keyword_in_entry(keyword, content, entry) {
            return true;
        }
    }
    false
}

fn has_keyword_in_each_entry(keyword: &str, content: &Content, entries: &[Threaded]) -> bool
    ensures { result ≡ list_all (λ t. passes (λ e. has_keyword keyword.now e)
        (email_at content.now.content t.email)) entries.now }
{
    for entry in entries {
        if !has_keyword_in_entry(keyword, content, entry) {
            return false;
        }
    }
    true
}

/// Returns whether some email of a thread has the keyword, which is in lower case.
#[tactic(auto, using(crate::proofs::ThreadEntries::some_entry))]
pub fn has_some_in_thread(keyword: &str, content: &Content, thread: u64) -> bool
    ensures { result ≡ list_any (λ e. has_keyword keyword.now e)
        (of_thread thread content.now.content.emails) }
{
    let _emails = content.emails();
    has_keyword_in_some_entry(keyword, content, content.find_in_thread(thread))
}

/// Returns whether all emails of a thread have the keyword, which is in lower case.
#[tactic(auto, using(crate::proofs::ThreadEntries::all_entries))]
pub fn has_all_in_thread(keyword: &str, content: &Content, thread: u64) -> bool
    ensures { result ≡ list_all (λ e. has_keyword keyword.now e)
        (of_thread thread content.now.content.emails) }
{
    let _emails = content.emails();
    has_keyword_in_each_entry(keyword, content, content.find_in_thread(thread))
}

fn match_keyword_test(test: KeywordTest, keyword: &str, content: &Content, email: &Email) -> bool
    ensures { result ≡ keyword_holds (email_in_thread content.now.content.emails email.now) test
        keyword.now }
{
    match test {
        KeywordTest::AllInThread => has_all_in_thread(keyword, content, email.thread),
        KeywordTest::SomeInThread => has_some_in_thread(keyword, content, email.thread),
        KeywordTest::NoneInThread => !has_some_in_thread(keyword, content, email.thread),
        KeywordTest::Has => has_keyword(keyword, email),
        KeywordTest::HasNot => !has_keyword(keyword, email),
    }
}

/// Returns whether a condition that looks at no text matches an email of a content.
pub(crate) fn match_email_condition(
    condition: &EmailCondition,
    content: &Content,
    email: &Email,
) -> bool
    ensures { result ≡ email_matches (email_in_thread content.now.content.emails email.now)
        condition.now }
{
    match condition {
        EmailCondition::Never => false,
        EmailCondition::InMailbox(number) => is_in(*number, email),
        EmailCondition::InMailboxOtherThan(numbers) => is_in_other_than(numbers.as_slice(), email),
        EmailCondition::Before(date) => email.received.seconds < *date,
        EmailCondition::After(date) => *date <= email.received.seconds,
        EmailCondition::MinSize(size) => *size <= email.size,
        EmailCondition::MaxSize(size) => email.size < *size,
        EmailCondition::Keyword(test, keyword) => {
            match_keyword_test(*test, keyword.as_str(), content, email)
        }
        EmailCondition::HasAttachment(flag) => *flag == email.summary.attachment,
    }
}

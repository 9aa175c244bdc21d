// The emails that match, where one search for a text in all messages decides for most of them.
ghost use Rattle.std.specs.Prelude.{◌≡◌, IfOk, IfSome};
ghost use Rattle.text_column.specs.Columns.{mark_of};
ghost use Rattle.mail_records.specs.Contents.{blob_of, email_number};
ghost use Rattle.mail_records.specs.Tables.{IsTable};
ghost use Rattle.filter_terms.specs.Filters.{holds};
ghost use Rattle.filter_terms.specs.Targets.{AnEmail, email_in_thread};
ghost use Rattle.query_engine.specs.Narrowed.{Narrows};
ghost use Rattle.query_engine.specs.Walks.{kept_dated, kept_emails};

use crate::query::Query;
use filter_terms::{Place, Texts2, find_required_text, matches_email};
use jm_base::NoMemory;
use mail_records::{Content, Dated, Email, EmailBlob};
use std::alloc::Global;
use text_column::Mark;

/// The marks of all blobs by a text that the filter of a query asks for in the field From.
#[derive(Drop)]
pub(crate) struct Narrowed {
    pub marks: Vec<Mark>,
    /// Whether the filter asks for this text and for nothing else.
    pub alone: bool,
}

/// Looks for a text that the filter asks for in all messages. Returns none if the filter asks for
/// none, or if the texts of messages are not kept together.
pub(crate) fn narrow<T: Texts2>(query: &Query, texts: &T) -> Result<Option<Narrowed>, NoMemory>
    ensures { IfOk result (λ o. IfSome o (Narrows query.now (T.texts texts.now))) }
{
    let Some(required) = find_required_text(query.filter(), Place::From) else {
        return Ok(None);
    };
    let Some(marks) = texts.find_marks(Place::From, required.needle)? else {
        return Ok(None);
    };
    Ok(Some(Narrowed {
        marks,
        alone: required.alone,
    }))
}

// Returns the mark of the blob of a number.
fn find_mark(marks: &[Mark], blob: u64) -> Mark
    ensures { result ≡ mark_of marks.now blob }
{
    if blob == 0 {
        return Mark::Open;
    }
    match marks.get((blob - 1) as usize) {
        Some(mark) => *mark,
        None => Mark::Open,
    }
}

// Returns whether the filter matches an email. The record is read only if the mark of its blob
// leaves that open.
fn matches_marked<T: Texts2>(
    narrowed: &Narrowed,
    query: &Query,
    content: &Content,
    texts: &T,
    entry: &EmailBlob,
    email: &Email,
) -> Result<bool, NoMemory>
    requires narrows { Narrows query.now (T.texts texts.now) narrowed.now }
    requires entry { entry.now ≡ blob_of email.now }
    ensures { IfOk result (λ b. b ≡ holds query.now.kind (AnEmail (T.texts texts.now)
        (email_in_thread content.now.content.emails email.now)) query.now.filter) }
{
    match find_mark(&narrowed.marks, entry.blob) {
        Mark::HasNot => return Ok(false),
        Mark::Has => {
            if narrowed.alone {
                return Ok(true);
            }
        }
        Mark::Open => {}
    }
    matches_email(query.filter(), content, texts, email)
}

/// Returns the numbers of the emails that the filter matches, in number order.
pub(crate) fn collect_narrowed_numbers<T: Texts2>(
    alloc: Global,
    narrowed: &Narrowed,
    query: &Query,
    content: &Content,
    texts: &T,
) -> Result<Vec<u64>, NoMemory>
    requires { Narrows query.now (T.texts texts.now) narrowed.now }
    ensures numbers { IfOk result (λ v. v.items ≡ kept_emails query.now content.now.content
        (T.texts texts.now) content.now.content.emails) }
    ensures table { IsTable email_number content.now.content.emails }
{
    let emails = content.emails();
    let entries = content.email_blobs();
    let mut numbers = Vec::new(alloc);
    let mut index = 0;
    for entry in entries {
        let email = &emails[index];
        index += 1;
        if matches_marked(narrowed, query, content, texts, entry, email)? {
            numbers.push(entry.email)?;
        }
    }
    Ok(numbers)
}

/// Returns the emails that the filter matches with the times received, in number order.
pub(crate) fn collect_narrowed_dated<T: Texts2>(
    alloc: Global,
    narrowed: &Narrowed,
    query: &Query,
    content: &Content,
    texts: &T,
) -> Result<Vec<Dated>, NoMemory>
    requires { Narrows query.now (T.texts texts.now) narrowed.now }
    ensures entries { IfOk result (λ v. v.items ≡ kept_dated query.now content.now.content
        (T.texts texts.now) content.now.content.emails) }
    ensures table { IsTable email_number content.now.content.emails }
{
    let emails = content.emails();
    let entries = content.email_blobs();
    let mut all = Vec::new(alloc);
    let mut index = 0;
    for entry in entries {
        let email = &emails[index];
        index += 1;
        if matches_marked(narrowed, query, content, texts, entry, email)? {
            all.push(Dated {
                received: email.received.seconds,
                email: entry.email,
            })?;
        }
    }
    Ok(all)
}

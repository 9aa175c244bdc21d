// How many bytes edits take where they are kept. A sum stops at 2^64 - 1.
ghost use Rattle.std.specs.Prelude.{◌≡◌, ◌+◌, length};
ghost use Rattle.record_codec.specs.Sizes.{capped, edit_bytes};
ghost use Rattle.record_codec.specs.Encoding.{blob, listed, number, optional, date, summary, mailbox, email, thread, edit};

use jm_base::{Text, UtcDate};
use mail_records::{Edit, Email, Mailbox, Summary, Thread};

// Returns the sum with the bytes of a string added.
#[tactic(auto, using(crate::proofs::Lengths::blob_size))]
fn add_text(sum: u64, text: &Text) -> u64
    ensures { result ≡ capped (sum + length (blob text.now)) }
{
    sum.saturating_add(8)
        .saturating_add(text.as_bytes().len() as u64)
}

// Returns the sum with the bytes of a list of strings added.
fn add_texts(sum: u64, texts: &[Text]) -> u64
    ensures { result ≡ capped (sum + length (listed blob texts.now)) }
{
    let mut total = sum.saturating_add(8);
    for text in texts {
        total = add_text(total, text);
    }
    total
}

// Returns the sum with the bytes of a list of numbers added.
#[tactic(auto, using(crate::proofs::Lengths::numbers_size))]
fn add_numbers(sum: u64, numbers: &[u64]) -> u64
    ensures { result ≡ capped (sum + length (listed number numbers.now)) }
{
    let bytes = (numbers.len() as u64).saturating_mul(8);
    sum.saturating_add(8).saturating_add(bytes)
}

// Returns the sum with the bytes of an optional number added.
#[tactic(auto, using(crate::proofs::Lengths::number_size))]
fn add_optional_number(sum: u64, value: Option<u64>) -> u64
    ensures { result ≡ capped (sum + length (optional number value)) }
{
    match value {
        None => sum.saturating_add(1),
        Some(_) => sum.saturating_add(9),
    }
}

// Returns the sum with the bytes of an optional string added.
fn add_optional_text(sum: u64, value: &Option<Text>) -> u64
    ensures { result ≡ capped (sum + length (optional blob value.now)) }
{
    match value {
        None => sum.saturating_add(1),
        Some(text) => add_text(sum.saturating_add(1), text),
    }
}

// Returns the sum with the bytes of an optional date added.
#[tactic(auto, using(crate::proofs::Lengths::number_size))]
fn add_optional_date(sum: u64, value: &Option<UtcDate>) -> u64
    ensures { result ≡ capped (sum + length (optional date value.now)) }
{
    match value {
        None => sum.saturating_add(1),
        Some(_) => sum.saturating_add(9),
    }
}

// Returns the sum with the bytes of a mailbox added: besides the name, the parent and the role, its
// six numbers and one truth value.
#[tactic(auto, using(crate::proofs::Lengths::mailbox_size))]
fn add_mailbox(sum: u64, m: &Mailbox) -> u64
    ensures { result ≡ capped (sum + length (mailbox m.now)) }
{
    let named = add_text(sum, &m.name);
    let placed = add_optional_number(named, m.parent);
    add_optional_text(placed, &m.role).saturating_add(49)
}

// Returns the sum with the bytes of a summary added: besides its strings and date, one truth value.
fn add_summary(sum: u64, s: &Summary) -> u64
    ensures { result ≡ capped (sum + length (summary s.now)) }
{
    let links = add_texts(sum, s.links.as_slice());
    let subject = add_text(links, &s.subject);
    let from = add_text(subject, &s.from);
    let to = add_text(from, &s.to);
    add_optional_date(to, &s.sent).saturating_add(1)
}

// Returns the sum with the bytes of an email added: besides its mailboxes, keywords and summary,
// its four numbers and its date.
#[tactic(auto, using(crate::proofs::Lengths::email_size))]
fn add_email(sum: u64, e: &Email) -> u64
    ensures { result ≡ capped (sum + length (email e.now)) }
{
    let mailboxes = add_numbers(sum, e.mailboxes.as_slice());
    let keywords = add_texts(mailboxes, e.keywords.as_slice());
    add_summary(keywords, &e.summary).saturating_add(40)
}

// Returns the sum with the bytes of a thread added.
#[tactic(auto, using(crate::proofs::Lengths::thread_size))]
fn add_thread(sum: u64, t: &Thread) -> u64
    ensures { result ≡ capped (sum + length (thread t.now)) }
{
    add_numbers(sum, t.emails.as_slice()).saturating_add(8)
}

// Returns the sum with the bytes of an edit added: its tag, and its fields.
#[tactic(auto, using(crate::proofs::Lengths::drop_mailbox_size, crate::proofs::Lengths::drop_email_size, crate::proofs::Lengths::drop_thread_size))]
fn add_edit(sum: u64, change: &Edit) -> u64
    ensures { result ≡ capped (sum + length (edit change.now)) }
{
    match change {
        Edit::PutMailbox { item, .. } => add_mailbox(sum, item).saturating_add(3),
        Edit::PutEmail { item, .. } => add_email(sum, item).saturating_add(2),
        Edit::PutThread { item, .. } => add_thread(sum, item).saturating_add(2),
        Edit::DropEmail { .. } => sum.saturating_add(17),
        Edit::DropMailbox { .. } | Edit::DropThread { .. } => sum.saturating_add(9),
    }
}

/// Returns how many bytes the encodings of the edits take together, as [`encode`](crate::encode)
/// writes them: not their count. Where the sum doesn't fit in 64 bits it is 2^64 - 1. It takes no
/// memory.
pub fn count_edit_bytes(edits: &[Edit]) -> u64
    ensures { result ≡ capped (edit_bytes edits.now) }
{
    let mut total = 0;
    for change in edits {
        total = add_edit(total, change);
    }
    total
}

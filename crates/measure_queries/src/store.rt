// Emails that are generated from their numbers, with their messages. bench/queries.py generates the
// same ones.
use crate::timing::no_memory;
use blob_store::BlobList;
use jm_base::{Bytes, NoMemory, Numbers, Text, Texts, UtcDate};
use mail_records::{Content, Edit, Email, Summary, apply_fitting};
use std::alloc::Global;
use std::io;

/// The emails of an account, and their messages.
#[derive(Drop)]
pub(crate) struct Store {
    pub content: Content,
    pub blobs: BlobList,
}

// The body of a message has these words, each many times.
const WORDS: [&str; 8] = [
    "meeting", "invoice", "summer", "release", "garden", "report", "window", "yellow",
];

const BODY_BYTES: usize = 1000;

fn person(alloc: Global, number: u64) -> Result<Text, NoMemory> {
    Ok(Text::from_string(format!(in alloc; "Person {}", number % 977)?))
}

fn subject(alloc: Global, number: u64) -> Result<Text, NoMemory> {
    Ok(Text::from_string(format!(in alloc; "Topic {}", number % 1009)?))
}

// Returns words from a number on, and a rare word in every fiftieth body.
fn body(alloc: Global, number: u64) -> Result<String, NoMemory> {
    let mut text = String::new(alloc);
    if number % 50 == 0 {
        text.push_str("zebra ")?;
    }
    let mut next = number;
    for _ in 0..BODY_BYTES {
        if text.len() >= BODY_BYTES {
            return Ok(text);
        }
        text.push_str(WORDS[(next % 8) as usize])?;
        text.push(' ')?;
        next = next.wrapping_add(1);
    }
    Ok(text)
}

fn message(alloc: Global, number: u64) -> Result<Bytes, NoMemory> {
    let from = person(alloc, number)?;
    let subject = subject(alloc, number)?;
    let body = body(alloc, number)?;
    let text = format!(in alloc;
        "From: {} <p{number}@mail.example>\r\nTo: list@mail.example\r\nSubject: {}\r\nMessage-ID: <{number}@mail.example>\r\nContent-Type: text/plain; charset=utf-8\r\n\r\n{body}",
        from.as_str(),
        subject.as_str()
    )?;
    Bytes::from_slice(alloc, text.as_bytes())
}

fn summary(alloc: Global, number: u64) -> Result<Summary, NoMemory> {
    Ok(Summary {
        links: Texts::new(alloc),
        subject: subject(alloc, number)?,
        from: person(alloc, number)?,
        to: Text::from_str(alloc, "list@mail.example")?,
        sent: None,
        attachment: false,
    })
}

fn keywords(alloc: Global, number: u64) -> Result<Texts, NoMemory> {
    let mut all = Texts::new(alloc);
    if number % 16 == 0 {
        all.push(Text::from_str(alloc, "$flagged")?)?;
    }
    if number % 3 == 0 {
        all.push(Text::from_str(alloc, "$seen")?)?;
    }
    Ok(all)
}

// Returns when an email was received, in Unix seconds: each at another time, in no order.
fn received(number: u64) -> i64 {
    let minutes = number.wrapping_mul(7919) % 1_000_003;
    1_600_000_000 + minutes as i64 * 60
}

fn email(alloc: Global, number: u64) -> Result<Email, NoMemory> {
    let mut mailboxes = Numbers::new(alloc);
    mailboxes.push(number % 4 + 1)?;
    Ok(Email {
        number,
        thread: number / 3 + 1,
        blob: number,
        mailboxes,
        keywords: keywords(alloc, number)?,
        size: 1200,
        received: UtcDate {
            seconds: received(number),
        },
        summary: summary(alloc, number)?,
    })
}

/// Returns the edits that put so many emails.
pub(crate) fn edits(alloc: Global, count: u64) -> Result<Vec<Edit>, NoMemory> {
    let mut edits = Vec::new(alloc);
    for number in 0..count {
        let item = email(alloc, number.saturating_add(1))?;
        edits.push(Edit::PutEmail { item, was: false })?;
    }
    Ok(edits)
}

fn blobs(alloc: Global, count: u64) -> io::Result<BlobList> {
    let mut blobs = BlobList::new(alloc);
    for number in 0..count {
        let message = message(alloc, number.saturating_add(1)).map_err(|_| no_memory())?;
        if blobs.push(message).is_err() {
            return Err(no_memory());
        }
    }
    Ok(blobs)
}

/// Returns an account with so many emails.
pub(crate) fn make_store(alloc: Global, count: u64) -> io::Result<Store> {
    let edits = edits(alloc, count).map_err(|_| no_memory())?;
    match apply_fitting(alloc, Content::new(alloc), &edits).map_err(|_| no_memory())? {
        Some(applied) => Ok(Store {
            content: applied.content,
            blobs: blobs(alloc, count)?,
        }),
        None => Err(io::Error::from(io::ErrorKind::InvalidData)),
    }
}

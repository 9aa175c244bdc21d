// The text by which a message is found in a search for its author.
use blob_store::BlobList;
use jm_base::{Bytes, NoMemory};
use std::alloc::Global;
use std::test::Fail;

// A message, and the text that is kept of its author.
#[derive(Clone, Copy)]
struct Row {
    message: &'static [u8],
    text: Option<&'static [u8]>,
}

const ROWS: [Row; 11] = [
    Row {
        message: b"",
        text: Some(b""),
    },
    Row {
        message: b"\0\xff no message",
        text: Some(b""),
    },
    Row {
        message: b"Subject: x\r\n\r\nFrom: y\r\n",
        text: Some(b""),
    },
    Row {
        message: b"From: Ann Lee <Ann@X>\r\n\r\nFrom: y\r\n",
        text: Some(b"ann lee <ann@x>"),
    },
    Row {
        message: b"From: a\r\nSubject: x\r\nfrom: b\r\n\r\n",
        text: None,
    },
    Row {
        message: b"From: Ann\r\n  Lee\r\n\r\n",
        text: Some(b"ann  lee"),
    },
    Row {
        message: b"FROM: X\n\n",
        text: Some(b"x"),
    },
    Row {
        message: b"From: =?UTF-8?Q?Andr=C3=89?= <A@x>\r\n\r\n",
        text: Some(b"andr\xc3\x89 <a@x>"),
    },
    Row {
        message: b"From: =?UTF-8?Q?a=00B?=\r\n\r\n",
        text: Some(b"ab"),
    },
    Row {
        message: b"From: Andr\xe9\r\n\r\n",
        text: Some(b"andr\xef\xbf\xbd"),
    },
    Row {
        message: b"From:\xe9\xe9\xe9\xe9",
        text: None,
    },
];

// Whether this is the text that is kept of a message's author.
fn is_author(alloc: Global, message: Bytes, text: Option<&[u8]>) -> bool {
    let mut list = BlobList::new(alloc);
    if list.push(message).is_err() {
        return false;
    }
    list.authors().len() == 1 && list.authors().get(0) == text
}

// The index of the first row whose text is another.
fn first_other(alloc: Global) -> Result<usize, NoMemory> {
    for (i, row) in ROWS.iter().enumerate() {
        if !is_author(alloc, Bytes::from_slice(alloc, row.message)?, row.text) {
            return Ok(i);
        }
    }
    Ok(ROWS.len())
}

#[test]
fn authors_are_read(rt: HostRuntime) -> Result<(), Fail> {
    assert_eq!(rt; first_other(rt.alloc())?, 11);
    Ok(())
}

// A message from A that has this many bytes.
fn message_of(alloc: Global, bytes: usize) -> Result<Bytes, NoMemory> {
    let mut message = Bytes::from_slice(alloc, b"From: A\n\n")?;
    let rest = vec![in alloc; 0u8; bytes.saturating_sub(9)]?;
    message.append(rest.as_slice())?;
    Ok(message)
}

#[test]
fn a_message_of_a_mebibyte_is_the_largest_that_is_read(rt: HostRuntime) -> Result<(), Fail> {
    let largest = message_of(rt.alloc(), 1_048_576)?;
    assert!(rt; is_author(rt.alloc(), largest, Some(b"a")));
    let larger = message_of(rt.alloc(), 1_048_577)?;
    assert!(rt; is_author(rt.alloc(), larger, None));
    Ok(())
}

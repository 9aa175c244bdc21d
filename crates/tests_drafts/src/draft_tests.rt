// Messages of drafts that are written by hand from RFC 5322, 2045 to 2047 and 2183, and creates with
// invalid properties (RFC 8621, section 4.6).
use draft_form::{Draft, DraftFault, read_draft};
use draft_writer::draft_bytes;
use jm_base::{Bytes, Text};
use jm_json::{Json, Members, read};
use std::alloc::{AllocError, Global};
use std::test::Fail;

// A create, the blob of each of its parts that is one, and its message as email 1 at the timestamp 0.
const MESSAGES: &[(&str, &str, &str)] = &[
    (
        r#"{"bodyStructure":{"partId":"p","type":"text/plain"},"bodyValues":{"p":{"value":"ok"}},"from":[{"email":"a@x","name":null}],"keywords":{"$draft":true},"mailboxIds":{"M1":true},"subject":"hi"}"#,
        "",
        "From: <a@x>\r\nSubject: hi\r\nDate: 01 Jan 1970 00:00:00 +0000\r\nMessage-ID: <e1.0@jmap.invalid>\r\nMIME-Version: 1.0\r\nContent-Type: text/plain; charset=utf-8\r\nContent-Transfer-Encoding: quoted-printable\r\n\r\nok",
    ),
    (
        r#"{"attachments":[{"blobId":"b1","type":"message/rfc822"}],"bodyValues":{"p":{"value":"ok"}},"textBody":[{"partId":"p","type":"text/plain"}]}"#,
        "Subject: x\r\n\r\n--jm1.1\r\n",
        "Date: 01 Jan 1970 00:00:00 +0000\r\nMessage-ID: <e1.0@jmap.invalid>\r\nMIME-Version: 1.0\r\nContent-Type: multipart/mixed; boundary=\"jm2.1\"\r\nContent-Transfer-Encoding: 8bit\r\n\r\n--jm2.1\r\nContent-Type: text/plain; charset=utf-8\r\nContent-Transfer-Encoding: quoted-printable\r\n\r\nok\r\n--jm2.1\r\nContent-Type: message/rfc822\r\nContent-Transfer-Encoding: 8bit\r\n\r\nSubject: x\r\n\r\n--jm1.1\r\n\r\n--jm2.1--",
    ),
    (
        r#"{"attachments":[{"blobId":"b1","disposition":"attachment","name":"a.png","type":"image/png"}],"from":[{"email":"a@x","name":"Ann B"}],"subject":"é","to":[{"email":"b@y","name":"Ñ"}]}"#,
        "foobar",
        "From: Ann B <a@x>\r\nTo:\r\n =?utf-8?B?w5E=?=\r\n <b@y>\r\nSubject:\r\n =?utf-8?B?w6k=?=\r\nDate: 01 Jan 1970 00:00:00 +0000\r\nMessage-ID: <e1.0@jmap.invalid>\r\nMIME-Version: 1.0\r\nContent-Type: multipart/mixed; boundary=\"jm1.1\"\r\n\r\n--jm1.1\r\nContent-Type: text/plain; charset=utf-8\r\nContent-Transfer-Encoding: quoted-printable\r\n\r\n\r\n--jm1.1\r\nContent-Type: image/png; name=\"a.png\"\r\nContent-Disposition: attachment; filename=\"a.png\"\r\nContent-Transfer-Encoding: base64\r\n\r\nZm9vYmFy\r\n--jm1.1--",
    ),
    (
        r#"{"bodyValues":{"p":{"value":"a=b \nc"}},"cc":[],"header:X-B:asText":"b","header:x-a:asText":"a","htmlBody":[{"cid":"i@x","language":["en","eu"],"location":"l","partId":"p","type":"text/html"}],"inReplyTo":["q@x","r@x"],"messageId":["m@x"],"references":null,"sentAt":"2000-02-29T23:59:59-05:00"}"#,
        "",
        "Cc: \r\nDate: 29 Feb 2000 23:59:59 -0500\r\nMessage-ID: <m@x>\r\nIn-Reply-To: <q@x>\r\n <r@x>\r\nX-B: b\r\nx-a: a\r\nMIME-Version: 1.0\r\nContent-Type: text/html; charset=utf-8\r\nContent-ID: <i@x>\r\nContent-Language: en, eu\r\nContent-Location: l\r\nContent-Transfer-Encoding: quoted-printable\r\n\r\na=3Db=20\r\nc",
    ),
];

// A create, and its invalid properties, each with a space after it.
const INVALID: &[(&str, &str)] = &[
    (
        r#"{"bodyStructure":{"partId":"q","type":"text/plain"},"bodyValues":{"p":{"value":"ok"}},"subject":"hi"}"#,
        "bodyStructure ",
    ),
    (
        r#"{"from":[{"email":"a b@x"}],"subject":" hi"}"#,
        "from subject ",
    ),
    (
        r#"{"header:X:asText":"a","header:x:asText":"b"}"#,
        "header:X:asText header:x:asText ",
    ),
    (
        r#"{"header:Content-Type:asText":"a","header:Subject:asText":"b","x":1}"#,
        "header:Content-Type:asText header:Subject:asText x ",
    ),
    (
        r#"{"messageId":[],"references":["a<b"],"sentAt":"1899-12-31T23:59:59Z"}"#,
        "messageId references sentAt ",
    ),
    (
        r#"{"bodyStructure":{"subParts":[],"type":"multipart/mixed"},"textBody":[{"partId":"p","type":"text/plain"}]}"#,
        "bodyStructure textBody ",
    ),
];

fn show_names(alloc: Global, names: &[Text]) -> Result<Vec<u8>, AllocError> {
    let mut shown = Vec::new(alloc);
    for name in names {
        shown.extend_from_slice(name.as_bytes())?;
        shown.push(b' ')?;
    }
    Ok(shown)
}

fn show_fault(alloc: Global, fault: &DraftFault) -> Result<Vec<u8>, AllocError> {
    match fault {
        DraftFault::Invalid(names) => show_names(alloc, names.as_slice()),
        DraftFault::TooLarge => Vec::from_slice(alloc, b"too large"),
        DraftFault::NoMemory => Err(AllocError),
    }
}

fn show_message(alloc: Global, draft: &Draft, blobs: &[Bytes]) -> Result<Vec<u8>, AllocError> {
    if blobs.len() != draft.blob_ids().len() {
        return Vec::from_slice(alloc, b"other blobs");
    }
    match draft_bytes(alloc, draft, blobs, 1, 0) {
        Ok(bytes) => Ok(bytes.into_vec()),
        Err(fault) => show_fault(alloc, &fault),
    }
}

fn show_draft(alloc: Global, draft: &Draft, blob: &str) -> Result<Vec<u8>, AllocError> {
    let mut blobs: Vec<Bytes> = Vec::new(alloc);
    for _ in draft.blob_ids() {
        blobs.push(Bytes::from_vec(Vec::from_slice(alloc, blob.as_bytes())?))?;
    }
    show_message(alloc, draft, blobs.as_slice())
}

fn show_members(alloc: Global, create: &Members, blob: &str) -> Result<Vec<u8>, AllocError> {
    match read_draft(alloc, create) {
        Ok(draft) => show_draft(alloc, &draft, blob),
        Err(fault) => show_fault(alloc, &fault),
    }
}

fn show_tree(alloc: Global, create: &Json, blob: &str) -> Result<Vec<u8>, AllocError> {
    match create.as_object() {
        Some(members) => show_members(alloc, members, blob),
        None => Vec::from_slice(alloc, b"no object"),
    }
}

fn show_create(alloc: Global, create: &str, blob: &str) -> Result<Vec<u8>, AllocError> {
    match read(alloc, create.as_bytes()) {
        Ok(tree) => show_tree(alloc, &tree, blob),
        Err(_) => Vec::from_slice(alloc, b"no JSON"),
    }
}

#[test]
fn drafts_have_their_messages(rt: HostRuntime) -> Result<(), Fail> {
    for (create, blob, want) in MESSAGES {
        let got = show_create(rt.alloc(), create, blob)?;
        assert!(rt; got.as_slice() == want.as_bytes(), "at {create}");
    }
    Ok(())
}

#[test]
fn invalid_properties_are_named(rt: HostRuntime) -> Result<(), Fail> {
    for (create, want) in INVALID {
        let got = show_create(rt.alloc(), create, "")?;
        assert!(rt; got.as_slice() == want.as_bytes(), "at {create}");
    }
    Ok(())
}

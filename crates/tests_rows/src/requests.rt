// What rows send and want, written out: requests of one call and uploads, as lines of `batch` and
// as messages of HTTP/1.1.
use crate::fault::Fault;
use base64::engine::general_purpose::STANDARD;
use jm_base::{Bytes, NoMemory};
use std::alloc::Global;

/// What runs the rows of a file.
#[derive(Clone, Copy, Debug, PartialEq, Eq)]
pub(crate) enum Kind {
    /// The command `batch`.
    Lines,
    /// The command `serve`, over one connection.
    Connection,
}

impl Kind {
    /// Returns how a line of input or output ends.
    pub(crate) fn line_end(self) -> &'static [u8] {
        match self {
            Kind::Lines => b"\n",
            Kind::Connection => b"\r\n",
        }
    }

    /// Returns the command line of a row that gives none.
    pub(crate) fn default_arguments(self) -> &'static str {
        match self {
            Kind::Lines => "batch",
            Kind::Connection => "serve c d 8600 1",
        }
    }
}

fn append_text(out: &mut Bytes, text: &str) -> Result<(), NoMemory> {
    out.append(text.as_bytes())
}

// Appends a request of HTTP with this body. The head ends before the field Content-Length.
fn append_message(alloc: Global, out: &mut Bytes, head: &str, body: &[u8]) -> Result<(), NoMemory> {
    append_text(out, head)?;
    let length = format!(in alloc; "Content-Length: {}\r\n\r\n", body.len())?;
    append_text(out, length.as_str())?;
    out.append(body)
}

/// Appends the text of a Request of one call.
pub(crate) fn append_call(out: &mut Bytes, method: &[u8], args: &[u8]) -> Result<(), NoMemory> {
    append_text(
        out,
        "{\"using\":[\"urn:ietf:params:jmap:core\",\"urn:ietf:params:jmap:mail\"],\"methodCalls\":[[\"",
    )?;
    out.append(method)?;
    append_text(out, "\",")?;
    out.append(args)?;
    append_text(out, ",\"0\"]]}")
}

/// Appends the body of a call as it is sent.
pub(crate) fn append_request(
    alloc: Global,
    kind: Kind,
    out: &mut Bytes,
    body: &[u8],
) -> Result<(), NoMemory> {
    match kind {
        Kind::Lines => {
            out.append(body)?;
            append_text(out, "\n")
        }
        Kind::Connection => append_message(
            alloc,
            out,
            "POST /jmap/api HTTP/1.1\r\nHost: h\r\nAuthorization: Bearer t\r\nContent-Type: application/json\r\n",
            body,
        ),
    }
}

/// Appends an upload as it is sent.
pub(crate) fn append_upload(
    alloc: Global,
    kind: Kind,
    out: &mut Bytes,
    blob: &[u8],
) -> Result<(), NoMemory> {
    match kind {
        Kind::Lines => {
            let text = STANDARD.encode(alloc, blob)?;
            append_text(out, "+")?;
            append_text(out, text.as_str())?;
            append_text(out, "\n")
        }
        Kind::Connection => append_message(
            alloc,
            out,
            "POST /jmap/upload/A1/ HTTP/1.1\r\nHost: h\r\nAuthorization: Bearer t\r\n",
            blob,
        ),
    }
}

/// Appends a reply as it is written. The status is that of HTTP, with its phrase.
pub(crate) fn append_reply(
    alloc: Global,
    kind: Kind,
    out: &mut Bytes,
    status: &str,
    body: &[u8],
) -> Result<(), NoMemory> {
    match kind {
        Kind::Lines => {
            out.append(body)?;
            append_text(out, "\n")
        }
        Kind::Connection => {
            let head = format!(in alloc;
                "HTTP/1.1 {status}\r\nContent-Type: application/json\r\nContent-Length: {}\r\nCache-Control: no-store\r\n\r\n",
                body.len()
            )?;
            append_text(out, head.as_str())?;
            out.append(body)
        }
    }
}

/// Appends the reply to an upload: the number of the blob, and how many bytes it has.
pub(crate) fn append_upload_reply(
    alloc: Global,
    kind: Kind,
    out: &mut Bytes,
    blob: u64,
    size: usize,
) -> Result<(), NoMemory> {
    let body = format!(in alloc;
        "{{\"accountId\":\"A1\",\"blobId\":\"b{blob}\",\"size\":{size},\"type\":\"application/octet-stream\"}}"
    )?;
    append_reply(alloc, kind, out, "201 Created", body.as_bytes())
}

/// Appends the reply with these responses, which stand between commas.
pub(crate) fn append_responses(
    alloc: Global,
    kind: Kind,
    out: &mut Bytes,
    responses: &[u8],
) -> Result<(), Fault> {
    let mut body = Bytes::new(alloc);
    append_text(&mut body, "{\"methodResponses\":[")?;
    body.append(responses)?;
    append_text(&mut body, "],\"sessionState\":\"0\"}")?;
    append_reply(alloc, kind, out, "200 OK", body.as_slice())?;
    Ok(())
}

// Writing a response.
ghost use Rattle.std.specs.Prelude.{◌≡◌, ◌≤◌, ◌++◌, codes, string_bytes, IfOk, IfErr, OnOk};
ghost use Rattle.std.specs.Fmt.{decimal};
ghost use Rattle.std.specs.Io.KnownBytes.{Appends};
ghost use Rattle.jm_edge.specs.Causes.{HasCause, Rose};
ghost use Rattle.http_wire.specs.Responses.{reason_phrase, http_line, first_lines, challenge, closing, response_head, response_bytes, IsPrefixWritten, IsCutShort};

use http::StatusCode;
use http_parts::WireFault;
use jm_base::NoMemory;
use jm_edge::{Link, put_to_link};
use std::alloc::Global;

// Returns the reason phrase of a status.
#[tactic(auto, unfolding(crate::specs::Responses::reason_phrase))]
fn find_reason_phrase(status: u16) -> &'static str
    ensures { result.now ≡ reason_phrase status }
{
    let Ok(code) = StatusCode::from_u16(status) else {
        return "";
    };
    match code.canonical_reason() {
        Some(phrase) => phrase,
        None => "",
    }
}

// Appends bytes to others.
pub(crate) fn push_bytes(bytes: &mut Vec<u8>, more: &[u8]) -> Result<(), NoMemory>
    ensures { OnOk result (bytes.new.items ≡ bytes.old.items ++ more.now) }
{
    bytes.extend_from_slice(more)?;
    Ok(())
}

// Appends a line: a field's name or the protocol, a value, and the line end.
pub(crate) fn push_line(bytes: &mut Vec<u8>, name: &str, value: &[u8]) -> Result<(), NoMemory>
    ensures { OnOk result (bytes.new.items ≡ bytes.old.items ++ http_line (name.now ++ value.now)) }
{
    push_bytes(bytes, name.as_bytes())?;
    push_bytes(bytes, value)?;
    push_bytes(bytes, "\r\n".as_bytes())?;
    Ok(())
}

// Returns the status and its reason phrase.
fn write_status(alloc: Global, status: u16) -> Result<String, NoMemory>
    ensures { IfOk result (λ s. string_bytes s ≡ decimal status ++ codes " " ++ reason_phrase
        status) }
{
    let phrase = find_reason_phrase(status);
    Ok(format!(in alloc; "{status} {phrase}")?)
}

// Returns a number in decimal.
pub(crate) fn write_number(alloc: Global, number: usize) -> Result<String, NoMemory>
    ensures { IfOk result (λ s. string_bytes s ≡ decimal number) }
{
    Ok(format!(in alloc; "{number}")?)
}

// Returns the status line, and the fields Content-Type, Content-Length and Cache-Control.
#[tactic(auto, unfolding(crate::specs::Responses::first_lines))]
fn write_first_lines(
    alloc: Global,
    status: u16,
    media: &[u8],
    size: usize,
) -> Result<Vec<u8>, NoMemory>
    ensures { IfOk result (λ v. v.items ≡ first_lines status media.now size) }
{
    let said = write_status(alloc, status)?;
    let count = write_number(alloc, size)?;
    let mut head = Vec::new(alloc);
    push_line(&mut head, "HTTP/1.1 ", said.as_bytes())?;
    push_line(&mut head, "Content-Type: ", media)?;
    push_line(&mut head, "Content-Length: ", count.as_bytes())?;
    push_line(&mut head, "Cache-Control: ", "no-store".as_bytes())?;
    Ok(head)
}

// Returns what a client is asked for, with status 401.
fn find_challenge(status: u16) -> &'static str
    ensures { result.now ≡ challenge status }
{
    if status == 401 {
        "WWW-Authenticate: Bearer\r\n"
    } else {
        ""
    }
}

// Returns the field that says that the connection ends.
fn find_closing(last: bool) -> &'static str
    ensures { result.now ≡ closing last }
{
    if last { "Connection: close\r\n" } else { "" }
}

// Returns the head of a response.
#[tactic(auto, unfolding(crate::specs::Responses::response_head))]
fn write_head(
    alloc: Global,
    status: u16,
    media: &[u8],
    size: usize,
    last: bool,
) -> Result<Vec<u8>, NoMemory>
    ensures { IfOk result (λ v. v.items ≡ response_head status media.now size last) }
{
    let mut head = write_first_lines(alloc, status, media, size)?;
    push_bytes(&mut head, find_challenge(status).as_bytes())?;
    push_bytes(&mut head, find_closing(last).as_bytes())?;
    push_bytes(&mut head, "\r\n".as_bytes())?;
    Ok(head)
}

/// The most bytes of a body that is copied next to its head, so that both are written at once.
pub(crate) const MAX_COPIED_BYTES: usize = 65_536;

// Writes bytes to a link.
pub(crate) fn put_bytes<L: Link>(link: &mut L, bytes: &[u8]) -> Result<(), WireFault>
    ensures ok { OnOk result (Appends (L.held link.old) (L.held link.new) bytes.now) }
    ensures err { IfErr result (λ e. IsPrefixWritten e (L.held link.old) (L.held link.new)
        bytes.now) }
    ensures cause { HasCause (L.put_faults link.old) (L.put_faults link.new) result }
    ensures left { L.left link.new ≡ L.left link.old }
    ensures read_faults { L.read_faults link.new ≡ L.read_faults link.old }
{
    match put_to_link(link, bytes) {
        Ok(()) => Ok(()),
        Err(_) => Err(WireFault::WriteFault),
    }
}

// Writes bytes and others after them to a link.
pub(crate) fn put_two<L: Link>(link: &mut L, bytes: &[u8], more: &[u8]) -> Result<(), WireFault>
    ensures ok { OnOk result (Appends (L.held link.old) (L.held link.new) (bytes.now ++ more.now)) }
    ensures err { IfErr result (λ e. IsPrefixWritten e (L.held link.old) (L.held link.new)
        (bytes.now ++ more.now)) }
    ensures cause { HasCause (L.put_faults link.old) (L.put_faults link.new) result }
    ensures left { L.left link.new ≡ L.left link.old }
    ensures read_faults { L.read_faults link.new ≡ L.read_faults link.old }
{
    match put_bytes(link, bytes) {
        Ok(()) => put_bytes(link, more),
        Err(fault) => Err(fault),
    }
}

/// Writes a response with this status, media type and body to the link. `last` says that the
/// connection ends with the response. The head and a short body are written at once.
///
/// Fails with `WriteFault` if the link fails; then a prefix of the response was written. Fails with
/// `NoMemory` if an allocation fails; then nothing was written.
#[tactic(auto, unfolding(crate::specs::Responses::response_bytes))]
pub fn write_response<L: Link>(
    alloc: Global,
    link: &mut L,
    status: u16,
    media: &[u8],
    body: &[u8],
    last: bool,
) -> Result<(), WireFault>
    ensures ok { OnOk result (Appends (L.held link.old) (L.held link.new) (response_bytes status
        media.now body.now last)) }
    ensures err { IfErr result (λ e. IsCutShort e (L.held link.old) (L.held link.new)
        (response_bytes status media.now body.now last)) }
    ensures cause { IfErr result (λ e. e ≡ WireFault.WriteFault → Rose (L.put_faults link.old)
        (L.put_faults link.new)) }
    ensures left { L.left link.new ≡ L.left link.old }
    ensures read_faults { L.read_faults link.new ≡ L.read_faults link.old }
    ensures later { L.put_faults link.old ≤ L.put_faults link.new }
{
    let mut bytes = write_head(alloc, status, media, body.len(), last)?;
    if body.len() > MAX_COPIED_BYTES {
        return put_two(link, &bytes, body);
    }
    push_bytes(&mut bytes, body)?;
    put_bytes(link, &bytes)
}

/// Writes the head of a response with this status, media type and length of the body to the link,
/// and no body, as the answer to a request by HEAD is (RFC 9110, section 9.3.2). `last` says that
/// the connection ends with it.
///
/// Fails with `WriteFault` if the link fails; then a prefix of the head was written. Fails with
/// `NoMemory` if an allocation fails; then nothing was written.
pub fn write_response_head<L: Link>(
    alloc: Global,
    link: &mut L,
    status: u16,
    media: &[u8],
    size: usize,
    last: bool,
) -> Result<(), WireFault>
    ensures ok { OnOk result (Appends (L.held link.old) (L.held link.new) (response_head status
        media.now size last)) }
    ensures err { IfErr result (λ e. IsCutShort e (L.held link.old) (L.held link.new)
        (response_head status media.now size last)) }
    ensures cause { IfErr result (λ e. e ≡ WireFault.WriteFault → Rose (L.put_faults link.old)
        (L.put_faults link.new)) }
    ensures left { L.left link.new ≡ L.left link.old }
    ensures read_faults { L.read_faults link.new ≡ L.read_faults link.old }
    ensures later { L.put_faults link.old ≤ L.put_faults link.new }
{
    let bytes = write_head(alloc, status, media, size, last)?;
    put_bytes(link, &bytes)
}

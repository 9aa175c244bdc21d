// Writing a request.
ghost use Rattle.std.specs.Prelude.{◌≡◌, ◌≤◌, ◌++◌, codes, option_map, IfOk, IfErr, OnOk};
ghost use Rattle.std.specs.Fmt.{decimal};
ghost use Rattle.std.specs.Io.KnownBytes.{Appends};
ghost use Rattle.jm_edge.specs.Causes.{Rose};
ghost use Rattle.http_wire.specs.RequestBytes.{get_head, post_bytes, post_head, request_bytes, request_line, request_lines};
ghost use Rattle.http_wire.specs.Responses.{IsCutShort, http_line};

use crate::responses::{MAX_COPIED_BYTES, push_bytes, push_line, put_bytes, put_two, write_number};
use http_parts::WireFault;
use jm_base::NoMemory;
use jm_edge::Link;
use std::alloc::Global;

// Returns the request line.
#[tactic(auto, unfolding(crate::specs::RequestBytes::request_line))]
fn write_request_line(alloc: Global, method: &str, path: &[u8]) -> Result<Vec<u8>, NoMemory>
    ensures { IfOk result (λ v. v.items ≡ request_line method.now path.now) }
{
    let mut line = Vec::new(alloc);
    push_bytes(&mut line, method.as_bytes())?;
    push_bytes(&mut line, " ".as_bytes())?;
    push_bytes(&mut line, path)?;
    push_bytes(&mut line, " HTTP/1.1".as_bytes())?;
    push_bytes(&mut line, "\r\n".as_bytes())?;
    Ok(line)
}

// Returns the request line, and the fields Host and Authorization.
#[tactic(auto, unfolding(crate::specs::RequestBytes::request_lines))]
fn write_request_lines(
    alloc: Global,
    method: &str,
    host: &[u8],
    token: &[u8],
    path: &[u8],
) -> Result<Vec<u8>, NoMemory>
    ensures { IfOk result (λ v. v.items ≡ request_lines method.now host.now token.now path.now) }
{
    let mut head = write_request_line(alloc, method, path)?;
    push_line(&mut head, "Host: ", host)?;
    push_line(&mut head, "Authorization: Bearer ", token)?;
    Ok(head)
}

// Returns the head of a GET.
#[tactic(auto, unfolding(crate::specs::RequestBytes::get_head))]
fn write_get_head(
    alloc: Global,
    host: &[u8],
    token: &[u8],
    path: &[u8],
) -> Result<Vec<u8>, NoMemory>
    ensures { IfOk result (λ v. v.items ≡ get_head host.now token.now path.now) }
{
    let mut head = write_request_lines(alloc, "GET", host, token, path)?;
    push_bytes(&mut head, "\r\n".as_bytes())?;
    Ok(head)
}

// Appends the field Content-Length.
#[tactic(auto, using(crate::proofs::Appended::line_as))]
fn push_length(alloc: Global, bytes: &mut Vec<u8>, size: usize) -> Result<(), NoMemory>
    ensures { OnOk result (bytes.new.items ≡ bytes.old.items ++ http_line (codes "Content-Length: "
        ++ decimal size)) }
{
    let count = write_number(alloc, size)?;
    push_line(bytes, "Content-Length: ", count.as_bytes())?;
    Ok(())
}

// Returns the head of a POST of JSON, whose body has so many bytes.
#[tactic(auto, unfolding(crate::specs::RequestBytes::post_head))]
fn write_post_head(
    alloc: Global,
    host: &[u8],
    token: &[u8],
    path: &[u8],
    size: usize,
) -> Result<Vec<u8>, NoMemory>
    ensures { IfOk result (λ v. v.items ≡ post_head host.now token.now path.now size) }
{
    let mut head = write_request_lines(alloc, "POST", host, token, path)?;
    push_bytes(&mut head, "Content-Type: application/json\r\n".as_bytes())?;
    push_length(alloc, &mut head, size)?;
    push_bytes(&mut head, "\r\n".as_bytes())?;
    Ok(head)
}

// Writes a GET to the link.
fn put_get<L: Link>(
    alloc: Global,
    link: &mut L,
    host: &[u8],
    token: &[u8],
    path: &[u8],
) -> Result<(), WireFault>
    ensures ok { OnOk result (Appends (L.held link.old) (L.held link.new) (get_head host.now
        token.now path.now)) }
    ensures err { IfErr result (λ e. IsCutShort e (L.held link.old) (L.held link.new)
        (get_head host.now token.now path.now)) }
    ensures cause { IfErr result (λ e. e ≡ WireFault.WriteFault → Rose (L.put_faults link.old)
        (L.put_faults link.new)) }
    ensures left { L.left link.new ≡ L.left link.old }
    ensures read_faults { L.read_faults link.new ≡ L.read_faults link.old }
    ensures later { L.put_faults link.old ≤ L.put_faults link.new }
{
    let bytes = write_get_head(alloc, host, token, path)?;
    put_bytes(link, &bytes)
}

// Writes a POST of JSON to the link. The head and a short body are written at once.
#[tactic(auto, unfolding(crate::specs::RequestBytes::post_bytes))]
fn put_post<L: Link>(
    alloc: Global,
    link: &mut L,
    host: &[u8],
    token: &[u8],
    path: &[u8],
    body: &[u8],
) -> Result<(), WireFault>
    ensures ok { OnOk result (Appends (L.held link.old) (L.held link.new) (post_bytes host.now
        token.now path.now body.now)) }
    ensures err { IfErr result (λ e. IsCutShort e (L.held link.old) (L.held link.new)
        (post_bytes host.now token.now path.now body.now)) }
    ensures cause { IfErr result (λ e. e ≡ WireFault.WriteFault → Rose (L.put_faults link.old)
        (L.put_faults link.new)) }
    ensures left { L.left link.new ≡ L.left link.old }
    ensures read_faults { L.read_faults link.new ≡ L.read_faults link.old }
    ensures later { L.put_faults link.old ≤ L.put_faults link.new }
{
    let mut bytes = write_post_head(alloc, host, token, path, body.len())?;
    if body.len() > MAX_COPIED_BYTES {
        return put_two(link, &bytes, body);
    }
    push_bytes(&mut bytes, body)?;
    put_bytes(link, &bytes)
}

/// Writes a request to the link: a GET of this path if there is no body, else a POST of the body,
/// which is JSON (RFC 9110, section 9.3). `host` is the host with its port, and `token` says who
/// asks (RFC 6750, section 2.1). They and the path are written as they are, so none may have a line
/// end. The head and a short body are written at once.
///
/// Fails with `WriteFault` if the link fails; then a prefix of the request was written. Fails with
/// `NoMemory` if an allocation fails; then nothing was written.
pub fn write_request<L: Link>(
    alloc: Global,
    link: &mut L,
    host: &[u8],
    token: &[u8],
    path: &[u8],
    body: Option<&[u8]>,
) -> Result<(), WireFault>
    ensures ok { OnOk result (Appends (L.held link.old) (L.held link.new) (request_bytes host.now
        token.now path.now (option_map (λ b. b.now) body.entry))) }
    ensures err { IfErr result (λ e. IsCutShort e (L.held link.old) (L.held link.new)
        (request_bytes host.now token.now path.now (option_map (λ b. b.now) body.entry))) }
    ensures cause { IfErr result (λ e. e ≡ WireFault.WriteFault → Rose (L.put_faults link.old)
        (L.put_faults link.new)) }
    ensures left { L.left link.new ≡ L.left link.old }
    ensures read_faults { L.read_faults link.new ≡ L.read_faults link.old }
    ensures later { L.put_faults link.old ≤ L.put_faults link.new }
{
    match body {
        Some(body) => put_post(alloc, link, host, token, path, body),
        None => put_get(alloc, link, host, token, path),
    }
}

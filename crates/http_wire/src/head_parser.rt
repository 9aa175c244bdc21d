// Parsing the head of a request.
ghost use Rattle.std.specs.Prelude.{◌≡◌, ◌≤◌, length, map, All, IfOk, MatchOption};
ghost use Rattle.httparse.specs.Grammar.{RequestHead};
ghost use Rattle.httparse.specs.Spans.{span_bytes, header_bytes, IsWithin, IsHeaderWithin};
ghost use Rattle.http_wire.specs.Fields.{pairs};
ghost use Rattle.http_wire.specs.Requests.{requests};
ghost use Rattle.http_wire.specs.ParsedHeads.{IsParsed, IsCopied};

use crate::request::{HttpField, HttpFields};
use http_parts::MAX_HEAD_FIELDS;
use httparse::Status;
use httparse::spans::{EMPTY_HEADER_SPAN, HeaderSpan, RequestSpans, Span, parse_request};
use jm_base::{Bytes, NoMemory, Sequence, Text};
use std::alloc::Global;

/// The head of a request, parsed.
#[derive(Drop)]
pub struct ParsedHead {
    pub method: Text,
    pub target: Bytes,
    pub fields: HttpFields,

    /// The minor version of HTTP/1.
    pub minor: u8,
}

// Returns the text of a token, which is ASCII (RFC 9110, 5.6.2).
fn copy_token(alloc: Global, bytes: &[u8], span: Span) -> Result<Text, NoMemory>
    requires { IsWithin (length bytes.now) span }
    ensures { IfOk result (λ t. t ≡ span_bytes bytes.now span) }
{
    match Text::from_utf8(Vec::from_slice(alloc, span.of(bytes))?) {
        Some(text) => Ok(text),
        None => Err(NoMemory),
    }
}

// Returns a field of a head.
fn copy_field(alloc: Global, bytes: &[u8], at: &HeaderSpan) -> Result<HttpField, NoMemory>
    requires { IsHeaderWithin (length bytes.now) at.now }
    ensures name { IfOk result (λ f. f.name ≡ span_bytes bytes.now at.now.name) }
    ensures value { IfOk result (λ f. f.value ≡ span_bytes bytes.now at.now.value) }
{
    let name = copy_token(alloc, bytes, at.name)?;
    let value = Bytes::from_slice(alloc, at.value.of(bytes))?;
    Ok(HttpField { name, value })
}

// Returns the fields of a head.
pub(crate) fn copy_fields(
    alloc: Global,
    bytes: &[u8],
    spans: &[HeaderSpan],
) -> Result<HttpFields, NoMemory>
    requires { All (IsHeaderWithin (length bytes.now)) spans.now }
    ensures { IfOk result (λ fs. pairs fs ≡ map (header_bytes bytes.now) spans.now) }
{
    let mut fields = Sequence::new(alloc);
    let mut rest = spans;
    'field: while let Some((at, more)) = rest.split_first() {
        fields.push(copy_field(alloc, bytes, at)?)?;
        rest = more;
    }
    Ok(fields)
}

// Returns the head that is at these places.
fn copy_head(
    alloc: Global,
    bytes: &[u8],
    at: &RequestSpans,
    spans: &[HeaderSpan],
) -> Result<ParsedHead, NoMemory>
    requires method { IsWithin (length bytes.now) at.now.method }
    requires target { IsWithin (length bytes.now) at.now.path }
    requires fields { All (IsHeaderWithin (length bytes.now)) spans.now }
    ensures { IfOk result (IsCopied bytes.now at.now spans.now) }
{
    let method = copy_token(alloc, bytes, at.method)?;
    let target = Bytes::from_slice(alloc, at.path.of(bytes))?;
    let fields = copy_fields(alloc, bytes, spans)?;
    Ok(ParsedHead {
        method,
        target,
        fields,
        minor: at.version,
    })
}

/// Returns the head of a request that these bytes are, if they are one of at most 64 fields (RFC
/// 9112, 3 and 5).
#[tactic(auto, using(crate::proofs::HeadParsed::reads_whole, crate::proofs::HeadParsed::never_whole, crate::proofs::HeadParsed::never_partial, crate::proofs::HeadParsed::never_over, crate::proofs::HeadParsed::parsed_by))]
pub fn parse_head(alloc: Global, bytes: &[u8]) -> Result<Option<ParsedHead>, NoMemory>
    ensures { IfOk result (λ o. MatchOption o ((h : RequestHead) → ¬ (requests.reads bytes.now h))
        (λ p. (h : RequestHead) × requests.reads bytes.now h × IsParsed h p)) }
{
    let mut spans = [EMPTY_HEADER_SPAN; MAX_HEAD_FIELDS];
    let at = match parse_request(bytes, &mut spans) {
        Ok(Status::Complete(at)) => at,
        Ok(Status::Partial) => return Ok(None),
        Err(_) => return Ok(None),
    };
    if at.len != bytes.len() {
        return Ok(None);
    }
    match copy_head(alloc, bytes, &at, &spans[..at.headers]) {
        Ok(head) => Ok(Some(head)),
        Err(fault) => Err(fault),
    }
}

// Parsing the head of a response.
ghost use Rattle.std.specs.Prelude.{◌≡◌, IfOk, MatchOption};
ghost use Rattle.httparse.specs.Grammar.{ResponseHead};
ghost use Rattle.http_wire.specs.FramedResponses.{IsParsedResponse};
ghost use Rattle.http_wire.specs.ReadResponses.{IsResponse};

use crate::head_parser::copy_fields;
use crate::request::HttpFields;
use http_parts::MAX_HEAD_FIELDS;
use httparse::Status;
use httparse::spans::{EMPTY_HEADER_SPAN, parse_response};
use jm_base::NoMemory;
use std::alloc::Global;

/// The head of a response, parsed. Its reason phrase is not kept (RFC 9112, 4: a client ignores
/// it).
#[derive(Drop)]
pub(crate) struct ParsedResponse {
    pub status: u16,
    pub fields: HttpFields,

    /// The minor version of HTTP/1.
    pub minor: u8,
}

// Returns the head of a response that these bytes are, if they are one of at most 64 fields (RFC
// 9112, 4 and 5).
#[tactic(auto, using(crate::proofs::ResponseParsed::reads_whole, crate::proofs::ResponseParsed::never_whole, crate::proofs::ResponseParsed::never_partial, crate::proofs::ResponseParsed::never_over, crate::proofs::ResponseParsed::parsed_by))]
pub(crate) fn parse_response_head(
    alloc: Global,
    bytes: &[u8],
) -> Result<Option<ParsedResponse>, NoMemory>
    ensures { IfOk result (λ o. MatchOption o ((h : ResponseHead) → ¬ (IsResponse bytes.now h))
        (λ p. (h : ResponseHead) × IsResponse bytes.now h × IsParsedResponse h p)) }
{
    let mut spans = [EMPTY_HEADER_SPAN; MAX_HEAD_FIELDS];
    let at = match parse_response(bytes, &mut spans) {
        Ok(Status::Complete(at)) => at,
        Ok(Status::Partial) => return Ok(None),
        Err(_) => return Ok(None),
    };
    if at.len != bytes.len() {
        return Ok(None);
    }
    let fields = copy_fields(alloc, bytes, &spans[..at.headers])?;
    Ok(Some(ParsedResponse {
        status: at.code,
        fields,
        minor: at.version,
    }))
}

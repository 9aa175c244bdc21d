// The media types of blobs (RFC 8620, section 6.2; RFC 9110, section 8.3.1).
ghost use Rattle.std.specs.Prelude.{◌≡◌, IfOk, option_map};
ghost use Rattle.std.specs.List.{list_all};
ghost use Rattle.httparse.specs.Grammar.{is_token, is_token_byte};
ghost use Rattle.jmap_http.specs.Targets.{is_media_type, is_token_after, media_of};

use crate::cuts::cut_at;
use jm_base::{Bytes, NoMemory};
use percent_encoding::percent_decode;
use std::alloc::Global;

// Returns whether a byte is one of a token.
#[tactic(auto, unfolding(httparse::specs::Grammar::is_token_byte))]
fn is_token_byte(byte: u8) -> bool
    ensures { result ≡ is_token_byte byte }
{
    byte.is_ascii_alphanumeric() || b"!#$%&'*+-.^_`|~".contains(&byte)
}

// Returns whether each byte is one of a token.
fn are_token_bytes(bytes: &[u8]) -> bool
    ensures { result ≡ list_all is_token_byte bytes.now }
{
    bytes.iter().all(|byte| is_token_byte(*byte))
}

// Returns whether bytes are a token.
fn is_token(bytes: &[u8]) -> bool
    ensures { result ≡ is_token bytes.now }
{
    !bytes.is_empty() && are_token_bytes(bytes)
}

fn is_token_after(subtype: Option<&[u8]>) -> bool
    ensures { result ≡ is_token_after (option_map (λ b. b.now) subtype.entry) }
{
    match subtype {
        Some(subtype) => is_token(subtype),
        None => false,
    }
}

// Returns whether bytes are two tokens with a slash between.
fn is_media_type(bytes: &[u8]) -> bool
    ensures { result ≡ is_media_type bytes.now }
{
    let cut = cut_at(b'/', bytes);
    is_token(cut.before) && is_token_after(cut.after)
}

/// Returns the media type of a blob, of which the client asks that it be this.
pub(crate) fn write_media(alloc: Global, accept: &[u8]) -> Result<Bytes, NoMemory>
    ensures { IfOk result (λ m. m ≡ media_of accept.now) }
{
    let mut decoded = Vec::new(alloc);
    percent_decode(accept).append_to(&mut decoded)?;
    if is_media_type(decoded.as_slice()) {
        return Ok(Bytes::from_vec(decoded));
    }
    Bytes::from_slice(alloc, b"application/octet-stream")
}

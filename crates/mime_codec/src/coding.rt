// The transfer encodings (RFC 2045, section 6), and the one call that decodes them.
ghost use Rattle.std.specs.Prelude.{◌≡◌, IfOk};
ghost use Rattle.mime_codec.specs.Decoded.{decoded};

use crate::base64::decode_base64;
use crate::quoted::decode_quoted;
use jm_base::{Bytes, NoMemory};
use std::alloc::Global;

/// The transfer encoding of a body part (Content-Transfer-Encoding; RFC 2045, section 6.1).
#[derive(Clone, Copy, Debug, PartialEq, Eq)]
pub enum Coding {
    /// As it is: `7bit`, `8bit`, `binary`, or no name at all.
    Plain,
    /// `quoted-printable`.
    Quoted,
    /// `base64`.
    Base64,
    /// A transfer encoding whose name isn't known: the bytes stay as they are.
    Unknown,
}

/// Returns the bytes that `bytes` encode in this transfer encoding. It fails only if memory runs
/// out.
pub fn decode(alloc: Global, coding: Coding, bytes: &[u8]) -> Result<Bytes, NoMemory>
    ensures { IfOk result (λ out. out ≡ decoded coding bytes.now) }
{
    match coding {
        Coding::Plain | Coding::Unknown => Bytes::from_slice(alloc, bytes),
        Coding::Quoted => Ok(Bytes::from_vec(decode_quoted(alloc, bytes)?)),
        Coding::Base64 => Ok(Bytes::from_vec(decode_base64(alloc, bytes)?)),
    }
}

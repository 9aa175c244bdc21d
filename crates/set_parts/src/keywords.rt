// Keywords (RFC 8621, section 4.1.1).
ghost use Rattle.std.specs.Prelude.{◌≡◌, IfOk};
ghost use Rattle.std.specs.List.{list_all};
ghost use Rattle.mail_counts.specs.Forms.{is_kept_out, is_keyword, is_keyword_byte};
ghost use Rattle.set_parts.specs.Names.{keyword_meant};

use jm_base::{NoMemory, Text};
use mail_counts::MAX_KEYWORD_CHARACTERS;
use std::alloc::Global;

// Returns whether a keyword may not have this byte: one of eight, or an upper-case letter.
fn is_kept_out(byte: u8) -> bool
    ensures { result ≡ is_kept_out byte }
{
    b'(' == byte
        || b')' == byte
        || b'{' == byte
        || b']' == byte
        || b'%' == byte
        || b'*' == byte
        || b'"' == byte
        || b'\\' == byte
        || (65 <= byte && byte <= 90)
}

fn is_keyword_byte(byte: u8) -> bool
    ensures { result ≡ is_keyword_byte byte }
{
    33 <= byte && byte <= 126 && !is_kept_out(byte)
}

fn are_keyword_bytes(bytes: &[u8]) -> bool
    ensures { result ≡ list_all is_keyword_byte bytes.now }
{
    bytes.iter().all(|byte| is_keyword_byte(*byte))
}

// Returns whether a text is a keyword as it is kept.
fn is_keyword(text: &str) -> bool
    ensures { result ≡ is_keyword text.now }
{
    if text.is_empty() || text.len() > MAX_KEYWORD_CHARACTERS {
        return false;
    }
    are_keyword_bytes(text.as_bytes())
}

/// Returns the keyword that a name means, in lower case, if it is one.
pub fn read_keyword(alloc: Global, name: &Text) -> Result<Option<Text>, NoMemory>
    ensures { IfOk result (λ k. k ≡ keyword_meant name.now) }
{
    let lower = Text::from_string(name.as_str().to_ascii_lowercase(alloc)?);
    if is_keyword(lower.as_str()) {
        Ok(Some(lower))
    } else {
        Ok(None)
    }
}

// Classes of characters, and lower case.
ghost use Rattle.std.specs.Prelude.{◌≡◌, ◌++◌, ◌∷◌, IfOk, OnOk};
ghost use Rattle.mime_lines.specs.FieldOffsets.{lowered};
ghost use Rattle.mime_type.specs.Characters;

use jm_base::NoMemory;
use std::alloc::Global;

fn is_special(byte: u8) -> bool
    ensures { result ≡ Rattle.mime_type.specs.Characters.is_special byte }
{
    byte == 34
        || (40 <= byte && byte <= 41)
        || byte == 44
        || byte == 47
        || (58 <= byte && byte <= 64)
        || (91 <= byte && byte <= 93)
}

/// Returns whether a byte may be in a token (RFC 2045, section 5.1).
pub fn is_token(byte: u8) -> bool
    ensures { result ≡ Rattle.mime_type.specs.Characters.is_token byte }
{
    33 <= byte && byte <= 126 && !is_special(byte)
}

fn is_delimiter(byte: u8) -> bool
    ensures { result ≡ Rattle.mime_type.specs.Characters.is_delimiter byte }
{
    byte == 34 || (40 <= byte && byte <= 41) || byte == 59 || byte == 92
}

/// Returns whether a byte may be in a value without quote marks: a character from `!` to `~` that
/// is no delimiter, or a byte of a character above U+007F.
pub fn is_bare(byte: u8) -> bool
    ensures { result ≡ Rattle.mime_type.specs.Characters.is_bare byte }
{
    128 <= byte || (33 <= byte && byte <= 126 && !is_delimiter(byte))
}

/// Adds a text in lower case.
pub fn push_lowered(out: &mut Vec<u8>, text: &[u8]) -> Result<(), NoMemory>
    ensures { OnOk result (out.new.items ≡ out.old.items ++ lowered text.now) }
{
    for byte in text {
        out.push(byte.to_ascii_lowercase())?;
    }
    Ok(())
}

/// Returns a text in lower case.
pub fn lower_copy(alloc: Global, text: &[u8]) -> Result<Vec<u8>, NoMemory>
    ensures { IfOk result (λ out. out.items ≡ lowered text.now) }
{
    let mut out = Vec::new(alloc);
    push_lowered(&mut out, text)?;
    Ok(out)
}

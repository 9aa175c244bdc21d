// A folded value as one line (unfolding; RFC 5322, section 2.2.3).
ghost use Rattle.std.specs.Prelude.{◌≡◌, IfOk};
ghost use Rattle.mime_lines.specs.Lines.{unfolded};

use crate::scan::{count_text_bytes, split_line};
use jm_base::{Bytes, NoMemory};
use std::alloc::Global;

/// Returns a value without the line ends within it (unfolding; RFC 5322, section 2.2.3).
pub fn unfold(alloc: Global, value: &[u8]) -> Result<Bytes, NoMemory>
    ensures { IfOk result (λ line. line ≡ unfolded value.now) }
{
    let mut line = Bytes::new(alloc);
    let mut rest = value;
    while !rest.is_empty() {
        let (folded, more) = split_line(rest);
        line.append(&folded[..count_text_bytes(folded)])?;
        rest = more;
    }
    Ok(line)
}

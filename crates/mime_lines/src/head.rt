// The fields of a header, found in one pass over its lines.
ghost use Rattle.std.specs.Prelude.{◌≡◌, ◌+◌, ◌<◌, ◌≤◌, ◌^◌, ◌++◌, ◌∷◌, [], All, length, IfOk, OnOk};
ghost use Rattle.mime_lines.specs.Fields.{fields_of, body_of, spans};
ghost use Rattle.mime_lines.specs.FieldOffsets.{IsWithin};

use crate::field::{Field, FieldSpans};
use crate::scan::{count_text_bytes, find_colon, is_line_end, split_field, split_line};
use jm_base::{NoMemory, Sequence};
use std::alloc::Global;

/// The fields of a header, and the byte offset where the body begins: after the first empty line,
/// or at the end of the bytes if there is no empty line.
#[derive(Drop)]
pub struct Head {
    pub fields: FieldSpans,
    pub body: u64,
}

/// Adds the field that these lines are, if they are a field; `at` is their byte offset.
fn push_field(fields: &mut FieldSpans, at: usize, lines: &[u8]) -> Result<(), NoMemory>
    requires { at + length lines.now < 2 ^ 64 }
    ensures { OnOk result (fields.new ≡ fields.old ++ spans at (lines.now ∷ [])) }
{
    if let Some(colon) = find_colon(lines) {
        fields.push(Field {
            start: at as u64,
            colon: (at + colon) as u64,
            end: (at + count_text_bytes(lines)) as u64,
        })?;
    }
    Ok(())
}

/// Finds the fields of the header at the start of a message or a part, and its body (RFC 5322,
/// section 2.2). A line that begins no field is skipped, with the lines that continue it. Total for
/// all bytes, in time linear in the header.
pub fn fields(alloc: Global, bytes: &[u8]) -> Result<Head, NoMemory>
    ensures fields { IfOk result (λ head. head.fields ≡ fields_of bytes.now) }
    ensures within { IfOk result (λ head. All (IsWithin bytes.now) head.fields) }
    ensures body { IfOk result (λ head. head.body ≡ body_of bytes.now) }
    ensures inside { IfOk result (λ head. head.body ≤ length bytes.now) }
{
    let mut fields = Sequence::new(alloc);
    let mut at: usize = 0;
    let mut rest = bytes;
    while !rest.is_empty() {
        let (line, after) = split_line(rest);
        if is_line_end(line) {
            return Ok(Head {
                fields,
                body: (at + line.len()) as u64,
            });
        }
        let (field, more) = split_field(rest, line, after);
        push_field(&mut fields, at, field)?;
        at += field.len();
        rest = more;
    }
    Ok(Head {
        fields,
        body: at as u64,
    })
}

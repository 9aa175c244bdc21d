// A header field: its byte offsets, and what is there.
ghost use Rattle.std.specs.Prelude.{List, ℕ, map, ◌≡◌, ◌↔◌, All, MatchOption, Some, None};
ghost use Rattle.mime_lines.specs.Fields.{fields_of};
ghost use Rattle.mime_lines.specs.FieldTexts.{read_at, field_texts};
ghost use Rattle.mime_lines.specs.FieldOffsets.{IsWithin, name_in, value_in, last_value_of};

use jm_base::Sequence;

/// A header field as byte offsets in the bytes that were read, from 0: where it begins, where its
/// colon is, and where it ends, its last line end left out.
#[derive(Clone, Copy, Debug, PartialEq, Eq)]
pub struct Field {
    pub start: u64,
    pub colon: u64,
    pub end: u64,
}

/// The fields of a header, in order.
pub type FieldSpans = Sequence<Field>;

impl Field {
    /// Returns the name, as it is written.
    pub fn name<'a>(&self, bytes: &'a [u8]) -> &'a [u8]
        requires { IsWithin bytes.now self.now }
        ensures { result.now ≡ name_in bytes.now self.now }
    {
        &bytes[self.start as usize..self.colon as usize]
    }

    /// Returns what follows the colon, with the line ends within it (RFC 8621, section 4.1.2.1).
    pub fn value<'a>(&self, bytes: &'a [u8]) -> &'a [u8]
        requires { IsWithin bytes.now self.now }
        ensures { result.now ≡ value_in bytes.now self.now }
    {
        &bytes[self.colon as usize + 1..self.end as usize]
    }

    /// Returns whether the field has this name, in either case (RFC 5322, section 1.2.2).
    pub fn is_named(&self, bytes: &[u8], name: &[u8]) -> bool
        requires { IsWithin bytes.now self.now }
        ensures { result
            ≡ Rattle.mime_lines.specs.FieldOffsets.is_named bytes.now name.now self.now }
    {
        self.name(bytes).eq_ignore_ascii_case(name)
    }
}

/// Returns the value of the last field that has this name, in either case; none if no field has
/// it.
pub fn find_last_value<'a>(bytes: &'a [u8], fields: &FieldSpans, name: &[u8]) -> Option<&'a [u8]>
    requires { All (IsWithin bytes.now) fields.now }
    ensures { MatchOption result (last_value_of bytes.now name.now fields.now ≡ None)
        (λ v. last_value_of bytes.now name.now fields.now ≡ Some v.now) }
{
    let fields = fields.as_slice();
    let mut left = fields.len();
    while left > 0 {
        left -= 1;
        if fields[left].is_named(bytes, name) {
            return Some(fields[left].value(bytes));
        }
    }
    None
}

/// What is at the byte offsets of a header's fields is the name and the value that the lines of the
/// header give, for all bytes.
pub fn fields_stand()
    ensures { (bytes : List ℕ) → map (read_at bytes) (fields_of bytes) ≡ field_texts bytes }
{}

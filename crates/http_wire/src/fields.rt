// What the fields of a head say.
ghost use Rattle.std.specs.Prelude.{◌≡◌, ◌<◌, ◌∷◌, [], length, MatchOption, IfSome, nat_lt};
ghost use Rattle.std.specs.Str.{str_eq_ignore_ascii_case};
ghost use Rattle.http_wire.specs.Fields.{pairs, values_of, lists_word};

use crate::request::HttpField;

// Returns whether two words are the same, in either case.
pub(crate) fn is_same_word(word: &[u8], other: &[u8]) -> bool
    ensures { result ≡ str_eq_ignore_ascii_case word.now other.now }
{
    word.eq_ignore_ascii_case(other)
}

/// Finds the first field of this name, in either case. Returns its value, and the fields after it
/// (RFC 9110, section 5.1).
pub fn find_next<'a>(fields: &'a [HttpField], name: &[u8]) -> Option<(&'a [u8], &'a [HttpField])>
    ensures value { MatchOption result (values_of name.now (pairs fields.now) ≡ []) (λ r. values_of
        name.now (pairs fields.now) ≡ r.0.now ∷ values_of name.now (pairs r.1.now)) }
    ensures shorter { IfSome result (λ r. length r.1.now < length fields.now) }
{
    let mut rest = fields;
    'field: while let Some((field, more)) = rest.split_first() {
        if is_same_word(field.name.as_bytes(), name) {
            return Some((field.value.as_slice(), more));
        }
        rest = more;
    }
    None
}

/// Returns whether there is a field of this name, in either case.
pub fn has_field(fields: &[HttpField], name: &[u8]) -> bool
    ensures { result ≡ nat_lt 0 (length (values_of name.now (pairs fields.now))) }
{
    match find_next(fields, name) {
        Some(_) => true,
        None => false,
    }
}

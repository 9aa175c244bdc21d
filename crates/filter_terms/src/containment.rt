// Whether a text contains another one, with ASCII letters in either case.
ghost use Rattle.std.specs.Prelude.{◌≡◌, ℕ, List, ◌∷◌, false, true, MatchOption};
ghost use Rattle.filter_terms.specs.Contains.{IsAfterFirst, begins_with, contains};

use memchr::memchr2;

// Returns the text after its first byte, if that is this byte.
fn strip_byte<'a>(text: &'a [u8], byte: u8) -> Option<&'a [u8]>
    ensures { MatchOption result
        ((ns : List ℕ) → begins_with (byte ∷ ns) text.now ≡ false)
        (λ rest. (ns : List ℕ) → begins_with (byte ∷ ns) text.now ≡ begins_with ns rest.now) }
{
    match text.split_first() {
        Some((first, rest)) => {
            if first.to_ascii_lowercase() == byte.to_ascii_lowercase() {
                Some(rest)
            } else {
                None
            }
        }
        None => None,
    }
}

// Returns whether the text has the last byte of the needle, in either case, where it is if the text
// begins with the needle. Few texts do by chance.
fn has_last(text: &[u8], needle: &[u8]) -> bool
    ensures { begins_with needle.now text.now ≡ true → result ≡ true }
{
    let len = needle.len();
    if len == 0 {
        return true;
    }
    len <= text.len() && text[len - 1].to_ascii_lowercase() == needle[len - 1].to_ascii_lowercase()
}

// Returns whether the text begins with the needle.
fn begins_with(text: &[u8], needle: &[u8]) -> bool
    ensures { result ≡ begins_with needle.now text.now }
{
    if !has_last(text, needle) {
        return false;
    }
    let mut rest = text;
    for byte in needle {
        match strip_byte(rest, *byte) {
            Some(after) => rest = after,
            None => return false,
        }
    }
    true
}

// Returns what follows the first byte of the text that is this byte in either case.
fn find_after<'a>(text: &'a [u8], byte: u8) -> Option<&'a [u8]>
    ensures { MatchOption result ((ns : List ℕ) → contains (byte ∷ ns) text.now ≡ false)
        (λ after. IsAfterFirst byte text.now after.now) }
{
    match memchr2(byte.to_ascii_lowercase(), byte.to_ascii_uppercase(), text) {
        Some(index) => Some(&text[index + 1..]),
        None => None,
    }
}

// Returns whether the text contains a needle that begins with this byte and continues with
// `others`.
fn contains_from(text: &[u8], first: u8, others: &[u8]) -> bool
    ensures { result ≡ contains (first ∷ others.now) text.now }
{
    let mut rest = text;
    while let Some(after) = find_after(rest, first) {
        if begins_with(after, others) {
            return true;
        }
        rest = after;
    }
    false
}

/// Returns whether the text contains the needle; ASCII letters count in either case. It takes no
/// memory.
pub fn contains(text: &[u8], needle: &[u8]) -> bool
    ensures { result ≡ contains needle.now text.now }
{
    match needle.split_first() {
        Some((first, others)) => contains_from(text, *first, others),
        None => true,
    }
}

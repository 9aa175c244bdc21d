// The words of a date-time: white space and comments separate them, and a comma is a word of its
// own (RFC 5322, sections 3.2.2 and 3.3).
ghost use Rattle.std.specs.Prelude.{◌≡◌, ◌≤◌, ◌∷◌, length, option_map, MatchOption, IfSome, IfNone, true, None};
ghost use Rattle.std.specs.List.{prefix_len};
ghost use Rattle.header_forms.specs.Dates.{words_of};
ghost use Rattle.header_forms.specs.DateWords;
ghost use Rattle.header_forms.specs.DateWords.{begins_word, starts_word, has_no_word, is_end};

use mail_text::{WhiteSpace, skip_gap};

/// A word, and the text after it.
#[derive(Clone, Copy)]
pub struct Word<'a> {
    pub word: &'a [u8],
    pub rest: &'a [u8],
}

/// Returns the text from its first word on; none if a comment isn't closed.
fn skip_gaps(text: &[u8]) -> Option<&[u8]>
    ensures value { MatchOption result (words_of text.now ≡ None)
        (λ r. words_of text.now ≡ words_of r.now) }
    ensures begins { IfSome result (λ r. begins_word r.now ≡ true) }
    ensures within { IfSome result (λ r. length r.now ≤ length text.now) }
{
    skip_gap(text, WhiteSpace::Ascii)
}

/// Returns whether a byte continues a word.
fn is_in_word(byte: u8) -> bool
    ensures { result ≡ DateWords.is_in_word byte }
{
    !(byte == b'(' || byte.is_ascii_whitespace()) && byte != b','
}

/// Returns how many bytes the word at the start has.
fn count_word_bytes(text: &[u8]) -> usize
    ensures within { result ≤ length text.now }
    ensures value { result ≡ prefix_len DateWords.is_in_word text.now }
{
    for (i, byte) in text.iter().enumerate() {
        if !is_in_word(*byte) {
            return i;
        }
    }
    text.len()
}

/// Reads the word at the start, which is no comma.
#[tactic(auto, using(crate::proofs::DateSplit::word_split))]
fn read_plain_word(text: &[u8]) -> Word<'_>
    requires { starts_word text.now ≡ true }
    ensures { words_of text.now ≡ option_map (λ later. result.word.now ∷ later)
        (words_of result.rest.now) }
{
    let (word, rest) = text.split_at(count_word_bytes(text));
    Word { word, rest }
}

/// Reads the word that the text begins with; none if the text is empty.
fn read_leading_word(text: &[u8]) -> Option<Word<'_>>
    requires { begins_word text.now ≡ true }
    ensures value { IfSome result (λ w. words_of text.now
        ≡ option_map (λ later. w.word.now ∷ later) (words_of w.rest.now)) }
    ensures none { IfNone result (length text.now ≡ 0) }
{
    match text {
        [] => None,
        [byte, rest @ ..] => {
            if *byte == b',' {
                return Some(Word {
                    word: &text[..1],
                    rest,
                });
            }
            Some(read_plain_word(text))
        }
    }
}

/// Reads the first word of the text; none if there is none, or a comment before it isn't closed.
pub fn read_word(text: &[u8]) -> Option<Word<'_>>
    ensures value { IfSome result (λ w. words_of text.now
        ≡ option_map (λ later. w.word.now ∷ later) (words_of w.rest.now)) }
    ensures none { IfNone result (has_no_word (words_of text.now) ≡ true) }
{
    let rest = skip_gaps(text)?;
    read_leading_word(rest)
}

/// Returns whether there is no word, and each comment is closed.
pub fn is_done(text: &[u8]) -> bool
    ensures { result ≡ is_end (words_of text.now) }
{
    match skip_gaps(text) {
        None => false,
        Some(rest) => rest.is_empty(),
    }
}

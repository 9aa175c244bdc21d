// Texts as they are, or in encoded-words (RFC 2047, sections 2 and 5).
ghost use Rattle.std.specs.Prelude.{◌≡◌, ◌++◌, ◌∷◌, ◌≤◌, List, ℕ, length, string_bytes, OnOk};
ghost use Rattle.std.specs.List.{list_all};
ghost use Rattle.mime_codec.specs.Quoted.{is_between};
ghost use Rattle.mime_words.specs.WrittenWords;
ghost use Rattle.mime_writer.specs.Pieces.{words_from};
ghost use Rattle.mime_writer.specs.WordStarts;
ghost use Rattle.mime_words.specs.WrittenWords.{word_text, words_by};

use crate::base64::push_encoded;
use jm_base::NoMemory;
use std::alloc::Global;

/// How many bytes of a text an encoded-word has at most.
const WORD_BYTES: usize = 45;

/// How many bytes a text has at most that is written as it is.
const MAX_PLAIN_BYTES: usize = 900;

/// Adds the encoded-word of some bytes in UTF-8.
fn push_word(out: &mut Vec<u8>, bytes: &[u8]) -> Result<(), NoMemory>
    ensures { OnOk result (out.new.items ≡ out.old.items ++ word_text bytes.now) }
{
    out.extend_from_slice("=?utf-8?B?".as_bytes())?;
    push_encoded(out, bytes)?;
    out.extend_from_slice("?=".as_bytes())?;
    Ok(())
}

/// Adds a character to the piece that is to be the next encoded-word; a piece that has no room for
/// it is written first.
fn push_character(
    out: &mut Vec<u8>,
    piece: &mut String,
    between: &[u8],
    c: char,
) -> Result<(), NoMemory>
    requires { length (string_bytes piece.old) ≤ WORD_BYTES }
    ensures text { OnOk result ((rest : List ℕ) → out.new.items
        ++ words_from between.now (string_bytes piece.new) rest
        ≡ out.old.items ++ words_from between.now (string_bytes piece.old) (c ∷ rest)) }
    ensures within { OnOk result (length (string_bytes piece.new) ≤ WORD_BYTES) }
{
    if piece.len() + c.len_utf8() <= WORD_BYTES {
        piece.push(c)?;
        return Ok(());
    }
    push_word(out, piece.as_bytes())?;
    out.extend_from_slice(between)?;
    piece.clear();
    piece.push(c)?;
    Ok(())
}

/// Adds a text in encoded-words of whole characters, with this between each and the next. Fails
/// only if memory runs out.
pub(crate) fn push_words(
    alloc: Global,
    out: &mut Vec<u8>,
    between: &[u8],
    text: &str,
) -> Result<(), NoMemory>
    ensures { OnOk result (out.new.items ≡ out.old.items ++ words_by between.now text.now) }
{
    let mut piece = String::new(alloc);
    for c in text.chars() {
        push_character(out, &mut piece, between, c)?;
    }
    push_word(out, piece.as_bytes())
}

/// Returns whether an equals sign and a question mark begin some bytes.
fn begins_word(bytes: &[u8]) -> bool
    ensures { result ≡ WordStarts.begins_word bytes.now }
{
    match bytes {
        [b'=', b'?', ..] => true,
        _ => false,
    }
}

/// Returns whether `=?` is in a text.
fn has_word_start(bytes: &[u8]) -> bool
    ensures { result ≡ WrittenWords.has_word_start bytes.now }
{
    let mut rest = bytes;
    while let Some((_, more)) = rest.split_first() {
        if begins_word(rest) {
            return true;
        }
        rest = more;
    }
    false
}

/// Returns whether all bytes are from space to `~`.
fn is_printed(text: &[u8]) -> bool
    ensures { result ≡ list_all (is_between 32 126) text.now }
{
    text.iter().all(|b| 32 <= *b && *b <= 126)
}

/// Returns whether a text is written as it is: it has few bytes, all from space to `~`, without
/// `=?`.
pub(crate) fn is_plain_text(text: &[u8]) -> bool
    ensures { result ≡ WrittenWords.is_plain_text text.now }
{
    if text.len() > MAX_PLAIN_BYTES || !is_printed(text) {
        return false;
    }
    !has_word_start(text)
}

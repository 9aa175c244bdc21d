// The subject by which threads are distinguished (RFC 5256, section 2.1, in part).
ghost use Rattle.std.specs.Prelude.{◌≡◌, ◌<◌, length, drop, MatchOption, IfOk, IfSome};
ghost use Rattle.std.specs.Str.{chars};
ghost use Rattle.header_forms.specs.Texts.{text_form};
ghost use Rattle.mail_summary.specs.Subjects;
ghost use Rattle.mail_summary.specs.Subjects.{stripped, without_prefixes};
ghost use Rattle.mail_summary.specs.Texts.{brief};

use crate::characters::{collect_characters, lower, shorten, space_out};
use header_forms::read_text_form;
use jm_base::{NoMemory, Text};
use std::alloc::Global;

/// Returns the length of the prefix of a reply or a forward with which a text in lower case begins,
/// or 0.
fn prefix_size(text: &[char]) -> usize
    ensures value { result ≡ Subjects.prefix_size text.now }
{
    if text.starts_with(&['r', 'e', ':']) || text.starts_with(&['f', 'w', ':']) {
        3
    } else if text.starts_with(&['f', 'w', 'd', ':']) {
        4
    } else {
        0
    }
}

/// Returns the text without its first `size` characters.
fn skip_characters(text: &[char], size: usize) -> &[char]
    ensures { result.now ≡ drop size text.now }
{
    if size < text.len() {
        &text[size..]
    } else {
        &[]
    }
}

/// Returns what follows the white space or the prefix at the beginning; none if there is neither.
fn skip_first_prefix(text: &[char]) -> Option<&[char]>
    ensures value { MatchOption result (without_prefixes text.now 0 ≡ text.now)
        (λ a. without_prefixes text.now 0 ≡ without_prefixes a.now 0) }
    ensures shorter { IfSome result (λ a. length a.now < length text.now) }
{
    let Some((c, after)) = text.split_first() else {
        return None;
    };
    if c.is_ascii_whitespace() {
        return Some(after);
    }
    let size = prefix_size(text);
    if size == 0 {
        return None;
    }
    Some(skip_characters(after, size - 1))
}

/// Returns a text in lower case without the prefixes at its beginning and the white space around
/// each.
fn skip_prefixes(text: &[char]) -> &[char]
    ensures { result.now ≡ without_prefixes text.now 0 }
{
    let mut rest = text;
    while let Some(after) = skip_first_prefix(rest) {
        rest = after;
    }
    rest
}

/// Reads the subject of a value without the prefixes of replies and forwards, in lower case and
/// with one space for each run of white space.
pub fn read_subject(alloc: Global, value: &[u8]) -> Result<Text, NoMemory>
    ensures { IfOk result (λ t. t ≡ brief (stripped (chars (text_form value.now)))) }
{
    let text = read_text_form(alloc, value)?;
    let all = collect_characters(alloc, text.as_str())?;
    let low = lower(alloc, all.as_slice())?;
    let out = space_out(alloc, skip_prefixes(low.as_slice()))?;
    shorten(alloc, out.as_slice())
}

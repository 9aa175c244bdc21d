// Texts as lists of characters.
ghost use Rattle.std.specs.Prelude.{◌≡◌, ◌+◌, ◌<◌, ◌++◌, ◌∷◌, List, ℕ, length, take, map, IfOk, IfSome, string_bytes};
ghost use Rattle.std.specs.Char.{to_ascii_lowercase};
ghost use Rattle.std.specs.Str.{chars, encode_utf8_all};
ghost use Rattle.mail_summary.specs.Texts;
ghost use Rattle.mail_summary.specs.Texts.{with_gap_if, brief, spaced};

use jm_base::{NoMemory, Text};
use std::alloc::Global;

/// The most characters of a preview, and of a summary's subject and names.
const MAX_SHOWN_CHARACTERS: usize = 256;

/// Returns the characters of a text.
pub fn collect_characters(alloc: Global, text: &str) -> Result<Vec<char>, NoMemory>
    ensures { IfOk result (λ cs. cs.items ≡ chars text.now) }
{
    Ok(text.chars().collect(alloc)?)
}

/// Returns characters with the ASCII letters in lower case.
pub fn lower(alloc: Global, text: &[char]) -> Result<Vec<char>, NoMemory>
    ensures { IfOk result (λ cs. cs.items ≡ map to_ascii_lowercase text.now) }
{
    let mut out = Vec::with_capacity(alloc, text.len())?;
    for c in text {
        out.push(c.to_ascii_lowercase())?;
    }
    Ok(out)
}

/// Returns the first `MAX_SHOWN_CHARACTERS` characters of a text.
fn shown_prefix(text: &[char]) -> &[char]
    ensures { result.now ≡ take MAX_SHOWN_CHARACTERS text.now }
{
    if text.len() > MAX_SHOWN_CHARACTERS {
        &text[..MAX_SHOWN_CHARACTERS]
    } else {
        text
    }
}

/// Returns the text of some characters, as UTF-8.
fn encode(alloc: Global, text: &[char]) -> Result<String, NoMemory>
    ensures { IfOk result (λ s. string_bytes s ≡ encode_utf8_all text.now) }
{
    let mut out = String::new(alloc);
    for c in text {
        out.push(*c)?;
    }
    Ok(out)
}

/// Returns the text of the first `MAX_SHOWN_CHARACTERS` of some characters.
pub fn shorten(alloc: Global, text: &[char]) -> Result<Text, NoMemory>
    ensures { IfOk result (λ t. t ≡ brief text.now) }
{
    Ok(Text::from_string(encode(alloc, shown_prefix(text))?))
}

/// Returns the first `MAX_SHOWN_CHARACTERS` characters of a text.
pub fn shorten_text(alloc: Global, text: &str) -> Result<Text, NoMemory>
    ensures { IfOk result (λ t. t ≡ brief (chars text.now)) }
{
    let all = collect_characters(alloc, text)?;
    shorten(alloc, all.as_slice())
}

/// Adds a character, after a space if there is a gap before it; returns whether there is a gap
/// after it.
fn push_spaced(out: &mut Vec<char>, gap: bool, c: char) -> Result<bool, NoMemory>
    ensures { (later : List ℕ) → IfOk result (λ g. out.new.items ++ with_gap_if g (spaced later)
        ≡ out.old.items ++ with_gap_if gap (spaced (c ∷ later))) }
{
    if c.is_ascii_whitespace() {
        return Ok(true);
    }
    if !gap {
        out.push(c)?;
        return Ok(false);
    }
    out.push(' ')?;
    out.push(c)?;
    Ok(false)
}

/// Returns some characters with one space for each run of white space, and none at the end.
pub fn space_out(alloc: Global, text: &[char]) -> Result<Vec<char>, NoMemory>
    ensures { IfOk result (λ cs. cs.items ≡ spaced text.now) }
{
    let mut out = Vec::new(alloc);
    let mut gap = false;
    for c in text {
        gap = push_spaced(&mut out, gap, *c)?;
    }
    Ok(out)
}

/// Returns some characters without a space at the beginning.
fn skip_space(text: &[char]) -> &[char]
    ensures { result.now ≡ Texts.without_space text.now }
{
    match text.split_first() {
        Some((c, after)) => { if *c == ' ' { after } else { text } }
        None => text,
    }
}

/// Returns the first `MAX_SHOWN_CHARACTERS` + 1 characters of a text with one space for each run of
/// white space and none at the end, and perhaps more of them.
fn collect_spaced_prefix(alloc: Global, text: &str) -> Result<Vec<char>, NoMemory>
    ensures text { IfOk result (λ cs. take (MAX_SHOWN_CHARACTERS + 1) cs.items
        ≡ take (MAX_SHOWN_CHARACTERS + 1) (spaced (chars text.now))) }
    ensures settled { IfOk result (λ cs. MAX_SHOWN_CHARACTERS < length cs.items → (later : List ℕ)
        → take (MAX_SHOWN_CHARACTERS + 1) cs.items
        ≡ take (MAX_SHOWN_CHARACTERS + 1) (spaced (chars text.now ++ later))) }
{
    let mut out = Vec::new(alloc);
    let mut gap = false;
    for c in text.chars() {
        if out.len() > MAX_SHOWN_CHARACTERS {
            break;
        }
        gap = push_spaced(&mut out, gap, c)?;
    }
    Ok(out)
}

/// Returns the first `MAX_SHOWN_CHARACTERS` characters of a text with one space for each run of
/// white space and none at either end.
pub fn shorten_spaced(alloc: Global, text: &str) -> Result<Text, NoMemory>
    ensures { IfOk result (λ t. t ≡ brief (Texts.one_spaced (chars text.now))) }
{
    let out = collect_spaced_prefix(alloc, text)?;
    shorten(alloc, skip_space(out.as_slice()))
}

/// Returns what `shorten_spaced` returns for every text that begins with this one; none if what
/// follows may change it.
pub fn find_settled_brief(alloc: Global, text: &str) -> Result<Option<Text>, NoMemory>
    ensures { IfOk result (λ found. IfSome found (λ t. (later : List ℕ)
        → t ≡ brief (Texts.one_spaced (chars text.now ++ later)))) }
{
    let out = collect_spaced_prefix(alloc, text)?;
    if out.len() <= MAX_SHOWN_CHARACTERS {
        return Ok(None);
    }
    Ok(Some(shorten(alloc, skip_space(out.as_slice()))?))
}

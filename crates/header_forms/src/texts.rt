// A field's value as a text: as it is, on one line, and with its encoded-words decoded.
ghost use Rattle.std.specs.Prelude.{◌≡◌, ◌≢◌, ◌<◌, ◌∷◌, [], ◌++◌, ℕ, IfOk, OnOk, string_bytes};
ghost use Rattle.mime_lines.specs.Lines;
ghost use Rattle.mime_lines.specs.Lines.{unfolded};
ghost use Rattle.mime_words.specs.Words.{decoded_words};
ghost use Rattle.header_forms.specs.Texts;
ghost use Rattle.header_forms.specs.Texts.{without, is_zero, raw_text, without_spaces, text_form};

use jm_base::{NoMemory, Text};
use mime_words::decode_words;
use std::alloc::Global;

/// Removes U+0000 from a text.
fn drop_zeros(text: &mut String)
    ensures { string_bytes text.new ≡ without is_zero (string_bytes text.old) }
{
    text.retain(|c| c != '\0');
}

/// Returns the Raw form of a value (RFC 8621, section 4.1.2.1): with U+FFFD for what is no UTF-8,
/// and without U+0000.
pub fn read_raw(alloc: Global, value: &[u8]) -> Result<Text, NoMemory>
    ensures { IfOk result (λ t. t ≡ raw_text value.now) }
{
    let mut text = String::from_utf8_lossy(alloc, value)?;
    drop_zeros(&mut text);
    Ok(Text::from_string(text))
}

/// Adds a line that an LF ends, without its line end.
fn push_line(out: &mut String, line: &str) -> Result<(), NoMemory>
    ensures { OnOk result (string_bytes out.new ≡ string_bytes out.old
        ++ Lines.text (line.now ++ 10 ∷ [])) }
{
    match line.strip_suffix('\r') {
        Some(front) => out.push_str(front)?,
        None => out.push_str(line)?,
    }
    Ok(())
}

/// Returns a text without its line ends (RFC 5322, section 2.2.3).
fn unfold_text(alloc: Global, text: &str) -> Result<String, NoMemory>
    ensures { IfOk result (λ s. string_bytes s ≡ unfolded text.now) }
{
    let mut out = String::new(alloc);
    let mut rest = text;
    while let Some((line, more)) = rest.split_once('\n') {
        push_line(&mut out, line)?;
        rest = more;
    }
    out.push_str(rest)?;
    Ok(out)
}

/// Returns the Raw form of a value without the line ends within it: every other form is read from
/// it.
pub fn unfold_value(alloc: Global, value: &[u8]) -> Result<Text, NoMemory>
    ensures { IfOk result (λ t. t ≡ Texts.on_one_line value.now) }
{
    let raw = read_raw(alloc, value)?;
    Ok(Text::from_string(unfold_text(alloc, raw.as_str())?))
}

/// Returns a text without the spaces at its beginning.
fn skip_spaces(text: &str) -> &str
    ensures { result.now ≡ without_spaces text.now }
{
    let mut rest = text;
    while let Some(after) = rest.strip_prefix(' ') {
        rest = after;
    }
    rest
}

/// Decodes the encoded-words of a text (RFC 2047).
pub(crate) fn decode_text(alloc: Global, text: &str) -> Result<Text, NoMemory>
    ensures { IfOk result (λ t. t ≡ decoded_words text.now) }
{
    decode_words(alloc, text.as_bytes())
}

/// Returns the Text form of a value (RFC 8621, section 4.1.2.2): on one line, without the spaces at
/// its beginning, and with its encoded-words decoded.
pub fn read_text_form(alloc: Global, value: &[u8]) -> Result<Text, NoMemory>
    ensures { IfOk result (λ t. t ≡ text_form value.now) }
{
    let line = unfold_value(alloc, value)?;
    decode_text(alloc, skip_spaces(line.as_str()))
}

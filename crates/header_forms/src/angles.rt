// The texts between angle brackets.
ghost use Rattle.std.specs.Prelude.{◌≡◌, ◌<◌, ◌∷◌, [], ◌++◌, length, MatchOption, IfOk, IfSome, OnOk, string_bytes};
ghost use Rattle.std.specs.Char.{is_ascii_whitespace};
ghost use Rattle.header_forms.specs.Angles.{read, shown_texts, angle_texts};
ghost use Rattle.header_forms.specs.Texts.{without};

use jm_base::{NoMemory, Sequence, Text, Texts};
use std::alloc::Global;

/// A text between brackets, and the text after it.
#[derive(Clone, Copy)]
struct Angle<'a> {
    text: &'a str,
    rest: &'a str,
}

/// Reads the first text between brackets.
fn next_angle(text: &str) -> Option<Angle<'_>>
    ensures value { MatchOption result ((read text.now).outside ≡ [])
        (λ a. (read text.now).outside ≡ a.text.now ∷ (read a.rest.now).outside) }
    ensures less { IfSome result (λ a. length a.rest.now < length text.now) }
{
    let Some((_, inner)) = text.split_once('<') else {
        return None;
    };
    let Some((text, rest)) = inner.split_once('>') else {
        return None;
    };
    Some(Angle { text, rest })
}

/// Removes the white space from a text.
fn drop_white(text: &mut String)
    ensures { string_bytes text.new ≡ without is_ascii_whitespace (string_bytes text.old) }
{
    text.retain(|c| !c.is_ascii_whitespace());
}

/// Adds a text without its white space, unless it is empty then.
fn push_angle(alloc: Global, found: &mut Texts, text: &str) -> Result<(), NoMemory>
    ensures { OnOk result (found.new ≡ found.old ++ shown_texts (text.now ∷ [])) }
{
    let mut text = String::from_str(alloc, text)?;
    drop_white(&mut text);
    if !text.is_empty() {
        found.push(Text::from_string(text))?;
    }
    Ok(())
}

/// Reads the texts between `<` and `>` in a value on one line, without their white space:
/// identifiers of messages, and URLs (RFC 8621, sections 4.1.2.5 and 4.1.2.7). Empty ones are left
/// out, and a bracket that isn't closed gives none.
pub fn read_angle_texts(alloc: Global, text: &str) -> Result<Texts, NoMemory>
    ensures { IfOk result (λ ts. ts ≡ angle_texts text.now) }
{
    let mut found = Sequence::new(alloc);
    let mut rest = text;
    while let Some(angle) = next_angle(rest) {
        push_angle(alloc, &mut found, angle.text)?;
        rest = angle.rest;
    }
    Ok(found)
}

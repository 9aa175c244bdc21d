// A text of HTML without its tags.
ghost use Rattle.std.specs.Prelude.{◌≡◌, ◌≤◌, ◌∷◌, ◌++◌, length, IfOk, string_bytes};
ghost use Rattle.mail_summary.specs.Texts.{without_tags};

use jm_base::{NoMemory, Text};
use std::alloc::Global;

/// Adds a space for the tag that an opening bracket begins, and returns the text after the tag. If
/// no bracket closes the tag, the bracket and all the text after it stay: there is no tag in it
/// either.
fn push_tag<'a>(out: &mut String, after: &'a str) -> Result<&'a str, NoMemory>
    ensures value { IfOk result (λ later. string_bytes out.new ++ without_tags later.now
        ≡ string_bytes out.old ++ without_tags (60 ∷ after.now)) }
    ensures within { IfOk result (λ later. length later.now ≤ length after.now) }
{
    match after.split_once('>') {
        Some((_, later)) => {
            out.push(' ')?;
            Ok(later)
        }
        None => {
            out.push('<')?;
            out.push_str(after)?;
            Ok("")
        }
    }
}

/// Returns a text with a space for each HTML tag, in time linear in its length.
pub fn remove_tags(alloc: Global, text: &str) -> Result<Text, NoMemory>
    ensures { IfOk result (λ t. t ≡ without_tags text.now) }
{
    let mut out = String::with_capacity(alloc, text.len())?;
    let mut rest = text;
    while let Some((front, after)) = rest.split_once('<') {
        out.push_str(front)?;
        rest = push_tag(&mut out, after)?;
    }
    out.push_str(rest)?;
    Ok(Text::from_string(out))
}

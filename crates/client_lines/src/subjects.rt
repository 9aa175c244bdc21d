// A subject as it is printed.
ghost use Rattle.std.specs.Prelude.{◌≡◌, ◌++◌, [], OnOk, false, option_map, string_bytes, unwrap_or};
ghost use Rattle.jm_json.specs.Find.{as_text};
ghost use Rattle.jm_json.specs.Json.{tree_of};
ghost use Rattle.client_lines.specs.Lines.{printed, printed_character, printed_email, subject_of};

use jm_base::NoMemory;
use jm_json::Json;

// Returns the character, or a space in place of a control character.
fn print_character(c: char) -> char
    ensures { result ≡ printed_character c }
{
    if c.is_control() { ' ' } else { c }
}

// Returns whether a text may have a control character. If it has none, it is printed as it is.
fn has_control(text: &str) -> bool
    ensures { result ≡ false → printed text.now ≡ text.now }
{
    for c in text.chars() {
        if c.is_control() {
            return true;
        }
    }
    false
}

// Adds a text, with a space in place of each control character.
fn push_characters(line: &mut String, text: &str) -> Result<(), NoMemory>
    ensures { OnOk result (string_bytes line.new ≡ string_bytes line.old ++ printed text.now) }
{
    for c in text.chars() {
        line.push(print_character(c))?;
    }
    Ok(())
}

// Adds a text as it is printed.
fn push_printed(line: &mut String, text: &str) -> Result<(), NoMemory>
    ensures { OnOk result (string_bytes line.new ≡ string_bytes line.old ++ printed text.now) }
{
    if has_control(text) {
        return push_characters(line, text);
    }
    line.push_str(text)?;
    Ok(())
}

// Lends a text, or the empty one if the value is no text.
fn lend_text(value: &Json) -> &str
    ensures { result.now ≡ unwrap_or (as_text (tree_of value.now)) [] }
{
    match value.as_text() {
        Some(text) => text.as_str(),
        None => "",
    }
}

// Lends the subject of an email's object, which is empty if the object has none.
fn lend_subject(email: &Json) -> &str
    ensures { result.now ≡ subject_of (tree_of email.now) }
{
    match email.as_object() {
        Some(members) => match members.get("subject") {
            Some(value) => lend_text(value),
            None => "",
        },
        None => "",
    }
}

/// Adds what is printed of an email: its subject, or a question mark if the email isn't cached.
pub(crate) fn push_email(line: &mut String, email: Option<&Json>) -> Result<(), NoMemory>
    ensures { OnOk result (string_bytes line.new ≡ string_bytes line.old
        ++ printed_email (option_map (λ j. tree_of j.now) email.entry)) }
{
    match email {
        Some(email) => push_printed(line, lend_subject(email)),
        None => {
            line.push_str("?")?;
            Ok(())
        }
    }
}

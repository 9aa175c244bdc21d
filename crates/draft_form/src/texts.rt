// The strings that a draft may have (RFC 5322, sections 2.2 and 3.2; RFC 2045, section 5.1).
ghost use Rattle.std.specs.Prelude.{◌≡◌};
ghost use Rattle.std.specs.List.{list_all};
ghost use Rattle.header_forms.specs.WrittenForms;
ghost use Rattle.mime_type.specs.Characters;
ghost use Rattle.mime_type.specs.HeadText;
ghost use Rattle.draft_form.specs.Texts;

/// How many bytes a Message-ID, a Content-ID and a Content-Location may have: a line has at most
/// 998 (RFC 5322, section 2.1.1).
pub const MAX_LABEL_BYTES: usize = 900;

/// A kind of strings.
#[derive(Clone, Copy)]
pub enum TextRule {
    /// Any string.
    Any,
    /// A token (RFC 2045, section 5.1).
    Token,
    /// A Content-ID or a Content-Location: 1 to `MAX_LABEL_BYTES` characters from `!` to `~`
    /// without angle brackets.
    Label,
    /// A Message-ID, of the same characters.
    Identifier,
    /// An address: characters from `!` to `~` without `< > " ( ) \`.
    Address,
    /// A string without ASCII control characters.
    Shown,
    /// A string without ASCII control characters and without white space at its ends.
    FieldText,
    /// Such a string that isn't empty.
    DisplayName,
}

fn is_special(byte: u8) -> bool
    ensures { result ≡ Characters.is_special byte }
{
    byte == 34
        || (40 <= byte && byte <= 41)
        || byte == 44
        || byte == 47
        || (58 <= byte && byte <= 64)
        || (91 <= byte && byte <= 93)
}

fn is_token(byte: u8) -> bool
    ensures { result ≡ Characters.is_token byte }
{
    33 <= byte && byte <= 126 && !is_special(byte)
}

fn are_tokens(text: &[u8]) -> bool
    ensures { result ≡ list_all Characters.is_token text.now }
{
    text.iter().all(|b| is_token(*b))
}

// Returns whether a byte may be in an identifier or a label: from ! to ~, but no angle bracket.
fn is_id_character(byte: u8) -> bool
    ensures { result ≡ WrittenForms.is_id_character byte }
{
    33 <= byte && byte <= 126 && byte != b'<' && byte != b'>'
}

fn are_id_characters(text: &[u8]) -> bool
    ensures { result ≡ list_all WrittenForms.is_id_character text.now }
{
    text.iter().all(|b| is_id_character(*b))
}

fn is_label_character(byte: u8) -> bool
    ensures { result ≡ HeadText.is_label_character byte }
{
    33 <= byte && byte <= 126 && byte != b'<' && byte != b'>'
}

fn are_label_characters(text: &[u8]) -> bool
    ensures { result ≡ list_all HeadText.is_label_character text.now }
{
    text.iter().all(|b| is_label_character(*b))
}

fn is_address_character(byte: u8) -> bool
    ensures { result ≡ WrittenForms.is_address_character byte }
{
    33 <= byte
        && byte <= 126
        && byte != b'<'
        && byte != b'>'
        && byte != b'"'
        && byte != b'('
        && byte != b')'
        && byte != b'\\'
}

fn are_address_characters(text: &[u8]) -> bool
    ensures { result ≡ list_all WrittenForms.is_address_character text.now }
{
    text.iter().all(|b| is_address_character(*b))
}

fn is_shown(byte: u8) -> bool
    ensures { result ≡ Texts.is_shown_byte byte }
{
    32 <= byte && byte != 127
}

fn are_shown(text: &[u8]) -> bool
    ensures { result ≡ Texts.are_shown text.now }
{
    text.iter().all(|b| is_shown(*b))
}

// Returns whether no white space is at either end.
fn has_no_outer_white(text: &[u8]) -> bool
    ensures { result ≡ WrittenForms.has_no_outer_white text.now }
{
    if text.is_empty() {
        return true;
    }
    !text[0].is_ascii_whitespace() && !text[text.len() - 1].is_ascii_whitespace()
}

fn is_field_text(text: &[u8]) -> bool
    ensures { result ≡ Texts.is_field_text text.now }
{
    are_shown(text) && has_no_outer_white(text)
}

/// Returns whether a string is of a kind.
pub fn keeps(rule: TextRule, text: &[u8]) -> bool
    ensures { result ≡ Texts.keeps rule text.now }
{
    match rule {
        TextRule::Any => true,
        TextRule::Token => 0 < text.len() && are_tokens(text),
        TextRule::Label => {
            text.len() <= MAX_LABEL_BYTES && 0 < text.len() && are_label_characters(text)
        }
        TextRule::Identifier => {
            text.len() <= MAX_LABEL_BYTES && 0 < text.len() && are_id_characters(text)
        }
        TextRule::Address => 0 < text.len() && are_address_characters(text),
        TextRule::Shown => are_shown(text),
        TextRule::FieldText => is_field_text(text),
        TextRule::DisplayName => 0 < text.len() && is_field_text(text),
    }
}

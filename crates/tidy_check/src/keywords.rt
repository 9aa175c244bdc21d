// The keywords of an email (RFC 8621, section 4.1.1).
ghost use Rattle.std.specs.Prelude.{◌≡◌};
ghost use Rattle.std.specs.List.{list_all};
ghost use Rattle.mail_counts.specs.Forms.{is_keyword, is_keyword_byte};
ghost use Rattle.tidy_check.specs.Checks.{are_keywords};

use crate::rising::are_texts_rising;
use jm_base::Text;
use mail_counts::{MAX_KEYWORD_CHARACTERS, MAX_KEYWORDS_PER_EMAIL};

fn is_keyword_byte(byte: u8) -> bool
    ensures { result ≡ is_keyword_byte byte }
{
    if byte < b'!' || byte > b'~' || byte.is_ascii_uppercase() {
        return false;
    }
    byte != b'('
        && byte != b')'
        && byte != b'{'
        && byte != b']'
        && byte != b'%'
        && byte != b'*'
        && byte != b'"'
        && byte != b'\\'
}

fn are_keyword_bytes(bytes: &[u8]) -> bool
    ensures { result ≡ list_all is_keyword_byte bytes.now }
{
    bytes.iter().all(|byte| is_keyword_byte(*byte))
}

// Returns whether a text is a keyword as it is kept: 1 to `MAX_KEYWORD_CHARACTERS` bytes that a
// keyword may have, in lower case.
fn is_keyword(text: &Text) -> bool
    ensures { result ≡ is_keyword text.now }
{
    let bytes = text.as_bytes();
    if bytes.is_empty() || bytes.len() > MAX_KEYWORD_CHARACTERS {
        return false;
    }
    are_keyword_bytes(bytes)
}

fn has_only_keywords(texts: &[Text]) -> bool
    ensures { result ≡ list_all is_keyword texts.now }
{
    for text in texts {
        if !is_keyword(text) {
            return false;
        }
    }
    true
}

/// Returns whether these are the keywords of an email.
pub(crate) fn are_keywords(keywords: &[Text]) -> bool
    ensures { result ≡ are_keywords keywords.now }
{
    if !has_only_keywords(keywords) {
        return false;
    }
    keywords.len() <= MAX_KEYWORDS_PER_EMAIL && are_texts_rising(keywords)
}

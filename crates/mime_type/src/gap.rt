// Single signs with the gaps around them: white space and comments (RFC 822, section 3.3).
ghost use Rattle.std.specs.Prelude.{◌≡◌, ◌<◌, ◌≤◌, length, option_map, IfSome};
ghost use Rattle.mime_type.specs.Grammar.{after_blanks, after_byte, after_mark};

use mail_text::WhiteSpace;

/// Returns what is after blanks and complete comments; none if a comment isn't closed.
pub fn skip_gap(text: &[u8]) -> Option<&[u8]>
    ensures value { option_map (λ r. r.now) result ≡ after_blanks text.now }
    ensures within { IfSome result (λ r. length r.now ≤ length text.now) }
{
    mail_text::skip_gap(text, WhiteSpace::SpaceAndTab)
}

/// Returns what is after this byte; none if the text doesn't begin with it.
pub fn skip_byte(sign: u8, text: &[u8]) -> Option<&[u8]>
    ensures value { option_map (λ r. r.now) result ≡ after_byte sign text.now }
    ensures less { IfSome result (λ r. length r.now < length text.now) }
{
    match text {
        [] => None,
        [byte, rest @ ..] => { if *byte == sign { Some(rest) } else { None } }
    }
}

/// Returns what is after this byte with the gaps around it.
#[tactic(auto, unfolding(crate::specs::Grammar::after_mark))]
pub fn skip_mark(sign: u8, text: &[u8]) -> Option<&[u8]>
    ensures value { option_map (λ r. r.now) result ≡ after_mark sign text.now }
    ensures within { IfSome result (λ r. length r.now ≤ length text.now) }
{
    let at = skip_gap(text)?;
    let rest = skip_byte(sign, at)?;
    skip_gap(rest)
}

// White space with comments in it (CFWS; RFC 5322, section 3.2.2).
ghost use Rattle.std.specs.Prelude.{◌≡◌, ◌≤◌, length, option_map, IfSome};
ghost use Rattle.mail_text.specs.Comments;
ghost use Rattle.mail_text.specs.Comments.{after_gap, is_white};

use crate::comment::{State, advance_state, is_outside};

/// Which bytes are white space.
#[derive(Clone, Copy)]
pub enum WhiteSpace {
    /// Space and tab (WSP; RFC 5234, appendix B.1): within a line that was unfolded.
    SpaceAndTab,
    /// Space, tab, LF, CR and FF.
    Ascii,
}

fn is_white_byte(white: WhiteSpace, byte: u8) -> bool
    ensures { result ≡ is_white white byte }
{
    match white {
        WhiteSpace::SpaceAndTab => byte == b' ' || byte == b'\t',
        WhiteSpace::Ascii => byte.is_ascii_whitespace(),
    }
}

/// Returns whether a byte is in white space or in a comment.
fn is_in_gap(white: WhiteSpace, state: State, byte: u8) -> bool
    ensures { result ≡ Comments.is_in_gap (is_white white) state byte }
{
    match state {
        State::Outside => byte == b'(' || is_white_byte(white, byte),
        State::Inside(_) => true,
        State::Escaped(_) => true,
    }
}

/// Returns what follows the white space and the comments at the beginning of a text; none if a
/// comment there isn't closed.
pub fn skip_gap(text: &[u8], white: WhiteSpace) -> Option<&[u8]>
    ensures value { option_map (λ r. r.now) result ≡ after_gap (is_white white) text.now }
    ensures within { IfSome result (λ r. length r.now ≤ length text.now) }
{
    let mut state = State::Outside;
    let mut rest = text;
    while let Some((byte, after)) = rest.split_first() {
        if !is_in_gap(white, state, *byte) {
            return Some(rest);
        }
        state = advance_state(state, *byte as u32);
        rest = after;
    }
    if is_outside(state) { Some(rest) } else { None }
}

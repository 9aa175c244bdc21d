// The pieces of an address list, which is cut at its signs.
ghost use Rattle.std.specs.Prelude.{◌≡◌, ◌<◌, length, MatchOption, IfSome};
ghost use Rattle.header_forms.specs.Groups;
ghost use Rattle.header_forms.specs.Groups.{slices_from, is_open_after, last, slice};

use crate::address_characters::{AddressCharacter, Context, Sign};

/// The characters before the first sign, that sign, and the characters after it.
#[derive(Clone, Copy)]
pub struct Piece<'a> {
    pub item: &'a [AddressCharacter],
    pub sign: Sign,
    pub rest: &'a [AddressCharacter],
}

fn is_bare(context: Context) -> bool
    ensures { result ≡ Groups.is_bare context }
{
    match context {
        Context::Bare => true,
        Context::Quoted => false,
        Context::Comment => false,
        Context::Bracket => false,
    }
}

/// Returns the sign that a character outside quotes, comments and brackets is, if a group is open
/// or not.
fn find_bare_sign(in_group: bool, c: char) -> Option<Sign>
    ensures { result ≡ Groups.bare_sign in_group c }
{
    if c == ',' {
        Some(Sign::Comma)
    } else if c == ':' && !in_group {
        Some(Sign::Colon)
    } else if c == ';' && in_group {
        Some(Sign::Semicolon)
    } else {
        None
    }
}

fn find_sign(in_group: bool, character: AddressCharacter) -> Option<Sign>
    ensures { result ≡ Groups.sign_of in_group character }
{
    if is_bare(character.context) {
        find_bare_sign(in_group, character.character)
    } else {
        None
    }
}

/// Returns whether a group is open after a sign.
pub fn is_open_after(in_group: bool, sign: Sign) -> bool
    ensures { result ≡ Groups.is_open_after in_group sign }
{
    match sign {
        Sign::Comma => in_group,
        Sign::Colon => true,
        Sign::Semicolon => false,
    }
}

/// Reads the first piece that ends with a sign, if a group is open or not.
pub fn read_piece(characters: &[AddressCharacter], in_group: bool) -> Option<Piece<'_>>
    ensures value { MatchOption result (slices_from characters.now in_group ≡ last characters.now)
        (λ p. slices_from characters.now in_group ≡ slice p.item.now p.sign
        (slices_from p.rest.now (is_open_after in_group p.sign))) }
    ensures less { IfSome result (λ p. length p.rest.now < length characters.now) }
{
    for (i, character) in characters.iter().enumerate() {
        if let Some(sign) = find_sign(in_group, *character) {
            return Some(Piece {
                item: &characters[..i],
                sign,
                rest: &characters[i + 1..],
            });
        }
    }
    None
}

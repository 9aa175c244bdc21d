// The address and the name of an item of an address list.
ghost use Rattle.std.specs.Prelude.{◌≡◌, ◌≤◌, ◌∷◌, [], ◌++◌, cond, length, IfOk, OnOk, string_bytes};
ghost use Rattle.std.specs.List.{position_or_len};
ghost use Rattle.header_forms.specs.Addresses;
ghost use Rattle.header_forms.specs.Addresses.{in_part, part_text, opens_bracket, closes_bracket, opens_comment, phrase_of, address_of};
ghost use Rattle.mail_text.specs.Texts.{trimmed};

use crate::address::{Address, Addresses};
use crate::address_characters::{AddressCharacter, Context, Part};
use crate::texts::decode_text;
use jm_base::{NoMemory, Text};
use mail_text::trim;
use std::alloc::Global;

fn is_comment(context: Context) -> bool
    ensures { result ≡ Addresses.is_comment context }
{
    match context {
        Context::Bare => false,
        Context::Quoted => false,
        Context::Comment => true,
        Context::Bracket => false,
    }
}

fn is_bracket(context: Context) -> bool
    ensures { result ≡ Addresses.is_bracket context }
{
    match context {
        Context::Bare => false,
        Context::Quoted => false,
        Context::Comment => false,
        Context::Bracket => true,
    }
}

fn is_in_part(part: Part, character: AddressCharacter) -> bool
    ensures { result ≡ Addresses.in_part part character }
{
    match part {
        Part::Whole => true,
        Part::Plain => !is_comment(character.context),
        Part::Phrase => character.said && !is_comment(character.context),
        Part::Remark => character.said && is_comment(character.context),
    }
}

fn opens_bracket(character: AddressCharacter) -> bool
    ensures { result ≡ Addresses.opens_bracket character }
{
    is_bracket(character.context) && (!character.said && character.character == '<')
}

fn closes_bracket(character: AddressCharacter) -> bool
    ensures { result ≡ Addresses.closes_bracket character }
{
    is_bracket(character.context) && (!character.said && character.character == '>')
}

fn opens_comment(character: AddressCharacter) -> bool
    ensures { result ≡ Addresses.opens_comment character }
{
    is_comment(character.context) && (!character.said && character.character == '(')
}

/// Returns the index where the first bracket opens, or the length.
fn find_opening_bracket(characters: &[AddressCharacter]) -> usize
    ensures value { result ≡ position_or_len Addresses.opens_bracket characters.now }
    ensures within { result ≤ length characters.now }
{
    for (i, character) in characters.iter().enumerate() {
        if opens_bracket(*character) {
            return i;
        }
    }
    characters.len()
}

/// Returns the index where the first bracket closes, or the length.
fn find_closing_bracket(characters: &[AddressCharacter]) -> usize
    ensures value { result ≡ position_or_len Addresses.closes_bracket characters.now }
    ensures within { result ≤ length characters.now }
{
    for (i, character) in characters.iter().enumerate() {
        if closes_bracket(*character) {
            return i;
        }
    }
    characters.len()
}

/// Adds a character, if it is in the part.
fn push_character(out: &mut String, part: Part, character: AddressCharacter) -> Result<(), NoMemory>
    ensures { OnOk result (string_bytes out.new
        ≡ string_bytes out.old ++ part_text part (character ∷ [])) }
{
    if is_in_part(part, character) {
        out.push(character.character)?;
    }
    Ok(())
}

/// Returns the text of a part.
fn collect_part(
    alloc: Global,
    part: Part,
    characters: &[AddressCharacter],
) -> Result<String, NoMemory>
    ensures { IfOk result (λ s. string_bytes s ≡ part_text part characters.now) }
{
    let mut out = String::with_capacity(alloc, characters.len())?;
    for character in characters {
        push_character(&mut out, part, *character)?;
    }
    Ok(out)
}

/// Returns the text of a part, trimmed.
fn read_plainly(
    alloc: Global,
    part: Part,
    characters: &[AddressCharacter],
) -> Result<Text, NoMemory>
    ensures { IfOk result (λ t. t ≡ trimmed (part_text part characters.now)) }
{
    let text = collect_part(alloc, part, characters)?;
    Text::from_str(alloc, trim(text.as_str()))
}

/// Returns the text of a part as a name: trimmed, and with its encoded-words decoded.
pub fn read_phrase(
    alloc: Global,
    part: Part,
    characters: &[AddressCharacter],
) -> Result<Text, NoMemory>
    ensures { IfOk result (λ t. t ≡ phrase_of part characters.now) }
{
    let text = collect_part(alloc, part, characters)?;
    decode_text(alloc, trim(text.as_str()))
}

/// Reads the address of an item, which may be empty.
fn read_email(alloc: Global, item: &[AddressCharacter]) -> Result<Text, NoMemory>
    ensures { IfOk result (λ t. t ≡ Addresses.email_of item.now) }
{
    let at = find_opening_bracket(item);
    if at < item.len() {
        let inner = &item[at + 1..];
        return read_plainly(alloc, Part::Whole, &inner[..find_closing_bracket(inner)]);
    }
    read_plainly(alloc, Part::Plain, item)
}

/// Returns a text, if it isn't empty.
fn keep_nonempty(text: Text) -> Option<Text>
    ensures { result ≡ Addresses.if_some text }
{
    if text.as_bytes().is_empty() {
        return None;
    }
    Some(text)
}

/// Reads the name before the bracket of an item (display-name).
fn read_display_name(alloc: Global, item: &[AddressCharacter]) -> Result<Option<Text>, NoMemory>
    ensures { IfOk result (λ n. n ≡ Addresses.name_before item.now) }
{
    let at = find_opening_bracket(item);
    if at < item.len() {
        return Ok(keep_nonempty(read_phrase(alloc, Part::Phrase, &item[..at])?));
    }
    Ok(None)
}

/// Returns what follows a parenthesis that opens a comment, or else what was found before.
fn choose_newer_comment<'a>(
    character: AddressCharacter,
    after: &'a [AddressCharacter],
    found: &'a [AddressCharacter],
) -> &'a [AddressCharacter]
    ensures { result.now ≡ cond (Addresses.opens_comment character) after.now found.now }
{
    if opens_comment(character) {
        after
    } else {
        found
    }
}

/// Returns what follows the parenthesis that opens the last comment.
fn find_last_comment(item: &[AddressCharacter]) -> &[AddressCharacter]
    ensures { result.now ≡ Addresses.last_comment item.now }
{
    let mut found: &[AddressCharacter] = &[];
    let mut rest = item;
    while let [character, after @ ..] = rest {
        found = choose_newer_comment(*character, after, found);
        rest = after;
    }
    found
}

/// Reads the name of an item.
fn read_name(alloc: Global, item: &[AddressCharacter]) -> Result<Option<Text>, NoMemory>
    ensures { IfOk result (λ n. n ≡ Addresses.name_of item.now) }
{
    match read_display_name(alloc, item)? {
        Some(name) => Ok(Some(name)),
        None => Ok(keep_nonempty(read_phrase(alloc, Part::Remark, find_last_comment(item))?)),
    }
}

/// Adds the address of an item, unless it is empty.
pub fn push_address(
    alloc: Global,
    addresses: &mut Addresses,
    item: &[AddressCharacter],
) -> Result<(), NoMemory>
    ensures { OnOk result (addresses.new ≡ addresses.old ++ address_of item.now) }
{
    match keep_nonempty(read_email(alloc, item)?) {
        None => Ok(()),
        Some(email) => {
            let name = read_name(alloc, item)?;
            addresses.push(Address { email, name })
        }
    }
}

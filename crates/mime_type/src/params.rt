// The parameters of a field (RFC 2045, section 5.1). They are read from the text of the field each
// time, so that no list of them is allocated.
ghost use Rattle.std.specs.Prelude.{◌≡◌, ◌≤◌, length, option_map, IfSome, IfOk, ℕ, suc, bytes_eq};
ghost use Rattle.mime_lines.specs.FieldOffsets.{lowered};
ghost use Rattle.mime_type.specs.Grammar.{param_at, turn_of, slot_at, turn_at, params_of, first_named};
ghost use Rattle.std.specs.Str.{IsUtf8};
ghost use Rattle.mime_type.specs.Texts.{AreTexts};
ghost use Rattle.mime_type.specs.Views.{pair, taken, turn, turn_size, leading_value};

use crate::gap::{skip_gap, skip_mark};
use crate::values::{copy_value, read_token, skip_value};
use jm_base::{NoMemory, Text};
use std::alloc::Global;

/// A parameter as it is written: its name, and the text that begins with its value.
#[derive(Clone, Copy)]
struct Param<'a> {
    name: &'a [u8],
    value: &'a [u8],
}

/// A parameter, and the text after it.
#[derive(Clone, Copy)]
struct Taken<'a> {
    param: Param<'a>,
    rest: &'a [u8],
}

/// What is where a semicolon or the end may be: the end, a syntax error, nothing before the next
/// semicolon, or a parameter.
#[derive(Clone, Copy)]
enum Turn<'a> {
    Ends,
    Breaks,
    Skips(&'a [u8]),
    Gives(Param<'a>, &'a [u8]),
}

/// Reads the parameter at the start: a name, an equals sign and a value.
#[tactic(auto, unfolding(crate::specs::Grammar::param_at))]
fn take_param(text: &[u8]) -> Option<Taken<'_>>
    ensures value { option_map taken result ≡ param_at text.now }
    ensures within { IfSome result (λ r. length r.rest.now ≤ length text.now) }
{
    let name = read_token(text)?;
    let value = skip_mark(b'=', name.rest)?;
    let rest = skip_value(value)?;
    Some(Taken {
        param: Param {
            name: name.text,
            value,
        },
        rest,
    })
}

fn turn_with(found: Option<Taken<'_>>) -> Turn<'_>
    ensures value { turn result ≡ turn_of (option_map taken found.entry) }
    ensures within { (n : ℕ) → IfSome found.entry (λ r. length r.rest.now ≤ n) → turn_size result
        ≤ suc n }
{
    match found {
        None => Turn::Breaks,
        Some(taken) => Turn::Gives(taken.param, taken.rest),
    }
}

/// Reads what follows a semicolon and the gap after it.
fn take_slot(text: Option<&[u8]>) -> Turn<'_>
    ensures value { turn result ≡ slot_at (option_map (λ r. r.now) text.entry) }
    ensures within { (n : ℕ) → IfSome text.entry (λ r. length r.now ≤ n) → turn_size result
        ≤ suc n }
{
    match text {
        None => Turn::Breaks,
        Some(text) => match text {
            [] => Turn::Ends,
            [b';', ..] => Turn::Skips(text),
            [_, ..] => turn_with(take_param(text)),
        },
    }
}

fn take_turn(text: &[u8]) -> Turn<'_>
    ensures value { turn result ≡ turn_at text.now }
    ensures within { turn_size result ≤ length text.now }
{
    let Some(text) = skip_gap(text) else {
        return Turn::Breaks;
    };
    match text {
        [] => Turn::Ends,
        [b';', rest @ ..] => take_slot(skip_gap(rest)),
        [_, ..] => Turn::Breaks,
    }
}

/// Returns whether the parameters have no syntax error.
pub fn is_whole(text: &[u8]) -> bool
    ensures { result ≡ (params_of text.now).whole }
{
    let mut rest = text;
    loop {
        match take_turn(rest) {
            Turn::Ends => return true,
            Turn::Breaks => return false,
            Turn::Skips(after) => rest = after,
            Turn::Gives(_, after) => rest = after,
        }
    }
}

impl Param<'_> {
    /// Returns whether the parameter has this name, in either case.
    fn is_named(&self, name: &[u8]) -> bool
        ensures { result ≡ bytes_eq (pair self.now).name (lowered name.now) }
    {
        self.name.eq_ignore_ascii_case(name)
    }
}

/// Returns the text that begins with the value of the first parameter of a name, before the first
/// syntax error.
fn find_value<'a>(text: &'a [u8], name: &[u8]) -> Option<&'a [u8]>
    ensures { option_map (λ v. leading_value v.now) result
        ≡ first_named (lowered name.now) (params_of text.now).found }
{
    let mut rest = text;
    loop {
        match take_turn(rest) {
            Turn::Ends => return None,
            Turn::Breaks => return None,
            Turn::Skips(after) => rest = after,
            Turn::Gives(param, after) => {
                if param.is_named(name) {
                    return Some(param.value);
                }
                rest = after;
            }
        }
    }
}

/// Makes a text of bytes that are UTF-8. It allocates nothing.
pub fn into_text(bytes: Vec<u8>) -> Text
    requires { IsUtf8 bytes.items }
    ensures { result ≡ bytes.items }
{
    match Text::from_utf8(bytes) {
        Some(text) => text,
        None => unreachable!(),
    }
}

/// Returns the value of the first parameter of a name, before the first syntax error.
pub fn read_parameter(alloc: Global, params: &[u8], name: &[u8]) -> Result<Option<Text>, NoMemory>
    requires { AreTexts (params_of params.now).found }
    ensures { IfOk result (λ t. t ≡ first_named (lowered name.now) (params_of params.now).found) }
{
    match find_value(params, name) {
        Some(value) => Ok(Some(into_text(copy_value(alloc, value)?))),
        None => Ok(None),
    }
}

// Tokens and the values of parameters.
ghost use Rattle.std.specs.Prelude.{◌≡◌, ◌≢◌, ◌≤◌, ◌<◌, ◌∷◌, ◌++◌, length, option_map, Some, None, IfSome, IfOk, ℕ, List, Bool, false};
ghost use Rattle.std.specs.List.{prefix_len};
ghost use Rattle.mime_type.specs.Characters;
ghost use Rattle.mime_type.specs.Grammar.{run_at, quoted_from, value_at, with_prefix};
ghost use Rattle.mime_type.specs.Views.{run_of, value_of, rest_found, leading_value};

use crate::characters::{is_bare, is_token};
use jm_base::NoMemory;
use std::alloc::Global;

/// Some text, and the text after it.
#[derive(Clone, Copy)]
pub struct Run<'a> {
    pub text: &'a [u8],
    pub rest: &'a [u8],
}

/// A value, and the text after it.
#[derive(Drop)]
pub struct Value<'a> {
    pub text: Vec<u8>,
    pub rest: &'a [u8],
}

fn count_token_bytes(text: &[u8]) -> usize
    ensures within { result ≤ length text.now }
    ensures value { result ≡ prefix_len Rattle.mime_type.specs.Characters.is_token text.now }
{
    for (i, byte) in text.iter().enumerate() {
        if !is_token(*byte) {
            return i;
        }
    }
    text.len()
}

fn count_bare_bytes(text: &[u8]) -> usize
    ensures within { result ≤ length text.now }
    ensures value { result ≡ prefix_len Rattle.mime_type.specs.Characters.is_bare text.now }
{
    for (i, byte) in text.iter().enumerate() {
        if !is_bare(*byte) {
            return i;
        }
    }
    text.len()
}

/// Returns the prefix of this length, if it isn't empty.
fn cut(text: &[u8], len: usize) -> Option<Run<'_>>
    requires { len ≤ length text.now }
    ensures value { (class : ℕ → Bool) → len ≡ prefix_len class text.now → option_map run_of result
        ≡ run_at class text.now }
    ensures within { IfSome result (λ r. length r.rest.now ≤ length text.now) }
{
    if len == 0 {
        return None;
    }
    let (text, rest) = text.split_at(len);
    Some(Run { text, rest })
}

/// Reads the token at the start.
pub fn read_token(text: &[u8]) -> Option<Run<'_>>
    ensures value { option_map run_of result ≡ run_at Rattle.mime_type.specs.Characters.is_token
        text.now }
    ensures within { IfSome result (λ r. length r.rest.now ≤ length text.now) }
{
    cut(text, count_token_bytes(text))
}

/// Reads the value without quote marks at the start.
fn read_bare_value(text: &[u8]) -> Option<Run<'_>>
    ensures value { option_map run_of result ≡ run_at Rattle.mime_type.specs.Characters.is_bare
        text.now }
    ensures within { IfSome result (λ r. length r.rest.now ≤ length text.now) }
{
    cut(text, count_bare_bytes(text))
}

/// Reads a byte of a quoted-string that isn't its end, and returns whether it quotes the next.
fn push_quoted(out: &mut Vec<u8>, quoted: bool, byte: u8) -> Result<bool, NoMemory>
    requires { quoted ≡ false → byte ≢ 34 }
    ensures { IfOk result (λ now. (rest : List ℕ) → with_prefix out.new.items (quoted_from now rest)
        ≡ with_prefix out.old.items (quoted_from quoted (byte ∷ rest))) }
{
    if !quoted && byte == b'\\' {
        return Ok(true);
    }
    out.push(byte)?;
    Ok(false)
}

/// Reads the rest of a quoted-string, after its first quote mark.
fn read_quoted_rest(alloc: Global, text: &[u8]) -> Result<Option<Value<'_>>, NoMemory>
    ensures value { IfOk result (λ r. option_map value_of r ≡ quoted_from false text.now) }
    ensures within { IfOk result (λ o. IfSome o (λ r. length r.rest.now ≤ length text.now)) }
{
    let mut out = Vec::new(alloc);
    let mut quoted = false;
    let mut rest = text;
    while let [byte, after @ ..] = rest {
        if !quoted && *byte == b'"' {
            return Ok(Some(Value {
                text: out,
                rest: after,
            }));
        }
        quoted = push_quoted(&mut out, quoted, *byte)?;
        rest = after;
    }
    Ok(None)
}

/// Copies a run as a value.
fn copy_run(alloc: Global, run: Option<Run<'_>>) -> Result<Option<Value<'_>>, NoMemory>
    ensures value { IfOk result (λ r. option_map value_of r ≡ option_map run_of run.entry) }
    ensures within { (n : ℕ) → IfSome run.entry (λ r. length r.rest.now ≤ n)
        → IfOk result (λ o. IfSome o (λ r. length r.rest.now ≤ n)) }
{
    match run {
        None => Ok(None),
        Some(run) => Ok(Some(Value {
            text: Vec::from_slice(alloc, run.text)?,
            rest: run.rest,
        })),
    }
}

/// Reads the value at the start: a quoted-string, or a run of other characters.
pub fn take_value(alloc: Global, text: &[u8]) -> Result<Option<Value<'_>>, NoMemory>
    ensures value { IfOk result (λ r. option_map value_of r ≡ value_at text.now) }
    ensures within { IfOk result (λ o. IfSome o (λ r. length r.rest.now ≤ length text.now)) }
{
    match text {
        [b'"', rest @ ..] => read_quoted_rest(alloc, rest),
        [_, ..] => copy_run(alloc, read_bare_value(text)),
        [] => Ok(None),
    }
}

/// Copies the value that a text begins with; empty if it begins with none.
pub fn copy_value(alloc: Global, text: &[u8]) -> Result<Vec<u8>, NoMemory>
    ensures { IfOk result (λ v. v.items ≡ leading_value text.now) }
{
    match take_value(alloc, text)? {
        Some(value) => Ok(value.text),
        None => Ok(Vec::new(alloc)),
    }
}

/// Returns whether a byte of a quoted-string that isn't its end quotes the next.
fn quotes_next(quoted: bool, byte: u8) -> bool
    requires { quoted ≡ false → byte ≢ 34 }
    ensures { (rest : List ℕ) → rest_found (quoted_from result rest)
        ≡ rest_found (quoted_from quoted (byte ∷ rest)) }
{
    !quoted && byte == b'\\'
}

/// Returns what is after the rest of a quoted-string, after its first quote mark.
fn skip_quoted(text: &[u8]) -> Option<&[u8]>
    ensures value { option_map (λ r. r.now) result ≡ rest_found (quoted_from false text.now) }
    ensures within { IfSome result (λ r. length r.now ≤ length text.now) }
{
    let mut quoted = false;
    let mut rest = text;
    while let [byte, after @ ..] = rest {
        if !quoted && *byte == b'"' {
            return Some(after);
        }
        quoted = quotes_next(quoted, *byte);
        rest = after;
    }
    None
}

/// Returns what is after a run.
fn skip_run(run: Option<Run<'_>>) -> Option<&[u8]>
    ensures value { option_map (λ r. r.now) result ≡ rest_found (option_map run_of run.entry) }
    ensures within { (n : ℕ) → IfSome run.entry (λ r. length r.rest.now ≤ n)
        → IfSome result (λ r. length r.now ≤ n) }
{
    match run {
        Some(run) => Some(run.rest),
        None => None,
    }
}

/// Returns what is after the value that a text begins with; none if it begins with none.
pub fn skip_value(text: &[u8]) -> Option<&[u8]>
    ensures value { option_map (λ r. r.now) result ≡ rest_found (value_at text.now) }
    ensures within { IfSome result (λ r. length r.now ≤ length text.now) }
{
    match text {
        [b'"', rest @ ..] => skip_quoted(rest),
        [_, ..] => skip_run(read_bare_value(text)),
        [] => None,
    }
}

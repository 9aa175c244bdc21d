// Content-Type and Content-Disposition as a name with parameters (RFC 2045, section 5.1; RFC 2183,
// section 2).
ghost use Rattle.std.specs.Prelude.{◌≡◌, ◌++◌, ◌∷◌, option_map, IfOk, IfSome, ℕ, Some};
ghost use Rattle.mime_lines.specs.FieldOffsets.{lowered};
ghost use Rattle.mime_type.specs.Grammar;
ghost use Rattle.mime_type.specs.Grammar.{type_at};
ghost use Rattle.mime_type.specs.Content;
ghost use Rattle.mime_type.specs.Texts.{IsText};
ghost use Rattle.mime_type.specs.Views.{kind_of};

use crate::characters::{lower_copy, push_lowered};
use crate::gap::{skip_gap, skip_mark};
use crate::params::is_whole;
use crate::values::read_token;
use jm_base::{NoMemory, Text};
use std::alloc::Global;

/// A type or a disposition in lower case, and the text that has its parameters.
#[derive(Debug, Drop)]
pub struct Kind<'a> {
    pub kind: Vec<u8>,
    pub params: &'a [u8],
}

/// Joins a type and a subtype to one text in lower case.
fn join_type(alloc: Global, main: &[u8], sub: &[u8]) -> Result<Vec<u8>, NoMemory>
    ensures { IfOk result (λ out. out.items ≡ lowered (main.now ++ 47 ∷ sub.now)) }
{
    let mut out = lower_copy(alloc, main)?;
    out.push(b'/')?;
    push_lowered(&mut out, sub)?;
    Ok(out)
}

#[tactic(auto, unfolding(crate::specs::Grammar::type_at))]
fn take_type(alloc: Global, text: &[u8]) -> Result<Option<Kind<'_>>, NoMemory>
    ensures { IfOk result (λ r. option_map kind_of r
        ≡ Rattle.mime_type.specs.Grammar.type_at text.now) }
{
    let Some(at) = skip_gap(text) else {
        return Ok(None);
    };
    let Some(main) = read_token(at) else {
        return Ok(None);
    };
    let Some(rest) = skip_mark(b'/', main.rest) else {
        return Ok(None);
    };
    let Some(sub) = read_token(rest) else {
        return Ok(None);
    };
    if !is_whole(sub.rest) {
        return Ok(None);
    }
    Ok(Some(Kind {
        kind: join_type(alloc, main.text, sub.text)?,
        params: sub.rest,
    }))
}

#[tactic(auto, unfolding(crate::specs::Grammar::disposition_at))]
fn take_disposition(alloc: Global, text: &[u8]) -> Result<Option<Kind<'_>>, NoMemory>
    ensures { IfOk result (λ r. option_map kind_of r
        ≡ Rattle.mime_type.specs.Grammar.disposition_at text.now) }
{
    let Some(at) = skip_gap(text) else {
        return Ok(None);
    };
    let Some(name) = read_token(at) else {
        return Ok(None);
    };
    Ok(Some(Kind {
        kind: lower_copy(alloc, name.text)?,
        params: name.rest,
    }))
}

/// Returns a type without parameters.
#[tactic(auto, unfolding(crate::specs::Grammar::params_in))]
fn build_plain_type(alloc: Global, kind: &str) -> Result<Kind<'static>, NoMemory>
    ensures value { IfOk result (λ k. kind_of k
        ≡ Rattle.mime_type.specs.Content.plain_type kind.now) }
    ensures text { IfOk result (λ k. IsText (kind_of k)) }
{
    Ok(Kind {
        kind: Vec::from_slice(alloc, kind.as_bytes())?,
        params: &[],
    })
}

const PLAIN: &str = "text/plain";

const MESSAGE: &str = "message/rfc822";

/// Reads the type of a part from its Content-Type field, if it has one.
pub fn read_type(alloc: Global, field: &Option<Text>, digest: bool) -> Result<Kind<'_>, NoMemory>
    ensures value { IfOk result (λ k. kind_of k
        ≡ Rattle.mime_type.specs.Content.type_of digest field.now) }
    ensures texts { IfOk result (λ k. IsText (kind_of k)) }
{
    let Some(text) = field else {
        return build_plain_type(alloc, if digest { MESSAGE } else { PLAIN });
    };
    match take_type(alloc, text.as_bytes())? {
        Some(kind) => Ok(kind),
        None => build_plain_type(alloc, PLAIN),
    }
}

/// Reads the disposition of a part from its Content-Disposition field, if it has one.
pub fn read_disposition(alloc: Global, field: &Option<Text>) -> Result<Option<Kind<'_>>, NoMemory>
    ensures value { IfOk result (λ r. option_map kind_of r
        ≡ Rattle.mime_type.specs.Content.disposition_of field.now) }
    ensures texts { IfOk result (λ r. IfSome r (λ k. IsText (kind_of k))) }
{
    match field {
        Some(text) => take_disposition(alloc, text.as_bytes()),
        None => Ok(None),
    }
}

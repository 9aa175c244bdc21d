// Writes a request (RFC 8620, section 3.3).
ghost use Rattle.std.specs.Prelude.{◌≡◌, ◌≤◌, ◌<◌, ◌++◌, [], None, IfOk, OnOk, length, map, slice_index_or};
ghost use Rattle.json.specs.Tree.{json_tokens};
ghost use Rattle.serde_json.specs.Data.{depth};
ghost use Rattle.serde_json.specs.Read.{max_depth};
ghost use Rattle.serde_json.specs.Written.{compact_text, outline};
ghost use Rattle.jm_json.specs.Integers.{first_invalid};
ghost use Rattle.jm_json.specs.Invocations.{call_of};
ghost use Rattle.jm_json.specs.JsonValues.{data_of};
ghost use Rattle.jm_json.specs.Reading.{reading_of, whole};
ghost use Rattle.jm_json.specs.Requests.{request_tree, texts_tree};
ghost use Rattle.jm_json.specs.RoundTrips.{IsReadBack};

use crate::invocation::Invocation;
use crate::responses::put_calls;
use crate::writer::INITIAL_TEXT_BYTES;
use jm_base::{Bytes, NoMemory};
use json::Writer;
use std::alloc::Global;

/// Returns the compact text of a request that uses these capabilities and has these calls (RFC
/// 8620, section 3.3). It is read back as the request's tree if that nests at most `MAX_DEPTH` deep
/// and its numbers are below 2^53 and above -2^53.
pub fn write_request(
    alloc: Global,
    capabilities: &[&str],
    calls: &[Invocation],
) -> Result<Bytes, NoMemory>
    ensures text { IfOk result (λ b. b ≡ compact_text
        (data_of (request_tree (map (λ s. s.now) capabilities.now) (map call_of calls.now)))) }
    ensures reads_back { IfOk result (λ b.
        depth (data_of (request_tree (map (λ s. s.now) capabilities.now) (map call_of calls.now)))
        ≤ max_depth
        → first_invalid
        (data_of (request_tree (map (λ s. s.now) capabilities.now) (map call_of calls.now))) ≡ None
        → reading_of b
        ≡ whole (request_tree (map (λ s. s.now) capabilities.now) (map call_of calls.now))) }
{
    let bytes = Vec::with_capacity(alloc, INITIAL_TEXT_BYTES)?;
    let mut out = Writer::new(bytes);
    put_request(capabilities, calls, &mut out)?;
    Ok(Bytes::from_vec(out.into_inner()))
}

fn put_request(
    capabilities: &[&str],
    calls: &[Invocation],
    out: &mut Writer,
) -> Result<(), NoMemory>
    ensures tokens { OnOk result (out.new.tokens ≡ out.old.tokens
        ++ json_tokens (outline
        (data_of (request_tree (map (λ s. s.now) capabilities.now) (map call_of calls.now))))) }
    ensures before { out.new.before ≡ out.old.before }
    ensures read { OnOk result (IsReadBack
        (data_of (request_tree (map (λ s. s.now) capabilities.now) (map call_of calls.now)))) }
{
    out.begin_object()?;
    out.key("methodCalls")?;
    put_calls(calls, out)?;
    out.key("using")?;
    put_texts(capabilities, out)?;
    out.end_object()?;
    Ok(())
}

// Adds the tokens of a list of strings.
fn put_texts(texts: &[&str], out: &mut Writer) -> Result<(), NoMemory>
    ensures tokens { OnOk result (out.new.tokens ≡ out.old.tokens
        ++ json_tokens (outline (data_of (texts_tree (map (λ s. s.now) texts.now))))) }
    ensures before { out.new.before ≡ out.old.before }
{
    out.begin_array()?;
    for i in 0..texts.len() {
        out.string(lend_text(texts, i))?;
    }
    out.end_array()?;
    Ok(())
}

fn lend_text<'a>(texts: &[&'a str], index: usize) -> &'a str
    requires { index < length texts.now }
    ensures { result.now ≡ slice_index_or (map (λ s. s.now) texts.now) index [] }
{
    texts[index]
}

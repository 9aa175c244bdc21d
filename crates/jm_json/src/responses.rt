// Writes the Response of a request (RFC 8620, section 3.4), with no tree of it in between.
ghost use Rattle.std.specs.Prelude.{◌≡◌, ◌++◌, IfOk, OnOk, OnErr, map};
ghost use Rattle.json.specs.Tree.{json_tokens};
ghost use Rattle.serde_json.specs.Written.{compact_text, outline};
ghost use Rattle.jm_json.specs.JsonValues.{data_of};
ghost use Rattle.jm_json.specs.Invocations.{call_of};
ghost use Rattle.jm_json.specs.Requests.{calls_tree};
ghost use Rattle.jm_json.specs.Responses.{call_tree, responses_tree};
ghost use Rattle.jm_json.specs.RoundTrips.{IsReadBack};

use crate::invocation::Invocation;
use crate::writer::{INITIAL_TEXT_BYTES, give_back, put_tree, take_writer};
use jm_base::{Bytes, NoMemory};
use json::Writer;
use std::alloc::Global;

/// Adds the compact text of a Response without `createdIds` after what is there: it has these
/// responses to calls and this state of the session. If an allocation fails, the bytes are
/// unchanged.
pub fn write_responses(
    alloc: Global,
    out: &mut Bytes,
    responses: &[Invocation],
    state: &str,
) -> Result<(), NoMemory>
    ensures ok { OnOk result (out.new ≡ out.old
        ++ compact_text (data_of (responses_tree (map call_of responses.now) state.now))) }
    ensures err { OnErr result (out.new ≡ out.old) }
{
    if out.is_empty() {
        return write_responses_in_place(alloc, out, responses, state);
    }
    let text = write_alone(alloc, responses, state)?;
    out.append(text.as_slice())
}

// Returns the compact text of a Response without `createdIds`.
fn write_alone(alloc: Global, responses: &[Invocation], state: &str) -> Result<Bytes, NoMemory>
    ensures { IfOk result (λ b. b
        ≡ compact_text (data_of (responses_tree (map call_of responses.now) state.now))) }
{
    let mut text = Bytes::from_vec(Vec::with_capacity(alloc, INITIAL_TEXT_BYTES)?);
    write_responses_in_place(alloc, &mut text, responses, state)?;
    Ok(text)
}

// Adds the compact text of a Response, with no copy of it.
fn write_responses_in_place(
    alloc: Global,
    out: &mut Bytes,
    responses: &[Invocation],
    state: &str,
) -> Result<(), NoMemory>
    ensures ok { OnOk result (out.new ≡ out.old
        ++ compact_text (data_of (responses_tree (map call_of responses.now) state.now))) }
    ensures err { OnErr result (out.new ≡ out.old) }
{
    let before = out.len();
    let mut writer = take_writer(alloc, out);
    let written = put_responses(responses, state, &mut writer);
    give_back(out, before, writer, written)
}

// Adds the tokens of responses and of the session's state. If an allocation fails, some of them
// were added.
fn put_responses(responses: &[Invocation], state: &str, out: &mut Writer) -> Result<(), NoMemory>
    ensures tokens { OnOk result (out.new.tokens ≡ out.old.tokens
        ++ json_tokens (outline (data_of (responses_tree (map call_of responses.now) state.now)))) }
    ensures before { out.new.before ≡ out.old.before }
{
    out.begin_object()?;
    out.key("methodResponses")?;
    put_calls(responses, out)?;
    out.key("sessionState")?;
    out.string(state)?;
    out.end_object()?;
    Ok(())
}

// Adds the tokens of calls or responses.
pub(crate) fn put_calls(calls: &[Invocation], out: &mut Writer) -> Result<(), NoMemory>
    ensures tokens { OnOk result (out.new.tokens ≡ out.old.tokens
        ++ json_tokens (outline (data_of (calls_tree (map call_of calls.now))))) }
    ensures before { out.new.before ≡ out.old.before }
    ensures read { OnOk result (IsReadBack (data_of (calls_tree (map call_of calls.now)))) }
{
    out.begin_array()?;
    for call in calls {
        put_call(call, out)?;
    }
    out.end_array()?;
    Ok(())
}

fn put_call(call: &Invocation, out: &mut Writer) -> Result<(), NoMemory>
    ensures tokens { OnOk result (out.new.tokens ≡ out.old.tokens
        ++ json_tokens (outline (data_of (call_tree (call_of call.now))))) }
    ensures before { out.new.before ≡ out.old.before }
    ensures read { OnOk result (IsReadBack (data_of (call_tree (call_of call.now)))) }
{
    out.begin_array()?;
    out.string(call.name.as_str())?;
    put_tree(&call.args, out)?;
    out.string(call.id.as_str())?;
    out.end_array()?;
    Ok(())
}

// What accounts' answers are as replies, and what calls are as asks.
ghost use Rattle.std.specs.Prelude.{◌≡◌, ◌∷◌, [], IfOk, MatchOption, IsUtf8};
ghost use Rattle.jm_json.specs.Call.{error_of};
ghost use Rattle.read_replies.specs.Replies.{replied_of};
ghost use Rattle.hall_port.specs.Steps.{bytes_of, states_of, stored_of};

use account_book::Out;
use jm_base::{Bytes, NoMemory, Sequence, Text};
use jm_json::{Created, Invocation, Invocations, Made, Replied};
use jmap_http::{AccountStates, Stored};
use std::alloc::Global;

/// Returns the reply that is one error of this type.
pub(crate) fn build_error_reply(
    alloc: Global,
    kind: &str,
    call: &Invocation,
) -> Result<Replied, NoMemory>
    ensures { IfOk result
        (λ r. r ≡ record { responses = error_of kind.now call.now.id ∷ []; made = [] }) }
{
    let mut responses = Invocations::new(alloc);
    responses.push(Invocation::build_error_response(alloc, kind, call.id.copy()?)?)?;
    Ok(Replied {
        responses,
        made: Made::new(alloc),
    })
}

/// Returns what is replied where a method is asked.
pub(crate) fn take_replied(alloc: Global, out: Out) -> Replied
    ensures { result ≡ replied_of out }
{
    match out {
        Out::Replies(replied) => replied,
        Out::Uploaded(_)
        | Out::Full
        | Out::Failed
        | Out::Blob(_)
        | Out::Carried(_)
        | Out::States { .. } => Replied {
            responses: Invocations::new(alloc),
            made: Made::new(alloc),
        },
    }
}

/// Returns what is answered where an upload is asked.
pub(crate) fn take_stored(out: Out) -> Stored
    ensures { result ≡ stored_of out }
{
    match out {
        Out::Uploaded(blob) => Stored::Kept(blob),
        Out::Full => Stored::Full,
        Out::Replies(_) | Out::Failed | Out::Blob(_) | Out::Carried(_) | Out::States { .. } => {
            Stored::Failed
        }
    }
}

/// Returns what is answered where the bytes of a blob are asked.
pub(crate) fn take_bytes(out: Out) -> Option<Bytes>
    ensures { result ≡ bytes_of out }
{
    match out {
        Out::Blob(bytes) => bytes,
        Out::Replies(_)
        | Out::Uploaded(_)
        | Out::Full
        | Out::Failed
        | Out::Carried(_)
        | Out::States { .. } => None,
    }
}

/// Returns what is answered where the states of an account are asked.
pub(crate) fn take_states(out: Out) -> Option<AccountStates>
    ensures { result ≡ states_of out }
{
    match out {
        Out::States {
            mailbox,
            email,
            thread,
        } => Some(AccountStates {
            mailbox,
            email,
            thread,
        }),
        Out::Replies(_)
        | Out::Uploaded(_)
        | Out::Full
        | Out::Failed
        | Out::Blob(_)
        | Out::Carried(_) => None,
    }
}

/// Returns what was made, in memory of its own.
pub(crate) fn copy_made(alloc: Global, made: &Made) -> Result<Made, NoMemory>
    ensures { IfOk result (λ m. m ≡ made.now) }
{
    let mut copies = Vec::with_capacity(alloc, made.len())?;
    for created in made.as_slice() {
        copies.push(Created {
            creation: created.creation.copy()?,
            id: created.id.copy()?,
        })?;
    }
    Ok(Sequence::from_vec(copies))
}

/// Returns an identifier as a string, in memory of its own, if it is UTF-8.
pub(crate) fn copy_text(alloc: Global, blob: &[u8]) -> Result<Option<Text>, NoMemory>
    ensures { IfOk result (λ o. MatchOption o (¬ IsUtf8 blob.now)
        (λ t. IsUtf8 blob.now × (t ≡ blob.now))) }
{
    let Ok(text) = std::str::from_utf8(blob) else {
        return Ok(None);
    };
    Ok(Some(Text::from_str(alloc, text)?))
}

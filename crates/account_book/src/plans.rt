// What an account answers, and what it is planned to do.
ghost use Rattle.std.specs.Prelude.{◌≡◌, ◌↔◌, ◌∷◌, [], IfOk, IsTrue};
ghost use Rattle.jm_json.specs.Call.{error_of};
ghost use Rattle.account_book.specs.Replies.{IsIdle, refusal};

use crate::{Ask, Carried};
use jm_base::{Blobs, Bytes, NoMemory, Text};
use jm_json::{Invocation, Invocations, Made, Replied};
use mail_records::Edits;
use std::alloc::Global;

/// What a call is answered.
#[derive(Drop)]
pub enum Out {
    /// The responses of a method, and what it made.
    Replies(Replied),
    /// The number of the blob that an upload made.
    Uploaded(u64),
    /// There is no room for the blob of an upload.
    Full,
    /// An upload could not be kept.
    Failed,
    /// The bytes that a blob's id names, or None where it names none.
    Blob(Option<Bytes>),
    /// What the side of a copy that reads has read.
    Carried(Carried),
    /// The state of each kind of record.
    States {
        mailbox: u64,
        email: u64,
        thread: u64,
    },
}

/// What a call is answered, and what it changes: blobs that it brings, and edits.
#[derive(Drop)]
pub struct Plan {
    pub out: Out,
    pub blobs: Blobs,
    pub edits: Edits,
}

impl Plan {
    /// Returns whether the plan changes nothing.
    pub fn is_idle(&self) -> bool
        ensures { IsTrue result ↔ IsIdle self.now }
    {
        self.blobs.is_empty() && self.edits.is_empty()
    }
}

/// Where in an account's history a call is: how many entries there were before it and after it,
/// and its timestamp, in seconds since the beginning of 1970 in UTC.
#[derive(Clone, Copy, Debug, PartialEq, Eq)]
pub struct Point {
    /// The number of the account among those of a server.
    pub account: u64,
    pub before: u64,
    pub after: u64,
    pub moment: u64,
}

/// What a call was answered, and how many entries the account had before it and has after it.
#[derive(Drop)]
pub struct Done {
    pub out: Out,
    pub before: u64,
    pub after: u64,
}

// Returns the answer that is one response, which reports an error.
fn build_error_reply(alloc: Global, kind: &str, id: &Text) -> Result<Out, NoMemory>
    ensures { IfOk result (λ out. out ≡ Out.Replies
        (record { responses = error_of kind.now id.now ∷ []; made = [] })) }
{
    let mut responses = Invocations::new(alloc);
    responses.push(Invocation::build_error_response(alloc, kind, id.copy()?)?)?;
    Ok(Out::Replies(Replied {
        responses,
        made: Made::new(alloc),
    }))
}

/// Returns the answer to what can't be done: for a method the error of this type, else `Failed`.
pub(crate) fn build_refusal(alloc: Global, kind: &str, ask: &Ask) -> Result<Out, NoMemory>
    ensures { IfOk result (λ out. out ≡ refusal kind.now ask.now) }
{
    match ask {
        Ask::Method(call) | Ask::Fetch(call) | Ask::Place(call, _) => {
            build_error_reply(alloc, kind, &call.id)
        }
        Ask::Upload(_) | Ask::Blob(_) | Ask::States => Ok(Out::Failed),
    }
}

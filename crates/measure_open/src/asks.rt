// What is asked of the account, and the messages that it gets.

use crate::timing::{invalid, no_memory};
use account_book::{Ask, Call};
use jm_base::{Bytes, NoMemory, Text};
use jm_json::{Invocation, Made, read};
use std::alloc::Global;
use std::io;

// A line of a body: 80 bytes with its end.
const LINE: &str =
    "A line of a message's body, of as many bytes as such lines commonly have here.\r\n";

fn call_of(alloc: Global, ask: Ask) -> Call {
    Call {
        ask,
        made: Made::new(alloc),
        read_only: false,
    }
}

// Returns the call of a method with these arguments.
fn method(alloc: Global, name: &str, args: &str) -> io::Result<Call> {
    let args = read(alloc, args.as_bytes()).map_err(|_| invalid())?;
    let name = Text::from_str(alloc, name).map_err(|_| no_memory())?;
    let id = Text::from_str(alloc, "0").map_err(|_| no_memory())?;
    Ok(call_of(alloc, Ask::Method(Invocation { name, args, id })))
}

// Returns the message of this number, of 2,000 to 10,000 bytes. Ten messages are of one thread.
fn message(alloc: Global, number: u64) -> Result<Bytes, NoMemory> {
    let thread = number / 10;
    let mut message = format!(in alloc;
        "Message-ID: <{number}@mail.example>\r\nReferences: <thread{thread}@mail.example>\r\nSubject: Re: thread {thread}\r\nFrom: Sender {number} <s{number}@mail.example>\r\nTo: Receiver <r@mail.example>\r\nDate: Sat, 28 Nov 2026 12:00:00 +0000\r\n\r\n"
    )?;
    for _ in 0..number % 98 + 23 {
        message.push_str(LINE)?;
    }
    Bytes::from_slice(alloc, message.as_bytes())
}

/// Returns the call that makes the mailbox M1 in an account without mailboxes.
pub(crate) fn create_mailbox(alloc: Global) -> io::Result<Call> {
    method(
        alloc,
        "Mailbox/set",
        "{\"accountId\":\"A1\",\"create\":{\"a\":{\"name\":\"A\"}}}",
    )
}

/// Returns the call that uploads the message of this number.
pub(crate) fn upload(alloc: Global, number: u64) -> io::Result<Call> {
    let message = message(alloc, number).map_err(|_| no_memory())?;
    Ok(call_of(alloc, Ask::Upload(message)))
}

/// Returns the call that imports a blob into the mailbox M1.
pub(crate) fn import(alloc: Global, blob: u64) -> io::Result<Call> {
    let args = format!(in alloc;
        "{{\"accountId\":\"A1\",\"emails\":{{\"k\":{{\"blobId\":\"b{blob}\",\"mailboxIds\":{{\"M1\":true}}}}}}}}"
    )?;
    method(alloc, "Email/import", args.as_str())
}

/// Returns the call that changes an email by a patch.
pub(crate) fn flag(alloc: Global, email: u64, patch: &str) -> io::Result<Call> {
    let args = format!(in alloc; "{{\"accountId\":\"A1\",\"update\":{{\"E{email}\":{patch}}}}}")?;
    method(alloc, "Email/set", args.as_str())
}

// What is asked of an account, and what is found.

use crate::timing::{invalid, no_memory};
use account_book::{Ask, Call, Out};
use jm_base::Text;
use jm_json::{Invocation, Json, Made, read};
use std::alloc::Global;
use std::io;

// Returns the call of a method with these arguments.
fn method(alloc: Global, name: &str, args: &str) -> io::Result<Call> {
    let args = read(alloc, args.as_bytes()).map_err(|_| invalid())?;
    let name = Text::from_str(alloc, name).map_err(|_| no_memory())?;
    let id = Text::from_str(alloc, "0").map_err(|_| no_memory())?;
    Ok(Call {
        ask: Ask::Method(Invocation { name, args, id }),
        made: Made::new(alloc),
        read_only: false,
    })
}

/// Returns the call that makes the mailboxes M1 to M5 in an account without mailboxes.
pub(crate) fn create_mailboxes(alloc: Global) -> io::Result<Call> {
    method(
        alloc,
        "Mailbox/set",
        "{\"accountId\":\"A1\",\"create\":{\"a\":{\"name\":\"A\"},\"b\":{\"name\":\"B\"},\"c\":{\"name\":\"C\"},\"d\":{\"name\":\"D\"},\"e\":{\"name\":\"E\"}}}",
    )
}

/// Returns the call that gets the mailbox M3.
pub(crate) fn get_mailbox(alloc: Global) -> io::Result<Call> {
    method(
        alloc,
        "Mailbox/get",
        "{\"accountId\":\"A1\",\"ids\":[\"M3\"]}",
    )
}

// Returns how many objects the response to a get lists.
fn count_list(args: &Json) -> usize {
    let Some(members) = args.as_object() else {
        return 0;
    };
    let Some(list) = members.get("list") else {
        return 0;
    };
    match list.as_list() {
        Some(items) => items.as_slice().len(),
        None => 0,
    }
}

/// Returns whether a get of one object found it.
pub(crate) fn is_found(out: &Out) -> bool {
    match out {
        Out::Replies(replied) => match replied.responses.as_slice() {
            [first, ..] => count_list(&first.args) == 1,
            [] => false,
        },
        _ => false,
    }
}

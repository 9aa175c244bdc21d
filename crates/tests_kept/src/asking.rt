// What is asked of an account by the rules of mail, and what it answers. A fault ends the test.
use account_book::{Ask, Book, Call, Out, Rules};
use jm_base::{Bytes, NoMemory, Numbers, Rows, Text};
use jm_json::{Invocation, Made, read, write};
use keep_port::{Keeper, Kept, MemoryKeeper};
use mail_records::Stamp;
use std::alloc::Global;
use std::process::Abort;

// What is asked. A method has its name and its arguments.
#[derive(Clone, Copy)]
pub(crate) enum Asking {
    Upload(&'static str),
    Blob(&'static str),
    States,
    Method(&'static str, &'static str),
}

// Ends the test.
pub(crate) fn stop<A: Abort>(rt: &A) -> ! {
    panic!(rt; "a call failed that must not")
}

// What was returned. An error ends the test.
pub(crate) fn sure<A: Abort, T: Drop, E: Drop>(rt: &A, returned: Result<T, E>) -> T {
    match returned {
        Ok(value) => value,
        Err(_) => stop(rt),
    }
}

// The content without base and rows.
pub(crate) fn nothing(alloc: Global) -> Kept {
    Kept {
        base: None,
        rows: Rows::new(alloc),
    }
}

// A keeper in memory of this content, whose call of `append` of this number fails; none where it
// is 0.
pub(crate) fn keeper<A: Abort>(rt: &A, alloc: Global, kept: Kept, fails: u64) -> MemoryKeeper {
    let mut appends = Numbers::new(alloc);
    sure(rt, appends.push(fails));
    let none = Numbers::new(alloc);
    MemoryKeeper::build_failing(alloc, kept, none, appends, Numbers::new(alloc))
}

// A book over a keeper.
pub(crate) fn started<A: Abort, K: Keeper, R: Rules>(
    rt: &A,
    alloc: Global,
    keeper: K,
    rules: R,
) -> Book<K, R> {
    match Book::start(alloc, keeper, rules) {
        Ok(book) => book,
        Err(_) => stop(rt),
    }
}

// The answer in words, where it is neither responses nor the bytes of a blob.
fn words(alloc: Global, out: &Out) -> Result<String, NoMemory> {
    match out {
        Out::Uploaded(number) => Ok(format!(in alloc; "{number}")?),
        Out::States {
            mailbox,
            email,
            thread,
        } => Ok(format!(in alloc; "{mailbox} {email} {thread}")?),
        Out::Full => Ok(String::from_str(alloc, "full")?),
        Out::Failed => Ok(String::from_str(alloc, "failed")?),
        _ => Ok(String::from_str(alloc, "none")?),
    }
}

// The arguments of the first response, the bytes of a blob, or what else is answered in words.
pub(crate) fn shown(alloc: Global, out: &Out) -> Result<Bytes, NoMemory> {
    match out {
        Out::Replies(replied) => match replied.responses.as_slice() {
            [first, ..] => write(alloc, &first.args),
            [] => Ok(Bytes::new(alloc)),
        },
        Out::Blob(Some(bytes)) => Ok(Bytes::from_slice(alloc, bytes.as_slice())?),
        _ => Ok(Bytes::from_vec(words(alloc, out)?.into_bytes())),
    }
}

// What is asked of the book, and its answer.
pub(crate) fn asked<A: Abort, K: Keeper, R: Rules>(
    rt: &A,
    alloc: Global,
    book: &mut Book<K, R>,
    ask: Ask,
) -> Bytes {
    let call = Call {
        ask,
        made: Made::new(alloc),
        read_only: false,
    };
    let done = sure(
        rt,
        book.perform(alloc, &call, Stamp { pass: 1, serial: 1 }, 0),
    );
    sure(rt, shown(alloc, &done.out))
}

// A method of this name, with arguments as they are written.
pub(crate) fn method<A: Abort>(rt: &A, alloc: Global, name: &str, args: &str) -> Ask {
    let args = sure(rt, read(alloc, args.as_bytes()));
    Ask::Method(Invocation {
        name: sure(rt, Text::from_str(alloc, name)),
        args,
        id: sure(rt, Text::from_str(alloc, "0")),
    })
}

fn ask_of<A: Abort>(rt: &A, alloc: Global, asking: Asking) -> Ask {
    match asking {
        Asking::Upload(bytes) => Ask::Upload(sure(rt, Bytes::from_slice(alloc, bytes.as_bytes()))),
        Asking::Blob(name) => Ask::Blob(sure(rt, Text::from_str(alloc, name))),
        Asking::States => Ask::States,
        Asking::Method(name, args) => method(rt, alloc, name, args),
    }
}

// The answer of the book.
pub(crate) fn answer_of<A: Abort, K: Keeper, R: Rules>(
    rt: &A,
    alloc: Global,
    book: &mut Book<K, R>,
    asking: Asking,
) -> Bytes {
    asked(rt, alloc, book, ask_of(rt, alloc, asking))
}

// Asks the book in turn, and ends the test where an answer is not the expected one.
pub(crate) fn expect_all<A: Abort, K: Keeper, R: Rules>(
    rt: &A,
    alloc: Global,
    book: &mut Book<K, R>,
    rows: &[(Asking, &'static str)],
) {
    for (asking, expected) in rows {
        let answer = answer_of(rt, alloc, book, *asking);
        assert!(rt; answer.as_slice() == expected.as_bytes(), "{expected}");
    }
}

// Asks a book over this keeper in turn, and returns how many entries it then has, and its keeper.
pub(crate) fn expect_over<A: Abort, K: Keeper, R: Rules>(
    rt: &A,
    alloc: Global,
    keeper: K,
    rules: R,
    rows: &[(Asking, &'static str)],
) -> (u64, K) {
    let mut book = started(rt, alloc, keeper, rules);
    expect_all(rt, alloc, &mut book, rows);
    let count = book.account().count();
    (count, book.end())
}

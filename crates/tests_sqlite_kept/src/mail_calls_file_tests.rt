// An account over a file answers as one over a keeper in memory, also after it was closed.
use account_book::{Ask, Book, Call, Out, Rules};
use jm_base::{Bytes, NoMemory, Text};
use jm_json::{Invocation, Made, read, write};
use keep_port::{Keeper, Kept, MemoryKeeper};
use keep_sqlite::{Opens, SqliteKeeper};
use mail_calls::MailRules;
use mail_records::Stamp;
use sqlite::Alter;
use std::alloc::Global;
use std::fs;
use std::process::Abort;
use std::test::Fail;

// A method and its arguments; without a name an upload of these bytes.
type Asking = (&'static str, &'static str);

// Calls that put and drop mailboxes, emails and threads.
const CHANGES: &[Asking] = &[
    ("", "Message-ID: <a@x>\nSubject: hi\n\nhello"),
    ("", "In-Reply-To: <a@x>\nSubject: Re: hi\n\nyes"),
    ("", "Subject: ho\n\nno"),
    (
        "Mailbox/set",
        "{\"accountId\":\"A1\",\"create\":{\"a\":{\"name\":\"A\"},\"b\":{\"name\":\"B\"}}}",
    ),
    (
        "Email/import",
        "{\"accountId\":\"A1\",\"emails\":{\"1\":{\"blobId\":\"b1\",\"mailboxIds\":{\"M1\":true,\"M2\":true}},\"2\":{\"blobId\":\"b2\",\"mailboxIds\":{\"M2\":true}},\"3\":{\"blobId\":\"b3\",\"mailboxIds\":{\"M2\":true}}}}",
    ),
    (
        "Email/set",
        "{\"accountId\":\"A1\",\"update\":{\"E1\":{\"keywords/$seen\":true}}}",
    ),
    (
        "Mailbox/set",
        "{\"accountId\":\"A1\",\"destroy\":[\"M2\"],\"onDestroyRemoveEmails\":true}",
    ),
];

// What is asked after them, and again once the file was closed.
const ASKED: &[Asking] = &[
    ("Mailbox/get", "{\"accountId\":\"A1\",\"ids\":null}"),
    ("Email/get", "{\"accountId\":\"A1\",\"ids\":null}"),
    ("Thread/get", "{\"accountId\":\"A1\",\"ids\":null}"),
    (
        "Email/query",
        "{\"accountId\":\"A1\",\"filter\":{\"text\":\"hello\"}}",
    ),
    (
        "Mailbox/changes",
        "{\"accountId\":\"A1\",\"sinceState\":\"0\"}",
    ),
    (
        "Email/changes",
        "{\"accountId\":\"A1\",\"sinceState\":\"0\"}",
    ),
    (
        "Thread/changes",
        "{\"accountId\":\"A1\",\"sinceState\":\"0\"}",
    ),
    ("Mailbox/query", "{\"accountId\":\"A1\"}"),
    (
        "Mailbox/queryChanges",
        "{\"accountId\":\"A1\",\"sinceQueryState\":\"0\"}",
    ),
    (
        "Email/queryChanges",
        "{\"accountId\":\"A1\",\"sinceQueryState\":\"0\"}",
    ),
];

// Ends the test.
fn stop<A: Abort>(rt: &A) -> ! {
    panic!(rt; "a call failed that must not")
}

// What was returned. An error ends the test.
fn sure<A: Abort, T: Drop, E: Drop>(rt: &A, returned: Result<T, E>) -> T {
    match returned {
        Ok(value) => value,
        Err(_) => stop(rt),
    }
}

fn ask_of<A: Abort>(rt: &A, alloc: Global, asking: Asking) -> Ask {
    let (name, text) = asking;
    if name.is_empty() {
        return Ask::Upload(sure(rt, Bytes::from_slice(alloc, text.as_bytes())));
    }
    Ask::Method(Invocation {
        name: sure(rt, Text::from_str(alloc, name)),
        args: sure(rt, read(alloc, text.as_bytes())),
        id: sure(rt, Text::from_str(alloc, "0")),
    })
}

// The arguments of the first response, and nothing where there is none.
fn shown(alloc: Global, out: &Out) -> Result<Bytes, NoMemory> {
    match out {
        Out::Replies(replied) => match replied.responses.as_slice() {
            [first, ..] => write(alloc, &first.args),
            [] => Ok(Bytes::new(alloc)),
        },
        _ => Ok(Bytes::new(alloc)),
    }
}

// The answer of the book.
fn answer_of<A: Abort, K: Keeper, R: Rules>(
    rt: &A,
    alloc: Global,
    book: &mut Book<K, R>,
    asking: Asking,
) -> Bytes {
    let call = Call {
        ask: ask_of(rt, alloc, asking),
        made: Made::new(alloc),
        read_only: false,
    };
    let done = sure(
        rt,
        book.perform(alloc, &call, Stamp { pass: 1, serial: 1 }, 0),
    );
    sure(rt, shown(alloc, &done.out))
}

// The answers to what is asked in turn, each with a line feed after it. An error ends the test.
fn answers<A: Abort, K: Keeper, R: Rules>(
    rt: &A,
    alloc: Global,
    book: &mut Book<K, R>,
    askings: &[Asking],
) -> Vec<u8> {
    let mut all = Vec::new(alloc);
    for asking in askings {
        let answer = answer_of(rt, alloc, book, *asking);
        assert!(rt; !answer.as_slice().starts_with(b"{\"type\":"));
        sure(rt, all.extend_from_slice(answer.as_slice()));
        sure(rt, all.push(b'\n'));
    }
    all
}

// The answers of an account over this keeper after these changes. Then the account ends.
fn answers_over<A: Abort, K: Keeper, R: Rules>(
    rt: &A,
    alloc: Global,
    keeper: K,
    rules: R,
    changes: &[Asking],
) -> Vec<u8> {
    let mut book = match Book::start(alloc, keeper, rules) {
        Ok(book) => book,
        Err(_) => stop(rt),
    };
    let _ = answers(rt, alloc, &mut book, changes);
    let all = answers(rt, alloc, &mut book, ASKED);
    drop(book.end());
    all
}

// The same by the rules of mail over a database.
fn answers_of<A: Abort, S: Alter + Drop + Send, O: Opens<S> + Send>(
    rt: &A,
    alloc: Global,
    keeper: SqliteKeeper<S, O>,
    changes: &[Asking],
) -> Vec<u8> {
    answers_over(rt, alloc, keeper, MailRules, changes)
}

const PATH: &str = "tests_sqlite_kept/a.sqlite";

#[test]
fn an_account_over_a_file_answers_as_one_in_memory(rt: HostRuntime) -> Result<(), Fail> {
    let alloc = rt.alloc();
    let _ = fs::remove_dir_all(&rt, "tests_sqlite_kept");
    fs::create_dir(&rt, "tests_sqlite_kept")?;
    let memory = MemoryKeeper::new(alloc, Kept::new(alloc));
    let expected = answers_over(&rt, alloc, memory, MailRules, CHANGES);
    for changes in [CHANGES, &[]] {
        let path = Text::from_str(alloc, PATH)?;
        let found = answers_of(&rt, alloc, SqliteKeeper::open_later(&rt, path), changes);
        assert!(rt; found.as_slice() == expected.as_slice());
    }
    Ok(())
}

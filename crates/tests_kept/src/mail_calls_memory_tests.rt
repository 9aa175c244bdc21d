// Calls on an account of mail that run out of memory. In `rt ci` no allocation fails.
// `bench/fail_alloc` runs this test once for each allocation, which then fails. What ran out of
// memory is done again, and all is then as in a run in which none fails.
use crate::asking::{shown, stop, sure};
use account_book::{Ask, Book, Call, Done, Out, Rules, StartFault};
use jm_base::{Bytes, NoMemory, Text};
use jm_json::{Invocation, Made, read};
use keep_port::{Keeper, Kept, MemoryKeeper};
use mail_calls::MailRules;
use mail_records::Stamp;
use std::alloc::Global;
use std::process::Abort;
use std::test::Fail;

const STAMP: Stamp = Stamp { pass: 1, serial: 1 };

// What is asked in turn of an account over a keeper without rows, with its arguments or bytes, and
// the answer (RFC 8620, sections 5.3 and 6.1; RFC 8621, section 4.8). The edit 1 puts M1, and the
// edits 2 to 4 put E1, T1 and M1.
const FIRST: &[(&str, &str, &str)] = &[
    ("upload", "Subject: hi\n\nhello", "1"),
    (
        "Mailbox/set",
        "{\"accountId\":\"A\",\"create\":{\"a\":{\"name\":\"A\"}}}",
        "{\"accountId\":\"A\",\"created\":{\"a\":{\"id\":\"M1\",\"isSubscribed\":true,\"myRights\":{\"mayAddItems\":true,\"mayCreateChild\":true,\"mayDelete\":true,\"mayReadItems\":true,\"mayRemoveItems\":true,\"mayRename\":true,\"maySetKeywords\":true,\"maySetSeen\":true,\"maySubmit\":false},\"parentId\":null,\"role\":null,\"sortOrder\":0,\"totalEmails\":0,\"totalThreads\":0,\"unreadEmails\":0,\"unreadThreads\":0}},\"destroyed\":null,\"newState\":\"1\",\"notCreated\":null,\"notDestroyed\":null,\"notUpdated\":null,\"oldState\":\"0\",\"updated\":null}",
    ),
    (
        "Email/import",
        "{\"accountId\":\"A\",\"emails\":{\"k\":{\"blobId\":\"b1\",\"mailboxIds\":{\"M1\":true}}}}",
        "{\"accountId\":\"A\",\"created\":{\"k\":{\"blobId\":\"b1\",\"id\":\"E1\",\"size\":18,\"threadId\":\"T1\"}},\"newState\":\"2\",\"notCreated\":null,\"oldState\":\"0\"}",
    ),
];

// The same of the account once it is opened again over these rows (RFC 8620, sections 5.3, 5.5 and
// 6.1; RFC 8621, sections 2.5, 4.4, 4.6 and 4.8). The edit 5 puts M1, the edits 6 to 8 put E2, T2
// and M1, and the edits 9 and 10 put E1 and M1.
const SECOND: &[(&str, &str, &str)] = &[
    ("upload", "Subject: ho\n\nno", "2"),
    (
        "Mailbox/set",
        "{\"accountId\":\"A\",\"update\":{\"M1\":{\"name\":\"B\"}}}",
        "{\"accountId\":\"A\",\"created\":null,\"destroyed\":null,\"newState\":\"5\",\"notCreated\":null,\"notDestroyed\":null,\"notUpdated\":null,\"oldState\":\"4\",\"updated\":{\"M1\":null}}",
    ),
    (
        "Email/import",
        "{\"accountId\":\"A\",\"emails\":{\"k\":{\"blobId\":\"b2\",\"keywords\":{\"$flagged\":true},\"mailboxIds\":{\"M1\":true}}}}",
        "{\"accountId\":\"A\",\"created\":{\"k\":{\"blobId\":\"b2\",\"id\":\"E2\",\"size\":15,\"threadId\":\"T2\"}},\"newState\":\"6\",\"notCreated\":null,\"oldState\":\"2\"}",
    ),
    (
        "Email/set",
        "{\"accountId\":\"A\",\"update\":{\"E1\":{\"keywords/$seen\":true}}}",
        "{\"accountId\":\"A\",\"created\":null,\"destroyed\":null,\"newState\":\"9\",\"notCreated\":null,\"notDestroyed\":null,\"notUpdated\":null,\"oldState\":\"6\",\"updated\":{\"E1\":null}}",
    ),
    (
        "Email/query",
        "{\"accountId\":\"A\",\"filter\":{\"inMailbox\":\"M1\",\"text\":\"h\"},\"limit\":5,\"sort\":[{\"property\":\"subject\"}]}",
        "{\"accountId\":\"A\",\"canCalculateChanges\":true,\"ids\":[\"E1\",\"E2\"],\"position\":0,\"queryState\":\"9\"}",
    ),
    ("states", "", "10 9 7"),
];

// What is asked of an account to see that it is as before.
const SHOWN: &[(&str, &str)] = &[
    ("states", ""),
    ("Mailbox/get", "{\"accountId\":\"A\",\"ids\":null}"),
    ("Thread/get", "{\"accountId\":\"A\",\"ids\":null}"),
    (
        "Email/get",
        "{\"accountId\":\"A\",\"fetchAllBodyValues\":true,\"ids\":null}",
    ),
    (
        "Mailbox/changes",
        "{\"accountId\":\"A\",\"sinceState\":\"0\"}",
    ),
    (
        "Email/changes",
        "{\"accountId\":\"A\",\"sinceState\":\"0\"}",
    ),
];

// What is met in a run.
#[derive(Drop)]
struct Met {
    // The number of the call that is asked, from 1 on.
    call: u64,
    // The call before which the account is looked at. 0 is none.
    look_before: u64,
    // The call that ran out of memory. 0 is none.
    failed: u64,
    // Where memory ran out, or nothing.
    place: &'static str,
    // What the account showed when it was looked at, or after its call ran out of memory.
    shown: Vec<u8>,
}

fn ask_of(alloc: Global, name: &str, args: &str) -> Result<Ask, NoMemory> {
    if name == "upload" {
        return Ok(Ask::Upload(Bytes::from_slice(alloc, args.as_bytes())?));
    }
    if name == "states" {
        return Ok(Ask::States);
    }
    let Ok(args) = read(alloc, args.as_bytes()) else {
        return Err(NoMemory);
    };
    Ok(Ask::Method(Invocation {
        name: Text::from_str(alloc, name)?,
        args,
        id: Text::from_str(alloc, "0")?,
    }))
}

fn call_of(alloc: Global, name: &str, args: &str) -> Result<Call, NoMemory> {
    Ok(Call {
        ask: ask_of(alloc, name, args)?,
        made: Made::new(alloc),
        read_only: false,
    })
}

// How many entries the account has, and its answers to what is asked to see that it is as before.
fn shown_by<A: Abort, K: Keeper, R: Rules>(
    rt: &A,
    alloc: Global,
    book: &mut Book<K, R>,
) -> Vec<u8> {
    let count = book.account().count();
    let text = sure(rt, format!(in alloc; "{count}\n"));
    let mut all = text.into_bytes();
    for (name, args) in SHOWN {
        let call = sure(rt, call_of(alloc, name, args));
        let done = sure(rt, book.perform(alloc, &call, STAMP, 0));
        let words = sure(rt, shown(alloc, &done.out));
        sure(rt, all.extend_from_slice(words.as_slice()));
        sure(rt, all.push(b'\n'));
    }
    all
}

// Asks for the call, and once more if memory ran out.
fn performed<A: Abort, K: Keeper, R: Rules>(
    rt: &A,
    alloc: Global,
    book: &mut Book<K, R>,
    call: &Call,
    name: &'static str,
    met: &mut Met,
) -> Done {
    if met.call == met.look_before {
        met.shown = shown_by(rt, alloc, book);
    }
    match book.perform(alloc, call, STAMP, 0) {
        Ok(done) => done,
        Err(_) => {
            met.failed = met.call;
            met.place = name;
            met.shown = shown_by(rt, alloc, book);
            sure(rt, book.perform(alloc, call, STAMP, 0))
        }
    }
}

fn read_call<A: Abort>(
    rt: &A,
    alloc: Global,
    name: &'static str,
    args: &'static str,
    met: &mut Met,
) -> Call {
    match call_of(alloc, name, args) {
        Ok(call) => call,
        Err(_) => {
            met.place = "the test";
            sure(rt, call_of(alloc, name, args))
        }
    }
}

fn write_out<A: Abort>(rt: &A, alloc: Global, out: &Out, met: &mut Met) -> Bytes {
    match shown(alloc, out) {
        Ok(words) => words,
        Err(_) => {
            met.place = "the test";
            sure(rt, shown(alloc, out))
        }
    }
}

// Asks the book in turn, and ends the test where an answer is not the expected one.
fn ask_all<A: Abort, K: Keeper, R: Rules>(
    rt: &A,
    alloc: Global,
    book: &mut Book<K, R>,
    steps: &[(&'static str, &'static str, &'static str)],
    met: &mut Met,
) {
    for (name, args, expected) in steps {
        met.call = met.call.saturating_add(1);
        let call = read_call(rt, alloc, name, args, met);
        let done = performed(rt, alloc, book, &call, name, met);
        let words = write_out(rt, alloc, &done.out, met);
        assert!(rt; words.as_slice() == expected.as_bytes(), "{expected}");
    }
}

// A book over the keeper that came back when memory ran out.
fn started_again<A: Abort, K: Keeper, R: Rules>(
    rt: &A,
    alloc: Global,
    fault: StartFault,
    keeper: K,
    rules: R,
) -> Book<K, R> {
    match fault {
        StartFault::NoMemory => {}
        _ => stop(rt),
    }
    match Book::start(alloc, keeper, rules) {
        Ok(book) => book,
        Err(_) => stop(rt),
    }
}

// Opens an account over the keeper, once more if memory ran out, asks it in turn, and ends it.
fn keeper_after<A: Abort, K: Keeper, R: Rules>(
    rt: &A,
    alloc: Global,
    keeper: K,
    rules: (R, R),
    steps: &[(&'static str, &'static str, &'static str)],
    met: &mut Met,
) -> K {
    let (rules, again) = rules;
    let mut book = match Book::start(alloc, keeper, rules) {
        Ok(book) => book,
        Err((fault, keeper)) => {
            met.place = "Book::start";
            started_again(rt, alloc, fault, keeper, again)
        }
    };
    ask_all(rt, alloc, &mut book, steps, met);
    book.end()
}

// What is met in a run in which the account is looked at before this call, and its keeper then.
fn run<A: Abort>(rt: &A, alloc: Global, look_before: u64) -> (Met, MemoryKeeper) {
    let mut met = Met {
        call: 0,
        look_before,
        failed: 0,
        place: "",
        shown: Vec::new(alloc),
    };
    let empty = MemoryKeeper::new(alloc, Kept::new(alloc));
    let rules = (MailRules, MailRules);
    let keeper = keeper_after(rt, alloc, empty, rules, FIRST, &mut met);
    let rules = (MailRules, MailRules);
    let keeper = keeper_after(rt, alloc, keeper, rules, SECOND, &mut met);
    (met, keeper)
}

// Ends the test where the contents are not the same.
fn expect_same<A: Abort>(rt: &A, one: &Kept, other: &Kept) {
    assert!(rt; one.base.is_none() && other.base.is_none());
    assert_eq!(rt; one.rows.len(), other.rows.len());
    for (one, other) in one.rows.as_slice().iter().zip(other.rows.as_slice()) {
        assert!(rt; one.as_slice() == other.as_slice());
    }
}

// Where memory ran out in a run, or nothing. Ends the test where what the account then showed, or
// what is kept at the end, is not as in a run in which memory does not run out.
fn place_met<A: Abort>(rt: &A, alloc: Global) -> &'static str {
    let (met, keeper) = run(rt, alloc, 0);
    if met.place.is_empty() {
        return "";
    }
    let (same, other) = run(rt, alloc, met.failed);
    assert!(rt; met.shown.as_slice() == same.shown.as_slice());
    expect_same(rt, keeper.kept(), other.kept());
    met.place
}

#[test]
fn what_runs_out_of_memory_changes_nothing(rt: HostRuntime) -> Result<(), Fail> {
    let place = place_met(&rt, rt.alloc());
    if !place.is_empty() {
        println!(rt; "out of memory: {place}")?;
    }
    Ok(())
}

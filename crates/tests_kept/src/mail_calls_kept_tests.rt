// An account that is opened again over what a crash may leave after an append that failed answers as
// before.
use crate::asking::Asking::{self, Blob, Method, States, Upload};
use crate::asking::{answer_of, keeper, nothing, started, sure};
use account_book::{Book, Rules};
use keep_port::{Keeper, Kept};
use mail_calls::MailRules;
use std::alloc::Global;
use std::process::Abort;

// Calls that put and drop mailboxes, emails and threads. Each makes one entry.
const CHANGES: &[Asking] = &[
    Upload("Message-ID: <a@x>\nSubject: hi\nFrom: Ann <a@x>\n\nhello"),
    Upload("In-Reply-To: <a@x>\nSubject: Re: hi\nTo: b@x\n\nyes"),
    Upload("Subject: ho\nDate: Thu, 1 Jan 1970 00:00:09 +0000\n\nno"),
    Upload(""),
    Method(
        "Mailbox/set",
        "{\"accountId\":\"A1\",\"create\":{\"a\":{\"name\":\"A\",\"role\":\"inbox\"},\"b\":{\"name\":\"B\",\"sortOrder\":3},\"c\":{\"name\":\"C\"}}}",
    ),
    Method(
        "Email/import",
        "{\"accountId\":\"A1\",\"emails\":{\"1\":{\"blobId\":\"b1\",\"mailboxIds\":{\"M1\":true,\"M2\":true}},\"2\":{\"blobId\":\"b2\",\"keywords\":{\"$seen\":true},\"mailboxIds\":{\"M1\":true}}}}",
    ),
    Method(
        "Email/import",
        "{\"accountId\":\"A1\",\"emails\":{\"3\":{\"blobId\":\"b3\",\"keywords\":{\"$draft\":true},\"mailboxIds\":{\"M2\":true},\"receivedAt\":\"1970-01-01T00:00:05Z\"},\"4\":{\"blobId\":\"b4\",\"mailboxIds\":{\"M1\":true}}}}",
    ),
    Method(
        "Mailbox/set",
        "{\"accountId\":\"A1\",\"destroy\":[\"M3\"],\"update\":{\"M1\":{\"name\":\"D\"}}}",
    ),
    Method(
        "Email/set",
        "{\"accountId\":\"A1\",\"destroy\":[\"E4\"],\"update\":{\"E2\":{\"keywords/$flagged\":true,\"mailboxIds/M2\":true}}}",
    ),
    Method(
        "Mailbox/set",
        "{\"accountId\":\"A1\",\"destroy\":[\"M2\"],\"onDestroyRemoveEmails\":true}",
    ),
];

// What is asked before an account ends and after it is opened again.
const ASKED: &[Asking] = &[
    States,
    Blob("b1"),
    Blob("b3-1"),
    Method("Mailbox/get", "{\"accountId\":\"A1\",\"ids\":null}"),
    Method("Thread/get", "{\"accountId\":\"A1\",\"ids\":null}"),
    Method(
        "Email/get",
        "{\"accountId\":\"A1\",\"ids\":null,\"fetchAllBodyValues\":true}",
    ),
    Method(
        "Mailbox/changes",
        "{\"accountId\":\"A1\",\"sinceState\":\"0\"}",
    ),
    Method(
        "Mailbox/changes",
        "{\"accountId\":\"A1\",\"sinceState\":\"3\"}",
    ),
    Method(
        "Email/changes",
        "{\"accountId\":\"A1\",\"sinceState\":\"0\"}",
    ),
    Method(
        "Thread/changes",
        "{\"accountId\":\"A1\",\"sinceState\":\"5\"}",
    ),
    Method(
        "Mailbox/query",
        "{\"accountId\":\"A1\",\"sort\":[{\"property\":\"name\"}]}",
    ),
    Method(
        "Email/query",
        "{\"accountId\":\"A1\",\"collapseThreads\":true,\"filter\":{\"inMailbox\":\"M1\"},\"sort\":[{\"isAscending\":false,\"property\":\"receivedAt\"}]}",
    ),
    Method(
        "Email/query",
        "{\"accountId\":\"A1\",\"calculateTotal\":true,\"filter\":{\"text\":\"h\"}}",
    ),
    Method(
        "Mailbox/queryChanges",
        "{\"accountId\":\"A1\",\"sinceQueryState\":\"0\"}",
    ),
    Method(
        "Email/queryChanges",
        "{\"accountId\":\"A1\",\"sinceQueryState\":\"0\"}",
    ),
];

// The answers to what is asked in turn, each with a line feed after it.
fn answers<A: Abort, K: Keeper, R: Rules>(
    rt: &A,
    alloc: Global,
    book: &mut Book<K, R>,
    askings: &[Asking],
) -> Vec<u8> {
    let mut all = Vec::new(alloc);
    for asking in askings {
        let answer = answer_of(rt, alloc, book, *asking);
        sure(rt, all.extend_from_slice(answer.as_slice()));
        sure(rt, all.push(b'\n'));
    }
    all
}

// The answers of an account over this keeper after these changes, and the keeper once it ended.
fn changed<A: Abort, K: Keeper, R: Rules>(
    rt: &A,
    alloc: Global,
    keeper: K,
    rules: R,
    changes: &[Asking],
) -> (Vec<u8>, K) {
    let mut book = started(rt, alloc, keeper, rules);
    let _ = answers(rt, alloc, &mut book, changes);
    let all = answers(rt, alloc, &mut book, ASKED);
    (all, book.end())
}

// The same over a keeper in memory of this content, with its content then. Its call of `append` of
// this number fails.
fn after<A: Abort>(
    rt: &A,
    alloc: Global,
    kept: Kept,
    fails: u64,
    changes: &[Asking],
) -> (Vec<u8>, Kept) {
    let keeper = keeper(rt, alloc, kept, fails);
    let (all, keeper) = changed(rt, alloc, keeper, MailRules, changes);
    let kept = sure(rt, keeper.kept().copy(alloc));
    (all, kept)
}

// Refuses the last of these changes, and opens the account again over what a crash may leave: the
// rows before, or these and the refused one.
fn expect_refused<A: Abort>(rt: &A, alloc: Global, changes: &[Asking], number: u64) {
    let Some((_, earlier)) = changes.split_last() else {
        return;
    };
    let (without, _) = after(rt, alloc, nothing(alloc), 0, earlier);
    let (with, whole) = after(rt, alloc, nothing(alloc), 0, changes);
    assert!(rt; with.as_slice() != without.as_slice());
    let (refused, kept) = after(rt, alloc, nothing(alloc), number, changes);
    assert!(rt; refused.as_slice() == without.as_slice());
    let (rest, _) = after(rt, alloc, kept, 0, &[]);
    assert!(rt; rest.as_slice() == without.as_slice());
    let (more, _) = after(rt, alloc, whole, 0, &[]);
    assert!(rt; more.as_slice() == with.as_slice());
}

#[test]
fn an_account_is_opened_again_over_each_rest_of_a_refused_append(rt: HostRuntime) {
    let alloc = rt.alloc();
    for end in [1usize, 3, 5, 6, 7, 8, 9, 10] {
        if let Some(changes) = CHANGES.get(..end) {
            expect_refused(&rt, alloc, changes, end as u64);
        }
    }
}

// Of how many blobs the texts of the authors are kept in an account that grows: a change reads the
// blobs that came before it.
use crate::asking::Asking::{self, Method, Upload};
use crate::asking::{answer_of, keeper, nothing, started};
use account_book::{Book, Rules};
use keep_port::Keeper;
use mail_calls::MailRules;
use std::alloc::Global;
use std::process::Abort;

const IMPORT: Asking = Method(
    "Email/import",
    "{\"accountId\":\"A\",\"emails\":{\"1\":{\"blobId\":\"b1\",\"mailboxIds\":{\"M1\":true}}}}",
);

// What is done in turn, and of how many blobs the texts are then kept.
const STEPS: &[(Asking, usize)] = &[
    (
        Method(
            "Mailbox/set",
            "{\"accountId\":\"A\",\"create\":{\"a\":{\"name\":\"A\"}}}",
        ),
        0,
    ),
    (Upload("From: Ann <a@x>\n\none"), 0),
    (Upload("From: Bob <b@x>\n\ntwo"), 1),
    (IMPORT, 2),
    (Upload(""), 2),
    (IMPORT, 3),
];

fn expect_each<A: Abort, K: Keeper, R: Rules>(
    rt: &A,
    alloc: Global,
    book: &mut Book<K, R>,
    steps: &[(Asking, usize)],
) {
    for (asking, authors) in steps {
        let _ = answer_of(rt, alloc, book, *asking);
        assert_eq!(rt; book.account().blobs().authors().len(), *authors);
    }
}

// Takes the steps on an account over this keeper.
fn expect_steps<A: Abort, K: Keeper, R: Rules>(rt: &A, alloc: Global, keeper: K, rules: R) {
    let mut book = started(rt, alloc, keeper, rules);
    expect_each(rt, alloc, &mut book, STEPS);
    let _ = book.end();
}

#[test]
fn the_authors_of_blobs_are_read_by_the_next_change(rt: HostRuntime) {
    let alloc = rt.alloc();
    let empty = keeper(&rt, alloc, nothing(alloc), 0);
    expect_steps(&rt, alloc, empty, MailRules);
}

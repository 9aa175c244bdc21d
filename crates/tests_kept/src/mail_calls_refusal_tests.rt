// Changes that the keeper refuses (RFC 8620, section 3.6.2: serverFail), and the same again.
use crate::asking::Asking::{self, Blob, Method, States, Upload};
use crate::asking::{expect_over, nothing, sure};
use jm_base::{NoMemory, Numbers};
use keep_port::MemoryKeeper;
use mail_calls::MailRules;
use std::alloc::Global;

const SET: Asking = Method(
    "Mailbox/set",
    "{\"accountId\":\"A\",\"create\":{\"a\":{\"name\":\"A\"}},\"ifInState\":\"0\"}",
);

const MADE: &str =
    "{\"accountId\":\"A\",\"created\":{\"a\":{\"id\":\"M1\",\"isSubscribed\":true,\"myRights\":{\"mayAddItems\":true,\"mayCreateChild\":true,\"mayDelete\":true,\"mayReadItems\":true,\"mayRemoveItems\":true,\"mayRename\":true,\"maySetKeywords\":true,\"maySetSeen\":true,\"maySubmit\":false},\"parentId\":null,\"role\":null,\"sortOrder\":0,\"totalEmails\":0,\"totalThreads\":0,\"unreadEmails\":0,\"unreadThreads\":0}},\"destroyed\":null,\"newState\":\"1\",\"notCreated\":null,\"notDestroyed\":null,\"notUpdated\":null,\"oldState\":\"0\",\"updated\":null}";

const GET: Asking = Method(
    "Mailbox/get",
    "{\"accountId\":\"A\",\"ids\":null,\"properties\":[\"name\"]}",
);

const NONE: &str = "{\"accountId\":\"A\",\"list\":[],\"notFound\":[],\"state\":\"0\"}";

const ONE: &str =
    "{\"accountId\":\"A\",\"list\":[{\"id\":\"M1\",\"name\":\"A\"}],\"notFound\":[],\"state\":\"1\"}";

// What is asked in turn over a keeper whose first and third calls of `append` fail, and the answers.
const ROWS: &[(Asking, &str)] = &[
    (SET, "{\"type\":\"serverFail\"}"),
    (States, "0 0 0"),
    (GET, NONE),
    (SET, MADE),
    (Upload("hi"), "failed"),
    (Blob("b1"), "none"),
    (States, "1 0 0"),
    (GET, ONE),
    (Upload("hi"), "1"),
    (Blob("b1"), "hi"),
    (States, "1 0 0"),
    (GET, ONE),
];

// A keeper in memory without rows, whose first and third calls of `append` fail.
fn failing(alloc: Global) -> Result<MemoryKeeper, NoMemory> {
    let mut appends = Numbers::new(alloc);
    appends.push(1)?;
    appends.push(3)?;
    let none = Numbers::new(alloc);
    Ok(MemoryKeeper::build_failing(alloc, nothing(alloc), none, appends, Numbers::new(alloc)))
}

#[test]
fn a_change_that_is_not_kept_is_refused_and_may_be_asked_again(rt: HostRuntime) {
    let alloc = rt.alloc();
    let keeper = sure(&rt, failing(alloc));
    let (count, keeper) = expect_over(&rt, alloc, keeper, MailRules, ROWS);
    assert_eq!(rt; count, 4);
    assert_eq!(rt; keeper.kept().rows.len(), 2);
}

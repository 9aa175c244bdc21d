// The points of a session that copies an email from one account of a user to another one, and
// destroys its original.
use crate::memory_world::{MemoryWorld, Setting};
use crate::no_client::NoClient;
use crate::running::run_over;
use jmap_commands::{Status, Worlds};
use std::alloc::Global;
use std::sync::Wait;
use std::test::Fail;
use std::thread::Threads;

// A configuration of one user with two accounts.
const TWO_ACCOUNTS: &str =
    "{\"users\":[{\"accounts\":[{\"id\":\"A1\",\"name\":\"Mail\",\"readOnly\":false},\
     {\"id\":\"A2\",\"name\":\"More\",\"readOnly\":false}],\"name\":\"ann\",\"token\":\"t\"}]}";

// What the connection asks: to upload a message, to make mailboxes in both accounts and an email in
// A1, and to copy it.
const REQUESTS: &str = "POST /jmap/upload/A1/ HTTP/1.1\r\nHost: h\r\nAuthorization: Bearer t\r\n\
     Content-Length: 17\r\n\r\n\
     Subject: hi\r\n\r\nok\
     POST /jmap/api HTTP/1.1\r\nHost: h\r\nAuthorization: Bearer t\r\n\
     Content-Length: 340\r\n\r\n\
     {\"using\":[\"urn:ietf:params:jmap:core\",\"urn:ietf:params:jmap:mail\"],\
     \"methodCalls\":[[\"Mailbox/set\",{\"accountId\":\"A1\",\
     \"create\":{\"a\":{\"name\":\"a\"},\"b\":{\"name\":\"b\"}}},\"0\"],\
     [\"Email/import\",{\"accountId\":\"A1\",\
     \"emails\":{\"k\":{\"blobId\":\"b1\",\"mailboxIds\":{\"M1\":true,\"M2\":true}}}},\"1\"],\
     [\"Mailbox/set\",{\"accountId\":\"A2\",\"create\":{\"a\":{\"name\":\"a\"}}},\"2\"]]}\
     POST /jmap/api HTTP/1.1\r\nHost: h\r\nAuthorization: Bearer t\r\n\
     Content-Length: 226\r\n\r\n\
     {\"using\":[\"urn:ietf:params:jmap:core\",\"urn:ietf:params:jmap:mail\"],\
     \"methodCalls\":[[\"Email/copy\",{\"accountId\":\"A2\",\
     \"create\":{\"k\":{\"id\":\"E1\",\"mailboxIds\":{\"M1\":true}}},\
     \"fromAccountId\":\"A1\",\"onSuccessDestroyOriginal\":true},\"0\"]]}";

// The points of the connection's session, for each the account's index in the configuration, and
// how many entries it had before and after. They are of the upload, the set and the import in A1,
// the set in A2, and the copy: what is carried, the new email and the destroyed original.
const POINTS: &[u64] = &[
    0, 0, 1, 0, 1, 2, 0, 2, 3, 1, 0, 1, 0, 3, 3, 1, 1, 2, 0, 3, 4,
];

// Returns whether the copy is made at these points.
fn is_copied(rt: &(impl Threads + Wait + Sync), alloc: Global) -> Result<bool, Fail> {
    let setting = Setting {
        config: TWO_ACCOUNTS,
        request: REQUESTS,
    };
    let mut worlds = Worlds {
        server: MemoryWorld::new(alloc, setting),
        client: NoClient,
    };
    let ran = run_over(rt, alloc, "serve c d 8600 1", &mut worlds)?;
    Ok(ran.status == Status(0) && worlds.server.points() == POINTS)
}

#[test]
fn a_copied_email_is_destroyed_in_its_own_account(rt: HostRuntime) -> Result<(), Fail> {
    assert!(rt; is_copied(&rt, rt.alloc())?);
    Ok(())
}

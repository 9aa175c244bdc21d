// The commands `sync` and `show` over a client's world in memory, and arguments that are none of
// theirs. What is printed was worked out by hand.
use crate::memory_client::{ClientSetting, MemoryClient};
use crate::no_client::NoClient;
use crate::no_world::NoWorld;
use crate::running::{Ran, run_over};
use jmap_commands::{Status, Worlds};
use std::alloc::Global;
use std::sync::Wait;
use std::test::Fail;
use std::thread::Threads;

// Answers of a server: the Session; and a load of one mailbox at the state 4, no emails at the state
// 7, no threads at the state 6, and a list of two emails at the state 8.
const SESSION: &str =
    "{\"accounts\":{\"A1\":{}},\"apiUrl\":\"http://h/api\",\"primaryAccounts\":{\"urn:ietf:params:jmap:mail\":\"A1\"}}";

const MAILBOX_RESULTS: &str =
    "{\"methodResponses\":[[\"Mailbox/query\",{\"accountId\":\"A1\",\"canCalculateChanges\":true,\"ids\":[\"M1\"],\"position\":0,\"queryState\":\"4\"},\"0\"]],\"sessionState\":\"0\"}";

const MAILBOXES: &str =
    "{\"methodResponses\":[[\"Mailbox/get\",{\"accountId\":\"A1\",\"list\":[{\"id\":\"M1\",\"isSubscribed\":true,\"myRights\":{\"mayAddItems\":true,\"mayCreateChild\":true,\"mayDelete\":true,\"mayReadItems\":true,\"mayRemoveItems\":true,\"mayRename\":true,\"maySetKeywords\":true,\"maySetSeen\":true,\"maySubmit\":false},\"name\":\"n\",\"parentId\":null,\"role\":null,\"sortOrder\":0,\"totalEmails\":0,\"totalThreads\":0,\"unreadEmails\":0,\"unreadThreads\":0}],\"notFound\":[],\"state\":\"4\"},\"0\"]],\"sessionState\":\"0\"}";

const NO_EMAILS: &str =
    "{\"methodResponses\":[[\"Email/query\",{\"accountId\":\"A1\",\"canCalculateChanges\":true,\"ids\":[],\"position\":0,\"queryState\":\"7\"},\"0\"]],\"sessionState\":\"0\"}";

const THREAD_STATE: &str =
    "{\"methodResponses\":[[\"Thread/get\",{\"accountId\":\"A1\",\"list\":[],\"notFound\":[],\"state\":\"6\"},\"0\"]],\"sessionState\":\"0\"}";

const EMAIL_STATE: &str =
    "{\"methodResponses\":[[\"Email/get\",{\"accountId\":\"A1\",\"list\":[],\"notFound\":[],\"state\":\"7\"},\"0\"]],\"sessionState\":\"0\"}";

const RESULTS: &str =
    "{\"methodResponses\":[[\"Email/query\",{\"accountId\":\"A1\",\"canCalculateChanges\":true,\"ids\":[\"E2\",\"E1\"],\"position\":0,\"queryState\":\"8\"},\"0\"]],\"sessionState\":\"0\"}";

// A get at a later state than 4.
const LATER_MAILBOXES: &str =
    "{\"methodResponses\":[[\"Mailbox/get\",{\"accountId\":\"A1\",\"list\":[],\"notFound\":[\"M1\"],\"state\":\"6\"},\"0\"]],\"sessionState\":\"0\"}";

const LOAD: [&str; 7] = [
    SESSION,
    MAILBOX_RESULTS,
    MAILBOXES,
    NO_EMAILS,
    THREAD_STATE,
    EMAIL_STATE,
    RESULTS,
];

const NOT_WHOLE: [&str; 2] = [SESSION, "{}"];

// Eight gets that show another state than the query before.
const MOVING: [&str; 17] = [
    SESSION,
    MAILBOX_RESULTS,
    LATER_MAILBOXES,
    MAILBOX_RESULTS,
    LATER_MAILBOXES,
    MAILBOX_RESULTS,
    LATER_MAILBOXES,
    MAILBOX_RESULTS,
    LATER_MAILBOXES,
    MAILBOX_RESULTS,
    LATER_MAILBOXES,
    MAILBOX_RESULTS,
    LATER_MAILBOXES,
    MAILBOX_RESULTS,
    LATER_MAILBOXES,
    MAILBOX_RESULTS,
    LATER_MAILBOXES,
];

// A file with an email and a list of two.
const FILE: &str =
    "{\"account\":\"A1\",\"email\":{\"list\":{\"E1\":{\"blobId\":\"b1\",\"from\":null,\"hasAttachment\":false,\"id\":\"E1\",\"keywords\":{},\"mailboxIds\":{\"M1\":true},\"preview\":\"\",\"receivedAt\":\"2026-01-01T00:00:00Z\",\"size\":1,\"subject\":\"Hello\",\"threadId\":\"T1\"}},\"state\":\"5\"},\"lists\":[{\"collapse\":false,\"filter\":null,\"ids\":[\"E9\",\"E1\"],\"name\":\"new\",\"sort\":null,\"state\":\"5\"}],\"mailbox\":{\"list\":{},\"state\":\"5\"},\"thread\":{\"list\":{},\"state\":\"5\"}}";

const COUNTS: &str = "mailboxes 1\nthreads 0\nemails 0\nlist all 2\n";

const NEW: ClientSetting = ClientSetting {
    file: "",
    answers: &LOAD,
    refuses: false,
    asking: 0,
    saving: 0,
};

const KEPT: ClientSetting = ClientSetting {
    file: FILE,
    answers: &LOAD,
    refuses: false,
    asking: 0,
    saving: 0,
};

// The arguments over a setting; the status, the output and the error output; and how many exchanges
// and shelves the world gives.
#[derive(Clone, Copy)]
struct Row {
    arguments: &'static str,
    setting: ClientSetting,
    status: u8,
    out: &'static str,
    err: &'static str,
    given: u64,
}

const SYNC: &str = "sync h 8080 t f";

const ROWS: [Row; 10] = [
    Row {
        arguments: SYNC,
        setting: NEW,
        status: 0,
        out: COUNTS,
        err: "",
        given: 2,
    },
    Row {
        arguments: "show f new",
        setting: KEPT,
        status: 0,
        out: "E9 ?\nE1 Hello\n",
        err: "",
        given: 1,
    },
    Row {
        arguments: SYNC,
        setting: ClientSetting {
            file: "",
            answers: &NOT_WHOLE,
            refuses: false,
            asking: 0,
            saving: 0,
        },
        status: 8,
        out: "",
        err: "bad reply: /methodResponses\n",
        given: 2,
    },
    Row {
        arguments: SYNC,
        setting: ClientSetting {
            file: "",
            answers: &MOVING,
            refuses: false,
            asking: 0,
            saving: 0,
        },
        status: 9,
        out: "",
        err: "moved: had 4, shown 6\n",
        given: 2,
    },
    Row {
        arguments: SYNC,
        setting: ClientSetting {
            file: "",
            answers: &LOAD,
            refuses: false,
            asking: 1,
            saving: 0,
        },
        status: 10,
        out: "",
        err: "exchange fault\n",
        given: 2,
    },
    Row {
        arguments: SYNC,
        setting: ClientSetting {
            file: "",
            answers: &LOAD,
            refuses: false,
            asking: 0,
            saving: 1,
        },
        status: 11,
        out: "",
        err: "shelf fault\n",
        given: 2,
    },
    Row {
        arguments: SYNC,
        setting: ClientSetting {
            file: "{",
            answers: &LOAD,
            refuses: false,
            asking: 0,
            saving: 0,
        },
        status: 12,
        out: "",
        err: "bad cache: \n",
        given: 2,
    },
    Row {
        arguments: "show f all",
        setting: KEPT,
        status: 12,
        out: "",
        err: "bad cache: /lists\n",
        given: 1,
    },
    Row {
        arguments: SYNC,
        setting: ClientSetting {
            file: "",
            answers: &LOAD,
            refuses: true,
            asking: 0,
            saving: 0,
        },
        status: 13,
        out: "",
        err: "desk fault\n",
        given: 0,
    },
    Row {
        arguments: "show f new",
        setting: ClientSetting {
            file: FILE,
            answers: &LOAD,
            refuses: true,
            asking: 0,
            saving: 0,
        },
        status: 13,
        out: "",
        err: "desk fault\n",
        given: 0,
    },
];

// What came of a run, and whether each exchange and shelf that the world gave came back.
#[derive(Drop)]
struct Seen {
    ran: Ran,
    given: u64,
    back: u64,
}

fn run_row(rt: &(impl Threads + Wait + Sync), alloc: Global, row: &Row) -> Result<Seen, Fail> {
    let mut worlds = Worlds {
        server: NoWorld { alloc: alloc },
        client: MemoryClient::new(row.setting),
    };
    let ran = run_over(rt, alloc, row.arguments, &mut worlds)?;
    Ok(Seen {
        ran,
        given: worlds.client.given,
        back: worlds.client.back,
    })
}

#[test]
fn a_client_ends_as_its_world_does(rt: HostRuntime) -> Result<(), Fail> {
    for row in ROWS {
        let seen = run_row(&rt, rt.alloc(), &row)?;
        assert_eq!(rt; seen.ran.status, Status(row.status));
        assert!(rt; seen.ran.out.as_slice() == row.out.as_bytes());
        assert!(rt; seen.ran.err.as_slice() == row.err.as_bytes());
        assert_eq!(rt; seen.given, row.given);
        assert_eq!(rt; seen.back, row.given);
    }
    Ok(())
}

const USAGE: &str = "usage: jmap batch, read, serve, sync, show, compact or rehearse\n";

// Arguments that name no command: of `sync` too few or too many, a host that is empty or has another
// character, a port that is none, and a token that is empty or has another character; of `show` too
// few or too many.
const NO_COMMANDS: [&str; 14] = [
    "sync h 8080 t",
    "sync h 8080 t f x",
    "sync  8080 t f",
    "sync h/x 8080 t f",
    "sync h@x 8080 t f",
    "sync hé 8080 t f",
    "sync h 0 t f",
    "sync h 65536 t f",
    "sync h 080 t f",
    "sync h 8080  f",
    "sync h 8080 té f",
    "show f",
    "show f all x",
    "synk h 8080 t f",
];

fn run_alone(
    rt: &(impl Threads + Wait + Sync),
    alloc: Global,
    arguments: &str,
) -> Result<Ran, Fail> {
    let mut worlds = Worlds {
        server: NoWorld { alloc: alloc },
        client: NoClient,
    };
    run_over(rt, alloc, arguments, &mut worlds)
}

#[test]
fn other_arguments_name_no_command(rt: HostRuntime) -> Result<(), Fail> {
    for arguments in NO_COMMANDS {
        let ran = run_alone(&rt, rt.alloc(), arguments)?;
        assert_eq!(rt; ran.status, Status(2));
        assert!(rt; ran.out.as_slice().is_empty());
        assert!(rt; ran.err.as_slice() == USAGE.as_bytes());
    }
    Ok(())
}

// Arguments of a client, with hosts and tokens of every kind of character. The world gives nothing,
// as no memory is left.
const COMMANDS: [&str; 4] = [
    "sync [::1] 1 ! f",
    "sync a-b_c.Example9:x 65535 ~ f",
    "sync 127.0.0.1 8080 a:b/c,d\"e f",
    "show f all",
];

#[test]
fn a_client_that_is_given_nothing_ends(rt: HostRuntime) -> Result<(), Fail> {
    for arguments in COMMANDS {
        let ran = run_alone(&rt, rt.alloc(), arguments)?;
        assert_eq!(rt; ran.status, Status(5));
        assert!(rt; ran.err.as_slice() == b"no memory\n".as_slice());
    }
    Ok(())
}

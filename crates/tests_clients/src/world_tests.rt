// The two commands of a client over a world in memory, of which parts fail. What is printed and what
// the world gives and takes back was worked out by hand.
use crate::memory_world::{ClientDesk, Setting, make_numbers};
use jm_base::{NoMemory, Text};
use jm_edge::MemorySink;
use jmap_client::{ClientFault, show_file, sync_file};
use std::alloc::Global;
use std::process::Abort;

// Answers of a server: the Session; and a load of one mailbox at the state 4, no emails at the state
// 7, no threads at the state 6, and a list of two emails at the state 8.
const SESSION: &str =
    "{\"accounts\":{\"A1\":{}},\"apiUrl\":\"http://h/api\",\"primaryAccounts\":{\"urn:ietf:params:jmap:mail\":\"A1\"}}";

const MAILBOX_RESULTS: &str =
    "{\"methodResponses\":[[\"Mailbox/query\",{\"accountId\":\"A1\",\"canCalculateChanges\":true,\"ids\":[\"M1\"],\"position\":0,\"queryState\":\"4\"},\"0\"]],\"sessionState\":\"0\"}";

const MAILBOXES: &str =
    "{\"methodResponses\":[[\"Mailbox/get\",{\"accountId\":\"A1\",\"list\":[{\"id\":\"M1\",\"isSubscribed\":true,\"myRights\":{\"mayAddItems\":true,\"mayCreateChild\":true,\"mayDelete\":true,\"mayReadItems\":true,\"mayRemoveItems\":true,\"mayRename\":true,\"maySetKeywords\":true,\"maySetSeen\":true,\"maySubmit\":false},\"name\":\"n\",\"parentId\":null,\"role\":null,\"sortOrder\":0,\"totalEmails\":0,\"totalThreads\":0,\"unreadEmails\":0,\"unreadThreads\":0}],\"notFound\":[],\"state\":\"4\"},\"0\"]],\"sessionState\":\"0\"}";

const NO_EMAILS: &str =
    "{\"methodResponses\":[[\"Email/query\",{\"accountId\":\"A1\",\"canCalculateChanges\":true,\"ids\":[],\"position\":0,\"queryState\":\"7\"},\"0\"]],\"sessionState\":\"0\"}";

const THREAD_STATE: &str =
    "{\"methodResponses\":[[\"Thread/get\",{\"accountId\":\"A1\",\"list\":[],\"notFound\":[],\"state\":\"6\"},\"0\"]],\"sessionState\":\"0\"}";

const EMAIL_STATE: &str =
    "{\"methodResponses\":[[\"Email/get\",{\"accountId\":\"A1\",\"list\":[],\"notFound\":[],\"state\":\"7\"},\"0\"]],\"sessionState\":\"0\"}";

const RESULTS: &str =
    "{\"methodResponses\":[[\"Email/query\",{\"accountId\":\"A1\",\"canCalculateChanges\":true,\"ids\":[\"E2\",\"E1\"],\"position\":0,\"queryState\":\"8\"},\"0\"]],\"sessionState\":\"0\"}";

// A get at a later state than 4.
const LATER_MAILBOXES: &str =
    "{\"methodResponses\":[[\"Mailbox/get\",{\"accountId\":\"A1\",\"list\":[],\"notFound\":[\"M1\"],\"state\":\"6\"},\"0\"]],\"sessionState\":\"0\"}";

const LOAD: [&str; 7] = [
    SESSION,
    MAILBOX_RESULTS,
    MAILBOXES,
    NO_EMAILS,
    THREAD_STATE,
    EMAIL_STATE,
    RESULTS,
];

const NOT_WHOLE: [&str; 2] = [SESSION, "{}"];

const NO_ANSWER: [&str; 0] = [];

// Eight gets that show another state than the query before.
const MOVING: [&str; 17] = [
    SESSION,
    MAILBOX_RESULTS,
    LATER_MAILBOXES,
    MAILBOX_RESULTS,
    LATER_MAILBOXES,
    MAILBOX_RESULTS,
    LATER_MAILBOXES,
    MAILBOX_RESULTS,
    LATER_MAILBOXES,
    MAILBOX_RESULTS,
    LATER_MAILBOXES,
    MAILBOX_RESULTS,
    LATER_MAILBOXES,
    MAILBOX_RESULTS,
    LATER_MAILBOXES,
    MAILBOX_RESULTS,
    LATER_MAILBOXES,
];

// A file with an email and a list of two.
const FILE: &str =
    "{\"account\":\"A1\",\"email\":{\"list\":{\"E1\":{\"blobId\":\"b1\",\"from\":null,\"hasAttachment\":false,\"id\":\"E1\",\"keywords\":{},\"mailboxIds\":{\"M1\":true},\"preview\":\"\",\"receivedAt\":\"2026-01-01T00:00:00Z\",\"size\":1,\"subject\":\"Hello\",\"threadId\":\"T1\"}},\"state\":\"5\"},\"lists\":[{\"collapse\":false,\"filter\":null,\"ids\":[\"E9\",\"E1\"],\"name\":\"new\",\"sort\":null,\"state\":\"5\"}],\"mailbox\":{\"list\":{},\"state\":\"5\"},\"thread\":{\"list\":{},\"state\":\"5\"}}";

const COUNTS: &str = "mailboxes 1\nthreads 0\nemails 0\nlist all 2\n";

// The counts, and then the list.
const BOTH: &str = "mailboxes 1\nthreads 0\nemails 0\nlist all 2\nE2 ?\nE1 ?\n";

// What the world gave and took back.
const ALL: &str = "gave f\ngave h:8080 t\ngot talk\ngot f\n";

const ALONE: &str = "gave f\ngot f\n";

// A command over a setting: the list that is shown, or none for a sync; the number of the call of
// the output that fails, or 0; how it ends; what is printed; what the world gave and took back.
#[derive(Drop)]
struct Row {
    setting: Setting,
    list: &'static str,
    writing: u64,
    ends: &'static str,
    text: &'static str,
    deeds: &'static str,
}

const ROWS: [Row; 19] = [
    Row {
        setting: Setting {
            file: "",
            answers: &LOAD,
            refuses: 0,
            asking: 0,
            loading: 0,
            saving: 0,
        },
        list: "",
        writing: 0,
        ends: "done",
        text: COUNTS,
        deeds: ALL,
    },
    Row {
        setting: Setting {
            file: "",
            answers: &LOAD,
            refuses: 0,
            asking: 0,
            loading: 0,
            saving: 0,
        },
        list: "",
        writing: 1,
        ends: "write fault",
        text: "",
        deeds: ALL,
    },
    Row {
        setting: Setting {
            file: "{}",
            answers: &LOAD,
            refuses: 0,
            asking: 0,
            loading: 0,
            saving: 0,
        },
        list: "",
        writing: 0,
        ends: "bad cache: /account",
        text: "",
        deeds: ALL,
    },
    Row {
        setting: Setting {
            file: "",
            answers: &NOT_WHOLE,
            refuses: 0,
            asking: 0,
            loading: 0,
            saving: 0,
        },
        list: "",
        writing: 0,
        ends: "bad reply: /methodResponses",
        text: "",
        deeds: ALL,
    },
    Row {
        setting: Setting {
            file: "",
            answers: &NO_ANSWER,
            refuses: 0,
            asking: 0,
            loading: 0,
            saving: 0,
        },
        list: "",
        writing: 0,
        ends: "bad reply: ",
        text: "",
        deeds: ALL,
    },
    Row {
        setting: Setting {
            file: "",
            answers: &MOVING,
            refuses: 0,
            asking: 0,
            loading: 0,
            saving: 0,
        },
        list: "",
        writing: 0,
        ends: "moved: 4 6",
        text: "",
        deeds: ALL,
    },
    Row {
        setting: Setting {
            file: "",
            answers: &LOAD,
            refuses: 0,
            asking: 3,
            loading: 0,
            saving: 0,
        },
        list: "",
        writing: 0,
        ends: "exchange fault 1 0",
        text: "",
        deeds: ALL,
    },
    Row {
        setting: Setting {
            file: "",
            answers: &LOAD,
            refuses: 0,
            asking: 0,
            loading: 1,
            saving: 0,
        },
        list: "",
        writing: 0,
        ends: "shelf fault 0 1",
        text: "",
        deeds: ALL,
    },
    Row {
        setting: Setting {
            file: "",
            answers: &LOAD,
            refuses: 0,
            asking: 0,
            loading: 0,
            saving: 1,
        },
        list: "",
        writing: 0,
        ends: "shelf fault 0 1",
        text: "",
        deeds: ALL,
    },
    Row {
        setting: Setting {
            file: "",
            answers: &LOAD,
            refuses: 1,
            asking: 0,
            loading: 0,
            saving: 0,
        },
        list: "",
        writing: 0,
        ends: "desk fault",
        text: "",
        deeds: "",
    },
    Row {
        setting: Setting {
            file: "",
            answers: &LOAD,
            refuses: 2,
            asking: 0,
            loading: 0,
            saving: 0,
        },
        list: "",
        writing: 0,
        ends: "desk fault",
        text: "",
        deeds: ALONE,
    },
    Row {
        setting: Setting {
            file: FILE,
            answers: &LOAD,
            refuses: 0,
            asking: 0,
            loading: 0,
            saving: 0,
        },
        list: "new",
        writing: 0,
        ends: "done",
        text: "E9 ?\nE1 Hello\n",
        deeds: ALONE,
    },
    Row {
        setting: Setting {
            file: FILE,
            answers: &LOAD,
            refuses: 0,
            asking: 0,
            loading: 0,
            saving: 0,
        },
        list: "all",
        writing: 0,
        ends: "bad cache: /lists",
        text: "",
        deeds: ALONE,
    },
    Row {
        setting: Setting {
            file: FILE,
            answers: &LOAD,
            refuses: 0,
            asking: 0,
            loading: 0,
            saving: 0,
        },
        list: "new",
        writing: 1,
        ends: "write fault",
        text: "",
        deeds: ALONE,
    },
    Row {
        setting: Setting {
            file: "",
            answers: &LOAD,
            refuses: 0,
            asking: 0,
            loading: 0,
            saving: 0,
        },
        list: "all",
        writing: 0,
        ends: "done",
        text: "",
        deeds: ALONE,
    },
    Row {
        setting: Setting {
            file: "",
            answers: &LOAD,
            refuses: 0,
            asking: 0,
            loading: 0,
            saving: 0,
        },
        list: "new",
        writing: 0,
        ends: "bad cache: /lists",
        text: "",
        deeds: ALONE,
    },
    Row {
        setting: Setting {
            file: "[]",
            answers: &LOAD,
            refuses: 0,
            asking: 0,
            loading: 0,
            saving: 0,
        },
        list: "all",
        writing: 0,
        ends: "bad cache: ",
        text: "",
        deeds: ALONE,
    },
    Row {
        setting: Setting {
            file: FILE,
            answers: &LOAD,
            refuses: 0,
            asking: 0,
            loading: 1,
            saving: 0,
        },
        list: "new",
        writing: 0,
        ends: "shelf fault 0 1",
        text: "",
        deeds: ALONE,
    },
    Row {
        setting: Setting {
            file: FILE,
            answers: &LOAD,
            refuses: 1,
            asking: 0,
            loading: 0,
            saving: 0,
        },
        list: "new",
        writing: 0,
        ends: "desk fault",
        text: "",
        deeds: "",
    },
];

// Says why a command ended, with the world's counts of what came back where one of them failed.
fn say(alloc: Global, fault: &ClientFault, desk: &ClientDesk) -> Result<String, NoMemory> {
    match fault {
        ClientFault::WriteFault => Ok(String::from_str(alloc, "write fault")?),
        ClientFault::BadReply(place) => Ok(format!(in alloc; "bad reply: {}", place.as_str())?),
        ClientFault::Moved(states) => {
            Ok(format!(in alloc; "moved: {} {}", states.had.as_str(), states.shown.as_str())?)
        }
        ClientFault::ExchangeFault => {
            Ok(format!(in alloc; "exchange fault {} {}", desk.talks(), desk.stores())?)
        }
        ClientFault::ShelfFault => {
            Ok(format!(in alloc; "shelf fault {} {}", desk.talks(), desk.stores())?)
        }
        ClientFault::BadCache(place) => Ok(format!(in alloc; "bad cache: {}", place.as_str())?),
        ClientFault::DeskFault => Ok(String::from_str(alloc, "desk fault")?),
        ClientFault::TooLong => Ok(String::from_str(alloc, "too long")?),
        ClientFault::NoMemory => Ok(String::from_str(alloc, "no memory")?),
    }
}

fn describe(
    alloc: Global,
    ended: &Result<(), ClientFault>,
    desk: &ClientDesk,
) -> Result<String, NoMemory> {
    match ended {
        Ok(()) => Ok(String::from_str(alloc, "done")?),
        Err(fault) => say(alloc, fault, desk),
    }
}

// The texts of a command: the host `h`, the token `t`, the file `f`, and a list.
#[derive(Drop)]
struct Texts {
    host: Text,
    token: Text,
    name: Text,
    list: Text,
}

fn make_texts(alloc: Global, list: &str) -> Result<Texts, NoMemory> {
    Ok(Texts {
        host: Text::from_str(alloc, "h")?,
        token: Text::from_str(alloc, "t")?,
        name: Text::from_str(alloc, "f")?,
        list: Text::from_str(alloc, list)?,
    })
}

// Shows the list of the texts, or makes a sync where its name is empty.
fn use_desk(
    alloc: Global,
    desk: &mut ClientDesk,
    texts: &Texts,
    out: &mut MemorySink,
) -> Result<(), ClientFault> {
    if texts.list.as_str().is_empty() {
        return sync_file(
            alloc,
            desk,
            &texts.host,
            8080,
            &texts.token,
            &texts.name,
            out,
        );
    }
    show_file(alloc, desk, &texts.name, &texts.list, out)
}

// What was returned. An error ends the test.
fn sure<A: Abort, T: Drop, E: Drop>(rt: &A, returned: Result<T, E>) -> T {
    match returned {
        Ok(value) => value,
        Err(_) => panic!(rt; "a call failed that must not"),
    }
}

// Says how the command of a list ends over a world.
fn run<A: Abort>(
    rt: &A,
    alloc: Global,
    desk: &mut ClientDesk,
    list: &str,
    out: &mut MemorySink,
) -> String {
    let texts = sure(rt, make_texts(alloc, list));
    let ended = use_desk(alloc, desk, &texts, out);
    sure(rt, describe(alloc, &ended, desk))
}

fn is_text(seen: &str, expected: &str) -> bool {
    seen == expected
}

fn is_printed(out: &MemorySink, expected: &str) -> bool {
    out.bytes() == expected.as_bytes()
}

// A command ends, prints, and leaves the world as its row says.
fn expect<A: Abort>(rt: &A, alloc: Global, row: &Row) {
    let mut out = MemorySink::build_failing(alloc, sure(rt, make_numbers(alloc, row.writing)));
    let mut desk = sure(rt, ClientDesk::new(alloc, row.setting));
    let ends = run(rt, alloc, &mut desk, row.list, &mut out);
    assert!(rt; is_text(ends.as_str(), row.ends));
    assert!(rt; is_text(desk.deeds(), row.deeds));
    assert!(rt; is_printed(&out, row.text));
}

#[test]
fn a_command_ends_as_its_parts_do(rt: HostRuntime) {
    let alloc = rt.alloc();
    for row in &ROWS {
        expect(&rt, alloc, row);
    }
}

#[test]
fn what_was_synced_is_shown(rt: HostRuntime) {
    let alloc = rt.alloc();
    let mut out = MemorySink::new(alloc);
    let mut desk = sure(&rt, ClientDesk::new(alloc, ROWS[0].setting));
    let synced = run(&rt, alloc, &mut desk, "", &mut out);
    let shown = run(&rt, alloc, &mut desk, "all", &mut out);
    assert!(rt; is_text(synced.as_str(), "done"));
    assert!(rt; is_text(shown.as_str(), "done"));
    assert!(rt; is_printed(&out, BOTH));
}

// Rounds over an exchange and a shelf in memory, of which calls fail. What is asked and kept was worked
// out by hand from the steps of a round and the form of the file.
use client_cache::{Cache, cache_bytes};
use client_sync::{SyncFault, load_cache, sync};
use jm_base::{Bytes, NoMemory, Numbers};
use jm_edge::{Answer, Asked, MemoryExchange, MemoryShelf};
use std::alloc::Global;
use std::collections::VecDeque;
use std::test::Fail;

// Answers of a server: the Session; and a load of one mailbox at the state 4, no emails at the state
// 7, no threads at the state 6, and a list of two emails at the state 8.
const SESSION: &str =
    "{\"accounts\":{\"A1\":{}},\"apiUrl\":\"http://h/api\",\"primaryAccounts\":{\"urn:ietf:params:jmap:mail\":\"A1\"}}";

const MAILBOX_RESULTS: &str =
    "{\"methodResponses\":[[\"Mailbox/query\",{\"accountId\":\"A1\",\"canCalculateChanges\":true,\"ids\":[\"M1\"],\"position\":0,\"queryState\":\"4\"},\"0\"]],\"sessionState\":\"0\"}";

const MAILBOXES: &str =
    "{\"methodResponses\":[[\"Mailbox/get\",{\"accountId\":\"A1\",\"list\":[{\"id\":\"M1\",\"isSubscribed\":true,\"myRights\":{\"mayAddItems\":true,\"mayCreateChild\":true,\"mayDelete\":true,\"mayReadItems\":true,\"mayRemoveItems\":true,\"mayRename\":true,\"maySetKeywords\":true,\"maySetSeen\":true,\"maySubmit\":false},\"name\":\"n\",\"parentId\":null,\"role\":null,\"sortOrder\":0,\"totalEmails\":0,\"totalThreads\":0,\"unreadEmails\":0,\"unreadThreads\":0}],\"notFound\":[],\"state\":\"4\"},\"0\"]],\"sessionState\":\"0\"}";

const NO_EMAILS: &str =
    "{\"methodResponses\":[[\"Email/query\",{\"accountId\":\"A1\",\"canCalculateChanges\":true,\"ids\":[],\"position\":0,\"queryState\":\"7\"},\"0\"]],\"sessionState\":\"0\"}";

const THREAD_STATE: &str =
    "{\"methodResponses\":[[\"Thread/get\",{\"accountId\":\"A1\",\"list\":[],\"notFound\":[],\"state\":\"6\"},\"0\"]],\"sessionState\":\"0\"}";

const EMAIL_STATE: &str =
    "{\"methodResponses\":[[\"Email/get\",{\"accountId\":\"A1\",\"list\":[],\"notFound\":[],\"state\":\"7\"},\"0\"]],\"sessionState\":\"0\"}";

const RESULTS: &str =
    "{\"methodResponses\":[[\"Email/query\",{\"accountId\":\"A1\",\"canCalculateChanges\":true,\"ids\":[\"E2\",\"E1\"],\"position\":0,\"queryState\":\"8\"},\"0\"]],\"sessionState\":\"0\"}";

// A get at a later state than 4.
const LATER_MAILBOXES: &str =
    "{\"methodResponses\":[[\"Mailbox/get\",{\"accountId\":\"A1\",\"list\":[],\"notFound\":[\"M1\"],\"state\":\"6\"},\"0\"]],\"sessionState\":\"0\"}";

// No changes since these states; the list lost E1, and gained E3.
const NO_MAILBOX: &str =
    "{\"methodResponses\":[[\"Mailbox/changes\",{\"accountId\":\"A1\",\"created\":[],\"destroyed\":[],\"hasMoreChanges\":false,\"newState\":\"4\",\"oldState\":\"4\",\"updated\":[],\"updatedProperties\":null},\"0\"]],\"sessionState\":\"0\"}";

const NO_EMAIL: &str =
    "{\"methodResponses\":[[\"Email/changes\",{\"accountId\":\"A1\",\"created\":[],\"destroyed\":[],\"hasMoreChanges\":false,\"newState\":\"7\",\"oldState\":\"7\",\"updated\":[]},\"0\"]],\"sessionState\":\"0\"}";

const NO_THREAD: &str =
    "{\"methodResponses\":[[\"Thread/changes\",{\"accountId\":\"A1\",\"created\":[],\"destroyed\":[],\"hasMoreChanges\":false,\"newState\":\"6\",\"oldState\":\"6\",\"updated\":[]},\"0\"]],\"sessionState\":\"0\"}";

const ADDED: &str =
    "{\"methodResponses\":[[\"Email/queryChanges\",{\"accountId\":\"A1\",\"added\":[{\"id\":\"E3\",\"index\":0}],\"newQueryState\":\"9\",\"oldQueryState\":\"8\",\"removed\":[\"E1\"]},\"0\"]],\"sessionState\":\"0\"}";

// Files: of a new cache; of one that knows its account alone; of what the load gave; of what the
// changes made of that.
const NEW: &str =
    "{\"account\":null,\"email\":{\"list\":{},\"state\":null},\"lists\":[{\"collapse\":true,\"filter\":null,\"ids\":[],\"name\":\"all\",\"sort\":[{\"isAscending\":false,\"property\":\"receivedAt\"}],\"state\":null}],\"mailbox\":{\"list\":{},\"state\":null},\"thread\":{\"list\":{},\"state\":null}}";

const NAMED: &str =
    "{\"account\":\"A1\",\"email\":{\"list\":{},\"state\":null},\"lists\":[{\"collapse\":true,\"filter\":null,\"ids\":[],\"name\":\"all\",\"sort\":[{\"isAscending\":false,\"property\":\"receivedAt\"}],\"state\":null}],\"mailbox\":{\"list\":{},\"state\":null},\"thread\":{\"list\":{},\"state\":null}}";

const FIRST: &str =
    "{\"account\":\"A1\",\"email\":{\"list\":{},\"state\":\"7\"},\"lists\":[{\"collapse\":true,\"filter\":null,\"ids\":[\"E2\",\"E1\"],\"name\":\"all\",\"sort\":[{\"isAscending\":false,\"property\":\"receivedAt\"}],\"state\":\"8\"}],\"mailbox\":{\"list\":{\"M1\":{\"id\":\"M1\",\"isSubscribed\":true,\"myRights\":{\"mayAddItems\":true,\"mayCreateChild\":true,\"mayDelete\":true,\"mayReadItems\":true,\"mayRemoveItems\":true,\"mayRename\":true,\"maySetKeywords\":true,\"maySetSeen\":true,\"maySubmit\":false},\"name\":\"n\",\"parentId\":null,\"role\":null,\"sortOrder\":0,\"totalEmails\":0,\"totalThreads\":0,\"unreadEmails\":0,\"unreadThreads\":0}},\"state\":\"4\"},\"thread\":{\"list\":{},\"state\":\"6\"}}";

const SECOND: &str =
    "{\"account\":\"A1\",\"email\":{\"list\":{},\"state\":\"7\"},\"lists\":[{\"collapse\":true,\"filter\":null,\"ids\":[\"E3\",\"E2\"],\"name\":\"all\",\"sort\":[{\"isAscending\":false,\"property\":\"receivedAt\"}],\"state\":\"9\"}],\"mailbox\":{\"list\":{\"M1\":{\"id\":\"M1\",\"isSubscribed\":true,\"myRights\":{\"mayAddItems\":true,\"mayCreateChild\":true,\"mayDelete\":true,\"mayReadItems\":true,\"mayRemoveItems\":true,\"mayRename\":true,\"maySetKeywords\":true,\"maySetSeen\":true,\"maySubmit\":false},\"name\":\"n\",\"parentId\":null,\"role\":null,\"sortOrder\":0,\"totalEmails\":0,\"totalThreads\":0,\"unreadEmails\":0,\"unreadThreads\":0}},\"state\":\"4\"},\"thread\":{\"list\":{},\"state\":\"6\"}}";

const LOAD: [&str; 7] = [
    SESSION,
    MAILBOX_RESULTS,
    MAILBOXES,
    NO_EMAILS,
    THREAD_STATE,
    EMAIL_STATE,
    RESULTS,
];

const CHANGES: [&str; 5] = [SESSION, NO_MAILBOX, NO_EMAIL, NO_THREAD, ADDED];

const NOT_JSON: [&str; 1] = ["["];

const NOT_WHOLE: [&str; 2] = [SESSION, "{}"];

const SHORT: [&str; 6] = [
    SESSION,
    MAILBOX_RESULTS,
    MAILBOXES,
    NO_EMAILS,
    THREAD_STATE,
    EMAIL_STATE,
];

// Eight gets that show another state than the query before.
const MOVING: [&str; 17] = [
    SESSION,
    MAILBOX_RESULTS,
    LATER_MAILBOXES,
    MAILBOX_RESULTS,
    LATER_MAILBOXES,
    MAILBOX_RESULTS,
    LATER_MAILBOXES,
    MAILBOX_RESULTS,
    LATER_MAILBOXES,
    MAILBOX_RESULTS,
    LATER_MAILBOXES,
    MAILBOX_RESULTS,
    LATER_MAILBOXES,
    MAILBOX_RESULTS,
    LATER_MAILBOXES,
    MAILBOX_RESULTS,
    LATER_MAILBOXES,
];

// The bodies of the requests of a load; that for the Session has none.
const BODIES: [&str; 7] = [
    "",
    "{\"methodCalls\":[[\"Mailbox/query\",{\"accountId\":\"A1\",\"limit\":1000,\"position\":0},\"0\"]],\"using\":[\"urn:ietf:params:jmap:core\",\"urn:ietf:params:jmap:mail\"]}",
    "{\"methodCalls\":[[\"Mailbox/get\",{\"accountId\":\"A1\",\"ids\":[\"M1\"]},\"0\"]],\"using\":[\"urn:ietf:params:jmap:core\",\"urn:ietf:params:jmap:mail\"]}",
    "{\"methodCalls\":[[\"Email/query\",{\"accountId\":\"A1\",\"limit\":1000,\"position\":0},\"0\"]],\"using\":[\"urn:ietf:params:jmap:core\",\"urn:ietf:params:jmap:mail\"]}",
    "{\"methodCalls\":[[\"Thread/get\",{\"accountId\":\"A1\",\"ids\":[]},\"0\"]],\"using\":[\"urn:ietf:params:jmap:core\",\"urn:ietf:params:jmap:mail\"]}",
    "{\"methodCalls\":[[\"Email/get\",{\"accountId\":\"A1\",\"ids\":[],\"properties\":[\"id\",\"blobId\",\"threadId\",\"mailboxIds\",\"keywords\",\"size\",\"receivedAt\",\"from\",\"subject\",\"preview\",\"hasAttachment\"]},\"0\"]],\"using\":[\"urn:ietf:params:jmap:core\",\"urn:ietf:params:jmap:mail\"]}",
    "{\"methodCalls\":[[\"Email/query\",{\"accountId\":\"A1\",\"collapseThreads\":true,\"filter\":null,\"limit\":1000,\"position\":0,\"sort\":[{\"isAscending\":false,\"property\":\"receivedAt\"}]},\"0\"]],\"using\":[\"urn:ietf:params:jmap:core\",\"urn:ietf:params:jmap:mail\"]}",
];

// A sync: the file, or none if it is empty; the answers with their status; and the numbers of the
// calls of the exchange, of loading and of saving that fail, or 0.
#[derive(Drop)]
struct Case {
    file: &'static str,
    status: u16,
    answers: &'static [&'static str],
    asking: u64,
    loading: u64,
    saving: u64,
}

// A case, how it ends, how many requests were answered, and what is kept in the end.
#[derive(Drop)]
struct Row {
    case: Case,
    ends: &'static str,
    asked: usize,
    kept: &'static str,
}

// After the last answer an exchange in memory answers the status 503.
const ROWS: [Row; 19] = [
    Row {
        case: Case {
            file: "",
            status: 200,
            answers: &LOAD,
            asking: 0,
            loading: 0,
            saving: 0,
        },
        ends: "done",
        asked: 7,
        kept: FIRST,
    },
    Row {
        case: Case {
            file: FIRST,
            status: 200,
            answers: &CHANGES,
            asking: 0,
            loading: 0,
            saving: 0,
        },
        ends: "done",
        asked: 5,
        kept: SECOND,
    },
    Row {
        case: Case {
            file: "{",
            status: 200,
            answers: &LOAD,
            asking: 0,
            loading: 0,
            saving: 0,
        },
        ends: "bad cache: ",
        asked: 0,
        kept: "{",
    },
    Row {
        case: Case {
            file: "[]",
            status: 200,
            answers: &LOAD,
            asking: 0,
            loading: 0,
            saving: 0,
        },
        ends: "bad cache: ",
        asked: 0,
        kept: "[]",
    },
    Row {
        case: Case {
            file: "{}",
            status: 200,
            answers: &LOAD,
            asking: 0,
            loading: 0,
            saving: 0,
        },
        ends: "bad cache: /account",
        asked: 0,
        kept: "{}",
    },
    Row {
        case: Case {
            file: FIRST,
            status: 200,
            answers: &LOAD,
            asking: 0,
            loading: 1,
            saving: 0,
        },
        ends: "shelf fault",
        asked: 0,
        kept: FIRST,
    },
    Row {
        case: Case {
            file: FIRST,
            status: 200,
            answers: &CHANGES,
            asking: 0,
            loading: 2,
            saving: 0,
        },
        ends: "done",
        asked: 5,
        kept: SECOND,
    },
    Row {
        case: Case {
            file: FIRST,
            status: 200,
            answers: &CHANGES,
            asking: 0,
            loading: 0,
            saving: 1,
        },
        ends: "shelf fault",
        asked: 5,
        kept: FIRST,
    },
    Row {
        case: Case {
            file: FIRST,
            status: 200,
            answers: &CHANGES,
            asking: 0,
            loading: 0,
            saving: 2,
        },
        ends: "done",
        asked: 5,
        kept: SECOND,
    },
    Row {
        case: Case {
            file: FIRST,
            status: 200,
            answers: &CHANGES,
            asking: 1,
            loading: 0,
            saving: 0,
        },
        ends: "exchange fault",
        asked: 0,
        kept: FIRST,
    },
    Row {
        case: Case {
            file: FIRST,
            status: 200,
            answers: &CHANGES,
            asking: 5,
            loading: 0,
            saving: 0,
        },
        ends: "exchange fault",
        asked: 4,
        kept: FIRST,
    },
    Row {
        case: Case {
            file: FIRST,
            status: 200,
            answers: &CHANGES,
            asking: 6,
            loading: 0,
            saving: 0,
        },
        ends: "done",
        asked: 5,
        kept: SECOND,
    },
    Row {
        case: Case {
            file: FIRST,
            status: 500,
            answers: &CHANGES,
            asking: 0,
            loading: 0,
            saving: 0,
        },
        ends: "bad reply: ",
        asked: 1,
        kept: FIRST,
    },
    Row {
        case: Case {
            file: FIRST,
            status: 204,
            answers: &CHANGES,
            asking: 0,
            loading: 0,
            saving: 0,
        },
        ends: "bad reply: ",
        asked: 1,
        kept: FIRST,
    },
    Row {
        case: Case {
            file: "",
            status: 200,
            answers: &SHORT,
            asking: 0,
            loading: 0,
            saving: 0,
        },
        ends: "bad reply: ",
        asked: 7,
        kept: "",
    },
    Row {
        case: Case {
            file: FIRST,
            status: 200,
            answers: &NOT_JSON,
            asking: 0,
            loading: 0,
            saving: 0,
        },
        ends: "bad reply: ",
        asked: 1,
        kept: FIRST,
    },
    Row {
        case: Case {
            file: FIRST,
            status: 200,
            answers: &NOT_WHOLE,
            asking: 0,
            loading: 0,
            saving: 0,
        },
        ends: "bad reply: /methodResponses",
        asked: 2,
        kept: FIRST,
    },
    Row {
        case: Case {
            file: "",
            status: 200,
            answers: &MOVING,
            asking: 0,
            loading: 0,
            saving: 0,
        },
        ends: "moved: 4 6",
        asked: 17,
        kept: NAMED,
    },
    Row {
        case: Case {
            file: "",
            status: 200,
            answers: &MOVING,
            asking: 0,
            loading: 0,
            saving: 1,
        },
        ends: "shelf fault",
        asked: 17,
        kept: "",
    },
];

// The number of the call that fails, or none where it is 0.
fn find_fails(alloc: Global, call: u64) -> Result<Numbers, NoMemory> {
    let mut fails = Numbers::new(alloc);
    if call > 0 {
        fails.push(call)?;
    }
    Ok(fails)
}

fn make_exchange(alloc: Global, case: &Case) -> Result<MemoryExchange, NoMemory> {
    let mut coming = VecDeque::new(alloc);
    for body in case.answers {
        coming.push_back(Answer {
            status: case.status,
            body: Bytes::from_slice(alloc, body.as_bytes())?,
        })?;
    }
    let fails = find_fails(alloc, case.asking)?;
    Ok(MemoryExchange::build_failing(alloc, coming, fails))
}

fn make_file(alloc: Global, file: &str) -> Result<Option<Bytes>, NoMemory> {
    if file.is_empty() {
        return Ok(None);
    }
    Ok(Some(Bytes::from_slice(alloc, file.as_bytes())?))
}

fn make_shelf(alloc: Global, case: &Case) -> Result<MemoryShelf, NoMemory> {
    let content = make_file(alloc, case.file)?;
    let loads = find_fails(alloc, case.loading)?;
    let saves = find_fails(alloc, case.saving)?;
    Ok(MemoryShelf::build_failing(content, loads, saves))
}

// Says why a cache was not brought up to date.
fn say(alloc: Global, fault: &SyncFault) -> Result<String, NoMemory> {
    match fault {
        SyncFault::BadReply(place) => Ok(format!(in alloc; "bad reply: {}", place.as_str())?),
        SyncFault::BadCache(place) => Ok(format!(in alloc; "bad cache: {}", place.as_str())?),
        SyncFault::Moved { had, shown } => {
            Ok(format!(in alloc; "moved: {} {}", had.as_str(), shown.as_str())?)
        }
        SyncFault::TooLong => Ok(String::from_str(alloc, "too long")?),
        SyncFault::ExchangeFault => Ok(String::from_str(alloc, "exchange fault")?),
        SyncFault::ShelfFault => Ok(String::from_str(alloc, "shelf fault")?),
        SyncFault::NoMemory => Ok(String::from_str(alloc, "no memory")?),
    }
}

// Says how a sync or a load ended. A cache that it returns must be the one that is expected.
fn describe(
    alloc: Global,
    ended: &Result<Cache, SyncFault>,
    expected: &str,
) -> Result<String, NoMemory> {
    match ended {
        Ok(cache) => {
            let text = cache_bytes(alloc, cache)?;
            if text.as_slice() == expected.as_bytes() {
                return Ok(String::from_str(alloc, "done")?);
            }
            Ok(String::from_str(alloc, "another cache")?)
        }
        Err(fault) => say(alloc, fault),
    }
}

// What came of a sync.
#[derive(Drop)]
struct Seen {
    ends: String,
    asked: usize,
    is_kept: bool,
}

// Whether a shelf keeps this text, or no file if it is empty.
fn keeps(shelf: &MemoryShelf, text: &str) -> bool {
    match shelf.content() {
        Some(bytes) => bytes == text.as_bytes(),
        None => text.is_empty(),
    }
}

fn run(alloc: Global, row: &Row) -> Result<Seen, NoMemory> {
    let mut exchange = make_exchange(alloc, &row.case)?;
    let mut shelf = make_shelf(alloc, &row.case)?;
    let ended = sync(alloc, &mut exchange, &mut shelf);
    Ok(Seen {
        ends: describe(alloc, &ended, row.kept)?,
        asked: exchange.asked().len(),
        is_kept: keeps(&shelf, row.kept),
    })
}

#[test]
fn a_sync_ends_as_its_calls_do(rt: HostRuntime) -> Result<(), Fail> {
    for row in ROWS {
        let seen = run(rt.alloc(), &row)?;
        assert_eq!(rt; seen.ends.as_str(), row.ends);
        assert_eq!(rt; seen.asked, row.asked);
        assert!(rt; seen.is_kept);
    }
    Ok(())
}

// Whether a request of a load is the one with this index: it goes to the path of the Session or to
// the one that the Session names, and has this body.
fn is_request(asked: &Asked, index: usize) -> bool {
    match &asked.body {
        Some(body) => {
            asked.path.as_slice() == b"/api".as_slice()
                && body.as_slice() == BODIES[index.min(6)].as_bytes()
        }
        None => index == 0 && asked.path.as_slice() == b"/.well-known/jmap".as_slice(),
    }
}

#[test]
fn a_load_asks_for_all_kinds_and_the_list(rt: HostRuntime) -> Result<(), Fail> {
    let alloc = rt.alloc();
    let mut exchange = make_exchange(alloc, &ROWS[0].case)?;
    let mut shelf = make_shelf(alloc, &ROWS[0].case)?;
    assert!(rt; sync(alloc, &mut exchange, &mut shelf).is_ok());
    assert_eq!(rt; exchange.asked().len(), 7);
    for (index, asked) in exchange.asked().iter().enumerate() {
        assert!(rt; is_request(asked, index));
    }
    Ok(())
}

// Says how a load from a file ends, whose first call fails or not.
fn load_from(alloc: Global, file: &str, fails: u64, expected: &str) -> Result<String, NoMemory> {
    let content = make_file(alloc, file)?;
    let loads = find_fails(alloc, fails)?;
    let mut shelf = MemoryShelf::build_failing(content, loads, Numbers::new(alloc));
    describe(alloc, &load_cache(alloc, &mut shelf), expected)
}

#[test]
fn a_cache_is_loaded_or_new(rt: HostRuntime) -> Result<(), Fail> {
    let alloc = rt.alloc();
    assert_eq!(rt; load_from(alloc, "", 0, NEW)?.as_str(), "done");
    assert_eq!(rt; load_from(alloc, FIRST, 0, FIRST)?.as_str(), "done");
    assert_eq!(rt; load_from(alloc, "{", 0, "")?.as_str(), "bad cache: ");
    assert_eq!(rt; load_from(alloc, FIRST, 1, "")?.as_str(), "shelf fault");
    Ok(())
}

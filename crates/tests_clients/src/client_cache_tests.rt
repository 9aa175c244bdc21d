// Replies that are not of their form, and others that are taken.
use client_cache::{ReplyFault, begin, read_cache, take_reply};
use std::alloc::Global;
use std::test::Fail;

// A cache whose kinds and list are at the state 5.
const CACHE: &str = "{\"account\":\"A1\",\
    \"email\":{\"list\":{},\"state\":\"5\"},\
    \"lists\":[{\"collapse\":true,\"filter\":null,\"ids\":[\"E1\",\"E2\"],\"name\":\"all\",\
    \"sort\":null,\"state\":\"5\"}],\
    \"mailbox\":{\"list\":{},\"state\":\"5\"},\
    \"thread\":{\"list\":{},\"state\":\"5\"}}";

const SESSION: &str =
    "{\"accounts\":{\"A1\":{}},\"apiUrl\":\"http://h/api\",\"primaryAccounts\":{}}";

// Changes of mailboxes: none; one, M1; the same with more to follow.
const NO_MAILBOX: &str = "{\"methodResponses\":[[\"Mailbox/changes\",{\"accountId\":\"A1\",\
    \"created\":[],\"destroyed\":[],\"hasMoreChanges\":false,\"newState\":\"5\",\
    \"oldState\":\"5\",\"updated\":[],\"updatedProperties\":null},\"0\"]],\"sessionState\":\"0\"}";

const ONE_MAILBOX: &str = "{\"methodResponses\":[[\"Mailbox/changes\",{\"accountId\":\"A1\",\
    \"created\":[\"M1\"],\"destroyed\":[],\"hasMoreChanges\":false,\"newState\":\"7\",\
    \"oldState\":\"5\",\"updated\":[],\"updatedProperties\":null},\"0\"]],\"sessionState\":\"0\"}";

// No changes of emails and of threads.
const NO_EMAIL: &str = "{\"methodResponses\":[[\"Email/changes\",{\"accountId\":\"A1\",\
    \"created\":[],\"destroyed\":[],\"hasMoreChanges\":false,\"newState\":\"5\",\
    \"oldState\":\"5\",\"updated\":[]},\"0\"]],\"sessionState\":\"0\"}";

const NO_THREAD: &str = "{\"methodResponses\":[[\"Thread/changes\",{\"accountId\":\"A1\",\
    \"created\":[],\"destroyed\":[],\"hasMoreChanges\":false,\"newState\":\"5\",\
    \"oldState\":\"5\",\"updated\":[]},\"0\"]],\"sessionState\":\"0\"}";

const NOTHING: [&str; 0] = [];

const AT_MAILBOXES: [&str; 1] = [SESSION];

const AT_A_GET: [&str; 2] = [SESSION, ONE_MAILBOX];

const AT_A_LIST: [&str; 4] = [SESSION, NO_MAILBOX, NO_EMAIL, NO_THREAD];

// The replies before, a reply, and what is said of it: the place, or `taken`.
#[derive(Drop)]
struct Row {
    before: &'static [&'static str],
    reply: &'static str,
    says: &'static str,
}

// The places were worked out by hand from the form of each reply.
const ROWS: [Row; 42] = [
    Row {
        before: &NOTHING,
        reply: "{\"accounts\":{},\"apiUrl\":\"/api\",\"primaryAccounts\":{}}",
        says: "/accounts/A1",
    },
    Row {
        before: &NOTHING,
        reply: "{\"accounts\":{\"A1\":{}},\"apiUrl\":\"http://host\",\"primaryAccounts\":{}}",
        says: "/apiUrl",
    },
    Row {
        before: &NOTHING,
        reply: "{\"accounts\":{\"A1\":{}},\"apiUrl\":\"/a b\",\"primaryAccounts\":{}}",
        says: "/apiUrl",
    },
    Row {
        before: &NOTHING,
        reply: "{\"accounts\":{\"A1\":{}},\"apiUrl\":\"/api\",\"primaryAccounts\":{\"x\":1}}",
        says: "/primaryAccounts/x",
    },
    Row {
        before: &NOTHING,
        reply: "[",
        says: "",
    },
    Row {
        before: &AT_MAILBOXES,
        reply: "{}",
        says: "/methodResponses",
    },
    Row {
        before: &AT_MAILBOXES,
        reply: "{\"methodResponses\":[[\"Mailbox/changes\",{\"accountId\":\"A1\",\"created\":[],\"destroyed\":[],\"hasMoreChanges\":false,\"newState\":\"5\",\"oldState\":\"5\",\"updated\":[],\"updatedProperties\":null},\"0\"]]}",
        says: "/sessionState",
    },
    Row {
        before: &AT_MAILBOXES,
        reply: "{\"methodResponses\":[[\"Mailbox/changes\",{\"accountId\":\"A1\",\"created\":[],\"destroyed\":[],\"hasMoreChanges\":false,\"newState\":\"5\",\"oldState\":\"5\",\"updated\":[],\"updatedProperties\":null},\"0\"],[\"Mailbox/changes\",{\"accountId\":\"A1\",\"created\":[],\"destroyed\":[],\"hasMoreChanges\":false,\"newState\":\"5\",\"oldState\":\"5\",\"updated\":[],\"updatedProperties\":null},\"0\"]],\"sessionState\":\"0\"}",
        says: "/methodResponses",
    },
    Row {
        before: &AT_MAILBOXES,
        reply: "{\"methodResponses\":[[\"Mailbox/changes\",{\"accountId\":\"A1\",\"created\":[],\"destroyed\":[],\"hasMoreChanges\":false,\"newState\":\"5\",\"oldState\":\"5\",\"updated\":[],\"updatedProperties\":null},\"1\"]],\"sessionState\":\"0\"}",
        says: "/methodResponses/0/2",
    },
    Row {
        before: &AT_MAILBOXES,
        reply: "{\"methodResponses\":[[\"Email/changes\",{\"accountId\":\"A1\",\"created\":[],\"destroyed\":[],\"hasMoreChanges\":false,\"newState\":\"5\",\"oldState\":\"5\",\"updated\":[],\"updatedProperties\":null},\"0\"]],\"sessionState\":\"0\"}",
        says: "/methodResponses/0/0",
    },
    Row {
        before: &AT_MAILBOXES,
        reply: "{\"methodResponses\":[[\"error\",{\"type\":\"serverFail\"},\"0\"]],\"sessionState\":\"0\"}",
        says: "/methodResponses/0/1/type",
    },
    Row {
        before: &AT_MAILBOXES,
        reply: "{\"methodResponses\":[[\"error\",{},\"0\"]],\"sessionState\":\"0\"}",
        says: "/methodResponses/0/1/type",
    },
    Row {
        before: &AT_MAILBOXES,
        reply: "{\"methodResponses\":[[\"error\",{\"type\":\"cannotCalculateChanges\"},\"0\"]],\"sessionState\":\"0\"}",
        says: "taken",
    },
    Row {
        before: &AT_MAILBOXES,
        reply: "{\"methodResponses\":[[\"Mailbox/changes\",{\"accountId\":\"A1\",\"created\":[],\"destroyed\":[],\"hasMoreChanges\":false,\"newState\":\"5\",\"oldState\":\"5\",\"updated\":[],\"updatedProperties\":null},\"0\"]],\"sessionState\":\"0\"}",
        says: "taken",
    },
    Row {
        before: &AT_MAILBOXES,
        reply: "{\"methodResponses\":[[\"Mailbox/changes\",{\"accountId\":\"A2\",\"created\":[],\"destroyed\":[],\"hasMoreChanges\":false,\"newState\":\"5\",\"oldState\":\"5\",\"updated\":[],\"updatedProperties\":null},\"0\"]],\"sessionState\":\"0\"}",
        says: "/methodResponses/0/1/accountId",
    },
    Row {
        before: &AT_MAILBOXES,
        reply: "{\"methodResponses\":[[\"Mailbox/changes\",{\"accountId\":\"A1\",\"destroyed\":[],\"hasMoreChanges\":false,\"newState\":\"5\",\"oldState\":\"5\",\"updated\":[],\"updatedProperties\":null},\"0\"]],\"sessionState\":\"0\"}",
        says: "/methodResponses/0/1/created",
    },
    Row {
        before: &AT_MAILBOXES,
        reply: "{\"methodResponses\":[[\"Mailbox/changes\",{\"accountId\":\"A1\",\"created\":[\"E1\"],\"destroyed\":[],\"hasMoreChanges\":false,\"newState\":\"5\",\"oldState\":\"5\",\"updated\":[],\"updatedProperties\":null},\"0\"]],\"sessionState\":\"0\"}",
        says: "/methodResponses/0/1/created/0",
    },
    Row {
        before: &AT_MAILBOXES,
        reply: "{\"methodResponses\":[[\"Mailbox/changes\",{\"accountId\":\"A1\",\"created\":[],\"destroyed\":3,\"hasMoreChanges\":false,\"newState\":\"5\",\"oldState\":\"5\",\"updated\":[],\"updatedProperties\":null},\"0\"]],\"sessionState\":\"0\"}",
        says: "/methodResponses/0/1/destroyed",
    },
    Row {
        before: &AT_MAILBOXES,
        reply: "{\"methodResponses\":[[\"Mailbox/changes\",{\"accountId\":\"A1\",\"created\":[],\"destroyed\":[],\"newState\":\"5\",\"oldState\":\"5\",\"updated\":[],\"updatedProperties\":null},\"0\"]],\"sessionState\":\"0\"}",
        says: "/methodResponses/0/1/hasMoreChanges",
    },
    Row {
        before: &AT_MAILBOXES,
        reply: "{\"methodResponses\":[[\"Mailbox/changes\",{\"accountId\":\"A1\",\"created\":[],\"destroyed\":[],\"hasMoreChanges\":false,\"newState\":\"x\",\"oldState\":\"5\",\"updated\":[],\"updatedProperties\":null},\"0\"]],\"sessionState\":\"0\"}",
        says: "/methodResponses/0/1/newState",
    },
    Row {
        before: &AT_MAILBOXES,
        reply: "{\"methodResponses\":[[\"Mailbox/changes\",{\"accountId\":\"A1\",\"created\":[],\"destroyed\":[],\"hasMoreChanges\":true,\"newState\":\"5\",\"oldState\":\"5\",\"updated\":[],\"updatedProperties\":null},\"0\"]],\"sessionState\":\"0\"}",
        says: "/methodResponses/0/1/newState",
    },
    Row {
        before: &AT_MAILBOXES,
        reply: "{\"methodResponses\":[[\"Mailbox/changes\",{\"accountId\":\"A1\",\"created\":[],\"destroyed\":[],\"hasMoreChanges\":false,\"newState\":\"4\",\"oldState\":\"5\",\"updated\":[],\"updatedProperties\":null},\"0\"]],\"sessionState\":\"0\"}",
        says: "taken",
    },
    Row {
        before: &AT_MAILBOXES,
        reply: "{\"methodResponses\":[[\"Mailbox/changes\",{\"accountId\":\"A1\",\"created\":[],\"destroyed\":[],\"hasMoreChanges\":false,\"newState\":\"5\",\"oldState\":\"4\",\"updated\":[],\"updatedProperties\":null},\"0\"]],\"sessionState\":\"0\"}",
        says: "/methodResponses/0/1/oldState",
    },
    Row {
        before: &AT_MAILBOXES,
        reply: "{\"methodResponses\":[[\"Mailbox/changes\",{\"accountId\":\"A1\",\"created\":[],\"destroyed\":[],\"hasMoreChanges\":false,\"newState\":\"5\",\"oldState\":\"5\",\"updated\":[\"M1\",\"M01\"],\"updatedProperties\":null},\"0\"]],\"sessionState\":\"0\"}",
        says: "/methodResponses/0/1/updated/1",
    },
    Row {
        before: &AT_MAILBOXES,
        reply: "{\"methodResponses\":[[\"Mailbox/changes\",{\"accountId\":\"A1\",\"created\":[],\"destroyed\":[],\"hasMoreChanges\":false,\"newState\":\"5\",\"oldState\":\"5\",\"updated\":[]},\"0\"]],\"sessionState\":\"0\"}",
        says: "/methodResponses/0/1/updatedProperties",
    },
    Row {
        before: &AT_A_GET,
        reply: "{\"methodResponses\":[[\"Mailbox/get\",{\"accountId\":\"A1\",\"list\":[{\"id\":\"M1\",\"isSubscribed\":true,\"myRights\":{\"mayAddItems\":true,\"mayCreateChild\":true,\"mayDelete\":true,\"mayReadItems\":true,\"mayRemoveItems\":true,\"mayRename\":true,\"maySetKeywords\":true,\"maySetSeen\":true,\"maySubmit\":true},\"name\":\"n\",\"parentId\":null,\"role\":null,\"sortOrder\":0,\"totalEmails\":0,\"totalThreads\":0,\"unreadEmails\":0,\"unreadThreads\":0}],\"notFound\":[],\"state\":\"7\"},\"0\"]],\"sessionState\":\"0\"}",
        says: "taken",
    },
    Row {
        before: &AT_A_GET,
        reply: "{\"methodResponses\":[[\"Mailbox/get\",{\"accountId\":\"A1\",\"list\":[],\"notFound\":[\"M1\"],\"state\":\"7\"},\"0\"]],\"sessionState\":\"0\"}",
        says: "taken",
    },
    Row {
        before: &AT_A_GET,
        reply: "{\"methodResponses\":[[\"Mailbox/get\",{\"accountId\":\"A1\",\"list\":[{\"id\":\"M1\",\"isSubscribed\":true,\"myRights\":{\"mayAddItems\":true,\"mayCreateChild\":true,\"mayDelete\":true,\"mayReadItems\":true,\"mayRemoveItems\":true,\"mayRename\":true,\"maySetKeywords\":true,\"maySetSeen\":true,\"maySubmit\":true},\"name\":\"n\",\"parentId\":null,\"role\":null,\"sortOrder\":0,\"totalEmails\":0,\"totalThreads\":0,\"unreadEmails\":0,\"unreadThreads\":0}],\"notFound\":[],\"state\":\"9\"},\"0\"]],\"sessionState\":\"0\"}",
        says: "taken",
    },
    Row {
        before: &AT_A_GET,
        reply: "{\"methodResponses\":[[\"Mailbox/get\",{\"accountId\":\"A1\",\"list\":[{\"id\":\"M1\",\"isSubscribed\":true,\"myRights\":{\"mayAddItems\":true,\"mayCreateChild\":true,\"mayDelete\":true,\"mayReadItems\":true,\"mayRemoveItems\":true,\"mayRename\":true,\"maySetKeywords\":true,\"maySetSeen\":true,\"maySubmit\":true},\"name\":\"n\",\"parentId\":null,\"role\":null,\"sortOrder\":0,\"totalEmails\":0,\"totalThreads\":0,\"unreadEmails\":0,\"unreadThreads\":0}],\"notFound\":[],\"state\":7},\"0\"]],\"sessionState\":\"0\"}",
        says: "/methodResponses/0/1/state",
    },
    Row {
        before: &AT_A_GET,
        reply: "{\"methodResponses\":[[\"Mailbox/get\",{\"accountId\":\"A1\",\"list\":[],\"notFound\":[],\"state\":\"7\"},\"0\"]],\"sessionState\":\"0\"}",
        says: "/methodResponses/0/1/list",
    },
    Row {
        before: &AT_A_GET,
        reply: "{\"methodResponses\":[[\"Mailbox/get\",{\"accountId\":\"A1\",\"list\":[{\"id\":\"M1\",\"isSubscribed\":true,\"myRights\":{\"mayAddItems\":true,\"mayCreateChild\":true,\"mayDelete\":true,\"mayReadItems\":true,\"mayRemoveItems\":true,\"mayRename\":true,\"maySetKeywords\":true,\"maySetSeen\":true,\"maySubmit\":true},\"name\":\"n\",\"parentId\":null,\"role\":null,\"sortOrder\":0,\"totalEmails\":0,\"totalThreads\":0,\"unreadEmails\":0,\"unreadThreads\":0},{\"id\":\"M1\",\"isSubscribed\":true,\"myRights\":{\"mayAddItems\":true,\"mayCreateChild\":true,\"mayDelete\":true,\"mayReadItems\":true,\"mayRemoveItems\":true,\"mayRename\":true,\"maySetKeywords\":true,\"maySetSeen\":true,\"maySubmit\":true},\"name\":\"n\",\"parentId\":null,\"role\":null,\"sortOrder\":0,\"totalEmails\":0,\"totalThreads\":0,\"unreadEmails\":0,\"unreadThreads\":0}],\"notFound\":[],\"state\":\"7\"},\"0\"]],\"sessionState\":\"0\"}",
        says: "/methodResponses/0/1/list/1/id",
    },
    Row {
        before: &AT_A_GET,
        reply: "{\"methodResponses\":[[\"Mailbox/get\",{\"accountId\":\"A1\",\"list\":[{\"id\":\"M2\",\"isSubscribed\":true,\"myRights\":{\"mayAddItems\":true,\"mayCreateChild\":true,\"mayDelete\":true,\"mayReadItems\":true,\"mayRemoveItems\":true,\"mayRename\":true,\"maySetKeywords\":true,\"maySetSeen\":true,\"maySubmit\":true},\"name\":\"n\",\"parentId\":null,\"role\":null,\"sortOrder\":0,\"totalEmails\":0,\"totalThreads\":0,\"unreadEmails\":0,\"unreadThreads\":0}],\"notFound\":[],\"state\":\"7\"},\"0\"]],\"sessionState\":\"0\"}",
        says: "/methodResponses/0/1/list",
    },
    Row {
        before: &AT_A_GET,
        reply: "{\"methodResponses\":[[\"Mailbox/get\",{\"accountId\":\"A1\",\"list\":[{\"id\":\"M1\",\"isSubscribed\":true,\"myRights\":{\"mayAddItems\":true,\"mayCreateChild\":true,\"mayDelete\":true,\"mayReadItems\":true,\"mayRemoveItems\":true,\"mayRename\":true,\"maySetKeywords\":true,\"maySetSeen\":true,\"maySubmit\":true},\"parentId\":null,\"role\":null,\"sortOrder\":0,\"totalEmails\":0,\"totalThreads\":0,\"unreadEmails\":0,\"unreadThreads\":0}],\"notFound\":[],\"state\":\"7\"},\"0\"]],\"sessionState\":\"0\"}",
        says: "/methodResponses/0/1/list/0/name",
    },
    Row {
        before: &AT_A_GET,
        reply: "{\"methodResponses\":[[\"Mailbox/get\",{\"accountId\":\"A1\",\"list\":[{\"id\":\"M1\",\"isSubscribed\":true,\"myRights\":{\"mayAddItems\":true,\"mayCreateChild\":true,\"mayDelete\":true,\"mayReadItems\":true,\"mayRemoveItems\":true,\"mayRename\":true,\"maySetKeywords\":true,\"maySetSeen\":true,\"maySubmit\":true},\"name\":\"n\",\"parentId\":null,\"role\":null,\"sortOrder\":0,\"totalEmails\":0,\"totalThreads\":0,\"unreadEmails\":0,\"unreadThreads\":0}],\"notFound\":[\"M1\"],\"state\":\"7\"},\"0\"]],\"sessionState\":\"0\"}",
        says: "/methodResponses/0/1/notFound/0",
    },
    Row {
        before: &AT_A_GET,
        reply: "{\"methodResponses\":[[\"Mailbox/get\",{\"accountId\":\"A1\",\"list\":[{\"id\":\"M1\",\"isSubscribed\":true,\"myRights\":{\"mayAddItems\":true,\"mayCreateChild\":true,\"mayDelete\":true,\"mayReadItems\":true,\"mayRemoveItems\":true,\"mayRename\":true,\"maySetKeywords\":true,\"maySetSeen\":true},\"name\":\"n\",\"parentId\":null,\"role\":null,\"sortOrder\":0,\"totalEmails\":0,\"totalThreads\":0,\"unreadEmails\":0,\"unreadThreads\":0}],\"notFound\":[],\"state\":\"7\"},\"0\"]],\"sessionState\":\"0\"}",
        says: "/methodResponses/0/1/list/0/myRights/maySubmit",
    },
    Row {
        before: &AT_A_LIST,
        reply: "{\"methodResponses\":[[\"Email/queryChanges\",{\"accountId\":\"A1\",\"added\":[],\"newQueryState\":\"7\",\"oldQueryState\":\"5\",\"removed\":[]},\"0\"]],\"sessionState\":\"0\"}",
        says: "taken",
    },
    Row {
        before: &AT_A_LIST,
        reply: "{\"methodResponses\":[[\"Email/queryChanges\",{\"accountId\":\"A1\",\"added\":[{\"id\":\"E3\",\"index\":2}],\"newQueryState\":\"7\",\"oldQueryState\":\"5\",\"removed\":[]},\"0\"]],\"sessionState\":\"0\"}",
        says: "taken",
    },
    Row {
        before: &AT_A_LIST,
        reply: "{\"methodResponses\":[[\"Email/queryChanges\",{\"accountId\":\"A1\",\"added\":[{\"id\":\"E3\",\"index\":3}],\"newQueryState\":\"7\",\"oldQueryState\":\"5\",\"removed\":[]},\"0\"]],\"sessionState\":\"0\"}",
        says: "/methodResponses/0/1/added/0/index",
    },
    Row {
        before: &AT_A_LIST,
        reply: "{\"methodResponses\":[[\"Email/queryChanges\",{\"accountId\":\"A1\",\"added\":[{\"id\":\"E3\",\"index\":1},{\"id\":\"E4\",\"index\":3}],\"newQueryState\":\"7\",\"oldQueryState\":\"5\",\"removed\":[\"E1\"]},\"0\"]],\"sessionState\":\"0\"}",
        says: "/methodResponses/0/1/added/1/index",
    },
    Row {
        before: &AT_A_LIST,
        reply: "{\"methodResponses\":[[\"Email/queryChanges\",{\"accountId\":\"A1\",\"added\":[],\"newQueryState\":\"7\",\"oldQueryState\":\"4\",\"removed\":[]},\"0\"]],\"sessionState\":\"0\"}",
        says: "/methodResponses/0/1/oldQueryState",
    },
    Row {
        before: &AT_A_LIST,
        reply: "{\"methodResponses\":[[\"Email/queryChanges\",{\"accountId\":\"A1\",\"added\":[],\"newQueryState\":\"7\",\"oldQueryState\":\"5\"},\"0\"]],\"sessionState\":\"0\"}",
        says: "/methodResponses/0/1/removed",
    },
    Row {
        before: &AT_A_LIST,
        reply: "{\"methodResponses\":[[\"Email/queryChanges\",{\"accountId\":\"A1\",\"added\":[{\"id\":\"M3\",\"index\":0}],\"newQueryState\":\"7\",\"oldQueryState\":\"5\",\"removed\":[]},\"0\"]],\"sessionState\":\"0\"}",
        says: "/methodResponses/0/1/added/0/id",
    },
];

// Says the place at which a reply is bad, or what else became of it.
fn describe(taken: &Result<(), ReplyFault>) -> &str {
    match taken {
        Ok(()) => "taken",
        Err(ReplyFault::BadReply(place)) => place.as_str(),
        Err(ReplyFault::Moved { .. }) => "moved",
        Err(ReplyFault::TooLong) => "too long",
        Err(ReplyFault::NoMemory) => "no memory",
    }
}

// Takes replies one after the other.
fn take_all(alloc: Global, before: &[&str], reply: &str) -> Result<(), ReplyFault> {
    let Ok(cache) = read_cache(alloc, CACHE.as_bytes()) else {
        return Err(ReplyFault::NoMemory);
    };
    let mut cache = cache;
    let mut round = begin(alloc, &cache)?;
    for text in before {
        take_reply(alloc, &mut cache, &mut round, text.as_bytes())?;
    }
    take_reply(alloc, &mut cache, &mut round, reply.as_bytes())
}

#[test]
fn a_reply_is_taken_if_it_is_of_its_form(rt: HostRuntime) -> Result<(), Fail> {
    for row in ROWS {
        let taken = take_all(rt.alloc(), row.before, row.reply);
        assert_eq!(rt; describe(&taken), row.says);
    }
    Ok(())
}

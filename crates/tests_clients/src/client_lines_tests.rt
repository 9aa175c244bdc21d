// What is printed of a cache, in pieces and to a sink that fails. The texts were worked out by hand.
use client_cache::{Cache, read_cache};
use client_lines::{PrintFault, find_list, write_counts, write_list};
use jm_base::{NoMemory, Numbers};
use jm_edge::MemorySink;
use std::alloc::Global;
use std::test::Fail;

// Three emails, of which one has no subject, and one has a subject with control characters, among
// them the first and the last ones of U+0080 to U+009F; U+00A0 after them is none.
const CACHE: &str = "{\"account\":\"A1\",\
    \"email\":{\"list\":{\"E1\":{\"blobId\":\"b1\",\"from\":null,\"hasAttachment\":false,\"id\":\"E1\",\"keywords\":{},\"mailboxIds\":{\"M1\":true},\"preview\":\"\",\"receivedAt\":\"2026-01-01T00:00:00Z\",\"size\":1,\"subject\":\"Hello\",\"threadId\":\"T1\"},\
    \"E2\":{\"blobId\":\"b2\",\"from\":null,\"hasAttachment\":false,\"id\":\"E2\",\"keywords\":{},\"mailboxIds\":{\"M1\":true},\"preview\":\"\",\"receivedAt\":\"2026-01-01T00:00:00Z\",\"size\":1,\"subject\":null,\"threadId\":\"T1\"},\
    \"E3\":{\"blobId\":\"b3\",\"from\":null,\"hasAttachment\":false,\"id\":\"E3\",\"keywords\":{},\"mailboxIds\":{\"M1\":true},\"preview\":\"\",\"receivedAt\":\"2026-01-01T00:00:00Z\",\"size\":1,\"subject\":\"a\\u0000b\\u0009c\\u001f\\u007fd\\u0080e\\u009ff\u{a0}g\u{e9}\u{20ac}\u{1f600}\",\"threadId\":\"T2\"}},\"state\":\"5\"},\
    \"lists\":[{\"collapse\":false,\"filter\":null,\"ids\":[\"E3\",\"E9\",\"E1\",\"E2\"],\"name\":\"all\",\"sort\":null,\"state\":\"5\"},\
    {\"collapse\":false,\"filter\":null,\"ids\":[],\"name\":\"a b\",\"sort\":null,\"state\":\"5\"}],\
    \"mailbox\":{\"list\":{\"M1\":{\"id\":\"M1\",\"isSubscribed\":true,\"myRights\":{\"mayAddItems\":true,\"mayCreateChild\":true,\"mayDelete\":true,\"mayReadItems\":true,\"mayRemoveItems\":true,\"mayRename\":true,\"maySetKeywords\":true,\"maySetSeen\":true,\"maySubmit\":false},\"name\":\"Inbox\",\"parentId\":null,\"role\":null,\"sortOrder\":0,\"totalEmails\":3,\"totalThreads\":2,\"unreadEmails\":0,\"unreadThreads\":0}},\"state\":\"5\"},\
    \"thread\":{\"list\":{\"T1\":{\"emailIds\":[\"E1\",\"E2\"],\"id\":\"T1\"},\
    \"T2\":{\"emailIds\":[\"E3\"],\"id\":\"T2\"}},\"state\":\"5\"}}";

// The beginning and the end of a cache with a long list.
const LONG_START: &str = "{\"account\":\"A1\",\"email\":{\"list\":{},\"state\":null},\
    \"lists\":[{\"collapse\":false,\"filter\":null,\"ids\":[";

const LONG_END: &str = "\"E1\"],\"name\":\"all\",\"sort\":null,\"state\":null}],\
    \"mailbox\":{\"list\":{},\"state\":null},\"thread\":{\"list\":{},\"state\":null}}";

const COUNTS: &str = "mailboxes 1\nthreads 2\nemails 3\nlist all 4\nlist a b 0\n";

const EMAILS: &str = "E3 a b c  d e f\u{a0}g\u{e9}\u{20ac}\u{1f600}\nE9 ?\nE1 Hello\nE2 \n";

// What is printed: the counts, or the emails of a list; how many bytes the sink takes at a time, and
// the number of its call that fails, or 0; how that ends, and what was written.
#[derive(Drop)]
struct Row {
    list: &'static str,
    most: usize,
    fails: u64,
    ends: &'static str,
    text: &'static str,
}

const ROWS: [Row; 8] = [
    Row {
        list: "",
        most: 1000,
        fails: 0,
        ends: "done",
        text: COUNTS,
    },
    Row {
        list: "",
        most: 1,
        fails: 0,
        ends: "done",
        text: COUNTS,
    },
    Row {
        list: "",
        most: 6,
        fails: 3,
        ends: "write fault",
        text: "mailboxes 1\n",
    },
    Row {
        list: "all",
        most: 1000,
        fails: 0,
        ends: "done",
        text: EMAILS,
    },
    Row {
        list: "all",
        most: 5,
        fails: 2,
        ends: "write fault",
        text: "E3 a ",
    },
    Row {
        list: "a b",
        most: 1000,
        fails: 1,
        ends: "done",
        text: "",
    },
    Row {
        list: "al",
        most: 1000,
        fails: 0,
        ends: "no list",
        text: "",
    },
    Row {
        list: "all ",
        most: 1000,
        fails: 0,
        ends: "no list",
        text: "",
    },
];

fn describe(printed: Result<(), PrintFault>) -> &'static str {
    match printed {
        Ok(()) => "done",
        Err(PrintFault::WriteFault) => "write fault",
        Err(PrintFault::NoMemory) => "no memory",
    }
}

// Prints the counts, or the list of a name, and says how that ends.
fn print(alloc: Global, cache: &Cache, name: &str, out: &mut MemorySink) -> &'static str {
    if name.is_empty() {
        return describe(write_counts(alloc, cache, out));
    }
    match find_list(cache, name) {
        Some(list) => describe(write_list(alloc, cache, list, out)),
        None => "no list",
    }
}

// Returns a sink that takes so many bytes at a time, of which this call fails.
fn make_sink(alloc: Global, most: usize, fails: u64) -> Result<MemorySink, NoMemory> {
    let mut numbers = Numbers::new(alloc);
    if fails > 0 {
        numbers.push(fails)?;
    }
    Ok(MemorySink::build_in_pieces(alloc, most, numbers))
}

#[test]
fn counts_and_lists_are_printed(rt: HostRuntime) -> Result<(), Fail> {
    let alloc = rt.alloc();
    for row in ROWS {
        let cache = read_cache(alloc, CACHE.as_bytes())?;
        let mut out = make_sink(alloc, row.most, row.fails)?;
        assert_eq!(rt; print(alloc, &cache, row.list, &mut out), row.ends);
        assert!(rt; out.bytes() == row.text.as_bytes());
    }
    Ok(())
}

// Returns the text of a cache with a list of 20,001 emails, of which the first 20,000 have lines of
// 10 bytes each, as `E100000 ?` and the line end.
fn make_long(alloc: Global) -> Result<String, NoMemory> {
    let mut text = String::from_str(alloc, LONG_START)?;
    for number in 100_000..120_000u64 {
        let id = format!(in alloc; "\"E{number}\",")?;
        text.push_str(id.as_str())?;
    }
    text.push_str(LONG_END)?;
    Ok(text)
}

// A long list is written in pieces of 6,554 lines, the first of at least 65,536 bytes.
#[test]
fn a_long_list_is_written_in_pieces(rt: HostRuntime) -> Result<(), Fail> {
    let alloc = rt.alloc();
    let text = make_long(alloc)?;
    let cache = read_cache(alloc, text.as_bytes())?;
    let mut out = make_sink(alloc, 1_000_000, 3)?;
    assert_eq!(rt; print(alloc, &cache, "all", &mut out), "write fault");
    assert_eq!(rt; out.bytes().len(), 131_080);
    Ok(())
}

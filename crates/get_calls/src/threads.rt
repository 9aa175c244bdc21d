// The threads that a get asks for (RFC 8621, section 3.1).
ghost use Rattle.std.specs.Prelude.{◌≡◌, ◌∷◌, ◌++◌, [], None, Some, IfOk, MatchOption, OnOk, map, option_map};
ghost use Rattle.jm_json.specs.Json.{tree_of};
ghost use Rattle.jm_json.specs.Tree.{text};
ghost use Rattle.mail_view.specs.Records.{asked_records, naming_none, records_named, unknown_ids};
ghost use Rattle.mail_view.specs.Threads.{thread_members, thread_named};
ghost use Rattle.mail_view.specs.View.{identifier};
ghost use Rattle.get_calls.specs.Members.{thread_without};

use crate::members::remove_members;
use crate::mentions::list_first_mentions;
use crate::records::FoundRecords;
use jm_base::{Id, Kind, NoMemory, Text, id_text, read_id};
use jm_json::{Items, Json, Members};
use mail_records::{Content, Thread};
use std::alloc::Global;

/// The properties of a thread, in byte order.
pub(crate) const THREAD_PROPERTIES: [&str; 2] = ["emailIds", "id"];

// Returns the thread that an id names.
fn find_thread<'a>(content: &'a Content, id: &str) -> Option<&'a Thread>
    ensures { MatchOption result (thread_named content.now.content.threads id.now ≡ None)
        (λ t. thread_named content.now.content.threads id.now ≡ Some t.now) }
{
    match read_id(id.as_bytes()) {
        Ok(id) => match id.kind {
            Kind::Thread => content.thread(id.number),
            _ => None,
        },
        Err(_) => None,
    }
}

// Returns the ids of these emails, in their order.
fn write_email_ids(alloc: Global, numbers: &[u64]) -> Result<Items, NoMemory>
    ensures { IfOk result (λ ts. ts ≡ map text (map (identifier Kind.Email) numbers.now)) }
{
    let mut ids = Items::with_room(alloc, numbers.len())?;
    for number in numbers {
        let id = Id {
            kind: Kind::Email,
            number: *number,
        };
        ids.push(Json::Text(id_text(alloc, &id)?))?;
    }
    Ok(ids)
}

// Returns the members of a thread's object.
fn write_members(alloc: Global, thread: &Thread) -> Result<Members, NoMemory>
    ensures { IfOk result (λ ms. ms ≡ thread_members thread.now) }
{
    let id = Id {
        kind: Kind::Thread,
        number: thread.number,
    };
    let emails = write_email_ids(alloc, thread.emails.as_slice())?;
    let mut members = Members::with_room(alloc, 2)?;
    members.set(alloc, "emailIds", Json::List(emails))?;
    members.set(alloc, "id", Json::Text(id_text(alloc, &id)?))?;
    Ok(members)
}

// Returns the view of a thread without these properties.
fn write_thread(alloc: Global, thread: &Thread, hidden: &[&str]) -> Result<Json, NoMemory>
    ensures { IfOk result (λ t.
        tree_of t ≡ thread_without (map (λ h. h.now) hidden.now) thread.now) }
{
    let members = write_members(alloc, thread)?;
    Ok(Json::Object(remove_members(members, hidden)))
}

impl FoundRecords {
    // Adds the thread that an id names, or the id if it names none.
    fn push_thread(
        &mut self,
        alloc: Global,
        content: &Content,
        id: &str,
        hidden: &[&str],
    ) -> Result<(), NoMemory>
        ensures objects { OnOk result (self.new.objects ≡ self.old.objects
            ++ map (thread_without (map (λ h. h.now) hidden.now))
            (records_named (thread_named content.now.content.threads) (id.now ∷ []))) }
        ensures unknown { OnOk result (self.new.unknown ≡ self.old.unknown
            ++ map text (naming_none (thread_named content.now.content.threads) (id.now ∷ []))) }
    {
        match find_thread(content, id) {
            Some(thread) => {
                let view = write_thread(alloc, thread, hidden)?;
                self.objects.push(view)
            }
            None => self.unknown.push(Json::Text(Text::from_str(alloc, id)?)),
        }
    }
}

// Returns the threads that these ids name, each id once.
fn find_named(
    alloc: Global,
    content: &Content,
    ids: &[&str],
    hidden: &[&str],
) -> Result<FoundRecords, NoMemory>
    ensures objects { IfOk result (λ f. f.objects
        ≡ map (thread_without (map (λ h. h.now) hidden.now))
        (records_named (thread_named content.now.content.threads) (map (λ t. t.now) ids.now))) }
    ensures unknown { IfOk result (λ f. f.unknown
        ≡ map text (naming_none (thread_named content.now.content.threads)
        (map (λ t. t.now) ids.now))) }
{
    let mut found = FoundRecords {
        objects: Items::new(alloc),
        unknown: Items::new(alloc),
    };
    for id in ids {
        found.push_thread(alloc, content, id, hidden)?;
    }
    Ok(found)
}

// Returns the views of these threads.
fn write_threads(alloc: Global, threads: &[Thread], hidden: &[&str]) -> Result<Items, NoMemory>
    ensures { IfOk result (λ objects. objects
        ≡ map (thread_without (map (λ h. h.now) hidden.now)) threads.now) }
{
    let mut objects = Items::with_room(alloc, threads.len())?;
    for thread in threads {
        objects.push(write_thread(alloc, thread, hidden)?)?;
    }
    Ok(objects)
}

/// Returns the views of the threads that are asked for, all if no ids are given, without these
/// properties, and the ids that name none.
pub(crate) fn find_threads(
    alloc: Global,
    content: &Content,
    ids: &Option<Vec<&str>>,
    hidden: &[&str],
) -> Result<FoundRecords, NoMemory>
    ensures objects { IfOk result (λ f. f.objects
        ≡ map (thread_without (map (λ h. h.now) hidden.now))
        (asked_records (thread_named content.now.content.threads) content.now.content.threads
        (option_map (λ v. map (λ t. t.now) v.items) ids.now))) }
    ensures unknown { IfOk result (λ f. f.unknown
        ≡ map text (unknown_ids (thread_named content.now.content.threads)
        (option_map (λ v. map (λ t. t.now) v.items) ids.now))) }
{
    match ids {
        Some(ids) => {
            let firsts = list_first_mentions(alloc, ids.as_slice())?;
            find_named(alloc, content, firsts.as_slice(), hidden)
        }
        None => Ok(FoundRecords {
            objects: write_threads(alloc, content.threads(), hidden)?,
            unknown: Items::new(alloc),
        }),
    }
}

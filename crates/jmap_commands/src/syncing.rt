// The commands `sync` and `show`: how a run of each ends.
ghost use Rattle.std.specs.Prelude.{◌≡◌, ◌<◌, [], IfOk, length, map, slice_index_or, string_bytes};
ghost use Rattle.jmap_client.specs.ClientSights.{client_sight_of};
ghost use Rattle.jmap_commands.specs.Syncing.{HasShownFile, HasSyncedFile, IsClientEnding, IsClientFaultEnding, bad_cache_text, bad_reply_text, moved_text};
ghost use Rattle.jmap_commands.specs.Worlds.{client_seen};

use crate::ending::Ending;
use crate::serving::find_argument_at;
use jm_base::{NoMemory, Text};
use jm_edge::Sink;
use jmap_client::{ClientFault, ClientWorld, show_file, sync_file};
use std::alloc::Global;

// Returns the line that says which place of a reply is bad.
fn build_bad_reply_line(alloc: Global, place: &str) -> Result<Text, NoMemory>
    ensures { IfOk result (λ line. line ≡ bad_reply_text place.now) }
{
    Ok(Text::from_string(format!(in alloc; "bad reply: {place}\n")?))
}

// Returns the line that says from which state to which an account changed.
fn build_moved_line(alloc: Global, had: &str, shown: &str) -> Result<Text, NoMemory>
    ensures { IfOk result (λ line. line ≡ moved_text had.now shown.now) }
{
    Ok(Text::from_string(format!(in alloc; "moved: had {had}, shown {shown}\n")?))
}

// Returns the line that says which place of a cache's file is bad.
fn build_bad_cache_line(alloc: Global, place: &str) -> Result<Text, NoMemory>
    ensures { IfOk result (λ line. line ≡ bad_cache_text place.now) }
{
    Ok(Text::from_string(format!(in alloc; "bad cache: {place}\n")?))
}

// Returns how a run ends whose client ended with this fault.
fn find_client_fault_ending(alloc: Global, fault: ClientFault) -> Ending
    ensures { IsClientFaultEnding fault result }
{
    match fault {
        ClientFault::WriteFault => Ending::WriteFault,
        ClientFault::BadReply(place) => match build_bad_reply_line(alloc, place.as_str()) {
            Ok(line) => Ending::BadReply(line),
            Err(_) => Ending::NoMemory,
        },
        ClientFault::Moved(states) => {
            match build_moved_line(alloc, states.had.as_str(), states.shown.as_str()) {
                Ok(line) => Ending::Moved(line),
                Err(_) => Ending::NoMemory,
            }
        }
        ClientFault::ExchangeFault => Ending::ExchangeFault,
        ClientFault::ShelfFault => Ending::ShelfFault,
        ClientFault::BadCache(place) => match build_bad_cache_line(alloc, place.as_str()) {
            Ok(line) => Ending::BadCache(line),
            Err(_) => Ending::NoMemory,
        },
        ClientFault::DeskFault => Ending::DeskFault,
        ClientFault::TooLong => Ending::TooLong,
        ClientFault::NoMemory => Ending::NoMemory,
    }
}

// Returns how a run ends whose client ended so.
fn find_client_ending(alloc: Global, synced: Result<(), ClientFault>) -> Ending
    ensures { IsClientEnding synced result }
{
    match synced {
        Ok(()) => Ending::Done,
        Err(fault) => find_client_fault_ending(alloc, fault),
    }
}

/// Brings the cache of a file up to date, and writes what it has. The host, the token and the file
/// are the second, the fourth and the fifth argument.
pub(crate) fn sync_words<C: ClientWorld, O: Sink>(
    alloc: Global,
    world: &mut C,
    words: &[String],
    port: u16,
    out: &mut O,
) -> Ending
    requires { 4 < length words.now }
    ensures { HasSyncedFile (client_sight_of C.Talk.told C.Talk.faults C.Store.kept
        C.Store.load_faults C.Store.save_faults) (slice_index_or (map string_bytes words.now) 1 [])
        port (slice_index_or (map string_bytes words.now) 3 [])
        (slice_index_or (map string_bytes words.now) 4 []) (client_seen C.told C.faults
        C.talk_faults C.store_faults world.old world.new) (O.held out.old) (O.held out.new)
        (O.faults out.old) (O.faults out.new) result }
{
    let Ok(host) = Text::from_str(alloc, find_argument_at(words, 1)) else {
        return Ending::NoMemory;
    };
    let Ok(token) = Text::from_str(alloc, find_argument_at(words, 3)) else {
        return Ending::NoMemory;
    };
    let Ok(name) = Text::from_str(alloc, find_argument_at(words, 4)) else {
        return Ending::NoMemory;
    };
    sync_texts(alloc, world, &host, port, &token, &name, out)
}

// Brings the cache of a file up to date, and writes what it has.
fn sync_texts<C: ClientWorld, O: Sink>(
    alloc: Global,
    world: &mut C,
    host: &Text,
    port: u16,
    token: &Text,
    name: &Text,
    out: &mut O,
) -> Ending
    ensures { HasSyncedFile (client_sight_of C.Talk.told C.Talk.faults C.Store.kept
        C.Store.load_faults C.Store.save_faults) host.now port token.now name.now (client_seen
        C.told C.faults C.talk_faults C.store_faults world.old world.new) (O.held out.old)
        (O.held out.new) (O.faults out.old) (O.faults out.new) result }
{
    find_client_ending(alloc, sync_file(alloc, world, host, port, token, name, out))
}

/// Writes a list of the cache of a file. The file and the list are the second and the third
/// argument.
pub(crate) fn show_words<C: ClientWorld, O: Sink>(
    alloc: Global,
    world: &mut C,
    words: &[String],
    out: &mut O,
) -> Ending
    requires { 2 < length words.now }
    ensures { HasShownFile (client_sight_of C.Talk.told C.Talk.faults C.Store.kept
        C.Store.load_faults C.Store.save_faults) (slice_index_or (map string_bytes words.now) 1 [])
        (slice_index_or (map string_bytes words.now) 2 []) (client_seen C.told C.faults
        C.talk_faults C.store_faults world.old world.new) (O.held out.old) (O.held out.new)
        (O.faults out.old) (O.faults out.new) result }
{
    let Ok(name) = Text::from_str(alloc, find_argument_at(words, 1)) else {
        return Ending::NoMemory;
    };
    let Ok(list) = Text::from_str(alloc, find_argument_at(words, 2)) else {
        return Ending::NoMemory;
    };
    show_texts(alloc, world, &name, &list, out)
}

// Writes a list of the cache of a file.
fn show_texts<C: ClientWorld, O: Sink>(
    alloc: Global,
    world: &mut C,
    name: &Text,
    list: &Text,
    out: &mut O,
) -> Ending
    ensures { HasShownFile (client_sight_of C.Talk.told C.Talk.faults C.Store.kept
        C.Store.load_faults C.Store.save_faults) name.now list.now (client_seen C.told C.faults
        C.talk_faults C.store_faults world.old world.new) (O.held out.old) (O.held out.new)
        (O.faults out.old) (O.faults out.new) result }
{
    find_client_ending(alloc, show_file(alloc, world, name, list, out))
}

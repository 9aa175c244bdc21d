// The command `serve`: how a run of it ends.
ghost use Rattle.std.specs.Prelude.{◌≡◌, ◌≤◌, ◌<◌, [], IfOk, length, map, slice_index_or, string_bytes};
ghost use Rattle.jmap_server.specs.Lines.{sight_of};
ghost use Rattle.jmap_commands.specs.Endings.{Written};
ghost use Rattle.jmap_commands.specs.declared.arguments.TheConstants.{MAX_CONNECTIONS as TheMaxConnections};
ghost use Rattle.jmap_commands.specs.Run.{served_text};
ghost use Rattle.jmap_commands.specs.Serving.{HasServed, IsFaultEnding, WritesServed, bad_config_text, damaged_text};
ghost use Rattle.jmap_commands.specs.Worlds.{server_seen};

use crate::ending::Ending;
use account_book::Reason;
use jm_base::{NoMemory, Text};
use jm_edge::{Sink, put_all};
use jmap_server::{RulesSource, ServeFault, World, serve};
use mail_calls::MailRules;
use std::alloc::Global;
use std::sync::Wait;
use std::thread::Threads;

/// The rules of mail, for each account.
#[derive(Drop)]
pub struct MailRulesSource;

impl RulesSource for MailRulesSource {
    type Rules = MailRules;

    ghost rules = { λ _. record {} };

    fn rules(&self) -> MailRules {
        MailRules
    }
}

// Returns the line that says which row of an account is damaged, and why.
fn build_damaged_line(alloc: Global, row: u64, reason: Reason) -> Result<Text, NoMemory>
    ensures { IfOk result (λ line. line ≡ damaged_text row reason) }
{
    let line = match reason {
        Reason::NotACommit(place) => {
            format!(in alloc; "damaged: row {row}, not a commit at {place}\n")?
        }
        Reason::DoesNotFit => format!(in alloc; "damaged: row {row}, does not fit\n")?,
        Reason::NotWhole => format!(in alloc; "damaged: row {row}, not whole\n")?,
    };
    Ok(Text::from_string(line))
}

// Returns the line that says which place of the configuration is bad.
fn build_bad_config_line(alloc: Global, place: &str) -> Result<Text, NoMemory>
    ensures { IfOk result (λ line. line ≡ bad_config_text place.now) }
{
    Ok(Text::from_string(format!(in alloc; "bad config: {place}\n")?))
}

// Returns the line that says how many connections were served.
fn build_served_line(alloc: Global, count: u64) -> Result<Text, NoMemory>
    ensures { IfOk result (λ line. line ≡ served_text count) }
{
    Ok(Text::from_string(format!(in alloc; "served {count}\n")?))
}

// Returns how a run ends whose server ended with this fault.
fn find_serve_ending(alloc: Global, fault: ServeFault) -> Ending
    ensures { IsFaultEnding fault result }
{
    match fault {
        ServeFault::BadConfig(place) => match build_bad_config_line(alloc, place.as_str()) {
            Ok(line) => Ending::BadConfig(line),
            Err(_) => Ending::NoMemory,
        },
        ServeFault::KeeperFault => Ending::KeeperFault,
        ServeFault::Damaged { row, reason } => match build_damaged_line(alloc, row, reason) {
            Ok(line) => Ending::Damaged(line),
            Err(_) => Ending::NoMemory,
        },
        ServeFault::DeskFault => Ending::DeskFault,
        ServeFault::NoMemory => Ending::NoMemory,
    }
}

// Writes that all connections were served.
fn say_served<O: Sink>(alloc: Global, count: u64, out: &mut O) -> Ending
    ensures { Written result (O.held out.old) (O.held out.new) (O.faults out.old)
        (O.faults out.new) (served_text count) }
{
    match build_served_line(alloc, count) {
        Ok(line) => match put_all(out, line.as_str().as_bytes()) {
            Ok(()) => Ending::Done,
            Err(_) => Ending::WriteFault,
        },
        Err(_) => Ending::NoMemory,
    }
}

// Serves so many connections of a port, and writes how many.
fn serve_texts<H: Threads + Wait + Sync, W: World, F: RulesSource, O: Sink>(
    rt: &H,
    alloc: Global,
    world: &mut W,
    rules: &F,
    config: &Text,
    folder: &Text,
    port: u16,
    count: u64,
    out: &mut O,
) -> Ending
    requires { count ≤ TheMaxConnections }
    ensures served { HasServed (sight_of W.Line.left W.Line.held W.Line.read_faults
        W.Line.put_faults W.Time.times W.Keep.kept W.Keep.append_faults) F.Rules.plan_of
        (F.Rules.is_whole (F.rules rules.now)) config.now folder.now port count (server_seen
        W.told W.faults W.load_faults world.old world.new) result }
    ensures written { WritesServed result count (O.held out.old) (O.held out.new)
        (O.faults out.old) (O.faults out.new) }
{
    match serve(rt, alloc, world, rules, config, folder, port, count) {
        Ok(()) => say_served(alloc, count, out),
        Err(fault) => find_serve_ending(alloc, fault),
    }
}

/// Serves so many connections of a port, and writes how many. The configuration and the folder are
/// the second and the third argument.
pub(crate) fn serve_words<H: Threads + Wait + Sync, W: World, F: RulesSource, O: Sink>(
    rt: &H,
    alloc: Global,
    world: &mut W,
    rules: &F,
    words: &[String],
    port: u16,
    count: u64,
    out: &mut O,
) -> Ending
    requires words { 2 < length words.now }
    requires count { count ≤ TheMaxConnections }
    ensures served { HasServed (sight_of W.Line.left W.Line.held W.Line.read_faults
        W.Line.put_faults W.Time.times W.Keep.kept W.Keep.append_faults) F.Rules.plan_of
        (F.Rules.is_whole (F.rules rules.now)) (slice_index_or (map string_bytes words.now) 1 [])
        (slice_index_or (map string_bytes words.now) 2 []) port count (server_seen W.told W.faults
        W.load_faults world.old world.new) result }
    ensures written { WritesServed result count (O.held out.old) (O.held out.new)
        (O.faults out.old) (O.faults out.new) }
{
    let Ok(config) = Text::from_str(alloc, find_argument_at(words, 1)) else {
        return Ending::NoMemory;
    };
    let Ok(folder) = Text::from_str(alloc, find_argument_at(words, 2)) else {
        return Ending::NoMemory;
    };
    serve_texts(rt, alloc, world, rules, &config, &folder, port, count, out)
}

/// Lends the argument at an index.
pub(crate) fn find_argument_at(words: &[String], place: usize) -> &str
    requires { place < length words.now }
    ensures { result.now ≡ slice_index_or (map string_bytes words.now) place [] }
{
    words[place].as_str()
}

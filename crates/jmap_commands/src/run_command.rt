// The top call: all that the program does.
ghost use Rattle.std.specs.Prelude.{◌≡◌, ◌↔◌, ℕ, IfOk, None, Some, map, string_bytes};
ghost use Rattle.mail_records.specs.Histories.{empty_history};
ghost use Rattle.account_hall.specs.Halls.{AreOf};
ghost use Rattle.jmap_commands.specs.OneSession.{HasOneIn, IsFirst};
ghost use Rattle.jmap_commands.specs.OneUser.{the_users};
ghost use Rattle.jmap_commands.specs.Arguments.{command_of};
ghost use Rattle.batch_lines.specs.Input.{seen};
ghost use Rattle.jmap_commands.specs.Run.{HasBegun, HasAnsweredBy, HasAnsweredBeforeFaultBy, HasAnsweredBeforeLimitBy, HasBegunBy};
ghost use Rattle.jmap_server.specs.Lines.{sight_of};
ghost use Rattle.jmap_commands.specs.Serving.{is_mail, mail_plan};
ghost use Rattle.jmap_commands.specs.Status.{WritesOrFails, status_of, text_of};
ghost use Rattle.jmap_commands.specs.Uses.{HasCauses, HasUsed};
ghost use Rattle.jmap_commands.specs.Worlds.{client_seen, server_seen};
ghost use Rattle.jmap_client.specs.ClientSights.{client_sight_of};
ghost use Rattle.jmap_commands.specs.Endings.{Explains, ExplainsBy, ending_of};
ghost use Rattle.jmap_commands.specs.declared.ending.Ending.{Ending as TheEnding};

use crate::arguments::Command;
use crate::ending::{Ending, Status};
use crate::memory_book::{UnfailingKeeper, begin_book};
use crate::one_session::{answer_alone, open_hall};
use crate::one_user::build_users;
use crate::read::read_message;
use crate::serving::{MailRulesSource, serve_words};
use crate::syncing::{show_words, sync_words};
use crate::worlds::Worlds;
use account_hall::{Front, Hall, Passes};
use batch_lines::LinesFault;
use jm_base::{NoMemory, Text};
use jm_edge::{Sink, Source};
use jmap_client::ClientWorld;
use jmap_server::{RulesSource, World};
use mail_calls::MailRules;
use server_users::Users;
use std::alloc::Global;
use std::sync::Wait;
use std::thread::Threads;

/// Does what the arguments of the command line say, over a source, an output, an error output and
/// two worlds, and returns the exit status of the process.
pub fn run<S: Source, O: Sink, E: Sink, W: World, C: ClientWorld>(
    rt: &(impl Threads + Wait + Sync),
    alloc: Global,
    words: &[String],
    source: &mut S,
    out: &mut O,
    err: &mut E,
    worlds: &mut Worlds<W, C>,
) -> Status
    // With status 0 the input was read to its end, and all that the command writes for it is
    // written.
    ensures done { result.0 ≡ 0 → HasAnsweredBy (command_of (map string_bytes words.now))
        (seen S.left S.faults source.old source.new O.held O.faults out.old out.new) }

    // With every status, a prefix of that is written; if the arguments name no command, nothing is
    // read.
    ensures begun { HasBegunBy (command_of (map string_bytes words.now))
        (seen S.left S.faults source.old source.new O.held O.faults out.old out.new) }

    // With statuses 3 and 14 each reply is written to a line that ended before the fault, or within
    // the limit of the input. `sync` wrote nothing then.
    ensures fault { result.0 ≡ 3
        → HasAnsweredBeforeFaultBy (command_of (map string_bytes words.now))
        (seen S.left S.faults source.old source.new O.held O.faults out.old out.new) }
    ensures limit { result.0 ≡ 14
        → HasAnsweredBeforeLimitBy (command_of (map string_bytes words.now))
        (seen S.left S.faults source.old source.new O.held O.faults out.old out.new) }

    // Status 2 comes if and only if the arguments name no command.
    ensures usage { (result.0 ≡ 2) ↔ (command_of (map string_bytes words.now) ≡ None) }

    // The statuses 3, 4, 6, 10, 11 and 13 come only if a count of such faults rose in this run.
    ensures causes { HasCauses (command_of (map string_bytes words.now)) result.0
        (server_seen W.told W.faults W.load_faults worlds.old.server worlds.new.server)
        (client_seen C.told C.faults C.talk_faults C.store_faults worlds.old.client
        worlds.new.client)
        (seen S.left S.faults source.old source.new O.held O.faults out.old out.new) }

    // The status and the text on the error output are those of an end, as far as that text can be
    // written, and the end is one of the command. With it `serve` served each line, and each line
    // and each keeper that was given came back; `sync` brought the cache of its shelf up to date by
    // what its exchange answered, and `show` read that of its shelf, they printed what is said of
    // it, and what they were given came back. Each other world was left alone.
    ensures used { (e : TheEnding) × (result.0 ≡ status_of e) × WritesOrFails (E.held err.old)
        (E.held err.new) (E.faults err.old) (E.faults err.new) (text_of e)
        × ExplainsBy (command_of (map string_bytes words.now)) e
        (seen S.left S.faults source.old source.new O.held O.faults out.old out.new)
        × HasUsed (sight_of W.Line.left W.Line.held W.Line.read_faults W.Line.put_faults
        W.Time.times W.Keep.kept W.Keep.append_faults) mail_plan is_mail
        (client_sight_of C.Talk.told C.Talk.faults C.Store.kept C.Store.load_faults
        C.Store.save_faults)
        (command_of (map string_bytes words.now)) (map string_bytes words.now)
        (server_seen W.told W.faults W.load_faults worlds.old.server worlds.new.server)
        (client_seen C.told C.faults C.talk_faults C.store_faults worlds.old.client
        worlds.new.client)
        (seen S.left S.faults source.old source.new O.held O.faults out.old out.new) e }
{
    perform(
        rt,
        alloc,
        words,
        source,
        out,
        &mut worlds.server,
        &mut worlds.client,
        &MailRulesSource,
    )
    .say(err)
}

// Does what the arguments say.
fn perform<H, S, O, W, C, F>(
    rt: &H,
    alloc: Global,
    words: &[String],
    source: &mut S,
    out: &mut O,
    server: &mut W,
    client: &mut C,
    rules: &F,
) -> Ending
where
    H: Threads + Wait + Sync,
    S: Source,
    O: Sink,
    W: World,
    C: ClientWorld,
    F: RulesSource,
    ensures cause { ExplainsBy (command_of (map string_bytes words.now)) result
        (seen S.left S.faults source.old source.new O.held O.faults out.old out.new) }
    ensures begun { HasBegunBy (command_of (map string_bytes words.now))
        (seen S.left S.faults source.old source.new O.held O.faults out.old out.new) }
    ensures used { HasUsed (sight_of W.Line.left W.Line.held W.Line.read_faults W.Line.put_faults
        W.Time.times W.Keep.kept W.Keep.append_faults) F.Rules.plan_of (F.Rules.is_whole (F.rules
        rules.now)) (client_sight_of C.Talk.told C.Talk.faults C.Store.kept C.Store.load_faults
        C.Store.save_faults) (command_of (map string_bytes words.now)) (map string_bytes words.now)
        (server_seen W.told W.faults W.load_faults server.old server.new)
        (client_seen C.told C.faults C.talk_faults C.store_faults client.old client.new)
        (seen S.left S.faults source.old source.new O.held O.faults out.old out.new) result }
{
    match Command::of_arguments(words) {
        Some(command) => {
            perform_command(
                rt, alloc, command, words, source, out, server, client, rules,
            )
        }
        None => Ending::Usage,
    }
}

fn perform_command<H, S, O, W, C, F>(
    rt: &H,
    alloc: Global,
    command: Command,
    words: &[String],
    source: &mut S,
    out: &mut O,
    server: &mut W,
    client: &mut C,
    rules: &F,
) -> Ending
where
    H: Threads + Wait + Sync,
    S: Source,
    O: Sink,
    W: World,
    C: ClientWorld,
    F: RulesSource,
    requires { command_of (map string_bytes words.now) ≡ Some command }
    ensures cause { Explains command result
        (seen S.left S.faults source.old source.new O.held O.faults out.old out.new) }
    ensures begun { HasBegun command
        (seen S.left S.faults source.old source.new O.held O.faults out.old out.new) }
    ensures used { HasUsed (sight_of W.Line.left W.Line.held W.Line.read_faults W.Line.put_faults
        W.Time.times W.Keep.kept W.Keep.append_faults) F.Rules.plan_of (F.Rules.is_whole (F.rules
        rules.now)) (client_sight_of C.Talk.told C.Talk.faults C.Store.kept C.Store.load_faults
        C.Store.save_faults) (Some command) (map string_bytes words.now)
        (server_seen W.told W.faults W.load_faults server.old server.new)
        (client_seen C.told C.faults C.talk_faults C.store_faults client.old client.new)
        (seen S.left S.faults source.old source.new O.held O.faults out.old out.new) result }
{
    match command {
        Command::Batch => answer_batch(rt, alloc, source, out),
        Command::Read => read_message(alloc, source, out),
        Command::Serve { port, count } => {
            serve_words(rt, alloc, server, rules, words, port, count, out)
        }
        Command::Sync { port } => sync_words(alloc, client, words, port, out),
        Command::Show => show_words(alloc, client, words, out),
    }
}

// Opens a hall of the one account, in which there is nothing yet, for the one user, and lets the
// one session in.
fn open_batch(
    alloc: Global,
) -> Result<(Users, Hall<UnfailingKeeper, MailRules>, Front, Passes), NoMemory>
    ensures users { IfOk result (λ r. r.0 ≡ the_users) }
    ensures one { IfOk result (λ r. HasOneIn r.1 r.2) }
    ensures first { IfOk result (λ r. (before : ℕ) × IsFirst before empty_history r.3) }
    ensures front { IfOk result (λ r. AreOf r.1 r.2.roots) }
    ensures session { IfOk result (λ r. AreOf r.1 r.3.passes) }
{
    let users = build_users(alloc)?;
    let name = Text::from_str(alloc, "A1")?;
    let book = begin_book(alloc, MailRules)?;
    match open_hall(alloc, name, book) {
        Ok((hall, front, passes)) => Ok((users, hall, front, passes)),
        Err(refused) => Err(refused),
    }
}

// Answers the lines of the input over a hall of one account in which there is nothing yet, with the
// one session that is let in.
fn answer_batch<W: Wait, S: Source, O: Sink>(
    rt: &W,
    alloc: Global,
    source: &mut S,
    out: &mut O,
) -> Ending
    ensures cause { Explains Command.Batch result
        (seen S.left S.faults source.old source.new O.held O.faults out.old out.new) }
    ensures begun { HasBegun Command.Batch
        (seen S.left S.faults source.old source.new O.held O.faults out.old out.new) }
{
    match open_batch(alloc) {
        Ok((users, hall, front, passes)) => find_batch_ending(answer_alone(
            rt, alloc, &users, hall, front, passes, source, out,
        )),
        Err(_) => Ending::NoMemory,
    }
}

// Returns how a run ends whose lines were answered so.
fn find_batch_ending(answered: Result<(), LinesFault>) -> Ending
    ensures { result ≡ ending_of answered }
{
    match answered {
        Ok(()) => Ending::Done,
        Err(LinesFault::ReadFault) => Ending::ReadFault,
        Err(LinesFault::WriteFault) => Ending::WriteFault,
        Err(LinesFault::NoMemory) => Ending::NoMemory,
        Err(LinesFault::TooLong) => Ending::TooLong,
    }
}

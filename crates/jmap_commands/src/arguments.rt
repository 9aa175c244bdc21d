// The arguments of a command line.
ghost use Rattle.std.specs.Prelude.{◌≡◌, ◌≤◌, IfSome, map, string_bytes};
ghost use Rattle.jmap_commands.specs.Arguments.{command_named, command_of, number_in, serving, serving_or_syncing, showing, syncing};

use crate::addresses::{is_host, is_token};
use jm_base::read_state;

/// The greatest number of a port of TCP.
const MAX_PORT: u64 = 65535;

/// The most connections of a run of `serve`.
const MAX_CONNECTIONS: u64 = 1000000;

/// What the program may be told to do.
#[derive(Clone, Copy, Debug, PartialEq, Eq)]
pub enum Command {
    /// Answer the lines of the input.
    Batch,
    /// Show the message of the input.
    Read,
    /// Serve so many connections of a port. The arguments before these are the configuration and
    /// the folder.
    Serve { port: u16, count: u64 },
    /// Bring a cache up to date by what a server on this port answers. The arguments before the
    /// port are the command's name and the host, those after it the token and the cache's file.
    Sync { port: u16 },
    /// Show a list of a cache. The arguments are the cache's file and the list's name.
    Show,
}

impl Command {
    /// Returns the command that the arguments of a command line name, or None if they name none.
    pub(crate) fn of_arguments(words: &[String]) -> Option<Command>
        ensures { result ≡ command_of (map string_bytes words.now) }
    {
        match words {
            [word] => Command::find_by_name(word.as_str()),
            [word, _, _] => Command::showing(word.as_str()),
            [word, first, second, third, fourth] => Command::serving_or_syncing(
                word.as_str(),
                first.as_str(),
                second.as_str(),
                third.as_str(),
                fourth.as_str(),
            ),
            _ => None,
        }
    }

    fn find_by_name(word: &str) -> Option<Command>
        ensures { result ≡ command_named word.now }
    {
        if word == "batch" {
            return Some(Command::Batch);
        }
        if word == "read" {
            return Some(Command::Read);
        }
        None
    }

    fn showing(word: &str) -> Option<Command>
        ensures { result ≡ showing word.now }
    {
        if word == "show" {
            return Some(Command::Show);
        }
        None
    }

    // Two commands have four arguments after their name.
    fn serving_or_syncing(
        word: &str,
        first: &str,
        second: &str,
        third: &str,
        fourth: &str,
    ) -> Option<Command>
        ensures { result ≡ serving_or_syncing word.now first.now second.now third.now fourth.now }
    {
        match Command::serving(word, third, fourth) {
            Some(command) => Some(command),
            None => Command::syncing(word, first, second, third),
        }
    }

    fn syncing(word: &str, host: &str, port: &str, token: &str) -> Option<Command>
        ensures { result ≡ syncing word.now host.now port.now token.now }
    {
        if word == "sync" && is_host(host) && is_token(token) {
            return match read_number(port, MAX_PORT) {
                Some(port) => Some(Command::Sync { port: port as u16 }),
                None => None,
            };
        }
        None
    }

    fn serving(word: &str, port: &str, count: &str) -> Option<Command>
        ensures { result ≡ serving word.now port.now count.now }
    {
        if word != "serve" {
            return None;
        }
        match (
            read_number(port, MAX_PORT),
            read_number(count, MAX_CONNECTIONS),
        ) {
            (Some(port), Some(count)) => Some(Command::Serve {
                port: port as u16,
                count,
            }),
            _ => None,
        }
    }
}

// Returns the number from 1 to the greatest one that an argument is in decimal, without a leading
// zero.
#[tactic(auto, using(crate::proofs::Numbers::number_low, crate::proofs::Numbers::number_high, crate::proofs::Numbers::number_some, crate::proofs::Numbers::number_unread))]
fn read_number(word: &str, most: u64) -> Option<u64>
    requires { most ≤ MAX_CONNECTIONS }
    ensures number { result ≡ number_in most word.now }
    ensures small { IfSome result (λ n. n ≤ most) }
{
    match read_state(word.as_bytes()) {
        Ok(number) => {
            if number < 1 {
                return None;
            }
            if number > most {
                return None;
            }
            Some(number)
        }
        Err(_) => None,
    }
}

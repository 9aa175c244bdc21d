//! The program `jmap`: a JMAP mail server and a synchronising client. It does what `run` of
//! jmap_commands does, over standard input, the two outputs and two worlds of the host.
#![tactic(auto)]

use host_edges::{Reading, Writing};
use host_world::{HostFiles, HostWorld, MakesKeepers};
use jm_edge::{Sink, Source};
use jmap_commands::{Ending, Status, Worlds, run};
use std::process::ExitCode;
use std::sync::Wait;
use std::thread::Threads;
use std::{env, io};

fn main(rt: HostRuntime) -> ExitCode {
    let mut err = Writing::new(rt.stderr());
    match collect_arguments(&rt) {
        Ok(words) => {
            let mut source = Reading::new(rt.stdin());
            let mut out = Writing::new(rt.stdout());
            let status = run_on_host(
                &rt,
                &rt,
                words.as_slice(),
                &mut source,
                &mut out,
                &mut err,
                HostFiles { rt },
                HostFiles { rt },
                wants_log(&rt),
            );
            status.build_exit_code()
        }
        Err(refused) => refused.say(&mut err).build_exit_code(),
    }
}

// Returns whether the environment variable JMAP_LOG is set.
fn wants_log(rt: &(impl env::Env + AllocGlobal)) -> bool {
    !matches!(env::var(rt, "JMAP_LOG"), Err(env::VarError::NotPresent))
}

// Returns whether the arguments are those of a command that writes the file of a cache.
fn writes_cache(words: &[String]) -> bool {
    match words {
        [word, ..] => word.as_str() == "sync",
        [] => false,
    }
}

// Does what the arguments say, over the worlds of the host. The two first arguments are the same.
fn run_on_host<S: Source, O: Sink, E: Sink, M: MakesKeepers>(
    rt: &(impl Threads + Wait + Sync),
    host: &HostRuntime,
    words: &[String],
    source: &mut S,
    out: &mut O,
    err: &mut E,
    server_files: M,
    client_files: M,
    logs: bool,
) -> Status {
    let mut client = HostWorld::new(host, client_files, logs);
    client.set_writes(writes_cache(words));
    let mut worlds = Worlds {
        server: HostWorld::new(host, server_files, logs),
        client,
    };
    run(rt, host.alloc(), words, source, out, err, &mut worlds)
}

// Returns the arguments after the program's name. Arguments that are not UTF-8 name no command.
fn collect_arguments(rt: &(impl env::Env + AllocGlobal)) -> Result<Vec<String>, Ending> {
    let all = match env::args(rt) {
        Ok(all) => all,
        Err(refused) => {
            return if refused.kind() == io::ErrorKind::OutOfMemory {
                Err(Ending::NoMemory)
            } else {
                Err(Ending::Usage)
            };
        }
    };
    let mut words = Vec::new(rt.alloc());
    for word in all.skip(1) {
        if words.push(word).is_err() {
            return Err(Ending::NoMemory);
        }
    }
    Ok(words)
}

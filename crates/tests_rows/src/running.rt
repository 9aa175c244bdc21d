// Runs of the program.
use crate::fails::{Fails, NO_FAILS, list_call};
use crate::kept_rows::KeptRow;
use crate::no_client::NoClient;
use crate::requests::Kind;
use crate::rows::Row;
use crate::world::{Input, NOTHING, RowWorld, Setting, build_source};
use jm_base::{Bytes, NoMemory};
use jm_edge::{MemorySink, MemorySource};
use jmap_commands::{Worlds, run};
use jmap_server::World;
use std::alloc::Global;
use std::sync::Wait;
use std::thread::Threads;

/// What a run left: its status, its output, its error output, what was written to its connection,
/// and what the keepers of its accounts hold.
#[derive(Drop)]
pub(crate) struct Ran {
    pub(crate) status: u8,
    pub(crate) out: Bytes,
    pub(crate) error: Bytes,
    pub(crate) written: Bytes,
    pub(crate) left: Vec<KeptRow>,
}

// Returns the words between the blanks of a command line.
fn split_words(alloc: Global, arguments: &str) -> Result<Vec<String>, NoMemory> {
    let mut words = Vec::new(alloc);
    for word in arguments.split(' ') {
        words.push(String::from_str(alloc, word)?)?;
    }
    Ok(words)
}

// Runs the program with these words. Returns its status.
fn run_words<W: World>(
    rt: &(impl Threads + Wait + Sync),
    alloc: Global,
    words: &[String],
    mut source: MemorySource,
    out: &mut MemorySink,
    error: &mut MemorySink,
    worlds: &mut Worlds<W, NoClient>,
) -> u8 {
    let status = run(rt, alloc, words, &mut source, out, error, worlds);
    status.0
}

// Runs the program over a source and a world. What the world was given is not here.
fn run_over<W: World>(
    rt: &(impl Threads + Wait + Sync),
    alloc: Global,
    arguments: &str,
    source: MemorySource,
    mut out: MemorySink,
    fails: Fails,
    worlds: &mut Worlds<W, NoClient>,
) -> Result<Ran, NoMemory> {
    let words = split_words(alloc, arguments)?;
    let mut error = MemorySink::build_failing(alloc, list_call(alloc, fails.error)?);
    let status = run_words(
        rt,
        alloc,
        words.as_slice(),
        source,
        &mut out,
        &mut error,
        worlds,
    );
    Ok(Ran {
        status,
        out: Bytes::from_slice(alloc, out.bytes())?,
        error: Bytes::from_slice(alloc, error.bytes())?,
        written: Bytes::new(alloc),
        left: Vec::new(alloc),
    })
}

/// Runs a command over this input.
pub(crate) fn run_lines(
    rt: &(impl Threads + Wait + Sync),
    alloc: Global,
    arguments: &str,
    input: Input<'_>,
    fails: Fails,
) -> Result<Ran, NoMemory> {
    let nothing = Setting {
        config: b"",
        clock: 0,
        kept: &[],
        input: NOTHING,
        fails: NO_FAILS,
    };
    let mut worlds = Worlds {
        server: RowWorld::new(alloc, nothing),
        client: NoClient,
    };
    let source = build_source(alloc, input, fails.read)?;
    let out = MemorySink::build_failing(alloc, list_call(alloc, fails.write)?);
    run_over(rt, alloc, arguments, source, out, fails, &mut worlds)
}

// Runs a command over a world of this setting.
fn run_connection(
    rt: &(impl Threads + Wait + Sync),
    alloc: Global,
    arguments: &str,
    setting: Setting<'_>,
) -> Result<Ran, NoMemory> {
    let fails = setting.fails;
    let mut worlds = Worlds {
        server: RowWorld::new(alloc, setting),
        client: NoClient,
    };
    let source = build_source(alloc, NOTHING, 0)?;
    let out = MemorySink::build_failing(alloc, list_call(alloc, fails.out)?);
    let mut ran = run_over(rt, alloc, arguments, source, out, fails, &mut worlds)?;
    let Worlds { server, client: _ } = worlds;
    let (written, left) = server.into_parts();
    ran.written = written;
    ran.left = left;
    Ok(ran)
}

/// Runs a row over this input.
pub(crate) fn run_row(
    rt: &(impl Threads + Wait + Sync),
    alloc: Global,
    row: &Row<'_>,
    arguments: &str,
    input: Input<'_>,
) -> Result<Ran, NoMemory> {
    let fails = row.options.fails;
    match row.kind {
        Kind::Lines => run_lines(rt, alloc, arguments, input, fails),
        Kind::Connection => run_connection(
            rt,
            alloc,
            arguments,
            Setting {
                config: row.options.config.as_slice(),
                clock: row.options.clock,
                kept: row.options.kept.as_slice(),
                input,
                fails,
            },
        ),
    }
}

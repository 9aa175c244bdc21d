// A run of the program over a world.
use jm_base::Bytes;
use jm_edge::{MemorySink, MemorySource};
use jmap_client::ClientWorld;
use jmap_commands::{Status, Worlds, run};
use jmap_server::World;
use std::alloc::Global;
use std::sync::Wait;
use std::test::Fail;
use std::thread::Threads;

// What a run left: its status, its output and its error output.
#[derive(Drop)]
pub(crate) struct Ran {
    pub(crate) status: Status,
    pub(crate) out: Bytes,
    pub(crate) err: Bytes,
}

// Runs the program over two worlds, with nothing on the input.
pub(crate) fn run_over<W: World, C: ClientWorld>(
    rt: &(impl Threads + Wait + Sync),
    alloc: Global,
    arguments: &str,
    worlds: &mut Worlds<W, C>,
) -> Result<Ran, Fail> {
    let mut words = Vec::new(alloc);
    for word in arguments.split(' ') {
        words.push(String::from_str(alloc, word)?)?;
    }
    let mut source = MemorySource::new(alloc, Vec::new(alloc));
    let mut out = MemorySink::new(alloc);
    let mut err = MemorySink::new(alloc);
    let status = run(
        rt,
        alloc,
        words.as_slice(),
        &mut source,
        &mut out,
        &mut err,
        worlds,
    );
    Ok(Ran {
        status,
        out: Bytes::from_slice(alloc, out.bytes())?,
        err: Bytes::from_slice(alloc, err.bytes())?,
    })
}

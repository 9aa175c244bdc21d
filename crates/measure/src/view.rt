// The JSON view of each message of a folder.
use crate::timing::{nanos_since, no_memory};
use get_args::{Wanted, build_wanted_for_read};
use jm_base::{Bytes, NoMemory};
use jm_json::write_after;
use mail_view::view;
use std::alloc::Global;
use std::time::Instant;
use std::{fs, io};

// How many messages there were, and how many bytes the JSON of their views has.
#[derive(Clone, Copy, Debug)]
struct Shown {
    messages: u64,
    bytes: u64,
}

// Returns the JSON of the view of a message.
fn write_view(alloc: Global, message: &[u8], wanted: &Wanted) -> Result<Bytes, NoMemory> {
    let tree = view(alloc, message, b"b1", None, wanted)?;
    let mut text = Bytes::new(alloc);
    write_after(alloc, &mut text, &tree)?;
    Ok(text)
}

fn show_all(rt: &HostRuntime, folder: &str, wanted: &Wanted) -> io::Result<Shown> {
    let mut messages = 0u64;
    let mut bytes = 0u64;
    for entry in fs::read_dir(rt, folder)? {
        let entry = entry?;
        let message = fs::read(rt, entry.path())?;
        let text = write_view(rt.alloc(), &message, wanted).map_err(|_| no_memory())?;
        messages = messages.saturating_add(1);
        bytes = bytes.saturating_add(text.len() as u64);
    }
    Ok(Shown { messages, bytes })
}

/// Measures the view that `jmap read` prints, for each message of a folder. The counts go to
/// standard output, the time to the error output.
pub(crate) fn measure_view(rt: &HostRuntime, folder: &str) -> io::Result<()> {
    let wanted = build_wanted_for_read(rt.alloc()).map_err(|_| no_memory())?;
    let start = Instant::now(rt)?;
    let Shown { messages, bytes } = show_all(rt, folder, &wanted)?;
    let nanos = nanos_since(rt, start)?;
    println!(rt; "view: {messages} messages, {bytes} bytes")?;
    eprintln!(rt; "view: {nanos} ns")
}

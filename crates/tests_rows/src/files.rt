// The files of the folder that the program runs in.
use crate::check::check_rows;
use crate::messages::check_message;
use crate::report::{Place, say};
use crate::requests::Kind;
use jm_base::Bytes;
use std::sync::Wait;
use std::thread::Threads;
use std::{fs, io};

// What runs the files of a folder.
#[derive(Clone, Copy, Debug, PartialEq, Eq)]
enum Folder {
    Rows(Kind),
    Messages,
}

// Returns the names in a folder, in order.
fn list_names(rt: &HostRuntime, folder: &str) -> io::Result<Vec<String>> {
    let mut names = Vec::new(rt.alloc());
    for entry in fs::read_dir(rt, folder)? {
        let entry = entry?;
        names.push(String::from_str(rt.alloc(), entry.file_name())?)?;
    }
    names.sort()?;
    Ok(names)
}

fn no_memory() -> io::Error {
    io::Error::from(io::ErrorKind::OutOfMemory)
}

// Says something of a file.
fn say_of_file(rt: &HostRuntime, path: &str, what: &str, report: &mut Bytes) -> io::Result<()> {
    let file = Place {
        file: path,
        line: 0,
        name: &[],
    };
    say(rt.alloc(), report, file, what).map_err(|_| no_memory())
}

// Returns the bytes of a file. Where it can't be read it says so, and returns none.
fn read_file(rt: &HostRuntime, path: &str, report: &mut Bytes) -> io::Result<Option<Vec<u8>>> {
    match fs::read(rt, path) {
        Ok(bytes) => Ok(Some(bytes)),
        Err(refused) => {
            if refused.kind() == io::ErrorKind::OutOfMemory {
                return Err(refused);
            }
            say_of_file(rt, path, "the file can't be read", report)?;
            Ok(None)
        }
    }
}

// Runs the rows of a file. Returns how many are as wanted.
fn run_rows(
    threads: &(impl Threads + Wait + Sync),
    rt: &HostRuntime,
    kind: Kind,
    path: &str,
    report: &mut Bytes,
) -> io::Result<u64> {
    let Some(bytes) = read_file(rt, path, report)? else {
        return Ok(0);
    };
    let file = Place {
        file: path,
        line: 0,
        name: &[],
    };
    check_rows(threads, rt.alloc(), kind, bytes.as_slice(), file, report).map_err(|_| no_memory())
}

// Shows the message of a file, whose JSON is in the file of the other path. Returns 1 if it is as
// wanted, and else 0.
fn run_message(
    threads: &(impl Threads + Wait + Sync),
    rt: &HostRuntime,
    path: &str,
    json_path: &str,
    report: &mut Bytes,
) -> io::Result<u64> {
    let Some(message) = read_file(rt, path, report)? else {
        return Ok(0);
    };
    let Some(wanted) = read_file(rt, json_path, report)? else {
        return Ok(0);
    };
    let file = Place {
        file: path,
        line: 0,
        name: &[],
    };
    let shown = check_message(threads, rt.alloc(), &message, &wanted, file, report);
    if shown.map_err(|_| no_memory())? {
        Ok(1)
    } else {
        Ok(0)
    }
}

// Runs what a file of messages says: the message, if it is one, or that its message is there.
fn run_message_file(
    threads: &(impl Threads + Wait + Sync),
    rt: &HostRuntime,
    folder: &str,
    name: &str,
    names: &[String],
    report: &mut Bytes,
) -> io::Result<u64> {
    let path = format!(in rt.alloc(); "{folder}/{name}")?;
    if let Some(stem) = name.strip_suffix(".eml") {
        let json_path = format!(in rt.alloc(); "{folder}/{stem}.json")?;
        return run_message(threads, rt, path.as_str(), json_path.as_str(), report);
    }
    if let Some(stem) = name.strip_suffix(".json") {
        let message = format!(in rt.alloc(); "{stem}.eml")?;
        if names.contains(&message) {
            return Ok(0);
        }
    }
    say_of_file(
        rt,
        path.as_str(),
        "not a message, nor the JSON of one",
        report,
    )?;
    Ok(0)
}

// Runs a file of rows.
fn run_rows_file(
    threads: &(impl Threads + Wait + Sync),
    rt: &HostRuntime,
    kind: Kind,
    folder: &str,
    name: &str,
    report: &mut Bytes,
) -> io::Result<u64> {
    let path = format!(in rt.alloc(); "{folder}/{name}")?;
    if name.ends_with(".rows") {
        return run_rows(threads, rt, kind, path.as_str(), report);
    }
    say_of_file(rt, path.as_str(), "not a file of rows", report)?;
    Ok(0)
}

// Prints how many rows of a file are as wanted, and what is said of the others.
fn print_file(
    rt: &HostRuntime,
    folder: &str,
    name: &str,
    count: u64,
    report: &Bytes,
) -> io::Result<()> {
    if name.ends_with(".json") && report.is_empty() {
        return Ok(());
    }
    println!(rt; "{folder}/{name} {count} rows")?;
    let text = String::from_utf8_lossy(rt.alloc(), report.as_slice())?;
    print!(rt; "{text}")
}

// Runs the files of a folder. Returns how many rows are as wanted.
fn run_folder(
    threads: &(impl Threads + Wait + Sync),
    rt: &HostRuntime,
    folder: &str,
    runs: Folder,
) -> io::Result<u64> {
    let names = list_names(rt, folder)?;
    let mut total = 0u64;
    for name in names.as_slice() {
        let mut report = Bytes::new(rt.alloc());
        let count = match runs {
            Folder::Rows(kind) => run_rows_file(
                threads,
                rt,
                kind,
                folder,
                name.as_str(),
                &mut report,
            )?,
            Folder::Messages => {
                run_message_file(
                    threads,
                    rt,
                    folder,
                    name.as_str(),
                    names.as_slice(),
                    &mut report,
                )?
            }
        };
        print_file(rt, folder, name.as_str(), count, &report)?;
        total = total.saturating_add(count);
    }
    Ok(total)
}

/// Runs all files of the four folders and prints what came of them.
pub(crate) fn run_all(threads: &(impl Threads + Wait + Sync), rt: &HostRuntime) -> io::Result<()> {
    let mut total = run_folder(threads, rt, "requests", Folder::Rows(Kind::Lines))?;
    for folder in ["http", "kept"] {
        let count = run_folder(threads, rt, folder, Folder::Rows(Kind::Connection))?;
        total = total.saturating_add(count);
    }
    total = total.saturating_add(run_folder(threads, rt, "messages", Folder::Messages)?);
    println!(rt; "{total} rows in all")
}

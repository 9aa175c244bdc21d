// How many records and lists a cache has.
ghost use Rattle.std.specs.Prelude.{◌≡◌, ◌≤◌, ◌++◌, ℕ, IfErr, OnErr, OnOk, map, string_bytes, take};
ghost use Rattle.std.specs.Io.KnownBytes.{Appends};
ghost use Rattle.jm_edge.specs.Causes.{Rose};
ghost use Rattle.client_cache.specs.Views.{list_view};
ghost use Rattle.client_lines.specs.Lines.{count_line, counts_text, kind_counts, list_count, list_counts};
ghost use Rattle.client_lines.specs.Pieces.{HasBegun, HasPut};

use crate::fault::PrintFault;
use crate::pieces::{put_if_full, put_waiting};
use client_cache::{Cache, CachedList};
use jm_base::{Kind, NoMemory};
use jm_edge::Sink;
use std::alloc::Global;

// Adds the line of a count.
fn push_count(alloc: Global, lines: &mut String, name: &str, count: usize) -> Result<(), NoMemory>
    ensures { OnOk result (string_bytes lines.new
        ≡ string_bytes lines.old ++ count_line name.now count) }
{
    let line = format!(in alloc; "{name} {count}\n")?;
    lines.push_str(line.as_str())?;
    Ok(())
}

// Adds the lines of the three kinds of records.
fn push_kind_counts(alloc: Global, lines: &mut String, cache: &Cache) -> Result<(), NoMemory>
    ensures { OnOk result (string_bytes lines.new
        ≡ string_bytes lines.old ++ kind_counts cache.now) }
{
    push_count(
        alloc,
        lines,
        "mailboxes",
        cache.count_records(Kind::Mailbox),
    )?;
    push_count(alloc, lines, "threads", cache.count_records(Kind::Thread))?;
    push_count(alloc, lines, "emails", cache.count_records(Kind::Email))
}

// Adds the line of a list.
fn push_list_count(alloc: Global, lines: &mut String, list: &CachedList) -> Result<(), NoMemory>
    ensures { OnOk result (string_bytes lines.new
        ≡ string_bytes lines.old ++ list_count (list_view list.now)) }
{
    lines.push_str("list ")?;
    push_count(alloc, lines, list.name(), list.ids().len())
}

// Adds the line of a list to the lines that wait, and writes them if they are many.
fn print_list_count<O: Sink>(
    alloc: Global,
    list: &CachedList,
    waiting: &mut String,
    out: &mut O,
) -> Result<(), PrintFault>
    ensures ok { OnOk result (HasPut (string_bytes waiting.old ++ list_count (list_view list.now))
        (string_bytes waiting.new) (O.held out.old) (O.held out.new)) }
    ensures err { OnErr result (HasBegun (string_bytes waiting.old
        ++ list_count (list_view list.now)) (O.held out.old) (O.held out.new)) }
    ensures later { O.faults out.old ≤ O.faults out.new }
    ensures cause { IfErr result (λ e. e ≡ PrintFault.WriteFault → Rose (O.faults out.old)
        (O.faults out.new)) }
    ensures ok_count { OnOk result (O.faults out.new ≡ O.faults out.old) }
{
    match push_list_count(alloc, waiting, list) {
        Ok(()) => put_if_full(waiting, out),
        Err(_) => Err(PrintFault::NoMemory),
    }
}

// Writes the lines that wait, and those of the lists after them.
fn print_list_counts<O: Sink>(
    alloc: Global,
    lists: &[CachedList],
    lines: String,
    out: &mut O,
) -> Result<(), PrintFault>
    ensures ok { OnOk result (Appends (O.held out.old) (O.held out.new)
        (string_bytes lines ++ list_counts (map list_view lists.now))) }
    ensures err { OnErr result (HasBegun (string_bytes lines
        ++ list_counts (map list_view lists.now)) (O.held out.old) (O.held out.new)) }
    ensures later { O.faults out.old ≤ O.faults out.new }
    ensures cause { IfErr result (λ e. e ≡ PrintFault.WriteFault → Rose (O.faults out.old)
        (O.faults out.new)) }
    ensures ok_count { OnOk result (O.faults out.new ≡ O.faults out.old) }
{
    let mut waiting = lines;
    let mut rest = lists;
    'lists: while let Some((list, more)) = rest.split_first() {
        match print_list_count(alloc, list, &mut waiting, out) {
            Ok(()) => rest = more,
            Err(fault) => return Err(fault),
        }
    }
    put_waiting(waiting.as_str(), out)
}

/// Writes how many mailboxes, threads and emails the cache has, and how many emails each list: a
/// line for each count.
///
/// Fails with `WriteFault` if the sink fails, and with `NoMemory` if an allocation fails. Then a
/// prefix of the lines was written.
pub fn write_counts<O: Sink>(alloc: Global, cache: &Cache, out: &mut O) -> Result<(), PrintFault>
    ensures ok { OnOk result (Appends (O.held out.old) (O.held out.new) (counts_text cache.now)) }
    ensures err { OnErr result ((n : ℕ) × Appends (O.held out.old) (O.held out.new)
        (take n (counts_text cache.now))) }
    ensures later { O.faults out.old ≤ O.faults out.new }
    ensures cause { IfErr result (λ e. e ≡ PrintFault.WriteFault → Rose (O.faults out.old)
        (O.faults out.new)) }
    ensures ok_count { OnOk result (O.faults out.new ≡ O.faults out.old) }
{
    let mut lines = String::new(alloc);
    match push_kind_counts(alloc, &mut lines, cache) {
        Ok(()) => print_list_counts(alloc, cache.lists(), lines, out),
        Err(_) => Err(PrintFault::NoMemory),
    }
}

// The emails of a list, each with its subject.
ghost use Rattle.std.specs.Prelude.{◌≡◌, ◌≤◌, ◌++◌, ℕ, IfErr, OnErr, OnOk, bytes_eq, option_map, string_bytes, take};
ghost use Rattle.std.specs.Io.KnownBytes.{Appends};
ghost use Rattle.jm_edge.specs.Causes.{Rose};
ghost use Rattle.client_cache.specs.Views.{list_view};
ghost use Rattle.client_lines.specs.Lines.{email_line, list_named, list_text};
ghost use Rattle.client_lines.specs.Pieces.{HasBegun, HasPut};

use crate::fault::PrintFault;
use crate::pieces::{put_if_full, put_waiting};
use crate::subjects::push_email;
use client_cache::{Cache, CachedList};
use jm_base::{Id, Kind, NoMemory, id_text};
use jm_edge::Sink;
use std::alloc::Global;

// Returns whether a list has this name.
fn has_name(list: &CachedList, name: &str) -> bool
    ensures { result ≡ bytes_eq (list_view list.now).name name.now }
{
    list.name() == name
}

/// Lends the list of this name, or None if the cache has no such list.
pub fn find_list<'a>(cache: &'a Cache, name: &str) -> Option<&'a CachedList>
    ensures { option_map (λ l. list_view l.now) result ≡ list_named name.now cache.now.lists }
{
    let mut rest = cache.lists();
    'lists: while let Some((list, more)) = rest.split_first() {
        if has_name(list, name) {
            return Some(list);
        }
        rest = more;
    }
    None
}

// Adds the line of the email with this number.
fn push_email_line(
    alloc: Global,
    cache: &Cache,
    number: u64,
    lines: &mut String,
) -> Result<(), NoMemory>
    ensures { OnOk result (string_bytes lines.new
        ≡ string_bytes lines.old ++ email_line cache.now number) }
{
    let id = id_text(
        alloc,
        &Id {
            kind: Kind::Email,
            number,
        },
    )?;
    lines.push_str(id.as_str())?;
    lines.push_str(" ")?;
    push_email(lines, cache.find_record(Kind::Email, id.as_str()))?;
    lines.push_str("\n")?;
    Ok(())
}

// Adds the line of an email to the lines that wait, and writes them if they are many.
fn print_email<O: Sink>(
    alloc: Global,
    cache: &Cache,
    number: u64,
    waiting: &mut String,
    out: &mut O,
) -> Result<(), PrintFault>
    ensures ok { OnOk result (HasPut (string_bytes waiting.old ++ email_line cache.now number)
        (string_bytes waiting.new) (O.held out.old) (O.held out.new)) }
    ensures err { OnErr result (HasBegun (string_bytes waiting.old ++ email_line cache.now number)
        (O.held out.old) (O.held out.new)) }
    ensures later { O.faults out.old ≤ O.faults out.new }
    ensures cause { IfErr result (λ e. e ≡ PrintFault.WriteFault → Rose (O.faults out.old)
        (O.faults out.new)) }
    ensures ok_count { OnOk result (O.faults out.new ≡ O.faults out.old) }
{
    match push_email_line(alloc, cache, number, waiting) {
        Ok(()) => put_if_full(waiting, out),
        Err(_) => Err(PrintFault::NoMemory),
    }
}

/// Writes a line for each email of the list, in the order of the list: its identifier, a space and
/// its subject. A control character of a subject (Unicode's class Cc) is written as a space, and
/// for an email that isn't cached there is a question mark in place of the subject.
///
/// Fails with `WriteFault` if the sink fails, and with `NoMemory` if an allocation fails. Then a
/// prefix of the lines was written.
pub fn write_list<O: Sink>(
    alloc: Global,
    cache: &Cache,
    list: &CachedList,
    out: &mut O,
) -> Result<(), PrintFault>
    ensures ok { OnOk result (Appends (O.held out.old) (O.held out.new)
        (list_text cache.now (list_view list.now))) }
    ensures err { OnErr result ((n : ℕ) × Appends (O.held out.old) (O.held out.new)
        (take n (list_text cache.now (list_view list.now)))) }
    ensures later { O.faults out.old ≤ O.faults out.new }
    ensures cause { IfErr result (λ e. e ≡ PrintFault.WriteFault → Rose (O.faults out.old)
        (O.faults out.new)) }
    ensures ok_count { OnOk result (O.faults out.new ≡ O.faults out.old) }
{
    let mut waiting = String::new(alloc);
    let mut rest = list.ids();
    'emails: while let Some((number, more)) = rest.split_first() {
        match print_email(alloc, cache, *number, &mut waiting, out) {
            Ok(()) => rest = more,
            Err(fault) => return Err(fault),
        }
    }
    put_waiting(waiting.as_str(), out)
}

// The positions of the edits of each kind, and the thread of each edit of an email: rising lists
// with room that may be ready for more.
ghost use Rattle.std.specs.Prelude.{◌≡◌, ◌+◌, ◌-◌, ◌++◌, ◌∷◌, [], ◌≤◌, Option, OnOk, drop, if◌then◌else◌, length, take, vec_capacity, vec_len};
ghost use Rattle.std.specs.List.Sorted.{IsNonDecreasingBy};
ghost use Rattle.jm_base.specs.declared.identifiers.Kind.TheVariants.{Mailbox as OfMailbox, Email as OfEmail, Thread as OfThread};
ghost use Rattle.mail_records.specs.States.{is_kind};
ghost use Rattle.state_log.specs.Logs.{with_thread};
ghost use Rattle.state_log.specs.Positions.{AreInOrder, count_upto, last_or, places_of};

use crate::Note;
use crate::notes::is_of;
use jm_base::{Kind, NoMemory};
use std::alloc::Global;
use std::marker::Model;

/// The positions of the edits of each kind, and the thread of each edit of an email.
#[derive(Drop)]
pub(crate) struct KindPositions {
    mailboxes: Vec<u64>,
    emails: Vec<u64>,
    threads: Vec<u64>,
    email_threads: Vec<u64>,
}

impl Model for KindPositions {
    ghost use Rattle.std.specs.Prelude.{◌-◌, min, vec_len, vec_capacity};
    ghost use Rattle.state_log.specs.Positions.{Places};

    ghost Value = { Places };

    ghost view = { λ p. record {
      mailbox = p.mailboxes.items;
      email = p.emails.items;
      thread = p.threads.items;
      email_threads = p.email_threads.items;
      spare = min
          (min (vec_capacity p.mailboxes - vec_len p.mailboxes)
          (vec_capacity p.emails - vec_len p.emails))
          (min (vec_capacity p.threads - vec_len p.threads)
          (vec_capacity p.email_threads - vec_len p.email_threads));
    } };
}

// Adds a position at the end if it is wanted. Room for one is reserved.
fn push_if(positions: &mut Vec<u64>, wanted: bool, position: u64)
    requires { 1 ≤ vec_capacity positions.old - vec_len positions.old }
    ensures items { positions.new.items ≡ (if wanted then positions.old.items ++ position ∷ []
        else positions.old.items) }
    ensures room { vec_capacity positions.old - vec_len positions.old
        ≤ vec_capacity positions.new - vec_len positions.new + 1 }
{
    if !wanted {
        return;
    }
    positions.push_reserved(position);
}

// Adds a thread at the end, if there is one. Room for one is reserved.
fn push_thread(threads: &mut Vec<u64>, thread: Option<u64>)
    requires { 1 ≤ vec_capacity threads.old - vec_len threads.old }
    ensures items { threads.new.items ≡ threads.old.items ++ with_thread thread [] }
    ensures room { vec_capacity threads.old - vec_len threads.old
        ≤ vec_capacity threads.new - vec_len threads.new + 1 }
{
    if let Some(thread) = thread {
        threads.push_reserved(thread);
    }
}

/// Takes the first items of a vector out. The vector keeps its memory.
pub(crate) fn cut_front<T: Drop>(items: &mut Vec<T>, count: usize)
    requires { count ≤ vec_len items.old }
    ensures items { items.new.items ≡ drop count items.old.items }
    ensures room { vec_capacity items.old - vec_len items.old
        ≤ vec_capacity items.new - vec_len items.new }
{
    let left = items.len() - count;
    items.rotate_left(count);
    items.truncate(left);
}

// Returns how many of positions in order are at most this one.
fn count_upto(positions: &[u64], position: u64) -> usize
    requires { IsNonDecreasingBy (λ n. n) positions.now }
    ensures value { result ≡ count_upto positions.now position }
    ensures within { result ≤ length positions.now }
{
    positions.partition_point(|p| *p <= position)
}

/// Returns the last position, or a number in its place if there is none.
pub(crate) fn last_or(positions: &[u64], otherwise: u64) -> u64
    ensures { result ≡ last_or positions.now otherwise }
{
    match positions.last() {
        Some(position) => *position,
        None => otherwise,
    }
}

// Lends those numbers of a list that are at the indices of positions after one, up to another.
fn find_between<'a>(list: &'a [u64], positions: &[u64], from: u64, upto: u64) -> &'a [u64]
    requires rise { IsNonDecreasingBy (λ n. n) positions.now }
    requires same { length list.now ≡ length positions.now }
    requires order { from ≤ upto }
    ensures { result.now ≡ drop (count_upto positions.now from)
        (take (count_upto positions.now upto) list.now) }
{
    let first = count_upto(positions, from);
    let last = count_upto(positions, upto);
    &list[first..last]
}

impl KindPositions {
    /// Returns no positions. Allocates nothing.
    pub(crate) fn new(alloc: Global) -> KindPositions
        ensures mailbox { result.mailbox ≡ [] }
        ensures email { result.email ≡ [] }
        ensures thread { result.thread ≡ [] }
        ensures email_threads { result.email_threads ≡ [] }
    {
        KindPositions {
            mailboxes: Vec::new(alloc),
            emails: Vec::new(alloc),
            threads: Vec::new(alloc),
            email_threads: Vec::new(alloc),
        }
    }

    /// Lends the positions of a kind.
    pub(crate) fn of_kind(&self, kind: Kind) -> &[u64]
        ensures { result.now ≡ places_of self.now kind }
    {
        match kind {
            Kind::Mailbox => self.mailboxes.as_slice(),
            Kind::Email => self.emails.as_slice(),
            Kind::Thread => self.threads.as_slice(),
        }
    }

    /// Returns the last position of a kind up to another position, or a number in its place if
    /// there is none.
    pub(crate) fn find_last_upto(&self, kind: Kind, position: u64, otherwise: u64) -> u64
        requires { AreInOrder self.now }
        ensures { result ≡ last_or
            (take (count_upto (places_of self.now kind) position) (places_of self.now kind))
            otherwise }
    {
        let positions = self.of_kind(kind);
        let count = count_upto(positions, position);
        last_or(&positions[..count], otherwise)
    }

    /// Lends the positions of a kind after one position, up to another.
    pub(crate) fn positions_between(&self, kind: Kind, from: u64, upto: u64) -> &[u64]
        requires rise { AreInOrder self.now }
        requires order { from ≤ upto }
        ensures { result.now ≡ drop (count_upto (places_of self.now kind) from)
            (take (count_upto (places_of self.now kind) upto) (places_of self.now kind)) }
    {
        let positions = self.of_kind(kind);
        find_between(positions, positions, from, upto)
    }

    /// Lends the threads of the edits of emails after one position, up to another.
    pub(crate) fn threads_between(&self, from: u64, upto: u64) -> &[u64]
        requires rise { AreInOrder self.now }
        requires order { from ≤ upto }
        ensures { result.now ≡ drop (count_upto self.now.email from)
            (take (count_upto self.now.email upto) self.now.email_threads) }
    {
        find_between(
            self.email_threads.as_slice(),
            self.emails.as_slice(),
            from,
            upto,
        )
    }

    /// Makes room for so many more edits. If an allocation fails, all but the room is as before.
    pub(crate) fn reserve(&mut self, count: usize) -> Result<(), NoMemory>
        ensures same { self.new ≡ record self.old { spare = self.new.spare } }
        ensures spare { OnOk result (count ≤ self.new.spare) }
        ensures no_less { self.old.spare ≤ self.new.spare }
    {
        self.mailboxes.reserve(count)?;
        self.emails.reserve(count)?;
        self.threads.reserve(count)?;
        self.email_threads.reserve(count)?;
        Ok(())
    }

    /// Adds the position of an edit with this note, for which room is reserved. Allocates nothing.
    pub(crate) fn push_ready(&mut self, note: &Note, position: u64)
        requires { 1 ≤ self.old.spare }
        ensures mailbox { self.new.mailbox ≡ (if is_kind OfMailbox note.now.kind
            then self.old.mailbox ++ position ∷ [] else self.old.mailbox) }
        ensures email { self.new.email ≡ (if is_kind OfEmail note.now.kind
            then self.old.email ++ position ∷ [] else self.old.email) }
        ensures thread { self.new.thread ≡ (if is_kind OfThread note.now.kind
            then self.old.thread ++ position ∷ [] else self.old.thread) }
        ensures email_threads { self.new.email_threads ≡ self.old.email_threads
            ++ with_thread note.now.thread [] }
        ensures spare { self.old.spare ≤ self.new.spare + 1 }
    {
        push_if(&mut self.mailboxes, is_of(note, Kind::Mailbox), position);
        push_if(&mut self.emails, is_of(note, Kind::Email), position);
        push_if(&mut self.threads, is_of(note, Kind::Thread), position);
        push_thread(&mut self.email_threads, note.thread);
    }

    /// Takes out all positions up to this one, and their threads. Allocates nothing.
    pub(crate) fn drop_upto(&mut self, position: u64)
        requires { AreInOrder self.old }
        ensures mailbox { self.new.mailbox
            ≡ drop (count_upto self.old.mailbox position) self.old.mailbox }
        ensures email { self.new.email
            ≡ drop (count_upto self.old.email position) self.old.email }
        ensures thread { self.new.thread
            ≡ drop (count_upto self.old.thread position) self.old.thread }
        ensures email_threads { self.new.email_threads
            ≡ drop (count_upto self.old.email position) self.old.email_threads }
        ensures spare { self.old.spare ≤ self.new.spare }
    {
        let mailboxes = count_upto(self.mailboxes.as_slice(), position);
        let emails = count_upto(self.emails.as_slice(), position);
        let threads = count_upto(self.threads.as_slice(), position);
        cut_front(&mut self.mailboxes, mailboxes);
        cut_front(&mut self.emails, emails);
        cut_front(&mut self.threads, threads);
        cut_front(&mut self.email_threads, emails);
    }
}

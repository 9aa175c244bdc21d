// An account: what it began with, its entries, and what they make of it.
ghost use Rattle.std.specs.Prelude.{◌≡◌, ◌↔◌, ◌+◌, ◌-◌, ◌^◌, ◌≤◌, ◌++◌, IfOk, IsTrue, OnOk, MatchOption, length, map, ⊤};
ghost use Rattle.std.specs.List.{AllByRecursion};
ghost use Rattle.mail_records.specs.Commits.{IsFormed};
ghost use Rattle.mail_records.specs.Contents.{AreNumbered, AreTables, NextAtMost};
ghost use Rattle.mail_records.specs.Edits.{AllFit, IsSmall, email_puts};
ghost use Rattle.mail_records.specs.Histories.{Committed, IsFormedHistory, IsFounded, IsSound, Refused, blobs_of, content_of, edits_of, empty_history, end_of, grown};
ghost use Rattle.blob_store.specs.Blobs.{AreBlobsFew};
ghost use Rattle.state_log.specs.Logs.{IsLogOf};
ghost use Rattle.record_codec.specs.Sizes.{edit_bytes};
ghost use Rattle.account_book.specs.Accounts.{IsBounded, IsAccountOf, history_of, kept_entry};
ghost use Rattle.account_book.specs.Opening.{IsTaken};
ghost use Rattle.account_book.specs.Replies.{IsWithin};

use crate::blobs::push_all_ready;
use crate::growing::{Grown, Noted, grow, note_more};
use crate::loading::Loading;
use crate::{Entry, MAX_EDIT_BYTES};
use blob_store::BlobList;
use jm_base::{Bytes, NoMemory};
use mail_records::{Commit, Content, Edit, Edits, Stamp, apply_all_ready};
use record_codec::count_edit_bytes;
use state_log::{Log, note_all_ready};
use std::alloc::Global;
use std::marker::Model;

/// An account. Contracts see its history, and for how many edits, entries and blobs memory is
/// reserved.
#[derive(Drop)]
pub struct Account {
    base: Content,
    content: Content,
    log: Log,
    entries: Vec<Entry>,
    // The base's blobs, and then those of the entries.
    blobs: BlobList,
    // How many of the blobs are the base's.
    base_blobs: u64,
    // How many bytes the encoded edits of all entries take. A sum stops at 2^64 - 1.
    edit_bytes: u64,
    // Whether each edit keeps the thread of its email.
    keeps_threads: bool,
}

impl Model for Account {
    ghost use Rattle.std.specs.Prelude.{min, ◌-◌, vec_len, vec_capacity};
    ghost use Rattle.account_book.specs.Accounts.{IsAccountOf, history_of};
    ghost use Rattle.account_book.specs.Views.{Ledger};

    ghost Value = { Ledger };

    ghost view = { λ a. record {
      history = history_of a.log a.base.content a.base_blobs a.entries.items a.blobs.blobs;
      spare = min a.content.spare a.log.spare;
      email_spare = a.content.email_spare;
      entry_spare = vec_capacity a.entries - vec_len a.entries;
      blob_spare = a.blobs.spare;
    } };

    ghost invariant = { λ a. IsAccountOf (history_of a.log a.base.content a.base_blobs
        a.entries.items a.blobs.blobs)
        a.content.content a.log a.entries.items a.blobs.blobs a.base_blobs a.edit_bytes
        a.keeps_threads };
}

impl Account {
    /// Returns an account in which nothing has been yet. It takes no memory.
    pub(crate) fn new(alloc: Global) -> Account
        ensures { result.history ≡ empty_history }
    {
        Account {
            base: Content::new(alloc),
            content: Content::new(alloc),
            log: Log::new(alloc, 0, 0, 0, 0),
            entries: Vec::new(alloc),
            blobs: BlobList::new(alloc),
            base_blobs: 0,
            edit_bytes: 0,
            keeps_threads: true,
        }
    }

    /// Lends the log of its edits.
    pub fn log(&self) -> &Log
        ensures { IsLogOf self.now.history result.now }
    {
        &self.log
    }

    /// Does nothing. Its clause says that the edits of its history fit one after the other.
    pub fn has_fitting_edits(&self)
        ensures { AllFit self.now.history.base (edits_of self.now.history) }
    {
        let _log = &self.log;
    }

    /// Does nothing. Its clause says that the emails of its base are formed, and so is each email
    /// that an edit puts. So its base and its commits can be encoded.
    pub fn is_formed(&self)
        ensures { IsFormedHistory self.now.history }
    {
        let _log = &self.log;
    }

    /// Lends its content after all edits: in number order, each number from 1 and below its kind's
    /// next one.
    pub fn content(&self) -> &Content
        ensures content { result.now.content ≡ content_of self.now.history }
        ensures tables { AreTables result.now.content }
        ensures numbered { AreNumbered result.now.content }
    {
        &self.content
    }

    /// Lends its blobs, the base's first. They are within the limits of an account.
    pub fn blobs(&self) -> &BlobList
        ensures blobs { result.now.blobs ≡ blobs_of self.now.history }
        ensures few { AreBlobsFew result.now.blobs }
    {
        &self.blobs
    }

    /// Lends the content before its first entry.
    pub fn base(&self) -> &Content
        ensures { result.now.content ≡ self.now.history.base }
    {
        &self.base
    }

    /// Lends its entries, in order. Of a commit's blobs each entry has the count.
    pub fn entries(&self) -> &[Entry]
        ensures { result.now ≡ map kept_entry self.now.history.entries }
    {
        self.entries.as_slice()
    }

    /// Returns how many entries there are.
    pub fn count(&self) -> u64
        ensures count { result ≡ length self.now.history.entries }
        ensures fits { length self.now.history.entries ≤ 2 ^ 64 - 1 }
    {
        self.entries.len() as u64
    }

    /// Returns whether its history is sound. Whatever its history is: it is founded, its edits fit
    /// one after the other, and each next number is at most the last position plus 1.
    pub fn is_sound(&self) -> bool
        ensures sound { IsTrue result ↔ IsSound self.now.history }
        ensures founded { IsFounded self.now.history }
        ensures fits { AllFit self.now.history.base (edits_of self.now.history) }
        ensures next { NextAtMost (end_of self.now.history + 1) (content_of self.now.history) }
    {
        self.keeps_threads
    }

    /// Returns whether its edits take no more bytes than an account may have. Its last position and
    /// next numbers are then in bounds.
    pub fn is_within_limit(&self) -> bool
        ensures within { IsTrue result ↔ (edit_bytes (edits_of self.now.history) ≤ MAX_EDIT_BYTES) }
        ensures bounded { IsTrue result → IsBounded self.now.history }
    {
        if self.edit_bytes > MAX_EDIT_BYTES {
            return false;
        }
        true
    }

    // Does nothing. Its clause says that, if the edits are within the limit, the last position and
    // the next numbers are in bounds, which callers can't see.
    pub(crate) fn is_bounded(&self)
        requires { edit_bytes (edits_of self.now.history) ≤ MAX_EDIT_BYTES }
        ensures { IsBounded self.now.history }
    {
        let _log = &self.log;
    }

    // Returns how many bytes the encoded edits of all entries and these edits take, or None where
    // the account would pass its limit with them.
    pub(crate) fn count_edit_bytes_with(&self, edits: &[Edit]) -> Option<u64>
        ensures within { MatchOption result (¬ IsWithin edit_bytes self.now.history edits.now)
            (λ bytes. IsWithin edit_bytes self.now.history edits.now) }
        ensures bytes { MatchOption result ⊤ (λ bytes. bytes
            ≡ edit_bytes (edits_of self.now.history) + edit_bytes edits.now) }
    {
        let bytes = self.edit_bytes.saturating_add(count_edit_bytes(edits));
        if bytes > MAX_EDIT_BYTES {
            return None;
        }
        Some(bytes)
    }

    // Reserves memory for an entry with these edits and blobs. Fails if an allocation fails; all
    // but the reserved memory is then as before.
    pub(crate) fn reserve(&mut self, edits: &[Edit], blobs: &[Bytes]) -> Result<(), NoMemory>
        ensures same { self.new.history ≡ self.old.history }
        ensures spare { OnOk result (length edits.now ≤ self.new.spare) }
        ensures email_spare { OnOk result (email_puts edits.now ≤ self.new.email_spare) }
        ensures entry_spare { OnOk result (1 ≤ self.new.entry_spare) }
        ensures blob_spare { OnOk result (length blobs.now ≤ self.new.blob_spare) }
    {
        self.content.reserve(edits)?;
        self.log.reserve(edits)?;
        self.entries.reserve(1)?;
        self.blobs.reserve(blobs)?;
        Ok(())
    }

    // Enters a commit, for which memory is reserved. Its edits are noted, and their copy is
    // applied. With it the edits take so many bytes. It takes no memory.
    pub(crate) fn commit_ready(&mut self, commit: Commit, copy: Edits, bytes: u64)
        requires spare { length commit.edits ≤ self.old.spare }
        requires email_spare { email_puts commit.edits ≤ self.old.email_spare }
        requires entry_spare { 1 ≤ self.old.entry_spare }
        requires blob_spare { length commit.blobs ≤ self.old.blob_spare }
        requires few { AreBlobsFew (blobs_of self.old.history ++ commit.blobs) }
        requires sound { IsSound (grown self.old.history (Committed commit)) }
        requires copy { copy ≡ commit.edits }
        requires fits { AllFit (content_of self.old.history) commit.edits }
        requires formed { IsFormed commit }
        requires small { AllByRecursion IsSmall commit.edits }
        requires bounded { IsBounded self.old.history }
        requires within { IsWithin edit_bytes self.old.history commit.edits }
        requires bytes { bytes ≡ edit_bytes (edits_of self.old.history) + edit_bytes commit.edits }
        ensures { self.new.history ≡ grown self.old.history (Committed commit) }
    {
        let Commit {
            blobs,
            edits,
            stamp,
        } = commit;
        let count = blobs.len() as u64;
        apply_all_ready(&mut self.content, copy);
        note_all_ready(&mut self.log, edits.as_slice());
        self.edit_bytes = bytes;
        push_all_ready(&mut self.blobs, blobs);
        self.entries.push_reserved(Entry {
            stamp,
            edits,
            blobs: count,
            refused: false,
        });
    }

    // Enters the mark of a change that was refused, for which memory is reserved. It takes no
    // memory.
    pub(crate) fn refuse_ready(&mut self, alloc: Global, stamp: Stamp)
        requires entry_spare { 1 ≤ self.old.entry_spare }
        ensures { self.new.history ≡ grown self.old.history (Refused stamp) }
    {
        self.entries.push_reserved(Entry {
            stamp,
            edits: Edits::new(alloc),
            blobs: 0,
            refused: true,
        });
    }

    // Returns the account with a commit more, or its content alone where its blobs are then past
    // the limits, or None where the commit's edits don't fit.
    pub(crate) fn with_commit(
        self,
        alloc: Global,
        commit: Commit,
    ) -> Result<Option<Loading>, NoMemory>
        requires { IsFormed commit }
        ensures { IfOk result (IsTaken self.history commit) }
    {
        let Account {
            base,
            content,
            log,
            entries,
            blobs,
            base_blobs,
            edit_bytes: bytes,
            keeps_threads,
        } = self;
        let Commit {
            blobs: more,
            edits,
            stamp,
        } = commit;
        let end = log.end();
        let count = more.len() as u64;
        let grown = match grow(alloc, content, end, edits.as_slice(), blobs, more) {
            Ok(grown) => grown,
            Err(fault) => {
                let_go(base, log, entries, edits);
                return Err(fault);
            }
        };
        match grown {
            Grown::Misfit => {
                let_go(base, log, entries, edits);
                Ok(None)
            }
            Grown::Overfull(content) => {
                let_go(base, log, entries, edits);
                Ok(Some(Loading::Overfull(content)))
            }
            Grown::Fitting(applied, blobs) => {
                let entry = Entry {
                    stamp,
                    edits,
                    blobs: count,
                    refused: false,
                };
                let before = Noted {
                    log,
                    entries,
                    bytes,
                };
                let noted = note_more(before, entry)?;
                let threads = are_both(keeps_threads, applied.keeps_threads);
                let account = build_account(
                    base,
                    applied.content,
                    noted,
                    blobs,
                    base_blobs,
                    threads,
                );
                Ok(Some(Loading::Fitting(account)))
            }
        }
    }
}

// Drops what an account holds besides its content and its blobs, and drops edits.
fn let_go(base: Content, log: Log, entries: Vec<Entry>, edits: Edits) {
    drop(base);
    drop(log);
    drop(entries);
    drop(edits);
}

// Returns the account that holds these parts.
fn build_account(
    base: Content,
    content: Content,
    noted: Noted,
    blobs: BlobList,
    base_blobs: u64,
    keeps_threads: bool,
) -> Account
    requires { IsAccountOf (history_of noted.log base.content base_blobs noted.entries.items
        blobs.blobs) content.content noted.log noted.entries.items blobs.blobs base_blobs
        noted.bytes keeps_threads }
    ensures { result.history ≡ history_of noted.log base.content base_blobs noted.entries.items
        blobs.blobs }
{
    let Noted {
        log,
        entries,
        bytes,
    } = noted;
    Account {
        base,
        content,
        log,
        entries,
        blobs,
        base_blobs,
        edit_bytes: bytes,
        keeps_threads,
    }
}

fn are_both(one: bool, other: bool) -> bool
    ensures { IsTrue result ↔ (IsTrue one × IsTrue other) }
{
    one && other
}

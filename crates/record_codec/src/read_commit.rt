// Decodes a commit.
ghost use Rattle.std.specs.Prelude.{◌≡◌, ◌<◌, ◌^◌, length, Ok};
ghost use Rattle.record_codec.specs.Reading.{Fails, Gives};
ghost use Rattle.record_codec.specs.Readers.{commit_at};
ghost use Rattle.record_codec.specs.Offsets.{IsRead, IsRefused};

use crate::faults::{CodecFault, Misread};
use crate::read_fields::{read_number, read_tag};
use crate::read_lists::read_blobs;
use crate::read_records::read_edits;
use mail_records::{Commit, Stamp};
use std::alloc::Global;

fn read_commit(alloc: Global, bytes: &[u8]) -> Result<(Commit, &[u8]), Misread>
    ensures { Gives (λ x. (x.0, x.1.now)) result (commit_at bytes.now) }
{
    let (_, rest) = read_tag(1, bytes)?;
    let (pass, rest) = read_number(rest)?;
    let (serial, rest) = read_number(rest)?;
    let (blobs, rest) = read_blobs(alloc, rest)?;
    let (edits, rest) = read_edits(alloc, rest)?;
    let commit = Commit {
        blobs,
        edits,
        stamp: Stamp { pass, serial },
    };
    Ok((commit, rest))
}

fn build_codec_fault(bytes: &[u8], fault: Misread) -> CodecFault
    requires read { Fails fault (commit_at bytes.now) }
    requires short { length bytes.now < 2 ^ 63 }
    ensures { IsRefused bytes.now result }
{
    match fault {
        Misread::Stuck(left) => CodecFault::NotACommit((bytes.len() - left) as u64),
        Misread::NoMemory => CodecFault::NoMemory,
    }
}

fn check_end(bytes: &[u8], commit: Commit, rest: &[u8]) -> Result<Commit, CodecFault>
    requires read { commit_at bytes.now ≡ Ok (commit, rest.now) }
    requires short { length bytes.now < 2 ^ 63 }
    ensures { IsRead bytes.now result }
{
    if rest.is_empty() {
        return Ok(commit);
    }
    Err(CodecFault::NotACommit((bytes.len() - rest.len()) as u64))
}

/// Returns the commit whose encoding the bytes are. Fails with `NotACommit` if and only if they are
/// no commit's encoding, with the byte offset at which that shows; with `NoMemory` if an allocation
/// fails.
pub fn decode(alloc: Global, bytes: &[u8]) -> Result<Commit, CodecFault>
    ensures { IsRead bytes.now result }
{
    match read_commit(alloc, bytes) {
        Ok((commit, rest)) => check_end(bytes, commit, rest),
        Err(fault) => Err(build_codec_fault(bytes, fault)),
    }
}

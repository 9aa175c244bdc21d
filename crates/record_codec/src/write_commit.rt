// Encodes a commit.
ghost use Rattle.std.specs.Prelude.{◌≡◌, IfOk};
ghost use Rattle.mail_records.specs.Commits.{IsFormed};
ghost use Rattle.record_codec.specs.Offsets.{IsEncodingOf};
ghost use Rattle.record_codec.specs.Encoding.{encoding};

use crate::memory::has_encoding;
use crate::write_edits::write_edits;
use crate::write_fields::{write_blobs, write_number};
use jm_base::{Bytes, NoMemory};
use mail_records::Commit;
use std::alloc::Global;

/// Returns the one encoding of a commit that is formed. [`decode`](crate::decode) gives the commit
/// back ([`read_back`](crate::read_back)).
pub fn encode(alloc: Global, commit: &Commit) -> Result<Bytes, NoMemory>
    requires { IsFormed commit.now }
    ensures bytes { IfOk result (λ bytes. bytes ≡ encoding commit.now) }
    ensures encoded { IfOk result (λ bytes. IsEncodingOf bytes commit.now) }
{
    has_encoding(commit);
    let mut out = Vec::new(alloc);
    out.push(1)?;
    write_number(&mut out, commit.stamp.pass)?;
    write_number(&mut out, commit.stamp.serial)?;
    write_blobs(&mut out, commit.blobs.as_slice())?;
    write_edits(&mut out, commit.edits.as_slice())?;
    Ok(Bytes::from_vec(out))
}

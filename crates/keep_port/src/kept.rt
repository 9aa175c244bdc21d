// The content of a keeper.
ghost use Rattle.std.specs.Prelude.{◌≡◌, IfOk, Some, None, []};

use jm_base::{Bytes, NoMemory, Rows};
use std::alloc::Global;

/// The content of a keeper: a base or none, and the rows after it, oldest first. Each row is one
/// encoded commit.
#[derive(Drop)]
pub struct Kept {
    pub base: Option<Bytes>,
    pub rows: Rows,
}

impl Kept {
    /// Returns the content with no base and no rows. Allocates nothing.
    pub fn new(alloc: Global) -> Kept
        ensures base { result.base ≡ None }
        ensures rows { result.rows ≡ [] }
    {
        Kept {
            base: None,
            rows: Rows::new(alloc),
        }
    }

    /// Returns a copy of the content, in memory of its own. Fails if memory runs out.
    pub fn copy(&self, alloc: Global) -> Result<Kept, NoMemory>
        ensures { IfOk result (λ k. k ≡ self.now) }
    {
        let base = copy_base(alloc, &self.base)?;
        let rows = Rows::from_vec(copy_rows(alloc, self.rows.as_slice())?);
        Ok(Kept { base, rows })
    }
}

fn copy_base(alloc: Global, base: &Option<Bytes>) -> Result<Option<Bytes>, NoMemory>
    ensures { IfOk result (λ b. b ≡ base.now) }
{
    match base {
        Some(bytes) => Ok(Some(Bytes::from_slice(alloc, bytes.as_slice())?)),
        None => Ok(None),
    }
}

fn copy_rows(alloc: Global, rows: &[Bytes]) -> Result<Vec<Bytes>, NoMemory>
    ensures { IfOk result (λ v. v.items ≡ rows.now) }
{
    let mut all = Vec::with_capacity(alloc, rows.len())?;
    for row in rows {
        all.push(Bytes::from_slice(alloc, row.as_slice())?)?;
    }
    Ok(all)
}

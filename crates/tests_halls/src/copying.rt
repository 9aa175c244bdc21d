// Copies of tests, each of which a set of the originals follows.
ghost use Rattle.std.specs.Prelude.{Some};

use account_hall::Originals;
use jm_base::NoMemory;
use jm_json::Invocation;
use std::alloc::Global;

// The set that follows a copy is the copy's own call.
#[derive(Drop)]
pub(crate) struct SameCall;

impl Originals for SameCall {
    ghost set_of = { λ copy response. Some copy };

    fn build_set(
        &self,
        alloc: Global,
        copy: &Invocation,
        _response: &Invocation,
    ) -> Result<Option<Invocation>, NoMemory> {
        Ok(Some(copy.copy(alloc)?))
    }
}

// What a copy is asked, and what follows it.
ghost use Rattle.std.specs.Prelude.{◌≡◌, IfOk, Option, option_map};
ghost use Rattle.jm_json.specs.Call.{Call as TheCall};
ghost use Rattle.jm_json.specs.Invocations.{call_of};

use jm_base::NoMemory;
use jm_json::{Invocation, Made};
use std::alloc::Global;

/// A copy from one account of a hall to another (RFC 8620, sections 5.4 and 6.3): the numbers of
/// both, whether the user may only read the account of the originals, the call, and what the
/// request has made up to here.
#[derive(Drop)]
pub struct CopyCall {
    pub from: u64,
    pub to: u64,
    pub from_read_only: bool,
    pub call: Invocation,
    pub made: Made,
}

/// What becomes of the originals of a copy (RFC 8620, section 5.4: onSuccessDestroyOriginal).
pub trait Originals: Drop {
    /// The set of the originals that follows a copy with this first response, if one does.
    ghost set_of: { TheCall → TheCall → Option TheCall };

    /// Builds the set of the originals that follows a copy with this first response, if one does.
    fn build_set(
        &self,
        alloc: Global,
        copy: &Invocation,
        response: &Invocation,
    ) -> Result<Option<Invocation>, NoMemory>
        ensures { IfOk result (λ o.
            option_map call_of o ≡ set_of (call_of copy.now) (call_of response.now)) };
}

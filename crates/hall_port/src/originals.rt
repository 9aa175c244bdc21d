// What becomes of the originals of copies of mail.
use account_hall::Originals;
use copy_calls::build_originals_call;
use jm_base::NoMemory;
use jm_json::Invocation;
use std::alloc::Global;

/// The originals of an Email/copy are destroyed, if it asks for that (RFC 8620, section 5.4).
#[derive(Clone, Copy, Drop)]
pub(crate) struct MailOriginals;

impl Originals for MailOriginals {
    ghost use Rattle.copy_calls.specs.Originals.{originals_call};

    ghost set_of = { originals_call };

    fn build_set(
        &self,
        alloc: Global,
        copy: &Invocation,
        response: &Invocation,
    ) -> Result<Option<Invocation>, NoMemory> {
        build_originals_call(alloc, copy, response)
    }
}

// A call before it is performed: its name is looked up, and its arguments are resolved (RFC 8620,
// sections 3.6.2 and 3.7).
ghost use Rattle.std.specs.Prelude.{◌≡◌, ◌+◌, ◌≤◌, false, List, map, IfOk};
ghost use Rattle.std.specs.List.{list_any};
ghost use Rattle.jm_json.specs.Json.{tree_of, member_of};
ghost use Rattle.jm_json.specs.Call.{Call, error_of};
ghost use Rattle.jm_json.specs.Invocations.{call_of};
ghost use Rattle.result_refs.specs.Costs.{reference_bytes};
ghost use Rattle.result_refs.specs.References.{resolution, resolved, is_marked};
ghost use Rattle.method_batch.specs.Prepared.{has_reference};

use crate::method::is_allowed;
use jm_base::{NoMemory, Text};
use jm_json::{Invocation, Json, Member};
use result_refs::{RefFault, resolve};
use std::alloc::Global;

/// A call before it is performed: it is rejected with this response, or it is ready and its
/// arguments are resolved.
#[derive(Drop)]
pub(crate) enum Prepared {
    Refused(Invocation),
    Ready(Invocation),
}

impl Prepared {
    ghost use Rattle.method_batch.specs.Prepared.{preparation, preparation_of, by_resolution, refused, taken_by, taken_if};

    /// Looks up the method of a call and resolves its arguments after these responses, in a request
    /// that uses the capabilities of the core and of mail, or not. What the references take is
    /// taken from the room.
    pub(crate) fn of_call(
        alloc: Global,
        room: &mut u64,
        core: bool,
        mail: bool,
        call: Invocation,
        responses: &[Invocation],
    ) -> Result<Prepared, NoMemory>
        ensures prepared { IfOk result
            (λ p. preparation_of p
            ≡ preparation core mail (call_of call) (map call_of responses.now)) }
        ensures room { IfOk result
            (λ _. taken_by core mail (call_of call) (map call_of responses.now) + room.new
            ≤ room.old) }
    {
        if !is_allowed(core, mail, call.name.as_str()) {
            return Prepared::reject(alloc, "unknownMethod", call.id);
        }
        Prepared::of_known(alloc, room, call, responses)
    }

    // Arguments without a reference are moved.
    fn of_known(
        alloc: Global,
        room: &mut u64,
        call: Invocation,
        responses: &[Invocation],
    ) -> Result<Prepared, NoMemory>
        ensures prepared { IfOk result (λ p. preparation_of p
            ≡ by_resolution (call_of call)
            (resolution (call_of call).args (map call_of responses.now))) }
        ensures room { IfOk result (λ p. taken_if (preparation_of p)
            (reference_bytes (call_of call).args (map call_of responses.now)) + room.new
            ≤ room.old) }
    {
        if has_reference(&call.args) {
            return Prepared::resolve_call(alloc, room, call, responses);
        }
        Ok(Prepared::Ready(call))
    }

    fn resolve_call(
        alloc: Global,
        room: &mut u64,
        call: Invocation,
        responses: &[Invocation],
    ) -> Result<Prepared, NoMemory>
        ensures prepared { IfOk result (λ p. preparation_of p
            ≡ by_resolution (call_of call)
            (resolution (call_of call).args (map call_of responses.now))) }
        ensures room { IfOk result (λ p. taken_if (preparation_of p)
            (reference_bytes (call_of call).args (map call_of responses.now)) + room.new
            ≤ room.old) }
    {
        let Invocation { name, args, id } = call;
        match resolve(alloc, room, args, responses) {
            Ok(args) => Ok(Prepared::Ready(Invocation { name, args, id })),
            Err(RefFault::BadReference) => Prepared::reject(alloc, "invalidResultReference", id),
            Err(RefFault::Both) => Prepared::reject(alloc, "invalidArguments", id),
            Err(RefFault::NoMemory) => Err(NoMemory),
        }
    }

    fn reject(alloc: Global, kind: &str, id: Text) -> Result<Prepared, NoMemory>
        ensures { IfOk result (λ p. preparation_of p ≡ refused (error_of kind.now id)) }
    {
        Ok(Prepared::Refused(Invocation::build_error_response(alloc, kind, id)?))
    }
}

/// Returns whether the name of some argument begins with `#`. If none does, resolving changes
/// nothing.
fn has_reference(args: &Json) -> bool
    ensures exact { result ≡ has_reference (tree_of args.now) }
    ensures plain { result ≡ false → (cs : List Call) → resolution (tree_of args.now) cs
        ≡ resolved (tree_of args.now) }
    ensures nothing { result ≡ false → (cs : List Call)
        → reference_bytes (tree_of args.now) cs ≡ 0 }
{
    match args.as_object() {
        Some(members) => has_marks(members.as_slice()),
        None => false,
    }
}

fn has_marks(members: &[Member]) -> bool
    ensures { result ≡ list_any (λ m. is_marked m.0) (map member_of members.now) }
{
    for member in members {
        if member.name.as_str().starts_with('#') {
            return true;
        }
    }
    false
}

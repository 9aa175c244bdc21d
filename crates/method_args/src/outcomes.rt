// The response to a call of a method that changes nothing (RFC 8620, sections 3.4 and 3.6.2).
ghost use Rattle.std.specs.Prelude.{◌≡◌, IfOk, IfSome};
ghost use Rattle.jm_json.specs.Call.{Call, error_of};
ghost use Rattle.jm_json.specs.Invocations.{call_of};
ghost use Rattle.method_args.specs.Outcomes.{ExplainsCall, IsOutcomeOf, Outcome, response_of};

use jm_base::{NoMemory, Text};
use jm_json::{Invocation, Json};
use std::alloc::Global;

/// Why a call of a method that changes nothing has no response of its own (RFC 8620, section
/// 3.6.2).
#[derive(Debug, Drop)]
pub enum MethodFault {
    /// The argument of this name is missing or has an invalid form or value; with an empty name the
    /// tree of an argument, or the arguments, are of a wrong kind (`invalidArguments`).
    Invalid(Text),
    /// The filter has a condition of this name, which no filter of the method has (RFC 8620,
    /// section 5.5: `unsupportedFilter`).
    UnsupportedFilter(Text),
    /// The sort has a comparator with a member of this name that no sort of the method has (RFC
    /// 8620, section 5.5: `unsupportedSort`).
    UnsupportedSort(Text),
    /// The anchor is not in the result list (RFC 8620, section 5.5: `anchorNotFound`).
    AnchorNotFound,
    /// The state that was sent is not the text of one from which all edits of the kind are known
    /// (RFC 8620, sections 5.2 and 5.6: `cannotCalculateChanges`).
    CannotCalculate,
    /// There are more changes than the maximum (RFC 8620, section 5.6: `tooManyChanges`).
    TooMany,
    /// An allocation failed.
    NoMemory,
}

impl From<NoMemory> for MethodFault {
    ghost use Rattle.std.specs.Prelude.{◌≡◌};
    ghost use Rattle.method_args.specs.declared.outcomes.MethodFault.TheVariants.{NoMemory};

    ghost from_gives = { λ _ e. e ≡ NoMemory };

    fn from(_refused: NoMemory) -> MethodFault {
        MethodFault::NoMemory
    }
}

// Returns the type of the error, or None if an allocation failed.
fn find_error_type(fault: &MethodFault) -> Option<&'static str>
    ensures { IfSome result (λ kind. (o : Outcome) → ExplainsCall fault.now o → (c : Call)
        → response_of c o ≡ error_of kind.now c.id) }
{
    match fault {
        MethodFault::Invalid(_) => Some("invalidArguments"),
        MethodFault::UnsupportedFilter(_) => Some("unsupportedFilter"),
        MethodFault::UnsupportedSort(_) => Some("unsupportedSort"),
        MethodFault::AnchorNotFound => Some("anchorNotFound"),
        MethodFault::CannotCalculate => Some("cannotCalculateChanges"),
        MethodFault::TooMany => Some("tooManyChanges"),
        MethodFault::NoMemory => None,
    }
}

// Returns the error that reports a fault.
fn build_error(
    alloc: Global,
    call: &Invocation,
    fault: &MethodFault,
) -> Result<Invocation, NoMemory>
    ensures { IfOk result (λ r. (o : Outcome) → ExplainsCall fault.now o
        → call_of r ≡ response_of (call_of call.now) o) }
{
    match find_error_type(fault) {
        Some(kind) => Invocation::build_error_response(alloc, kind, call.id.copy()?),
        None => Err(NoMemory),
    }
}

/// Returns the response to a call for which a method returned this: one of the call's name with
/// these arguments, or the error that reports the fault (RFC 8620, sections 3.4 and 3.6.2).
pub fn build_response(
    alloc: Global,
    call: &Invocation,
    answered: Result<Json, MethodFault>,
) -> Result<Invocation, NoMemory>
    ensures { IfOk result (λ r. (o : Outcome) → IsOutcomeOf answered o
        → call_of r ≡ response_of (call_of call.now) o) }
{
    match answered {
        Ok(args) => Ok(Invocation {
            name: call.name.copy()?,
            args,
            id: call.id.copy()?,
        }),
        Err(fault) => build_error(alloc, call, &fault),
    }
}

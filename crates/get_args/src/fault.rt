// Why the arguments of a call are invalid (RFC 8620, section 3.6.2).
ghost use Rattle.std.specs.Prelude.{⊤};
ghost use Rattle.get_args.specs.Faults.{Blames};

use jm_base::{NoMemory, Text};
use std::alloc::Global;

/// An argument is invalid, or an allocation failed.
#[derive(Debug, Drop)]
pub enum WantedFault {
    /// The argument of this name is missing or has a wrong form (RFC 8620, section 3.6.2:
    /// `invalidArguments`). The name is empty if the arguments are no object.
    Invalid(Text),
    NoMemory,
}

impl From<NoMemory> for WantedFault {
    ghost use Rattle.std.specs.Prelude.{◌≡◌};
    ghost use Rattle.get_args.specs.declared.fault.WantedFault.TheVariants.{NoMemory};

    ghost from_gives = { λ _ e. e ≡ NoMemory };

    fn from(_refused: NoMemory) -> WantedFault {
        WantedFault::NoMemory
    }
}

/// Returns the fault of the argument of this name, or `NoMemory` if memory for the name runs out.
pub fn blame_argument(alloc: Global, name: &str) -> WantedFault
    ensures { Blames name.now ⊤ result }
{
    match Text::from_str(alloc, name) {
        Ok(name) => WantedFault::Invalid(name),
        Err(_) => WantedFault::NoMemory,
    }
}

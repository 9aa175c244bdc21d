// Why a get fails (RFC 8620, section 5.1).

use get_args::WantedFault;
use jm_base::{NoMemory, Text};

/// A get fails.
#[derive(Debug, Drop)]
pub enum GetFault {
    /// The argument of this name is missing or has a wrong form (RFC 8620, section 3.6.2:
    /// `invalidArguments`). The name is empty if the arguments are no object.
    Invalid(Text),
    /// It asks for more objects than `MAX_OBJECTS_PER_CALL` (`requestTooLarge`).
    TooLarge,
    NoMemory,
}

impl From<NoMemory> for GetFault {
    ghost use Rattle.std.specs.Prelude.{◌≡◌};
    ghost use Rattle.get_calls.specs.declared.fault.GetFault.TheVariants.{NoMemory};

    ghost from_gives = { λ _ e. e ≡ NoMemory };

    fn from(_refused: NoMemory) -> GetFault {
        GetFault::NoMemory
    }
}

impl From<WantedFault> for GetFault {
    ghost use Rattle.std.specs.Prelude.{◌≡◌};
    ghost use Rattle.get_calls.specs.Faults.{fault_of};

    ghost from_gives = { λ fault e. e ≡ fault_of fault };

    fn from(fault: WantedFault) -> GetFault {
        match fault {
            WantedFault::Invalid(name) => GetFault::Invalid(name),
            WantedFault::NoMemory => GetFault::NoMemory,
        }
    }
}

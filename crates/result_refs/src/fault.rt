// Why arguments are not resolved.
use jm_base::NoMemory;

/// Why arguments are not resolved: a reference fails, an argument is given with and without the
/// mark `#`, or an allocation failed.
#[derive(Clone, Copy, Debug, PartialEq, Eq)]
pub enum RefFault {
    BadReference,
    Both,
    NoMemory,
}

impl From<NoMemory> for RefFault {
    ghost use Rattle.std.specs.Prelude.{◌≡◌};
    ghost use Rattle.result_refs.specs.declared.fault.RefFault.TheVariants.{NoMemory};

    ghost from_gives = { λ _ e. e ≡ NoMemory };

    fn from(_refused: NoMemory) -> RefFault {
        RefFault::NoMemory
    }
}

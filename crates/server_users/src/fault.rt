// Why no configuration was read.
use jm_base::{NoMemory, Text};

/// Why no configuration was read: it is not of its form, and this is the JSON Pointer of the least
/// bad place in byte order (RFC 6901); or an allocation failed.
#[derive(Debug, Drop)]
pub enum ConfigFault {
    BadConfig(Text),
    NoMemory,
}

impl From<NoMemory> for ConfigFault {
    ghost use Rattle.std.specs.Prelude.{◌≡◌};
    ghost use Rattle.server_users.specs.declared.fault.ConfigFault.TheVariants as config_fault;

    ghost from_gives = { λ _ e. e ≡ config_fault.NoMemory };

    fn from(_refused: NoMemory) -> ConfigFault {
        ConfigFault::NoMemory
    }
}

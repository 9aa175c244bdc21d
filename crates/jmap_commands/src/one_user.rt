// The one user of `batch`, who may change the one account.
ghost use Rattle.std.specs.Prelude.{◌≡◌, IfOk};
ghost use Rattle.server_users.specs.declared.fault.ConfigFault.TheVariants as TheFault;
ghost use Rattle.jmap_commands.specs.OneUser.{the_users};

use jm_base::NoMemory;
use server_users::{ConfigFault, Users, read_users};
use std::alloc::Global;

// The configuration of a server with this user.
const CONFIGURATION: &str =
    r#"{"users":[{"accounts":[{"id":"A1","name":"A1","readOnly":false}],"name":"batch","token":"batch"}]}"#;

// Returns the fault of an allocation, which is the only one where the configuration is of its form.
fn convert_config_fault(fault: ConfigFault) -> NoMemory
    requires only { fault ≡ TheFault.NoMemory }
{
    let _fault = fault;
    NoMemory
}

/// Builds the users of a server that has this user alone. Fails only if an allocation fails.
pub(crate) fn build_users(alloc: Global) -> Result<Users, NoMemory>
    ensures { IfOk result (λ u. u ≡ the_users) }
{
    match read_users(alloc, CONFIGURATION.as_bytes()) {
        Ok(users) => Ok(users),
        Err(fault) => Err(convert_config_fault(fault)),
    }
}

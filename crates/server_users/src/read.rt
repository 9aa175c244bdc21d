// Reads a configuration.
ghost use Rattle.std.specs.Prelude.{◌≡◌, IfOk, IfErr, OnOk, [], ◌∷◌};
ghost use Rattle.jm_json.specs.Json.{tree_of};
ghost use Rattle.server_users.specs.Configuration.{configuration_in};
ghost use Rattle.server_users.specs.BadPlaces.{bad_places};
ghost use Rattle.server_users.specs.Lookups.{IsConfigurationOf, IsFaultOf, places_of};

use crate::account_ids::list_account_ids;
use crate::build::build_users;
use crate::fault::ConfigFault;
use crate::user_checks::find_bad_place;
use crate::users::Users;
use jm_base::Text;
use jm_json::{Json, ReadFault, read};
use std::alloc::Global;

// Reads the tree of a configuration.
fn read_tree(alloc: Global, tree: &Json) -> Result<Users, ConfigFault>
    ensures ok { IfOk result (λ u. u ≡ configuration_in (tree_of tree.now)) }
    ensures good { OnOk result (bad_places (tree_of tree.now) ≡ []) }
    ensures fault { IfErr result (IsFaultOf (bad_places (tree_of tree.now))) }
{
    let ids = list_account_ids(alloc, tree)?;
    let found = find_bad_place(alloc, ids.as_slice(), tree)?;
    match found {
        Some(place) => Err(ConfigFault::BadConfig(place)),
        None => Ok(build_users(alloc, ids, tree)?),
    }
}

// Returns the fault of bytes that are bad as a whole.
fn find_whole_fault(alloc: Global) -> ConfigFault
    ensures { IsFaultOf ([] ∷ []) result }
{
    match Text::from_str(alloc, "") {
        Ok(place) => ConfigFault::BadConfig(place),
        Err(_) => ConfigFault::NoMemory,
    }
}

// Returns the fault of bytes in which this place alone is bad.
fn name_place(place: Text) -> ConfigFault
    ensures { IsFaultOf (place ∷ []) result }
{
    ConfigFault::BadConfig(place)
}

/// Reads the configuration of a server: JSON bytes of the form
/// `{"users":[{"accounts":[{"id":I,"name":N,"readOnly":B}],"name":N,"token":T}]}`. Other members
/// are ignored. Accounts are numbered from 0 in the order of their first mention.
///
/// Fails with `BadConfig` if the bytes are not of the form. It carries the least bad place in byte
/// order as a JSON Pointer (RFC 6901): the empty one if the bytes are no JSON text, and the one of
/// the first number that is no integer, in the order of keys, if there is one. Fails with
/// `NoMemory` if an allocation fails.
pub fn read_users(alloc: Global, bytes: &[u8]) -> Result<Users, ConfigFault>
    ensures ok { IfOk result (IsConfigurationOf bytes.now) }
    ensures fault { IfErr result (IsFaultOf (places_of bytes.now)) }
{
    match read(alloc, bytes) {
        Ok(tree) => read_tree(alloc, &tree),
        Err(ReadFault::NotJson) => Err(find_whole_fault(alloc)),
        Err(ReadFault::NotWhole(place)) => Err(name_place(place)),
        Err(ReadFault::NoMemory) => Err(ConfigFault::NoMemory),
    }
}

// The members of a JSON object, without those of hidden properties.
ghost use Rattle.std.specs.Prelude.{◌≡◌, map};
ghost use Rattle.get_calls.specs.Members.{remove_all};

use jm_json::Members;

/// Returns the members without those of these names.
pub(crate) fn remove_members(members: Members, names: &[&str]) -> Members
    ensures { result ≡ remove_all (map (λ t. t.now) names.now) members }
{
    let mut members = members;
    for name in names {
        let _removed = members.remove(name);
    }
    members
}

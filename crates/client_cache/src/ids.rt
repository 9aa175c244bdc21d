// The identifiers of records, as keys.
ghost use Rattle.std.specs.Prelude.{◌≡◌, IsTrue};
ghost use Rattle.method_args.specs.Ids.{id_number};

use jm_base::{Kind, read_id};

fn is_same_kind(one: Kind, other: Kind) -> bool
    ensures same { IsTrue result → one ≡ other }
    ensures other { one ≡ other → IsTrue result }
{
    one == other
}

/// Returns the number of the record of a kind whose identifier a string is, if it is one.
pub(crate) fn read_number(kind: Kind, string: &[u8]) -> Option<u64>
    ensures { result ≡ id_number kind string.now }
{
    match read_id(string) {
        Ok(id) => if is_same_kind(id.kind, kind) {
            Some(id.number)
        } else {
            None
        },
        Err(_) => None,
    }
}

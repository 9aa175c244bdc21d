// JSON Pointers that are built (RFC 6901), and the least of some.
ghost use Rattle.std.specs.Prelude.{◌≡◌, ◌∷◌, ◌++◌, Some, decimal, OnOk, OnErr};
ghost use Rattle.jm_json.specs.Integers.{pointer_part};
ghost use Rattle.jm_json.specs.LeastPlaces.{lesser};

use crate::path_parts::push_escaped;
use jm_base::{NoMemory, Text};
use std::alloc::Global;
use std::cmp::Ordering;

/// Makes a JSON Pointer to an object the pointer to the member with this name (RFC 6901, section
/// 3). If an allocation fails, the pointer is unchanged.
pub fn push_name(alloc: Global, pointer: &mut Text, name: &str) -> Result<(), NoMemory>
    ensures ok { OnOk result (pointer.new ≡ pointer.old ++ 47 ∷ pointer_part name.now) }
    ensures err { OnErr result (pointer.new ≡ pointer.old) }
{
    let mut bytes = Vec::from_slice(alloc, pointer.as_bytes())?;
    bytes.push(b'/')?;
    push_escaped(&mut bytes, name.as_bytes())?;
    match Text::from_utf8(bytes) {
        Some(longer) => {
            *pointer = longer;
            Ok(())
        }
        None => Err(NoMemory),
    }
}

/// Makes a JSON Pointer to a list the pointer to the item with this index (RFC 6901, section 4). If
/// an allocation fails, the pointer is unchanged.
pub fn push_index(alloc: Global, pointer: &mut Text, index: usize) -> Result<(), NoMemory>
    ensures ok { OnOk result (pointer.new ≡ pointer.old ++ 47 ∷ decimal index) }
    ensures err { OnErr result (pointer.new ≡ pointer.old) }
{
    let list = pointer.as_str();
    *pointer = Text::from_string(format!(in alloc; "{list}/{index}")?);
    Ok(())
}

/// Returns the lesser in byte order of a place, if there is one, and another.
pub fn choose_least(least: Option<Text>, place: Text) -> Option<Text>
    ensures { result ≡ lesser least place }
{
    match least {
        Some(least) => Some(choose_lesser(least, place)),
        None => Some(place),
    }
}

fn choose_lesser(least: Text, place: Text) -> Text
    ensures { Some result ≡ lesser (Some least) place }
{
    match place.as_bytes().cmp(least.as_bytes()) {
        Ordering::Less => place,
        Ordering::Equal => least,
        Ordering::Greater => least,
    }
}

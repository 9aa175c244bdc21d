// The ids of a get, each once (RFC 8620, section 5.1).
ghost use Rattle.std.specs.Prelude.{◌≡◌, IfOk, map};
ghost use Rattle.mail_view.specs.Records.{first_mentions};

use jm_base::NoMemory;
use std::alloc::Global;
use std::collections::HashSet;

/// Returns these ids, each once, in the order of their first mention.
pub fn list_first_mentions<'a>(alloc: Global, ids: &[&'a str]) -> Result<Vec<&'a str>, NoMemory>
    ensures { IfOk result (λ v.
        map (λ t. t.now) v.items ≡ first_mentions (map (λ t. t.now) ids.now)) }
{
    let mut firsts = Vec::new(alloc);
    let mut seen = HashSet::new(alloc);
    for id in ids {
        if !seen.insert(*id)? {
            continue;
        }
        firsts.push(*id)?;
    }
    Ok(firsts)
}

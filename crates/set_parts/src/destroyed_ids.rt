// The ids under which the destroys of a set are reported (RFC 8620, section 5.3).
ghost use Rattle.std.specs.Prelude.{IfOk, List, map};
ghost use Rattle.jm_json.specs.declared.invocation.Created.{Created as TheCreated};
ghost use Rattle.set_parts.specs.Views.{AreDestroyed, HoldTexts};

use crate::created_texts::{CreatedTexts, find_reported_id};
use crate::text_set::{TextSet, add_text, new_set};
use jm_base::NoMemory;
use std::alloc::Global;

/// Returns the ids under which the destroys of a set are reported.
pub fn collect_destroyed<'a>(
    alloc: Global,
    texts: &CreatedTexts<'a>,
    destroys: &[&'a str],
) -> Result<TextSet<'a>, NoMemory>
    ensures { IfOk result (λ t. (made : List TheCreated) → HoldTexts texts.now made
        → AreDestroyed t made (map (λ d. d.now) destroys.now)) }
{
    let mut destroyed = new_set(alloc);
    for id in destroys {
        add_text(&mut destroyed, None, find_reported_id(texts, *id))?;
    }
    Ok(destroyed)
}

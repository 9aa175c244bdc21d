// The capabilities that a request uses (RFC 8620, sections 2 and 3.3).
ghost use Rattle.std.specs.Prelude.{◌≡◌, IfOk, option_map, option_and_then};
ghost use Rattle.std.specs.List.{list_all};
ghost use Rattle.jm_json.specs.Json.{tree_of};
ghost use Rattle.jm_json.specs.Find.{as_list, texts_from};
ghost use Rattle.method_batch.specs.Method.{is_capability};
ghost use Rattle.method_batch.specs.Request.{uses};

use crate::method::is_capability;
use jm_base::{NoMemory, Text, Texts};
use jm_json::{Items, Json};
use std::alloc::Global;
use std::collections::VecDeque;

/// Returns the strings of a list, if all of its items are strings.
pub(crate) fn read_texts(alloc: Global, tree: Option<Json>) -> Result<Option<Texts>, NoMemory>
    ensures { IfOk result
        (λ o. o ≡ option_and_then texts_from (option_and_then as_list (option_map tree_of tree))) }
{
    match tree {
        Some(tree) => match tree.into_items() {
            Some(items) => read_items(alloc, items),
            None => Ok(None),
        },
        None => Ok(None),
    }
}

fn read_items(alloc: Global, items: Items) -> Result<Option<Texts>, NoMemory>
    ensures { IfOk result (λ o. o ≡ texts_from items) }
{
    let mut texts = Texts::new(alloc);
    let mut rest = VecDeque::from_vec(items.into_vec());
    while let Some(item) = rest.pop_front() {
        match item.into_text() {
            Some(text) => texts.push(text)?,
            None => return Ok(None),
        }
    }
    Ok(Some(texts))
}

/// Returns whether each string is a capability.
pub(crate) fn are_known(texts: &[Text]) -> bool
    ensures { result ≡ list_all is_capability texts.now }
{
    for text in texts {
        if !is_capability(text.as_str()) {
            return false;
        }
    }
    true
}

/// Returns whether one of the strings is this capability.
pub(crate) fn has_capability(texts: &[Text], capability: &str) -> bool
    ensures { result ≡ uses capability.now texts.now }
{
    for text in texts {
        if text.as_str() == capability {
            return true;
        }
    }
    false
}

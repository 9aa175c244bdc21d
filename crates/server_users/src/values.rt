// The values of the members of an object.
ghost use Rattle.std.specs.Prelude.{◌≡◌, map, option_map};
ghost use Rattle.jm_json.specs.Json.{tree_of};
ghost use Rattle.server_users.specs.Values.{flag_at, flag_or_false, items_at, items_or_none, text_at, text_or_empty, value_at};

use jm_json::Json;

// Lends the value at a key of an object.
fn find_value<'a>(tree: &'a Json, key: &str) -> Option<&'a Json>
    ensures { option_map (λ j. tree_of j.now) result ≡ value_at key.now (tree_of tree.now) }
{
    tree.as_object()?.get(key)
}

/// Lends the string at a key.
pub(crate) fn find_text<'a>(tree: &'a Json, key: &str) -> Option<&'a str>
    ensures { option_map (λ s. s.now) result ≡ text_at key.now (tree_of tree.now) }
{
    let text = find_value(tree, key)?.as_text()?;
    Some(text.as_str())
}

/// Returns the boolean at a key.
pub(crate) fn find_flag(tree: &Json, key: &str) -> Option<bool>
    ensures { result ≡ flag_at key.now (tree_of tree.now) }
{
    match find_value(tree, key)? {
        Json::Bool(flag) => Some(*flag),
        Json::Null | Json::Int(_) | Json::Text(_) | Json::List(_) | Json::Object(_) => None,
    }
}

/// Lends the items of the list at a key.
pub(crate) fn find_items<'a>(tree: &'a Json, key: &str) -> Option<&'a [Json]>
    ensures { option_map (λ ts. map tree_of ts.now) result ≡ items_at key.now (tree_of tree.now) }
{
    let items = find_value(tree, key)?.as_list()?;
    Some(items.as_slice())
}

/// Lends the string at a key, or the empty string if there is none.
pub(crate) fn find_text_or_empty<'a>(tree: &'a Json, key: &str) -> &'a str
    ensures { result.now ≡ text_or_empty key.now (tree_of tree.now) }
{
    match find_text(tree, key) {
        Some(text) => text,
        None => "",
    }
}

/// Returns the boolean at a key, or false if there is none.
pub(crate) fn find_flag_or_false(tree: &Json, key: &str) -> bool
    ensures { result ≡ flag_or_false key.now (tree_of tree.now) }
{
    match find_flag(tree, key) {
        Some(flag) => flag,
        None => false,
    }
}

/// Lends the items of the list at a key, or none if there is no list.
pub(crate) fn find_items_or_none<'a>(tree: &'a Json, key: &str) -> &'a [Json]
    ensures { map tree_of result.now ≡ items_or_none key.now (tree_of tree.now) }
{
    match find_items(tree, key) {
        Some(items) => items,
        None => &[],
    }
}

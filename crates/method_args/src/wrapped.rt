// Lists and objects of a response that are null where they would be empty.
ghost use Rattle.std.specs.Prelude.{◌≡◌};
ghost use Rattle.jm_json.specs.Json.{tree_of};
ghost use Rattle.method_args.specs.Wrapped.{list_or_null, object_or_null};

use jm_json::{Items, Json, Members};

/// Returns an object with these members, or null if there are none.
pub fn wrap_object(members: Members) -> Json
    ensures { tree_of result ≡ object_or_null members }
{
    if members.as_slice().is_empty() {
        return Json::Null;
    }
    Json::Object(members)
}

/// Returns a list of these items, or null if there are none.
pub fn wrap_list(items: Items) -> Json
    ensures { tree_of result ≡ list_or_null items }
{
    if items.as_slice().is_empty() {
        return Json::Null;
    }
    Json::List(items)
}

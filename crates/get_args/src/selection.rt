// The arguments that every get has: the account, the ids, and the names of properties (RFC 8620,
// section 5.1). Strings are lent.
ghost use Rattle.std.specs.Prelude.{◌≡◌, ◌∷◌, ◌++◌, [], Some, None, false, true, IfOk, IfErr, OnOk, codes, map, option_map};
ghost use Rattle.std.specs.List.{list_all};
ghost use Rattle.method_args.specs.Arguments.{account_in, strings_in};
ghost use Rattle.get_args.specs.Faults.{Blames, Names};
ghost use Rattle.get_args.specs.Selection.{hidden_of, ids_in, invalid_properties, invalid_selection, is_among, is_selection, is_shown, names_in};

use crate::WantedFault;
use crate::fault::blame_argument;
use jm_base::NoMemory;
use jm_json::Members;
use method_args::{find_given, lend_strings, read_account};
use std::alloc::Global;

// Returns the id of the account.
fn read_account_id<'a>(alloc: Global, args: &'a Members) -> Result<&'a str, WantedFault>
    ensures ok { IfOk result (λ t. account_in args.now ≡ Some t.now) }
    ensures err { IfErr result (Blames (codes "accountId") (account_in args.now ≡ None)) }
{
    match read_account(args) {
        Some(id) => Ok(id.as_str()),
        None => Err(blame_argument(alloc, "accountId")),
    }
}

// Returns the strings of an argument, `None` if it is absent or null.
fn read_strings_or_null<'a>(
    alloc: Global,
    args: &'a Members,
    name: &str,
) -> Result<Option<Vec<&'a str>>, WantedFault>
    ensures strings { IfOk result (λ o.
        option_map (λ v. map (λ t. t.now) v.items) o ≡ strings_in name.now args.now) }
    ensures ok { IfOk result (λ o. is_selection name.now args.now ≡ true) }
    ensures err { IfErr result (Blames name.now (is_selection name.now args.now ≡ false)) }
{
    match find_given(args, name) {
        Some(value) => match lend_strings(alloc, value)? {
            Some(strings) => Ok(Some(strings)),
            None => Err(blame_argument(alloc, name)),
        },
        None => Ok(None),
    }
}

/// The account and the ids of a get.
#[derive(Drop)]
pub struct Selection<'a> {
    /// The id of the account.
    pub account: &'a str,
    /// The ids of the records that are asked for; `None` if all are.
    pub ids: Option<Vec<&'a str>>,
}

/// Returns the account and the ids of a get, which are lent.
///
/// Fails with `Invalid` if `accountId` is no string or `ids` is neither null nor a list of strings;
/// it carries the first such name.
pub fn read_selection<'a>(alloc: Global, args: &'a Members) -> Result<Selection<'a>, WantedFault>
    ensures account { IfOk result (λ s. account_in args.now ≡ Some s.account.now) }
    ensures ids { IfOk result (λ s.
        option_map (λ v. map (λ t. t.now) v.items) s.ids ≡ ids_in args.now) }
    ensures ok { IfOk result (λ s. invalid_selection args.now ≡ None) }
    ensures err { IfErr result (λ fault. Names fault (invalid_selection args.now)) }
{
    let account = read_account_id(alloc, args)?;
    let ids = read_strings_or_null(alloc, args, "ids")?;
    Ok(Selection { account, ids })
}

fn is_among(names: &[&str], name: &str) -> bool
    ensures { result ≡ is_among (map (λ t. t.now) names.now) name.now }
{
    for other in names {
        if name == *other {
            return true;
        }
    }
    false
}

fn are_properties(properties: &[&str], names: &[&str]) -> bool
    ensures { result ≡ list_all (is_among (map (λ t. t.now) properties.now))
        (map (λ t. t.now) names.now) }
{
    for name in names {
        if !is_among(properties, name) {
            return false;
        }
    }
    true
}

fn is_shown(names: &[&str], property: &str) -> bool
    ensures { result ≡ is_shown (Some (map (λ t. t.now) names.now)) property.now }
{
    property == "id" || is_among(names, property)
}

// Adds a property if it is not shown.
fn push_hidden(
    hidden: &mut Vec<&'static str>,
    names: &[&str],
    property: &'static str,
) -> Result<(), NoMemory>
    ensures { OnOk result (map (λ t. t.now) hidden.new.items
        ≡ map (λ t. t.now) hidden.old.items
        ++ hidden_of (Some (map (λ t. t.now) names.now)) (property.now ∷ [])) }
{
    if is_shown(names, property) {
        return Ok(());
    }
    hidden.push(property)?;
    Ok(())
}

fn collect_hidden(
    alloc: Global,
    names: &[&str],
    properties: &[&'static str],
) -> Result<Vec<&'static str>, NoMemory>
    ensures { IfOk result (λ v. map (λ t. t.now) v.items
        ≡ hidden_of (Some (map (λ t. t.now) names.now)) (map (λ t. t.now) properties.now)) }
{
    let mut hidden = Vec::new(alloc);
    for property in properties {
        push_hidden(&mut hidden, names, property)?;
    }
    Ok(hidden)
}

/// Returns those of these properties that are not shown: all but `id` and those that `properties`
/// names, and none if it is null (RFC 8620, section 5.1). Fails with `Invalid` if `properties` is
/// neither null nor a list of names of properties.
pub fn find_hidden_properties(
    alloc: Global,
    args: &Members,
    properties: &[&'static str],
) -> Result<Vec<&'static str>, WantedFault>
    ensures hidden { IfOk result (λ v. map (λ t. t.now) v.items
        ≡ hidden_of (names_in args.now) (map (λ t. t.now) properties.now)) }
    ensures ok { IfOk result (λ v.
        invalid_properties (map (λ t. t.now) properties.now) args.now ≡ None) }
    ensures err { IfErr result (λ fault.
        Names fault (invalid_properties (map (λ t. t.now) properties.now) args.now)) }
{
    match read_strings_or_null(alloc, args, "properties")? {
        Some(names) => {
            if !are_properties(properties, names.as_slice()) {
                return Err(blame_argument(alloc, "properties"));
            }
            Ok(collect_hidden(alloc, names.as_slice(), properties)?)
        }
        None => Ok(Vec::new(alloc)),
    }
}

// The cache of a client that has seen nothing yet.
ghost use Rattle.std.specs.Prelude.{◌≡◌, ◌∷◌, [], IfOk, map};
ghost use Rattle.jm_json.specs.Json.{tree_of};
ghost use Rattle.client_cache.specs.Caches.{all_list, new_cached, newest_first, nothing};
ghost use Rattle.client_cache.specs.Views.{kind_view, list_view};

use crate::cache::Cache;
use crate::kinds::{CachedKind, Records};
use crate::lists::CachedList;
use jm_base::{NoMemory, Numbers, Sequence, Text};
use jm_json::{Items, Json, Members};
use std::alloc::Global;

/// Returns a kind of which nothing is kept. It takes no memory.
pub(crate) fn build_nothing(alloc: Global) -> CachedKind
    ensures { kind_view result ≡ nothing }
{
    CachedKind {
        records: Records::new(alloc),
        state: None,
    }
}

// Returns the sort by which the newest emails come first.
fn build_newest_first(alloc: Global) -> Result<Json, NoMemory>
    ensures { IfOk result (λ t. tree_of t ≡ newest_first) }
{
    let mut comparator = Members::new(alloc);
    comparator.set(alloc, "isAscending", Json::Bool(false))?;
    let property = Text::from_str(alloc, "receivedAt")?;
    comparator.set(alloc, "property", Json::Text(property))?;
    let mut comparators = Items::new(alloc);
    comparators.push(Json::Object(comparator))?;
    Ok(Json::List(comparators))
}

/// Returns the list `all`: each thread by its newest email, with no filter.
pub(crate) fn build_all(alloc: Global) -> Result<CachedList, NoMemory>
    ensures { IfOk result (λ l. list_view l ≡ all_list) }
{
    Ok(CachedList {
        name: Text::from_str(alloc, "all")?,
        filter: Json::Null,
        sort: build_newest_first(alloc)?,
        collapse: true,
        ids: Numbers::new(alloc),
        state: None,
    })
}

fn build_lists(alloc: Global) -> Result<Sequence<CachedList>, NoMemory>
    ensures { IfOk result (λ ls. map list_view ls ≡ all_list ∷ []) }
{
    let all = build_all(alloc)?;
    let mut lists = Sequence::new(alloc);
    lists.push(all)?;
    Ok(lists)
}

/// Returns the cache of a client that has seen nothing yet: no account and no records, and the one
/// list `all`, of each thread by its newest email.
pub fn new_cache(alloc: Global) -> Result<Cache, NoMemory>
    ensures { IfOk result (λ c. c ≡ new_cached) }
{
    let lists = build_lists(alloc)?;
    Ok(Cache {
        account: None,
        mailboxes: build_nothing(alloc),
        emails: build_nothing(alloc),
        threads: build_nothing(alloc),
        lists,
    })
}

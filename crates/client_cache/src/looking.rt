// What is looked at of a cache.
ghost use Rattle.std.specs.Prelude.{◌≡◌, length, map, option_map};
ghost use Rattle.jm_json.specs.Find.{find};
ghost use Rattle.jm_json.specs.Json.{member_of, tree_of};
ghost use Rattle.jm_json.specs.Order.{KeysRise};
ghost use Rattle.client_cache.specs.Caches.{kind_of};
ghost use Rattle.client_cache.specs.Views.{list_view};

use crate::cache::Cache;
use crate::kind_steps::lend_kind;
use crate::lists::CachedList;
use jm_base::Kind;
use jm_json::{Json, Member};
use std::cmp::Ordering;

impl Cache {
    /// Returns how many records of a kind it has.
    pub fn count_records(&self, kind: Kind) -> usize
        ensures { result ≡ length (kind_of kind self.now).records }
    {
        lend_kind(self, kind).records.len()
    }

    /// Lends the object of the record of a kind with an identifier, or None if it has no such
    /// record.
    pub fn find_record(&self, kind: Kind, id: &str) -> Option<&Json>
        ensures { option_map (λ j. tree_of j.now) result
            ≡ find id.now (kind_of kind self.now).records }
    {
        find_object(lend_kind(self, kind).records.as_slice(), id.as_bytes())
    }

    /// Lends the lists of emails.
    pub fn lists(&self) -> &[CachedList]
        ensures { map list_view result.now ≡ self.now.lists }
    {
        self.lists.as_slice()
    }
}

// Lends the object under an identifier, by halving.
fn find_object<'a>(rows: &'a [Member], id: &[u8]) -> Option<&'a Json>
    requires { KeysRise (map member_of rows.now) }
    ensures { option_map (λ j. tree_of j.now) result ≡ find id.now (map member_of rows.now) }
{
    let mut low = 0;
    let mut high = rows.len();
    'halves: while low < high {
        let at = low + (high - low) / 2;
        match id.cmp(rows[at].name.as_bytes()) {
            Ordering::Less => high = at,
            Ordering::Equal => return Some(&rows[at].value),
            Ordering::Greater => low = at + 1,
        }
    }
    None
}

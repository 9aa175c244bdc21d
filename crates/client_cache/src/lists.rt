// The lists of emails that a client keeps.
ghost use Rattle.std.specs.Prelude.{◌≡◌};

use jm_base::{Numbers, Text};
use jm_json::Json;

/// A list of emails: its name; the filter and the sort of its query, and whether that collapses
/// threads; the numbers of its emails; and the state of the query, if that is known.
#[derive(Drop)]
pub struct CachedList {
    pub(crate) name: Text,
    pub(crate) filter: Json,
    pub(crate) sort: Json,
    pub(crate) collapse: bool,
    pub(crate) ids: Numbers,
    pub(crate) state: Option<u64>,
}

impl CachedList {
    /// Lends its name.
    pub fn name(&self) -> &str
        ensures { result.now ≡ self.now.name }
    {
        self.name.as_str()
    }

    /// Lends the numbers of its emails, in the order of the query.
    pub fn ids(&self) -> &[u64]
        ensures { result.now ≡ self.now.ids }
    {
        self.ids.as_slice()
    }
}

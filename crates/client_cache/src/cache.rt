// What a client keeps of an account.
use crate::kinds::CachedKind;
use crate::lists::CachedList;
use jm_base::{Sequence, Text};
use std::marker::Model;

/// What a client keeps of an account: the records of each kind with the state of the kind, and
/// lists of emails with their states. Contracts see it as a `Cached`, of which `cache_tree` is the
/// tree of its file.
#[derive(Drop)]
pub struct Cache {
    pub(crate) account: Option<Text>,
    pub(crate) mailboxes: CachedKind,
    pub(crate) emails: CachedKind,
    pub(crate) threads: CachedKind,
    pub(crate) lists: Sequence<CachedList>,
}

impl Model for Cache {
    ghost use Rattle.client_cache.specs.Caches.{Cached};

    ghost Value = { Cached };

    ghost use Rattle.client_cache.specs.Codes.{cached_code};

    ghost coded = { cached_code };

    ghost use Rattle.std.specs.Prelude.{map};
    ghost use Rattle.client_cache.specs.Views.{kind_view, list_view};

    ghost view = { λ a. record {
      account = a.account;
      mailboxes = kind_view a.mailboxes;
      emails = kind_view a.emails;
      threads = kind_view a.threads;
      lists = map list_view a.lists;
    } };
}

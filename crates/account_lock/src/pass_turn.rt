// The turn of a pass, as it is noted with another pass.
ghost use Rattle.std.specs.Prelude.{◌≡◌, None};
ghost use Rattle.account_lock.specs.Views.{turn_with, view_of};

use crate::view::PassView;
use atomic_table::Badge;
use std::marker::Model;
use std::snapshot::Snapshot;

// A turn that a pass had when it was noted, or none. It has no bytes: only contracts see it.
#[derive(Drop)]
pub(crate) struct Noted {
    badge: Snapshot<Badge<PassView>>,
}

impl Model for Noted {
    ghost use Rattle.std.specs.Prelude.{Option};
    ghost use Rattle.account_lock.specs.Views.{Turn, turn_with, view_of};

    ghost Value = { Option Turn };

    ghost view = { λ n. turn_with n.badge.value.table_id (view_of n.badge.value.views) };
}

impl Noted {
    // Notes no turn.
    pub(crate) fn note_nothing() -> Noted
        ensures { result ≡ None }
    {
        let blank = Badge::blank();
        Noted::of(&blank)
    }

    // Notes the turn that the pass with this badge has, if it has one.
    pub(crate) fn of(badge: &Badge<PassView>) -> Noted
        ensures { result ≡ turn_with badge.now.table_id (view_of badge.now.views) }
    {
        Noted {
            badge: Snapshot::of(badge),
        }
    }
}

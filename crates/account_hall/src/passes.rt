// A session of a hall.
ghost use Rattle.std.specs.Prelude.{◌≡◌};
ghost use Rattle.account_hall.specs.Sessions.{IsSession};

use account_book::Point;
use account_lock::Pass;
use jm_base::Sequence;
use std::marker::Model;

/// The points of a session's calls, in order.
pub type Trail = Sequence<Point>;

/// A session: a pass for each account, in the order of the accounts, and its trail. Contracts see
/// what the passes have seen, and the trail. A session is always in order
/// ([`Passes::is_in_order`]).
#[derive(Drop)]
pub struct Passes {
    pub(crate) list: Vec<Pass>,
    pub(crate) trail: Vec<Point>,
}

impl Model for Passes {
    ghost use Rattle.account_hall.specs.Sessions.{IsSession, SessionView};

    ghost Value = { SessionView };

    ghost view = { λ p. record { passes = p.list.items; trail = p.trail.items } };

    ghost invariant = { λ p. IsSession (record { passes = p.list.items; trail = p.trail.items }) };
}

impl Passes {
    /// Lends the points of its calls, in order.
    pub fn trail(&self) -> &[Point]
        ensures { result.now ≡ self.now.trail }
    {
        self.trail.as_slice()
    }

    /// Does nothing. Its clause says that the session is in order: of two points of one account the
    /// later one begins where the earlier one ends, or after it; and of each account its entries
    /// are exactly those of its points, each with the point's number in the trail.
    pub fn is_in_order(&self)
        ensures { IsSession self.now }
    {
        let _trail = self.trail.as_slice();
    }
}

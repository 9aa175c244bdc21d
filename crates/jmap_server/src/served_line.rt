// A line is served by a session of a hall.
ghost use Rattle.std.specs.Prelude.{◌≡◌, ◌-◌, ◌≤◌, [], ◌∷◌, length, map};
ghost use Rattle.account_hall.specs.Halls.{AreOf};
ghost use Rattle.account_hall.specs.Sessions.{IsSession};
ghost use Rattle.account_hall.specs.Closing.{FrontGoes, opened_by};
ghost use Rattle.jmap_server.specs.Lines.{IsUnread, sight_of};
ghost use Rattle.jmap_server.specs.Workers;

use crate::finished::Finished;
use account_book::Rules;
use account_hall::{Front, Hall, Passes};
use hall_port::serve_connection;
use jm_base::Sequence;
use jm_edge::{Clock, Gate, Link};
use jmap_http::Served;
use keep_port::Keeper;
use server_users::Users;
use std::alloc::Global;
use std::sync::Wait;

/// A line that was served, how serving it ended, and the session that served it.
#[derive(Drop)]
pub(crate) struct ServedLine<L: Drop> {
    pub(crate) line: L,
    pub(crate) served: Served,
    pub(crate) passes: Passes,
}

/// Serves a line by a session, and tells the other side that nothing more is written.
pub(crate) fn serve_by_session<H: Wait, K: Keeper, R: Rules, L: Link, C: Clock, G: Gate>(
    rt: &H,
    alloc: Global,
    users: &Users,
    hall: &Hall<K, R>,
    passes: Passes,
    line: L,
    clock: C,
    gate: G,
) -> ServedLine<L>
    requires hall { AreOf hall.now passes.passes }
    requires fresh { passes.trail ≡ [] }
    requires accounts { length users.now.account_ids ≤ length hall.now }
    ensures { Rattle.jmap_server.specs.Workers.IsServedLine (sight_of L.left L.held L.read_faults
        L.put_faults C.times K.kept K.append_faults) R.plan_of hall.now users.now passes line clock
        result }
{
    let mut line = line;
    let mut clock = clock;
    let (served, passes) = serve_connection(
        rt, alloc, hall, users, passes, &mut line, &mut clock, &gate,
    );
    line.finish();
    ServedLine {
        line,
        served,
        passes,
    }
}

/// Lets the session of a line that was served out of the hall.
pub(crate) fn let_out<K: Keeper, R: Rules, L: Link>(
    hall: &Hall<K, R>,
    front: &mut Front,
    done: ServedLine<L>,
) -> Finished<L>
    requires front { AreOf hall.now front.old.roots }
    requires hall { AreOf hall.now done.passes.passes }
    ensures line { result.line ≡ done.line }
    ensures served { result.served ≡ done.served }
    ensures trail { result.trail ≡ done.passes.trail }
    ensures points { result.http_points ≡ length result.trail }
    ensures in_order { IsSession done.passes }
    ensures front { AreOf hall.now front.new.roots }
    ensures heard { map opened_by done.passes.passes ≡ map opened_by front.old.roots
        → FrontGoes front.old.roots front.new.roots (done.passes ∷ []) }
    ensures openings { map opened_by front.new.roots ≡ map opened_by front.old.roots }
    ensures inside { front.new.inside ≡ front.old.inside - 1 }
    ensures admitted { front.new.admitted ≡ front.old.admitted }
{
    let ServedLine {
        line,
        served,
        passes,
    } = done;
    passes.is_in_order();
    let trail = front.leave(hall, passes);
    Finished {
        line,
        served,
        http_points: trail.len() as u64,
        trail,
    }
}

/// Gives back a line unread, because memory ran out.
pub(crate) fn leave_unread<L: Link>(alloc: Global, line: L) -> Finished<L>
    ensures { IsUnread line result }
{
    Finished {
        line,
        served: Served::NoMemory,
        http_points: 0,
        trail: Sequence::new(alloc),
    }
}

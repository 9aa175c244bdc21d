// A server, from its configuration to its last line.
ghost use Rattle.std.specs.Prelude.{◌≡◌, ◌+◌, ◌≤◌, [], List, IfErr, length, map};
ghost use Rattle.std.specs.List.{AllByRecursion};
ghost use Rattle.account_hall.specs.Building.{IsFresh};
ghost use Rattle.account_hall.specs.Halls.{AreOf};
ghost use Rattle.account_lock.specs.declared.limits.TheConstants.{MAX_NAMES as TheMaxNames};
ghost use Rattle.jm_edge.specs.Causes.{IsCounted};
ghost use Rattle.jmap_server.specs.Deeds.{Deed, IsTold};
ghost use Rattle.account_hall.specs.Sessions.{SessionView};
ghost use Rattle.account_hall.specs.Closing.{FrontGoes, opened_by};
ghost use Rattle.jmap_server.specs.Lines.{sight_of};
ghost use Rattle.jmap_server.specs.Openings.{openings_of};
ghost use Rattle.jmap_server.specs.Serving.{HasRun, HasServedHall, HasServedOrNot, HasServedPort, HasServedUsers, IsCaused, config_fault_of, end_of, names_in};

use crate::accounts::{build_world_fault, close_accounts, close_hall, open_accounts};
use crate::fault::ServeFault;
use crate::lines::serve_lines;
use crate::rules_source::RulesSource;
use crate::world::World;
use account_book::Rules;
use account_hall::{Front, Hall, Named, build_hall};
use jm_base::Text;
use jm_edge::EdgeFault;
use server_users::{ConfigFault, Users, read_users};
use std::alloc::Global;
use std::sync::Wait;
use std::thread::Threads;

// Listens on a port, and serves so many lines.
fn serve_port<H: Threads + Wait + Sync, W: World, R: Rules>(
    rt: &H,
    alloc: Global,
    world: &mut W,
    users: &Users,
    hall: &Hall<W::Keep, R>,
    front: &mut Front,
    port: u16,
    count: u64,
) -> Result<(), EdgeFault>
    requires front { AreOf hall.now front.old.roots }
    requires none_in { front.old.inside ≡ 0 }
    requires names { front.old.admitted + count ≤ TheMaxNames }
    requires accounts { length users.now.account_ids ≤ length hall.now }
    ensures told { (did : List (Deed W.Keep W.Line W.Time)) × (left : List SessionView)
        × FrontGoes front.old.roots front.new.roots left × IsTold (W.told world.old)
        (W.told world.new) did × HasServedPort (sight_of W.Line.left W.Line.held
        W.Line.read_faults W.Line.put_faults W.Time.times W.Keep.kept W.Keep.append_faults)
        R.plan_of hall.now users.now left port count did result }
    ensures cause { IsCounted (W.faults world.old) (W.faults world.new) result }
    ensures later { W.faults world.old ≤ W.faults world.new }
    ensures load_count { W.load_faults world.new ≡ W.load_faults world.old }
    ensures front { AreOf hall.now front.new.roots }
    ensures openings { map opened_by front.new.roots ≡ map opened_by front.old.roots }
    ensures none_in { front.new.inside ≡ 0 }
{
    match world.listen(alloc, port) {
        Ok(()) => serve_lines(rt, alloc, world, users, hall, front, count),
        Err(fault) => Err(fault),
    }
}

// Serves so many lines over a hall, and takes it apart.
fn serve_hall<H: Threads + Wait + Sync, W: World, R: Rules>(
    rt: &H,
    alloc: Global,
    world: &mut W,
    users: &Users,
    hall: Hall<W::Keep, R>,
    front: Front,
    port: u16,
    count: u64,
) -> Result<(), ServeFault>
    requires front { AreOf hall front.roots }
    requires none_in { front.inside ≡ 0 }
    requires names { front.admitted + count ≤ TheMaxNames }
    requires accounts { length users.now.account_ids ≤ length hall }
    ensures told { (did : List (Deed W.Keep W.Line W.Time)) × IsTold (W.told world.old)
        (W.told world.new) did × HasServedHall (sight_of W.Line.left W.Line.held
        W.Line.read_faults W.Line.put_faults W.Time.times W.Keep.kept W.Keep.append_faults)
        R.plan_of users.now hall front.roots port count did result }
    ensures cause { IfErr result (IsCaused (W.faults world.old) (W.faults world.new)
        (W.load_faults world.old) (W.load_faults world.new)) }
    ensures later { (W.faults world.old ≤ W.faults world.new)
        × (W.load_faults world.old ≤ W.load_faults world.new) }
{
    let mut front = front;
    let done = serve_port(rt, alloc, world, users, &hall, &mut front, port, count);
    close_hall(world, hall, front);
    end_of(done)
}

// Returns how a server ends whose lines were served so.
fn end_of(done: Result<(), EdgeFault>) -> Result<(), ServeFault>
    ensures { result ≡ end_of done }
{
    match done {
        Ok(()) => Ok(()),
        Err(fault) => Err(build_world_fault(fault)),
    }
}

// Serves so many lines over these accounts, and closes them.
fn serve_accounts<H: Threads + Wait + Sync, W: World, R: Rules>(
    rt: &H,
    alloc: Global,
    world: &mut W,
    users: &Users,
    accounts: Vec<Named<W::Keep, R>>,
    port: u16,
    count: u64,
) -> Result<(), ServeFault>
    requires fresh { AllByRecursion IsFresh accounts.items }
    requires accounts { users.now.account_ids ≡ names_in accounts.items }
    requires count { count ≤ TheMaxNames }
    ensures told { (did : List (Deed W.Keep W.Line W.Time)) × IsTold (W.told world.old)
        (W.told world.new) did × HasServedOrNot (sight_of W.Line.left W.Line.held
        W.Line.read_faults W.Line.put_faults W.Time.times W.Keep.kept W.Keep.append_faults)
        R.plan_of users.now (openings_of accounts.items) port count did result }
    ensures cause { IfErr result (IsCaused (W.faults world.old) (W.faults world.new)
        (W.load_faults world.old) (W.load_faults world.new)) }
    ensures later { (W.faults world.old ≤ W.faults world.new)
        × (W.load_faults world.old ≤ W.load_faults world.new) }
{
    match build_hall(alloc, accounts) {
        Ok((hall, front)) => serve_hall(rt, alloc, world, users, hall, front, port, count),
        Err(accounts) => {
            close_accounts(world, accounts);
            Err(ServeFault::NoMemory)
        }
    }
}

// Opens the accounts of the users, and serves so many lines.
fn serve_users<H: Threads + Wait + Sync, W: World, F: RulesSource>(
    rt: &H,
    alloc: Global,
    world: &mut W,
    source: &F,
    users: &Users,
    folder: &Text,
    port: u16,
    count: u64,
) -> Result<(), ServeFault>
    requires { count ≤ TheMaxNames }
    ensures told { (did : List (Deed W.Keep W.Line W.Time)) × IsTold (W.told world.old)
        (W.told world.new) did × HasServedUsers (sight_of W.Line.left W.Line.held
        W.Line.read_faults W.Line.put_faults W.Time.times W.Keep.kept W.Keep.append_faults)
        F.Rules.plan_of (F.Rules.is_whole (F.rules source.now)) users.now folder.now port count did
        result }
    ensures cause { IfErr result (IsCaused (W.faults world.old) (W.faults world.new)
        (W.load_faults world.old) (W.load_faults world.new)) }
    ensures later { (W.faults world.old ≤ W.faults world.new)
        × (W.load_faults world.old ≤ W.load_faults world.new) }
{
    match open_accounts(alloc, world, source, folder, users.account_ids()) {
        Ok(accounts) => serve_accounts(rt, alloc, world, users, accounts, port, count),
        Err(fault) => Err(fault),
    }
}

/// Serves so many connections of a port over the accounts of a configuration, whose keepers are in
/// a folder. Up to `MAX_SESSIONS` connections are served at once, each in a thread of its own; a
/// connection for which no thread can be made is served before the next one is taken.
///
/// The accounts are opened in the order of their numbers, and the first that is refused ends the
/// server. Only then it listens. Whatever ends it, each line and each keeper that the world gave
/// comes back to it, once: a line once its session has left, and the keepers once all lines are
/// back. What each line was served is in `specs/Lines.antt`. A line whose connection fails does not
/// end the server.
///
/// If an account is refused, each keeper that comes back keeps what it kept. Otherwise it keeps
/// what its account opened with, which is what it loaded, and the entries that the sessions of the
/// lines gave it (`specs/Openings.antt`).
///
/// Fails with `BadConfig` if and only if the bytes of the configuration are not of the form, and
/// with `Damaged` if and only if what a keeper loaded is no valid account, as [`Book::start`] says.
/// Fails with `DeskFault` only if the world's count of faults rose, with `KeeperFault` only if a
/// keeper's count of faults of `load` rose, and with `NoMemory` if memory runs out.
///
/// [`Book::start`]: account_book::Book::start
pub fn serve<H: Threads + Wait + Sync, W: World, F: RulesSource>(
    rt: &H,
    alloc: Global,
    world: &mut W,
    source: &F,
    config: &Text,
    folder: &Text,
    port: u16,
    count: u64,
) -> Result<(), ServeFault>
    requires { count ≤ TheMaxNames }
    ensures told { (did : List (Deed W.Keep W.Line W.Time)) × IsTold (W.told world.old)
        (W.told world.new) did × HasRun (sight_of W.Line.left W.Line.held W.Line.read_faults
        W.Line.put_faults W.Time.times W.Keep.kept W.Keep.append_faults) F.Rules.plan_of
        (F.Rules.is_whole (F.rules source.now)) config.now folder.now port count did result }
    ensures cause { IfErr result (IsCaused (W.faults world.old) (W.faults world.new)
        (W.load_faults world.old) (W.load_faults world.new)) }
    ensures later { (W.faults world.old ≤ W.faults world.new)
        × (W.load_faults world.old ≤ W.load_faults world.new) }
{
    match world.text(alloc, config) {
        Ok(bytes) => match read_users(alloc, bytes.as_slice()) {
            Ok(users) => serve_users(rt, alloc, world, source, &users, folder, port, count),
            Err(fault) => Err(build_config_fault(fault)),
        },
        Err(fault) => Err(build_world_fault(fault)),
    }
}

// Returns how a server ends whose configuration is not read.
fn build_config_fault(fault: ConfigFault) -> ServeFault
    ensures { result ≡ config_fault_of fault }
{
    match fault {
        ConfigFault::BadConfig(place) => ServeFault::BadConfig(place),
        ConfigFault::NoMemory => ServeFault::NoMemory,
    }
}

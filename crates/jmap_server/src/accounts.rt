// The accounts of a server are opened and closed.
ghost use Rattle.std.specs.Prelude.{◌≡◌, ◌≤◌, ◌∷◌, [], reverse, List, IfErr, IfOk, OnOk, length, map, vec_capacity};
ghost use Rattle.std.specs.List.{AllByRecursion};
ghost use Rattle.account_hall.specs.Building.{IsFresh};
ghost use Rattle.account_hall.specs.Halls.{AreOf, entries_of};
ghost use Rattle.jmap_server.specs.Deeds.{Deed, GotKeeper, IsTold, lent_for};
ghost use Rattle.jmap_server.specs.Openings.{AreTakenOut, Closing, IsKeptBy, IsOpening, keepers_back, keepers_of, lent_of, opening_of, openings_of};
ghost use Rattle.jmap_server.specs.Serving.{HasOpened, HasOpenedAll, IsCaused, IsGivenBack, OpensOne, fault_of, names_in, start_fault_of};

use crate::fault::ServeFault;
use crate::rules_source::RulesSource;
use crate::world::World;
use account_book::{Book, Rules, StartFault};
use account_hall::{Front, Hall, Named};
use jm_base::Text;
use jm_edge::EdgeFault;
use std::alloc::Global;

/// Returns how a server ends whose world failed.
pub(crate) fn build_world_fault(fault: EdgeFault) -> ServeFault
    ensures { result ≡ fault_of fault }
{
    match fault {
        EdgeFault::Failed => ServeFault::DeskFault,
        EdgeFault::NoMemory => ServeFault::NoMemory,
    }
}

// Returns how a server ends of which an account is not opened.
fn start_fault_of(fault: StartFault) -> ServeFault
    ensures { result ≡ start_fault_of fault }
{
    match fault {
        StartFault::KeeperFault => ServeFault::KeeperFault,
        StartFault::Damaged { row, reason } => ServeFault::Damaged { row, reason },
        StartFault::NoMemory => ServeFault::NoMemory,
    }
}

// Opens the account of a name over its keeper. A keeper that is not taken goes back to the world.
fn open_over<W: World, R: Rules>(
    alloc: Global,
    world: &mut W,
    rules: R,
    name: Text,
    keeper: W::Keep,
) -> Result<Named<W::Keep, R>, ServeFault>
    requires { W.Keep.load_faults keeper ≡ 0 }
    ensures name { IfOk result (λ account. account.name ≡ name) }
    ensures fresh { IfOk result IsFresh }
    ensures opened { IfOk result (λ account. IsOpening W.Keep.kept (R.is_whole rules)
        (lent_for name keeper) (opening_of account)) }
    ensures told { OnOk result (W.told world.new ≡ W.told world.old) }
    ensures back { IfErr result (λ fault. IsGivenBack W.Keep.kept (R.is_whole rules)
        (W.told world.old) (W.told world.new) name keeper fault) }
    ensures cause { IfErr result (IsCaused (W.faults world.old) (W.faults world.new)
        (W.load_faults world.old) (W.load_faults world.new)) }
    ensures count { W.faults world.new ≡ W.faults world.old }
    ensures later { W.load_faults world.old ≤ W.load_faults world.new }
{
    match Book::start(alloc, keeper, rules) {
        Ok(book) => {
            book.keeps();
            Ok(Named { name, book })
        }
        Err((fault, keeper)) => {
            world.return_keeper(&name, keeper);
            Err(start_fault_of(fault))
        }
    }
}

// Opens the account of an identifier.
fn open_account<W: World, F: RulesSource>(
    alloc: Global,
    world: &mut W,
    source: &F,
    folder: &Text,
    id: &Text,
) -> Result<Named<W::Keep, F::Rules>, ServeFault>
    ensures told { (did : List (Deed W.Keep W.Line W.Time)) × IsTold (W.told world.old)
        (W.told world.new) did × OpensOne W.Keep.kept (F.Rules.is_whole (F.rules source.now))
        folder.now id.now did result }
    ensures name { IfOk result (λ account. account.name ≡ id.now) }
    ensures fresh { IfOk result IsFresh }
    ensures cause { IfErr result (IsCaused (W.faults world.old) (W.faults world.new)
        (W.load_faults world.old) (W.load_faults world.new)) }
    ensures later { (W.faults world.old ≤ W.faults world.new)
        × (W.load_faults world.old ≤ W.load_faults world.new) }
{
    let Ok(name) = Text::from_str(alloc, id.as_str()) else {
        return Err(ServeFault::NoMemory);
    };
    match world.keeper(alloc, folder, id) {
        Ok(keeper) => open_over(alloc, world, source.rules(), name, keeper),
        Err(fault) => Err(build_world_fault(fault)),
    }
}

/// Closes accounts, the last one first, and gives their keepers back to the world.
pub(crate) fn close_accounts<W: World, R: Rules>(world: &mut W, accounts: Vec<Named<W::Keep, R>>)
    ensures told { IsTold (W.told world.old) (W.told world.new)
        (map GotKeeper (reverse (keepers_of (openings_of accounts.items)))) }
    ensures count { W.faults world.new ≡ W.faults world.old }
    ensures later { W.load_faults world.old ≤ W.load_faults world.new }
{
    let mut accounts = accounts;
    'account: while !accounts.is_empty() {
        let account = accounts.take_last();
        close_account(world, account);
    }
}

// Closes an account, and gives its keeper back to the world.
fn close_account<W: World, R: Rules>(world: &mut W, account: Named<W::Keep, R>)
    ensures told { IsTold (W.told world.old) (W.told world.new)
        (GotKeeper (lent_of (opening_of account)) ∷ []) }
    ensures kept_by { IsKeptBy W.Keep.kept W.Keep.append_faults account.book.opened
        (entries_of account.book) account.book.keeper }
    ensures count { W.faults world.new ≡ W.faults world.old }
    ensures later { W.load_faults world.old ≤ W.load_faults world.new }
{
    let Named { name, book } = account;
    book.keeps();
    world.return_keeper(&name, book.end());
}

// Opens the accounts of these identifiers, for which there is room in the list, until one is
// refused.
fn open_each<W: World, F: RulesSource>(
    alloc: Global,
    world: &mut W,
    source: &F,
    folder: &Text,
    ids: &[Text],
    accounts: &mut Vec<Named<W::Keep, F::Rules>>,
) -> Result<(), ServeFault>
    requires empty { accounts.old.items ≡ [] }
    requires room { length ids.now ≤ vec_capacity accounts.old }
    ensures told { (did : List (Deed W.Keep W.Line W.Time)) × IsTold (W.told world.old)
        (W.told world.new) did × HasOpened W.Keep.kept (F.Rules.is_whole (F.rules source.now))
        folder.now ids.now (openings_of accounts.new.items) did result }
    ensures fresh { AllByRecursion IsFresh accounts.new.items }
    ensures cause { IfErr result (IsCaused (W.faults world.old) (W.faults world.new)
        (W.load_faults world.old) (W.load_faults world.new)) }
    ensures later { (W.faults world.old ≤ W.faults world.new)
        × (W.load_faults world.old ≤ W.load_faults world.new) }
{
    'id: for id in ids {
        match open_account(alloc, world, source, folder, id) {
            Ok(account) => accounts.push_reserved(account),
            Err(fault) => return Err(fault),
        }
    }
    Ok(())
}

/// Opens the accounts of these identifiers in order. If one is refused, all keepers go back to the
/// world.
pub(crate) fn open_accounts<W: World, F: RulesSource>(
    alloc: Global,
    world: &mut W,
    source: &F,
    folder: &Text,
    ids: &[Text],
) -> Result<Vec<Named<W::Keep, F::Rules>>, ServeFault>
    ensures told { (did : List (Deed W.Keep W.Line W.Time)) × IsTold (W.told world.old)
        (W.told world.new) did × HasOpenedAll W.Keep.kept (F.Rules.is_whole (F.rules source.now))
        folder.now ids.now (λ v. openings_of v.items) did result }
    ensures names { IfOk result (λ v. names_in v.items ≡ ids.now) }
    ensures fresh { IfOk result (λ v. AllByRecursion IsFresh v.items) }
    ensures cause { IfErr result (IsCaused (W.faults world.old) (W.faults world.new)
        (W.load_faults world.old) (W.load_faults world.new)) }
    ensures later { (W.faults world.old ≤ W.faults world.new)
        × (W.load_faults world.old ≤ W.load_faults world.new) }
{
    let Ok(mut accounts) = Vec::with_capacity(alloc, ids.len()) else {
        return Err(ServeFault::NoMemory);
    };
    match open_each(alloc, world, source, folder, ids, &mut accounts) {
        Ok(()) => Ok(accounts),
        Err(fault) => {
            close_accounts(world, accounts);
            Err(fault)
        }
    }
}

/// Takes all accounts out of a hall in which no session is, the last one first, and gives their
/// keepers back to the world.
pub(crate) fn close_hall<W: World, R: Rules>(world: &mut W, hall: Hall<W::Keep, R>, front: Front)
    requires hall { AreOf hall front.roots }
    requires none_in { front.inside ≡ 0 }
    ensures told { (closings : List (Closing W.Keep)) × IsTold (W.told world.old)
        (W.told world.new) (map GotKeeper (keepers_back closings)) × AreTakenOut W.Keep.kept
        W.Keep.append_faults hall front.roots closings }
    ensures count { W.faults world.new ≡ W.faults world.old }
    ensures later { W.load_faults world.old ≤ W.load_faults world.new }
{
    let mut hall = hall;
    let mut front = front;
    'account: while let Some(account) = hall.part(&mut front) {
        close_account(world, account);
    }
}

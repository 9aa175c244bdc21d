// Accounts with a few mailboxes, over keepers in memory.
ghost use Rattle.std.specs.Prelude.{◌≡◌, ◌+◌, [], IfOk, OnOk, vec_len};
ghost use Rattle.std.specs.List.{AllByRecursion};
ghost use Rattle.account_hall.specs.Building.{IsFresh};

use crate::asks::create_mailboxes;
use crate::timing::{invalid, no_memory};
use account_book::{Book, Rules, StartFault};
use account_hall::Named;
use jm_base::Text;
use keep_port::{Keeper, Kept, MemoryKeeper};
use mail_calls::MailRules;
use mail_records::Stamp;
use std::alloc::Global;
use std::io;

/// How many accounts a hall has.
pub(crate) const ACCOUNTS: u64 = 4;

// Opens a book over a keeper.
fn start_book<K: Keeper, R: Rules>(alloc: Global, keeper: K, rules: R) -> io::Result<Book<K, R>>
    ensures { IfOk result (λ book. book.since ≡ []) }
{
    match Book::start(alloc, keeper, rules) {
        Ok(book) => Ok(book),
        Err((StartFault::NoMemory, _)) => Err(no_memory()),
        Err(_) => Err(invalid()),
    }
}

fn add_mailboxes<K: Keeper, R: Rules>(alloc: Global, book: &mut Book<K, R>) -> io::Result<()> {
    let call = create_mailboxes(alloc)?;
    match book.perform(alloc, &call, Stamp { pass: 1, serial: 1 }, 0) {
        Ok(_) => Ok(()),
        Err(_) => Err(no_memory()),
    }
}

fn fill<K: Keeper, R: Rules>(alloc: Global, keeper: K, rules: R) -> io::Result<K> {
    let mut book = start_book(alloc, keeper, rules)?;
    add_mailboxes(alloc, &mut book)?;
    Ok(book.end())
}

/// Returns a keeper in memory of an account with a few mailboxes.
pub(crate) fn fill_keeper(alloc: Global) -> io::Result<MemoryKeeper> {
    fill(alloc, MemoryKeeper::new(alloc, Kept::new(alloc)), MailRules)
}

// Returns another keeper in memory of the same account.
fn copy_keeper(alloc: Global, filled: &MemoryKeeper) -> io::Result<MemoryKeeper> {
    match filled.kept().copy(alloc) {
        Ok(kept) => Ok(MemoryKeeper::new(alloc, kept)),
        Err(_) => Err(no_memory()),
    }
}

/// Opens the account of a keeper, over a copy of what it keeps.
pub(crate) fn open_book(
    alloc: Global,
    filled: &MemoryKeeper,
) -> io::Result<Book<MemoryKeeper, MailRules>> {
    let keeper = copy_keeper(alloc, filled)?;
    start_book(alloc, keeper, MailRules)
}

// Opens an account without a name over a keeper, and puts it after others.
#[tactic(auto, using(crate::proofs::Fresh::fresh_next))]
fn push_over<K: Keeper, R: Rules>(
    alloc: Global,
    accounts: &mut Vec<Named<K, R>>,
    keeper: K,
    rules: R,
) -> io::Result<()>
    requires { AllByRecursion IsFresh accounts.old.items }
    ensures fresh { OnOk result (AllByRecursion IsFresh accounts.new.items) }
    ensures count { OnOk result (vec_len accounts.new ≡ vec_len accounts.old + 1) }
{
    accounts.reserve(1)?;
    let book = start_book(alloc, keeper, rules)?;
    let name = Text::from_string(String::new(alloc));
    accounts.push_reserved(Named { name, book });
    Ok(())
}

// Opens the account of a keeper, over a copy of what it keeps, and puts it after others.
fn push_account(
    alloc: Global,
    accounts: &mut Vec<Named<MemoryKeeper, MailRules>>,
    filled: &MemoryKeeper,
) -> io::Result<()>
    requires { AllByRecursion IsFresh accounts.old.items }
    ensures fresh { OnOk result (AllByRecursion IsFresh accounts.new.items) }
    ensures count { OnOk result (vec_len accounts.new ≡ vec_len accounts.old + 1) }
{
    let keeper = copy_keeper(alloc, filled)?;
    push_over(alloc, accounts, keeper, MailRules)
}

/// Opens the accounts of a hall, each over a copy of what a keeper keeps.
pub(crate) fn open_accounts(
    alloc: Global,
    filled: &MemoryKeeper,
) -> io::Result<Vec<Named<MemoryKeeper, MailRules>>>
    ensures fresh { IfOk result (λ accounts. AllByRecursion IsFresh accounts.items) }
    ensures count { IfOk result (λ accounts. vec_len accounts ≡ 4) }
{
    let mut accounts = Vec::new(alloc);
    for number in 0..ACCOUNTS {
        push_account(alloc, &mut accounts, filled)?;
    }
    Ok(accounts)
}

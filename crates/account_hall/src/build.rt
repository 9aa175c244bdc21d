// Halls are built of books, and give them back.
ghost use Rattle.std.specs.Prelude.{◌≡◌, ◌+◌, ◌≤◌, ◌++◌, ◌∷◌, [], false, true, IfErr, IfNone, IfOk, IfSome, map, reverse, vec_capacity, vec_len};
ghost use Rattle.std.specs.List.{AllByRecursion};
ghost use Rattle.account_book.specs.Books.{IsValidFrom};
ghost use Rattle.account_hall.specs.Building.{AreBuilt, IsClosed, IsFresh, IsParted, first_root, named_of};
ghost use Rattle.account_lock.specs.Passes.{IsLast};
ghost use Rattle.account_hall.specs.Halls.{AreOf};

use crate::front::Front;
use crate::hall::{Hall, Room};
use crate::named_account::Named;
use account_book::{Book, Rules};
use account_lock::{AccountLock, Pass};
use keep_port::Keeper;
use std::alloc::{AllocFailed, Global};

// Builds a lock around a book. If memory runs out, the book comes back.
fn lock_book<K: Keeper, R: Rules>(
    alloc: Global,
    book: Book<K, R>,
) -> Result<(AccountLock<Book<K, R>>, Pass), Book<K, R>>
    requires { book.since ≡ [] }
    ensures lock { IfOk result (λ r. r.0.built ≡ book) }
    ensures root { IfOk result (λ r. r.1 ≡ first_root r.0) }
    ensures err { IfErr result (λ b. b ≡ book) }
{
    match Box::new(alloc, book) {
        Ok(boxed) => match AccountLock::build(alloc, boxed) {
            Ok(built) => Ok(built),
            Err(boxed) => Err(Box::into_inner(boxed)),
        },
        Err(failed) => {
            let AllocFailed { value } = failed;
            Err(value)
        }
    }
}

// Puts an account into a room of its own. If memory runs out, the account comes back.
fn share_one<K: Keeper, R: Rules>(
    alloc: Global,
    account: Named<K, R>,
) -> Result<(Room<K, R>, Pass), Named<K, R>>
    requires { IsFresh account }
    ensures room { IfOk result (λ r. named_of r.0 ≡ account) }
    ensures root { IfOk result (λ r. r.1 ≡ first_root r.0.lock) }
    ensures err { IfErr result (λ a. a ≡ account) }
{
    let Named { name, book } = account;
    match lock_book(alloc, book) {
        Ok((lock, root)) => Ok((Room { name, lock }, root)),
        Err(book) => Err(Named { name, book }),
    }
}

// Puts each account into a room, from the last one on, while there is memory. The answer is whether
// all are in rooms.
fn share_all<K: Keeper, R: Rules>(
    alloc: Global,
    accounts: &mut Vec<Named<K, R>>,
    rooms: &mut Vec<Room<K, R>>,
    roots: &mut Vec<Pass>,
) -> bool
    requires fresh { AllByRecursion IsFresh accounts.old.items }
    requires empty { (rooms.old.items ≡ []) × (roots.old.items ≡ []) }
    requires space { (vec_len accounts.old ≤ vec_capacity rooms.old)
        × (vec_len accounts.old ≤ vec_capacity roots.old) }
    ensures all { result ≡ true → accounts.new.items ≡ [] }
    ensures accounts { accounts.old.items ≡ accounts.new.items
        ++ reverse (map named_of rooms.new.items) }
    ensures roots { roots.new.items ≡ map (λ r. first_root r.lock) rooms.new.items }
    ensures count { vec_len accounts.new + vec_len rooms.new ≡ vec_len accounts.old }
    ensures capacity { vec_capacity accounts.new ≡ vec_capacity accounts.old }
{
    while !accounts.is_empty() {
        let account = accounts.take_last();
        match share_one(alloc, account) {
            Ok((room, root)) => {
                rooms.push_reserved(room);
                roots.push_reserved(root);
            }
            Err(account) => {
                accounts.push_reserved(account);
                return false;
            }
        }
    }
    true
}

// Takes an account out of its room. All sessions that were in have left.
fn close_room<K: Keeper, R: Rules>(room: Room<K, R>, root: Pass) -> Named<K, R>
    requires lock { root.lock ≡ room.lock.id }
    requires last { (root.root ≡ true) × IsLast root }
    ensures name { result.name ≡ room.name }
    ensures closed { IsClosed root result.book }
    ensures built { root.given ≡ 0 → result.book ≡ room.lock.built }
{
    let Room { name, lock } = room;
    let book = lock.close(root);
    Named {
        name,
        book: Box::into_inner(book),
    }
}

// Takes an account out of its room, in which no session was.
fn unshare_one<K: Keeper, R: Rules>(room: Room<K, R>, root: Pass) -> Named<K, R>
    requires { root ≡ first_root room.lock }
    ensures { result ≡ named_of room }
{
    close_room(room, root)
}

// Takes all accounts out of their rooms, from the last one on. In no room was a session.
fn unshare_all<K: Keeper, R: Rules>(
    accounts: &mut Vec<Named<K, R>>,
    mut rooms: Vec<Room<K, R>>,
    mut roots: Vec<Pass>,
)
    requires roots { roots.items ≡ map (λ r. first_root r.lock) rooms.items }
    requires space { vec_len accounts.old + vec_len rooms ≤ vec_capacity accounts.old }
    ensures { accounts.new.items ≡ accounts.old.items ++ reverse (map named_of rooms.items) }
{
    while !rooms.is_empty() {
        let room = rooms.take_last();
        let root = roots.take_last();
        accounts.push_reserved(unshare_one(room, root));
    }
}

/// Builds a hall of accounts, and its front. No book has an entry since it was opened.
///
/// Fails only if memory runs out. Then the accounts come back unchanged.
pub fn build_hall<K: Keeper, R: Rules>(
    alloc: Global,
    accounts: Vec<Named<K, R>>,
) -> Result<(Hall<K, R>, Front), Vec<Named<K, R>>>
    requires { AllByRecursion IsFresh accounts.items }
    ensures built { IfOk result (λ r. AreBuilt accounts.items r.0 r.1.roots) }
    ensures front { IfOk result (λ r. AreOf r.0 r.1.roots) }
    ensures inside { IfOk result (λ r. (r.1.inside ≡ 0) × (r.1.admitted ≡ 0)) }
    ensures err { IfErr result (λ a. a.items ≡ accounts.items) }
{
    let mut accounts = accounts;
    let Ok(mut rooms) = Vec::with_capacity(alloc, accounts.len()) else {
        return Err(accounts);
    };
    let Ok(mut roots) = Vec::with_capacity(alloc, accounts.len()) else {
        return Err(accounts);
    };
    accounts.reverse();
    if share_all(alloc, &mut accounts, &mut rooms, &mut roots) {
        let front = Front {
            roots,
            inside: 0,
            admitted: 0,
        };
        return Ok((Hall { rooms }, front));
    }
    unshare_all(&mut accounts, rooms, roots);
    accounts.reverse();
    Err(accounts)
}

impl<K: Keeper, R: Rules> Hall<K, R> {
    /// Takes the last account out of the hall, and its root out of the front. No session is in.
    /// Returns None if and only if no account is left. The account was valid by its rules at the
    /// end of each entry since it was opened.
    pub fn part(&mut self, front: &mut Front) -> Option<Named<K, R>>
        requires hall { AreOf self.old front.old.roots }
        requires none_in { front.old.inside ≡ 0 }
        ensures none { IfNone result ((self.old ≡ []) × (self.new ≡ [])) }
        ensures some { IfSome result (λ account. IsParted self.old self.new front.old.roots
            front.new.roots account) }
        ensures valid { IfSome result (λ account. IsValidFrom (R.is_whole account.book.rules)
            account.book.before account.book.history) }
        ensures hall { AreOf self.new front.new.roots }
        ensures inside { (front.new.inside ≡ 0) × (front.new.admitted ≡ front.old.admitted) }
    {
        if self.rooms.is_empty() {
            return None;
        }
        let room = self.rooms.take_last();
        let root = front.roots.take_last();
        let account = close_room(room, root);
        account.book.keeps();
        Some(account)
    }
}

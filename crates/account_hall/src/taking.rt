// Accounts are taken out of their locks, the one with the lower number first, and given back, that
// one last.
ghost use Rattle.std.specs.Prelude.{◌≡◌, ◌≢◌, ◌<◌, None, length, map};
ghost use Rattle.account_hall.specs.Halls.{AreOf, room_view};
ghost use Rattle.account_hall.specs.HeldAccounts.{AreReleased, AreTaken, HasTurnAt, IsFreeAt, IsTaken, MayRelease, released_to, turn_at};

use crate::hall::Room;
use crate::held_accounts::Held;
use account_book::Rules;
use account_lock::Pass;
use keep_port::Keeper;
use std::sync::Wait;

// Takes an account, perhaps by waiting for other sessions that use it.
fn take_account<W: Wait, K: Keeper, R: Rules>(
    rt: &W,
    rooms: &Vec<Room<K, R>>,
    list: &mut Vec<Pass>,
    account: u64,
) -> Held<K, R>
    requires hall { AreOf (map room_view rooms.now.items) list.old.items }
    requires account { account < length rooms.now.items }
    requires free { IsFreeAt account list.old.items }
    ensures { IsTaken account None list.old.items list.new.items result }
{
    let index = account as usize;
    let room = &rooms[index];
    let pass = &mut list[index];
    let book = room.lock.take(rt, pass);
    Held {
        account,
        number: pass.name(),
        book,
    }
}

// Takes another account, with a higher number than the one that the session holds, while it has the
// turn there. As all sessions take their accounts in this order, no two wait for each other.
fn take_higher<W: Wait, K: Keeper, R: Rules>(
    rt: &W,
    rooms: &Vec<Room<K, R>>,
    list: &mut Vec<Pass>,
    held: &Held<K, R>,
    account: u64,
) -> Held<K, R>
    requires order { held.now.account < account }
    requires hall { AreOf (map room_view rooms.now.items) list.old.items }
    requires account { account < length rooms.now.items }
    requires free { IsFreeAt account list.old.items }
    requires held { HasTurnAt held.now.account list.old.items }
    ensures { IsTaken account (turn_at list.old.items held.now.account) list.old.items
        list.new.items result }
{
    let room = &rooms[account as usize];
    let (lower, higher) = list.as_mut_slice().split_at_mut(account as usize);
    let pass = &mut higher[0];
    let book = room
        .lock
        .take_within(rt, pass, &lower[held.account as usize]);
    Held {
        account,
        number: pass.name(),
        book,
    }
}

/// Takes two accounts, the one with the lower number first.
pub(crate) fn take_both<W: Wait, K: Keeper, R: Rules>(
    rt: &W,
    rooms: &Vec<Room<K, R>>,
    list: &mut Vec<Pass>,
    from: u64,
    to: u64,
) -> (Held<K, R>, Held<K, R>)
    requires hall { AreOf (map room_view rooms.now.items) list.old.items }
    requires from { from < length rooms.now.items }
    requires to { to < length rooms.now.items }
    requires apart { from ≢ to }
    requires free { IsFreeAt from list.old.items × IsFreeAt to list.old.items }
    ensures { AreTaken from to list.old.items list.new.items result.0 result.1 }
{
    if from < to {
        let first = take_account(rt, rooms, list, from);
        let second = take_higher(rt, rooms, list, &first, to);
        return (first, second);
    }
    let first = take_account(rt, rooms, list, to);
    let second = take_higher(rt, rooms, list, &first, from);
    (second, first)
}

// Gives an account back.
fn give_back<K: Keeper, R: Rules>(rooms: &Vec<Room<K, R>>, list: &mut Vec<Pass>, held: Held<K, R>)
    requires hall { AreOf (map room_view rooms.now.items) list.old.items }
    requires account { held.account < length rooms.now.items }
    requires held { MayRelease list.old.items held }
    ensures { list.new.items ≡ released_to list.old.items None held }
{
    let Held { account, book, .. } = held;
    let index = account as usize;
    let room = &rooms[index];
    let pass = &mut list[index];
    room.lock.give(pass, book);
}

// Gives an account back while the session has the turn at another one, with a lower number.
fn give_higher<K: Keeper, R: Rules>(
    rooms: &Vec<Room<K, R>>,
    list: &mut Vec<Pass>,
    low: &Held<K, R>,
    held: Held<K, R>,
)
    requires order { low.now.account < held.account }
    requires hall { AreOf (map room_view rooms.now.items) list.old.items }
    requires account { held.account < length rooms.now.items }
    requires low { HasTurnAt low.now.account list.old.items }
    requires held { MayRelease list.old.items held }
    ensures { list.new.items ≡ released_to list.old.items (turn_at list.old.items low.now.account)
        held }
{
    let Held { account, book, .. } = held;
    let room = &rooms[account as usize];
    let (lower, rest) = list.as_mut_slice().split_at_mut(account as usize);
    room.lock
        .give_within(&mut rest[0], book, &lower[low.account as usize]);
}

/// Gives two accounts back, the one with the lower number last.
pub(crate) fn give_both<K: Keeper, R: Rules>(
    rooms: &Vec<Room<K, R>>,
    list: &mut Vec<Pass>,
    from: Held<K, R>,
    to: Held<K, R>,
)
    requires hall { AreOf (map room_view rooms.now.items) list.old.items }
    requires account { (from.account < length rooms.now.items)
        × (to.account < length rooms.now.items) }
    requires apart { from.account ≢ to.account }
    requires held { MayRelease list.old.items from × MayRelease list.old.items to }
    ensures { AreReleased list.old.items list.new.items from to }
{
    if from.account < to.account {
        give_higher(rooms, list, &from, to);
        give_back(rooms, list, from);
        return;
    }
    give_higher(rooms, list, &to, from);
    give_back(rooms, list, to);
}

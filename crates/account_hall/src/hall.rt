// A hall of accounts.
use account_book::{Book, Rules};
use account_lock::AccountLock;
use jm_base::Text;
use keep_port::Keeper;
use std::marker::Model;

/// An account with its lock.
#[derive(Drop)]
pub(crate) struct Room<K: Keeper, R: Rules> {
    pub(crate) name: Text,
    pub(crate) lock: AccountLock<Book<K, R>>,
}

impl<K: Keeper, R: Rules> Model for Room<K, R> {
    ghost use Rattle.account_book.specs.Books.{BookView};
    ghost use Rattle.account_hall.specs.Halls.{RoomFacts};

    ghost Value = { RoomFacts (BookView K R) };

    ghost view = { λ r. record { name = r.name; lock = r.lock } };
}

/// Several accounts, each with a lock. Contracts see the name and the lock of each.
#[derive(Drop)]
pub struct Hall<K: Keeper, R: Rules> {
    pub(crate) rooms: Vec<Room<K, R>>,
}

impl<K: Keeper, R: Rules> Model for Hall<K, R> {
    ghost use Rattle.std.specs.Prelude.{List, map};
    ghost use Rattle.account_hall.specs.Halls.{RoomView, room_view};

    ghost Value = { List RoomView };

    ghost view = { λ h. map room_view h.rooms.items };
}

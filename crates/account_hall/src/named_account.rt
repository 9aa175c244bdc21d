// An account of a hall.
use account_book::{Book, Rules};
use jm_base::Text;
use keep_port::Keeper;

/// An account and its name.
#[derive(Drop)]
pub struct Named<K: Keeper, R: Rules> {
    pub name: Text,
    pub book: Book<K, R>,
}

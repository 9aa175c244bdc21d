// The users of a server, and their accounts.
ghost use Rattle.std.specs.Prelude.{◌≡◌};
ghost use Rattle.server_users.specs.Configuration.{AreNumbered};
ghost use Rattle.server_users.specs.Lookups.{user_with};

use crate::tokens::find_token;
use jm_base::{Sequence, Text, Texts};
use std::marker::Model;

/// An account as a user sees it.
#[derive(Debug, Drop)]
pub struct UserAccount {
    /// The account's number among those of the server, from 0.
    pub number: u64,
    pub id: Text,
    pub name: Text,
    pub read_only: bool,
}

/// A user. Tokens and names of users are distinct and not empty.
#[derive(Drop)]
pub struct User {
    pub name: Text,
    pub token: Text,

    /// The first account is the primary one.
    pub accounts: Sequence<UserAccount>,
}

/// The users of a server, seen by contracts as a `Configuration`. The number of each account is the
/// index of its identifier among those of the server.
#[derive(Drop)]
pub struct Users {
    users: Sequence<User>,
    account_ids: Texts,
}

impl Model for Users {
    ghost use Rattle.server_users.specs.Configuration.{Configuration, AreNumbered};

    ghost Value = { Configuration };

    ghost view = { λ u. record { users = u.users; account_ids = u.account_ids } };

    ghost invariant = { λ u. AreNumbered
        (record { users = u.users; account_ids = u.account_ids }) };
}

impl Users {
    // Returns the users with accounts of these identifiers.
    pub(crate) fn new(users: Sequence<User>, account_ids: Texts) -> Users
        requires { AreNumbered (record { users = users; account_ids = account_ids }) }
        ensures { result ≡ record { users = users; account_ids = account_ids } }
    {
        Users { users, account_ids }
    }

    /// Lends the users, in the order of the configuration.
    pub fn as_slice(&self) -> &[User]
        ensures users { result.now ≡ self.now.users }
        ensures numbered { AreNumbered self.now }
    {
        self.users.as_slice()
    }

    /// Lends the identifiers of the accounts, by number.
    pub fn account_ids(&self) -> &[Text]
        ensures { result.now ≡ self.now.account_ids }
    {
        self.account_ids.as_slice()
    }

    /// Returns the index of the user with a token, if there is one. The time that it takes does not
    /// tell where the token differs from another.
    pub fn find_user(&self, token: &[u8]) -> Option<usize>
        ensures { result ≡ user_with token.now self.now.users }
    {
        find_token(self.users.as_slice(), token)
    }
}

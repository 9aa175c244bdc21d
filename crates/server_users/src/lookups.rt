// The account that an identifier names.
ghost use Rattle.std.specs.Prelude.{◌≡◌, option_map};
ghost use Rattle.server_users.specs.Lookups.{account_with};

use crate::users::UserAccount;

/// Returns the account with an identifier, if a user with these accounts has one. Identifiers are
/// compared as bytes.
pub fn find_account<'a>(accounts: &'a [UserAccount], id: &[u8]) -> Option<&'a UserAccount>
    ensures { option_map (λ a. a.now) result ≡ account_with id.now accounts.now }
{
    let mut rest = accounts;
    'account: while let Some((account, more)) = rest.split_first() {
        if account.id.as_bytes() == id {
            return Some(account);
        }
        rest = more;
    }
    None
}

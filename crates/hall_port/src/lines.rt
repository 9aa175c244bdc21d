// Uploads of lines, each to the first account that the user may change.
ghost use Rattle.std.specs.Prelude.{◌≡◌, option_map};
ghost use Rattle.hall_port.specs.Lines.{first_changeable, uploaded_as};

use batch_lines::Uploaded;
use jm_base::Text;
use jmap_http::Stored;
use server_users::UserAccount;

/// Finds the first account that the user may change.
pub(crate) fn find_changeable(accounts: &[UserAccount]) -> Option<&UserAccount>
    ensures { option_map (λ a. a.now) result ≡ first_changeable accounts.now }
{
    let mut rest = accounts;
    'account: while let Some((account, more)) = rest.split_first() {
        if !account.read_only {
            return Some(account);
        }
        rest = more;
    }
    None
}

/// Returns what is answered to a line, where this is answered to the upload to an account.
pub(crate) fn build_uploaded(account: Text, stored: Stored) -> Uploaded
    ensures { result ≡ uploaded_as account stored }
{
    match stored {
        Stored::Kept(blob) => Uploaded::Kept { account, blob },
        Stored::Full => Uploaded::Full,
        Stored::Failed => Uploaded::Failed,
    }
}

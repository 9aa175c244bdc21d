// What a keeper keeps is read as an account.
ghost use Rattle.std.specs.Prelude.{◌≡◌, Err, IfOk, IfErr};
ghost use Rattle.mail_records.specs.Histories.{History};
ghost use Rattle.account_book.specs.Opening.{IsContentFault, IsEndFault, IsLoading, MakesHistory};

use crate::loading::{Loading, load_rows};
use crate::{Account, Reason, Rules, StartFault};
use keep_port::Kept;
use std::alloc::Global;

// Drops an account, and returns why it is not opened.
fn stop(account: Account, fault: StartFault) -> Result<Account, StartFault>
    ensures { result ≡ Err fault }
{
    drop(account);
    Err(fault)
}

// Returns the account, if it is valid.
fn check_account<R: Rules>(
    alloc: Global,
    rules: &R,
    account: Account,
    last: u64,
) -> Result<Account, StartFault>
    ensures same { IfOk result (λ a. a.history ≡ account.history) }
    ensures valid { IfOk result (λ a. R.is_whole rules.now a.history) }
    ensures err { IfErr result (IsEndFault (R.is_whole rules.now) account.history last) }
{
    match rules.whole(alloc, &account) {
        Ok(true) => Ok(account),
        Ok(false) => {
            let reason = Reason::NotWhole;
            stop(account, StartFault::Damaged { row: last, reason })
        }
        Err(_) => stop(account, StartFault::NoMemory),
    }
}

// Returns the account that the rows make, if it is valid. This is the last row.
fn finish_loading<R: Rules>(
    alloc: Global,
    rules: &R,
    loading: Loading,
    last: u64,
) -> Result<Account, StartFault>
    ensures same { IfOk result (λ a. (h : History) → IsLoading loading h → a.history ≡ h) }
    ensures valid { IfOk result (λ a. R.is_whole rules.now a.history) }
    ensures err { IfErr result (λ e. (h : History) → IsLoading loading h
        → IsEndFault (R.is_whole rules.now) h last e) }
{
    match loading {
        Loading::Fitting(account) => check_account(alloc, rules, account, last),
        Loading::Overfull(_) => Err(StartFault::Damaged {
            row: last,
            reason: Reason::NotWhole,
        }),
    }
}

/// Returns the account that a content makes, if it is valid.
pub(crate) fn load_content<R: Rules>(
    alloc: Global,
    rules: &R,
    content: Kept,
) -> Result<Account, StartFault>
    ensures makes { IfOk result (λ a. MakesHistory content a.history) }
    ensures valid { IfOk result (λ a. R.is_whole rules.now a.history) }
    ensures err { IfErr result (IsContentFault (R.is_whole rules.now) content) }
{
    let Kept { base, rows } = content;
    if base.is_some() {
        return Err(StartFault::Damaged {
            row: 0,
            reason: Reason::NotACommit(0),
        });
    }
    let count = rows.len();
    let last = count as u64;
    match load_rows(alloc, rows) {
        Ok(loading) => finish_loading(alloc, rules, loading, last),
        Err(fault) => Err(fault),
    }
}

// The rules of mail accounts.
ghost use Rattle.std.specs.Prelude.{◌≡◌};

use crate::blobs::{plan_bytes, plan_states, plan_upload};
use crate::copies::{plan_fetch, plan_placement};
use crate::plans::plan_method;
use crate::validity::is_whole;
use account_book::{Account, Ask, Call, Plan, Rules};
use jm_base::NoMemory;
use std::alloc::Global;

/// The rules of mail accounts. `specs/Plans.antt` says what a call plans, and
/// `specs/ValidAccounts.antt` when an account is valid.
#[derive(Drop)]
pub struct MailRules;

impl Rules for MailRules {
    ghost use Rattle.mail_summary.specs.Summaries.{summary};
    ghost use Rattle.mail_calls.specs.Plans.{call_plan};
    ghost use Rattle.mail_calls.specs.ValidAccounts.{IsWhole};
    ghost use Rattle.mail_calls.specs.RuleLaws.{plan_fits, plan_small, plan_formed, plan_keeps, plan_reads, whole_founded, whole_sound, whole_limits, whole_blobs, whole_ignores, whole_moves, whole_empty};

    ghost plan_of = { λ r h call moment. call_plan h call moment };

    ghost is_whole = { λ r h. IsWhole summary h };

    fn plan(
        &self,
        alloc: Global,
        account: &Account,
        call: &Call,
        moment: u64,
    ) -> Result<Plan, NoMemory> {
        match &call.ask {
            Ask::Method(method) => {
                plan_method(alloc, account, method, &call.made, call.read_only, moment)
            }
            Ask::Upload(bytes) => plan_upload(alloc, account, bytes.as_slice()),
            Ask::Blob(name) => plan_bytes(alloc, account, name.as_str()),
            Ask::States => Ok(plan_states(alloc, account)),
            Ask::Fetch(copy) => plan_fetch(alloc, account, copy),
            Ask::Place(copy, carried) => {
                plan_placement(alloc, account, copy, carried, &call.made, moment)
            }
        }
    }

    fn whole(&self, alloc: Global, account: &Account) -> Result<bool, NoMemory> {
        is_whole(alloc, account)
    }

    ghost fits = { λ r h call moment low whole. plan_fits h call moment low whole };

    ghost small = { λ r h call moment low whole. plan_small h call moment low whole };

    ghost formed = { λ r h call moment stamp low whole.
        plan_formed h call moment stamp low whole };

    ghost keeps = { λ r h call moment stamp low whole within.
        plan_keeps h call moment stamp low whole within };

    ghost reads = { λ r h call moment low whole. plan_reads h call moment };

    ghost founded = { λ r h whole. whole_founded h whole };

    ghost sound = { λ r h whole. whole_sound h whole };

    ghost limits = { λ r h whole. whole_limits h whole };

    ghost blobs = { λ r h whole. whole_blobs h whole };

    ghost ignores = { λ r h. whole_ignores h };

    ghost moves = { λ r h c low whole. whole_moves h c low whole };

    ghost empty = { λ r. whole_empty };
}

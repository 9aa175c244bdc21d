// Rules by which each method, and each copy, adds a mailbox.
ghost use Rattle.std.specs.Prelude.{◌≡◌, ◌↔◌, ◌∷◌, [], false, IfOk, IsTrue};
ghost use Rattle.mail_records.specs.declared.edits.Edit.TheVariants.{PutMailbox as ThePutMailbox};
ghost use Rattle.tests_halls.specs.TestRules.{IsAdded, add, added, fetched, idle, placed};

use account_book::{Account, Ask, Call, Carried, Out, Plan, Rules};
use jm_base::{Blobs, Kind, NoMemory, Text};
use jm_json::{Invocation, Invocations, Items, Json, Made, Replied};
use mail_records::{Edit, Edits, Mailbox};
use std::alloc::Global;

// A method adds a mailbox without a name, and is answered with its number. A copy adds one where it
// is placed. Nothing else changes anything.
#[derive(Drop)]
pub(crate) struct Adding;

fn add_mailbox(alloc: Global, number: u64) -> Result<Edits, NoMemory>
    ensures { IfOk result (λ es. es ≡ ThePutMailbox (added number) false false ∷ []) }
{
    let item = Mailbox {
        number,
        name: Text::from_string(String::new(alloc)),
        parent: None,
        role: None,
        sort_order: 0,
        subscribed: false,
        total_emails: 0,
        unread_emails: 0,
        total_threads: 0,
        unread_threads: 0,
    };
    let mut edits = Edits::new(alloc);
    edits.push(Edit::PutMailbox {
        item,
        was: false,
        counts: false,
    })?;
    Ok(edits)
}

fn add(alloc: Global, number: u64) -> Result<Plan, NoMemory>
    ensures { IfOk result (λ p. p ≡ add number) }
{
    let edits = add_mailbox(alloc, number)?;
    Ok(Plan {
        out: Out::Uploaded(number),
        blobs: Blobs::new(alloc),
        edits,
    })
}

fn place(alloc: Global, call: &Invocation, number: u64) -> Result<Plan, NoMemory>
    ensures { IfOk result (λ p. p ≡ placed call.now number) }
{
    let mut responses = Invocations::new(alloc);
    responses.push(call.copy(alloc)?)?;
    let edits = add_mailbox(alloc, number)?;
    Ok(Plan {
        out: Out::Replies(Replied {
            responses,
            made: Made::new(alloc),
        }),
        blobs: Blobs::new(alloc),
        edits,
    })
}

fn fetch(alloc: Global) -> Plan
    ensures { result ≡ fetched }
{
    Plan {
        out: Out::Carried(Carried {
            emails: Items::new(alloc),
            blobs: Blobs::new(alloc),
        }),
        blobs: Blobs::new(alloc),
        edits: Edits::new(alloc),
    }
}

fn idle(alloc: Global) -> Plan
    ensures { result ≡ idle }
{
    Plan {
        out: Out::Full,
        blobs: Blobs::new(alloc),
        edits: Edits::new(alloc),
    }
}

fn is_added(account: &Account) -> bool
    ensures { IsTrue result ↔ IsAdded account.now.history }
{
    let _blobs = account.blobs();
    if !account.is_sound() {
        return false;
    }
    account.is_within_limit()
}

impl Rules for Adding {
    ghost use Rattle.tests_halls.specs.TestRules.{adding_plan, IsAdded};
    ghost use Rattle.tests_halls.specs.TestRulesLaws.{adding_fits, adding_small, adding_formed, adding_keeps, adding_reads, adding_ignores, adding_moves, adding_empty};

    ghost plan_of = { λ r h call moment. adding_plan h call };

    ghost is_whole = { λ r h. IsAdded h };

    fn plan(
        &self,
        alloc: Global,
        account: &Account,
        call: &Call,
        _moment: u64,
    ) -> Result<Plan, NoMemory> {
        let number = account.content().next(Kind::Mailbox);
        match &call.ask {
            Ask::Method(_) => add(alloc, number),
            Ask::Place(call, _) => place(alloc, call, number),
            Ask::Fetch(_) => Ok(fetch(alloc)),
            Ask::Upload(_) | Ask::Blob(_) | Ask::States => Ok(idle(alloc)),
        }
    }

    fn whole(&self, _alloc: Global, account: &Account) -> Result<bool, NoMemory> {
        Ok(is_added(account))
    }

    ghost fits = { λ r h call moment early whole. adding_fits h call whole };

    ghost small = { λ r h call moment early whole. adding_small h call };

    ghost formed = { λ r h call moment stamp early whole. adding_formed h call stamp };

    ghost keeps = { λ r h call moment stamp early whole within. adding_keeps h call stamp whole within };

    ghost reads = { λ r h call moment early whole. adding_reads h call };

    ghost sound = { λ r h whole. whole.sound };

    ghost founded = { λ r h whole. whole.founded };

    ghost limits = { λ r h whole. whole.within };

    ghost blobs = { λ r h whole. whole.few };

    ghost ignores = { λ r h. adding_ignores h };

    ghost moves = { λ r h c low whole. adding_moves h c low whole };

    ghost empty = { λ r. adding_empty };
}

// An invocation; which one plays no part.
pub(crate) fn invocation(alloc: Global) -> Result<Invocation, NoMemory> {
    Ok(Invocation {
        name: Text::from_str(alloc, "a")?,
        args: Json::Null,
        id: Text::from_str(alloc, "0")?,
    })
}

// A call that adds a mailbox.
pub(crate) fn adding_call(alloc: Global) -> Result<Call, NoMemory> {
    Ok(Call {
        ask: Ask::Method(invocation(alloc)?),
        made: Made::new(alloc),
        read_only: false,
    })
}

// The number of the mailbox that a call added, else 0.
pub(crate) fn added_number(out: &Out) -> u64 {
    match out {
        Out::Uploaded(number) => *number,
        _ => 0,
    }
}

// The numbers of the records that a client asks for and drops.
ghost use Rattle.std.specs.Prelude.{◌≡◌, ℕ, List, ◌∷◌, ◌++◌, IfOk, OnOk, filter_map, map};
ghost use Rattle.std.specs.List.Sorted.{IsStrictlyIncreasing};
ghost use Rattle.jm_base.specs.Splices.{has, without};
ghost use Rattle.jm_json.specs.Json.{member_of};
ghost use Rattle.jm_json.specs.Tree.{Tree};
ghost use Rattle.client_cache.specs.Records.{in_order, thread_of, thread_of_members, threads_of};

use jm_base::{Kind, NoMemory, Numbers, put_in_order, splice};
use jm_json::{Member, Members};
use method_args::read_id_of;
use std::alloc::Global;

/// Puts numbers in ascending order, and leaves each once.
pub(crate) fn sort(numbers: &mut Vec<u64>)
    ensures { numbers.new.items ≡ in_order numbers.old.items }
{
    put_in_order(numbers);
}

/// Removes numbers from a list.
pub(crate) fn remove_numbers(
    alloc: Global,
    list: &mut Vec<u64>,
    removed: &[u64],
) -> Result<(), NoMemory>
    ensures { OnOk result (list.new.items ≡ without list.old.items removed.now) }
{
    match splice(alloc, list, removed, &[]) {
        Ok(()) => Ok(()),
        Err(_) => Err(NoMemory),
    }
}

/// Returns two lists, one after the other.
pub(crate) fn join(alloc: Global, one: &[u64], other: &[u64]) -> Result<Vec<u64>, NoMemory>
    ensures { IfOk result (λ v. v.items ≡ one.now ++ other.now) }
{
    let mut all = Vec::from_slice(alloc, one)?;
    all.extend_from_slice(other)?;
    Ok(all)
}

/// Returns the numbers of a list in ascending order, each once.
pub(crate) fn copy_in_order(alloc: Global, numbers: &[u64]) -> Result<Vec<u64>, NoMemory>
    ensures rise { IfOk result (λ v. IsStrictlyIncreasing v.items) }
    ensures same { IfOk result (λ v. (n : ℕ) → has v.items n ≡ has numbers.now n) }
{
    let mut copy = Vec::from_slice(alloc, numbers)?;
    put_in_order(&mut copy);
    Ok(copy)
}

// ---- the threads of emails

fn read_thread_of(email: &Members) -> Option<u64>
    ensures { result ≡ thread_of_members email.now }
{
    match email.get("threadId") {
        Some(id) => read_id_of(Kind::Thread, id),
        None => None,
    }
}

fn read_thread(email: &Member) -> Option<u64>
    ensures { result ≡ thread_of (member_of email.now) }
{
    match email.value.as_object() {
        Some(members) => read_thread_of(members),
        None => None,
    }
}

fn push_thread(threads: &mut Vec<u64>, email: &Member) -> Result<(), NoMemory>
    ensures { OnOk result ((rest : List (List ℕ × Tree)) → threads.new.items
        ++ filter_map thread_of rest
        ≡ threads.old.items ++ filter_map thread_of (member_of email.now ∷ rest)) }
{
    match read_thread(email) {
        Some(thread) => {
            threads.push(thread)?;
            Ok(())
        }
        None => Ok(()),
    }
}

/// Returns the threads of emails, in ascending order, each once.
pub(crate) fn collect_threads(alloc: Global, emails: &[Member]) -> Result<Numbers, NoMemory>
    ensures { IfOk result (λ ns. ns ≡ threads_of (map member_of emails.now)) }
{
    let mut threads = Vec::new(alloc);
    for email in emails {
        push_thread(&mut threads, email)?;
    }
    sort(&mut threads);
    Ok(Numbers::from_vec(threads))
}

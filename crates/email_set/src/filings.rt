// The mailboxes and keywords that an object has (RFC 8621, section 4.1.1).
ghost use Rattle.std.specs.Prelude.{◌≡◌, IfOk, codes, map, option_map};
ghost use Rattle.jm_base.specs.declared.identifiers.Kind.TheVariants.{Mailbox as OfMailbox};
ghost use Rattle.jm_json.specs.Find.{find};
ghost use Rattle.jm_json.specs.Json.{member_of, tree_of};
ghost use Rattle.mail_counts.specs.Touched.{rising};
ghost use Rattle.method_args.specs.Ids.{id_number};
ghost use Rattle.set_parts.specs.Names.{meanings};
ghost use Rattle.email_set.specs.Filings.{as_written, filing_in, filing_with, written_mailboxes, written_names};

use crate::filing::Filing;
use jm_base::{NoMemory, Numbers, Texts};
use jm_json::{Json, Member, Members};
use mail_counts::put_in_order;
use set_parts::{is_true, read_mailbox_number};
use std::alloc::Global;

// Returns the number of the mailbox whose id a string is.
fn read_number(id: &str) -> Option<u64>
    ensures { result ≡ id_number OfMailbox id.now }
{
    read_mailbox_number(id.as_bytes())
}

// ---- keywords

fn collect_names(alloc: Global, members: &[Member]) -> Result<Option<Texts>, NoMemory>
    ensures { IfOk result (λ o. o ≡ meanings as_written (map member_of members.now)) }
{
    let mut names = Texts::new(alloc);
    for member in members {
        if !is_true(&member.value) {
            return Ok(None);
        }
        names.push(member.name.copy()?)?;
    }
    Ok(Some(names))
}

fn read_names(alloc: Global, members: &Members) -> Result<Option<Texts>, NoMemory>
    ensures { IfOk result (λ o. o ≡ written_names (find (codes "keywords") members.now)) }
{
    let Some(tree) = members.get("keywords") else {
        return Ok(None)
    };
    let Some(object) = tree.as_object() else {
        return Ok(None)
    };
    collect_names(alloc, object.as_slice())
}

// ---- mailboxes

fn collect_numbers(alloc: Global, members: &[Member]) -> Result<Option<Vec<u64>>, NoMemory>
    ensures { IfOk result (λ o. option_map (λ v. v.items) o
        ≡ meanings (id_number OfMailbox) (map member_of members.now)) }
{
    let mut numbers = Vec::with_capacity(alloc, members.len())?;
    for member in members {
        if !is_true(&member.value) {
            return Ok(None);
        }
        match read_number(member.name.as_str()) {
            Some(number) => numbers.push(number)?,
            None => return Ok(None),
        }
    }
    Ok(Some(numbers))
}

fn order_numbers(numbers: Option<Vec<u64>>) -> Option<Numbers>
    ensures { result ≡ option_map rising (option_map (λ v. v.items) numbers) }
{
    match numbers {
        Some(numbers) => {
            let mut numbers = numbers;
            put_in_order(&mut numbers);
            Some(Numbers::from_vec(numbers))
        }
        None => None,
    }
}

fn read_numbers(alloc: Global, members: &Members) -> Result<Option<Numbers>, NoMemory>
    ensures { IfOk result (λ o. o ≡ written_mailboxes (find (codes "mailboxIds") members.now)) }
{
    let Some(tree) = members.get("mailboxIds") else {
        return Ok(None)
    };
    let Some(object) = tree.as_object() else {
        return Ok(None)
    };
    let numbers = collect_numbers(alloc, object.as_slice())?;
    Ok(order_numbers(numbers))
}

// ---- both

fn read_members(alloc: Global, members: &Members) -> Result<Option<Filing>, NoMemory>
    ensures { IfOk result (λ o. o
        ≡ filing_with (written_names (find (codes "keywords") members.now))
        (written_mailboxes (find (codes "mailboxIds") members.now))) }
{
    let Some(keywords) = read_names(alloc, members)? else {
        return Ok(None)
    };
    let Some(mailboxes) = read_numbers(alloc, members)? else {
        return Ok(None)
    };
    Ok(Some(Filing {
        mailboxes,
        keywords,
    }))
}

/// Reads the mailboxes and keywords of an email in an object of it, as one that a client keeps: its
/// members `keywords` and `mailboxIds`, each an object with true at each of its names. Any name is
/// taken for a keyword, and there may be no mailbox. Returns `None` if a member is missing or is
/// none of these; other members are not looked at.
pub fn read_filing(alloc: Global, object: &Json) -> Result<Option<Filing>, NoMemory>
    ensures { IfOk result (λ o. o ≡ filing_in (tree_of object.now)) }
{
    match object.as_object() {
        Some(members) => read_members(alloc, members),
        None => Ok(None),
    }
}

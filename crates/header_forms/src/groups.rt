// The groups of an address list, read piece by piece.
ghost use Rattle.std.specs.Prelude.{◌≡◌, [], ◌∷◌, ◌++◌, IfOk, OnOk};
ghost use Rattle.std.specs.List.{flat_map};
ghost use Rattle.header_forms.specs.Addresses.{groups_by, groups_in, addresses_in, shown_by};
ghost use Rattle.header_forms.specs.Groups.{Slices, last, slice};
ghost use Rattle.header_forms.specs.GroupSteps.{shown, groups_from};

use crate::address::{Addresses, Group, Groups};
use crate::address_characters::{AddressCharacter, Part, Sign};
use crate::address_items::{push_address, read_phrase};
use crate::address_pieces::{is_open_after, read_piece};
use crate::character_contexts::read_characters;
use jm_base::{NoMemory, Sequence, Text};
use std::alloc::Global;
use std::collections::VecDeque;

/// The groups that are complete, and the group that is being read: its name, and its addresses up
/// to here.
#[derive(Drop)]
struct Work {
    groups: Groups,
    name: Option<Text>,
    addresses: Addresses,
}

/// Returns whether a group is shown: it has a name, or an address.
fn is_shown(name: &Option<Text>, addresses: &Addresses) -> bool
    ensures { result ≡ shown_by name.now addresses.now }
{
    name.is_some() || !addresses.is_empty()
}

/// Adds a group, if it is shown.
fn push_group(groups: &mut Groups, name: Option<Text>, addresses: Addresses) -> Result<(), NoMemory>
    ensures { OnOk result (groups.new ≡ groups.old ++ shown name addresses) }
{
    if !is_shown(&name, &addresses) {
        return Ok(());
    }
    groups.push(Group { name, addresses })
}

/// Continues with an item that ends at a comma.
fn take_item(alloc: Global, work: Work, item: &[AddressCharacter]) -> Result<Work, NoMemory>
    ensures { IfOk result (λ w. (later : Slices) → w.groups ++ groups_from w.name w.addresses later
        ≡ work.groups ++ groups_from work.name work.addresses (slice item.now Sign.Comma later)) }
{
    let Work {
        groups,
        name,
        mut addresses,
    } = work;
    push_address(alloc, &mut addresses, item)?;
    Ok(Work {
        groups,
        name,
        addresses,
    })
}

/// Continues with the name of a group, which ends at a colon.
fn take_group_name(alloc: Global, work: Work, item: &[AddressCharacter]) -> Result<Work, NoMemory>
    ensures { IfOk result (λ w. (later : Slices) → w.groups ++ groups_from w.name w.addresses later
        ≡ work.groups ++ groups_from work.name work.addresses (slice item.now Sign.Colon later)) }
{
    let Work {
        mut groups,
        name,
        addresses,
    } = work;
    push_group(&mut groups, name, addresses)?;
    let name = read_phrase(alloc, Part::Phrase, item)?;
    Ok(Work {
        groups,
        name: Some(name),
        addresses: Sequence::new(alloc),
    })
}

/// Continues with the last item of a group, which ends at a semicolon.
fn take_group_end(alloc: Global, work: Work, item: &[AddressCharacter]) -> Result<Work, NoMemory>
    ensures { IfOk result (λ w. (later : Slices) → w.groups ++ groups_from w.name w.addresses later
        ≡ work.groups ++ groups_from work.name work.addresses
        (slice item.now Sign.Semicolon later)) }
{
    let Work {
        mut groups,
        name,
        mut addresses,
    } = work;
    push_address(alloc, &mut addresses, item)?;
    push_group(&mut groups, name, addresses)?;
    Ok(Work {
        groups,
        name: None,
        addresses: Sequence::new(alloc),
    })
}

/// Continues with a piece that ends with this sign.
fn take_piece(
    alloc: Global,
    work: Work,
    item: &[AddressCharacter],
    sign: Sign,
) -> Result<Work, NoMemory>
    ensures { IfOk result (λ w. (later : Slices) → w.groups ++ groups_from w.name w.addresses later
        ≡ work.groups ++ groups_from work.name work.addresses (slice item.now sign later)) }
{
    match sign {
        Sign::Comma => take_item(alloc, work, item),
        Sign::Colon => take_group_name(alloc, work, item),
        Sign::Semicolon => take_group_end(alloc, work, item),
    }
}

/// Returns the groups, with those of the last piece.
fn finish_groups(alloc: Global, work: Work, item: &[AddressCharacter]) -> Result<Groups, NoMemory>
    ensures { IfOk result (λ gs. gs ≡ work.groups
        ++ groups_from work.name work.addresses (last item.now)) }
{
    let Work {
        mut groups,
        name,
        mut addresses,
    } = work;
    push_address(alloc, &mut addresses, item)?;
    push_group(&mut groups, name, addresses)?;
    Ok(groups)
}

fn read_groups(alloc: Global, characters: &[AddressCharacter]) -> Result<Groups, NoMemory>
    ensures { IfOk result (λ gs. gs ≡ groups_by characters.now) }
{
    let mut work = Work {
        groups: Sequence::new(alloc),
        name: None,
        addresses: Sequence::new(alloc),
    };
    let mut in_group = false;
    let mut rest = characters;
    while let Some(piece) = read_piece(rest, in_group) {
        work = take_piece(alloc, work, piece.item, piece.sign)?;
        in_group = is_open_after(in_group, piece.sign);
        rest = piece.rest;
    }
    finish_groups(alloc, work, rest)
}

/// Reads the groups of a value on one line (RFC 8621, section 4.1.2.4). Addresses outside groups
/// that are next to each other are a group without a name.
pub fn parse_groups(alloc: Global, text: &str) -> Result<Groups, NoMemory>
    ensures { IfOk result (λ gs. gs ≡ groups_in text.now) }
{
    let characters = read_characters(alloc, text)?;
    read_groups(alloc, characters.as_slice())
}

/// Returns the addresses of groups, one group after the other.
fn join(alloc: Global, groups: Groups) -> Result<Addresses, NoMemory>
    ensures { IfOk result (λ all. all ≡ flat_map (λ g. g.addresses) groups) }
{
    let mut all = Sequence::new(alloc);
    let mut rest = VecDeque::from_vec(groups.into_vec());
    while let Some(group) = rest.pop_front() {
        all.append(group.addresses)?;
    }
    Ok(all)
}

/// Reads the addresses of a value on one line, those in groups too (RFC 8621, section 4.1.2.3).
pub fn parse_addresses(alloc: Global, text: &str) -> Result<Addresses, NoMemory>
    ensures { IfOk result (λ all. all ≡ addresses_in text.now) }
{
    join(alloc, parse_groups(alloc, text)?)
}

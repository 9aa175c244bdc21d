// The mailboxes of a content: their table, and the orders by name and by role.
ghost use Rattle.std.specs.Prelude.{◌≡◌, ◌+◌, ◌≤◌, [], None, OnOk, IfOk, ◌&&◌};
ghost use Rattle.mail_records.specs.Contents.{mailbox_number};
ghost use Rattle.mail_records.specs.Orders.{AreKeys, has_text, is_in_group, keys_of, name_keys, named_key, named_owner, role_keys, roled_key, roled_owner};
ghost use Rattle.mail_records.specs.Tables.{IsTable, put, without};

use crate::entries::{Named, Roled};
use crate::fills::fill;
use crate::orders::{copy_entries, find_group_entries, forget, leave, settle, with_text};
use crate::{Mailbox, Record, Table};
use jm_base::NoMemory;
use std::alloc::Global;
use std::marker::Model;

/// The mailboxes by number, and their orders. Contracts see for how many puts there is room.
#[derive(Drop)]
pub(crate) struct Mailboxes {
    table: Table<Mailbox>,
    by_name: Vec<Named>,
    by_role: Vec<Roled>,
}

impl Model for Mailboxes {
    ghost use Rattle.std.specs.Prelude.{◌-◌, min, vec_len, vec_capacity};
    ghost use Rattle.mail_records.specs.Tables.{Rows};
    ghost use Rattle.mail_records.specs.Contents.{mailbox_number};
    ghost use Rattle.mail_records.specs.Orders.{AreKeys, any_key, keys_of, name_keys, named_key, named_owner, role_keys, roled_key, roled_owner};
    ghost use Rattle.mail_records.specs.declared.records.Mailbox.{Mailbox as TheMailbox};

    ghost Value = { Rows TheMailbox };

    ghost view = { λ m. record {
      rows = m.table.rows;
      spare = min m.table.spare
          (min (vec_capacity m.by_name - vec_len m.by_name)
          (vec_capacity m.by_role - vec_len m.by_role));
    } };

    ghost invariant = { λ m. AreKeys any_key mailbox_number name_keys m.table.rows
        (keys_of mailbox_number named_owner named_key m.table.rows m.by_name.items)
        × AreKeys any_key mailbox_number role_keys m.table.rows
        (keys_of mailbox_number roled_owner roled_key m.table.rows m.by_role.items) };
}

impl Mailboxes {
    /// Returns no mailboxes. It takes no memory.
    pub(crate) fn new(alloc: Global) -> Mailboxes
        ensures { result.rows ≡ [] }
    {
        Mailboxes {
            table: Table::new(alloc),
            by_name: Vec::new(alloc),
            by_role: Vec::new(alloc),
        }
    }

    /// Returns these mailboxes, which are in number order. Each of their orders is sorted once.
    pub(crate) fn from_rows(alloc: Global, rows: Vec<Mailbox>) -> Result<Mailboxes, NoMemory>
        requires { IsTable mailbox_number rows.items }
        ensures { IfOk result (λ m. m.rows ≡ rows.items) }
    {
        let table = Table::from_rows(rows);
        let by_name = fill(alloc, &table)?;
        let by_role = fill(alloc, &table)?;
        Ok(Mailboxes {
            table,
            by_name,
            by_role,
        })
    }

    /// Copies the mailboxes into memory of their own.
    pub(crate) fn copy(&self, alloc: Global) -> Result<Mailboxes, NoMemory>
        ensures { IfOk result (λ m. m.rows ≡ self.now.rows) }
    {
        let table = self.table.copy(alloc)?;
        let by_name = copy_entries(alloc, &self.by_name)?;
        let by_role = copy_entries(alloc, &self.by_role)?;
        Ok(Mailboxes {
            table,
            by_name,
            by_role,
        })
    }

    /// Lends the table.
    pub(crate) fn table(&self) -> &Table<Mailbox>
        ensures { result.now.rows ≡ self.now.rows }
    {
        &self.table
    }

    /// Makes room for so many more mailboxes.
    pub(crate) fn reserve(&mut self, more: usize) -> Result<(), NoMemory>
        ensures rows { self.new.rows ≡ self.old.rows }
        ensures spare { OnOk result (more ≤ self.new.spare) }
        ensures no_less { self.old.spare ≤ self.new.spare }
    {
        self.table.reserve(more)?;
        self.by_name.reserve(more)?;
        self.by_role.reserve(more)?;
        Ok(())
    }

    /// Puts a mailbox at the index of its number, for which there is room.
    pub(crate) fn put_ready(&mut self, item: Mailbox)
        requires { 1 ≤ self.old.spare }
        ensures rows { self.new.rows ≡ put mailbox_number item self.old.rows }
        ensures spare { self.old.spare ≤ self.new.spare + 1 }
    {
        let number = item.number;
        let renamed = leave(&self.table, &mut self.by_name, &item);
        let moved = leave(&self.table, &mut self.by_role, &item);
        self.table.put_ready(item);
        settle(&self.table, &mut self.by_name, number, renamed);
        settle(&self.table, &mut self.by_role, number, moved);
    }

    /// Takes the mailbox of a number out, if it is there.
    pub(crate) fn take_out(&mut self, number: u64)
        ensures rows { self.new.rows ≡ without mailbox_number number self.old.rows }
        ensures spare { self.old.spare ≤ self.new.spare }
    {
        forget(&self.table, &mut self.by_name, number);
        forget(&self.table, &mut self.by_role, number);
        self.table.take_out(number);
    }

    /// Lends the mailboxes with a parent, in the order of name, then number.
    pub(crate) fn children(&self, parent: Option<u64>) -> &[Named]
        ensures { AreKeys (is_in_group parent) mailbox_number name_keys self.now.rows
            (keys_of mailbox_number named_owner named_key self.now.rows result.now) }
    {
        find_group_entries(&self.table, self.by_name.as_slice(), parent)
    }

    /// Lends the mailboxes with a parent and a name, in the order of number.
    pub(crate) fn find_children_named(&self, parent: Option<u64>, name: &[u8]) -> &[Named]
        ensures { AreKeys (λ k. is_in_group parent k
            && has_text name.now k) mailbox_number name_keys self.now.rows
            (keys_of mailbox_number named_owner named_key self.now.rows result.now) }
    {
        with_text(&self.table, self.by_name.as_slice(), parent, name)
    }

    /// Lends the mailboxes with a role, in the order of number.
    pub(crate) fn with_role(&self, role: &[u8]) -> &[Roled]
        ensures { AreKeys (λ k. is_in_group None k
            && has_text role.now k) mailbox_number role_keys self.now.rows
            (keys_of mailbox_number roled_owner roled_key self.now.rows result.now) }
    {
        with_text(&self.table, self.by_role.as_slice(), None, role)
    }
}

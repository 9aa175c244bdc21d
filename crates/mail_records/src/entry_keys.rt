// The key of each entry, and the entries that a record has.
ghost use Rattle.std.specs.Prelude.{◌≡◌, [], true, None, Some, pos, refl, slice_index_or};
ghost use Rattle.mail_records.specs.Orders.{dated_key, dated_owner, link_keys, linked_key, linked_owner, mailbox_keys, name_keys, named_key, named_owner, placed_key, placed_owner, received_keys, role_keys, roled_key, roled_owner, thread_keys, threaded_key, threaded_owner};
ghost use Rattle.std.specs.Option.{unwrap_or};
ghost use Rattle.mail_records.specs.Laws.{link_keys_numbers, linked_number, mailbox_keys_numbers, named_number, role_keys_numbers, roled_number};

use crate::entries::{Dated, Linked, Named, Placed, Roled, Threaded};
use crate::orders::{Entry, SortKey};
use crate::{Email, Mailbox, Table};
use jm_base::Text;

// Returns a key without group and text.
fn build_bare_key(received: i64, number: u64, place: u64) -> SortKey<'static>
    ensures { result
        ≡ record {
          group = None;
          text = [];
          received = received;
          number = number;
          place = place;
        } }
{
    SortKey {
        group: None,
        text: &[],
        received,
        number,
        place,
    }
}

// Returns a key of a text.
fn build_text_key(text: &[u8], number: u64, place: u64) -> SortKey<'_>
    ensures { result
        ≡ record {
          group = None;
          text = text.now;
          received = pos 0;
          number = number;
          place = place;
        } }
{
    SortKey {
        group: None,
        text,
        received: 0,
        number,
        place,
    }
}

// Returns a key in a group, without text.
fn build_group_key(group: u64, received: i64, number: u64) -> SortKey<'static>
    ensures { result
        ≡ record {
          group = Some group;
          text = [];
          received = received;
          number = number;
          place = 0;
        } }
{
    SortKey {
        group: Some(group),
        text: &[],
        received,
        number,
        place: 0,
    }
}

impl Entry<Mailbox> for Named {
    ghost owner = { named_owner };

    ghost key = { named_key };

    ghost keys = { name_keys };

    fn owner(&self) -> u64 {
        self.mailbox
    }

    fn key_in<'a>(&self, table: &'a Table<Mailbox>) -> SortKey<'a> {
        if let Some(mailbox) = table.get(self.mailbox) {
            return SortKey {
                group: mailbox.parent,
                text: mailbox.name.as_bytes(),
                received: 0,
                number: self.mailbox,
                place: 0,
            };
        }
        build_bare_key(0, self.mailbox, 0)
    }

    fn count(_row: &Mailbox) -> usize {
        1
    }

    fn entry_of(row: &Mailbox, _index: usize) -> Named {
        Named {
            mailbox: row.number,
        }
    }

    fn has_same_keys(old: &Mailbox, new: &Mailbox) -> bool {
        old.parent == new.parent && old.name == new.name
    }

    ghost key_number = { named_number };

    ghost keys_number = { λ m. (refl, tt) };
}

// Returns the text of a mailbox's role, which is empty if it has none.
fn find_role_text(mailbox: &Mailbox) -> &[u8]
    ensures { result.now ≡ unwrap_or mailbox.now.role [] }
{
    match &mailbox.role {
        Some(role) => role.as_bytes(),
        None => &[],
    }
}

impl Entry<Mailbox> for Roled {
    ghost owner = { roled_owner };

    ghost key = { roled_key };

    ghost keys = { role_keys };

    fn owner(&self) -> u64 {
        self.mailbox
    }

    fn key_in<'a>(&self, table: &'a Table<Mailbox>) -> SortKey<'a> {
        if let Some(mailbox) = table.get(self.mailbox) {
            return build_text_key(find_role_text(mailbox), self.mailbox, 0);
        }
        build_bare_key(0, self.mailbox, 0)
    }

    fn count(row: &Mailbox) -> usize {
        match row.role {
            Some(_) => 1,
            None => 0,
        }
    }

    fn entry_of(row: &Mailbox, _index: usize) -> Roled {
        Roled {
            mailbox: row.number,
        }
    }

    fn has_same_keys(old: &Mailbox, new: &Mailbox) -> bool {
        old.role == new.role
    }

    ghost key_number = { roled_number };

    ghost keys_number = { role_keys_numbers };
}

impl Entry<Email> for Dated {
    ghost owner = { dated_owner };

    ghost key = { dated_key };

    ghost keys = { received_keys };

    fn owner(&self) -> u64 {
        self.email
    }

    fn key_in<'a>(&self, _table: &'a Table<Email>) -> SortKey<'a> {
        build_bare_key(self.received, self.email, 0)
    }

    fn count(_row: &Email) -> usize {
        1
    }

    fn entry_of(row: &Email, _index: usize) -> Dated {
        Dated {
            received: row.received.seconds,
            email: row.number,
        }
    }

    fn has_same_keys(old: &Email, new: &Email) -> bool {
        old.received.seconds == new.received.seconds
    }

    ghost key_number = { λ o e. refl };

    ghost keys_number = { λ e. (refl, tt) };
}

impl Entry<Email> for Threaded {
    ghost owner = { threaded_owner };

    ghost key = { threaded_key };

    ghost keys = { thread_keys };

    fn owner(&self) -> u64 {
        self.email
    }

    fn key_in<'a>(&self, _table: &'a Table<Email>) -> SortKey<'a> {
        build_group_key(self.thread, self.received, self.email)
    }

    fn count(_row: &Email) -> usize {
        1
    }

    fn entry_of(row: &Email, _index: usize) -> Threaded {
        Threaded {
            thread: row.thread,
            received: row.received.seconds,
            email: row.number,
        }
    }

    fn has_same_keys(old: &Email, new: &Email) -> bool {
        old.thread == new.thread && old.received.seconds == new.received.seconds
    }

    ghost key_number = { λ o e. refl };

    ghost keys_number = { λ e. (refl, tt) };
}

impl Entry<Email> for Placed {
    ghost owner = { placed_owner };

    ghost key = { placed_key };

    ghost keys = { mailbox_keys };

    fn owner(&self) -> u64 {
        self.email
    }

    fn key_in<'a>(&self, _table: &'a Table<Email>) -> SortKey<'a> {
        build_group_key(self.mailbox, self.received, self.email)
    }

    fn count(row: &Email) -> usize {
        row.mailboxes.len()
    }

    fn entry_of(row: &Email, index: usize) -> Placed {
        Placed {
            mailbox: row.mailboxes.as_slice()[index],
            received: row.received.seconds,
            email: row.number,
        }
    }

    fn has_same_keys(old: &Email, new: &Email) -> bool {
        old.received.seconds == new.received.seconds
            && old.mailboxes.as_slice() == new.mailboxes.as_slice()
    }

    ghost key_number = { λ o e. refl };

    ghost keys_number = { mailbox_keys_numbers };
}

// Returns the text of an email's link, which is empty if no link has the index.
fn find_link_text(email: &Email, place: u64) -> &[u8]
    ensures { result.now ≡ slice_index_or email.now.summary.links place [] }
{
    let links = email.summary.links.as_slice();
    if place < links.len() as u64 {
        links[place as usize].as_bytes()
    } else {
        &[]
    }
}

// Returns whether two texts are the same.
fn is_same_text(one: &Text, other: &Text) -> bool
    ensures { result ≡ true → one.now ≡ other.now }
{
    one == other
}

// Returns whether two lists of texts are the same.
fn is_same_texts(one: &[Text], other: &[Text]) -> bool
    ensures { result ≡ true → one.now ≡ other.now }
{
    if one.len() != other.len() {
        return false;
    }
    for index in 0..one.len() {
        if !is_same_text(&one[index], &other[index]) {
            return false;
        }
    }
    true
}

impl Entry<Email> for Linked {
    ghost owner = { linked_owner };

    ghost key = { linked_key };

    ghost keys = { link_keys };

    fn owner(&self) -> u64 {
        self.email
    }

    fn key_in<'a>(&self, table: &'a Table<Email>) -> SortKey<'a> {
        if let Some(email) = table.get(self.email) {
            return build_text_key(find_link_text(email, self.place), self.email, self.place);
        }
        build_bare_key(0, self.email, self.place)
    }

    fn count(row: &Email) -> usize {
        row.summary.links.len()
    }

    fn entry_of(row: &Email, index: usize) -> Linked {
        Linked {
            email: row.number,
            place: index as u64,
        }
    }

    fn has_same_keys(old: &Email, new: &Email) -> bool {
        is_same_texts(old.summary.links.as_slice(), new.summary.links.as_slice())
    }

    ghost key_number = { linked_number };

    ghost keys_number = { link_keys_numbers };
}

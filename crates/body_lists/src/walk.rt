// The lists of a message, filled in one walk of its parts.
ghost use Rattle.std.specs.Prelude.{◌≡◌, true, ◌++◌, ◌≤◌, take, drop, length, IfOk, OnOk};
ghost use Rattle.mime_type.specs.PartTrees.{none};
ghost use Rattle.mime_type.specs.PartViews.{node_of, joined};
ghost use Rattle.body_lists.specs.Lists.{Lists, body_lists, both, given, inside, leaf_in, leaf_gives, ended, item_gives, number_if, or_else};
ghost use Rattle.body_lists.specs.Views.{lists_of, open_of, enclosing_of};

use crate::enclosing_list::{EnclosingList, Open, is_html, is_media, is_plain};
use jm_base::{NoMemory, Numbers};
use mime_type::Part;
use std::alloc::Global;

/// Numbers of leaves, each list in the order of the message.
#[derive(Drop)]
pub struct BodyLists {
    /// The leaves that are shown if HTML isn't (textBody).
    pub text: Numbers,
    /// The leaves that are shown if HTML is (htmlBody).
    pub html: Numbers,
    /// The leaves that are in neither, and media that are in only one of the two (attachments).
    pub attachments: Numbers,
}

/// Adds the number of a part at the end, if it is chosen.
fn push_if(chosen: bool, numbers: &mut Numbers, part: &Part) -> Result<(), NoMemory>
    ensures { OnOk result (numbers.new ≡ numbers.old ++ number_if chosen (node_of part.now)) }
{
    if !chosen {
        return Ok(());
    }
    match part.number {
        Some(number) => numbers.push(number),
        None => Ok(()),
    }
}

impl BodyLists {
    /// Adds a leaf at the end of the lists that are chosen.
    fn push(
        &mut self,
        text: bool,
        html: bool,
        attachments: bool,
        part: &Part,
    ) -> Result<(), NoMemory>
        ensures { OnOk result (lists_of self.new
            ≡ both (lists_of self.old) (leaf_in text html attachments (node_of part.now))) }
    {
        push_if(text, &mut self.text, part)?;
        push_if(html, &mut self.html, part)?;
        push_if(attachments, &mut self.attachments, part)
    }

    /// Adds a leaf to the lists that it belongs to.
    fn push_leaf(
        &mut self,
        place: EnclosingList,
        first: bool,
        taking: Open,
        part: &Part,
    ) -> Result<(), NoMemory>
        ensures { OnOk result (lists_of self.new
            ≡ both (lists_of self.old) (leaf_gives (enclosing_of place) first (open_of taking)
            (node_of part.now))) }
    {
        if !place.shows(first, part) {
            return self.push(false, false, true, part);
        }
        let plain = is_plain(part);
        let html = is_html(part);
        if place.alternative {
            return self.push(
                taking.text && plain,
                taking.html && html,
                !(plain || html),
                part,
            );
        }
        let taking = taking.close_lists_after(place, first, part);
        let attached = is_media(part) && !(taking.text && taking.html);
        self.push(taking.text, taking.html, attached, part)
    }
}

/// Adds to a list what another list has from the index `place` on, if the first list ends at the
/// index `from`.
fn fill(
    alloc: Global,
    numbers: &mut Numbers,
    from: usize,
    other: &Numbers,
    place: usize,
) -> Result<(), NoMemory>
    requires { place ≤ length other.now }
    ensures { OnOk result (numbers.new ≡ take from numbers.old
        ++ or_else (drop from numbers.old) (drop place other.now)) }
{
    if numbers.len() > from {
        return Ok(());
    }
    let more = Vec::from_slice(alloc, &other.as_slice()[place..])?;
    numbers.append(Numbers::from_vec(more))
}

impl BodyLists {
    /// Ends the list of a multipart whose items are from these indexes on.
    fn end(
        &mut self,
        alloc: Global,
        place: EnclosingList,
        taking: Open,
        text: usize,
        html: usize,
    ) -> Result<(), NoMemory>
        requires text { text ≤ length self.old.text }
        requires html { html ≤ length self.old.html }
        ensures { (old new : Lists) → lists_of self.old ≡ both old new → length old.text ≡ text
            → length old.html ≡ html → OnOk result
            (lists_of self.new ≡ both old (ended (enclosing_of place) (open_of taking) new)) }
    {
        if !(place.alternative && taking.text && taking.html) {
            return Ok(());
        }
        fill(alloc, &mut self.text, text, &self.html, html)?;
        fill(alloc, &mut self.html, html, &self.text, text)
    }
}

/// Adds the leaves of an item.
#[cycle(lists)]
fn add_part(
    alloc: Global,
    out: &mut BodyLists,
    place: EnclosingList,
    first: bool,
    taking: Open,
    part: &Part,
) -> Result<(), NoMemory>
    ensures { OnOk result (lists_of out.new ≡ both (lists_of out.old)
        (item_gives (enclosing_of place) first (open_of taking) (node_of part.now)
        (given (inside (enclosing_of place) (node_of part.now)) true (open_of taking)
        part.now.parts))) }
{
    if part.boundary.is_none() {
        return out.push_leaf(place, first, taking, part);
    }
    let place = place.inside(part);
    let text = out.text.len();
    let html = out.html.len();
    add_parts(alloc, out, place, taking, part.parts.as_slice())?;
    out.end(alloc, place, taking, text, html)
}

/// Adds the leaves of the items of a list.
#[cycle(lists)]
fn add_parts(
    alloc: Global,
    out: &mut BodyLists,
    place: EnclosingList,
    taking: Open,
    parts: &[Part],
) -> Result<(), NoMemory>
    ensures { OnOk result (lists_of out.new ≡ both (lists_of out.old)
        (given (enclosing_of place) true (open_of taking) (joined parts.now none))) }
{
    let mut first = true;
    let mut taking = taking;
    for part in parts {
        add_part(alloc, out, place, first, taking, part)?;
        taking = taking.close_lists_after(place, first, part);
        first = false;
    }
    Ok(())
}

/// Returns the leaves of a part that are its text, its HTML and its attachments (RFC 8621, section
/// 4.1.4), in time linear in the parts. It fails only if memory runs out.
pub fn lists(alloc: Global, part: &Part) -> Result<BodyLists, NoMemory>
    ensures { IfOk result (λ l. lists_of l ≡ body_lists (node_of part.now) part.now.parts) }
{
    let mut out = BodyLists {
        text: Numbers::new(alloc),
        html: Numbers::new(alloc),
        attachments: Numbers::new(alloc),
    };
    let taking = Open {
        text: true,
        html: true,
    };
    add_part(
        alloc,
        &mut out,
        EnclosingList::enter_message(),
        true,
        taking,
        part,
    )?;
    Ok(out)
}

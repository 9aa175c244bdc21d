// The identifiers by which a message is linked to others.
ghost use Rattle.std.specs.Prelude.{◌≡◌, ◌≤◌, ◌++◌, ◌∷◌, [], take, drop, length, filter, MatchOption, IfOk, OnOk, All};
ghost use Rattle.mime_lines.specs.Fields.{fields_of};
ghost use Rattle.mime_lines.specs.FieldOffsets.{IsWithin, last_value_of};
ghost use Rattle.mail_summary.specs.Links;
ghost use Rattle.mail_summary.specs.Links.{gathered, if_value, is_short, links};

use header_forms::{read_angle_texts, unfold_value};
use jm_base::{NoMemory, Text, Texts};
use mail_records::MAX_LINKS_PER_EMAIL;
use mime_lines::{FieldSpans, find_last_value};
use std::alloc::Global;
use std::cmp::Ordering;
use std::collections::VecDeque;

/// The most bytes of an identifier that links a message to others.
const MAX_LINK_BYTES: usize = 256;

/// Returns the index of a text among texts in byte order; none if it is there already.
fn index_of(kept: &[Text], id: &Text) -> Option<usize>
    ensures { MatchOption result (Links.put id.now kept.now ≡ kept.now)
        (λ i. (i ≤ length kept.now) × (Links.put id.now kept.now ≡ take i kept.now ++ id.now
        ∷ drop i kept.now)) }
{
    for (i, other) in kept.iter().enumerate() {
        match id.as_bytes().cmp(other.as_bytes()) {
            Ordering::Less => return Some(i),
            Ordering::Equal => return None,
            Ordering::Greater => {}
        }
    }
    Some(kept.len())
}

/// Adds an identifier at its index, if it isn't longer than `MAX_LINK_BYTES` and fewer than
/// `MAX_LINKS_PER_EMAIL` are there.
fn put(kept: &mut Vec<Text>, id: Text) -> Result<(), NoMemory>
    ensures { OnOk result (kept.new.items ≡ gathered kept.old.items (filter is_short (id ∷ []))) }
{
    if id.as_str().len() > MAX_LINK_BYTES || kept.len() >= MAX_LINKS_PER_EMAIL as usize {
        return Ok(());
    }
    match index_of(kept.as_slice(), &id) {
        Some(index) => Ok(kept.insert(index, id)?),
        None => Ok(()),
    }
}

fn put_all(kept: Vec<Text>, ids: Texts) -> Result<Vec<Text>, NoMemory>
    ensures { IfOk result (λ all. all.items ≡ gathered kept.items (filter is_short ids)) }
{
    let mut kept = kept;
    let mut rest = VecDeque::from_vec(ids.into_vec());
    while let Some(id) = rest.pop_front() {
        put(&mut kept, id)?;
    }
    Ok(kept)
}

/// Reads the identifiers of the last field that has this name.
fn read_identifiers(
    alloc: Global,
    bytes: &[u8],
    fields: &FieldSpans,
    name: &[u8],
) -> Result<Texts, NoMemory>
    requires { All (IsWithin bytes.now) fields.now }
    ensures { IfOk result (λ ids. ids ≡ if_value (last_value_of bytes.now name.now fields.now)) }
{
    let Some(value) = find_last_value(bytes, fields, name) else {
        return Ok(Texts::new(alloc));
    };
    let line = unfold_value(alloc, value)?;
    read_angle_texts(alloc, line.as_str())
}

/// Reads the identifiers that link a message whose header has these fields (RFC 8621, section 3).
pub(crate) fn read_links(
    alloc: Global,
    bytes: &[u8],
    fields: &FieldSpans,
) -> Result<Texts, NoMemory>
    requires within { All (IsWithin bytes.now) fields.now }
    requires fields { fields.now ≡ fields_of bytes.now }
    ensures value { IfOk result (λ ids. ids ≡ links bytes.now) }
{
    let own = read_identifiers(alloc, bytes, fields, b"Message-ID")?;
    let kept = put_all(Vec::new(alloc), own)?;
    let parent = read_identifiers(alloc, bytes, fields, b"In-Reply-To")?;
    let kept = put_all(kept, parent)?;
    let others = read_identifiers(alloc, bytes, fields, b"References")?;
    Ok(Texts::from_vec(put_all(kept, others)?))
}

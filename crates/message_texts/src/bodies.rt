// The texts of the text parts of a message (RFC 8621, sections 4.1.4 and 4.4.1).
ghost use Rattle.std.specs.Prelude.{◌≡◌, ◌++◌, ◌∷◌, [], IfOk, OnOk, length};
ghost use Rattle.mime_type.specs.PartTrees.{none};
ghost use Rattle.mime_type.specs.PartViews.{joined, node_of, part_before};
ghost use Rattle.mime_tree.specs.PartLimit.{parts_of, walked};
ghost use Rattle.mime_tree.specs.Places.{AllPlaced, IsPlaced};
ghost use Rattle.mail_summary.specs.Texts as Bodies;
ghost use Rattle.mail_summary.specs.Texts.{body_text};
ghost use Rattle.mail_view.specs.Values.{is_text_part};
ghost use Rattle.filter_terms.specs.Contains.{some_contains};
ghost use Rattle.message_texts.specs.Texts.{part_texts};

use filter_terms::contains;
use jm_base::{NoMemory, Text, Texts};
use mail_summary::read_body;
use mime_tree::parts;
use mime_type::Part;
use mime_words::decode_charset;
use std::alloc::Global;

// Returns the charset of a part; a part without one has us-ascii.
fn find_charset_name(part: &Part) -> &[u8]
    ensures { result.now ≡ Bodies.charset_name (node_of part.now) }
{
    match &part.charset {
        Some(name) => name.as_bytes(),
        None => b"us-ascii",
    }
}

fn is_text(part: &Part) -> bool
    ensures { result ≡ is_text_part (node_of part.now) }
{
    part.media.as_bytes().starts_with(b"text/")
}

// Returns the text of a part's body.
fn read_text(alloc: Global, bytes: &[u8], part: &Part) -> Result<Text, NoMemory>
    requires { IsPlaced (length bytes.now) (node_of part.now) }
    ensures { IfOk result (λ t. t ≡ body_text bytes.now (node_of part.now)) }
{
    let body = read_body(alloc, bytes, part)?;
    let decoded = decode_charset(alloc, find_charset_name(part), body.as_slice())?;
    Ok(decoded.text)
}

// Adds the text of a part itself, if it is a text part. The body of another part is not decoded.
fn push_own_text(
    alloc: Global,
    bytes: &[u8],
    part: &Part,
    texts: &mut Texts,
) -> Result<(), NoMemory>
    requires { IsPlaced (length bytes.now) (node_of part.now) }
    ensures { OnOk result (texts.new
        ≡ texts.old ++ part_texts bytes.now (node_of part.now ∷ [])) }
{
    if !is_text(part) {
        return Ok(());
    }
    texts.push(read_text(alloc, bytes, part)?)
}

// Adds the texts of a part and of those within it, in walk order. Multiparts nest at most
// `MAX_MULTIPART_LEVELS` deep.
#[tactic(auto, using(crate::proofs::Parts::own_and_inner))]
#[cycle(bodies)]
fn push_texts(alloc: Global, bytes: &[u8], part: &Part, texts: &mut Texts) -> Result<(), NoMemory>
    requires { AllPlaced (length bytes.now) (part_before part.now none) }
    ensures { OnOk result (texts.new
        ≡ texts.old ++ part_texts bytes.now (walked (part_before part.now none))) }
{
    push_own_text(alloc, bytes, part, texts)?;
    push_all_texts(alloc, bytes, part.parts.as_slice(), texts)
}

#[tactic(auto, using(crate::proofs::Parts::one_part_more, crate::proofs::Parts::no_part_more))]
#[cycle(bodies)]
fn push_all_texts(
    alloc: Global,
    bytes: &[u8],
    parts: &[Part],
    texts: &mut Texts,
) -> Result<(), NoMemory>
    requires { AllPlaced (length bytes.now) (joined parts.now none) }
    ensures { OnOk result (texts.new
        ≡ texts.old ++ part_texts bytes.now (walked (joined parts.now none))) }
{
    for part in parts {
        push_texts(alloc, bytes, part, texts)?;
    }
    Ok(())
}

/// Returns the texts of the text parts of the message with these bytes.
pub(crate) fn read_bodies(alloc: Global, bytes: &[u8]) -> Result<Texts, NoMemory>
    ensures { IfOk result (λ ts. ts ≡ part_texts bytes.now (walked (parts_of bytes.now))) }
{
    let root = parts(alloc, bytes)?;
    let mut texts = Texts::new(alloc);
    push_texts(alloc, bytes, &root, &mut texts)?;
    Ok(texts)
}

/// Returns whether one of these texts contains the needle.
pub(crate) fn has_in_texts(texts: &[Text], needle: &[u8]) -> bool
    ensures { result ≡ some_contains needle.now texts.now }
{
    for text in texts {
        if contains(text.as_bytes(), needle) {
            return true;
        }
    }
    false
}

// Of which messages it is known without opening them whether a field From contains a text. A
// command shows only whether they match.
use blob_store::BlobList;
use filter_terms::{Place, Texts2};
use jm_base::{Bytes, NoMemory};
use message_texts::BlobTexts;
use std::alloc::Global;
use std::test::Fail;
use text_column::Mark;

// A message with an author, one without, one with two, and one with an empty author.
const LETTERS: &[&str] = &[
    "From: =?utf-8?Q?J=C3=B6rg?= <joerg@example.org>\r\n",
    "",
    "From: Ann\nFrom: J\u{f6}rg\n",
    "From:\n",
];

fn store(alloc: Global) -> Result<BlobList, NoMemory> {
    let mut blobs = BlobList::new(alloc);
    for message in LETTERS {
        blobs
            .push(Bytes::from_slice(alloc, message.as_bytes())?)
            .ok();
    }
    Ok(blobs)
}

fn letter_of(mark: Mark) -> char {
    match mark {
        Mark::Has => 'y',
        Mark::HasNot => 'n',
        Mark::Open => '?',
    }
}

// A letter for each message; none if nothing is known without opening them.
fn marks_of(texts: &BlobTexts<'_>, place: Place, needle: &str) -> Result<String, NoMemory> {
    let mut letters = String::new(texts.alloc);
    if let Some(marks) = texts.find_marks(place, needle.as_bytes())? {
        for mark in marks.as_slice() {
            letters.push(letter_of(*mark))?;
        }
    }
    Ok(letters)
}

const MARKS: &[(Place, &str, &str)] = &[
    (Place::From, "J\u{f6}RG <joe", "yn?n"),
    (Place::From, "utf-8", "nn?n"),
    (Place::From, "", ""),
    (Place::To, "ann", ""),
    (Place::Text, "joerg", ""),
];

#[test]
fn authors_are_marked(rt: HostRuntime) -> Result<(), Fail> {
    let alloc = rt.alloc();
    let blobs = store(alloc)?;
    let texts = BlobTexts {
        alloc,
        blobs: &blobs,
    };
    for (place, needle, wanted) in MARKS {
        let found = marks_of(&texts, *place, needle)?;
        assert!(rt; found.as_str() == *wanted, "{needle}");
    }
    Ok(())
}

// Copies of lists and strings, each in memory of its own.
ghost use Rattle.std.specs.Prelude.{◌≡◌, IfOk, None, Some};

use jm_base::{NoMemory, Numbers, Text, Texts};
use std::alloc::Global;

/// Returns a copy of the numbers, in memory of its own.
pub fn copy_numbers(alloc: Global, numbers: &Numbers) -> Result<Numbers, NoMemory>
    ensures { IfOk result (λ n. n ≡ numbers.now) }
{
    Ok(Numbers::from_vec(Vec::from_slice(alloc, numbers.as_slice())?))
}

fn collect_text_copies(alloc: Global, texts: &[Text]) -> Result<Vec<Text>, NoMemory>
    ensures { IfOk result (λ v. v.items ≡ texts.now) }
{
    let mut all = Vec::with_capacity(alloc, texts.len())?;
    for text in texts {
        all.push(text.copy()?)?;
    }
    Ok(all)
}

/// Returns a copy of the strings, in memory of its own.
pub fn copy_texts(alloc: Global, texts: &Texts) -> Result<Texts, NoMemory>
    ensures { IfOk result (λ t. t ≡ texts.now) }
{
    Ok(Texts::from_vec(collect_text_copies(alloc, texts.as_slice())?))
}

/// Returns a copy of the string, in memory of its own, if there is one.
pub fn copy_optional(text: &Option<Text>) -> Result<Option<Text>, NoMemory>
    ensures { IfOk result (λ t. t ≡ text.now) }
{
    match text {
        Some(text) => Ok(Some(text.copy()?)),
        None => Ok(None),
    }
}

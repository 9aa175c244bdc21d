// Whether an account is valid.
ghost use Rattle.std.specs.Prelude.{◌≡◌, ◌↔◌, ℕ, List, true, IfOk, IsTrue, MatchOption, ⊤};
ghost use Rattle.std.specs.List.{list_all};
ghost use Rattle.mail_summary.specs.Summaries.{summary};
ghost use Rattle.mail_calls.specs.MessageTests.{IsSharing, are_same_texts, has_message, is_message, is_same_date, is_same_summary};
ghost use Rattle.mail_calls.specs.ValidAccounts.{IsWhole};

use account_book::Account;
use blob_store::BlobList;
use jm_base::{NoMemory, Text, UtcDate};
use mail_records::{Email, Summary};
use mail_summary::summary_of;
use std::alloc::Global;
use tidy_check::is_tidy;

// Returns whether two lists of texts are the same.
fn are_same_texts(one: &[Text], other: &[Text]) -> bool
    ensures { result ≡ are_same_texts one.now other.now }
{
    let mut rest = other;
    for text in one {
        let Some((first, more)) = rest.split_first() else {
            return false;
        };
        if text.as_str() != first.as_str() {
            return false;
        }
        rest = more;
    }
    rest.is_empty()
}

// Returns whether two dates are the same, or none both.
fn is_same_date(one: Option<UtcDate>, other: Option<UtcDate>) -> bool
    ensures { result ≡ is_same_date one other }
{
    match (one, other) {
        (Some(one), Some(other)) => one.seconds == other.seconds,
        (None, None) => true,
        _ => false,
    }
}

// Returns whether two summaries are the same.
fn is_same_summary(one: &Summary, other: &Summary) -> bool
    ensures { result ≡ is_same_summary one.now other.now }
{
    are_same_texts(one.links.as_slice(), other.links.as_slice())
        && one.subject.as_str() == other.subject.as_str()
        && one.from.as_str() == other.from.as_str()
        && one.to.as_str() == other.to.as_str()
        && is_same_date(one.sent, other.sent)
        && one.attachment == other.attachment
}

// Returns whether these bytes are the message of an email. It is summarized once.
fn is_message(alloc: Global, email: &Email, bytes: &[u8]) -> Result<bool, NoMemory>
    ensures { IfOk result (λ b. b ≡ is_message summary email.now bytes.now) }
{
    if email.size != bytes.len() as u64 {
        return Ok(false);
    }
    let found = summary_of(alloc, bytes)?;
    Ok(is_same_summary(&email.summary, &found))
}

// Returns whether the message of an email is among the blobs.
fn has_message(alloc: Global, blobs: &BlobList, email: &Email) -> Result<bool, NoMemory>
    ensures { IfOk result (λ b. b ≡ has_message summary blobs.now.blobs email.now) }
{
    match blobs.get(email.blob) {
        Ok(bytes) => is_message(alloc, email, bytes),
        Err(_) => Ok(false),
    }
}

// Returns an email of this blob among those that were checked: the one of the index that is noted
// for the blob, if it has the blob.
fn find_sharing<'a>(checked: &'a [Email], noted: &[usize], blob: u64) -> Option<&'a Email>
    ensures { MatchOption result ⊤ (λ e. IsSharing checked.now blob e.now) }
{
    let Some(index) = noted.get(blob as usize) else {
        return None;
    };
    let Some(email) = checked.get(*index) else {
        return None;
    };
    if email.blob != blob {
        return None;
    }
    Some(email)
}

// Returns whether an email has the message of another one, which shares its blob and has it.
#[tactic(auto, using(crate::proofs::SharedMessages::shared_is))]
fn shares_message(email: &Email, other: &Email) -> bool
    ensures { (blobs : List (List ℕ)) → other.now.blob ≡ email.now.blob
        → has_message summary blobs other.now ≡ true
        → result ≡ has_message summary blobs email.now }
{
    if email.size != other.size {
        return false;
    }
    is_same_summary(&email.summary, &other.summary)
}

// Returns whether the message of an email is among the blobs. It is not summarized again if one of
// the emails that were checked shares its blob.
fn has_shared_message(
    alloc: Global,
    blobs: &BlobList,
    checked: &[Email],
    noted: &[usize],
    email: &Email,
) -> Result<bool, NoMemory>
    requires { list_all (has_message summary blobs.now.blobs) checked.now ≡ true }
    ensures { IfOk result (λ b. b ≡ has_message summary blobs.now.blobs email.now) }
{
    match find_sharing(checked, noted, email.blob) {
        Some(other) => Ok(shares_message(email, other)),
        None => has_message(alloc, blobs, email),
    }
}

// Notes the index of an email of this blob.
fn note_blob(noted: &mut [usize], blob: u64, index: usize) {
    if let Some(place) = noted.get_mut(blob as usize) {
        *place = index;
    }
}

// Returns whether the message of each email is among the blobs. A message that many emails share is
// summarized once.
fn have_messages(alloc: Global, blobs: &BlobList, emails: &[Email]) -> Result<bool, NoMemory>
    ensures { IfOk result (λ b. b ≡ list_all (has_message summary blobs.now.blobs) emails.now) }
{
    // For each blob the index of the last email that was found to be of it.
    let mut noted = vec![in alloc; usize::MAX; blobs.all().len().saturating_add(1)]?;
    for (index, email) in emails.iter().enumerate() {
        let checked = &emails[..index];
        if !has_shared_message(alloc, blobs, checked, noted.as_slice(), email)? {
            return Ok(false);
        }
        note_blob(noted.as_mut_slice(), email.blob, index);
    }
    Ok(true)
}

/// Returns whether an account is valid. What its edits did one after the other is known already;
/// its records are checked at the cost of sorting them, and each blob that emails have is parsed
/// once. Fails if an allocation fails.
pub(crate) fn is_whole(alloc: Global, account: &Account) -> Result<bool, NoMemory>
    ensures { IfOk result (λ b. IsTrue b ↔ IsWhole summary account.now.history) }
{
    let blobs = account.blobs();
    let content = account.content();
    if !account.is_sound() {
        return Ok(false);
    }
    if !account.is_within_limit() {
        return Ok(false);
    }
    if !is_tidy(alloc, content)? {
        return Ok(false);
    }
    have_messages(alloc, blobs, content.emails())
}

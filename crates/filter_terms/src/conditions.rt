// The conditions of a filter with their values, which are read once.
ghost use Rattle.std.specs.Prelude.{◌≡◌, ◌==◌, ◌||◌, ℕ, Some, map, IfOk, OnOk};
ghost use Rattle.std.specs.List.{list_any};
ghost use Rattle.std.specs.Str.{str_to_ascii_lowercase};
ghost use Rattle.jm_json.specs.Find.{as_text};
ghost use Rattle.jm_json.specs.Json.{tree_of};
ghost use Rattle.mail_records.specs.declared.records.Mailbox.{Mailbox};
ghost use Rattle.filter_terms.specs.EmailTerms.{email_term_holds, is_in_mailbox, is_mailbox_id};
ghost use Rattle.filter_terms.specs.MailboxTerms.{has_parent, mailbox_term_holds};
ghost use Rattle.filter_terms.specs.Compiled.{email_matches, mailbox_matches};
ghost use Rattle.filter_terms.specs.Targets.{EmailInThread};
ghost use Rattle.filter_terms.specs.Texts.{MessageTexts};

use crate::terms::{EmailTerm, KeywordTest, MailboxTerm};
use crate::values::{as_count, as_date, as_flag, read_mailbox_id};
use jm_base::{NoMemory, Numbers, Text};
use jm_json::Json;
use method_args::lend_strings;
use std::alloc::Global;

/// A condition on emails that looks at no text, with its value: numbers of mailboxes, Unix seconds,
/// bytes, and keywords in lower case.
#[derive(Drop)]
pub(crate) enum EmailCondition {
    Never,
    InMailbox(u64),
    InMailboxOtherThan(Numbers),
    Before(i64),
    After(i64),
    MinSize(u64),
    MaxSize(u64),
    Keyword(KeywordTest, Text),
    HasAttachment(bool),
}

/// A condition on mailboxes with its value.
#[derive(Drop)]
pub(crate) enum MailboxCondition {
    Never,
    HasParent(u64),
    HasNoParent,
    Name(Text),
    Role(Option<Text>),
    HasAnyRole(bool),
    IsSubscribed(bool),
}

/// Returns a text in lower case.
pub(crate) fn lower(alloc: Global, text: &str) -> Result<Text, NoMemory>
    ensures { IfOk result (λ t. t ≡ str_to_ascii_lowercase text.now) }
{
    Ok(Text::from_string(text.to_ascii_lowercase(alloc)?))
}

// Adds the number of the mailbox whose id this is, if it is one.
#[tactic(auto, using(crate::proofs::MailboxIds::more_numbers))]
fn push_number(numbers: &mut Numbers, id: &str) -> Result<(), NoMemory>
    ensures { OnOk result ((m : ℕ) → list_any (λ n. n == m) numbers.new
        ≡ (list_any (λ n. n == m) numbers.old || is_mailbox_id id.now m)) }
{
    match read_mailbox_id(id.as_bytes()) {
        Some(number) => numbers.push(number),
        None => Ok(()),
    }
}

// Returns the numbers of the mailboxes whose ids these are.
fn collect_mailbox_numbers(alloc: Global, ids: &[&str]) -> Result<Numbers, NoMemory>
    ensures { IfOk result (λ ns. (m : ℕ) → list_any (λ n. n == m) ns
        ≡ list_any (λ id. is_mailbox_id id m) (map (λ id. id.now) ids.now)) }
{
    let mut numbers = Numbers::new(alloc);
    for id in ids {
        push_number(&mut numbers, id)?;
    }
    Ok(numbers)
}

// Returns the condition of a mailbox's id.
fn build_mailbox_id_condition(id: &Text) -> EmailCondition
    ensures { (texts : ℕ → MessageTexts) (s : EmailInThread) → email_matches s result
        ≡ is_in_mailbox id.now s.email }
{
    match read_mailbox_id(id.as_bytes()) {
        Some(number) => EmailCondition::InMailbox(number),
        None => EmailCondition::Never,
    }
}

/// Returns the condition `inMailbox` of a value. Each function below returns the condition of its
/// name; a value of a wrong kind, with which no filter is read, gives one that matches nothing.
pub(crate) fn build_in_mailbox_condition(value: &Json) -> EmailCondition
    ensures { (texts : ℕ → MessageTexts) (s : EmailInThread) → email_matches s result
        ≡ email_term_holds texts s EmailTerm.InMailbox (tree_of value.now) }
{
    match value.as_text() {
        Some(id) => build_mailbox_id_condition(id),
        None => EmailCondition::Never,
    }
}

#[tactic(auto, using(crate::proofs::MailboxIds::others_same))]
pub(crate) fn build_in_mailbox_other_than_condition(
    alloc: Global,
    value: &Json,
) -> Result<EmailCondition, NoMemory>
    ensures { IfOk result (λ c. (texts : ℕ → MessageTexts) (s : EmailInThread) → email_matches s c
        ≡ email_term_holds texts s EmailTerm.InMailboxOtherThan (tree_of value.now)) }
{
    match lend_strings(alloc, value)? {
        Some(ids) => Ok(EmailCondition::InMailboxOtherThan(collect_mailbox_numbers(alloc, &ids)?)),
        None => Ok(EmailCondition::Never),
    }
}

pub(crate) fn build_before_condition(value: &Json) -> EmailCondition
    ensures { (texts : ℕ → MessageTexts) (s : EmailInThread) → email_matches s result
        ≡ email_term_holds texts s EmailTerm.Before (tree_of value.now) }
{
    match as_date(value) {
        Some(value) => EmailCondition::Before(value),
        None => EmailCondition::Never,
    }
}

pub(crate) fn build_after_condition(value: &Json) -> EmailCondition
    ensures { (texts : ℕ → MessageTexts) (s : EmailInThread) → email_matches s result
        ≡ email_term_holds texts s EmailTerm.After (tree_of value.now) }
{
    match as_date(value) {
        Some(value) => EmailCondition::After(value),
        None => EmailCondition::Never,
    }
}

pub(crate) fn build_min_size_condition(value: &Json) -> EmailCondition
    ensures { (texts : ℕ → MessageTexts) (s : EmailInThread) → email_matches s result
        ≡ email_term_holds texts s EmailTerm.MinSize (tree_of value.now) }
{
    match as_count(value) {
        Some(value) => EmailCondition::MinSize(value),
        None => EmailCondition::Never,
    }
}

pub(crate) fn build_max_size_condition(value: &Json) -> EmailCondition
    ensures { (texts : ℕ → MessageTexts) (s : EmailInThread) → email_matches s result
        ≡ email_term_holds texts s EmailTerm.MaxSize (tree_of value.now) }
{
    match as_count(value) {
        Some(value) => EmailCondition::MaxSize(value),
        None => EmailCondition::Never,
    }
}

pub(crate) fn has_attachment(value: &Json) -> EmailCondition
    ensures { (texts : ℕ → MessageTexts) (s : EmailInThread) → email_matches s result
        ≡ email_term_holds texts s EmailTerm.HasAttachment (tree_of value.now) }
{
    match as_flag(value) {
        Some(value) => EmailCondition::HasAttachment(value),
        None => EmailCondition::Never,
    }
}

pub(crate) fn build_keyword_condition(
    alloc: Global,
    test: KeywordTest,
    value: &Json,
) -> Result<EmailCondition, NoMemory>
    ensures { IfOk result (λ c. (texts : ℕ → MessageTexts) (s : EmailInThread) → email_matches s c
        ≡ email_term_holds texts s (EmailTerm.Keyword test) (tree_of value.now)) }
{
    match value.as_text() {
        Some(keyword) => Ok(EmailCondition::Keyword(test, lower(alloc, keyword.as_str())?)),
        None => Ok(EmailCondition::Never),
    }
}

// Returns the condition of a parent's id.
fn has_parent(id: &Text) -> MailboxCondition
    ensures { (m : Mailbox) → mailbox_matches m result ≡ has_parent (Some id.now) m.parent }
{
    match read_mailbox_id(id.as_bytes()) {
        Some(number) => MailboxCondition::HasParent(number),
        None => MailboxCondition::Never,
    }
}

fn build_parent_id_condition(value: &Json) -> MailboxCondition
    ensures { (m : Mailbox) → mailbox_matches m result
        ≡ mailbox_term_holds m MailboxTerm.ParentId (tree_of value.now) }
{
    match value {
        Json::Null => MailboxCondition::HasNoParent,
        Json::Text(id) => has_parent(id),
        Json::Bool(_) | Json::Int(_) | Json::List(_) | Json::Object(_) => MailboxCondition::Never,
    }
}

#[tactic(auto, using(crate::proofs::Lowered::in_lower_case))]
fn build_name_condition(alloc: Global, value: &Json) -> Result<MailboxCondition, NoMemory>
    ensures { IfOk result (λ c. (m : Mailbox) → mailbox_matches m c
        ≡ mailbox_term_holds m MailboxTerm.Name (tree_of value.now)) }
{
    match value.as_text() {
        Some(needle) => Ok(MailboxCondition::Name(lower(alloc, needle.as_str())?)),
        None => Ok(MailboxCondition::Never),
    }
}

fn build_role_condition(value: &Json) -> Result<MailboxCondition, NoMemory>
    ensures { IfOk result (λ c. (m : Mailbox) → mailbox_matches m c
        ≡ mailbox_term_holds m MailboxTerm.Role (tree_of value.now)) }
{
    match value {
        Json::Null => Ok(MailboxCondition::Role(None)),
        Json::Text(role) => Ok(MailboxCondition::Role(Some(role.copy()?))),
        Json::Bool(_) | Json::Int(_) | Json::List(_) | Json::Object(_) => {
            Ok(MailboxCondition::Never)
        }
    }
}

fn has_any_role(value: &Json) -> MailboxCondition
    ensures { (m : Mailbox) → mailbox_matches m result
        ≡ mailbox_term_holds m MailboxTerm.HasAnyRole (tree_of value.now) }
{
    match as_flag(value) {
        Some(value) => MailboxCondition::HasAnyRole(value),
        None => MailboxCondition::Never,
    }
}

fn is_subscribed(value: &Json) -> MailboxCondition
    ensures { (m : Mailbox) → mailbox_matches m result
        ≡ mailbox_term_holds m MailboxTerm.IsSubscribed (tree_of value.now) }
{
    match as_flag(value) {
        Some(value) => MailboxCondition::IsSubscribed(value),
        None => MailboxCondition::Never,
    }
}

/// Returns a condition on mailboxes with its value, which matches what they match.
pub(crate) fn read_mailbox_condition(
    alloc: Global,
    term: MailboxTerm,
    value: &Json,
) -> Result<MailboxCondition, NoMemory>
    ensures { IfOk result (λ c. (m : Mailbox) → mailbox_matches m c
        ≡ mailbox_term_holds m term (tree_of value.now)) }
{
    match term {
        MailboxTerm::ParentId => Ok(build_parent_id_condition(value)),
        MailboxTerm::Name => build_name_condition(alloc, value),
        MailboxTerm::Role => build_role_condition(value),
        MailboxTerm::HasAnyRole => Ok(has_any_role(value)),
        MailboxTerm::IsSubscribed => Ok(is_subscribed(value)),
    }
}

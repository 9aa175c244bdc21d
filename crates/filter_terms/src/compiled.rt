// A compiled filter: its terms, and whether they match an email or a mailbox.
ghost use Rattle.std.specs.Prelude.{◌≡◌, IfOk};
ghost use Rattle.std.specs.List.{list_all, list_any};
ghost use Rattle.filter_terms.specs.Filters.{joined};
ghost use Rattle.filter_terms.specs.Compiled.{IsMatch, IsMatchOf, all_true, match_each, terms_match, some_true};
ghost use Rattle.filter_terms.specs.Targets.{AMailbox, AnEmail, email_in_thread};

use crate::conditions::{EmailCondition, MailboxCondition};
use crate::emails::match_email_condition;
use crate::mailboxes::match_mailbox_condition;
use crate::message_conditions::{MessageCondition, match_message_condition};
use crate::terms::Operator;
use crate::texts::{OpenedMessage, Texts2};
use crate::without_texts::match_without_texts;
use jm_base::NoMemory;
use mail_records::{Content, Email, Mailbox};

/// The terms of a filter: its conditions, with their values read once, and its operators.
#[derive(Drop)]
pub(crate) enum Terms {
    Always,
    OfEmail(EmailCondition),
    OfMessage(MessageCondition),
    OfMailbox(MailboxCondition),
    Join(Operator, Vec<Terms>),
}

/// Returns whether the terms match an email whose message was opened. Its texts are looked at only
/// if the other conditions leave open whether the terms match.
#[cycle(email_holds)]
pub(crate) fn match_opened_email<M: OpenedMessage>(
    terms: &Terms,
    content: &Content,
    message: &mut M,
    email: &Email,
) -> Result<bool, NoMemory>
    ensures value { IfOk result (IsMatch terms.now
        (email_in_thread content.now.content.emails email.now) (M.contents message.old)) }
    ensures same { M.contents message.new ≡ M.contents message.old }
{
    match match_without_texts(terms, content, email) {
        Some(known) => Ok(known),
        None => match_terms_with_texts(terms, content, message, email),
    }
}

// Returns whether the terms match, of which some look at texts.
#[tactic(auto, using(crate::proofs::Matched::by_kind))]
#[cycle(email_holds)]
fn match_terms_with_texts<M: OpenedMessage>(
    terms: &Terms,
    content: &Content,
    message: &mut M,
    email: &Email,
) -> Result<bool, NoMemory>
    ensures value { IfOk result (IsMatch terms.now
        (email_in_thread content.now.content.emails email.now) (M.contents message.old)) }
    ensures same { M.contents message.new ≡ M.contents message.old }
{
    match terms {
        Terms::Always => Ok(true),
        Terms::OfEmail(condition) => Ok(match_email_condition(condition, content, email)),
        Terms::OfMessage(condition) => match_message_condition(condition, message),
        Terms::OfMailbox(_) => Ok(false),
        Terms::Join(operator, items) => join_email_matches(
            *operator, items, content, message, email,
        ),
    }
}

#[cycle(email_holds)]
fn join_email_matches<M: OpenedMessage>(
    operator: Operator,
    items: &[Terms],
    content: &Content,
    message: &mut M,
    email: &Email,
) -> Result<bool, NoMemory>
    ensures value { IfOk result (IsMatchOf (joined operator) items.now
        (email_in_thread content.now.content.emails email.now) (M.contents message.old)) }
    ensures same { M.contents message.new ≡ M.contents message.old }
{
    match operator {
        Operator::And => match_all_terms(items, content, message, email),
        Operator::Or => match_some_term(items, content, message, email),
        Operator::Not => match match_some_term(items, content, message, email) {
            Ok(some) => Ok(!some),
            Err(e) => Err(e),
        },
    }
}

#[cycle(email_holds)]
fn match_all_terms<M: OpenedMessage>(
    items: &[Terms],
    content: &Content,
    message: &mut M,
    email: &Email,
) -> Result<bool, NoMemory>
    ensures value { IfOk result (IsMatchOf all_true items.now
        (email_in_thread content.now.content.emails email.now) (M.contents message.old)) }
    ensures same { M.contents message.new ≡ M.contents message.old }
{
    for item in items {
        if !match_opened_email(item, content, message, email)? {
            return Ok(false);
        }
    }
    Ok(true)
}

#[cycle(email_holds)]
fn match_some_term<M: OpenedMessage>(
    items: &[Terms],
    content: &Content,
    message: &mut M,
    email: &Email,
) -> Result<bool, NoMemory>
    ensures value { IfOk result (IsMatchOf some_true items.now
        (email_in_thread content.now.content.emails email.now) (M.contents message.old)) }
    ensures same { M.contents message.new ≡ M.contents message.old }
{
    for item in items {
        if match_opened_email(item, content, message, email)? {
            return Ok(true);
        }
    }
    Ok(false)
}

/// Returns whether the terms match an email, whose message is opened only if the conditions that
/// look at no text leave that open.
pub(crate) fn match_email_terms<T: Texts2>(
    terms: &Terms,
    content: &Content,
    texts: &T,
    email: &Email,
) -> Result<bool, NoMemory>
    ensures { IfOk result (λ b. b ≡ terms_match terms.now
        (AnEmail (T.texts texts.now) (email_in_thread content.now.content.emails email.now))) }
{
    match match_without_texts(terms, content, email) {
        Some(known) => Ok(known),
        None => {
            let mut message = texts.open(email.blob)?;
            match_terms_with_texts(terms, content, &mut message, email)
        }
    }
}

/// Returns whether the terms hold of a mailbox.
#[tactic(auto, using(crate::proofs::Matched::by_kind))]
#[cycle(mailbox_holds)]
pub(crate) fn match_mailbox_terms(terms: &Terms, mailbox: &Mailbox) -> bool
    ensures { result ≡ terms_match terms.now (AMailbox mailbox.now) }
{
    match terms {
        Terms::Always => true,
        Terms::OfEmail(_) | Terms::OfMessage(_) => false,
        Terms::OfMailbox(condition) => match_mailbox_condition(condition, mailbox),
        Terms::Join(operator, items) => join_mailbox_matches(*operator, items, mailbox),
    }
}

#[cycle(mailbox_holds)]
fn join_mailbox_matches(operator: Operator, items: &[Terms], mailbox: &Mailbox) -> bool
    ensures { result ≡ joined operator (match_each items.now (AMailbox mailbox.now)) }
{
    match operator {
        Operator::And => match_all_with_mailbox(items, mailbox),
        Operator::Or => match_some_with_mailbox(items, mailbox),
        Operator::Not => !match_some_with_mailbox(items, mailbox),
    }
}

#[cycle(mailbox_holds)]
fn match_all_with_mailbox(items: &[Terms], mailbox: &Mailbox) -> bool
    ensures { result ≡ list_all (λ c. c) (match_each items.now (AMailbox mailbox.now)) }
{
    for item in items {
        if !match_mailbox_terms(item, mailbox) {
            return false;
        }
    }
    true
}

#[cycle(mailbox_holds)]
fn match_some_with_mailbox(items: &[Terms], mailbox: &Mailbox) -> bool
    ensures { result ≡ list_any (λ c. c) (match_each items.now (AMailbox mailbox.now)) }
{
    for item in items {
        if match_mailbox_terms(item, mailbox) {
            return true;
        }
    }
    false
}

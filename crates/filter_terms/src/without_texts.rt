// Whether the terms of a filter match an email whatever the texts of its message are.
ghost use Rattle.std.specs.Prelude.{◌≡◌, IfSome};
ghost use Rattle.filter_terms.specs.Compiled.{IsAlwaysMatch, IsAlwaysMatchOf, all_true, some_true};
ghost use Rattle.filter_terms.specs.Filters.{joined};
ghost use Rattle.filter_terms.specs.Targets.{email_in_thread};

use crate::compiled::Terms;
use crate::emails::match_email_condition;
use crate::terms::Operator;
use mail_records::{Content, Email};

/// Returns whether the terms match an email, or `None` if conditions on the texts of its message
/// may decide that. It takes no memory.
#[tactic(auto, using(crate::proofs::Matched::by_kind))]
#[cycle(known)]
pub(crate) fn match_without_texts(terms: &Terms, content: &Content, email: &Email) -> Option<bool>
    ensures { IfSome result (IsAlwaysMatch terms.now
        (email_in_thread content.now.content.emails email.now)) }
{
    match terms {
        Terms::Always => Some(true),
        Terms::OfEmail(condition) => Some(match_email_condition(condition, content, email)),
        Terms::OfMessage(_) => None,
        Terms::OfMailbox(_) => Some(false),
        Terms::Join(operator, items) => join_known_matches(*operator, items, content, email),
    }
}

#[cycle(known)]
fn join_known_matches(
    operator: Operator,
    items: &[Terms],
    content: &Content,
    email: &Email,
) -> Option<bool>
    ensures { IfSome result (IsAlwaysMatchOf (joined operator) items.now
        (email_in_thread content.now.content.emails email.now)) }
{
    match operator {
        Operator::And => match_all_without_texts(items, content, email),
        Operator::Or => match_some_without_texts(items, content, email),
        Operator::Not => match match_some_without_texts(items, content, email) {
            Some(some) => Some(!some),
            None => None,
        },
    }
}

// Returns false if some of the terms are known not to match, true if all are known to match.
#[cycle(known)]
fn match_all_without_texts(items: &[Terms], content: &Content, email: &Email) -> Option<bool>
    ensures { IfSome result (IsAlwaysMatchOf all_true items.now
        (email_in_thread content.now.content.emails email.now)) }
{
    let mut all = true;
    for item in items {
        match match_without_texts(item, content, email) {
            Some(true) => {}
            Some(false) => return Some(false),
            None => all = false,
        }
    }
    if all { Some(true) } else { None }
}

// Returns true if some of the terms are known to match, false if all are known not to match.
#[cycle(known)]
fn match_some_without_texts(items: &[Terms], content: &Content, email: &Email) -> Option<bool>
    ensures { IfSome result (IsAlwaysMatchOf some_true items.now
        (email_in_thread content.now.content.emails email.now)) }
{
    let mut all = true;
    for item in items {
        match match_without_texts(item, content, email) {
            Some(false) => {}
            Some(true) => return Some(true),
            None => all = false,
        }
    }
    if all { Some(false) } else { None }
}

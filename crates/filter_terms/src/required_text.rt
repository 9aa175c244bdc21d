// Which text a filter asks for.
ghost use Rattle.std.specs.Prelude.{◌≡◌, ℕ, IfSome, false};
ghost use Rattle.filter_terms.specs.Compiled.{IsRequiredIn, IsRequiredOf, all_true, message_matches};
ghost use Rattle.filter_terms.specs.Filters.{joined};
ghost use Rattle.filter_terms.specs.Texts.{IsRequired, MessageTexts, has_text};

use crate::compiled::Terms;
use crate::message_conditions::MessageCondition;
use crate::terms::Operator;
use crate::texts::Place;

/// A text that a filter of emails asks for: it matches no email whose message doesn't contain the
/// text. ASCII letters count in either case.
#[derive(Clone, Copy)]
pub struct RequiredText<'a> {
    /// The text.
    pub needle: &'a [u8],
    /// Whether the filter asks for nothing else: it matches each email whose message contains the
    /// text.
    pub alone: bool,
}

// Returns the text that a condition looks for at the place.
fn find_text_in_condition(condition: &MessageCondition, place: Place) -> Option<RequiredText<'_>>
    ensures { IfSome result (λ r. (m : MessageTexts) → IsRequired r.alone
        (has_text m place r.needle.now) (message_matches m condition.now)) }
{
    match condition {
        MessageCondition::Contains(at, needle) => {
            if *at == place {
                Some(RequiredText {
                    needle: needle.as_bytes(),
                    alone: true,
                })
            } else {
                None
            }
        }
        MessageCondition::Never
        | MessageCondition::HasField(_)
        | MessageCondition::FieldContains(_, _) => None,
    }
}

/// Returns a text that the terms ask for at the place: the one that they look for, or the first of
/// those that an AND joins with other conditions. Returns `None` if they ask for none.
#[tactic(auto, using(crate::proofs::Matched::by_kind))]
#[cycle(required)]
pub(crate) fn find_text_in_terms(terms: &Terms, place: Place) -> Option<RequiredText<'_>>
    ensures { IfSome result (λ r. IsRequiredIn terms.now place r.needle.now r.alone) }
{
    match terms {
        Terms::OfMessage(condition) => find_text_in_condition(condition, place),
        Terms::Join(operator, items) => find_text_in_join(*operator, items, place),
        Terms::Always | Terms::OfEmail(_) | Terms::OfMailbox(_) => None,
    }
}

#[cycle(required)]
fn find_text_in_join(operator: Operator, items: &[Terms], place: Place) -> Option<RequiredText<'_>>
    ensures { IfSome result (λ r. IsRequiredOf (joined operator) items.now place r.needle.now
        r.alone) }
{
    match operator {
        Operator::And => find_text_in_items(items, place),
        Operator::Or | Operator::Not => None,
    }
}

// Returns a text that one of the terms asks for, which may look for more.
#[cycle(required)]
fn find_text_in_items(items: &[Terms], place: Place) -> Option<RequiredText<'_>>
    ensures { IfSome result (λ r. IsRequiredOf all_true items.now place r.needle.now r.alone) }
{
    for item in items {
        if let Some(required) = find_text_in_terms(item, place) {
            return Some(RequiredText {
                needle: required.needle,
                alone: false,
            });
        }
    }
    None
}

// The conditions of a filter that look at the texts of a message, with their values, which are read
// once.
ghost use Rattle.std.specs.Prelude.{◌≡◌, ℕ, Some, map, IfOk};
ghost use Rattle.jm_json.specs.Json.{tree_of};
ghost use Rattle.filter_terms.specs.EmailTerms.{email_term_holds, field_holds};
ghost use Rattle.filter_terms.specs.Compiled.{message_matches};
ghost use Rattle.filter_terms.specs.Targets.{EmailInThread};
ghost use Rattle.filter_terms.specs.Texts.{MessageTexts, has_field};
ghost use Rattle.filter_terms.specs.Values.{field_test};
ghost use Rattle.method_args.specs.Arguments.{passes};

use crate::conditions::lower;
use crate::terms::EmailTerm;
use crate::texts::{OpenedMessage, Place};
use jm_base::{NoMemory, Text};
use jm_json::Json;
use method_args::lend_strings;
use std::alloc::Global;

/// A condition on the texts of a message with its value: texts in lower case.
#[derive(Drop)]
pub(crate) enum MessageCondition {
    Never,
    Contains(Place, Text),
    HasField(Text),
    FieldContains(Text, Text),
}

/// Returns the condition of a value that looks for a text at a place.
#[tactic(auto, using(crate::proofs::Lowered::in_lower_case))]
pub(crate) fn contains(
    alloc: Global,
    place: Place,
    value: &Json,
) -> Result<MessageCondition, NoMemory>
    ensures { IfOk result (λ c. (texts : ℕ → MessageTexts) (s : EmailInThread)
        → message_matches (texts s.email.blob) c
        ≡ email_term_holds texts s (EmailTerm.Contains place) (tree_of value.now)) }
{
    match value.as_text() {
        Some(needle) => Ok(MessageCondition::Contains(place, lower(alloc, needle.as_str())?)),
        None => Ok(MessageCondition::Never),
    }
}

// Returns the condition of the name of a header field and a text.
#[tactic(auto, using(crate::proofs::Lowered::in_lower_case))]
fn build_field_contains_condition(
    alloc: Global,
    name: &str,
    needle: &str,
) -> Result<MessageCondition, NoMemory>
    ensures { IfOk result (λ c. (m : MessageTexts) → message_matches m c
        ≡ has_field m name.now (Some needle.now)) }
{
    let name = Text::from_str(alloc, name)?;
    let needle = lower(alloc, needle)?;
    Ok(MessageCondition::FieldContains(name, needle))
}

// Returns the condition of the name of a header field, and perhaps a text.
fn build_field_condition(alloc: Global, strings: &[&str]) -> Result<MessageCondition, NoMemory>
    ensures { IfOk result (λ c. (m : MessageTexts) → message_matches m c
        ≡ passes (λ test. field_holds m test) (field_test (map (λ t. t.now) strings.now))) }
{
    let Some((name, rest)) = strings.split_first() else {
        return Ok(MessageCondition::Never);
    };
    let Some((needle, more)) = rest.split_first() else {
        return Ok(MessageCondition::HasField(Text::from_str(alloc, name)?));
    };
    if let Some(_) = more.split_first() {
        return Ok(MessageCondition::Never);
    }
    build_field_contains_condition(alloc, name, needle)
}

/// Returns the condition of a value that names a header field, and perhaps a text.
pub(crate) fn build_header_condition(
    alloc: Global,
    value: &Json,
) -> Result<MessageCondition, NoMemory>
    ensures { IfOk result (λ c. (texts : ℕ → MessageTexts) (s : EmailInThread)
        → message_matches (texts s.email.blob) c
        ≡ email_term_holds texts s EmailTerm.Header (tree_of value.now)) }
{
    match lend_strings(alloc, value)? {
        Some(strings) => build_field_condition(alloc, &strings),
        None => Ok(MessageCondition::Never),
    }
}

/// Returns whether a condition matches a message that was opened.
pub(crate) fn match_message_condition<M: OpenedMessage>(
    condition: &MessageCondition,
    message: &mut M,
) -> Result<bool, NoMemory>
    ensures value { IfOk result (λ b. b
        ≡ message_matches (M.contents message.old) condition.now) }
    ensures same { M.contents message.new ≡ M.contents message.old }
{
    match condition {
        MessageCondition::Never => Ok(false),
        MessageCondition::Contains(place, needle) => message.has(*place, needle.as_bytes()),
        MessageCondition::HasField(name) => message.field(name.as_bytes(), None),
        MessageCondition::FieldContains(name, needle) => {
            message.field(name.as_bytes(), Some(needle.as_bytes()))
        }
    }
}

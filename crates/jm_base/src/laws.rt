// What the definitions of a change to a list come to (RFC 8620, section 5.6).
ghost use Rattle.jm_base.specs.Splices.{NothingChanges, BecomesTheOther, BringsUpToDate};
ghost use Rattle.std.specs.Prelude.{◌≡◌, ℕ, ℤ, List, Some};
ghost use Rattle.jm_base.specs.UtcDates.{DatesReadBack, IsUtcText};
ghost use Rattle.jm_base.specs.UtcSeconds.{utc_seconds};
ghost use Rattle.jm_base.specs.declared.identifiers.UtcDate.{UtcDate};
ghost use Rattle.jm_base.specs.Ids.{TextsTellIds, TextsTellStates};

/// Shows that a change without removed and added items leaves every list as it is.
pub fn show_that_nothing_changes_nothing()
    ensures { NothingChanges }
{}

/// Shows that a list becomes any other list by the numbers in which the two differ.
pub fn show_that_a_list_becomes_the_other()
    ensures { BecomesTheOther }
{}

/// Shows that a change brings a sorted list up to date if the change touches each item that is in
/// one of the two lists alone, and one item of each pair whose order differs.
pub fn show_that_a_change_brings_up_to_date()
    ensures { BringsUpToDate }
{}

/// Shows that the text of a date is a text of that date, and of no other (RFC 8620, section 1.4).
pub fn show_that_dates_read_back()
    ensures { DatesReadBack }
{}

/// Shows that different identifiers have different texts (RFC 8620, section 1.2).
pub fn show_that_texts_tell_ids()
    ensures { TextsTellIds }
{}

/// Shows that different states have different texts (RFC 8620, section 5.1).
pub fn show_that_texts_tell_states()
    ensures { TextsTellStates }
{}

/// Shows that the test of dates tells a string's date: a string has the seconds of a date if and
/// only if it is a string of that date.
pub fn show_that_the_test_tells_dates()
    ensures dated { (text : List ℕ) (date : UtcDate) → IsUtcText text date
        → utc_seconds text ≡ Some date.seconds }
    ensures read { (text : List ℕ) (seconds : ℤ) → utc_seconds text ≡ Some seconds
        → IsUtcText text (record { seconds = seconds }) }
{}

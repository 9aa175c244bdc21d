// What the definitions of updates of emails come to.
ghost use Rattle.email_set.specs.Filings.{FilingsAreWritten, FilingsReadBack};
ghost use Rattle.email_set.specs.OneUpdates.{IdsAreReportedAsSent, OneUpdateIsAnswered, OneUpdateIsPlanned};

/// Shows that mailboxes and keywords that were written are read as what they were, in an object
/// that may have other members: one that Email/get shows, or one that [`build_filing_tree`] built.
///
/// [`build_filing_tree`]: crate::build_filing_tree
pub fn show_that_written_filings_are_read()
    ensures read { FilingsReadBack }
    ensures written { FilingsAreWritten }
{}

/// Shows what the reply to a set with one update, and nothing else, says: the update's id is in
/// `updated` if the update is done, and else in `notUpdated` with its error; `newState` is the
/// state after the edits, which are those of the update and those that follow from them (RFC 8620,
/// section 5.3). It is said of the updates after no creates, and of the set that a client sends.
pub fn show_what_is_said_of_one_update()
    ensures planned { OneUpdateIsPlanned }
    ensures answered { OneUpdateIsAnswered }
    ensures reported { IdsAreReportedAsSent }
{}

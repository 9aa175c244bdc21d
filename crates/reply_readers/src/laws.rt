// What the definitions of responses come to.
ghost use Rattle.reply_readers.specs.ObjectsBack.{ObjectsReadBack};
ghost use Rattle.reply_readers.specs.ReadBack.{DeltasReadBack, PagesReadBack, ResultsReadBack};

/// Shows that what a server writes is read as what it was, and is of its form: pages of changes,
/// changes of a query's results, and results of a query (RFC 8620, sections 5.2, 5.5 and 5.6).
pub fn show_that_written_responses_are_read()
    ensures pages { PagesReadBack }
    ensures deltas { DeltasReadBack }
    ensures results { ResultsReadBack }
{}

/// Shows that the objects that a server writes are read as what they were, if they and the
/// identifiers of records that are not there are of the records that were asked, each once (RFC
/// 8620, section 5.1).
pub fn show_that_written_objects_are_read()
    ensures { ObjectsReadBack }
{}

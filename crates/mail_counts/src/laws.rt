// What follows from the definitions.
ghost use Rattle.std.specs.Prelude.{◌≡◌, List, []};
ghost use Rattle.std.specs.List.{AllByRecursion};
ghost use Rattle.mail_records.specs.Contents.{AreTables, Content};
ghost use Rattle.mail_records.specs.Edits.{IsSmall, after_edits};
ghost use Rattle.mail_records.specs.declared.edits.Edit.{Edit};
ghost use Rattle.mail_counts.specs.CountsFlag.{AreCountsFlagsRight};
ghost use Rattle.mail_counts.specs.Derived.{LeavesEmails};
ghost use Rattle.mail_counts.specs.DerivedEdits.{derived_edits};
ghost use Rattle.mail_counts.specs.Plans.{IsStateOfGrown};
ghost use Rattle.mail_counts.specs.Tidy.{IsTidy};
ghost use Rattle.mail_counts.specs.TidyBut.{DerivedEditsMakeTidy, LeaveTidyButThreadsAndCounts};

/// The state after the edits of a commit, as a plan computes it, is the state in the history that
/// has grown by the commit (RFC 8620, sections 5.1 and 5.3).
pub fn state_after_edits_is_that_of_the_grown_history()
    ensures { IsStateOfGrown }
{}

/// With the edits that follow from them, edits that leave a tidy content tidy but for threads and
/// counts fit it and leave it tidy: each count is then that over all emails, and the threads are
/// those of the emails (RFC 8621, sections 2 and 3). None of the edits that follow is of an email,
/// none is large, and their flags `counts` are right. Nothing follows from edits that leave emails.
pub fn derived_edits_make_tidy()
    ensures tidy { (c : Content) (edits : List Edit) → IsTidy c
        → LeaveTidyButThreadsAndCounts c edits → DerivedEditsMakeTidy c edits }
    ensures small { (c : Content) (edits : List Edit) → AllByRecursion IsSmall
        (derived_edits c edits) }
    ensures emails { (c : Content) (edits : List Edit) → AllByRecursion LeavesEmails
        (derived_edits c edits) }
    ensures flags { (c : Content) (edits : List Edit) → AreTables c → AreCountsFlagsRight
        (after_edits c edits) (derived_edits c edits) }
    ensures none { (c : Content) (edits : List Edit) → AllByRecursion LeavesEmails edits
        → derived_edits c edits ≡ [] }
{}

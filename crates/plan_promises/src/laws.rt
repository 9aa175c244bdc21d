// What follows from the promises of a plan.
ghost use Rattle.std.specs.Prelude.{ℕ, List, ◌++◌};
ghost use Rattle.std.specs.List.{AllByRecursion};
ghost use Rattle.mail_records.specs.Commits.{IsFormedEdit};
ghost use Rattle.mail_records.specs.Contents.{Content};
ghost use Rattle.mail_records.specs.Edits.{AllFit, AllKeepThread, IsSmall, after_edits};
ghost use Rattle.mail_records.specs.declared.edits.Edit.{Edit};
ghost use Rattle.mail_records.specs.declared.records.Email.{Email};
ghost use Rattle.mail_records.specs.declared.records.Summary.{Summary};
ghost use Rattle.mail_counts.specs.CountsFlag.{AreCountsFlagsRight};
ghost use Rattle.mail_counts.specs.Derived.{LeavesEmails};
ghost use Rattle.mail_counts.specs.Tidy.{IsTidy};
ghost use Rattle.plan_promises.specs.Messages.{HasMessage, IsFormedSummary};
ghost use Rattle.plan_promises.specs.Planned.{AllKeepMessages, IsPlanned};

/// An email keeps its message as blobs are added to its account.
pub fn blobs_that_are_added_keep_messages()
    ensures { (summary : List ℕ → Summary) (blobs more : List (List ℕ)) (e : Email)
        → HasMessage summary blobs e → HasMessage summary (blobs ++ more) e }
{}

/// Edits that keep the message of each email keep its thread (RFC 8621, section 3).
pub fn planned_edits_keep_threads()
    ensures { (c : Content) (es : List Edit) → AllKeepMessages c es → AllKeepThread c es }
{}

/// From a tidy content whose emails have their messages, the edits of a plan can be kept, and leave
/// emails that have theirs. The summary of each message must be one that can be kept.
pub fn planned_edits_leave_messages()
    ensures small { (summary : List ℕ
        → Summary) (blobs : List (List ℕ)) (c : Content) (es : List Edit) → ((bytes : List ℕ)
        → IsFormedSummary (summary bytes)) → IsTidy c
        → AllByRecursion (HasMessage summary blobs) c.emails → IsPlanned summary blobs c es
        → AllByRecursion IsSmall es }
    ensures formed { (summary : List ℕ
        → Summary) (blobs : List (List ℕ)) (c : Content) (es : List Edit) → ((bytes : List ℕ)
        → IsFormedSummary (summary bytes)) → IsTidy c
        → AllByRecursion (HasMessage summary blobs) c.emails → IsPlanned summary blobs c es
        → AllByRecursion IsFormedEdit es }
    ensures messages { (summary : List ℕ
        → Summary) (blobs : List (List ℕ)) (c : Content) (es : List Edit) → ((bytes : List ℕ)
        → IsFormedSummary (summary bytes)) → IsTidy c
        → AllByRecursion (HasMessage summary blobs) c.emails → IsPlanned summary blobs c es
        → AllByRecursion (HasMessage summary blobs) (after_edits c es).emails }
{}

/// Edits that leave emails as they are are those of a plan if they fit, leave the content tidy, and
/// have the flag `counts` exactly at the puts that change only the counts of a mailbox.
pub fn edits_of_mailboxes_are_planned()
    ensures { (summary : List ℕ → Summary) (blobs : List (List ℕ)) (c : Content) (es : List Edit)
        → AllFit c es → AllByRecursion LeavesEmails es → IsTidy (after_edits c es)
        → AreCountsFlagsRight c es → IsPlanned summary blobs c es }
{}

// What the rules of mail rest on, as laws: messages have summaries that can be kept, and what a
// planner promises keeps an account valid. Calls that read are answered as clients are told.
ghost use Rattle.std.specs.Prelude.{ℕ, List, ◌++◌};
ghost use Rattle.mail_records.specs.Histories.{History, Committed, blobs_of, content_of, grown};
ghost use Rattle.mail_records.specs.declared.edits.Stamp.{Stamp};
ghost use Rattle.mail_counts.specs.CountsFlag.{AreCountsFlagsRight};
ghost use Rattle.mail_summary.specs.Summaries.{summary};
ghost use Rattle.record_codec.specs.Sizes.{edit_bytes};
ghost use Rattle.blob_store.specs.Blobs.{AreBlobsFew};
ghost use Rattle.account_book.specs.Replies.{IsWithin, commit_of};
ghost use Rattle.account_book.specs.declared.asks.Call.{Call};
ghost use Rattle.account_book.specs.declared.plans.Plan.{Plan};
ghost use Rattle.plan_promises.specs.Messages.{IsFormedSummary};
ghost use Rattle.plan_promises.specs.Planned.{IsPlanned};
ghost use Rattle.read_replies.specs.Reads.{PlansReads};
ghost use Rattle.mail_calls.specs.ValidAfterCommits.{IsWholeMail};
ghost use Rattle.mail_calls.specs.Plans.{call_plan};

/// The summary of every message can be kept: it has at most `MAX_LINKS_PER_EMAIL` links, which
/// rise, and its date is of the years 1 to 9999.
pub fn summaries_can_be_kept()
    ensures { (bytes : List ℕ) → IsFormedSummary (summary bytes) }
{}

/// A plan of any edits and blobs keeps a valid account valid, if its edits are planned, the blobs
/// with it are few, and its edits stay within the account's limit.
pub fn planned_edits_keep_accounts_valid()
    ensures { (h : History) (p : Plan) (stamp : Stamp) → IsWholeMail h
        → IsPlanned summary (blobs_of h ++ p.blobs) (content_of h) p.edits
        → AreBlobsFew (blobs_of h ++ p.blobs) → IsWithin edit_bytes h p.edits
        → IsWholeMail (grown h (Committed (commit_of p stamp))) }
{}

/// From a valid account, each put of a call's plan has the flag `counts` if and only if it changes
/// only the counts of a mailbox that is there. `updatedProperties` follows from these flags (RFC
/// 8621, section 2.2).
pub fn plans_say_which_puts_change_only_counts()
    ensures { (h : History) (call : Call) (moment : ℕ) → IsWholeMail h
        → AreCountsFlagsRight (content_of h) (call_plan h call moment).edits }
{}

/// A call of /get, /changes, /query or /queryChanges is planned by the definitions that a client
/// knows of its reply (RFC 8620, sections 5.1, 5.2, 5.5 and 5.6).
pub fn calls_that_read_are_answered_by_their_definitions()
    ensures { PlansReads call_plan }
{}

// What the definitions of queries come to: laws, each as the contract of a function that does
// nothing.
ghost use Rattle.query_engine.specs.Laws.{CollapsingTakesOut, EmailsDecide, IsTheResult, MailboxesDecide, ThereIsOneResult};

/// Each query has exactly one result list over a content: the list of exactly the records that the
/// query shows, each once, in which each is before all later ones (RFC 8620, section 5.5).
pub fn queries_have_one_result()
    ensures is_result { IsTheResult }
    ensures one { ThereIsOneResult }
{}

/// A result list with collapsed threads is the one without, but for each email that is in the same
/// thread as an earlier one (RFC 8621, section 4.4.3).
pub fn collapsing_keeps_the_first_of_a_thread()
    ensures { CollapsingTakesOut }
{}

/// Whether a record is shown depends on the record alone: on the mailbox, or on the email and,
/// where the query is wide, on the emails of its thread (RFC 8620, section 5.6).
pub fn queries_see_only_their_records()
    ensures emails { EmailsDecide }
    ensures mailboxes { MailboxesDecide }
{}

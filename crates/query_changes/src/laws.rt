// What the changes of a result list come to: laws, each as the contract of a function that does
// nothing.
ghost use Rattle.std.specs.Prelude.{ℕ};
ghost use Rattle.mail_records.specs.Histories.{History};
ghost use Rattle.query_engine.specs.Views.{QueryTree};
ghost use Rattle.query_changes.specs.Laws.{
  AreTheTouched,
  BringsUpToDate,
  OrderedAlike,
  ShownAlike,
  StatesDecide,
  TextsDecide,
  TextsDecideAnswers,
  TextsDecideLists,
  TextsDecideOutcomes,
  TextsDecideQueries,
};

use filter_terms::filters_see_only_their_texts;

/// The list of a query at a state, spliced by the changes since then, is the list of the query now:
/// over every history whose edits fit and keep each email in its thread, from every state that the
/// history reaches, within a commit too, and for every filter and sort, with threads collapsed or
/// not (RFC 8620, section 5.6).
pub fn changes_bring_lists_up_to_date()
    ensures { BringsUpToDate }
{}

/// The touched records are exactly those that edits since the state name and, where threads matter,
/// the present emails of the threads that these edits name. A record that is not touched is shown
/// now if and only if it was shown at the state, and two of them are in the same order.
pub fn untouched_records_stay()
    ensures touched { (h : History) (q : QueryTree) (s : ℕ) → AreTheTouched h q s }
    ensures shown { ShownAlike }
    ensures order { OrderedAlike }
{}

/// The list of a query at a position, as at the end of a commit, is that at the state which its
/// kind has there. So the list that a client was sent with a state is the list at that state.
pub fn lists_are_those_of_states()
    ensures { StatesDecide }
{}

/// A result list and the response to a query depend, of all texts, on those of the messages of the
/// emails that are there. So they stay the same as blobs are added (RFC 8620, section 5.5).
pub fn lists_see_only_their_texts()
    ensures lists { TextsDecideLists }
    ensures outcomes { TextsDecideQueries }
{
    filters_see_only_their_texts();
}

/// The changes of a list, and the response that has them, depend of all texts on those of the
/// messages of the present emails. So they stay the same as blobs are added.
pub fn changes_see_only_their_texts()
    ensures deltas { TextsDecide }
    ensures answers { TextsDecideAnswers }
    ensures outcomes { TextsDecideOutcomes }
{
    lists_see_only_their_texts();
}

// Laws of a round over the replies of a history, each as the contract of a function that does
// nothing.
ghost use Rattle.client_follow.specs.Agreement.{
  AgreementStays,
  ChangesKeep,
  DeltasKeep,
  ErrorsKeep,
  GetsKeep,
  KindsBegin,
  ListsBegin,
  ListsKeep,
  LoadsBegin,
  LoadsKeep,
  NewCachesAgree,
  RecordsKeep,
  SessionsKeep,
  ThreadsKeep,
};
ghost use Rattle.client_follow.specs.Answers.{
  ChangesAnswered,
  GetsAnswered,
  ListsAnswered,
  LoadsAnswered,
  RecordsAnswered,
  ThreadsAnswered,
};
ghost use Rattle.client_follow.specs.Laws.{
  ChangesArrive,
  DeltasAreRead,
  DeltasArrive,
  GetsAreRead,
  GetsLeadOn,
  KindGets,
  KindMoves,
  KindPages,
  KindStarts,
  LastPagesComplete,
  ListPages,
  ListsAreBrought,
  ListsAreRead,
  LoadGets,
  LoadPages,
  LoadsAreRead,
  LoadsArrive,
  LoadsNameAll,
  LoadsStart,
  PagesAreRead,
  PagesFollow,
  PagesLeadOn,
  RecordsAreOne,
  StartsAtItsState,
  StatesDecide,
  ThreadGets,
};

/// Records that are exactly the objects of a state are one list, in byte order of the ids; and the
/// objects at a position, as at the end of a commit, are those at the state which the kind has
/// there (RFC 8620, section 5.1).
pub fn records_are_those_of_states()
    ensures one { RecordsAreOne }
    ensures states { StatesDecide }
{}

/// A client that keeps the records of one state, takes any pages of changes one after the other,
/// and gets what they name at the state where the last one ends, has then exactly the records of
/// that state, as a get of all of them would show (RFC 8620, section 5.2). It may take gets and
/// pages in any order: what it holds stays on the way from the one state to the other.
pub fn changes_bring_records_up_to_date()
    ensures starts { StartsAtItsState }
    ensures pages { PagesLeadOn }
    ensures gets { GetsLeadOn }
    ensures arrives { ChangesArrive }
{}

/// A round brings a kind from the state that is kept to the one that the replies show, by the steps
/// of the round: once its step leaves the kind, what is kept of it is exactly what the history has
/// at the new state. A get that shows a later state changes nothing of that (RFC 8620, sections 5.1
/// and 5.2).
pub fn rounds_bring_kinds_up_to_date()
    ensures starts { KindStarts }
    ensures pages { KindPages }
    ensures gets { KindGets }
    ensures moves { KindMoves }
{}

/// A client's call for the changes since a state which the history reaches is answered, and the
/// answer is read as the page from that state to where it ends: the greatest position up to which
/// at most 500 records changed (RFC 8620, section 5.2).
pub fn pages_are_read_as_what_changed()
    ensures { PagesAreRead }
{}

/// A client's get of records of which each is asked for once is answered, and the answer is read as
/// the objects which the history has of these records at its end, at the state that the kind has
/// there: each record that was asked for is an object or unknown (RFC 8620, section 5.1).
pub fn gets_are_read_as_what_is_there()
    ensures { GetsAreRead }
{}

/// A client that asks for all records that are there at a state, and gets them at that state, in
/// parts, has exactly the records of that state (RFC 8620, section 5.1).
pub fn loads_bring_all_records()
    ensures starts { LoadsStart }
    ensures arrives { LoadsArrive }
{}

/// A round loads a kind by the steps of the round: by pages of a query until one is not full, and
/// by gets of what they name; once its step leaves the kind, what is kept of it is exactly what the
/// history has at the state of the load (RFC 8620, sections 5.1 and 5.5).
pub fn rounds_load_kinds()
    ensures pages { LoadPages }
    ensures gets { LoadGets }
    ensures threads { ThreadGets }
{}

/// A round loads a list by pages at one state until one is not full, and keeps then the whole list
/// (RFC 8620, section 5.5).
pub fn rounds_load_lists()
    ensures { ListPages }
{}

/// Pages of one query at one state, each from where the ids so far end, are the beginning of the
/// query's list, and with a page that is not full they are the whole list (RFC 8620, section 5.5).
pub fn pages_bring_whole_lists()
    ensures follow { PagesFollow }
    ensures complete { LastPagesComplete }
{}

/// A client's query of a list, from a position on, is answered, and the answer is read as the part
/// of the query's list that begins there, of at most 1,000 emails, at the state of emails (RFC
/// 8620, section 5.5).
pub fn results_are_read_as_part_of_a_list()
    ensures { ListsAreRead }
{}

/// A list that is the query's at a state, spliced by the changes of the query since then, is taken
/// as the query's list now, for every filter and sort, with threads collapsed or not (RFC 8620,
/// section 5.6).
pub fn changes_of_queries_arrive()
    ensures { DeltasArrive }
{}

/// A client's call for the changes of a list's query, since a state which the history reaches, is
/// answered, and the answer is read as the changes of the query since then, at the state of emails.
/// A list that was the query's at that state becomes by it the query's list now, at the state of
/// emails, and the round goes on with the next list (RFC 8620, section 5.6).
pub fn lists_are_brought_up_to_date()
    ensures read { DeltasAreRead }
    ensures brought { ListsAreBrought }
{}

/// A client's query of all mailboxes or all emails, as a load asks it, is answered, and the answer
/// is read as the part of the query's list that begins at the position which was asked for. That
/// list has exactly the records that are there (RFC 8620, section 5.5).
pub fn loads_are_read_as_all_records()
    ensures read { LoadsAreRead }
    ensures all { LoadsNameAll }
{}

/// Whatever a server answers to the call of a round that brings a kind up to date, over an account
/// with a history, makes the round go on: by the page that its call for changes is answered, to a
/// later state; by the objects of its get, to a further get, or what is kept of the kind is exactly
/// what the history has at the state (RFC 8620, sections 5.1 and 5.2).
pub fn answers_bring_kinds_up_to_date()
    ensures changes { ChangesAnswered }
    ensures gets { GetsAnswered }
{}

/// Whatever a server answers to the call of a round that loads a kind makes the round go on: by the
/// results of its query, to the next page or to a get of them all; by the objects of its get, to a
/// further get, or what is kept of the kind is exactly what the history has at the state. After an
/// answer at another state than the load's it begins again (RFC 8620, sections 5.1 and 5.5).
pub fn answers_load_kinds()
    ensures results { LoadsAnswered }
    ensures records { RecordsAnswered }
    ensures threads { ThreadsAnswered }
{}

/// Whatever a server answers to the query of a round that loads a list makes the round go on: to
/// the next page, or the query's list is kept at the state of emails. After an answer at another
/// state than the load's it begins again (RFC 8620, section 5.5).
pub fn answers_load_lists()
    ensures { ListsAnswered }
{}

/// A cache of which each kind and each list is what the history has at its state begins a round so:
/// a kind or a list whose state is known is first asked for its changes since then, and a kind
/// whose state is not known is loaded. A new cache is such a one for every history, and one stays
/// such over the Session (RFC 8620, sections 2, 5.2 and 5.6).
pub fn rounds_begin_where_the_cache_is()
    ensures empty { NewCachesAgree }
    ensures session { SessionsKeep }
    ensures kinds { KindsBegin }
    ensures loads { LoadsBegin }
    ensures lists { ListsBegin }
{}

/// A cache of which each kind and each list is what the history has at its state stays such by
/// whatever a server answers to the call of a step, over an account with that history, and by the
/// error that says that a state is too old (RFC 8620, sections 5.1, 5.2, 5.5 and 5.6).
pub fn answers_keep_what_the_history_has()
    ensures changes { ChangesKeep }
    ensures gets { GetsKeep }
    ensures results { LoadsKeep }
    ensures records { RecordsKeep }
    ensures threads { ThreadsKeep }
    ensures lists { ListsKeep }
    ensures deltas { DeltasKeep }
    ensures errors { ErrorsKeep }
{}

/// A cache of which each kind and each list is what a history has at its state, none of them past
/// the history's end, stays such as the history grows, if each email at the state that it keeps of
/// emails has its blob (RFC 8620, sections 5.1 and 5.5).
pub fn caches_agree_as_histories_grow()
    ensures { AgreementStays }
{}

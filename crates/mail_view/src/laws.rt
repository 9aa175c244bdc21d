// What the definitions of views come to: laws, each as the contract of a function that does
// nothing.
ghost use Rattle.mail_view.specs.Laws.{
  EmailsHaveTheirMembers,
  GetsShowViews,
  GetsStay,
  IdsName,
  MailboxesHaveTheirMembers,
  StatesDecide,
  ThreadsHaveTheirMembers,
  ViewStays,
  ViewsHaveTheirForm,
  ViewsStay,
};

/// The views of emails, and the answer to a get of emails, stay the same as blobs are added. So the
/// views at any position of a history may be read in the blobs of its end.
pub fn views_stay_as_blobs_are_added()
    ensures view { ViewStays }
    ensures views { ViewsStay }
    ensures gets { GetsStay }
{}

/// The objects that a client keeps of the records at a position are those at the state that the
/// kind has there (RFC 8620, section 5.1).
pub fn views_are_those_of_states()
    ensures { StatesDecide }
{}

/// A client's get of some ids is answered with the objects that they name, and with the ids that
/// name none; the object under an id is that of the record which the id names (RFC 8620,
/// section 5.1).
pub fn client_gets_are_answered_with_views()
    ensures ids { IdsName }
    ensures gets { GetsShowViews }
{}

/// The object that a client keeps of an email has the properties that it asks for, and those of a
/// mailbox and of a thread have all, each once, in byte order of the names (RFC 8621, sections 2, 3
/// and 4.1).
pub fn views_have_their_members()
    ensures emails { EmailsHaveTheirMembers }
    ensures mailboxes { MailboxesHaveTheirMembers }
    ensures threads { ThreadsHaveTheirMembers }
{}

/// The object of each record of a tidy content has the members that a client asks for, each of its
/// form (RFC 8621, sections 2, 3 and 4.1).
pub fn views_have_their_form()
    ensures { ViewsHaveTheirForm }
{}

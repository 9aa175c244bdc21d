// What the definitions of orders come to: laws, each as the contract of a function that does
// nothing.
ghost use Rattle.std.specs.Prelude.{◌≡◌, ℕ, [], ◌∷◌};
ghost use Rattle.sort_terms.specs.Laws.{BeforeGoesOn, EmailsDecide, MailboxesDecide, NeverBeforeItself, OneIsBefore};

/// An order is strict and total: no record is before itself; what is before a record that is before
/// another is before the other; and of two records one is before the other. So a query has one
/// result list (RFC 8620, section 5.5).
pub fn orders_are_strict()
    ensures irreflexive { NeverBeforeItself }
    ensures transitive { BeforeGoesOn }
    ensures total { OneIsBefore }
{}

/// Which of two records is before the other depends on the two alone: on the mailboxes, or on the
/// emails and, where the order looks at them, on the emails of their threads (RFC 8620,
/// section 5.6).
pub fn orders_see_only_their_records()
    ensures emails { EmailsDecide }
    ensures mailboxes { MailboxesDecide }
{}

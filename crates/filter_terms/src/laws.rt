// What the definitions of filters come to: laws, each as the contract of a function that does
// nothing.
ghost use Rattle.std.specs.Prelude.{◌≡◌, List, [], codes, false, not, true};
ghost use Rattle.std.specs.List.{list_all, list_any};
ghost use Rattle.jm_base.specs.declared.identifiers.Kind.{Kind};
ghost use Rattle.jm_json.specs.Tree.{Tree, null, no_fields, object};
ghost use Rattle.filter_terms.specs.Filters.{holds};
ghost use Rattle.filter_terms.specs.Laws.{
  EmailsDecide,
  MailboxesDecide,
  OwnTextsDecide,
  TextsOfRecordDecide,
  each_matches,
  operation,
};
ghost use Rattle.filter_terms.specs.Targets.{Target};

/// Whether a filter matches depends on the record alone: on the mailbox, or on the email and, if
/// the filter looks at them, on the emails of its thread. If these are equal in two contents, the
/// filter matches in both or in neither (RFC 8620, section 5.6).
pub fn filters_see_only_their_record()
    ensures emails { EmailsDecide }
    ensures mailboxes { MailboxesDecide }
{}

/// Whether a filter matches an email depends, of all texts, on those of the email's own message. If
/// two stores of messages have the same texts for that message, the filter matches the email in
/// both or in neither. No text decides whether it matches a mailbox (RFC 8621, section 4.4.1).
pub fn filters_see_only_their_texts()
    ensures emails { OwnTextsDecide }
    ensures records { TextsOfRecordDecide }
{}

/// AND matches where each condition does, OR where some does, NOT where none does. So an empty AND
/// and an empty NOT match all records, an empty OR none; null and an object without members match
/// all (RFC 8620, section 5.5).
pub fn operators_join_their_conditions()
    ensures conjunction { (kind : Kind) (x : Target) (ts : List Tree) → holds kind x
        (operation (codes "AND") ts) ≡ list_all (λ b. b) (each_matches kind x ts) }
    ensures disjunction { (kind : Kind) (x : Target) (ts : List Tree) → holds kind x
        (operation (codes "OR") ts) ≡ list_any (λ b. b) (each_matches kind x ts) }
    ensures negation { (kind : Kind) (x : Target) (ts : List Tree) → holds kind x
        (operation (codes "NOT") ts) ≡ not (list_any (λ b. b) (each_matches kind x ts)) }
    ensures none { (kind : Kind) (x : Target) → holds kind x (operation (codes "OR") []) ≡ false }
    ensures nothing { (kind : Kind) (x : Target) → holds kind x null ≡ true }
    ensures empty { (kind : Kind) (x : Target) → holds kind x (object no_fields) ≡ true }
{}

// What the rule says in plain words: laws of the definitions, each as the contract of a function
// that does nothing.
ghost use Rattle.std.specs.Prelude.{◌≡◌, ℕ, List, Some, None};
ghost use Rattle.std.specs.List.{Contains};
ghost use Rattle.mail_records.specs.Contents.{email_number};
ghost use Rattle.mail_records.specs.Tables.{IsTable};
ghost use Rattle.mail_records.specs.declared.records.Email.{Email};
ghost use Rattle.mail_records.specs.declared.records.Summary.{Summary};
ghost use Rattle.thread_assign.specs.Threads.{joined_thread};
ghost use Rattle.thread_assign.specs.Related.{AreRelated, Decides, HaveSameLinks};

/// The thread that a new email joins is that of the least numbered email that has one of its links
/// and its subject, and there is one if and only if there is such an email. The order of the links,
/// and how often each is in the summary, do not matter (RFC 8621, section 3).
pub fn least_related_email_decides()
    ensures decided { (emails : List Email) (s : Summary) (t : ℕ) → IsTable email_number emails
        → joined_thread emails s ≡ Some t → (e : Email) × Decides emails s e × (e.thread ≡ t) }
    ensures joined { (emails : List Email) (s : Summary) (e : Email) → IsTable email_number emails
        → Decides emails s e → joined_thread emails s ≡ Some e.thread }
    ensures alone { (emails : List Email) (s : Summary) → joined_thread emails s ≡ None
        → (e : Email) → Contains emails e → AreRelated s e → ⊥ }
    ensures begins { (emails : List Email) (s : Summary) → IsTable email_number emails
        → ((e : Email) → Contains emails e → AreRelated s e → ⊥)
        → joined_thread emails s ≡ None }
    ensures order { (emails : List Email) (one other : Summary) → HaveSameLinks one other
        → joined_thread emails one ≡ joined_thread emails other }
{}

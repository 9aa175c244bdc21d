// Laws of what `batch` writes over its account.
ghost use Rattle.std.specs.Prelude.{◌≡◌, List, ℕ};
ghost use Rattle.jm_json.specs.Call.{Call};
ghost use Rattle.jm_json.specs.declared.invocation.Created.{Created};
ghost use Rattle.jm_json.specs.declared.invocation.Replied.{Replied};
ghost use Rattle.mail_records.specs.Histories.{History, empty_history};
ghost use Rattle.mail_calls.specs.ValidAfterCommits.{IsWholeMail};
ghost use Rattle.batch_lines.specs.Lines.{lines_of};
ghost use Rattle.batch_lines.specs.Replies.{AreReplies};
ghost use Rattle.batch_lines.specs.declared.upload.Uploaded.{Uploaded};
ghost use Rattle.jmap_commands.specs.AccountAnswers.{account_answers, account_uploads};
ghost use Rattle.jmap_commands.specs.Stamps.{AreAlike};

/// What `batch` writes is one function of the bytes of its input. From accounts that differ in the
/// stamps of their entries alone, the replies to the same lines are the same, and the accounts are
/// alike again.
pub fn replies_are_one()
    ensures output { (input out other : List ℕ) (h k : History)
        → AreReplies account_answers account_uploads empty_history h (lines_of input) out
        → AreReplies account_answers account_uploads empty_history k (lines_of input) other
        → other ≡ out }
    ensures lines { (lines : List (List ℕ)) (out other : List ℕ) (h h' k k' : History)
        → AreAlike h k → AreReplies account_answers account_uploads h h' lines out
        → AreReplies account_answers account_uploads k k' lines other → (other ≡ out)
        × AreAlike h' k' }
{}

/// A valid account stays valid, whatever call or upload is answered.
pub fn answers_keep_accounts_valid()
    ensures calls { (h h' : History) (c : Call) (made : List Created) (r : Replied)
        → IsWholeMail h → account_answers h c made r h' → IsWholeMail h' }
    ensures uploads { (h h' : History) (bytes : List ℕ) (u : Uploaded) → IsWholeMail h
        → account_uploads h bytes u h' → IsWholeMail h' }
{}

// Laws of sessions and of the accounts that are taken out of a hall.
ghost use Rattle.std.specs.Prelude.{◌≡◌, ◌∷◌, [], ℕ, List, Some, length, slice_get};
ghost use Rattle.mail_records.specs.Histories.{Entry, History};
ghost use Rattle.account_book.specs.declared.asks.Call.{Call};
ghost use Rattle.account_book.specs.declared.plans.Out.{Out};
ghost use Rattle.account_book.specs.declared.plans.Plan.{Plan};
ghost use Rattle.account_lock.specs.Views.{PassFacts};
ghost use Rattle.account_hall.specs.Building.{AreClosedBy};
ghost use Rattle.account_hall.specs.Closing.{AreEntriesOf, HasAllOf, IsAnsweredIn, KnowsSessions, LeaveNoGap};
ghost use Rattle.account_hall.specs.Growing.{HasGrown};
ghost use Rattle.account_hall.specs.Sessions.{IsCall, IsLook, IsSession, SessionView};

/// A call of a session, answered or out of memory, leaves it all that it had: its trail begins with
/// what it was, and so does what it has seen of each account. So it is over all later calls.
pub fn calls_let_sessions_grow()
    ensures calls { (plan : History → Call → ℕ → Plan) (account : ℕ) (call : Call) (moment : ℕ)
        (s s' : SessionView) (out : Out) → IsCall plan account call moment s s' out
        → HasGrown s s' }
    ensures looks { (account : ℕ) (s s' : SessionView) → IsLook account s s' → HasGrown s s' }
    ensures on { (s m s' : SessionView) → HasGrown s m → HasGrown m s' → HasGrown s s' }
{}

/// The entries of an account that was taken out of a hall are exactly those of the points of the
/// sessions that its root knows, which all have left. Each session has a number of its own, under
/// which its entries are, and over them it is in order as it was.
pub fn closed_accounts_have_entries_of_sessions()
    ensures { (account : ℕ) (root : PassFacts) (entries : List Entry) (sessions : List SessionView)
        → AreClosedBy root entries → KnowsSessions account root sessions
        → AreEntriesOf account root.opening entries sessions }
{}

/// What a session was answered to a call is the reply to it at the point of that call, over the
/// history of the account as it was taken out, under the session's number and the point's.
pub fn answers_stand_in_closed_accounts()
    ensures { (plan : History → Call → ℕ → Plan) (account : ℕ) (call : Call) (moment : ℕ)
        (old new s : SessionView) (out : Out) (opening : History) (entries : List Entry)
        → IsCall plan account call moment old new out → HasGrown new s
        → HasAllOf account opening entries s
        → IsAnsweredIn plan account opening entries s (length new.trail) call moment out }
{}

/// The points of a session that was alone in a hall leave no gap: on each account the first one
/// begins at what the account opened with, each next one where the one before it ended, and the
/// last one ends at the account's last entry.
pub fn lone_sessions_leave_no_gap()
    ensures { (account : ℕ) (opening : History) (entries : List Entry) (s : SessionView)
        (k : PassFacts) → IsSession s → slice_get s.passes account ≡ Some k
        → AreEntriesOf account opening entries (s ∷ [])
        → LeaveNoGap account opening entries s.trail }
{}

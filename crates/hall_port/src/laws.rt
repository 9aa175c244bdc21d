// Laws of the steps of a port over a hall.
ghost use Rattle.std.specs.Prelude.{◌≡◌, ℕ, List, Option, Result};
ghost use Rattle.jm_json.specs.Call.{Call};
ghost use Rattle.jm_json.specs.Json.{tree_of};
ghost use Rattle.jm_json.specs.declared.invocation.Created.{Created};
ghost use Rattle.jm_json.specs.declared.invocation.Replied.{Replied};
ghost use Rattle.jmap_http.specs.declared.port.AccountStates.{AccountStates as TheStates};
ghost use Rattle.jmap_http.specs.declared.port.Stored.{Stored as TheStored};
ghost use Rattle.jmap_http.specs.declared.served.Served.{Served as TheServed};
ghost use Rattle.account_hall.specs.Halls.{RoomView};
ghost use Rattle.account_hall.specs.Sessions.{SessionView};
ghost use Rattle.batch_lines.specs.Input.{Seen};
ghost use Rattle.batch_lines.specs.declared.fault.LinesFault.{LinesFault as TheFault};
ghost use Rattle.method_batch.specs.OneCall.{AnswersSingle, single_request};
ghost use Rattle.method_batch.specs.declared.outcome.Outcome.{Outcome as TheOutcome};
ghost use Rattle.read_replies.specs.Reads.{PlansReads, ReadMethod, read_name};
ghost use Rattle.read_replies.specs.Targets.{accounts_of, target_of};
ghost use Rattle.server_users.specs.Configuration.{Configuration};
ghost use Rattle.account_hall.specs.Growing.{HasGrown};
ghost use Rattle.hall_port.specs.Lines.{AnswersLines};
ghost use Rattle.hall_port.specs.Serving.{ServesHall};
ghost use Rattle.hall_port.specs.SingleReads.{RepliesNext};
ghost use Rattle.hall_port.specs.Steps.{begins, calls_by, hall_answers, hall_halts, hall_looks, hall_reads, hall_stops, hall_uploads};
ghost use Rattle.hall_port.specs.Views.{PortView};

use account_book::Rules;

/// The session after a step of a port begins with what it was before: its trail gains points at its
/// end, and of each account it has seen what it had seen, and perhaps more after that. That holds
/// of each call, upload and download and of each reading of states, whether it is answered or ends
/// out of memory, and so of all that is served on a connection, and of all lines of an input.
pub fn sessions_only_grow<R: Rules>(rules: &R)
    ensures begins { (s s' : PortView) (user time : ℕ) → begins s user time s'
        → HasGrown s.session s'.session }
    ensures calls { (s s' : PortView) (c : Call) (made : List Created) (r : Replied)
        → hall_answers (calls_by R.plan_of) s c made r s' → HasGrown s.session s'.session }
    ensures stops { (s s' : PortView) (c : Call) (made : List Created)
        → hall_stops (calls_by R.plan_of) s c made s' → HasGrown s.session s'.session }
    ensures uploads { (s s' : PortView) (account : ℕ) (bytes : List ℕ) (stored : TheStored)
        → hall_uploads (calls_by R.plan_of) s account bytes stored s'
        → HasGrown s.session s'.session }
    ensures reads { (s s' : PortView) (account : ℕ) (blob : List ℕ) (bytes : Option (List ℕ))
        → hall_reads (calls_by R.plan_of) s account blob bytes s'
        → HasGrown s.session s'.session }
    ensures states { (s s' : PortView) (account : ℕ) (states : Option TheStates)
        → hall_looks (calls_by R.plan_of) s account states s' → HasGrown s.session s'.session }
    ensures halts { (s s' : PortView) (account : ℕ) → hall_halts s account s'
        → HasGrown s.session s'.session }
    ensures connections { (rooms : List RoomView) (users : Configuration)
        (session session' : SessionView) (times times' left left' held held' : Option (List ℕ))
        (reads reads' puts puts' : ℕ) (served : TheServed)
        → ServesHall (calls_by R.plan_of) rooms users session session' times times' left left' held
        held' reads reads' puts puts' served → HasGrown session session' }
    ensures lines { (rooms : List RoomView) (users : Configuration)
        (session session' : SessionView) (outcome : Result (Unit {0}) TheFault) (v : Seen)
        → AnswersLines (calls_by R.plan_of) rooms users session session' outcome v
        → HasGrown session session' }
{
    let _rules = rules;
}

/// A request of one call that reads an account of the user is replied what the account has at the
/// session's next point, over the history that the session has seen then, where the rules plan such
/// calls as a client knows their replies. One whose account is in error is replied that error, and
/// the session has no point more.
pub fn single_reads_are_replied_at_points<R: Rules>(rules: &R)
    ensures { (old new : PortView) (c : Call) (method : ReadMethod) (outcome : TheOutcome)
        → ((r : R) → PlansReads (R.plan_of r)) → c.name ≡ read_name method
        → AnswersSingle (hall_answers (calls_by R.plan_of)) old new c outcome
        → RepliesNext old new (target_of (accounts_of old.users old.user) c) (single_request c)
        (tree_of outcome.tree) }
{
    let _rules = rules;
}

// Laws of the replies to calls that read.
ghost use Rattle.std.specs.Prelude.{◌≡◌, ◌≤◌, ℕ, Bool, List, length};
ghost use Rattle.jm_json.specs.Call.{Call};
ghost use Rattle.jm_json.specs.Invocations.{call_of};
ghost use Rattle.jm_json.specs.Tree.{Tree};
ghost use Rattle.jm_json.specs.declared.invocation.Created.{Created};
ghost use Rattle.jm_json.specs.declared.invocation.Invocation.{Invocation};
ghost use Rattle.mail_records.specs.Histories.{Entry, History, grown_by};
ghost use Rattle.mail_records.specs.declared.edits.Edit.{Edit};
ghost use Rattle.mail_records.specs.declared.edits.Stamp.{Stamp};
ghost use Rattle.account_book.specs.Replies.{IsReply};
ghost use Rattle.account_book.specs.declared.asks.Call.{Call as AccountCall};
ghost use Rattle.account_book.specs.declared.plans.Out.{Out};
ghost use Rattle.account_book.specs.declared.plans.Plan.{Plan};
ghost use Rattle.account_book.specs.declared.plans.Point.{Point};
ghost use Rattle.method_batch.specs.OneCall.{single_request};
ghost use Rattle.server_users.specs.declared.users.UserAccount.{UserAccount};
ghost use Rattle.read_replies.specs.Reads.{AnswersOnce, PlansReads, ReadMethod, method_call, read_name, read_plan};
ghost use Rattle.read_replies.specs.Replies.{IsReadAt, IsReplyAt, ShowsReply, replied_of};

/// A call that reads is answered by one response, which has the identifier of the call, and makes
/// and changes nothing.
pub fn calls_that_read_change_nothing()
    ensures { (h : History) (c : Call) (read_only : Bool) (method : ReadMethod)
        → AnswersOnce c (read_plan h c read_only method) }
{}

/// A call that reads is answered at a point of the account's history by what the account has there,
/// and no entry is gained, whatever else is planned for other calls and however many bytes edits
/// take.
pub fn calls_that_read_have_replies_at_points()
    ensures { (plan : History → AccountCall → ℕ → Plan) (bytes : List Edit → ℕ) (h : History)
        (point : Point) (a : UserAccount) (c : Invocation) (made : List Created) (stamp : Stamp)
        (out : Out) (method : ReadMethod) → PlansReads plan → (call_of c).name ≡ read_name method
        → point.account ≡ a.number
        → IsReply plan bytes h point (method_call c made a.read_only) stamp out
        → IsReadAt h point a (call_of c) (replied_of out) }
{}

/// A reply at a point of a history is the reply there of each history that begins with it, and of
/// each beginning of it that has the entries before the point.
pub fn replies_outlast_later_entries()
    ensures on { (h : History) (more : List Entry) (point : Point) (accounts : List UserAccount)
        (request response : Tree) → point.before ≤ length h.entries
        → IsReplyAt h point accounts request response
        → IsReplyAt (grown_by h more) point accounts request response }
    ensures back { (h : History) (more : List Entry) (point : Point) (accounts : List UserAccount)
        (request response : Tree) → point.before ≤ length h.entries
        → IsReplyAt (grown_by h more) point accounts request response
        → IsReplyAt h point accounts request response }
{}

/// The reply to the request of one call is that to this call, and to no other.
pub fn replies_are_to_the_call_of_their_request()
    ensures { (h : History) (point : Point) (accounts : List UserAccount) (c : Call)
        (response : Tree) → IsReplyAt h point accounts (single_request c) response
        → ShowsReply h point accounts c response }
{}

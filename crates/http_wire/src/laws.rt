// What the definitions say of bytes that come later.
ghost use Rattle.std.specs.Prelude.{◌++◌, List, ℕ};
ghost use Rattle.http_wire.specs.Requests.{Complete, IsDue, IsMessage, requests};
ghost use Rattle.httparse.specs.Grammar.{RequestHead};

/// Shows that more bytes change no complete message, and that the interim response to it is due for
/// the same bytes.
#[tactic(auto, using(crate::proofs::MessageStays::message_stays))]
pub fn keep_messages()
    ensures stays { (bytes after : List ℕ) (h : RequestHead) (body rest : List ℕ) → IsMessage
        requests bytes (Complete h body rest) → IsMessage requests (bytes ++ after) (Complete h
        body (rest ++ after)) }
    ensures due { (bytes after : List ℕ) (h : RequestHead) (body rest : List ℕ) → IsMessage
        requests bytes (Complete h body rest) → IsDue bytes → IsDue (bytes ++ after) }
    ensures not_due { (bytes after : List ℕ) (h : RequestHead) (body rest : List ℕ) → IsMessage
        requests bytes (Complete h body rest) → IsDue (bytes ++ after) → IsDue bytes }
{}

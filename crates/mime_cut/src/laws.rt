// Laws of the cut of a multipart's body. Each is the contract of a function that does nothing.
ghost use Rattle.std.specs.Prelude.{◌≡◌, List, ℕ, map, true};
ghost use Rattle.std.specs.List.{AllByRecursion, list_all};
ghost use Rattle.mime_lines.specs.Lines.{lines};
ghost use Rattle.mime_lines.specs.Written.{is_inline};
ghost use Rattle.mime_cut.specs.Cut.{Piece, cut};
ghost use Rattle.mime_cut.specs.Pieces.{HasBytesAt, HasPieces};
ghost use Rattle.mime_cut.specs.WrittenPieces.{HasNoDelimiter, multipart_text};

/// For every message, boundary and body: each piece of the body is in the message at the byte
/// offset that the piece names.
pub fn pieces_are_in_the_message()
    ensures { (message boundary bytes : List ℕ) → (at : ℕ) → HasBytesAt message at bytes
        → HasPieces message (cut boundary at (lines bytes)) }
{}

/// The body that is written of some pieces with a boundary is cut into these pieces, in their
/// order, also if a piece is empty or ends with a line end or a part of one. The boundary must be
/// on one line, and no line of a piece may be a delimiter line or the close-delimiter.
pub fn pieces_are_read_back()
    ensures { (boundary : List ℕ) (pieces : List (List ℕ)) (at : ℕ)
        → list_all is_inline boundary ≡ true → AllByRecursion (HasNoDelimiter boundary) pieces
        → map (λ (p : Piece). p.bytes) (cut boundary at (lines (multipart_text boundary pieces)))
        ≡ pieces }
{}

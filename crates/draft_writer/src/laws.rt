// Laws of a draft's message: what is written is read back, for each create without invalid
// properties whose strings are UTF-8, and any blobs. Each is the contract of a function that does
// nothing.
ghost use Rattle.std.specs.Prelude.{◌≡◌, ◌<◌, ◌^◌, [], List, ℕ};
ghost use Rattle.std.specs.List.{AllByRecursion};
ghost use Rattle.jm_json.specs.Tree.{Tree};
ghost use Rattle.draft_form.specs.Bodies.{structure_in};
ghost use Rattle.draft_form.specs.Drafts.{bad_names};
ghost use Rattle.draft_writer.specs.Messages.{IsDraftText};
ghost use Rattle.draft_writer.specs.ReadBack.{AreBytes, AreFieldsShown, AreTextsShown, HoldTexts, meant_views, views_in};

/// The parts of a draft's message are read as those of its create: the same tree, each part with
/// its type, charset, disposition, name, identifier, languages and location, and each that is no
/// multipart with the bytes of its blob, or of its value with CRLF for each LF (RFC 8621, section
/// 4.6).
pub fn parts_are_read_back()
    ensures { (ms : List (List ℕ × Tree)) (blobs : List (List ℕ)) (number moment : ℕ)
        → (text : List ℕ) → bad_names ms ≡ [] → HoldTexts ms → AllByRecursion AreBytes blobs
        → number < 2 ^ 64 → moment < 2 ^ 64 → IsDraftText ms blobs number moment text
        → views_in text ≡ meant_views blobs (structure_in ms) }
{}

/// The header fields of a draft's message are read as what its create sends, each in the form of
/// its property: addresses, subject, date, message identifiers, those of the messages that it
/// replies to, and each `header:NAME:asText` (RFC 8621, sections 4.1.2 and 4.1.3). A property that
/// is not sent has no field, but the date is then that of the call, and the identifier the email's
/// own.
pub fn fields_are_read_back()
    ensures properties { (ms : List (List ℕ × Tree)) (blobs : List (List ℕ)) (number moment : ℕ)
        → (text : List ℕ) → bad_names ms ≡ [] → HoldTexts ms → number < 2 ^ 64
        → moment < 2 ^ 64 → IsDraftText ms blobs number moment text
        → AreFieldsShown ms number moment text }
    ensures texts { (ms : List (List ℕ × Tree)) (blobs : List (List ℕ)) (number moment : ℕ)
        → (text : List ℕ) → bad_names ms ≡ [] → HoldTexts ms → number < 2 ^ 64
        → moment < 2 ^ 64 → IsDraftText ms blobs number moment text → AreTextsShown ms text }
{}

// Laws of a header's fields: what is written is read back (RFC 5322, section 2.2). Each is the
// contract of a function that does nothing.
ghost use Rattle.std.specs.Prelude.{◌≡◌, ◌∷◌, ◌++◌, [], List, ℕ, drop, true};
ghost use Rattle.std.specs.List.{AllByRecursion, list_all};
ghost use Rattle.mime_lines.specs.Fields.{body_of};
ghost use Rattle.mime_lines.specs.FieldTexts.{FieldText, field_texts};
ghost use Rattle.mime_lines.specs.Lines.{unfolded};
ghost use Rattle.mime_lines.specs.Written.{IsField, fold, header_and_body, is_inline, parted_by};

/// Fields that are written one after the other, each with a line end, and then an empty line and
/// any body, are read back as these fields and this body. Their values may be folded over lines.
pub fn fields_are_read_back()
    ensures fields { (fields : List FieldText) (body : List ℕ) → AllByRecursion IsField fields
        → field_texts (header_and_body fields body) ≡ fields }
    ensures body { (fields : List FieldText) (body : List ℕ) → AllByRecursion IsField fields
        → drop (body_of (header_and_body fields body)) (header_and_body fields body) ≡ body }
{}

/// Texts that are each on one line, parted by a text and a line end with a space, are on one line
/// when they are unfolded, parted by that text and the space.
pub fn folds_are_undone()
    ensures { (between : List ℕ) (texts : List (List ℕ)) → list_all is_inline between ≡ true
        → AllByRecursion (λ t. list_all is_inline t ≡ true) texts
        → unfolded (parted_by (between ++ fold) texts) ≡ parted_by (between ++ 32 ∷ []) texts }
{}

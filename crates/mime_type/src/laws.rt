// Laws of fields with parameters: what is written by the rules is read back (RFC 2045, section
// 5.1). Each is the contract of a function that does nothing.
ghost use Rattle.std.specs.Prelude.{◌≡◌, ◌+◌, ◌<◌, ◌∷◌, ◌++◌, Bool, List, ℕ, Some, IsTrue, length};
ghost use Rattle.std.specs.List.{AllByRecursion, list_all};
ghost use Rattle.mime_lines.specs.Fields.{body_of};
ghost use Rattle.mime_lines.specs.FieldTexts.{FieldText};
ghost use Rattle.mime_lines.specs.Written.{header_and_body};
ghost use Rattle.mime_type.specs.Characters.{is_bare};
ghost use Rattle.mime_type.specs.Grammar.{type_at, value_at, quoted_text};
ghost use Rattle.mime_type.specs.Head.{head_at};
ghost use Rattle.mime_type.specs.HeadText.{HeadText, IsHead, IsOtherField, node_of_head, part_fields};
ghost use Rattle.mime_type.specs.TypeText.{IsToken, written, meant};

/// Each value that is written between quote marks is read back, for every text that follows it.
pub fn quotes_read_back()
    ensures { (text rest : List ℕ) → value_at (34 ∷ quoted_text text ++ 34 ∷ rest)
        ≡ Some (text, rest) }
{}

/// A value that is written without quote marks, in characters from `!` to `~` that are no
/// delimiters and in characters above U+007F, is read back up to the semicolon that follows it.
pub fn bare_values_read_back()
    ensures { (text rest : List ℕ) → 0 < length text → IsTrue (list_all is_bare text)
        → value_at (text ++ 59 ∷ rest) ≡ Some (text, 59 ∷ rest) }
{}

/// A type that is written as two tokens and a parameter in quotes is read as what was meant, in
/// lower case but for the parameter's value, which may be any bytes.
pub fn types_read_back()
    ensures { (main sub name value : List ℕ) → IsToken main → IsToken sub → IsToken name
        → type_at (written main sub name value) ≡ Some (meant main sub name value) }
{}

/// The head that is written for a part is read as what was meant, for every body that follows it
/// and in a digest too: its type, its charset and its disposition in lower case, its name on one
/// line, its boundary, its labels and its transfer encoding. A message may have other fields before
/// those of its part.
pub fn heads_are_read_back()
    ensures { (start : ℕ) (before : List FieldText) (h : HeadText) (body : List ℕ)
        → (digest : Bool) → AllByRecursion IsOtherField before → IsHead h
        → head_at start (header_and_body (before ++ part_fields h) body) digest
        ≡ node_of_head start (start + body_of (header_and_body (before ++ part_fields h) body))
        (start + length (header_and_body (before ++ part_fields h) body)) h }
{}

// The lists of examples.
ghost use Rattle.std.specs.Prelude.{◌≡◌, [], ◌∷◌, codes};
ghost use Rattle.mime_type.specs.PartTrees.{none};
ghost use Rattle.body_lists.specs.Lists.{lists_in};
ghost use Rattle.body_lists.specs.Examples.{attached, example, leaf, multipart, named};

/// Shows the lists of the example of RFC 8621, section 4.1.4, and of small examples.
pub fn lists_of_examples()
    ensures example { lists_in example ≡ record {
      text = 1 ∷ 2 ∷ 3 ∷ 4 ∷ 10 ∷ [];
      html = 1 ∷ 5 ∷ 10 ∷ [];
      attachments = 3 ∷ 6 ∷ 7 ∷ 8 ∷ 9
          ∷ [];
    } }
    // An alternative of HTML alone is the text too.
    ensures only_html { lists_in (multipart (codes "alternative") (leaf 1 (codes "text/html") (leaf 2 (codes "text/calendar") none)) none) ≡ record { text = 1 ∷ []; html = 1 ∷ []; attachments = 2 ∷ [] } }
    // In a related list only the first item is shown; elsewhere a text with a name isn't.
    ensures related { lists_in (multipart (codes "related") (leaf 1 (codes "text/html") (leaf 2 (codes "image/png") none)) none) ≡ record { text = 1 ∷ []; html = 1 ∷ []; attachments = 2 ∷ [] } }
    ensures names { lists_in (multipart (codes "mixed") (named 1 (codes "text/plain") (named 2 (codes "text/plain") (named 3 (codes "image/png") (attached 4 (codes "text/html") none)))) none) ≡ record { text = 1 ∷ 3 ∷ []; html = 1 ∷ 3 ∷ []; attachments = 2 ∷ 4 ∷ [] } }
{}

// Laws of the texts that a summary and a body are made of, and what the definitions say of
// examples. Each is the contract of a function that does nothing.
ghost use Rattle.std.specs.Prelude.{◌≡◌, ◌==◌, [], ◌∷◌, ◌++◌, List, ℕ, Some, false, codes};
ghost use Rattle.std.specs.List.{list_any};
ghost use Rattle.mail_text.specs.Comments.{after_text};
ghost use Rattle.mail_text.specs.declared.comment.State.TheVariants.{Outside};
ghost use Rattle.mail_summary.specs.Texts.{cut_to, one_spaced, with_line_feeds, without_tags};
ghost use Rattle.mail_summary.specs.Subjects.{stripped};
ghost use Rattle.mail_summary.specs.Links.{gathered};
ghost use Rattle.header_forms.specs.Dates.{utc_of};
ghost use Rattle.header_forms.specs.Texts.{on_one_line};
ghost use Rattle.mail_summary.specs.Received.{after_last, first_value_of, received, timestamp_after};

/// Examples of the texts that a summary and a body are made of.
pub fn check_example_texts()
    ensures subject { stripped (codes " Re:FWD: re :  Some  Text ") ≡ codes "re : some text" }
    ensures tags { without_tags (codes "<p>a<b c>d</p> 1 < 2") ≡ codes " a d  1 < 2" }
    ensures spaces { one_spaced (codes "\t a  b\r\n\r\nc ") ≡ codes "a b c" }
    ensures lines { with_line_feeds (codes "a\r\nb\r\r\n\n") ≡ codes "a\nb\r\n\n" }
    ensures cut { cut_to 2 (97 ∷ 195 ∷ 169 ∷ []) ≡ 97 ∷ [] }
    ensures links { gathered [] (codes "b" ∷ codes "a" ∷ codes "b" ∷ codes "ab" ∷ []) ≡ codes "a" ∷ codes "ab" ∷ codes "b" ∷ [] }
    ensures date { after_last Outside (codes "a; b (c; d \\) e) f; g (h; i)") ≡ Some (codes " g (h; i)") }
{}

/// In a Received field the date is what follows the last semicolon outside comments (RFC 5322,
/// section 3.6.7): where the comments before a semicolon are closed and no other semicolon follows,
/// it is all that follows this one. So it is in a field that is read on one line, and in the first
/// Received field of a message.
pub fn date_of_received_follows_the_last_semicolon()
    ensures text { (front back : List ℕ) → after_text Outside front ≡ Outside
        → list_any (λ b. b == 59) back ≡ false → after_last Outside (front ++ 59 ∷ back)
        ≡ Some back }
    ensures field { (value front back : List ℕ) → on_one_line value ≡ front ++ 59 ∷ back
        → after_text Outside front ≡ Outside → list_any (λ b. b == 59) back ≡ false
        → timestamp_after value ≡ utc_of back }
    ensures message { (bytes value front back : List ℕ)
        → first_value_of bytes (codes "Received") ≡ Some value
        → on_one_line value ≡ front ++ 59 ∷ back → after_text Outside front ≡ Outside
        → list_any (λ b. b == 59) back ≡ false → received bytes ≡ utc_of back }
{}

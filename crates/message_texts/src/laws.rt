// What holds of the texts of blobs.
ghost use Rattle.std.specs.Prelude.{◌≡◌, ◌++◌, ℕ, List, Some};
ghost use Rattle.std.specs.List.{AllByRecursion};
ghost use Rattle.blob_store.specs.Blobs.{blob_numbered};
ghost use Rattle.mail_records.specs.declared.records.Email.{Email};
ghost use Rattle.filter_terms.specs.Laws.{HaveSameTexts};
ghost use Rattle.mail_view.specs.Emails.{HasBlob};
ghost use Rattle.message_texts.specs.Texts.{texts_of_blobs};

/// The texts of the message in a blob stay the same as blobs are added, and so do those of all
/// emails whose messages are among the blobs. So a query at any position of a history may read them
/// in the blobs of its end.
pub fn texts_stay_as_blobs_are_added()
    ensures blob { (blobs added : List (List ℕ)) (n : ℕ) (bytes : List ℕ)
        → blob_numbered n blobs ≡ Some bytes
        → texts_of_blobs (blobs ++ added) n ≡ texts_of_blobs blobs n }
    ensures emails { (blobs added : List (List ℕ)) (emails : List Email)
        → AllByRecursion (HasBlob blobs) emails
        → HaveSameTexts (texts_of_blobs (blobs ++ added)) (texts_of_blobs blobs) emails }
{}

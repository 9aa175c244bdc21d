// Laws of encoded-words (RFC 2047). Each is the contract of a function that does nothing.
ghost use Rattle.std.specs.Prelude.{◌≡◌, ◌≢◌, ◌∷◌, ◌++◌, List, ℕ, true, codes};
ghost use Rattle.std.specs.List.{list_all};
ghost use Rattle.std.specs.Str.{IsUtf8, chars};
ghost use Rattle.mime_words.specs.declared.charset.Charset.{Charset};
ghost use Rattle.mime_words.specs.Words.{Cut, word, is_white, decoded_words, text_said};
ghost use Rattle.mime_words.specs.WrittenWords.{is_plain_text, is_shown, words_by};

/// A text without `=?` has no encoded-word, and is its own decoding.
pub fn texts_without_words_stay()
    ensures { (text : List ℕ) → ((front rest : List ℕ) → text ≢ front ++ (codes "=?" ++ rest)) → decoded_words text ≡ text }
{}

/// Bytes that are split anywhere over two encoded-words of one charset, with nothing but white
/// space between them, have the decoding of one encoded-word of all the bytes, for every text
/// before and after.
pub fn split_words_are_joined()
    ensures { (charset : Charset) (first next before between : List ℕ) (later : Cut)
        → is_white between ≡ true → text_said
        (word before (record { charset = charset; bytes = first })
        (word between (record { charset = charset; bytes = next }) later))
        ≡ text_said (word before (record { charset = charset; bytes = first ++ next }) later) }
{}

/// A text without ASCII control characters that is written in encoded-words is read back, with any
/// white space between each encoded-word and the next.
pub fn words_are_read_back()
    ensures { (between text : List ℕ) → is_white between ≡ true → IsUtf8 text
        → list_all is_shown (chars text) ≡ true → decoded_words (words_by between text) ≡ text }
{}

/// A text that is written as it is, since it has no `=?` and only characters from space to `~`, is
/// read back.
pub fn plain_texts_are_read_back()
    ensures { (text : List ℕ) → is_plain_text text ≡ true → decoded_words text ≡ text }
{}

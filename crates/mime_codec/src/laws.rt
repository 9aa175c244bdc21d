// Laws of the transfer encodings: what is written is read back (RFC 2045, section 6). Each is the
// contract of a function that does nothing.
ghost use Rattle.std.specs.Prelude.{◌≡◌, ◌<◌, List, ℕ, EachIndex, slice_index};
ghost use Rattle.mime_codec.specs.Base64Text.{encoded, base64_text};
ghost use Rattle.mime_codec.specs.QuotedText.{quoted_printable_text, with_crlf};
ghost use Rattle.mime_codec.specs.Base64.{base64};
ghost use Rattle.mime_codec.specs.Decoded.{decoded};
ghost use Rattle.mime_codec.specs.declared.coding.Coding.TheVariants.{Base64, Quoted};

/// Any bytes that are written in base64 are read back: on one line, and in lines of 76 characters.
pub fn base64_is_read_back()
    ensures one_line { (bytes : List ℕ) → EachIndex bytes (λ k. slice_index bytes k < 256)
        → base64 (encoded bytes) ≡ bytes }
    ensures lines { (bytes : List ℕ) → EachIndex bytes (λ k. slice_index bytes k < 256)
        → decoded Base64 (base64_text bytes) ≡ bytes }
{}

/// Any bytes that are written in quoted-printable are read back with CRLF for each LF, whatever
/// white space, equals signs and long lines they have.
pub fn quoted_printable_is_read_back()
    ensures { (bytes : List ℕ) → EachIndex bytes (λ k. slice_index bytes k < 256)
        → decoded Quoted (quoted_printable_text bytes) ≡ with_crlf bytes }
{}

// Trimming, and names that are compared without case.
ghost use Rattle.std.specs.Prelude.{◌≡◌};
ghost use Rattle.mail_text.specs.Texts;
ghost use Rattle.mail_text.specs.Texts.{trimmed};

/// Returns a text without the white space at both ends: space, tab, LF, CR and FF.
pub fn trim(text: &str) -> &str
    ensures { result.now ≡ trimmed text.now }
{
    text.trim_ascii()
}

/// Returns whether two names are the same in ASCII lower case.
pub fn is_same_name(a: &[u8], b: &[u8]) -> bool
    ensures { result ≡ Texts.is_same_name a.now b.now }
{
    a.eq_ignore_ascii_case(b)
}

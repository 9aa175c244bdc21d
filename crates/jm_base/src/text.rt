// A text: bytes that are UTF-8.
ghost use Rattle.std.specs.Prelude.{◌≡◌, IfOk, MatchOption, IsUtf8, string_bytes};

use crate::NoMemory;
use std::alloc::Global;
use std::marker::Model;

/// A text, seen by contracts as its bytes, which are UTF-8.
#[derive(Debug, Drop)]
pub struct Text {
    string: String,
}

impl Model for Text {
    ghost use Rattle.std.specs.Prelude.{List, ℕ, string_bytes};

    ghost Value = { List ℕ };

    ghost view = { λ t. string_bytes t.string };
}

impl Eq for Text {
    ghost use Rattle.std.specs.Cmp.Lexicographic.{nat_list_eq_equiv};

    ghost laws = { nat_list_eq_equiv };
}

impl PartialEq for Text {
    ghost use Rattle.std.specs.Prelude.{bytes_eq};
    ghost use Rattle.std.specs.Cmp.{partial_equiv_from_equiv};
    ghost use Rattle.std.specs.Cmp.Lexicographic.{nat_list_eq_equiv};

    ghost eq = { bytes_eq };

    ghost laws = { partial_equiv_from_equiv nat_list_eq_equiv };

    fn eq(&self, other: &Text) -> bool {
        self.string == other.string
    }
}

impl Text {
    /// Returns the text of a string. It takes no memory.
    pub fn from_string(string: String) -> Text
        ensures { result ≡ string_bytes string }
    {
        Text { string }
    }

    /// Returns the string of the text. It takes no memory.
    pub fn into_string(self) -> String
        ensures { string_bytes result ≡ self }
    {
        let Text { string } = self;
        string
    }

    /// Returns a copy of a string slice, in memory of its own.
    pub fn from_str(alloc: Global, text: &str) -> Result<Text, NoMemory>
        ensures { IfOk result (λ t. t ≡ text.now) }
    {
        Ok(Text {
            string: String::from_str(alloc, text)?,
        })
    }

    /// Returns the text of bytes, or `None` if they are not UTF-8. It takes no memory.
    pub fn from_utf8(bytes: Vec<u8>) -> Option<Text>
        ensures { MatchOption result (¬ IsUtf8 bytes.items) (λ t. t ≡ bytes.items) }
    {
        match String::from_utf8(bytes) {
            Ok(string) => Some(Text { string }),
            Err(_) => None,
        }
    }

    /// Lends the text.
    pub fn as_str(&self) -> &str
        ensures { result.now ≡ self.now }
    {
        self.string.as_str()
    }

    /// Lends the bytes of the text.
    pub fn as_bytes(&self) -> &[u8]
        ensures value { result.now ≡ self.now }
        ensures utf8 { IsUtf8 result.now }
    {
        self.string.as_str().as_bytes()
    }

    /// Returns a copy of the string, in memory of its own.
    pub fn copy(&self) -> Result<Text, NoMemory>
        ensures { IfOk result (λ t. t ≡ self.now) }
    {
        Ok(Text {
            string: self.string.clone()?,
        })
    }
}

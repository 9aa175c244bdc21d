// What a filter asks about messages (RFC 8621, section 4.4.1).
ghost use Rattle.std.specs.Prelude.{◌≡◌, ℕ, IfOk, IfSome, option_map};
ghost use Rattle.text_column.specs.Columns.{mark_of};
ghost use Rattle.filter_terms.specs.Texts.{Agrees, MessageTexts, has_field, has_text};

use jm_base::NoMemory;
use text_column::Mark;

/// Where in a message a condition looks for a text.
#[derive(Clone, Copy, Debug, PartialEq, Eq)]
pub enum Place {
    /// In all of the fields and texts below.
    Text,
    /// In the fields From.
    From,
    /// In the fields To.
    To,
    /// In the fields Cc.
    Cc,
    /// In the fields Bcc.
    Bcc,
    /// In the fields Subject.
    Subject,
    /// In the decoded text of the text parts.
    Body,
}

/// A message that was opened. What is decoded of it is kept, so that many conditions may ask.
pub trait OpenedMessage: Drop {
    ghost contents: { Self → MessageTexts };

    /// Returns whether one of the texts that a condition looks at contains the needle. ASCII
    /// letters count in either case. An empty needle is contained if there is a text at all.
    fn has(&mut self, place: Place, needle: &[u8]) -> Result<bool, NoMemory>
        ensures value { IfOk result (λ b. b ≡ has_text (contents self.old) place needle.now) }
        ensures same { contents self.new ≡ contents self.old };

    /// Returns whether there is a header field of the name; with a needle, whether the Text form of
    /// such a field contains the needle.
    fn field(&mut self, name: &[u8], needle: Option<&[u8]>) -> Result<bool, NoMemory>
        ensures value { IfOk result (λ b. b ≡ has_field (contents self.old) name.now
            (option_map (λ n. n.now) needle.entry)) }
        ensures same { contents self.new ≡ contents self.old };
}

/// What the messages of an account contain.
pub trait Texts2 {
    /// A message of the account.
    type Message: OpenedMessage;

    ghost texts: { Self → ℕ → MessageTexts };

    /// Opens the message in a blob. A filter opens a message at most once for each email, and only
    /// if the conditions that look at no text leave open whether it matches.
    fn open(&self, blob: u64) -> Result<Self::Message, NoMemory>
        ensures { IfOk result (λ m. Self.Message.contents m ≡ texts self.now blob) };

    /// Returns for the blobs of the account, from number 1 on, whether one of the texts that a
    /// condition looks at contains the needle, or `Open` where only the message shows that. Blobs
    /// past the end are `Open` too. Returns `None` if nothing is known without opening messages.
    fn find_marks(&self, place: Place, needle: &[u8]) -> Result<Option<Vec<Mark>>, NoMemory>
        ensures { IfOk result (λ o. IfSome o (λ marks. (blob : ℕ) → Agrees
            (mark_of marks.items blob) (has_text (texts self.now blob) place needle.now))) }
    {
        Ok(None)
    }
}

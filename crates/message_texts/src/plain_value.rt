// Values of fields that need no decoding: most are of printable ASCII alone.
ghost use Rattle.std.specs.Prelude.{◌≡◌, IfSome};
ghost use Rattle.std.specs.List.{list_all};
ghost use Rattle.header_forms.specs.Texts.{text_form, without_spaces};
ghost use Rattle.message_texts.specs.Plain;

// Returns whether a byte is printable ASCII, and not `=`, with which an encoded-word begins.
fn is_plain(byte: u8) -> bool
    ensures { result ≡ Plain.is_plain byte }
{
    32 <= byte && byte <= 126 && byte != b'='
}

fn is_plain_value(value: &[u8]) -> bool
    ensures { result ≡ list_all Plain.is_plain value.now }
{
    for byte in value {
        if !is_plain(*byte) {
            return false;
        }
    }
    true
}

// Returns a value without the spaces at its beginning.
fn skip_spaces(value: &[u8]) -> &[u8]
    ensures { result.now ≡ without_spaces value.now }
{
    let mut rest = value;
    while let Some((first, after)) = rest.split_first() {
        if *first != b' ' {
            return rest;
        }
        rest = after;
    }
    rest
}

/// Returns the Text form of a value (RFC 8621, section 4.1.2.2) if all that it needs is that the
/// spaces at its beginning are left out: if it is of printable ASCII alone, without `=`. Allocates
/// nothing.
pub(crate) fn read_plain_text(value: &[u8]) -> Option<&[u8]>
    ensures { IfSome result (λ t. t.now ≡ text_form value.now) }
{
    if !is_plain_value(value) {
        return None;
    }
    Some(skip_spaces(value))
}

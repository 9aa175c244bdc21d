// How a server is named in the arguments of a command line: the host and the token.
ghost use Rattle.std.specs.Prelude.{◌≡◌};
ghost use Rattle.std.specs.List.{list_all};
ghost use Rattle.jmap_commands.specs.Addresses.{is_host, is_host_character, is_token, is_token_character};

fn is_host_character(byte: u8) -> bool
    ensures { result ≡ is_host_character byte }
{
    byte.is_ascii_alphanumeric() || b"._-:[]".contains(&byte)
}

fn are_host_characters(bytes: &[u8]) -> bool
    ensures { result ≡ list_all is_host_character bytes.now }
{
    bytes.iter().all(|byte| is_host_character(*byte))
}

/// Returns whether an argument is a host: one or more letters, digits and characters of `._-:[]`.
pub(crate) fn is_host(word: &str) -> bool
    ensures { result ≡ is_host word.now }
{
    let bytes = word.as_bytes();
    !bytes.is_empty() && are_host_characters(bytes)
}

fn is_token_character(byte: u8) -> bool
    ensures { result ≡ is_token_character byte }
{
    b'!' <= byte && byte <= b'~'
}

fn are_token_characters(bytes: &[u8]) -> bool
    ensures { result ≡ list_all is_token_character bytes.now }
{
    bytes.iter().all(|byte| is_token_character(*byte))
}

/// Returns whether an argument is a token: one or more characters from `!` to `~`.
pub(crate) fn is_token(word: &str) -> bool
    ensures { result ≡ is_token word.now }
{
    let bytes = word.as_bytes();
    !bytes.is_empty() && are_token_characters(bytes)
}

//! Names of UPSes, users, variables and commands.
ghost use Rattle.std.specs.Prelude.{◌≡◌};
ghost use Rattle.std.specs.List.{list_all};
ghost use Rattle.nut_words.specs.Name.{is_name_byte, is_name};

/// Whether a name may hold the byte: an ASCII letter or digit, `.`, `_` or `-`.
pub fn is_name_byte(byte: u8) -> bool
    ensures { result ≡ is_name_byte byte }
{
    byte.is_ascii_alphanumeric() || byte == b'.' || byte == b'_' || byte == b'-'
}

/// Whether a name may hold each of these bytes. True of the empty text, which is no name.
pub fn are_name_bytes(bytes: &[u8]) -> bool
    ensures { result ≡ list_all is_name_byte bytes.now }
{
    bytes.iter().all(|byte| is_name_byte(*byte))
}

/// Whether this is a name of at most `most` bytes. No name is empty.
pub fn is_name(bytes: &[u8], most: usize) -> bool
    ensures { result ≡ is_name most bytes.now }
{
    !bytes.is_empty() && bytes.len() <= most && are_name_bytes(bytes)
}

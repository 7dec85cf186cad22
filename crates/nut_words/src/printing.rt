//! Printing bytes: the bytes of a line other than tabs and carriage returns.
ghost use Rattle.std.specs.Prelude.{◌≡◌};
ghost use Rattle.std.specs.List.{list_all};
ghost use Rattle.nut_words.specs.Spelling.{is_printing};

fn is_printing_byte(byte: u8) -> bool
    ensures { result ≡ is_printing byte }
{
    matches!(byte, b' '..=b'~')
}

/// Whether all bytes are printing: 0x20 to 0x7E. True of the empty text.
pub fn are_printing(bytes: &[u8]) -> bool
    ensures { result ≡ list_all is_printing bytes.now }
{
    bytes.iter().all(|byte| is_printing_byte(*byte))
}

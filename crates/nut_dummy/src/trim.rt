//! Blanks at the ends of a text.
ghost use Rattle.std.specs.Prelude.{◌≡◌};
ghost use Rattle.nut_words.specs.Spelling.{is_blank};
ghost use Rattle.nut_dummy.specs.Item.{skip_blanks, skip_last_blanks, trimmed};

/// Whether the byte is a space, a tab or a carriage return.
fn is_blank(byte: u8) -> bool
    ensures { result ≡ is_blank byte }
{
    matches!(byte, b' ' | b'\t' | b'\r')
}

/// Returns the text without the blanks at its beginning.
pub fn skip_blanks(text: &[u8]) -> &[u8]
    ensures { result.now ≡ skip_blanks text.now }
{
    let mut left = text;
    while let Some((first, rest)) = left.split_first() {
        if !is_blank(*first) {
            break;
        }
        left = rest;
    }
    left
}

/// Returns the text without the blanks at its end.
fn skip_last_blanks(text: &[u8]) -> &[u8]
    ensures { result.now ≡ skip_last_blanks text.now }
{
    let mut left = text;
    while let Some((last, rest)) = left.split_last() {
        if !is_blank(*last) {
            break;
        }
        left = rest;
    }
    left
}

/// Returns the text without the blanks at both ends.
pub fn trim(text: &[u8]) -> &[u8]
    ensures { result.now ≡ trimmed text.now }
{
    skip_last_blanks(skip_blanks(text))
}

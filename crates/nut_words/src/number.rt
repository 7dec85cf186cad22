//! Whole numbers as the protocols' lines have them.
ghost use Rattle.std.specs.Prelude.{◌≡◌, ◌<◌, IsTrue, IfSome};
ghost use Rattle.std.specs.List.{list_all};
ghost use Rattle.std.specs.Char.{is_ascii_digit};
ghost use Rattle.nut_words.specs.Number.{is_natural, digits_value, natural};

fn all_digits(text: &[u8]) -> bool
    ensures { result ≡ list_all is_ascii_digit text.now }
{
    text.iter().all(|byte| byte.is_ascii_digit())
}

/// Whether the text is a number of one to nine decimal digits.
pub fn is_natural(text: &[u8]) -> bool
    ensures { result ≡ is_natural text.now }
{
    !text.is_empty() && text.len() <= 9 && all_digits(text)
}

/// Returns the number that one to nine decimal digits say.
fn digits_value(text: &[u8]) -> u32
    requires { IsTrue (is_natural text.now) }
    ensures value { result ≡ digits_value text.now }
    ensures fits { result < 1000000000 }
{
    let mut value = 0;
    for digit in text {
        value = 10 * value + u32::from(*digit - b'0');
    }
    value
}

/// Reads a number of one to nine decimal digits. Returns `None` for any other text.
pub fn natural(text: &[u8]) -> Option<u32>
    ensures value { result ≡ natural text.now }
    ensures fits { IfSome result (λ n. n < 1000000000) }
{
    if is_natural(text) {
        Some(digits_value(text))
    } else {
        None
    }
}

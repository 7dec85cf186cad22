//! Addresses of clients.

ghost use Rattle.std.specs.Prelude.{◌≡◌, Some, None, option_map, if◌then◌else◌};
ghost use Rattle.std.specs.List.{list_all};
ghost use Rattle.nut_words.specs.Spelling.{is_bare};
ghost use Rattle.nut_server_spec.specs.Acceptance.{is_address};

use arrayvec::ArrayVec;
use nut_server_spec::ADDRESS_MAX;

/// The address of a client, stored in place.
pub type Address = ArrayVec<u8, ADDRESS_MAX>;

/// Whether a byte may stand in a bare word.
fn is_bare(byte: u8) -> bool
    ensures { result ≡ is_bare byte }
{
    matches!(&byte, 0x21 | 0x24..=0x3c | 0x3e..=0x5b | 0x5d..=0x7e)
}

fn has_bare_bytes(text: &[u8]) -> bool
    ensures { result ≡ list_all is_bare text.now }
{
    text.iter().all(|byte| is_bare(*byte))
}

/// Returns the text as an address, if it has 1 to [`ADDRESS_MAX`] bytes, each of which may stand in a bare word.
pub fn address_of(text: &[u8]) -> Option<Address>
    ensures { option_map (λ address. address.items) result ≡ (if is_address text.now then Some text.now else None) }
{
    if text.is_empty() || !has_bare_bytes(text) {
        return None;
    }
    let mut address = ArrayVec::new();
    match address.try_extend_from_slice(text) {
        Ok(()) => Some(address),
        Err(_) => None,
    }
}

//! Rows as a JSON text (RFC 8259).
ghost use Rattle.std.specs.Prelude.{◌≡◌, ◌<◌, ◌++◌, ◌∷◌, [], OnOk, codes};
ghost use Rattle.std.specs.List.{flat_map};
ghost use Rattle.nut_client.specs.Json.{escaped, hex_digit as hex_digit_of, json_object, json_string, member, members};
ghost use Rattle.nut_client.specs.inside.Between.{IsMade};

use crate::failure::ToolFailure;
use nut_link::{Fields, Text};
use std::alloc::{AllocError, Global};

/// Returns the digit of a number below 16.
fn hex_digit(number: u8) -> u8
    requires { number < 16 }
    ensures { result ≡ hex_digit_of number }
{
    if number < 10 {
        b'0' + number
    } else {
        b'a' - 10 + number
    }
}

/// Appends a byte of a string, escaped if it has to be.
fn put_byte(out: &mut Vec<u8>, byte: u8) -> Result<(), AllocError>
    ensures { OnOk result (out.new.items ≡ out.old.items ++ escaped byte) }
{
    if byte == b'"' || byte == b'\\' {
        out.extend_from_slice(&[b'\\', byte])
    } else if byte < b' ' || byte > b'~' {
        let (high, low) = (hex_digit(byte / 16), hex_digit(byte % 16));
        out.extend_from_slice(&[b'\\', b'u', b'0', b'0', high, low])
    } else {
        out.extend_from_slice(&[byte])
    }
}

/// Appends the bytes of a string, each escaped if it has to be.
#[tactic(auto, using(std::proofs::lemmas::Grind::common_steps))]
fn put_bytes(out: &mut Vec<u8>, text: &[u8]) -> Result<(), AllocError>
    ensures { OnOk result (out.new.items ≡ out.old.items ++ flat_map escaped text.now) }
{
    for byte in text {
        put_byte(out, *byte)?;
    }
    Ok(())
}

/// Appends a string with its quotes.
fn put_string(out: &mut Vec<u8>, text: &[u8]) -> Result<(), AllocError>
    ensures { OnOk result (out.new.items ≡ out.old.items ++ json_string text.now) }
{
    out.extend_from_slice(b"\"")?;
    put_bytes(out, text)?;
    out.extend_from_slice(b"\"")
}

/// Appends a name and its value.
fn put_pair(out: &mut Vec<u8>, name: &[u8], value: &[u8]) -> Result<(), AllocError>
    ensures { OnOk result (out.new.items ≡ out.old.items ++ member (name.now ∷ value.now ∷ [])) }
{
    put_string(out, name)?;
    out.extend_from_slice(b": ")?;
    put_string(out, value)
}

/// Appends the name and the value of a row.
#[tactic(auto, using(std::proofs::lemmas::Grind::common_steps))]
fn put_member(out: &mut Vec<u8>, row: &Fields) -> Result<(), AllocError>
    ensures { OnOk result (out.new.items ≡ out.old.items ++ member row.now) }
{
    put_pair(out, row.get(0), row.get(1))
}

/// Appends further members, each after a comma.
#[tactic(auto, using(std::proofs::lemmas::Grind::common_steps))]
fn put_more(out: &mut Vec<u8>, rows: &[Fields]) -> Result<(), AllocError>
    ensures { OnOk result (out.new.items ≡ out.old.items ++ flat_map (λ r. codes ", " ++ member r) rows.now) }
{
    for row in rows {
        out.extend_from_slice(b", ")?;
        put_member(out, row)?;
    }
    Ok(())
}

/// Appends the members of all rows.
fn put_members(out: &mut Vec<u8>, rows: &[Fields]) -> Result<(), AllocError>
    ensures { OnOk result (out.new.items ≡ out.old.items ++ members rows.now) }
{
    match rows.split_first() {
        Some((first, more)) => {
            put_member(out, first)?;
            put_more(out, more)
        }
        None => Ok(()),
    }
}

/// Returns the rows as one object and a line feed.
pub(crate) fn object_text(alloc: Global, rows: &[Fields]) -> Result<Text, ToolFailure>
    ensures { IsMade (json_object rows.now) result }
{
    let mut text = Vec::new(alloc);
    text.extend_from_slice(b"{")?;
    put_members(&mut text, rows)?;
    text.extend_from_slice(b"}\n")?;
    Ok(Text::of(text))
}

/// Returns a name and its value as an object of one member and a line feed.
pub(crate) fn member_text(alloc: Global, name: &[u8], value: &[u8]) -> Result<Text, ToolFailure>
    ensures { IsMade (json_object ((name.now ∷ value.now ∷ []) ∷ [])) result }
{
    let mut text = Vec::new(alloc);
    text.extend_from_slice(b"{")?;
    put_pair(&mut text, name, value)?;
    text.extend_from_slice(b"}\n")?;
    Ok(Text::of(text))
}

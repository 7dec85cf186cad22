//! Lines for people.
ghost use Rattle.std.specs.Prelude.{◌≡◌, ◌++◌, ◌∷◌, [], OnOk};
ghost use Rattle.std.specs.List.{flat_map};
ghost use Rattle.nut_client.specs.Script.{has_word, row_line, row_lines, type_line, values_of, with_heading};

use nut_link::{Fields, Text};
use std::alloc::AllocError;

/// How a row is printed.
#[derive(Clone, Copy)]
pub enum RowForm {
    /// Its first two words with `: ` between them.
    Pairs,
    /// Its first word.
    Firsts,
    /// A value that a variable may have.
    Options,
    /// A range of numbers that a variable may be in.
    Ranges,
}

/// The values that a variable may have.
#[derive(Clone, Copy)]
pub enum AllowedValues {
    /// The values that the server lists.
    Enum,
    /// The ranges that the server lists.
    Range,
    /// The server lists neither values nor ranges.
    Free,
}

/// Appends these parts as a line.
#[tactic(auto, using(std::proofs::lemmas::Grind::common_steps))]
pub(crate) fn put_line(out: &mut Vec<u8>, parts: &[&[u8]]) -> Result<(), AllocError>
    ensures { OnOk result (out.new.items ≡ out.old.items ++ (flat_map (λ part. part.now) parts.now ++ 10 ∷ [])) }
{
    for part in parts {
        out.extend_from_slice(part)?;
    }
    out.extend_from_slice(b"\n")
}

/// Appends the line that shows a row.
#[tactic(auto, using(std::proofs::lemmas::Grind::common_steps))]
fn put_row(out: &mut Vec<u8>, form: RowForm, row: &Fields) -> Result<(), AllocError>
    ensures { OnOk result (out.new.items ≡ out.old.items ++ row_line form row.now) }
{
    match form {
        RowForm::Pairs => put_line(out, &[row.get(0), b": ", row.get(1)]),
        RowForm::Firsts => put_line(out, &[row.get(0)]),
        RowForm::Options => put_line(out, &[b"Option: ", row.get(0)]),
        RowForm::Ranges => put_line(out, &[b"Range: ", row.get(0), b"..", row.get(1)]),
    }
}

/// Appends the lines that show all rows.
#[tactic(auto, using(std::proofs::lemmas::Grind::common_steps))]
pub(crate) fn put_rows(out: &mut Vec<u8>, form: RowForm, rows: &[Fields]) -> Result<(), AllocError>
    ensures { OnOk result (out.new.items ≡ out.old.items ++ row_lines form rows.now) }
{
    for row in rows {
        put_row(out, form, row)?;
    }
    Ok(())
}

/// Appends the words of a variable's type, each after a blank.
#[tactic(auto, using(std::proofs::lemmas::Grind::common_steps))]
fn put_words(out: &mut Vec<u8>, words: &[Text]) -> Result<(), AllocError>
    ensures { OnOk result (out.new.items ≡ out.old.items ++ flat_map (λ w. 32 ∷ w) words.now) }
{
    for word in words {
        out.extend_from_slice(b" ")?;
        out.extend_from_slice(word.as_bytes())?;
    }
    Ok(())
}

/// Appends the line of a variable's type.
fn put_type(out: &mut Vec<u8>, kind: &Fields) -> Result<(), AllocError>
    ensures { OnOk result (out.new.items ≡ out.old.items ++ type_line kind.now) }
{
    out.extend_from_slice(b"Type:")?;
    put_words(out, kind.as_slice())?;
    out.extend_from_slice(b"\n")
}

/// Appends what is shown above the values that a variable may have: its name, its type and its value.
pub(crate) fn put_heading(out: &mut Vec<u8>, row: &Fields, kind: &Fields) -> Result<(), AllocError>
    ensures { OnOk result (out.new.items ≡ with_heading row.now kind.now out.old.items) }
{
    put_line(out, &[b"[", row.get(0), b"]"])?;
    put_type(out, kind)?;
    put_line(out, &[b"Value: ", row.get(1)])
}

/// Whether one of the words is this one.
fn has_word(words: &Fields, wanted: &[u8]) -> bool
    ensures { result ≡ has_word wanted.now words.now }
{
    words.as_slice().iter().any(|w| w.as_bytes() == wanted)
}

/// Returns the values that a variable of this type may have.
pub(crate) fn values_of(kind: &Fields) -> AllowedValues
    ensures { result ≡ values_of kind.now }
{
    if has_word(kind, b"ENUM") {
        AllowedValues::Enum
    } else if has_word(kind, b"RANGE") {
        AllowedValues::Range
    } else {
        AllowedValues::Free
    }
}

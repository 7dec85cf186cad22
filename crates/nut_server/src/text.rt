//! Writes answers as bytes.

ghost use Rattle.std.specs.Prelude.{◌≡◌, ◌≤◌, ◌&&◌, ◌++◌, IfSome, OnOk, codes, flat_map, length};
ghost use Rattle.std.specs.Str.{bytes_eq};
ghost use Rattle.nut_proto.specs.declared.reply.Reply.TheVariants as replies;
ghost use Rattle.nut_proto.specs.Replies.{reply_line};
ghost use Rattle.nut_server_spec.specs.Answer.{text_of, var_row};
ghost use Rattle.nut_server.specs.inside.Answers.{given, rows_of};
ghost use Rattle.nut_server.specs.inside.Rows.{client_text, row_front, row_word, value_row, variable_row, writable_text};

use crate::answer::{Answer, ListRows};
use crate::config::{Config, Ups};
use crate::connection::Connection;
use crate::connections::Connections;
use crate::device::Device;
use crate::limits::FORCED_VALUE_MAX;
use crate::row::{Front, front_of, put_row};
use arrayvec::ArrayVec;
use nut_proto::{Reply, Word};
use nut_state::Variable;
use nut_words::VALUE_MAX;
use std::alloc::AllocError;

// ---- rows

/// Whether clients see the value with `FSD ` before it: it is the status of a UPS whose shutdown was forced.
pub fn shows_forced(device: &Device, variable: &Variable) -> bool
    ensures { result ≡ (device.now.device.forced && bytes_eq variable.now.name (codes "ups.status")) }
{
    device.is_forced() && variable.name() == b"ups.status".as_slice()
}

/// Returns the value with `FSD ` before it.
fn forced(value: &[u8]) -> ArrayVec<u8, FORCED_VALUE_MAX>
    requires { length value.now ≤ VALUE_MAX }
    ensures { result.items ≡ codes "FSD " ++ value.now }
{
    let mut shown = ArrayVec::new();
    shown.try_extend_from_slice(b"FSD ").unwrap();
    shown.try_extend_from_slice(value).unwrap();
    shown
}

/// Appends the row of a variable with this value, in LIST RW or in LIST VAR.
fn put_value(
    out: &mut Vec<u8>,
    is_rw: bool,
    ups: &[u8],
    name: &[u8],
    value: &[u8],
) -> Result<(), AllocError>
    ensures { OnOk result (out.new.items ≡ out.old.items ++ reply_line (value_row is_rw ups.now name.now value.now)) }
{
    let (ups, variable, value) = (Word::new(ups), Word::new(name), Word::new(value));
    if is_rw {
        Reply::Rw {
            ups,
            variable,
            value,
        }
        .put(out)
    } else {
        Reply::Var {
            ups,
            variable,
            value,
        }
        .put(out)
    }
}

/// Appends the row of a variable in LIST RW or in LIST VAR, with the value that clients see, by encoding it. It stands apart, so
/// that no row that is kept pays for its values.
#[inline(never)]
fn encode_variable(
    out: &mut Vec<u8>,
    is_rw: bool,
    ups: &[u8],
    device: &Device,
    variable: &Variable,
) -> Result<(), AllocError>
    ensures { OnOk result (out.new.items ≡ out.old.items ++ reply_line (variable_row is_rw ups.now device.now.device variable.now)) }
{
    if shows_forced(device, variable) {
        let shown = forced(variable.value());
        return put_value(out, is_rw, ups, variable.name(), shown.as_slice());
    }
    put_value(out, is_rw, ups, variable.name(), variable.value())
}

/// Appends the row of a variable in LIST RW or in LIST VAR, with the value that clients see. It begins with `front`, and is
/// encoded if the front or the end of the row isn't kept, or if another value is shown.
pub fn put_variable(
    out: &mut Vec<u8>,
    is_rw: bool,
    front: &Front,
    ups: &[u8],
    device: &Device,
    variable: &Variable,
) -> Result<(), AllocError>
    requires { IfSome front.now (λ front. front.items ≡ row_front (row_word is_rw) ups.now) }
    ensures { OnOk result (out.new.items ≡ out.old.items ++ reply_line (variable_row is_rw ups.now device.now.device variable.now)) }
{
    if let Some(front) = front
        && let Some(end) = variable.row_end()
        && !shows_forced(device, variable)
    {
        return put_row(out, front.as_slice(), end);
    }
    encode_variable(out, is_rw, ups, device, variable)
}

fn put_ups(out: &mut Vec<u8>, ups: &Ups<'_>) -> Result<(), AllocError>
    ensures { OnOk result (out.new.items ≡ out.old.items ++ reply_line (replies.Ups ups.now.name ups.now.description)) }
{
    let row = Reply::Ups {
        ups: Word::new(ups.name),
        description: Word::new(ups.description),
    };
    row.put(out)
}

fn put_client(out: &mut Vec<u8>, ups: &[u8], client: &Connection) -> Result<(), AllocError>
    ensures { OnOk result (out.new.items ≡ out.old.items ++ reply_line (replies.Client ups.now client.now.address)) }
{
    let row = Reply::Client {
        ups: Word::new(ups),
        address: Word::new(client.address()),
    };
    row.put(out)
}

// ---- lists, each of which walks its table once

fn put_upses(out: &mut Vec<u8>, config: &Config) -> Result<(), AllocError>
    ensures { OnOk result (out.new.items ≡ out.old.items ++ flat_map (λ ups. reply_line (replies.Ups ups.name ups.description)) config.now.upses) }
{
    for u in 0..config.number_of_upses() {
        if let Some(ups) = config.ups_at(u) {
            put_ups(out, &ups)?;
        }
    }
    Ok(())
}

/// Appends the rows of LIST VAR.
#[tactic(auto, using(std::proofs::lemmas::Grind::common_steps))]
pub fn put_variables(out: &mut Vec<u8>, ups: &[u8], device: &Device) -> Result<(), AllocError>
    ensures { OnOk result (out.new.items ≡ out.old.items ++ flat_map (λ v. reply_line (var_row ups.now device.now.device v)) device.now.device.table.variables) }
{
    let front = front_of(b"VAR", ups);
    for variable in device.table().variables() {
        put_variable(out, false, &front, ups, device, variable)?;
    }
    Ok(())
}

#[tactic(auto, using(std::proofs::lemmas::Grind::common_steps))]
fn put_writables(out: &mut Vec<u8>, ups: &[u8], device: &Device) -> Result<(), AllocError>
    ensures { OnOk result (out.new.items ≡ out.old.items ++ flat_map (writable_text ups.now device.now.device) device.now.device.table.variables) }
{
    let front = front_of(b"RW", ups);
    for variable in device.table().variables() {
        if variable.flags().writable {
            put_variable(out, true, &front, ups, device, variable)?;
        }
    }
    Ok(())
}

#[tactic(auto, using(std::proofs::lemmas::Grind::common_steps))]
fn put_commands(out: &mut Vec<u8>, ups: &[u8], device: &Device) -> Result<(), AllocError>
    ensures { OnOk result (out.new.items ≡ out.old.items ++ flat_map (λ k. reply_line (replies.Cmd ups.now k)) device.now.device.table.commands) }
{
    for command in device.table().commands() {
        Reply::Cmd {
            ups: Word::new(ups),
            command: Word::new(command.as_bytes()),
        }
        .put(out)?;
    }
    Ok(())
}

#[tactic(auto, using(std::proofs::lemmas::Grind::common_steps))]
fn put_enums(
    out: &mut Vec<u8>,
    ups: &[u8],
    name: &[u8],
    variable: &Variable,
) -> Result<(), AllocError>
    ensures { OnOk result (out.new.items ≡ out.old.items ++ flat_map (λ x. reply_line (replies.Enum ups.now name.now x)) variable.now.enums) }
{
    for value in variable.enums() {
        Reply::Enum {
            ups: Word::new(ups),
            variable: Word::new(name),
            value: Word::new(value.as_bytes()),
        }
        .put(out)?;
    }
    Ok(())
}

#[tactic(auto, using(std::proofs::lemmas::Grind::common_steps))]
fn put_ranges(
    out: &mut Vec<u8>,
    ups: &[u8],
    name: &[u8],
    variable: &Variable,
) -> Result<(), AllocError>
    ensures { OnOk result (out.new.items ≡ out.old.items ++ flat_map (λ r. reply_line (replies.Range ups.now name.now r.minimum r.maximum)) variable.now.ranges) }
{
    for range in variable.ranges() {
        Reply::Range {
            ups: Word::new(ups),
            variable: Word::new(name),
            min: range.minimum,
            max: range.maximum,
        }
        .put(out)?;
    }
    Ok(())
}

fn put_clients(
    out: &mut Vec<u8>,
    ups: &[u8],
    u: usize,
    connections: &Connections,
) -> Result<(), AllocError>
    ensures { OnOk result (out.new.items ≡ out.old.items ++ flat_map (client_text ups.now u) connections.now) }
{
    for index in 0..connections.len() {
        let client = connections.at(index);
        if client.is_logged_in(u) {
            put_client(out, ups, client)?;
        }
    }
    Ok(())
}

// ---- answers

fn put_rows(out: &mut Vec<u8>, rows: &ListRows<'_>) -> Result<(), AllocError>
    ensures { OnOk result (out.new.items ≡ out.old.items ++ flat_map reply_line (rows_of rows.now)) }
{
    match rows {
        ListRows::Upses(config) => put_upses(out, config),
        ListRows::Variables(ups, device) => put_variables(out, ups, device),
        ListRows::Writable(ups, device) => put_writables(out, ups, device),
        ListRows::Commands(ups, device) => put_commands(out, ups, device),
        ListRows::Enums(ups, name, variable) => put_enums(out, ups, name, variable),
        ListRows::Ranges(ups, name, variable) => put_ranges(out, ups, name, variable),
        ListRows::Clients(ups, u, connections) => put_clients(out, ups, *u, connections),
    }
}

/// Appends the bytes of an answer. If memory cannot be allocated, `out` may hold a part of them.
#[tactic(auto, unfolding(nut_server_spec::specs::Answer::text_of))]
pub fn put_answer(out: &mut Vec<u8>, answer: &Answer<'_>) -> Result<(), AllocError>
    ensures { OnOk result (out.new.items ≡ out.old.items ++ text_of (given answer.now)) }
{
    match answer {
        Answer::Line(reply) => reply.put(out),
        Answer::Value(ups, device, variable) => {
            put_variable(out, false, &front_of(b"VAR", ups), ups, device, variable)
        }
        Answer::Listing(query, rows) => {
            query.put_begin(out)?;
            put_rows(out, rows)?;
            query.put_end(out)
        }
    }
}

//! The texts of notices.
ghost use Rattle.std.specs.Prelude.{◌≡◌, ◌+◌, ◌≤◌, ◌++◌, IfSome, OnOk, OnErr, drop, length, take, ◌<◌, vec_capacity, vec_len};
ghost use Rattle.std.specs.Option.{option_map};
ghost use Rattle.nut_monitor.specs.Texts.{filled_if, is_mark, place_of, target_for, text_of};

use nut_conf::{MonConfig, Notice as Kind};
use nut_monitor_spec::Notice;
use std::alloc::AllocError;

/// Whether a text begins with `%s`.
fn begins_with_mark(text: &[u8]) -> bool
    ensures { result ≡ is_mark text.now }
{
    match text {
        [first, second, ..] => *first == b'%' && *second == b's',
        [_] | [] => false,
    }
}

/// Returns the place of the first `%s` in a text.
#[tactic(auto, using(crate::proofs::Marks::place_next, crate::proofs::Marks::place_found, crate::proofs::Marks::mark_within, crate::proofs::Marks::place_first, crate::proofs::Marks::place_none))]
fn mark_place(text: &[u8]) -> Option<usize>
    ensures place { result ≡ place_of text.now }
    ensures within { IfSome result (λ at. at + 2 ≤ length text.now) }
{
    for at in 0..text.len() {
        if begins_with_mark(&text[at..]) {
            return Some(at);
        }
    }
    None
}

/// Returns what replaces `%s` in the text of a notice: the UPS of its line as upsmon.conf writes it. None for SHUTDOWN.
fn target(config: &MonConfig, notice: Notice) -> Option<&[u8]>
    ensures { option_map (λ t. t.now) result ≡ target_for config.now notice.kind notice.line }
{
    if let Kind::Shutdown = notice.kind {
        return None;
    }
    let Some(line) = notice.line else {
        return None;
    };
    let monitors = &config.monitors;
    match monitors.lines.get(line) {
        Some(monitor) => Some(monitor.written.as_slice()),
        None => None,
    }
}

/// Appends a text with its first `%s` replaced, if there is a target. On an error a part of it may have been appended.
fn put_filled(out: &mut Vec<u8>, text: &[u8], target: Option<&[u8]>) -> Result<(), AllocError>
    ensures ok { OnOk result (out.new.items ≡ out.old.items ++ filled_if (option_map (λ t. t.now) target.entry) text.now) }
    ensures err { OnErr result (take (length out.old.items) out.new.items ≡ out.old.items) }
    ensures full { OnErr result (vec_capacity out.old
        < vec_len out.old + length (filled_if (option_map (λ t. t.now) target.entry) text.now)) }
{
    let Some(target) = target else {
        return out.extend_from_slice(text);
    };
    match mark_place(text) {
        Some(at) => put_parts(out, text, at, target),
        None => out.extend_from_slice(text),
    }
}

/// Appends a text with the two bytes at a place replaced by the target. On an error a part of it may have been appended.
fn put_parts(out: &mut Vec<u8>, text: &[u8], at: usize, target: &[u8]) -> Result<(), AllocError>
    requires { at + 2 ≤ length text.now }
    ensures ok { OnOk result (out.new.items ≡ out.old.items ++ (take at text.now ++ target.now ++ drop (at + 2) text.now)) }
    ensures err { OnErr result (take (length out.old.items) out.new.items ≡ out.old.items) }
    ensures full { OnErr result (vec_capacity out.old
        < vec_len out.old + length (take at text.now ++ target.now ++ drop (at + 2) text.now)) }
{
    out.extend_from_slice(&text[..at])?;
    out.extend_from_slice(target)?;
    out.extend_from_slice(&text[at + 2..])
}

/// Appends the text of a notice. Fails only if `out` has no room for it and memory cannot be allocated; then nothing is
/// appended.
pub fn put_text(config: &MonConfig, notice: Notice, out: &mut Vec<u8>) -> Result<(), AllocError>
    ensures ok { OnOk result (out.new.items ≡ out.old.items ++ text_of config.now notice) }
    ensures err { OnErr result (out.new.items ≡ out.old.items) }
    ensures full { OnErr result (vec_capacity out.old < vec_len out.old + length (text_of config.now notice)) }
{
    let start = out.len();
    let put = put_filled(out, config.message(notice.kind), target(config, notice));
    if put.is_err() {
        out.truncate(start);
    }
    put
}

//! Answers the queries that clients send most often, by a way that is shorter since they only ask.

ghost use Rattle.std.specs.Prelude.{◌≡◌, ◌++◌, List, ℕ, IfSome, OnOk, codes, map};
ghost use Rattle.nut_proto.specs.PlainQueries.{request_of, ups_of};
ghost use Rattle.nut_proto.specs.declared.request.ListQuery.TheVariants as queries;
ghost use Rattle.nut_server_spec.specs.Answer.{Caller, Line, Listing, answer, on_variable, refused, text_of, var_row};
ghost use Rattle.nut_server_spec.specs.Command.{Asks};
ghost use Rattle.nut_server_spec.specs.Configuration.{number_of_ups};
ghost use Rattle.nut_server.specs.inside.Answers.{answer_from, described};
ghost use Rattle.nut_server.specs.inside.Rows.{row_front};

use crate::config::Ups;
use crate::device::Device;
use crate::queries::variable_of;
use crate::row::{front_of, put_front, put_mark};
use crate::scene::Scene;
use crate::text::{put_variable, put_variables, shows_forced};
use nut_proto::{PlainQuery, Refusal, Reply};
use nut_words::append_quoted;
use std::alloc::AllocError;

/// Makes `out` the text of the answer to a plain query, which is the same for every caller. The UPS that it asks about was found
/// at this place of ups.conf, if there is one. If memory cannot be allocated, `out` may hold a part of the text.
pub fn write_answer(
    out: &mut Vec<u8>,
    scene: &Scene<'_>,
    place: Option<usize>,
    query: PlainQuery<'_>,
) -> Result<(), AllocError>
    requires found { place ≡ number_of_ups (ups_of query) scene.now.configuration.upses }
    ensures { (caller : Caller) → OnOk result (out.new.items ≡ text_of (answer scene.now caller (Asks (request_of query.entry)))) }
{
    out.clear();
    match query {
        PlainQuery::GetVar { ups, variable, .. } => {
            put_value(out, scene.device_at(place), ups, variable)
        }
        PlainQuery::GetUpsDesc { ups } => put_description(out, scene.config.ups_found(place), ups),
        PlainQuery::ListVar { ups } => put_list(out, scene.device_at(place), ups),
    }
}

/// Returns what the row of this variable ends with, if that is kept and shows the value as it is. The variable is looked for at
/// the place `likely` first, which then is its place.
#[tactic(auto, unfolding(nut_server_spec::specs::Answer::text_of))]
pub fn kept_end<'a>(device: &'a Device, likely: &mut usize, name: &[u8]) -> Option<&'a [u8]>
    ensures { (ups : List ℕ) → IfSome result (λ end.
        text_of (on_variable name.now device.now.device (λ v. Line (var_row ups device.now.device v))) ≡ row_front (codes "VAR") ups ++ end.now) }
{
    let (place, variable) = device.table().find_variable(*likely, name)?;
    *likely = place;
    if shows_forced(device, variable) {
        return None;
    }
    let end = variable.row_end()?;
    Some(end)
}

/// Appends a refusal. If memory cannot be allocated, `out` may hold a part of it.
#[inline(never)]
#[tactic(auto, unfolding(nut_server_spec::specs::Answer::text_of))]
fn put_refusal(out: &mut Vec<u8>, refusal: Refusal) -> Result<(), AllocError>
    ensures { OnOk result (out.new.items ≡ out.old.items ++ text_of (refused refusal)) }
{
    Reply::Refused(refusal).put(out)
}

/// Appends the value of a variable of this UPS, or why there is none.
#[tactic(auto, unfolding(nut_server_spec::specs::Answer::text_of))]
fn put_value(
    out: &mut Vec<u8>,
    device: Result<&Device, Refusal>,
    ups: &[u8],
    name: &[u8],
) -> Result<(), AllocError>
    ensures { OnOk result (out.new.items ≡ out.old.items ++ text_of (answer_from device.entry (λ d. on_variable name.now d (λ v. Line (var_row ups.now d v))))) }
{
    let device = match device {
        Ok(device) => device,
        Err(refusal) => return put_refusal(out, refusal),
    };
    match variable_of(device, name) {
        Ok(variable) => put_variable(out, false, &front_of(b"VAR", ups), ups, device, variable),
        Err(refusal) => put_refusal(out, refusal),
    }
}

/// Appends the description of this UPS, or that there is none.
#[tactic(auto, unfolding(nut_server_spec::specs::Answer::text_of))]
fn put_description(out: &mut Vec<u8>, found: Option<Ups<'_>>, ups: &[u8]) -> Result<(), AllocError>
    ensures { OnOk result (out.new.items ≡ out.old.items ++ text_of (described ups.now found.entry)) }
{
    let Some(found) = found else {
        return put_refusal(out, Refusal::UnknownUps);
    };
    put_front(out, b"UPSDESC", ups)?;
    append_quoted(out, found.description)?;
    out.push(b'\n')?;
    Ok(())
}

/// Appends the variables of this UPS, or why they can't be listed.
fn put_list(
    out: &mut Vec<u8>,
    device: Result<&Device, Refusal>,
    ups: &[u8],
) -> Result<(), AllocError>
    ensures { OnOk result (out.new.items ≡ out.old.items ++ text_of (answer_from device.entry (λ d. Listing (queries.Var ups.now) (map (var_row ups.now d) d.table.variables)))) }
{
    match device {
        Ok(device) => put_listed(out, ups, device),
        Err(refusal) => put_refusal(out, refusal),
    }
}

/// Appends the variables of this UPS between the lines of their list.
fn put_listed(out: &mut Vec<u8>, ups: &[u8], device: &Device) -> Result<(), AllocError>
    ensures { OnOk result (out.new.items ≡ out.old.items ++ text_of (Listing (queries.Var ups.now) (map (var_row ups.now device.now.device) device.now.device.table.variables))) }
{
    put_mark(out, b"BEGIN LIST VAR ", ups)?;
    put_variables(out, ups, device)?;
    put_mark(out, b"END LIST VAR ", ups)?;
    Ok(())
}

//! Plays a room of UPSes in memory: one server and its monitors.
#![tactic(auto)]

use nut_program::{NamedLines, refuse_start, words_of};
use nut_simulator::run_nutsim_showing;
use std::io::IsTerminal;
use std::process::ExitCode;

fn main(rt: HostRuntime) -> ExitCode {
    let (mut out, mut err) = (rt.stdout(), rt.stderr());
    let status = match words_of(&rt) {
        Ok(words) => {
            let is_terminal = err.is_terminal();
            run_nutsim_showing(
                &rt,
                rt.alloc(),
                words.as_slice(),
                &mut out,
                &mut err,
                is_terminal,
            )
        }
        Err(error) => refuse_start(&error, &mut NamedLines::new("nutsim", &mut err)),
    };
    ExitCode::from(status)
}

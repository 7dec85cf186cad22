//! Lists the commands of a UPS, or sends it one.
#![tactic(auto)]

use nut_client::{Tool, run_tool};
use std::process::ExitCode;

fn main(rt: HostRuntime) -> ExitCode {
    run_tool(&rt, &rt.stderr(), Tool::Upscmd)
}

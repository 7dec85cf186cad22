//! Shows the variables of a UPS, the UPSes of a server, or the clients of a UPS.
#![tactic(auto)]

use nut_client::{Tool, run_tool};
use std::process::ExitCode;

fn main(rt: HostRuntime) -> ExitCode {
    run_tool(&rt, &rt.stderr(), Tool::Upsc)
}

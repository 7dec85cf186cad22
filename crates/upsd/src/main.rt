//! The server of UPSes.
#![tactic(auto)]

use nut_log::LogStream;
use nut_poll::LossyLines;
use std::io;
use std::process::ExitCode;

fn main(rt: HostRuntime) -> ExitCode {
    let mut log = LogStream::of(&rt, "upsd", rt.stderr());
    if !nut_program::has_stack(&mut log) {
        return ExitCode::from(1);
    }
    let status = match nut_program::words_of(&rt) {
        Ok(words) => nut_upsd::run_upsd(
            &rt,
            rt.alloc(),
            words.as_slice(),
            &mut rt.reader(),
            &mut io::writer(&rt),
            &mut LossyLines::new(log),
        ),
        Err(error) => nut_program::refuse_start(&error, &mut log),
    };
    ExitCode::from(status)
}

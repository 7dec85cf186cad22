//! The monitor of UPSes.
#![tactic(auto)]

use nut_log::LogStream;
use nut_program::Streams;
use std::process::ExitCode;

fn main(rt: HostRuntime) -> ExitCode {
    let mut streams = Streams {
        out: LogStream::of(&rt, "upsmon", rt.stdout()),
        err: LogStream::of(&rt, "upsmon", rt.stderr()),
    };
    if !nut_program::has_stack(&mut streams.err) {
        return ExitCode::from(1);
    }
    let status = match nut_program::words_of(&rt) {
        Ok(words) => nut_upsmon::run_upsmon(
            &rt,
            rt.alloc(),
            words.as_slice(),
            &mut rt.reader(),
            streams,
        ),
        Err(error) => nut_program::refuse_start(&error, &mut streams.err),
    };
    ExitCode::from(status)
}

//! The stack that a program needs.

ghost use Rattle.std.specs.Prelude.{◌↔◌, ◌<◌, ◌*◌, IsSome};

use libc::types::rlimit;
use libc::{RLIMIT_STACK, getrlimit};
use nut_log::{Level, Lines};
use std::fmt;

/// How much stack a daemon needs, in KiB. A process whose stack has no more room is ended by SIGSEGV, perhaps after it has
/// begun to watch or to serve, and can say nothing of that.
const DAEMON_STACK: u32 = 512;

/// How much stack a tool needs, in KiB.
pub const TOOL_STACK: u32 = 256;

/// The bytes of a KiB.
const KIB: u64 = 1024;

/// A limit of the stack that is too low. It is displayed as in `the stack is limited to 64 KiB; 512 are needed`.
#[derive(Clone, Copy)]
pub struct LowStack {
    kibibytes: u64,
    needed: u32,
}

impl fmt::Display for LowStack {
    fn fmt<W: fmt::Write>(&self, f: &mut fmt::Formatter<W>) -> fmt::Result {
        let LowStack { kibibytes, needed } = self;
        write!(
            f,
            "the stack is limited to {kibibytes} KiB; {needed} are needed"
        )
    }
}

impl LowStack {
    /// Returns this limit of the stack in bytes, if it is too low for a program that needs so many KiB.
    pub fn of_limit(limit: u64, needed: u32) -> Option<LowStack>
        ensures { IsSome result ↔ (limit < needed * 1024) }
    {
        if limit >= u64::from(needed) * KIB {
            return None;
        }
        Some(LowStack {
            kibibytes: limit / KIB,
            needed,
        })
    }
}

/// Returns the limit of this process's stack if it is too low for a program that needs so many KiB. One that can't be read
/// isn't.
pub fn low_stack(needed: u32) -> Option<LowStack> {
    let mut limit = rlimit {
        rlim_cur: u64::MAX,
        rlim_max: u64::MAX,
    };
    if getrlimit(RLIMIT_STACK, &mut limit) == 0 {
        LowStack::of_limit(limit.rlim_cur, needed)
    } else {
        None
    }
}

/// Whether this process has the stack that a daemon needs. If its stack is limited to less, that is written to `err`. A
/// limit that can't be read passes.
pub fn has_stack<E: Lines>(err: &mut E) -> bool {
    let Some(low) = low_stack(DAEMON_STACK) else {
        return true;
    };
    let _ = writeln!(err.begin(Level::Error), "{low}");
    false
}

//! clap's text for a command line that it refuses, or that asks for the help or the version.

use std::alloc::{AllocError, Global};

/// How clap begins a tip that takes an option of NUT for an argument.
const TIP: &str = "\n  tip: to pass ";

/// Returns clap's text without the tip to pass an unknown option as an argument: it is more likely an option of NUT.
pub fn clap_text(alloc: Global, error: &clap::Error) -> Result<String, AllocError> {
    let text = format!(in alloc; "{error}")?;
    // the tip ends at a blank line
    let Some((front, rest)) = text.split_once(TIP) else {
        return Ok(text);
    };
    let (_tip, usage) = rest.split_once("\n\n").unwrap_or((rest, ""));
    let front = front.trim_end();
    format!(in alloc; "{front}\n\n{usage}")
}

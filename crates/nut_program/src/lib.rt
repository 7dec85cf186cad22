//! What the programs share: their command lines, their configuration files, and why they end.
#![tactic(auto)]

mod arguments;
mod command_line;
mod conf_file;
mod conf_files;
mod failure;
mod folder;
mod memory_files;
mod named_lines;
mod nuts_option;
mod pairing;
mod reload_file;
mod reload_report;
mod remark;
mod stack;
mod streams;
mod unknown;
mod version;
mod warning;
mod without_tip;

pub use arguments::{refuse_start, words_of};
pub use command_line::{
    UNKNOWN_OPTION, check_option, debug_option, foreground_option, quiet_option,
};
pub use conf_file::{ConfFile, FileFault, read_conf, read_conf_at, read_conf_if_there};
pub use conf_files::{ConfFiles, SystemFiles, read_file};
pub use failure::{Failure, OwnFault, tell_not_reloaded};
pub use folder::conf_folder;
pub use memory_files::MemoryFiles;
pub use named_lines::NamedLines;
pub use nuts_option::{NutsOption, way_of};
pub use pairing::paired;
pub use reload_file::{Look, ReloadFile, Turn};
pub use reload_report::ReloadReport;
pub use stack::{LowStack, TOOL_STACK, has_stack, low_stack};
pub use streams::{Streams, hold_closed_streams};
pub use version::VERSION;
pub use warning::{Readable, readable_file, warn};
pub use without_tip::clap_text;

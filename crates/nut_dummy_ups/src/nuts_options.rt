//! The options of NUT's drivers that dummy-ups doesn't have.

use nut_program::{NutsOption, nuts_options};

/// The first of these that a command line has is explained.
pub const NUTS_OPTIONS: [NutsOption; 10] = nuts_options! {
    "-a" => "-a is not supported: use dummy-ups FILE SOCKET, or systemctl start mulgefa-dummy-ups@NAME",
    "-s" => "-s is not supported: use dummy-ups FILE SOCKET",
    "-x" => "-x is not supported: FILE has all settings",
    "-D" => "-D is not supported: dummy-ups reports only why it ends",
    "-F" => "-F is not supported: dummy-ups always stays in the foreground",
    "-B" => "-B is not supported: dummy-ups always stays in the foreground",
    "-k" => "-k is not supported: use upscmd NAME load.off",
    "-r" => "-r is not supported: the unit can have RootDirectory",
    "-u" => "-u is not supported: the unit decides as which user dummy-ups runs",
    "-g" => "-g is not supported: the unit decides as which group dummy-ups runs",
};

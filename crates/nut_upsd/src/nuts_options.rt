//! The options of NUT's upsd that this one doesn't have.

use nut_program::{NutsOption, nuts_options};

/// The first of these that a command line has is explained.
pub const NUTS_OPTIONS: [NutsOption; 11] = nuts_options! {
    "-c" "reload" => "-c reload is not supported: use systemctl reload mulgefa-upsd",
    "-c" "stop" => "-c stop is not supported: use systemctl stop mulgefa-upsd",
    "-c" => "-c is not supported: use systemctl; --conf names the directory of the files",
    "-P" => "-P is not supported: there are no PID files; use systemctl",
    "-FF" => "-FF is not supported: there are no PID files; use -F",
    "-F" "-F" => "-F -F is not supported: there are no PID files; use -F",
    "-B" => "-B is not supported: upsd always stays in the foreground",
    "-u" => "-u is not supported: the unit decides as which user upsd runs",
    "-r" => "-r is not supported: the unit can have RootDirectory",
    "-4" => "-4 is not supported: LISTEN in upsd.conf names the addresses",
    "-6" => "-6 is not supported: LISTEN in upsd.conf names the addresses",
};

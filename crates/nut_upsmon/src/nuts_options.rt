//! The options of NUT's upsmon that this one doesn't have.

use nut_program::NutsOption;

/// The first of these that a command line has is explained.
pub const NUTS_OPTIONS: [NutsOption; 10] = [
    NutsOption {
        flag: "-c",
        value: "fsd",
        way: "-c fsd is not supported: use upsmon --fsd",
    },
    NutsOption {
        flag: "-c",
        value: "reload",
        way: "-c reload is not supported: use systemctl reload mulgefa-upsmon",
    },
    NutsOption {
        flag: "-c",
        value: "stop",
        way: "-c stop is not supported: use systemctl stop mulgefa-upsmon",
    },
    NutsOption {
        flag: "-c",
        value: "",
        way: "-c is not supported: use upsmon --fsd or systemctl",
    },
    NutsOption {
        flag: "-P",
        value: "",
        way: "-P is not supported: there are no PID files; use systemctl",
    },
    NutsOption {
        flag: "-FF",
        value: "",
        way: "-FF is not supported: there are no PID files; use -F",
    },
    NutsOption {
        flag: "-F",
        value: "-F",
        way: "-F -F is not supported: there are no PID files; use -F",
    },
    NutsOption {
        flag: "-B",
        value: "",
        way: "-B is not supported: upsmon always stays in the foreground",
    },
    NutsOption {
        flag: "-p",
        value: "",
        way: "-p is not supported: the unit decides as which user upsmon runs",
    },
    NutsOption {
        flag: "-u",
        value: "",
        way: "-u is not supported: the unit decides as which user upsmon runs",
    },
];

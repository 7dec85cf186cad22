//! The configuration files of Network UPS Tools: ups.conf, upsd.users, upsd.conf, upsmon.conf and cmdvartab.
//!
//! Each reader reads a whole file. It returns the configuration that the file's lines set, or the first fault and its
//! line.
#![tactic(auto)]

mod descriptions;
mod directives;
mod draft;
mod fault;
mod file;
mod hint;
mod host;
mod laws;
mod limits;
mod line;
mod lines;
mod monitor;
mod notice;
mod sections;
mod slot;
mod tables;
mod target;
mod text;
mod texts;
mod ups;
mod upsd;
mod upsmon;
mod users;
mod values;

pub use descriptions::{DescriptionDirective, Descriptions, read_descriptions};
pub use directives::is_directive;
pub use fault::{ConfFault, FaultKind};
pub use hint::{Expected, Hint};
pub use host::{Address, Host};
pub use laws::{blank_lines_change_nothing, first_fault, names_are_distinct, rules_are_kept};
pub use limits::{
    COMMAND_MAX, CONNECTIONS_MAX, DESCRIPTION_MAX, DESCRIPTIONS_MAX, DEVICE_MAX, DRIVER_NAME_MAX,
    FILE_LINE_MAX, FILE_MAX, HOST_MAX, INSTCMDS_MAX, LISTENERS_MAX, MESSAGE_MAX, MONITORS_MAX,
    PASSWORD_MAX, TARGET_MAX, UPSES_MAX, USER_NAME_MAX, USERS_MAX, file_limits,
};
pub use lines::Lines;
pub use monitor::Monitored;
pub use notice::{NOTICES, Notice, NoticeFlags, NoticeHandling, NoticeText};
pub use sections::Sections;
pub use target::{NameFault, Target, split_name};
pub use text::{Name, Number, NumberOr, Port, Text};
pub use texts::Texts;
pub use ups::{Ups, UpsConf, UpsDirective, read_ups, ups_limits};
pub use upsd::{Endpoint, UpsdConf, UpsdDirective, read_upsd, upsd_limits};
pub use upsmon::{MonConfig, UPSMON_DIRECTIVES, UpsmonDirective, read_upsmon, upsmon_limits};
pub use users::{Action, Commands, Role, User, UserDirective, UsersConf, read_users, user_limits};

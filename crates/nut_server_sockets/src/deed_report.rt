//! What is reported of what clients do.

use nut_log::{Level, Leveled};
use std::fmt;

/// A client: the user name that it gave, and its address.
#[derive(Clone, Copy)]
pub struct Who<'a> {
    /// The user name.
    pub user: &'a str,
    /// The address.
    pub address: &'a str,
}

impl<'a> fmt::Display for Who<'a> {
    fn fmt<W: fmt::Write>(&self, f: &mut fmt::Formatter<W>) -> fmt::Result {
        write!(f, "{}@{}", self.user, self.address)
    }
}

/// Whose requests were refused.
#[derive(Clone, Copy)]
pub enum Whose<'a> {
    /// Those of the user with this name.
    User(&'a str),
    /// Those of users that upsd.users doesn't have.
    Unknown,
    /// Those of several users.
    Several,
}

impl<'a> fmt::Display for Whose<'a> {
    fn fmt<W: fmt::Write>(&self, f: &mut fmt::Formatter<W>) -> fmt::Result {
        match self {
            Whose::User(name) => write!(f, "user {name}"),
            Whose::Unknown => write!(f, "an unknown user"),
            Whose::Several => write!(f, "several users"),
        }
    }
}

/// A number of requests, as it is reported.
#[derive(Clone, Copy)]
struct Requests(u64);

impl fmt::Display for Requests {
    fn fmt<W: fmt::Write>(&self, f: &mut fmt::Formatter<W>) -> fmt::Result {
        let Requests(count) = self;
        let mark = if *count == 1 { "" } else { "s" };
        write!(f, "({count} request{mark})")
    }
}

/// Requests from one address that were refused as ACCESS-DENIED.
#[derive(Clone, Copy)]
pub struct Denial<'a> {
    /// The address.
    pub address: &'a str,
    /// Whose they were.
    pub whose: Whose<'a>,
    /// How many they are.
    pub count: u64,
}

impl<'a> fmt::Display for Denial<'a> {
    fn fmt<W: fmt::Write>(&self, f: &mut fmt::Formatter<W>) -> fmt::Result {
        let Denial {
            address,
            whose,
            count,
        } = self;
        let requests = Requests(*count);
        write!(f, "client {address}: access denied for {whose} {requests}")
    }
}

/// What a client did. A UPS comes by its name.
#[derive(Drop)]
pub enum DeedReport<'a> {
    /// It had the driver of this UPS asked to set this variable.
    Set(&'a str, Who<'a>, &'a str),
    /// It had the driver of this UPS asked to run this command.
    Command(&'a str, Who<'a>, &'a str),
    /// It forced a shutdown of this UPS (FSD).
    Forced(&'a str, Who<'a>),
    /// It forced a shutdown of this UPS (FSD), whose driver isn't there or whose data are stale.
    ForcedUntold(&'a str, Who<'a>),
    /// It logged in to this UPS.
    LoggedIn(&'a str, Who<'a>),
    /// It was logged in to this UPS, and logged out.
    LoggedOut(&'a str, Who<'a>),
    /// It was logged in to this UPS, and its connection ended before it logged out.
    Left(&'a str, Who<'a>),
    /// Requests of clients at one address were refused.
    Denied(Denial<'a>),
    /// This many requests of clients at other addresses were refused.
    DeniedElsewhere(u64),
}

impl<'a> fmt::Display for DeedReport<'a> {
    fn fmt<W: fmt::Write>(&self, f: &mut fmt::Formatter<W>) -> fmt::Result {
        match self {
            DeedReport::Set(ups, who, variable) => {
                write!(f, "UPS {ups}: {who} asked the driver to set {variable}")
            }
            DeedReport::Command(ups, who, command) => {
                write!(f, "UPS {ups}: {who} asked the driver to run {command}")
            }
            DeedReport::Forced(ups, who) => {
                write!(f, "UPS {ups}: shutdown is forced (FSD) by {who}")
            }
            DeedReport::ForcedUntold(ups, who) => write!(
                f,
                "UPS {ups}: shutdown is forced (FSD) by {who}; its machines learn of it once the driver is back"
            ),
            DeedReport::LoggedIn(ups, who) => write!(f, "UPS {ups}: {who} logged in"),
            DeedReport::LoggedOut(ups, who) => write!(f, "UPS {ups}: {who} logged out"),
            DeedReport::Left(ups, who) => {
                write!(f, "UPS {ups}: connection of {who} ended without LOGOUT")
            }
            DeedReport::Denied(denial) => write!(f, "{denial}"),
            DeedReport::DeniedElsewhere(count) => {
                let requests = Requests(*count);
                write!(f, "clients at other addresses: access denied {requests}")
            }
        }
    }
}

impl<'a> Leveled for DeedReport<'a> {
    fn level(&self) -> Level {
        match self {
            DeedReport::LoggedIn(..) | DeedReport::LoggedOut(..) => Level::Info,
            DeedReport::Set(..) | DeedReport::Command(..) | DeedReport::Left(..) => Level::Notice,
            DeedReport::Forced(..)
            | DeedReport::ForcedUntold(..)
            | DeedReport::Denied(_)
            | DeedReport::DeniedElsewhere(_) => Level::Warning,
        }
    }
}

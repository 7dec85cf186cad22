//! Answers to clients, before they are written as bytes.

use crate::config::Config;
use crate::connections::Connections;
use crate::device::Device;
use nut_proto::{ListQuery, Refusal, Reply};
use nut_state::Variable;

/// The rows of a list. UPSes and variables are named as the client wrote them.
#[derive(Drop)]
pub enum ListRows<'a> {
    /// All UPSes.
    Upses(&'a Config),
    /// The variables of the UPS of this name.
    Variables(&'a [u8], &'a Device),
    /// The variables of the UPS of this name that clients may set.
    Writable(&'a [u8], &'a Device),
    /// The commands of the UPS of this name.
    Commands(&'a [u8], &'a Device),
    /// The enum values of a variable: the names of the UPS and of the variable, and the variable.
    Enums(&'a [u8], &'a [u8], &'a Variable),
    /// The ranges of a variable: the names of the UPS and of the variable, and the variable.
    Ranges(&'a [u8], &'a [u8], &'a Variable),
    /// The clients that are logged in to a UPS: its name, its number, and the open connections.
    Clients(&'a [u8], usize, &'a Connections),
}

/// An answer. It borrows what it shows.
#[derive(Drop)]
pub enum Answer<'a> {
    /// One line.
    Line(Reply<'a>),
    /// The line of GET VAR: the name of the UPS, the UPS and the variable.
    Value(&'a [u8], &'a Device, &'a Variable),
    /// A list: its query, and its rows.
    Listing(&'a ListQuery<'a>, ListRows<'a>),
}

impl Answer<'_> {
    /// Whether it is ACCESS-DENIED.
    pub fn is_denial(&self) -> bool {
        matches!(self, Answer::Line(Reply::Refused(Refusal::AccessDenied)))
    }
}

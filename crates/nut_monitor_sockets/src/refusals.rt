//! Refusals of a server, each of which is reported once until a link ends on which the server served.

use arrayvec::ArrayVec;
use nut_link::Outcome;
use nut_monitor::{LastAnswer, Query};
use std::mem;

/// The greatest number of bytes of an error's name that are kept.
const ERROR_NAME_MAX: usize = 64;

/// The name of an error, or its first [`ERROR_NAME_MAX`] bytes.
pub type ErrorName = ArrayVec<u8, ERROR_NAME_MAX>;

/// Which refusals of a server were reported.
#[derive(Drop)]
pub struct Refusals {
    /// For USERNAME, PASSWORD, LOGIN, PRIMARY and FSD, in this order: whether a refusal was reported.
    told: [bool; 5],
    /// The error with which the last query for the status was refused.
    status: Option<ErrorName>,
}

impl Refusals {
    /// Returns the state before any was reported.
    pub fn none() -> Refusals {
        Refusals {
            told: [false; 5],
            status: None,
        }
    }

    /// Whether the last query for the status was refused.
    pub fn refuses_status(&self) -> bool {
        self.status.is_some()
    }

    /// Notes an answer, and returns the name of its error if it is a refusal that is to be reported. The first refusal of
    /// each query is, except of NUMLOGINS; of the status, each refusal that differs from the answer before.
    pub fn note(&mut self, answer: &LastAnswer) -> Option<ErrorName> {
        let error = match &answer.outcome {
            Outcome::Refused(name) => Some(first_bytes(name.as_bytes())),
            Outcome::Done | Outcome::Said(_) | Outcome::List(_) => None,
        };
        match answer.asked.query {
            Query::Status => {
                if self.status == error {
                    return None;
                }
                self.status = error;
                let status = self.status.as_ref()?;
                Some(first_bytes(status.as_slice()))
            }
            Query::Username => note_once(&mut self.told[0], error),
            Query::Password => note_once(&mut self.told[1], error),
            Query::Login => note_once(&mut self.told[2], error),
            Query::Primary => note_once(&mut self.told[3], error),
            Query::Fsd => note_once(&mut self.told[4], error),
            Query::NumLogins => None,
        }
    }
}

/// Returns the error of the first refusal.
fn note_once(told: &mut bool, error: Option<ErrorName>) -> Option<ErrorName> {
    let error = error?;
    if mem::replace(told, true) {
        None
    } else {
        Some(error)
    }
}

/// Returns the name of an error, or its first bytes.
fn first_bytes(name: &[u8]) -> ErrorName {
    let mut front = ErrorName::new();
    let length = name.len().min(front.capacity());
    let _ = front.try_extend_from_slice(&name[..length]);
    front
}

/// Whether reports of a refusal of this query are left out with `-q`. Those of the status are: if it stays refused, a
/// notice tells of it. The others say that the server doesn't know the user or the UPS, or doesn't let this user do it.
pub fn is_left_out_when_quiet(query: Query) -> bool {
    match query {
        Query::Status | Query::NumLogins => true,
        Query::Username | Query::Password | Query::Login | Query::Primary | Query::Fsd => false,
    }
}

/// Returns the name of a query in the report of its refusal.
pub fn title(query: Query) -> &'static str {
    match query {
        Query::Username => "USERNAME",
        Query::Password => "PASSWORD",
        Query::Login => "LOGIN",
        Query::Primary => "PRIMARY",
        Query::Status => "status",
        Query::Fsd => "FSD",
        Query::NumLogins => "NUMLOGINS",
    }
}

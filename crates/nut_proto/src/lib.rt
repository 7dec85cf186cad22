//! The messages of the network protocol (RFC 9271), and the requests of a server to its drivers.
//!
//! The server reads requests with `read` and writes replies with `put`. A client writes requests with `put` and reads
//! answers with `read_answer`. Each message is one line. The law `messages_are_read` says that what one side
//! writes, the other reads as it was meant.
#![tactic(auto)]

mod answer;
mod cursor;
mod description;
mod driver_ask;
mod examples;
mod keyword;
mod laws;
mod limits;
mod line;
mod number;
mod part;
mod plain;
mod reading;
mod refusal;
mod reply;
mod request;
mod tracking;
mod word;

pub use answer::{Answer, AnswerFault, ErrorName, Rest, read_answer};
pub use description::{command_description, variable_description};
pub use driver_ask::DriverAsk;
pub use examples::worked_examples;
pub use laws::{messages_are_read, read_requests_are_readable, replies_are_bounded};
pub use limits::{ROWS_MAX, TRACKING_NUMBER_MAX, message_limits};
pub use number::decimal;
pub use plain::{PlainQuery, PlainReader};
pub use reading::read;
pub use refusal::Refusal;
pub use reply::{Reply, VariableKind};
pub use request::{ListQuery, Request};
pub use tracking::{TrackingStatus, tracking_number, tracking_status};
pub use word::Word;

//! Requests that are tracked: their numbers, and how they ended.
ghost use Rattle.std.specs.Prelude.{◌≡◌, ◌<◌, IfSome};
ghost use Rattle.nut_proto.specs.Tracking.{status_word, switch, switch_word, tracking_number, tracking_status};

use crate::keyword::is_named;
use nut_words::natural;

/// How a tracked request ended, as `GET TRACKING` reports it.
#[derive(Clone, Copy, Debug, PartialEq, Eq)]
pub enum TrackingStatus {
    /// The driver hasn't reported the outcome.
    Pending,
    /// The driver did what was asked.
    Success,
    /// The driver reported a failure, or disconnected before it reported how the request ended.
    Failed,
    /// No request has this number, or so many later ones have been tracked that it is forgotten.
    Unknown,
}

impl TrackingStatus {
    /// Returns the word of an answer to `GET TRACKING`.
    pub fn word(self) -> &'static [u8]
        ensures { result.now ≡ status_word self }
    {
        match self {
            TrackingStatus::Pending => b"PENDING",
            TrackingStatus::Success => b"SUCCESS",
            TrackingStatus::Failed => b"FAILED",
            TrackingStatus::Unknown => b"UNKNOWN",
        }
    }
}

/// Returns the word that switches tracking on or off, and that says whether it is.
pub(crate) fn switch_word(on: bool) -> &'static [u8]
    ensures { result.now ≡ switch_word on }
{
    if on { b"ON" } else { b"OFF" }
}

/// Reads the word that switches tracking on or off. Its case doesn't matter.
pub(crate) fn switch(word: &[u8]) -> Option<bool>
    ensures { result ≡ switch word.now }
{
    if is_named(word, b"ON") {
        Some(true)
    } else if is_named(word, b"OFF") {
        Some(false)
    } else {
        None
    }
}

/// Reads the number of a tracked request: one to nine decimal digits, the first of them not 0. Returns `None` for any
/// other text.
pub fn tracking_number(text: &[u8]) -> Option<u32>
    ensures value { result ≡ tracking_number text.now }
    ensures fits { IfSome result (λ n. n < 1000000000) }
{
    match text.first() {
        None | Some(b'0') => None,
        Some(_) => natural(text),
    }
}

/// Reads the word of an answer to `GET TRACKING`. Returns `None` for any other word.
pub fn tracking_status(word: &[u8]) -> Option<TrackingStatus>
    ensures { result ≡ tracking_status word.now }
{
    if word == TrackingStatus::Pending.word() {
        Some(TrackingStatus::Pending)
    } else if word == TrackingStatus::Success.word() {
        Some(TrackingStatus::Success)
    } else if word == TrackingStatus::Failed.word() {
        Some(TrackingStatus::Failed)
    } else if word == TrackingStatus::Unknown.word() {
        Some(TrackingStatus::Unknown)
    } else {
        None
    }
}

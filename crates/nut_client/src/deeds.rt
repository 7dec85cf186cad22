//! What a tool asks to have a UPS do something.
ghost use Rattle.std.specs.Prelude.{◌≡◌, ◌∷◌, [], codes, if◌then◌else◌};
ghost use Rattle.nut_client.specs.Script.{Prints, Script, asks_status, deed_query, does, does_until, line, script, waits};
ghost use Rattle.nut_client.specs.inside.Between.{Goes, point};
ghost use Rattle.nut_client.specs.declared.wanted.Until.TheVariants.{Ended};
ghost use Rattle.nut_client.specs.declared.wanted.Wanted.TheVariants.{Does};

use crate::asking::line_text;
use crate::conversation::Conversation;
use crate::failure::ToolFailure;
use crate::stream::Stream;
use crate::wanted::{Until, UpsDeed};
use nut_link::Text;
use nut_proto::{Request, TrackingStatus, Word, tracking_status};
use std::thread;
use std::time::{Clock, Duration};

/// The greatest number of pauses while a tool waits for a request to end.
pub(crate) const PAUSES_MAX: u32 = 10;

/// For how many seconds a tool pauses before it asks again whether a request has ended.
const PAUSE: u64 = 1;

/// Returns the query that makes the UPS do something.
fn deed_query<'t>(ups: &'t Word<'t>, deed: &'t UpsDeed<'t>) -> Request<'t>
    ensures { result ≡ deed_query ups.now deed.now }
{
    match deed {
        UpsDeed::Set(variable, value) => Request::SetVar {
            ups: ups.copy(),
            variable: variable.copy(),
            value: value.copy(),
        },
        UpsDeed::Command(command, parameter) => Request::InstCmd {
            ups: ups.copy(),
            command: command.copy(),
            parameter: parameter.as_ref().map(Word::copy),
        },
    }
}

impl Conversation {
    /// Has the UPS of this name do something for the user of this name and password.
    pub(crate) fn carry_out<S: Stream>(
        &mut self,
        rt: &impl Clock,
        stream: &mut S,
        ups: Word<'_>,
        user: Word<'_>,
        password: Word<'_>,
        deed: UpsDeed<'_>,
        until: Until,
    ) -> Result<Text, ToolFailure>
        ensures { Goes (script ups.entry (Does user.entry password.entry deed.entry until)) Prints result
            (point S.remaining S.taken S.has_ended self.old.unread stream.old)
            (point S.remaining S.taken S.has_ended self.new.unread stream.new) }
    {
        self.done(stream, &Request::Username { name: user })?;
        self.done(stream, &Request::Password { password })?;
        match until {
            Until::Accepted => self.do_once(stream, &ups, &deed),
            Until::Ended => self.do_tracked(rt, stream, &ups, &deed),
        }
    }

    /// Has the UPS do something, until the server has accepted the request.
    fn do_once<S: Stream>(
        &mut self,
        stream: &mut S,
        ups: &Word<'_>,
        deed: &UpsDeed<'_>,
    ) -> Result<Text, ToolFailure>
        ensures { Goes (does ups.now deed.now) Prints result
            (point S.remaining S.taken S.has_ended self.old.unread stream.old)
            (point S.remaining S.taken S.has_ended self.new.unread stream.new) }
    {
        self.done(stream, &deed_query(ups, deed))?;
        line_text(self.alloc, b"OK")
    }

    /// Has the UPS do something, until the request has succeeded.
    fn do_tracked<S: Stream>(
        &mut self,
        rt: &impl Clock,
        stream: &mut S,
        ups: &Word<'_>,
        deed: &UpsDeed<'_>,
    ) -> Result<Text, ToolFailure>
        ensures { Goes (does_until ups.now deed.now Ended) Prints result
            (point S.remaining S.taken S.has_ended self.old.unread stream.old)
            (point S.remaining S.taken S.has_ended self.new.unread stream.new) }
    {
        self.done(stream, &Request::SetTracking { on: true })?;
        let number = self.number(stream, &deed_query(ups, deed))?;
        self.wait_for(rt, stream, number)?;
        line_text(self.alloc, b"SUCCESS")
    }

    /// Waits until the request of this number has succeeded.
    fn wait_for<S: Stream>(
        &mut self,
        rt: &impl Clock,
        stream: &mut S,
        number: u32,
    ) -> Result<(), ToolFailure>
        ensures { Goes (waits number) (λ _. Prints (line (codes "SUCCESS" ∷ []))) result
            (point S.remaining S.taken S.has_ended self.old.unread stream.old)
            (point S.remaining S.taken S.has_ended self.new.unread stream.new) }
    {
        for _ in 0..PAUSES_MAX {
            if self.has_succeeded(stream, number)? {
                return Ok(());
            }
            thread::sleep(rt, Duration::from_secs(PAUSE));
        }
        if self.has_succeeded(stream, number)? {
            Ok(())
        } else {
            Err(ToolFailure::Unconfirmed(TrackingStatus::Pending))
        }
    }

    /// Asks whether the request of this number has succeeded. If not, it is pending.
    fn has_succeeded<S: Stream>(&mut self, stream: &mut S, number: u32) -> Result<bool, ToolFailure>
        ensures { (pending : Script) → Goes (asks_status number pending)
            (λ done. if done then Prints (line (codes "SUCCESS" ∷ [])) else pending) result
            (point S.remaining S.taken S.has_ended self.old.unread stream.old)
            (point S.remaining S.taken S.has_ended self.new.unread stream.new) }
    {
        let words = self.words(stream, &Request::GetTrackingOf { number })?;
        match tracking_status(words.get(0)) {
            Some(TrackingStatus::Success) => Ok(true),
            Some(TrackingStatus::Pending) => Ok(false),
            Some(TrackingStatus::Failed) => Err(ToolFailure::Unconfirmed(TrackingStatus::Failed)),
            Some(TrackingStatus::Unknown) => Err(ToolFailure::Unconfirmed(TrackingStatus::Unknown)),
            None => Err(ToolFailure::BadAnswer),
        }
    }
}

//! Handles the lines of clients: decides on each, queues its answer and applies its effect.

ghost use Rattle.std.specs.Prelude.{◌≡◌, ◌<◌, ℕ, Some, Ok, Err, true, false, IfErr, IsTrue, MatchOption, MatchResult, OnOk, OnErr, length, slice_get};
ghost use Rattle.nut_proto.specs.PlainQueries.{HasFront, request_of, ups_of};
ghost use Rattle.nut_words.specs.Cutter.{line_of};
ghost use Rattle.nut_words.specs.Reader.{with_backslash};
ghost use Rattle.nut_words.specs.declared.words.WordFault.TheVariants.{Memory};
ghost use Rattle.nut_server_spec.specs.Acceptance.{line_feeds, session_of};
ghost use Rattle.nut_server_spec.specs.Answer.{answer};
ghost use Rattle.nut_server_spec.specs.Command.{Asks, asked, command_in, command_of};
ghost use Rattle.nut_server_spec.specs.Configuration.{number_of_ups};
ghost use Rattle.nut_server_spec.specs.Content.{Session};
ghost use Rattle.nut_server_spec.specs.machine.Machine.{answer_in, bytes_heard, caller_of, scene_of};
ghost use Rattle.nut_server_spec.specs.Outcome.{is_blank, line_takes};
ghost use Rattle.nut_server_spec.specs.machine.MachineOutcome.{content_lost, RunsOut};
ghost use Rattle.nut_server.specs.inside.Effects.{HasShortNames, answered_by};
ghost use Rattle.nut_server.specs.inside.Lines.{IsHeard, IsMissed, line_heard_by};
ghost use Rattle.nut_server.specs.inside.Place.{Stands};

use crate::decision::{Decision, decide};
use crate::deeds::note;
use crate::effect::Effect;
use crate::plain::{kept_end, write_answer};
use crate::scene::Scene;
use crate::server::Parts;
use crate::text::put_answer;
use nut_proto::{PlainQuery, Refusal, Request, read};
use nut_words::{HearLine, Line, WordFault, Words, first_line, hear_lines, split};
use std::alloc::{AllocError, Global};

impl Parts {
    /// Answers a request of the connection at this place, or refuses a line that isn't one, and applies what was
    /// decided. If memory cannot be allocated, nothing changes.
    fn hear_request(
        &mut self,
        at: usize,
        request: &Result<Request<'_>, Refusal>,
    ) -> Result<(), AllocError>
        requires within { at < length self.old.sessions }
        requires short { HasShortNames (asked request.now) }
        ensures ok { (c : ℕ) (k : Session) → Stands c self.old.sessions at → slice_get self.old.sessions at ≡ Some k
            → OnOk result (self.new ≡ answered_by c (asked request.now)
            (answer (scene_of self.old) (caller_of k) (asked request.now)) self.old) }
        ensures err { OnErr result (self.new ≡ self.old) }
    {
        self.scratch.clear();
        let scene = Scene {
            config: &self.config,
            numbers: self.numbers.as_slice(),
            clock: self.clock,
            given: self.given,
            devices: self.devices.as_slice(),
            connections: &self.connections,
            likely: self.likely,
        };
        let Decision { answer, effect } = decide(
            &scene,
            self.connections.at(at),
            request,
            &mut self.line,
        );
        let is_denied = answer.is_denial();
        put_answer(&mut self.scratch, &answer)?;
        self.connections
            .answer(at, self.scratch.as_slice(), &[], &effect)?;
        effect.act(&mut self.devices, self.line.as_slice());
        self.given = effect.given_after(self.given);
        note(
            &mut self.deed,
            self.connections.at(at),
            &effect,
            self.line.as_slice(),
            is_denied,
        );
        Ok(())
    }

    /// Handles the words of a line of the connection at this place, whose client hasn't logged out. If memory cannot be
    /// allocated, nothing changes.
    fn hear_words(&mut self, at: usize, words: &Words<'_>) -> Result<(), AllocError>
        requires { at < length self.old.sessions }
        ensures ok { (c : ℕ) (k : Session) → Stands c self.old.sessions at → slice_get self.old.sessions at ≡ Some k
            → k.logged_out ≡ false → OnOk result (self.new ≡ answered_by c (command_in (Ok words.now))
            (answer_in self.old (command_in (Ok words.now)) k) self.old) }
        ensures err { OnErr result (self.new ≡ self.old) }
        ensures memory { OnErr result (is_blank (command_in (Ok words.now)) ≡ false) }
    {
        if words.is_empty() {
            return Ok(());
        }
        self.hear_request(at, &read(words))
    }

    /// Answers `GET VAR` of the connection at this place, if the value is kept as it is shown: it goes from the table straight
    /// into the queue. The UPS was found at this place of ups.conf, if there is one. Returns whether it answered; otherwise
    /// nothing changes.
    fn hear_kept(
        &mut self,
        at: usize,
        place: Option<usize>,
        query: PlainQuery<'_>,
    ) -> Result<bool, AllocError>
        requires within { at < length self.old.sessions }
        requires front { HasFront query }
        requires found { place ≡ number_of_ups (ups_of query) self.old.configuration.upses }
        ensures ok { (c : ℕ) (k : Session) → Stands c self.old.sessions at → slice_get self.old.sessions at ≡ Some k
            → result ≡ Ok true → self.new ≡ answered_by c (Asks (request_of query.entry))
            (answer (scene_of self.old) (caller_of k) (Asks (request_of query.entry))) self.old }
        ensures other { result ≡ Ok false → self.new ≡ self.old }
        ensures err { OnErr result (self.new ≡ self.old) }
    {
        let PlainQuery::GetVar {
            front,
            variable,
            ..
        } = query
        else {
            return Ok(false);
        };
        let scene = Scene {
            config: &self.config,
            numbers: self.numbers.as_slice(),
            clock: self.clock,
            given: self.given,
            devices: self.devices.as_slice(),
            connections: &self.connections,
            likely: self.likely,
        };
        let Some(u) = scene.number_with_data(place) else {
            return Ok(false);
        };
        let Some(device) = self.devices.get(u) else {
            return Ok(false);
        };
        let Some(end) = kept_end(device, &mut self.likely_variable, variable) else {
            return Ok(false);
        };
        self.connections.answer(at, front, end, &Effect::Nothing)?;
        Ok(true)
    }

    /// Answers a query of the connection at this place. The UPS that it asks about was found at this place of ups.conf, if there
    /// is one. If memory cannot be allocated, nothing changes.
    fn answer_query(
        &mut self,
        at: usize,
        place: Option<usize>,
        query: PlainQuery<'_>,
    ) -> Result<(), AllocError>
        requires within { at < length self.old.sessions }
        requires found { place ≡ number_of_ups (ups_of query) self.old.configuration.upses }
        ensures ok { (c : ℕ) (k : Session) → Stands c self.old.sessions at → slice_get self.old.sessions at ≡ Some k
            → OnOk result (self.new ≡ answered_by c (Asks (request_of query.entry))
            (answer (scene_of self.old) (caller_of k) (Asks (request_of query.entry))) self.old) }
        ensures err { OnErr result (self.new ≡ self.old) }
    {
        let scene = Scene {
            config: &self.config,
            numbers: self.numbers.as_slice(),
            clock: self.clock,
            given: self.given,
            devices: self.devices.as_slice(),
            connections: &self.connections,
            likely: self.likely,
        };
        write_answer(&mut self.scratch, &scene, place, query)?;
        self.connections
            .answer(at, self.scratch.as_slice(), &[], &Effect::Nothing)?;
        Ok(())
    }

    /// Answers a query of the connection at this place. If memory cannot be allocated, nothing changes.
    fn hear_query(&mut self, at: usize, query: PlainQuery<'_>) -> Result<(), AllocError>
        requires within { at < length self.old.sessions }
        requires front { HasFront query }
        ensures ok { (c : ℕ) (k : Session) → Stands c self.old.sessions at → slice_get self.old.sessions at ≡ Some k
            → OnOk result (self.new ≡ answered_by c (Asks (request_of query.entry))
            (answer (scene_of self.old) (caller_of k) (Asks (request_of query.entry))) self.old) }
        ensures err { OnErr result (self.new ≡ self.old) }
    {
        let place = self.config.find_likely_ups(self.likely, query.ups());
        self.likely = place.unwrap_or(0);
        if self.hear_kept(at, place, query)? {
            return Ok(());
        }
        self.answer_query(at, place, query)
    }

    /// Handles a line of the connection at this place. It gets no answer if the client has logged out. If memory cannot
    /// be allocated, nothing changes.
    fn hear_line(&mut self, at: usize, line: Line<'_>) -> Result<(), AllocError>
        requires { at < length self.old.sessions }
        ensures ok { (c : ℕ) (k : Session) → Stands c self.old.sessions at → slice_get self.old.sessions at ≡ Some k
            → OnOk result (self.new ≡ answered_by c (command_of (line_of line.entry))
            (answer_in self.old (command_of (line_of line.entry)) k) self.old) }
        ensures err { OnErr result (self.new ≡ self.old) }
        ensures memory { (k : Session) → slice_get self.old.sessions at ≡ Some k
            → OnErr result (IsTrue (line_takes (line_of line.entry) (Some k))) }
    {
        if self.connections.at(at).has_logged_out() {
            return Ok(());
        }
        match &words_of(self.alloc, line) {
            Ok(words) => self.hear_words(at, words),
            Err(WordFault::Memory) => Err(AllocError),
            Err(
                WordFault::BadByte
                | WordFault::OpenQuote
                | WordFault::LoneBackslash
                | WordFault::QuoteInWord
                | WordFault::AfterQuote
                | WordFault::TooManyWords,
            ) => self.hear_request(at, &Err(Refusal::InvalidArgument)),
        }
    }
}

impl Parts {
    /// Handles the first line of these bytes of the connection at this place, if the line is whole and begins there.
    /// Returns the bytes behind it. Returns `None` otherwise. If memory cannot be allocated, nothing changes.
    ///
    /// There are two ways to an answer. A plain line is read and answered at once; any other line becomes words, a request
    /// and a decision.
    fn hear_first<'p>(&mut self, at: usize, bytes: &'p [u8]) -> Result<Option<&'p [u8]>, AllocError>
        requires { at < length self.old.sessions }
        ensures ok { (c : ℕ) (k : Session) → Stands c self.old.sessions at → slice_get self.old.sessions at ≡ Some k
            → MatchResult result
            (λ heard. MatchOption heard (self.new ≡ self.old) (λ after. IsHeard c k bytes.now after.now self.old self.new))
            (λ _. IsMissed k bytes.now self.old self.new) }
    {
        let client = self.connections.at(at);
        if !client.is_at_start() {
            return Ok(None);
        }
        if !client.has_logged_out()
            && let Some((query, after)) = self.reader.read(bytes)
        {
            self.hear_query(at, query)?;
            return Ok(Some(after));
        }
        let Some((text, after)) = first_line(bytes) else {
            return Ok(None);
        };
        self.hear_line(at, Line::Text(text))?;
        Ok(Some(after))
    }

    /// Handles a piece of the connection with this number, at this place. If memory runs out, returns as an error how
    /// many lines of the piece were done; the connection is then closed.
    pub(super) fn hear(&mut self, c: u64, at: usize, piece: &[u8]) -> Result<(), usize>
        requires { Stands c self.old.sessions at }
        ensures ok { OnOk result (self.new ≡ bytes_heard c piece.now self.old) }
        ensures lost { IfErr result (λ done. self.new ≡ content_lost c piece.now done self.old) }
        ensures few { IfErr result (λ done. done < line_feeds piece.now) }
        ensures memory { IfErr result (λ done. RunsOut c piece.now done self.old) }
    {
        let mut left = piece;
        let mut done = 0;
        while !left.is_empty() {
            let Ok(heard) = self.hear_first(at, left) else {
                self.connections.remove(c);
                return Err(done);
            };
            let Some(after) = heard else {
                return match self.hear_lines(c, at, left) {
                    Ok(()) => Ok(()),
                    Err(more) => Err(done + more),
                };
            };
            left = after;
            done += 1;
        }
        Ok(())
    }

    /// Handles a piece line by line, as [`hear`](Self::hear) promises: also the end of the line that was kept, and the beginning of the one to keep.
    fn hear_lines(&mut self, c: u64, at: usize, piece: &[u8]) -> Result<(), usize>
        requires { Stands c self.old.sessions at }
        ensures ok { OnOk result (self.new ≡ bytes_heard c piece.now self.old) }
        ensures lost { IfErr result (λ done. self.new ≡ content_lost c piece.now done self.old) }
        ensures few { IfErr result (λ done. done < line_feeds piece.now) }
        ensures memory { IfErr result (λ done. RunsOut c piece.now done self.old) }
    {
        let mut cutter = self.connections.take_cutter(at);
        let mut hearer = Hearer {
            server: self,
            c,
            at,
        };
        let (done, heard) = hear_lines(&mut cutter, &mut hearer, (), piece);
        match heard {
            Ok(()) => {
                self.connections.put_cutter(at, cutter);
                Ok(())
            }
            Err(_) => {
                self.connections.remove(c);
                Err(done)
            }
        }
    }
}

/// What hears the lines of a connection: the server, with the connection's number and place. It is private, so that no
/// line reaches the server but by an arrival.
#[derive(Drop)]
struct Hearer<'a> {
    server: &'a mut Parts,
    c: u64,
    at: usize,
}

/// Answers the lines of the connection, whose cutter was moved out. If memory cannot be allocated for one,
/// nothing changes.
impl HearLine for Hearer<'_> {
    type With = ();

    type Stop = AllocError;

    ghost heard = { λ _. line_heard_by };

    ghost GoesOn = { λ h. Stands h.c h.server.now.sessions h.at };

    ghost Stops = { λ _ line before _ after. (after ≡ before)
        × IsTrue (line_takes line (session_of before.c before.server.now.sessions)) };

    fn hear_line(&mut self, _with: (), line: Line<'_>) -> Result<(), AllocError> {
        self.server.hear_line(self.at, line)
    }
}

/// Returns the words of a line, or why it has none: `TooManyWords` if it is longer than a line may be.
fn words_of<'a>(alloc: Global, line: Line<'a>) -> Result<Words<'a>, WordFault>
    ensures command { (result ≡ Err Memory → ⊥) → command_in result ≡ command_of (line_of line.entry) }
    ensures memory { result ≡ Err Memory → IsTrue (with_backslash (line_of line.entry)) }
{
    match line {
        Line::Text(text) => split(alloc, text),
        Line::TooLong => Err(WordFault::TooManyWords),
    }
}

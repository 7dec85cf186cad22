//! The fleet.

ghost use Rattle.std.specs.Prelude.{◌≡◌, ◌++◌, ◌∷◌, ◌<◌, true, false, List, [], length, map, IfOk, IfErr, Err, OnOk, OnErr, IsTrue, slice_get};
ghost use Rattle.std.specs.Option.{option_map};
ghost use Rattle.nut_server.specs.Arrival.{event_of};
ghost use Rattle.nut_monitor.specs.Events.{event_of as told_as};
ghost use Rattle.nut_fleet.specs.Log.{logged};
ghost use Rattle.nut_fleet.specs.Seen.{deed_by};
ghost use Rattle.nut_play.specs.Kept.{fleet_of, links_in, fresh_seat, fresh_fleet};
ghost use Rattle.nut_play.specs.machine.Next.{is_played, tell_by, inform_by, reach_by, back_by, out_by, land_by, link_by, told_news, told_to, with_seat, hear_seat, out_seat, land_seat, known_of, link_of, open_by, linked_by, fits, fits_link, next, said, reach_next, back_next, join_next};
ghost use Rattle.nut_play.specs.machine.Lacking.{ServerLacks, MonitorLacks, SendLacks, StepLacks, back_grows};
ghost use Rattle.nut_play.specs.Steps.{step_of, steps_of, logged_of};
ghost use Rattle.nut_play.specs.machine.Play.{told_at, LacksAt, IsLog, IsFault, IsFaultAt};
ghost use Rattle.nut_play.specs.Room.{setup_of, HasPlayed, WerePlayed, IsFaultOf, RoomHolds};
ghost use Rattle.nut_fleet.specs.World.{Setup};
ghost use Rattle.nut_fleet.specs.Schedule as S;
ghost use Rattle.nut_play.specs.declared.types.FleetFault.TheVariants.{Failed, Memory};

use crate::laws::rooms_hold;
use crate::link::Place;
use crate::seat::Seat;
use crate::telling::{note, tell};
use crate::types::{FleetFault, FleetLog, Lack, Logged, News, Step};
use arrayvec::ArrayVec;
use nut_conf::MonConfig;
use nut_fleet::{configurations_are_spoken, fleets_go_on};
use nut_monitor::Event;
use nut_server::{Arrival, Config, Server};
use nut_words::PIECE_MAX;
use std::alloc::Global;
use std::marker::Model;

/// A server and its monitors, with their links.
pub struct Fleet {
    server: Server,
    seats: Vec<Seat>,
    failed: bool,
    alloc: Global,
}

// A derived drop would be proved again in each crate that drops a value, with those of its parts.
impl Drop for Fleet {
    fn drop(self) {
        let Fleet {
            server: _server,
            seats: _seats,
            failed: _,
            alloc: _,
        } = self;
    }
}

impl Model for Fleet {
    ghost use Rattle.nut_play.specs.Kept as kept;

    ghost Value = { kept.Kept };

    ghost view = { λ f. record { server = f.server; seats = f.seats.items; failed = f.failed } };
}

impl Fleet {
    /// Makes a fleet of which no step was played yet.
    ///
    /// # Errors
    ///
    /// `Memory(0)` if memory cannot be allocated.
    pub fn new(alloc: Global, config: Config, monitors: Vec<MonConfig>) -> Result<Fleet, FleetFault>
        ensures made { IfOk result (λ fleet. fleet ≡ fresh_fleet config monitors.items) }
        ensures world { IfOk result (λ fleet. HasPlayed (setup_of config monitors.items) [] fleet) }
        ensures fault { IfErr result (λ fault. fault ≡ Memory 0) }
    {
        match Server::new(alloc, config) {
            Ok(server) => with_server(alloc, server, monitors),
            Err(_) => {
                // dropped by a call, which keeps the proof of this function short
                drop(monitors);
                Err(FleetFault::Memory(0))
            }
        }
    }

    /// Returns the configuration that a monitor was made with; `None` for an unknown monitor.
    pub fn config(&self, m: usize) -> Option<&MonConfig>
        ensures { option_map (λ c. c.now) result ≡ option_map (λ seat. seat.monitor.config) (slice_get self.now.seats m) }
    {
        if m >= self.seats.len() {
            return None;
        }
        Some(self.seats[m].monitor.config())
    }

    /// Passes an event to the server. Returns whether it was accepted.
    fn serve(&mut self, arrival: Arrival<'_>) -> Result<bool, Lack>
        ensures played { IfOk result (λ played. played ≡ is_played (tell_by self.old.server (event_of arrival.entry))) }
        ensures fleet { OnOk result (self.new ≡ told_to self.old (event_of arrival.entry)) }
        ensures lack { OnErr result (ServerLacks self.old.server (tell_by self.old.server (event_of arrival.entry))) }
    {
        tell(&mut self.server, arrival)
    }

    /// Passes an event to a monitor, and logs what it reports. Returns whether it was accepted.
    fn hear(
        &mut self,
        m: usize,
        event: Event<'_>,
        step: usize,
        log: &mut Vec<Logged>,
    ) -> Result<bool, Lack>
        requires within { m < length self.old.seats }
        ensures played { IfOk result (λ played. played ≡ is_played (inform_by m (known_of self.old m) (told_as event.entry))) }
        ensures fleet { OnOk result (self.new ≡ with_seat self.old m (hear_seat m (told_as event.entry))) }
        ensures log { OnOk result (map logged_of log.new.items
            ≡ map logged_of log.old.items ++ logged step (told_news (inform_by m (known_of self.old m) (told_as event.entry)) (known_of self.old m))) }
        ensures lack { OnErr result (MonitorLacks m (known_of self.old m) (inform_by m (known_of self.old m) (told_as event.entry))) }
    {
        self.seats[m].hear(m, event, step, log)
    }

    /// Moves bytes of a link from its pipe to the server. Returns whether the step was played.
    fn reach(&mut self, m: usize, i: usize, n: usize) -> Result<bool, Lack>
        requires within { m < length self.old.seats }
        requires there { i < length (links_in (slice_get self.old.seats m)) }
        ensures played { IfOk result (λ played. played ≡ is_played (reach_by self.old.server (link_of self.old m i) n)) }
        ensures fleet { OnOk result (self.new ≡ reach_next self.old m i n) }
        ensures lack { OnErr result (ServerLacks self.old.server (reach_by self.old.server (link_of self.old m i) n)) }
    {
        self.seats[m].reach(&mut self.server, i, n)
    }

    /// Moves bytes from the server into the pipe of a link. Returns whether the step was played.
    fn back(&mut self, m: usize, i: usize, n: usize) -> Result<bool, Lack>
        requires within { m < length self.old.seats }
        requires there { i < length (links_in (slice_get self.old.seats m)) }
        ensures played { IfOk result (λ played. played ≡ is_played (back_by self.old.server (link_of self.old m i) n)) }
        ensures fleet { OnOk result (self.new ≡ back_next self.old m i n) }
        ensures lack { OnErr result (IsTrue (back_grows (linked_by (known_of self.old m) i) (back_by self.old.server (link_of self.old m i) n))) }
    {
        self.seats[m].back(&mut self.server, i, n)
    }

    /// Moves bytes from a monitor into the pipe of a link. Returns whether the step was played.
    fn send(&mut self, place: Place, n: usize, log: &mut Vec<Logged>) -> Result<bool, Lack>
        requires within { place.monitor < length self.old.seats }
        requires there { place.link < length (links_in (slice_get self.old.seats place.monitor)) }
        ensures played { IfOk result (λ played. played ≡ is_played (out_by place.monitor (known_of self.old place.monitor) place.link n)) }
        ensures fleet { OnOk result (self.new ≡ with_seat self.old place.monitor (out_seat self.old.server place.monitor place.link n)) }
        ensures log { OnOk result (map logged_of log.new.items
            ≡ map logged_of log.old.items ++ logged place.step (told_news (out_by place.monitor (known_of self.old place.monitor) place.link n) (known_of self.old place.monitor))) }
        ensures lack { OnErr result (SendLacks (open_by self.old.server (link_of self.old place.monitor place.link)) place.monitor
            (known_of self.old place.monitor) (out_by place.monitor (known_of self.old place.monitor) place.link n)) }
    {
        self.seats[place.monitor].send(&self.server, place, n, log)
    }

    /// Moves bytes of a link from its pipe to the monitor. Returns whether the step was played.
    fn land(&mut self, place: Place, n: usize, log: &mut Vec<Logged>) -> Result<bool, Lack>
        requires within { place.monitor < length self.old.seats }
        requires there { place.link < length (links_in (slice_get self.old.seats place.monitor)) }
        ensures played { IfOk result (λ played. played ≡ is_played (land_by place.monitor (known_of self.old place.monitor) place.link (link_of self.old place.monitor place.link) n)) }
        ensures fleet { OnOk result (self.new ≡ with_seat self.old place.monitor (land_seat place.monitor place.link n)) }
        ensures log { OnOk result (map logged_of log.new.items
            ≡ map logged_of log.old.items ++ logged place.step (told_news (land_by place.monitor (known_of self.old place.monitor) place.link (link_of self.old place.monitor place.link) n) (known_of self.old place.monitor))) }
        ensures lack { OnErr result (MonitorLacks place.monitor (known_of self.old place.monitor)
            (land_by place.monitor (known_of self.old place.monitor) place.link (link_of self.old place.monitor place.link) n)) }
    {
        self.seats[place.monitor].land(place, n, log)
    }

    /// Makes a link. Returns whether the step was played.
    fn join(&mut self, place: Place, log: &mut Vec<Logged>) -> Result<bool, Lack>
        requires within { place.monitor < length self.old.seats }
        requires there { place.link < length (links_in (slice_get self.old.seats place.monitor)) }
        requires watched { place.link < length (known_of self.old place.monitor).watches }
        ensures played { IfOk result (λ played. played ≡ is_played (link_by place.monitor self.old.server (known_of self.old place.monitor) place.link (link_of self.old place.monitor place.link))) }
        ensures fleet { OnOk result (self.new ≡ join_next self.old place.monitor place.link) }
        ensures log { OnOk result (map logged_of log.new.items
            ≡ map logged_of log.old.items ++ logged place.step (told_news (link_by place.monitor self.old.server (known_of self.old place.monitor) place.link (link_of self.old place.monitor place.link)) (known_of self.old place.monitor))) }
        ensures lack { OnErr result (0 < length (told_news (link_by place.monitor self.old.server (known_of self.old place.monitor) place.link (link_of self.old place.monitor place.link)) (known_of self.old place.monitor))) }
    {
        self.seats[place.monitor].join(&mut self.server, place, log)
    }

    /// Returns the number of a link's last connection, 0 if it was never made.
    fn connection(&self, m: usize, i: usize) -> u64
        requires within { m < length self.now.seats }
        requires there { i < length (links_in (slice_get self.now.seats m)) }
        ensures { result ≡ (link_of self.now m i).connection }
    {
        let seat = &self.seats[m];
        seat.links[i].connection
    }

    /// Plays one step, and logs what its monitor reports. Returns whether the step was played; if not, it is
    /// skipped.
    fn step(&mut self, step: &Step, k: usize, log: &mut Vec<Logged>) -> Result<bool, Lack>
        requires fit { fits self.old (step_of step.now) ≡ true }
        ensures played { IfOk result (λ played. played ≡ is_played (deed_by (fleet_of self.old) (step_of step.now))) }
        ensures fleet { OnOk result (self.new ≡ next self.old (step_of step.now)) }
        ensures log { OnOk result (map logged_of log.new.items ≡ map logged_of log.old.items ++ logged k (said self.old (step_of step.now))) }
        ensures lack { OnErr result (StepLacks self.old (step_of step.now)) }
    {
        match step {
            Step::ServerClock(t) => self.serve(Arrival::Moment(*t)),
            Step::MonitorClock(m, t) => self.hear(*m, Event::Moment(*t), k, log),
            Step::Up(u) => self.serve(Arrival::DriverUp(*u)),
            Step::Driver(u, line) => {
                let piece = with_feed(line.as_slice());
                self.serve(Arrival::DriverBytes(*u, piece.as_slice()))
            }
            Step::Down(u) => self.serve(Arrival::DriverDown(*u)),
            Step::Link(m, i) => self.join(place(*m, *i, k), log),
            Step::Out(m, i, n) => self.send(place(*m, *i, k), *n, log),
            Step::Reach(m, i, n) => self.reach(*m, *i, *n),
            Step::Back(m, i, n) => self.back(*m, *i, *n),
            Step::Land(m, i, n) => self.land(place(*m, *i, k), *n, log),
            Step::CutServer(m, i) => {
                let connection = self.connection(*m, *i);
                self.serve(Arrival::Close(connection))
            }
            Step::CutMonitor(m, i) => self.hear(*m, Event::LinkLost(*i), k, log),
        }
    }

    /// Whether there is such a link.
    fn has_link(&self, m: usize, i: usize) -> bool
        ensures { result ≡ fits_link self.now m i }
    {
        if m >= self.seats.len() {
            return false;
        }
        let seat = &self.seats[m];
        i < seat.links.len() && i < seat.monitor.lines()
    }

    /// Whether what a step names exists, and its line isn't too long.
    fn is_fit(&self, step: &Step) -> bool
        ensures { result ≡ fits self.now (step_of step.now) }
    {
        match step {
            Step::ServerClock(_) => true,
            Step::MonitorClock(m, _) => *m < self.seats.len(),
            Step::Up(u) | Step::Down(u) => *u < self.server.number_of_upses(),
            Step::Driver(u, line) => *u < self.server.number_of_upses() && line.len() < PIECE_MAX,
            Step::Link(m, i)
            | Step::Out(m, i, _)
            | Step::Reach(m, i, _)
            | Step::Back(m, i, _)
            | Step::Land(m, i, _)
            | Step::CutServer(m, i)
            | Step::CutMonitor(m, i) => self.has_link(*m, *i),
        }
    }

    /// Plays one step and logs its news, also that it was skipped.
    fn play_one(&mut self, step: &Step, k: usize, log: &mut Vec<Logged>) -> Result<(), Lack>
        requires fit { fits self.old (step_of step.now) ≡ true }
        ensures fleet { OnOk result (self.new ≡ next self.old (step_of step.now)) }
        ensures log { OnOk result (map logged_of log.new.items ≡ map logged_of log.old.items ++ logged k (told_at self.old (step_of step.now))) }
        ensures lack { OnErr result (LacksAt self.old (step_of step.now)) }
    {
        if self.step(step, k, log)? {
            return Ok(());
        }
        note(log, k, News::Skipped)
    }

    /// Plays the next step of a call, which has this number there, if it fits.
    fn play_next(&mut self, step: &Step, at: usize, log: &mut FleetLog) -> Result<(), FleetFault>
        ensures fit { OnOk result (fits self.old (step_of step.now) ≡ true) }
        ensures fleet { OnOk result (self.new ≡ next self.old (step_of step.now)) }
        ensures log { OnOk result (map logged_of log.new.items ≡ map logged_of log.old.items ++ logged at (told_at self.old (step_of step.now))) }
        ensures fault { IfErr result (λ fault. IsFaultAt self.old (step_of step.now) at fault self.new) }
    {
        if !self.is_fit(step) {
            return Err(FleetFault::BadStep(at));
        }
        if self.play_one(step, at, log).is_err() {
            self.failed = true;
            return Err(FleetFault::Memory(at));
        }
        Ok(())
    }

    /// Plays the steps of a call in order, up to the first that doesn't fit, and logs their news.
    fn play_all(&mut self, schedule: &[Step], log: &mut FleetLog) -> Result<(), FleetFault>
        requires { log.old.items ≡ [] }
        ensures played { OnOk result (IsLog self.old (map step_of schedule.now) (map logged_of log.new.items) self.new) }
        ensures fault { IfErr result (λ fault. IsFault self.old (map step_of schedule.now) fault self.new) }
    {
        for k in 0..schedule.len() {
            match self.play_next(&schedule[k], k + 1, log) {
                Ok(()) => {}
                Err(fault) => return Err(fault),
            }
        }
        Ok(())
    }

    /// Plays the steps in order, up to the first that doesn't fit.
    fn run(&mut self, schedule: &[Step]) -> Result<FleetLog, FleetFault>
        ensures failed { self.old.failed ≡ true → (result ≡ Err Failed) × (self.new ≡ self.old) }
        ensures played { self.old.failed ≡ false → IfOk result (λ log. IsLog self.old (map step_of schedule.now) (map logged_of log.items) self.new) }
        ensures fault { self.old.failed ≡ false → IfErr result (λ fault. IsFault self.old (map step_of schedule.now) fault self.new) }
    {
        if self.failed {
            return Err(FleetFault::Failed);
        }
        let mut log = Vec::new(self.alloc);
        match self.play_all(schedule, &mut log) {
            Ok(()) => Ok(log),
            Err(fault) => {
                // dropped by a call, which keeps the proof of this function short
                drop(log);
                Err(fault)
            }
        }
    }

    /// Plays the steps in order. Returns their news, in which the steps of this call are numbered from 1.
    ///
    /// Whatever was played before, the fleet is then that of the world to which the whole schedule leads. What holds of
    /// every world holds of it, see [`rooms_hold`](crate::rooms_hold).
    ///
    /// # Errors
    ///
    /// `BadStep` if a step names what doesn't exist or has a line that is too long; the steps before it took effect.
    /// Their news is lost: a caller that needs it plays one step at a time. `Memory` if memory cannot be allocated.
    /// That can happen where the server or a monitor may need some for a line, where bytes come into a pipe, and where
    /// there is news. The fleet has then failed: nothing is claimed of it, and every later call returns `Failed`.
    pub fn play(&mut self, schedule: &[Step]) -> Result<FleetLog, FleetFault>
        ensures failed { self.old.failed ≡ true → (result ≡ Err Failed) × (self.new ≡ self.old) }
        ensures played { (setup : Setup) (before : List S.Step) → HasPlayed setup before self.old
            → IfOk result (λ log. WerePlayed setup before (steps_of schedule.now) (map logged_of log.items) self.new) }
        ensures fault { (setup : Setup) (before : List S.Step) → HasPlayed setup before self.old
            → IfErr result (λ fault. IsFaultOf setup before schedule.now fault self.new) }
        ensures holds { (setup : Setup) (before : List S.Step) → HasPlayed setup before self.old
            → OnOk result (RoomHolds setup (steps_of schedule.now ++ before)) }
    {
        fleets_go_on();
        configurations_are_spoken();
        rooms_hold();
        self.run(schedule)
    }
}

/// Makes a fleet of this server and of these monitors, which are new.
fn with_server(alloc: Global, server: Server, monitors: Vec<MonConfig>) -> Result<Fleet, FleetFault>
    ensures made { IfOk result (λ fleet. fleet ≡ record { server = server; seats = map fresh_seat monitors.items; failed = false }) }
    ensures fault { IfErr result (λ fault. fault ≡ Memory 0) }
{
    match seats_of(alloc, monitors) {
        Ok(seats) => Ok(with_seats(alloc, server, seats)),
        Err(Lack) => {
            // dropped by a call, which keeps the proof of this function short
            drop(server);
            Err(FleetFault::Memory(0))
        }
    }
}

/// Returns the fleet of this server and these seats, which hasn't failed.
fn with_seats(alloc: Global, server: Server, seats: Vec<Seat>) -> Fleet
    ensures { result ≡ record { server = server; seats = seats.items; failed = false } }
{
    Fleet {
        server,
        seats,
        failed: false,
        alloc,
    }
}

/// Makes the seats of these monitors, which are new.
fn seats_of(alloc: Global, monitors: Vec<MonConfig>) -> Result<Vec<Seat>, Lack>
    ensures { IfOk result (λ seats. seats.items ≡ map fresh_seat monitors.items) }
{
    let mut seats = Vec::new(alloc);
    for config in monitors {
        let seat = Seat::new(alloc, config)?;
        put_seat(&mut seats, seat)?;
    }
    Ok(seats)
}

/// Appends a seat.
fn put_seat(seats: &mut Vec<Seat>, seat: Seat) -> Result<(), Lack>
    ensures { OnOk result (seats.new.items ≡ seats.old.items ++ seat ∷ []) }
{
    match seats.push(seat) {
        Ok(()) => Ok(()),
        Err(_) => Err(Lack),
    }
}

/// Returns a link of a monitor at a step.
fn place(monitor: usize, link: usize, step: usize) -> Place
    ensures { result ≡ record { monitor = monitor; link = link; step = step } }
{
    Place {
        monitor,
        link,
        step,
    }
}

/// Returns a driver's line with its line feed.
fn with_feed(line: &[u8]) -> ArrayVec<u8, PIECE_MAX>
    requires fit { length line.now < PIECE_MAX }
    ensures { result.items ≡ line.now ++ 10 ∷ [] }
{
    let mut piece = ArrayVec::new();
    piece.try_extend_from_slice(line).unwrap();
    piece.try_extend_from_slice(b"\n").unwrap();
    piece
}

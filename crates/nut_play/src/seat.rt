//! A monitor with its links.

ghost use Rattle.std.specs.Prelude.{◌≡◌, ◌++◌, ◌<◌, IfOk, OnOk, OnErr, IsTrue, map, length};
ghost use Rattle.nut_fleet.specs.Log.{logged};
ghost use Rattle.nut_monitor.specs.Events.{event_of as told_as};
ghost use Rattle.nut_play.specs.machine.Next.{is_played, inform_by, reach_by, back_by, out_by, land_by, link_by, open_by, linked_by, told_by, told_news, hear_seat, reach_seat, back_seat, out_seat, land_seat, join_seat};
ghost use Rattle.nut_play.specs.machine.Lacking.{ServerLacks, MonitorLacks, SendLacks, back_grows};
ghost use Rattle.nut_play.specs.Kept.{ends_at, no_ends, fresh_seat};
ghost use Rattle.nut_play.specs.Steps.{logged_of};

use crate::link::{Link, Place};
use crate::telling::inform;
use crate::types::{Lack, Logged};
use nut_conf::{MonConfig, Monitored};
use nut_monitor::{Event, Monitor};
use nut_server::Server;
use std::alloc::{AllocError, Global};
use std::marker::Model;

/// A monitor with its links, in the order of its MONITOR lines.
#[derive(Drop)]
pub struct Seat {
    pub monitor: Monitor,
    pub links: Vec<Link>,
}

impl Model for Seat {
    ghost use Rattle.nut_play.specs.Kept as kept;

    ghost Value = { kept.Seat };

    ghost view = { λ s. record { monitor = s.monitor; links = s.links.items } };
}

/// Makes a link that was never connected for each line.
fn unmade(alloc: Global, lines: &[Monitored]) -> Result<Vec<Link>, AllocError>
    ensures { IfOk result (λ links. links.items ≡ map (λ line. no_ends) lines.now) }
{
    let mut links = Vec::new(alloc);
    for _ in lines {
        links.push(Link::new(alloc))?;
    }
    Ok(links)
}

impl Seat {
    /// Makes a new monitor, with links that were never connected.
    pub fn new(alloc: Global, config: MonConfig) -> Result<Seat, Lack>
        ensures { IfOk result (λ seat. seat ≡ fresh_seat config) }
    {
        let monitors = &config.monitors;
        let Ok(links) = unmade(alloc, monitors.lines.as_slice()) else {
            return Err(Lack);
        };
        let Ok(monitor) = Monitor::new(alloc, config) else {
            return Err(Lack);
        };
        Ok(Seat { monitor, links })
    }

    /// Passes an event to the monitor, and logs what it reports. Returns whether it was accepted.
    pub fn hear(
        &mut self,
        m: usize,
        event: Event<'_>,
        step: usize,
        log: &mut Vec<Logged>,
    ) -> Result<bool, Lack>
        ensures played { IfOk result (λ played. played ≡ is_played (inform_by m self.old.monitor.content (told_as event.entry))) }
        ensures seat { OnOk result (self.new ≡ hear_seat m (told_as event.entry) self.old) }
        ensures log { OnOk result (map logged_of log.new.items
            ≡ map logged_of log.old.items ++ logged step (told_news (inform_by m self.old.monitor.content (told_as event.entry)) self.old.monitor.content)) }
        ensures lack { OnErr result (MonitorLacks m self.old.monitor.content (inform_by m self.old.monitor.content (told_as event.entry))) }
    {
        inform(&mut self.monitor, event, m, step, log)
    }

    /// Moves bytes of a link from its pipe to the server. Returns whether the step was played.
    pub fn reach(&mut self, server: &mut Server, i: usize, n: usize) -> Result<bool, Lack>
        requires within { i < length self.old.links }
        ensures played { IfOk result (λ played. played ≡ is_played (reach_by server.old (ends_at self.old.links i) n)) }
        ensures server { OnOk result (server.new ≡ told_by (reach_by server.old (ends_at self.old.links i) n) 0 server.old) }
        ensures seat { OnOk result (self.new ≡ reach_seat server.old i n self.old) }
        ensures lack { OnErr result (ServerLacks server.old (reach_by server.old (ends_at self.old.links i) n)) }
    {
        self.links[i].reach(server, n)
    }

    /// Moves bytes from the server into the pipe of a link. Returns whether the step was played.
    pub fn back(&mut self, server: &mut Server, i: usize, n: usize) -> Result<bool, Lack>
        requires within { i < length self.old.links }
        ensures played { IfOk result (λ played. played ≡ is_played (back_by server.old (ends_at self.old.links i) n)) }
        ensures server { OnOk result (server.new ≡ told_by (back_by server.old (ends_at self.old.links i) n) 0 server.old) }
        ensures seat { OnOk result (self.new ≡ back_seat server.old i n self.old) }
        ensures lack { OnErr result (IsTrue (back_grows (linked_by self.old.monitor.content i) (back_by server.old (ends_at self.old.links i) n))) }
    {
        let linked = self.monitor.linked(i);
        self.links[i].back(server, linked, n)
    }

    /// Moves bytes from the monitor into the pipe of a link. Returns whether the step was played.
    pub fn send(
        &mut self,
        server: &Server,
        place: Place,
        n: usize,
        log: &mut Vec<Logged>,
    ) -> Result<bool, Lack>
        requires within { place.link < length self.old.links }
        ensures played { IfOk result (λ played. played ≡ is_played (out_by place.monitor self.old.monitor.content place.link n)) }
        ensures seat { OnOk result (self.new ≡ out_seat server.now place.monitor place.link n self.old) }
        ensures log { OnOk result (map logged_of log.new.items
            ≡ map logged_of log.old.items ++ logged place.step (told_news (out_by place.monitor self.old.monitor.content place.link n) self.old.monitor.content)) }
        ensures lack { OnErr result (SendLacks (open_by server.now (ends_at self.old.links place.link)) place.monitor self.old.monitor.content
            (out_by place.monitor self.old.monitor.content place.link n)) }
    {
        self.links[place.link].send(server, &mut self.monitor, place, n, log)
    }

    /// Moves bytes of a link from its pipe to the monitor. Returns whether the step was played.
    pub fn land(&mut self, place: Place, n: usize, log: &mut Vec<Logged>) -> Result<bool, Lack>
        requires within { place.link < length self.old.links }
        ensures played { IfOk result (λ played. played ≡ is_played (land_by place.monitor self.old.monitor.content place.link (ends_at self.old.links place.link) n)) }
        ensures seat { OnOk result (self.new ≡ land_seat place.monitor place.link n self.old) }
        ensures log { OnOk result (map logged_of log.new.items
            ≡ map logged_of log.old.items ++ logged place.step (told_news (land_by place.monitor self.old.monitor.content place.link (ends_at self.old.links place.link) n) self.old.monitor.content)) }
        ensures lack { OnErr result (MonitorLacks place.monitor self.old.monitor.content
            (land_by place.monitor self.old.monitor.content place.link (ends_at self.old.links place.link) n)) }
    {
        self.links[place.link].land(&mut self.monitor, place, n, log)
    }

    /// Makes a link. Returns whether the step was played.
    pub fn join(
        &mut self,
        server: &mut Server,
        place: Place,
        log: &mut Vec<Logged>,
    ) -> Result<bool, Lack>
        requires within { place.link < length self.old.links }
        requires there { place.link < length self.old.monitor.content.watches }
        ensures played { IfOk result (λ played. played ≡ is_played (link_by place.monitor server.old self.old.monitor.content place.link (ends_at self.old.links place.link))) }
        ensures server { OnOk result (server.new ≡ told_by (link_by place.monitor server.old self.old.monitor.content place.link (ends_at self.old.links place.link)) place.monitor server.old) }
        ensures seat { OnOk result (self.new ≡ join_seat server.old place.monitor place.link self.old) }
        ensures log { OnOk result (map logged_of log.new.items
            ≡ map logged_of log.old.items ++ logged place.step (told_news (link_by place.monitor server.old self.old.monitor.content place.link (ends_at self.old.links place.link)) self.old.monitor.content)) }
        ensures lack { OnErr result (0 < length (told_news (link_by place.monitor server.old self.old.monitor.content place.link (ends_at self.old.links place.link)) self.old.monitor.content)) }
    {
        self.links[place.link].join(server, &mut self.monitor, place, log)
    }
}

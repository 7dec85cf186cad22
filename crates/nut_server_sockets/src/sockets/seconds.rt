//! What is done once a second: silent clients are closed, a new configuration is asked for, drivers are dialled, and what has
//! changed is reported.

ghost use Rattle.std.specs.Prelude.{◌≡◌, IfSome, None, option_map};
ghost use Rattle.nut_server_sockets.specs.Seats.{HasBesides, IsSilent};
ghost use Rattle.nut_server_sockets.specs.inside.Looking.{Asks, IsApart, OnlyQueues, Stays};

use crate::driver::Driver;
use crate::reloader::Reloader;
use crate::report::SocketReport;
use crate::sockets::Sockets;
use crate::source::Source;
use nut_poll::Reports;
use nut_server::{Config, Refused, Server, silence_before_ping};

impl Sockets {
    /// Closes the socket of a client that was silent for too long. Returns the number of its connection.
    pub(super) fn shed(&mut self, server: &Server, reports: &mut Reports<'_>) -> Option<u64>
        ensures turns { Stays self.old self.new }
        ensures silent { IfSome result (λ c. IsSilent server.now self.old.clients.second self.old.clients.sockets c) }
        ensures others { IfSome result (λ c. HasBesides c self.old.clients.sockets self.new.clients.sockets) }
        ensures none { result ≡ None → self.new.clients.sockets ≡ self.old.clients.sockets }
    {
        if !self.clients.may_be_silent() {
            return None;
        }
        self.shed_silent(server, reports)
    }

    /// Does what [`shed`](Self::shed) does. It stands apart, so that no other arrival pays for the place of a silent client.
    #[inline(never)]
    fn shed_silent(&mut self, server: &Server, reports: &mut Reports<'_>) -> Option<u64>
        ensures turns { Stays self.old self.new }
        ensures silent { IfSome result (λ c. IsSilent server.now self.old.clients.second self.old.clients.sockets c) }
        ensures others { IfSome result (λ c. HasBesides c self.old.clients.sockets self.new.clients.sockets) }
        ensures none { result ≡ None → self.new.clients.sockets ≡ self.old.clients.sockets }
    {
        let silent = self.clients.find_silent(server)?;
        reports.tell(SocketReport::Shed(silent.address, silent.seconds));
        self.close(silent.number, reports);
        Some(silent.number)
    }

    /// Returns a new configuration, if one is asked for in this second.
    pub(super) fn reload<L: Reloader>(
        &mut self,
        server: &Server,
        reloader: &mut L,
        reports: &mut Reports<'_>,
    ) -> Option<Box<Config>>
        ensures apart { IsApart self.old self.new }
        ensures reloads { Asks L.gave reloader.old (option_map (λ config. config.value) result) reloader.new }
    {
        if !self.asks {
            return None;
        }
        self.asks = false;
        let config = reloader.look(server, reports)?;
        self.has_given = true;
        Some(config)
    }

    /// Once the server has answered a new configuration, has that reported, and follows the UPSes that the server has now.
    pub(super) fn end_reload(
        &mut self,
        server: &Server,
        answer: &Result<(), Refused>,
        reloader: &mut impl Reloader,
        reports: &mut Reports<'_>,
    )
        ensures { OnlyQueues self.old self.new }
    {
        if self.has_given {
            self.has_given = false;
            reloader.tell(answer, reports);
            self.drivers.follow(server);
            self.call_drivers();
        }
    }

    /// Has each driver that isn't connected dialled in this round.
    pub(super) fn call_drivers(&mut self)
        ensures { OnlyQueues self.old self.new }
    {
        for u in 0..self.drivers.len() {
            if self.drivers.is_unconnected(u) {
                self.rounds.ready.insert(Source::Driver(u).token());
            }
        }
        self.rounds.begin();
    }

    /// Begins a second: the reloader is to be asked, and the drivers that aren't connected are to be dialled. If more than
    /// one second and more than a third of MAXAGE passed at once, the drivers are sent PING now, and clients wait until
    /// they have answered, two seconds at most.
    pub(super) fn begin_second(&mut self, server: &Server, moment: u64, reports: &mut Reports<'_>)
        ensures { OnlyQueues self.old self.new }
    {
        let passed = moment.saturating_sub(self.moment);
        self.moment = moment;
        self.clients.second();
        self.hindrances.second();
        self.denials.second(reports);
        self.drivers.catch_up(server);
        self.tell_changes(server, reports);
        self.call_drivers();
        self.asks = true;
        let max_age = u64::from(server.config().max_age());
        if passed > 1 && passed > silence_before_ping(max_age) {
            self.drivers.await_words();
            self.stall.begin();
        } else {
            self.stall.second(&mut self.rounds.ready);
        }
    }

    /// Reports the UPSes whose data have become stale in the last second or are no longer stale, and what their drivers
    /// said that can't be read. What passes within a second isn't told: the data of each driver are stale from its
    /// connection to the end of its first dump, and a driver that changed its mind with every line would fill the log.
    fn tell_changes(&mut self, server: &Server, reports: &mut Reports<'_>)
        ensures { IsApart self.old self.new }
    {
        for u in 0..self.drivers.len() {
            if let Some(driver) = self.drivers.get_mut(u) {
                let is_stale = server.is_stale(u);
                if driver.note_staleness(is_stale) {
                    tell_staleness(driver, is_stale, reports);
                }
                if let Some(unread) = server.unread(u)
                    && driver.has_untold(unread)
                {
                    driver.tell_unread(unread, reports);
                }
            }
        }
    }
}

/// Reports that the data of a UPS have become stale, or are no longer stale. It stands apart, so that a driver without news
/// doesn't pay for the place of a report.
#[inline(never)]
fn tell_staleness(driver: &Driver, is_stale: bool, reports: &mut Reports<'_>) {
    if is_stale {
        reports.tell(SocketReport::Stale(driver.name()));
    } else {
        reports.tell(SocketReport::Fresh(driver.name()));
        driver.warn_if_forced(reports);
    }
}

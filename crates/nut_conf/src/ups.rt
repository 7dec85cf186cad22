//! The file ups.conf.
ghost use Rattle.std.specs.Prelude.{◌≡◌, ◌==◌, ◌<◌, ◌≤◌, [], false, Err, IfSome, IsOk, IsTrue, None, IfErr, OnErr, OnOk, length, slice_get};
ghost use Rattle.std.specs.List.{IsDistinct, list_any};
ghost use Rattle.std.specs.Option.{option_copied, option_map};
ghost use Rattle.std.specs.Str.{bytes_eq};
ghost use Rattle.nut_words.specs.Quoting.{IsPrintable};
ghost use Rattle.nut_conf.specs.Faults.{Gives, Reads, Spares};
ghost use Rattle.nut_conf.specs.Files.{Means, read_file};
ghost use Rattle.nut_conf.specs.Memory.{MayRunOut};
ghost use Rattle.nut_words.specs.Name.{is_name};
ghost use Rattle.nut_conf.specs.Values.{is_text};
ghost use Rattle.nut_conf.specs.Ups.{UpsConfHolds, ups_fault, ups_conf_grows, driver_of, port_of, desc_of, names_of, number_of, ups_at, shown_in, is_shown_as, with_ups};
ghost use Rattle.nut_conf.specs.inside.Upses.{and_ups};
ghost use Rattle.nut_conf.specs.Rows.{lengths_of};
ghost use Rattle.nut_conf.specs.declared.ups.Ups.{Ups as UpsFields};

use crate::directives::Directives;
use crate::draft::Draft;
use crate::fault::{ConfFault, FaultKind, Misread};
use crate::file::read_draft;
use crate::limits::{DESCRIPTION_MAX, DEVICE_MAX, DRIVER_NAME_MAX, UPSES_MAX};
use crate::line::Line;
use crate::sections::Sections;
use crate::slot::once;
use crate::text::{Name, Text};
use crate::values::Form;
use nut_words::{UPS_NAME_MAX, are_printing};
use std::alloc::Global;

/// A UPS: a section of ups.conf. A directive that isn't set has its default.
#[derive(Drop)]
pub struct Ups {
    /// The name of the driver's program.
    pub driver: Option<Name<DRIVER_NAME_MAX>>,
    /// The port of the device, which only the driver reads.
    pub port: Option<Text<0, DEVICE_MAX>>,
    /// The description, for people to read.
    pub desc: Option<Text<0, DESCRIPTION_MAX>>,
}

/// The configuration of ups.conf: at most [`UPSES_MAX`] UPSes by name, in the order of the file, numbered from 0.
pub struct UpsConf {
    /// The UPSes, each under its name.
    pub ups: Sections<Ups, UPSES_MAX>,
}

// A derived drop would be proved again in each crate that drops a value, with those of its parts.
impl Drop for UpsConf {
    fn drop(self) {
        let UpsConf { ups: _ups } = self;
    }
}

impl Ups {
    /// Returns the name of the driver's program: `dummy-ups` if none is set.
    pub fn driver(&self) -> &[u8]
        ensures value { result.now ≡ driver_of self.now }
        ensures named { IsTrue (is_name DRIVER_NAME_MAX result.now) }
        ensures printable { IsPrintable result.now }
    {
        match &self.driver {
            Some(driver) => driver.as_bytes(),
            None => b"dummy-ups",
        }
    }

    /// Returns the port, which says what the driver opens: empty if none is set.
    pub fn port(&self) -> &[u8]
        ensures value { result.now ≡ port_of self.now }
        ensures bounded { IsTrue (is_text 0 DEVICE_MAX result.now) }
        ensures printable { IsPrintable result.now }
    {
        match &self.port {
            Some(port) => port.as_bytes(),
            None => b"",
        }
    }

    /// Returns the description of the UPS: `Unavailable` if none is set.
    pub fn desc(&self) -> &[u8]
        ensures value { result.now ≡ desc_of self.now }
        ensures bounded { IsTrue (is_text 0 DESCRIPTION_MAX result.now) }
        ensures printable { IsPrintable result.now }
    {
        match &self.desc {
            Some(desc) => desc.as_bytes(),
            None => b"Unavailable",
        }
    }
}

impl UpsConf {
    /// Returns a configuration without UPSes, like that of an empty file.
    pub fn new(alloc: Global) -> Self
        ensures shown { shown_in result ≡ [] }
        ensures holds { UpsConfHolds result [] }
    {
        UpsConf {
            ups: Sections::new(alloc),
        }
    }

    /// Adds a UPS at the end, with this description, the default driver and the default port. The others stay as they
    /// are.
    ///
    /// # Errors
    ///
    /// The first test that fails, in the order of these sentences; nothing changes then. `BadName` if the name is empty
    /// or has a byte that may not stand there. `PastLimit` if the name has more than [`UPS_NAME_MAX`] bytes, the
    /// description has more than [`DESCRIPTION_MAX`], or there are [`UPSES_MAX`] UPSes. `Repeated` if one has this
    /// name. `Unreadable` if a byte of the description isn't printing. `Memory`.
    pub fn add(&mut self, name: &[u8], desc: &[u8]) -> Result<(), FaultKind>
        ensures added { Gives (λ _. shown_in self.new) result (with_ups (shown_in self.old) name.now desc.now) }
        ensures unchanged { OnErr result (shown_in self.new ≡ shown_in self.old) }

        // Memory can run out only if all tests pass.
        ensures memory { result ≡ Err FaultKind.Memory → IsOk (with_ups (shown_in self.old) name.now desc.now) }
    {
        let name = Name::read(name)?;
        let desc = self.new_desc(&name, desc)?;
        let ups = Ups {
            driver: None,
            port: None,
            desc: Some(desc),
        };
        self.ups.by_name.insert(name, ups)?;
        Ok(())
    }

    /// Reads the description of a UPS that is to be added under this name. Returns the first test that fails.
    fn new_desc(
        &self,
        name: &Name<UPS_NAME_MAX>,
        desc: &[u8],
    ) -> Result<Text<0, DESCRIPTION_MAX>, FaultKind>
        ensures reads { Reads (λ d. and_ups (shown_in self.now) name.now.bytes.items d.bytes.items) result
            (with_ups (shown_in self.now) name.now.bytes.items desc.now) }
        ensures room { OnOk result (length self.now.ups.by_name.entries < UPSES_MAX) }
        ensures unnamed { OnOk result (list_any (is_shown_as name.now.bytes.items) (shown_in self.now) ≡ false) }
        ensures spares { Spares result }
    {
        if desc.len() > DESCRIPTION_MAX || self.ups.by_name.len() >= UPSES_MAX {
            return Err(FaultKind::PastLimit);
        }
        if self.ups.by_name.contains_key(name) {
            return Err(FaultKind::Repeated);
        }
        if !are_printing(desc) {
            return Err(FaultKind::Unreadable);
        }
        Text::read(desc)
    }

    /// How many UPSes there are, at most [`UPSES_MAX`].
    pub fn len(&self) -> usize
        ensures len { result ≡ length (names_of self.now) }
        ensures few { result ≤ UPSES_MAX }
    {
        self.ups.by_name.len()
    }

    /// Whether there is no UPS.
    pub fn is_empty(&self) -> bool
        ensures { result ≡ (length (names_of self.now) == 0) }
    {
        self.ups.by_name.len() == 0
    }

    /// Does nothing when called. Brings into the proof that no two UPSes have the same name.
    pub fn names_are_distinct(&self)
        ensures { IsDistinct bytes_eq (names_of self.now) }
    {
        let _len = self.ups.by_name.len();
    }

    /// Returns the number of the UPS with this name, counted from 0 in the order of the file.
    ///
    /// Allocates no memory. The time it takes doesn't grow with the number of UPSes.
    pub fn find(&self, name: &[u8]) -> Option<usize>
        ensures number { result ≡ number_of name.now self.now }
        ensures within { IfSome result (λ number. number < length (names_of self.now)) }
    {
        match Name::read(name) {
            Ok(name) => self.ups.by_name.get_index_of(&name),
            Err(_) => None,
        }
    }

    /// Returns the name of the UPS with this number, if there is one.
    pub fn name(&self, number: usize) -> Option<&Name<UPS_NAME_MAX>>
        ensures { option_map (λ name. name.now.bytes.items) result ≡ slice_get (names_of self.now) number }
    {
        match self.ups.by_name.get_index(number) {
            Some((name, _)) => Some(name),
            None => None,
        }
    }

    /// Returns the UPS with this number, if there is one.
    pub fn get(&self, number: usize) -> Option<&Ups>
        ensures { option_copied result ≡ ups_at self.now number }
    {
        match self.ups.by_name.get_index(number) {
            Some((_, ups)) => Some(ups),
            None => None,
        }
    }
}

/// States a law and does nothing when called: the least and the greatest length of each text.
pub fn ups_limits()
    ensures port { lengths_of (λ (u : UpsFields). u.port) ≡ (0, 128) }
    ensures desc { lengths_of (λ (u : UpsFields). u.desc) ≡ (0, 128) }
{}

/// The directives of a section.
#[derive(Clone, Copy)]
pub enum UpsDirective {
    Driver,
    Port,
    Desc,
}

/// Each directive, with its word and what its lines look like.
const DIRECTIVES: [(&[u8], UpsDirective, &str); 3] = [
    (b"driver", UpsDirective::Driver, "driver = NAME"),
    (b"port", UpsDirective::Port, "port = \"TEXT\""),
    (b"desc", UpsDirective::Desc, "desc = \"TEXT\""),
];

impl Directives for Ups {
    ghost use Rattle.nut_conf.specs.Ups.{ups_row, ups_rows};
    ghost use Rattle.nut_conf.specs.inside.Found.{ups_found};

    type Directive = UpsDirective;

    ghost all = { ups_rows };

    ghost table = { ups_row };

    ghost found = { ups_found };

    fn rows() -> &'static [(&'static [u8], UpsDirective, &'static str)] {
        &DIRECTIVES
    }

    fn unset(_: Global) -> Self {
        Ups {
            driver: None,
            port: None,
            desc: None,
        }
    }

    fn set(&mut self, directive: UpsDirective, line: &Line<'_>) -> Result<(), Misread> {
        match directive {
            UpsDirective::Driver => once(&mut self.driver, Form::Assigned, line),
            UpsDirective::Port => once(&mut self.port, Form::Assigned, line),
            UpsDirective::Desc => once(&mut self.desc, Form::Assigned, line),
        }
    }
}

/// Reads ups.conf (NUT manual page ups.conf(5), the directives `driver`, `port` and `desc`). Returns the configuration
/// that its lines set.
///
/// # Errors
///
/// `PastLimit` at line 0 if the file has more than [`FILE_MAX`](crate::limits::FILE_MAX) bytes. Otherwise the first
/// fault of the first line that has a fault. `Memory` comes only at a line with a backslash, or at a line without a
/// fault that begins a section.
pub fn read_ups(alloc: Global, bytes: &[u8]) -> Result<UpsConf, ConfFault>
    ensures means { Means (read_file ups_fault bytes.now) UpsConfHolds result }
    ensures memory { IfErr result (λ fault. fault.kind ≡ FaultKind.Memory → MayRunOut ups_fault ups_conf_grows bytes.now fault.line) }
{
    let ups = read_draft(alloc, bytes)?;
    Ok(UpsConf { ups })
}

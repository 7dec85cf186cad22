//! What a reload changes, in words for the operator.

ghost use Rattle.std.specs.Prelude.{◌↔◌, ◌≡◌, IsNone};

use nut_conf::{Descriptions, Texts, UsersConf};
use nut_poll::text_of;
use nut_server::{Config, Ups};
use std::alloc::{AllocError, Global};

/// Returns what a new configuration changes: the UPSes that are added, those that are removed, and those that differ,
/// each in the order of its file; and then the order of those that stay, the users, MAXAGE, MAXCONN and cmdvartab, if they
/// differ. `listens_elsewhere` says that the LISTEN lines aren't those of the start. The text is empty if nothing changes.
pub fn changes(
    alloc: Global,
    old: &Config,
    new: &Config,
    listens_elsewhere: bool,
) -> Result<String, AllocError> {
    let mut list = List::new(alloc);
    list_missing(new, old, "added", &mut list);
    list_missing(old, new, "removed", &mut list);
    list_different(old, new, &mut list);
    list_others(alloc, old, new, &mut list);
    if listens_elsewhere {
        list.add(&["LISTEN takes effect at the next start"]);
    }
    let List { text, is_whole } = list;
    if is_whole { Ok(text) } else { Err(AllocError) }
}

/// What is told, in one line.
#[derive(Drop)]
struct List {
    text: String,
    /// Whether memory was found for each item.
    is_whole: bool,
}

impl List {
    fn new(alloc: Global) -> List {
        List {
            text: String::new(alloc),
            is_whole: true,
        }
    }

    /// Adds an item of these parts.
    fn add(&mut self, parts: &[&str]) {
        if self.put(parts).is_err() {
            self.is_whole = false;
        }
    }

    /// Appends the parts of an item.
    fn put(&mut self, parts: &[&str]) -> Result<(), AllocError> {
        if !self.text.is_empty() {
            self.text.push_str(", ")?;
        }
        for part in parts {
            self.text.push_str(part)?;
        }
        Ok(())
    }

    /// Adds what is to be said of a UPS, after its name and this mark.
    fn add_ups(&mut self, name: &[u8], mark: &str, what: &str) {
        self.add(&["UPS ", text_of(name), mark, what]);
    }

    /// Adds a directive with its number.
    fn add_number(&mut self, alloc: Global, name: &str, number: usize) {
        match format!(in alloc; "{number}") {
            Ok(number) => self.add(&[name, " ", number.as_str()]),
            Err(_) => self.is_whole = false,
        }
    }
}

/// Lists the UPSes of one configuration that the other doesn't have, with what that means.
fn list_missing(from: &Config, other: &Config, what: &str, list: &mut List) {
    for u in 0..from.number_of_upses() {
        let Some(ups) = from.ups_at(u) else {
            break;
        };
        if other.find_ups(ups.name).is_none() {
            list.add_ups(ups.name, " ", what);
        }
    }
}

/// Lists the UPSes that both configurations have, and that differ.
fn list_different(old: &Config, new: &Config, list: &mut List) {
    for u in 0..new.number_of_upses() {
        let Some(ups) = new.ups_at(u) else {
            break;
        };
        let Some(before) = old.ups_named(ups.name) else {
            continue;
        };
        if let Some(difference) = difference(&before, &ups) {
            list.add_ups(ups.name, ": ", difference);
        }
    }
}

/// Lists what differs besides the UPSes themselves and the LISTEN lines.
fn list_others(alloc: Global, old: &Config, new: &Config, list: &mut List) {
    if have_other_order(old, new) {
        list.add(&["order of UPSes"]);
    }
    if have_other_users(old.users(), new.users()) {
        list.add(&["users"]);
    }
    if old.max_age() != new.max_age() {
        list.add_number(alloc, "MAXAGE", new.max_age() as usize);
    }
    if old.most_connections() != new.most_connections() {
        list.add_number(alloc, "MAXCONN", new.most_connections());
    }
    if have_other_texts(old.descriptions(), new.descriptions()) {
        list.add(&["cmdvartab"]);
    }
}

/// Returns what of a UPS differs, if something does that clients or drivers notice.
fn difference(old: &Ups<'_>, new: &Ups<'_>) -> Option<&'static str>
    ensures { IsNone result ↔ (old.now.driver ≡ new.now.driver) × (old.now.description ≡ new.now.description) }
{
    match (old.driver == new.driver, old.description == new.description) {
        (true, true) => None,
        (false, true) => Some("driver"),
        (true, false) => Some("description"),
        (false, false) => Some("driver and description"),
    }
}

/// Whether the UPSes that both configurations have stand in another order, in which LIST UPS shows them.
fn have_other_order(old: &Config, new: &Config) -> bool {
    let mut least = 0;
    for u in 0..new.number_of_upses() {
        let Some(ups) = new.ups_at(u) else {
            break;
        };
        let Some(place) = old.find_ups(ups.name) else {
            continue;
        };
        if place < least {
            return true;
        }
        least = place;
    }
    false
}

/// Whether the users of two configurations may do different things, or have other names, passwords or another order.
fn have_other_users(old: &UsersConf, new: &UsersConf) -> bool {
    let (old, new) = (&old.users.by_name, &new.users.by_name);
    old.len() != new.len()
        || old.iter().zip(new.iter()).any(|((name, before), (new_name, after))| {
            name != new_name
                || before.password != after.password
                || before.actions != after.actions
                || before.instcmds != after.instcmds
                || before.upsmon != after.upsmon
        })
}

/// Whether the texts of two configurations differ, or their order. One without cmdvartab has none.
fn have_other_texts(old: Option<&Descriptions>, new: Option<&Descriptions>) -> bool {
    match (old, new) {
        (None, None) => false,
        (Some(texts), None) | (None, Some(texts)) => !texts.variables.by_name.is_empty()
            || !texts.commands.by_name.is_empty(),
        (Some(old), Some(new)) => are_other_texts(&old.variables, &new.variables)
            || are_other_texts(&old.commands, &new.commands),
    }
}

/// Whether texts or their names differ, or their order.
fn are_other_texts(old: &Texts, new: &Texts) -> bool {
    let (old, new) = (&old.by_name, &new.by_name);
    old.len() != new.len()
        || old.iter().zip(new.iter()).any(|((name, before), (new_name, after))| name != new_name
            || before != after)
}

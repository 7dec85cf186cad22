//! The addresses at which clients connect.

use crate::upsd_fault::UpsdFault;
use nut_conf::UpsdConf;
use nut_poll::text_of;
use nut_program::Failure;
use nut_server_sockets::Listeners;
use std::alloc::Global;
use std::io;
use std::io::ErrorKind;
use std::net::{IpAddr, Net};

/// Which addresses a LISTEN line names.
#[derive(Clone, Copy, PartialEq, Eq)]
enum Reach {
    /// Every address of IPv6 and, unless the system is configured otherwise, of IPv4: `::`.
    Every,
    /// Every address of IPv4: `0.0.0.0`.
    EveryOfIpv4,
    /// An address, or the first of a host that this machine has.
    One,
}

impl Reach {
    /// Returns which addresses a host stands for.
    fn of(host: &str) -> Reach {
        let Ok(ip) = host.parse::<IpAddr>() else {
            return Reach::One;
        };
        let ip = ip.to_canonical();
        if !ip.is_unspecified() {
            Reach::One
        } else if ip.is_ipv6() {
            Reach::Every
        } else {
            Reach::EveryOfIpv4
        }
    }
}

/// Listens at the LISTEN addresses of upsd.conf: first at those that are every address, then at those that are every
/// address of IPv4, then at the others, each in the order of the file. If an address is in use and one of these listeners
/// serves it, it needs none of its own. A host of which this machine has no address, or whose name isn't known, is tried
/// again later, if there is one listener.
///
/// # Errors
///
/// `UpsdFault::Listen` with the first endpoint at which it is impossible to listen, and why; `Memory` if memory cannot be
/// allocated.
pub fn listen(
    net: &impl Net,
    alloc: Global,
    conf: &UpsdConf,
) -> Result<Listeners, Failure<UpsdFault>> {
    let mut listeners = Listeners::none(alloc);
    for reach in [Reach::Every, Reach::EveryOfIpv4, Reach::One] {
        add_listeners(net, alloc, conf, reach, &mut listeners)?;
    }
    match listeners.take_obstacle() {
        Some(missing) => {
            let (host, port, error) = missing.into_parts();
            Err(listen_fault(alloc, host, port, &error))
        }
        None => Ok(listeners),
    }
}

/// Listens at the LISTEN addresses with this reach, in the order of the file.
fn add_listeners(
    net: &impl Net,
    alloc: Global,
    conf: &UpsdConf,
    reach: Reach,
    listeners: &mut Listeners,
) -> Result<(), Failure<UpsdFault>> {
    for i in 0..conf.endpoints() {
        let Some((address, port)) = conf.endpoint(i) else {
            break;
        };
        let host = text_of(address);
        if Reach::of(host) == reach
            && let Err(error) = listeners.add(net, alloc, host, port)
        {
            return Err(cannot_listen(alloc, host, port, &error));
        }
    }
    Ok(())
}

/// Returns why upsd ends if this error makes it impossible to listen at a host.
fn cannot_listen(alloc: Global, host: &str, port: u16, error: &io::Error) -> Failure<UpsdFault> {
    if error.kind() == ErrorKind::OutOfMemory {
        return Failure::Memory;
    }
    match String::from_str(alloc, host) {
        Ok(host) => listen_fault(alloc, host, port, error),
        Err(_) => Failure::Memory,
    }
}

/// Returns the fault that this error makes it impossible to listen at a host.
fn listen_fault(alloc: Global, host: String, port: u16, error: &io::Error) -> Failure<UpsdFault> {
    let remark = format!(in alloc; "{error}").ok();
    Failure::Own(UpsdFault::Listen(host, port, remark))
}

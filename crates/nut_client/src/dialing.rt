//! Connecting to a server over TCP.
use crate::timed_stream::TimedStream;
use nut_conf::{Host, Port};
use std::io::ErrorKind;
use std::net::{Net, TcpStream, ToSocketAddrs};
use std::time::{Clock, Duration};
use std::{io, str};

/// For how many seconds a tool waits for an address of the server's host to accept a connection.
const ACCEPT_SECONDS: u64 = 10;

/// Connects to a server over TCP. The addresses of its host are tried in turn, each for at most 10 seconds; how long the
/// host's name is looked up is left to the resolver.
///
/// # Errors
///
/// That of the look-up if the host has no address, `InvalidInput` if it isn't UTF-8; that of the last address if none
/// accepts a connection in time; that of the system if it doesn't let TCP_NODELAY be set.
pub(crate) fn dial_host<'r, R: Net + Clock>(
    rt: &'r R,
    host: &Host,
    port: Port,
) -> io::Result<TimedStream<'r, R>> {
    let Ok(host) = str::from_utf8(host.as_bytes()) else {
        return Err(io::Error::from(ErrorKind::InvalidInput));
    };
    let limit = Duration::from_secs(ACCEPT_SECONDS);
    let mut last = io::Error::from(ErrorKind::AddrNotAvailable);
    for address in (host, port.number).to_socket_addrs(rt)? {
        match TcpStream::connect_timeout(rt, &address, limit) {
            Ok(stream) => return TimedStream::new(rt, stream),
            Err(error) => last = error,
        }
    }
    Err(last)
}

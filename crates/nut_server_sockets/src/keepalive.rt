//! Detects peers that have vanished.

use libc::net as c;
use mio::net::TcpStream;
use std::os::fd::AsRawFd;

/// After how many seconds without a segment the peer is probed.
const IDLE: i32 = 60;

/// How many seconds pass between two probes.
const INTERVAL: i32 = 10;

/// After how many unanswered probes the connection ends.
const PROBES: i32 = 3;

/// Has the system probe a silent peer, so that one that vanished without a word is noticed. If the system doesn't, the
/// peer is closed like any client that is silent for too long.
pub fn keep_alive(stream: &TcpStream) {
    let fd = stream.as_raw_fd();
    let (on, idle) = (number(1), number(IDLE));
    let (interval, probes) = (number(INTERVAL), number(PROBES));
    // The binding lends the system 16 bytes, of which it reads the first 4: each of these options is a C int. The
    // descriptor is that of a stream that is borrowed meanwhile.
    let _ = unsafe {
        c::setsockopt(fd, c::SOL_SOCKET, c::SO_KEEPALIVE, &on, 4) == 0
            && c::setsockopt(fd, c::IPPROTO_TCP, c::TCP_KEEPIDLE, &idle, 4) == 0
            && c::setsockopt(fd, c::IPPROTO_TCP, c::TCP_KEEPINTVL, &interval, 4) == 0
            && c::setsockopt(fd, c::IPPROTO_TCP, c::TCP_KEEPCNT, &probes, 4) == 0
    };
}

/// Returns a number as the value of a socket option.
fn number(n: i32) -> [u8; 16] {
    let mut value = [0; 16];
    value[..4].copy_from_slice(&n.to_ne_bytes());
    value
}

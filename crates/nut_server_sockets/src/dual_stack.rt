//! Whether a listener of IPv6 serves IPv4, too.

use libc::net as c;
use mio::net::TcpListener;
use std::os::fd::AsRawFd;

/// Whether a listener at every address of IPv6 also takes clients of IPv4. The system decides that when it makes the
/// socket: Linux lets it unless net.ipv6.bindv6only is set.
pub fn takes_ipv4(listener: &TcpListener) -> bool {
    let fd = listener.as_raw_fd();
    let (mut value, mut length) = ([0u8; 16], 4);
    // The binding lends the system 16 bytes, of which it writes the first 4: the option is a C int. The descriptor is that
    // of a listener that is borrowed meanwhile.
    let status = unsafe {
        c::getsockopt(fd, c::IPPROTO_IPV6, c::IPV6_V6ONLY, &mut value, &mut length)
    };
    status == 0 && value[..4] == [0u8; 4]
}

//! Dials addresses.

use mio::net::TcpStream;
use mio::{Interest, Registry, Token};
use std::io;
use std::net::{Net, SocketAddr};

/// What one link needs to dial: a net, the poll's registry and the token for its sockets.
#[derive(Drop)]
pub struct Dialler<'a, N> {
    pub net: &'a N,
    pub registry: &'a Registry,
    pub token: Token,
}

impl<'a, N: Net> Dialler<'a, N> {
    /// Begins to connect, and registers the socket with the poll.
    ///
    /// # Errors
    ///
    /// The error of the connect or of the registration.
    pub fn dial(&self, address: SocketAddr) -> io::Result<TcpStream> {
        let mut stream = TcpStream::connect(self.net, address)?;
        let _ = stream.set_nodelay(true);
        let all = Interest::READABLE | Interest::WRITABLE | Interest::PRIORITY;
        self.registry.register(&mut stream, self.token, all)?;
        Ok(stream)
    }
}

//! The socket at which a driver listens.

use crate::listen_fault::ListenFault;
use crate::socket_lock::{lock, unlock};
use libc::fchmod;
use libc::net::listen;
use mio::net::{UnixListener, UnixStream};
use os::errno;
use std::alloc::Global;
use std::fs::{File, Permissions};
use std::io::ErrorKind;
use std::net::Net;
use std::os::fd::{AsFd, AsRawFd};
use std::os::unix::fs::{FileTypeExt, PermissionsExt};
use std::os::unix::net;
use std::os::unix::net::SocketAddr;
use std::rt::Files;
use std::{fs, io};

/// The socket's mode: the driver's user and group may connect, as with the drivers of NUT.
const MODE: u32 = 0o660;

/// How many servers may wait to be accepted: as many as the system allows.
const BACKLOG: i32 = -1;

/// Listens at a socket, once what a driver left there is removed ([`make_room`]). An empty name is refused, since the
/// system would choose another one.
///
/// Of drivers that do this at once one holds a lock, `SOCKET.lock`, from before it looks until it listens. So none removes
/// the socket of another one.
///
/// # Errors
///
/// Those of [`make_room`]; `Locked` if another driver holds the lock. `System` also if it is impossible to lock the name, to
/// listen there or to set the socket's mode, and with the kind `OutOfMemory` if memory cannot be allocated.
pub fn listen_at<R>(rt: &R, alloc: Global, socket: &str) -> Result<UnixListener, ListenFault>
where
    R: Files<File = File> + Net,
{
    if socket.is_empty() {
        return Err(ListenFault::System(io::Error::from(ErrorKind::InvalidInput)));
    }
    let address = SocketAddr::from_pathname(socket)?;
    let lock_path = lock_path(alloc, socket)?;
    let lock_file = lock(rt, &lock_path)?;
    let listener = listen_alone(rt, socket, &address);
    unlock(rt, &lock_path, lock_file);
    listener
}

/// Returns the path of a socket's lock file.
fn lock_path(alloc: Global, socket: &str) -> io::Result<String> {
    Ok(format!(in alloc; "{socket}.lock")?)
}

/// Makes a socket with this path and address that listens, while no other driver does the same. Whatever the umask is, nobody
/// but the driver's user and group can ever connect: its mode is set before it has a name, and again, since the umask takes away
/// what it forbids, before it listens.
fn listen_alone<R>(rt: &R, path: &str, address: &SocketAddr) -> Result<UnixListener, ListenFault>
where
    R: Files + Net,
{
    make_room(rt, path)?;
    let socket = rt.unix_socket()?;
    check(fchmod(socket.as_raw_fd(), MODE))?;
    rt.bind_unix(socket.as_fd(), address)?;
    rt.set_permissions(path, Permissions::from_mode(MODE))?;
    check(listen(socket.as_raw_fd(), BACKLOG))?;
    let listener = net::UnixListener::from(socket);
    listener.set_nonblocking(true)?;
    Ok(UnixListener::from_std(listener))
}

/// Removes the file with this path if nothing is lost with it: a plain file without a byte, or a socket at which nobody
/// listens, as that of a driver that was killed. Any other file stays: a link may have been put there on purpose, other
/// programs may wait at a pipe, and a directory has files of its own. If it can't be removed, the system says why when the
/// driver listens.
///
/// # Errors
///
/// `InUse` if another driver listens there, `NotASocket` if any other file stays. `System` if it isn't known whether a driver
/// listens there.
fn make_room(rt: &(impl Files + Net), path: &str) -> Result<(), ListenFault> {
    let Ok(found) = fs::symlink_metadata(rt, path) else {
        return Ok(());
    };
    let is_empty = found.is_file() && found.len() == 0;
    if !is_empty {
        if has_listener(rt, path)? {
            return Err(ListenFault::InUse);
        }
        if !found.file_type().is_socket() {
            return Err(ListenFault::NotASocket);
        }
    }
    let _ = fs::remove_file(rt, path);
    Ok(())
}

/// Whether a process listens at a socket. If its queue of waiting connections is full, the answer comes at once, too.
///
/// # Errors
///
/// That of the system if it can't tell: the socket may be another user's, or this process has no descriptor left.
fn has_listener(net: &impl Net, socket: &str) -> io::Result<bool> {
    match UnixStream::connect(net, socket) {
        Ok(_) => Ok(true),
        Err(error) => match error.kind() {
            ErrorKind::WouldBlock => Ok(true),
            ErrorKind::NotFound | ErrorKind::ConnectionRefused => Ok(false),
            _ => Err(error),
        },
    }
}

/// Returns the error of the call of the system that has just answered this, if it failed.
fn check(status: i32) -> io::Result<()> {
    if status < 0 {
        Err(io::Error::from_raw_os_error(errno()))
    } else {
        Ok(())
    }
}

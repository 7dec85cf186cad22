//! Whether a stream is that of systemd's journal.

use arrayvec::ArrayString;
use std::env::Env;
use std::fmt::Write;
use std::os::unix::fs::MetadataExt;
use std::rt::Files;
use std::{fs, str};

/// The variable in which systemd names the stream of the journal by its device and inode, as `8:12345` (systemd.exec(5)).
const VARIABLE: &str = "JOURNAL_STREAM";

/// More bytes than two numbers of 64 bits take, with the colon between them.
const VALUE_MAX: usize = 64;

/// The device and the inode of a stream.
#[derive(Clone, Copy, PartialEq, Eq)]
struct Node {
    device: u64,
    inode: u64,
}

/// Whether this descriptor is the stream of systemd's journal. Programs below a service inherit the variable even if
/// their streams lead elsewhere, as those of a terminal do, so device and inode have to be those of the descriptor. If
/// they can't be read, as where /proc isn't mounted, the answer is no. Nothing is allocated.
pub fn is_journal<R: Env + Files>(rt: &R, descriptor: i32) -> bool {
    match node_of_environment(rt) {
        Some(node) => node_of(rt, descriptor) == Some(node),
        None => false,
    }
}

/// Returns the device and the inode that the variable has in decimal digits, with a colon between them.
fn node_of_environment(env: &impl Env) -> Option<Node> {
    let mut value = [0; VALUE_MAX];
    let length = env.var(VARIABLE, &mut value).ok()?;
    let text = str::from_utf8(&value[..length]).ok()?;
    let (device, inode) = text.split_once(':')?;
    Some(Node {
        device: device.parse().ok()?,
        inode: inode.parse().ok()?,
    })
}

/// Returns the device and the inode of a descriptor of this process.
fn node_of(files: &impl Files, descriptor: i32) -> Option<Node> {
    let mut path: ArrayString<32> = ArrayString::new();
    write!(&mut path, "/proc/self/fd/{descriptor}").ok()?;
    let found = fs::metadata(files, path.as_str()).ok()?;
    Some(Node {
        device: found.dev(),
        inode: found.ino(),
    })
}

//! Reads and writes of one piece.

ghost use Rattle.std.specs.Prelude.{◌≡◌, ◌≢◌, ◌≤◌, length, Ok, IfOk, IfErr, OnErr};
ghost use Rattle.std.specs.Io.KnownBytes.{Consumes, IsAtEnd, Keeps, ReadConsumes, WriteAppends};
ghost use Rattle.std.specs.Io.{ReadsAtMost};
ghost use Rattle.std.specs.IoError.{error_kind};

use crate::Piece;
use std::io;
use std::io::{ErrorKind, Read, Write};

/// Reads one piece, and returns its length: 0 at the end of the input. A read that is interrupted is tried again. After
/// an error the piece means nothing.
///
/// # Errors
///
/// The error of the reader, or `TimedOut` if 2^64 - 1 reads in a row were interrupted. No byte was read.
pub fn read_piece<R: Read>(input: &mut R, piece: &mut Piece) -> io::Result<usize>
    ensures ok { IfOk result (λ n. (n ≡ length piece.new.items)
        × Consumes (R.remaining input.old) (R.remaining input.new) piece.new.items) }
    ensures end { result ≡ Ok 0 → IsAtEnd (R.remaining input.new) }
    ensures err { OnErr result (Keeps (R.remaining input.old) (R.remaining input.new)) }
    ensures retried { IfErr result (λ e. error_kind e ≢ ErrorKind.Interrupted) }
{
    let n = read_some(input, &mut piece.room)?;
    piece.len = n;
    Ok(n)
}

/// Reads once into the room, and returns how many bytes came. A read that is interrupted is tried again.
///
/// # Errors
///
/// The error of the reader, which then gave no byte.
fn read_some<R: Read>(input: &mut R, room: &mut [u8]) -> io::Result<usize>
    ensures bound { ReadsAtMost result room.new }
    ensures bytes { ReadConsumes (R.remaining input.old) (R.remaining input.new) result room.new }
    ensures retried { IfErr result (λ e. error_kind e ≢ ErrorKind.Interrupted) }
{
    for _ in 0..u64::MAX {
        match input.read(room) {
            Ok(len) => return Ok(len),
            Err(e) if e.kind() == ErrorKind::Interrupted => {}
            Err(e) => return Err(e),
        }
    }
    Err(io::Error::from(ErrorKind::TimedOut))
}

/// Writes what the writer takes at once, and returns how many bytes that was: 0 if the writer took none. A write that
/// is interrupted is tried again.
///
/// # Errors
///
/// The error of the writer, or `TimedOut` if 2^64 - 1 writes in a row were interrupted. No byte was written.
pub fn write_some<T: Write>(output: &mut T, bytes: &[u8]) -> io::Result<usize>
    ensures bound { IfOk result (λ n. n ≤ length bytes.now) }
    ensures bytes { WriteAppends (T.contents output.old) (T.contents output.new) result bytes.now }
    ensures retried { IfErr result (λ e. error_kind e ≢ ErrorKind.Interrupted) }
{
    for _ in 0..u64::MAX {
        match output.write(bytes) {
            Ok(n) => return Ok(n),
            Err(e) if e.kind() == ErrorKind::Interrupted => {}
            Err(e) => return Err(e),
        }
    }
    Err(io::Error::from(ErrorKind::TimedOut))
}

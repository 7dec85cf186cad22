//! Where messages are written.
ghost use Rattle.std.specs.Prelude.{◌≡◌, ℕ, List, [], ◌∷◌, ◌++◌, Option, None, Some, length, take, OnOk, OnErr};
ghost use Rattle.nut_words.specs.Out.{Fits, Exceeds};

use arrayvec::ArrayVec;
use std::alloc::AllocError;
use thiserror::Error;

/// The bytes would not fit into a buffer of fixed size.
#[derive(Clone, Copy, Debug, PartialEq, Eq, Error)]
#[error("no room is left")]
pub struct Full;

/// A buffer to which bytes are appended: a `Vec`, which grows while memory can be allocated, or an `ArrayVec`, which has
/// a fixed size and allocates nothing.
pub trait Out {
    /// Why bytes could not be appended.
    type Fault;

    /// The bytes that it holds.
    ghost held: { Self → List ℕ };

    /// How many bytes it can hold; None if memory alone decides.
    ghost most: { Option ℕ };

    /// Returns how many bytes it holds.
    fn len(&self) -> usize
        ensures { result ≡ length (held self.now) };

    /// Appends a byte.
    fn push(&mut self, byte: u8) -> Result<(), Self::Fault>
        ensures ok { OnOk result (held self.new ≡ held self.old ++ byte ∷ []) }
        ensures err { OnErr result (held self.new ≡ held self.old) }
        ensures fits { OnOk result (Fits most (length (held self.old ++ byte ∷ []))) }
        ensures full { OnErr result (Exceeds most (length (held self.old ++ byte ∷ []))) };

    /// Appends all these bytes, or none.
    fn append(&mut self, bytes: &[u8]) -> Result<(), Self::Fault>
        ensures ok { OnOk result (held self.new ≡ held self.old ++ bytes.now) }
        ensures err { OnErr result (held self.new ≡ held self.old) }
        ensures fits { OnOk result (Fits most (length (held self.old ++ bytes.now))) }
        ensures full { OnErr result (Exceeds most (length (held self.old ++ bytes.now))) };

    /// Keeps the first `len` bytes.
    fn truncate(&mut self, len: usize)
        ensures { held self.new ≡ take len (held self.old) };
}

impl Out for Vec<u8> {
    type Fault = AllocError;

    ghost held = { λ v. v.items };

    ghost most = { None };

    fn len(&self) -> usize {
        Vec::len(self)
    }

    fn push(&mut self, byte: u8) -> Result<(), AllocError> {
        Vec::push(self, byte)?;
        Ok(())
    }

    fn append(&mut self, bytes: &[u8]) -> Result<(), AllocError> {
        self.extend_from_slice(bytes)
    }

    fn truncate(&mut self, len: usize) {
        Vec::truncate(self, len);
    }
}

impl<const N: usize> Out for ArrayVec<u8, N> {
    type Fault = Full;

    ghost held = { λ v. v.items };

    ghost most = { Some N };

    fn len(&self) -> usize {
        ArrayVec::len(self)
    }

    fn push(&mut self, byte: u8) -> Result<(), Full> {
        self.try_push(byte).map_err(|_| Full)
    }

    fn append(&mut self, bytes: &[u8]) -> Result<(), Full> {
        self.try_extend_from_slice(bytes).map_err(|_| Full)
    }

    fn truncate(&mut self, len: usize) {
        ArrayVec::truncate(self, len);
    }
}

//! Where the bytes of a field go as they are read.

ghost use Rattle.std.specs.Prelude.{◌≡◌, ◌≤◌, [], ◌∷◌, ◌++◌, List, ℕ, length, OnOk, OnErr};
ghost use Rattle.std.specs.Vec.{vec_capacity};

use crate::fault::LineFault;
use arrayvec::ArrayVec;

/// Bytes that come one after another, as far as there is room for them.
pub trait Buffer: Drop {
    // The bytes that came, and for how many there is room.
    ghost held: { Self → List ℕ };

    ghost room: { Self → ℕ };

    /// Adds a byte. Refused `TooLong` if there is no room for it.
    fn add(&mut self, byte: u8) -> Result<(), LineFault>
        ensures added { OnOk result (held self.new ≡ held self.old ++ byte ∷ []) }
        ensures full { OnErr result (room self.old ≤ length (held self.old)) }
        ensures room { room self.old ≤ room self.new };
}

impl<const N: usize> Buffer for ArrayVec<u8, N> {
    ghost held = { λ bytes. bytes.items };

    ghost room = { λ _. N };

    fn add(&mut self, byte: u8) -> Result<(), LineFault> {
        match self.try_push(byte) {
            Ok(()) => Ok(()),
            Err(_) => Err(LineFault::TooLong),
        }
    }
}

// Its room is made before, for as many bytes as a line has: no field of it has more.
impl Buffer for Vec<u8> {
    ghost held = { λ bytes. bytes.items };

    ghost room = { λ bytes. vec_capacity bytes };

    fn add(&mut self, byte: u8) -> Result<(), LineFault> {
        if self.len() == self.capacity() {
            return Err(LineFault::TooLong);
        }
        match self.push(byte) {
            Ok(()) => Ok(()),
            Err(_) => Err(LineFault::TooLong),
        }
    }
}

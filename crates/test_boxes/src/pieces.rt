//! The bytes of boxes, made of hex.

use std::alloc::Global;

/// The bytes of one box, by a text in hex.
#[derive(Drop)]
pub enum Piece {
    /// The whole text.
    Whole(&'static str),
    /// So many of its bytes, from the first on.
    Torn(&'static str, usize),
    /// With other bytes from an offset on.
    With(&'static str, usize, &'static [u8]),
    /// With more bytes at the end.
    Behind(&'static str, &'static [u8]),
}

// Other bytes from an offset on, as far as there are any.
fn change(bytes: &mut Vec<u8>, at: usize, with: &[u8]) {
    for (i, byte) in with.iter().enumerate() {
        if i < bytes.len() && at < bytes.len() - i {
            bytes[at + i] = *byte;
        }
    }
}

/// The bytes of a piece.
pub fn bytes_of(alloc: Global, piece: &Piece) -> Option<Vec<u8>> {
    let hex = match piece {
        Piece::Whole(hex) => *hex,
        Piece::Torn(hex, _) => *hex,
        Piece::With(hex, _, _) => *hex,
        Piece::Behind(hex, _) => *hex,
    };
    let mut bytes = hex::decode(alloc, hex).ok()?;
    match piece {
        Piece::Whole(_) => {}
        Piece::Torn(_, len) => bytes.truncate(*len),
        Piece::With(_, at, with) => change(&mut bytes, *at, *with),
        Piece::Behind(_, more) => bytes.extend_from_slice(*more).ok()?,
    }
    Some(bytes)
}

/// Whether these are the bytes of a text in hex.
pub fn is_spelled(alloc: Global, bytes: &[u8], hex: &str) -> bool {
    match hex::decode(alloc, hex) {
        Ok(told) => bytes == told.as_slice(),
        Err(_) => false,
    }
}

/// A piece, the room of its box, and whether that is the one that fails.
pub type Kept = (Piece, u64, bool);

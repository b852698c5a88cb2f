// Sums, and their bytes.
ghost use Rattle.std.specs.Prelude.{◌≡◌, ◌≤◌, ◌==◌, length};
ghost use Rattle.bw_digest.specs.Digest.{digest};
ghost use Rattle.bw_digest.specs.Sums.{three, mark_of, sum_bytes, sum_in};

use crate::digest::digest_of;
use byteorder::{ByteOrder, LittleEndian};

/// How many bytes a sum has.
pub const SUM_LEN: usize = 24;

/// What is said of a piece of a file.
#[derive(Clone, Copy, Debug, PartialEq, Eq)]
pub struct Sum {
    /// Where it ends in the file, in bytes.
    pub end: u64,
    /// The digest of its bytes.
    pub digest: u64,
    /// By which the sum follows the one before it: the digest of that one's mark, this end and this
    /// digest.
    pub mark: u64,
}

// Three numbers as bytes.
fn three_in(a: u64, b: u64, c: u64) -> [u8; SUM_LEN]
    ensures { result ≡ three a b c }
{
    let mut cells = [0u8; SUM_LEN];
    LittleEndian::write_u64(&mut cells, a);
    LittleEndian::write_u64(&mut cells[8..], b);
    LittleEndian::write_u64(&mut cells[16..], c);
    cells
}

/// The mark of a sum after one of this mark.
#[tactic(auto, unfolding(crate::specs::Sums::mark_of))]
pub(crate) fn mark(before: u64, end: u64, digest: u64) -> u64
    ensures { result ≡ mark_of before end digest }
{
    digest_of(&three_in(before, end, digest))
}

impl Sum {
    /// The bytes of the sum.
    pub fn to_bytes(&self) -> [u8; SUM_LEN]
        ensures { result ≡ sum_bytes self.now }
    {
        three_in(self.end, self.digest, self.mark)
    }

    /// The sum that these bytes begin with.
    pub fn read(bytes: &[u8]) -> Sum
        requires { 24 ≤ length bytes.now }
        ensures { result ≡ sum_in bytes.now }
    {
        Sum {
            end: LittleEndian::read_u64(bytes),
            digest: LittleEndian::read_u64(&bytes[8..]),
            mark: LittleEndian::read_u64(&bytes[16..]),
        }
    }

    /// Whether a piece has the digest that this sum says. It costs a walk over the piece.
    pub fn fits(&self, piece: &[u8]) -> bool
        ensures { result ≡ (digest piece.now == self.now.digest) }
    {
        digest_of(piece) == self.digest
    }
}

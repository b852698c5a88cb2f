// How far a row of sums has come.
ghost use Rattle.std.specs.Prelude.{◌≡◌, ◌+◌, ◌^◌, ◌<◌, ◌≤◌, length};

use crate::digest::digest_of;
use crate::sum::{Sum, mark};

/// How far a row of sums has come.
#[derive(Clone, Copy)]
pub struct Row {
    /// How many sums it has.
    count: u64,
    /// Where the last piece ends.
    end: u64,
    /// The mark of the last sum.
    mark: u64,
    ghost counted: { count ≤ end },
}

impl Row {
    ghost use Rattle.bw_digest.specs.Sums.{sum_of, after, follows, no_sums};
    ghost use Rattle.bw_digest.specs.Rows.{reach};

    /// Of no sums.
    pub fn new() -> Row
        ensures { reach result ≡ no_sums }
    {
        Row {
            count: 0,
            end: 0,
            mark: 0,
        }
    }

    /// How many sums it has.
    pub fn count(&self) -> u64
        ensures count { result ≡ (reach self.now).count }
        ensures counted { result ≤ (reach self.now).end }
    {
        self.count
    }

    /// Where the last piece ends, in bytes.
    pub fn end(&self) -> u64
        ensures { result ≡ (reach self.now).end }
    {
        self.end
    }

    /// The sum of the next piece.
    pub fn sum_of(&self, piece: &[u8]) -> Sum
        requires { (reach self.now).end + length piece.now < 2 ^ 64 }
        ensures { result ≡ sum_of (reach self.now) piece.now }
    {
        let end = self.end + piece.len() as u64;
        let digest = digest_of(piece);
        Sum {
            end,
            digest,
            mark: mark(self.mark, end, digest),
        }
    }

    /// The row with one more sum.
    pub fn with(&self, sum: Sum) -> Row
        requires { (reach self.now).end < sum.end }
        ensures { reach result ≡ after (reach self.now) sum }
    {
        Row {
            count: self.count + 1,
            end: sum.end,
            mark: sum.mark,
        }
    }

    /// Whether a sum follows this row, beside a file of so many bytes: it ends after the row's last
    /// piece and not after the file, and its mark is the one that comes next.
    pub fn is_followed_by(&self, sum: Sum, len: u64) -> bool
        ensures { result ≡ follows len (reach self.now) sum }
    {
        self.end < sum.end && sum.end <= len && sum.mark == mark(self.mark, sum.end, sum.digest)
    }
}

// The digest of bytes.
ghost use Rattle.std.specs.Prelude.{◌≡◌};
ghost use Rattle.bw_digest.specs.Digest.{digest};

use std::hash::{DefaultHasher, Hasher};

/// The digest of these bytes: SipHash-1-3 under the keys of `DefaultHasher::new`, which are 0. So
/// it finds damage, and not malice. It costs a step for each eight bytes.
pub(crate) fn digest_of(bytes: &[u8]) -> u64
    ensures { result ≡ digest bytes.now }
{
    let mut hasher = DefaultHasher::new();
    hasher.write(bytes);
    hasher.finish()
}

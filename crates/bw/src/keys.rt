//! The key after another, from which a walk goes on.

ghost use Rattle.std.specs.Prelude.{◌≡◌, ◌<◌, [], ◌∷◌, ◌++◌, Some, length};
ghost use Rattle.bw.specs.Keys.{IsAfter};

use bw_codec::Key;
use bw_codec::limits::MAX_KEY;

// The key of these bytes and one more.
pub(crate) fn ended(front: &[u8], last: u8) -> Option<Key>
    requires { length front.now < 128 }
    ensures { result ≡ Some (front.now ++ last ∷ []) }
{
    let at = front.len();
    let mut bytes = [0; MAX_KEY];
    bytes[..at].copy_from_slice(front);
    bytes[at] = last;
    Key::new(&bytes[..=at]).ok()
}

/// The least key above this one; `None` if there is none, as of 128 bytes 255.
///
/// A key goes on with a zero as long as it has room. A whole one ends with its last byte that can
/// be raised, which is raised.
pub fn after(key: &Key) -> Option<Key>
    ensures { IsAfter key.now result }
{
    let bytes = key.as_slice();
    let mut end = bytes.len();
    if end < MAX_KEY {
        return ended(bytes, 0);
    }
    while end > 0 {
        end -= 1;
        if bytes[end] < u8::MAX {
            return ended(&bytes[..end], bytes[end] + 1);
        }
    }
    None
}

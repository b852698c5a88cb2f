//! Which keys are wanted.

ghost use Rattle.std.specs.Prelude.{◌≡◌, ◌≤◌, ℕ, List, [], ◌∷◌, true, false, length};
ghost use Rattle.bw_record.specs.Keys.{is_below};
ghost use Rattle.bw_keys.specs.Spans.{is_wanted, has_begun, is_over, has_all};

use arrayvec::ArrayVec;
use bw_codec::limits::MAX_KEY;
use bw_codec::{Key, is_before};

/// A stretch of keys.
#[derive(Drop)]
pub struct Span {
    /// The least that is wanted.
    pub from: Option<Key>,
    /// The least above it that is not.
    pub to: Option<Key>,
    /// What each begins with.
    pub prefix: Option<Key>,
}

/// The least key above another one; `None` above the greatest of all.
pub fn above(key: &[u8]) -> Option<Key> {
    let mut bytes: ArrayVec<u8, MAX_KEY> = ArrayVec::new();
    bytes.try_extend_from_slice(key).ok()?;
    if bytes.try_push(0).is_ok() {
        return Key::new(bytes.as_slice()).ok();
    }
    for _ in 0..MAX_KEY {
        match bytes.pop() {
            Some(u8::MAX) => {}
            Some(last) => {
                bytes.try_push(last.saturating_add(1)).ok()?;
                break;
            }
            None => break,
        }
    }
    Key::new(bytes.as_slice()).ok()
}

/// The least of all keys.
fn least() -> Key
    ensures { result ≡ 0 ∷ [] }
{
    match Key::new(&[0]) {
        Ok(key) => key,
        Err(_) => unreachable!(),
    }
}

impl Span {
    /// The least key that may be wanted.
    #[tactic(auto, using(crate::proofs::WantedKeys::from_kept, crate::proofs::WantedKeys::prefix_kept, crate::proofs::WantedKeys::least_kept,))]
    pub fn start_key(&self) -> Key
        ensures { (key : List ℕ) → 1 ≤ length key → is_wanted self.now key ≡ true
            → is_below key result ≡ false }
    {
        match (&self.from, &self.prefix) {
            (Some(from), Some(prefix)) if is_before(prefix.as_slice(), from.as_slice()) => {
                from.copy()
            }
            (_, Some(prefix)) => prefix.copy(),
            (Some(from), None) => from.copy(),
            (None, None) => least(),
        }
    }

    /// Whether neither this key nor any above it is wanted.
    pub fn is_over(&self, key: &[u8]) -> bool
        ensures { result ≡ is_over self.now key.now }
    {
        let is_above = match &self.to {
            Some(to) => !is_before(key, to.as_slice()),
            None => false,
        };
        let is_behind = match &self.prefix {
            Some(prefix) => {
                !key.starts_with(prefix.as_slice()) && is_before(prefix.as_slice(), key)
            }
            None => false,
        };
        is_above || is_behind
    }

    /// Whether a key that is not over is wanted.
    pub fn has_begun(&self, key: &[u8]) -> bool
        ensures { result ≡ has_begun self.now key.now }
    {
        let is_from = match &self.from {
            Some(from) => !is_before(key, from.as_slice()),
            None => true,
        };
        let is_within = match &self.prefix {
            Some(prefix) => !is_before(key, prefix.as_slice()),
            None => true,
        };
        is_from && is_within
    }

    /// Whether each key is wanted.
    pub fn has_all(&self) -> bool
        ensures { result ≡ has_all self.now }
    {
        self.from.is_none() && self.to.is_none() && self.prefix.is_none()
    }

    /// Whether a key is wanted.
    pub fn has(&self, key: &[u8]) -> bool
        ensures { result ≡ is_wanted self.now key.now }
    {
        self.has_begun(key) && !self.is_over(key)
    }
}

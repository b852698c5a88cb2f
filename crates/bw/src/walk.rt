//! A walk over the pairs of a home in the order of their keys, from call to call.

ghost use Rattle.std.specs.Prelude.{◌≡◌, ◌↔◌, false, [], None, Some, IfOk, IfSome, IsTrue, OnErr, nat_eq};
ghost use Rattle.std.specs.List.{starts_with};
ghost use Rattle.bw_record.specs.Keys.{IsKey};
ghost use Rattle.bw_leaf.specs.Changed.{Bytes, Map};
ghost use Rattle.bw_page.specs.Ahead.{IsFirst};
ghost use Rattle.bw_core.specs.Following.{Follows, HasBoxes};
ghost use Rattle.bw_core.specs.Reading.{HasRead};
ghost use Rattle.bw.specs.Walks.{begins, is_early, HasPassed, IsAhead, IsFrom, IsNext};

use crate::keys::{after, ended};
use bw_codec::{Key, Value};
use bw_core::StoreFault;
use bw_home::Home;

/// A walk over the pairs whose keys begin with a prefix, or over all, in the order of their keys.
///
/// Between two steps the home may change: a step goes to the first pair ahead as the home is then.
#[derive(Drop)]
pub struct Walk {
    /// What the keys begin with; `None` for all keys.
    pub prefix: Option<Key>,
    /// The least key that the walk may come to; `None` after its end.
    pub place: Option<Key>,
    pub ghost within: { is_early prefix place ≡ false },
}

impl Walk {
    ghost use Rattle.bw_home.specs.Maps.{maps_of, StaysMap};
    ghost use Rattle.bw_home.specs.Ready.{kept_in, IsReady};

    /// A walk over all pairs.
    pub fn all() -> Walk
        ensures { (q : Bytes) → IsKey q → IsAhead result.prefix result.place q }
    {
        Walk {
            prefix: None,
            place: ended(&[], 0),
        }
    }

    /// A walk over the pairs whose keys begin with this one.
    pub fn over(prefix: Key) -> Walk
        ensures { (q : Bytes)
            → IsAhead result.prefix result.place q ↔ IsTrue (starts_with nat_eq q prefix) }
    {
        Walk {
            place: Some(prefix.copy()),
            prefix: Some(prefix),
        }
    }

    // Whether the walk goes over this key.
    fn goes_over(&self, key: &Key) -> bool
        ensures { result ≡ begins self.now.prefix key.now }
    {
        match &self.prefix {
            Some(prefix) => key.as_slice().starts_with(prefix.as_slice()),
            None => true,
        }
    }

    // Goes on after the first pair from the walk's place, and answers it, if its key is the walk's.
    // No key of the walk is above one that is not.
    fn pass(&mut self, first: Option<(Key, Value)>) -> Option<(Key, Value)>
        requires { IfSome first (λ pair. IsFrom self.old.place pair.0) }
        ensures value { (map : Map) → (at : Bytes) → self.old.place ≡ Some at
            → IsFirst map at first
            → IsNext map (IsAhead self.old.prefix self.old.place) result }
        ensures prefix { self.new.prefix ≡ self.old.prefix }
        ensures passed { HasPassed self.old.prefix self.old.place self.new.place result }
    {
        self.place = None;
        let (key, value) = first?;
        if !self.goes_over(&key) {
            return None;
        }
        self.place = after(&key);
        Some((key, value))
    }

    /// The first pair ahead, as `Home::next_at` reads it; `None` if there is none. The walk is then
    /// after that pair, or at its end, and reads no more from there.
    ///
    /// Refused as `Home::next_at` is: the walk stays where it was.
    pub fn next(&mut self, home: &mut Home) -> Result<Option<(Key, Value)>, StoreFault>
        requires { IsReady home.old holding }
        ensures value { IfOk result (λ pair. IsNext (maps_of home.old holding).now
            (IsAhead self.old.prefix self.old.place) pair) }
        ensures prefix { self.new.prefix ≡ self.old.prefix }
        ensures passed { IfOk result (λ pair.
            HasPassed self.old.prefix self.old.place self.new.place pair) }
        ensures unchanged { OnErr result (self.new ≡ self.old) }

        ensures ready { IsReady home.new holding }
        ensures feeds { home.new.feeds ≡ home.old.feeds }
        ensures ended { self.old.place ≡ None → home.new ≡ home.old }
        ensures read { HasRead (kept_in home.old holding) (kept_in home.new holding) }
        ensures follows { Follows (kept_in home.old holding) (kept_in home.new holding) }
        ensures boxes { HasBoxes (kept_in home.old holding) (kept_in home.new holding) }
        ensures stays { StaysMap home.old home.new holding }
    {
        let Some(place) = &self.place else {
            return Ok(None);
        };
        let first = home.next_at(place)?;
        Ok(self.pass(first))
    }
}

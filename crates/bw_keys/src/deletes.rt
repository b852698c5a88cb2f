//! Deletes of keys that were named, and of all keys of a stretch.

ghost use Rattle.std.specs.Prelude.{◌≡◌};

use crate::fault::KeysFault;
use crate::records::{Given, Records, none_given, note};
use crate::span::{Span, above};
use bw_codec::{Key, Pair, Record};
use bw_home::Home;
use bw_told::Told;
use std::alloc::Global;
use std::collections::VecDeque;

/// How many pairs of a stretch are looked up at once.
const PART: usize = 256;

/// Deletes of these keys.
#[derive(Drop)]
pub struct Named {
    keys: VecDeque<Key>,
    given: Told<Given>,
}

impl Named {
    /// Those of these keys, in their order.
    pub fn new(keys: VecDeque<Key>) -> Named {
        Named {
            keys,
            given: none_given(),
        }
    }
}

impl Records for Named {
    ghost given = { λ itself. itself.given.value };

    fn look(&mut self, _home: &mut Home) -> Result<(), KeysFault> {
        Ok(())
    }

    fn next_record(&mut self) -> Result<Option<Record>, KeysFault> {
        let answer = Ok(self.keys.pop_front().map(|key| Record::Del(key)));
        note(&mut self.given, &answer);
        answer
    }

    fn bytes(&self) -> u64 {
        0
    }
}

/// Deletes of all keys of a stretch that a store has, a part of them at a time.
#[derive(Drop)]
pub struct Sweep {
    span: Span,
    /// The key at which the next part begins, if there may be one.
    next: Option<Key>,
    /// The pairs of this part.
    part: Vec<Pair>,
    /// How many of them were handed out.
    passed: usize,
    given: Told<Given>,
}

impl Sweep {
    /// Those of this stretch.
    pub fn new(alloc: Global, span: Span) -> Sweep {
        let next = Some(span.start_key());
        Sweep {
            span,
            next,
            part: Vec::new(alloc),
            passed: 0,
            given: none_given(),
        }
    }

    /// The key of the next pair of this part.
    fn next_key(&mut self) -> Option<Key>
        ensures { self.new.given ≡ self.old.given }
    {
        let key = match self.part.get(self.passed) {
            Some(pair) => Key::new(pair.key()).ok(),
            None => None,
        };
        self.passed = self.passed.saturating_add(1);
        key
    }

    /// The delete of the next key, if it is of the stretch.
    fn next_delete(&mut self) -> Option<Record>
        ensures { self.new.given ≡ self.old.given }
    {
        match self.next_key() {
            Some(key) if !self.span.is_over(key.as_slice()) => Some(Record::Del(key)),
            _ => None,
        }
    }
}

impl Records for Sweep {
    ghost given = { λ itself. itself.given.value };

    fn look(&mut self, home: &mut Home) -> Result<(), KeysFault> {
        if self.passed < self.part.len() {
            return Ok(());
        }
        self.part.clear();
        self.passed = 0;
        let Some(key) = self.next.take() else {
            return Ok(());
        };
        home.scan_shared(&key, PART, &mut self.part)?;
        self.next = self.part.last().and_then(|pair| above(pair.key()));
        Ok(())
    }

    fn next_record(&mut self) -> Result<Option<Record>, KeysFault> {
        let answer = Ok(self.next_delete());
        note(&mut self.given, &answer);
        answer
    }

    fn bytes(&self) -> u64 {
        0
    }
}

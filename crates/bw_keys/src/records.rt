//! The records that go into a store, one after another.

ghost use Rattle.std.specs.Prelude.{◌≡◌, ◌++◌, [], List, Some, IfOk, IsSome, IsNone};
ghost use Rattle.bw_home.specs.Ready.{IsReady};
ghost use Rattle.bw_record.specs.declared.record.Record.{Record};
ghost use Rattle.bw_keys.specs.Loading.{got};

use crate::fault::KeysFault;
use bw_codec::Record;
use bw_home::Home;
use bw_pairs::Pairs;
use bw_told::Told;
use std::io::Read;
use std::marker::Model;

/// The type of the records that were handed out, one after another. Nobody makes one: only clauses
/// read it.
pub struct Given {}

impl Model for Given {
    ghost use Rattle.std.specs.Prelude.{List, []};
    ghost use Rattle.bw_record.specs.declared.record.Record.{Record};

    ghost Value = { List Record };

    ghost view = { λ _. [] };
}

/// Nothing was handed out.
pub(crate) fn none_given() -> Told<Given>
    ensures { result.value ≡ [] }
{
    Told::about(&())
}

/// Notes what an answer hands out.
pub(crate) fn note(given: &mut Told<Given>, answer: &Result<Option<Record>, KeysFault>)
    ensures { given.new.value ≡ given.old.value ++ got answer.now }
{
    *given = Told::about(&(&*given, answer));
}

/// Records, one after another.
pub trait Records: Drop {
    // The records that it handed out, in their order.
    ghost given: { Self → List Record };

    /// Looks into the store for the next ones, if it is that which says what they are.
    fn look(&mut self, home: &mut Home) -> Result<(), KeysFault>
        requires { IsReady home.old holding }
        ensures ready { IsReady home.new holding }
        ensures feeds { home.new.feeds ≡ home.old.feeds }
        ensures given { given self.new ≡ given self.old };

    /// The next one; `None` after the last.
    fn next_record(&mut self) -> Result<Option<Record>, KeysFault>
        ensures given { given self.new ≡ given self.old ++ got result };

    /// How many bytes of an input were read for those so far; 0 if there is none.
    fn bytes(&self) -> u64;
}

/// A single record.
#[derive(Drop)]
pub struct Single {
    item: Option<Record>,
    given: Told<Given>,
}

impl Single {
    /// This one.
    pub fn new(item: Record) -> Single
        ensures { result.item ≡ Some item }
    {
        Single {
            item: Some(item),
            given: none_given(),
        }
    }
}

impl Records for Single {
    ghost given = { λ itself. itself.given.value };

    fn look(&mut self, _home: &mut Home) -> Result<(), KeysFault> {
        Ok(())
    }

    fn next_record(&mut self) -> Result<Option<Record>, KeysFault> {
        let answer = Ok(self.item.take());
        note(&mut self.given, &answer);
        answer
    }

    fn bytes(&self) -> u64 {
        0
    }
}

/// The pairs of an input.
#[derive(Drop)]
pub struct Input<I> {
    pairs: Pairs<I>,
    given: Told<Given>,
}

impl<I> Input<I> {
    /// These.
    pub fn new(pairs: Pairs<I>) -> Input<I>
        ensures none { result.given.value ≡ [] }
        ensures pairs { result.pairs ≡ pairs }
    {
        Input {
            pairs,
            given: none_given(),
        }
    }

    /// The pairs that are left of it.
    pub fn into_pairs(self) -> Pairs<I>
        ensures { result ≡ self.pairs }
    {
        self.pairs
    }
}

impl<I: Read + Drop> Input<I> {
    ghost use Rattle.bw_pairs.specs.Records.{Reading};
    ghost use Rattle.bw_pairs.specs.Readings.{reading_of};
    ghost use Rattle.bw_keys.specs.Handed.{HasHanded, AreAll};

    /// The next record of the lines; `None` after the last. As long as the lines can be read, what
    /// was handed out is what they say, one record after another. At the end that is all of it.
    pub fn next_record(&mut self) -> Result<Option<Record>, KeysFault>
        ensures given { self.new.given.value ≡ self.old.given.value ++ got result }
        ensures handed { (from : Reading)
            → HasHanded from self.old.given.value (reading_of I.remaining self.old.pairs)
            → IfOk result (λ item. IsSome item
            → HasHanded from self.new.given.value (reading_of I.remaining self.new.pairs)) }
        ensures all { (from : Reading)
            → HasHanded from self.old.given.value (reading_of I.remaining self.old.pairs)
            → IfOk result (λ item. IsNone item → AreAll from self.new.given.value) }
    {
        let answer = match self.pairs.next_record() {
            Ok(item) => Ok(item),
            Err(fault) => Err(KeysFault::from(fault)),
        };
        note(&mut self.given, &answer);
        answer
    }
}

impl<I: Read + Drop> Records for Input<I> {
    ghost given = { λ itself. itself.given.value };

    fn look(&mut self, _home: &mut Home) -> Result<(), KeysFault> {
        Ok(())
    }

    fn next_record(&mut self) -> Result<Option<Record>, KeysFault> {
        Input::next_record(self)
    }

    fn bytes(&self) -> u64 {
        self.pairs.bytes()
    }
}

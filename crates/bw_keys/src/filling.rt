//! Records that come in the order of their keys, so that they fill their pages.

ghost use Rattle.std.specs.Prelude.{◌≡◌, ◌++◌, ◌⊎◌, [], true, false, None, IsNone, IsSome, IfOk, OnOk, List};
ghost use Rattle.bw_record.specs.declared.record.Record.{Record};
ghost use Rattle.bw_keys.specs.Loading.{got};

use crate::fault::KeysFault;
use crate::held::Held;
use crate::records::{Given, Records, none_given, note};
use bw_codec::Record;
use bw_home::Home;
use bw_told::Told;
use std::alloc::Global;

/// Records in an order that fills pages.
#[derive(Drop)]
pub struct Filling<S> {
    records: S,
    /// Those that were read and did not go in yet.
    held: Held,
    /// How the records ended, if they did.
    end: Option<Result<(), KeysFault>>,
    given: Told<Given>,
}

impl<S: Records> Filling<S> {
    ghost use Rattle.bw_keys.specs.Held.{goes_in, pending, IsIdle, AreAsRead};
    ghost use Rattle.bw_keys.specs.Filled.{IsFilled};

    /// These records, for pages of at most so many pairs.
    pub fn new(alloc: Global, records: S, pairs_a_page: u16) -> Filling<S>
        ensures records { result.records ≡ records }
        ensures filled { S.given records ≡ []
            → IsFilled result.given.value result.held (IsSome result.end) (S.given result.records) }
    {
        Filling {
            records,
            held: Held::new(alloc, pairs_a_page),
            end: None,
            given: none_given(),
        }
    }

    /// The records that it was made of, as far as they were not read.
    pub fn into_records(self) -> S {
        self.records
    }

    /// Reads the next record, if there is one. It is given back if it goes in now.
    fn read(&mut self) -> Result<Option<Record>, KeysFault>
        ensures given { self.new.given ≡ self.old.given }
        ensures read { IsIdle self.old.held → (given : List Record)
            → AreAsRead (given ++ pending self.old.held) (S.given self.old.records)
            → IfOk result (λ item. AreAsRead ((given ++ goes_in item) ++ pending self.new.held)
            (S.given self.new.records)) }
        ensures ended { IsNone self.old.end
            → OnOk result (IsSome self.new.end → self.new.held.is_released ≡ true) }
    {
        let end = match self.records.next_record() {
            Ok(Some(item)) => return Ok(self.held.accept(item)?),
            Ok(None) => Ok(()),
            Err(fault) => Err(fault),
        };
        self.end = Some(end);
        self.held.release();
        Ok(None)
    }

    /// The next one that goes in now.
    fn next_due(&mut self) -> Result<Option<Record>, KeysFault>
        ensures given { self.new.given ≡ self.old.given }
        ensures filled { IsFilled self.old.given.value self.old.held (IsSome self.old.end)
            (S.given self.old.records) → IfOk result (λ item.
            IsFilled (self.old.given.value ++ goes_in item) self.new.held (IsSome self.new.end)
            (S.given self.new.records)) }
        ensures all { IsFilled self.old.given.value self.old.held (IsSome self.old.end)
            (S.given self.old.records) → IfOk result (λ item.
            IsNone item → AreAsRead self.new.given.value (S.given self.new.records)) }
    {
        'records: for _ in 0..u64::MAX {
            match self.held.take() {
                Some(item) => return Ok(Some(item)),
                None => {}
            }
            match self.end {
                Some(Ok(())) => return Ok(None),
                Some(Err(fault)) => return Err(fault),
                None => {}
            }
            match self.read()? {
                Some(item) => return Ok(Some(item)),
                None => {}
            }
        }
        // No input has so many records that each one of them waits.
        Err(KeysFault::Input)
    }

    /// The next one in that order; `None` once all that were read went in. Of each key the records
    /// that were handed out, and those that wait, are those that were read, in their order.
    pub fn next_record(&mut self) -> Result<Option<Record>, KeysFault>
        ensures given { self.new.given.value ≡ self.old.given.value ++ got result }
        ensures filled { IsFilled self.old.given.value self.old.held (IsSome self.old.end)
            (S.given self.old.records) → OnOk result (IsFilled self.new.given.value
            self.new.held (IsSome self.new.end) (S.given self.new.records)) }
        ensures all { IsFilled self.old.given.value self.old.held (IsSome self.old.end)
            (S.given self.old.records) → IfOk result (λ item.
            IsNone item → AreAsRead self.new.given.value (S.given self.new.records)) }
    {
        let answer = self.next_due();
        note(&mut self.given, &answer);
        answer
    }
}

impl<S: Records> Records for Filling<S> {
    ghost given = { λ itself. itself.given.value };

    fn look(&mut self, home: &mut Home) -> Result<(), KeysFault> {
        self.records.look(home)
    }

    fn next_record(&mut self) -> Result<Option<Record>, KeysFault> {
        Filling::next_record(self)
    }

    fn bytes(&self) -> u64 {
        self.records.bytes()
    }
}

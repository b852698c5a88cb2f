//! A record in no more room than it takes, whose bytes are shared by all that hold it.

ghost use Rattle.std.specs.Prelude.{◌≡◌, IfOk, MatchResult, true, false};
ghost use Rattle.bw_record.specs.Record.{key_of};
ghost use Rattle.bw_record.specs.Lawful.{IsOp};
ghost use Rattle.bw_record.specs.declared.record.Record.TheVariants.{Put, Del};

use crate::key::Value;
use crate::pair::Pair;
use crate::record::Record;
use std::alloc::{AllocError, Global};
use std::marker::Model;

/// A record whose bytes may be shared. A `Record` has room for the longest key and the longest
/// value.
#[derive(Drop)]
pub struct Packed {
    /// Whether it is a put. Else what stands in the pair beside its key says nothing.
    puts: bool,
    pair: Pair,
}

impl Model for Packed {
    ghost use Rattle.bw_record.specs.declared.record.Record.{Record};

    ghost Value = { Record };

    ghost use Rattle.bw_record.specs.Packed.{unpacked};

    ghost view = { unpacked };
}

impl Packed {
    /// This record. It takes memory, whose refusal is the only error.
    pub fn of(alloc: Global, item: &Record) -> Result<Packed, AllocError>
        ensures { IfOk result (λ packed. packed ≡ item.now) }
    {
        match item {
            Record::Put(key, value) => Ok(Packed {
                puts: true,
                pair: Pair::of(alloc, key, value)?,
            }),
            Record::Del(key) => Ok(Packed {
                puts: false,
                pair: Pair::of(alloc, key, &nothing())?,
            }),
        }
    }

    /// A put of this pair. No memory is taken.
    pub fn put(pair: Pair) -> Packed
        ensures { result ≡ Put pair.0 pair.1 }
    {
        Packed { puts: true, pair }
    }

    /// A delete of this pair's key. No memory is taken.
    pub fn del(pair: Pair) -> Packed
        ensures { result ≡ Del pair.0 }
    {
        Packed { puts: false, pair }
    }

    /// The key that is changed.
    pub fn key(&self) -> &[u8]
        ensures value { result.now ≡ key_of self.now }
        ensures lawful { IsOp self.now }
    {
        // Shows the proof that the value is lawful.
        let _ = self.pair.value();
        self.pair.key()
    }

    /// The pair that it puts, or one whose key it deletes.
    pub fn pair(&self) -> Result<&Pair, &Pair>
        ensures { MatchResult result (λ pair. self.now ≡ Put pair.now.0 pair.now.1)
            (λ pair. self.now ≡ Del pair.now.0) }
    {
        if self.puts {
            Ok(&self.pair)
        } else {
            Err(&self.pair)
        }
    }

    /// The pair that it puts, or one whose key it deletes. No memory is taken.
    pub fn into_pair(self) -> Result<Pair, Pair>
        ensures { MatchResult result (λ pair. self ≡ Put pair.0 pair.1) (λ pair. self ≡ Del pair.0) }
    {
        let Packed { puts, pair } = self;
        if puts { Ok(pair) } else { Err(pair) }
    }

    /// A copy of this record, which shares its bytes. No memory is taken; it is refused only if the
    /// count of those that share is full.
    pub fn copy(&self) -> Result<Packed, AllocError>
        ensures { IfOk result (λ packed. packed ≡ self.now) }
    {
        Ok(Packed {
            puts: self.puts,
            pair: self.pair.copy()?,
        })
    }

    /// The record in fixed room. No memory is taken.
    pub fn record(&self) -> Record
        ensures { result ≡ self.now }
    {
        if self.puts {
            Record::Put(self.pair.to_key(), self.pair.to_value())
        } else {
            Record::Del(self.pair.to_key())
        }
    }
}

// The value of no bytes.
fn nothing() -> Value {
    match Value::new(&[]) {
        Ok(value) => value,
        Err(_) => unreachable!(),
    }
}

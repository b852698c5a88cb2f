//! A record is one change of one key.

ghost use Rattle.std.specs.Prelude.{◌≡◌};
ghost use Rattle.bw_record.specs.Record.{key_of};
ghost use Rattle.bw_record.specs.Lawful.{IsOp};

use crate::key::{Key, Value};

/// One change of one key.
#[derive(Debug, PartialEq, Eq, Drop)]
pub enum Record {
    /// The key has this value from now on.
    Put(Key, Value),
    /// The key has no value from now on.
    Del(Key),
}

impl Record {
    /// The key that is changed.
    pub fn key(&self) -> &Key
        ensures value { result.now ≡ key_of self.now }
        ensures lawful { IsOp self.now }
    {
        match self {
            // The calls show the proof that these lengths are lawful.
            Record::Put(key, value) => {
                let _ = key.as_slice(); // For the proof.
                let _ = value.as_slice(); // For the proof.
                key
            }
            Record::Del(key) => {
                let _ = key.as_slice(); // For the proof.
                key
            }
        }
    }

    /// A copy of this record. No memory is taken.
    pub fn copy(&self) -> Record
        ensures { result ≡ self.now }
    {
        match self {
            Record::Put(key, value) => Record::Put(key.copy(), value.copy()),
            Record::Del(key) => Record::Del(key.copy()),
        }
    }
}

//! What the calls answer to C: numbers, which the header names.

ghost use Rattle.std.specs.Prelude.{◌≡◌};

use bw_care::RecoverCause;
use bw_device::{NotMade, NotTaken, Refused};
use bw_digest::Damage;
use std::alloc::{AllocError, AllocFailed};

/// The call was done.
pub(crate) const DONE: i32 = 0;

/// Why there are no pairs.
#[derive(Debug, Clone, Copy, PartialEq, Eq)]
pub(crate) enum Fault {
    /// There was no memory for it.
    NoMemory,
    /// No frame in the segments is whole.
    NoStore,
    /// What is there is no store, or one that was changed.
    Damaged,
}

impl Fault {
    ghost use Rattle.bw_reading.specs.Answers.{number_of};

    /// The number of it.
    pub(crate) fn number(self) -> i32
        ensures { result ≡ number_of self }
    {
        match self {
            Fault::NoMemory => -1,
            Fault::NoStore => -12,
            Fault::Damaged => -13,
        }
    }
}

impl From<AllocError> for Fault {
    ghost use Rattle.bw_reading.specs.declared.answer.Fault.TheVariants.{NoMemory};

    ghost from_gives = { λ _ fault. fault ≡ NoMemory };

    fn from(_error: AllocError) -> Fault {
        Fault::NoMemory
    }
}

impl<T: Drop> From<AllocFailed<T>> for Fault {
    ghost use Rattle.bw_reading.specs.declared.answer.Fault.TheVariants.{NoMemory};

    ghost from_gives = { λ _ fault. fault ≡ NoMemory };

    fn from(_error: AllocFailed<T>) -> Fault {
        Fault::NoMemory
    }
}

impl From<Damage> for Fault {
    ghost use Rattle.bw_reading.specs.declared.answer.Fault.TheVariants as fault;

    ghost from_gives = { λ _ told. told ≡ fault.Damaged };

    fn from(_error: Damage) -> Fault {
        Fault::Damaged
    }
}

impl From<NotTaken> for Fault {
    fn from(fault: NotTaken) -> Fault {
        match fault {
            NotTaken::NoMemory => Fault::NoMemory,
            _ => Fault::Damaged,
        }
    }
}

impl From<NotMade> for Fault {
    fn from(fault: NotMade) -> Fault {
        match fault {
            NotMade::NoMemory => Fault::NoMemory,
            _ => Fault::Damaged,
        }
    }
}

impl From<Refused> for Fault {
    fn from(refused: Refused) -> Fault {
        Fault::from(refused.cause)
    }
}

impl From<RecoverCause> for Fault {
    ghost use Rattle.bw_reading.specs.Answers.{fault_of};

    ghost from_gives = { λ cause fault. fault ≡ fault_of cause };

    fn from(cause: RecoverCause) -> Fault {
        match cause {
            RecoverCause::NoMemory => Fault::NoMemory,
            RecoverCause::Empty => Fault::NoStore,
            _ => Fault::Damaged,
        }
    }
}

//! Why a call on tables was refused, as it is said to people.

use bw_calls::TableFault;
use bw_core::StoreFault;
use bw_home::{HomeFault, MapFault};
use bw_keys::{KeysFault, TableRefusal};
use bw_pairs::{LineFault, WordFault};

/// Why the store was refused to take or to keep something. If there is no cause, the queue was
/// full, which holds no more than a call puts: that is no lack of a segment.
fn of_map(fault: MapFault) -> KeysFault {
    match fault {
        MapFault::NotPut(Some(cause)) | MapFault::Waits(cause) | MapFault::NotKept(cause) => {
            KeysFault::from(cause)
        }
        MapFault::Writers | MapFault::NotPut(None) => KeysFault::from(StoreFault::Failed),
    }
}

/// Why a call was refused.
pub fn told(fault: TableFault) -> KeysFault {
    match fault {
        TableFault::NoTable => KeysFault::Table(TableRefusal::NoTable),
        TableFault::Exists => KeysFault::Table(TableRefusal::Exists),
        TableFault::TooMany => KeysFault::Table(TableRefusal::TooMany),
        TableFault::TooLong => KeysFault::Word("VALUE", LineFault::BadLong),
        TableFault::NoMemory => KeysFault::Home(HomeFault::NoMemory),
        TableFault::NotTables | TableFault::Unfinished => KeysFault::Table(TableRefusal::Broken),
        TableFault::NotRead(cause) | TableFault::Waits(cause) => KeysFault::from(cause),
        TableFault::NotMade(fault) | TableFault::NotKept(fault) => of_map(fault),
    }
}

/// What a call answered, if its step is made: it is also if it waits, since the next call takes it
/// first.
pub fn is_made(answer: &Result<(), TableFault>) -> bool {
    matches!(answer, Ok(()) | Err(TableFault::Waits(_)))
}

/// An answer, as it is said.
pub fn answer_of(answer: Result<(), TableFault>) -> Result<(), KeysFault> {
    match answer {
        Ok(()) => Ok(()),
        Err(fault) => Err(told(fault)),
    }
}

/// Whether a segment was wanted and too few spares stood.
pub fn is_full(fault: &KeysFault) -> bool {
    matches!(
        fault,
        KeysFault::Home(HomeFault::Store(StoreFault::NoSegment))
    )
}

/// Why a word of the command line is none.
pub fn of_word(name: &'static str, fault: WordFault) -> KeysFault {
    match fault {
        WordFault::NoMemory => KeysFault::Home(HomeFault::NoMemory),
        WordFault::Line(fault) => KeysFault::Word(name, fault),
    }
}

//! The lines of an input over a store, and how far these are.

ghost use Rattle.bw_home.specs.Ready.{IsReady};

use crate::shell::Shell;
use crate::tended::Tending;
use bw_home::Home;
use bw_pairs::Lines;
use bw_words::{Command, Fault, Manner, Met, NotTyped, Reading, Request, Stop, TableCall, Typed};

/// What a line asks for.
#[derive(Drop)]
pub(crate) enum Asked {
    /// Nothing: there is no further line.
    Nothing,
    Command(Command),
    Request(Request),
    /// What a shell asks before its next line.
    Ahead(Request),
    /// A call on tables.
    Tables(TableCall),
    /// It is no request, for this reason.
    NoRequest(Fault),
    /// The line of a batch that has this number, from 1, makes no change, for this reason.
    NoBatch(u32, Fault),
    /// What a person typed.
    Typed(Result<Typed, NotTyped>),
    /// Nothing more before a shell ends.
    Over,
}

/// What came of a line.
#[derive(Debug, Clone, Copy, PartialEq, Eq)]
pub(crate) enum Done {
    /// There was none.
    End,
    /// It was answered.
    Answered,
    /// A spare was made, and the line is answered once that was added.
    Add,
    /// The folder is to be opened once more.
    Reopen,
    /// A spare was made, of which no line speaks: the line is answered, or is asked again then.
    Room,
}

/// What a store has that ends to be opened once more, in records.
#[derive(Debug, Clone, Copy)]
pub(crate) struct Ended {
    /// How many were accepted.
    pub(crate) accepted: u64,
    /// How many of them are durable.
    pub(crate) durable: u64,
    /// How many there are if the frame of a failed append is found whole.
    pub(crate) sealed: u64,
    /// The number of that frame.
    pub(crate) next: u64,
}

impl Ended {
    /// What this store has, which accepted so many records.
    pub(crate) fn of(home: &Home, accepted: u64) -> Ended
        requires { IsReady home.now holding }
    {
        let durable = home.store.durable_end() as u64;
        Ended {
            accepted,
            durable,
            sealed: home.store.cuts().last().copied().unwrap_or(durable),
            next: home.store.next_frame().unwrap_or(u64::MAX),
        }
    }

    /// How many records are gone, if this frame is the last that was found.
    pub(crate) fn lost(self, last: u64) -> u64 {
        let kept = if last >= self.next {
            self.sealed
        } else {
            self.durable
        };
        self.accepted.saturating_sub(kept)
    }
}

/// The lines of an input, over a store.
#[derive(Drop)]
pub(crate) struct Script<'a, I, O, W> {
    pub(crate) manner: Manner,
    /// How the words of a line give their bytes.
    pub(crate) reading: Reading,
    /// How many writers the store has.
    pub(crate) writers: usize,
    /// Whether the file of what was given up is a spare again.
    pub(crate) reuse: bool,
    pub(crate) lines: Lines<I>,
    pub(crate) output: &'a mut O,
    pub(crate) watch: &'a mut W,
    /// How the store is tended.
    pub(crate) tending: Tending,
    /// Whether the store stands in a folder.
    pub(crate) in_folder: bool,
    /// Whether it was said that there are nearly as many segments as there may be.
    pub(crate) has_warned: bool,
    /// What the store before this one had.
    pub(crate) ended: Option<Ended>,
    /// What came of the last line; none before the first leg.
    pub(crate) done: Option<Done>,
    /// Whether the last line is asked again.
    pub(crate) is_again: bool,
    /// What a shell has to do before its next line.
    pub(crate) shell: Shell,
    /// How many records that line took, a turn, before it was.
    pub(crate) taken: u64,
    /// How many pairs of that line are put, if it puts some.
    pub(crate) put: Option<u64>,
    /// What that line asks of tables, if it is asked again.
    pub(crate) call: Option<TableCall>,
    /// Whether the answer of the last line is a receipt.
    pub(crate) is_receipt: bool,
    /// What was met so far, or what ends it.
    pub(crate) end: Result<Met, Stop>,
}

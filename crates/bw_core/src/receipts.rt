//! How much of what a writer put is durable.
//!
//! What is durable is a beginning of the history, up to a cut, and a writer wants to know of its
//! own records. No list of the records of each writer is kept: of the few after the durable cut
//! those that are the writer's are counted, and taken from all that it gave.

ghost use Rattle.std.specs.Prelude.{◌≡◌, length};
ghost use Rattle.bw_core.specs.Machine.{machine_of};
ghost use Rattle.bw_history.specs.Machine.{IsMachine};
ghost use Rattle.bw_history.specs.History.{of_writer, upto};

use crate::store::Core;

impl Core {
    ghost use Rattle.bw_core.specs.Views.{kept_by, IsSound};

    /// How many records of a writer stand in appended frames: so many of the first that its feed
    /// accepted will be found by every recovery from here on, whatever stops. 0 for a number that
    /// no writer has.
    ///
    /// It takes no memory, and costs a step for each record that was taken since the last append.
    pub fn durable_of(&self, writer: u16) -> u64
        requires { IsSound self.now holding }
        ensures { result ≡ length (of_writer writer (upto (kept_by self.now holding).cuts
            (kept_by self.now holding).entries (kept_by self.now holding).durable)) }
    {
        self.intake.count_upto(writer, self.durable_end())
    }

    /// The history's length at the durable cut: so much of it a stop leaves at least. A store is a
    /// machine that lost nothing of it. No memory is taken.
    pub fn durable_end(&self) -> usize
        requires { IsSound self.now holding }
        ensures value { result ≡ (machine_of (kept_by self.now holding)).durable }
        ensures machine { IsMachine (machine_of (kept_by self.now holding)) }
    {
        if self.seals.durable == 0 {
            return 0;
        }
        self.seals.cuts[self.seals.durable as usize - 1] as usize
    }
}

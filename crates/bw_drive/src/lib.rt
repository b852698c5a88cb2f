//! Writers in threads of their own over one store: what a run of them leaves is what `settle`
//! leaves, and each feed accepted a beginning of its script.
//!
//! `drive` starts a thread for each writer, and its caller's thread owns the store meanwhile: it
//! turns, flushes and cleans until they have ended. Writers and store meet only in the rings. The
//! flags that ask the writers to stop, and by which they say that they have ended, are in no proof:
//! what holds, holds whenever anybody looks at them.
//!
//! That is enough, since a ring keeps what was put into it whatever its other end does, and the
//! store settles once all writers have ended. So a flag that is seen late costs a round more, and
//! nothing else.
#![tactic(auto)]

mod driven;
mod driver;
mod flags;
mod gate;
mod pace;
mod plan;
mod store_thread;
mod writer_threads;
mod writers;

pub use driven::{DriveFault, Driven};
pub use driver::drive;
pub use gate::{Gate, MeetGate, OpenGate};
pub use plan::Plan;

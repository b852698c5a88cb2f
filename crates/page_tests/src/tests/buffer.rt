//! `bw_buffer`: buffers write the worked bytes of `docs/FORMAT.md`, and a record joins the last Delta
//! of its page in a frame.
//!
//! Tables of steps, each walked to the first that goes otherwise than expected.

mod buffers;
mod joining;

// An owner of the block of a run, with the allocator that the block goes back to, which takes no
// bytes.
ghost use Rattle.std.specs.Prelude.{◌≡◌, ◌∷◌, ◌++◌, ◌<◌, ◌^◌, List, ℕ, IfOk, IfSome};
ghost use Rattle.bw_run.specs.Ownership.{run_owns, run_shares};

use crate::room::{Head, Room, reserve};
use std::alloc::{AllocError, Global};
use std::marker::{Brand, Model};
use std::slice;
use std::sync::atomic::Ordering::SeqCst;
use std::sync::atomic::raw;

// No run is longer: its length has two bytes.
const MOST: usize = 65_535;

/// Bytes in one run of memory, which its owners share. A run of more than 65,535 bytes is refused
/// as one for which there is no memory.
pub struct Run {
    pub(crate) ptr: *const Head,
    pub(crate) alloc: Global,
    pub ghost bytes: { List ℕ },
}

impl Model for Run {
    ghost also_owns = { λ r. run_owns r.ptr r.bytes };

    ghost also_shares = { λ r _ κ. run_shares r.ptr r.bytes κ };
}

impl Run {
    /// A run of this byte and, after it, of the bytes of both. It takes memory, whose refusal is
    /// the only error but for a run of more than 65,535 bytes.
    pub fn of_parts(alloc: Global, head: u8, first: &[u8], second: &[u8]) -> Result<Run, AllocError>
        ensures { IfOk result (λ run. run.bytes ≡ head ∷ first.now ++ second.now) }
    {
        if MOST < first.len() || MOST - first.len() <= second.len() {
            return Err(AllocError);
        }
        let (front, mut slots) = reserve(&alloc, 1 + first.len() + second.len())?.open();
        slots.put(0, head);
        slots.copy_in(1, first);
        slots.copy_in(1 + first.len(), second);
        Ok(front.close(slots, alloc))
    }

    /// Its bytes.
    pub fn as_slice(&self) -> &[u8]
        ensures { result.now ≡ self.now.bytes }
    {
        let ptr = self.ptr;
        unsafe { slice::from_raw_parts((ptr as *const u8).add(10), (*ptr).len as usize) }
    }

    /// One more owner of the same bytes, in the same place. No memory is taken; it is refused only if
    /// the count of the owners is full.
    pub fn share(&self) -> Result<Run, AllocError>
        ensures bytes { IfOk result (λ run. run.bytes ≡ self.now.bytes) }
        ensures shares { IfOk result (λ run. run.ptr ≡ self.now.ptr) }
    {
        match self.another() {
            Some(run) => Ok(run),
            None => Err(AllocError),
        }
    }

    fn another(&self) -> Option<Run>
        ensures { IfSome result (λ run. (run.bytes ≡ self.now.bytes) × (run.ptr ≡ self.now.ptr)) }
    {
        let ptr = self.ptr;
        let alloc = self.alloc;
        let n = unsafe { raw::saturating_increment::<Brand>(&raw const (*ptr).count, SeqCst) };
        if n < 0x7fff_ffff_ffff_ffff {
            Some(Run { ptr, alloc })
        } else {
            None
        }
    }

    fn allocator(&self) -> Global {
        self.alloc
    }

    // The last owner gets the block. No clause says that it does: if it did not, memory would grow,
    // which tests/program/steady.py asks of the program.
    fn release(self) -> Option<Room>
        ensures { IfSome result (λ room. room.len < 2 ^ 16) }
    {
        let Run { ptr, alloc: _ } = self;
        let n = unsafe { raw::fetch_sub::<Brand>(&raw const (*ptr).count, 1, SeqCst) };
        if n != 1 {
            return None;
        }
        let len = unsafe { (*ptr).len as usize };
        let ptr = ptr.cast_mut();
        Some(Room { ptr, len })
    }
}

impl Drop for Run {
    fn drop(self) {
        let alloc = self.allocator();
        if let Some(room) = self.release() {
            room.free(&alloc);
        }
    }
}

unsafe impl Send for Run {}

unsafe impl Sync for Run {}

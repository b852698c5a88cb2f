// The block of a run while nothing is written in it.
ghost use Rattle.std.specs.Prelude.{◌≡◌, ◌<◌, ◌^◌, IfOk};
ghost use denote.RawPtr.{◌+ₚ◌};
ghost use Rattle.core.specs.Mem.Slots.{slots_ptr, slots_len, slots_items, IsFull};
ghost use Rattle.bw_run.specs.Ownership.{room_owns, front_owns};

use crate::run::Run;
use core::slots::Slots;
use std::alloc::{AllocError, Allocator, Global};
use std::marker::Model;

// How a block begins. The bytes lie right after the length, at 10, where this type has padding.
pub(crate) struct Head {
    pub(crate) count: u64,
    pub(crate) len: u16,
}

// A block with room for a count, a length and `len` bytes.
pub(crate) struct Room {
    pub(crate) ptr: *mut Head,
    pub(crate) len: usize,
}

impl Model for Room {
    ghost also_owns = { λ r. room_owns r.ptr r.len };
}

// A block with room for a count and a length, without the room for the bytes.
pub(crate) struct Front {
    pub(crate) ptr: *mut Head,
    pub(crate) len: usize,
}

impl Model for Front {
    ghost also_owns = { λ f. front_owns f.ptr f.len };
}

pub(crate) fn reserve(alloc: &Global, len: usize) -> Result<Room, AllocError>
    requires { len < 2 ^ 16 }
    ensures { IfOk result (λ room. room.len ≡ len) }
{
    match alloc.allocate((len + 17) / 8 * 8, 8) {
        Ok(block) => {
            let ptr = block as *mut Head;
            Ok(Room { ptr, len })
        }
        Err(refused) => Err(refused),
    }
}

impl Room {
    pub(crate) fn free(self, alloc: &Global)
        requires { self.len < 2 ^ 16 }
    {
        let Room { ptr, len } = self;
        unsafe {
            alloc.deallocate(ptr as *mut u8, (len + 17) / 8 * 8, 8);
        }
    }

    pub(crate) fn open(self) -> (Front, Slots<u8>)
        requires { self.len < 2 ^ 16 }
        ensures { (result.0.len ≡ self.len) × (slots_len result.1 ≡ self.len) × (slots_ptr result.1 ≡ result.0.ptr +ₚ 10) }
    {
        let Room { ptr, len } = self;
        let slots = unsafe { Slots::from_raw_parts((ptr as *mut u8).add(10), len) };
        (Front { ptr, len }, slots)
    }
}

impl Front {
    pub(crate) fn close(self, slots: Slots<u8>, alloc: Global) -> Run
        requires small { self.len < 2 ^ 16 }
        requires places { (slots_ptr slots ≡ self.ptr +ₚ 10) × (slots_len slots ≡ self.len) }
        requires full { IsFull slots }
        ensures { result.bytes ≡ slots_items slots }
    {
        let Front { ptr, len } = self;
        let _parts = unsafe { slots.into_raw_parts() };
        unsafe {
            (*ptr).count = 1;
            (*ptr).len = len as u16;
        }
        Run { ptr, alloc }
    }
}

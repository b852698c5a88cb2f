// The right to a number, and the desk that gives it out.
ghost use Rattle.std.specs.Prelude.{◌≡◌, ◌+◌, ◌<◌, ◌≤◌, ◌↔◌, ◌⊎◌, length, map, All, IsTrue, IfOk, OnErr, IsErrOf, Some, true, false, not, is_some, replicate, position, slice_get, slice_set};
ghost use Rattle.bw_device.specs.Slots.{out_count, OnlyFrees};
ghost use Rattle.bw_device.specs.declared.leases.TheConstants.{MAX_LEASES};

use crate::refusals::{NotMade, NotTaken};
use std::alloc::Global;
use std::marker::Model;
use std::sync::Arc;
use std::sync::atomic::{AtomicBool, Ordering};

/// The greatest number of leases of a desk.
pub const MAX_LEASES: u32 = 4096;

/// The right to a number, which no other lease of the same desk has. It comes back when it is
/// dropped, by one atomic store.
#[derive(Debug)]
pub struct Lease {
    number: u32,
    /// Shared with the desk, and true from the drop on.
    returned: Arc<AtomicBool>,
}

impl Drop for Lease {
    fn drop(self) {
        self.returned.store(true, Ordering::SeqCst);
        let Lease {
            number: _,
            returned: _,
        } = self;
    }
}

impl Lease {
    ghost use Rattle.bw_device.specs.Leases.{number_of};

    /// The lease's number: from 0, below the number of leases of its desk.
    pub fn number(&self) -> u32
        ensures { result ≡ number_of self.now }
    {
        self.number
    }
}

// The flag of a lease that is out, by which it comes back.
type Slot = Option<Arc<AtomicBool>>;

/// Leases 0, 1, .., each of which is out or free.
///
/// Contracts see it as the list that says of each number whether it is out. A lease that was
/// dropped is out until the next `collect`.
pub struct Desk {
    slots: Vec<Slot>,
}

impl Drop for Desk {
    fn drop(self) {
        let Desk { slots: _ } = self;
    }
}

impl Model for Desk {
    ghost use Rattle.std.specs.Prelude.{◌≤◌, Bool, List, length, map, is_some};
    ghost use Rattle.bw_device.specs.declared.leases.TheConstants.{MAX_LEASES};

    ghost Value = { List Bool };

    ghost view = { λ d. map is_some d.slots.items };

    ghost invariant = { λ d. length d.slots.items ≤ MAX_LEASES };
}

impl Desk {
    ghost use Rattle.bw_device.specs.Leases.{number_of};

    /// A desk of leases 0 to n - 1, all free. `BadConfig` is looked at before `NoMemory`.
    pub fn new(alloc: Global, n: u32) -> Result<Desk, NotMade>
        ensures free { IfOk result (λ desk. desk ≡ replicate n false) }

        ensures bad_config { IsErrOf result NotMade.BadConfig ↔ ((n ≡ 0) ⊎ (MAX_LEASES < n)) }
    {
        if n == 0 || n > MAX_LEASES {
            return Err(NotMade::BadConfig);
        }
        let Ok(mut slots) = Vec::with_capacity(alloc, n as usize) else {
            return Err(NotMade::NoMemory);
        };
        for _ in 0..n {
            slots.push_reserved(None);
        }
        Ok(Desk { slots })
    }

    /// Takes the lease of the least number that is not out.
    ///
    /// It allocates the lease's flag. `NoLease` is looked at before `NoMemory`. The cost is at most
    /// linear in the number of leases.
    pub fn take(&mut self) -> Result<Lease, NotTaken>
        ensures taken { IfOk result
            (λ lease. self.new ≡ slice_set self.old (number_of lease) true) }
        ensures least { IfOk result (λ lease. position not self.old ≡ Some (number_of lease)) }

        ensures no_lease { IsErrOf result NotTaken.NoLease ↔ All IsTrue self.old }
        ensures unchanged { OnErr result (self.new ≡ self.old) }
    {
        let Some(number) = least_free(&self.slots) else {
            return Err(NotTaken::NoLease);
        };
        let Ok(flag) = Arc::new(*self.slots.allocator(), AtomicBool::new(false)) else {
            return Err(NotTaken::NoMemory);
        };
        let Ok(returned) = flag.clone() else {
            return Err(NotTaken::NoMemory);
        };
        self.slots[number] = Some(flag);
        Ok(Lease {
            number: number as u32,
            returned,
        })
    }

    /// Frees the leases that came back, and answers how many. The cost is linear in the number of
    /// leases.
    pub fn collect(&mut self) -> u32
        ensures only_frees { OnlyFrees self.old self.new }
        ensures answer { out_count self.new + result ≡ out_count self.old }
    {
        take_in(&mut self.slots)
    }

    /// Whether lease n is out. A number beyond the desk's is not.
    pub fn is_out(&self, n: u32) -> bool
        ensures { IsTrue result ↔ (slice_get self.now n ≡ Some true) }
    {
        match self.slots.get(n as usize) {
            Some(slot) => slot.is_some(),
            None => false,
        }
    }
}

// The least number that is free.
fn least_free(slots: &[Slot]) -> Option<usize>
    ensures { result ≡ position (λ slot. not (is_some slot)) slots.now }
{
    slots.iter().position(|slot| slot.is_none())
}

// Whether the lease of this slot is out and came back.
fn came_back(slot: &Slot) -> bool
    ensures { IsTrue result → IsTrue (is_some slot.now) }
{
    match slot {
        Some(returned) => returned.load(Ordering::SeqCst),
        None => false,
    }
}

// Frees the slots whose lease came back, and answers how many.
fn take_in(slots: &mut [Slot]) -> u32
    requires { length slots.old ≤ MAX_LEASES }
    ensures only_frees { OnlyFrees (map is_some slots.old) (map is_some slots.new) }
    ensures answer { out_count (map is_some slots.new) + result ≡
        out_count (map is_some slots.old) }
{
    let mut freed = 0;
    for i in 0..slots.len() {
        if came_back(&slots[i]) {
            slots[i] = None;
            freed += 1;
        }
    }
    freed
}

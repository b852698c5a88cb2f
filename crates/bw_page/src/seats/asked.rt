//! What the clock is told of seats, and which of them it answers.

ghost use Rattle.std.specs.Prelude.{◌≡◌, ◌<◌, ◌+◌, false, length, IfSome};
ghost use Rattle.bw_page.specs.Seats.{is_among};

use super::{Seat, Seats};
use crate::clock::Clock;

/// What the hand of the clock meets.
enum Met {
    /// A seat whose leaf is not in memory.
    Away,
    /// One in memory that somebody asked for.
    Asked,
    /// One in memory that nobody asked for.
    Idle,
}

impl Seat {
    /// How many bytes the clock counts for it.
    pub(super) fn counted(&self) -> u32 {
        match &self.leaf {
            Some(_) => self.len,
            None => 0,
        }
    }

    /// Notes that somebody asked for the leaf, if it is in memory.
    pub(super) fn ask(&mut self, clock: &mut Clock, at: usize)
        ensures { self.new ≡ self.old }
    {
        if self.leaf.is_none() {
            return;
        }
        self.asked = true;
        if !self.in_ring {
            self.in_ring = clock.enter(at);
        }
    }

    /// Notes that somebody asked for the leaf, which is in memory. The clock counted `was` bytes
    /// for it, and it has `len` now.
    pub(super) fn settle(&mut self, clock: &mut Clock, at: usize, was: u32, len: u32)
        requires here { self.old.is_evicted ≡ false }
        ensures { self.new ≡ self.old }
    {
        self.len = len;
        clock.recount(was, len);
        self.ask(clock, at);
    }

    /// Notes that somebody changed the leaf, which is in memory: it lost so many bytes, and has so
    /// many more.
    pub(super) fn resize(&mut self, clock: &mut Clock, at: usize, less: u32, more: u32)
        requires here { self.old.is_evicted ≡ false }
        ensures { self.new ≡ self.old }
    {
        let was = self.len;
        let len = was.saturating_add(more).saturating_sub(less);
        self.settle(clock, at, was, len);
    }

    /// Takes this seat out of the clock: there is none at the index any more.
    pub(super) fn leave(&self, clock: &mut Clock, at: usize) {
        clock.recount(self.counted(), 0);
        if self.in_ring {
            clock.forget(at);
        }
    }

    /// The hand of the clock meets it. If somebody asked for it, that is forgotten.
    fn pass(&mut self) -> Met
        ensures same { self.new ≡ self.old }
        ensures here { result ≡ Met.Idle → self.old.is_evicted ≡ false }
    {
        if self.leaf.is_none() {
            self.in_ring = false;
            return Met::Away;
        }
        if self.asked {
            self.asked = false;
            return Met::Asked;
        }
        Met::Idle
    }
}

impl Seats {
    /// How many bytes the leaves in memory have, as Bases.
    pub(crate) fn bytes_here(&self) -> u64 {
        self.clock.bytes()
    }

    /// Notes that somebody asked for the leaf at an index, if there is one in memory.
    pub(crate) fn ask(&mut self, at: usize)
        ensures { self.new ≡ self.old }
    {
        if at < self.seats.as_slice().len() {
            self.seats[at].ask(&mut self.clock, at);
        }
    }

    /// The index of the next leaf that may leave memory: one that is there, and that nobody asked
    /// for since the hand passed it last. None if two rounds of the hand find none.
    pub(crate) fn next_to_leave(&mut self) -> Option<usize>
        ensures same { self.new ≡ self.old }
        ensures within { IfSome result (λ at. at < length self.old.items) }
        ensures here { IfSome result (λ at. is_among (at + 1) self.old.evicted ≡ false) }
    {
        for _ in 0..self.clock.two_rounds() {
            let met = self.meet();
            if met.is_some() {
                return met;
            }
        }
        None
    }

    // The hand meets one seat: its index, if the leaf there may leave memory.
    fn meet(&mut self) -> Option<usize>
        ensures same { self.new ≡ self.old }
        ensures within { IfSome result (λ at. at < length self.old.items) }
        ensures here { IfSome result (λ at. is_among (at + 1) self.old.evicted ≡ false) }
    {
        let Some(at) = self.clock.at_hand() else {
            return None;
        };
        if at >= self.seats.as_slice().len() {
            self.clock.take_out();
            return None;
        }
        match self.seats[at].pass() {
            Met::Away => self.clock.take_out(),
            Met::Asked => self.clock.go_on(),
            Met::Idle => {
                self.clock.go_on();
                return Some(at);
            }
        }
        None
    }
}

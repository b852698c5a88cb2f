//! Pages leave memory by themselves, so that those that stay take no more than so many bytes.
//!
//! Which page leaves is the clock's choice: a hand goes round over the pages in memory, and a page
//! that was read or changed since it came by is passed once. So what is asked for often stays, and
//! nothing is kept in the order of its last use, which each read would have to change.
//!
//! A page that many flushes changed would be read from as many frames. So whoever asks may have
//! such pages named in place of leaving, and write them again, whole, before.

ghost use Rattle.std.specs.Prelude.{◌≡◌, ◌≤◌, false, length};
ghost use Rattle.bw_making.specs.Overlay.{is_made};

use crate::store::Core;

/// A page that would be read from more frames than these is written again before it leaves.
const LONG: u64 = 4;

/// How many pages are passed at most that stay, though nobody asked for them.
const STAYING: u32 = 64;

impl Core {
    ghost use Rattle.bw_core.specs.Keeping.{KeepsPages};
    ghost use Rattle.bw_core.specs.Views.{kept_by, noted_of, IsSound};

    /// Lets pages leave memory until those that stay take at most so many bytes, and answers how
    /// many they take then. A page is counted as its Base; in memory it takes some 60 to 80 bytes
    /// more for each pair. The pages are not lost: they are then read from the log. A page that a
    /// record changes comes back, and a read brings none back. No clause says how many leave, or
    /// which.
    ///
    /// If `long` has a capacity, a page that would be read from more than four frames stays, and
    /// its number goes into `long`, if there is room. Whoever hands these to `rewrite` and then to
    /// `evict`, and asks again, keeps reading short. A page that the frame in the making makes or
    /// cuts stays too, so this is best asked after a flush. After 64 pages that stay for one of
    /// these reasons it ends.
    ///
    /// No memory is taken, and nothing is refused. It costs work for each page that leaves or is
    /// passed, however many pages there are, and nothing while they take less.
    pub fn keep_pages(&mut self, bytes: u64, long: &mut Vec<u32>) -> u64
        requires { IsSound self.old holding }
        ensures { KeepsPages self.old self.new holding }
    {
        self.let_some_go(bytes, long);
        self.pages.leaves.bytes_here()
    }

    /// How many bytes the pages in memory take, each counted as its Base.
    pub fn bytes_here(&self) -> u64
        requires { IsSound self.now holding }
    {
        self.pages.leaves.bytes_here()
    }

    /// Notes that somebody asked for a page in memory, which stays longer for that.
    pub(crate) fn note_asked(&mut self, page: u32)
        requires { IsSound self.old holding }
        ensures sound { IsSound self.new holding }
        ensures same { kept_by self.new holding ≡ kept_by self.old holding }
        ensures pages { self.new.pages.leaves ≡ self.old.pages.leaves }
        ensures noted { noted_of self.new ≡ noted_of self.old }
    {
        self.pages.leaves.ask(page);
    }

    // Lets pages leave until those that stay take at most so many bytes, or too many may not leave.
    fn let_some_go(&mut self, bytes: u64, long: &mut Vec<u32>)
        requires { IsSound self.old holding }
        ensures { KeepsPages self.old self.new holding }
    {
        let mut staying = 0;
        'hand: for _ in 0..self.pages.leaves.count() {
            if self.pages.leaves.bytes_here() <= bytes || staying >= STAYING {
                return;
            }
            let Some(page) = self.pages.leaves.next_to_leave() else {
                return;
            };
            if !self.let_go(page, long) {
                staying += 1;
            }
        }
    }

    // Lets a page leave that is in memory, and says whether it did.
    fn let_go(&mut self, page: u32, long: &mut Vec<u32>) -> bool
        requires sound { IsSound self.old holding }
        requires inside { (1 ≤ page) × (page ≤ length self.old.pages.leaves.leaves) }
        ensures { KeepsPages self.old self.new holding }
    {
        if self.is_made(page) || self.is_long(page, long) {
            return false;
        }
        self.leave(page);
        true
    }

    // Whether a page is to be written again before it leaves: then it stands among these, as far as
    // they have room.
    fn is_long(&self, page: u32, long: &mut Vec<u32>) -> bool
        requires { IsSound self.now holding }
    {
        if long.capacity() == 0 || self.log.walk_of(page) <= LONG {
            return false;
        }
        if long.len() < long.capacity() && !long.as_slice().contains(&page) {
            let _ = long.push(page);
        }
        true
    }

    // A page leaves memory, which the frame in the making neither makes nor cuts.
    fn leave(&mut self, page: u32)
        requires sound { IsSound self.old holding }
        requires inside { (1 ≤ page) × (page ≤ length self.old.pages.leaves.leaves) }
        requires logged { is_made page self.old.pages.making.blocks ≡ false }
        ensures { KeepsPages self.old self.new holding }
    {
        self.pages.leaves.evict_page(page);
        self.counts.looks.left_one();
    }
}

//! Pages that recovery left in the log: each is read when it is asked for, or all are brought into
//! memory at once.
//!
//! Recovery makes no page. Whoever only asks for some is done with what these have; whoever looks
//! in memory and nowhere else, as the readers of a store, brings all of them back first.

ghost use Rattle.std.specs.Prelude.{◌≡◌, ◌==◌, ◌≤◌, ℕ, [], true, false, if◌then◌else◌, length, Some, IfOk, IfErr, OnOk};
ghost use Rattle.std.specs.FinMap as finite;
ghost use Rattle.bw_page.specs.Leaves.{home, leaf_at, union};
ghost use Rattle.bw_page.specs.Shown.{is_evicted_page};
ghost use Rattle.bw_page.specs.Standing.{Stand};
ghost use Rattle.bw_log.specs.Contents.{counted};
ghost use Rattle.bw_log.specs.Reads.{HoldsPage};
ghost use Rattle.bw_care.specs.Views.{seen, IsSound};
ghost use Rattle.bw_care.specs.Warming.{unread_of, IsAway, IsReadFault, ReadEnds};

use crate::recovered::Recovered;
use bw_codec::{Key, Leaf, Value};
use bw_lines::RecoverCause;
use bw_log::{Log, LogFault};
use bw_page::Leaves;
use std::fmt::{self, Debug, Formatter};
use thiserror::Error;

/// Why pages were not all brought into memory, and what was recovered. Pages that were read before
/// the refusal stay in memory.
#[derive(Drop, Error)]
#[error("{cause}")]
pub struct WarmFault {
    pub recovered: Recovered,
    /// `NoMemory`, `Device` or `Spent`.
    pub cause: RecoverCause,
}

// What was recovered need not be shown.
impl Debug for WarmFault {
    fn fmt<W: fmt::Write>(&self, f: &mut Formatter<W>) -> fmt::Result {
        write!(f, "WarmFault({:?})", self.cause)
    }
}

// The cause that a refused read of a page is.
fn unread(fault: LogFault) -> RecoverCause
    requires { IsReadFault fault }
    ensures { result ≡ unread_of fault }
{
    match fault {
        LogFault::NoMemory => RecoverCause::NoMemory,
        LogFault::Device { lease } => RecoverCause::Device { lease },
        LogFault::Spent => RecoverCause::Spent,
        LogFault::BadConfig => unreachable!(),
        LogFault::NoSegment => unreachable!(),
        LogFault::Failed => unreachable!(),
        LogFault::NoPage => unreachable!(),
    }
}

// A page that is there, read by its links back.
fn read(log: &mut Log, leaves: &Leaves, page: u32) -> Result<Leaf, RecoverCause>
    requires sound { IsSound log.old holding }
    requires stands { Stand leaves.now.m (counted (seen log.old holding)) leaves.now.leaves }
    requires pages { length leaves.now.leaves ≡ length (seen log.old holding).pages }
    requires inside { (1 ≤ page) × (page ≤ length leaves.now.leaves) }
    ensures leaf { IfOk result (λ leaf. leaf_at page leaves.now.leaves ≡ Some leaf) }
    ensures ends { ReadEnds (HoldsPage (seen log.old holding) page)
        (seen log.old holding) result (seen log.new holding) }
{
    match log.read_page(page) {
        Ok(leaf) => Ok(leaf),
        Err(fault) => Err(unread(fault)),
    }
}

// Brings back one page, if it is evicted.
fn bring(log: &mut Log, leaves: &mut Leaves, page: u32) -> Result<(), RecoverCause>
    requires sound { IsSound log.old holding }
    requires stands { Stand leaves.old.m (counted (seen log.old holding)) leaves.old.leaves }
    requires pages { length leaves.old.leaves ≡ length (seen log.old holding).pages }
    requires inside { (1 ≤ page) × (page ≤ length leaves.old.leaves) }
    ensures m { leaves.new.m ≡ leaves.old.m }
    ensures leaves { leaves.new.leaves ≡ leaves.old.leaves }
    ensures evicted { OnOk result ((p : ℕ) → is_evicted_page p leaves.new
        ≡ (if p == page then false else is_evicted_page p leaves.old)) }
    ensures same { IfErr result (λ _. leaves.new ≡ leaves.old) }
    ensures ends { ReadEnds
        (λ at. (is_evicted_page page leaves.old ≡ true) × HoldsPage (seen log.old holding) page at)
        (seen log.old holding) result (seen log.new holding) }
{
    if leaves.is_here(page) {
        return Ok(());
    }
    let leaf = read(log, leaves, page)?;
    leaves.bring_back(page, leaf);
    Ok(())
}

// Brings back each page that is evicted.
fn bring_all(log: &mut Log, leaves: &mut Leaves) -> Result<(), RecoverCause>
    requires sound { IsSound log.old holding }
    requires stands { Stand leaves.old.m (counted (seen log.old holding)) leaves.old.leaves }
    requires pages { length leaves.old.leaves ≡ length (seen log.old holding).pages }
    requires numbered { is_evicted_page 0 leaves.old ≡ false }
    ensures m { leaves.new.m ≡ leaves.old.m }
    ensures leaves { leaves.new.leaves ≡ leaves.old.leaves }
    ensures numbered { is_evicted_page 0 leaves.new ≡ false }
    ensures here { OnOk result (leaves.new.evicted ≡ []) }
    ensures ends { ReadEnds (IsAway (seen log.old holding) leaves.old)
        (seen log.old holding) result (seen log.new holding) }
{
    for index in 0..leaves.count() {
        bring(log, leaves, index + 1)?;
    }
    Ok(())
}

impl Recovered {
    ghost use Rattle.bw_care.specs.Found.{IsRecovered};
    ghost use Rattle.bw_care.specs.Warming.{AreSame, IsAsked, IsWarm, RefusesWarm};

    /// A copy of a page; `None` if the number is 0 or above the number of pages. A page that is not
    /// in memory is read by the links back from its last block, and does not stay.
    ///
    /// Refused `NoMemory`. Refused `Device` if the segment with this lease failed and counts it:
    /// the next read may not. Refused `Spent` if no more failure of a segment that has to be read
    /// could be counted.
    pub fn page(&mut self, page: u32) -> Result<Option<Leaf>, RecoverCause>
        requires { IsRecovered (λ b. holding (b.vtable, b.value)) self.old }
        ensures leaf { IfOk result (λ leaf. leaf ≡ leaf_at page self.old.leaves.leaves) }
        ensures asked { IsAsked (λ b. holding (b.vtable, b.value)) self.old self.new }
        ensures ends { ReadEnds (HoldsPage (seen self.old.log holding) page)
            (seen self.old.log holding) result (seen self.new.log holding) }
    {
        if page == 0 || page > self.leaves.count() {
            return Ok(None);
        }
        if let Some(leaf) = self.leaves.page(page) {
            return Ok(Some(leaf.copy()?));
        }
        Ok(Some(read(&mut self.log, &self.leaves, page)?))
    }

    /// The value of a key. Its page, if it is not in memory, is read from its newest block back, up
    /// to the first that says something of the key, and does not stay. Refused as `page` is.
    pub fn get(&mut self, key: &Key) -> Result<Option<Value>, RecoverCause>
        requires { IsRecovered (λ b. holding (b.vtable, b.value)) self.old }
        ensures value { IfOk result (λ value.
            value ≡ finite.get (union self.old.leaves.leaves) key.now) }
        ensures asked { IsAsked (λ b. holding (b.vtable, b.value)) self.old self.new }
        ensures ends { ReadEnds
            (HoldsPage (seen self.old.log holding) (home key.now self.old.leaves.leaves).page)
            (seen self.old.log holding) result (seen self.new.log holding) }
    {
        let page = self.leaves.find(key);
        if self.leaves.is_here(page) {
            return Ok(self.leaves.get(key));
        }
        match self.log.read_value(page, key) {
            Ok(value) => Ok(value),
            Err(fault) => Err(unread(fault)),
        }
    }

    /// What was recovered, with each page in memory. It reads each page that is not, in the order
    /// of the pages' numbers. A page costs its blocks, and of a frame of which no block was read
    /// before a walk over all of its blocks. Refused as `page` is; what was recovered then comes
    /// back.
    pub fn warm(self) -> Result<Recovered, WarmFault>
        requires { IsRecovered (λ b. holding (b.vtable, b.value)) self }
        ensures warm { IfOk result (λ r. IsWarm (λ b. holding (b.vtable, b.value)) self r) }
        ensures recovered { IfOk result (λ r. IsRecovered (λ b. holding (b.vtable, b.value)) r) }

        ensures refuses { IfErr result (λ e. RefusesWarm (λ b. holding (b.vtable, b.value)) e.cause self e.recovered) }
        ensures still { IfErr result (λ e. IsRecovered (λ b. holding (b.vtable, b.value)) e.recovered) }
    {
        let Recovered {
            log,
            leaves,
            pairs,
            first,
            last,
            tail,
            dropped,
        } = self;
        let mut log = log;
        let mut leaves = leaves;
        let brought = bring_all(&mut log, &mut leaves);
        let recovered = Recovered {
            log,
            leaves,
            pairs,
            first,
            last,
            tail,
            dropped,
        };
        match brought {
            Ok(()) => Ok(recovered),
            Err(cause) => Err(WarmFault { recovered, cause }),
        }
    }
}

//! All pages: a list of leaves by page number, with an index of their low keys.
//!
//! A record changes the page with the greatest low key not above its key. A page that then has too
//! many pairs is split in two, and its upper part is a new page after all others, so no page moves.

ghost use Rattle.std.specs.Prelude.{ℕ, ◌≡◌, ◌==◌, ◌<◌, ◌≤◌, ◌+◌, ◌-◌, ◌^◌, [], ◌∷◌, length, nat_lt, true, false, Some, None, is_some, if◌then◌else◌, IfSome, IfOk, OnOk, OnErr, IsTrue};
ghost use Rattle.std.specs.Option.{option_copied};
ghost use Rattle.std.specs.FinMap as finite;
ghost use Rattle.std.specs.FinMap.Entries.{find};
ghost use Rattle.bw_record.specs.Keys.{ascends};
ghost use Rattle.bw_codec.specs.Grammar.{block_bytes};
ghost use Rattle.bw_record.specs.Record.{key_of};
ghost use Rattle.bw_record.specs.declared.block.Block.TheVariants.{Base};
ghost use Rattle.bw_leaf.specs.Changed.{order, empty_leaf, changed_map};
ghost use Rattle.bw_page.specs.Leaves.{home, leaf_at, directed_at, result_of, AreLeaves, union};
ghost use Rattle.bw_page.specs.Shown.{TakesKey, IsSpent, after_record, is_evicted_page, leaf_here, IsHere, applied_by};
ghost use Rattle.bw_page.specs.Aim.{IsAim, IsFound};
ghost use Rattle.bw_page.specs.Seats.{numbers_from};
ghost use Rattle.bw_page.specs.Journal.{displaced_by};
ghost use Rattle.bw_leaf.specs.Seek.{back_of};
ghost use Rattle.bw_page.specs.Ahead.{HasCome, HasNoLowAbove, IsNextLow};

mod ahead;
mod batch;
mod hinted;
mod walk;

use crate::fault::ApplyError;
use crate::gap::{Gap, grow, pass, past};
use crate::index::{copy_all, index_of, index_of_found};
use crate::journal::Displaced;
use crate::seats::Seats;
use crate::splits::split_one;
pub use batch::{HasRecord, Step};
use bw_codec::{Key, Leaf, Packed, Record, Value};
use bw_leaf::{HollowPage, count_found, count_packed, empty_page, find_key};
use bw_lows::LowIndex;
use std::alloc::{AllocError, Global};
use std::marker::Model;

/// What a record did to the pages.
#[derive(Debug, Drop, PartialEq, Eq)]
pub struct Applied {
    /// The page at which it was directed.
    pub page: u32,
    /// The page that it made, if that one was split in two.
    pub made: Option<u32>,
}

/// The leaves of all pages, with at most `m` pairs each.
#[derive(Drop)]
pub struct Leaves {
    /// The most pairs that a page holds.
    m: u16,
    /// Page n at index n - 1.
    leaves: Seats,
    /// The page of each low key but the empty one, which is that of page 1.
    index: LowIndex,
    /// Keys between which no page has a pair, if a walk has passed by such pages.
    gap: Option<Gap>,
}

impl Model for Leaves {
    ghost use Rattle.bw_page.specs.Shown.{Shown};

    ghost Value = { Shown };

    ghost use Rattle.bw_page.specs.Index.{view_of, IsIndexed};

    ghost view = { view_of };

    ghost invariant = { IsIndexed };
}

impl Leaves {
    /// Page 1 only, without any pair. A page holds at most `m` pairs, 4 to 32. A refused growth is
    /// the only error.
    pub fn one_empty(alloc: Global, m: u16) -> Result<Leaves, AllocError>
        requires { (4 ≤ m) × (m ≤ 32) }
        ensures { IfOk result (λ l. l ≡ record { m = m; leaves = empty_leaf ∷ []; evicted = [] }) }
    {
        let mut leaves = Seats::new(alloc);
        leaves.push(empty_page(alloc))?;
        Ok(Leaves {
            m,
            leaves,
            index: LowIndex::new(alloc),
            gap: None,
        })
    }

    /// How many pages there are. They are numbered from 1.
    pub fn count(&self) -> u32
        ensures value { result ≡ length self.now.leaves }
        ensures lawful { AreLeaves self.now.m self.now.leaves }
        ensures limit { (4 ≤ self.now.m) × (self.now.m ≤ 32) }
        ensures beyond { (p : ℕ) → length self.now.leaves < p → is_evicted_page p self.now ≡ false }
    {
        self.leaves.len() as u32
    }

    /// The most pairs that a page holds.
    pub fn limit(&self) -> u16
        ensures { result ≡ self.now.m }
    {
        self.m
    }

    /// The leaf of a page, if there is such a page and it is not evicted.
    pub fn page(&self, page: u32) -> Option<&Leaf>
        ensures { option_copied result ≡ leaf_here page self.now }
    {
        if page == 0 {
            return None;
        }
        self.leaves.look(page as usize - 1)
    }

    /// Whether there is such a page and it is not evicted.
    pub fn is_here(&self, page: u32) -> bool
        ensures { result ≡ is_some (leaf_here page self.now) }
    {
        self.page(page).is_some()
    }

    /// Drops a page's leaf from memory. The page stays.
    pub fn evict_page(&mut self, page: u32)
        requires { (1 ≤ page) × (page ≤ length self.old.leaves) }
        ensures m { self.new.m ≡ self.old.m }
        ensures leaves { self.new.leaves ≡ self.old.leaves }
        ensures evicted { (p : ℕ) → is_evicted_page p self.new
            ≡ (if p == page then true else is_evicted_page p self.old) }
    {
        self.leaves.evict_page(page as usize - 1);
    }

    /// How many bytes the Base of a page has, whether it is evicted or not; what is evicted is not
    /// read.
    pub fn base_length(&self, page: u32) -> u64
        requires { (1 ≤ page) × (page ≤ length self.now.leaves) }
        ensures value { IfSome (leaf_at page self.now.leaves)
            (λ leaf. result ≡ length (block_bytes (Base leaf))) }
        ensures small { result < 2 ^ 32 }
    {
        self.leaves.base_length(page as usize - 1)
    }

    /// How many bytes the pages in memory have, as Bases. No clause says it: tests do.
    pub fn bytes_here(&self) -> u64 {
        self.leaves.bytes_here()
    }

    /// Notes that somebody asked for a page: the hand passes it once more before it may leave. Any
    /// number may be given: for no page, and for one that is evicted, nothing is noted.
    pub fn ask(&mut self, page: u32)
        ensures { self.new ≡ self.old }
    {
        if page > 0 {
            self.leaves.ask(page as usize - 1);
        }
    }

    /// The next page that may leave memory: one that is there, and that nobody asked for since the
    /// hand passed it last. It stays, until `evict_page`. None if two rounds of the hand find none.
    ///
    /// It takes no memory. It costs a look at each page that the hand passes: one for each that
    /// somebody asked for, or that left, since the hand passed it last.
    pub fn next_to_leave(&mut self) -> Option<u32>
        ensures same { self.new ≡ self.old }
        ensures within { IfSome result (λ page. (1 ≤ page) × (page ≤ length self.old.leaves)) }
        ensures here { IfSome result (λ page. is_evicted_page page self.old ≡ false) }
        ensures leaf { IfSome result (λ page. is_some (leaf_here page self.old) ≡ true) }
    {
        match self.leaves.next_to_leave() {
            Some(at) => Some(at as u32 + 1),
            None => None,
        }
    }

    /// Takes back a page's leaf, which it has to be.
    pub fn bring_back(&mut self, page: u32, leaf: Leaf)
        requires { leaf_at page self.old.leaves ≡ Some leaf }
        ensures m { self.new.m ≡ self.old.m }
        ensures leaves { self.new.leaves ≡ self.old.leaves }
        ensures evicted { (p : ℕ) → is_evicted_page p self.new
            ≡ (if p == page then false else is_evicted_page p self.old) }
    {
        self.leaves.set(page as usize - 1, leaf);
    }

    /// The page at which a record of this key is directed.
    pub fn find(&self, key: &Key) -> u32
        ensures directed { result ≡ (home key.now self.now.leaves).page }
        ensures greatest { TakesKey key.now self.now.leaves result }
        ensures within { (1 ≤ result) × (result ≤ length self.now.leaves) }
    {
        match self.index.find(key) {
            Some(page) => page,
            None => 1,
        }
    }

    /// The least low key of a page that is above this key, if there is one: there a walk in the
    /// order of keys goes on after the page of this key. It costs a search among the pages.
    pub fn low_above(&self, key: &Key) -> Option<Key>
        ensures some { IfSome result (λ low. IsNextLow self.now.leaves key.now low) }
        ensures none { result ≡ None → HasNoLowAbove self.now.leaves key.now }
    {
        self.index.above(key)
    }

    /// The key at which a walk from this one may begin: no key at or above this one, and below that
    /// one, has a value. It costs nothing but two looks at keys.
    pub fn past_gap(&self, key: &Key) -> Key
        ensures { HasCome (union self.now.leaves) key.now result }
    {
        past(&self.gap, key)
    }

    /// Notes that no key at or above the one, and below the other, has a value, so that later walks
    /// pass by the pages between. One gap is kept: that of the walk which passes by the most pages.
    pub fn note_gap(&mut self, from: &Key, to: &Key)
        requires { HasCome (union self.old.leaves) from.now to.now }
        ensures { self.new ≡ self.old }
    {
        grow(&mut self.gap, from, to);
    }

    /// The value of a key, if it has one.
    pub fn get(&self, key: &Key) -> Option<Value>
        requires { IsHere key.now self.now }
        ensures { result ≡ finite.get (union self.now.leaves) key.now }
    {
        let leaf = self.home_of(key);
        let pairs = leaf.pairs.as_slice();
        match find_key(&leaf.pairs, key.as_slice()) {
            Ok(at) => Some(pairs[at].to_value()),
            Err(_) => None,
        }
    }

    /// The leaf at whose page a record of this key is directed.
    fn home_of(&self, key: &Key) -> &Leaf
        requires { IsHere key.now self.now }
        ensures home { result.now ≡ home key.now self.now.leaves }
        ensures ascends { IsTrue (ascends result.now.pairs) }
        ensures value { finite.get (union self.now.leaves) key.now
            ≡ find order key.now result.now.pairs }
        ensures within { (1 ≤ result.now.page) × (result.now.page ≤ length self.now.leaves) }
    {
        self.home_on(self.find(key), key.as_slice())
    }

    /// The page at which a record is directed.
    fn find_packed(&self, change: &Packed) -> u32
        ensures directed { result ≡ directed_at self.now.leaves change.now }
        ensures within { (1 ≤ result) × (result ≤ length self.now.leaves) }
    {
        let key = key_in(change);
        self.find(&key)
    }

    /// The leaf of a key, whose page is known.
    fn home_on(&self, page: u32, _key: &[u8]) -> &Leaf
        requires here { IsHere _key.now self.now }
        requires page { page ≡ (home _key.now self.now.leaves).page }
        ensures home { result.now ≡ home _key.now self.now.leaves }
        ensures ascends { IsTrue (ascends result.now.pairs) }
        ensures value { finite.get (union self.now.leaves) _key.now
            ≡ find order _key.now result.now.pairs }
        ensures within { (1 ≤ result.now.page) × (result.now.page ≤ length self.now.leaves) }
    {
        self.leaves.get(page as usize - 1)
    }

    /// Changes the leaf at whose page the record is directed, and splits it in two if it then has
    /// more than `m` pairs: the first (m + 1) / 2 stay, and the others become a new last page.
    ///
    /// It costs a search among the pages and work within one page; a new page also costs what a
    /// push on a `Vec` does. The pairs of a page that is split are moved, and none is copied. A
    /// refusal changes nothing.
    pub fn apply(&mut self, change: &Packed) -> Result<Applied, ApplyError>
        requires { IsHere (key_of change.now) self.old }
        ensures ok { OnOk result (self.new ≡ after_record self.old change.now) }
        ensures plain { OnOk result (union self.new.leaves
            ≡ changed_map (union self.old.leaves) change.now) }

        ensures applied { IfOk result (λ a. a ≡ applied_by self.old change.now) }
        ensures evicted { self.new.evicted ≡ self.old.evicted }

        // The page number is looked for before memory is.
        ensures spent { IsSpent self.old change.now → result ≡ Err ApplyError.Spent }
        ensures only_spent { result ≡ Err ApplyError.Spent → IsSpent self.old change.now }
        ensures unchanged { OnErr result (self.new ≡ self.old) }
    {
        self.apply_on(self.find_packed(change), change)
    }

    /// Changes the leaf of this page, at which the record is directed. As `apply` otherwise, but it
    /// costs no search among the pages.
    pub fn apply_on(&mut self, page: u32, change: &Packed) -> Result<Applied, ApplyError>
        requires here { IsHere (key_of change.now) self.old }
        requires page { page ≡ directed_at self.old.leaves change.now }
        ensures ok { OnOk result (self.new ≡ after_record self.old change.now) }
        ensures plain { OnOk result (union self.new.leaves
            ≡ changed_map (union self.old.leaves) change.now) }

        ensures applied { IfOk result (λ a. a ≡ applied_by self.old change.now) }
        ensures evicted { self.new.evicted ≡ self.old.evicted }

        // The page number is looked for before memory is.
        ensures spent { IsSpent self.old change.now → result ≡ Err ApplyError.Spent }
        ensures only_spent { result ≡ Err ApplyError.Spent → IsSpent self.old change.now }
        ensures unchanged { OnErr result (self.new ≡ self.old) }
    {
        let found = self.place_on(page, change.key());
        self.apply_found(page, found, change)
    }

    /// Changes the leaf of this page, at which the record is directed, and on which the search for
    /// its key ended so. As `apply` otherwise, but it costs no search at all.
    pub fn apply_found(
        &mut self,
        page: u32,
        found: Result<usize, usize>,
        change: &Packed,
    ) -> Result<Applied, ApplyError>
        requires here { IsHere (key_of change.now) self.old }
        requires page { page ≡ directed_at self.old.leaves change.now }
        requires found { IsFound self.old.leaves (key_of change.now) found }
        ensures ok { OnOk result (self.new ≡ after_record self.old change.now) }
        ensures plain { OnOk result (union self.new.leaves
            ≡ changed_map (union self.old.leaves) change.now) }

        ensures applied { IfOk result (λ a. a ≡ applied_by self.old change.now) }
        ensures evicted { self.new.evicted ≡ self.old.evicted }

        // The page number is looked for before memory is.
        ensures spent { IsSpent self.old change.now → result ≡ Err ApplyError.Spent }
        ensures only_spent { result ≡ Err ApplyError.Spent → IsSpent self.old change.now }
        ensures unchanged { OnErr result (self.new ≡ self.old) }
    {
        let (at, count) = self.aim_found(page, found, change);
        self.apply_at(at, count, found, change)
    }

    /// Where a search for a key on its page ends, which is known.
    pub fn place_on(&self, page: u32, key: &[u8]) -> Result<usize, usize>
        requires here { IsHere key.now self.now }
        requires page { page ≡ (home key.now self.now.leaves).page }
        ensures { IsFound self.now.leaves key.now result }
    {
        find_key(&self.home_on(page, key).pairs, key)
    }

    /// Whether a record splits its page in two, if the search for its key there ended so.
    pub fn is_split_by(&self, page: u32, found: Result<usize, usize>, item: &Record) -> bool
        requires here { IsHere (key_of item.now) self.now }
        requires page { page ≡ directed_at self.now.leaves item.now }
        requires found { IsFound self.now.leaves (key_of item.now) found }
        ensures { result ≡ nat_lt self.now.m (length (result_of self.now.leaves item.now).pairs) }
    {
        let leaf = self.home_on(page, item.key().as_slice());
        usize::from(self.m) < count_found(leaf.pairs.as_slice(), found, item)
    }

    /// Where the leaf of this page stands, which the record changes, how many pairs it would have,
    /// and where the search in it for the record's key ended.
    fn aim(&self, page: u32, change: &Packed) -> (usize, usize, Result<usize, usize>)
        requires here { IsHere (key_of change.now) self.now }
        requires page { page ≡ directed_at self.now.leaves change.now }
        ensures { IsAim self.now change.now result.0 result.1 result.2 }
    {
        let found = self.place_on(page, change.key());
        let (at, count) = self.aim_found(page, found, change);
        (at, count, found)
    }

    /// What `aim` says of place and number, if the search ended so.
    fn aim_found(&self, page: u32, found: Result<usize, usize>, change: &Packed) -> (usize, usize)
        requires here { IsHere (key_of change.now) self.now }
        requires page { page ≡ directed_at self.now.leaves change.now }
        requires found { IsFound self.now.leaves (key_of change.now) found }
        ensures { IsAim self.now change.now result.0 result.1 found }
    {
        let leaf = self.home_on(page, change.key());
        let count = count_packed(leaf.pairs.as_slice(), found, change);
        (leaf.page as usize - 1, count)
    }

    /// Applies a record where `aim` says.
    fn apply_at(
        &mut self,
        at: usize,
        count: usize,
        found: Result<usize, usize>,
        change: &Packed,
    ) -> Result<Applied, ApplyError>
        requires { IsAim self.old change.now at count found }
        ensures ok { OnOk result (self.new ≡ after_record self.old change.now) }
        ensures plain { OnOk result (union self.new.leaves
            ≡ changed_map (union self.old.leaves) change.now) }
        ensures applied { IfOk result (λ a. a ≡ applied_by self.old change.now) }
        ensures evicted { self.new.evicted ≡ self.old.evicted }
        ensures spent { IsSpent self.old change.now → result ≡ Err ApplyError.Spent }
        ensures only_spent { result ≡ Err ApplyError.Spent → IsSpent self.old change.now }
        ensures unchanged { OnErr result (self.new ≡ self.old) }
    {
        if count <= usize::from(self.m) {
            let _ = self.change_at(at, count, found, change)?;
            return Ok(Applied {
                page: at as u32 + 1,
                made: None,
            });
        }
        let (_, made) = self.split_page(at, count, found, change)?;
        Ok(Applied {
            page: at as u32 + 1,
            made: Some(made),
        })
    }

    /// Applies a record where `aim` says, which splits no page, and gives the record that takes it
    /// back. There is none for a record that removes a pair.
    fn change_at(
        &mut self,
        at: usize,
        count: usize,
        found: Result<usize, usize>,
        change: &Packed,
    ) -> Result<Option<Packed>, AllocError>
        requires aim { IsAim self.old change.now at count found }
        requires few { count ≤ self.old.m }
        ensures ok { OnOk result (self.new ≡ after_record self.old change.now) }
        ensures plain { OnOk result (union self.new.leaves
            ≡ changed_map (union self.old.leaves) change.now) }
        ensures evicted { self.new.evicted ≡ self.old.evicted }
        ensures back { IfOk result (λ back. back ≡ back_of change.now
            (find order (key_of change.now) (home (key_of change.now) self.old.leaves).pairs)) }
        ensures unchanged { OnErr result (self.new ≡ self.old) }
    {
        let back = self.leaves.change(at, found, change)?;
        pass(&mut self.gap, change.key());
        Ok(back)
    }

    /// Applies a record where `aim` says, which splits the page in two. It gives what puts the page
    /// back as it was, and the number of the page that is made.
    fn split_page(
        &mut self,
        at: usize,
        count: usize,
        found: Result<usize, usize>,
        change: &Packed,
    ) -> Result<(Displaced, u32), ApplyError>
        requires aim { IsAim self.old change.now at count found }
        requires many { self.old.m < count }
        ensures ok { OnOk result (self.new ≡ after_record self.old change.now) }
        ensures plain { OnOk result (union self.new.leaves
            ≡ changed_map (union self.old.leaves) change.now) }
        ensures evicted { self.new.evicted ≡ self.old.evicted }
        ensures was { IfOk result (λ r. r.0 ≡ displaced_by self.old change.now) }
        ensures made { IfOk result (λ r. r.1 ≡ length self.old.leaves + 1) }
        ensures spent { IsSpent self.old change.now → result ≡ Err ApplyError.Spent }
        ensures only_spent { result ≡ Err ApplyError.Spent → IsSpent self.old change.now }
        ensures unchanged { OnErr result (self.new ≡ self.old) }
    {
        let before = self.leaves.len();
        if before >= u32::MAX as usize {
            return Err(ApplyError::Spent);
        }
        let pages = before as u32;
        let displaced = Displaced::split(self.leaves.get(at), pages, change)?;
        split_one(
            &mut self.leaves,
            &mut self.index,
            self.m,
            at,
            found,
            change,
            pages + 1,
        )?;
        pass(&mut self.gap, change.key());
        Ok((displaced, pages + 1))
    }

    /// The leaves as they stand.
    pub(crate) fn seats(&self) -> &Seats
        ensures items { result.now.items ≡ self.now.leaves }
        ensures evicted { result.now.evicted ≡ self.now.evicted }
        ensures lawful { AreLeaves self.now.m result.now.items }
    {
        &self.leaves
    }

    /// Only the leaves. No memory is taken.
    pub(crate) fn into_seats(self) -> Seats
        ensures items { result.items ≡ self.leaves }
        ensures evicted { result.evicted ≡ self.evicted }
    {
        let Leaves {
            m: _,
            leaves,
            index: _,
            gap: _,
        } = self;
        leaves
    }

    /// A copy of the leaves. It costs all pages.
    pub fn copy(&self) -> Result<Leaves, AllocError>
        requires { self.now.evicted ≡ [] }
        ensures { IfOk result (λ l. l ≡ self.now) }
    {
        Leaves::of(copy_all(self.leaves.allocator(), &self.leaves)?, self.m)
    }

    /// Lawful pages that were found in the log, of which page n stands at index n - 1, with at most
    /// `m` pairs a page, 4 to 32. All of them are evicted. A refused growth is the only error. It
    /// costs all pages.
    pub fn found(pages: Vec<HollowPage>, m: u16) -> Result<Leaves, AllocError>
        requires limit { (4 ≤ m) × (m ≤ 32) }
        requires lawful { AreLeaves m pages.items }
        ensures { IfOk result (λ l. l ≡ record {
          m = m;
          leaves = pages.items;
          evicted = numbers_from 1 (length pages.items);
        }) }
    {
        let index = index_of_found(*pages.allocator(), pages.as_slice())?;
        Ok(Leaves {
            m,
            leaves: Seats::away(pages)?,
            index,
            gap: None,
        })
    }

    /// Lawful leaves, of which page n stands at index n - 1, with at most `m` pairs a page, 4 to
    /// 32. A refused growth is the only error; the leaves are then dropped. It costs all pages.
    pub fn of(leaves: Vec<Leaf>, m: u16) -> Result<Leaves, AllocError>
        requires limit { (4 ≤ m) × (m ≤ 32) }
        requires lawful { AreLeaves m leaves.items }
        ensures { IfOk result (λ l. l ≡ record { m = m; leaves = leaves.items; evicted = [] }) }
    {
        let index = index_of(*leaves.allocator(), leaves.as_slice())?;
        Ok(Leaves {
            m,
            leaves: Seats::of(leaves)?,
            index,
            gap: None,
        })
    }
}

// The key of a record, in fixed room.
fn key_in(change: &Packed) -> Key
    ensures { result ≡ key_of change.now }
{
    match Key::new(change.key()) {
        Ok(key) => key,
        Err(_) => unreachable!(),
    }
}

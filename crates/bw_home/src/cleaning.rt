//! The segments of a home: the oldest is given up, and new ones are made. What a call makes is a
//! spare from the next leg on.

ghost use Rattle.std.specs.Prelude.{◌≡◌, IfErr};
ghost use Rattle.bw_core.specs.Following.{Continues};
ghost use Rattle.bw_core.specs.Kept.{EachCutStands};
ghost use Rattle.bw_home.specs.Renewing.{HomeCleans};
ghost use Rattle.bw_site.specs.Faults.{IsOfSite};

use crate::home::Home;
use bw_core::{Cleaned, StoreFault, Upgraded};
use bw_device::Segment;
use bw_file::FolderFault;
use bw_site::{Added, HomeFault, Made, System};
use std::alloc::AllocError;

// Why a spare was not added.
fn refusal_of(added: Result<(), (Box<dyn Segment>, StoreFault)>) -> Option<StoreFault> {
    match added {
        Ok(()) => None,
        Err((_, cause)) => Some(cause),
    }
}

impl Home {
    ghost use Rattle.bw_core.specs.Views.{noted_of};
    ghost use Rattle.bw_home.specs.Beginning.{IsBegun, IsBegunBeside};
    ghost use Rattle.bw_home.specs.Maps.{StaysMap};
    ghost use Rattle.bw_home.specs.Ready.{kept_in, IsReady, IsReadyBeside};

    /// Gives up the oldest segment, and empties its file. A new segment over a file without bytes
    /// stands in its place: a spare from the next leg on, or once the folder is opened again.
    ///
    /// Refused `Store`, and `NoMemory`, as `Core::clean` is, which says what stands then. What the
    /// store says of its cleaning holds here, word for word. `Folder`, and `NoMemory` too, if the
    /// file was not emptied or the new segment not made: the old one is given up all the same. The
    /// next call does that first, and gives up no other before.
    pub fn clean<R: System>(&mut self, rt: &R) -> Result<Cleaned, HomeFault>
        requires { IsReady self.old holding }
        ensures ready { IsReady self.new holding }
        ensures feeds { self.new.feeds ≡ self.old.feeds }
        ensures cleans { HomeCleans (kept_in self.old holding) (noted_of self.old.store) result
            (kept_in self.new holding) (noted_of self.new.store) }
        ensures each_cut { EachCutStands (kept_in self.new holding) }
        ensures follows { Continues (kept_in self.old holding) (kept_in self.new holding) }
        ensures stays { StaysMap self.old self.new holding }
    {
        self.stock.renew(rt)?;
        let cleaned = self.give_up(rt)?;
        self.stock.owe();
        self.stock.renew(rt)?;
        Ok(cleaned)
    }

    /// Gives up the oldest segment as `clean` does, but its file keeps what it has, up to a call of
    /// `empty` or `make_spare`, and nothing stands in its place. So its file stands as long as
    /// something is said before.
    ///
    /// Refused as `clean` is; `Folder` if the file of the one that was given up before was not
    /// emptied: no other is given up then.
    pub fn give_up<R: System>(&mut self, rt: &R) -> Result<Cleaned, HomeFault>
        requires { IsReady self.old holding }
        ensures ready { IsReady self.new holding }
        ensures feeds { self.new.feeds ≡ self.old.feeds }
        ensures cleans { HomeCleans (kept_in self.old holding) (noted_of self.old.store) result
            (kept_in self.new holding) (noted_of self.new.store) }
        ensures each_cut { EachCutStands (kept_in self.new holding) }
        ensures follows { Continues (kept_in self.old holding) (kept_in self.new holding) }
        ensures stays { StaysMap self.old self.new holding }
    {
        self.stock.empty(rt)?;
        let cleaned = self.store.clean()?;
        self.stock.give_up(cleaned.lease);
        Ok(cleaned)
    }

    /// Empties the file of the segment that was given up last. Nothing stands in its place but what
    /// is asked for: the file is that of a spare once the folder is opened again.
    ///
    /// Refused `Folder`, and `NoMemory`: the file was not emptied, and the next call tries again.
    pub fn empty<R: System>(&mut self, rt: &R) -> Result<(), HomeFault>
        requires { IsReady self.old holding }
        ensures ready { IsReady self.new holding }
        ensures feeds { self.new.feeds ≡ self.old.feeds }
        ensures same { kept_in self.new holding ≡ kept_in self.old holding }
        ensures noted { noted_of self.new.store ≡ noted_of self.old.store }
        ensures refused { IfErr result IsOfSite }
        ensures stays { StaysMap self.old self.new holding }
    {
        self.stock.empty(rt)
    }

    /// Makes a further segment, with the least lease that is free: a spare from the next leg on, as
    /// `added` then says, or once the folder is opened again. The file of the segment that was
    /// given up last is emptied before.
    ///
    /// Refused `Lease` if none is free; `Folder`, and `NoMemory`. The store is as it was.
    pub fn make_spare<R: System>(&mut self, rt: &R) -> Result<(), HomeFault>
        requires { IsReady self.old holding }
        ensures ready { IsReady self.new holding }
        ensures feeds { self.new.feeds ≡ self.old.feeds }
        ensures same { kept_in self.new holding ≡ kept_in self.old holding }
        ensures noted { noted_of self.new.store ≡ noted_of self.old.store }
        ensures refused { IfErr result IsOfSite }
        ensures stays { StaysMap self.old self.new holding }
    {
        self.stock.make_spare(rt)
    }

    /// The spare that was handed to the store last, between two legs; `None` before the first.
    pub fn added(&self) -> Option<Added>
        ensures { result ≡ self.now.stock.added }
    {
        self.stock.added
    }

    /// The leases of the live segments, the oldest first.
    fn live_leases(&self) -> Result<Vec<u32>, AllocError>
        requires { IsReady self.now holding }
    {
        let mut leases = Vec::new(*self.feeds.allocator());
        for i in 0..self.store.live() {
            if let Some((_, lease, _)) = self.store.live_segment(i) {
                leases.push(lease)?;
            }
        }
        Ok(leases)
    }

    /// The leases that are out, ascending: those of live segments and spares, and of what was made
    /// since the last leg. Those that came back are free again.
    pub fn leases(&mut self) -> Result<Vec<u32>, AllocError>
        requires { IsReady self.old holding }
        ensures ready { IsReady self.new holding }
        ensures feeds { self.new.feeds ≡ self.old.feeds }
        ensures same { kept_in self.new holding ≡ kept_in self.old holding }
        ensures noted { noted_of self.new.store ≡ noted_of self.old.store }
        ensures stays { StaysMap self.old self.new holding }
    {
        self.stock.leases(*self.feeds.allocator())
    }

    /// The leases that are out, in the order in which their segments are given up: those of the
    /// live ones, the oldest first, and then those of the spares, which are begun as they were
    /// handed in, by their leases.
    pub fn row(&mut self) -> Result<Vec<u32>, AllocError>
        requires { IsReady self.old holding }
        ensures ready { IsReady self.new holding }
        ensures feeds { self.new.feeds ≡ self.old.feeds }
        ensures same { kept_in self.new holding ≡ kept_in self.old holding }
        ensures noted { noted_of self.new.store ≡ noted_of self.old.store }
        ensures stays { StaysMap self.old self.new holding }
    {
        let live = self.live_leases()?;
        self.stock.row(*self.feeds.allocator(), live)
    }

    /// Empties the files of those of these leases whose segments were given up, in this order, if
    /// the store was cleaned by itself. If the leases are those that `row` gave before, a stop
    /// never shows a later segment gone and an earlier one still there. No spare may have been made
    /// since.
    pub fn empty_row<R: System>(&mut self, rt: &R, row: &[u32]) -> Result<(), FolderFault>
        requires { IsReady self.old holding }
        ensures ready { IsReady self.new holding }
        ensures feeds { self.new.feeds ≡ self.old.feeds }
        ensures same { kept_in self.new holding ≡ kept_in self.old holding }
        ensures noted { noted_of self.new.store ≡ noted_of self.old.store }
        ensures stays { StaysMap self.old self.new holding }
    {
        self.stock.empty_row(rt, row)
    }

    /// Gives up all segments of format 1, and empties their files, the oldest first: a stop must
    /// never show a later segment gone and an earlier one still there.
    ///
    /// Refused `Store`, and `NoMemory`, as `Core::upgrade` is, which says what stands then;
    /// `Folder` if a file was not emptied. The home is of no further use then: the next opening of
    /// the folder finds these segments there, and gives them up.
    pub(crate) fn upgrade<R: System>(&mut self, rt: &R) -> Result<Upgraded, HomeFault>
        requires { IsReady self.old holding }
        ensures ready { IsReady self.new holding }
        ensures feeds { self.new.feeds ≡ self.old.feeds }
    {
        let leases = self.live_leases()?;
        let upgraded = self.store.upgrade()?;
        self.stock.empty_row(rt, leases.as_slice())?;
        Ok(upgraded)
    }

    /// The number of the next frame; 0 if there is none.
    pub(crate) fn next_frame(&self) -> u64
        requires { IsReady self.now holding }
    {
        self.store.next_frame().unwrap_or(0)
    }

    /// A segment that was made, and is no spare yet.
    pub(crate) fn next_made(&mut self) -> Option<Made>
        requires { IsReady self.old holding }
        ensures ready { IsReady self.new holding }
        ensures begun { IsBegun self.old holding → IsBegun self.new holding }
    {
        self.stock.next_made()
    }

    /// Adds a spare. If that is refused, there is one fewer until the folder is opened again.
    pub(crate) fn add(&mut self, spare: Box<dyn Segment>)
        requires { IsReadyBeside self.old holding }
        ensures ready { IsReadyBeside self.new holding }
        ensures begun { IsBegunBeside self.old holding → IsBegunBeside self.new holding }
    {
        let lease = spare.lease();
        let refused = refusal_of(self.store.add_segment(spare));
        self.stock.added = Some(Added { lease, refused });
    }
}

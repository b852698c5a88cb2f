//! A store is written anew.

ghost use Rattle.bw_care.specs.Found.{IsRecovered};

use crate::compared::{Tally, Wanted};
use crate::copying::Copied;
use crate::fault::RescueFault;
use crate::reading::ask_in;
use crate::target::Target;
use crate::walking::{Take, each_page};
use crate::whole::{leased, put, writer_of};
use bw_beside::Ask;
use bw_care::Recovered;
use bw_codec::Leaf;
use bw_codec::limits::HEADER_LEN;
use bw_core::StoreFault;
use bw_home::{HomeFault, Options, System};
use bw_look::Watch;
use bw_whole::Writer;

/// Refuses segments without room for a frame, before anything is made.
fn with_room(options: &Options) -> Result<(), RescueFault> {
    if options.capacity < u64::from(options.frame_bytes).saturating_add(HEADER_LEN as u64) {
        return Err(RescueFault::Home(HomeFault::Store(StoreFault::BadConfig)));
    }
    Ok(())
}

/// The pairs of a store go into a new log.
#[derive(Drop)]
struct Compacting {
    writer: Writer,
    tally: Tally,
}

impl Take for Compacting {
    fn take(&mut self, leaf: &Leaf) -> Result<(), RescueFault> {
        for pair in leaf.pairs.as_slice() {
            put(&mut self.writer, pair)?;
            self.tally.add(pair)?;
        }
        Ok(())
    }
}

impl<W: Watch> Ask<W> for Compacting {
    type Answer = Result<(), RescueFault>;

    fn ask(&mut self, pages: Recovered, watch: &mut W) -> Result<(), RescueFault> {
        let mut pages = pages;
        each_page(&mut pages, self, watch)
    }
}

/// Writes all pairs of the store in a folder into a new store, by these options, in a new folder.
/// Its pages are full, but for the last one, and stand in the order of their keys. There are so
/// many leases. It is refused as `copy` is, and `Home` if the options allow no store, or the leases
/// too few segments.
///
/// Pages are read one by one, so it takes memory for the bytes of both logs, and of a copy of the
/// new one.
pub fn compact<R: System, W: Watch>(
    rt: &R,
    from: &str,
    to: &str,
    leases: u32,
    options: &Options,
    watch: &mut W,
) -> Result<Copied, RescueFault> {
    with_room(options)?;
    let target = Target::of(rt, to)?;
    let mut compacting = Compacting {
        writer: writer_of(rt.alloc(), options)?,
        tally: Tally::new(rt.alloc()),
    };
    ask_in(rt, from, leases, &mut compacting, watch)??;
    let Compacting { writer, tally } = compacting;
    let images = leased(rt.alloc(), writer.end()?, options.segments, leases)?;
    let wanted = Wanted {
        images: images.as_slice(),
        tally: Some(&tally),
    };
    let making = target.begin(rt)?;
    making.write(rt, images.as_slice(), watch)?;
    making.end(rt, leases, wanted, None, watch)
}

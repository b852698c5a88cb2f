//! Pairs become the segments of a new store, all of whose pages are full.

use crate::fault::RescueFault;
use bw_codec::Pair;
use bw_core::StoreFault;
use bw_home::{HomeFault, Options};
use bw_look::{Image, Watch, Work};
use bw_whole::{WholeFault, Writer};
use std::alloc::Global;

/// After so many pairs it is said how many there were.
const SAID_EVERY: usize = 4_096;

impl From<WholeFault> for RescueFault {
    fn from(fault: WholeFault) -> RescueFault {
        match fault {
            WholeFault::NoMemory => RescueFault::NoMemory,
            WholeFault::BadConfig => RescueFault::Home(HomeFault::Store(StoreFault::BadConfig)),
            WholeFault::NotAbove => RescueFault::Unlike,
            WholeFault::Spent => RescueFault::Home(HomeFault::Store(StoreFault::Spent)),
        }
    }
}

/// Puts a pair.
pub(crate) fn put(writer: &mut Writer, pair: &Pair) -> Result<(), RescueFault> {
    match writer.put(pair.copy()?) {
        Ok(()) => Ok(()),
        Err(refused) => Err(RescueFault::from(refused.cause)),
    }
}

/// Puts pairs, and says how many there were after each so many of them.
fn put_all<W: Watch>(
    writer: &mut Writer,
    pairs: &[Pair],
    watch: &mut W,
) -> Result<(), RescueFault> {
    for (done, pair) in pairs.iter().enumerate() {
        put(writer, pair)?;
        if done % SAID_EVERY == 0 {
            watch.see(Work::Loading, done as u64, pairs.len() as u64);
        }
    }
    Ok(())
}

/// Adds a segment, which gets the next lease.
fn add(images: &mut Vec<Image>, bytes: Vec<u8>, leases: u32) -> Result<(), RescueFault> {
    let lease = images.len();
    if lease >= leases as usize {
        return Err(RescueFault::Home(HomeFault::Store(StoreFault::NoSegment)));
    }
    images.push(Image {
        lease: Some(lease as u32),
        bytes,
    })?;
    Ok(())
}

/// The segments of a log, and spares after them, so that there are as many as are wanted.
pub(crate) fn leased(
    alloc: Global,
    segments: Vec<Vec<u8>>,
    wanted: u32,
    leases: u32,
) -> Result<Vec<Image>, RescueFault> {
    let mut images = Vec::new(alloc);
    for bytes in segments {
        add(&mut images, bytes, leases)?;
    }
    for _ in images.len()..wanted as usize {
        add(&mut images, Vec::new(alloc), leases)?;
    }
    Ok(images)
}

/// A writer of a new store by these options.
pub(crate) fn writer_of(alloc: Global, options: &Options) -> Result<Writer, RescueFault> {
    Ok(Writer::new(
        alloc,
        options.pairs_a_page,
        options.frame_bytes,
        options.capacity,
    )?)
}

/// The segments of a new store by these options, with these pairs, whose keys ascend. There are so
/// many leases.
pub(crate) fn whole<W: Watch>(
    alloc: Global,
    leases: u32,
    options: &Options,
    pairs: &[Pair],
    watch: &mut W,
) -> Result<Vec<Image>, RescueFault> {
    let mut writer = writer_of(alloc, options)?;
    put_all(&mut writer, pairs, watch)?;
    leased(alloc, writer.end()?, options.segments, leases)
}

//! An open store is copied, as it stands in its segments.

ghost use Rattle.std.specs.Prelude.{◌≡◌, None, Some, slice_get, IfOk, IfSome, IsSome, MatchOption, OnOk};
ghost use Rattle.bw_home.specs.Ready.{kept_in, IsReady};
ghost use Rattle.bw_rescue.specs.Images.{copied, copy_of, AreImages};

use crate::compared::Wanted;
use crate::copying::Copied;
use crate::fault::RescueFault;
use crate::judged::judge;
use crate::target::Target;
use bw_home::{Home, HomeFault, System};
use bw_look::{Image, Unseen};
use std::alloc::Global;

// The i-th live segment, from 0; `None` if there are fewer.
fn image_at(alloc: Global, home: &mut Home, index: u32) -> Result<Option<Image>, RescueFault>
    requires { IsReady home.old holding }
    ensures ready { IsReady home.new holding }
    ensures image { IfOk result (λ image.
        MatchOption (slice_get (kept_in home.old holding).log.live index) (image ≡ None)
        (λ h. IsSome image × IfSome image (λ i. copied i ≡ copy_of h))) }
    ensures same { OnOk result (kept_in home.new holding ≡ kept_in home.old holding) }
{
    let Some((segment, lease, _)) = home.store.live_segment(index) else {
        return Ok(None);
    };
    let mut bytes = Vec::new(alloc);
    match home.store.dump(segment, &mut bytes) {
        Ok(_) => Ok(Some(Image {
            lease: Some(lease),
            bytes,
        })),
        Err(fault) => Err(RescueFault::from(HomeFault::from(fault))),
    }
}

/// A copy of each live segment of an open store, byte by byte, the oldest first: all that was
/// flushed. Refused `NoMemory`, and `Home` if a segment was not read. After Ok the store is as it
/// was; a read that failed counts as a failure of its segment.
///
/// It takes memory for the bytes of all live segments.
pub fn live_images(alloc: Global, home: &mut Home) -> Result<Vec<Image>, RescueFault>
    requires { IsReady home.old holding }
    ensures ready { IsReady home.new holding }
    ensures images { IfOk result (λ images.
        AreImages images.items (kept_in home.old holding).log.live) }
    ensures same { OnOk result (kept_in home.new holding ≡ kept_in home.old holding) }
{
    let mut images = Vec::new(alloc);
    let live = home.store.live();
    'segments: for index in 0..live {
        match image_at(alloc, home, index)? {
            Some(image) => images.push(image)?,
            None => unreachable!(),
        }
    }
    Ok(images)
}

/// Copies the live segments of an open store, byte by byte, into a new folder, with a digest for
/// each of their pieces. What was flushed is there, and what was not is not; the store stays as it
/// is. There are so many leases.
///
/// It is refused as `copy` is, but that there is no folder that is read: `Home` if a segment could
/// not be read.
pub fn backup<R: System>(
    rt: &R,
    home: &mut Home,
    to: &str,
    leases: u32,
) -> Result<Copied, RescueFault>
    requires { IsReady home.old holding }
    ensures { IsReady home.new holding }
{
    let target = Target::of(rt, to)?;
    let images = live_images(rt.alloc(), home)?;
    let _ = judge(rt.alloc(), images.as_slice(), &mut Unseen)?;
    let wanted = Wanted {
        images: images.as_slice(),
        tally: None,
    };
    let making = target.begin(rt)?;
    making.write(rt, images.as_slice(), &mut Unseen)?;
    making.end(rt, leases, wanted, None, &mut Unseen)
}

//! Pages that many frames touched are written again; no segment is given up.
//!
//! A page is read from its last setting block on, and each frame that touched it since is read
//! whole. A page that lives long and changes a little in each frame would cost more with each
//! flush. One Base after all of that, and its next read is one frame. Its older blocks stay where
//! they are until their segment is given up.

ghost use Rattle.std.specs.Prelude.{◌≡◌, ◌↔◌, [], true, IfOk, IfErr, IsErrOf};
ghost use Rattle.std.specs.List.{AllByRecursion};
ghost use Rattle.bw_log.specs.Contents.{KeepsLeaves};
ghost use Rattle.bw_log.specs.Reads.{IsPage};
ghost use Rattle.bw_care.specs.Moving.{MovedBehind};
ghost use Rattle.bw_care.specs.Rewriting.{RefusesRewrite};
ghost use Rattle.bw_care.specs.Views.{seen, IsSound};

use crate::copies::nothing;
use crate::moves::move_all;
use bw_device::Segment;
use bw_log::{Log, LogFault};
use std::alloc::Global;

/// Writes each of these pages again as one Base, in this order, as many to a frame as fit, and
/// answers in how many frames. Such a page is then read from its Base on: what stands before it is
/// not looked at any more, so reading it costs one block and what comes later. No segment is given
/// up.
///
/// E7 comes first, exactly if the log is Failed. Then E8 if a frame is wanted and has no number,
/// E1, E5 if no spare is left (the last one may be taken), and E6. A refusal part-way keeps the
/// frames already written and changes no page. After E1, E5 and a failed read it may be called
/// again; if an append failed, the log is Failed.
///
/// Each page costs what `read_page` costs, and then come the bytes of the new frames.
pub fn rewrite(alloc: Global, log: &mut Log, pages: &[u32]) -> Result<u64, LogFault>
    requires sound { IsSound log.old holding }
    requires pages { AllByRecursion (IsPage (seen log.old holding)) pages.now }
    ensures sound { IsSound log.new holding }
    ensures failed { IsErrOf result LogFault.Failed ↔ ((seen log.old holding).is_failed ≡ true) }

    ensures rewritten { IfOk result (λ frames.
        MovedBehind 0 (seen log.old holding) (seen log.new holding) pages.now [] frames) }
    ensures refused { IfErr result (λ fault.
        RefusesRewrite fault (seen log.old holding) pages.now (seen log.new holding)) }

    // Whatever is answered, the counted frames stand for the leaves for which they stood.
    ensures stands { KeepsLeaves (seen log.old holding) (seen log.new holding) }
{
    if log.is_failed() {
        return Err(LogFault::Failed);
    }
    move_all(alloc, log, &nothing(alloc), pages)
}

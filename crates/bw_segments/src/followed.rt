//! `bwlog follow`: what `bw_follow` does, in words.

use bw_file::FolderFault;
use bw_follow::{FollowFault, Followed, Follower};
use bw_look::{Printer, Watch};
use bw_words::{Ends, Host, Met, Miss, Stop, missed};
use std::io::Write;
use std::thread;
use std::time::Duration;

/// The line of a round, which is written out at once.
fn tell<O: Write>(output: &mut O, followed: Followed) -> Result<(), Stop> {
    let mut out = Printer::new(output);
    let word = if followed.is_whole {
        "copied frame "
    } else {
        "followed frame "
    };
    out.named(word, followed.frame);
    out.named(" bytes ", followed.bytes);
    out.line(" given up ", followed.given_up);
    out.end()?;
    match output.flush() {
        Ok(()) => Ok(()),
        Err(_) => Err(Stop::Output),
    }
}

/// Whether a later round may go if this one did not.
fn may_go_on(fault: FollowFault) -> bool {
    matches!(fault, FollowFault::Source(FolderFault::InUse))
}

/// One round. It is reported if it changed something, and the first one in any case; the first one
/// has to be done, and a later one is left out if the folder that is followed was not read.
fn round<R: Host, O: Write, W: Watch>(
    rt: &R,
    follower: &mut Follower,
    is_first: bool,
    output: &mut O,
    watch: &mut W,
) -> Result<(), Miss> {
    let followed = match follower.round(rt, watch) {
        Ok(followed) => followed,
        Err(fault) if !is_first && may_go_on(fault) => return Ok(()),
        Err(fault) => return Err(Miss::from(fault)),
    };
    watch.rest();
    if is_first || followed.is_change() {
        tell(output, followed)?;
    }
    Ok(())
}

/// Follows in rounds, with so many seconds between them, or for one round.
fn go<R: Host, O: Write, W: Watch>(
    rt: &R,
    follower: &mut Follower,
    every: Option<u32>,
    output: &mut O,
    watch: &mut W,
) -> Result<(), Miss> {
    round(rt, follower, true, output, watch)?;
    let Some(seconds) = every else {
        return Ok(());
    };
    for _ in 0..u64::MAX {
        thread::sleep(rt, Duration::from_secs(u64::from(seconds)));
        round(rt, follower, false, output, watch)?;
    }
    Ok(())
}

/// Has a folder follow another one, until it is stopped, or for one round.
pub fn follow<R: Host, O: Write, W: Watch>(
    rt: &R,
    ends: Ends<'_>,
    every: Option<u32>,
    output: &mut O,
    watch: &mut W,
) -> Result<Met, Stop> {
    if ends.is_within() || ends.are_one() {
        return Err(Stop::Within);
    }
    let opened = Follower::open(rt, ends.from, ends.to, watch);
    watch.rest();
    let mut follower = match opened {
        Ok(follower) => follower,
        Err(fault) => return missed(output, 0, Miss::from(fault)),
    };
    match go(rt, &mut follower, every, output, watch) {
        Ok(()) => Ok(Met::NOTHING),
        Err(miss) => missed(output, 0, miss),
    }
}

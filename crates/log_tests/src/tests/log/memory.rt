// A log of one page that is refused memory: by `put` for `append`, by `rewrite` for `append_care`,
// and
// `give_up` for `give_up_oldest`, which takes none.

ghost use Rattle.std.specs.Prelude.{OnOk};
ghost use Rattle.test_boxes.specs.Views.{seen};
ghost use Rattle.log_tests.specs.OnePage.{HoldsOne};

use super::page::{give_up, log_over, put, rewrite};
use super::walking::{begun, rolls};
use bw_codec::Leaf;
use bw_log::{Log, LogFault};
use std::alloc::Global;
use test_boxes::NEVER;
use test_kit::marks::{begin, begin_without, end, refuse};

/// No run takes so many allocations.
const MOST: u32 = 10_000;

// What a log shows: the next frame, how many segments and spares there are, and the newest segment.
fn shown(log: &Log, leaf: &Leaf) -> (Option<u64>, u32, u32, Option<(u64, u32, u64)>)
    requires { HoldsOne (seen log.now holding) leaf.now }
{
    let newest = log.live().saturating_sub(1);
    (
        log.next_frame(),
        log.live(),
        log.spares(),
        log.live_segment(newest),
    )
}

// Puts a pair, or writes the page again, if that is refused as expected, or is not.
fn appends(
    alloc: Global,
    log: &mut Log,
    leaf: &mut Leaf,
    key: Option<u8>,
    told: Option<LogFault>,
) -> Result<bool, bool>
    requires { HoldsOne (seen log.old holding) leaf.old }
    ensures { OnOk result (HoldsOne (seen log.new holding) leaf.new) }
{
    if let Some(key) = key {
        return match put(alloc, log, leaf, key, b'2', told) {
            Some(is_so) => Ok(is_so),
            None => Err(false),
        };
    }
    match rewrite(alloc, log, leaf, told) {
        Some(is_so) => Ok(is_so),
        None => Err(false),
    }
}

// One append in a window, once more if it was refused, which left the log as it was: whether it
// was. The error says whether it is that what the append is handed was refused itself.
fn is_appended(alloc: Global, log: &mut Log, leaf: &mut Leaf, key: Option<u8>) -> Result<bool, bool>
    requires { HoldsOne (seen log.old holding) leaf.old }
    ensures { OnOk result (HoldsOne (seen log.new holding) leaf.new) }
{
    let before = shown(log, leaf);
    begin(alloc);
    let first = appends(alloc, log, leaf, key, Some(LogFault::NoMemory));
    let refused = end(alloc);
    let Ok(is_refused) = first else {
        return Err(refused);
    };
    // What is changed beside the log may go without memory that it asked for.
    if (shown(log, leaf) == before) != is_refused || is_refused & !refused {
        return Err(false);
    }
    if is_refused {
        return match appends(alloc, log, leaf, key, None) {
            Ok(true) => Ok(refused),
            _ => Err(false),
        };
    }
    Ok(refused)
}

// The oldest segment is given up while each allocation is refused.
fn is_given_up(alloc: Global, log: &mut Log, leaf: &Leaf) -> bool
    requires { HoldsOne (seen log.old holding) leaf.now }
{
    begin_without(alloc);
    let went = give_up(log, leaf);
    !end(alloc) & went
}

// Two puts, each in a segment of its own, and the page written again in a third; the first is then
// given up.
fn all_go(alloc: Global, log: &mut Log, leaf: &mut Leaf) -> Result<bool, bool>
    requires { HoldsOne (seen log.old holding) leaf.old }
{
    let first = is_appended(alloc, log, leaf, Some(b'a'))?;
    rolls(log, leaf);
    let second = is_appended(alloc, log, leaf, Some(b'b'))?;
    rolls(log, leaf);
    let third = is_appended(alloc, log, leaf, None)?;
    if is_given_up(alloc, log, leaf) {
        Ok(first | second | third)
    } else {
        Err(false)
    }
}

// Whether memory was refused to appends and a cleaning after a first frame; an error if one of them
// went otherwise.
fn goes(alloc: Global) -> Result<bool, bool> {
    let Some((mut log, _yard)) = log_over(alloc, 4, NEVER) else {
        return Err(false);
    };
    match begun(alloc, &mut log, false) {
        Some(mut leaf) => all_go(alloc, &mut log, &mut leaf),
        None => Err(false),
    }
}

// The allocation whose refusal is not answered as expected; none if there is no such one.
fn wrong_number(alloc: Global) -> Option<u32> {
    for number in 1..MOST {
        refuse(alloc, number);
        match goes(alloc) {
            Ok(false) => return None,
            Ok(true) | Err(true) => {}
            Err(false) => return Some(number),
        }
    }
    Some(MOST)
}

#[test]
fn an_append_that_is_refused_memory_leaves_the_log(rt: HostRuntime) {
    assert!(rt; wrong_number(rt.alloc()).is_none());
}

//! Each call of the system failing in turn: it is answered as the system's fault, and afterwards
//! the step is done.

use super::clear;
use super::steps::Act::{
    Append, Copy, Empty, Holds, Leave, Listed, Look, Make, Open, OpenAgain, Opens, Reads, Segment,
    Settle, Spare, Stop, Write,
};
use super::steps::Told::{Done, System};
use super::steps::{Act, Row, Stand, Told, at, goes, wrong_row};

/// A name, what goes before a step, the step, how many calls it makes, and what goes after one of
/// them failed.
#[derive(Drop)]
struct Trial(&'static str, &'static [Row], Act, usize, &'static [Row]);

const TRIALS: &[Trial] = &[
    Trial("made", &[], Open, 7, &[Row(Listed(&[]), Done, "")]),
    Trial(
        "open",
        &[Row(Make, Done, "")],
        Open,
        5,
        &[Row(Open, Done, "dnool")],
    ),
    Trial(
        "segment",
        &[
            Row(Open, Done, "doanool"),
            Row(Write("segment-0000.bw", "abc"), Done, ""),
            Row(Opens(0, 64), Done, ""),
            Row(Stop(0), Done, ""),
        ],
        Segment(0, 64),
        10,
        &[
            Row(Stop(0), Done, ""),
            Row(Leave, Done, ""),
            Row(Open, Done, "dnool"),
            Row(Segment(0, 64), Done, "nnolomrmra"),
            Row(Holds(0, "abc", 0), Done, ""),
        ],
    ),
    Trial(
        "older",
        &[
            Row(Open, Done, "doanool"),
            Row(Write("segment-0000.bw", "abc"), Done, ""),
        ],
        Segment(0, 64),
        13,
        &[
            Row(Stop(0), Done, ""),
            Row(Leave, Done, ""),
            Row(Open, Done, "dnool"),
            Row(Opens(0, 64), Done, ""),
            Row(Holds(0, "abc", 0), Done, ""),
            Row(Stop(0), Done, ""),
            Row(Segment(0, 64), Done, "nnolomrmra"),
        ],
    ),
    Trial(
        "settle",
        &[
            Row(Open, Done, "doanool"),
            Row(Leave, Done, ""),
            Row(Write("segment-0000.bw", "abc"), Done, ""),
            Row(OpenAgain, Done, "nool"),
            Row(Reads(0, 64), Done, "nnolomr"),
            Row(Reads(1, 64), Done, "nnoo"),
        ],
        Settle,
        11,
        &[
            Row(Append(0, "d"), System, ""),
            Row(Append(1, "d"), System, ""),
            Row(Stop(0), Done, ""),
            Row(Stop(1), Done, ""),
            Row(Leave, Done, ""),
            Row(Open, Done, "dnool"),
            Row(Opens(0, 64), Done, ""),
            Row(Holds(0, "abc", 0), Done, ""),
            Row(Append(0, "d"), Done, "wsw"),
        ],
    ),
    Trial(
        "spare",
        &[
            Row(Open, Done, "doanool"),
            Row(Write("segment-0001.bw", "abc"), Done, ""),
        ],
        Spare(1, 64),
        10,
        &[
            Row(Spare(1, 64), Done, "nnoloacaca"),
            Row(Holds(1, "", 0), Done, ""),
        ],
    ),
    Trial(
        "empty",
        &[
            Row(Open, Done, "doanool"),
            Row(Write("segment-0000.bw", "abc"), Done, ""),
        ],
        Empty(0),
        9,
        &[
            Row(Empty(0), Done, "nnolocaca"),
            Row(Act::File("segment-0000.bw", ""), Done, ""),
        ],
    ),
    Trial(
        "append",
        &[
            Row(Open, Done, "doanool"),
            Row(Segment(0, 64), Done, "nnoonolnoa"),
            Row(Append(0, "abc"), Done, "wsw"),
        ],
        Append(0, "d"),
        3,
        &[
            Row(Holds(0, "abc", 1), Done, ""),
            Row(Append(0, "d"), System, ""),
            Row(Stop(0), Done, ""),
            Row(Leave, Done, ""),
            Row(Open, Done, "dnool"),
            Row(Opens(0, 64), Done, ""),
            Row(Append(0, "e"), Done, "wsw"),
        ],
    ),
    Trial(
        "look",
        &[Row(Open, Done, "doanool"), Row(Leave, Done, "")],
        Look,
        4,
        &[Row(Look, Done, "pnok")],
    ),
    Trial(
        "copy",
        &[
            Row(Open, Done, "doanool"),
            Row(Leave, Done, ""),
            Row(Write("segment-0000.bw", "abc"), Done, ""),
            Row(Look, Done, "pnok"),
        ],
        Copy(0, 64, "abc"),
        6,
        &[Row(Copy(0, 64, "abc"), Done, "nomrno")],
    ),
    Trial(
        "copy-with-sums",
        &[
            Row(Open, Done, "doanool"),
            Row(Write("segment-0000.bw", "abc"), Done, ""),
            Row(Opens(0, 64), Done, ""),
            Row(Stop(0), Done, ""),
            Row(Leave, Done, ""),
            Row(Look, Done, "pnok"),
        ],
        Copy(0, 64, "abc"),
        8,
        &[Row(Copy(0, 64, "abc"), Done, "nomrnomr")],
    ),
];

// How the step goes if its call of this number fails.
fn went(stand: &mut Stand, act: &Act, number: usize) -> Told {
    stand.rt.watch.fail_after(number as u64, 0);
    let went = goes(stand, act);
    stand.rt.watch.fail_after(u64::MAX, 0);
    stand.rt.watch.take_letters();
    went
}

// Whether the step is answered as the system's fault if the call of this number fails, and is done
// if no call has this number.
fn is_fault(stand: &mut Stand, trial: &Trial, number: usize) -> bool {
    let Trial(_, before, act, calls, after) = trial;
    if wrong_row(stand, *before).is_some() {
        return false;
    }
    let went = went(stand, act, number);
    if number == *calls {
        went == Done
    } else {
        went == System && wrong_row(stand, *after).is_none()
    }
}

// Whether the step of a trial, in a folder of its own, is answered as the system's fault if the
// call of this number fails, and is done if no call has this number.
fn is_told(rt: HostRuntime, trial: &Trial, number: usize) -> bool {
    match at(rt, "failing") {
        Some(mut stand) => is_fault(&mut stand, trial, number),
        None => false,
    }
}

// The first trial of which a call was not answered so, and the number of the call.
fn wrong_call(rt: HostRuntime) -> Option<(&'static str, usize)> {
    for trial in TRIALS {
        for number in 0..=trial.3 {
            if !is_told(rt, trial, number) {
                return Some((trial.0, number));
            }
        }
    }
    None
}

#[test]
fn each_failed_call_is_told(rt: HostRuntime) {
    assert_eq!(rt; wrong_call(rt), None);
    clear(rt, "failing");
}

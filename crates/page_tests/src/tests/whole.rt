//! `bw_whole`: logs that are written whole. Pairs that are put are the bytes that `docs/FORMAT.md` has
//! for their pages.

use bw_codec::{Key, Pair, Value};
use bw_whole::{NotPut, WholeFault, Writer};
use std::alloc::Global;
use test_kit::tables::{Row, WrongRow, rows_go};
use test_kit::vectors::digits::bytes_of;

/// The header of segment 1 with pages of four pairs.
const HEADER: &str = "42574c4f47534732 0100000000000000 0400 0000 00000100";

/// Pairs, each with why it is not put, if it is not, and the bytes of the segment after its header.
struct Written {
    pairs: &'static [(&'static str, &'static str, Option<WholeFault>)],
    frames: &'static str,
}

/// Puts a pair, and says why it was not put; none if it came back otherwise.
fn put(alloc: Global, writer: &mut Writer, key: &str, value: &str) -> Option<Option<WholeFault>> {
    let held = Key::new(key.as_bytes()).ok()?;
    let value = Value::new(value.as_bytes()).ok()?;
    let pair = Pair::of(alloc, &held, &value).ok()?;
    match writer.put(pair) {
        Ok(()) => Some(None),
        Err(NotPut { pair, cause }) if pair.key() == key.as_bytes() => Some(Some(cause)),
        Err(_) => None,
    }
}

impl Row for Written {
    fn goes(&self, alloc: Global) -> Option<bool> {
        let mut writer = Writer::new(alloc, 4, 65_536, 65_560).ok()?;
        for (key, value, refused) in self.pairs {
            if put(alloc, &mut writer, key, value)? != *refused {
                return Some(false);
            }
        }
        let segments = writer.end().ok()?;
        let mut expected = bytes_of(alloc, HEADER)?;
        expected
            .extend_from_slice(&bytes_of(alloc, self.frames)?)
            .ok()?;
        match segments.as_slice() {
            [segment] => Some(segment.as_slice() == expected.as_slice()),
            _ => Some(false),
        }
    }
}

const NOT_ABOVE: Option<WholeFault> = Some(WholeFault::NotAbove);

const WRITTEN: &[Written] = &[
    // Without pairs there is an empty page 1.
    Written {
        pairs: &[],
        frames: "46524d32 0100000000000000 08000000 01000000 02 01000000 00 0000",
    },
    // The second page begins at its first key.
    Written {
        pairs: &[
            ("a", "1", None),
            ("b", "2", None),
            ("c", "3", None),
            ("d", "4", None),
            ("e", "5", None),
        ],
        frames: "46524d32 0100000000000000 2a000000 02000000 \
            02 01000000 00 0400 \
            01 61 0100 31 01 62 0100 32 01 63 0100 33 01 64 0100 34 \
            02 02000000 01 65 0100 01 65 0100 35",
    },
    // What is not above the key before it is refused, on the next page too, and changes nothing.
    Written {
        pairs: &[
            ("b", "1", None),
            ("a", "2", NOT_ABOVE),
            ("b", "3", NOT_ABOVE),
            ("c", "4", None),
            ("d", "5", None),
            ("e", "6", None),
            ("e", "7", NOT_ABOVE),
            ("f", "8", None),
        ],
        frames: "46524d32 0100000000000000 2a000000 02000000 \
            02 01000000 00 0400 \
            01 62 0100 31 01 63 0100 34 01 64 0100 35 01 65 0100 36 \
            02 02000000 01 66 0100 01 66 0100 38",
    },
];

#[test]
fn pairs_are_the_bytes_of_their_pages(rt: HostRuntime) -> Result<(), WrongRow> {
    rows_go(rt.alloc(), WRITTEN)
}

/// Limits, and whether there is such a log.
struct Limits(u16, u32, u64, bool);

impl Row for Limits {
    fn goes(&self, alloc: Global) -> Option<bool> {
        match Writer::new(alloc, self.0, self.1, self.2) {
            Ok(_) => Some(self.3),
            Err(WholeFault::BadConfig) => Some(!self.3),
            Err(_) => None,
        }
    }
}

const LIMITS: &[Limits] = &[
    Limits(4, 65_536, 65_560, true),
    Limits(32, 262_144, 1_073_741_824, true),
    Limits(3, 65_536, 65_560, false),
    Limits(33, 65_536, 65_560, false),
    Limits(4, 65_535, 65_560, false),
    Limits(4, 262_145, 1_048_576, false),
    Limits(4, 65_536, 65_559, false),
    Limits(4, 65_536, 1_073_741_825, false),
];

#[test]
fn limits_are_those_of_a_log(rt: HostRuntime) -> Result<(), WrongRow> {
    rows_go(rt.alloc(), LIMITS)
}

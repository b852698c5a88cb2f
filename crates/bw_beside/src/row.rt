//! The live segments of a folder that somebody writes, as they are seen before any is read, and the
//! order in which their files are read then.

use crate::files::{header_in, leases_in};
use crate::host::Host;
use crate::miss::Miss;
use std::alloc::{AllocError, Global};
use std::collections::BTreeMap;

/// A live segment: its number, and the lease of its file.
#[derive(Debug, Clone, Copy, PartialEq, Eq)]
pub struct Live {
    pub number: u64,
    pub lease: u32,
}

/// The live segments of a folder as two looks in a row saw them, by their numbers. There is one at
/// least.
#[derive(Drop)]
pub struct Row {
    live: Vec<Live>,
}

/// The leases of live segments, by the numbers of these.
fn numbers_in<R: Host>(rt: &R, folder: &str) -> Result<BTreeMap<u64, u32>, Miss> {
    let mut numbers = BTreeMap::new(rt.alloc());
    for lease in &leases_in(rt, folder)? {
        if let Some(header) = header_in(rt, folder, *lease)? {
            if numbers.insert(header.number, *lease)?.is_some() {
                return Err(Miss::Moved);
            }
        }
    }
    Ok(numbers)
}

/// The live segments of a folder, by their numbers, as one look at each file sees them.
fn look<R: Host>(rt: &R, folder: &str) -> Result<Vec<Live>, Miss> {
    let mut live = Vec::new(rt.alloc());
    for (number, lease) in &numbers_in(rt, folder)? {
        live.push(Live {
            number: *number,
            lease: *lease,
        })?;
    }
    Ok(live)
}

impl Row {
    /// Looks twice. What both looks see was begun before the second one, so all that is older and
    /// was not seen had been given up when it ended. Refused if they do not agree, or see no
    /// segment.
    pub fn of<R: Host>(rt: &R, folder: &str) -> Result<Row, Miss> {
        let before = look(rt, folder)?;
        let live = look(rt, folder)?;
        if live.is_empty() || before.as_slice() != live.as_slice() {
            return Err(Miss::Moved);
        }
        Ok(Row { live })
    }

    /// The live segments, the oldest first. There is one at least.
    pub fn live(&self) -> &[Live] {
        self.live.as_slice()
    }

    fn is_seen(&self, lease: u32) -> bool {
        self.live.as_slice().iter().any(|live| live.lease == lease)
    }

    // Adds those of these leases whose segments were not seen.
    fn add_unseen(&self, order: &mut Vec<u32>, leases: &[u32]) -> Result<(), AllocError> {
        for lease in leases {
            if !self.is_seen(*lease) {
                order.push(*lease)?;
            }
        }
        Ok(())
    }

    /// In which order the files of these leases are read: the oldest segment first, since it is the
    /// first to be given up; the newest at the end, since it is still there then only if no segment
    /// that was begun meanwhile is gone again; and before it the files in which no segment was
    /// seen.
    pub(crate) fn order(&self, alloc: Global, leases: &[u32]) -> Result<Vec<u32>, AllocError> {
        let mut order = Vec::new(alloc);
        let Some((newest, older)) = self.live.as_slice().split_last() else {
            return Ok(order);
        };
        for live in older {
            order.push(live.lease)?;
        }
        self.add_unseen(&mut order, leases)?;
        order.push(newest.lease)?;
        Ok(order)
    }

    /// Whether the segment that the file of a lease has now is the one that was seen; or, if none
    /// was, is newer than all that were.
    pub(crate) fn allows(&self, lease: u32, number: Option<u64>) -> bool {
        let live = self.live.as_slice();
        match live.iter().find(|live| live.lease == lease) {
            Some(seen) => number == Some(seen.number),
            None => match (number, live.last()) {
                (Some(number), Some(newest)) => number > newest.number,
                _ => true,
            },
        }
    }
}

//! A second of UTC, as a number and in the words of a calendar.

use jiff::Timestamp;
use std::fmt::{self, Display, Formatter};
use std::time::Clock;

/// A second of UTC. Its `Display` is that of ISO 8601, as `2026-11-29T18:20:27Z`.
#[derive(Debug, Clone, Copy, PartialEq, Eq, PartialOrd, Ord)]
pub struct Moment {
    /// How many seconds of UTC had passed since 1970 began.
    pub second: u64,
}

/// What the clock of the system says; the first second of 1970 if it says nothing.
pub fn now<R: Clock>(rt: &R) -> Moment {
    match rt.since_1970() {
        Ok(time) => Moment {
            second: time.as_secs(),
        },
        Err(_) => Moment { second: 0 },
    }
}

impl Moment {
    /// The moment that a text gives: a number of seconds since 1970, or a date with its time and
    /// its distance from UTC, of which a part of a second is let go. `None` for any other text, and
    /// for one before 1970.
    pub fn of_text(text: &str) -> Option<Moment> {
        if text.bytes().all(|byte| byte.is_ascii_digit()) {
            let second = text.parse().ok()?;
            return Some(Moment { second });
        }
        let read: Result<Timestamp, jiff::Error> = text.parse();
        let second = u64::try_from(read.ok()?.as_second()).ok()?;
        Some(Moment { second })
    }

    /// The moment as a date and a time, if the calendar goes so far: up to the year 9999.
    fn timestamp(&self) -> Option<Timestamp> {
        let second = i64::try_from(self.second).ok()?;
        Timestamp::from_second(second).ok()
    }
}

impl Display for Moment {
    fn fmt<W: fmt::Write>(&self, f: &mut Formatter<W>) -> fmt::Result {
        match self.timestamp() {
            Some(timestamp) => write!(f, "{timestamp}"),
            None => write!(f, "{}", self.second),
        }
    }
}

//! What is measured, and how it is printed.

use anyhow::Result;
use std::time::CpuClock;

/// What a subject needs of the system beside its store.
pub trait Host: Print + CpuClock {}

impl<R: Print + CpuClock> Host for R {}

/// Prints what each span took, if it is asked for times; else how many operations it had.
#[derive(Clone, Copy)]
pub struct Meter {
    pub is_timed: bool,
}

/// The processor time of this thread, in nanoseconds.
pub fn now(host: &impl Host) -> Result<u64> {
    let time = host.thread_cpu_time()?;
    Ok(u64::try_from(time.as_nanos()).unwrap_or(u64::MAX))
}

impl Meter {
    /// Prints so many operations that began then, and their time if that is asked for.
    pub fn tell(self, host: &impl Host, name: &str, count: u64, start: u64) -> Result<()> {
        let nanos = now(host)?.saturating_sub(start);
        if self.is_timed {
            let each = nanos / count.max(1);
            println!(host; "{name}: {count}, {each} ns each")?;
        } else {
            println!(host; "{name}: {count}")?;
        }
        Ok(())
    }

    /// Prints how many of so many were read back as they were put.
    pub fn tell_right(self, host: &impl Host, count: u64, right: u64) -> Result<()> {
        if right != count {
            println!(host; "  {right} of {count} are right")?;
        }
        Ok(())
    }
}

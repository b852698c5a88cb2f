//! What was found of a store.

use crate::stop::Stop;
use bw_home::Found;
use bw_look::Printer;
use std::io::Write;

/// The two lines of what was found: its segments, and its frames.
pub fn write_found<O: Write>(out: &mut Printer<'_, O>, found: Found) {
    out.named("segments ", found.live);
    out.named(" spares ", found.spares);
    out.line(" dropped ", found.dropped);
    out.named("frames ", found.first);
    out.named(" ", found.last);
    out.line(" tail ", found.tail);
}

/// Prints only these lines, if something was found.
pub fn print_found<O: Write>(output: &mut O, found: Option<Found>) -> Result<(), Stop> {
    let mut out = Printer::new(output);
    if let Some(found) = found {
        write_found(&mut out, found);
    }
    out.end()?;
    Ok(())
}

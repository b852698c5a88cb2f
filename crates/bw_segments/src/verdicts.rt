//! What `bwlog verify` says of a folder as an object of JSON, on one line.

use bw_look::Printer;
use bw_rescue::{Hurt, Verified};
use std::io::Write;

/// Writes a folder without a fault.
pub(crate) fn write_whole<O: Write>(out: &mut Printer<'_, O>, verified: Verified) {
    out.named("{\"verified\":true,\"segments\":", verified.segments);
    out.named(",\"frames\":", verified.frames);
    out.named(",\"bytes\":", verified.bytes);
    out.named(",\"without_digest\":", verified.unsummed);
    out.text(b"}\n");
}

/// Writes which fault it is, and of which segment.
fn write_front<O: Write>(out: &mut Printer<'_, O>, fault: &str, lease: u32) {
    out.named("{\"fault\":\"", fault);
    out.named("\",\"lease\":", lease);
}

/// Writes one fault.
fn write_hurt<O: Write>(out: &mut Printer<'_, O>, hurt: Hurt) {
    match hurt {
        Hurt::Damaged { lease, at } => {
            write_front(out, "damaged", lease);
            out.named(",\"at\":", at);
        }
        Hurt::Missing { lease, from, to } => {
            write_front(out, "missing", lease);
            out.named(",\"from\":", from);
            out.named(",\"to\":", to);
        }
        Hurt::BadBytes { lease, at } => {
            write_front(out, "bad bytes", lease);
            out.named(",\"at\":", at);
        }
    }
    out.text(b"}");
}

/// Writes a folder with faults.
pub(crate) fn write_faults<O: Write>(out: &mut Printer<'_, O>, hurts: &[Hurt]) {
    out.text(b"{\"verified\":false,\"faults\":[");
    for (index, hurt) in hurts.iter().enumerate() {
        if index > 0 {
            out.text(b",");
        }
        write_hurt(out, *hurt);
    }
    out.text(b"]}\n");
}

/// Writes a folder that recovery refuses, though none of its segments has a fault. What is printed
/// of the refusal is its text after the word `refused`.
pub(crate) fn write_refused<O: Write>(out: &mut Printer<'_, O>, refusal: &str) {
    let word = refusal.strip_prefix("refused ").unwrap_or(refusal);
    out.named("{\"verified\":false,\"refused\":\"", word);
    out.text(b"\"}\n");
}

//! `bwlog verify`, `copy`, `salvage` and `restore`: what `bw_rescue` does, in words.

use crate::verdicts::{write_faults, write_refused, write_whole};
use bw_care::RecoverCause;
use bw_device::MAX_LEASES;
use bw_file::{FolderFault, FolderReader};
use bw_home::Options;
use bw_look::{Moment, Note, Printer, Watch, noted_at, notes_in};
use bw_rescue::{Copied, Hurt, Loss, RescueFault, Salvaged, Verdict, Verified};
use bw_words::{AsOf, Ends, Met, Miss, Refusal, Report, Stop, System, missed};
use std::io::Write;

/// What was met if something is damaged.
const DAMAGE: Met = Met {
    refusal: true,
    ..Met::NOTHING
};

/// The line of a new folder.
fn write_copied<O: Write>(out: &mut Printer<'_, O>, word: &str, copied: Copied) {
    out.named(word, copied.frame);
    out.named(" pages ", copied.pages);
    out.line(" pairs ", copied.pairs);
}

/// Prints the line of a new folder, or why there is none.
fn tell_copied<O: Write>(
    output: &mut O,
    word: &str,
    copied: Result<Copied, RescueFault>,
) -> Result<Met, Stop> {
    match copied {
        Ok(copied) => {
            let mut out = Printer::new(output);
            write_copied(&mut out, word, copied);
            out.end()?;
            Ok(Met::NOTHING)
        }
        Err(fault) => missed(output, 0, Miss::from(fault)),
    }
}

/// Copies a folder as it is.
pub fn copy<R: System, O: Write, W: Watch>(
    rt: &R,
    ends: Ends<'_>,
    output: &mut O,
    watch: &mut W,
) -> Result<Met, Stop> {
    if ends.is_within() {
        return Err(Stop::Within);
    }
    let copied = bw_rescue::copy(rt, ends.from, ends.to, MAX_LEASES, watch);
    watch.rest();
    tell_copied(output, "copied frame ", copied)
}

/// Writes the pairs of a folder into a new store.
pub fn compact<R: System, O: Write, W: Watch>(
    rt: &R,
    ends: Ends<'_>,
    options: &Options,
    output: &mut O,
    watch: &mut W,
) -> Result<Met, Stop> {
    if ends.is_within() {
        return Err(Stop::Within);
    }
    let copied = bw_rescue::compact(rt, ends.from, ends.to, MAX_LEASES, options, watch);
    watch.rest();
    tell_copied(output, "copied frame ", copied)
}

/// The frame that was noted at the time of this text, or the last one before.
fn noted<R: System>(rt: &R, from: &str, text: &str) -> Result<Note, Stop> {
    let Some(moment) = Moment::of_text(text) else {
        return Err(Stop::BadTime);
    };
    let notes = notes_in(rt, from).map_err(|error| { Stop::of_source(FolderFault::from(error)) })?;
    match noted_at(notes.as_slice(), moment) {
        Some(note) => Ok(note),
        None => Err(Stop::NotNoted(moment, notes.first().copied())),
    }
}

/// Makes a folder that holds a store as of an earlier frame, and prints that.
fn restore_at<R: System, O: Write, W: Watch>(
    rt: &R,
    ends: Ends<'_>,
    frame: u64,
    output: &mut O,
    watch: &mut W,
) -> Result<Met, Stop> {
    let copied = bw_rescue::restore(rt, ends.from, ends.to, frame, MAX_LEASES, watch);
    watch.rest();
    tell_copied(output, "restored frame ", copied)
}

/// Makes a folder that holds a store as of an earlier frame, or of a time, and prints that.
pub fn restore<R: System, O: Write, W: Watch>(
    rt: &R,
    ends: Ends<'_>,
    as_of: AsOf<'_>,
    output: &mut O,
    watch: &mut W,
) -> Result<Met, Stop> {
    if ends.is_within() {
        return Err(Stop::Within);
    }
    match as_of {
        AsOf::Frame(frame) => restore_at(rt, ends, frame, output, watch),
        AsOf::Time(text) => {
            let note = noted(rt, ends.from, text)?;
            restore_at(rt, ends, note.frame, output, watch)
        }
    }
}

/// A line for each loss.
fn write_losses<O: Write>(out: &mut Printer<'_, O>, losses: &[Loss]) {
    for loss in losses {
        out.line("", *loss);
    }
}

/// Writes all that a folder still has into a new store, and says what was lost.
pub fn salvage<R: System, O: Write, W: Watch>(
    rt: &R,
    ends: Ends<'_>,
    output: &mut O,
    watch: &mut W,
) -> Result<Met, Stop> {
    if ends.is_within() {
        return Err(Stop::Within);
    }
    let salvaged = bw_rescue::salvage(rt, ends.from, ends.to, MAX_LEASES, watch);
    watch.rest();
    let Salvaged { copied, losses } = match salvaged {
        Ok(salvaged) => salvaged,
        Err(fault) => return missed(output, 0, Miss::from(fault)),
    };
    let mut out = Printer::new(output);
    write_losses(&mut out, losses.as_slice());
    write_copied(&mut out, "salvaged frame ", copied);
    out.end()?;
    Ok(if losses.is_empty() {
        Met::NOTHING
    } else {
        DAMAGE
    })
}

/// A line for each fault.
fn write_hurts<O: Write>(out: &mut Printer<'_, O>, hurts: &[Hurt]) {
    for hurt in hurts {
        out.line("", *hurt);
    }
}

/// The line of a folder without a fault, and one for bytes that have no digest.
fn write_verified<O: Write>(out: &mut Printer<'_, O>, verified: Verified) {
    out.named("verified segments ", verified.segments);
    out.named(" frames ", verified.frames);
    out.line(" bytes ", verified.bytes);
    if verified.unsummed > 0 {
        out.line("without a digest bytes ", verified.unsummed);
    }
}

/// Whether a folder has the file of no segment.
fn is_bare<R: System>(rt: &R, dir: &str) -> bool {
    let Ok(reader) = FolderReader::open(rt, dir) else {
        return false;
    };
    match reader.leases(rt) {
        Ok(leases) => leases.is_empty(),
        Err(_) => false,
    }
}

/// What was met if recovery refused a folder.
fn met_of(refusal: Refusal) -> Met {
    Met {
        refusal: true,
        far: matches!(refusal, Refusal::NoLease),
        cause: refusal.cause(),
        ..Met::NOTHING
    }
}

/// Says that a folder was refused, in this manner.
fn tell_refused<R: System, O: Write>(
    rt: &R,
    fault: RescueFault,
    report: Report,
    output: &mut O,
) -> Result<Met, Stop> {
    match (Miss::from(fault), report) {
        (Miss::Refused(refusal), Report::Json) if !refusal.is_no_memory() => {
            let text = format!(in rt.alloc(); "{refusal}")?;
            let mut out = Printer::new(output);
            write_refused(&mut out, text.as_str());
            out.end()?;
            Ok(met_of(refusal))
        }
        (miss, _) => missed(output, 0, miss),
    }
}

/// Says what comes of a folder that was read, in this manner.
fn tell_verdict<O: Write>(output: &mut O, verdict: &Verdict, report: Report) -> Result<Met, Stop> {
    let mut out = Printer::new(output);
    match (verdict, report) {
        (Verdict::Whole(verified), Report::Lines) => write_verified(&mut out, *verified),
        (Verdict::Whole(verified), Report::Json) => write_whole(&mut out, *verified),
        (Verdict::Hurt(hurts), Report::Lines) => write_hurts(&mut out, hurts.as_slice()),
        (Verdict::Hurt(hurts), Report::Json) => write_faults(&mut out, hurts.as_slice()),
    }
    out.end()?;
    Ok(match verdict {
        Verdict::Whole(verified) => Met {
            bare: verified.unsummed > 0,
            ..Met::NOTHING
        },
        Verdict::Hurt(_) => DAMAGE,
    })
}

/// Verifies a folder, and says what comes of it in this manner.
pub fn verify<R: System, O: Write, W: Watch>(
    rt: &R,
    dir: &str,
    report: Report,
    output: &mut O,
    watch: &mut W,
) -> Result<Met, Stop> {
    let verified = bw_rescue::verify(rt, dir, MAX_LEASES, watch);
    watch.rest();
    match verified {
        Ok(verdict) => tell_verdict(output, &verdict, report),
        Err(RescueFault::Recovery(RecoverCause::Empty)) if is_bare(rt, dir) => Err(Stop::NoStore),
        Err(fault) => tell_refused(rt, fault, report, output),
    }
}

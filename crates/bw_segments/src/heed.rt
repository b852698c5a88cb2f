//! What is said of a folder beside the answers of a run: options that it does not heed, and files
//! for which there is no lease.

use crate::images::LEAST;
use bw_care::RecoverCause;
use bw_codec::limits::HEADER_LEN;
use bw_device::MAX_LEASES;
use bw_file::{FolderFault, FolderReader};
use bw_look::{Limits, Printer, limits_in};
use bw_rescue::{RescueFault, locate};
use bw_words::{Options, Stop, System, leases_in};
use std::io::Write;

/// The limits with which the store in a folder goes on, as its first file that has a whole frame
/// says them. A folder that cannot be looked at has none: the run itself says why.
fn limits_of<R: System>(rt: &R, path: &str) -> Result<Option<Limits>, FolderFault> {
    let reader = FolderReader::open(rt, path)?;
    for lease in &reader.leases(rt)? {
        let bytes = reader.bytes(rt, *lease)?;
        if let Some(limits) = limits_in(rt.alloc(), bytes.as_slice())? {
            return Ok(Some(limits));
        }
    }
    Ok(None)
}

/// Says which limits were asked for and are not heeded, since the store goes on with its own.
fn write_unheeded<E: Write>(
    out: &mut Printer<'_, E>,
    dir: &str,
    options: &Options<'_>,
    limits: Limits,
) {
    if options.gives_m && options.store.pairs_a_page != limits.m {
        out.named("folder ", dir);
        out.named(": --m ", options.store.pairs_a_page);
        out.line(" is not heeded, since its pages have at most ", limits.m);
    }
    if options.gives_f && options.store.frame_bytes != limits.f {
        out.named("folder ", dir);
        out.named(": --frame ", options.store.frame_bytes);
        out.line(" is not heeded, since its frames have at most ", limits.f);
    }
}

/// Says that new segments would have no room for a frame, and how long these are: in a folder that
/// has some, and else as the options say.
fn write_short<E: Write>(
    out: &mut Printer<'_, E>,
    dir: &str,
    options: &Options<'_>,
    limits: Option<Limits>,
) {
    let frame = limits.map_or(options.store.frame_bytes, |limits| limits.f);
    if options.store.capacity < HEADER_LEN as u64 + u64::from(frame) {
        out.named("folder ", dir);
        out.named(": --capacity ", options.store.capacity);
        out.named(" has no room for a frame, which has up to ", frame);
        out.text(b" bytes beside a header of 24\n");
    }
}

/// Whether something may have to be said of these options.
fn are_told(options: &Options<'_>) -> bool {
    options.gives_m || options.gives_f || options.store.capacity < LEAST
}

/// Says what the folder of a run does not heed of its options, and why it refuses them.
pub fn tell_unheeded<R: System, E: Write>(
    rt: &R,
    dir: &str,
    options: &Options<'_>,
    errors: &mut E,
) -> Result<(), Stop> {
    if !are_told(options) {
        return Ok(());
    }
    let limits = match limits_of(rt, dir) {
        Ok(limits) => limits,
        Err(FolderFault::NoMemory) => return Err(Stop::NoMemory),
        Err(_) => None,
    };
    let mut out = Printer::new(errors);
    if let Some(limits) = limits {
        write_unheeded(&mut out, dir, options, limits);
    }
    write_short(&mut out, dir, options, limits);
    out.end()?;
    Ok(())
}

/// Says which file has a name so far above the others that no run opens it, if there is one.
fn write_far<R: System, E: Write>(
    rt: &R,
    out: &mut Printer<'_, E>,
    path: &str,
) -> Result<(), FolderFault> {
    if leases_in(rt, Some(path)) == MAX_LEASES {
        return Ok(());
    }
    if let Some(lease) = FolderReader::open(rt, path)?.leases(rt)?.last() {
        let name = format!(in rt.alloc(); "segment-{lease:04}.bw")?;
        out.named("folder ", path);
        out.named(": ", name.as_str());
        out.text(b" is far above the other files: rename it, or remove it if it is empty\n");
    }
    Ok(())
}

/// Says which file of a folder keeps a run out that was refused for want of a lease, if one does.
pub fn tell_far<R: System, E: Write>(rt: &R, dir: &str, errors: &mut E) -> Result<(), Stop> {
    let mut out = Printer::new(errors);
    let told = write_far(rt, &mut out, dir);
    out.end()?;
    match told {
        Err(FolderFault::NoMemory) => Err(Stop::NoMemory),
        // What can be said of it was.
        _ => Ok(()),
    }
}

/// Says which files of a folder are at fault, that recovery refused for this cause, as far as that
/// is known. A folder that cannot be read any more says nothing here.
pub fn tell_located<R: System, E: Write>(
    rt: &R,
    dir: &str,
    cause: RecoverCause,
    errors: &mut E,
) -> Result<(), Stop> {
    let found = match locate(rt, dir, MAX_LEASES, cause) {
        Ok(found) => found,
        Err(RescueFault::NoMemory) => return Err(Stop::NoMemory),
        Err(_) => return Ok(()),
    };
    let mut out = Printer::new(errors);
    for located in found.as_slice() {
        out.named("folder ", dir);
        out.line(": ", *located);
    }
    out.end()?;
    Ok(())
}

//! `bwlog print`, `stats` and `picture`: what segments hold, for people. Each reads the segments of a
//! folder, or lines in hex, and changes none of them. `print` shows them as they lie, so nobody may
//! write them meanwhile; the others show those of one moment.

use crate::images::{bytes_in, images, images_stood};
use crate::judged::{Judged, judge};
use crate::numbers::write_numbers;
use bw_care::RecoverCause;
use bw_file::FolderFault;
use bw_look::{
    Counts, Image, Printer, Scene, Survey, Watch, Work, notes_in, write_counts, write_image,
    write_picture,
};
use bw_words::{Met, Miss, Refusal, Stop, System, View, missed, refuse};
use std::alloc::{AllocError, Global};
use std::fs;
use std::io::{Read, Write};

fn counts_of(judged: &Judged) -> Counts {
    Counts {
        spares: u64::from(judged.found.spares),
        tail: judged.found.tail,
        pages: judged.pages,
        pairs: judged.pairs,
        first: judged.found.first,
        last: judged.found.last,
    }
}

/// Writes segments up to the first fault, whose segment and offset are answered.
fn write_images<O: Write>(
    alloc: Global,
    out: &mut Printer<'_, O>,
    images: &[Image],
) -> Result<Option<(usize, usize)>, AllocError> {
    for (position, image) in images.iter().enumerate() {
        if let Some(at) = write_image(alloc, out, position, image)? {
            return Ok(Some((position, at)));
        }
    }
    Ok(None)
}

/// Prints each header, frame and block, up to the first fault.
fn print_images<O: Write>(alloc: Global, images: &[Image], output: &mut O) -> Result<Met, Stop> {
    let mut out = Printer::new(output);
    let fault = write_images(alloc, &mut out, images);
    out.end()?;
    match fault? {
        Some((segment, at)) => refuse(
            output,
            Refusal::Recovery(RecoverCause::BadBytes {
                segment: u32::try_from(segment).unwrap_or(u32::MAX),
                at: at as u64,
            }),
        ),
        None => Ok(Met::NOTHING),
    }
}

/// Counts what segments hold of each kind, once recovery has found them to be those of a log.
fn count_images<O: Write>(
    alloc: Global,
    images: &[Image],
    is_json: bool,
    output: &mut O,
) -> Result<Met, Stop> {
    let judged = match judge(alloc, images) {
        Ok(judged) => judged,
        Err(miss) => return missed(output, 0, miss),
    };
    let survey = Survey::of(alloc, images)?;
    let counts = counts_of(&judged);
    if is_json {
        return print_numbers(alloc, &survey, counts, judged.lengths.as_slice(), output);
    }
    let mut out = Printer::new(output);
    write_counts(&mut out, &survey, counts, judged.lengths.as_slice());
    out.end()?;
    Ok(Met::NOTHING)
}

/// Prints the same as an object of JSON.
fn print_numbers<O: Write>(
    alloc: Global,
    survey: &Survey,
    counts: Counts,
    lengths: &[u64],
    output: &mut O,
) -> Result<Met, Stop> {
    let mut text = Vec::new(alloc);
    let mut lines = Printer::new(&mut text);
    write_counts(&mut lines, survey, counts, lengths);
    if lines.end().is_err() {
        return Err(Stop::NoMemory);
    }
    let mut out = Printer::new(output);
    write_numbers(&mut out, std::str::from_utf8(text.as_slice()).unwrap_or(""));
    out.end()?;
    Ok(Met::NOTHING)
}

/// Draws segments, once recovery has found them to be those of a log. Each has room for so many
/// bytes.
fn draw_images<O: Write>(
    alloc: Global,
    images: &[Image],
    room: u64,
    output: &mut O,
) -> Result<Met, Stop> {
    let judged = match judge(alloc, images) {
        Ok(judged) => judged,
        Err(miss) => return missed(output, 0, miss),
    };
    let survey = Survey::of(alloc, images)?;
    let scene = Scene {
        spares: u64::from(judged.found.spares),
        pages: judged.pages,
        pairs: judged.pairs,
        fills: judged.fills.as_slice(),
        lengths: judged.lengths.as_slice(),
        room,
    };
    let mut out = Printer::new(output);
    write_picture(&mut out, &survey, &scene);
    out.end()?;
    Ok(Met::NOTHING)
}

/// Prints the frames of a folder that were noted, with their times.
fn print_frames<R: System, O: Write>(rt: &R, dir: &str, output: &mut O) -> Result<Met, Stop> {
    let _ = fs::metadata(rt, dir).map_err(FolderFault::from)?;
    let notes = notes_in(rt, dir).map_err(FolderFault::from)?;
    let mut out = Printer::new(output);
    for note in &notes {
        out.named("frame ", note.frame);
        out.line(" time ", note.moment);
    }
    out.end()?;
    Ok(Met::NOTHING)
}

/// The segments that are shown in this view, or the line that is none, and why.
fn shown<R: System, I: Read, W: Watch>(
    rt: &R,
    view: View,
    dir: Option<&str>,
    input: &mut I,
    watch: &mut W,
) -> Result<Vec<Image>, (u64, Miss)> {
    match dir {
        Some(path) if !matches!(view, View::Print) => {
            images_stood(rt, path, watch).map_err(|miss| (0, miss))
        }
        _ => images(rt, dir, input, watch),
    }
}

/// Shows segments in this view.
pub fn look<R: System, I: Read, O: Write, W: Watch>(
    rt: &R,
    view: View,
    dir: Option<&str>,
    input: &mut I,
    output: &mut O,
    watch: &mut W,
) -> Result<Met, Stop> {
    if let (View::Frames, Some(path)) = (view, dir) {
        return print_frames(rt, path, output);
    }
    let images = match shown(rt, view, dir, input, watch) {
        Ok(images) => images,
        Err((number, miss)) => return missed(output, number, miss),
    };
    if dir.is_some() && images.is_empty() && !matches!(view, View::Print) {
        return Err(Stop::NoStore);
    }
    watch.see(Work::Recovering, 0, bytes_in(images.as_slice()));
    match view {
        View::Print => print_images(rt.alloc(), images.as_slice(), output),
        View::Stats | View::Frames => { count_images(rt.alloc(), images.as_slice(), false, output) }
        View::Numbers => count_images(rt.alloc(), images.as_slice(), true, output),
        View::Picture(room) => draw_images(rt.alloc(), images.as_slice(), room, output),
    }
}

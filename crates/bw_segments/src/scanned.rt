//! `bwlog scan`: recovery says what segments hold, of which each is a line in hex, or a file.

ghost use Rattle.bw_care.specs.Found.{IsRecovered};

use crate::images::{bytes_in, images};
use bw_beside::{Ask, ask_owned};
use bw_care::Recovered;
use bw_home::Found;
use bw_look::{Printer, Watch, Work, write_page};
use bw_words::{Met, Miss, Stop, System, missed, write_found};
use std::io::{Read, Write};

/// What was found is printed, and all pages.
#[derive(Drop)]
struct Scanning<'a, O> {
    output: &'a mut O,
}

/// Prints all pages, by number. Each is read from its log when its turn comes.
fn write_pages<O: Write>(out: &mut Printer<'_, O>, pages: Recovered) -> Result<(), Miss>
    requires { IsRecovered (λ b. holding (b.vtable, b.value)) pages }
{
    let mut pages = pages;
    'pages: for index in 0..pages.leaves.count() {
        if let Some(leaf) = pages.page(index.saturating_add(1))? {
            write_page(out, &leaf);
        }
    }
    Ok(())
}

impl<O: Write, W: Watch> Ask<W> for Scanning<'_, O> {
    type Answer = Result<Met, Stop>;

    fn ask(&mut self, pages: Recovered, watch: &mut W) -> Result<Met, Stop> {
        watch.rest();
        let mut out = Printer::new(&mut *self.output);
        write_found(&mut out, Found::of(&pages));
        let written = write_pages(&mut out, pages);
        out.end()?;
        match written {
            Ok(()) => Ok(Met::NOTHING),
            Err(miss) => missed(&mut *self.output, 0, miss),
        }
    }
}

/// Prints what recovery says of segments: those of a folder, or lines in hex. No more of them is
/// kept than their bytes, and no more of the pages than one.
pub fn scan<R: System, I: Read, O: Write, W: Watch>(
    rt: &R,
    dir: Option<&str>,
    input: &mut I,
    output: &mut O,
    watch: &mut W,
) -> Result<Met, Stop> {
    let images = match images(rt, dir, input, watch) {
        Ok(images) => images,
        Err((number, miss)) => return missed(output, number, miss),
    };
    watch.see(Work::Recovering, 0, bytes_in(images.as_slice()));
    let mut scan = Scanning {
        output: &mut *output,
    };
    match ask_owned(rt.alloc(), images, &mut scan, watch) {
        Ok(answer) => answer,
        Err(cause) => missed(output, 0, Miss::from(cause)),
    }
}

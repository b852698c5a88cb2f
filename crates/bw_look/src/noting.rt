//! Notes that are appended as frames of a log become durable.

use crate::moment::{Moment, now};
use crate::notes::{Note, may_be_opened, note_in, path_of};
use std::fs::{File, OpenOptions};
use std::io::{self, Write};
use std::os::unix::fs::FileExt;
use std::rt::Files;
use std::time::Clock;

/// As many bytes as the longest line has, twice.
const END: usize = 64;

/// Notes the frames of the log in a folder, if it stands in one. What cannot be written is not
/// noted.
#[derive(Debug, Clone, Copy)]
pub struct Noting<'a> {
    folder: Option<&'a str>,
    /// The last note in the file, once it was looked at.
    last: Option<Note>,
    /// A frame that became durable in the second of that note.
    next: Option<Note>,
    /// Whether the file was looked at.
    is_begun: bool,
    /// Whether its last line has no end.
    is_torn: bool,
}

/// The last bytes of a file.
fn end_of<'a>(file: &File, room: &'a mut [u8; 64]) -> io::Result<&'a [u8]> {
    let len = file.metadata()?.len();
    let from = len.saturating_sub(END as u64);
    let count = (len.saturating_sub(from) as usize).min(END);
    let bytes = &mut room[..count];
    file.read_exact_at(bytes, from)?;
    Ok(bytes)
}

/// The last of these lines that is a note.
fn last_note(bytes: &[u8]) -> Option<Note> {
    let mut last = None;
    for line in bytes.split(|byte| *byte == b'\n') {
        last = note_in(line).or(last);
    }
    last
}

impl<'a> Noting<'a> {
    /// Of the log in this folder; of none, if it stands in memory.
    pub fn new(folder: Option<&'a str>) -> Noting<'a> {
        Noting {
            folder,
            last: None,
            next: None,
            is_begun: false,
            is_torn: false,
        }
    }

    /// Looks at the last line of the file, if it was not looked at yet.
    fn begin<R: AllocGlobal + Files<File = File>>(&mut self, rt: &R, path: &str) -> io::Result<()> {
        if self.is_begun {
            return Ok(());
        }
        self.is_begun = true;
        let file = OpenOptions::new().read(true).open(rt, path)?;
        let mut room = [0u8; END];
        let bytes = end_of(&file, &mut room)?;
        self.last = last_note(bytes);
        self.is_torn = bytes.last().is_some_and(|byte| *byte != b'\n');
        Ok(())
    }

    /// Appends the line of a note. After a line that was not written whole, one begins anew.
    fn append<R: AllocGlobal + Files<File = File>>(
        &mut self,
        rt: &R,
        path: &str,
        note: Note,
    ) -> io::Result<()> {
        let begins = if self.is_torn { "\n" } else { "" };
        let line = format!(in rt.alloc(); "{begins}{note}\n")?;
        let mut file = OpenOptions::new().append(true).create(true).open(rt, path)?;
        self.is_torn = true;
        file.write_all(line.as_bytes())?;
        self.is_torn = false;
        self.last = Some(note);
        Ok(())
    }

    /// Appends what waits, if it is so much older than this moment that no other note says it.
    fn catch_up<R: AllocGlobal + Files<File = File>>(
        &mut self,
        rt: &R,
        path: &str,
        moment: Moment,
    ) -> io::Result<()> {
        match self.next.take() {
            Some(next) if moment.second > next.moment.second.saturating_add(1) => {
                self.append(rt, path, next)
            }
            _ => Ok(()),
        }
    }

    /// Appends a note, or lets it wait if the second has one.
    fn note<R: AllocGlobal + Files<File = File>>(
        &mut self,
        rt: &R,
        folder: &str,
        note: Note,
    ) -> io::Result<()> {
        let path = path_of(rt, folder)?;
        if !may_be_opened(rt, path.as_str()) {
            return Ok(());
        }
        // A file that is missing, or not read, has no last line.
        let _ = self.begin(rt, path.as_str());
        if self.is_known(note.frame) {
            return Ok(());
        }
        if self.last.is_some_and(|last| last.moment == note.moment) {
            self.next = Some(note);
            return Ok(());
        }
        self.catch_up(rt, path.as_str(), note.moment)?;
        self.append(rt, path.as_str(), note)
    }

    /// Whether this frame is the last one that was noted, or waits.
    fn is_known(&self, frame: u64) -> bool {
        match self.next.or(self.last) {
            Some(note) => note.frame == frame,
            None => frame == 0,
        }
    }

    /// This frame is durable, and is the last one now; 0 if there is none. The first frame of a
    /// second is noted at once, and the last one before the next note, if that comes more than a
    /// second later. A frame that was the last one before costs a comparison.
    pub fn durable<R: AllocGlobal + Clock + Files<File = File>>(&mut self, rt: &R, frame: u64) {
        if let Some(folder) = self.folder {
            if !self.is_known(frame) {
                let moment = now(rt);
                let _ = self.note(rt, folder, Note { frame, moment });
            }
        }
    }

    /// The log is closed, and this frame is its last one: it is noted, if it is not yet.
    pub fn closing<R: AllocGlobal + Clock + Files<File = File>>(&mut self, rt: &R, frame: u64) {
        self.durable(rt, frame);
        if let (Some(folder), Some(next)) = (self.folder, self.next.take()) {
            if let Ok(path) = path_of(rt, folder) {
                let _ = self.append(rt, path.as_str(), next);
            }
        }
    }
}

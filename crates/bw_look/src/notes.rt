//! The notes of a folder, as lines of its file.

use crate::moment::Moment;
use std::alloc::AllocError;
use std::fmt::{self, Display, Formatter};
use std::io::{self, ErrorKind, Write};
use std::rt::Files;
use std::{fs, str};

/// How many digits the second of a note has. A line that was torn off has fewer, and is none.
const DIGITS: usize = 10;

/// A frame that was the last one of its log that was durable, at a moment. Its `Display` is its
/// line in the file, without the end.
#[derive(Debug, Clone, Copy, PartialEq, Eq)]
pub struct Note {
    /// The number of the frame.
    pub frame: u64,
    pub moment: Moment,
}

impl Display for Note {
    fn fmt<W: fmt::Write>(&self, f: &mut Formatter<W>) -> fmt::Result {
        write!(f, "{} {:010}", self.frame, self.moment.second)
    }
}

/// The number that decimal digits spell, and nothing else.
fn number_in(word: &str) -> Option<u64> {
    if !word.bytes().all(|byte| byte.is_ascii_digit()) {
        return None;
    }
    word.parse().ok()
}

/// The note of a line without its end, if it is one.
pub(crate) fn note_in(line: &[u8]) -> Option<Note> {
    let text = str::from_utf8(line).ok()?;
    let (frame, second) = text.split_once(' ')?;
    if second.len() != DIGITS {
        return None;
    }
    Some(Note {
        frame: number_in(frame)?,
        moment: Moment {
            second: number_in(second)?,
        },
    })
}

/// Adds a note to those before it. What names an earlier frame belongs to another log than they do,
/// so they are let go; what names the same one says nothing new.
fn push_note(notes: &mut Vec<Note>, note: Note) -> Result<(), AllocError> {
    let last = notes.last().map_or(0, |last| last.frame);
    if note.frame < last {
        notes.clear();
    }
    if note.frame != last || notes.is_empty() {
        notes.push(note)?;
    }
    Ok(())
}

/// The path of the file of a folder.
pub(crate) fn path_of<R: AllocGlobal>(rt: &R, folder: &str) -> Result<String, AllocError> {
    format!(in rt.alloc(); "{folder}/times")
}

/// Whether what has this name is a plain file, if anything has it. A pipe would keep its opener
/// waiting, and by a link a file outside the folder would be written.
pub(crate) fn may_be_opened<R: Files>(rt: &R, path: &str) -> bool {
    match fs::symlink_metadata(rt, path) {
        Ok(found) => found.is_file(),
        Err(error) => error.kind() == ErrorKind::NotFound,
    }
}

/// The notes of a folder, whose frames ascend. Lines that are none are passed over. There are none
/// if it has no file `times`, or what has that name is no plain file.
pub fn notes_in<R: AllocGlobal + Files>(rt: &R, folder: &str) -> io::Result<Vec<Note>> {
    let mut notes = Vec::new(rt.alloc());
    let path = path_of(rt, folder)?;
    if !may_be_opened(rt, path.as_str()) {
        return Ok(notes);
    }
    let bytes = match fs::read(rt, path.as_str()) {
        Ok(bytes) => bytes,
        Err(error) if error.kind() == ErrorKind::NotFound => return Ok(notes),
        Err(error) => return Err(error),
    };
    for line in bytes.split(|byte| *byte == b'\n') {
        if let Some(note) = note_in(line) {
            push_note(&mut notes, note)?;
        }
    }
    Ok(notes)
}

/// The note of the greatest frame that was noted at a moment or before it.
pub fn noted_at(notes: &[Note], moment: Moment) -> Option<Note> {
    let mut found = None;
    for note in notes {
        if note.moment <= moment {
            found = Some(*note);
        }
    }
    found
}

/// Notes in a new folder what another one has noted of the frames up to this one, in place of what
/// it has noted. If neither has noted anything, no file is made.
pub fn carry<R: AllocGlobal + Files>(rt: &R, from: &str, to: &str, frame: u64) -> io::Result<()> {
    let path = path_of(rt, to)?;
    if !may_be_opened(rt, path.as_str()) {
        return Ok(());
    }
    let mut lines = Vec::new(rt.alloc());
    for note in &notes_in(rt, from)? {
        if note.frame <= frame {
            writeln!(&mut lines, "{note}")?;
        }
    }
    if lines.is_empty() && !fs::exists(rt, path.as_str())? {
        return Ok(());
    }
    fs::write(rt, path.as_str(), lines.as_slice())
}

//! The lines of an input, in bounded memory and after a bounded number of reads.

ghost use Rattle.std.specs.Prelude.{◌≡◌, ◌≢◌, ◌==◌, ◌||◌, ◌&&◌, not, ◌+◌, ◌<◌, ◌≤◌, ℕ, List, [], ◌++◌, length, take, drop, All, true, false, Ok, Some, IfOk, IfSome, OnOk, nat_lt, vec_len, position};
ghost use Rattle.std.specs.Io.Iter.{u64_saturate};
ghost use Rattle.std.specs.Io.BufRead.{ends_with_byte, strip_last};
ghost use Rattle.std.specs.Io.Buffered.{reader_remaining};
ghost use Rattle.std.specs.Io.KnownBytes.{Consumes};
ghost use Rattle.bw_pairs.specs.Inputs.{is_lf, front, shown, without_end, line_of, after_line, counted_left, bytes_left, line_held, line_number, longest_line};

use std::alloc::Global;
use std::io::{self, BufRead, BufReader, ErrorKind, Read};

/// The most reads of the input before its end: as many as can be counted, so no input meets it.
pub const READS: u64 = u64::MAX;

/// Counts the reads of a reader, and fails from the one after the last.
#[derive(Drop)]
pub struct Counted<R> {
    input: R,
    left: u64,
}

impl<R: Read> Read for Counted<R> {
    ghost remaining = { counted_left R.remaining };

    fn read(&mut self, buf: &mut [u8]) -> io::Result<usize> {
        if self.left == 0 {
            return Err(io::Error::from(ErrorKind::TimedOut));
        }
        self.left -= 1;
        self.input.read(buf)
    }
}

/// Where the first LF stands.
fn end_in(bytes: &[u8]) -> Option<usize>
    ensures { result ≡ position is_lf bytes.now }
{
    bytes.iter().position(|byte| *byte == b'\n')
}

/// Whether so many bytes without an LF are all that is wanted: there is no more, or there may be no
/// more.
fn is_enough(count: usize, most: u64) -> bool
    ensures { result ≡ ((count == 0) || (count == most)) }
{
    count == 0 || count as u64 == most
}

/// How many of the bytes that are shown stand before the next LF or are it, but at most so many,
/// and whether nothing is missing then. None are shown at the end of an input.
fn shown_front(shown: &[u8], most: u64) -> (usize, bool)
    requires some { 0 < most }
    ensures within { result.0 ≤ length shown.now }
    ensures short { result.0 ≤ most }
    ensures whole { result.1 ≡ true → (rest : List ℕ) → (length shown.now ≡ 0 → rest ≡ [])
        → front most (shown.now ++ rest) ≡ take result.0 shown.now }
    ensures part { result.1 ≡ false
        → (result.0 < most) × All (λ byte. byte ≢ 10) (take result.0 shown.now) }
{
    let count = (shown.len() as u64).min(most) as usize;
    match end_in(&shown[..count]) {
        Some(at) => (at + 1, true),
        None => (count, is_enough(count, most)),
    }
}

/// Appends what the reader has at hand before the next LF, and that, but at most so many bytes.
/// Says whether nothing is missing then. A read that was interrupted leaves all to the next call.
fn append_front<R: BufRead>(input: &mut R, most: u64, line: &mut Vec<u8>) -> io::Result<bool>
    requires some { 0 < most }
    ensures taken { (bytes : List ℕ) × (line.new.items ≡ line.old.items ++ bytes)
        × (length bytes ≤ most)
        × Consumes (R.remaining input.old) (R.remaining input.new) bytes
        × (result ≡ Ok true → IfSome (R.remaining input.old) (λ left. bytes ≡ front most left))
        × (result ≢ Ok true → (length bytes < most) × All (λ byte. byte ≢ 10) bytes) }
{
    let shown = match input.fill_buf() {
        Ok(shown) => shown,
        Err(error) => {
            return if error.kind() == ErrorKind::Interrupted {
                Ok(false)
            } else {
                Err(error)
            };
        }
    };
    let (count, is_whole) = shown_front(shown, most);
    line.extend_from_slice(&shown[..count])?;
    input.consume(count);
    Ok(is_whole)
}

/// Reads to the next LF, but at most so many bytes.
fn read_front<R: BufRead>(input: &mut R, most: u64, line: &mut Vec<u8>) -> io::Result<usize>
    requires some { 0 < most }
    ensures count { IfOk result (λ count. vec_len line.new ≡ vec_len line.old + count) }
    ensures line { OnOk result (IfSome (R.remaining input.old)
        (λ left. line.new.items ≡ line.old.items ++ front most left)) }
    ensures left { OnOk result (IfSome (R.remaining input.old)
        (λ left. R.remaining input.new ≡ Some (drop (length (front most left)) left))) }
{
    let start = line.len();
    for _ in 0..u64::MAX {
        if append_front(input, most - (line.len() - start) as u64, line)? {
            return Ok(line.len() - start);
        }
    }
    Err(io::Error::from(ErrorKind::TimedOut))
}

/// Whether this is the last byte.
fn ends_in(line: &[u8], byte: u8) -> bool
    ensures { result ≡ ends_with_byte byte line.now }
{
    line.last() == Some(&byte)
}

/// Takes the last byte off if it is this one, and says whether it was.
fn cut_last(line: &mut Vec<u8>, byte: u8) -> bool
    ensures is_there { result ≡ ends_with_byte byte line.old.items }
    ensures line { line.new.items ≡ strip_last byte line.old.items }
{
    let len = line.len();
    if len == 0 {
        return false;
    }
    if line[len - 1] != byte {
        return false;
    }
    line.truncate(len - 1);
    true
}

/// Takes its end off a line, and says whether it had one.
fn cut_end(line: &mut Vec<u8>) -> bool
    ensures is_there { result ≡ ends_with_byte 10 line.old.items }
    ensures line { line.new.items ≡ without_end line.old.items }
{
    if !cut_last(line, b'\n') {
        return false;
    }
    let _ = cut_last(line, b'\r');
    true
}

/// Whether there is more of a line of which so many bytes were read first.
fn is_cut(has_end: bool, count: u64, longest: u32) -> bool
    ensures { result ≡ (not has_end && (count == longest + 1)) }
{
    !has_end && count == u64::from(longest) + 1
}

/// A reader as lines.
#[derive(Drop)]
pub struct Lines<R> {
    input: BufReader<Counted<R>>,
    line: Vec<u8>,
    /// How many bytes the longest line has. One more without an LF shows that a line is too long,
    /// unless the last is a CR, which may belong to its end.
    longest: u32,
    /// Whether the last line was too long, and the rest of it still stands in the input.
    has_rest: bool,
    /// How many lines were read.
    number: u64,
    /// How many bytes these have, but for what was read over of lines that are too long.
    bytes: u64,
}

impl<R: Read + Drop> Lines<R> {
    /// The lines of a reader, of which at most `reads` reads may come before its end. The longest
    /// line that is wanted has `longest` bytes.
    pub fn new(alloc: Global, input: R, reads: u64, longest: u32) -> io::Result<Lines<R>>
        ensures left { IfOk result (λ lines. IfSome (R.remaining input)
            (λ bytes. bytes_left R.remaining lines ≡ Some bytes)) }
        ensures number { IfOk result (λ lines. line_number lines ≡ 0) }
        ensures longest { IfOk result (λ lines. longest_line lines ≡ longest) }
    {
        let counted = Counted { input, left: reads };
        Ok(Lines {
            input: BufReader::new(alloc, counted)?,
            line: Vec::new(alloc),
            longest,
            has_rest: false,
            number: 0,
            bytes: 0,
        })
    }

    /// Reads over the rest of the last line, if it was too long.
    fn pass_rest(&mut self) -> io::Result<()>
        ensures left { OnOk result (IfSome (bytes_left R.remaining self.old)
            (λ bytes. reader_remaining (counted_left R.remaining) self.new.input ≡ Some bytes)) }
        ensures number { self.new.number ≡ self.old.number }
        ensures longest { self.new.longest ≡ self.old.longest }
    {
        if self.has_rest {
            let _ = self.input.skip_until(b'\n')?;
        }
        Ok(())
    }

    /// Reads as much of the next line as is kept of it, and says how many bytes before that which
    /// is read after a CR.
    fn read_shown(&mut self) -> io::Result<u64>
        ensures shown { IfOk result (λ count.
            IfSome (reader_remaining (counted_left R.remaining) self.old.input)
            (λ bytes. (self.new.line.items ≡ shown self.old.longest bytes)
            × (count ≡ length (front (self.old.longest + 1) bytes))
            × (reader_remaining (counted_left R.remaining) self.new.input
            ≡ Some (drop (length (shown self.old.longest bytes)) bytes)))) }
        ensures number { self.new.number ≡ self.old.number }
        ensures longest { self.new.longest ≡ self.old.longest }
    {
        self.line.clear();
        let count = read_front(&mut self.input, u64::from(self.longest) + 1, &mut self.line)?;
        self.bytes = self.bytes.saturating_add(count as u64);
        if ends_in(self.line.as_slice(), b'\r') {
            let _ = read_front(&mut self.input, 1, &mut self.line)?;
        }
        Ok(count as u64)
    }

    /// Reads the next line, and says whether there was one. Of a line that is too long no more is
    /// read than shows so, and these bytes are kept; the rest is read over before the next line.
    pub fn read_line(&mut self) -> io::Result<bool>
        ensures is_there { IfOk result (λ is_there. IfSome (bytes_left R.remaining self.old)
            (λ bytes. is_there ≡ nat_lt 0 (length bytes))) }
        ensures line { OnOk result (IfSome (bytes_left R.remaining self.old)
            (λ bytes. line_held self.new ≡ line_of (longest_line self.old) bytes)) }
        ensures left { OnOk result (IfSome (bytes_left R.remaining self.old)
            (λ bytes. bytes_left R.remaining self.new ≡ Some (after_line bytes))) }
        ensures number { OnOk result
            (line_number self.new ≡ u64_saturate (line_number self.old + 1)) }
        ensures longest { longest_line self.new ≡ longest_line self.old }
    {
        self.pass_rest()?;
        self.number = self.number.saturating_add(1);
        let count = self.read_shown()?;
        self.has_rest = is_cut(cut_end(&mut self.line), count, self.longest);
        Ok(count > 0)
    }

    /// Whether the next line stands here whole, so that nothing has to be asked of the reader.
    pub fn holds_line(&self) -> bool {
        let mut ends = self.input.buffer().iter().filter(|byte| **byte == b'\n');
        if self.has_rest {
            // The end of the last line, which is read over before.
            let _ = ends.next();
        }
        ends.next().is_some()
    }

    /// The line that was read last, without its end.
    pub fn line(&self) -> &[u8]
        ensures { result.now ≡ line_held self.now }
    {
        self.line.as_slice()
    }

    /// The number of that line, from 1.
    pub fn number(&self) -> u64
        ensures { result ≡ line_number self.now }
    {
        self.number
    }

    /// How many bytes were read, but for the rests of lines that are too long.
    pub fn bytes(&self) -> u64 {
        self.bytes
    }
}

//! A runtime whose files say what is asked of them, and of which one call fails.
//!
//! Each call has a letter, and a test compares the letters of the calls since its last look.

use bw_file::SegmentFile;
use std::alloc::{Alloc, Allocator, Global};
use std::fs::{self, File, Metadata, OpenFile, OpenOptions, TryLockError};
use std::io::{self, ErrorKind, Read, Seek, SeekFrom, Write};
use std::os::unix::fs::FileExt;
use std::rt::Files;
use std::sync::Arc;
use std::sync::atomic::{AtomicBool, AtomicU64, Ordering};

/// The weight of the highest of eight letters.
const HIGHEST: u64 = 72_057_594_037_927_936;

/// What was asked, and what is to fail.
#[derive(Drop)]
pub struct Watch<F = File> {
    /// The letters of the last eight calls, the last one in the lowest byte.
    letters: AtomicU64,
    /// Those of the eight before them.
    earlier: AtomicU64,
    /// How many calls pass before one fails; `u64::MAX` if none is to.
    passes: AtomicU64,
    /// How many bytes of its piece a write keeps that fails.
    keep: AtomicU64,
    /// Where the last write went, and how many bytes it had.
    at: AtomicU64,
    many: AtomicU64,
    /// Whether writes go to a device that is full.
    is_full: AtomicBool,
    /// That device.
    full: F,
}

/// The letters of calls as numbers: of the last eight, and of the eight before them.
pub fn numbers_of(letters: &str) -> (u64, u64) {
    let mut last = 0u64;
    let mut earlier = 0u64;
    for letter in letters.as_bytes() {
        earlier = earlier.wrapping_mul(256).wrapping_add(last / HIGHEST);
        last = last.wrapping_mul(256).wrapping_add(*letter as u64);
    }
    (last, earlier)
}

impl<F> Watch<F> {
    // No call was made, and none is to fail.
    fn new(full: F) -> Watch<F> {
        Watch {
            letters: AtomicU64::new(0),
            earlier: AtomicU64::new(0),
            passes: AtomicU64::new(u64::MAX),
            keep: AtomicU64::new(0),
            at: AtomicU64::new(0),
            many: AtomicU64::new(0),
            is_full: AtomicBool::new(false),
            full,
        }
    }

    /// After so many more calls one fails, and none after `u64::MAX`; if it is a write it keeps so
    /// many bytes.
    pub fn fail_after(&self, passes: u64, keep: u64) {
        self.passes.store(passes, Ordering::SeqCst);
        self.keep.store(keep, Ordering::SeqCst);
    }

    /// Whether what is written from here on goes to a device that is full.
    pub fn fill(&self, is_full: bool) {
        self.is_full.store(is_full, Ordering::SeqCst);
    }

    /// The letters of the calls since the last look, as numbers.
    pub fn take_letters(&self) -> (u64, u64) {
        let letters = self.letters.load(Ordering::SeqCst);
        let earlier = self.earlier.load(Ordering::SeqCst);
        self.letters.store(0, Ordering::SeqCst);
        self.earlier.store(0, Ordering::SeqCst);
        (letters, earlier)
    }

    /// Where the last write went, and how many bytes it had.
    pub fn wrote(&self) -> (u64, u64) {
        (
            self.at.load(Ordering::SeqCst),
            self.many.load(Ordering::SeqCst),
        )
    }

    // Whether a call passes, which has this letter.
    fn passes(&self, letter: u8) -> bool {
        let before = self.letters.load(Ordering::SeqCst);
        let earlier = self.earlier.load(Ordering::SeqCst);
        let letters = before.wrapping_mul(256).wrapping_add(letter as u64);
        let earlier = earlier.wrapping_mul(256).wrapping_add(before / HIGHEST);
        self.letters.store(letters, Ordering::SeqCst);
        self.earlier.store(earlier, Ordering::SeqCst);
        match self.passes.load(Ordering::SeqCst) {
            0 => {
                self.passes.store(u64::MAX, Ordering::SeqCst);
                false
            }
            u64::MAX => true,
            left => {
                self.passes.store(left - 1, Ordering::SeqCst);
                true
            }
        }
    }

    // Whether a call passes, which has this letter, as an answer of the system.
    fn ask(&self, letter: u8) -> io::Result<()> {
        if self.passes(letter) {
            Ok(())
        } else {
            Err(io::Error::from(ErrorKind::Other))
        }
    }
}

/// A runtime whose files are watched, and a folder.
#[derive(Drop)]
pub struct Watched<R, F = File> {
    /// The runtime, unwatched.
    pub rt: R,
    /// The path of the folder.
    pub path: &'static str,
    /// What the runtime and its files share.
    pub watch: Arc<Watch<F>>,
}

impl<R: AllocGlobal + Files<File = F> + Drop, F: SegmentFile> Watched<R, F> {
    /// Nothing was asked yet, and no call is to fail. The folder and its files are gone, if they
    /// were there. None if there is no memory, or no device `/dev/full`.
    pub fn new(rt: R, path: &'static str) -> Option<Watched<R, F>> {
        let _ = fs::remove_dir_all(&rt, path);
        let full = OpenOptions::new().write(true).open(&rt, "/dev/full").ok()?;
        let watch = Arc::new(rt.alloc(), Watch::new(full)).ok()?;
        Some(Watched { rt, path, watch })
    }
}

impl<R: AllocGlobal, F> Alloc for Watched<R, F> {
    type A = Global;

    fn alloc(&self) -> Global {
        self.rt.alloc()
    }
}

impl<R: Files<File = F>, F: SegmentFile + Read + Write + Seek> Files for Watched<R, F> {
    type File = WatchedFile<F>;

    type Dir = R::Dir;

    fn open_file(&self, how: &OpenOptions, path: &str) -> io::Result<WatchedFile<F>> {
        self.watch.ask(b'o')?;
        Ok(WatchedFile {
            file: self.rt.open_file(how, path)?,
            watch: self.watch.clone()?,
        })
    }

    fn open_dir(&self, path: &str) -> io::Result<R::Dir> {
        self.rt.open_dir(path)
    }

    fn metadata(&self, path: &str) -> io::Result<Metadata> {
        self.watch.ask(b'p')?;
        self.rt.metadata(path)
    }

    fn symlink_metadata(&self, path: &str) -> io::Result<Metadata> {
        self.watch.ask(b'n')?;
        self.rt.symlink_metadata(path)
    }

    fn copy(&self, from: &str, to: &str) -> io::Result<u64> {
        self.rt.copy(from, to)
    }

    fn rename(&self, from: &str, to: &str) -> io::Result<()> {
        self.rt.rename(from, to)
    }

    fn remove_file(&self, path: &str) -> io::Result<()> {
        self.rt.remove_file(path)
    }

    fn create_dir(&self, path: &str) -> io::Result<()> {
        self.watch.ask(b'd')?;
        self.rt.create_dir(path)
    }

    fn remove_dir(&self, path: &str) -> io::Result<()> {
        self.rt.remove_dir(path)
    }

    fn remove_dir_all<B: Allocator>(&self, alloc: B, path: &str) -> io::Result<()> {
        self.rt.remove_dir_all(alloc, path)
    }
}

/// An open file, watched.
#[derive(Drop)]
pub struct WatchedFile<F = File> {
    file: F,
    watch: Arc<Watch<F>>,
}

impl<F: SegmentFile> FileExt for WatchedFile<F> {
    fn read_at(&self, buf: &mut [u8], offset: u64) -> io::Result<usize> {
        self.watch.ask(b'r')?;
        self.file.read_at(buf, offset)
    }

    fn write_at(&self, buf: &[u8], offset: u64) -> io::Result<usize> {
        self.watch.at.store(offset, Ordering::SeqCst);
        self.watch.many.store(buf.len() as u64, Ordering::SeqCst);
        if self.watch.passes(b'w') {
            if self.watch.is_full.load(Ordering::SeqCst) {
                return self.watch.full.write_at(buf, offset);
            }
            return self.file.write_at(buf, offset);
        }
        let keep = self.watch.keep.load(Ordering::SeqCst).min(buf.len() as u64);
        self.file.write_at(&buf[..keep as usize], offset)?;
        Err(io::Error::from(ErrorKind::Other))
    }
}

impl<F: SegmentFile> OpenFile for WatchedFile<F> {
    fn metadata(&self) -> io::Result<Metadata> {
        self.watch.ask(b'm')?;
        self.file.metadata()
    }

    fn set_len(&self, size: u64) -> io::Result<()> {
        self.watch.ask(b'c')?;
        self.file.set_len(size)
    }

    fn sync_all(&self) -> io::Result<()> {
        self.watch.ask(b'a')?;
        self.file.sync_all()
    }

    fn sync_data(&self) -> io::Result<()> {
        self.watch.ask(b's')?;
        self.file.sync_data()
    }
}

impl<F: SegmentFile> SegmentFile for WatchedFile<F> {
    fn lock_alone(&self) -> Result<(), TryLockError> {
        match self.watch.ask(b'l') {
            Ok(()) => self.file.lock_alone(),
            Err(error) => Err(TryLockError::Error(error)),
        }
    }

    fn lock_to_read(&self) -> Result<(), TryLockError> {
        match self.watch.ask(b'k') {
            Ok(()) => self.file.lock_to_read(),
            Err(error) => Err(TryLockError::Error(error)),
        }
    }
}

// A runtime's files are streams too. Nothing here reads or writes one as such.
impl<F: Read> Read for WatchedFile<F> {
    fn read(&mut self, buf: &mut [u8]) -> io::Result<usize> {
        self.file.read(buf)
    }
}

impl<F: Write> Write for WatchedFile<F> {
    fn write(&mut self, buf: &[u8]) -> io::Result<usize> {
        self.file.write(buf)
    }

    fn flush(&mut self) -> io::Result<()> {
        self.file.flush()
    }
}

impl<F: Seek> Seek for WatchedFile<F> {
    fn seek(&mut self, to: SeekFrom) -> io::Result<u64> {
        self.file.seek(to)
    }
}

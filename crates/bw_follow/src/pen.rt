//! A segment of the folder that follows, open to be written.

use crate::files::{segment_path, sums_path};
use crate::held::{Held, between};
use bw_beside::Host;
use bw_file::FolderFault;
use std::alloc::Global;
use std::fs::{File, OpenFile, OpenOptions};
use std::os::unix::fs::FileExt;

/// So many bytes are written before they are synced, if no piece is longer: an opening writes so
/// many at the end of a file once more.
const MOST: u64 = 262_168;

/// A segment that is open to be written, and the sums beside it.
#[derive(Drop)]
pub(crate) struct Pen {
    file: File,
    sums: File,
}

/// Some pieces after the row of a segment: where they begin and end in it, and their sums as bytes.
#[derive(Drop)]
struct Chunk {
    from: u64,
    to: u64,
    sums: Vec<u8>,
}

/// The file of this path, made if it is missing.
fn opened<R: Host>(rt: &R, path: &str) -> Result<File, FolderFault> {
    Ok(
        OpenOptions::new()
            .read(true)
            .write(true)
            .create(true)
            .open(rt, path)?,
    )
}

impl Chunk {
    fn at(alloc: Global, from: u64) -> Chunk {
        Chunk {
            from,
            to: from,
            sums: Vec::new(alloc),
        }
    }

    /// Whether a piece up to this end would make it too long.
    fn is_full(&self, end: u64) -> bool {
        self.to > self.from && end.saturating_sub(self.from) > MOST
    }
}

impl Pen {
    /// Over the files of a lease, which are made if they are missing.
    pub(crate) fn open<R: Host>(rt: &R, folder: &str, lease: u32) -> Result<Pen, FolderFault> {
        Ok(Pen {
            file: opened(rt, segment_path(rt, folder, lease)?.as_str())?,
            sums: opened(rt, sums_path(rt, folder, lease)?.as_str())?,
        })
    }

    /// What the file has from an offset on.
    pub(crate) fn rest(&self, alloc: Global, from: u64) -> Result<Vec<u8>, FolderFault> {
        let len = self.file.metadata()?.len().saturating_sub(from);
        let mut bytes = vec![in alloc; 0u8; len as usize]?;
        self.file.read_exact_at(&mut bytes, from)?;
        Ok(bytes)
    }

    /// Takes away what stands from an offset on, of which no sum speaks.
    pub(crate) fn cut(&self, at: u64) -> Result<(), FolderFault> {
        self.file.set_len(at)?;
        self.file.sync_all()?;
        Ok(())
    }

    /// Has these sums stand from an offset on, and none after them, and waits until they do.
    pub(crate) fn set_sums(&self, at: u64, sums: &[u8]) -> Result<(), FolderFault> {
        self.sums.set_len(at)?;
        self.sums.write_all_at(sums, at)?;
        self.sums.sync_all()?;
        Ok(())
    }

    /// Writes a chunk: its bytes, which are synced, and only then its sums. Then it is read again.
    fn write_chunk(
        &self,
        alloc: Global,
        sums_at: u64,
        chunk: &Chunk,
        bytes: &[u8],
    ) -> Result<bool, FolderFault> {
        if bytes.is_empty() {
            return Ok(true);
        }
        self.file.write_all_at(bytes, chunk.from)?;
        self.file.sync_data()?;
        self.sums.write_all_at(&chunk.sums, sums_at)?;
        let mut again = vec![in alloc; 0u8; bytes.len()]?;
        self.file.read_exact_at(&mut again, chunk.from)?;
        Ok(again.as_slice() == bytes)
    }

    /// Writes these bytes after those of a segment, in pieces that end here, and gives how far it
    /// has come. What is read again afterwards has to be what was written.
    pub(crate) fn write(
        &self,
        alloc: Global,
        held: Held,
        bytes: &[u8],
        ends: &[u64],
    ) -> Result<Held, FolderFault> {
        let begin = held.end();
        let mut at = held.next_at();
        let mut held = held;
        let mut chunk = Chunk::at(alloc, begin);
        for end in ends {
            if chunk.is_full(*end) {
                self.put(
                    alloc,
                    held.lease,
                    at,
                    &chunk,
                    between(bytes, begin, chunk.from, chunk.to),
                )?;
                at = held.next_at();
                chunk = Chunk::at(alloc, held.end());
            }
            let piece = between(bytes, begin, held.end(), *end);
            held.add(&mut chunk.sums, piece)?;
            chunk.to = held.end();
        }
        self.put(
            alloc,
            held.lease,
            at,
            &chunk,
            between(bytes, begin, chunk.from, chunk.to),
        )?;
        Ok(held)
    }

    /// Writes a chunk, whose sums come to stand at an offset, or says that it does not stand there.
    fn put(
        &self,
        alloc: Global,
        lease: u32,
        sums_at: u64,
        chunk: &Chunk,
        bytes: &[u8],
    ) -> Result<(), FolderFault> {
        if self.write_chunk(alloc, sums_at, chunk, bytes)? {
            Ok(())
        } else {
            Err(FolderFault::Damaged {
                lease,
                at: chunk.from,
            })
        }
    }
}

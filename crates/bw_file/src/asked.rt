// What is asked of the files of a segment, and of a folder, and the records of it.
//
// This file is to be read with care, since no clause sees a call of the system itself. Nothing but
// the functions of this file sees the files of a `Pair`. Each function that asks for something makes
// one call, and notes it with its answer; `found` of `unsettled.rt` makes that of `find`, and
// `is_made` of `folder.rt` that of `make`. A look for a file, or for its length, is not noted if it
// is refused, nor is a folder that could not be made.
ghost use Rattle.std.specs.Prelude.{◌≡◌, ◌∷◌, ◌++◌, [], length, map, is_ok, is_some, IfOk};
ghost use Rattle.bw_file.specs.Asked.{Bytes, Sums, Find, Len, Read, ReadFrom, Write, SetLen, Sync, done, Of, Names, Make, OwnName};

use crate::files::SegmentFile;
use crate::folder::is_made;
use crate::unsettled::found;
use bw_told::Told;
use std::io;
use std::marker::Model;
use std::rt::Files;

/// The type of what was asked of the files of a segment, call by call. Nobody makes one: only
/// clauses read it.
pub struct Steps {}

impl Model for Steps {
    ghost use Rattle.std.specs.Prelude.{List, []};
    ghost use Rattle.bw_file.specs.Asked.{Step};

    ghost Value = { List Step };

    ghost view = { λ _. [] };
}

/// The type of what a folder asked of its files, call by call. Nobody makes one: only clauses read
/// it.
pub struct FolderSteps {}

impl Model for FolderSteps {
    ghost use Rattle.std.specs.Prelude.{List, []};
    ghost use Rattle.bw_file.specs.Asked.{FolderStep};

    ghost Value = { List FolderStep };

    ghost view = { λ _. [] };
}

/// A segment's file, and the one with its sums beside it.
#[derive(Drop)]
pub(crate) struct Pair<F> {
    file: F,
    sums: F,
}

impl<F> Pair<F> {
    /// Of these files.
    pub(crate) fn new(file: F, sums: F) -> Pair<F> {
        Pair { file, sums }
    }
}

/// What was asked of the files of a segment.
pub(crate) type Asked = Told<Steps>;

/// Nothing was asked.
pub(crate) fn nothing() -> Asked
    ensures { result.value ≡ [] }
{
    Told::about(&())
}

/// What a folder asked of its files.
pub(crate) type FolderAsked = Told<FolderSteps>;

/// It asked for nothing.
pub(crate) fn nothing_yet() -> FolderAsked
    ensures { result.value ≡ [] }
{
    Told::about(&())
}

/// What a call asked of the files of a folder, all of which was done. It has no bytes.
#[derive(Drop)]
pub struct Done {
    pub(crate) asked: FolderAsked,
}

/// After what the folder asked, it asked this of the files of the segment of this lease.
pub(crate) fn add(all: &mut FolderAsked, lease: u32, asked: &Asked)
    ensures { all.new.value ≡ all.old.value ++ map (λ s. Of lease s) asked.now.value }
{
    *all = Told::about(&(&*all, lease, asked));
}

/// Waits until the names in the folder stand on the disk.
pub(crate) fn sync_names<F: SegmentFile>(itself: &F, all: &mut FolderAsked) -> io::Result<()>
    ensures { all.new.value ≡ all.old.value ++ Names (is_ok result) ∷ [] }
{
    let answer = itself.sync_all();
    *all = Told::about(&(&*all, answer.is_ok()));
    answer
}

/// Makes the folder of this path, if it is missing; whether it was.
pub(crate) fn make<R: AllocGlobal + Files>(
    rt: &R,
    path: &str,
    all: &mut FolderAsked,
) -> io::Result<bool>
    ensures { IfOk result (λ missing. all.new.value ≡ all.old.value ++ Make missing ∷ []) }
{
    let missing = is_made(rt, path)?;
    *all = Told::about(&(&*all, missing));
    Ok(missing)
}

/// Waits until the names in the folder's parent stand on the disk, its own among them.
pub(crate) fn sync_own_name<F: SegmentFile>(parent: &F, all: &mut FolderAsked) -> io::Result<()>
    ensures { all.new.value ≡ all.old.value ++ OwnName (is_ok result) ∷ [] }
{
    let answer = parent.sync_all();
    *all = Told::about(&(&*all, answer.is_ok()));
    answer
}

/// The segment's file of this name, to be read and written, if it is there.
pub(crate) fn find<R: AllocGlobal + Files<File = F>, F: SegmentFile>(
    rt: &R,
    name: &str,
    asked: &mut Asked,
) -> io::Result<Option<F>>
    ensures { IfOk result (λ file. asked.new.value
        ≡ asked.old.value ++ done Bytes (Find (is_some file)) ∷ []) }
{
    let file = found(rt, name)?;
    *asked = Told::about(&(&*asked, file.is_some()));
    Ok(file)
}

/// How long the segment's file is.
pub(crate) fn len_of<F: SegmentFile>(file: &F, asked: &mut Asked) -> io::Result<u64>
    ensures { IfOk result (λ len. asked.new.value
        ≡ asked.old.value ++ done Bytes (Len len) ∷ []) }
{
    let len = file.metadata()?.len();
    *asked = Told::about(&(&*asked, len));
    Ok(len)
}

/// Reads the segment's file from its beginning on, as many bytes as the slice has.
pub(crate) fn read_bytes<F: SegmentFile>(
    file: &F,
    bytes: &mut [u8],
    asked: &mut Asked,
) -> io::Result<()>
    ensures len { length bytes.new ≡ length bytes.old }
    ensures asked { asked.new.value ≡ asked.old.value
        ++ record { file = Bytes; call = Read bytes.new; is_ok = is_ok result } ∷ [] }
{
    let answer = file.read_exact_at(bytes, 0);
    *asked = Told::about(&(&*asked, &*bytes, answer.is_ok()));
    answer
}

/// How long the segment's file is, beside which there is one of sums.
pub(crate) fn len_in<F: SegmentFile>(files: &Pair<F>, asked: &mut Asked) -> io::Result<u64>
    ensures { IfOk result (λ len. asked.new.value
        ≡ asked.old.value ++ done Bytes (Len len) ∷ []) }
{
    len_of(&files.file, asked)
}

/// Reads the segment's file from this offset on, as many bytes as the slice has.
pub(crate) fn read_from<F: SegmentFile>(
    files: &Pair<F>,
    at: u64,
    bytes: &mut [u8],
    asked: &mut Asked,
) -> io::Result<()>
    ensures len { length bytes.new ≡ length bytes.old }
    ensures asked { asked.new.value ≡ asked.old.value
        ++ record { file = Bytes; call = ReadFrom at bytes.new; is_ok = is_ok result } ∷ [] }
{
    let answer = files.file.read_exact_at(bytes, at);
    *asked = Told::about(&(&*asked, at, &*bytes, answer.is_ok()));
    answer
}

/// Writes the piece into the segment's file, from this offset on.
pub(crate) fn write_bytes<F: SegmentFile>(
    files: &Pair<F>,
    at: u64,
    piece: &[u8],
    asked: &mut Asked,
) -> io::Result<()>
    ensures { asked.new.value ≡ asked.old.value
        ++ record { file = Bytes; call = Write at piece.now; is_ok = is_ok result } ∷ [] }
{
    let answer = files.file.write_all_at(piece, at);
    *asked = Told::about(&(&*asked, at, piece, answer.is_ok()));
    answer
}

/// Waits until the bytes of the segment's file stand on the disk.
pub(crate) fn sync_bytes<F: SegmentFile>(files: &Pair<F>, asked: &mut Asked) -> io::Result<()>
    ensures { asked.new.value ≡ asked.old.value
        ++ record { file = Bytes; call = Sync; is_ok = is_ok result } ∷ [] }
{
    let answer = files.file.sync_data();
    *asked = Told::about(&(&*asked, answer.is_ok()));
    answer
}

/// Writes these bytes into the file of sums, from this offset on.
pub(crate) fn write_sums<F: SegmentFile>(
    files: &Pair<F>,
    at: u64,
    sums: &[u8],
    asked: &mut Asked,
) -> io::Result<()>
    ensures { asked.new.value ≡ asked.old.value
        ++ record { file = Sums; call = Write at sums.now; is_ok = is_ok result } ∷ [] }
{
    let answer = files.sums.write_all_at(sums, at);
    *asked = Told::about(&(&*asked, at, sums, answer.is_ok()));
    answer
}

/// Makes the file of sums so long.
pub(crate) fn cut_sums<F: SegmentFile>(
    files: &Pair<F>,
    len: u64,
    asked: &mut Asked,
) -> io::Result<()>
    ensures { asked.new.value ≡ asked.old.value
        ++ record { file = Sums; call = SetLen len; is_ok = is_ok result } ∷ [] }
{
    let answer = files.sums.set_len(len);
    *asked = Told::about(&(&*asked, len, answer.is_ok()));
    answer
}

/// Makes the segment's file empty.
pub(crate) fn empty_bytes<F: SegmentFile>(files: &Pair<F>, asked: &mut Asked) -> io::Result<()>
    ensures { asked.new.value ≡ asked.old.value
        ++ record { file = Bytes; call = SetLen 0; is_ok = is_ok result } ∷ [] }
{
    let answer = files.file.set_len(0);
    *asked = Told::about(&(&*asked, answer.is_ok()));
    answer
}

/// Waits until the segment's file stands on the disk, with its length.
pub(crate) fn sync_all_bytes<F: SegmentFile>(files: &Pair<F>, asked: &mut Asked) -> io::Result<()>
    ensures { asked.new.value ≡ asked.old.value
        ++ record { file = Bytes; call = Sync; is_ok = is_ok result } ∷ [] }
{
    let answer = files.file.sync_all();
    *asked = Told::about(&(&*asked, answer.is_ok()));
    answer
}

/// Waits until the file of sums stands on the disk, with its length.
pub(crate) fn sync_all_sums<F: SegmentFile>(files: &Pair<F>, asked: &mut Asked) -> io::Result<()>
    ensures { asked.new.value ≡ asked.old.value
        ++ record { file = Sums; call = Sync; is_ok = is_ok result } ∷ [] }
{
    let answer = files.sums.sync_all();
    *asked = Told::about(&(&*asked, answer.is_ok()));
    answer
}

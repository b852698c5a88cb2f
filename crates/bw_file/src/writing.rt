// A file is written anew, with its sums.
ghost use Rattle.std.specs.Prelude.{◌≡◌, ◌++◌, OnOk, IfOk};
ghost use Rattle.bw_file.specs.Asked.{spare_calls, cleared_calls, write_calls, held_back_calls, first_calls};
ghost use Rattle.bw_file.specs.Written.{IsFirstOf};

use crate::asked::{
    Asked, Pair, cut_sums, empty_bytes, sync_all_bytes, sync_all_sums, write_bytes, write_sums,
};
use crate::files::SegmentFile;
use std::io;

// Empties the sums and waits until that stands, and then empties the bytes.
fn clear<F: SegmentFile>(files: &Pair<F>, asked: &mut Asked) -> io::Result<()>
    ensures { OnOk result (asked.new.value ≡ asked.old.value ++ cleared_calls) }
{
    cut_sums(files, 0, asked)?;
    sync_all_sums(files, asked)?;
    empty_bytes(files, asked)
}

/// Empties the sums and then the bytes, and waits until that stands. The sums go first: those of an
/// earlier segment must not come back beside the bytes of a later one, and one that outlasted its
/// bytes would say that these were lost.
pub(crate) fn cut_to_nothing<F: SegmentFile>(files: &Pair<F>, asked: &mut Asked) -> io::Result<()>
    ensures { OnOk result (asked.new.value ≡ asked.old.value ++ spare_calls) }
{
    clear(files, asked)?;
    sync_all_bytes(files, asked)
}

/// Writes these bytes in place of what the files held, and waits until they stand. Then it writes
/// these sums.
pub(crate) fn write_anew<F: SegmentFile>(
    files: &Pair<F>,
    bytes: &[u8],
    sums: &[u8],
    asked: &mut Asked,
) -> io::Result<()>
    ensures { OnOk result
        (asked.new.value ≡ asked.old.value ++ write_calls bytes.now sums.now) }
{
    clear(files, asked)?;
    write_bytes(files, 0, bytes, asked)?;
    sync_all_bytes(files, asked)?;
    write_sums(files, 0, sums, asked)
}

/// Writes these bytes in place of what the files held, with a 0 for the first one, and waits until
/// they stand; answers the first one, if there is any.
pub(crate) fn hold_back<F: SegmentFile>(
    files: &Pair<F>,
    bytes: &[u8],
    asked: &mut Asked,
) -> io::Result<Option<u8>>
    ensures asked { OnOk result
        (asked.new.value ≡ asked.old.value ++ held_back_calls bytes.now) }
    ensures first { IfOk result (λ first. IsFirstOf bytes.now first) }
{
    clear(files, asked)?;
    let Some((first, rest)) = bytes.split_first() else {
        return Ok(None);
    };
    write_bytes(files, 0, &[0], asked)?;
    write_bytes(files, 1, rest, asked)?;
    sync_all_bytes(files, asked)?;
    Ok(Some(*first))
}

/// Writes the first byte, and waits until it stands. Then it writes these sums.
pub(crate) fn write_first<F: SegmentFile>(
    files: &Pair<F>,
    first: u8,
    sums: &[u8],
    asked: &mut Asked,
) -> io::Result<()>
    ensures { OnOk result
        (asked.new.value ≡ asked.old.value ++ first_calls first sums.now) }
{
    write_bytes(files, 0, &[first], asked)?;
    sync_all_bytes(files, asked)?;
    write_sums(files, 0, sums, asked)
}

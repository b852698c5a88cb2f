//! A pair as a line: the key, a tab, the value.

ghost use Rattle.std.specs.Prelude.{◌≡◌, [], ◌∷◌, ◌++◌, OnOk, position};
ghost use Rattle.std.specs.List.{before_first};
ghost use Rattle.std.specs.Io.KnownBytes.{Appends};
ghost use Rattle.std.specs.Result.{result_ok};
ghost use Rattle.bw_pairs.specs.Lines.{is_tab, tab_line, tab_put, raw_put, tab_del, raw_del};

use crate::fault::LineFault;
use crate::spelling::{Spelling, key_from, key_of, value_from, value_of, write_word};
use bw_codec::Record;
use std::io::{self, Write};

/// Writes the line of a pair.
pub fn write_pair<O: Write>(
    output: &mut O,
    spelling: Spelling,
    key: &[u8],
    value: &[u8],
) -> io::Result<()>
    ensures { OnOk result (Appends (O.contents output.old) (O.contents output.new)
        (tab_line spelling (key.now, value.now) ++ 10 ∷ [])) }
{
    write_word(output, spelling, key)?;
    output.write_all(b"\t")?;
    write_word(output, spelling, value)?;
    output.write_all(b"\n")
}

/// Where the first tab of a line stands.
fn tab_of(line: &[u8]) -> Option<usize>
    ensures { result ≡ position is_tab line.now }
{
    line.iter().position(|byte| *byte == b'\t')
}

/// What stands before the first tab of a line, or all of it.
fn front_of(line: &[u8]) -> &[u8]
    ensures { result.now ≡ before_first is_tab line.now }
{
    match tab_of(line) {
        Some(at) => &line[..at],
        None => line,
    }
}

/// The put that a line stands for. The first tab parts its words: a word with a tab is written in
/// hex.
pub fn put_of(line: &[u8]) -> Result<Record, LineFault>
    ensures { result_ok result ≡ tab_put line.now }
{
    match tab_of(line) {
        Some(at) => Ok(Record::Put(key_of(&line[..at])?, value_of(&line[at + 1..])?)),
        None => Err(LineFault::NoTab),
    }
}

/// The put of a line whose words are their own bytes. The first tab parts them.
pub fn raw_put_of(line: &[u8]) -> Result<Record, LineFault>
    ensures { result_ok result ≡ raw_put line.now }
{
    match tab_of(line) {
        Some(at) => Ok(Record::Put(key_from(&line[..at])?, value_from(&line[at + 1..])?)),
        None => Err(LineFault::NoTab),
    }
}

/// The delete of a line's key: what stands before the first tab, or all of it.
pub fn del_of(line: &[u8]) -> Result<Record, LineFault>
    ensures { result_ok result ≡ tab_del line.now }
{
    Ok(Record::Del(key_of(front_of(line))?))
}

/// The delete of a line's key, if the words of the line are their own bytes.
pub fn raw_del_of(line: &[u8]) -> Result<Record, LineFault>
    ensures { result_ok result ≡ raw_del line.now }
{
    Ok(Record::Del(key_from(front_of(line))?))
}

//! The words with which frames and segments of each format begin.

ghost use Rattle.std.specs.Prelude.{◌≡◌};
ghost use Rattle.bw_codec.specs.Grammar.{frame_word, segment_word};

use bw_record::version::digit;

/// What each frame of a format begins with.
pub(crate) fn frame_word(version: u16) -> [u8; 4]
    ensures { result ≡ frame_word version }
{
    [b'F', b'R', b'M', digit(version)]
}

/// What each segment of a format begins with.
pub(crate) fn segment_word(version: u16) -> [u8; 8]
    ensures { result ≡ segment_word version }
{
    [b'B', b'W', b'L', b'O', b'G', b'S', b'G', digit(version)]
}

//! What holds of the spellings themselves: each function's contract is a law, and there is nothing
//! to run.

ghost use Rattle.bw_pairs.specs.Laws.{WordsAreReadBack, TabLinesAreReadBack, RawLinesAreReadBack, DumpLinesAreReadBack, CsvLinesAreReadBack, JsonLinesAreReadBack, TabLinesAreLines, CsvLinesAreLines, DumpLinesAreLines, JsonLinesAreLines, WrittenLinesAreRead};

/// A word stands for the bytes of which it was made.
pub fn words_are_read_back()
    ensures { WordsAreReadBack }
{}

/// A line with a tab stands for the pair of which it was made: any pair, or, if the bytes are
/// written as they are, any whose key has no tab.
pub fn lines_are_read_back()
    ensures words { TabLinesAreReadBack }
    ensures raw { RawLinesAreReadBack }
{}

/// The two lines of a pair in a dump stand for its key and its value.
pub fn dumps_are_read_back()
    ensures { DumpLinesAreReadBack }
{}

/// A line of CSV stands for the pair of which it was made.
pub fn csv_is_read_back()
    ensures { CsvLinesAreReadBack }
{}

/// An object of JSON stands for the pair, or for the key, of which it was made.
pub fn json_is_read_back()
    ensures { JsonLinesAreReadBack }
{}

/// What is written of a pair is whole lines, none longer than a reader takes. Only bytes that are
/// written as they are may have an end of line among them.
pub fn pairs_are_lines()
    ensures tabs { TabLinesAreLines }
    ensures csv { CsvLinesAreLines }
    ensures dumps { DumpLinesAreLines }
    ensures json { JsonLinesAreLines }
{}

/// A line that was written is read as it is, and what was written after it is left. So the pairs
/// that were written one after another are read in their order.
pub fn written_lines_are_read()
    ensures { WrittenLinesAreRead }
{}

//! The pairs of tables in an input, one after another. Their values are longer than those of a
//! store, so memory is asked for as a line wants it.

use crate::csv::{Field, field_of};
use crate::dump::{Header, Letters, behind_space, unescaped};
use crate::fault::{LineFault, PairsFault};
use crate::input::{Form, Skipped, Source};
use crate::json::Rest;
use crate::lines::{Lines, READS};
use crate::long::{
    WordFault, limited, long_from, long_in, long_of, name_from, row_key_from, row_key_in,
    row_key_of,
};
use base64::DecodeAllocError;
use base64::engine::general_purpose::STANDARD;
use bw_rows::{Name, RowKey};
use std::alloc::Global;
use std::io::Read;

/// As many bytes as the line of the longest pair has, whatever its spelling: JSON spells a byte by
/// six letters at most.
const LONGEST: u32 = 100_700_000;

/// A pair of a table, or only a key if its keys are deleted.
#[derive(Drop)]
pub struct Row {
    pub key: RowKey,
    pub value: Option<Vec<u8>>,
}

/// What an input has.
#[derive(Drop)]
pub enum Item {
    /// The pairs after it are those of the table of this name.
    Table(Name),
    Row(Row),
}

/// What comes next.
#[derive(Drop)]
enum Next {
    One(Item),
    /// The header of a dump was read, which names no table.
    Begun,
    /// A pair that is none, for this reason, by the line that is at fault.
    Bad(u64, LineFault),
    End,
}

// ---- lines of pairs

/// Room for as many bytes as a line has.
fn room_for(alloc: Global, line: &[u8]) -> Result<Vec<u8>, WordFault> {
    Ok(Vec::with_capacity(alloc, line.len())?)
}

/// The key and the value of a line whose first tab parts them.
fn parted(line: &[u8]) -> (&[u8], Option<&[u8]>) {
    match line.iter().position(|byte| *byte == b'\t') {
        Some(at) => (&line[..at], line.get(at + 1..)),
        None => (line, None),
    }
}

/// The value of a line whose words are their own bytes, or hex after `0x`.
fn tabs_value_of(alloc: Global, word: &[u8], is_raw: bool) -> Result<Vec<u8>, WordFault> {
    if is_raw {
        long_from(alloc, word)
    } else {
        long_of(alloc, word)
    }
}

/// The row of a line with a tab.
fn tabs_row_of(alloc: Global, line: &[u8], is_raw: bool, deletes: bool) -> Result<Row, WordFault> {
    let (word, rest) = parted(line);
    let key = if is_raw {
        row_key_from(word)?
    } else {
        row_key_of(word)?
    };
    if deletes {
        return Ok(Row { key, value: None });
    }
    let Some(rest) = rest else {
        return Err(WordFault::Line(LineFault::NoTab));
    };
    let value = tabs_value_of(alloc, rest, is_raw)?;
    Ok(Row {
        key,
        value: Some(value),
    })
}

/// The key of a field.
fn csv_key_of(field: &Field<Vec<u8>>) -> Result<RowKey, LineFault> {
    let bytes = field.bytes.as_slice();
    if field.is_quoted {
        row_key_from(bytes)
    } else {
        row_key_of(bytes)
    }
}

/// The value of a field.
fn csv_value_of(alloc: Global, field: Field<Vec<u8>>) -> Result<Vec<u8>, WordFault> {
    if !field.is_quoted && field.bytes.starts_with(b"0x") {
        return long_of(alloc, field.bytes.as_slice());
    }
    limited(field.bytes)
}

/// The row of a line of CSV.
fn csv_row_of(alloc: Global, line: &[u8], deletes: bool) -> Result<Row, WordFault> {
    let (first, rest) = field_of(line, room_for(alloc, line)?)?;
    if deletes {
        let key = csv_key_of(&first)?;
        return Ok(Row { key, value: None });
    }
    let Some(rest) = rest else {
        return Err(WordFault::Line(LineFault::BadCsv));
    };
    let (second, rest) = field_of(rest, room_for(alloc, rest)?)?;
    if rest.is_some() {
        return Err(WordFault::Line(LineFault::BadCsv));
    }
    let key = csv_key_of(&first)?;
    let value = csv_value_of(alloc, second)?;
    Ok(Row {
        key,
        value: Some(value),
    })
}

/// The bytes of a text in base64.
fn based(alloc: Global, text: &[u8]) -> Result<Vec<u8>, WordFault> {
    match STANDARD.decode(alloc, text) {
        Ok(bytes) => Ok(bytes),
        Err(DecodeAllocError::OutOfMemory) => Err(WordFault::NoMemory),
        Err(_) => Err(WordFault::Line(LineFault::BadBase64)),
    }
}

/// The key and the value of an object, as far as they were read.
#[derive(Drop)]
struct Members {
    key: Option<RowKey>,
    value: Option<Vec<u8>>,
}

impl Members {
    /// Notes a key, which is the only one.
    fn note_key(&mut self, bytes: &[u8]) -> Result<(), WordFault> {
        match self.key.replace(row_key_from(bytes)?) {
            None => Ok(()),
            Some(_) => Err(WordFault::Line(LineFault::BadJson)),
        }
    }

    /// Notes a value, which is the only one.
    fn note_value(&mut self, bytes: Vec<u8>) -> Result<(), WordFault> {
        match self.value.replace(limited(bytes)?) {
            None => Ok(()),
            Some(_) => Err(WordFault::Line(LineFault::BadJson)),
        }
    }

    /// Notes a member.
    fn note(&mut self, alloc: Global, name: &[u8], text: Vec<u8>) -> Result<(), WordFault> {
        match std::str::from_utf8(name) {
            Ok("key") => self.note_key(text.as_slice()),
            Ok("value") => self.note_value(text),
            Ok("key_base64") => self.note_key(based(alloc, text.as_slice())?.as_slice()),
            Ok("value_base64") => self.note_value(based(alloc, text.as_slice())?),
            _ => Err(WordFault::Line(LineFault::BadJson)),
        }
    }

    /// Reads a member.
    fn read(&mut self, alloc: Global, rest: &mut Rest<'_>) -> Result<(), WordFault> {
        let name = rest.text(room_for(alloc, rest.bytes)?)?;
        rest.expect(b':')?;
        let text = rest.text(room_for(alloc, rest.bytes)?)?;
        self.note(alloc, name.as_slice(), text)
    }
}

/// The key and the value of a line: an object that has both, or only a key, and nothing else.
fn members_of(alloc: Global, line: &[u8]) -> Result<Members, WordFault> {
    if std::str::from_utf8(line).is_err() {
        return Err(WordFault::Line(LineFault::BadJson));
    }
    let mut rest = Rest { bytes: line };
    let mut members = Members {
        key: None,
        value: None,
    };
    rest.expect(b'{')?;
    members.read(alloc, &mut rest)?;
    if rest.peek() == Some(b',') {
        let _ = rest.next()?;
        members.read(alloc, &mut rest)?;
    }
    rest.expect(b'}')?;
    match rest.peek() {
        None => Ok(members),
        Some(_) => Err(WordFault::Line(LineFault::BadJson)),
    }
}

/// The row of a line of JSON.
fn json_row_of(alloc: Global, line: &[u8], deletes: bool) -> Result<Row, WordFault> {
    let Members { key, value } = members_of(alloc, line)?;
    let Some(key) = key else {
        return Err(WordFault::Line(LineFault::BadJson));
    };
    if deletes {
        return Ok(Row { key, value: None });
    }
    if value.is_none() {
        return Err(WordFault::Line(LineFault::BadJson));
    }
    Ok(Row { key, value })
}

/// The row of a line.
fn row_of(alloc: Global, form: Form, line: &[u8], deletes: bool) -> Result<Row, WordFault> {
    match form {
        Form::Raw => tabs_row_of(alloc, line, true, deletes),
        Form::Json => json_row_of(alloc, line, deletes),
        Form::Csv => csv_row_of(alloc, line, deletes),
        _ => tabs_row_of(alloc, line, false, deletes),
    }
}

// ---- dumps

/// The key of a line of a dump.
fn key_in(alloc: Global, letters: Letters, line: &[u8]) -> Result<RowKey, WordFault> {
    let text = behind_space(line)?;
    match letters {
        Letters::Hex => Ok(row_key_in(text)?),
        Letters::Print => {
            let bytes = unescaped(text, room_for(alloc, text)?, LineFault::BadRowKey)?;
            Ok(row_key_from(bytes.as_slice())?)
        }
    }
}

/// The value of a line of a dump.
fn value_in(alloc: Global, letters: Letters, line: &[u8]) -> Result<Vec<u8>, WordFault> {
    let text = behind_space(line)?;
    match letters {
        Letters::Hex => long_in(alloc, text),
        Letters::Print => limited(unescaped(text, room_for(alloc, text)?, LineFault::BadLong)?),
    }
}

/// The name of a database, as its header spells it: `db_dump` writes escapes there, and `mdb_dump`
/// the bytes as they are.
fn database_of(alloc: Global, word: &[u8]) -> Result<Name, WordFault> {
    let room = room_for(alloc, word)?;
    match unescaped(word, room, LineFault::BadName) {
        Ok(bytes) => Ok(name_from(bytes.as_slice())?),
        Err(_) => Ok(name_from(word)?),
    }
}

/// The pairs of tables in an input.
#[derive(Drop)]
pub struct Rows<I> {
    alloc: Global,
    lines: Lines<I>,
    form: Form,
    /// Whether a bad pair is read over.
    skips: bool,
    /// Whether its keys are deleted.
    deletes: bool,
    /// Whether its databases have names, which are those of tables.
    is_named: bool,
    /// The name of the database whose header is read.
    name: Option<Name>,
    skipped: Skipped,
}

/// A pair of which a part is read over, or a growth that was refused.
fn next_of(number: u64, row: Result<Row, WordFault>) -> Result<Next, PairsFault> {
    match row {
        Ok(row) => Ok(Next::One(Item::Row(row))),
        Err(WordFault::Line(fault)) => Ok(Next::Bad(number, fault)),
        Err(WordFault::NoMemory) => Err(PairsFault::NoMemory),
    }
}

impl<I: Read + Drop> Rows<I> {
    /// Those of a reader, which are spelled so. A bad pair ends them, or is read over. In place of
    /// puts there are deletes of the keys, if these are wanted: a line may be only a key then.
    /// Databases of a dump have names, if these are wanted: each is given before its pairs.
    pub fn new(
        alloc: Global,
        input: I,
        source: Source,
        skips: bool,
        deletes: bool,
        is_named: bool,
    ) -> Result<Rows<I>, PairsFault> {
        let lines = Lines::new(alloc, input, READS, LONGEST).map_err(PairsFault::of_read)?;
        Ok(Rows {
            alloc,
            lines,
            form: source.form(),
            skips,
            deletes,
            is_named,
            name: None,
            skipped: Skipped {
                count: 0,
                first: None,
            },
        })
    }

    /// What was read over.
    pub fn skipped(&self) -> Skipped {
        self.skipped
    }

    /// How many bytes of it were read.
    pub fn bytes(&self) -> u64 {
        self.lines.bytes()
    }

    /// Reads the next line, and says whether there was one.
    fn read_line(&mut self) -> Result<bool, PairsFault> {
        self.lines.read_line().map_err(PairsFault::of_read)
    }

    /// The line that was read.
    fn line(&self) -> Result<&[u8], LineFault> {
        let line = self.lines.line();
        if line.len() > LONGEST as usize {
            return Err(LineFault::TooLong);
        }
        Ok(line)
    }

    /// A fault of the line that was read, which is not read over.
    fn fault(&self, fault: LineFault) -> PairsFault {
        PairsFault::Line(self.lines.number(), fault)
    }

    /// Why a word of the line that was read is none, if that ends all.
    fn word_fault(&self, fault: WordFault) -> PairsFault {
        match fault {
            WordFault::NoMemory => PairsFault::NoMemory,
            WordFault::Line(fault) => self.fault(fault),
        }
    }

    /// The row of the line that was read.
    fn row(&self) -> Result<Row, WordFault> {
        let line = self.line()?;
        row_of(self.alloc, self.form, line, self.deletes)
    }

    /// The row of the next line.
    fn next_line(&mut self) -> Result<Next, PairsFault> {
        if !self.read_line()? {
            return Ok(Next::End);
        }
        next_of(self.lines.number(), self.row())
    }

    /// The name in the line of a header that was read, if it has one.
    fn database(&self) -> Result<Option<Name>, PairsFault> {
        let Some(word) = self.lines.line().strip_prefix(b"database=") else {
            return Ok(None);
        };
        match database_of(self.alloc, word) {
            Ok(name) => Ok(Some(name)),
            Err(fault) => Err(self.word_fault(fault)),
        }
    }

    /// Notes the name in the line of a header that was read, if names are wanted.
    fn note_name(&mut self) -> Result<(), PairsFault> {
        if !self.is_named {
            return Ok(());
        }
        if let Some(name) = self.database()? {
            self.name = Some(name);
        }
        Ok(())
    }

    /// What the header of a dump says with the line that was read.
    fn header_with(&mut self, header: Header) -> Result<Header, PairsFault> {
        self.note_name()?;
        let then = match self.line() {
            Ok(line) => header.then(line),
            Err(fault) => Err(fault),
        };
        then.map_err(|fault| self.fault(fault))
    }

    /// Reads what comes after the first line of a header, which was read.
    fn read_header(&mut self) -> Result<Letters, PairsFault> {
        let mut header = self.header_with(Header::First)?;
        for _ in 0..READS {
            if !self.read_line()? {
                break;
            }
            header = self.header_with(header)?;
            if let Header::End(letters) = header {
                return Ok(letters);
            }
        }
        Err(self.fault(LineFault::BadHeader))
    }

    /// Reads a header whose first line was read.
    fn begin(&mut self) -> Result<Next, PairsFault> {
        self.name = None;
        let letters = self.read_header()?;
        self.form = Form::Data(letters);
        match self.name.take() {
            Some(name) => Ok(Next::One(Item::Table(name))),
            None if self.is_named => Err(self.fault(LineFault::NoName)),
            None => Ok(Next::Begun),
        }
    }

    /// Reads a line of data, and says whether it is one, and not the end.
    fn read_data(&mut self) -> Result<bool, PairsFault> {
        if !self.read_line()? {
            return Err(self.fault(LineFault::NoEnd));
        }
        Ok(self.lines.line() != b"DATA=END".as_slice())
    }

    /// The key of the line that was read.
    fn key(&self, letters: Letters) -> Result<RowKey, WordFault> {
        key_in(self.alloc, letters, self.line()?)
    }

    /// The value of the line that was read.
    fn value(&self, letters: Letters) -> Result<Vec<u8>, WordFault> {
        value_in(self.alloc, letters, self.line()?)
    }

    /// The pair of the next two lines. The value of a bad key is read over with it.
    fn next_data(&mut self, letters: Letters) -> Result<Next, PairsFault> {
        if !self.read_data()? {
            self.form = Form::Ended;
            return self.behind_end();
        }
        let number = self.lines.number();
        let key = self.key(letters);
        if !self.read_data()? {
            return Err(self.fault(LineFault::NoValue));
        }
        let key = match key {
            Ok(key) => key,
            Err(fault) => return next_of(number, Err(fault)),
        };
        match self.value(letters) {
            Ok(_) if self.deletes => next_of(number, Ok(Row { key, value: None })),
            Ok(value) => next_of(
                number,
                Ok(Row {
                    key,
                    value: Some(value),
                }),
            ),
            Err(fault) => next_of(self.lines.number(), Err(fault)),
        }
    }

    /// After the end of a database comes another one, if they have names, and else nothing.
    fn behind_end(&mut self) -> Result<Next, PairsFault> {
        if !self.read_line()? {
            return Ok(Next::End);
        }
        if !self.is_named {
            return Err(self.fault(LineFault::Second));
        }
        self.begin()
    }

    /// Reads the first header of a dump.
    fn first_header(&mut self) -> Result<Next, PairsFault> {
        if !self.read_line()? {
            return Err(self.fault(LineFault::BadHeader));
        }
        self.begin()
    }

    /// What comes next.
    fn next(&mut self) -> Result<Next, PairsFault> {
        match self.form {
            Form::Words | Form::Raw | Form::Json | Form::Csv => self.next_line(),
            Form::Dump => self.first_header(),
            Form::Data(letters) => self.next_data(letters),
            Form::Ended => Ok(Next::End),
        }
    }

    /// Notes a bad pair, which ends the input if none is read over.
    fn note(&mut self, number: u64, fault: LineFault) -> Result<(), PairsFault> {
        if !self.skips {
            return Err(PairsFault::Line(number, fault));
        }
        self.skipped.count = self.skipped.count.saturating_add(1);
        self.skipped.first = self.skipped.first.or(Some((number, fault)));
        Ok(())
    }

    /// The next pair, or the next table if there are names; `None` after the last.
    pub fn next_item(&mut self) -> Result<Option<Item>, PairsFault> {
        for _ in 0..u64::MAX {
            match self.next()? {
                Next::One(item) => return Ok(Some(item)),
                Next::Bad(number, fault) => self.note(number, fault)?,
                Next::Begun => {}
                Next::End => break,
            }
        }
        Ok(None)
    }
}

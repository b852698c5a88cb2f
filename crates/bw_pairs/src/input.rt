//! The pairs of an input, one after another.

ghost use Rattle.std.specs.Prelude.{◌≡◌, ◌≢◌, ◌∷◌, not, ◌==◌, List, Option, Some, None, Ok, Err, true, false, IfOk, IfErr, IfSome, OnOk, option_map};
ghost use Rattle.std.specs.Result.{result_ok, is_ok};
ghost use Rattle.bw_pairs.specs.Inputs.{line_held, line_number, longest_line};
ghost use Rattle.bw_pairs.specs.Records.{Place, fits, line_put, line_del, line_record, next_place, key_at, value_at, headed_by, next_headed, headed, line_step, data_step, end_step, step, noted, deleting, next_answer};
ghost use Rattle.bw_pairs.specs.Faults.{fault_line, was_read};
ghost use Rattle.bw_pairs.specs.Readings.{place_of, source_form, reading_of, reading_at, unread, skipped_of, IsRead, IsData, HasNoEnd, Knows, Makes, OnlyMoved, Says};

use crate::csv::{csv_del_of, csv_put_of};
use crate::dump::{Header, Letters, key_in, value_in};
use crate::fault::{LineFault, PairsFault};
use crate::json::{json_del_of, json_put_of};
use crate::lines::{Lines, READS};
use crate::tabs::{del_of, put_of, raw_del_of, raw_put_of};
use bw_codec::{Key, Record, Value};
use std::alloc::Global;
use std::io::Read;

/// More bytes than the line of the longest pair has, whatever its spelling.
pub const LONGEST: u32 = 4_096;

/// How an input spells its pairs.
#[derive(Debug, Clone, Copy, PartialEq, Eq)]
pub enum Source {
    /// A pair a line, each word its own bytes, or hex after `0x`.
    Words,
    /// A pair a line, each word its own bytes, whatever these are.
    Raw,
    /// An object of JSON a line.
    Json,
    /// A pair a line, with a comma between.
    Csv,
    /// A dump.
    Dump,
}

/// How far that was read.
#[derive(Debug, Clone, Copy, PartialEq, Eq)]
pub enum Form {
    /// A pair a line.
    Words,
    /// A pair a line, whose words are their own bytes.
    Raw,
    /// An object of JSON a line.
    Json,
    /// A pair a line, with a comma between.
    Csv,
    /// A dump, whose header comes next.
    Dump,
    /// A dump after its header.
    Data(Letters),
    /// A dump after its end.
    Ended,
}

impl Source {
    /// The form of an input before its first line.
    pub fn form(self) -> Form
        ensures { result ≡ source_form self }
    {
        match self {
            Source::Words => Form::Words,
            Source::Raw => Form::Raw,
            Source::Json => Form::Json,
            Source::Csv => Form::Csv,
            Source::Dump => Form::Dump,
        }
    }
}

/// What comes next.
#[derive(Drop)]
enum Next {
    One(Record),
    /// A pair that is none, for this reason, by the line that is at fault.
    Bad(u64, LineFault),
    End,
}

/// The lines of bad pairs that were read over.
#[derive(Debug, Clone, Copy, PartialEq, Eq)]
pub struct Skipped {
    /// How many pairs.
    pub count: u64,
    /// The line of the first one, and what is wrong with it.
    pub first: Option<(u64, LineFault)>,
}

/// The pairs of an input.
#[derive(Drop)]
pub struct Pairs<I> {
    lines: Lines<I>,
    form: Form,
    /// Whether a bad pair is read over.
    skips: bool,
    /// Whether its keys are deleted.
    deletes: bool,
    skipped: Skipped,
}

/// The put of a line.
fn line_put_of(form: Form, line: &[u8]) -> Result<Record, LineFault>
    ensures { result_ok result ≡ line_put form line.now }
{
    match form {
        Form::Raw => raw_put_of(line),
        Form::Json => json_put_of(line),
        Form::Csv => csv_put_of(line),
        _ => put_of(line),
    }
}

/// The delete of a line's key.
fn line_del_of(form: Form, line: &[u8]) -> Result<Record, LineFault>
    ensures { result_ok result ≡ line_del form line.now }
{
    match form {
        Form::Raw => raw_del_of(line),
        Form::Json => json_del_of(line),
        Form::Csv => csv_del_of(line),
        _ => del_of(line),
    }
}

impl<I: Read + Drop> Pairs<I> {
    /// Those of a reader, which are spelled so. A bad pair ends them, or is read over.
    pub fn new(alloc: Global, input: I, source: Source, skips: bool) -> Result<Pairs<I>, PairsFault>
        ensures unread { IfOk result (λ pairs. IfSome (I.remaining input)
            (λ bytes. reading_of I.remaining pairs ≡ Some (unread source skips LONGEST bytes))) }
        ensures failed { IfErr result (λ fault. fault_line fault ≡ None) }
    {
        let lines = Lines::new(alloc, input, READS, LONGEST).map_err(PairsFault::of_read)?;
        Ok(Pairs {
            lines,
            form: source.form(),
            skips,
            deletes: false,
            skipped: Skipped {
                count: 0,
                first: None,
            },
        })
    }

    /// The deletes of its keys in place of the puts. A line may be only a key then, and of one that
    /// is a pair the value is not read.
    pub fn as_deletes(self) -> Pairs<I>
        ensures { reading_of I.remaining result
            ≡ option_map deleting (reading_of I.remaining self) }
    {
        Pairs {
            deletes: true,
            ..self
        }
    }

    /// What was read over.
    pub fn skipped(&self) -> Skipped
        ensures { result ≡ skipped_of self.now }
    {
        self.skipped
    }

    /// How many bytes of it were read.
    pub fn bytes(&self) -> u64 {
        self.lines.bytes()
    }

    /// Reads the next line, and says whether there was one.
    fn read_line(&mut self) -> Result<bool, PairsFault>
        ensures read { IfOk result (λ is_there. IfSome (place_of I.remaining self.old.lines)
            (λ place. IsRead is_there (line_held self.new.lines)
            place (place_of I.remaining self.new.lines))) }
        ensures failed { IfErr result (λ fault. fault_line fault ≡ None) }
        ensures form { self.new.form ≡ self.old.form }
        ensures same { OnlyMoved self.old self.new }
    {
        match self.lines.read_line() {
            Ok(is_there) => Ok(is_there),
            Err(error) => Err(PairsFault::of_read(error)),
        }
    }

    /// The line that was read.
    fn line(&self) -> Result<&[u8], LineFault>
        ensures ok { IfOk result (λ line. line.now ≡ line_held self.now.lines) }
        ensures fits { is_ok result ≡ fits (line_held self.now.lines) }
        ensures err { IfErr result (λ fault. fault ≡ LineFault.TooLong) }
    {
        let line = self.lines.line();
        if line.len() > LONGEST as usize {
            return Err(LineFault::TooLong);
        }
        Ok(line)
    }

    /// A fault of the line that was read, which is not read over.
    fn fault(&self, fault: LineFault) -> PairsFault
        ensures { result ≡ PairsFault.Line (line_number self.now.lines) fault }
    {
        PairsFault::Line(self.lines.number(), fault)
    }

    /// The record of the line that was read.
    fn record(&self) -> Result<Record, LineFault>
        ensures { result_ok result
            ≡ line_record self.now.form self.now.deletes (line_held self.now.lines) }
    {
        match self.line() {
            Ok(line) if self.deletes => line_del_of(self.form, line),
            Ok(line) => line_put_of(self.form, line),
            Err(fault) => Err(fault),
        }
    }

    /// The record of the next line.
    fn next_line(&mut self) -> Result<Next, PairsFault>
        ensures step { Makes result (line_step self.old.form self.old.deletes)
            (place_of I.remaining self.old.lines)
            self.new.form (place_of I.remaining self.new.lines) }
        ensures same { OnlyMoved self.old self.new }
    {
        if !self.read_line()? {
            return Ok(Next::End);
        }
        match self.record() {
            Ok(record) => Ok(Next::One(record)),
            Err(fault) => Ok(Next::Bad(self.lines.number(), fault)),
        }
    }

    /// What the header of a dump says, by the line that was read.
    fn known(&self, header: Header) -> Result<Header, LineFault>
        ensures { result ≡ headed_by header (line_held self.now.lines) }
    {
        match self.line() {
            Ok(line) => header.then(line),
            Err(fault) => Err(fault),
        }
    }

    /// What it says once a line more is read.
    fn header_then(&mut self, header: Header) -> Result<Header, PairsFault>
        ensures known { IfSome (place_of I.remaining self.old.lines)
            (λ place. Knows result (next_headed header place)
            (next_place place) (place_of I.remaining self.new.lines)) }
        ensures form { self.new.form ≡ self.old.form }
        ensures same { OnlyMoved self.old self.new }
    {
        if !self.read_line()? {
            return Err(self.fault(LineFault::BadHeader));
        }
        match self.known(header) {
            Ok(known) => Ok(known),
            Err(fault) => Err(self.fault(fault)),
        }
    }

    /// Reads the header of a dump, and says how bytes are spelled after it.
    fn read_header(&mut self) -> Result<Letters, PairsFault>
        ensures known { IfSome (place_of I.remaining self.old.lines)
            (λ place. Knows result (headed (Ok Header.First) place.number place.lines).letters
            (headed (Ok Header.First) place.number place.lines).place
            (place_of I.remaining self.new.lines)) }
        ensures form { self.new.form ≡ self.old.form }
        ensures same { OnlyMoved self.old self.new }
    {
        let mut header = Header::First;
        for _ in 0..READS {
            header = self.header_then(header)?;
            if let Header::End(letters) = header {
                return Ok(letters);
            }
        }
        // More lines than can be counted.
        Err(PairsFault::Input)
    }

    /// Reads a line of data, and says whether it is one, and not the end.
    fn read_data(&mut self) -> Result<bool, PairsFault>
        ensures data { IfOk result (λ is_data. IfSome (place_of I.remaining self.old.lines)
            (λ place. IsData is_data (line_held self.new.lines)
            place (place_of I.remaining self.new.lines))) }
        ensures no_end { IfErr result (λ fault. IfSome (fault_line fault)
            (λ at. IfSome (place_of I.remaining self.old.lines)
            (λ place. HasNoEnd at (line_held self.new.lines)
            place (place_of I.remaining self.new.lines)))) }
        ensures form { self.new.form ≡ self.old.form }
        ensures same { OnlyMoved self.old self.new }
    {
        if !self.read_line()? {
            return Err(self.fault(LineFault::NoEnd));
        }
        Ok(self.lines.line() != b"DATA=END".as_slice())
    }

    /// The key of the line that was read.
    fn key(&self, letters: Letters) -> Result<Key, LineFault>
        ensures { result_ok result ≡ key_at letters (line_held self.now.lines) }
    {
        match self.line() {
            Ok(line) => key_in(letters, line),
            Err(fault) => Err(fault),
        }
    }

    /// The value of the line that was read.
    fn value(&self, letters: Letters) -> Result<Value, LineFault>
        ensures { result_ok result ≡ value_at letters (line_held self.now.lines) }
    {
        match self.line() {
            Ok(line) => value_in(letters, line),
            Err(fault) => Err(fault),
        }
    }

    /// The pair of the next two lines. The value of a bad key is read over with it.
    fn next_data(&mut self, letters: Letters) -> Result<Next, PairsFault>
        requires form { self.now.form ≡ Form.Data letters }
        ensures step { Makes result (data_step letters self.old.deletes)
            (place_of I.remaining self.old.lines)
            self.new.form (place_of I.remaining self.new.lines) }
        ensures same { OnlyMoved self.old self.new }
    {
        if !self.read_data()? {
            self.form = Form::Ended;
            return self.end();
        }
        let number = self.lines.number();
        let key = self.key(letters);
        if !self.read_data()? {
            return Err(self.fault(LineFault::NoValue));
        }
        match (key, self.value(letters)) {
            (Ok(key), Ok(_)) if self.deletes => Ok(Next::One(Record::Del(key))),
            (Ok(key), Ok(value)) => Ok(Next::One(Record::Put(key, value))),
            (Err(fault), _) => Ok(Next::Bad(number, fault)),
            (Ok(_), Err(fault)) => Ok(Next::Bad(self.lines.number(), fault)),
        }
    }

    /// Nothing may stand after the end of a dump.
    fn end(&mut self) -> Result<Next, PairsFault>
        requires form { self.now.form ≡ Form.Ended }
        ensures step { Makes result end_step (place_of I.remaining self.old.lines)
            self.new.form (place_of I.remaining self.new.lines) }
        ensures same { OnlyMoved self.old self.new }
    {
        if self.read_line()? {
            return Err(self.fault(LineFault::Second));
        }
        Ok(Next::End)
    }

    /// What comes next.
    fn next(&mut self) -> Result<Next, PairsFault>
        ensures step { Makes result (step self.old.form self.old.deletes)
            (place_of I.remaining self.old.lines)
            self.new.form (place_of I.remaining self.new.lines) }
        ensures same { OnlyMoved self.old self.new }
    {
        if self.form == Form::Dump {
            let letters = self.read_header()?;
            self.form = Form::Data(letters);
        }
        match self.form {
            Form::Words | Form::Raw | Form::Json | Form::Csv => self.next_line(),
            Form::Data(letters) => self.next_data(letters),
            Form::Dump | Form::Ended => Ok(Next::End),
        }
    }

    /// Notes a bad pair, which ends the input if none is read over.
    fn note(&mut self, number: u64, fault: LineFault) -> Result<(), PairsFault>
        ensures skips { is_ok result ≡ self.old.skips }
        ensures noted { OnOk result ((place : Place) →
            reading_at self.new place ≡ noted number (reading_at self.old place)) }
        ensures ends { IfErr result (λ error. error ≡ PairsFault.Line number fault) }
        ensures same { is_ok result ≡ false → self.new ≡ self.old }
        ensures lines { self.new.lines ≡ self.old.lines }
    {
        if !self.skips {
            return Err(PairsFault::Line(number, fault));
        }
        self.skipped.count = self.skipped.count.saturating_add(1);
        self.skipped.first = self.skipped.first.or(Some((number, fault)));
        Ok(())
    }

    /// The put of the next pair, or the delete of its key; `None` after the last.
    pub fn next_record(&mut self) -> Result<Option<Record>, PairsFault>
        ensures says { IfSome (reading_of I.remaining self.old)
            (λ reading. Says result (next_answer reading).came) }
        ensures left { was_read result ≡ true → IfSome (reading_of I.remaining self.old)
            (λ reading. reading_of I.remaining self.new ≡ Some (next_answer reading).reading) }
    {
        for _ in 0..u64::MAX {
            match self.next()? {
                Next::One(record) => return Ok(Some(record)),
                Next::Bad(number, fault) => self.note(number, fault)?,
                Next::End => return Ok(None),
            }
        }
        // More bad pairs than can be counted.
        Err(PairsFault::Input)
    }
}

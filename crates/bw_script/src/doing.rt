//! What a line asks for is done, and answered.

ghost use Rattle.bw_home.specs.Ready.{IsReady};

use crate::answers::{Answer, tell};
use crate::calls::{call, put_taking, turn_on};
use crate::events::tell_cleaned;
use crate::noting::write_out;
use crate::script::{Asked, Done, Ended, Script};
use crate::shell::{HELP, tell_text};
use crate::tended::Served;
use bw_codec::Record;
use bw_home::Home;
use bw_look::{Printer, Watch};
use bw_words::{
    Command, Condition, Fault, Manner, Miss, NotTyped, Request, Stop, System, TableCall, Typed,
    print,
};
use std::io::{Read, Write};

/// What comes of room that is made after an answer, or is not. The line is answered already, so a
/// spare that cannot be made is none: `stats` shows it. A refused growth ends the run.
pub(crate) fn done_of_room(room: Result<bool, Miss>) -> Result<Done, Miss> {
    match room {
        Ok(true) => Ok(Done::Room),
        Err(Miss::Ended(stop)) => Err(Miss::Ended(stop)),
        Err(Miss::Refused(refusal)) if refusal.is_no_memory() => Err(Miss::Refused(refusal)),
        _ => Ok(Done::Answered),
    }
}

/// Says why a batch is none, and which of its lines is at fault.
pub(crate) fn print_no_batch<O: Write>(
    output: &mut O,
    number: u32,
    fault: Fault,
) -> Result<(), Stop> {
    let mut out = Printer::new(output);
    out.named("fault ", fault);
    out.line(" line ", number);
    out.end()?;
    Ok(())
}

/// How many records a request puts.
pub(crate) fn records_in(request: &Request) -> u64 {
    match request {
        Request::Do(Command::Put(_, group)) => group.len() as u64,
        Request::If(Condition::Rename(..)) => 2,
        Request::If(_) => 1,
        _ => 0,
    }
}

impl<I: Read + Drop, O: Write, W: Watch> Script<'_, I, O, W> {
    /// Prints an answer, for a program or for a person.
    pub(crate) fn tell_answer(&mut self, home: &Home, answer: &Answer) -> Result<(), Stop>
        requires { IsReady home.now holding }
    {
        if self.manner.is_shell() {
            self.shell.tell(home, self.output, answer)
        } else {
            tell(home, self.output, answer)
        }
    }

    /// Writes out what was printed, if the answer is a receipt.
    pub(crate) fn write_receipt(&mut self) -> Result<(), Stop> {
        if self.is_receipt {
            write_out(self.output)
        } else {
            Ok(())
        }
    }

    /// What a command comes to in this manner.
    pub(crate) fn answer_of<R: System>(
        &mut self,
        rt: &R,
        home: &mut Home,
        command: Command,
    ) -> Result<Answer, Miss>
        requires { IsReady home.old holding }
        ensures { IsReady home.new holding }
    {
        match command {
            Command::Put(writer, group) if self.manner == Manner::Taking => put_taking(
                home, writer, group,
            ),
            Command::Turn(limit) => turn_on(home, limit, &mut self.taken),
            command => call(rt, home, command),
        }
    }

    /// Does what a command asks for, but that a spare is only made. The file of what was given up
    /// is emptied after its line, before the next segment can be given up.
    pub(crate) fn do_command<R: System>(
        &mut self,
        rt: &R,
        home: &mut Home,
        command: Command,
    ) -> Result<Done, Miss>
        requires { IsReady home.old holding }
        ensures { IsReady home.new holding }
    {
        let answer = match self.answer_of(rt, home, command) {
            Ok(Answer::Spare) => return Ok(Done::Add),
            Ok(answer) => self.tending.told(home, answer),
            Err(miss) => {
                self.tending.room_for(rt, home, miss)?;
                self.is_again = true;
                return Ok(Done::Room);
            }
        };
        tell(home, self.output, &answer)?;
        if !matches!(answer, Answer::Cleaned(_)) {
            return done_of_room(self.tending.look(rt, home));
        }
        home.empty(rt)?;
        if !self.reuse {
            return Ok(Done::Answered);
        }
        home.make_spare(rt)?;
        Ok(Done::Add)
    }

    /// Does what a request asks for, and makes room after it if one spare is left. A spare is only
    /// made.
    pub(crate) fn do_request<R: System>(
        &mut self,
        rt: &R,
        home: &mut Home,
        request: Request,
    ) -> Result<Done, Miss>
        requires { IsReady home.old holding }
        ensures { IsReady home.new holding }
    {
        let count = records_in(&request);
        let answer = match self.tending.serve(rt, home, request)? {
            Served::Answer(Answer::Spare) => return Ok(Done::Add),
            Served::Answer(answer) => answer,
            Served::Room => {
                self.is_again = true;
                return Ok(Done::Room);
            }
        };
        self.note_put(&answer, count);
        self.tell_answer(home, &answer)?;
        let Answer::Won(cleaned, _) = &answer else {
            self.write_receipt()?;
            return done_of_room(self.tending.look(rt, home));
        };
        tell_cleaned(self.watch, home, *cleaned);
        home.empty(rt)?;
        self.write_receipt()?;
        done_of_room(home.make_spare(rt).map(|()| true).map_err(Miss::from))
    }

    /// Puts some pairs, and makes room after them if one spare is left. A spare is only made.
    pub(crate) fn do_puts<R: System>(
        &mut self,
        rt: &R,
        home: &mut Home,
        puts: Vec<Record>,
    ) -> Result<Done, Miss>
        requires { IsReady home.old holding }
        ensures { IsReady home.new holding }
    {
        let before = self.put.unwrap_or(0);
        let mut count = before;
        let served = self.tending.serve_pairs(rt, home, puts, &mut count);
        self.put = Some(count);
        let tally = &mut self.tending.tally;
        tally.accepted = tally.accepted.saturating_add(count.saturating_sub(before));
        match served? {
            Served::Answer(answer) => {
                tell(home, self.output, &answer)?;
                done_of_room(self.tending.look(rt, home))
            }
            Served::Room => {
                self.is_again = true;
                Ok(Done::Room)
            }
        }
    }

    /// Does a call on tables, and makes room after it if one spare is left. A spare is only made.
    pub(crate) fn do_tables<R: System>(
        &mut self,
        rt: &R,
        home: &mut Home,
        call: TableCall,
    ) -> Result<Done, Miss>
        requires { IsReady home.old holding }
        ensures { IsReady home.new holding }
    {
        match self.tending.serve_tables(rt, home, &call)? {
            Served::Answer(answer) => {
                tell(home, self.output, &answer)?;
                done_of_room(self.tending.look(rt, home))
            }
            Served::Room => {
                self.call = Some(call);
                self.is_again = true;
                Ok(Done::Room)
            }
        }
    }

    /// Counts so many records, if the answer says that they were accepted.
    pub(crate) fn note_put(&mut self, answer: &Answer, count: u64) {
        if matches!(answer, Answer::Put(true) | Answer::Number(_)) {
            let tally = &mut self.tending.tally;
            tally.accepted = tally.accepted.saturating_add(count);
            self.shell.note_put();
        }
    }

    /// Ends the store, so that its folder is opened once more. What can still be kept of it is.
    pub(crate) fn do_reopen(&mut self, home: &mut Home) -> Result<Done, Miss>
        requires { IsReady home.old holding }
        ensures { IsReady home.new holding }
    {
        if !self.in_folder {
            print(self.output, "fault ", Fault::UnknownCommand)?;
            return Ok(Done::Answered);
        }
        let _ = home.settle();
        self.ended = Some(Ended::of(home, self.tending.tally.accepted));
        Ok(Done::Reopen)
    }

    /// Does what a shell asks before its next line.
    pub(crate) fn do_ahead<R: System>(
        &mut self,
        rt: &R,
        home: &mut Home,
        request: Request,
    ) -> Result<Done, Miss>
        requires { IsReady home.old holding }
        ensures { IsReady home.new holding }
    {
        let done = self.do_request(rt, home, request);
        if !self.is_again {
            self.shell.note_asked(done.is_err());
        }
        done
    }

    /// Does what a person typed.
    pub(crate) fn do_typed<R: System>(
        &mut self,
        rt: &R,
        home: &mut Home,
        typed: Result<Typed, NotTyped>,
    ) -> Result<Done, Miss>
        requires { IsReady home.old holding }
        ensures { IsReady home.new holding }
    {
        match typed {
            Ok(Typed::Request(request)) => return self.do_request(rt, home, request),
            Ok(Typed::List(prefix)) => self.shell.list(prefix),
            Ok(Typed::Help) => tell_text(self.output, HELP)?,
            Ok(Typed::Quit) => self.shell.quit(),
            Ok(Typed::Nothing) => {}
            Err(fault) => print(self.output, "fault ", fault)?,
        }
        Ok(Done::Answered)
    }

    /// Ends a shell. After a prompt that has no line a line is ended.
    pub(crate) fn do_over(&mut self) -> Result<Done, Miss> {
        if self.manner == Manner::Prompted && !self.shell.is_over() {
            tell_text(self.output, "\n")?;
        }
        Ok(Done::End)
    }

    /// Does what the next line asks for. What is no request is answered too.
    pub(crate) fn do_next<R: System>(&mut self, rt: &R, home: &mut Home) -> Result<Done, Miss>
        requires { IsReady home.old holding }
        ensures { IsReady home.new holding }
    {
        self.is_receipt = false;
        match self.next_asked(rt.alloc())? {
            Asked::Command(command) => {
                self.is_receipt = command.is_receipt();
                self.do_command(rt, home, command)
            }
            Asked::Request(Request::Quit) => {
                print(self.output, "", "bye")?;
                Ok(Done::End)
            }
            Asked::Request(Request::Reopen) => {
                self.is_receipt = true;
                self.do_reopen(home)
            }
            Asked::Request(Request::PutMany(puts)) => self.do_puts(rt, home, puts),
            Asked::Request(request) => {
                self.is_receipt = request.is_receipt();
                self.do_request(rt, home, request)
            }
            Asked::Tables(call) => self.do_tables(rt, home, call),
            Asked::NoRequest(fault) => {
                print(self.output, "fault ", fault)?;
                Ok(Done::Answered)
            }
            Asked::NoBatch(number, fault) => {
                print_no_batch(self.output, number, fault)?;
                Ok(Done::Answered)
            }
            Asked::Ahead(request) => self.do_ahead(rt, home, request),
            Asked::Typed(typed) => self.do_typed(rt, home, typed),
            Asked::Over => self.do_over(),
            Asked::Nothing => Ok(Done::End),
        }
    }

    /// Does line by line up to one that made a spare, or the end.
    pub(crate) fn up_to_spare<R: System>(&mut self, rt: &R, home: &mut Home)
        requires { IsReady home.old holding }
        ensures { IsReady home.new holding }
    {
        'lines: for _ in 0..u64::MAX {
            let done = self.do_next(rt, home);
            self.note(done);
            self.tell_due(home);
            if self.done != Some(Done::Answered) {
                break;
            }
        }
    }

    /// Does the lines of a leg, if what stands before them has not ended the run.
    pub(crate) fn do_lines<R: System>(&mut self, rt: &R, home: &mut Home)
        requires { IsReady home.old holding }
        ensures { IsReady home.new holding }
    {
        if self.done == Some(Done::End) {
            return;
        }
        self.up_to_spare(rt, home);
    }
}

//! What `bwlog shell` does beside a request: it keeps what was put before it waits for a line,
//! walks over all pairs of a listing, a part of them at a time, and prints answers for a person.

ghost use Rattle.bw_home.specs.Ready.{IsReady};

use crate::answers::{Answer, tell};
use bw_codec::{Key, Pair, Value};
use bw_home::Home;
use bw_keys::above;
use bw_pairs::{Spelling, write_line, write_pair};
use bw_words::{Command, Request, Stop};
use std::io::{self, Write};

/// How many pairs of a listing are looked up at once.
const PART: u32 = 512;

/// What `help` says.
pub const HELP: &str = "put KEY VALUE     sets a value
get KEY           its value
del KEY           deletes a key
rename KEY NEW    gives KEY's value to NEW, and deletes KEY, in one step
list [PREFIX]     all pairs, or those whose keys begin so
scan KEY [N]      N pairs from this key on (20)
prev KEY          the last pair at or below this key
count             how many pairs there are
stats             numbers of the store
quit              ends, as Ctrl-D does
A word with blanks stands between quotes, 'as it is' or \"with escapes\": \\n \\t \\r \\0 \\xHH \\\\ \\\" \\'.
0xHH.. without quotes is bytes in hex. What was put is kept before the next line is waited for.
";

/// What stands before a line that is waited for.
pub const PROMPT: &str = "bwlog> ";

/// A listing that goes on.
#[derive(Drop)]
struct Walk {
    /// The key at which the next part begins.
    next: Key,
    /// What each key begins with.
    prefix: Option<Key>,
}

/// What a shell has to do before its next line.
#[derive(Drop)]
pub struct Shell {
    walk: Option<Walk>,
    /// Whether something was put since it was kept last.
    has_put: bool,
    /// Whether that is being kept.
    is_keeping: bool,
    /// Whether it ends once that was kept.
    is_over: bool,
}

/// The least of all keys.
fn least() -> Option<Key> {
    Key::new(&[0]).ok()
}

/// Whether a key begins so.
fn begins(key: &[u8], prefix: Option<&Key>) -> bool {
    match prefix {
        Some(prefix) => key.starts_with(prefix.as_slice()),
        None => true,
    }
}

impl Shell {
    /// Nothing was asked yet.
    pub fn new() -> Shell {
        Shell {
            walk: None,
            has_put: false,
            is_keeping: false,
            is_over: false,
        }
    }

    /// Begins a listing.
    pub fn list(&mut self, prefix: Option<Key>) {
        let next = match &prefix {
            Some(prefix) => Some(prefix.copy()),
            None => least(),
        };
        self.walk = next.map(|next| Walk { next, prefix });
    }

    /// Ends the shell, once what was put is kept.
    pub fn quit(&mut self) {
        self.is_over = true;
    }

    /// Whether it ends now.
    pub fn is_over(&self) -> bool {
        self.is_over && !self.has_put
    }

    /// Notes that something was put.
    pub fn note_put(&mut self) {
        self.has_put = true;
    }

    /// Begins to keep what was put, if something was, no listing goes on, and the next line has to
    /// be waited for.
    pub fn keep_before_wait(&mut self, waits: bool) {
        if self.walk.is_none() && self.has_put && (waits || self.is_over) {
            self.is_keeping = true;
        }
    }

    /// What is asked of the store before the next line.
    pub fn next_request(&self) -> Option<Request> {
        if let Some(walk) = &self.walk {
            return Some(Request::Scan(walk.next.copy(), PART));
        }
        if self.is_keeping {
            return Some(Request::Do(Command::Flush));
        }
        None
    }

    /// What was asked before the next line has its answer, or was refused.
    pub fn note_asked(&mut self, is_refused: bool) {
        if self.is_keeping {
            self.is_keeping = false;
            self.has_put = false;
        }
        if is_refused {
            self.walk = None;
        }
    }

    /// Prints pairs, as far as a listing goes that these are a part of, and goes on after them.
    fn tell_pairs<O: Write>(&mut self, output: &mut O, pairs: &[Pair]) -> io::Result<()> {
        let walk = self.walk.take();
        let prefix = match &walk {
            Some(walk) => walk.prefix.as_ref(),
            None => None,
        };
        for pair in pairs {
            if !begins(pair.key(), prefix) {
                return Ok(());
            }
            write_pair(output, Spelling::Words, pair.key(), pair.value())?;
        }
        self.walk = next_walk(walk, pairs);
        Ok(())
    }

    /// Prints what an answer says for a person.
    fn write<O: Write>(&mut self, output: &mut O, answer: &Answer) -> io::Result<()> {
        match answer {
            Answer::Value(Some(value)) => write_line(output, Spelling::Words, value.as_slice()),
            Answer::Value(None) => output.write_all(b"no value\n"),
            Answer::Pair(Some((key, value))) => write_one(output, key, value),
            Answer::Pair(None) => output.write_all(b"no pair\n"),
            Answer::Pairs(pairs) => self.tell_pairs(output, pairs.as_slice()),
            Answer::Count(count) => writeln!(output, "{count}"),
            _ => Ok(()),
        }
    }

    /// Prints an answer. What keeps what was put prints nothing.
    pub fn tell<O: Write>(
        &mut self,
        home: &Home,
        output: &mut O,
        answer: &Answer,
    ) -> Result<(), Stop>
        requires { IsReady home.now holding }
    {
        match answer {
            Answer::Put(_) | Answer::Unchanged | Answer::Stats(_) => tell(home, output, answer),
            answer => match self.write(output, answer) {
                Ok(()) => Ok(()),
                Err(_) => Err(Stop::Output),
            },
        }
    }
}

/// How a listing goes on after these pairs: not, if there were fewer than were asked for.
fn next_walk(walk: Option<Walk>, pairs: &[Pair]) -> Option<Walk> {
    let walk = walk?;
    if pairs.len() < PART as usize {
        return None;
    }
    let next = above(pairs.last()?.key())?;
    Some(Walk {
        next,
        prefix: walk.prefix,
    })
}

/// Prints one pair.
fn write_one<O: Write>(output: &mut O, key: &Key, value: &Value) -> io::Result<()> {
    write_pair(output, Spelling::Words, key.as_slice(), value.as_slice())
}

/// Prints a text as it is.
pub fn tell_text<O: Write>(output: &mut O, text: &str) -> Result<(), Stop> {
    match output.write_all(text.as_bytes()) {
        Ok(()) => Ok(()),
        Err(_) => Err(Stop::Output),
    }
}

//! What a command line asks for.

use crate::script::Reading;
use bw_home::System;
use bw_keys::{FEW, TablesTask, Task, leases_of};
use bw_look::Hearing;

/// How lines are read and answered.
#[derive(Debug, Clone, Copy, PartialEq, Eq)]
pub enum Manner {
    /// A script: each line is a command, and a fault ends it.
    Script,
    /// A script in which a group that finds its ring full has the store take what waits before.
    Taking,
    /// Requests of a program, over a store with one writer.
    Requests,
    /// Requests of a program, over the tables of a store with one writer.
    Tables,
    /// Lines that a person typed, over a store with one writer.
    Shell,
    /// Lines that a person types after a prompt, over a store with one writer.
    Prompted,
}

impl Manner {
    /// Whether its lines are those of a person.
    pub fn is_shell(self) -> bool {
        matches!(self, Manner::Shell | Manner::Prompted)
    }

    /// Whether its lines are those of a program.
    pub fn is_served(self) -> bool {
        matches!(self, Manner::Requests | Manner::Tables)
    }
}

/// How segments are shown.
#[derive(Clone, Copy)]
pub enum View {
    /// Frame by frame and block by block.
    Print,
    /// By how much they have of each kind.
    Stats,
    /// By how much they have of each kind, as an object of JSON.
    Numbers,
    /// As a picture, of segments that have room for so many bytes.
    Picture(u64),
    /// By the frames that were noted with their times.
    Frames,
}

/// How it is said what comes of a folder.
#[derive(Debug, Clone, Copy, PartialEq, Eq)]
pub enum Report {
    Lines,
    /// An object of JSON, on one line.
    Json,
}

/// What the command line asks for.
#[derive(Drop)]
pub enum Mode<'a> {
    /// This is done with the keys of a folder.
    Keys(&'a str, Task<'a>),
    /// This is done with its tables.
    Named(&'a str, TablesTask<'a>),
    /// The lines of the input are done over a store, in this manner.
    Lines(Options<'a>, Manner),
    /// Each writer's script is run by a thread of its own over a store.
    Threads(Options<'a>, Pace),
    /// Recovery says what segments hold: those of a folder, or lines in hex.
    Scan(Option<&'a str>),
    /// The segments of a folder, or lines in hex, are shown in this view.
    Look(View, Option<&'a str>),
    /// A folder is verified; what comes of it is said as an object of JSON, or in lines.
    Verify(&'a str, Report),
    /// A folder is copied as it is.
    Copy(Ends<'a>),
    /// A folder follows another one, in rounds with so many seconds between them, or for one round.
    Follow(Ends<'a>, Option<u32>),
    /// The pairs of a folder go into a new store.
    Compact(Ends<'a>, bw_home::Options),
    /// What a folder still has goes into a new store.
    Salvage(Ends<'a>),
    /// A folder as of an earlier frame, in another folder.
    Restore(Ends<'a>, AsOf<'a>),
    /// Segments of format 1 are written again in format 2: those of a folder, or lines in hex.
    Upgrade(Option<&'a str>),
}

/// As of which frame a folder is restored.
#[derive(Clone, Copy)]
pub enum AsOf<'a> {
    /// This one.
    Frame(u64),
    /// The last one that was noted at a time, which this text gives, or before it.
    Time(&'a str),
}

/// A folder that is read, and one that is made.
#[derive(Clone, Copy)]
pub struct Ends<'a> {
    /// The folder of the log.
    pub from: &'a str,
    /// The new folder.
    pub to: &'a str,
}

/// A path without what says nothing: slashes at its end, and `./` at its beginning.
fn plain(path: &str) -> &str {
    path.trim_start_matches("./").trim_end_matches('/')
}

impl Ends<'_> {
    /// Whether the new folder would lie in the one that is read, as far as their names say.
    pub fn is_within(&self) -> bool {
        match plain(self.to).strip_prefix(plain(self.from)) {
            Some(rest) => rest.starts_with('/'),
            None => false,
        }
    }

    /// Whether both folders are one, as far as their names say.
    pub fn are_one(&self) -> bool {
        plain(self.to) == plain(self.from)
    }
}

impl<'a> Mode<'a> {
    /// The mode as it is on a terminal, if a shell has a prompt.
    pub fn on_terminal(self) -> Mode<'a> {
        match self {
            Mode::Lines(options, Manner::Shell) => Mode::Lines(options, Manner::Prompted),
            mode => mode,
        }
    }

    /// In which manner it reads lines, if it does.
    pub fn manner(&self) -> Option<Manner> {
        match self {
            Mode::Lines(_, manner) => Some(*manner),
            _ => None,
        }
    }

    /// What an operator hears of it.
    pub fn hearing(&self) -> Hearing {
        match self {
            Mode::Lines(options, _) => options.hearing,
            _ => Hearing::NOTHING,
        }
    }

    /// The folder of the segments.
    pub fn dir(&self) -> Option<&'a str> {
        match self {
            Mode::Lines(options, _) | Mode::Threads(options, _) => options.dir,
            Mode::Scan(dir) | Mode::Look(_, dir) | Mode::Upgrade(dir) => *dir,
            Mode::Verify(dir, _) => Some(*dir),
            Mode::Copy(ends)
            | Mode::Follow(ends, _)
            | Mode::Compact(ends, _)
            | Mode::Salvage(ends)
            | Mode::Restore(ends, _) => Some(ends.to),
            Mode::Keys(dir, _) | Mode::Named(dir, _) => Some(*dir),
        }
    }

    /// The folder that is read.
    pub fn source(&self) -> Option<&'a str> {
        match self {
            Mode::Copy(ends)
            | Mode::Follow(ends, _)
            | Mode::Compact(ends, _)
            | Mode::Salvage(ends)
            | Mode::Restore(ends, _) => Some(ends.from),
            mode => mode.dir(),
        }
    }

    /// Whether a store is made in memory.
    pub fn is_in_memory(&self) -> bool {
        match self {
            Mode::Lines(options, _) | Mode::Threads(options, _) => options.dir.is_none(),
            _ => false,
        }
    }

    /// Whether it reads the input.
    pub fn reads_input(&self) -> bool {
        match self {
            Mode::Lines(..) | Mode::Threads(..) => true,
            Mode::Scan(dir) | Mode::Look(_, dir) | Mode::Upgrade(dir) => dir.is_none(),
            Mode::Keys(_, task) => task.reads_input(),
            Mode::Named(_, task) => task.reads_input(),
            _ => false,
        }
    }

    /// The options of a run over a folder.
    pub fn in_folder(&self) -> Option<(&'a str, Options<'a>)> {
        match self {
            Mode::Lines(options, _) | Mode::Threads(options, _) => Some((options.dir?, *options)),
            _ => None,
        }
    }
}

/// The options of `replay`, and of `serve` and `threads` likewise.
#[derive(Clone, Copy)]
pub struct Options<'a> {
    /// The store: 2 to 64 segments at the beginning, with room for 65,560 to 16,777,216 bytes each;
    /// in a folder up to 4,096, and up to 1 GiB.
    pub store: bw_home::Options,
    /// The folder in which they are; in memory if there is none.
    pub dir: Option<&'a str>,
    /// Whether a segment that was given up comes back as the last spare.
    pub reuse: bool,
    /// How the words of its lines give their bytes.
    pub reading: Reading,
    /// Up to how many segments a store adds by itself, 2 to 64, in a folder to 4,096; 0 if it makes
    /// no room by itself.
    pub most: u32,
    /// Whether `m` was given, and is no default.
    pub gives_m: bool,
    /// Whether `f` was given.
    pub gives_f: bool,
    /// What an operator hears of it.
    pub hearing: Hearing,
}

/// How the writers of `threads` put, and how the store is tended meanwhile.
#[derive(Clone, Copy)]
pub struct Pace {
    /// How many groups a turn takes at most, 1 to 4,096.
    pub limit: u32,
    /// After how many turns a flush comes, 1 to 4,096.
    pub flush_every: u32,
    /// After a flush the oldest segment is given up if so many are live, 0 to 64; 0 for never.
    pub clean_at: u32,
    /// How often a group is tried, and how many turns there are, at most: 1 to 1,000,000,000.
    pub tries: u32,
    /// Whether the history leaves memory after each flush.
    pub forgets: bool,
    /// How many readers look keys up meanwhile, 0 to 64.
    pub readers: u32,
}

/// How many leases there are for segments in memory, and how many segments are read from lines.
pub const LEASES: u32 = FEW;

/// How many leases there are for a run over a folder, or in memory if there is none.
pub fn leases_in<R: System>(rt: &R, dir: Option<&str>) -> u32 {
    match dir {
        Some(path) => leases_of(rt, path),
        None => LEASES,
    }
}

//! The command line, read by `clap`. Nothing else of the program stands here.

use crate::shape::{Shape, Span};
use bw_codec::limits::{MAX_FRAME, MAX_KEY, MAX_VALUE, MIN_FRAME};
use clap::error::ErrorKind;
use clap::{Arg, ArgMatches, Command, Error};
use std::alloc::{AllocError, Global};

/// What a run does.
#[derive(Clone, Copy)]
pub struct Options {
    /// How many keys there are, 1 to 10,000,000.
    pub keys: u32,
    /// How many bytes all keys share before those that set them apart, 0 to 120.
    pub shared: u16,
    /// How many bytes a value has, 8 to 512.
    pub value_length: u16,
    /// How many updates and gets there are, 1 to 10,000,000.
    pub operations: u32,
    /// How many records a ring holds, a turn takes, and a frame has at most: 1 to 4,096.
    pub batch: u16,
    /// How many bytes a frame has at most, 65,536 to 262,144.
    pub frame: u32,
    /// How many writers there are in threads of their own, 1 to 64.
    pub writers: u16,
    /// Whether times are printed.
    pub times: bool,
}

impl Options {
    /// The keys and values.
    pub fn shape(self) -> Shape {
        Shape {
            keys: u64::from(self.keys),
            shared: usize::from(self.shared),
            value_length: usize::from(self.value_length),
        }
    }

    /// How many puts there are, of new keys and of old ones.
    pub fn puts(self) -> u64 {
        u64::from(self.keys).saturating_add(u64::from(self.operations))
    }

    /// The puts of new keys, and those of old ones.
    pub fn spans(self) -> (Span, Span) {
        let keys = u64::from(self.keys);
        let load = Span {
            name: "load",
            from: 0,
            to: keys,
        };
        let update = Span {
            name: "update",
            from: keys,
            to: self.puts(),
        };
        (load, update)
    }
}

/// Which subjects are run, and where.
#[derive(Clone, Copy)]
pub struct Scope<'a> {
    /// The one subject that is run.
    pub only: Option<&'a str>,
    /// The folder in which each subject makes one for its segments; none: they stand in memory.
    pub dir: Option<&'a str>,
}

/// The subjects in the order in which they run.
const SUBJECTS: &[&str] = &[
    "pages",
    "cleaning",
    "appends",
    "core",
    "cold",
    "alone",
    "beside",
    "late",
    "one",
    "one-beside",
    "many",
    "many-beside",
    "steady",
];

/// What an option takes.
enum Kind {
    /// A number from one to another, and what it is if none is given.
    Number(i64, i64, &'static str),
    Flag,
    Subject,
    Folder,
}

/// A row of the options: the name, what it takes, and the help.
struct Row {
    name: &'static str,
    kind: Kind,
    help: &'static str,
}

/// Keys, values and operations, then batches and writers, and then how and where subjects run.
const ROWS: &[Row] = &[
    Row {
        name: "keys",
        kind: Kind::Number(1, 10_000_000, "1000"),
        help: "how many keys of 8 bytes there are",
    },
    Row {
        name: "shared",
        kind: Kind::Number(0, MAX_KEY as i64 - 8, "0"),
        help: "how many bytes all keys have before those 8",
    },
    Row {
        name: "value-length",
        kind: Kind::Number(8, MAX_VALUE as i64, "100"),
        help: "how many bytes a value has",
    },
    Row {
        name: "operations",
        kind: Kind::Number(1, 10_000_000, "1000"),
        help: "how many updates and gets there are",
    },
    Row {
        name: "batch",
        kind: Kind::Number(1, 4096, "64"),
        help: "how many records are put, turned and flushed together",
    },
    Row {
        name: "frame",
        kind: Kind::Number(MIN_FRAME as i64, MAX_FRAME as i64, "65536"),
        help: "how many bytes a frame has at most",
    },
    Row {
        name: "writers",
        kind: Kind::Number(1, 64, "4"),
        help: "how many writers there are in threads of their own",
    },
    Row {
        name: "times",
        kind: Kind::Flag,
        help: "prints nanoseconds and bytes",
    },
    Row {
        name: "only",
        kind: Kind::Subject,
        help: "the one subject that is run",
    },
    Row {
        name: "dir",
        kind: Kind::Folder,
        help: "keeps segments in files, in a new folder in this one for each subject",
    },
];

fn number(option: Arg<'static>, least: i64, most: i64, default: &'static str) -> Arg<'static> {
    let range = clap::value_parser!(u32).range(least..=most);
    option.value_parser(range).default_value(default)
}

fn of_kind(option: Arg<'static>, kind: &Kind) -> Arg<'static> {
    match *kind {
        Kind::Number(least, most, default) => number(option, least, most, default),
        Kind::Flag => option.action(clap::ArgAction::SetTrue),
        Kind::Subject => option.value_name("SUBJECT").value_parser(SUBJECTS),
        Kind::Folder => option.value_name("FOLDER"),
    }
}

fn option_of(alloc: Global, row: &Row) -> Arg<'static> {
    let option = Arg::new(alloc, row.name).long(row.name).help(row.help);
    of_kind(option, &row.kind)
}

fn with_rows<'a>(alloc: Global, command: Command<'a>) -> Result<Command<'a>, AllocError> {
    let mut command = command;
    for row in ROWS {
        command = command.arg(option_of(alloc, row))?;
    }
    Ok(command)
}

fn found_in(found: &ArgMatches<'_>) -> Options {
    Options {
        keys: found.get_one("keys").unwrap_or(0),
        shared: found.get_one("shared").unwrap_or(0),
        value_length: found.get_one("value-length").unwrap_or(0),
        operations: found.get_one("operations").unwrap_or(0),
        batch: found.get_one("batch").unwrap_or(0),
        frame: found.get_one("frame").unwrap_or(0),
        writers: found.get_one("writers").unwrap_or(0),
        times: found.get_flag("times"),
    }
}

fn scope_in<'a>(found: &ArgMatches<'a>) -> Scope<'a> {
    Scope {
        only: found.get_str("only"),
        dir: found.get_str("dir"),
    }
}

/// What the words after the program's name ask for. What they do not give as a parse, help among
/// it, is clap's error, whose text is for the user.
pub fn options_of<'a>(alloc: Global, words: &'a [String]) -> Result<(Options, Scope<'a>), Error> {
    let command = Command::new(alloc, "bw_bench")
        .about("Times the page store, and reads back what was put")
        .no_binary_name(true);
    let found = with_rows(alloc, command)?.try_get_matches_from(words)?;
    Ok((found_in(&found), scope_in(&found)))
}

/// Whether clap had too little memory.
pub fn is_memory(error: &Error) -> bool {
    error.kind() == ErrorKind::OutOfMemory
}

//! The modes of the program and their options, with their help, but for the modes over keys.

use bw_codec::limits::{HEADER_LEN, MAX_FRAME, MAX_PAIRS, MIN_FRAME, MIN_PAIRS};
use bw_device::{MAX_CAPACITY, MAX_LEASES};

/// The least capacity of a segment, in bytes: a header and the shortest of the longest frames.
const LEAST: i64 = HEADER_LEN as i64 + MIN_FRAME as i64;

/// The greatest capacity of a segment, in bytes. In memory it is less.
const MOST: i64 = MAX_CAPACITY as i64;

/// The most segments of a store. In memory there are fewer.
const MOST_LEASES: i64 = MAX_LEASES as i64;

/// What an option takes.
#[derive(Clone, Copy)]
pub enum Kind {
    /// A number from one to another, and what it is if none is given.
    Number(i64, i64, &'static str),
    /// A number from one to another; the help says what it is if none is given.
    Open(i64, i64),
    Folder,
    /// A folder that has to be given.
    Needed,
    /// The number of a frame, which has to be given if this option is not.
    FrameOr(&'static str),
    /// A number of 64 bits, by the name of its value.
    Large(&'static str),
    /// Any text, by the name of its value.
    Text(&'static str),
    /// Any text, by the name of its value, and another option may not be given then.
    TextAlone(&'static str, &'static str),
    /// Any text, by the name of its value, and none of these options may be given then.
    TextBut(&'static str, &'static [&'static str]),
    /// Any text, which has to be given, without the name of an option before it.
    Word,
    /// One such text, or more.
    Words,
    /// One text of these or more, if none of these options is given; and none if one is.
    WordsOr(&'static [&'static str]),
    /// One of these texts, and which if none is given.
    Choice(&'static [&'static str], &'static str),
    /// Nothing.
    Flag,
    /// Nothing, and another option may not be given then.
    Either(&'static str),
    /// Nothing, beside an option that has to be given then, and another one that may not.
    Beside(&'static str, &'static str),
    /// Nothing, and none of these options may be given then.
    Alone(&'static [&'static str]),
}

/// An option: its name, what it takes, and the help.
#[derive(Clone, Copy)]
pub struct Row {
    pub name: &'static str,
    pub kind: Kind,
    pub help: &'static str,
}

const WRITERS: Row = Row {
    name: "writers",
    kind: Kind::Number(1, 64, "1"),
    help: "how many writers there are, numbered from 0",
};

const PLACES: Row = Row {
    name: "places",
    kind: Kind::Number(1, 4096, "8"),
    help: "how many groups of a writer may wait",
};

const M: Row = Row {
    name: "m",
    kind: Kind::Open(MIN_PAIRS as i64, MAX_PAIRS as i64),
    help: "the most pairs that a page holds [default: 4, in a folder 32]",
};

const FRAME: Row = Row {
    name: "frame",
    kind: Kind::Open(MIN_FRAME as i64, MAX_FRAME as i64),
    help: "the most bytes that a frame has [default: 65536, in a folder 262144, or as many as a \
        segment has room for]",
};

const SEGMENTS: Row = Row {
    name: "segments",
    kind: Kind::Number(2, MOST_LEASES, "4"),
    help: "how many segments there are at the beginning; in memory up to 64",
};

pub const CAPACITY: Row = Row {
    name: "capacity",
    kind: Kind::Open(LEAST, MOST),
    help: "how many bytes a segment has room for; in memory up to 16777216. With room for fewer than \
        eight frames more spares are kept [default: 262168, in a folder 16777216, or as many as its \
        longest segment has]",
};

const ROOM_DRAWN: Row = Row {
    help: "how many bytes a segment is drawn with, the longest at least [default: of a folder \
        16777216]",
    ..CAPACITY
};

const MOST_SEGMENTS: Row = Row {
    name: "most-segments",
    kind: Kind::Open(2, MOST_LEASES),
    help: "up to how many segments are added where one spare is left and a cleaning does not pay; in \
        memory up to 64 [default: 64, in a folder 4096]",
};

/// Room that is made only if it is asked for: a script's answers are the store's own otherwise.
const ROOM: Row = Row {
    help: "makes room where one spare is left: the oldest segment is given up where that pays, and \
        else one is added, up to so many; in memory up to 64 [default: no room is made]",
    ..MOST_SEGMENTS
};

/// How much memory pages may take.
pub const MEMORY: Row = Row {
    name: "memory",
    kind: Kind::Large("BYTES"),
    help: "how many bytes of pages stay in memory once something is durable, counted as they are \
        written; those that nobody asks for leave, and are read from the log [default: all stay]",
};

const STORE_DIR: Row = Row {
    name: "dir",
    kind: Kind::Folder,
    help: "a folder for the segments, made where it is missing, and gone on from where it is there; \
        refused E13 then tells a lease",
};

const SHELL_DIR: Row = Row {
    name: "dir",
    kind: Kind::Needed,
    help: "the folder of the store, which is made where it is missing",
};

const SCAN_DIR: Row = Row {
    name: "dir",
    kind: Kind::Folder,
    help: "a folder whose segments are looked at, in place of lines; refused E13 then tells a \
        position among its files",
};

const LOOK_DIR: Row = Row {
    name: "dir",
    kind: Kind::Folder,
    help: "a folder whose segments are looked at, in place of lines",
};

const STATS_FORMAT: Row = Row {
    name: "format",
    kind: Kind::Choice(&["lines", "json"], "lines"),
    help: "lines of names and numbers, or one object of JSON",
};

const UPGRADE_DIR: Row = Row {
    name: "dir",
    kind: Kind::Folder,
    help: "a folder whose segments are upgraded where they stand, in place of lines",
};

const TAKE: Row = Row {
    name: "take",
    kind: Kind::Flag,
    help: "a group that finds its ring full has the store take what waits first",
};

const RAW: Row = Row {
    name: "raw",
    kind: Kind::Flag,
    help: "takes the words of a line as their own bytes, also where they begin with 0x",
};

const TABLES: Row = Row {
    name: "tables",
    kind: Kind::Flag,
    help: "serves the tables of the folder, by requests of their own; it has no other pairs then",
};

const LOG: Row = Row {
    name: "log",
    kind: Kind::Flag,
    help: "writes a line for each event on standard error, with its time and its numbers",
};

const EVERY: Row = Row {
    name: "every",
    kind: Kind::Open(1, 86_400),
    help: "writes the numbers of the store on standard error as such a line, behind the first request \
        that comes so many seconds after the last one [default: never]",
};

const REUSE: Row = Row {
    name: "reuse",
    kind: Kind::Flag,
    help: "a segment that was given up comes back as the last spare",
};

/// Segments that come back, of `threads`, which then cleans if it pays.
const REUSE_BETWEEN: Row = Row {
    help: "runs the scripts in parts that a segment has room for, gives up the oldest segment \
        between two of them where --clean-at says so and it pays, and has it back as the last spare",
    ..REUSE
};

const FROM: Row = Row {
    name: "dir",
    kind: Kind::Needed,
    help: "the folder of the log, which is not changed",
};

const TO: Row = Row {
    name: "to",
    kind: Kind::Needed,
    help: "a new folder, or one without segments",
};

const NEW: Row = Row {
    name: "to",
    kind: Kind::Needed,
    help: "the new folder, which nothing may have yet; it is made as TO.partial",
};

const VERIFY_DIR: Row = Row {
    name: "dir",
    kind: Kind::Needed,
    help: "the folder that is verified, which is not changed",
};

/// The formats of `stats` and of `verify` have one name.
const VERIFY_FORMAT: Row = Row {
    help: "lines, or one object of JSON, of a damaged folder too",
    ..STATS_FORMAT
};

const FOLLOWER: Row = Row {
    name: "to",
    kind: Kind::Needed,
    help: "the folder that follows: a new one, or one that an earlier run of this made",
};

const ONCE: Row = Row {
    name: "once",
    kind: Kind::Either("every"),
    help: "ends after one round",
};

const ROUNDS: Row = Row {
    name: "every",
    kind: Kind::Open(1, 86400),
    help: "how many seconds stand between two rounds [default: 1]",
};

pub const COMPACT: Row = Row {
    name: "compact",
    kind: Kind::Flag,
    help: "writes all pairs into a new store, whose pages are full, by the options below",
};

const AS_OF: Row = Row {
    name: "frame",
    kind: Kind::FrameOr("time"),
    help: "the number of the last frame that the new folder has",
};

const AS_OF_TIME: Row = Row {
    name: "time",
    kind: Kind::TextAlone("TIME", "frame"),
    help: "that frame is the last one that was noted at this time or before, as \
        2026-11-29T18:20:27Z, or in seconds since 1970",
};

const NOTED: Row = Row {
    name: "frames",
    kind: Kind::Beside("dir", "format"),
    help: "lists the frames of the folder that were noted, each with the time at which it was the last",
};

const LIMIT: Row = Row {
    name: "limit",
    kind: Kind::Number(1, 4096, "64"),
    help: "how many groups a turn takes at most",
};

const FLUSH_EVERY: Row = Row {
    name: "flush-every",
    kind: Kind::Number(1, 4096, "4"),
    help: "after how many turns a flush comes",
};

const CLEAN_AT: Row = Row {
    name: "clean-at",
    kind: Kind::Number(0, 64, "3"),
    help: "how many live segments there are where the oldest is given up, 0 for never; what is still \
        needed of it is written again, for which --segments has to suffice too",
};

const TRIES: Row = Row {
    name: "tries",
    kind: Kind::Number(1, 1000000000, "1000000000"),
    help: "how often a group is tried, and how many turns there are, at most",
};

const READERS: Row = Row {
    name: "readers",
    kind: Kind::Number(0, 64, "0"),
    help: "how many readers look keys up meanwhile, each in a thread of its own",
};

const FORGET: Row = Row {
    name: "forget",
    kind: Kind::Flag,
    help: "lets what is flushed of the history leave memory",
};

/// The store of a script.
const REPLAY: [Row; 12] = [
    WRITERS, PLACES, M, FRAME, SEGMENTS, CAPACITY, MEMORY, STORE_DIR, TAKE, RAW, REUSE, ROOM,
];

/// The store of a program, which is one writer.
const SERVE: [Row; 12] = [
    Row {
        kind: Kind::Number(1, 4096, "1024"),
        ..PLACES
    },
    Row {
        help: "the most pairs that a page holds [default: 32]",
        ..M
    },
    FRAME,
    SEGMENTS,
    Row {
        help: "how many bytes a segment has room for; in memory up to 16777216. With room for fewer \
            than eight frames more spares are kept [default: 16777216, or as many as the longest \
            segment of the folder has]",
        ..CAPACITY
    },
    MEMORY,
    STORE_DIR,
    TABLES,
    RAW,
    MOST_SEGMENTS,
    LOG,
    EVERY,
];

const RESTORE: [Row; 4] = [FROM, TO, AS_OF, AS_OF_TIME];

/// The limits of a store that is written anew.
const COPY: [Row; 7] = [
    FROM,
    NEW,
    COMPACT,
    Row {
        help: "of --compact: the most pairs that a page holds [default: 32]",
        ..M
    },
    Row {
        help: "of --compact: the most bytes that a frame has [default: 262144, or as many as a \
            segment has room for]",
        ..FRAME
    },
    Row {
        kind: Kind::Open(2, MOST_LEASES),
        help: "of --compact: how many segments there are at least [default: 4]",
        ..SEGMENTS
    },
    Row {
        help: "of --compact: how many bytes a segment has room for [default: 16777216]",
        ..CAPACITY
    },
];

/// The store of several writers, then how it is tended, and how often a group is tried.
const THREADS: [Row; 15] = [
    Row {
        kind: Kind::Number(1, 64, "2"),
        ..WRITERS
    },
    PLACES,
    M,
    FRAME,
    Row {
        kind: Kind::Number(2, MOST_LEASES, "32"),
        ..SEGMENTS
    },
    CAPACITY,
    STORE_DIR,
    LIMIT,
    FLUSH_EVERY,
    CLEAN_AT,
    TRIES,
    READERS,
    FORGET,
    REUSE_BETWEEN,
    Row {
        help: "runs the scripts in parts that a segment has room for, and makes room between two of \
            them where one spare is left: the oldest segment is given up where that pays, and else \
            one is added, up to so many; in memory up to 64 [default: no room is made]",
        ..ROOM
    },
];

/// A mode of the program: its name, what it does, its options in the order of the help, and a line
/// of its use.
pub struct Form {
    pub name: &'static str,
    pub about: &'static str,
    pub options: &'static [Row],
    pub example: &'static str,
}

/// All of them.
pub const FORMS: [Form; 14] = [
    Form {
        name: "replay",
        about: "Runs a script from standard input",
        options: &REPLAY,
        example: "Example: printf 'put 0 k v\\nflush\\n' | bwlog replay --dir store",
    },
    Form {
        name: "serve",
        about: "Answers each line of standard input, a request, by one line: for other programs",
        options: &SERVE,
        example: "Example: printf 'put k v\\nflush\\nget k\\n' | bwlog serve --dir store",
    },
    Form {
        name: "shell",
        about: "Answers each line of standard input, as a person types it: help lists the commands",
        options: &[SHELL_DIR],
        example: "Example: bwlog shell --dir store",
    },
    Form {
        name: "threads",
        about: "Runs the puts and deletes of standard input, each writer's in a thread of its own",
        options: &THREADS,
        example: "Example: printf 'put 0 k v\\nput 1 l w\\n' | bwlog threads --dir store",
    },
    Form {
        name: "scan",
        about: "Says what segments hold, one in hex on each line of standard input",
        options: &[SCAN_DIR],
        example: "Example: bwlog scan --dir store",
    },
    Form {
        name: "print",
        about: "Prints each header, frame and block of segments, up to the first fault",
        options: &[LOOK_DIR],
        example: "Example: bwlog print --dir store",
    },
    Form {
        name: "stats",
        about: "Counts what segments hold, and how much of each is still needed",
        options: &[LOOK_DIR, STATS_FORMAT, NOTED],
        example: "Example: bwlog stats --dir store",
    },
    Form {
        name: "picture",
        about: "Draws segments as an SVG",
        options: &[LOOK_DIR, ROOM_DRAWN],
        example: "Example: bwlog picture --dir store > store.svg",
    },
    Form {
        name: "verify",
        about: "Verifies a folder: its digests, and then what recovery says of it",
        options: &[VERIFY_DIR, VERIFY_FORMAT],
        example: "Example: bwlog verify --dir store",
    },
    Form {
        name: "copy",
        about: "Copies a folder, as it is or written anew",
        options: &COPY,
        example: "Example: bwlog copy --dir store --to copy --compact",
    },
    Form {
        name: "follow",
        about: "Keeps a folder up to date with another one, until it is stopped",
        options: &[FROM, FOLLOWER, ROUNDS, ONCE],
        example: "Example: bwlog follow --dir store --to second --every 5",
    },
    Form {
        name: "salvage",
        about: "Writes all that a damaged folder still has into a new store",
        options: &[FROM, NEW],
        example: "Example: bwlog salvage --dir store --to saved",
    },
    Form {
        name: "restore",
        about: "Makes a folder that holds a store as of an earlier frame",
        options: &RESTORE,
        example: "Example: bwlog restore --dir store --to older --frame 7",
    },
    Form {
        name: "upgrade",
        about: "Writes the pages of segments of format 1 again in format 2, and gives these up",
        options: &[UPGRADE_DIR],
        example: "Example: bwlog upgrade --dir store",
    },
];

/// What `--help` begins with. A text that was asked for is printed as any other that is no run.
pub const ABOUT: &str =
    "Keeps keys and values in a folder: put, get, list, import. Runs scripts over the page store, and \
    says what segments hold. (This text goes to standard error, and the exit status is 2.)";

/// The program's version, and that of the format of its segments.
pub const VERSION: &str = "0.1.0, format 2";

/// The version of the protocol of `serve`. It goes up if a request or an answer that stands
/// changes; a further request, or a further word after an answer, is no change.
pub const PROTOCOL: u32 = 1;

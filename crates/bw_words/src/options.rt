//! The command line, read by `clap`.

use crate::mode::{AsOf, Ends, LEASES, Manner, Mode, Options, Pace, Report, View};
use crate::people::{FORMS as OVER_KEYS, keys_in};
use crate::script::Reading;
use crate::table::{ABOUT, COMPACT, FORMS, Form, Kind, Row, VERSION};
use bw_codec::limits::{MAX_PAIRS, MIN_FRAME, MIN_PAIRS};
use bw_device::MAX_LEASES;
use bw_look::{Hearing, frame_in_folder};
use clap::error::ErrorKind;
use clap::{Arg, ArgAction, ArgMatches, Command, Error};
use std::alloc::{AllocError, Global};

/// What stands for the value of an option of this range, which is the range itself.
fn range_of(least: i64, most: i64) -> &'static str {
    match (least, most) {
        (0, 64) => "0..64",
        (1, 64) => "1..64",
        (2, 64) => "2..64",
        (2, 4096) => "2..4096",
        (4, 32) => "4..32",
        (1, 4096) => "1..4096",
        (1, 86_400) => "1..86400",
        (65_536, 262_144) => "65536..262144",
        (65_560, 16_777_216) => "65560..16777216",
        (65_560, 1_073_741_824) => "65560..1073741824",
        (1, 1_000_000_000) => "1..1000000000",
        _ => "NUMBER",
    }
}

fn with_range<'a>(option: Arg<'a>, least: i64, most: i64) -> Arg<'a> {
    option
        .value_name(range_of(least, most))
        .value_parser(clap::value_parser!(u32).range(least..=most))
}

/// Where segments may stand.
#[derive(Clone, Copy)]
enum Room {
    /// Wherever it is.
    Anywhere,
    /// In memory, in which they are smaller and fewer.
    Memory,
}

/// The greatest value of a number, if its segments stand here.
fn most_in(row: &Row, most: i64, room: Room) -> i64 {
    match (room, row.name) {
        (Room::Memory, "capacity") => most.min(i64::from(LARGE.capacity)),
        (Room::Memory, "segments" | "most-segments") => most.min(i64::from(LEASES)),
        _ => most,
    }
}

/// An option of a row, or a word without an option's name.
fn named<'a>(alloc: Global, row: &Row) -> Arg<'a> {
    let option = Arg::new(alloc, row.name).help(row.help);
    match row.kind {
        Kind::Word => option,
        Kind::Words | Kind::WordsOr(_) => option.num_args(1..),
        _ => option.long(row.name),
    }
}

/// One that takes a text.
fn text_of<'a>(option: Arg<'a>, kind: Kind) -> Arg<'a> {
    match kind {
        Kind::Folder => option.value_name("FOLDER"),
        Kind::Needed => option.value_name("FOLDER").required(true),
        Kind::Text(name) => option.value_name(name),
        Kind::Word | Kind::Words => option.required(true),
        Kind::Choice(names, default) => option.value_parser(names).default_value(default),
        _ => option,
    }
}

fn option_of<'a>(alloc: Global, row: &Row, room: Room) -> Result<Arg<'a>, AllocError> {
    let option = named(alloc, row);
    match row.kind {
        Kind::Number(least, most, default) => Ok(with_range(
            option,
            least,
            most_in(row, most, room),
        ).default_value(default)),
        Kind::Open(least, most) => Ok(with_range(option, least, most_in(row, most, room))),
        Kind::FrameOr(other) => Ok(
            option
                .value_name("NUMBER")
                .value_parser(clap::value_parser!(u64))
                .required_unless_present(other)?,
        ),
        Kind::TextAlone(name, other) => option.value_name(name).conflicts_with(other),
        Kind::TextBut(name, others) => option.value_name(name).conflicts_with_all(others),
        Kind::Beside(needed, other) => option
            .action(ArgAction::SetTrue)
            .requires_arg(needed)?
            .conflicts_with(other),
        Kind::Large(name) => Ok(
            option
                .value_name(name)
                .value_parser(clap::value_parser!(u64)),
        ),
        Kind::Flag => Ok(option.action(ArgAction::SetTrue)),
        Kind::Either(other) => option.action(ArgAction::SetTrue).conflicts_with(other),
        Kind::Alone(others) => option.action(ArgAction::SetTrue).conflicts_with_all(others),
        Kind::WordsOr(others) => option
            .required_unless_present_any(others)?
            .conflicts_with_all(others),
        kind => Ok(text_of(option, kind)),
    }
}

/// An option of a mode. If the mode has the option by which it makes a new store, the limits of a
/// store want that one.
fn option_in<'a>(alloc: Global, form: &Form, row: &Row, room: Room) -> Result<Arg<'a>, AllocError> {
    let option = option_of(alloc, row, room)?;
    match row.kind {
        Kind::Open(..) if form.name == "copy" => option.requires_arg(COMPACT.name),
        _ => Ok(option),
    }
}

fn form_of<'a>(alloc: Global, form: &Form, room: Room) -> Result<Command<'a>, AllocError> {
    let mut command = Command::new(alloc, form.name)
        .about(form.about)
        .after_help(form.example);
    for row in form.options {
        command = command.arg(option_in(alloc, form, row, room)?)?;
    }
    Ok(command)
}

/// The command with these modes too.
fn with_forms<'a>(
    alloc: Global,
    command: Command<'a>,
    forms: &[Form],
    room: Room,
) -> Result<Command<'a>, AllocError> {
    let mut command = command;
    for form in forms {
        command = command.subcommand(form_of(alloc, form, room)?)?;
    }
    Ok(command)
}

/// The command `bwlog` with its modes.
fn command_of<'a>(alloc: Global, room: Room) -> Result<Command<'a>, AllocError> {
    let command = Command::new(alloc, "bwlog")
        .about(ABOUT)
        .version(VERSION)
        .bin_name("bwlog")?
        .no_binary_name(true)
        .subcommand_required(true);
    let command = with_forms(alloc, command, &OVER_KEYS, room)?;
    with_forms(alloc, command, &FORMS, room)
}

/// The folder that was named.
fn dir_of<'a>(found: &ArgMatches<'a>) -> Option<&'a str> {
    text_in(found, "dir")
}

/// The text that was given to this option, or its default.
pub fn text_in<'a>(found: &ArgMatches<'a>, name: &str) -> Option<&'a str> {
    match found.get_raw(name) {
        Some(words) => words.first().copied(),
        None => None,
    }
}

/// The texts that were given for this name.
pub fn texts_in<'a>(
    alloc: Global,
    found: &ArgMatches<'a>,
    name: &str,
) -> Result<Vec<&'a str>, AllocError> {
    let mut texts = Vec::new(alloc);
    if let Some(words) = found.get_raw(name) {
        for word in words {
            texts.push(*word)?;
        }
    }
    Ok(texts)
}

/// How large pages and segments are if nothing is said of them.
#[derive(Clone, Copy)]
struct Size {
    m: u16,
    capacity: u32,
}

/// In a folder, and for another program.
const LARGE: Size = Size {
    m: MAX_PAIRS,
    capacity: 16_777_216,
};

/// For a script in memory, which somebody reads.
const SMALL: Size = Size {
    m: MIN_PAIRS,
    capacity: 262_168,
};

/// The size of a script's pages and segments.
fn size_of(found: &ArgMatches<'_>) -> Size {
    match dir_of(found) {
        Some(_) => LARGE,
        None => SMALL,
    }
}

/// The most bytes of a frame if nothing is said of them: in memory the fewest that are allowed.
fn frame_of(found: &ArgMatches<'_>, capacity: u32) -> u32 {
    match dir_of(found) {
        Some(_) => frame_in_folder(u64::from(capacity)),
        None => MIN_FRAME,
    }
}

/// The number that was given to this option, or its default; else this one.
fn number_in(found: &ArgMatches<'_>, name: &str, none: u32) -> u32 {
    found.get_one(name).unwrap_or(none)
}

/// What the words after `replay`, `serve` or `threads` say of a store; a program is one writer.
fn store_of(found: &ArgMatches<'_>, size: Size) -> bw_home::Options {
    let m: Option<u16> = found.get_one("m");
    let capacity = number_in(found, "capacity", size.capacity);
    bw_home::Options {
        writers: number_in(found, "writers", 1) as usize,
        queue_groups: number_in(found, "places", 0) as usize,
        pairs_a_page: m.unwrap_or(size.m),
        frame_bytes: number_in(found, "frame", frame_of(found, capacity)),
        segments: number_in(found, "segments", 0),
        capacity: u64::from(capacity),
        page_bytes: found.get_one("memory").unwrap_or(u64::MAX),
    }
}

/// What they say of events.
fn hearing_of(found: &ArgMatches<'_>) -> Hearing {
    Hearing {
        all: found.get_flag("log"),
        every: number_in(found, "every", 0),
    }
}

/// All that they say; up to so many segments are added if they do not say how many.
fn found_of<'a>(found: &ArgMatches<'a>, size: Size, most: u32) -> Options<'a> {
    Options {
        store: store_of(found, size),
        dir: dir_of(found),
        reuse: found.get_flag("reuse"),
        reading: if found.get_flag("raw") {
            Reading::Raw
        } else {
            Reading::Words
        },
        most: number_in(found, "most-segments", most),
        gives_m: found.get_raw("m").is_some(),
        gives_f: found.get_raw("frame").is_some(),
        hearing: hearing_of(found),
    }
}

/// What the words after `shell` say: the store is as large as one that is served.
fn shell_of<'a>(found: &ArgMatches<'a>) -> Options<'a> {
    let other = bw_home::Options::default();
    Options {
        store: bw_home::Options {
            queue_groups: 1_024,
            pairs_a_page: LARGE.m,
            frame_bytes: frame_in_folder(u64::from(LARGE.capacity)),
            capacity: u64::from(LARGE.capacity),
            ..other
        },
        dir: dir_of(found),
        reuse: false,
        reading: Reading::Words,
        most: MAX_LEASES,
        gives_m: false,
        gives_f: false,
        hearing: Hearing::NOTHING,
    }
}

/// What the words after `threads` say of its writers.
fn pace_of<'a>(found: &ArgMatches<'a>) -> Pace {
    Pace {
        limit: found.get_one("limit").unwrap_or(0),
        flush_every: found.get_one("flush-every").unwrap_or(0),
        clean_at: found.get_one("clean-at").unwrap_or(0),
        tries: found.get_one("tries").unwrap_or(0),
        forgets: found.get_flag("forget"),
        readers: found.get_one("readers").unwrap_or(0),
    }
}

/// In which manner a script is run.
fn manner_of<'a>(found: &ArgMatches<'a>) -> Manner {
    if found.get_flag("take") {
        Manner::Taking
    } else {
        Manner::Script
    }
}

/// In which manner a program is served.
fn served_in<'a>(found: &ArgMatches<'a>) -> Manner {
    if found.get_flag("tables") {
        Manner::Tables
    } else {
        Manner::Requests
    }
}

/// The two folders that were named.
fn ends_of<'a>(found: &ArgMatches<'a>) -> Ends<'a> {
    Ends {
        from: dir_of(found).unwrap_or(""),
        to: text_in(found, "to").unwrap_or(""),
    }
}

/// The frame, or the time, as of which a folder is restored.
fn as_of<'a>(found: &ArgMatches<'a>) -> AsOf<'a> {
    match text_in(found, "time") {
        Some(text) => AsOf::Time(text),
        None => AsOf::Frame(found.get_one("frame").unwrap_or(0)),
    }
}

/// What the words after `copy` say. The new store of `--compact` has one writer.
fn copy_of<'a>(found: &ArgMatches<'a>) -> Mode<'a> {
    if !found.get_flag("compact") {
        return Mode::Copy(ends_of(found));
    }
    let m: Option<u16> = found.get_one("m");
    let other = bw_home::Options::default();
    let capacity = number_in(found, "capacity", LARGE.capacity);
    Mode::Compact(
        ends_of(found),
        bw_home::Options {
            pairs_a_page: m.unwrap_or(other.pairs_a_page),
            frame_bytes: number_in(found, "frame", frame_in_folder(u64::from(capacity))),
            segments: number_in(found, "segments", other.segments),
            capacity: u64::from(capacity),
            ..other
        },
    )
}

/// How it is said what comes of a folder.
fn report_of(found: &ArgMatches<'_>) -> Report {
    match text_in(found, "format") {
        Some("json") => Report::Json,
        _ => Report::Lines,
    }
}

/// What the words after `follow` say.
fn follow_of<'a>(found: &ArgMatches<'a>) -> Mode<'a> {
    let every = if found.get_flag("once") {
        None
    } else {
        Some(number_in(found, "every", 1))
    };
    Mode::Follow(ends_of(found), every)
}

/// The mode that verifies, copies or saves a folder, with what its words say.
fn rescue_in<'a>(matches: &ArgMatches<'a>) -> Option<Mode<'a>> {
    if let Some(found) = matches.subcommand_matches("verify") {
        return Some(Mode::Verify(dir_of(found).unwrap_or(""), report_of(found)));
    }
    if let Some(found) = matches.subcommand_matches("copy") {
        return Some(copy_of(found));
    }
    if let Some(found) = matches.subcommand_matches("follow") {
        return Some(follow_of(found));
    }
    if let Some(found) = matches.subcommand_matches("salvage") {
        return Some(Mode::Salvage(ends_of(found)));
    }
    match matches.subcommand_matches("restore") {
        Some(found) => Some(Mode::Restore(ends_of(found), as_of(found))),
        None => None,
    }
}

/// The mode that looks at segments, with what its words say.
fn look_in<'a>(matches: &ArgMatches<'a>) -> Mode<'a> {
    if let Some(found) = matches.subcommand_matches("print") {
        return Mode::Look(View::Print, dir_of(found));
    }
    if let Some(found) = matches.subcommand_matches("stats") {
        let view = match text_in(found, "format") {
            _ if found.get_flag("frames") => View::Frames,
            Some("json") => View::Numbers,
            _ => View::Stats,
        };
        return Mode::Look(view, dir_of(found));
    }
    if let Some(found) = matches.subcommand_matches("picture") {
        let none = dir_of(found).map_or(0, |_| LARGE.capacity);
        let room = u64::from(number_in(found, "capacity", none));
        return Mode::Look(View::Picture(room), dir_of(found));
    }
    match matches.subcommand_matches("scan") {
        Some(found) => Mode::Scan(dir_of(found)),
        None => Mode::Scan(None),
    }
}

/// The mode that was found, with what its words say.
fn mode_in<'a>(alloc: Global, matches: &ArgMatches<'a>) -> Result<Mode<'a>, AllocError> {
    match keys_in(alloc, matches)? {
        Some(mode) => Ok(mode),
        None => Ok(store_in(matches)),
    }
}

/// The mode over a store, or over its segments, that was found.
fn store_in<'a>(matches: &ArgMatches<'a>) -> Mode<'a> {
    if let Some(found) = matches.subcommand_matches("replay") {
        return Mode::Lines(found_of(found, size_of(found), 0), manner_of(found));
    }
    if let Some(found) = matches.subcommand_matches("serve") {
        let most = dir_of(found).map_or(LEASES, |_| MAX_LEASES);
        return Mode::Lines(found_of(found, LARGE, most), served_in(found));
    }
    if let Some(found) = matches.subcommand_matches("shell") {
        return Mode::Lines(shell_of(found), Manner::Shell);
    }
    if let Some(found) = matches.subcommand_matches("threads") {
        return Mode::Threads(found_of(found, size_of(found), 0), pace_of(found));
    }
    if let Some(found) = matches.subcommand_matches("upgrade") {
        return Mode::Upgrade(dir_of(found));
    }
    match rescue_in(matches) {
        Some(mode) => mode,
        None => look_in(matches),
    }
}

/// What the words after the program's name ask for. What they do not give as a parse, help among
/// it, is clap's error, whose text is for the user. Segments in memory have narrower ranges.
pub fn mode_of<'a>(alloc: Global, words: &'a [&'a str]) -> Result<Mode<'a>, Error> {
    let matches = command_of(alloc, Room::Anywhere)?.try_get_matches_from(words)?;
    let mode = mode_in(alloc, &matches)?;
    if mode.is_in_memory() {
        let _ = command_of(alloc, Room::Memory)?.try_get_matches_from(words)?;
    }
    Ok(mode)
}

/// Whether clap had too little memory.
pub fn is_memory(error: &Error) -> bool {
    error.kind() == ErrorKind::OutOfMemory
}

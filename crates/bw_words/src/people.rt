//! The words of the modes over the keys of a folder, and the task that they ask for.

use crate::mode::Mode;
use crate::options::{text_in, texts_in};
use crate::table::{CAPACITY, Form, Kind, MEMORY, Row};
use bw_keys::{Effect, Import, Listed, Parts, Range, Style, TablesTask, Task};
use bw_pairs::{Letters, Source, Spelling};
use clap::ArgMatches;
use std::alloc::{AllocError, Global};

const KEY: Row = Row {
    name: "KEY",
    kind: Kind::Word,
    help: "1 to 128 bytes, in a table to 124; 0x and hex digits stand for any bytes",
};

const KEY_WORDS: Row = Row {
    kind: Kind::Words,
    help: "one or more, of 1 to 128 bytes, in a table to 124; 0x and hex digits stand for any bytes",
    ..KEY
};

const KEYS_OR: Row = Row {
    kind: Kind::WordsOr(&["prefix", "from", "to"]),
    help: "one or more, of 1 to 128 bytes, in a table to 124, in place of --prefix, --from and --to; \
        0x and hex digits stand for any bytes",
    ..KEY
};

const VALUE: Row = Row {
    name: "VALUE",
    kind: Kind::Word,
    help: "0 to 512 bytes, in a table to 16777216, in hex likewise; - for all bytes of standard input",
};

const NEW_DIR: Row = Row {
    name: "dir",
    kind: Kind::Needed,
    help: "the folder of the store, which is made where it is missing",
};

const DIR: Row = Row {
    name: "dir",
    kind: Kind::Needed,
    help: "the folder of the store",
};

const TABLE: Row = Row {
    name: "table",
    kind: Kind::Text("NAME"),
    help: "the table that is meant, by its name of 1 to 127 bytes, in hex likewise [default: the plain \
        pairs of a folder without tables]",
};

const LISTED_TABLE: Row = Row {
    kind: Kind::TextBut("NAME", &["reverse", "last"]),
    ..TABLE
};

const NEW_TABLE: Row = Row {
    kind: Kind::TextBut("NAME", &["dry-run", "named"]),
    help: "the table that is meant, by its name of 1 to 127 bytes, in hex likewise, which is made where \
        it is missing [default: the plain pairs of a folder without tables]",
    ..TABLE
};

const OUT_TABLE: Row = Row {
    kind: Kind::TextBut("NAME", &["named"]),
    ..TABLE
};

const NAMED_IN: Row = Row {
    name: "named",
    kind: Kind::Alone(&["dry-run", "delete", "raw"]),
    help: "each database of a dump goes into the table of its name, which is made where it is missing",
};

const NAMED_OUT: Row = Row {
    name: "named",
    kind: Kind::Alone(&["from", "to", "prefix"]),
    help: "all tables, each as a database of its name in the dump",
};

const CREATE: Row = Row {
    name: "create",
    kind: Kind::TextAlone("NAME", "drop"),
    help: "makes a table of this name, of 1 to 127 bytes, and the folder where it is missing",
};

const DROP: Row = Row {
    name: "drop",
    kind: Kind::Text("NAME"),
    help: "drops the table of this name with all its keys",
};

const RAW: Row = Row {
    name: "raw",
    kind: Kind::Either("hex"),
    help: "writes all bytes as they are",
};

const LISTED_RAW: Row = Row {
    kind: Kind::Alone(&["hex", "format"]),
    ..RAW
};

const RAW_WORDS: Row = Row {
    name: "raw",
    kind: Kind::Flag,
    help: "takes KEY and VALUE as their own bytes, also where they begin with 0x",
};

const RAW_LINES: Row = Row {
    name: "raw",
    kind: Kind::Either("format"),
    help: "a line for each pair, whose key and value are their own bytes, also where they begin \
        with 0x",
};

const HEX: Row = Row {
    name: "hex",
    kind: Kind::Flag,
    help: "writes all bytes in hex [default: those that are no text]",
};

const LISTED_HEX: Row = Row {
    kind: Kind::Either("format"),
    ..HEX
};

const LEAST: Row = Row {
    name: "from",
    kind: Kind::Text("KEY"),
    help: "the least key [default: the first]",
};

const ABOVE: Row = Row {
    name: "to",
    kind: Kind::Text("KEY"),
    help: "the key before which it ends [default: after the last]",
};

const PREFIX: Row = Row {
    name: "prefix",
    kind: Kind::Text("BYTES"),
    help: "what each key begins with, 0 to 128 bytes [default: anything]",
};

const LIMIT: Row = Row {
    name: "limit",
    kind: Kind::Large("NUMBER"),
    help: "how many pairs at most, 0 to 2^64 - 1 [default: all]",
};

const LAST: Row = Row {
    name: "last",
    kind: Kind::Large("NUMBER"),
    help: "only so many pairs with the greatest keys [default: all]",
};

const ONLY_KEYS: Row = Row {
    name: "keys",
    kind: Kind::Either("values"),
    help: "only the keys, one a line",
};

const ONLY_VALUES: Row = Row {
    name: "values",
    kind: Kind::Flag,
    help: "only the values, one a line",
};

const REVERSE: Row = Row {
    name: "reverse",
    kind: Kind::Flag,
    help: "the greatest key comes first",
};

const IN_FORMAT: Row = Row {
    name: "format",
    kind: Kind::Choice(&["lines", "json", "csv", "dump"], "lines"),
    help: "a line for each pair: key, tab and value, an object of JSON, or CSV; or a dump, as mdb_dump \
        and db_dump write it",
};

const OUT_FORMAT: Row = Row {
    name: "format",
    kind: Kind::Choice(&["lines", "json", "csv", "dump", "print"], "lines"),
    help: "a line for each pair: key, tab and value, an object of JSON, or CSV; or a dump for mdb_load \
        and db_load, in hex or with printable bytes as they are",
};

const LIST_FORMAT: Row = Row {
    name: "format",
    kind: Kind::Choice(&["lines", "json", "csv"], "lines"),
    help: "a line for each pair: key, tab and value, an object of JSON, or CSV",
};

const SKIP: Row = Row {
    name: "skip",
    kind: Kind::Flag,
    help: "reads over what is no pair, and counts it [default: ends there]",
};

const DELETE: Row = Row {
    name: "delete",
    kind: Kind::Either("keep-old"),
    help: "deletes the keys that are read; a line may be a key alone then",
};

const KEEP_OLD: Row = Row {
    name: "keep-old",
    kind: Kind::Flag,
    help: "only adds pairs whose keys are not there yet",
};

const DRY_RUN: Row = Row {
    name: "dry-run",
    kind: Kind::Flag,
    help: "says how many keys are new, how many have another value there, and how many pairs are \
        there already, and changes nothing",
};

const MAPSIZE: Row = Row {
    name: "mapsize",
    kind: Kind::Large("BYTES"),
    help: "the size of the map in the header of a dump, which mdb_load wants above 1 MiB, and \
        db_load refuses [default: none]",
};

const ROOM: Row = Row {
    help: "how many bytes a new segment has room for [default: 16777216, or as many as the longest \
        segment of the folder has]",
    ..CAPACITY
};

/// These modes.
pub const FORMS: [Form; 8] = [
    Form {
        name: "put",
        about: "Puts a value at a key, and answers once it is durable",
        options: &[KEY, VALUE, NEW_DIR, TABLE, RAW_WORDS],
        example: "Example: bwlog put --dir store greeting hello",
    },
    Form {
        name: "get",
        about: "Prints the value of each key, a line each; where one has none, nothing, with exit status 1",
        options: &[KEY_WORDS, DIR, TABLE, RAW, HEX],
        example: "Example: bwlog get --dir store greeting",
    },
    Form {
        name: "del",
        about: "Deletes keys, as far as they are there, and answers once that is durable",
        options: &[KEYS_OR, DIR, TABLE, LEAST, ABOVE, PREFIX],
        example: "Example: bwlog del --dir store greeting",
    },
    Form {
        name: "list",
        about: "Prints each key and its value, with a tab between",
        options: &[
            DIR,
            LISTED_TABLE,
            LEAST,
            ABOVE,
            PREFIX,
            LIMIT,
            LAST,
            REVERSE,
            ONLY_KEYS,
            ONLY_VALUES,
            LIST_FORMAT,
            LISTED_RAW,
            LISTED_HEX,
        ],
        example: "Example: bwlog list --dir store --prefix user: --limit 10",
    },
    Form {
        name: "count",
        about: "Prints how many keys there are",
        options: &[DIR, TABLE, LEAST, ABOVE, PREFIX],
        example: "Example: bwlog count --dir store --prefix user:",
    },
    Form {
        name: "import",
        about: "Puts all pairs of standard input, and answers once they are durable",
        options: &[
            NEW_DIR, NEW_TABLE, NAMED_IN, IN_FORMAT, RAW_LINES, SKIP, DELETE, KEEP_OLD, DRY_RUN,
            ROOM, MEMORY,
        ],
        example: "Example: mdb_dump other | bwlog import --dir store --format dump",
    },
    Form {
        name: "export",
        about: "Writes all pairs to standard output, for import or for other stores",
        options: &[
            DIR, OUT_TABLE, NAMED_OUT, LEAST, ABOVE, PREFIX, OUT_FORMAT, MAPSIZE,
        ],
        example: "Example: bwlog export --dir store --format dump | db_load other.db",
    },
    Form {
        name: "tables",
        about: "Prints the names of the tables, one a line, or makes or drops one",
        options: &[NEW_DIR, CREATE, DROP],
        example: "Example: bwlog tables --dir store --create users",
    },
];

/// How keys and values are to be written.
fn spelling_in(found: &ArgMatches<'_>) -> Spelling {
    if found.get_flag("raw") {
        Spelling::Raw
    } else if found.get_flag("hex") {
        Spelling::Hex
    } else {
        Spelling::Words
    }
}

/// A word that has to be given.
fn word_in<'a>(found: &ArgMatches<'a>, name: &str) -> &'a str {
    text_in(found, name).unwrap_or("")
}

/// Which keys are meant.
fn range_in<'a>(found: &ArgMatches<'a>) -> Range<'a> {
    Range {
        from: text_in(found, "from"),
        to: text_in(found, "to"),
        prefix: text_in(found, "prefix"),
    }
}

/// What is listed of each pair.
fn parts_in(found: &ArgMatches<'_>) -> Parts {
    if found.get_flag("keys") {
        Parts::Keys
    } else if found.get_flag("values") {
        Parts::Values
    } else {
        Parts::Both
    }
}

/// In which style pairs are listed.
fn listed_style_in(found: &ArgMatches<'_>) -> Style {
    let parts = parts_in(found);
    let spelling = spelling_in(found);
    match (word_in(found, "format"), parts) {
        ("json", parts) => Style::Json(parts),
        ("csv", parts) => Style::Csv(parts),
        (_, Parts::Keys) => Style::Keys(spelling),
        (_, Parts::Values) => Style::Values(spelling),
        (_, Parts::Both) => Style::Tabs(spelling),
    }
}

/// What the words after `list` say.
fn listed_in<'a>(found: &ArgMatches<'a>) -> Listed<'a> {
    Listed {
        range: range_in(found),
        limit: found.get_one("limit").unwrap_or(u64::MAX),
        last: found.get_one("last").unwrap_or(u64::MAX),
        reverse: found.get_flag("reverse"),
        style: listed_style_in(found),
    }
}

/// In which style pairs are exported.
fn style_in(found: &ArgMatches<'_>) -> Style {
    let mapsize: Option<u64> = found.get_one("mapsize");
    match word_in(found, "format") {
        "dump" => Style::Dump(Letters::Hex, mapsize),
        "print" => Style::Dump(Letters::Print, mapsize),
        "json" => Style::Json(Parts::Both),
        "csv" => Style::Csv(Parts::Both),
        _ => Style::Tabs(Spelling::Words),
    }
}

/// How the pairs of an import are spelled.
fn source_in(found: &ArgMatches<'_>) -> Source {
    if found.get_flag("raw") {
        return Source::Raw;
    }
    match word_in(found, "format") {
        "dump" => Source::Dump,
        "json" => Source::Json,
        "csv" => Source::Csv,
        _ => Source::Words,
    }
}

/// What the pairs of an import do.
fn effect_in(found: &ArgMatches<'_>) -> Effect {
    if found.get_flag("delete") {
        Effect::Delete
    } else if found.get_flag("keep-old") {
        Effect::Add
    } else {
        Effect::Put
    }
}

/// How the pairs of an import go in.
fn import_in(found: &ArgMatches<'_>) -> Import {
    Import {
        source: source_in(found),
        skips: found.get_flag("skip"),
        capacity: found.get_one("capacity"),
        memory: found.get_one("memory"),
        effect: effect_in(found),
        is_dry: found.get_flag("dry-run"),
    }
}

/// A task over the folder that was named, or over the table.
fn keys<'a>(found: &ArgMatches<'a>, task: Task<'a>) -> Mode<'a> {
    let dir = word_in(found, "dir");
    match text_in(found, "table") {
        Some(name) => Mode::Named(dir, TablesTask::Table(name, task)),
        None => Mode::Keys(dir, task),
    }
}

/// What the words after `import` say.
fn imported_in<'a>(found: &ArgMatches<'a>) -> Mode<'a> {
    let wanted = import_in(found);
    if found.get_flag("named") {
        return Mode::Named(word_in(found, "dir"), TablesTask::Import(wanted));
    }
    keys(found, Task::Import(wanted))
}

/// What the words after `export` say.
fn exported_in<'a>(found: &ArgMatches<'a>) -> Mode<'a> {
    let style = style_in(found);
    if found.get_flag("named") {
        return Mode::Named(word_in(found, "dir"), TablesTask::Export(style));
    }
    keys(found, Task::Export(range_in(found), style))
}

/// What the words after `tables` say.
fn tables_in<'a>(found: &ArgMatches<'a>) -> Mode<'a> {
    let task = match (text_in(found, "create"), text_in(found, "drop")) {
        (Some(name), _) => TablesTask::Create(name),
        (None, Some(name)) => TablesTask::Drop(name),
        (None, None) => TablesTask::Names,
    };
    Mode::Named(word_in(found, "dir"), task)
}

/// What is deleted: the keys that were named, or all of a stretch.
fn del_in<'a>(alloc: Global, found: &ArgMatches<'a>) -> Result<Task<'a>, AllocError> {
    let words = texts_in(alloc, found, "KEY")?;
    if words.is_empty() {
        return Ok(Task::DelAll(range_in(found)));
    }
    Ok(Task::Del(words))
}

/// The mode that gets or deletes keys, if it was found.
fn some_in<'a>(alloc: Global, matches: &ArgMatches<'a>) -> Result<Option<Mode<'a>>, AllocError> {
    if let Some(found) = matches.subcommand_matches("get") {
        let words = texts_in(alloc, found, "KEY")?;
        return Ok(Some(keys(found, Task::Get(words, spelling_in(found)))));
    }
    match matches.subcommand_matches("del") {
        Some(found) => Ok(Some(keys(found, del_in(alloc, found)?))),
        None => Ok(None),
    }
}

/// What the words after `put` say.
fn put_in<'a>(found: &ArgMatches<'a>) -> Task<'a> {
    Task::Put(
        word_in(found, "KEY"),
        word_in(found, "VALUE"),
        found.get_flag("raw"),
    )
}

/// The mode over the keys of a folder, if one was found.
pub fn keys_in<'a>(
    alloc: Global,
    matches: &ArgMatches<'a>,
) -> Result<Option<Mode<'a>>, AllocError> {
    if let Some(found) = matches.subcommand_matches("put") {
        return Ok(Some(keys(found, put_in(found))));
    }
    if let Some(found) = matches.subcommand_matches("list") {
        return Ok(Some(keys(found, Task::List(listed_in(found)))));
    }
    if let Some(found) = matches.subcommand_matches("count") {
        return Ok(Some(keys(found, Task::Count(range_in(found)))));
    }
    if let Some(found) = matches.subcommand_matches("import") {
        return Ok(Some(imported_in(found)));
    }
    if let Some(found) = matches.subcommand_matches("export") {
        return Ok(Some(exported_in(found)));
    }
    if let Some(found) = matches.subcommand_matches("tables") {
        return Ok(Some(tables_in(found)));
    }
    some_in(alloc, matches)
}

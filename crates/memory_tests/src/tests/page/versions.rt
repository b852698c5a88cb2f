//! Publications and readers.

ghost use Rattle.std.specs.Prelude.{◌≡◌, [], IfOk, IfSome};
ghost use mathlib.Core.List.{IsPrefix};
ghost use Rattle.bw_versions.specs.Batches.{entries_of};

use bw_codec::Key;
use bw_history::{Entry, PackedEntry};
use bw_page::Leaves;
use bw_versions::{Batch, Board, Publisher, ReadFault, Reader, Unpublished, Versions};
use std::alloc::{AllocError, Global};
use std::sync::Wait;
use std::thread::Threads;
use test_kit::marks::{begin, begin_without, end};
use test_kit::refusals::{Ask, Row, Try, asked_again, refused_then, tried, was_refused, wrong_row};
use test_kit::vectors::{are_shown, put, shows};

/// One call that may be refused.
#[derive(Drop)]
enum Call {
    /// A group's first record, as a history keeps it.
    Pack,
    NewBoard,
    /// Five entries on a board, which split its page.
    OnBoard,
    OpenPublisher,
    /// A batch, by a publisher.
    Publish,
    /// What was refused, by the next call.
    CatchUp,
    ReaderOfPublisher,
    OpenVersions,
    /// A history, by versions.
    PublishUpTo,
    ReaderOfVersions,
    /// A reader copies a page.
    Page,
    /// The pairs that a reader finds.
    Stretch,
}

/// Page 1 without any pair.
fn start(alloc: Global) -> Result<Leaves, AllocError>
    ensures { IfOk result (λ l. l.evicted ≡ []) }
{
    Leaves::one_empty(alloc, 4)
}

/// One writer's put of this letter, without a value.
fn entry(alloc: Global, letter: u8) -> Option<PackedEntry> {
    match put(&[letter], b"") {
        Some(item) => PackedEntry::of(alloc, 0, false, &item).ok(),
        None => None,
    }
}

/// One writer's put of each of these letters, without a value.
pub(super) fn entries(alloc: Global, letters: &[u8]) -> Option<Vec<PackedEntry>> {
    let mut entries = Vec::new(alloc);
    for letter in letters {
        let Some(entry) = entry(alloc, *letter) else {
            return None;
        };
        if entries.push(entry).is_err() {
            return None;
        }
    }
    Some(entries)
}

/// Whether a board has this page, and so many.
fn has_page(board: &Board, text: &[u8], count: u32) -> bool {
    match board.leaves().page(1) {
        Some(leaf) => shows(leaf, text) && board.leaves().count() == count,
        None => false,
    }
}

fn packs(alloc: Global) -> Option<Try> {
    let told = Entry {
        writer: 3,
        more: true,
        item: put(b"k", b"v")?,
    };
    begin(alloc);
    let made = PackedEntry::of(alloc, 3, true, &told.item);
    let refused = end(alloc);
    match made {
        Ok(packed) => tried(true, refused, packed.entry() == told),
        Err(_) => tried(false, refused, true),
    }
}

fn makes_board(alloc: Global, start: &Leaves) -> Option<Try>
    requires { start.now.evicted ≡ [] }
{
    begin(alloc);
    let made = Board::new(alloc, start);
    let refused = end(alloc);
    match made {
        Ok(board) => tried(true, refused, has_page(&board, b":", 1)),
        Err(_) => tried(false, refused, true),
    }
}

fn publishes_on(alloc: Global, board: &mut Board, entries: &[PackedEntry]) -> Option<Try> {
    begin(alloc);
    let went = board.publish(entries).is_ok();
    let refused = end(alloc);
    let is_left = if went {
        has_page(board, b": a= b=", 2)
    } else {
        has_page(board, b":", 1)
    };
    tried(went, refused, is_left)
}

/// Five entries, and once more if they were refused.
fn publishes_again(alloc: Global, board: &mut Board) -> Option<Try> {
    let Some(entries) = entries(alloc, b"abcde") else {
        return None;
    };
    let first = publishes_on(alloc, board, entries.as_slice());
    if was_refused(first) {
        return refused_then(publishes_on(alloc, board, entries.as_slice()));
    }
    first
}

/// Publishes five entries on a new board, and once more if they were refused.
fn is_on_board(alloc: Global, start: &Leaves) -> Option<Try>
    requires { start.now.evicted ≡ [] }
{
    match Board::new(alloc, start) {
        Ok(mut board) => publishes_again(alloc, &mut board),
        Err(_) => None,
    }
}

/// A board that is made, or five entries on one.
fn board_goes(alloc: Global, is_new: bool) -> Option<Try> {
    match start(alloc) {
        Ok(start) if is_new => makes_board(alloc, &start),
        Ok(start) => is_on_board(alloc, &start),
        Err(_) => None,
    }
}

/// Whether a reader sees a key, by itself and as the first from it on.
fn sees(reader: &mut Reader, key: &[u8]) -> Option<bool>
    ensures { reader.new.book ≡ reader.old.book }
{
    let Ok(key) = Key::new(key) else {
        return None;
    };
    let (Ok(found), Ok(first)) = (reader.get(&key), reader.next_at(&key)) else {
        return None;
    };
    let is_first = match first {
        Some((at, _)) => at.as_slice() == key.as_slice(),
        None => false,
    };
    if found.is_some() == is_first {
        Some(is_first)
    } else {
        None
    }
}

/// Three puts as a batch, after page 1.
fn batch(alloc: Global) -> Option<Batch> {
    let (Some(entries), Ok(start)) = (entries(alloc, b"abc"), start(alloc)) else {
        return None;
    };
    begin_without(alloc);
    let batch = Batch::new(Some(start), entries);
    if end(alloc) { None } else { Some(batch) }
}

/// What was entered is published.
fn caught_up<R: Wait>(rt: &R, publisher: &mut Publisher) -> Result<(), Unpublished> {
    match publisher.catch_up(rt) {
        Ok(()) => Ok(()),
        Err(_) => Err(Unpublished::Entered),
    }
}

/// One try of a batch, or of what was entered: if it is refused, the reader sees nothing yet.
/// Whether it went, and the batch if it came back.
fn publishes<R: Wait>(
    rt: &R,
    alloc: Global,
    publisher: &mut Publisher,
    reader: &mut Reader,
    batch: Option<Batch>,
) -> (Option<Try>, Option<Batch>) {
    begin(alloc);
    let answer = match batch {
        Some(batch) => publisher.publish(rt, batch),
        None => caught_up(rt, publisher),
    };
    let refused = end(alloc);
    let seen = sees(reader, b"c");
    match answer {
        Ok(()) => (tried(true, refused, seen == Some(true)), None),
        Err(Unpublished::Entered) => (tried(false, refused, seen == Some(false)), None),
        Err(Unpublished::Back(batch)) => {
            (tried(false, refused, seen == Some(false)), Some(batch))
        }
    }
}

/// The batch is published; if it was refused, by the next call, with the batch if it came back.
fn publishes_batch<R: Wait>(
    rt: &R,
    alloc: Global,
    publisher: &mut Publisher,
    reader: &mut Reader,
    given: Batch,
) -> Option<Try> {
    let (first, back) = publishes(rt, alloc, publisher, reader, Some(given));
    if was_refused(first) {
        return refused_then(publishes(rt, alloc, publisher, reader, back).0);
    }
    // What is level is not published again.
    let idle = publishes(rt, alloc, publisher, reader, None).0;
    if first == Some(Try::Went) {
        idle
    } else {
        first
    }
}

fn is_published<R: Wait>(rt: &R, alloc: Global, publisher: &mut Publisher) -> Option<Try> {
    let Ok(mut reader) = publisher.reader() else {
        return None;
    };
    match batch(alloc) {
        Some(given) => publishes_batch(rt, alloc, publisher, &mut reader, given),
        None => None,
    }
}

/// How it went that a reader was made, which sees nothing yet.
fn is_new(made: Result<Reader, ReadFault>, refused: bool) -> Option<Try> {
    match made {
        Ok(mut reader) => tried(true, refused, sees(&mut reader, b"c") == Some(false)),
        Err(fault) => tried(false, refused, fault == ReadFault::NoMemory),
    }
}

/// What readers are made of.
trait Source {
    fn a_reader(&mut self) -> Result<Reader, ReadFault>;
}

impl Source for Publisher {
    fn a_reader(&mut self) -> Result<Reader, ReadFault> {
        self.reader()
    }
}

impl Source for Versions {
    fn a_reader(&mut self) -> Result<Reader, ReadFault> {
        self.reader()
    }
}

/// One try of a reader.
fn makes_reader<S: Source>(alloc: Global, source: &mut S) -> Option<Try> {
    begin(alloc);
    let made = source.a_reader();
    is_new(made, end(alloc))
}

/// A place is not used up by a reader that was refused: there is only one.
fn is_reader_made<S: Source>(alloc: Global, source: &mut S) -> Option<Try> {
    let first = makes_reader(alloc, source);
    if was_refused(first) {
        return refused_then(makes_reader(alloc, source));
    }
    first
}

fn with_publisher<R: AllocGlobal + Wait>(rt: &R, call: &Call) -> Option<Try> {
    let alloc = rt.alloc();
    let mut publisher = Publisher::open(rt, alloc, 1).ok()?;
    let went = match call {
        Call::ReaderOfPublisher => is_reader_made(alloc, &mut publisher),
        _ => is_published(rt, alloc, &mut publisher),
    };
    begin_without(alloc);
    let _news = publisher.news();
    publisher.shut(rt);
    if end(alloc) { None } else { went }
}

/// One try of a publisher that is made.
fn opens_publisher<R: AllocGlobal + Wait>(rt: &R) -> Option<Try> {
    let alloc = rt.alloc();
    begin(alloc);
    let went = match Publisher::open(rt, alloc, 2) {
        Ok(publisher) => {
            publisher.shut(rt);
            true
        }
        Err(_) => false,
    };
    tried(went, end(alloc), true)
}

/// One try of versions of this page.
fn opens_versions<R: Wait>(rt: &R, alloc: Global, start: Leaves) -> Option<Try>
    requires { start.evicted ≡ [] }
{
    begin(alloc);
    let went = match Versions::open(rt, alloc, 2, start) {
        Ok(versions) => {
            versions.shut(rt);
            true
        }
        Err(_) => false,
    };
    tried(went, end(alloc), true)
}

fn opens<R: AllocGlobal + Wait>(rt: &R) -> Option<Try> {
    match start(rt.alloc()) {
        Ok(start) => opens_versions(rt, rt.alloc(), start),
        Err(_) => None,
    }
}

/// Versions of one empty page, and a history of which they publish a beginning.
struct Stand {
    versions: Versions,
    history: Vec<PackedEntry>,
}

/// One try of the whole history: if it is refused, the reader sees nothing yet.
fn publishes_up_to<R: Wait>(
    rt: &R,
    alloc: Global,
    stand: &mut Stand,
    reader: &mut Reader,
) -> Option<Try>
    requires { IsPrefix (entries_of stand.old.versions.entered) stand.old.history.items }
    ensures begins { IsPrefix (entries_of stand.new.versions.entered) stand.new.history.items }
    ensures book { stand.new.versions.book ≡ stand.old.versions.book }
    ensures reader { reader.new.book ≡ reader.old.book }
{
    let all = stand.history.len();
    let known = stand.versions.entered();
    let fresh = &stand.history[known..];
    begin(alloc);
    let went = stand.versions.publish_up_to(rt, all, fresh).is_ok();
    let refused = end(alloc);
    tried(went, refused, sees(reader, b"c") == Some(went))
}

/// Whether a reader has the pages.
fn reads(alloc: Global, reader: &mut Reader) -> Option<Try>
    ensures { reader.new.book ≡ reader.old.book }
{
    begin(alloc);
    let page = reader.page(1);
    let refused = end(alloc);
    match page {
        Ok(Some(leaf)) => tried(true, refused, shows(&leaf, b": a= b= c=")),
        Ok(None) => None,
        Err(fault) => tried(false, refused, fault == ReadFault::NoMemory),
    }
}

/// Whether a reader finds the pairs.
fn finds(alloc: Global, reader: &mut Reader) -> Option<Try>
    ensures { reader.new.book ≡ reader.old.book }
{
    let key = Key::new(b"a").ok()?;
    begin(alloc);
    let pairs = reader.scan(&key, 9);
    let refused = end(alloc);
    match pairs {
        Ok(pairs) => tried(true, refused, are_shown(&pairs, " a= b= c=")),
        Err(fault) => tried(false, refused, fault == ReadFault::NoMemory),
    }
}

fn answers(alloc: Global, reader: &mut Reader, call: &Call) -> Option<Try>
    ensures { reader.new.book ≡ reader.old.book }
{
    match call {
        Call::Stretch => finds(alloc, reader),
        _ => reads(alloc, reader),
    }
}

/// A page or the pairs, once more if they were refused.
fn is_read(alloc: Global, reader: &mut Reader, call: &Call) -> Option<Try>
    ensures { reader.new.book ≡ reader.old.book }
{
    let first = answers(alloc, reader, call);
    if was_refused(first) {
        return refused_then(answers(alloc, reader, call));
    }
    first
}

/// A reader learns the news of its versions without memory.
fn learns(alloc: Global, stand: &mut Stand, reader: &mut Reader) -> bool
    requires { reader.old.book ≡ stand.old.versions.book }
{
    begin_without(alloc);
    reader.learn(stand.versions.news());
    let is_so = sees(reader, b"c") == Some(true);
    !end(alloc) & is_so
}

/// The history is published in a window, and the page then read, in another if that is asked.
fn goes_up_to<R: Wait>(
    rt: &R,
    alloc: Global,
    stand: &mut Stand,
    reader: &mut Reader,
    call: &Call,
) -> Option<Try>
    requires { stand.old.versions.entered ≡ [] }
{
    let first = publishes_up_to(rt, alloc, stand, reader);
    if was_refused(first) {
        return refused_then(publishes_up_to(rt, alloc, stand, reader));
    }
    let read = is_read(alloc, reader, call);
    if first == Some(Try::Went) {
        read
    } else {
        first
    }
}

fn is_up_to<R: Wait>(rt: &R, alloc: Global, stand: &mut Stand, call: &Call) -> Option<Try>
    requires { stand.old.versions.entered ≡ [] }
{
    match stand.versions.reader() {
        Ok(mut reader) => goes_up_to(rt, alloc, stand, &mut reader, call),
        Err(_) => None,
    }
}

fn stand_of<R: AllocGlobal + Wait>(rt: &R) -> Option<Stand>
    ensures { IfSome result (λ stand. stand.versions.entered ≡ []) }
{
    let alloc = rt.alloc();
    let (Some(history), Ok(start)) = (entries(alloc, b"abc"), start(alloc)) else {
        return None;
    };
    match Versions::open(rt, alloc, 1, start) {
        Ok(versions) => Some(Stand { versions, history }),
        Err(_) => None,
    }
}

fn with_versions<R: AllocGlobal + Wait>(rt: &R, call: &Call) -> Option<Try> {
    let mut stand = stand_of(rt)?;
    let went = match call {
        Call::ReaderOfVersions => is_reader_made(rt.alloc(), &mut stand.versions),
        _ => is_up_to(rt, rt.alloc(), &mut stand, call),
    };
    let Stand {
        versions,
        history: _history,
    } = stand;
    begin_without(rt.alloc());
    versions.shut(rt);
    if end(rt.alloc()) { None } else { went }
}

impl Ask for Call {
    // A call that makes something.
    fn asks<R: AllocGlobal + Wait>(&self, rt: &R) -> Option<Try> {
        match self {
            Call::Pack => packs(rt.alloc()),
            Call::NewBoard => board_goes(rt.alloc(), true),
            Call::OpenPublisher => opens_publisher(rt),
            _ => opens(rt),
        }
    }
}

impl Row for Call {
    fn goes<R: AllocGlobal + Threads + Wait>(&self, rt: &R) -> Option<Try> {
        match self {
            Call::OnBoard => board_goes(rt.alloc(), false),
            Call::Publish | Call::CatchUp | Call::ReaderOfPublisher => with_publisher(rt, self),
            Call::PublishUpTo | Call::Page | Call::Stretch | Call::ReaderOfVersions => {
                with_versions(rt, self)
            }
            _ => asked_again(rt, self),
        }
    }

    // The row of heads beside the pairs of a page.
    fn spares(&self) -> bool {
        true
    }
}

const CALLS: &[Call] = &[
    Call::Pack,
    Call::NewBoard,
    Call::OnBoard,
    Call::OpenPublisher,
    Call::Publish,
    Call::CatchUp,
    Call::ReaderOfPublisher,
    Call::OpenVersions,
    Call::PublishUpTo,
    Call::ReaderOfVersions,
    Call::Page,
    Call::Stretch,
];

#[test]
fn publications_and_readers(rt: HostRuntime) {
    assert_eq!(rt; wrong_row(&rt, CALLS), None);
}

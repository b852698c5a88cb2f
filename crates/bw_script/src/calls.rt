//! The calls that a line makes on a store. Each leaves the home ready.

ghost use Rattle.bw_home.specs.Ready.{IsReady};

use crate::answers::Answer;
use crate::events::Standing;
use bw_codec::{Key, Record, Value};
use bw_core::StoreFault;
use bw_device::MAX_LEASES;
use bw_file::FolderFault;
use bw_home::{GroupNotPut, Home};
use bw_rescue::RescueFault;
use bw_ring::Group;
use bw_words::{Command, Condition, Fault, Miss, Request, System, signed_of};
use std::alloc::{AllocError, Global};
use std::str;

/// Whether the group found a place in its writer's queue, before which the store takes all that
/// waits if that is full.
pub fn put_taking(home: &mut Home, writer: usize, group: Group) -> Result<Answer, Miss>
    requires { IsReady home.old holding }
    ensures { IsReady home.new holding }
{
    match home.put_group(writer, group) {
        Ok(()) => Ok(Answer::Put(true)),
        Err(
            GroupNotPut {
                cause: Some(cause),
                ..
            },
        ) => Err(Miss::from(cause)),
        Err(_) => Ok(Answer::Put(false)),
    }
}

/// How many records a turn of so many groups took.
fn turn(home: &mut Home, limit: u32) -> Result<Answer, Miss>
    requires { IsReady home.old holding }
    ensures { IsReady home.new holding }
{
    Ok(Answer::Took(home.turn(limit)?))
}

/// How many records a turn of so many groups took, with those that it took before room was made for
/// it, when it was asked first.
pub fn turn_on(home: &mut Home, limit: u32, before: &mut u64) -> Result<Answer, Miss>
    requires { IsReady home.old holding }
    ensures { IsReady home.new holding }
{
    match home.turn(limit) {
        Ok(count) => Ok(Answer::Took(before.saturating_add(count))),
        Err(fault) => {
            *before = before.saturating_add(fault.taken);
            Err(Miss::from(fault))
        }
    }
}

/// The number of the frame that was appended, if something waited. All that waits in the queues is
/// taken before: a turn without a limit ends with a round that took none, and nobody puts
/// meanwhile.
fn flush(home: &mut Home) -> Result<Answer, Miss>
    requires { IsReady home.old holding }
    ensures { IsReady home.new holding }
{
    let _ = home.turn(u32::MAX)?;
    let frame = home.flush()?;
    let _ = home.keep_pages();
    Ok(Answer::Frame(frame))
}

/// How many records were taken, once all of them are durable.
fn settle(home: &mut Home) -> Result<Answer, Miss>
    requires { IsReady home.old holding }
    ensures { IsReady home.new holding }
{
    let taken = home.settle()?;
    let _ = home.keep_pages();
    Ok(Answer::Settled(taken))
}

/// A page, as the history leaves it.
fn page(home: &mut Home, page: u32) -> Result<Answer, Miss>
    requires { IsReady home.old holding }
    ensures { IsReady home.new holding }
{
    Ok(Answer::Page(home.store.page(page)?))
}

/// Whether the page left memory; it stays if it is evicted, or if no frame has all of it.
fn evict(home: &mut Home, page: u32) -> Result<Answer, Miss>
    requires { IsReady home.old holding }
    ensures { IsReady home.new holding }
{
    Ok(Answer::Evicted(home.store.evict(page)?))
}

/// In how many frames a page was written again, whole.
fn rewrite(home: &mut Home, page: u32) -> Result<Answer, Miss>
    requires { IsReady home.old holding }
    ensures { IsReady home.new holding }
{
    Ok(Answer::Rewritten(home.store.rewrite(&[page])?))
}

/// From how many frames a page is read, once it left memory.
fn walk(home: &Home, page: u32) -> Result<Answer, Miss>
    requires { IsReady home.now holding }
{
    match home.store.walk_of(page) {
        Some(frames) => Ok(Answer::Walk(frames)),
        None => Err(Miss::from(StoreFault::NoPage)),
    }
}

/// The current segment takes no more frames.
fn roll(home: &mut Home) -> Answer
    requires { IsReady home.old holding }
    ensures { IsReady home.new holding }
{
    home.store.roll();
    Answer::Rolled
}

/// The bytes of a live segment. It is a fault if none has the number.
fn dump(alloc: Global, home: &mut Home, segment: u32) -> Result<Answer, Miss>
    requires { IsReady home.old holding }
    ensures { IsReady home.new holding }
{
    let mut bytes = Vec::new(alloc);
    match home.store.dump(u64::from(segment), &mut bytes) {
        Ok(true) => Ok(Answer::Dump(bytes)),
        Ok(false) => Err(Miss::Fault(Fault::BadNumber)),
        Err(fault) => Err(Miss::from(fault)),
    }
}

/// The number of the last frame that was appended, 0 before the first.
pub fn durable(home: &Home) -> u64
    requires { IsReady home.now holding }
{
    match home.store.next_frame() {
        Some(next) => next.saturating_sub(1),
        None => u64::MAX,
    }
}

/// The first pair at or above this key, as the history leaves it.
fn next_at(home: &mut Home, key: &Key) -> Result<Answer, Miss>
    requires { IsReady home.old holding }
    ensures { IsReady home.new holding }
{
    Ok(Answer::Pair(home.next_at(key)?))
}

/// The last pair at or below this key, as the history leaves it.
fn prev_at(home: &mut Home, key: &Key) -> Result<Answer, Miss>
    requires { IsReady home.old holding }
    ensures { IsReady home.new holding }
{
    Ok(Answer::Pair(home.prev_at(key)?))
}

/// The last pair below this key, as the history leaves it.
fn prev_below(home: &mut Home, key: &Key) -> Result<Answer, Miss>
    requires { IsReady home.old holding }
    ensures { IsReady home.new holding }
{
    Ok(Answer::Pair(home.prev_below(key)?))
}

/// The pairs at or above this key, no more than so many, as the history leaves them.
fn scan(alloc: Global, home: &mut Home, key: &Key, most: u32) -> Result<Answer, Miss>
    requires { IsReady home.old holding }
    ensures { IsReady home.new holding }
{
    let mut found = Vec::new(alloc);
    home.scan_shared(key, most as usize, &mut found)?;
    Ok(Answer::Pairs(found))
}

/// How many pairs there are, as the history leaves them.
fn count(home: &mut Home) -> Result<Answer, Miss>
    requires { IsReady home.old holding }
    ensures { IsReady home.new holding }
{
    Ok(Answer::Count(home.store.count()?))
}

/// Why no new folder was made: this one is at fault.
fn not_copied(folder: Result<String, AllocError>, fault: FolderFault) -> Result<Answer, Miss> {
    Ok(Answer::NotCopied(folder?, fault))
}

/// Copies the store into a new folder, once all that waits was taken and flushed. If the folder
/// cannot be made, that is an answer.
fn backup<R: System>(rt: &R, home: &mut Home, to: &Value) -> Result<Answer, Miss>
    requires { IsReady home.old holding }
    ensures { IsReady home.new holding }
{
    let Ok(path) = str::from_utf8(to.as_slice()) else {
        return Err(Miss::Fault(Fault::BadWord));
    };
    let _ = flush(home)?;
    match bw_rescue::backup(rt, home, path, MAX_LEASES) {
        Ok(copied) => Ok(Answer::Copied(copied)),
        Err(RescueFault::Target(fault)) => not_copied(format!(in rt.alloc(); "{path}"), fault),
        Err(RescueFault::Partial(fault)) => {
            let front = path.trim_end_matches('/');
            not_copied(format!(in rt.alloc(); "{front}.partial"), fault)
        }
        Err(fault) => Err(Miss::from(fault)),
    }
}

/// Does what a command asks for. What it gives up keeps its file, and what it adds is made.
pub fn call<R: System>(rt: &R, home: &mut Home, command: Command) -> Result<Answer, Miss>
    requires { IsReady home.old holding }
    ensures { IsReady home.new holding }
{
    match command {
        Command::Put(writer, group) => Ok(Answer::Put(home.offer(writer, group).is_ok())),
        Command::Turn(limit) => turn(home, limit),
        Command::Flush => flush(home),
        Command::Settle => settle(home),
        Command::Page(number) => page(home, number),
        Command::Get(key) => Ok(Answer::Value(home.get(&key)?)),
        Command::Evict(page) => evict(home, page),
        Command::Rewrite(page) => rewrite(home, page),
        Command::Walk(page) => walk(home, page),
        Command::Clean => Ok(Answer::Cleaned(home.give_up(rt)?)),
        Command::Roll => Ok(roll(home)),
        Command::Add => {
            home.make_spare(rt)?;
            Ok(Answer::Spare)
        }
        Command::History => Ok(Answer::History),
        Command::Cuts => Ok(Answer::Cuts),
        Command::Segments => Ok(Answer::Segments),
        Command::Leases => Ok(Answer::Leases(home.leases()?)),
        Command::Dump(segment) => dump(rt.alloc(), home, segment),
    }
}

/// Lets go of the history as far as readers have it, after what made some of it durable: a program
/// that is served asks for pairs and pages, and never for the history.
fn forget_behind(home: &mut Home, answer: &Answer)
    requires { IsReady home.old holding }
    ensures { IsReady home.new holding }
{
    if matches!(
        answer,
        Answer::Frame(_) | Answer::Settled(_) | Answer::Won(..) | Answer::Copied(_)
    ) {
        let _ = home.store.forget();
    }
}

/// How many bytes the live segments have.
pub fn live_bytes(home: &Home) -> u64
    requires { IsReady home.now holding }
{
    let mut bytes = 0u64;
    for i in 0..home.store.live() {
        if let Some((_, _, length)) = home.store.live_segment(i) {
            bytes = bytes.saturating_add(length);
        }
    }
    bytes
}

/// Gives up the oldest segment, and says what that won.
fn clean_served<R: System>(rt: &R, home: &mut Home) -> Result<Answer, Miss>
    requires { IsReady home.old holding }
    ensures { IsReady home.new holding }
{
    let before = live_bytes(home);
    let cleaned = home.give_up(rt)?;
    let won = before.saturating_sub(live_bytes(home));
    Ok(Answer::Won(cleaned, won))
}

/// Does what a command asks for; a cleaning says what it won.
fn call_winning<R: System>(rt: &R, home: &mut Home, command: Command) -> Result<Answer, Miss>
    requires { IsReady home.old holding }
    ensures { IsReady home.new holding }
{
    match command {
        Command::Clean => clean_served(rt, home),
        command => call(rt, home, command),
    }
}

/// Does what a command of a request asks for.
fn call_served<R: System>(rt: &R, home: &mut Home, command: Command) -> Result<Answer, Miss>
    requires { IsReady home.old holding }
    ensures { IsReady home.new holding }
{
    let answer = call_winning(rt, home, command)?;
    forget_behind(home, &answer);
    Ok(answer)
}

/// Copies the store into a new folder, and lets go of the history.
fn backup_served<R: System>(rt: &R, home: &mut Home, to: &Value) -> Result<Answer, Miss>
    requires { IsReady home.old holding }
    ensures { IsReady home.new holding }
{
    let answer = backup(rt, home, to)?;
    forget_behind(home, &answer);
    Ok(answer)
}

/// The number that a value spells, if it spells one.
fn number_in(value: &[u8]) -> Option<i64> {
    match str::from_utf8(value) {
        Ok(text) => signed_of(text).ok(),
        Err(_) => None,
    }
}

/// The number at a key once so much is added to it; `None` if it has no number, or the sum is none.
fn sum_at(home: &mut Home, key: &Key, added: i64) -> Result<Option<i64>, Miss>
    requires { IsReady home.old holding }
    ensures { IsReady home.new holding }
{
    let number = match home.get(key)? {
        Some(value) => number_in(value.as_slice()),
        None => Some(0),
    };
    match number {
        Some(number) => Ok(number.checked_add(added)),
        None => Ok(None),
    }
}

/// What a put of a number at a key comes to.
fn number_put(alloc: Global, key: Key, number: Option<i64>) -> Result<Decided, Miss> {
    let Some(number) = number else {
        return Ok(Decided::Answer(Answer::Fault(Fault::BadNumber)));
    };
    let text = format!(in alloc; "{number}")?;
    match Value::new(text.as_bytes()) {
        Ok(value) => Ok(put_of(key, value, Answer::Number(number))),
        Err(_) => Ok(Decided::Answer(Answer::Fault(Fault::BadNumber))),
    }
}

/// What a put that hangs on its key comes to.
#[derive(Drop)]
pub enum Decided {
    /// This is put, and answered so.
    Put(Group, Answer),
    /// Nothing is put.
    Answer(Answer),
}

/// A value is put at a key.
fn put_of(key: Key, value: Value, told: Answer) -> Decided {
    Decided::Put(Group::one(Record::Put(key, value)), told)
}

/// What it comes to that the value of a key goes to another one, which loses what it has.
fn rename(home: &mut Home, key: Key, new: Key) -> Result<Decided, Miss>
    requires { IsReady home.old holding }
    ensures { IsReady home.new holding }
{
    let Some(value) = home.get(&key)? else {
        return Ok(Decided::Answer(Answer::Value(None)));
    };
    if key.as_slice() == new.as_slice() {
        return Ok(Decided::Answer(Answer::Unchanged));
    }
    let mut group = Group::one(Record::Put(new, value));
    let _ = group.push(Record::Del(key));
    Ok(Decided::Put(group, Answer::Put(true)))
}

/// Whether a key has this value.
fn has_value(home: &mut Home, key: &Key, value: &Value) -> Result<bool, Miss>
    requires { IsReady home.old holding }
    ensures { IsReady home.new holding }
{
    match home.get(key)? {
        Some(there) => Ok(there.as_slice() == value.as_slice()),
        None => Ok(false),
    }
}

/// What a put that hangs on its key comes to, once all that was accepted before is taken.
pub fn decide(alloc: Global, home: &mut Home, condition: Condition) -> Result<Decided, Miss>
    requires { IsReady home.old holding }
    ensures { IsReady home.new holding }
{
    match condition {
        Condition::Incr(key, added) => {
            let sum = sum_at(home, &key, added)?;
            number_put(alloc, key, sum)
        }
        Condition::Swap(key, old, new) => {
            if has_value(home, &key, &old)? {
                return Ok(put_of(key, new, Answer::Put(true)));
            }
            Ok(Decided::Answer(Answer::Kept))
        }
        Condition::Absent(key, value) => {
            if home.get(&key)?.is_some() {
                return Ok(Decided::Answer(Answer::Kept));
            }
            Ok(put_of(key, value, Answer::Put(true)))
        }
        Condition::Rename(key, new) => rename(home, key, new),
    }
}

/// The values of some keys, in their order, as the history leaves them.
fn values_at(alloc: Global, home: &mut Home, keys: &[Key]) -> Result<Answer, Miss>
    requires { IsReady home.old holding }
    ensures { IsReady home.new holding }
{
    let mut found = Vec::new(alloc);
    'keys: for key in keys {
        found.push(home.get(key)?)?;
    }
    Ok(Answer::Values(found))
}

/// Does what a request asks for, once what was accepted before is taken.
pub fn answer<R: System>(rt: &R, home: &mut Home, request: Request) -> Result<Answer, Miss>
    requires { IsReady home.old holding }
    ensures { IsReady home.new holding }
{
    match request {
        Request::Do(command) => call_served(rt, home, command),
        Request::Next(key) => next_at(home, &key),
        Request::Prev(key) => prev_at(home, &key),
        Request::Below(key) => prev_below(home, &key),
        Request::Scan(key, most) => scan(rt.alloc(), home, &key, most),
        Request::Count => count(home),
        Request::GetMany(keys) => values_at(rt.alloc(), home, keys.as_slice()),
        Request::Backup(to) => backup_served(rt, home, &to),
        Request::Durable => Ok(Answer::Durable(durable(home))),
        Request::Pages => Ok(Answer::Pages(home.store.pages())),
        // What hangs on a key is decided before, and put as a command; many pairs are put one by
        // one.
        Request::If(_) | Request::PutMany(_) => Ok(Answer::Kept),
        Request::Stats | Request::Reopen | Request::Quit => Ok(Answer::Stats(Standing::NONE)),
    }
}

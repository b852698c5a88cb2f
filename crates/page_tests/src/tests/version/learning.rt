//! A reader in a thread of its own that learnt the last news sees all of it.

ghost use Rattle.std.specs.Prelude.{◌≡◌, []};
ghost use mathlib.Core.List.{IsPrefix};
ghost use Rattle.bw_versions.specs.Batches.{entries_of};

use super::{Case, Stand, enter, over, page_is, publish, value_is};
use bw_codec::Record;
use bw_versions::{News, Reader};
use std::sync::Wait;
use std::thread;
use std::thread::Threads;
use test_kit::vectors::put;

/// How many records each of two writers put.
const EACH: u16 = 1_000;

/// How many of each come with a publication.
const STEP: u16 = 150;

fn digits(number: u16) -> [u8; 4] {
    let digit = |at: u16| b'0' + (number / at % 10) as u8;
    [digit(1000), digit(100), digit(10), digit(1)]
}

// A key of a letter and four digits, with the digits as its value.
fn record_of(letter: u8, number: u16) -> Option<Record> {
    let [a, b, c, d] = digits(number);
    put(&[letter, a, b, c, d], &[a, b, c, d])
}

// Publishes both writers' records, a part of them at a time.
fn publish_all<R: Wait>(rt: &R, stand: &mut Stand) -> bool
    requires { IsPrefix (entries_of stand.old.versions.entered) stand.old.history.items }
    ensures { stand.new.versions.book ≡ stand.old.versions.book }
{
    for number in 0..EACH {
        let one = enter(stand, 0, record_of(b'a', number));
        let other = enter(stand, 1, record_of(b'b', number));
        let is_due = number % STEP == 0 || number == EACH - 1;
        if !one || !other || is_due && !publish(rt, stand) {
            return false;
        }
    }
    true
}

// Whether the last value and the first page are there for a reader that learns these news.
fn has_all(mut reader: Reader, news: News) -> bool
    requires { news.book ≡ reader.book }
{
    reader.learn(news);
    value_is(&mut reader, "b0999", "0999") && page_is(&mut reader, 1, ": a0000=0000 a0001=0001")
}

pub(super) fn learns<R: Threads + Wait>(rt: &R, stand: &mut Stand) -> bool
    requires { stand.old.versions.entered ≡ [] }
{
    let Ok(reader) = stand.versions.reader() else {
        return false;
    };
    let published = publish_all(rt, stand);
    let news = stand.versions.news();
    let child = thread::spawn(
        rt,
        move ||
            requires { news.book ≡ reader.book }
        { has_all(reader, news) },
    );
    match child {
        Ok(child) => child.join(rt) && published,
        Err(_) => false,
    }
}

#[test]
fn news_go_to_another_thread(rt: HostRuntime) {
    assert_eq!(rt; over(&rt, 1, &Case::Learns), None);
}

//! That what crosses threads may: the check refuses these functions if it may not.

use crate::board::Version;
use crate::reader::{News, Reader};
use crate::view::VersionReader;
use std::marker::{Send, Sync};

fn is_shared<T: Sync + Send>(_value: &T) {}

fn is_sent<T: Send>(_value: &T) {}

/// Versions are shared, readers and news are sent.
pub fn cross(version: &Version, seat: &VersionReader, reader: &Reader, news: &News) {
    is_shared(version);
    is_sent(seat);
    is_sent(reader);
    is_sent(news);
}

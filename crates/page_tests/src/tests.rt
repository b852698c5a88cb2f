//! A module for each of `bw_codec`, `bw_buffer`, `bw_whole`, `bw_ring`, `bw_page` and
//! `bw_versions`.

mod buffer;
mod codec;
mod page;
mod ring;
mod version;
mod whole;

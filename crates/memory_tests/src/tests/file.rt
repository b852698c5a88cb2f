//! Calls of `bw_ring`, `bw_device` and `bw_file`.

mod devices;
mod files;

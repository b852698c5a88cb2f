//! Calls of `bw_log`, `bw_care`, `bw_store` and `bw_drive`.

mod boxes;
mod care;
mod drives;
mod recovering;
mod stores;

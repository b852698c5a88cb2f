//! `bw_codec`: the worked bytes of `docs/FORMAT.md` are read as they are shown there and written
//! again; bytes that were torn or changed are found out; and each public call succeeds if memory is
//! there.
//!
//! Tables of rows, each gone through to the first that goes otherwise than expected.

mod calls;
mod headings;
mod reading;
mod runs;
mod told;
mod writing;
mod wrong;

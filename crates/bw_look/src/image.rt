//! A segment as it is looked at.

/// The bytes of a segment, and the lease whose file has them, if they are a file's.
#[derive(Drop)]
pub struct Image {
    pub lease: Option<u32>,
    pub bytes: Vec<u8>,
}

//! Whether two folders have the same files.

ghost use Rattle.std.specs.Prelude.{◌≡◌, ◌↔◌, IsTrue};
ghost use Rattle.bw_rescue.specs.Alike.{bytes_at, AreHeld, AreAlike};

use bw_look::Image;

// The bytes of a lease's file, of which the first counts; none if there is no such file.
fn bytes_at(images: &[Image], lease: Option<u32>) -> &[u8]
    ensures { result.now ≡ bytes_at lease images.now }
{
    for image in images {
        if image.lease == lease {
            return image.bytes.as_slice();
        }
    }
    &[]
}

// Whether each of these files has the bytes that the others have at its lease.
fn are_held(others: &[Image], images: &[Image]) -> bool
    ensures { IsTrue result ↔ AreHeld others.now images.now }
{
    for image in images {
        if bytes_at(others, image.lease) != image.bytes.as_slice() {
            return false;
        }
    }
    true
}

/// Whether two folders have the same files, byte by byte and lease by lease. A file without bytes
/// counts as none.
pub fn are_same(images: &[Image], read: &[Image]) -> bool
    ensures exact { IsTrue result ↔ (AreHeld images.now read.now × AreHeld read.now images.now) }
    ensures alike { IsTrue result → AreAlike images.now read.now }
{
    are_held(images, read) && are_held(read, images)
}

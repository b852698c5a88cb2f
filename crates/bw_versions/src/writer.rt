//! The writer of the versions, what it takes, and the readers that it makes.
//!
//! It has two versions, and each publication is applied to both: first to the one that readers do
//! not look at, and to the other once they look at this one. A reader that is made later hears the
//! book at once, and has seen nothing of it: it may be shown any board.

ghost use Rattle.std.specs.Prelude.{◌≡◌, [], Some, IfOk, MatchResult, drop};
ghost use Rattle.left_right.specs.Sides.{view};
ghost use Rattle.bw_versions.specs.Keeping.{Follows, last_mark, fresh};

use crate::board::{Batch, Version};
use crate::book::Front;
use crate::view::{Looks, OneBook, VersionReader, View};
use atomic_table::{Join, Split};
use left_right::Absorb;
use std::alloc::AllocError;
use std::sync::Wait;

/// A batch, with the front that stands after it.
#[derive(Drop)]
pub struct Operation {
    pub batch: Batch,
    pub mark: Front,
}

impl Absorb<Operation> for Version {
    type State = Version;

    ghost use Rattle.bw_versions.specs.Keeping.{applied};

    ghost state = { λ s. s };

    ghost applied = { applied };

    fn absorb_first(&mut self, operation: &Operation, _other: &Version) -> Result<(), AllocError> {
        self.posts.take_in(&operation.batch)?;
        self.mark = operation.mark.again();
        Ok(())
    }
}

pub type VersionWriter = left_right::writer::Writer<Version, Operation, View, OneBook>;

/// Publishes all that is pending, at once. From the first time on the writer knows its book.
pub fn publish<R: Wait>(writer: VersionWriter, rt: &R) -> (VersionWriter, Result<(), AllocError>)
    requires own { writer.desk.shown.value.mark.log ≡ writer.desk.shown.value.posts }
    requires follows { Follows writer.desk.shown.value.mark
        (drop writer.behind writer.log.items) }
    ensures { MatchResult result.1
        (λ _. (result.0.desk.shown.value.mark
        ≡ last_mark writer.desk.shown.value.mark (drop writer.behind writer.log.items))
        × (result.0.desk.shown.value.mark.log ≡ result.0.desk.shown.value.posts)
        × (drop result.0.behind result.0.log.items ≡ [])
        × (view result.0.desk.place ≡ Some result.0.desk.shown.value.mark))
        (λ _. (result.0.desk.shown.value ≡ writer.desk.shown.value)
        × (drop result.0.behind result.0.log.items ≡ drop writer.behind writer.log.items)
        × (view result.0.desk.place ≡ view writer.desk.place)) }
{
    writer.publish_as::<Looks, R>(rt)
}

// The writer keeps what it knows, and says only the book.
struct ItsBook;

impl Split<View> for ItsBook {
    ghost use Rattle.bw_versions.specs.Keeping.{fresh};

    ghost left = { λ v. v };

    ghost right = { fresh };
}

// A reader that knew nothing knows what it heard.
struct AsTold;

impl Join<View> for AsTold {
    ghost use Rattle.std.specs.Prelude.{None};

    ghost both = { λ v w. w };

    ghost spent = { None };
}

/// One more reader, which hears its book at once.
pub fn informed(writer: &mut VersionWriter) -> Result<VersionReader, AllocError>
    ensures view { IfOk result (λ r. view r.place ≡ fresh (view writer.old.desk.place)) }
    ensures kept { (view writer.new.desk.place ≡ view writer.old.desk.place)
        × (writer.new.desk.shown ≡ writer.old.desk.shown) }
    ensures pending { (writer.new.log ≡ writer.old.log)
        × (writer.new.behind ≡ writer.old.behind) }
{
    let mut reader = writer.factory().reader()?;
    reader.learn::<AsTold>(writer.tell::<ItsBook>());
    Ok(reader)
}

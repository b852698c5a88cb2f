//! What is done with a store.

ghost use Rattle.std.specs.Prelude.{IfSome, IsNone, IsSome, MatchOption};
ghost use Rattle.bw_home.specs.Beginning.{IsBegun};
ghost use Rattle.bw_home.specs.Ready.{IsReady};

use crate::home::Home;

/// What is done with a store, by a handle `R`.
///
/// The home that it is handed is ready: its store is sound, and its feeds are those of the store's
/// rings, all of them, in order. `run` leaves it so, whatever it answers. It is also begun: nothing
/// was put before, and nothing was taken since it was opened.
pub trait Course<R>: Drop {
    /// What it answers.
    type Answer;

    // What a course says of its answer: nothing by default.
    ghost says: { Self → Self.Answer → Type 0 } = { λ _ _. Unit {0} };

    /// Does it.
    fn run(self, rt: &R, home: &mut Home) -> Self::Answer
        requires ready { IsReady home.old holding }
        requires begun { IsBegun home.old holding }
        ensures ready { IsReady home.new holding }
        ensures answer { says self result };
}

/// What is done with a store in legs. The home that each leg is handed is ready, and the leg leaves
/// it so. Between two legs the segments that were made become spares: nobody who is lent the store
/// makes a box.
pub trait Legs<R>: Drop {
    /// What it answers.
    type Answer;

    // What it says of its answer: nothing by default. A leg adds nothing to that.
    ghost says: { Self → Self.Answer → Type 0 } = { λ _ _. Unit {0} };

    // Whether the next leg has to be the first one, whose home is begun. By default none has to be,
    // and after a leg none has to be.
    ghost begins: { Self → Type 0 } = { λ _. ⊥ };

    /// Goes on, up to the answer; `None` asks for another leg.
    fn leg(&mut self, rt: &R, home: &mut Home) -> Option<Self::Answer>
        requires ready { IsReady home.old holding }
        requires begun { begins self.old → IsBegun home.old holding }
        ensures ready { IsReady home.new holding }
        ensures answer { MatchOption result
            ((answer : Self.Answer) → says self.new answer → says self.old answer)
            (λ answer. says self.old answer) }
        ensures begun { IsNone result → begins self.new → ⊥ };
}

/// A course as one leg.
#[derive(Drop)]
pub(crate) struct Whole<C> {
    pub(crate) course: Option<C>,
}

impl<R, C: Course<R>> Legs<R> for Whole<C> {
    type Answer = C::Answer;

    ghost says = { λ self answer. IfSome self.course (λ course. C.says course answer) };

    ghost begins = { λ self. IsSome self.course };

    fn leg(&mut self, rt: &R, home: &mut Home) -> Option<C::Answer> {
        match self.course.take() {
            Some(course) => Some(course.run(rt, home)),
            None => None,
        }
    }
}

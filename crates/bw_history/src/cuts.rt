//! Frames by their numbers, and cuts for them.

ghost use Rattle.std.specs.Prelude.{◌≡◌, ◌≤◌, ◌+◌, ◌++◌, replicate, vec_len};
ghost use Rattle.std.specs.Vec.{vec_capacity};
ghost use Rattle.bw_history.specs.Cuts.{end_by};

/// How many frames have the numbers from one to another; there is none after the greatest.
pub fn frames_between(first: Option<u64>, next: Option<u64>) -> u64
    requires some { 1 ≤ end_by first }
    requires after { end_by first ≤ end_by next }
    ensures { result + end_by first ≡ end_by next }
{
    match (first, next) {
        (Some(first), Some(next)) => next - first,
        (Some(first), None) => u64::MAX - first + 1,
        (None, _) => 0,
    }
}

/// Adds so many cuts at one place.
pub fn push_many(cuts: &mut Vec<u64>, end: u64, count: u64)
    requires { vec_len cuts.old + count ≤ vec_capacity cuts.old }
    ensures { cuts.new.items ≡ cuts.old.items ++ replicate count end }
{
    'cuts: for _ in 0..count {
        cuts.push_reserved(end);
    }
}

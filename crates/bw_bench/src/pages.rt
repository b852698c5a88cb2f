//! Pages only, with no ring, log or reader: what a record costs at least.

ghost use Rattle.std.specs.Prelude.{◌≡◌, []};

use crate::bench::Bench;
use crate::shape::{Shape, Span, WHOLE};
use crate::stop::Stop;
use crate::watch::resident;
use bw_codec::{Packed, Record};
use bw_page::{ApplyError, Leaves};

fn apply_all(bench: &Bench, leaves: &mut Leaves, script: &[Record]) -> Option<()>
    requires { leaves.old.evicted ≡ [] }
    ensures { leaves.new.evicted ≡ [] }
{
    'records: for item in script {
        let packed = Packed::of(bench.alloc, item).ok()?;
        match leaves.apply(&packed) {
            Ok(_) => {}
            Err(ApplyError::NoMemory) => return None,
            Err(fault) => return bench.stop(Stop::Refused, fault),
        }
    }
    Some(())
}

/// How many keys have not the value of the last of so many puts.
fn wrong_of(leaves: &Leaves, shape: Shape, puts: u64) -> Option<u64>
    requires { leaves.now.evicted ≡ [] }
{
    let mut wrong = 0u64;
    'keys: for put in 0..shape.keys {
        let found = leaves.get(&shape.key(put)?);
        let expected = shape.value(shape.last(put, puts))?;
        wrong = wrong.saturating_add(u64::from(found != Some(expected)));
    }
    Some(wrong)
}

fn apply_script(bench: &Bench, leaves: &mut Leaves, span: Span, script: &[Record]) -> Option<()>
    requires { leaves.old.evicted ≡ [] }
    ensures { leaves.new.evicted ≡ [] }
{
    let shape = bench.options.shape();
    let before = resident(bench);
    let start = bench.now();
    apply_all(bench, leaves, script)?;
    let nanos = bench.since(start);
    bench.tell(span.name, span.count(), nanos);
    let grown = resident(bench).saturating_sub(before);
    bench.tell_each("  in memory", span.count(), grown, "bytes");
    let pages = u64::from(leaves.count());
    bench.tell_each("  in memory, a page", pages, grown, "bytes");
    let wrong = wrong_of(leaves, shape, span.to)?;
    bench.tell_wrong(span.name, shape.keys, wrong)
}

fn apply_span(bench: &Bench, leaves: &mut Leaves, span: Span) -> Option<()>
    requires { leaves.old.evicted ≡ [] }
    ensures { leaves.new.evicted ≡ [] }
{
    let script = bench.options.shape().script(bench.alloc, span, WHOLE)?;
    apply_script(bench, leaves, span, script.as_slice())
}

fn apply_both(bench: &Bench, leaves: &mut Leaves) -> Option<()>
    requires { leaves.old.evicted ≡ [] }
    ensures { leaves.new.evicted ≡ [] }
{
    let (load, update) = bench.options.spans();
    apply_span(bench, leaves, load)?;
    apply_span(bench, leaves, update)
}

/// Applies new keys, then old ones.
pub fn pages(bench: &Bench) -> Option<()> {
    let mut leaves = Leaves::one_empty(bench.alloc, 32).ok()?;
    apply_both(bench, &mut leaves)
}

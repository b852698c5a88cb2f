//! Updates of the same keys over a folder of four segments: the room of those that are given up
//! comes back, and memory stays as it is.

ghost use Rattle.bw_home.specs.Ready.{IsReady};

use crate::bench::Bench;
use crate::folders::must_be_new;
use crate::stop::Stop;
use crate::watch::{Meter, resident};
use bw_codec::Record;
use bw_home::{Home, Legs, Options, System, with_store_in_legs};

/// How many segments there are, and how many bytes each has room for.
const SEGMENTS: u32 = 4;

const CAPACITY: u64 = 1_048_576;

/// After so many puts memory is looked at first: at the next cleaning, as from then on at each.
const EARLY: u64 = 1_000_000;

/// How far the puts are, and what was seen of memory.
struct Updating<'b> {
    bench: &'b Bench,
    meter: Meter,
    puts: u64,
    cleanings: u64,
    /// How many bytes the process had in memory after the first look, and after the last.
    early: u64,
    late: u64,
}

impl Drop for Updating<'_> {
    fn drop(self) {
        let Updating {
            bench: _,
            meter: _,
            puts: _,
            cleanings: _,
            early: _,
            late: _,
        } = self;
    }
}

impl Updating<'_> {
    // Puts one record.
    fn put(&self, home: &mut Home, put: u64) -> Option<()>
        requires { IsReady home.old holding }
        ensures { IsReady home.new holding }
    {
        let shape = self.bench.options.shape();
        let record = Record::Put(shape.key(put)?, shape.value(put)?);
        match home.put(record) {
            Ok(()) => Some(()),
            Err(_) => self.bench.stop(Stop::Refused, "a put"),
        }
    }

    // Puts a batch, and settles. What is durable of the history leaves memory.
    fn put_batch(&mut self, home: &mut Home, to: u64) -> Option<()>
        requires { IsReady home.old holding }
        ensures { IsReady home.new holding }
    {
        'puts: for put in self.puts..to {
            self.put(home, put)?;
        }
        self.puts = to;
        match home.settle() {
            Ok(_) => {}
            Err(fault) => return self.bench.refused(fault),
        }
        let _ = home.store.forget();
        Some(())
    }

    // Gives up the oldest segment.
    fn clean<R: System>(&mut self, rt: &R, home: &mut Home) -> Option<()>
        requires { IsReady home.old holding }
        ensures { IsReady home.new holding }
    {
        if let Err(fault) = home.clean(rt) {
            return self.bench.not_begun(fault);
        }
        self.cleanings = self.cleanings.saturating_add(1);
        Some(())
    }

    // A look at memory.
    fn look(&mut self) {
        if self.puts >= EARLY.min(self.bench.options.puts() / 2) {
            self.late = resident(self.bench);
            if self.early == 0 {
                self.early = self.late;
            }
        }
    }

    // Puts up to a cleaning, or to the end; answers whether there was one.
    fn go<R: System>(&mut self, rt: &R, home: &mut Home) -> Option<bool>
        requires { IsReady home.old holding }
        ensures { IsReady home.new holding }
    {
        let all = self.bench.options.puts();
        let size = u64::from(self.bench.options.batch).max(1);
        self.look();
        'batches: for _ in 0..all {
            if self.puts >= all {
                break;
            }
            self.put_batch(home, self.puts.saturating_add(size).min(all))?;
            self.meter.tell(self.bench, self.puts);
            if home.store.spares() < 2 && home.store.pays() {
                self.clean(rt, home)?;
                return Some(true);
            }
        }
        Some(false)
    }

    // Prints what came of it, and reads all keys back.
    fn end(&self, home: &mut Home) -> Option<()>
        requires { IsReady home.old holding }
        ensures { IsReady home.new holding }
    {
        self.bench
            .tell("steady", self.puts, self.meter.nanos(self.bench));
        if self.bench.options.times {
            self.bench.tell_each("  cleanings", self.cleanings, 0, "");
            self.bench
                .tell_each("  in memory, early", 1, self.early, "bytes");
            self.bench
                .tell_each("  in memory, late", 1, self.late, "bytes");
        }
        self.read_back(home)
    }

    // Reads all keys back: each has the value that it was last given.
    fn read_back(&self, home: &mut Home) -> Option<()>
        requires { IsReady home.old holding }
        ensures { IsReady home.new holding }
    {
        let shape = self.bench.options.shape();
        let keys = u64::from(self.bench.options.keys);
        let mut wrong = 0u64;
        'keys: for put in 0..keys {
            let expected = shape.value(shape.last(put, self.puts))?;
            let key = shape.key(put)?;
            let is_right = match home.get(&key) {
                Ok(found) => found == Some(expected),
                Err(fault) => return self.bench.refused(fault),
            };
            wrong = wrong.saturating_add(u64::from(!is_right));
        }
        self.bench.tell_wrong("steady", keys, wrong)
    }
}

impl<R: System> Legs<R> for Updating<'_> {
    type Answer = Option<()>;

    fn leg(&mut self, rt: &R, home: &mut Home) -> Option<Option<()>> {
        match self.go(rt, home) {
            Some(true) => None,
            Some(false) => Some(self.end(home)),
            None => Some(None),
        }
    }
}

/// Runs it in a new folder of this name.
pub fn steady<R: System>(rt: &R, bench: &Bench, dir: &str, name: &'static str) -> Option<()> {
    must_be_new(bench, dir, name)?;
    let path = format!(in bench.alloc; "{dir}/{name}").ok()?;
    let options = Options {
        queue_groups: usize::from(bench.options.batch),
        segments: SEGMENTS,
        capacity: CAPACITY,
        page_bytes: u64::MAX,
        ..Options::default()
    };
    let mut legs = Updating {
        bench,
        meter: Meter::start(bench, name, bench.options.puts()),
        puts: 0,
        cleanings: 0,
        early: 0,
        late: 0,
    };
    match with_store_in_legs(rt, path.as_str(), &options, &mut legs) {
        Ok(went) => went,
        Err(fault) => bench.not_begun(fault),
    }
}

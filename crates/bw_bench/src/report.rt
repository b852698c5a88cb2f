//! What is printed of a subject.

use crate::bench::Bench;
use crate::stop::Stop;

/// What a reader beside saw.
#[derive(Clone, Copy)]
pub struct Seen {
    pub lookups: u64,
    pub found: u64,
    /// How many values no put has.
    pub wrong: u64,
}

impl Bench {
    /// No value may be wrong.
    fn none_of(&self, wrong: u64) -> Option<()> {
        if wrong > 0 {
            return self.stop(Stop::Wrong, "wrong values");
        }
        Some(())
    }

    /// Prints a text, and a number after it.
    fn print(&self, text: &str, number: u64) {
        let written = print!(self.system; "{text}{number}");
        self.keep(written);
    }

    /// Prints a text.
    fn print_text(&self, text: &str) {
        let written = self.system.print(text);
        self.keep(written);
    }

    /// What the run was asked for.
    pub fn tell_sizes(&self) {
        let options = self.options;
        self.print("", u64::from(options.keys));
        self.print(" keys of ", options.shape().length() as u64);
        self.print(" bytes, values of ", u64::from(options.value_length));
        self.print(", ", u64::from(options.operations));
        self.print_text(" operations\n");
        self.print("batches of ", u64::from(options.batch));
        self.print(", ", u64::from(options.writers));
        self.print_text(" writers\n");
    }

    /// The name of a subject.
    pub fn tell_name(&self, name: &'static str) {
        self.print_text(name);
        self.print_text("\n");
    }

    /// How often something was done, and what each took of all that it took; only with times.
    pub fn tell_each(&self, name: &'static str, count: u64, all: u64, unit: &'static str) {
        if self.options.times {
            let each = all.checked_div(count).unwrap_or(0);
            let written = println!(self.system; "{name:<36}{count:>10}{each:>10} {unit}");
            self.keep(written);
        }
    }

    /// How often something was done, and with times the nanoseconds, of which all of it took so
    /// many.
    pub fn tell(&self, name: &'static str, count: u64, nanos: u64) {
        if self.options.times {
            self.tell_each(name, count, nanos, "ns");
        } else {
            self.print_text(name);
            self.print(": ", count);
            self.print_text("\n");
        }
    }

    /// How many keys were read back, and how many of them otherwise than they were put: none may
    /// be.
    pub fn tell_wrong(&self, name: &'static str, keys: u64, wrong: u64) -> Option<()> {
        self.print_text(name);
        self.print(": ", keys);
        self.print(" read back, ", wrong);
        self.print_text(" wrong\n");
        self.none_of(wrong)
    }

    /// What a reader beside saw, if there was one: no value that was not put.
    pub fn tell_seen(&self, seen: Option<Seen>) -> Option<()> {
        let Some(seen) = seen else {
            return Some(());
        };
        if self.options.times {
            self.print("  beside it ", seen.lookups);
            self.print(" look-ups, ", seen.found);
            self.print_text(" found\n");
        }
        self.print("  a reader beside: ", seen.wrong);
        self.print_text(" wrong\n");
        self.none_of(seen.wrong)
    }
}

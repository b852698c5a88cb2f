//! A first program: it puts a pair into a folder, and reads it.
#![tactic(auto)]

use bw::{Course, Home, Key, Options, System, Value, with_store};
use std::str;

/// Sets a value, makes it durable, and reads it.
#[derive(Drop)]
struct Greet;

impl<R: System> Course<R> for Greet {
    type Answer = anyhow::Result<Option<Value>>;

    fn run(self, _rt: &R, home: &mut Home) -> anyhow::Result<Option<Value>> {
        home.set(Key::new(b"hello")?, Value::new(b"world")?)?; // seen from here on
        home.keep()?; // and found again, whatever stops
        Ok(home.get(&Key::new(b"hello")?)?)
    }
}

fn main(rt: HostRuntime) -> anyhow::Result<()> {
    if let Some(value) = with_store(&rt, "pairs", &Options::default(), Greet)?? {
        println!(&rt; "{}", str::from_utf8(value.as_slice())?)?;
    }
    Ok(())
}

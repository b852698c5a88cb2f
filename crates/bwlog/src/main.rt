//! The program: `bw_script::run` on the words and the standard streams that the system gives it.
#![tactic(auto)]

use bw_script::run;
use bw_words::{Host, Refusal};
use std::alloc::Global;
use std::io::{self, BufWriter, ErrorKind, IsTerminal};
use std::process::ExitCode;

/// The words after the program's name.
fn words_of(rt: &HostRuntime, alloc: Global) -> io::Result<Vec<String>> {
    let mut words = Vec::new(alloc);
    for word in std::env::args(rt)?.skip(1) {
        words.push(word)?;
    }
    Ok(words)
}

/// Runs the program on the system's words and streams. The handle by which it may wait is given by
/// itself: only `main` knows that the system is one.
fn start<R: Host>(host: &HostRuntime, rt: &R) -> io::Result<u8> {
    let alloc = rt.alloc();
    let words = words_of(host, alloc)?;
    let mut texts = Vec::new(alloc);
    for word in &words {
        texts.push(word.as_str())?;
    }
    let is_shown = host.stdout().is_terminal();
    let is_typed = host.stdin().is_terminal();
    let mut output = BufWriter::new(alloc, host.stdout())?;
    let status = run(
        rt,
        texts.as_slice(),
        &mut host.stdin(),
        &mut output,
        &mut host.stderr(),
        is_shown,
        is_typed,
    );
    Ok(status)
}

fn main(rt: HostRuntime) -> ExitCode {
    match start(&rt, &rt) {
        Ok(status) => ExitCode::from(status),
        Err(error) if error.kind() == ErrorKind::OutOfMemory => {
            let _ = rt.println(Refusal::NO_MEMORY);
            ExitCode::from(5)
        }
        Err(_) => {
            let _ = rt.eprintln("a word of the command line is no text");
            ExitCode::from(2)
        }
    }
}

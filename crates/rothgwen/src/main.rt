//! The program: reads a record of a run, and says what it holds.
#![tactic(auto)]

use std::io::{ErrorKind, Read};
use std::{fs, io};

/// A record is at most so long; one byte more is read, so that a longer one is refused by its number.
const RECORD_LIMIT: u64 = 4096;

/// The bytes of a file, at most one past the limit; a missing file is an empty one.
fn load(rt: &HostRuntime, path: &str, limit: u64) -> io::Result<Vec<u8>> {
    let mut bytes = Vec::new(rt.alloc());
    match fs::open(rt, path) {
        Ok(file) => {
            file.take(limit.saturating_add(1)).read_to_end(&mut bytes)?;
        }
        Err(e) if e.kind() == ErrorKind::NotFound => {}
        Err(e) => return Err(e),
    }
    Ok(bytes)
}

fn run(rt: &HostRuntime) -> anyhow::Result<()> {
    let bytes = load(rt, "run.rec", RECORD_LIMIT)?;
    rt.println(summary::account(rt.alloc(), bytes.as_slice())?)?;
    Ok(())
}

fn main(rt: HostRuntime) -> anyhow::Result<()> {
    run(&rt)
}

//! Plays a script: one call a line on standard input, or in the file named as argument, and one answer
//! a line.

#![tactic(auto)]

mod lines;
mod lookups;
mod play;

use std::io::Read;
use std::{env, fs};

// The script as bytes, since a line may hold any.
fn script(rt: &HostRuntime) -> anyhow::Result<Vec<u8>> {
    let mut args = env::args(rt)?;
    let _program = args.next();
    if let Some(path) = args.next() {
        return Ok(fs::read(rt, path.as_str())?);
    }
    let mut text = Vec::new(rt.alloc());
    rt.stdin().read_to_end(&mut text)?;
    Ok(text)
}

fn main(rt: HostRuntime) -> anyhow::Result<()> {
    play_all(&rt)
}

fn play_all(rt: &HostRuntime) -> anyhow::Result<()> {
    let text = script(rt)?;
    play::play(rt, &text)
}

// Plays the recording on standard input, and prints its lines.
#![tactic(auto)]

use anyhow::ensure;
use recording::play::play;
use std::env::{Env, FillError};
use std::io::Read;

fn main(rt: HostRuntime) -> anyhow::Result<()> {
    // Whether one follows the name that the program has, and no more: neither need be UTF-8.
    ensure!(
        matches!(rt.arg(1, &mut []), Err(FillError::NotPresent)),
        "no arguments are taken: the recording is read from standard input"
    );
    let mut bytes = Vec::new(rt.alloc());
    rt.stdin().read_to_end(&mut bytes)?;
    let lines = play(rt.alloc(), &bytes)?;
    rt.print(lines.as_str())?;
    Ok(())
}

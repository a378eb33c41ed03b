// Reads books, readable and damaged, and prints what the reader answers.
#![tactic(auto)]

mod build;
mod contents;
mod damaged;
mod show;
mod whole;

use std::io;

fn main(rt: HostRuntime) -> io::Result<()> {
    whole::all(&rt)?;
    contents::all(&rt)?;
    damaged::all(&rt)?;
    build::all(&rt)
}

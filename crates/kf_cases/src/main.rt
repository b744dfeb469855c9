//! Runs the proved call on cases that stand in files, and compares what comes with what they say.
//! README.md has the form of a file of cases.
#![tactic(auto)]

mod cases;
mod comparison;
mod content;
mod errors;
mod keys;
mod runs;
mod tally;

use crate::tally::Tally;
use kf_io::{HostFiles, read_whole};
use std::process::ExitCode;
use std::rt::{Env, Files};
use std::{env, io};

// Runs the cases of each file that the arguments name.
fn run_all(rt: &(impl Env + Files + Print + AllocGlobal)) -> io::Result<Tally> {
    let mut files = HostFiles::new(rt);
    let mut tally = Tally::new();
    for name in env::args(rt)?.skip(1) {
        match read_whole(rt.alloc(), &mut files, name.as_str()) {
            Ok(bytes) => comparison::try_file(rt, name.as_str(), &bytes, &mut tally)?,
            Err(_) => {
                tally.count(false);
                println!(rt; "{name}: the file can't be read")?;
            }
        }
    }
    Ok(tally)
}

fn main(rt: HostRuntime) -> io::Result<ExitCode> {
    let tally = run_all(&rt)?;
    let agree = tally.agree;
    let differ = tally.differ;
    println!(rt; "{agree} agree, {differ} differ")?;
    Ok(ExitCode::from(tally.status()))
}
